ghost use Rattle.std.specs.Prelude.{◌≡◌};
ghost use Rattle.l2_sat.specs.Statuses.{status_number};

/// How a run ends.
#[derive(Clone, Copy, Debug, PartialEq, Eq)]
pub enum SatStatus {
    Accepted,
    /// The words are refused.
    Usage,
    ReadFault,
    WriteFault,
    NoMemory,
    /// FILE is refused.
    FormulaRefused,
    /// PROOF is refused.
    FileRefused,
    TooLong,
    Satisfiable,
    Unsatisfiable,
}

impl SatStatus {
    /// The exit status of the program.
    pub fn number(self) -> u8
        ensures { result ≡ status_number self }
    {
        match self {
            SatStatus::Accepted => 0,
            SatStatus::Usage => 1,
            SatStatus::ReadFault => 2,
            SatStatus::WriteFault => 3,
            SatStatus::NoMemory => 4,
            SatStatus::FormulaRefused => 6,
            SatStatus::FileRefused => 7,
            SatStatus::TooLong => 8,
            SatStatus::Satisfiable => 10,
            SatStatus::Unsatisfiable => 20,
        }
    }
}
