use l2_templates::{Found, Point, Ranks};

/// What is asked.
#[derive(Clone, Copy, PartialEq, Eq, Debug)]
pub enum Mode {
    /// Whether some execution breaks a check.
    Safety,
    /// Whether every execution ends.
    Termination,
}

/// What is answered, with the number of turns by which loops were unwound.
#[derive(Debug, Drop)]
pub enum Decision {
    /// The point proves.
    Safe { k: u32, point: Point },
    /// This execution breaks a check.
    Unsafe { k: u32, found: Found },
    /// The lists rank the loops at the point.
    Terminating { k: u32, point: Point, ranks: Ranks },
    /// There is no answer up to this k, the last one.
    Unwind { k: u32 },
    /// What is to be looked at for this k is too large.
    Size { k: u32 },
}
