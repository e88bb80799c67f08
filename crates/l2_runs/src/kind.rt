ghost use Rattle.std.specs.Prelude.{◌≡◌};
ghost use Rattle.l2_runs.specs.Kinds.{kind_text};

/// The ten kinds of check, in their order at one place.
#[derive(Clone, Copy, Debug, PartialEq, Eq)]
pub enum Kind {
    Assertion,
    Bounds,
    Null,
    Invalid,
    Lifetime,
    Pointer,
    Object,
    Division,
    Shift,
    Overflow,
}

impl Kind {
    /// The kind's name, as it is printed.
    pub fn name(self) -> &'static str
        ensures { result.now ≡ kind_text self }
    {
        match self {
            Kind::Assertion => "assertion",
            Kind::Bounds => "bounds",
            Kind::Null => "null",
            Kind::Invalid => "invalid",
            Kind::Lifetime => "lifetime",
            Kind::Pointer => "pointer",
            Kind::Object => "object",
            Kind::Division => "division",
            Kind::Shift => "shift",
            Kind::Overflow => "overflow",
        }
    }
}
