use crate::constant::Constant;

/// How a macro writes its constant.
#[derive(Clone, Copy, Debug, PartialEq, Eq)]
pub enum Shape {
    /// `3`
    Bare,
    /// `-3`
    Negative,
    /// `(3)`
    Wrapped,
    /// `(-3)`
    WrappedNegative,
    /// `-(3)`
    NegativeWrapped,
}

/// What the text defines a name as.
#[derive(Clone, Copy, Debug, PartialEq, Eq)]
pub struct Macro {
    pub shape: Shape,
    pub constant: Constant,
}

/// What is known of a name.
#[derive(Clone, Copy, Debug, PartialEq, Eq)]
pub enum Role {
    Plain,
    /// A typedef or a header has made it a type name.
    TypeName,
    /// A header has made it a constant.
    Constant(Constant),
    /// The text has defined it.
    Macro(Macro),
}
