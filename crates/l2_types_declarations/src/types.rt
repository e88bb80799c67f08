use l2_bits::List;
use l2_syntax::Scalar;
use l2_types::{CType, Typed};

/// What a declarator declares.
#[derive(Drop)]
pub enum DeclaredType {
    /// It is at fault.
    Unknown,
    /// A variable: its type, and whether it is const.
    Object(CType, bool),
    /// A function: the type of its result, whether that is const, and the types of its parameters.
    Function(CType, bool, List<CType>),
}

/// What a declared name's initialiser gives a value to.
#[derive(Clone, Copy)]
pub enum Target {
    /// No variable: the declaration is at fault, or `extern`.
    Nothing,
    Function,
    /// A variable by its number, whose storage is automatic.
    Automatic(u32, Scalar),
    /// A variable of static storage.
    Permanent(u32, Scalar),
}

/// What a declaration does where it is reached.
#[derive(Drop)]
pub enum Item {
    /// It declares a variable.
    Declare(u32),
    /// It declares a variable of static storage, and does nothing.
    Static(u32),
    /// It declares a variable with a value.
    Initialise(u32, Box<Typed>),
}
