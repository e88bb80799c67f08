use crate::types::CType;
use l2_bits::List;
use l2_runs::Kind;
use l2_syntax::{Place, Scalar};

/// A name that means something without a declaration.
#[derive(Clone, Copy)]
pub enum Builtin {
    Assert,
    Assume,
    Exit,
    Abort,
    ReachError,
    /// `__VERIFIER_error`.
    Fail,
    /// `__assert_fail`.
    AssertFail,
    /// `__VERIFIER_nondet_X`.
    Choice(Scalar),
}

/// What a name stands for.
#[derive(Clone, Copy)]
pub enum Meaning {
    /// A variable: its object's number, its type, and whether it is const.
    Object(u32, CType, bool),
    Enumerator(i128),
    /// A function, by its place among the signatures.
    Function(u32),
    /// The name of a type, and whether it is const.
    TypeName(CType, bool),
    /// The name of a type of functions, by its place among the signatures.
    FunctionType(u32),
    Builtin(Builtin),
    /// A name whose declaration was at fault.
    Unknown,
}

/// A name that is in scope.
#[derive(Clone, Copy)]
pub struct Entry {
    pub name: u32,
    /// How many scopes stand round the one that it is declared in.
    pub level: u32,
    pub meaning: Meaning,
}

/// The tag of an enum that is defined in a scope of this level.
#[derive(Clone, Copy)]
pub struct TagEntry {
    pub name: u32,
    pub level: u32,
}

/// A function's type, its number, and whether the text defines it.
#[derive(Drop)]
pub struct Signature {
    pub number: u32,
    pub result: CType,
    /// Whether the result's type is const.
    pub is_const: bool,
    pub parameters: List<CType>,
    pub is_defined: bool,
}

/// A call of a function: the numbers of the one that calls and of the one that is called, and the place of the name.
#[derive(Clone, Copy)]
pub struct Site {
    pub caller: u32,
    pub function: u32,
    pub place: Place,
}

/// A check: the number of the function in which it stands, its place and its kind.
#[derive(Clone, Copy)]
pub struct CheckSite {
    pub function: u32,
    pub place: Place,
    pub kind: Kind,
}

/// A variable or parameter: its name and the name's place, its type, whether its storage is static, and the number of its
/// function (0 at file scope).
#[derive(Clone, Copy)]
pub struct ObjectEntry {
    pub name: u32,
    pub place: Place,
    pub of: CType,
    pub is_static: bool,
    pub function: u32,
}

/// A loop: the place of its word, the number of its function, and how many objects were declared before its head.
#[derive(Clone, Copy)]
pub struct LoopEntry {
    pub place: Place,
    pub function: u32,
    pub objects: u32,
}

/// A variable of file scope by its name, with the type of one of its declarations.
#[derive(Clone, Copy)]
pub struct Linked {
    pub name: u32,
    pub of: CType,
    pub is_const: bool,
}

/// A name and where it stands.
#[derive(Clone, Copy)]
pub struct Named {
    pub name: u32,
    pub place: Place,
}

/// What is called: a name, or something else.
#[derive(Clone, Copy)]
pub enum Callee {
    Named(u32, Place),
    Other,
}

/// A function that is called: its number, the type of its result, and whether the text defines it with that many parameters.
#[derive(Clone, Copy)]
pub struct Callable {
    pub number: u32,
    pub result: CType,
    pub fits: bool,
}

/// What is asked of an argument.
#[derive(Clone, Copy)]
pub enum Want {
    Anything,
    /// It fits the type.
    Fitting(CType),
    /// It is tested.
    Testing,
    /// It may be a string literal.
    Literal,
}
