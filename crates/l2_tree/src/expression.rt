use crate::operators::{
    AssignmentOperator, BinaryOperator, MemberOperator, SpecifierWord, UnaryOperator,
    UpdateOperator,
};
use l2_syntax::{Place, Scalar};

/// An expression (C11 6.5). Words carry their number among the names of the text.
#[cycle(expression)]
#[derive(Drop)]
pub enum Expr {
    Name(u32, Place),
    Number(i128, Scalar, Place),
    /// A string literal.
    Text(Place),
    /// `( e )`.
    Parenthesised(Place, Box<Expr>),
    /// `a [ i ]`.
    Index(Box<Expr>, Place, Box<Expr>),
    /// `f ( e , .. )`.
    Call(Box<Expr>, Place, Vec<Expr>),
    /// `a . n` or `a -> n`: the operator's place, and the name and its place.
    Member(Box<Expr>, MemberOperator, Place, u32, Place),
    /// `a ++`.
    PostUpdate(Box<Expr>, UpdateOperator, Place),
    /// `++ a`.
    Update(UpdateOperator, Place, Box<Expr>),
    Unary(UnaryOperator, Place, Box<Expr>),
    /// `sizeof e`.
    Sizeof(Place, Box<Expr>),
    /// `sizeof ( type )`.
    SizeofType(Place, Place, Box<Parameter>),
    /// `( type ) e`.
    Cast(Place, Box<Parameter>, Box<Expr>),
    Binary(Box<Expr>, BinaryOperator, Place, Box<Expr>),
    /// `a ? b : c`.
    Conditional(Box<Expr>, Place, Box<Expr>, Box<Expr>),
    Assign(Box<Expr>, AssignmentOperator, Place, Box<Expr>),
    /// `a , b`.
    Comma(Box<Expr>, Box<Expr>),
}

/// The tag of a struct or an enum.
#[derive(Clone, Copy, Debug, PartialEq, Eq)]
pub struct Tag {
    pub name: u32,
    pub place: Place,
}

/// One of the words and types that a declaration begins with (C11 6.7).
#[cycle(expression)]
#[derive(Drop)]
pub enum Specifier {
    Word(SpecifierWord, Place),
    TypeName(u32, Place),
    /// `struct S`.
    Struct(Place, Tag),
    /// `struct { .. }` or `struct S { .. }`, with the place of the brace and the declarations of its members.
    StructBody(Place, Option<Tag>, Place, Vec<Declaration>),
    /// `enum E`.
    Enum(Place, Tag),
    /// `enum { .. }` or `enum E { .. }`, and whether a comma stands behind the last enumerator.
    EnumBody(Place, Option<Tag>, Place, Enumerators, bool),
}

/// The specifiers of a declaration or of a type: one at least.
#[cycle(expression)]
#[derive(Drop)]
pub struct Specifiers {
    pub first: Box<Specifier>,
    pub rest: Vec<Specifier>,
}

/// An enumerator (C11 6.7.2.2).
#[cycle(expression)]
#[derive(Drop)]
pub enum Enumerator {
    Plain(u32, Place),
    /// `N = e`, with the place of the `=`.
    Valued(u32, Place, Place, Box<Expr>),
}

/// The enumerators in braces: one at least.
#[cycle(expression)]
#[derive(Drop)]
pub struct Enumerators {
    pub first: Box<Enumerator>,
    pub rest: Vec<Enumerator>,
}

/// A parameter, or the name of a type (C11 6.7.6 and 6.7.7): its specifiers, and perhaps a declarator.
#[cycle(expression)]
#[derive(Drop)]
pub enum Parameter {
    Plain(Specifiers),
    Declared(Specifiers, Declarator),
}

/// `*`, or `* const` with both places.
#[derive(Clone, Copy, Debug, PartialEq, Eq)]
pub enum Pointer {
    Plain(Place),
    Const(Place, Place),
}

/// What a declarator is built round.
#[cycle(expression)]
#[derive(Drop)]
pub enum Core {
    /// The name is missing.
    Absent,
    Name(u32, Place),
    /// `( declarator )`.
    Group(Place, Box<Declarator>),
}

/// What stands behind the core of a declarator.
#[cycle(expression)]
#[derive(Drop)]
pub enum Suffix {
    /// `[ ]`.
    Array(Place),
    /// `[ e ]`.
    ArrayOf(Place, Box<Expr>),
    /// `( parameters )`.
    Parameters(Place, Vec<Parameter>),
}

/// A declarator (C11 6.7.6): `*` `const` .., the core, and lengths and parameters behind it.
#[cycle(expression)]
#[derive(Drop)]
pub struct Declarator {
    pub pointers: Vec<Pointer>,
    pub core: Core,
    pub suffixes: Vec<Suffix>,
}

/// An initialiser (C11 6.7.9).
#[cycle(expression)]
#[derive(Drop)]
pub enum Initialiser {
    Expression(Box<Expr>),
    /// `{ .. }`, and whether a comma stands behind the last item.
    Braced(Place, Initialisers, bool),
}

/// The items of an initialiser in braces: one at least.
#[cycle(expression)]
#[derive(Drop)]
pub struct Initialisers {
    pub first: Box<Initialiser>,
    pub rest: Vec<Initialiser>,
}

/// A declarator in a declaration, perhaps with an initialiser behind a `=`.
#[cycle(expression)]
#[derive(Drop)]
pub enum Declared {
    Plain(Declarator),
    Initialised(Declarator, Place, Initialiser),
}

/// A declaration (C11 6.7), also of members and behind `typedef`, where no initialiser stands.
#[cycle(expression)]
#[derive(Drop)]
pub struct Declaration {
    pub specifiers: Specifiers,
    pub declarators: Vec<Declared>,
}
