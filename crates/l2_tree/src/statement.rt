use crate::expression::{Declaration, Expr};
use l2_syntax::Place;

/// `if ( e ) s`, with the places of `if` and of the `(`.
#[cycle(statement)]
#[derive(Drop)]
pub struct Branch {
    pub place: Place,
    pub open: Place,
    pub condition: Box<Expr>,
    pub body: Box<Stmt>,
}

/// The first part of a `for` (C11 6.8.5.3).
#[derive(Drop)]
pub enum First {
    Absent,
    Expression(Box<Expr>),
    Declaration(Declaration),
}

/// A statement, or a declaration in a block (C11 6.8). Each word carries its place.
#[cycle(statement)]
#[derive(Drop)]
pub enum Stmt {
    Declaration(Declaration),
    /// `{ .. }`.
    Block(Place, Vec<Stmt>),
    Expression(Box<Expr>),
    /// `;`.
    Empty,
    /// `if ( e ) s else if ( f ) t ..`, without a last `else`: the first branch and the others.
    If(Branch, Vec<Branch>),
    /// `if ( e ) s else if ( f ) t .. else u`.
    IfElse(Branch, Vec<Branch>, Box<Stmt>),
    While(Place, Place, Box<Expr>, Box<Stmt>),
    Switch(Place, Place, Box<Expr>, Box<Stmt>),
    /// `do s while ( e ) ;`.
    Do(Place, Box<Stmt>, Place, Place, Box<Expr>),
    For(Place, Place, First, Option<Box<Expr>>, Option<Box<Expr>>, Box<Stmt>),
    Case(Place, Box<Expr>, Box<Stmt>),
    Default(Place, Box<Stmt>),
    Label(u32, Place, Box<Stmt>),
    Break(Place),
    Continue(Place),
    /// `return ;`.
    Return(Place),
    /// `return e ;`.
    ReturnValue(Place, Box<Expr>),
}
