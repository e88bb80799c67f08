use crate::expression::{Declaration, Declarator, Specifiers};
use crate::statement::Stmt;
use l2_bits::List;
use l2_syntax::{Name, Place, Token};

/// A part of a text at file scope (C11 6.9).
#[derive(Drop)]
pub enum External {
    /// `;`.
    Empty,
    Declaration(Declaration),
    /// `typedef` and a declaration.
    Typedef(Place, Declaration),
    /// A function's definition, with the place of the brace of its body.
    Function(Specifiers, Declarator, Place, Vec<Stmt>),
}

/// A whole text: its parts, its constants in their order, and the names that words are numbered by.
#[derive(Drop)]
pub struct Unit {
    pub externals: List<External>,
    pub constants: List<Token>,
    pub names: List<Name>,
}
