use crate::known::Known;
use l2_syntax::{Token, TokenKind};

/// Where a text stands with an `__attribute__`.
#[derive(Clone, Copy, Debug, PartialEq, Eq)]
pub enum Attribute {
    Outside,
    /// Behind the word, where its parenthesis must come.
    Awaited,
    /// Inside so many of its parentheses.
    Inside(u32),
}

/// The typedef that is being read, if one is, and how many of its braces and square brackets are open.
#[derive(Clone, Copy, Debug, PartialEq, Eq)]
pub struct Typedef {
    pub is_open: bool,
    pub braces: u32,
    pub brackets: u32,
}

/// What is known of a text at a place in it.
#[derive(Drop)]
pub struct Lexer<'a> {
    pub tokens: Vec<Token>,
    /// The kind of the last token; `End` where there is none.
    pub before: TokenKind,
    pub known: Known<'a>,
    pub typedef: Typedef,
    /// The numbers of the names that the typedef declares so far.
    pub declared: Vec<u32>,
    pub attribute: Attribute,
    /// The line of the last piece.
    pub line: u32,
    /// The line that is passed over from its `#` on, or 0.
    pub passed: u32,
}
