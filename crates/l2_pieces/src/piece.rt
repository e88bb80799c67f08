use l2_syntax::{Mark, Place, Rule};

/// What a piece of a text is.
#[derive(Clone, Copy, Debug, PartialEq, Eq)]
pub enum PieceKind {
    /// White space or a comment.
    Blank,
    Word,
    /// What begins as a number: a preprocessing number of C11 6.4.8, but for signs in it.
    Number,
    /// A character constant of the profile.
    Character,
    /// A string literal.
    Text,
    /// A punctuator.
    Mark(Mark),
    /// Here the text breaks a rule.
    Fault(Rule),
}

/// What a text begins with, and how many bytes it has.
#[derive(Clone, Copy, Debug, PartialEq, Eq)]
pub struct Front {
    pub kind: PieceKind,
    pub length: usize,
}

/// A piece of a text, where it begins, and how many bytes it has.
#[derive(Clone, Copy, Debug, PartialEq, Eq)]
pub struct Piece {
    pub kind: PieceKind,
    pub place: Place,
    pub length: u32,
}
