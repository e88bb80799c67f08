use thiserror::Error;

/// Why a token isn't read.
#[derive(Debug, Drop, Clone, Copy, PartialEq, Eq, Error)]
pub enum ReadError {
    /// It is too deep, or makes an expression too long.
    #[error("too deep")]
    Nesting,
    /// No construct goes on so.
    #[error("no unit goes on so")]
    Syntax,
    /// There was no memory left.
    #[error("no memory left")]
    NoMemory,
}

/// Why tokens aren't read, with the index of the token that is refused.
#[derive(Debug, Drop, Clone, Copy, PartialEq, Eq, Error)]
pub enum ParseError {
    /// This token is the first that is too deep.
    #[error("too deep")]
    Nesting(usize),
    /// No unit, or no expression where one is read, goes on with this token, or behind the last.
    #[error("no unit goes on so")]
    Syntax(usize),
    /// There was no memory left.
    #[error("no memory left")]
    NoMemory,
}
