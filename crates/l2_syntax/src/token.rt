use crate::place::Place;
use crate::refusal::Refusal;
use l2_bits::List;

/// An integer type by its name (C11 6.2.5). `char` is signed.
#[derive(Clone, Copy, Debug, PartialEq, Eq)]
pub enum Scalar {
    Bool,
    Char,
    UChar,
    Short,
    UShort,
    Int,
    UInt,
    Long,
    ULong,
    LongLong,
    ULongLong,
}

/// A punctuator or a keyword (C11 6.4.6 and 6.4.1). Keywords that the profile skips or refuses have none.
#[derive(Clone, Copy, Debug, PartialEq, Eq)]
pub enum Mark {
    OpenBracket,
    CloseBracket,
    OpenParenthesis,
    CloseParenthesis,
    OpenBrace,
    CloseBrace,
    Dot,
    Arrow,
    PlusPlus,
    MinusMinus,
    Ampersand,
    Star,
    Plus,
    Minus,
    Tilde,
    Exclamation,
    Slash,
    Percent,
    ShiftLeft,
    ShiftRight,
    Less,
    Greater,
    LessEqual,
    GreaterEqual,
    EqualEqual,
    NotEqual,
    Caret,
    Bar,
    AndAnd,
    OrOr,
    Question,
    Colon,
    Semicolon,
    Ellipsis,
    Equal,
    StarEqual,
    SlashEqual,
    PercentEqual,
    PlusEqual,
    MinusEqual,
    ShiftLeftEqual,
    ShiftRightEqual,
    AmpersandEqual,
    CaretEqual,
    BarEqual,
    Comma,
    Hash,
    HashHash,
    Bool,
    Break,
    Case,
    Char,
    Const,
    Continue,
    Default,
    Do,
    Else,
    Enum,
    Extern,
    For,
    If,
    Int,
    Long,
    Return,
    Short,
    Signed,
    Sizeof,
    Static,
    Struct,
    Switch,
    Typedef,
    Unsigned,
    Void,
    While,
}

/// A name, as it is spelt.
#[derive(Debug, Drop)]
pub struct Name {
    pub bytes: List<u8>,
}

/// What a token is. Words and type names are numbered by the list of names, from 0.
#[derive(Clone, Copy, Debug, PartialEq, Eq)]
pub enum TokenKind {
    Word(u32),
    TypeName(u32),
    Number { value: i128, scalar: Scalar },
    /// A string literal.
    Text,
    Mark(Mark),
    /// The end of the text.
    End,
}

/// A token, where it begins, and how many bytes it has.
#[derive(Clone, Copy, Debug, PartialEq, Eq)]
pub struct Token {
    pub kind: TokenKind,
    pub place: Place,
    pub length: u32,
}

/// The tokens of a text up to its first lexical refusal, which is `stop`.
#[derive(Debug, Drop)]
pub struct Tokens {
    pub list: List<Token>,
    pub names: List<Name>,
    pub stop: Option<Refusal>,
}
