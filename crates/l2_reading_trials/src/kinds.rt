// Tokens by their kinds alone: a letter each, with a number before it where it stands there more than once.
use l2_syntax::{Mark, Place, Token, TokenKind};
use std::alloc::{AllocError, Global};

const START: Place = Place {
    offset: 0,
    line: 1,
    col: 1,
};

/// The kind of a letter.
fn kind(letter: u8) -> TokenKind {
    match letter {
        b'i' => TokenKind::Mark(Mark::Int),
        b'w' => TokenKind::Word(0),
        b'=' => TokenKind::Mark(Mark::Equal),
        b'(' => TokenKind::Mark(Mark::OpenParenthesis),
        b')' => TokenKind::Mark(Mark::CloseParenthesis),
        b'~' => TokenKind::Mark(Mark::Tilde),
        b';' => TokenKind::Mark(Mark::Semicolon),
        b',' => TokenKind::Mark(Mark::Comma),
        b'+' => TokenKind::Mark(Mark::Plus),
        b'?' => TokenKind::Mark(Mark::Question),
        b':' => TokenKind::Mark(Mark::Colon),
        b's' => TokenKind::Mark(Mark::Sizeof),
        b'{' => TokenKind::Mark(Mark::OpenBrace),
        _ => TokenKind::End,
    }
}

/// Puts a token of this kind behind others, as often as this.
fn push_all(all: &mut Vec<Token>, kind: TokenKind, times: u32) -> Result<(), AllocError> {
    for _ in 0..times {
        all.push(Token {
            kind,
            place: START,
            length: 1,
        })?;
    }
    Ok(())
}

/// The tokens of some letters and numbers.
pub fn tokens(alloc: Global, kinds: &str) -> Result<Vec<Token>, AllocError> {
    let mut all = Vec::new(alloc);
    let mut times = 0u32;
    for &letter in kinds.as_bytes() {
        if letter.is_ascii_digit() {
            times = times
                .wrapping_mul(10)
                .wrapping_add(u32::from(letter - b'0'));
        } else {
            push_all(&mut all, kind(letter), times.max(1))?;
            times = 0;
        }
    }
    Ok(all)
}
