// String literals and character constants.
ghost use Rattle.std.specs.Prelude.{◌≡◌, ◌≤◌, ◌<◌, ◌+◌, false, length, None, Some, IfSome};
ghost use Rattle.l2_pieces.specs.Fronts.{closed_string, string, is_plain_character, is_escaped_character, character};
ghost use Rattle.l2_limits.specs.Limits.{text_limit};

use crate::bytes::{is_escape, is_plain};
use crate::piece::{Front, PieceKind};
use l2_syntax::Rule;

/// How many bytes a string literal has, by the text behind its first quote.
fn closed_string(text: &[u8]) -> Option<usize>
    requires { length text.now ≤ text_limit }
    ensures value { result ≡ closed_string false 1 text.now }
    ensures within { IfSome result (λ n. n ≤ length text.now + 1) }
{
    let mut escaped = false;
    let mut passed = 1;
    for byte in text {
        if *byte == b'\n' {
            return None;
        }
        if !escaped && *byte == b'"' {
            return Some(passed + 1);
        }
        escaped = !escaped && *byte == b'\\';
        passed += 1;
    }
    None
}

/// A string literal, by the text behind its first quote.
pub fn string(text: &[u8]) -> Front
    requires { length text.now ≤ text_limit }
    ensures value { result ≡ string (closed_string false 1 text.now) }
    ensures within { result.length ≤ length text.now + 1 }
{
    match closed_string(text) {
        None => Front {
            kind: PieceKind::Fault(Rule::BadString),
            length: 1,
        },
        Some(length) => Front {
            kind: PieceKind::Text,
            length,
        },
    }
}

fn is_plain_character(text: &[u8]) -> bool
    ensures { result ≡ is_plain_character text.now }
{
    match text {
        [character, quote, ..] => is_plain(*character) && *quote == b'\'',
        _ => false,
    }
}

fn is_escaped_character(text: &[u8]) -> bool
    ensures { result ≡ is_escaped_character text.now }
{
    match text {
        [backslash, character, quote, ..] => *backslash == b'\\'
            && is_escape(*character)
            && *quote == b'\'',
        _ => false,
    }
}

/// A character constant, by the text behind its first quote.
pub fn character(text: &[u8]) -> Front
    ensures value { result ≡ character text.now }
    ensures within { result.length ≤ length text.now + 4 }
{
    if is_plain_character(text) {
        Front {
            kind: PieceKind::Character,
            length: 3,
        }
    } else if is_escaped_character(text) {
        Front {
            kind: PieceKind::Character,
            length: 4,
        }
    } else {
        Front {
            kind: PieceKind::Fault(Rule::Literal),
            length: 1,
        }
    }
}
