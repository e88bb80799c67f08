// Comments, and line splices in them.
ghost use Rattle.std.specs.Prelude.{◌≡◌, ◌≤◌, ◌<◌, ◌+◌, ◌^◌, false, length, MatchOption, None, Some, IfSome};
ghost use Rattle.l2_pieces.specs.Fronts.{closed_comment, ends_line, is_splice, unspliced, comment};
ghost use Rattle.l2_limits.specs.Limits.{text_limit};

use crate::bytes::begins_with;
use crate::cut::rest_of;
use crate::piece::{Front, PieceKind};
use l2_syntax::Rule;

/// How many bytes a comment has, by the text behind its first two.
pub fn closed_comment(text: &[u8]) -> Option<usize>
    requires { length text.now ≤ text_limit }
    ensures value { result ≡ closed_comment false 2 text.now }
    ensures within { IfSome result (λ n. n ≤ length text.now + 2) }
{
    let mut star = false;
    let mut passed = 2;
    for byte in text {
        if star && *byte == b'/' {
            return Some(passed + 1);
        }
        star = *byte == b'*';
        passed += 1;
    }
    None
}

fn ends_line(text: &[u8]) -> bool
    ensures { result ≡ ends_line text.now }
{
    match text {
        [] => false,
        [first, rest @ ..] => *first == b'\n' || *first == b'\r' && begins_with(rest, b'\n'),
    }
}

/// Whether a text begins with a backslash directly before the end of a line.
fn is_splice(text: &[u8]) -> bool
    ensures { result ≡ is_splice text.now }
{
    match text {
        [] => false,
        [first, rest @ ..] => *first == b'\\' && ends_line(rest),
    }
}

/// How many of the first bytes stand before the first line splice.
#[tactic(auto, using(crate::proofs::Spelled::unspliced_here, crate::proofs::Spelled::unspliced_on))]
fn unspliced(count: usize, text: &[u8]) -> usize
    requires { count ≤ length text.now }
    ensures value { result ≡ unspliced count text.now }
    ensures within { result ≤ count }
{
    for at in 0..count {
        if is_splice(rest_of(text, at)) {
            return at;
        }
    }
    count
}

/// A comment of so many bytes, or one that isn't closed.
pub fn comment(closed: Option<usize>, text: &[u8]) -> Front
    requires { IfSome closed (λ n. n ≤ length text.now) }
    ensures value { result ≡ comment closed text.now }
    ensures within { result.length ≤ length text.now + 1 }
{
    match closed {
        None => Front {
            kind: PieceKind::Fault(Rule::Comment),
            length: 1,
        },
        Some(count) => Front {
            kind: PieceKind::Blank,
            length: unspliced(count, text),
        },
    }
}
