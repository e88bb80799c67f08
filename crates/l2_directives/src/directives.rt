// Lines that begin with `#`.
ghost use Rattle.std.specs.Prelude.{◌≡◌, ◌≤◌, ◌∷◌, []};
ghost use Rattle.l2_directives.specs.Directives.{is_spelt, is_number, is_word, shaped, macro_of, define_as, opens_behind, define, last_of, bytes_from, include_header, include, is_marker, directive_of};

use crate::constant::{Constant, constant_of};
use crate::headers::{Header, header_of};
use crate::role::{Macro, Shape};
use crate::words::{is_name, word_class};
use l2_pieces::{Piece, PieceKind, bytes_of, front_of, rest_of};

/// What a line that begins with `#` says.
#[derive(Clone, Copy, Debug, PartialEq, Eq)]
pub enum Directive {
    /// A line that is passed over.
    Passed,
    Include(Header),
    /// The piece is the name.
    Define(Piece, Macro),
    /// None of the profile's.
    Unknown,
}

fn is_spelt(text: &[u8], piece: Piece, word: &[u8]) -> bool
    ensures { result ≡ is_spelt text.now piece word.now }
{
    bytes_of(text, piece) == word
}

fn is_number(kind: PieceKind) -> bool
    ensures { result ≡ is_number kind }
{
    matches!(kind, PieceKind::Number)
}

fn is_word(kind: PieceKind) -> bool
    ensures { result ≡ is_word kind }
{
    matches!(kind, PieceKind::Word)
}

fn shaped(shape: Shape, constant: Option<Constant>) -> Option<Macro>
    ensures { result ≡ shaped shape constant }
{
    match constant {
        None => None,
        Some(found) => Some(Macro {
            shape,
            constant: found,
        }),
    }
}

fn two_pieces(text: &[u8], first: Piece, number: Piece) -> Option<Macro>
    ensures { result ≡ macro_of text.now (first ∷ number ∷ []) }
{
    if is_spelt(text, first, b"-") {
        shaped(Shape::Negative, constant_of(text, number))
    } else {
        None
    }
}

fn three_pieces(text: &[u8], first: Piece, number: Piece, last: Piece) -> Option<Macro>
    ensures { result ≡ macro_of text.now (first ∷ number ∷ last ∷ []) }
{
    if is_spelt(text, first, b"(") && is_spelt(text, last, b")") {
        shaped(Shape::Wrapped, constant_of(text, number))
    } else {
        None
    }
}

fn four_pieces(
    text: &[u8],
    first: Piece,
    second: Piece,
    number: Piece,
    last: Piece,
) -> Option<Macro>
    ensures { result ≡ macro_of text.now (first ∷ second ∷ number ∷ last ∷ []) }
{
    if is_spelt(text, first, b"(") && is_spelt(text, second, b"-") && is_spelt(text, last, b")") {
        shaped(Shape::WrappedNegative, constant_of(text, number))
    } else if is_spelt(text, first, b"-")
        && is_spelt(text, second, b"(")
        && is_spelt(text, last, b")")
    {
        shaped(Shape::NegativeWrapped, constant_of(text, number))
    } else {
        None
    }
}

/// The macro that these pieces write, if they are of its form.
fn macro_of(text: &[u8], body: &[Piece]) -> Option<Macro>
    ensures { result ≡ macro_of text.now body.now }
{
    match body {
        [number] => shaped(Shape::Bare, constant_of(text, *number)),
        [first, number] => two_pieces(text, *first, *number),
        [first, number, last] => three_pieces(text, *first, *number, *last),
        [first, second, number, last] => four_pieces(text, *first, *second, *number, *last),
        _ => None,
    }
}

fn opens_behind(text: &[u8], name: Piece, body: &[Piece]) -> bool
    ensures { result ≡ opens_behind text.now name body.now }
{
    match body {
        [] => false,
        [first, ..] => is_spelt(text, *first, b"(")
            && first.place.offset as u64 == name.place.offset as u64 + name.length as u64,
    }
}

/// What stands behind `define`.
fn define(text: &[u8], line: &[Piece]) -> Directive
    ensures { result ≡ define text.now line.now }
{
    match line {
        [] => Directive::Unknown,
        [name, body @ ..] => {
            if is_word(name.kind)
                && is_name(word_class(bytes_of(text, *name)))
                && !opens_behind(text, *name, body)
            {
                match macro_of(text, body) {
                    None => Directive::Unknown,
                    Some(found) => Directive::Define(*name, found),
                }
            } else {
                Directive::Unknown
            }
        }
    }
}

fn last_of(first: Piece, line: &[Piece]) -> Piece
    ensures { result ≡ last_of first line.now }
{
    let mut last = first;
    for piece in line {
        last = *piece;
    }
    last
}

/// The bytes from a piece to the end of another.
fn bytes_from(text: &[u8], first: Piece, last: Piece) -> &[u8]
    ensures { result.now ≡ bytes_from text.now first last }
{
    let end = last.place.offset as usize + last.length as usize;
    let start = first.place.offset as usize;
    front_of(rest_of(text, start), end.saturating_sub(start))
}

/// What stands behind `include`.
fn include(text: &[u8], line: &[Piece]) -> Directive
    ensures { result ≡ include text.now line.now }
{
    match line {
        [] => Directive::Unknown,
        [first, more @ ..] => match header_of(bytes_from(text, *first, last_of(*first, more))) {
            None => Directive::Unknown,
            Some(header) => Directive::Include(header),
        },
    }
}

fn is_marker(text: &[u8], piece: Piece) -> bool
    ensures { result ≡ is_marker text.now piece }
{
    is_number(piece.kind) || is_spelt(text, piece, b"line") || is_spelt(text, piece, b"pragma")
}

/// What the pieces behind `#` on its line say.
pub fn directive_of(text: &[u8], line: &[Piece]) -> Directive
    ensures { result ≡ directive_of text.now line.now }
{
    match line {
        [] => Directive::Unknown,
        [first, more @ ..] => {
            if is_marker(text, *first) {
                Directive::Passed
            } else if is_spelt(text, *first, b"include") {
                include(text, more)
            } else if is_spelt(text, *first, b"define") {
                define(text, more)
            } else {
                Directive::Unknown
            }
        }
    }
}
