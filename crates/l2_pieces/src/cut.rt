// Pieces and their places.
ghost use Rattle.std.specs.Prelude.{◌≡◌, ◌≤◌, ◌<◌, ◌+◌, ◌^◌, ◌++◌, [], take, drop, length, cond, get_or, IfOk, OnOk};
ghost use Rattle.std.specs.List.{filter};
ghost use Rattle.l2_pieces.specs.Pieces.{behind, behind_all, first_place, parts, pieces, bytes_of, is_solid, is_blank, is_fault};
ghost use Rattle.l2_limits.specs.Limits.{text_limit};

use crate::fronts::front;
use crate::piece::{Piece, PieceKind};
use l2_syntax::Place;
use std::alloc::{AllocError, Global};

/// The first bytes of a text, or all of it where it has fewer.
pub fn front_of(text: &[u8], count: usize) -> &[u8]
    ensures { result.now ≡ take count text.now }
{
    if count < text.len() {
        &text[..count]
    } else {
        text
    }
}

/// What stands from a place on.
pub fn rest_of(text: &[u8], start: usize) -> &[u8]
    ensures { result.now ≡ drop start text.now }
{
    if start < text.len() {
        &text[start..]
    } else {
        &[]
    }
}

/// The bytes of a piece of this text.
pub fn bytes_of(text: &[u8], piece: Piece) -> &[u8]
    ensures { result.now ≡ bytes_of text.now piece }
{
    front_of(
        rest_of(text, piece.place.offset as usize),
        piece.length as usize,
    )
}

/// The place behind a byte.
fn behind(byte: u8, place: Place) -> Place
    requires offset { place.offset ≤ text_limit }
    requires line { place.line ≤ 1048577 }
    requires col { place.col ≤ 1048577 }
    ensures { result ≡ behind byte place }
{
    let offset = place.offset + 1;
    if byte == b'\n' {
        Place {
            offset,
            line: place.line + 1,
            col: 1,
        }
    } else {
        Place {
            offset,
            line: place.line,
            col: place.col + 1,
        }
    }
}

/// The place behind a whole text.
pub fn end_of(text: &[u8]) -> Place
    requires { length text.now ≤ text_limit }
    ensures { result ≡ behind_all text.now first_place }
{
    let mut place = Place {
        offset: 0,
        line: 1,
        col: 1,
    };
    for byte in text {
        place = behind(*byte, place);
    }
    place
}

fn is_blank(kind: PieceKind) -> bool
    ensures { result ≡ is_blank kind }
{
    matches!(kind, PieceKind::Blank)
}

fn is_fault(kind: PieceKind) -> bool
    ensures { result ≡ is_fault kind }
{
    matches!(kind, PieceKind::Fault(_))
}

/// Where cutting stands: the place, how many bytes there belong to the piece before, and whether a fault has been met.
#[derive(Clone, Copy, Debug, PartialEq, Eq)]
struct Cursor {
    place: Place,
    inside: usize,
    stopped: bool,
}

/// Cuts the piece that begins at the first byte of a rest of a text, and keeps it if it is solid.
fn cut_one(
    kept: &mut Vec<Piece>,
    rest: &[u8],
    place: Place,
    next: Place,
) -> Result<Cursor, AllocError>
    requires rest { 1 ≤ length rest.now }
    requires short { length rest.now ≤ text_limit }
    requires next { next ≡ behind (get_or rest.now 0 0) place }
    ensures parts { IfOk result (λ c. kept.new.items ++ filter is_solid (cond c.stopped [] (parts c.place c.inside (drop 1 rest.now))) ≡ kept.old.items ++ filter is_solid (parts place 0 rest.now)) }
    ensures place { IfOk result (λ c. c.place ≡ next) }
    ensures few { OnOk result (length kept.new.items ≤ length kept.old.items + 1) }
{
    let front = front(rest);
    if !is_blank(front.kind) {
        match kept.push(Piece {
            kind: front.kind,
            place,
            length: front.length as u32,
        }) {
            Ok(()) => {}
            Err(_) => return Err(AllocError),
        }
    }
    Ok(Cursor {
        place: next,
        inside: front.length.saturating_sub(1),
        stopped: is_fault(front.kind),
    })
}

/// Passes over the first byte of a rest of a text.
fn advance(
    kept: &mut Vec<Piece>,
    rest: &[u8],
    place: Place,
    inside: usize,
) -> Result<Cursor, AllocError>
    requires rest { 1 ≤ length rest.now }
    requires short { length rest.now ≤ text_limit }
    requires offset { place.offset ≤ text_limit }
    requires line { place.line ≤ 1048577 }
    requires col { place.col ≤ 1048577 }
    ensures parts { IfOk result (λ c. kept.new.items ++ filter is_solid (cond c.stopped [] (parts c.place c.inside (drop 1 rest.now))) ≡ kept.old.items ++ filter is_solid (parts place inside rest.now)) }
    ensures few { OnOk result (length kept.new.items ≤ length kept.old.items + 1) }
    ensures place { IfOk result (λ c. (c.place.offset ≤ place.offset + 1) × (c.place.line ≤ place.line + 1) × (c.place.col ≤ place.col + 1)) }
{
    let next = behind(rest[0], place);
    if inside > 0 {
        Ok(Cursor {
            place: next,
            inside: inside - 1,
            stopped: false,
        })
    } else {
        cut_one(kept, rest, place, next)
    }
}

/// The pieces of a text but for white space and comments, up to the first fault, which is the last. Its one answer besides is want of memory.
pub fn pieces(alloc: Global, text: &[u8]) -> Result<Vec<Piece>, AllocError>
    requires { length text.now ≤ text_limit }
    ensures pieces { IfOk result (λ r. r.items ≡ pieces text.now) }
    ensures few { IfOk result (λ r. length r.items ≤ length text.now) }
{
    let mut kept = Vec::new(alloc);
    let mut place = Place {
        offset: 0,
        line: 1,
        col: 1,
    };
    let mut inside = 0;
    for at in 0..text.len() {
        let cursor = advance(&mut kept, rest_of(text, at), place, inside)?;
        if cursor.stopped {
            return Ok(kept);
        }
        place = cursor.place;
        inside = cursor.inside;
    }
    Ok(kept)
}
