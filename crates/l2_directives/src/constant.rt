// Numbers and characters as constants.
ghost use Rattle.std.specs.Prelude.{◌≡◌, ◌≤◌, ◌<◌, ◌^◌, pos, length, IfSome, IfNone, true, false};
ghost use Rattle.std.specs.List.{prefix_len};
ghost use Rattle.l2_pieces.specs.Bytes.{begins_with, is_byte};
ghost use Rattle.l2_directives.specs.Constants.{digit_value, is_digit_of, value_of, is_among, suffix_of, candidates, greatest, first_that_holds, constant_of_type, typed, in_base, is_hexadecimal, number, escape_value, character_value, constant_of};

use l2_pieces::{Piece, PieceKind, bytes_of, front_of, is_digit, rest_of};
use l2_syntax::Scalar;

/// A value and its type.
#[derive(Clone, Copy, Debug, PartialEq, Eq)]
pub struct Constant {
    pub value: i128,
    pub scalar: Scalar,
}

/// What a suffix of an integer constant says.
#[derive(Clone, Copy, Debug, PartialEq, Eq)]
pub enum Suffix {
    Plain,
    Unsigned,
    Long,
    UnsignedLong,
    LongLong,
    UnsignedLongLong,
}

const PLAIN: [&[u8]; 1] = [b""];

const UNSIGNED: [&[u8]; 2] = [b"u", b"U"];

const LONG: [&[u8]; 2] = [b"l", b"L"];

const LONG_LONG: [&[u8]; 2] = [b"ll", b"LL"];

const UNSIGNED_LONG: [&[u8]; 8] = [b"ul", b"uL", b"Ul", b"UL", b"lu", b"lU", b"Lu", b"LU"];

const UNSIGNED_LONG_LONG: [&[u8]; 8] = [
    b"ull", b"uLL", b"Ull", b"ULL", b"llu", b"llU", b"LLu", b"LLU",
];

/// The value of a hexadecimal digit, and 16 for any other byte.
fn digit_value(byte: u8) -> u8
    ensures value { result ≡ digit_value byte }
    ensures small { result ≤ 16 }
{
    if is_digit(byte) {
        byte - b'0'
    } else if b'a' <= byte && byte <= b'f' {
        byte - 87
    } else if b'A' <= byte && byte <= b'F' {
        byte - 55
    } else {
        16
    }
}

fn is_digit_of(base: u8, byte: u8) -> bool
    requires { base ≤ 16 }
    ensures { result ≡ is_digit_of base byte }
{
    digit_value(byte) + 1 <= base
}

/// How many digits of a base a word begins with.
fn digits_length(base: u8, word: &[u8]) -> usize
    requires { base ≤ 16 }
    ensures { result ≡ prefix_len (is_digit_of base) word.now }
{
    let mut count = 0;
    for byte in word {
        if !is_digit_of(base, *byte) {
            return count;
        }
        count += 1;
    }
    count
}

/// The value of digits, unless it is 2 ^ 64 or more.
fn value_of(base: u8, digits: &[u8]) -> Option<u64>
    requires { 1 ≤ base }
    ensures value { IfSome result (λ v. v ≡ value_of base digits.now) }
    ensures great { IfNone result (2 ^ 64 ≤ value_of base digits.now) }
{
    let mut value: u64 = 0;
    for digit in digits {
        match value.checked_mul(u64::from(base)) {
            None => return None,
            Some(product) => match product.checked_add(u64::from(digit_value(*digit))) {
                None => return None,
                Some(next) => value = next,
            },
        }
    }
    Some(value)
}

fn suffix_of(word: &[u8]) -> Option<Suffix>
    ensures { result ≡ suffix_of word.now }
{
    if PLAIN.contains(&word) {
        Some(Suffix::Plain)
    } else if UNSIGNED.contains(&word) {
        Some(Suffix::Unsigned)
    } else if LONG.contains(&word) {
        Some(Suffix::Long)
    } else if LONG_LONG.contains(&word) {
        Some(Suffix::LongLong)
    } else if UNSIGNED_LONG.contains(&word) {
        Some(Suffix::UnsignedLong)
    } else if UNSIGNED_LONG_LONG.contains(&word) {
        Some(Suffix::UnsignedLongLong)
    } else {
        None
    }
}

/// The types that a constant may have, in order.
fn candidates(is_decimal: bool, suffix: Suffix) -> &'static [Scalar]
    ensures { result.now ≡ candidates is_decimal suffix }
{
    match (is_decimal, suffix) {
        (true, Suffix::Plain) => &[Scalar::Int, Scalar::Long],
        (false, Suffix::Plain) => &[Scalar::Int, Scalar::UInt, Scalar::Long, Scalar::ULong],
        (_, Suffix::Unsigned) => &[Scalar::UInt, Scalar::ULong],
        (true, Suffix::Long) => &[Scalar::Long],
        (false, Suffix::Long) => &[Scalar::Long, Scalar::ULong],
        (_, Suffix::UnsignedLong) => &[Scalar::ULong],
        (true, Suffix::LongLong) => &[Scalar::LongLong],
        (false, Suffix::LongLong) => &[Scalar::LongLong, Scalar::ULongLong],
        (_, Suffix::UnsignedLongLong) => &[Scalar::ULongLong],
    }
}

/// The greatest value of a type.
fn greatest(scalar: Scalar) -> u64
    ensures { result ≡ greatest scalar }
{
    match scalar {
        Scalar::Bool => 1,
        Scalar::Char => 127,
        Scalar::UChar => 255,
        Scalar::Short => 32767,
        Scalar::UShort => 65535,
        Scalar::Int => 2147483647,
        Scalar::UInt => 4294967295,
        Scalar::Long => 9223372036854775807,
        Scalar::ULong => 18446744073709551615,
        Scalar::LongLong => 9223372036854775807,
        Scalar::ULongLong => 18446744073709551615,
    }
}

fn first_that_holds(value: u64, types: &[Scalar]) -> Option<Scalar>
    ensures { result ≡ first_that_holds value types.now }
{
    for scalar in types {
        if value <= greatest(*scalar) {
            return Some(*scalar);
        }
    }
    None
}

fn constant_of_type(value: u64, scalar: Option<Scalar>) -> Option<Constant>
    ensures { result ≡ constant_of_type value scalar }
{
    match scalar {
        None => None,
        Some(found) => Some(Constant {
            value: i128::from(value),
            scalar: found,
        }),
    }
}

fn typed(base: u8, value: u64, suffix: Option<Suffix>) -> Option<Constant>
    ensures { result ≡ typed base value suffix }
{
    match suffix {
        None => None,
        Some(found) => constant_of_type(
            value,
            first_that_holds(value, candidates(base == 10, found)),
        ),
    }
}

/// Digits of a base, at least one, and a suffix.
fn in_base(base: u8, word: &[u8]) -> Option<Constant>
    requires some { 1 ≤ base }
    requires small { base ≤ 16 }
    ensures { result ≡ in_base base word.now }
{
    let count = digits_length(base, word);
    if count == 0 {
        return None;
    }
    let suffix = suffix_of(rest_of(word, count));
    match value_of(base, front_of(word, count)) {
        None => None,
        Some(value) => typed(base, value, suffix),
    }
}

fn is_hexadecimal(word: &[u8]) -> bool
    ensures { result ≡ is_hexadecimal word.now }
{
    match word {
        [zero, x, ..] => *zero == b'0' && (*x == b'x' || *x == b'X'),
        _ => false,
    }
}

fn begins_with_zero(word: &[u8]) -> bool
    ensures { result ≡ begins_with (is_byte 48) word.now }
{
    match word {
        [] => false,
        [first, ..] => *first == b'0',
    }
}

/// The constant that a number spells, if it is one of the profile.
pub fn number(word: &[u8]) -> Option<Constant>
    ensures { result ≡ number word.now }
{
    if is_hexadecimal(word) {
        in_base(16, rest_of(word, 2))
    } else if begins_with_zero(word) {
        in_base(8, word)
    } else {
        in_base(10, word)
    }
}

fn escape_value(byte: u8) -> u8
    ensures { result ≡ escape_value byte }
{
    if byte == b'n' {
        10
    } else if byte == b't' {
        9
    } else if byte == b'r' {
        13
    } else if byte == b'0' {
        0
    } else {
        byte
    }
}

fn character_value(word: &[u8]) -> u8
    ensures { result ≡ character_value word.now }
{
    match word {
        [_, character, escape, ..] => {
            if *character == b'\\' {
                escape_value(*escape)
            } else {
                *character
            }
        }
        _ => 0,
    }
}

/// The constant that a piece spells, if it spells one.
pub fn constant_of(text: &[u8], piece: Piece) -> Option<Constant>
    ensures { result ≡ constant_of text.now piece }
{
    match piece.kind {
        PieceKind::Number => number(bytes_of(text, piece)),
        PieceKind::Character => Some(Constant {
            value: i128::from(character_value(bytes_of(text, piece))),
            scalar: Scalar::Int,
        }),
        _ => None,
    }
}
