// The headers, and what each makes known.
ghost use Rattle.std.specs.Prelude.{◌≡◌, map};
ghost use Rattle.l2_directives.specs.Headers.{entry, header_of, entries};

use crate::constant::Constant;
use crate::role::Role;
use l2_syntax::Scalar;

/// A header of the profile.
#[derive(Clone, Copy, Debug, PartialEq, Eq)]
pub enum Header {
    Assert,
    StandardBool,
    StandardLibrary,
    StandardIntegers,
    Limits,
}

const STANDARD_BOOL: [(&[u8], Role); 3] = [
    (b"bool", Role::TypeName),
    (
        b"true",
        Role::Constant(Constant {
            value: 1,
            scalar: Scalar::Int,
        }),
    ),
    (
        b"false",
        Role::Constant(Constant {
            value: 0,
            scalar: Scalar::Int,
        }),
    ),
];

const STANDARD_LIBRARY: [(&[u8], Role); 4] = [
    (
        b"NULL",
        Role::Constant(Constant {
            value: 0,
            scalar: Scalar::Int,
        }),
    ),
    (b"size_t", Role::TypeName),
    (
        b"EXIT_SUCCESS",
        Role::Constant(Constant {
            value: 0,
            scalar: Scalar::Int,
        }),
    ),
    (
        b"EXIT_FAILURE",
        Role::Constant(Constant {
            value: 1,
            scalar: Scalar::Int,
        }),
    ),
];

const STANDARD_INTEGERS: [(&[u8], Role); 8] = [
    (b"int8_t", Role::TypeName),
    (b"int16_t", Role::TypeName),
    (b"int32_t", Role::TypeName),
    (b"int64_t", Role::TypeName),
    (b"uint8_t", Role::TypeName),
    (b"uint16_t", Role::TypeName),
    (b"uint32_t", Role::TypeName),
    (b"uint64_t", Role::TypeName),
];

const LIMITS: [(&[u8], Role); 14] = [
    (
        b"SCHAR_MIN",
        Role::Constant(Constant {
            value: -128,
            scalar: Scalar::Int,
        }),
    ),
    (
        b"SCHAR_MAX",
        Role::Constant(Constant {
            value: 127,
            scalar: Scalar::Int,
        }),
    ),
    (
        b"UCHAR_MAX",
        Role::Constant(Constant {
            value: 255,
            scalar: Scalar::Int,
        }),
    ),
    (
        b"CHAR_MIN",
        Role::Constant(Constant {
            value: -128,
            scalar: Scalar::Int,
        }),
    ),
    (
        b"CHAR_MAX",
        Role::Constant(Constant {
            value: 127,
            scalar: Scalar::Int,
        }),
    ),
    (
        b"SHRT_MIN",
        Role::Constant(Constant {
            value: -32768,
            scalar: Scalar::Int,
        }),
    ),
    (
        b"SHRT_MAX",
        Role::Constant(Constant {
            value: 32767,
            scalar: Scalar::Int,
        }),
    ),
    (
        b"USHRT_MAX",
        Role::Constant(Constant {
            value: 65535,
            scalar: Scalar::Int,
        }),
    ),
    (
        b"INT_MAX",
        Role::Constant(Constant {
            value: 2147483647,
            scalar: Scalar::Int,
        }),
    ),
    (
        b"INT_MIN",
        Role::Constant(Constant {
            value: -2147483648,
            scalar: Scalar::Int,
        }),
    ),
    (
        b"UINT_MAX",
        Role::Constant(Constant {
            value: 4294967295,
            scalar: Scalar::UInt,
        }),
    ),
    (
        b"LONG_MIN",
        Role::Constant(Constant {
            value: -9223372036854775808,
            scalar: Scalar::Long,
        }),
    ),
    (
        b"LONG_MAX",
        Role::Constant(Constant {
            value: 9223372036854775807,
            scalar: Scalar::Long,
        }),
    ),
    (
        b"ULONG_MAX",
        Role::Constant(Constant {
            value: 18446744073709551615,
            scalar: Scalar::ULong,
        }),
    ),
];

/// The header that is spelt so, brackets and all.
pub fn header_of(word: &[u8]) -> Option<Header>
    ensures { result ≡ header_of word.now }
{
    if word == b"<assert.h>".as_slice() {
        Some(Header::Assert)
    } else if word == b"<stdbool.h>".as_slice() {
        Some(Header::StandardBool)
    } else if word == b"<stdlib.h>".as_slice() {
        Some(Header::StandardLibrary)
    } else if word == b"<stdint.h>".as_slice() {
        Some(Header::StandardIntegers)
    } else if word == b"<limits.h>".as_slice() {
        Some(Header::Limits)
    } else {
        None
    }
}

/// What a header makes known.
pub fn entries(header: Header) -> &'static [(&'static [u8], Role)]
    ensures { map (λ e. entry e.0.now e.1) result.now ≡ entries header }
{
    match header {
        Header::Assert => &[],
        Header::StandardBool => &STANDARD_BOOL,
        Header::StandardLibrary => &STANDARD_LIBRARY,
        Header::StandardIntegers => &STANDARD_INTEGERS,
        Header::Limits => &LIMITS,
    }
}
