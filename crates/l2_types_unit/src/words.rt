// The names that mean something without a declaration.
ghost use Rattle.std.specs.Prelude.{◌≡◌, map, codes, IfOk};
ghost use Rattle.l2_types_unit.specs.Words.{known, known_names, meaning_in, with_meaning, with_known, number_of, main_number};

use l2_syntax::{Name, Scalar};
use l2_types::{Builtin, CType, CheckError, Meaning, Table};

const KNOWN: [(&[u8], Meaning); 29] = [
    (b"assert", Meaning::Builtin(Builtin::Assert)),
    (b"reach_error", Meaning::Builtin(Builtin::ReachError)),
    (b"abort", Meaning::Builtin(Builtin::Abort)),
    (b"exit", Meaning::Builtin(Builtin::Exit)),
    (b"__assert_fail", Meaning::Builtin(Builtin::AssertFail)),
    (b"__VERIFIER_error", Meaning::Builtin(Builtin::Fail)),
    (b"__VERIFIER_assume", Meaning::Builtin(Builtin::Assume)),
    (
        b"__VERIFIER_nondet_bool",
        Meaning::Builtin(Builtin::Choice(Scalar::Bool)),
    ),
    (
        b"__VERIFIER_nondet_char",
        Meaning::Builtin(Builtin::Choice(Scalar::Char)),
    ),
    (
        b"__VERIFIER_nondet_uchar",
        Meaning::Builtin(Builtin::Choice(Scalar::UChar)),
    ),
    (
        b"__VERIFIER_nondet_short",
        Meaning::Builtin(Builtin::Choice(Scalar::Short)),
    ),
    (
        b"__VERIFIER_nondet_ushort",
        Meaning::Builtin(Builtin::Choice(Scalar::UShort)),
    ),
    (
        b"__VERIFIER_nondet_int",
        Meaning::Builtin(Builtin::Choice(Scalar::Int)),
    ),
    (
        b"__VERIFIER_nondet_uint",
        Meaning::Builtin(Builtin::Choice(Scalar::UInt)),
    ),
    (
        b"__VERIFIER_nondet_unsigned",
        Meaning::Builtin(Builtin::Choice(Scalar::UInt)),
    ),
    (
        b"__VERIFIER_nondet_long",
        Meaning::Builtin(Builtin::Choice(Scalar::Long)),
    ),
    (
        b"__VERIFIER_nondet_ulong",
        Meaning::Builtin(Builtin::Choice(Scalar::ULong)),
    ),
    (
        b"__VERIFIER_nondet_longlong",
        Meaning::Builtin(Builtin::Choice(Scalar::LongLong)),
    ),
    (
        b"__VERIFIER_nondet_ulonglong",
        Meaning::Builtin(Builtin::Choice(Scalar::ULongLong)),
    ),
    (
        b"bool",
        Meaning::TypeName(CType::Integer(Scalar::Bool), false),
    ),
    (
        b"size_t",
        Meaning::TypeName(CType::Integer(Scalar::ULong), false),
    ),
    (
        b"int8_t",
        Meaning::TypeName(CType::Integer(Scalar::Char), false),
    ),
    (
        b"int16_t",
        Meaning::TypeName(CType::Integer(Scalar::Short), false),
    ),
    (
        b"int32_t",
        Meaning::TypeName(CType::Integer(Scalar::Int), false),
    ),
    (
        b"int64_t",
        Meaning::TypeName(CType::Integer(Scalar::Long), false),
    ),
    (
        b"uint8_t",
        Meaning::TypeName(CType::Integer(Scalar::UChar), false),
    ),
    (
        b"uint16_t",
        Meaning::TypeName(CType::Integer(Scalar::UShort), false),
    ),
    (
        b"uint32_t",
        Meaning::TypeName(CType::Integer(Scalar::UInt), false),
    ),
    (
        b"uint64_t",
        Meaning::TypeName(CType::Integer(Scalar::ULong), false),
    ),
];

fn known_names() -> &'static [(&'static [u8], Meaning)]
    ensures { map (λ e. known e.0.now e.1) result.now ≡ known_names }
{
    &KNOWN
}

/// What a name stands for by such a list.
fn meaning_in(all: &[(&'static [u8], Meaning)], word: &[u8]) -> Option<Meaning>
    ensures { result ≡ meaning_in (map (λ e. known e.0.now e.1) all.now) word.now }
{
    for e in all {
        if e.0 == word {
            return Some(e.1);
        }
    }
    None
}

fn with_meaning(table: &mut Table, name: u32, meaning: Option<Meaning>) -> Result<(), CheckError>
    ensures ok { IfOk result (λ u. table.new ≡ with_meaning name meaning table.old) }
{
    match meaning {
        None => Ok(()),
        Some(meaning) => table.with_outer_entry(name, meaning),
    }
}

/// The names of a text that mean something. More names than a `u32` counts are want of memory.
pub fn with_known(table: &mut Table, names: &[Name]) -> Result<(), CheckError>
    ensures ok { IfOk result (λ u. table.new ≡ with_known 0 names.now table.old) }
{
    let mut number = 0;
    for w in names {
        let meaning = meaning_in(known_names(), w.bytes.as_slice());
        with_meaning(table, number, meaning)?;
        if number == u32::MAX {
            return Err(CheckError::NoMemory);
        }
        number += 1;
    }
    Ok(())
}

/// The number of the first name that is spelt so.
fn number_of(names: &[Name], word: &[u8]) -> Result<Option<u32>, CheckError>
    ensures ok { IfOk result (λ n. n ≡ number_of 0 names.now word.now) }
{
    let mut number = 0;
    for m in names {
        if m.bytes.as_slice() == word {
            return Ok(Some(number));
        }
        if number == u32::MAX {
            return Err(CheckError::NoMemory);
        }
        number += 1;
    }
    Ok(None)
}

/// The number of the name `main`.
pub fn main_number(names: &[Name]) -> Result<Option<u32>, CheckError>
    ensures ok { IfOk result (λ n. n ≡ main_number names.now) }
{
    number_of(names, b"main".as_slice())
}
