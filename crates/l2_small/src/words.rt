// How words are spelt.
ghost use Rattle.std.specs.Prelude.{◌≡◌};
ghost use Rattle.l2_small.specs.Words.{is_built_in, is_spelt, is_variable, is_main, is_assert, is_nondet_int};

use l2_syntax::{Name, Place};

/// A word, by its number among the names of the text, and where it stands.
#[derive(Clone, Copy, Debug, PartialEq, Eq)]
pub struct Word {
    pub name: u32,
    pub place: Place,
}

const BUILT_IN: [&[u8]; 19] = [
    b"assert",
    b"reach_error",
    b"abort",
    b"exit",
    b"__assert_fail",
    b"__VERIFIER_error",
    b"__VERIFIER_assume",
    b"__VERIFIER_nondet_bool",
    b"__VERIFIER_nondet_char",
    b"__VERIFIER_nondet_uchar",
    b"__VERIFIER_nondet_short",
    b"__VERIFIER_nondet_ushort",
    b"__VERIFIER_nondet_int",
    b"__VERIFIER_nondet_uint",
    b"__VERIFIER_nondet_unsigned",
    b"__VERIFIER_nondet_long",
    b"__VERIFIER_nondet_ulong",
    b"__VERIFIER_nondet_longlong",
    b"__VERIFIER_nondet_ulonglong",
];

#[tactic(auto, unfolding(crate::specs::Words::is_built_in))]
fn is_built_in(word: &[u8]) -> bool
    ensures { result ≡ is_built_in word.now }
{
    BUILT_IN.contains(&word)
}

/// Whether the word with this number is spelt so.
fn is_spelt(names: &[Name], word: u32, text: &[u8]) -> bool
    ensures { result ≡ is_spelt names.now word text.now }
{
    match names.get(word as usize) {
        Some(name) => name.bytes.as_slice() == text,
        None => false,
    }
}

#[tactic(auto, unfolding(crate::specs::Words::is_main))]
pub fn is_main(names: &[Name], word: u32) -> bool
    ensures { result ≡ is_main names.now word }
{
    is_spelt(names, word, b"main".as_slice())
}

#[tactic(auto, unfolding(crate::specs::Words::is_assert))]
pub fn is_assert(names: &[Name], word: u32) -> bool
    ensures { result ≡ is_assert names.now word }
{
    is_spelt(names, word, b"assert".as_slice())
}

#[tactic(auto, unfolding(crate::specs::Words::is_nondet_int))]
pub fn is_nondet_int(names: &[Name], word: u32) -> bool
    ensures { result ≡ is_nondet_int names.now word }
{
    is_spelt(names, word, b"__VERIFIER_nondet_int".as_slice())
}

/// Whether a variable may have the name with this number.
#[tactic(auto, unfolding(crate::specs::Words::is_variable))]
pub fn is_variable(names: &[Name], word: u32) -> bool
    ensures { result ≡ is_variable names.now word }
{
    match names.get(word as usize) {
        Some(name) => !is_built_in(name.bytes.as_slice()),
        None => false,
    }
}
