// Specifiers.
ghost use Rattle.std.specs.Prelude.{◌≡◌, Some, cond, Option, option_map};
ghost use Rattle.l2_tree.specs.Trees.{first_specifier};
ghost use Rattle.l2_tree.specs.Units.{specifier_tree, specifiers_tree};
ghost use Rattle.l2_tree_laws.specs.Places.{specifier_place};
ghost use Rattle.l2_tree_laws.specs.Specifiers.{storage_word, storage_of, other, other_of, base_of};
ghost use Rattle.l2_tree_names.specs.Specifiers.{own_place, base_place, base_tree};
ghost use Rattle.l2_tree_names.specs.Numbers.{add_word, add_specifier, words_of, number_of};

use l2_syntax::{Place, Scalar};
use l2_tree::{Specifier, SpecifierWord, Specifiers};

/// The type that specifiers name.
#[derive(Clone, Copy)]
pub enum BaseType<'a> {
    Void,
    Number(Scalar),
    /// The name of a type.
    Named(u32, Place),
    /// A struct or an enum.
    Tagged(&'a Specifier),
}

/// How many words of a number there are, as far as it matters.
#[derive(Clone, Copy, Debug, PartialEq, Eq)]
pub struct NumberWords {
    pub is_unsigned: bool,
    pub is_char: bool,
    pub is_short: bool,
    pub is_long: bool,
    pub is_long_long: bool,
}

/// The word of storage that a specifier is.
fn storage_word(x: &Specifier) -> Option<SpecifierWord>
    ensures { result ≡ storage_word (specifier_tree x.now) }
{
    match x {
        Specifier::Word(word, _) => match word {
            SpecifierWord::Static => Some(SpecifierWord::Static),
            SpecifierWord::Extern => Some(SpecifierWord::Extern),
            SpecifierWord::Const
            | SpecifierWord::Signed
            | SpecifierWord::Unsigned
            | SpecifierWord::Bool => None,
            SpecifierWord::Char
            | SpecifierWord::Short
            | SpecifierWord::Int
            | SpecifierWord::Long
            | SpecifierWord::Void => None,
        },
        Specifier::TypeName(..)
        | Specifier::Struct(..)
        | Specifier::StructBody(..)
        | Specifier::Enum(..)
        | Specifier::EnumBody(..) => None,
    }
}

/// The word of storage among specifiers.
#[tactic(auto, using(crate::proofs::Folds::folds))]
pub fn storage_of(all: &Specifiers) -> Option<SpecifierWord>
    ensures { result ≡ storage_of (specifiers_tree all.now) }
{
    let mut found = storage_word(&all.first);
    for x in all.rest.as_slice() {
        if let Some(word) = storage_word(x) {
            found = Some(word);
        }
    }
    found
}

/// A specifier's place, unless it is a word of storage.
fn own_place(x: &Specifier) -> Option<Place>
    ensures { result ≡ own_place (specifier_tree x.now) }
{
    match storage_word(x) {
        Some(_) => None,
        None => Some(specifier_place(x)),
    }
}

fn specifier_place(x: &Specifier) -> Place
    ensures { result ≡ specifier_place (specifier_tree x.now) }
{
    match x {
        Specifier::Word(_, place)
        | Specifier::TypeName(_, place)
        | Specifier::Struct(place, _)
        | Specifier::StructBody(place, _, _, _)
        | Specifier::Enum(place, _)
        | Specifier::EnumBody(place, _, _, _, _) => *place,
    }
}

/// The place of a type's first token: that of the first specifier that is no word of storage.
#[tactic(auto, using(crate::proofs::Folds::folds))]
pub fn base_place(all: &Specifiers) -> Option<Place>
    ensures { result ≡ base_place (specifiers_tree all.now) }
{
    let mut found = own_place(&all.first);
    for x in all.rest.as_slice() {
        if found.is_none() {
            found = own_place(x);
        }
    }
    found
}

/// The type that a specifier names by itself.
fn other<'a>(x: &'a Specifier) -> Option<BaseType<'a>>
    ensures { option_map base_tree result ≡ other (specifier_tree x.now) }
{
    match x {
        Specifier::Word(word, _) => match word {
            SpecifierWord::Void => Some(BaseType::Void),
            SpecifierWord::Bool => Some(BaseType::Number(Scalar::Bool)),
            SpecifierWord::Static
            | SpecifierWord::Extern
            | SpecifierWord::Const
            | SpecifierWord::Signed
            | SpecifierWord::Unsigned => None,
            SpecifierWord::Char | SpecifierWord::Short | SpecifierWord::Int | SpecifierWord::Long =>
                None,
        },
        Specifier::TypeName(name, place) => Some(BaseType::Named(*name, *place)),
        Specifier::Struct(..)
        | Specifier::StructBody(..)
        | Specifier::Enum(..)
        | Specifier::EnumBody(..) => Some(BaseType::Tagged(x)),
    }
}

/// The type among specifiers that one of them names by itself.
#[tactic(auto, using(crate::proofs::Folds::folds))]
fn other_of<'a>(all: &'a Specifiers) -> Option<BaseType<'a>>
    ensures { option_map base_tree result ≡ other_of (specifiers_tree all.now) }
{
    let mut found = other(&all.first);
    for x in all.rest.as_slice() {
        if let Some(base) = other(x) {
            found = Some(base);
        }
    }
    found
}

/// The words with one more.
fn add_word(word: SpecifierWord, words: NumberWords) -> NumberWords
    ensures { result ≡ add_word word words }
{
    match word {
        SpecifierWord::Unsigned => NumberWords {
            is_unsigned: true,
            ..words
        },
        SpecifierWord::Char => NumberWords {
            is_char: true,
            ..words
        },
        SpecifierWord::Short => NumberWords {
            is_short: true,
            ..words
        },
        SpecifierWord::Long => NumberWords {
            is_long: true,
            is_long_long: words.is_long || words.is_long_long,
            ..words
        },
        SpecifierWord::Static
        | SpecifierWord::Extern
        | SpecifierWord::Const
        | SpecifierWord::Signed
        | SpecifierWord::Bool => words,
        SpecifierWord::Int | SpecifierWord::Void => words,
    }
}

/// The words with one more specifier.
fn add_specifier(x: &Specifier, words: NumberWords) -> NumberWords
    ensures { result ≡ add_specifier (specifier_tree x.now) words }
{
    match x {
        Specifier::Word(word, _) => add_word(*word, words),
        Specifier::TypeName(..)
        | Specifier::Struct(..)
        | Specifier::StructBody(..)
        | Specifier::Enum(..)
        | Specifier::EnumBody(..) => words,
    }
}

const NO_WORDS: NumberWords = NumberWords {
    is_unsigned: false,
    is_char: false,
    is_short: false,
    is_long: false,
    is_long_long: false,
};

/// The words of a number among specifiers.
#[tactic(auto, using(crate::proofs::Folds::folds))]
fn words_of(all: &Specifiers) -> NumberWords
    ensures { result ≡ words_of (specifiers_tree all.now) }
{
    let mut words = add_specifier(&all.first, NO_WORDS);
    for x in all.rest.as_slice() {
        words = add_specifier(x, words);
    }
    words
}

fn signed_or(words: NumberWords, signed: Scalar, unsigned: Scalar) -> Scalar
    ensures { result ≡ cond words.is_unsigned unsigned signed }
{
    if words.is_unsigned { unsigned } else { signed }
}

/// The number type of these words.
fn number_of(words: NumberWords) -> Scalar
    ensures { result ≡ number_of words }
{
    if words.is_char {
        signed_or(words, Scalar::Char, Scalar::UChar)
    } else if words.is_short {
        signed_or(words, Scalar::Short, Scalar::UShort)
    } else if words.is_long_long {
        signed_or(words, Scalar::LongLong, Scalar::ULongLong)
    } else if words.is_long {
        signed_or(words, Scalar::Long, Scalar::ULong)
    } else {
        signed_or(words, Scalar::Int, Scalar::UInt)
    }
}

/// The type that specifiers name.
#[tactic(auto, using(crate::proofs::Numbers::numbers))]
pub fn base_of<'a>(all: &'a Specifiers) -> BaseType<'a>
    ensures { base_tree result ≡ base_of (specifiers_tree all.now) }
{
    match other_of(all) {
        Some(base) => base,
        None => BaseType::Number(number_of(words_of(all))),
    }
}
