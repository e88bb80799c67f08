// Declarations.
ghost use Rattle.std.specs.Prelude.{◌≡◌, Some, None, IfOk, IsErrOf};
ghost use Rattle.l2_tree.specs.Trees.{first_specifier};
ghost use Rattle.l2_tree.specs.Units.{specifier_tree, specifiers_tree, initialiser_tree, declared_tree, declarator_tree, declaration_tree};
ghost use Rattle.l2_small.specs.SmallTrees.{small_stmt_tree};
ghost use Rattle.l2_small.specs.SmallForm.{word_alone, is_int, is_void, name_alone, small_declare, small_initialise, small_declared, small_declaration};

use crate::error::SmallError;
use crate::expressions::small_expr;
use crate::tree::SmallStmt;
use crate::words::{Word, is_variable};
use l2_syntax::Name;
use l2_tree::{
    Core, Declaration, Declarator, Declared, Initialiser, Specifier, SpecifierWord, Specifiers,
};
use std::alloc::Global;

/// The word that a specifier is.
fn word_of(x: &Specifier) -> Option<SpecifierWord>
    ensures { result ≡ word_alone (first_specifier (specifier_tree x.now)) }
{
    match x {
        Specifier::Word(word, _) => Some(*word),
        Specifier::TypeName(..)
        | Specifier::Struct(..)
        | Specifier::StructBody(..)
        | Specifier::Enum(..)
        | Specifier::EnumBody(..) => None,
    }
}

/// The word that specifiers are, if they are one word alone.
#[tactic(auto, using(crate::proofs::Lists::specifiers))]
pub fn word_alone(all: &Specifiers) -> Option<SpecifierWord>
    ensures { result ≡ word_alone (specifiers_tree all.now) }
{
    if all.rest.is_empty() {
        word_of(&all.first)
    } else {
        None
    }
}

pub fn is_int(word: Option<SpecifierWord>) -> bool
    ensures { result ≡ is_int word }
{
    match word {
        Some(word) => match word {
            SpecifierWord::Int => true,
            SpecifierWord::Static
            | SpecifierWord::Extern
            | SpecifierWord::Const
            | SpecifierWord::Signed
            | SpecifierWord::Unsigned => false,
            SpecifierWord::Bool
            | SpecifierWord::Char
            | SpecifierWord::Short
            | SpecifierWord::Long
            | SpecifierWord::Void => false,
        },
        None => false,
    }
}

pub fn is_void(word: Option<SpecifierWord>) -> bool
    ensures { result ≡ is_void word }
{
    match word {
        Some(word) => match word {
            SpecifierWord::Void => true,
            SpecifierWord::Static
            | SpecifierWord::Extern
            | SpecifierWord::Const
            | SpecifierWord::Signed
            | SpecifierWord::Unsigned => false,
            SpecifierWord::Bool
            | SpecifierWord::Char
            | SpecifierWord::Short
            | SpecifierWord::Int
            | SpecifierWord::Long => false,
        },
        None => false,
    }
}

/// The name that a declarator is, if it is a name alone.
#[tactic(auto, using(crate::proofs::Lists::names))]
fn name_alone(d: &Declarator) -> Option<Word>
    ensures { result ≡ name_alone (declarator_tree d.now) }
{
    match &d.core {
        Core::Name(name, place) => {
            if !d.pointers.is_empty() {
                None
            } else if !d.suffixes.is_empty() {
                None
            } else {
                Some(Word {
                    name: *name,
                    place: *place,
                })
            }
        }
        Core::Absent | Core::Group(..) => None,
    }
}

/// `int NAME;`.
fn declare(names: &[Name], word: Option<Word>) -> Result<SmallStmt, SmallError>
    ensures ok { IfOk result (λ r. small_declare names.now word ≡ Some (small_stmt_tree r)) }
    ensures not_small { IsErrOf result SmallError.NotSmall → small_declare names.now word ≡ None }
{
    match word {
        Some(word) => {
            if is_variable(names, word.name) {
                Ok(SmallStmt::Declare(word.name, word.place))
            } else {
                Err(SmallError::NotSmall)
            }
        }
        None => Err(SmallError::NotSmall),
    }
}

/// `int NAME = e;`.
#[tactic(auto, using(crate::proofs::Steps::steps))]
fn initialise(
    alloc: Global,
    names: &[Name],
    word: Option<Word>,
    start: &Initialiser,
) -> Result<SmallStmt, SmallError>
    ensures ok { IfOk result (λ r. small_initialise names.now word (initialiser_tree start.now) ≡ Some (small_stmt_tree r)) }
    ensures not_small { IsErrOf result SmallError.NotSmall → small_initialise names.now word (initialiser_tree start.now) ≡ None }
{
    match word {
        Some(word) => match start {
            Initialiser::Expression(e) => {
                if is_variable(names, word.name) {
                    let value = small_expr(alloc, names, e)?;
                    Ok(SmallStmt::Initialise(word.name, word.place, value))
                } else {
                    Err(SmallError::NotSmall)
                }
            }
            Initialiser::Braced(..) => Err(SmallError::NotSmall),
        },
        None => Err(SmallError::NotSmall),
    }
}

/// A declarator, perhaps with its initialiser, behind `int`.
#[tactic(auto, using(crate::proofs::Lists::declarators))]
fn declared(alloc: Global, names: &[Name], d: &Declared) -> Result<SmallStmt, SmallError>
    ensures ok { IfOk result (λ r. small_declared names.now (declared_tree d.now) ≡ Some (small_stmt_tree r)) }
    ensures not_small { IsErrOf result SmallError.NotSmall → small_declared names.now (declared_tree d.now) ≡ None }
{
    match d {
        Declared::Plain(d) => declare(names, name_alone(d)),
        Declared::Initialised(d, _, start) => initialise(alloc, names, name_alone(d), start),
    }
}

/// The small tree of a declaration.
#[tactic(auto, using(crate::proofs::Lists::declarations))]
pub fn declaration(alloc: Global, names: &[Name], d: &Declaration) -> Result<SmallStmt, SmallError>
    ensures ok { IfOk result (λ r. small_declaration names.now (declaration_tree d.now) ≡ Some (small_stmt_tree r)) }
    ensures not_small { IsErrOf result SmallError.NotSmall → small_declaration names.now (declaration_tree d.now) ≡ None }
{
    match d.declarators.as_slice() {
        [only] => {
            if is_int(word_alone(&d.specifiers)) {
                declared(alloc, names, only)
            } else {
                Err(SmallError::NotSmall)
            }
        }
        _ => Err(SmallError::NotSmall),
    }
}
