// Forms of declarators and of specifiers.
ghost use Rattle.std.specs.Prelude.{◌≡◌};
ghost use Rattle.l2_tree.specs.Units.{specifier_tree, specifiers_tree, core_tree, declarator_tree};
ghost use Rattle.l2_types_declarations.specs.Forms.{is_const, const_word, has_const, start_of_text, type_start, is_bare, is_bare_core, is_lone, is_lone_core};

use l2_syntax::Place;
use l2_tree::{Core, Declarator, Specifier, SpecifierWord, Specifiers};
use l2_tree_names::base_place;

fn const_word(x: &Specifier) -> bool
    ensures { result ≡ const_word (specifier_tree x.now) }
{
    match x {
        Specifier::Word(word, _) => is_const(*word),
        Specifier::TypeName(..)
        | Specifier::Struct(..)
        | Specifier::StructBody(..)
        | Specifier::Enum(..)
        | Specifier::EnumBody(..) => false,
    }
}

fn is_const(word: SpecifierWord) -> bool
    ensures { result ≡ is_const word }
{
    match word {
        SpecifierWord::Const => true,
        _ => false,
    }
}

/// Whether `const` is among specifiers.
#[tactic(auto, using(crate::proofs::Folds::folds))]
pub fn has_const(all: &Specifiers) -> bool
    ensures { result ≡ has_const (specifiers_tree all.now) }
{
    let mut found = const_word(&all.first);
    for x in all.rest.as_slice() {
        if const_word(x) {
            found = true;
        }
    }
    found
}

/// Where a text begins.
pub fn start_of_text() -> Place
    ensures { result ≡ start_of_text }
{
    Place {
        offset: 0,
        line: 1,
        col: 1,
    }
}

/// Where a type begins.
pub fn type_start(all: &Specifiers) -> Place
    ensures { result ≡ type_start (specifiers_tree all.now) }
{
    match base_place(all) {
        Some(place) => place,
        None => start_of_text(),
    }
}

/// Whether nothing stands round a declarator's name but parentheses.
#[cycle(bare)]
#[tactic(auto, using(crate::proofs::Suffixes::bare))]
pub fn is_bare(d: &Declarator) -> bool
    ensures { result ≡ is_bare (declarator_tree d.now) }
{
    if d.pointers.len() == 0 && d.suffixes.len() == 0 {
        return is_bare_core(&d.core);
    }
    false
}

#[cycle(bare)]
#[tactic(auto, using(crate::proofs::Suffixes::cores))]
fn is_bare_core(core: &Core) -> bool
    ensures { result ≡ is_bare_core (core_tree core.now) }
{
    match core {
        Core::Group(_, inner) => is_bare(inner),
        Core::Absent | Core::Name(..) => true,
    }
}

/// Whether one thing stands behind a declarator's name, and nothing else round it.
#[cycle(lone)]
#[tactic(auto, using(crate::proofs::Suffixes::lone))]
pub fn is_lone(d: &Declarator) -> bool
    ensures { result ≡ is_lone (declarator_tree d.now) }
{
    if d.pointers.len() != 0 {
        return false;
    }
    if d.suffixes.len() == 0 {
        return is_lone_core(&d.core);
    }
    if d.suffixes.len() == 1 {
        return is_bare_core(&d.core);
    }
    false
}

#[cycle(lone)]
#[tactic(auto, using(crate::proofs::Suffixes::cores))]
fn is_lone_core(core: &Core) -> bool
    ensures { result ≡ is_lone_core (core_tree core.now) }
{
    match core {
        Core::Group(_, inner) => is_lone(inner),
        Core::Absent | Core::Name(..) => false,
    }
}
