// Declarators.
ghost use Rattle.std.specs.Prelude.{◌≡◌, Option, Some, option_map, List};
ghost use Rattle.l2_tree.specs.Trees.{no_parameters, no_suffixes};
ghost use Rattle.l2_tree.specs.Units.{declarator_tree, suffix_tree, suffixes_onto, parameters_onto};
ghost use Rattle.l2_tree_names.specs.Declarators.{name_of, first_suffix, last_pointer, round_of, nearest, behind, parameters_in, parameters_of};
ghost use Rattle.l2_tree_names.specs.Rounds.{round_tree};

use l2_syntax::Place;
use l2_tree::{Core, Declarator, Parameter, Pointer, Suffix};

/// A name that a declarator gives, and where it stands.
#[derive(Clone, Copy, Debug, PartialEq, Eq)]
pub struct DeclaredName {
    pub name: u32,
    pub place: Place,
}

/// The name that a declarator gives.
#[tactic(auto, using(l2_tree::proofs::Declarations::declarators))]
pub fn name_of(d: &Declarator) -> Option<DeclaredName>
    ensures { result ≡ name_of (declarator_tree d.now) }
{
    match &d.core {
        Core::Absent => None,
        Core::Name(name, place) => Some(DeclaredName {
            name: *name,
            place: *place,
        }),
        Core::Group(_, inner) => name_of(inner),
    }
}

#[derive(Clone, Copy)]
/// What stands nearest round a name: a pointer before it, or a length or parameters behind it.
pub enum Round<'a> {
    Before(Pointer),
    Behind(&'a Suffix),
}

/// The first of what stands behind a declarator's core.
#[tactic(auto, using(crate::proofs::Rounds::rounds))]
fn first_suffix<'a>(suffixes: &'a [Suffix]) -> Option<&'a Suffix>
    ensures { option_map (λ x. suffix_tree x.now) result ≡ first_suffix (suffixes_onto no_suffixes suffixes.now) }
{
    if suffixes.is_empty() {
        None
    } else {
        Some(&suffixes[0])
    }
}

/// The pointer nearest to a declarator's core.
fn last_pointer(pointers: &[Pointer]) -> Option<Pointer>
    ensures { result ≡ last_pointer pointers.now }
{
    let mut last = None;
    for pointer in pointers {
        last = Some(*pointer);
    }
    last
}

/// What is nearest, where this is nearest within the core.
fn around<'a>(
    inside: Option<Round<'a>>,
    suffixes: &'a [Suffix],
    pointers: &[Pointer],
) -> Option<Round<'a>>
    ensures { option_map round_tree result ≡ round_of (option_map round_tree inside.entry) (first_suffix (suffixes_onto no_suffixes suffixes.now)) (last_pointer pointers.now) }
{
    match inside {
        Some(round) => Some(round),
        None => match first_suffix(suffixes) {
            Some(suffix) => Some(Round::Behind(suffix)),
            None => match last_pointer(pointers) {
                Some(pointer) => Some(Round::Before(pointer)),
                None => None,
            },
        },
    }
}

/// What stands nearest round a declarator's name.
#[tactic(auto, using(l2_tree::proofs::Declarations::declarators))]
pub fn nearest<'a>(d: &'a Declarator) -> Option<Round<'a>>
    ensures { option_map round_tree result ≡ nearest (declarator_tree d.now) }
{
    match &d.core {
        Core::Group(_, inner) => around(nearest(inner), &d.suffixes, &d.pointers),
        Core::Absent | Core::Name(..) => around(None, &d.suffixes, &d.pointers),
    }
}

/// The parameters that stand behind a name.
#[tactic(auto, using(l2_tree::proofs::Declarations::declarators))]
fn suffix_parameters<'a>(suffix: &'a Suffix) -> Option<&'a Vec<Parameter>>
    ensures { option_map (λ r. parameters_onto no_parameters r.now.items) result ≡ parameters_in (Some (behind (suffix_tree suffix.now))) }
{
    match suffix {
        Suffix::Parameters(_, list) => Some(list),
        Suffix::Array(_) | Suffix::ArrayOf(..) => None,
    }
}

/// The parameters of the function that a declarator declares, if it declares one.
pub fn parameters_of<'a>(d: &'a Declarator) -> Option<&'a Vec<Parameter>>
    ensures { option_map (λ r. parameters_onto no_parameters r.now.items) result ≡ parameters_of (declarator_tree d.now) }
{
    match nearest(d) {
        Some(round) => match round {
            Round::Behind(suffix) => suffix_parameters(suffix),
            Round::Before(_) => None,
        },
        None => None,
    }
}
