// The names of a text and what is known of each.
ghost use Rattle.std.specs.Prelude.{◌≡◌, ◌≤◌, ◌<◌, ◌+◌, ◌^◌, ◌++◌, ◌∷◌, [], cond, map, set, length, IfOk, OnOk};
ghost use Rattle.l2_lex.specs.States.{number_of, with_name, with_role, role_of};

use indexmap::IndexSet;
use l2_directives::Role;
use std::alloc::AllocError;

/// The names by number, each once, and what each is.
#[derive(Drop)]
pub struct Known<'a> {
    pub names: IndexSet<&'a [u8]>,
    pub roles: Vec<Role>,
}

/// The role of a name that is new.
fn first_role(roles: &mut Vec<Role>, is_new: bool) -> Result<(), AllocError>
    ensures { OnOk result (roles.new.items ≡ cond is_new (roles.old.items ++ Role.Plain ∷ []) roles.old.items) }
{
    if !is_new {
        return Ok(());
    }
    match roles.push(Role::Plain) {
        Ok(()) => Ok(()),
        Err(_) => Err(AllocError),
    }
}

/// The number of a name, which is known from now on.
pub fn know<'a>(known: &mut Known<'a>, word: &'a [u8]) -> Result<usize, AllocError>
    ensures number { IfOk result (λ i. i ≡ number_of (map (λ k. k.now) known.old.names.keys) word.now) }
    ensures within { IfOk result (λ i. i ≤ length known.old.names.keys) }
    ensures names { OnOk result (map (λ k. k.now) known.new.names.keys ≡ with_name (map (λ k. k.now) known.old.names.keys) word.now) }
    ensures roles { OnOk result (known.new.roles.items ≡ with_role (map (λ k. k.now) known.old.names.keys) known.old.roles.items word.now) }
    ensures more { OnOk result (length known.new.names.keys ≤ length known.old.names.keys + 1) }
{
    match known.names.insert_full(word) {
        Ok((index, is_new)) => match first_role(&mut known.roles, is_new) {
            Ok(()) => Ok(index),
            Err(e) => Err(e),
        },
        Err(_) => Err(AllocError),
    }
}

/// What the name of this number is.
pub fn role(known: &Known, number: usize) -> Role
    ensures { result ≡ role_of known.now.roles.items number }
{
    match known.roles.get(number) {
        None => Role::Plain,
        Some(found) => *found,
    }
}

/// The number of a name that is known, or that it would have.
fn number_of(known: &Known, word: &[u8]) -> usize
    ensures { result ≡ number_of (map (λ k. k.now) known.now.names.keys) word.now }
{
    match known.names.get_index_of(word) {
        None => known.names.len(),
        Some(index) => index,
    }
}

/// What a word is, known or not.
pub fn role_of_word(known: &Known, word: &[u8]) -> Role
    ensures { result ≡ role_of known.now.roles.items (number_of (map (λ k. k.now) known.now.names.keys) word.now) }
{
    role(known, number_of(known, word))
}

/// Gives the name of this number a role.
pub fn set_role<'a>(known: &mut Known<'a>, number: usize, role: Role)
    ensures names { known.new.names ≡ known.old.names }
    ensures roles { known.new.roles.items ≡ set known.old.roles.items number role }
{
    if number < known.roles.len() {
        known.roles[number] = role;
    }
}
