// What stands next among the parts of a construct.
ghost use Rattle.std.specs.Prelude.{◌≡◌, ◌+◌, ◌∷◌};
ghost use Rattle.l2_tree.specs.Build.{heads as heads_so, specifies as specifies_so};
ghost use Rattle.l2_build.specs.Parts.{part, parts_of, listed, size, size_of, next_size};

use crate::starts::is_specifier;
use l2_networks::is;
use l2_reader::Syntax;
use l2_syntax::{Mark, Token};

/// The first part, and those behind it.
#[derive(Clone, Copy)]
pub enum Next<'a> {
    End,
    Leaf(Token, &'a [Syntax]),
    /// The parts of a construct.
    Node(&'a [Syntax], &'a [Syntax]),
}

fn next_of<'a>(first: &'a Syntax, rest: &'a [Syntax]) -> Next<'a>
    ensures parts { part first.now ∷ parts_of rest.now ≡ listed result }
    ensures size { size first.now + size_of rest.now ≡ next_size result }
{
    match first {
        Syntax::Token(token) => Next::Leaf(*token, rest),
        Syntax::Construct(_, inner) => Next::Node(inner, rest),
    }
}

/// What stands next.
pub fn split<'a>(parts: &'a [Syntax]) -> Next<'a>
    ensures parts { parts_of parts.now ≡ listed result }
    ensures size { size_of parts.now ≡ next_size result }
{
    match parts {
        [] => Next::End,
        [first, rest @ ..] => next_of(first, rest),
    }
}

/// Whether this mark stands next.
pub fn heads(mark: Mark, parts: &[Syntax]) -> bool
    ensures { result ≡ heads_so mark (parts_of parts.now) }
{
    match split(parts) {
        Next::Leaf(token, _) => is(mark, token.kind),
        Next::Node(_, _) => false,
        Next::End => false,
    }
}

/// Whether these parts begin with a specifier.
pub fn specifies(parts: &[Syntax]) -> bool
    ensures { result ≡ specifies_so (parts_of parts.now) }
{
    match split(parts) {
        Next::Leaf(token, _) => is_specifier(token.kind),
        Next::Node(_, _) => false,
        Next::End => false,
    }
}
