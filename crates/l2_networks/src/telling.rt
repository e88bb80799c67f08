// Which mark a token is, where the networks go on with it.
ghost use Rattle.std.specs.Prelude.{◌≡◌, true};
ghost use Rattle.l2_grammar.specs.Networks.{on};
ghost use Rattle.l2_grammar.specs.Nesting.{stands};

use l2_grammar::{Sort, State};
use l2_syntax::{Mark, TokenKind};

/// Where a construct goes on behind this mark alone, a token with which it goes on is the mark. It does nothing.
#[tactic(auto, using(crate::proofs::Tells::only_mark))]
pub fn only(sort: Sort, mark: Mark, kind: TokenKind, next: State)
    requires { stands sort (on mark next kind State.None) ≡ true }
    ensures { kind ≡ TokenKind.Mark mark }
{
    let _ = (sort, mark, kind, next);
}
