ghost use Rattle.std.specs.Prelude.{◌≡◌, ◌+◌, ◌<◌, ◌^◌, IfOk, IfErr, true};
ghost use Rattle.l2_grammar.specs.Nesting.{stands};
ghost use Rattle.l2_grammar.specs.Trees.{begin, token as then_token, child as then_child, state as state_of};
ghost use Rattle.l2_grammar.specs.Reader.{takes};
ghost use Rattle.l2_reader.specs.Parts.{seen, tree_of, Sound};

use crate::error::ReadError;
use l2_grammar::{Sort, State};
use l2_syntax::Token;
use std::alloc::Global;

/// A token, or a construct with its tokens and the constructs in it, in their order.
#[derive(Drop)]
pub enum Syntax {
    Token(Token),
    Construct(Sort, Vec<Syntax>),
}

/// A construct that is being read: how far it is, and how many tokens it has.
#[derive(Drop)]
pub struct Open {
    pub sort: Sort,
    pub state: State,
    pub size: usize,
    pub parts: Vec<Syntax>,
}

/// A construct of which nothing was read.
pub fn empty(alloc: Global, sort: Sort) -> Open
    ensures tree { tree_of result ≡ begin sort }
    ensures state { result.state ≡ State.Fresh }
    ensures sort { result.sort ≡ sort }
    ensures size { result.size ≡ 0 }
{
    Open {
        sort,
        state: State::Fresh,
        size: 0,
        parts: Vec::new(alloc),
    }
}

#[tactic(auto, using(crate::proofs::Parts::parts))]
fn more(run: Open, state: State, token: Token) -> Result<Open, ReadError>
    requires room { run.size + 1 < 2 ^ 64 }
    ensures tree { IfOk result (λ r. tree_of r ≡ then_token (tree_of run) (seen token)) }
    ensures state { IfOk result (λ r. r.state ≡ state) }
    ensures sort { IfOk result (λ r. r.sort ≡ run.sort) }
    ensures size { IfOk result (λ r. r.size ≡ run.size + 1) }
    ensures err { IfErr result (λ f. f ≡ ReadError.NoMemory) }
{
    let Open {
        sort,
        state: _,
        size,
        mut parts,
    } = run;
    match parts.push(Syntax::Token(token)) {
        Ok(()) => Ok(Open {
            sort,
            state,
            size: size + 1,
            parts,
        }),
        Err(_) => Err(ReadError::NoMemory),
    }
}

/// A construct that begins with the token.
pub fn begun_with(alloc: Global, sort: Sort, state: State, token: Token) -> Result<Open, ReadError>
    requires takes { takes sort State.Fresh token.kind ≡ true }
    ensures tree { IfOk result (λ r. tree_of r ≡ then_token (begin sort) (seen token)) }
    ensures state { IfOk result (λ r. r.state ≡ state) }
    ensures sort { IfOk result (λ r. r.sort ≡ sort) }
    ensures size { IfOk result (λ r. r.size ≡ 1) }
    ensures err { IfErr result (λ f. f ≡ ReadError.NoMemory) }
{
    more(empty(alloc, sort), state, token)
}

/// The construct with one more token.
pub fn with_token(run: Open, state: State, token: Token) -> Result<Open, ReadError>
    requires sound { Sound run }
    requires takes { takes run.sort run.state token.kind ≡ true }
    requires room { run.size + 1 < 2 ^ 64 }
    ensures tree { IfOk result (λ r. tree_of r ≡ then_token (tree_of run) (seen token)) }
    ensures state { IfOk result (λ r. r.state ≡ state) }
    ensures sort { IfOk result (λ r. r.sort ≡ run.sort) }
    ensures size { IfOk result (λ r. r.size ≡ run.size + 1) }
    ensures err { IfErr result (λ f. f ≡ ReadError.NoMemory) }
{
    more(run, state, token)
}

/// The construct with one more in it.
#[tactic(auto, using(crate::proofs::Parts::parts))]
pub fn with_child(run: Open, state: State, inner: Open) -> Result<Open, ReadError>
    requires sound { Sound run × Sound inner }
    requires stands { stands run.sort (state_of (then_child (tree_of run) (tree_of inner))) ≡ true }
    requires room { run.size + inner.size < 2 ^ 64 }
    ensures tree { IfOk result (λ r. tree_of r ≡ then_child (tree_of run) (tree_of inner)) }
    ensures state { IfOk result (λ r. r.state ≡ state) }
    ensures sort { IfOk result (λ r. r.sort ≡ run.sort) }
    ensures size { IfOk result (λ r. r.size ≡ run.size + inner.size) }
    ensures err { IfErr result (λ f. f ≡ ReadError.NoMemory) }
{
    let Open {
        sort,
        state: _,
        size,
        mut parts,
    } = run;
    let Open {
        sort: inner_sort,
        state: _,
        size: inner_size,
        parts: inner_parts,
    } = inner;
    match parts.push(Syntax::Construct(inner_sort, inner_parts)) {
        Ok(()) => Ok(Open {
            sort,
            state,
            size: size + inner_size,
            parts,
        }),
        Err(_) => Err(ReadError::NoMemory),
    }
}
