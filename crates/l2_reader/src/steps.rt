ghost use Rattle.std.specs.Prelude.{◌≡◌, ◌≢◌, ◌+◌, ◌<◌, ◌^◌, ◌∷◌, IfOk, IfErr, true, false};
ghost use Rattle.l2_grammar.specs.Expressions.{close as closed_as};
ghost use Rattle.l2_grammar.specs.Nesting.{stands as may_stand, opens as opened};
ghost use Rattle.l2_grammar.specs.Reader.{Stop, To, takes, begins, step as next_of};
ghost use Rattle.l2_reader.specs.Parts.{seen, tree_of, Sound};
ghost use Rattle.l2_reader.specs.Stacks.{trees_of, AllSound, spelt, ends, Leads};
ghost use Rattle.l2_reader.specs.Turns.{is_bottom, Closes, Turns};

use crate::error::ReadError;
use crate::stack::{Stack, over};
use crate::syntax::{Open, begun_with, with_child, with_token};
use l2_grammar::{Sort, State};
use l2_networks::{on_child, on_token, opens, outcome, stands};
use l2_syntax::Token;
use std::alloc::Global;

/// What a token does to the constructs that are read.
#[derive(Drop)]
pub enum Turned {
    /// One of them goes on, or one begins.
    Further(Open, Stack),
    /// None goes on: the outermost, if all in it can end.
    Halted(Option<Open>),
}

/// The construct goes on with the token.
fn taken(run: Open, stack: Stack, token: Token) -> Result<(Open, Stack), ReadError>
    requires sound { Sound run × AllSound stack }
    requires takes { takes run.sort run.state token.kind ≡ true }
    requires room { spelt (tree_of run ∷ trees_of stack) + 1 < 2 ^ 64 }
    ensures ok { IfOk result (λ r. Leads (next_of (trees_of stack) (tree_of run) (seen token)) r.0 r.1) }
    ensures err { IfErr result (λ f. f ≡ ReadError.NoMemory) }
{
    let next = on_token(run.sort, run.state, token.kind);
    match with_token(run, next, token) {
        Ok(run) => Ok((run, stack)),
        Err(f) => Err(f),
    }
}

/// A construct begins in it with the token.
fn begun(alloc: Global, run: Open, stack: Stack, token: Token) -> Result<(Open, Stack), ReadError>
    requires sound { Sound run × AllSound stack }
    requires takes { takes run.sort run.state token.kind ≡ false }
    requires begins { begins run.sort run.state token.kind ≡ true }
    requires room { spelt (tree_of run ∷ trees_of stack) + 1 < 2 ^ 64 }
    ensures ok { IfOk result (λ r. Leads (next_of (trees_of stack) (tree_of run) (seen token)) r.0 r.1) }
    ensures err { IfErr result (λ f. f ≡ ReadError.NoMemory) }
{
    let sort = opens(run.sort, run.state);
    let next = on_token(sort, State::Fresh, token.kind);
    match begun_with(alloc, sort, next, token) {
        Ok(inner) => match over(alloc, run, stack) {
            Ok(stack) => Ok((inner, stack)),
            Err(f) => Err(f),
        },
        Err(f) => Err(f),
    }
}

/// The construct ends, and the one round it goes on behind it.
fn ended(run: Open, stack: Stack) -> Result<(Open, Stack), ReadError>
    requires sound { Sound run × AllSound stack }
    requires room { spelt (tree_of run ∷ trees_of stack) < 2 ^ 64 }
    ensures ok { IfOk result (λ r. Leads (ends (trees_of stack) (tree_of run)) r.0 r.1) }
    ensures syntax { IfErr result (λ f. f ≢ ReadError.NoMemory → ends (trees_of stack) (tree_of run) ≡ Stop) }
    ensures limits { IfErr result (λ f. f ≢ ReadError.Nesting) }
{
    match stack {
        Stack::Bottom => Err(ReadError::Syntax),
        Stack::Over(outer, _, rest) => {
            let state = on_child(outer.sort, outer.state, outcome(run.state));
            if stands(outer.sort, state) {
                match with_child(outer, state, run) {
                    Ok(outer) => Ok((outer, Box::into_inner(rest))),
                    Err(f) => Err(f),
                }
            } else {
                Err(ReadError::Syntax)
            }
        }
    }
}

/// Whether the construct goes on with the token.
fn goes_on(sort: Sort, state: State, token: Token) -> bool
    ensures { result ≡ takes sort state token.kind }
{
    stands(sort, on_token(sort, state, token.kind))
}

/// Whether a construct begins in it with the token.
fn has_begin(sort: Sort, state: State, token: Token) -> bool
    requires standing { may_stand sort state ≡ true }
    ensures { result ≡ begins sort state token.kind }
{
    goes_on(opens(sort, state), State::Fresh, token)
}

fn is_bottom(stack: &Stack) -> bool
    ensures { result ≡ is_bottom (trees_of stack.now) }
{
    matches!(stack, Stack::Bottom)
}

/// The outermost construct, once all in it have ended, if they can.
pub fn close(run: Open, stack: Stack) -> Result<Option<Open>, ReadError>
    requires sound { Sound run × AllSound stack }
    requires room { spelt (tree_of run ∷ trees_of stack) < 2 ^ 64 }
    ensures ok { IfOk result (λ r. Closes (closed_as (trees_of stack) (tree_of run)) r) }
    ensures err { IfErr result (λ f. f ≡ ReadError.NoMemory) }
{
    let mut run = run;
    let mut stack = stack;
    loop {
        if is_bottom(&stack) {
            return Ok(Some(run));
        }
        match ended(run, stack) {
            Ok((outer, rest)) => {
                run = outer;
                stack = rest;
            }
            Err(ReadError::NoMemory) => return Err(ReadError::NoMemory),
            Err(_) => return Ok(None),
        }
    }
}

/// What a token does: the construct goes on, or one begins in it, or it ends and the one round it goes on.
pub fn turn(alloc: Global, run: Open, stack: Stack, token: Token) -> Result<Turned, ReadError>
    requires sound { Sound run × AllSound stack }
    requires room { spelt (tree_of run ∷ trees_of stack) + 1 < 2 ^ 64 }
    ensures ok { IfOk result (λ r. Turns (trees_of stack) (tree_of run) (seen token) r) }
    ensures err { IfErr result (λ f. f ≡ ReadError.NoMemory) }
{
    let mut run = run;
    let mut stack = stack;
    loop {
        if goes_on(run.sort, run.state, token) {
            return match taken(run, stack, token) {
                Ok((run, stack)) => Ok(Turned::Further(run, stack)),
                Err(f) => Err(f),
            };
        }
        if has_begin(run.sort, run.state, token) {
            return match begun(alloc, run, stack, token) {
                Ok((run, stack)) => Ok(Turned::Further(run, stack)),
                Err(f) => Err(f),
            };
        }
        if is_bottom(&stack) {
            return Ok(Turned::Halted(Some(run)));
        }
        match ended(run, stack) {
            Ok((outer, rest)) => {
                run = outer;
                stack = rest;
            }
            Err(ReadError::NoMemory) => return Err(ReadError::NoMemory),
            Err(_) => return Ok(Turned::Halted(None)),
        }
    }
}
