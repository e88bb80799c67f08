ghost use Rattle.std.specs.Prelude.{◌≡◌, ◌≢◌, ◌+◌, ◌<◌, ◌^◌, List, ◌∷◌, [], map, drop, length, IfOk, IfErr, false, true};
ghost use Rattle.l2_grammar.specs.Trees.{Seen};
ghost use Rattle.l2_grammar.specs.Law.{Spells};
ghost use Rattle.l2_grammar.specs.Limits.{Read, Refused, reading, Shallow};
ghost use Rattle.l2_grammar.specs.Reader.{finish as finished_as, Reads, Stops};
ghost use Rattle.l2_reader.specs.Parts.{seen, tree_of, Sound};
ghost use Rattle.l2_reader.specs.Stacks.{trees_of};
ghost use Rattle.l2_reader.specs.Turns.{too_deep, Advances};
ghost use Rattle.l2_reader.specs.Readings.{is_end, rule_for, rule_of, place_of, InText, IsRefusal, Steady, count_of, read_from};

use crate::error::{ParseError, ReadError};
use crate::limits::{brackets_behind, exceeds, is_bracket_too_deep};
use crate::stack::Stack;
use crate::steps::{Turned, turn};
use crate::syntax::{Open, empty};
use l2_grammar::{Sort, State};
use l2_syntax::Token;
use std::alloc::Global;

/// How far reading has come: the construct that is read, those round it, and how many brackets are open.
#[derive(Drop)]
pub struct Progress {
    pub run: Open,
    pub stack: Stack,
    pub brackets: usize,
}

/// What a token does within the limits.
#[derive(Drop)]
pub enum Advance {
    /// Reading goes on.
    Further(Progress),
    /// It goes on with none of the constructs: the outermost, if all in it can end.
    Ended(Option<Open>),
}

/// What a token does within the limits; the error is that it is too deep.
pub fn pass(alloc: Global, progress: Progress, token: Token) -> Result<Advance, ReadError>
    requires steady { Steady progress }
    requires room { count_of progress + 1 < 2 ^ 64 }
    ensures ok { IfOk result (λ r. (too_deep progress token ≡ false) × Advances progress token r) }
    ensures deep { IfErr result (λ f. f ≢ ReadError.NoMemory → too_deep progress token ≡ true) }
    ensures limits { IfErr result (λ f. f ≢ ReadError.Syntax) }
{
    if is_bracket_too_deep(progress.brackets, token.kind) {
        return Err(ReadError::Nesting);
    }
    let brackets = brackets_behind(progress.brackets, token.kind);
    match turn(alloc, progress.run, progress.stack, token) {
        Ok(Turned::Further(run, stack)) => if exceeds(&run, &stack) {
            Err(ReadError::Nesting)
        } else {
            Ok(Advance::Further(Progress {
                run,
                stack,
                brackets,
            }))
        },
        Ok(Turned::Halted(whole)) => Ok(Advance::Ended(whole)),
        Err(f) => Err(f),
    }
}

/// How far reading a unit has come behind a token.
pub fn advanced(alloc: Global, progress: Progress, token: Token) -> Result<Progress, ReadError>
    requires steady { Steady progress }
    requires room { count_of progress + 1 < 2 ^ 64 }
    ensures steady { IfOk result (λ r. Steady r) }
    ensures count { IfOk result (λ r. count_of r ≡ count_of progress + 1) }
    ensures ok { IfOk result (λ r. (ts : List Seen) → read_from progress (seen token ∷ ts) ≡ read_from r ts) }
    ensures err { IfErr result (λ f. f ≢ ReadError.NoMemory → (ts : List Seen) → read_from progress (seen token ∷ ts) ≡ Refused (rule_for f) (seen token ∷ ts)) }
{
    match pass(alloc, progress, token) {
        Ok(Advance::Further(next)) => Ok(next),
        Ok(Advance::Ended(_)) => Err(ReadError::Syntax),
        Err(f) => Err(f),
    }
}

fn is_end(state: State) -> bool
    ensures { result ≡ is_end state }
{
    matches!(state, State::UnitEnd)
}

/// The tree, where the tokens end.
fn finish(run: Open, stack: Stack, at: usize) -> Result<Open, ParseError>
    requires sound { Sound run }
    ensures ok { IfOk result (λ r. finished_as (tree_of run) (trees_of stack) ≡ Reads (tree_of r)) }
    ensures err { IfErr result (λ f. finished_as (tree_of run) (trees_of stack) ≡ Stops []) }
    ensures place { IfErr result (λ f. f ≡ ParseError.Syntax at) }
{
    match stack {
        Stack::Bottom => if is_end(run.state) {
            Ok(run)
        } else {
            Err(ParseError::Syntax(at))
        },
        _ => Err(ParseError::Syntax(at)),
    }
}

pub fn failed(cause: ReadError, at: usize) -> ParseError
    ensures no_memory { cause ≡ ReadError.NoMemory → result ≡ ParseError.NoMemory }
    ensures rule { rule_of result ≡ rule_for cause }
    ensures place { cause ≢ ReadError.NoMemory → place_of result ≡ at }
    ensures text { (ts : List Token) → at < length ts → InText ts result }
{
    match cause {
        ReadError::Nesting => ParseError::Nesting(at),
        ReadError::Syntax => ParseError::Syntax(at),
        ReadError::NoMemory => ParseError::NoMemory,
    }
}

/// The reader's loop over the tokens.
fn read_all(alloc: Global, tokens: &[Token]) -> Result<Open, ParseError>
    ensures ok { IfOk result (λ r. reading (map seen tokens.now) ≡ Read (tree_of r)) }
    ensures err { IfErr result (λ f. f ≢ ParseError.NoMemory → reading (map seen tokens.now) ≡ Refused (rule_of f) (map seen (drop (place_of f) tokens.now))) }
    ensures text { IfErr result (λ f. InText tokens.now f) }
{
    let mut progress = Progress {
        run: empty(alloc, Sort::Unit),
        stack: Stack::Bottom,
        brackets: 0,
    };
    let mut at = 0;
    for token in tokens {
        match advanced(alloc, progress, *token) {
            Ok(next) => progress = next,
            Err(f) => return Err(failed(f, at)),
        }
        at += 1;
    }
    finish(progress.run, progress.stack, at)
}

/// Reads tokens to the tree of the unit that they spell, within the limits. It takes time in proportion to the count of tokens.
pub fn read(alloc: Global, tokens: &[Token]) -> Result<Open, ParseError>
    ensures ok { IfOk result (λ r. Spells (map seen tokens.now) (tree_of r) × Shallow (map seen tokens.now) []) }
    ensures err { IfErr result (λ f. IsRefusal tokens.now f) }
    ensures text { IfErr result (λ f. InText tokens.now f) }
    ensures read { IfOk result (λ r. reading (map seen tokens.now) ≡ Read (tree_of r)) }
    ensures refused { IfErr result (λ f. f ≢ ParseError.NoMemory → reading (map seen tokens.now) ≡ Refused (rule_of f) (map seen (drop (place_of f) tokens.now))) }
{
    read_all(alloc, tokens)
}
