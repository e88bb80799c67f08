// Reading one full expression within the limits.
ghost use Rattle.std.specs.Prelude.{◌≡◌, ◌≢◌, ◌+◌, ◌<◌, ◌≤◌, ◌^◌, List, ◌∷◌, map, drop, length, IfOk, IfErr};
ghost use Rattle.l2_grammar.specs.Trees.{Seen};
ghost use Rattle.l2_grammar.specs.Limits.{most};
ghost use Rattle.l2_grammar.specs.Expressions.{sort_at, is_value, Whole, Broken, closed, expression as reading_of, EndsBefore};
ghost use Rattle.l2_reader.specs.Parts.{seen, tree_of, Sound};
ghost use Rattle.l2_reader.specs.Readings.{rule_for, rule_of, place_of, Steady, count_of};
ghost use Rattle.l2_reader.specs.Turns.{closing, SomeSound, express_from, seen_from, InRest, IsExpressionRefusal};

use crate::error::{ParseError, ReadError};
use crate::limits::{brackets_behind, is_bracket_too_deep};
use crate::reader::{Advance, Progress, failed, pass};
use crate::stack::Stack;
use crate::steps::close;
use crate::syntax::{Open, begun_with};
use l2_grammar::{Level, Outcome, Sort, State};
use l2_networks::{on_token, outcome, stands};
use l2_syntax::Token;
use std::alloc::Global;

fn sort_at(level: Level) -> Sort
    ensures { result ≡ sort_at level }
{
    match level {
        Level::Comma => Sort::Operand(1),
        Level::Assignment => Sort::Operand(2),
        Level::Conditional => Sort::Operand(3),
    }
}

/// Begins an expression with its first token.
fn begun_expression(
    alloc: Global,
    token: Token,
    depth: usize,
    level: Level,
) -> Result<Progress, ReadError>
    requires depth { depth ≤ most }
    ensures steady { IfOk result (λ r. Steady r) }
    ensures count { IfOk result (λ r. count_of r ≡ 1) }
    ensures ok { IfOk result (λ r. (ts : List Seen) → reading_of level depth (seen token ∷ ts) ≡ express_from r ts) }
    ensures err { IfErr result (λ f. f ≢ ReadError.NoMemory → (ts : List Seen) → reading_of level depth (seen token ∷ ts) ≡ Broken (rule_for f) (seen token ∷ ts)) }
{
    if is_bracket_too_deep(depth, token.kind) {
        return Err(ReadError::Nesting);
    }
    let sort = sort_at(level);
    let state = on_token(sort, State::Fresh, token.kind);
    if stands(sort, state) {
        match begun_with(alloc, sort, state, token) {
            Ok(run) => Ok(Progress {
                run,
                stack: Stack::Bottom,
                brackets: brackets_behind(depth, token.kind),
            }),
            Err(f) => Err(f),
        }
    } else {
        Err(ReadError::Syntax)
    }
}

/// The expression that ended before an index, if it is whole.
fn ended_before(whole: Option<Open>, at: usize) -> Result<(Open, usize), ParseError>
    requires sound { SomeSound whole }
    ensures ok { IfOk result (λ r. (ts : List Seen) → closed (closing whole) ts ≡ Whole (tree_of r.0) ts) }
    ensures sound { IfOk result (λ r. Sound r.0) }
    ensures at { IfOk result (λ r. r.1 ≡ at) }
    ensures err { IfErr result (λ f. (ts : List Seen) → closed (closing whole) ts ≡ Broken (rule_of f) ts) }
    ensures place { IfErr result (λ f. f ≡ ParseError.Syntax at) }
{
    match whole {
        Some(run) => if is_value(outcome(run.state)) {
            Ok((run, at))
        } else {
            Err(ParseError::Syntax(at))
        },
        None => Err(ParseError::Syntax(at)),
    }
}

fn is_value(outcome: Outcome) -> bool
    ensures { result ≡ is_value outcome }
{
    matches!(outcome, Outcome::Value)
}

/// The token at an index.
fn token_at(tokens: &[Token], at: usize) -> Token
    requires at { at < length tokens.now }
    ensures { seen_from at tokens.now ≡ seen result ∷ seen_from (at + 1) tokens.now }
{
    tokens[at]
}

/// The reader's loop over the tokens from an index on.
fn read_on(
    alloc: Global,
    tokens: &[Token],
    at: usize,
    progress: Progress,
) -> Result<(Open, usize), ParseError>
    requires at { at ≤ length tokens.now }
    requires steady { Steady progress }
    requires room { count_of progress ≤ at }
    ensures ok { IfOk result (λ r. express_from progress (seen_from at tokens.now) ≡ Whole (tree_of r.0) (seen_from r.1 tokens.now)) }
    ensures sound { IfOk result (λ r. Sound r.0) }
    ensures range { IfOk result (λ r. (at ≤ r.1) × (r.1 ≤ length tokens.now)) }
    ensures err { IfErr result (λ f. f ≢ ParseError.NoMemory → express_from progress (seen_from at tokens.now) ≡ Broken (rule_of f) (seen_from (place_of f) tokens.now)) }
    ensures text { IfErr result (λ f. InRest at tokens.now f) }
{
    let mut progress = progress;
    for next in at..tokens.len() {
        match pass(alloc, progress, token_at(tokens, next)) {
            Ok(Advance::Further(further)) => progress = further,
            Ok(Advance::Ended(whole)) => return ended_before(whole, next),
            Err(f) => return Err(failed(f, next)),
        }
    }
    match close(progress.run, progress.stack) {
        Ok(whole) => ended_before(whole, tokens.len()),
        Err(_) => Err(ParseError::NoMemory),
    }
}

/// Reads the expression that begins at an index.
fn read_at(
    alloc: Global,
    tokens: &[Token],
    at: usize,
    depth: usize,
    level: Level,
) -> Result<(Open, usize), ParseError>
    requires at { at < length tokens.now }
    requires depth { depth ≤ most }
    ensures ok { IfOk result (λ r. reading_of level depth (seen_from at tokens.now) ≡ Whole (tree_of r.0) (seen_from r.1 tokens.now)) }
    ensures sound { IfOk result (λ r. Sound r.0) }
    ensures range { IfOk result (λ r. (at < r.1) × (r.1 ≤ length tokens.now)) }
    ensures err { IfErr result (λ f. f ≢ ParseError.NoMemory → reading_of level depth (seen_from at tokens.now) ≡ Broken (rule_of f) (seen_from (place_of f) tokens.now)) }
    ensures text { IfErr result (λ f. InRest at tokens.now f) }
{
    match begun_expression(alloc, token_at(tokens, at), depth, level) {
        Ok(progress) => read_on(alloc, tokens, at + 1, progress),
        Err(f) => Err(failed(f, at)),
    }
}

/// Reads the full expression that begins at an index, where so many brackets are open: its tree, and the index behind it. It takes
/// time in proportion to the count of the expression's tokens.
pub fn expression(
    alloc: Global,
    tokens: &[Token],
    at: usize,
    depth: u32,
    level: Level,
) -> Result<(Open, usize), ParseError>
    requires at { at < length tokens.now }
    requires depth { depth ≤ most }
    ensures ok { IfOk result (λ r. EndsBefore level depth (seen_from at tokens.now) (tree_of r.0) (seen_from r.1 tokens.now)) }
    ensures sound { IfOk result (λ r. Sound r.0) }
    ensures range { IfOk result (λ r. (at < r.1) × (r.1 ≤ length tokens.now)) }
    ensures size { IfOk result (λ r. r.0.size + at ≡ r.1) }
    ensures err { IfErr result (λ f. IsExpressionRefusal level depth tokens.now at f) }
    ensures text { IfErr result (λ f. InRest at tokens.now f) }
    ensures read { IfOk result (λ r. reading_of level depth (seen_from at tokens.now) ≡ Whole (tree_of r.0) (seen_from r.1 tokens.now)) }
    ensures refused { IfErr result (λ f. f ≢ ParseError.NoMemory → reading_of level depth (seen_from at tokens.now) ≡ Broken (rule_of f) (seen_from (place_of f) tokens.now)) }
{
    read_at(alloc, tokens, at, depth as usize, level)
}
