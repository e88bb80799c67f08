// What is too deep: brackets and statements that are open at one place, and the tokens of a full expression.
ghost use Rattle.std.specs.Prelude.{◌≡◌, ◌<◌, ◌^◌, ◌≤◌, ◌∷◌, ◌&&◌, leb};
ghost use Rattle.l2_grammar.specs.Limits.{opens_bracket, closes_bracket, brackets, most, is_statement, exceeds};
ghost use Rattle.l2_grammar.specs.Nesting.{is_item};
ghost use Rattle.l2_grammar.specs.Reader.{To};
ghost use Rattle.l2_reader.specs.Parts.{tree_of, Sound};
ghost use Rattle.l2_reader.specs.Stacks.{trees_of, AllSound, spelt};

use crate::stack::{Stack, counts_of, counts_with};
use crate::syntax::Open;
use l2_grammar::{Items, Sort};
use l2_networks::stands;
use l2_syntax::{Mark, TokenKind};

/// The most brackets, and the most statements, that are open at one place.
const MOST: usize = 128;
/// The most tokens of a full expression.
const LONGEST: usize = 1024;

fn opens_bracket(kind: TokenKind) -> bool
    ensures { result ≡ opens_bracket kind }
{
    match kind {
        TokenKind::Mark(mark) => match mark {
            Mark::OpenParenthesis | Mark::OpenBracket | Mark::OpenBrace => true,
            _ => false,
        },
        _ => false,
    }
}

fn closes_bracket(kind: TokenKind) -> bool
    ensures { result ≡ closes_bracket kind }
{
    match kind {
        TokenKind::Mark(mark) => match mark {
            Mark::CloseParenthesis | Mark::CloseBracket | Mark::CloseBrace => true,
            _ => false,
        },
        _ => false,
    }
}

/// Whether the token opens a bracket where as many as may be are open.
pub fn is_bracket_too_deep(depth: usize, kind: TokenKind) -> bool
    ensures { result ≡ (opens_bracket kind && leb most depth) }
{
    opens_bracket(kind) && MOST <= depth
}

/// The brackets that are open behind a token.
pub fn brackets_behind(depth: usize, kind: TokenKind) -> usize
    requires within { depth ≤ most }
    ensures { result ≡ brackets depth kind }
{
    if opens_bracket(kind) {
        depth + 1
    } else if closes_bracket(kind) {
        depth.saturating_sub(1)
    } else {
        depth
    }
}

fn is_item(sort: Sort) -> bool
    ensures { result ≡ is_item sort }
{
    matches!(sort, Sort::Item(_))
}

/// Whether the construct has just begun and is a statement.
fn is_statement(run: &Open) -> bool
    requires sound { Sound run.now }
    ensures { result ≡ is_statement (tree_of run.now) }
{
    if run.size == 1 && is_item(run.sort) {
        stands(Sort::Item(Items::Lone), run.state)
    } else {
        false
    }
}

/// Whether a statement starts too deep, or an expression gets too long.
pub fn exceeds(run: &Open, stack: &Stack) -> bool
    requires sound { Sound run.now × AllSound stack.now }
    requires room { spelt (tree_of run.now ∷ trees_of stack.now) < 2 ^ 64 }
    ensures { result ≡ exceeds (To (tree_of run.now) (trees_of stack.now)) }
{
    (is_statement(run) && MOST <= counts_of(stack).statements)
        || LONGEST < counts_with(run, stack).expression
}
