// The constructs round the one that is read, and what limits ask of them.
ghost use Rattle.std.specs.Prelude.{◌≡◌, ◌+◌, ◌<◌, ◌^◌, IfOk, IfErr, ◌∷◌, cond, leb};
ghost use Rattle.l2_grammar.specs.Limits.{holds_statements, statements, is_expression, expression_size};
ghost use Rattle.l2_reader.specs.Parts.{tree_of, Sound};
ghost use Rattle.l2_reader.specs.Stacks.{trees_of, AllSound, spelt};

use crate::error::ReadError;
use crate::syntax::Open;
use l2_grammar::{Sort, State};
use std::alloc::Global;

/// What limits ask of constructs that stand in one another: how many hold statements, and the tokens that the full expression has so
/// far in which the innermost stands.
#[derive(Clone, Copy)]
pub struct Counts {
    pub statements: usize,
    pub expression: usize,
}

/// Constructs that stand in one another, the innermost first, each with the counts from it outwards.
#[derive(Drop)]
pub enum Stack {
    Bottom,
    Over(Open, Counts, Box<Stack>),
}

fn holds_statements(sort: Sort, state: State) -> usize
    ensures { result ≡ holds_statements sort state }
{
    match sort {
        Sort::Item(_) => 1,
        _ => match state {
            State::FunctionBlock => 1,
            _ => 0,
        },
    }
}

fn is_expression(state: State) -> bool
    ensures { result ≡ is_expression state }
{
    match state {
        State::Have(_)
        | State::Right(_)
        | State::Sizing
        | State::Sized
        | State::Paren
        | State::ParenClose
        | State::TypedClose
        | State::Index => true,
        State::IndexClose
        | State::Call
        | State::CallMore
        | State::CallNext
        | State::MemberName
        | State::Quest
        | State::QuestClose
        | State::Word => true,
        _ => false,
    }
}

/// The tokens of the full expression, where those round this construct have `below` of it.
fn expression_on(below: usize, state: State, size: usize) -> usize
    requires room { size + below < 2 ^ 64 }
    ensures { result ≡ cond (leb 1 below) (size + below) (cond (is_expression state) size 0) }
{
    if below >= 1 {
        size + below
    } else if is_expression(state) {
        size
    } else {
        0
    }
}

/// The counts from the innermost construct outwards.
pub fn counts_of(stack: &Stack) -> Counts
    requires sound { AllSound stack.now }
    ensures statements { result.statements ≡ statements (trees_of stack.now) }
    ensures expression { result.expression ≡ expression_size (trees_of stack.now) }
{
    match stack {
        Stack::Bottom => Counts {
            statements: 0,
            expression: 0,
        },
        Stack::Over(_, counts, _) => *counts,
    }
}

/// The counts with one more construct.
pub fn counts_with(run: &Open, stack: &Stack) -> Counts
    requires sound { Sound run.now × AllSound stack.now }
    requires room { spelt (tree_of run.now ∷ trees_of stack.now) < 2 ^ 64 }
    ensures statements { result.statements ≡ statements (tree_of run.now ∷ trees_of stack.now) }
    ensures expression { result.expression ≡ expression_size (tree_of run.now ∷ trees_of stack.now) }
{
    let below = counts_of(stack);
    Counts {
        statements: holds_statements(run.sort, run.state) + below.statements,
        expression: expression_on(below.expression, run.state, run.size),
    }
}

/// A stack with one more construct.
pub fn over(alloc: Global, run: Open, stack: Stack) -> Result<Stack, ReadError>
    requires sound { Sound run × AllSound stack }
    requires room { spelt (tree_of run ∷ trees_of stack) < 2 ^ 64 }
    ensures ok { IfOk result (λ s. trees_of s ≡ tree_of run ∷ trees_of stack) }
    ensures sound { IfOk result (λ s. AllSound s) }
    ensures err { IfErr result (λ f. f ≡ ReadError.NoMemory) }
{
    let counts = counts_with(&run, &stack);
    match Box::new(alloc, stack) {
        Ok(rest) => Ok(Stack::Over(run, counts, rest)),
        Err(_) => Err(ReadError::NoMemory),
    }
}
