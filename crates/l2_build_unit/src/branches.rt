// Statements with a test before them.
ghost use Rattle.std.specs.Prelude.{◌≡◌, ◌≢◌, ◌≤◌, ◌<◌, ◌∷◌, true, Option, IfOk, IfErr, None, Some};
ghost use Rattle.l2_syntax.specs.declared.place.Place.{Place as At};
ghost use Rattle.l2_tree.specs.Build.{leaf, node, built, branch as branch_so, behind_else as behind_else_so, behind_branch as behind_branch_so, add_branch, controls as controls_so, only};
ghost use Rattle.l2_tree.specs.Trees.{ExprTree, StmtTree, BranchTrees, While as while_tree, Switch as switch_tree};
ghost use Rattle.l2_tree.specs.Units.{expr_tree, stmt_tree};
ghost use Rattle.l2_build.specs.Parts.{parts_of, size_of};
ghost use Rattle.l2_build_unit.specs.Branches.{with_branch, goes_further, further_size, is_further};

use crate::made::{chosen, chosen_or};
use crate::statements::stmt_of;
use l2_build::{BuildError, Next, expr_of, split};
use l2_networks::is;
use l2_reader::Syntax;
use l2_syntax::{Mark, Place, Token};
use l2_tree::{Branch, Expr, Stmt};
use std::alloc::Global;

/// A test in brackets and a statement, and the parts behind them.
#[derive(Drop)]
pub struct Controlled<'a> {
    pub bracket: Place,
    pub test: Box<Expr>,
    pub body: Box<Stmt>,
    pub rest: &'a [Syntax],
}

/// A branch, and the parts behind it.
#[derive(Drop)]
pub struct OneBranch<'a> {
    pub value: Branch,
    pub rest: &'a [Syntax],
}

/// How it goes on behind a branch.
#[derive(Drop)]
pub enum Further<'a> {
    End,
    /// The statement behind a last `else`.
    Otherwise(Box<Stmt>),
    /// A further branch, and the parts behind it.
    Branch(Branch, &'a [Syntax]),
}

/// `( e ) s`, behind the expression.
#[cycle(build)]
fn behind_test<'a>(
    alloc: Global,
    bracket: Token,
    inner: &[Syntax],
    parts: &'a [Syntax],
) -> Result<Controlled<'a>, BuildError>
    ensures branch { IfOk result (λ r. (bs : Option BranchTrees) (p : At) → branch_so bs p (leaf bracket.kind bracket.place ∷ node (built (parts_of inner.now)) ∷ parts_of parts.now) ≡ behind_branch_so (add_branch bs p r.bracket (expr_tree r.test.value) (stmt_tree r.body.value)) (parts_of r.rest.now)) }
    ensures controls { IfOk result (λ r. (f : At → ExprTree → StmtTree → StmtTree) → controls_so f (leaf bracket.kind bracket.place ∷ node (built (parts_of inner.now)) ∷ parts_of parts.now) ≡ only (parts_of r.rest.now) (f r.bracket (expr_tree r.test.value) (stmt_tree r.body.value))) }
    ensures less { IfOk result (λ r. size_of r.rest.now ≤ size_of parts.now) }
    ensures no_branch { IfErr result (λ e. e ≢ BuildError.NoMemory → (bs : Option BranchTrees) (p : At) → branch_so bs p (leaf bracket.kind bracket.place ∷ node (built (parts_of inner.now)) ∷ parts_of parts.now) ≡ None) }
    ensures no_controls { IfErr result (λ e. e ≢ BuildError.NoMemory → (f : At → ExprTree → StmtTree → StmtTree) → controls_so f (leaf bracket.kind bracket.place ∷ node (built (parts_of inner.now)) ∷ parts_of parts.now) ≡ None) }
{
    let Next::Leaf(close, behind) = split(parts) else {
        return Err(BuildError::Misfit);
    };
    let Next::Node(second, rest) = split(behind) else {
        return Err(BuildError::Misfit);
    };
    if !is(Mark::OpenParenthesis, bracket.kind) {
        return Err(BuildError::Misfit);
    }
    if !is(Mark::CloseParenthesis, close.kind) {
        return Err(BuildError::Misfit);
    }
    let test = expr_of(alloc, inner)?;
    let body = stmt_of(alloc, second)?;
    Ok(Controlled {
        bracket: bracket.place,
        test,
        body,
        rest,
    })
}

/// `( e ) s`.
#[cycle(build)]
fn test_and_body<'a>(alloc: Global, parts: &'a [Syntax]) -> Result<Controlled<'a>, BuildError>
    ensures branch { IfOk result (λ r. (bs : Option BranchTrees) (p : At) → branch_so bs p (parts_of parts.now) ≡ behind_branch_so (add_branch bs p r.bracket (expr_tree r.test.value) (stmt_tree r.body.value)) (parts_of r.rest.now)) }
    ensures controls { IfOk result (λ r. (f : At → ExprTree → StmtTree → StmtTree) → controls_so f (parts_of parts.now) ≡ only (parts_of r.rest.now) (f r.bracket (expr_tree r.test.value) (stmt_tree r.body.value))) }
    ensures less { IfOk result (λ r. size_of r.rest.now < size_of parts.now) }
    ensures no_branch { IfErr result (λ e. e ≢ BuildError.NoMemory → (bs : Option BranchTrees) (p : At) → branch_so bs p (parts_of parts.now) ≡ None) }
    ensures no_controls { IfErr result (λ e. e ≢ BuildError.NoMemory → (f : At → ExprTree → StmtTree → StmtTree) → controls_so f (parts_of parts.now) ≡ None) }
{
    let Next::Leaf(bracket, behind) = split(parts) else {
        return Err(BuildError::Misfit);
    };
    let Next::Node(inner, rest) = split(behind) else {
        return Err(BuildError::Misfit);
    };
    let whole = behind_test(alloc, bracket, inner, rest)?;
    Ok(whole)
}

/// Behind an `if` or `else if`, with the place of the `if`.
#[cycle(build)]
fn one_branch<'a>(
    alloc: Global,
    place: Place,
    parts: &'a [Syntax],
) -> Result<OneBranch<'a>, BuildError>
    ensures ok { IfOk result (λ r. (bs : Option BranchTrees) → branch_so bs place (parts_of parts.now) ≡ behind_branch_so (with_branch bs r.value) (parts_of r.rest.now)) }
    ensures less { IfOk result (λ r. size_of r.rest.now < size_of parts.now) }
    ensures err { IfErr result (λ e. e ≢ BuildError.NoMemory → (bs : Option BranchTrees) → branch_so bs place (parts_of parts.now) ≡ None) }
{
    let Controlled {
        bracket,
        test,
        body,
        rest,
    } = test_and_body(alloc, parts)?;
    Ok(OneBranch {
        value: Branch {
            place,
            open: bracket,
            condition: test,
            body,
        },
        rest,
    })
}

/// Behind an `else`.
#[cycle(build)]
fn behind_else<'a>(alloc: Global, parts: &'a [Syntax]) -> Result<Further<'a>, BuildError>
    ensures ok { IfOk result (λ r. (bs : BranchTrees) → behind_else_so bs (parts_of parts.now) ≡ goes_further bs r) }
    ensures less { IfOk result (λ r. further_size r ≤ size_of parts.now) }
    ensures err { IfErr result (λ e. e ≢ BuildError.NoMemory → (bs : BranchTrees) → behind_else_so bs (parts_of parts.now) ≡ None) }
{
    match split(parts) {
        Next::Node(inner, last) => {
            let otherwise = stmt_of(alloc, inner)?;
            let Next::End = split(last) else {
                return Err(BuildError::Misfit);
            };
            Ok(Further::Otherwise(otherwise))
        }
        Next::Leaf(token, rest) => {
            if !is(Mark::If, token.kind) {
                return Err(BuildError::Misfit);
            }
            let OneBranch { value, rest } = one_branch(alloc, token.place, rest)?;
            Ok(Further::Branch(value, rest))
        }
        Next::End => Err(BuildError::Misfit),
    }
}

/// Behind a branch.
#[cycle(build)]
fn next_branch<'a>(alloc: Global, parts: &'a [Syntax]) -> Result<Further<'a>, BuildError>
    ensures ok { IfOk result (λ r. (bs : BranchTrees) → behind_branch_so bs (parts_of parts.now) ≡ goes_further bs r) }
    ensures less { IfOk result (λ r. is_further r ≡ true → further_size r < size_of parts.now) }
    ensures err { IfErr result (λ e. e ≢ BuildError.NoMemory → (bs : BranchTrees) → behind_branch_so bs (parts_of parts.now) ≡ None) }
{
    match split(parts) {
        Next::End => Ok(Further::End),
        Next::Leaf(word, rest) => {
            if !is(Mark::Else, word.kind) {
                return Err(BuildError::Misfit);
            }
            let next = behind_else(alloc, rest)?;
            Ok(next)
        }
        Next::Node(_, _) => Err(BuildError::Misfit),
    }
}

/// Behind an `if`: its branches, and perhaps a last `else`.
#[cycle(build)]
#[tactic(auto, using(l2_tree::proofs::Statements::statements))]
pub fn choice(alloc: Global, place: Place, parts: &[Syntax]) -> Result<Box<Stmt>, BuildError>
    ensures ok { IfOk result (λ t. branch_so None place (parts_of parts.now) ≡ Some (stmt_tree t.value)) }
    ensures err { IfErr result (λ e. e ≢ BuildError.NoMemory → branch_so None place (parts_of parts.now) ≡ None) }
{
    let OneBranch {
        value: first,
        rest: mut left,
    } = one_branch(alloc, place, parts)?;
    let mut others = Vec::new(alloc);
    loop {
        match next_branch(alloc, left)? {
            Further::End => {
                let whole = chosen(alloc, first, others)?;
                return Ok(whole);
            }
            Further::Otherwise(otherwise) => {
                let whole = chosen_or(alloc, first, others, otherwise)?;
                return Ok(whole);
            }
            Further::Branch(branch, rest) => {
                others.push(branch)?;
                left = rest;
            }
        }
    }
}

/// Behind `while`.
#[cycle(build)]
pub fn while_loop(alloc: Global, place: Place, parts: &[Syntax]) -> Result<Box<Stmt>, BuildError>
    ensures ok { IfOk result (λ t. controls_so (λ q e s. while_tree place q e s) (parts_of parts.now) ≡ Some (stmt_tree t.value)) }
    ensures err { IfErr result (λ e. e ≢ BuildError.NoMemory → controls_so (λ q e s. while_tree place q e s) (parts_of parts.now) ≡ None) }
{
    let Controlled {
        bracket,
        test,
        body,
        rest,
    } = test_and_body(alloc, parts)?;
    let Next::End = split(rest) else {
        return Err(BuildError::Misfit);
    };
    let whole = Box::new(alloc, Stmt::While(place, bracket, test, body))?;
    Ok(whole)
}

/// Behind `switch`.
#[cycle(build)]
pub fn switch(alloc: Global, place: Place, parts: &[Syntax]) -> Result<Box<Stmt>, BuildError>
    ensures ok { IfOk result (λ t. controls_so (λ q e s. switch_tree place q e s) (parts_of parts.now) ≡ Some (stmt_tree t.value)) }
    ensures err { IfErr result (λ e. e ≢ BuildError.NoMemory → controls_so (λ q e s. switch_tree place q e s) (parts_of parts.now) ≡ None) }
{
    let Controlled {
        bracket,
        test,
        body,
        rest,
    } = test_and_body(alloc, parts)?;
    let Next::End = split(rest) else {
        return Err(BuildError::Misfit);
    };
    let whole = Box::new(alloc, Stmt::Switch(place, bracket, test, body))?;
    Ok(whole)
}
