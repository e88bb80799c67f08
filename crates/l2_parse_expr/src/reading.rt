// One expression.
ghost use Rattle.std.specs.Prelude.{◌≡◌, ◌<◌, ◌≤◌, length, map, IfOk, IfErr};
ghost use Rattle.l2_grammar.specs.Expressions.{EndsBefore};
ghost use Rattle.l2_lex.specs.Code.{lexed_of};
ghost use Rattle.l2_reader.specs.Parts.{seen};
ghost use Rattle.l2_reader.specs.Turns.{IsExpressionRefusal, InRest};
ghost use Rattle.l2_tree.specs.Units.{expr_tree};
ghost use Rattle.l2_parse_unit.specs.Reading.{OnRefusal, kept as as_kept};
ghost use Rattle.l2_parse_expr.specs.Reading.{Reads, IsRefusedFrom};

use crate::built::expression_of;
use l2_grammar::Level;
use l2_parse_unit::{kept, last_place};
use l2_reader::{ParseError, expression as read_expression};
use l2_syntax::{Refusal, Rule, TextFault, Token, Tokens};
use l2_tree::Expr;
use std::alloc::{AllocError, Global};

/// The refusal at a token, or behind the last.
fn syntax_at(
    tokens: &Tokens,
    plain: &[Token],
    at: usize,
    depth: u32,
    level: Level,
    index: usize,
) -> Refusal
    requires plain { map seen plain.now ≡ as_kept tokens.now.list }
    requires within { index ≤ length plain.now }
    requires stops { IsExpressionRefusal level depth plain.now at (ParseError.Syntax index) }
    ensures { IsRefusedFrom level depth (lexed_of tokens.now) at result }
{
    let _ = at;
    let _ = depth;
    let _ = level;
    let _ = plain;
    let list = tokens.list.as_slice();
    if index < list.len() {
        return Refusal {
            place: list[index].place,
            rule: Rule::Syntax,
        };
    }
    match tokens.stop {
        Some(refusal) => refusal,
        None => Refusal {
            place: last_place(list),
            rule: Rule::Syntax,
        },
    }
}

/// The refusal of an expression.
fn refusal(
    tokens: &Tokens,
    plain: &[Token],
    at: usize,
    depth: u32,
    level: Level,
    cause: ParseError,
) -> TextFault
    requires plain { map seen plain.now ≡ as_kept tokens.now.list }
    requires within { InRest at plain.now cause }
    requires refused { IsExpressionRefusal level depth plain.now at cause }
    ensures { OnRefusal result (λ f. IsRefusedFrom level depth (lexed_of tokens.now) at f) }
{
    match cause {
        ParseError::Nesting(index) => TextFault::At(Refusal {
            place: tokens.list.as_slice()[index].place,
            rule: Rule::Nesting,
        }),
        ParseError::Syntax(index) => TextFault::At(syntax_at(
            tokens, plain, at, depth, level, index,
        )),
        ParseError::NoMemory => TextFault::NoMemory,
    }
}

/// Reads the full expression that begins with the token at an index, where so many brackets are open: its tree, and the index of the
/// first token behind it. `level` says which expression the grammar takes there: one with commas, an assignment expression (C11
/// 6.5.16), or a conditional expression (C11 6.5.15).
pub fn expression(
    alloc: Global,
    tokens: &Tokens,
    at: usize,
    depth: u32,
    level: Level,
) -> Result<(Expr, usize), TextFault>
    requires at { at < length tokens.now.list }
    requires depth { depth ≤ 128 }
    ensures ok { IfOk result (λ r. Reads level depth tokens.now.list at (expr_tree r.0) r.1) }
    ensures range { IfOk result (λ r. (at < r.1) × (r.1 ≤ length tokens.now.list)) }
    ensures refused { IfErr result (λ e. OnRefusal e (λ f. IsRefusedFrom level depth (lexed_of tokens.now) at f)) }
{
    let plain = kept(alloc, tokens.list.as_slice())?;
    match read_expression(alloc, &plain, at, depth, level) {
        Ok((text, end)) => match expression_of(alloc, &text, level) {
            Ok(expr) => Ok((expr, end)),
            Err(AllocError) => Err(TextFault::NoMemory),
        },
        Err(cause) => Err(refusal(tokens, &plain, at, depth, level, cause)),
    }
}
