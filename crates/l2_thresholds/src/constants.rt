// The first constants of a text.
ghost use Rattle.std.specs.Prelude.{◌≡◌, ◌+◌, ◌≤◌, [], length, take, IfOk};
ghost use Rattle.l2_meaning.specs.Thresholds.{values_of, is_among, firsts};
ghost use Rattle.l2_thresholds.specs.Lists.{with_last, with_token};

use l2_syntax::{Token, TokenKind};
use std::alloc::{AllocError, Global};

/// The first 256 values among the constants of these tokens, each once.
pub fn firsts(alloc: Global, tokens: &[Token]) -> Result<Vec<i128>, AllocError>
    ensures { IfOk result (λ all. all.items ≡ take 256 (firsts [] (values_of tokens.now))) }
{
    let mut all = Vec::new(alloc);
    for t in tokens {
        if all.len() >= 256 {
            return Ok(all);
        }
        add_token(&mut all, *t)?;
    }
    Ok(all)
}

/// Puts the number that a token is behind others.
fn add_token(all: &mut Vec<i128>, t: Token) -> Result<(), AllocError>
    ensures added { IfOk result (λ u. all.new.items ≡ with_token all.old.items t) }
    ensures few { IfOk result (λ u. length all.new.items ≤ length all.old.items + 1) }
{
    match t.kind {
        TokenKind::Number { value, .. } => add(all, value),
        TokenKind::Word(_) => Ok(()),
        TokenKind::TypeName(_) => Ok(()),
        TokenKind::Text => Ok(()),
        TokenKind::Mark(_) => Ok(()),
        TokenKind::End => Ok(()),
    }
}

/// Puts a number behind others, unless it is one of them.
fn add(all: &mut Vec<i128>, z: i128) -> Result<(), AllocError>
    ensures added { IfOk result (λ u. all.new.items ≡ with_last all.old.items z) }
    ensures few { IfOk result (λ u. length all.new.items ≤ length all.old.items + 1) }
{
    if !is_among(all, z) {
        all.push(z)?;
    }
    Ok(())
}

/// Whether a number is one of these.
fn is_among(all: &[i128], z: i128) -> bool
    ensures { result ≡ is_among all.now z }
{
    for x in all {
        if *x == z {
            return true;
        }
    }
    false
}
