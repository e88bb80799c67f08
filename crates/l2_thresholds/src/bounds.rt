// The thresholds of a text.
ghost use Rattle.std.specs.Prelude.{◌≡◌, IfOk};
ghost use Rattle.l2_meaning.specs.Thresholds.{thresholds_of};

use crate::constants::firsts;
use crate::near::all_near;
use l2_syntax::Token;
use std::alloc::{AllocError, Global};

/// The thresholds of a text with these constants.
pub fn thresholds(alloc: Global, tokens: &[Token]) -> Result<Vec<i128>, AllocError>
    ensures { IfOk result (λ all. all.items ≡ thresholds_of tokens.now) }
{
    let constants = firsts(alloc, tokens)?;
    let mut all = all_near(alloc, &constants)?;
    all.push(-1)?;
    all.push(0)?;
    all.push(1)?;
    all.sort_unstable();
    all.dedup();
    Ok(all)
}
