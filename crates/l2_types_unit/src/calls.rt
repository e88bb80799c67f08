// Which functions calls lead to.
ghost use Rattle.std.specs.Prelude.{◌≡◌, [], ◌∷◌, IfOk};
ghost use Rattle.l2_types.specs.Founds.{has};
ghost use Rattle.l2_types_unit.specs.Calls.{with_callee, grown, reached};

use l2_types::{CheckError, Site};
use std::alloc::Global;

/// Whether a number is among these.
pub fn has(all: &[u32], n: u32) -> bool
    ensures { result ≡ has all.now n }
{
    for m in all {
        if *m == n {
            return true;
        }
    }
    false
}

fn with_callee(functions: &mut Vec<u32>, c: Site) -> Result<(), CheckError>
    ensures ok { IfOk result (λ u. functions.new.items ≡ with_callee c functions.old.items) }
{
    if has(functions, c.caller) && !has(functions, c.function) {
        functions.push(c.function)?;
    }
    Ok(())
}

fn grown(functions: &mut Vec<u32>, calls: &[Site]) -> Result<(), CheckError>
    ensures ok { IfOk result (λ u. functions.new.items ≡ grown calls.now functions.old.items) }
{
    for c in calls {
        with_callee(functions, *c)?;
    }
    Ok(())
}

/// The functions that so many calls lead to, one after another.
#[tactic(auto, using(crate::proofs::Counted::counted, crate::proofs::Grown::still))]
pub fn reached(
    alloc: Global,
    times: usize,
    calls: &[Site],
    function: u32,
) -> Result<Vec<u32>, CheckError>
    ensures ok { IfOk result (λ v. v.items ≡ reached times calls.now (function ∷ [])) }
{
    let mut functions = Vec::new(alloc);
    functions.push(function)?;
    let mut left = times;
    while left > 0 {
        let before = functions.len();
        grown(&mut functions, calls)?;
        if functions.len() == before {
            return Ok(functions);
        }
        left -= 1;
    }
    Ok(functions)
}
