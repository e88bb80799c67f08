// Lists of numbers.
ghost use Rattle.std.specs.Prelude.{◌≡◌, IfOk};
ghost use Rattle.l2_meaning.specs.Rising.{rising};

use std::alloc::{AllocError, Global};

/// These numbers in rising order, each once.
pub fn rising(alloc: Global, numbers: &[u32]) -> Result<Vec<u32>, AllocError>
    ensures { IfOk result (λ all. all.items ≡ rising numbers.now) }
{
    let mut all = numbers.to_vec(alloc)?;
    all.sort_unstable();
    all.dedup();
    Ok(all)
}
