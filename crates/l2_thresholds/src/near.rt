// Numbers near constants.
ghost use Rattle.std.specs.Prelude.{◌≡◌, ◌++◌, flat_map, IfOk};
ghost use Rattle.l2_meaning.specs.Thresholds.{near};

use std::alloc::{AllocError, Global};

/// No constant of a text is so far from 0 (`LLONG_MIN` is one constant, so some are negative).
const LIMIT: i128 = 1 << 64;

/// Those near these constants, in their order. A constant that no text has is want of memory.
pub fn all_near(alloc: Global, constants: &[i128]) -> Result<Vec<i128>, AllocError>
    ensures { IfOk result (λ all. all.items ≡ flat_map near constants.now) }
{
    let mut all = Vec::new(alloc);
    for c in constants {
        add_near(&mut all, *c)?;
    }
    Ok(all)
}

/// Puts those near a constant behind others.
fn add_near(all: &mut Vec<i128>, c: i128) -> Result<(), AllocError>
    ensures { IfOk result (λ u. all.new.items ≡ all.old.items ++ near c) }
{
    if c <= -LIMIT || c >= LIMIT {
        return Err(AllocError);
    }
    all.push(c - 1)?;
    all.push(c)?;
    all.push(c + 1)?;
    all.push(-c - 1)?;
    all.push(-c)?;
    all.push(-c + 1)?;
    Ok(())
}
