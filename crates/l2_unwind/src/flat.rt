ghost use Rattle.std.specs.Prelude.{◌≡◌, ◌≢◌, ◌≤◌, IfOk, IfErr};
ghost use Rattle.l2_code.specs.Trees.{code_of};
ghost use Rattle.l2_code.specs.Sets.{AllRise, family};
ghost use Rattle.l2_code.specs.Sizes.{size};
ghost use Rattle.l2_unwind.specs.Refused.{most_weight, IsTooLarge};

use l2_code::{Code, Sets};
use std::alloc::{AllocError, Global};
use thiserror::Error;

/// Code with its sets whose loops are unwound: each turn stands in `copies` copies, and each loop has so many rows. It is seen as
/// the code in which a loop holds its copies; a copy is looked at as often as it stands there, and isn't kept more than once.
#[derive(Clone, Copy)]
pub struct Flat<'a> {
    pub code: &'a Code,
    pub sets: &'a Sets,
    pub copies: u32,
    pub rows: &'a [u32],
}

/// Why code isn't unwound.
#[derive(Clone, Copy, Debug, PartialEq, Eq, Error)]
pub enum UnwindError {
    /// It would weigh more than 65,536; the weight, or the last number of 64 bits where it is larger.
    #[error("unwound code would weigh {size}")]
    TooLarge { size: u64 },
    /// There was no memory left.
    #[error("no memory left")]
    NoMemory,
}

impl From<AllocError> for UnwindError {
    ghost use Rattle.std.specs.Prelude.{◌≡◌};
    ghost use Rattle.l2_unwind.specs.declared.flat.UnwindError.{UnwindError};
    ghost use Rattle.l2_unwind.specs.declared.flat.UnwindError.TheVariants.{NoMemory};

    ghost from_gives = { λ e f. f ≡ NoMemory };

    fn from(_error: AllocError) -> UnwindError {
        UnwindError::NoMemory
    }
}

/// The code with so many copies of each turn, where it isn't too large.
pub fn unwind<'a>(
    alloc: Global,
    code: &'a Code,
    sets: &'a Sets,
    copies: u32,
    rows: &'a [u32],
) -> Result<Flat<'a>, UnwindError>
    requires { AllRise sets.now.sets }
    ensures kept { IfOk result (λ f. (f.code.now ≡ code.now) × (f.sets.now ≡ sets.now) × (f.copies ≡ copies) × (f.rows.now ≡ rows.now)) }
    ensures small { IfOk result (λ f. size (code_of code.now) (family sets.now) copies rows.now ≤ most_weight) }
    ensures too_large { IfErr result (λ e. e ≢ UnwindError.NoMemory → IsTooLarge (size (code_of code.now) (family sets.now) copies rows.now) e) }
{
    let size = l2_size::size(alloc, code, sets, copies, rows)?;
    if size > 65_536 {
        return Err(UnwindError::TooLarge { size });
    }
    Ok(Flat {
        code,
        sets,
        copies,
        rows,
    })
}
