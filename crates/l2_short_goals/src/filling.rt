// What rows and rankings are where there are none.
ghost use Rattle.l2_short_goals.specs.Shorts.{no_fill};

use l2_blast::Fill;
use l2_circuits::truth;
use l2_cnf::Lit;
use l2_gates::Gates;
use std::alloc::{AllocError, Global};

/// No rows and no rankings.
#[derive(Clone, Copy)]
pub struct NoFill {}

impl Fill for NoFill {
    ghost fill = { λ f. no_fill };

    fn row(
        &self,
        _alloc: Global,
        _gates: &mut Gates,
        _of_loop: u32,
        _row: u32,
        _vars: &[Vec<Lit>],
    ) -> Result<Lit, AllocError> {
        Ok(truth())
    }

    fn lower(
        &self,
        _alloc: Global,
        _gates: &mut Gates,
        _of_loop: u32,
        _old: &[Vec<Lit>],
        _now: &[Vec<Lit>],
    ) -> Result<Lit, AllocError> {
        Ok(truth())
    }
}
