ghost use Rattle.std.specs.Prelude.{◌≡◌, ◌<◌, ℕ, ℤ, pos, nat_abs, Some, List, length, Contains, slice_index_or, IfOk};
ghost use Rattle.l2_cnf.specs.Assignment.{MakesTrue};

use l2_cnf::Assignment;
use l2_watch::Watch;
use std::alloc::{AllocError, Global};

/// The values by which the literals of the board are true.
pub fn assignment_of(alloc: Global, watch: &Watch) -> Result<Assignment, AllocError>
    ensures { IfOk result (λ a. (l : ℤ) → Contains watch.now.past.literals l → MakesTrue a l) }
{
    watch.facts();
    let mut values = Assignment::new(alloc, watch.variables())?;
    for i in 0..watch.len() {
        let literal = watch.literal(i);
        values.set(literal.var(), literal.is_positive());
    }
    Ok(values)
}
