ghost use Rattle.std.specs.Prelude.{◌≡◌, IfOk};
ghost use Rattle.l2_program.specs.Programs.{program_tree};
ghost use Rattle.l2_code.specs.Sets.{family};
ghost use Rattle.l2_cuts.specs.Cuts.{Infers};
ghost use Rattle.l2_cuts.specs.Rankings.{RanksAre};

use crate::engine::TurnEngine;
use l2_program::LoopInfo;
use l2_rank::rankings;
use l2_rank_laws::laws::greedy_law;
use l2_row_engine::Cut;
use l2_templates::{Point, Ranks};
use std::alloc::{AllocError, Global};

/// The greedy lists of the program's loops at a point that infers; `None` exactly where some loop has no such list. There is no answer
/// about points that aren't over the loops' variables.
pub fn ranks_at(
    alloc: Global,
    cut: Cut<'_>,
    point: &Point,
    loops: &[LoopInfo],
) -> Result<Option<Ranks>, AllocError>
    requires infers { Infers (program_tree cut.program) (family cut.sets).object cut.copies point.now }
    requires loops { loops.now ≡ (program_tree cut.program).loops }
    ensures { IfOk result (λ r. RanksAre (program_tree cut.entry.program) (family cut.entry.sets).object cut.entry.copies point.now r) }
{
    greedy_law();
    if u32::try_from(loops.len()).is_err() {
        return Err(AllocError);
    }
    let mut engine = TurnEngine::new(cut);
    rankings(alloc, &mut engine, point, loops)
}
