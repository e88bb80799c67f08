ghost use Rattle.std.specs.Prelude.{◌≡◌};
ghost use Rattle.l2_program.specs.Programs.{program_tree};
ghost use Rattle.l2_code.specs.Sets.{family};
ghost use Rattle.l2_cuts.specs.Cuts.{Infers};
ghost use Rattle.l2_row_laws.specs.Exceeding.{Exceeds};
ghost use Rattle.l2_row_laws.proofs.Failing.{lower, below};

use crate::cut::Cut;
use crate::questions::{exceeds, failed_row};
use l2_strategy::{Asks, BrokenRow};
use l2_templates::Point;
use std::alloc::{AllocError, Global};

/// Answers questions about the rows of points.
#[derive(Drop)]
pub struct RowEngine<'a> {
    cut: Cut<'a>,
    /// As far as 64 bits count.
    asked: u64,
}

impl<'a> RowEngine<'a> {
    pub fn new(cut: Cut<'a>) -> RowEngine<'a>
        ensures cut { result.cut ≡ cut.entry }
        ensures asked { result.asked ≡ 0 }
    {
        RowEngine { cut, asked: 0 }
    }
}

impl<'a> Asks for RowEngine<'a> {
    type Problem = Cut<'a>;

    ghost problem = { λ e. e.cut };

    ghost infers = { λ x q. Infers (program_tree x.program) (family x.sets).object x.copies q };

    ghost exceeds = { λ x q l row above. Exceeds (program_tree x.program) (family x.sets).object x.copies q l row above };

    ghost asked = { λ e. e.asked };

    ghost lower_law = { λ x q l row a b. lower (program_tree x.program) (family x.sets).object x.copies q l row a b };

    ghost below_law = { λ x a b. below (program_tree x.program) (family x.sets).object x.copies a b };

    fn any(&mut self, alloc: Global, point: &Point) -> Result<Option<BrokenRow>, AllocError> {
        self.asked = self.asked.saturating_add(1);
        failed_row(alloc, &self.cut, point)
    }

    fn row(
        &mut self,
        alloc: Global,
        point: &Point,
        broken: BrokenRow,
        above: i128,
    ) -> Result<bool, AllocError> {
        self.asked = self.asked.saturating_add(1);
        exceeds(alloc, &self.cut, point, broken, above)
    }
}
