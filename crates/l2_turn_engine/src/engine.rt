ghost use Rattle.std.specs.Prelude.{◌≡◌};
ghost use Rattle.l2_program.specs.Programs.{program_tree};
ghost use Rattle.l2_code.specs.Sets.{family};
ghost use Rattle.l2_rank_laws.specs.Moves.{SomeMove, SomeStay};
ghost use Rattle.l2_rank_laws.proofs.Lists.{kept};

use crate::asking::{moves, stays};
use l2_rank::Turns;
use l2_row_engine::Cut;
use l2_templates::{Form, Point};
use std::alloc::{AllocError, Global};

/// Answers questions about the turns of loops at a point.
#[derive(Drop)]
pub struct TurnEngine<'a> {
    cut: Cut<'a>,
}

impl<'a> TurnEngine<'a> {
    pub fn new(cut: Cut<'a>) -> TurnEngine<'a>
        ensures { result.cut ≡ cut.entry }
    {
        TurnEngine { cut }
    }
}

impl<'a> Turns for TurnEngine<'a> {
    type Problem = Cut<'a>;

    ghost problem = { λ e. e.cut };

    ghost moves = { λ x q l fs f up. SomeMove (program_tree x.program) (family x.sets).object x.copies q l fs f up };

    ghost stays = { λ x q l fs. SomeStay (program_tree x.program) (family x.sets).object x.copies q l fs };

    ghost kept_law = { λ x q l fs f up. kept (program_tree x.program) (family x.sets).object x.copies q l fs f up };

    fn turn(
        &mut self,
        alloc: Global,
        point: &Point,
        at: u32,
        equal: &[Form],
        form: Form,
        rises: bool,
    ) -> Result<bool, AllocError> {
        moves(alloc, &self.cut, point, at, equal, form, rises)
    }

    fn stay(
        &mut self,
        alloc: Global,
        point: &Point,
        at: u32,
        equal: &[Form],
    ) -> Result<bool, AllocError> {
        stays(alloc, &self.cut, point, at, equal)
    }
}
