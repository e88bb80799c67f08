// Rankings that are lower on all turns but those that are asked for.
ghost use Rattle.std.specs.Prelude.{◌≡◌, IfOk, OnOk};
ghost use Rattle.l2_gates.specs.Gates.{literal_of};
ghost use Rattle.l2_row_circuits.specs.Words.{words_of};
ghost use Rattle.l2_goals.specs.Kept.{fill_in};
ghost use Rattle.l2_turn_engine.specs.Fills.{lower_bit_in};
ghost use Rattle.l2_turn_engine.specs.Kept.{kept_in, moved_in};

use l2_blast::Fill;
use l2_circuits::negated;
use l2_cnf::Lit;
use l2_code::Code;
use l2_gates::Gates;
use l2_goals::PointFill;
use l2_templates::{Point, Ranks};
use std::alloc::{AllocError, Global};

/// The turns on which the forms of the shorter list keep their values and the last form of the longer one moves aren't lower.
#[derive(Clone, Copy)]
pub struct MovedFill<'a> {
    pub code: &'a Code,
    pub point: &'a Point,
    pub rises: bool,
    pub longer: &'a Ranks,
    pub shorter: &'a Ranks,
}

/// The turns on which the forms of the list keep their values aren't lower.
#[derive(Clone, Copy)]
pub struct KeptFill<'a> {
    pub code: &'a Code,
    pub point: &'a Point,
    pub list: &'a Ranks,
}

/// Whether a list is lower at the words of now, or else at the old ones.
fn lower_in(
    alloc: Global,
    gates: &mut Gates,
    rises: bool,
    fill: &PointFill<'_>,
    of_loop: u32,
    old: &[Vec<Lit>],
    now: &[Vec<Lit>],
) -> Result<Lit, AllocError>
    ensures is { IfOk result (λ l. literal_of l ≡ (lower_bit_in rises (fill_in fill.now) of_loop (words_of old.now) (words_of now.now) gates.old).bit) }
    ensures made { OnOk result (gates.new ≡ (lower_bit_in rises (fill_in fill.now) of_loop (words_of old.now) (words_of now.now) gates.old).made) }
{
    if rises {
        fill.lower(alloc, gates, of_loop, now, old)
    } else {
        fill.lower(alloc, gates, of_loop, old, now)
    }
}

impl<'a> Fill for MovedFill<'a> {
    ghost fill = { moved_in };

    fn row(
        &self,
        alloc: Global,
        gates: &mut Gates,
        of_loop: u32,
        row: u32,
        vars: &[Vec<Lit>],
    ) -> Result<Lit, AllocError> {
        let rows = PointFill {
            code: self.code,
            point: self.point,
            ranks: Some(self.shorter),
        };
        rows.row(alloc, gates, of_loop, row, vars)
    }

    fn lower(
        &self,
        alloc: Global,
        gates: &mut Gates,
        of_loop: u32,
        old: &[Vec<Lit>],
        now: &[Vec<Lit>],
    ) -> Result<Lit, AllocError> {
        let all = PointFill {
            code: self.code,
            point: self.point,
            ranks: Some(self.longer),
        };
        let others = PointFill {
            code: self.code,
            point: self.point,
            ranks: Some(self.shorter),
        };
        let longer = lower_in(alloc, gates, self.rises, &all, of_loop, old, now)?;
        let shorter = lower_in(alloc, gates, self.rises, &others, of_loop, old, now)?;
        gates.or(negated(longer), shorter)
    }
}

impl<'a> Fill for KeptFill<'a> {
    ghost fill = { kept_in };

    fn row(
        &self,
        alloc: Global,
        gates: &mut Gates,
        of_loop: u32,
        row: u32,
        vars: &[Vec<Lit>],
    ) -> Result<Lit, AllocError> {
        let rows = PointFill {
            code: self.code,
            point: self.point,
            ranks: Some(self.list),
        };
        rows.row(alloc, gates, of_loop, row, vars)
    }

    fn lower(
        &self,
        alloc: Global,
        gates: &mut Gates,
        of_loop: u32,
        old: &[Vec<Lit>],
        now: &[Vec<Lit>],
    ) -> Result<Lit, AllocError> {
        let list = PointFill {
            code: self.code,
            point: self.point,
            ranks: Some(self.list),
        };
        let falls = lower_in(alloc, gates, false, &list, of_loop, old, now)?;
        let rises = lower_in(alloc, gates, true, &list, of_loop, old, now)?;
        gates.or(falls, rises)
    }
}
