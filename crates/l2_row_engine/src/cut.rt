ghost use Rattle.std.specs.Prelude.{◌≡◌, ◌≤◌, IfOk, None, length, true};
ghost use Rattle.l2_program.specs.Programs.{program_tree};
ghost use Rattle.l2_code.specs.Trees.{code_of};
ghost use Rattle.l2_code.specs.Sets.{family};
ghost use Rattle.l2_goals.specs.Formulas.{formulas, formulas_with};
ghost use Rattle.l2_goals.specs.Kept.{kept_kinds};
ghost use Rattle.l2_goals.specs.Numbers.{AreFormulas};
ghost use Rattle.l2_row_engine.specs.Cutting.{Belongs, TellRuns};

use crate::fitting::is_point_of;
use crate::points::kinds;
use crate::tells::goals_tell;
use l2_blast::Fill;
use l2_code::{Code, Sets};
use l2_goals::{Goals, PointFill, formulas_with};
use l2_program::Program;
use l2_templates::Point;
use std::alloc::{AllocError, Global};
use std::marker::Model;

/// A lawful program with its code and sets of pointers that are closed over it, whose loops are cut into so many copies of a turn.
#[derive(Drop)]
pub struct Cut<'a> {
    program: &'a Program,
    code: &'a Code,
    sets: &'a Sets,
    copies: u32,
}

impl<'a> Model for Cut<'a> {
    ghost use Rattle.std.specs.Coded.{codes};
    ghost use Rattle.l2_program.specs.contracts.program.Program as program_type;
    ghost use Rattle.l2_code.specs.contracts.code.Code as code_type;
    ghost use Rattle.l2_row_engine.specs.Cutting.{CutProgram, IsCut};

    ghost Value = { CutProgram };

    ghost coded = { Prim.hlevel (codes, program_type.the_row.coded, code_type.the_row.coded) };

    ghost view = { λ c. record { program = c.program.now; code = c.code.now; sets = c.sets.now; copies = c.copies } };

    ghost invariant = { λ c. IsCut (record { program = c.program.now; code = c.code.now; sets = c.sets.now; copies = c.copies }) };
}

/// The formulas of a code at a point, of any weight.
fn formulas_at<'x>(
    alloc: Global,
    code: &'x Code,
    sets: &'x Sets,
    copies: u32,
    point: &'x Point,
) -> Result<Goals, AllocError>
    ensures { IfOk result (λ g. AreFormulas g (formulas (code_of code.now) (family sets.now) copies point.now None)) }
{
    let kinds = kinds(alloc, point)?;
    let fill = PointFill {
        code,
        point,
        ranks: None,
    };
    formulas_with(alloc, code, sets, copies, &kinds, false, &fill)
}

impl<'a> Cut<'a> {
    pub fn new(program: &'a Program, code: &'a Code, sets: &'a Sets, copies: u32) -> Cut<'a>
        requires belongs { Belongs (program_tree program.now) (code_of code.now) sets.now }
        requires some { 1 ≤ copies }
        ensures { result ≡ record { program = program.now; code = code.now; sets = sets.now; copies = copies } }
    {
        Cut {
            program,
            code,
            sets,
            copies,
        }
    }

    /// The code of the program, whose points are asked about.
    pub fn code(&self) -> &'a Code
        ensures is { result.now ≡ self.now.code }
        ensures belongs { Belongs (program_tree self.now.program) (code_of self.now.code) self.now.sets }
        ensures some { 1 ≤ self.now.copies }
    {
        self.code
    }

    /// The formulas of the goals of a point, and of rankings that are filled otherwise than by lists of forms.
    pub fn filled<F: Fill>(
        &self,
        alloc: Global,
        point: &Point,
        fill: &F,
    ) -> Result<Goals, AllocError>
        ensures { IfOk result (λ g. AreFormulas g (formulas_with (code_of self.now.code) (family self.now.sets) self.now.copies (kept_kinds point.now) true (F.fill fill.now))) }
    {
        let kinds = kinds(alloc, point)?;
        formulas_with(alloc, self.code, self.sets, self.copies, &kinds, true, fill)
    }

    /// The formulas of the goals of a point over the loops' variables. The search asks about no other points; there is no answer about
    /// those.
    pub fn formulas(&self, alloc: Global, point: &Point) -> Result<Goals, AllocError>
        ensures { IfOk result (λ g. TellRuns (program_tree self.now.program) (family self.now.sets).object self.now.copies point.now (length self.now.code.checks) g.base g.last) }
    {
        goals_tell();
        if !is_point_of(self.code, point) {
            return Err(AllocError);
        }
        formulas_at(alloc, self.code, self.sets, self.copies, point)
    }
}
