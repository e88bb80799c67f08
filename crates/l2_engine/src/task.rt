ghost use Rattle.std.specs.Prelude.{◌≡◌, ◌≤◌, [], IfOk, IsErrOf, OnOk, length, map};
ghost use Rattle.l2_program.specs.Programs.{program_tree};
ghost use Rattle.l2_code.specs.Trees.{code_of};
ghost use Rattle.l2_code.specs.Sets.{family};
ghost use Rattle.l2_code.specs.Sizes.{size};
ghost use Rattle.l2_unwind.specs.Refused.{most_weight};
ghost use Rattle.l2_templates.specs.Domains.{Rises};
ghost use Rattle.l2_short_goals.specs.Taken.{AreShorts};
ghost use Rattle.l2_row_engine.specs.Cutting.{Belongs};
ghost use Rattle.l2_engine.specs.Tasks.{WeighsTooMuch};

use l2_code::{Code, Sets};
use l2_goals::GoalError;
use l2_program::{LoopInfo, Program};
use l2_row_engine::Cut;
use l2_short_goals::{ShortGoals, short};
use l2_templates::{Form, Halt};
use l2_unwind::{UnwindError, unwind};
use std::alloc::{AllocError, Global};
use std::marker::Model;

/// A lawful program with its code and sets of pointers that are closed over it; the forms of each loop's rows, how many there are, and
/// the bounds that rows may take.
#[derive(Drop)]
pub struct Task<'a> {
    program: &'a Program,
    code: &'a Code,
    sets: &'a Sets,
    forms: &'a [Vec<Form>],
    counts: &'a [u32],
    bounds: &'a [i128],
}

impl<'a> Model for Task<'a> {
    ghost use Rattle.std.specs.Prelude.{◌≡◌, length, map};
    ghost use Rattle.std.specs.Coded.{codes};
    ghost use Rattle.l2_program.specs.contracts.program.Program as program_type;
    ghost use Rattle.l2_code.specs.contracts.code.Code as code_type;
    ghost use Rattle.l2_engine.specs.Tasks.{IsQuery, Query};

    ghost Value = { Query };

    ghost coded = { Prim.hlevel (codes, program_type.the_row.coded, code_type.the_row.coded) };

    ghost view = { λ t. record { program = t.program.now; code = t.code.now; sets = t.sets.now; forms = map (λ f. f.items) t.forms.now; bounds = t.bounds.now } };

    ghost invariant = { λ t. IsQuery (record { program = t.program.now; code = t.code.now; sets = t.sets.now; forms = map (λ f. f.items) t.forms.now; bounds = t.bounds.now }) × (t.counts.now ≡ map length (map (λ f. f.items) t.forms.now)) };
}

impl<'a> Task<'a> {
    pub fn new(
        program: &'a Program,
        code: &'a Code,
        sets: &'a Sets,
        forms: &'a [Vec<Form>],
        counts: &'a [u32],
        bounds: &'a [i128],
    ) -> Task<'a>
        requires belongs { Belongs (program_tree program.now) (code_of code.now) sets.now }
        requires counted { counts.now ≡ map length (map (λ f. f.items) forms.now) }
        requires rising { Rises bounds.now }
        ensures { result ≡ record { program = program.now; code = code.now; sets = sets.now; forms = map (λ f. f.items) forms.now; bounds = bounds.now } }
    {
        Task {
            program,
            code,
            sets,
            forms,
            counts,
            bounds,
        }
    }

    pub fn code(&self) -> &Code
        ensures { result.now ≡ self.now.code }
    {
        self.code
    }

    pub fn sets(&self) -> &Sets
        ensures { result.now ≡ self.now.sets }
    {
        self.sets
    }

    pub fn loops(&self) -> &[LoopInfo]
        ensures { result.now ≡ (program_tree self.now.program).loops }
    {
        self.program.loops.as_slice()
    }

    pub fn forms(&self) -> &[Vec<Form>]
        ensures { map (λ f. f.items) result.now ≡ self.now.forms }
    {
        self.forms
    }

    /// The bounds, rising.
    pub fn bounds(&self) -> &[i128]
        ensures is { result.now ≡ self.now.bounds }
        ensures rising { Rises self.now.bounds }
    {
        self.bounds
    }

    /// The same with so many copies of each turn.
    pub fn cut(&self, copies: u32) -> Cut<'a>
        requires { 1 ≤ copies }
        ensures { result ≡ record { program = self.now.program; code = self.now.code; sets = self.now.sets; copies = copies } }
    {
        Cut::new(self.program, self.code, self.sets, copies)
    }

    /// Whether it isn't too large to be looked at with so many copies of each turn.
    pub fn weigh(&self, alloc: Global, copies: u32) -> Result<(), Halt>
        ensures fits { OnOk result (¬ WeighsTooMuch self.now copies) }
        ensures size { IsErrOf result Halt.Size → WeighsTooMuch self.now copies }
    {
        match unwind(alloc, self.code, self.sets, copies, self.counts) {
            Ok(_flat) => Ok(()),
            Err(UnwindError::TooLarge { .. }) => Err(Halt::Size),
            Err(UnwindError::NoMemory) => Err(Halt::NoMemory),
        }
    }

    /// The formulas of short runs. Without rows the code weighs no more than with them.
    pub fn shorts(&self, alloc: Global, k: u32) -> Result<ShortGoals, AllocError>
        requires { ¬ WeighsTooMuch self.now k }
        ensures k { IfOk result (λ s. s.k ≡ k) }
        ensures is { IfOk result (λ s. AreShorts s (code_of self.now.code) (family self.now.sets)) }
        ensures small { IfOk result (λ s. size (code_of self.now.code) (family self.now.sets) k [] ≤ most_weight) }
        ensures belongs { Belongs (program_tree self.now.program) (code_of self.now.code) self.now.sets }
    {
        match short(alloc, self.code, self.sets, k) {
            Ok(shorts) => Ok(shorts),
            Err(GoalError::NoMemory) => Err(AllocError),
            Err(GoalError::TooLarge) => unreachable!(),
        }
    }
}
