// Makers of steps: each gives the next name.
ghost use Rattle.std.specs.Prelude.{◌≡◌, IfOk, OnOk};
ghost use Rattle.l2_code.specs.declared.action.Operand.TheVariants.{Temp};
ghost use Rattle.l2_code.specs.Sets.{family};
ghost use Rattle.l2_ssa.specs.Steps as steps;
ghost use Rattle.l2_ssa.specs.Views.{step_of, flags_of, computed};
ghost use Rattle.l2_walker.specs.Made.{state_of, emitted};

use crate::walker::Walker;
use l2_bits::{List, Ty};
use l2_code::{Computation, Operand};
use l2_runs::CellType;
use l2_ssa::{
    AliveStep, AmongStep, ApartStep, ComputeStep, Flag, LowerStep, MergeStep, PathStep, PickStep,
    PointStep, RowStep, Step, TakeStep,
};
use std::alloc::AllocError;

impl<'a> Walker<'a> {
    #[tactic(auto, unfolding(crate::specs::Made::state_of))]
    fn push(&mut self, step: Step<'a>) -> Result<Operand, AllocError>
        ensures name { IfOk result (λ a. a ≡ Temp (state_of self.old).names) }
        ensures steps { OnOk result (state_of self.new ≡ emitted (state_of self.old) (step_of (family (state_of self.old).sets) step.entry)) }
    {
        match u32::try_from(self.steps.len()) {
            Ok(name) => {
                self.steps.push(step)?;
                Ok(Operand::Temp(name))
            }
            Err(_) => Err(AllocError),
        }
    }

    /// A choice of true or false, where the path is true.
    pub fn choose(&mut self, path: Operand) -> Result<Operand, AllocError>
        ensures name { IfOk result (λ a. a ≡ Temp (state_of self.old).names) }
        ensures steps { OnOk result (state_of self.new ≡ emitted (state_of self.old) (steps.Choose path)) }
    {
        let step = Box::new(self.alloc, path)?;
        self.push(Step::Choose(step))
    }

    /// A choice of a value of the type.
    pub fn take(&mut self, path: Operand, ty: Ty) -> Result<Operand, AllocError>
        ensures name { IfOk result (λ a. a ≡ Temp (state_of self.old).names) }
        ensures steps { OnOk result (state_of self.new ≡ emitted (state_of self.old) (steps.Take path ty)) }
    {
        let step = Box::new(self.alloc, TakeStep { path, ty })?;
        self.push(Step::Take(step))
    }

    /// The selector of any pointer, or its offset.
    pub fn half(&mut self, path: Operand) -> Result<Operand, AllocError>
        ensures name { IfOk result (λ a. a ≡ Temp (state_of self.old).names) }
        ensures steps { OnOk result (state_of self.new ≡ emitted (state_of self.old) (steps.Half path)) }
    {
        let step = Box::new(self.alloc, path)?;
        self.push(Step::Half(step))
    }

    /// The pointer of a selector and an offset.
    pub fn point(
        &mut self,
        path: Operand,
        selector: Operand,
        offset: Operand,
    ) -> Result<Operand, AllocError>
        ensures name { IfOk result (λ a. a ≡ Temp (state_of self.old).names) }
        ensures steps { OnOk result (state_of self.new ≡ emitted (state_of self.old) (steps.Point path selector offset)) }
    {
        let step = Box::new(
            self.alloc,
            PointStep {
                path,
                selector,
                offset,
            },
        )?;
        self.push(Step::Point(step))
    }

    /// Whether these are the selector and the offset of a pointer of the object's set.
    pub fn among(
        &mut self,
        path: Operand,
        selector: Operand,
        offset: Operand,
        object: u32,
    ) -> Result<Operand, AllocError>
        ensures name { IfOk result (λ a. a ≡ Temp (state_of self.old).names) }
        ensures steps { OnOk result (state_of self.new ≡ emitted (state_of self.old) (steps.Among path selector offset ((family (state_of self.old).sets).object object))) }
    {
        let step = Box::new(
            self.alloc,
            AmongStep {
                path,
                selector,
                offset,
                object,
            },
        )?;
        self.push(Step::Among(step))
    }

    /// A computation of the code, with its operands as they are now.
    pub fn compute(
        &mut self,
        path: Operand,
        what: &'a Computation,
        left: Operand,
        right: Operand,
    ) -> Result<Operand, AllocError>
        ensures name { IfOk result (λ a. a ≡ Temp (state_of self.old).names) }
        ensures steps { OnOk result (state_of self.new ≡ emitted (state_of self.old) (computed (family (state_of self.old).sets) path what.now left right)) }
    {
        let step = Box::new(
            self.alloc,
            ComputeStep {
                path,
                what,
                left,
                right,
            },
        )?;
        self.push(Step::Compute(step))
    }

    /// Whether the object of a pointer is live, by the flags of the objects to which it may lead.
    pub fn alive(
        &mut self,
        path: Operand,
        pointer: Operand,
        flags: Vec<Flag>,
    ) -> Result<Operand, AllocError>
        ensures name { IfOk result (λ a. a ≡ Temp (state_of self.old).names) }
        ensures steps { OnOk result (state_of self.new ≡ emitted (state_of self.old) (steps.Alive path pointer (flags_of flags.items))) }
    {
        let flags = List::new(flags);
        let step = Box::new(
            self.alloc,
            AliveStep {
                path,
                pointer,
                flags,
            },
        )?;
        self.push(Step::Alive(step))
    }

    /// `there` where the pointer is this object and offset, else `elsewhere`.
    pub fn pick(&mut self, pick: PickStep) -> Result<Operand, AllocError>
        ensures name { IfOk result (λ a. a ≡ Temp (state_of self.old).names) }
        ensures steps { OnOk result (state_of self.new ≡ emitted (state_of self.old)
            (steps.Pick pick.path pick.pointer pick.object pick.offset pick.ty pick.there pick.elsewhere)) }
    {
        let step = Box::new(self.alloc, pick)?;
        self.push(Step::Pick(step))
    }

    /// Whether this row of this loop, counted from 1, holds of these values.
    pub fn row(
        &mut self,
        path: Operand,
        of_loop: u32,
        row: u32,
        vars: Vec<Operand>,
    ) -> Result<Operand, AllocError>
        ensures name { IfOk result (λ a. a ≡ Temp (state_of self.old).names) }
        ensures steps { OnOk result (state_of self.new ≡ emitted (state_of self.old) (steps.Row path of_loop row vars.items)) }
    {
        let vars = List::new(vars);
        let step = Box::new(
            self.alloc,
            RowStep {
                path,
                of_loop,
                row,
                vars,
            },
        )?;
        self.push(Step::Row(step))
    }

    /// Whether the ranking of this loop is lower from the old values to those of now.
    pub fn lower(
        &mut self,
        path: Operand,
        of_loop: u32,
        old: Vec<Operand>,
        now: Vec<Operand>,
    ) -> Result<Operand, AllocError>
        ensures name { IfOk result (λ a. a ≡ Temp (state_of self.old).names) }
        ensures steps { OnOk result (state_of self.new ≡ emitted (state_of self.old) (steps.Lower path of_loop old.items now.items)) }
    {
        let old = List::new(old);
        let now = List::new(now);
        let step = Box::new(
            self.alloc,
            LowerStep {
                path,
                of_loop,
                old,
                now,
            },
        )?;
        self.push(Step::Lower(step))
    }

    /// Where the left is true, and the right isn't.
    pub fn apart(
        &mut self,
        path: Operand,
        left: Operand,
        right: Operand,
    ) -> Result<Operand, AllocError>
        ensures name { IfOk result (λ a. a ≡ Temp (state_of self.old).names) }
        ensures steps { OnOk result (state_of self.new ≡ emitted (state_of self.old) (steps.Apart path left right)) }
    {
        let step = Box::new(self.alloc, ApartStep { path, left, right })?;
        self.push(Step::Apart(step))
    }

    /// The path on which both are true.
    pub fn both(&mut self, left: Operand, right: Operand) -> Result<Operand, AllocError>
        ensures name { IfOk result (λ a. a ≡ Temp (state_of self.old).names) }
        ensures steps { OnOk result (state_of self.new ≡ emitted (state_of self.old) (steps.Both left right)) }
    {
        let step = Box::new(self.alloc, PathStep { left, right })?;
        self.push(Step::Both(step))
    }

    /// The path on which the left alone is true.
    pub fn but(&mut self, left: Operand, right: Operand) -> Result<Operand, AllocError>
        ensures name { IfOk result (λ a. a ≡ Temp (state_of self.old).names) }
        ensures steps { OnOk result (state_of self.new ≡ emitted (state_of self.old) (steps.But left right)) }
    {
        let step = Box::new(self.alloc, PathStep { left, right })?;
        self.push(Step::But(step))
    }

    /// The path on which one is true.
    pub fn either(&mut self, left: Operand, right: Operand) -> Result<Operand, AllocError>
        ensures name { IfOk result (λ a. a ≡ Temp (state_of self.old).names) }
        ensures steps { OnOk result (state_of self.new ≡ emitted (state_of self.old) (steps.Either left right)) }
    {
        let step = Box::new(self.alloc, PathStep { left, right })?;
        self.push(Step::Either(step))
    }

    /// The first value where the entry is true, else the second.
    pub fn merge(&mut self, merge: MergeStep) -> Result<Operand, AllocError>
        ensures name { IfOk result (λ a. a ≡ Temp (state_of self.old).names) }
        ensures steps { OnOk result (state_of self.new ≡ emitted (state_of self.old) (steps.Merge merge.path merge.entry merge.ty merge.brought merge.own)) }
    {
        let step = Box::new(self.alloc, merge)?;
        self.push(Step::Merge(step))
    }
}
