ghost use Rattle.std.specs.Prelude.{◌≡◌, ◌↔◌, false, true, IsErr, IsErrOf, IsTrue, OnOk};
ghost use Rattle.l2_engine.specs.Tasks.{AreRanksOf, IsSomeBreak, IsStrongestIn, ProvesAt, SomeBreak, WeighsTooMuch};

use crate::points::{point_proves, strongest_point};
use crate::ranks::loop_ranks;
use crate::short::short_break;
use crate::task::Task;
use l2_templates::{Found, Halt, Infer, Point, Ranks};
use std::alloc::Global;

/// Answers questions about a program at k = 1, 2, ..
#[derive(Drop)]
pub struct Engine<'a> {
    task: Task<'a>,
    at: u32,
    halted: bool,
}

impl<'a> Engine<'a> {
    pub fn new(task: Task<'a>) -> Engine<'a>
        ensures task { result.task ≡ task.entry }
        ensures at { result.at ≡ 0 }
        ensures halted { result.halted ≡ false }
    {
        Engine {
            task,
            at: 0,
            halted: false,
        }
    }

    /// Begins a question at this k.
    fn begin(&mut self, alloc: Global, k: u32) -> Result<(), Halt>
        ensures task { self.new.task ≡ self.old.task }
        ensures at { self.new.at ≡ k }
        ensures halted { IsTrue self.new.halted ↔ IsErr result }
        ensures fits { OnOk result (¬ WeighsTooMuch self.old.task k) }
        ensures size { IsErrOf result Halt.Size → WeighsTooMuch self.old.task k }
    {
        self.at = k;
        let weighed = self.task.weigh(alloc, k);
        self.halted = weighed.is_err();
        weighed
    }

    /// Ends all questions, since memory is wanting.
    fn halt(&mut self) -> Halt
        ensures task { self.new.task ≡ self.old.task }
        ensures at { self.new.at ≡ self.old.at }
        ensures halted { IsTrue self.new.halted }
        ensures is { result ≡ Halt.NoMemory }
    {
        self.halted = true;
        Halt::NoMemory
    }
}

impl<'a> Infer for Engine<'a> {
    type Problem = Task<'a>;

    ghost problem = { λ e. e.task };

    ghost is_too_large = { λ x k. WeighsTooMuch x k };

    ghost breaks = { λ x k. SomeBreak x k };

    ghost is_break = { λ x k f. IsSomeBreak x k f };

    ghost is_strongest = { λ x k q. IsStrongestIn x k q };

    ghost proves_at = { λ x k q. ProvesAt x k q };

    ghost ranks_are = { λ x k q r. AreRanksOf x k q r };

    ghost at = { λ e. e.at };

    ghost is_halted = { λ e. e.halted };

    ghost is_ranked = { λ e. true };

    fn short(&mut self, alloc: Global, k: u32) -> Result<Option<Found>, Halt> {
        self.begin(alloc, k)?;
        match short_break(alloc, &self.task, k) {
            Ok(found) => Ok(found),
            Err(_) => Err(self.halt()),
        }
    }

    fn point(&mut self, alloc: Global, k: u32) -> Result<Point, Halt> {
        self.begin(alloc, k)?;
        match strongest_point(alloc, &self.task, k) {
            Ok(point) => Ok(point),
            Err(_) => Err(self.halt()),
        }
    }

    fn proves(&mut self, alloc: Global, k: u32, p: &Point) -> Result<bool, Halt> {
        self.begin(alloc, k)?;
        match point_proves(alloc, &self.task, k, p) {
            Ok(proved) => Ok(proved),
            Err(_) => Err(self.halt()),
        }
    }

    fn ranks(&mut self, alloc: Global, k: u32, p: &Point) -> Result<Option<Ranks>, Halt> {
        self.begin(alloc, k)?;
        match loop_ranks(alloc, &self.task, k, p) {
            Ok(ranks) => Ok(ranks),
            Err(_) => Err(self.halt()),
        }
    }
}
