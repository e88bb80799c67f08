ghost use Rattle.std.specs.Prelude.{◌≡◌, ◌≤◌, ◌<◌, ◌^◌, ℕ, ℤ, nat_abs, neg_ℤ, Bool, true, Contains, MatchOption, IsTrue, ◌↔◌};
ghost use Rattle.l2_order.specs.Choice.{IsFree, HasFree};

use crate::heap::Heap;
use l2_cnf::Lit;
use l2_watch::Watch;
use std::alloc::{AllocError, Global};

/// Which variable is decided next, and with which value: the most active one, with the value that it had last. No promise
/// rests on it but that the literal that it gives is unset.
#[derive(Drop)]
pub struct Order {
    heap: Heap,
    phases: Vec<bool>,
    pace: Pace,
}

/// After how many conflicts the search begins anew: by turns a hundred times 1, 1, 2, 1, 1, 2, 4, 1, and so on. A turn of
/// each length comes once the length before it has come twice.
#[derive(Clone, Copy)]
struct Pace {
    conflicts: u64,
    round: u64,
    length: u64,
}

impl Pace {
    // Counts a conflict. It answers whether the search is to begin anew.
    fn count(&mut self) -> bool {
        self.conflicts = self.conflicts.saturating_add(1);
        if self.conflicts < self.length.saturating_mul(100) {
            return false;
        }
        self.conflicts = 0;
        self.lengthen();
        true
    }

    // Goes to the next length. The last one of a round is the greatest power of 2 that divides the round's number.
    fn lengthen(&mut self) {
        let double = self.length.saturating_mul(2);
        if double == 0 || self.round % double == self.length {
            self.round = self.round.saturating_add(1);
            self.length = 1;
        } else {
            self.length = double;
        }
    }
}

impl Order {
    pub fn new(alloc: Global) -> Order {
        Order {
            heap: Heap::new(alloc),
            phases: Vec::new(alloc),
            pace: Pace {
                conflicts: 0,
                round: 1,
                length: 1,
            },
        }
    }

    /// Takes in the variables up to this one. Those that are new may be decided.
    pub fn cover(&mut self, variables: u64) -> Result<(), AllocError> {
        while self.phases.len() as u64 <= variables {
            self.phases.push(false)?;
        }
        self.heap.fill(variables)
    }

    /// A variable stood in a conflict.
    pub fn bump(&mut self, var: u64) {
        self.heap.bump(var);
    }

    /// A conflict was analysed. It answers whether the search is to begin anew.
    pub fn decay(&mut self) -> bool {
        self.heap.decay();
        self.pace.count()
    }

    /// A literal is about to be taken back: its variable may be decided again, with the value that it had.
    pub fn release(&mut self, literal: Lit) {
        let var = literal.var();
        if (var as usize) < self.phases.len() {
            self.phases[var as usize] = literal.is_positive();
        }
        self.heap.insert(var);
    }

    // A literal of a variable, with the value that it had last.
    fn literal(&self, var: u64) -> Lit
        requires low { 1 ≤ var }
        requires high { var < 2 ^ 62 }
        ensures { nat_abs result ≡ var }
    {
        let positive = (var as usize) < self.phases.len() && self.phases[var as usize];
        Lit::new(var, positive)
    }

    /// A literal of a variable that has no value.
    pub fn pick(&mut self, watch: &Watch) -> Option<Lit>
        requires { watch.now.ready ≡ true }
        ensures { MatchOption result (¬ HasFree watch.now.past.literals watch.now.variables) (λ l. IsFree watch.now.past.literals watch.now.variables l) }
    {
        watch.facts();
        for _ in 0..watch.variables() {
            let Some(var) = self.heap.pop() else {
                return first_free(watch);
            };
            if var >= 1 && var <= watch.variables() {
                let literal = self.literal(var);
                if is_free(watch, literal) {
                    return Some(literal);
                }
            }
        }
        first_free(watch)
    }
}

// A literal of the first variable that has no value.
fn first_free(watch: &Watch) -> Option<Lit>
    requires { watch.now.ready ≡ true }
    ensures { MatchOption result (¬ HasFree watch.now.past.literals watch.now.variables) (λ l. IsFree watch.now.past.literals watch.now.variables l) }
{
    watch.facts();
    for var in 0..watch.variables() {
        let literal = Lit::new(var + 1, false);
        if is_free(watch, literal) {
            return Some(literal);
        }
    }
    None
}

// Whether a literal has no value.
fn is_free(watch: &Watch, literal: Lit) -> bool
    requires ready { watch.now.ready ≡ true }
    requires over { nat_abs literal ≤ watch.now.variables }
    ensures { IsTrue result ↔ IsFree watch.now.past.literals watch.now.variables literal }
{
    watch.facts();
    !watch.is_true(literal) && !watch.is_false(literal)
}
