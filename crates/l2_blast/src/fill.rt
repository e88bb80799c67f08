ghost use Rattle.std.specs.Prelude.{◌≡◌, IfOk, OnOk};
ghost use Rattle.l2_gates.specs.Gates.{literal_of};
ghost use Rattle.l2_row_circuits.specs.Words.{words_of};
ghost use Rattle.l2_blast.specs.Words as words;

use l2_cnf::Lit;
use l2_gates::Gates;
use std::alloc::{AllocError, Global};

/// What the literals of rows and rankings are, over the words of a loop's variables in their order, each of 66 bits.
pub trait Fill {
    ghost fill: { Self → words.Fill };

    /// Of the row of this number of a loop, both counted from 1.
    fn row(
        &self,
        alloc: Global,
        gates: &mut Gates,
        of_loop: u32,
        row: u32,
        vars: &[Vec<Lit>],
    ) -> Result<Lit, AllocError>
        ensures is { IfOk result (λ l. literal_of l ≡ ((fill self.now).row of_loop row (words_of vars.now) gates.old).bit) }
        ensures made { OnOk result (gates.new ≡ ((fill self.now).row of_loop row (words_of vars.now) gates.old).made) };

    /// Of a loop's ranking, from the old words to those of now.
    fn lower(
        &self,
        alloc: Global,
        gates: &mut Gates,
        of_loop: u32,
        old: &[Vec<Lit>],
        now: &[Vec<Lit>],
    ) -> Result<Lit, AllocError>
        ensures is { IfOk result (λ l. literal_of l ≡ ((fill self.now).lower of_loop (words_of old.now) (words_of now.now) gates.old).bit) }
        ensures made { OnOk result (gates.new ≡ ((fill self.now).lower of_loop (words_of old.now) (words_of now.now) gates.old).made) };
}
