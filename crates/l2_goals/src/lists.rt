// Clause lists as formulas.
ghost use Rattle.std.specs.Prelude.{◌≡◌, OnOk, map};
ghost use Rattle.l2_cnf.specs.Logic.{AllWithin, IsWithin};
ghost use Rattle.l2_gates.specs.Gates.{literals_of};
ghost use Rattle.l2_goals.specs.Numbers.{all_numbers, numbers};

use l2_cnf::{ClauseList, Lit};
use std::alloc::AllocError;

/// The variables of a clause are among so many. A formula's are; otherwise there is no answer.
fn check_clause(clause: &[Lit], variables: u64) -> Result<(), AllocError>
    ensures within { OnOk result (IsWithin variables clause.now) }
    ensures same { OnOk result (numbers (literals_of clause.now) ≡ clause.now) }
{
    for i in 0..clause.len() {
        if clause[i].var() > variables {
            return Err(AllocError);
        }
    }
    Ok(())
}

/// The same of each clause of a list.
pub fn check_list(list: &ClauseList, variables: u64) -> Result<(), AllocError>
    ensures within { OnOk result (AllWithin variables list.now) }
    ensures same { OnOk result (all_numbers (map literals_of list.now) ≡ list.now) }
{
    for i in 0..list.len() {
        check_clause(list.clause(i), variables)?;
    }
    Ok(())
}
