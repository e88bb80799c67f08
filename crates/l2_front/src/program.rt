ghost use Rattle.std.specs.Prelude.{◌≡◌, ◌≤◌, length, Some, None, IfOk, IfErr, IsErrOf};
ghost use Rattle.l2_limits.specs.Limits.{text_limit};
ghost use Rattle.l2_program.specs.Programs.{program_tree};
ghost use Rattle.l2_meaning.specs.Lawful.{IsLawful};
ghost use Rattle.l2_tree.specs.Units.{unit_tree};
ghost use Rattle.l2_parse_unit.specs.Reading.{OnRefusal};
ghost use Rattle.l2_front.specs.Programs.{IsProgram, IsNoProgram, IsRefusalOf, small_program};

use l2_lex::tokens;
use l2_parse_unit::{parse, refused_law, unique_unit_law};
use l2_program::Program;
use l2_small::{SmallError, small};
use l2_small_check::{CheckError, check};
use l2_syntax::{Place, Refusal, Rule, TextFault};
use l2_tree::Unit;
use std::alloc::Global;

/// A text that the program can't take yet is refused at its start.
const NOT_BUILT: Refusal = Refusal {
    place: Place {
        offset: 0,
        line: 1,
        col: 1,
    },
    rule: Rule::NotBuilt,
};

/// The program of a text, or why it has none.
pub fn program_of(alloc: Global, text: &[u8]) -> Result<Program, TextFault>
    requires { length text.now ≤ text_limit }
    ensures ok { IfOk result (λ p. IsProgram text.now (program_tree p)) }
    ensures lawful { IfOk result (λ p. IsLawful (program_tree p)) }
    ensures refused { IfErr result (λ e. OnRefusal e (λ f. IsNoProgram text.now × IsRefusalOf text.now f)) }
{
    refused_law();
    unique_unit_law();
    let tokens = tokens(alloc, text)?;
    match parse(alloc, &tokens) {
        Ok(unit) => match small_program(alloc, unit) {
            Ok(program) => Ok(program),
            Err(SmallError::NotSmall) => Err(TextFault::At(NOT_BUILT)),
            Err(SmallError::NoMemory) => Err(TextFault::NoMemory),
        },
        Err(TextFault::At(refusal)) => Err(TextFault::At(refusal)),
        Err(TextFault::NoMemory) => Err(TextFault::NoMemory),
    }
}

/// The program of a unit of the small form.
fn small_program(alloc: Global, unit: Unit) -> Result<Program, SmallError>
    ensures ok { IfOk result (λ p. small_program (unit_tree unit) ≡ Some (program_tree p)) }
    ensures lawful { IfOk result (λ p. IsLawful (program_tree p)) }
    ensures not_small { IsErrOf result SmallError.NotSmall → small_program (unit_tree unit) ≡ None }
{
    match small(alloc, unit) {
        Ok(small_unit) => match check(alloc, small_unit) {
            Ok(program) => Ok(program),
            Err(CheckError::NotSmall) => Err(SmallError::NotSmall),
            Err(CheckError::NoMemory) => Err(SmallError::NoMemory),
        },
        Err(f) => Err(f),
    }
}
