ghost use Rattle.std.specs.Prelude.{◌≡◌, ◌≤◌, length, IfOk};
ghost use Rattle.l2_limits.specs.Limits.{text_limit};
ghost use Rattle.l2_program.specs.Programs.{program_tree};
ghost use Rattle.l2_meaning.specs.Lawful.{IsLawful};
ghost use Rattle.l2_lower.specs.Code.{code};
ghost use Rattle.l2_answer.specs.Shows.{ListsCode, ShowsProgram, Shows};

use l2_front::program_of;
use l2_listing::listing;
use l2_lower::{LowerError, lower};
use l2_program::Program;
use l2_show::loops_text;
use l2_status::{Answer, Status, fixed, refused};
use l2_words::View;
use std::alloc::{AllocError, Global};

/// A program's code.
fn code_shown(alloc: Global, program: &Program) -> Result<Answer, AllocError>
    requires { IsLawful (program_tree program.now) }
    ensures { IfOk result (λ a. ListsCode (code (program_tree program.now)) a.status a.output.items) }
{
    match lower(alloc, program) {
        Ok(code) => Ok(Answer {
            status: Status::Fine,
            output: listing(alloc, &code)?,
        }),
        Err(LowerError::TooLarge) => fixed(alloc, Status::Unknown, "UNKNOWN size k=1\n"),
        Err(LowerError::NoMemory) => Err(AllocError),
    }
}

/// What is shown of a program.
fn shown(alloc: Global, view: View, program: &Program) -> Result<Answer, AllocError>
    requires { IsLawful (program_tree program.now) }
    ensures { IfOk result (λ a. ShowsProgram view (program_tree program.now) a.status a.output.items) }
{
    match view {
        View::Goto => code_shown(alloc, program),
        View::Loops => Ok(Answer {
            status: Status::Fine,
            output: loops_text(alloc, program)?,
        }),
    }
}

/// The answer of the show of a text.
pub fn show_answer(alloc: Global, view: View, text: &[u8]) -> Result<Answer, AllocError>
    requires { length text.now ≤ text_limit }
    ensures { IfOk result (λ a. Shows view text.now a.status a.output.items) }
{
    match program_of(alloc, text) {
        Ok(program) => shown(alloc, view, &program),
        Err(fault) => refused(alloc, fault),
    }
}
