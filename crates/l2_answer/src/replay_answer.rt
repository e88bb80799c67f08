ghost use Rattle.std.specs.Prelude.{◌≡◌, ◌≤◌, length, IfOk};
ghost use Rattle.l2_limits.specs.Limits.{text_limit};
ghost use Rattle.l2_program.specs.Programs.{program_tree};
ghost use Rattle.l2_runs.specs.Loops.{Real, no_tests};
ghost use Rattle.l2_meaning.specs.Execution.{exec};
ghost use Rattle.l2_meaning.specs.Lawful.{IsLawful};
ghost use Rattle.l2_answer.specs.Replays.{Ends, ReplaysOn, Replays};

use crate::line::replay_line;
use crate::replay_status::status_of;
use l2_front::program_of;
use l2_meaning::laws::broken_checks_are_listed;
use l2_program::Program;
use l2_replay::replay;
use l2_status::{Answer, Status, fixed, refused};
use l2_witness::{Values, ValuesError, read_values};
use std::alloc::{AllocError, Global};

/// The answer of a program's execution.
fn executed(alloc: Global, program: &Program, values: &Values) -> Result<Answer, AllocError>
    requires { IsLawful (program_tree program.now) }
    ensures { IfOk result (λ a. Ends (program_tree program.now)
        (exec (program_tree program.now) Real no_tests values.now.choices values.now.turns) a.status a.output.items) }
{
    broken_checks_are_listed();
    let replay = replay(alloc, program, values.choices.as_slice(), values.turns)?;
    Ok(Answer {
        status: status_of(replay.outcome),
        output: replay_line(alloc, program.checks.as_slice(), replay)?,
    })
}

/// The answer of a program on a values file.
fn replayed(alloc: Global, program: &Program, values: &[u8]) -> Result<Answer, AllocError>
    requires { IsLawful (program_tree program.now) }
    ensures { IfOk result (λ a. ReplaysOn values.now (program_tree program.now) a.status a.output.items) }
{
    match read_values(alloc, values) {
        Ok(read) => executed(alloc, program, &read),
        Err(ValuesError::BadLine { .. }) => fixed(alloc, Status::FileRefused, "VALUES BadLine 0\n"),
        Err(ValuesError::NoMemory) => Err(AllocError),
    }
}

/// The answer of the replay of a text on a values file.
pub fn replay_answer(alloc: Global, text: &[u8], values: &[u8]) -> Result<Answer, AllocError>
    requires { length text.now ≤ text_limit }
    ensures { IfOk result (λ a. Replays text.now values.now a.status a.output.items) }
{
    match program_of(alloc, text) {
        Ok(program) => replayed(alloc, &program, values),
        Err(fault) => refused(alloc, fault),
    }
}
