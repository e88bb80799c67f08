ghost use Rattle.std.specs.Prelude.{IfOk};
ghost use Rattle.l2_answer.specs.Answers.{IsUnread};

use l2_inputs::InputError;
use l2_status::{Answer, Status, fixed};
use std::alloc::{AllocError, Global};

/// The answer where a request's files were not read.
pub fn unread(alloc: Global, error: InputError) -> Result<Answer, AllocError>
    ensures { IfOk result (λ a. IsUnread error a.status a.output.items) }
{
    match error {
        InputError::Fault => fixed(alloc, Status::ReadFault, "READ FAULT\n"),
        InputError::TooLong => fixed(alloc, Status::TooLong, "TOO LONG\n"),
        InputError::NoMemory => Err(AllocError),
    }
}
