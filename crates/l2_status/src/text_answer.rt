ghost use Rattle.std.specs.Prelude.{◌≡◌, IfOk};
ghost use Rattle.l2_syntax.specs.declared.refusal.TextFault.{TextFault};
ghost use Rattle.l2_status.specs.Texts.{IsRefused};

use crate::line::refusal_line;
use crate::status::{Answer, Status};
use l2_syntax::TextFault;
use std::alloc::{AllocError, Global};

/// The answer where a text has no program.
pub fn refused(alloc: Global, fault: TextFault) -> Result<Answer, AllocError>
    ensures { IfOk result (λ a. IsRefused fault a.status a.output.items) }
{
    match fault {
        TextFault::At(refusal) => Ok(Answer {
            status: Status::Refused,
            output: refusal_line(alloc, refusal)?,
        }),
        TextFault::NoMemory => Err(AllocError),
    }
}
