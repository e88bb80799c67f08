ghost use Rattle.std.specs.Prelude.{◌≡◌, ◌++◌, IfOk};
ghost use Rattle.l2_answer.specs.Generates.{Generates, OfMade, made_line};

use l2_front::program_of;
use l2_limits::TEXT_LIMIT;
use l2_status::{Answer, Status, fixed, refused};
use std::alloc::{AllocError, Global};

/// The loops and the bytes of a made text, and the goals of its certificate.
fn made_line(alloc: Global, loops: u32, bytes: u64, goals: u64) -> Result<Vec<u8>, AllocError>
    ensures { IfOk result (λ line. line.items ≡ made_line loops bytes goals) }
{
    let text = format!(in alloc; "loops {loops} bytes {bytes} goals {goals}\n")?;
    Ok(text.into_bytes())
}

/// Nothing can be said yet of a made text that is a program.
fn unsaid() -> Result<Answer, AllocError>
    ensures { IfOk result (λ a. ⊥) }
{
    Err(AllocError)
}

/// What is said of a made text.
fn answer_made(alloc: Global, text: &[u8]) -> Result<Answer, AllocError>
    ensures { IfOk result (λ a. OfMade text.now a.status a.output.items) }
{
    if text.len() as u64 > TEXT_LIMIT {
        return fixed(alloc, Status::TooLong, "TOO LONG\n");
    }
    match program_of(alloc, text) {
        Ok(_program) => unsaid(),
        Err(fault) => refused(alloc, fault),
    }
}

/// An answer behind a line.
fn with_line(line: Vec<u8>, said: Answer) -> Result<Answer, AllocError>
    ensures { IfOk result (λ a. (a.status ≡ said.status) × (a.output.items ≡ line.items ++ said.output.items)) }
{
    let mut output = line;
    output.extend_from_slice(said.output.as_slice())?;
    Ok(Answer {
        status: said.status,
        output,
    })
}

/// The answer of the making of a text.
pub fn generate_answer(alloc: Global, seed: u32, loops: u32) -> Result<Answer, AllocError>
    ensures { IfOk result (λ a. Generates seed loops a.status a.output.items) }
{
    let text = l2_gen::program_of(alloc, seed, loops)?;
    let bytes = text.as_bytes();
    let said = answer_made(alloc, bytes)?;
    let line = made_line(alloc, loops, bytes.len() as u64, 0)?;
    with_line(line, said)
}
