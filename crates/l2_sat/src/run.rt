ghost use Rattle.std.specs.Prelude.{◌≡◌, ◌≤◌, ◌<◌, ℕ, List, Some, IfOk, OnOk, IsErrOf};
ghost use Rattle.l2_outside.specs.Outside.{KeepsOthers, Rose};
ghost use Rattle.l2_sat.specs.Commands.{Check, Solve, command, texts};
ghost use Rattle.l2_sat.specs.Formulas.{Written as TheWritten};
ghost use Rattle.l2_sat.specs.Answers.{Answers, IsAnswer, IsUnread, Runs, file_of, with_written};

use crate::answer::Answer;
use crate::commands::{Command, asked_by, input};
use crate::formula_answer::{check_answer, solve_answer};
use crate::printing::fixed;
use crate::status::SatStatus;
use l2_inputs::{InputError, read_one, read_two};
use l2_outside::{Failed, Shelf, Sink, WriteError, write_text};
use std::alloc::{AllocError, Global};

/// The answer where a command's files were not read.
fn unread<'a>(alloc: Global, error: InputError) -> Result<Answer<'a>, AllocError>
    ensures { IfOk result (IsAnswer (IsUnread error)) }
{
    match error {
        InputError::Fault => fixed(alloc, SatStatus::ReadFault, "READ FAULT\n"),
        InputError::TooLong => fixed(alloc, SatStatus::TooLong, "TOO LONG\n"),
        InputError::NoMemory => Err(AllocError),
    }
}

/// The answer of `solve FILE PROOF`.
fn answer_solve<'a, H: Shelf>(
    alloc: Global,
    file: &str,
    proof: &'a str,
    shelf: &mut H,
) -> Result<Answer<'a>, AllocError>
    ensures answers { (words : List (List ℕ)) → command words ≡ Some (Solve file.now proof.now) →
        IfOk result (IsAnswer (Answers (H.files shelf.old) (H.read_faults shelf.old) (H.read_faults shelf.new) words)) }
    ensures files { H.files shelf.new ≡ H.files shelf.old }
    ensures read_faults { H.read_faults shelf.old ≤ H.read_faults shelf.new }
    ensures write_faults { H.write_faults shelf.new ≡ H.write_faults shelf.old }
{
    match read_one(alloc, input(file), shelf) {
        Ok(text) => solve_answer(alloc, &text, proof),
        Err(error) => unread(alloc, error),
    }
}

/// The answer of `check FILE PROOF`.
fn answer_check<'a, H: Shelf>(
    alloc: Global,
    file: &str,
    proof: &str,
    shelf: &mut H,
) -> Result<Answer<'a>, AllocError>
    ensures answers { (words : List (List ℕ)) → command words ≡ Some (Check file.now proof.now) →
        IfOk result (IsAnswer (Answers (H.files shelf.old) (H.read_faults shelf.old) (H.read_faults shelf.new) words)) }
    ensures files { H.files shelf.new ≡ H.files shelf.old }
    ensures read_faults { H.read_faults shelf.old ≤ H.read_faults shelf.new }
    ensures write_faults { H.write_faults shelf.new ≡ H.write_faults shelf.old }
{
    match read_two(alloc, input(file), input(proof), shelf) {
        Ok((text, bytes)) => check_answer(alloc, &text, &bytes),
        Err(error) => unread(alloc, error),
    }
}

/// The answer to the words behind the program's name.
fn answer<'a, H: Shelf>(
    alloc: Global,
    words: &'a [String],
    shelf: &mut H,
) -> Result<Answer<'a>, AllocError>
    ensures answers { IfOk result (IsAnswer (Answers (H.files shelf.old) (H.read_faults shelf.old) (H.read_faults shelf.new) (texts words.now))) }
    ensures files { H.files shelf.new ≡ H.files shelf.old }
    ensures read_faults { H.read_faults shelf.old ≤ H.read_faults shelf.new }
    ensures write_faults { H.write_faults shelf.new ≡ H.write_faults shelf.old }
{
    match asked_by(words) {
        Some(Command::Solve { file, proof }) => answer_solve(alloc, file, proof, shelf),
        Some(Command::Check { file, proof }) => answer_check(alloc, file, proof, shelf),
        None => fixed(alloc, SatStatus::Usage, "USAGE\n"),
    }
}

/// Writes the file of an answer, if it has one.
fn keep<H: Shelf>(alloc: Global, answer: &Answer<'_>, shelf: &mut H) -> Result<(), WriteError>
    ensures ok { OnOk result (H.files shelf.new ≡ with_written (H.files shelf.old) (file_of answer.now.written)) }
    ensures failed { IsErrOf result WriteError.Failed → Rose (H.write_faults shelf.old) (H.write_faults shelf.new)
        × ((w : TheWritten) × (file_of answer.now.written ≡ Some w) × KeepsOthers (H.files shelf.old) (H.files shelf.new) w.name) }
    ensures no_memory { IsErrOf result WriteError.NoMemory → H.files shelf.new ≡ H.files shelf.old }
    ensures read_faults { H.read_faults shelf.new ≡ H.read_faults shelf.old }
    ensures write_faults { H.write_faults shelf.old ≤ H.write_faults shelf.new }
{
    match &answer.written {
        Some(written) => shelf.write(alloc, written.name, written.bytes.as_slice()),
        None => Ok(()),
    }
}

/// Does all that the program does. `words` are those behind the program's name.
pub fn sat_run<H: Shelf, K: Sink>(
    alloc: Global,
    words: &[String],
    shelf: &mut H,
    out: &mut K,
) -> SatStatus
    ensures runs { Runs (H.files shelf.old) (H.files shelf.new) (H.read_faults shelf.old) (H.read_faults shelf.new)
        (Rose (H.write_faults shelf.old) (H.write_faults shelf.new)) (Rose (K.faults out.old) (K.faults out.new))
        (texts words.now) result (K.written out.old) (K.written out.new) }
    ensures read_faults { H.read_faults shelf.old ≤ H.read_faults shelf.new }
    ensures write_faults { H.write_faults shelf.old ≤ H.write_faults shelf.new }
    ensures faults { K.faults out.old ≤ K.faults out.new }
{
    let Ok(answer) = answer(alloc, words, shelf) else {
        return SatStatus::NoMemory;
    };
    match keep(alloc, &answer, shelf) {
        Ok(()) => match write_text(answer.output.as_slice(), out) {
            Ok(()) => answer.status,
            Err(Failed) => SatStatus::WriteFault,
        },
        Err(WriteError::Failed) => SatStatus::WriteFault,
        Err(WriteError::NoMemory) => SatStatus::NoMemory,
    }
}
