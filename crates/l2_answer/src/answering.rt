ghost use Rattle.std.specs.Prelude.{◌≡◌, ◌≤◌, IfOk, Some, None, List, ℕ, codes};
ghost use Rattle.l2_words.specs.Line.{texts};
ghost use Rattle.l2_request.specs.Requests.{Check, Replay, Show, command};
ghost use Rattle.l2_answer.specs.Answers.{Answers, Tells};

use crate::deciding::answer_decision;
use crate::generate_answer::generate_answer;
use crate::replay_answer::replay_answer;
use crate::show_answer::show_answer;
use crate::told::{Told, alone};
use crate::unread::unread;
use l2_check_answer::check_answer;
use l2_inputs::{read_one, read_two};
use l2_outside::Shelf;
use l2_request::{Request, certificate_file, command, text, values_file};
use l2_status::{Answer, Status, fixed};
use l2_words::{View, WordsError};
use std::alloc::{AllocError, Global};
use std::marker::Sync;
use std::thread::Threads;

/// The answer of `replay FILE VALUES`.
fn answer_replay<H: Shelf>(
    alloc: Global,
    file: &str,
    values: &str,
    shelf: &mut H,
) -> Result<Answer, AllocError>
    ensures answers { (words : List (List ℕ)) → command words ≡ Some (Replay file.now values.now) →
        IfOk result (λ a. Answers (H.files shelf.old) (H.read_faults shelf.old) (H.read_faults shelf.new) words a.status a.output.items None) }
    ensures files { H.files shelf.new ≡ H.files shelf.old }
    ensures read_faults { H.read_faults shelf.old ≤ H.read_faults shelf.new }
    ensures write_faults { H.write_faults shelf.new ≡ H.write_faults shelf.old }
{
    match read_two(alloc, text(file), values_file(values), shelf) {
        Ok((text, values)) => replay_answer(alloc, &text, &values),
        Err(error) => unread(alloc, error),
    }
}

/// The answer of `show WHAT FILE`.
fn answer_show<H: Shelf>(
    alloc: Global,
    view: View,
    file: &str,
    shelf: &mut H,
) -> Result<Answer, AllocError>
    ensures answers { (words : List (List ℕ)) → command words ≡ Some (Show view file.now) →
        IfOk result (λ a. Answers (H.files shelf.old) (H.read_faults shelf.old) (H.read_faults shelf.new) words a.status a.output.items None) }
    ensures files { H.files shelf.new ≡ H.files shelf.old }
    ensures read_faults { H.read_faults shelf.old ≤ H.read_faults shelf.new }
    ensures write_faults { H.write_faults shelf.new ≡ H.write_faults shelf.old }
{
    match read_one(alloc, text(file), shelf) {
        Ok(text) => show_answer(alloc, view, &text),
        Err(error) => unread(alloc, error),
    }
}

/// The answer of `check FILE CERT`.
fn answer_check<R: Threads + Sync, H: Shelf>(
    rt: &R,
    alloc: Global,
    file: &str,
    certificate: &str,
    jobs: u32,
    shelf: &mut H,
) -> Result<Answer, AllocError>
    ensures answers { (words : List (List ℕ)) → command words ≡ Some (Check file.now certificate.now jobs) →
        IfOk result (λ a. Answers (H.files shelf.old) (H.read_faults shelf.old) (H.read_faults shelf.new) words a.status a.output.items None) }
    ensures files { H.files shelf.new ≡ H.files shelf.old }
    ensures read_faults { H.read_faults shelf.old ≤ H.read_faults shelf.new }
    ensures write_faults { H.write_faults shelf.new ≡ H.write_faults shelf.old }
{
    match read_two(alloc, text(file), certificate_file(certificate), shelf) {
        Ok((text, certificate)) => check_answer(rt, alloc, &text, &certificate, jobs),
        Err(error) => unread(alloc, error),
    }
}

/// What is told of the words behind the program's name. `rt` is there to check goals in parallel; no answer depends on it.
pub fn answer<'a, R: Threads + Sync, H: Shelf>(
    rt: &R,
    alloc: Global,
    words: &'a [String],
    shelf: &mut H,
) -> Result<Told<'a>, AllocError>
    ensures answers { IfOk result (λ t. Tells (H.files shelf.old) (H.read_faults shelf.old) (H.read_faults shelf.new) (texts words.now) t) }
    ensures files { H.files shelf.new ≡ H.files shelf.old }
    ensures read_faults { H.read_faults shelf.old ≤ H.read_faults shelf.new }
    ensures write_faults { H.write_faults shelf.new ≡ H.write_faults shelf.old }
{
    match command(alloc, words) {
        Ok(
            Request::Decide {
                mode,
                file,
                unwind,
                domain,
                certificate,
            },
        ) => answer_decision(alloc, mode, file, unwind, domain, certificate, shelf),
        Ok(Request::Replay { file, values }) => alone(answer_replay(alloc, file, values, shelf)),
        Ok(Request::Show { view, file }) => alone(answer_show(alloc, view, file, shelf)),
        Ok(
            Request::Check {
                file,
                certificate,
                jobs,
            },
        ) => alone(answer_check(rt, alloc, file, certificate, jobs, shelf)),
        Ok(Request::Generate { seed, loops }) => alone(generate_answer(alloc, seed, loops)),
        Err(WordsError::Usage) => alone(fixed(alloc, Status::Usage, "USAGE\n")),
        Err(WordsError::NoMemory) => Err(AllocError),
    }
}
