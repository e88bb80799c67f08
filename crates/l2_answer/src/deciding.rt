ghost use Rattle.std.specs.Prelude.{◌≡◌, ◌≤◌, List, ℕ, Some, IfOk, length};
ghost use Rattle.l2_limits.specs.Limits.{text_limit};
ghost use Rattle.l2_words.specs.Requests.{text_of};
ghost use Rattle.l2_request.specs.Requests.{Decide, command};
ghost use Rattle.l2_verify_answer.specs.Verifies.{DecidesText, bytes_of};
ghost use Rattle.l2_answer.specs.Answers.{Tells};
ghost use Rattle.l2_answer.specs.Stores.{into, stored_of};

use crate::told::{Stored, Told, alone};
use crate::unread::unread;
use l2_inputs::read_one;
use l2_kiki::Mode;
use l2_outside::Shelf;
use l2_request::text;
use l2_verify_answer::{Verdict, terminate_answer, verify_answer};
use l2_words::DomainName;
use std::alloc::{AllocError, Global};

/// The certificate, where it has a name.
fn stored<'a>(out: Option<&'a str>, certificate: Option<Vec<u8>>) -> Option<Stored<'a>>
    ensures { stored_of result ≡ into (text_of out.entry) (bytes_of certificate) }
{
    match (out, certificate) {
        (Some(name), Some(bytes)) => Some(Stored { name, bytes }),
        _ => None,
    }
}

/// A verdict, whose certificate is to be stored under this name.
fn told<'a>(verdict: Verdict, out: Option<&'a str>) -> Told<'a>
    ensures answer { result.answer ≡ verdict.answer }
    ensures stored { stored_of result.stored ≡ into (text_of out.entry) (bytes_of verdict.certificate) }
{
    Told {
        answer: verdict.answer,
        stored: stored(out, verdict.certificate),
    }
}

/// What is answered of a text.
fn decide(
    alloc: Global,
    mode: Mode,
    text: &[u8],
    unwind: u32,
    domain: DomainName,
    wanted: bool,
) -> Result<Verdict, AllocError>
    requires short { length text.now ≤ text_limit }
    requires some { 1 ≤ unwind }
    requires most { unwind ≤ 64 }
    ensures { IfOk result (λ v. DecidesText mode text.now unwind domain wanted v.answer.status v.answer.output.items (bytes_of v.certificate)) }
{
    match mode {
        Mode::Safety => verify_answer(alloc, text, unwind, domain, wanted),
        Mode::Termination => terminate_answer(alloc, text, unwind, domain, wanted),
    }
}

/// What is told of `verify FILE` and `termination FILE`.
pub fn answer_decision<'a, H: Shelf>(
    alloc: Global,
    mode: Mode,
    file: &str,
    unwind: u32,
    domain: DomainName,
    out: Option<&'a str>,
    shelf: &mut H,
) -> Result<Told<'a>, AllocError>
    requires some { 1 ≤ unwind }
    requires most { unwind ≤ 64 }
    ensures answers { (words : List (List ℕ)) → command words ≡ Some (Decide mode file.now unwind domain (text_of out.entry)) →
        IfOk result (λ t. Tells (H.files shelf.old) (H.read_faults shelf.old) (H.read_faults shelf.new) words t) }
    ensures files { H.files shelf.new ≡ H.files shelf.old }
    ensures read_faults { H.read_faults shelf.old ≤ H.read_faults shelf.new }
    ensures write_faults { H.write_faults shelf.new ≡ H.write_faults shelf.old }
{
    match read_one(alloc, text(file), shelf) {
        Ok(text) => {
            let verdict = decide(alloc, mode, &text, unwind, domain, out.is_some())?;
            Ok(told(verdict, out))
        }
        Err(error) => alone(unread(alloc, error)),
    }
}
