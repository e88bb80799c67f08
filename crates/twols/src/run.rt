ghost use Rattle.std.specs.Prelude.{◌≡◌, ◌≢◌, ◌≤◌, ◌⊎◌, ℕ, List, Option, Some, OnOk, IsErrOf};
ghost use Rattle.l2_outside.specs.Outside.{Rose, grown};
ghost use Rattle.l2_words.specs.Line.{texts};
ghost use Rattle.l2_kiki.specs.declared.decision.Mode.TheVariants.{Safety, Termination};
ghost use Rattle.l2_words.specs.declared.request.DomainName.{DomainName};
ghost use Rattle.l2_verify_answer.specs.Law.{IsEnded, IsShown};
ghost use Rattle.l2_request.specs.Requests.{Check, Decide, command};
ghost use Rattle.l2_answer.specs.Answers.{Prints, Tells};
ghost use Rattle.l2_answer.specs.Headline.{IsTrueOf, ShowsOf};
ghost use Rattle.l2_answer.specs.Stores.{IsUnstored, stored_in, stored_of};

use l2_answer::{Stored, Told, answer, checked_law, status_law, terminated_law, verified_law};
use l2_outside::{Failed, Shelf, Sink, WriteError, write_text};
use l2_status::Status;
use std::alloc::Global;
use std::marker::Sync;
use std::thread::Threads;

/// Writes what is to be stored.
fn store<H: Shelf>(
    alloc: Global,
    stored: &Option<Stored<'_>>,
    shelf: &mut H,
) -> Result<(), WriteError>
    ensures ok { OnOk result (H.files shelf.new ≡ stored_in (H.files shelf.old) (stored_of stored.now)) }
    ensures failed { IsErrOf result WriteError.Failed → Rose (H.write_faults shelf.old) (H.write_faults shelf.new) }
    ensures others { IsErrOf result WriteError.Failed → IsUnstored (H.files shelf.old) (H.files shelf.new) (stored_of stored.now) }
    ensures no_memory { IsErrOf result WriteError.NoMemory → H.files shelf.new ≡ H.files shelf.old }
    ensures write_faults { H.write_faults shelf.old ≤ H.write_faults shelf.new }
    ensures read_faults { H.read_faults shelf.new ≡ H.read_faults shelf.old }
{
    match stored {
        None => Ok(()),
        Some(file) => shelf.write(alloc, file.name, file.bytes.as_slice()),
    }
}

/// Stores what is told, and then prints the answer.
fn deliver<H: Shelf, K: Sink>(alloc: Global, told: &Told<'_>, shelf: &mut H, out: &mut K) -> Status
    ensures prints { (before now : ℕ) (words : List (List ℕ)) → Tells (H.files shelf.old) before now words told.now →
        Prints (H.files shelf.old) (H.files shelf.new) before now words result (K.written out.old) (K.written out.new) }
    ensures write_fault { result ≡ Status.WriteFault → told.now.answer.status ≢ Status.WriteFault →
        Rose (H.write_faults shelf.old) (H.write_faults shelf.new) ⊎ Rose (K.faults out.old) (K.faults out.new) }
    ensures read_faults { H.read_faults shelf.new ≡ H.read_faults shelf.old }
    ensures write_faults { H.write_faults shelf.old ≤ H.write_faults shelf.new }
    ensures faults { K.faults out.old ≤ K.faults out.new }
{
    match store(alloc, &told.stored, shelf) {
        Ok(()) => match write_text(told.answer.output.as_slice(), out) {
            Ok(()) => told.answer.status,
            Err(Failed) => Status::WriteFault,
        },
        Err(WriteError::Failed) => Status::WriteFault,
        Err(WriteError::NoMemory) => Status::NoMemory,
    }
}

/// Answers the words, stores what is to be stored, and prints the answer.
fn printed<R: Threads + Sync, H: Shelf, K: Sink>(
    rt: &R,
    alloc: Global,
    words: &[String],
    shelf: &mut H,
    out: &mut K,
) -> Status
    ensures prints { Prints (H.files shelf.old) (H.files shelf.new) (H.read_faults shelf.old) (H.read_faults shelf.new) (texts words.now) result
        (K.written out.old) (K.written out.new) }
    ensures write_fault { result ≡ Status.WriteFault →
        Rose (H.write_faults shelf.old) (H.write_faults shelf.new) ⊎ Rose (K.faults out.old) (K.faults out.new) }
    ensures read_faults { H.read_faults shelf.old ≤ H.read_faults shelf.new }
    ensures write_faults { H.write_faults shelf.old ≤ H.write_faults shelf.new }
    ensures faults { K.faults out.old ≤ K.faults out.new }
{
    status_law();
    let Ok(told) = answer(rt, alloc, words, shelf) else {
        return Status::NoMemory;
    };
    deliver(alloc, &told, shelf, out)
}

/// Does all that the program does. `words` are those behind the program's name. `rt` is there to check goals in parallel; no
/// clause speaks of it.
pub fn run<R: Threads + Sync, H: Shelf, K: Sink>(
    rt: &R,
    alloc: Global,
    words: &[String],
    shelf: &mut H,
    out: &mut K,
) -> Status
    ensures prints { Prints (H.files shelf.old) (H.files shelf.new) (H.read_faults shelf.old) (H.read_faults shelf.new) (texts words.now) result
        (K.written out.old) (K.written out.new) }
    ensures write_fault { result ≡ Status.WriteFault →
        Rose (H.write_faults shelf.old) (H.write_faults shelf.new) ⊎ Rose (K.faults out.old) (K.faults out.new) }
    ensures read_faults { H.read_faults shelf.old ≤ H.read_faults shelf.new }
    ensures write_faults { H.write_faults shelf.old ≤ H.write_faults shelf.new }
    ensures faults { K.faults out.old ≤ K.faults out.new }
    ensures checked { (file certificate : List ℕ) (jobs : ℕ) → command (texts words.now) ≡ Some (Check file certificate jobs) → result ≡ Status.Fine →
        (line : List ℕ) × ShowsOf (H.files shelf.old) file certificate jobs line × (K.written out.new ≡ grown (K.written out.old) line) }
    ensures verified { (file : List ℕ) (unwind : ℕ) (domain : DomainName) (certificate : Option (List ℕ)) →
        command (texts words.now) ≡ Some (Decide Safety file unwind domain certificate) → (result ≡ Status.Fine) ⊎ (result ≡ Status.Unsafe) →
        (output : List ℕ) × IsTrueOf IsShown (H.files shelf.old) (H.files shelf.new) file certificate result output ×
        (K.written out.new ≡ grown (K.written out.old) output) }
    ensures terminated { (file : List ℕ) (unwind : ℕ) (domain : DomainName) (certificate : Option (List ℕ)) →
        command (texts words.now) ≡ Some (Decide Termination file unwind domain certificate) → result ≡ Status.Fine →
        (output : List ℕ) × IsTrueOf IsEnded (H.files shelf.old) (H.files shelf.new) file certificate Status.Fine output ×
        (K.written out.new ≡ grown (K.written out.old) output) }
{
    checked_law();
    verified_law();
    terminated_law();
    printed(rt, alloc, words, shelf, out)
}
