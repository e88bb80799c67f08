ghost use Rattle.std.specs.Prelude.{◌≡◌, ◌⊎◌, ◌≤◌, ◌+◌, ◌↔◌, ℕ, IfOk, IsErr, IsErrOf, IsTrue, MatchOption, false};
ghost use Rattle.l2_kiki.specs.Answers.{IsOpen, IsFirst, IsAnswer};

use crate::decision::{Decision, Mode};
use l2_templates::{Halt, Infer};
use std::alloc::{AllocError, Global};

/// What is answered at this k, where no smaller one has an answer.
fn safety_at<I: Infer>(alloc: Global, engine: &mut I, k: u32) -> Result<Option<Decision>, Halt>
    requires going { I.is_halted engine.old ≡ false }
    requires some { 1 ≤ k }
    requires next { k ≡ I.at engine.old + 1 }
    ensures same { I.problem engine.new ≡ I.problem engine.old }
    ensures ranked { I.is_ranked engine.new ≡ I.is_ranked engine.old }
    ensures at { I.at engine.new ≡ k }
    ensures halted { IsTrue (I.is_halted engine.new) ↔ IsErr result }
    ensures size { IsErrOf result Halt.Size → I.is_too_large (I.problem engine.old) k }
    ensures is { IfOk result (λ r. MatchOption r
        (IsOpen (I.is_too_large (I.problem engine.old)) (I.breaks (I.problem engine.old)) (I.is_break (I.problem engine.old)) (I.is_strongest (I.problem engine.old)) (I.proves_at (I.problem engine.old)) (I.ranks_are (I.problem engine.old)) Mode.Safety k)
        (λ d. (limit : ℕ) → IsFirst (I.is_too_large (I.problem engine.old)) (I.breaks (I.problem engine.old)) (I.is_break (I.problem engine.old)) (I.is_strongest (I.problem engine.old)) (I.proves_at (I.problem engine.old)) (I.ranks_are (I.problem engine.old)) Mode.Safety limit k →
        IsAnswer (I.is_too_large (I.problem engine.old)) (I.breaks (I.problem engine.old)) (I.is_break (I.problem engine.old)) (I.is_strongest (I.problem engine.old)) (I.proves_at (I.problem engine.old)) (I.ranks_are (I.problem engine.old)) Mode.Safety limit d)) }
{
    if let Some(found) = engine.short(alloc, k)? {
        return Ok(Some(Decision::Unsafe { k, found }));
    }
    let point = engine.point(alloc, k)?;
    if engine.proves(alloc, k, &point)? {
        return Ok(Some(Decision::Safe { k, point }));
    }
    Ok(None)
}

/// The same of termination.
fn termination_at<I: Infer>(alloc: Global, engine: &mut I, k: u32) -> Result<Option<Decision>, Halt>
    requires going { I.is_halted engine.old ≡ false }
    requires ranked { IsTrue (I.is_ranked engine.old) }
    requires some { 1 ≤ k }
    requires next { k ≡ I.at engine.old + 1 }
    ensures same { I.problem engine.new ≡ I.problem engine.old }
    ensures ranked { I.is_ranked engine.new ≡ I.is_ranked engine.old }
    ensures at { I.at engine.new ≡ k }
    ensures halted { IsTrue (I.is_halted engine.new) ↔ IsErr result }
    ensures size { IsErrOf result Halt.Size → I.is_too_large (I.problem engine.old) k }
    ensures is { IfOk result (λ r. MatchOption r
        (IsOpen (I.is_too_large (I.problem engine.old)) (I.breaks (I.problem engine.old)) (I.is_break (I.problem engine.old)) (I.is_strongest (I.problem engine.old)) (I.proves_at (I.problem engine.old)) (I.ranks_are (I.problem engine.old)) Mode.Termination k)
        (λ d. (limit : ℕ) → IsFirst (I.is_too_large (I.problem engine.old)) (I.breaks (I.problem engine.old)) (I.is_break (I.problem engine.old)) (I.is_strongest (I.problem engine.old)) (I.proves_at (I.problem engine.old)) (I.ranks_are (I.problem engine.old)) Mode.Termination limit k →
        IsAnswer (I.is_too_large (I.problem engine.old)) (I.breaks (I.problem engine.old)) (I.is_break (I.problem engine.old)) (I.is_strongest (I.problem engine.old)) (I.proves_at (I.problem engine.old)) (I.ranks_are (I.problem engine.old)) Mode.Termination limit d)) }
{
    let point = engine.point(alloc, k)?;
    match engine.ranks(alloc, k, &point)? {
        Some(ranks) => Ok(Some(Decision::Terminating { k, point, ranks })),
        None => Ok(None),
    }
}

/// The same in both modes.
fn answer_at<I: Infer>(
    alloc: Global,
    engine: &mut I,
    k: u32,
    mode: Mode,
) -> Result<Option<Decision>, Halt>
    requires going { I.is_halted engine.old ≡ false }
    requires ranked { mode ≡ Mode.Termination → IsTrue (I.is_ranked engine.old) }
    requires some { 1 ≤ k }
    requires next { k ≡ I.at engine.old + 1 }
    ensures same { I.problem engine.new ≡ I.problem engine.old }
    ensures ranked { I.is_ranked engine.new ≡ I.is_ranked engine.old }
    ensures at { I.at engine.new ≡ k }
    ensures halted { IsTrue (I.is_halted engine.new) ↔ IsErr result }
    ensures size { IsErrOf result Halt.Size → I.is_too_large (I.problem engine.old) k }
    ensures is { IfOk result (λ r. MatchOption r
        (IsOpen (I.is_too_large (I.problem engine.old)) (I.breaks (I.problem engine.old)) (I.is_break (I.problem engine.old)) (I.is_strongest (I.problem engine.old)) (I.proves_at (I.problem engine.old)) (I.ranks_are (I.problem engine.old)) mode k)
        (λ d. (limit : ℕ) → IsFirst (I.is_too_large (I.problem engine.old)) (I.breaks (I.problem engine.old)) (I.is_break (I.problem engine.old)) (I.is_strongest (I.problem engine.old)) (I.proves_at (I.problem engine.old)) (I.ranks_are (I.problem engine.old)) mode limit k →
        IsAnswer (I.is_too_large (I.problem engine.old)) (I.breaks (I.problem engine.old)) (I.is_break (I.problem engine.old)) (I.is_strongest (I.problem engine.old)) (I.proves_at (I.problem engine.old)) (I.ranks_are (I.problem engine.old)) mode limit d)) }
{
    match mode {
        Mode::Safety => safety_at(alloc, engine, k),
        Mode::Termination => termination_at(alloc, engine, k),
    }
}

/// The first k up to the limit with an answer, and the answer.
pub fn decide<I: Infer>(
    alloc: Global,
    engine: &mut I,
    limit: u32,
    mode: Mode,
) -> Result<Decision, AllocError>
    requires new { I.at engine.old ≡ 0 }
    requires going { I.is_halted engine.old ≡ false }
    requires ranked { mode ≡ Mode.Termination → IsTrue (I.is_ranked engine.old) }
    requires some { 1 ≤ limit }
    ensures is { IfOk result (λ d. IsAnswer (I.is_too_large (I.problem engine.old)) (I.breaks (I.problem engine.old)) (I.is_break (I.problem engine.old)) (I.is_strongest (I.problem engine.old)) (I.proves_at (I.problem engine.old)) (I.ranks_are (I.problem engine.old)) mode limit d) }
    ensures same { I.problem engine.new ≡ I.problem engine.old }
{
    let mut k = 0;
    while k < limit {
        k += 1;
        match answer_at(alloc, engine, k, mode) {
            Ok(Some(decision)) => return Ok(decision),
            Ok(None) => {}
            Err(Halt::Size) => return Ok(Decision::Size { k }),
            Err(Halt::NoMemory) => return Err(AllocError),
        }
    }
    Ok(Decision::Unwind { k: limit })
}
