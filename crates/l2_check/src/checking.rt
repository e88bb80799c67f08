ghost use Rattle.std.specs.Prelude.{◌≡◌, ◌≢◌, ◌≤◌, ◌<◌, false, true, IfOk, IfErr, OnOk, IsErrOf, length, option_map};
ghost use Rattle.l2_cnf.specs.Logic.{AllWithin};
ghost use Rattle.l2_program.specs.Programs.{program_tree};
ghost use Rattle.l2_code.specs.Trees.{code_of};
ghost use Rattle.l2_code.specs.Sets.{AllRise, family};
ghost use Rattle.l2_cert.specs.Certificate.{InGrammar};
ghost use Rattle.l2_derivations.specs.Goals.{AllHold};
ghost use Rattle.l2_fitting.specs.Fitting.{NamesFit, IsBadName};
ghost use Rattle.l2_front.specs.Codes.{BelongTo};
ghost use Rattle.l2_check.specs.Accepting.{Accepts, IsFailed, IsPassed, IsRefusal, ranks_of};
ghost use Rattle.l2_check.specs.Verdict.{IsTrue};
ghost use Rattle.l2_check.specs.Made.{AreMade, IsStepError, problem_with};

use crate::laws::{accepted_is_true, refused_is_not_accepted};
use l2_cert::{Cert, CertKind};
use l2_code::{Code, Sets};
use l2_derivations::{Gate, GoalError as DerivationError, NoGate, Problem, check_goals};
use l2_fitting::{NameError, check_names};
use l2_front::Loaded;
use l2_goals::{GoalError, Goals, goals_of};
use l2_templates::Ranks;
use std::alloc::Global;
use std::marker::{Send, Sync};
use std::thread::Threads;
use thiserror::Error;

/// What an accepted certificate says.
#[derive(Clone, Copy, Debug, PartialEq, Eq)]
pub struct Accepted {
    pub kind: CertKind,
    pub k: u32,
    pub overflow: bool,
}

/// Why a certificate isn't accepted. The causes come in this order.
#[derive(Clone, Copy, Debug, PartialEq, Eq, Error)]
pub enum CheckError {
    /// The first line that names what the program doesn't have, counted from 1.
    #[error("line {line} names what the program doesn't have")]
    BadName { line: u64 },
    /// The program's code with the certificate's copies and rows weighs more than 65,536.
    #[error("the code is too large")]
    Size,
    #[error("the certificate has {have} goals, and the program {want}")]
    WrongGoals { have: u64, want: u64 },
    /// This step of this goal isn't accepted. Both are counted from 1.
    #[error("step {step} of goal {goal} isn't accepted")]
    BadStep { goal: u64, step: u64 },
    /// The last step of this goal isn't the empty clause.
    #[error("goal {goal} isn't closed")]
    Unclosed { goal: u64 },
    #[error("no memory left")]
    NoMemory,
}

/// The rankings of a certificate of termination.
fn ranks_of(cert: &Cert) -> Option<&Ranks>
    ensures { option_map (λ r. r.now) result ≡ ranks_of cert.now }
{
    match cert.kind {
        CertKind::Safe => None,
        CertKind::Terminating => Some(&cert.ranks),
    }
}

/// The formulas of the goals at the certificate's point.
fn formulas_of(alloc: Global, code: &Code, sets: &Sets, cert: &Cert) -> Result<Goals, CheckError>
    requires { AllRise sets.now.sets }
    ensures ok { IfOk result (λ g. AreMade (code_of code.now) (family sets.now) cert.now g) }
    ensures bad { IfErr result (λ e. IsFailed (code_of code.now) (family sets.now) cert.now e) }
{
    match goals_of(alloc, code, sets, cert.k, &cert.point, ranks_of(cert)) {
        Ok(goals) => Ok(goals),
        Err(GoalError::TooLarge) => Err(CheckError::Size),
        Err(GoalError::NoMemory) => Err(CheckError::NoMemory),
    }
}

/// Whether each goal is refuted by its steps.
fn check_steps<R: Threads + Sync, G: Gate + Sync>(
    rt: &R,
    alloc: Global,
    goals: &Goals,
    cert: &Cert,
    jobs: u32,
    gate: &G,
) -> Result<(), CheckError>
    requires base { AllWithin goals.now.variables goals.now.base }
    requires last { AllWithin goals.now.variables goals.now.last }
    requires counted { length goals.now.last ≡ length cert.now.goals }
    ensures ok { OnOk result (AllHold (problem_with goals.now cert.now) 0 (length cert.now.goals)) }
    ensures bad { IfErr result (λ e. IsStepError (problem_with goals.now cert.now) e) }
{
    let problem = Problem {
        base: &goals.base,
        variables: goals.variables,
        last: &goals.last,
        steps: cert.goals.as_slice(),
    };
    match check_goals(rt, alloc, problem, jobs, gate) {
        Ok(()) => Ok(()),
        Err(DerivationError::BadStep { goal, step }) => Err(CheckError::BadStep { goal, step }),
        Err(DerivationError::Unclosed { goal }) => Err(CheckError::Unclosed { goal }),
        Err(DerivationError::NoMemory) => Err(CheckError::NoMemory),
    }
}

/// Whether the certificate's goals are those of the code at its point, and each is refuted.
fn check_code<R: Threads + Sync, G: Gate + Sync>(
    rt: &R,
    alloc: Global,
    code: &Code,
    sets: &Sets,
    cert: &Cert,
    jobs: u32,
    gate: &G,
) -> Result<(), CheckError>
    requires { AllRise sets.now.sets }
    ensures ok { OnOk result (IsPassed (code_of code.now) (family sets.now) cert.now) }
    ensures bad { IfErr result (λ e. IsFailed (code_of code.now) (family sets.now) cert.now e) }
{
    let goals = formulas_of(alloc, code, sets, cert)?;
    let have = cert.goals.as_slice().len() as u64;
    let want = goals.last.len();
    if have != want {
        return Err(CheckError::WrongGoals { have, want });
    }
    check_steps(rt, alloc, &goals, cert, jobs, gate)
}

/// Whether the certificate's lines fit the program.
fn fit(loaded: &Loaded, cert: &Cert) -> Result<(), CheckError>
    ensures ok { OnOk result (NamesFit (program_tree loaded.now.program) cert.now) }
    ensures bad { IfErr result (λ e. IsRefusal (program_tree loaded.now.program) cert.now e) }
{
    match check_names(&loaded.program, cert) {
        Ok(()) => Ok(()),
        Err(NameError::BadName { line }) => Err(CheckError::BadName { line }),
        Err(NameError::NoMemory) => Err(CheckError::NoMemory),
    }
}

/// Whether the goals of a certificate that fits the program are refuted.
fn check_loaded<R: Threads + Sync, G: Gate + Sync>(
    rt: &R,
    alloc: Global,
    loaded: &Loaded,
    cert: &Cert,
    jobs: u32,
    gate: &G,
) -> Result<(), CheckError>
    requires { NamesFit (program_tree loaded.now.program) cert.now }
    ensures ok { OnOk result (Accepts (program_tree loaded.now.program) cert.now) }
    ensures bad { IfErr result (λ e. IsRefusal (program_tree loaded.now.program) cert.now e) }
{
    loaded.whole();
    match &loaded.code {
        Some(code) => check_code(rt, alloc, code, &loaded.sets, cert, jobs, gate),
        None => Err(CheckError::Size),
    }
}

/// Whether a certificate is accepted for a program, in at most so many runs of goals at once, each goal behind a gate. The answer
/// doesn't depend on their number. The program has no checks of overflow, and the certificate asks for none.
pub fn check_at<R: Threads + Sync, G: Gate + Sync>(
    rt: &R,
    alloc: Global,
    loaded: &Loaded,
    cert: &Cert,
    jobs: u32,
    gate: &G,
) -> Result<Accepted, CheckError>
    requires spelt { InGrammar cert.now }
    requires plain { cert.now.overflow ≡ false }
    ensures ok { OnOk result (Accepts (program_tree loaded.now.program) cert.now) }
    ensures accepted { IfOk result (λ a. (a.kind ≡ cert.now.kind) × (a.k ≡ cert.now.k) × (a.overflow ≡ cert.now.overflow)) }
    ensures verdict { OnOk result (IsTrue (program_tree loaded.now.program) cert.now) }
    ensures refused { IfErr result (λ e. IsRefusal (program_tree loaded.now.program) cert.now e) }
    ensures exactly { IfErr result (λ e. e ≢ CheckError.NoMemory → ¬ Accepts (program_tree loaded.now.program) cert.now) }
{
    loaded.whole();
    refused_is_not_accepted();
    accepted_is_true();
    fit(loaded, cert)?;
    check_loaded(rt, alloc, loaded, cert, jobs, gate)?;
    Ok(Accepted {
        kind: cert.kind,
        k: cert.k,
        overflow: cert.overflow,
    })
}

/// Whether a certificate is accepted for a program, in at most so many runs of goals at once. The answer doesn't depend on their
/// number. The program has no checks of overflow, and the certificate asks for none.
pub fn check<R: Threads + Sync>(
    rt: &R,
    alloc: Global,
    loaded: &Loaded,
    cert: &Cert,
    jobs: u32,
) -> Result<Accepted, CheckError>
    requires spelt { InGrammar cert.now }
    requires plain { cert.now.overflow ≡ false }
    ensures ok { OnOk result (Accepts (program_tree loaded.now.program) cert.now) }
    ensures accepted { IfOk result (λ a. (a.kind ≡ cert.now.kind) × (a.k ≡ cert.now.k) × (a.overflow ≡ cert.now.overflow)) }
    ensures verdict { OnOk result (IsTrue (program_tree loaded.now.program) cert.now) }
    ensures refused { IfErr result (λ e. IsRefusal (program_tree loaded.now.program) cert.now e) }
    ensures exactly { IfErr result (λ e. e ≢ CheckError.NoMemory → ¬ Accepts (program_tree loaded.now.program) cert.now) }
{
    check_at(rt, alloc, loaded, cert, jobs, &NoGate)
}
