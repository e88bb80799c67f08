ghost use Rattle.std.specs.Prelude.{◌≡◌, ◌≤◌, ◌<◌, ◌↔◌, ◌^◌, ◌++◌, [], ◌∷◌, ℕ, Bool, true, false, List, length, slice_index_or, IfOk, IsTrue, MatchOption};
ghost use Rattle.l2_templates.specs.Forms.{form_at};
ghost use Rattle.l2_rank.specs.Greedy.{AreRanks, IsFirstServing, IsGreedy, IsStuck, NoneServes, Serves, candidates_of};
ghost use Rattle.l2_rank.specs.Search.{AreMarked};

use crate::turns::Turns;
use l2_program::LoopInfo;
use l2_templates::{Domain, Form, Octagons, Point, Ranks};
use std::alloc::{AllocError, Global};

/// Whether a form rises on none of the turns on which the others keep their values, and falls on one.
fn serves<T: Turns>(
    alloc: Global,
    engine: &mut T,
    point: &Point,
    at: u32,
    list: &[Form],
    form: Form,
) -> Result<bool, AllocError>
    ensures same { T.problem engine.new ≡ T.problem engine.old }
    ensures is { IfOk result (λ b. IsTrue b ↔ Serves (T.moves (T.problem engine.old) point.now at) list.now form) }
{
    if engine.turn(alloc, point, at, list, form, true)? {
        return Ok(false);
    }
    engine.turn(alloc, point, at, list, form, false)
}

/// The index of the first candidate that serves. What stands in the list isn't asked.
fn first_serving<T: Turns>(
    alloc: Global,
    engine: &mut T,
    point: &Point,
    at: u32,
    list: &[Form],
    candidates: &[Form],
    used: &[bool],
) -> Result<Option<usize>, AllocError>
    requires { AreMarked candidates.now list.now used.now }
    ensures same { T.problem engine.new ≡ T.problem engine.old }
    ensures is { IfOk result (λ r. MatchOption r
        (NoneServes (T.moves (T.problem engine.old) point.now at) list.now candidates.now)
        (λ i. (i < length candidates.now) × (slice_index_or used.now i false ≡ false)
        × IsFirstServing (T.moves (T.problem engine.old) point.now at) list.now candidates.now (form_at candidates.now i))) }
{
    for i in 0..candidates.len() {
        if !used[i] && serves(alloc, engine, point, at, list, candidates[i])? {
            return Ok(Some(i));
        }
    }
    Ok(None)
}

fn form_of(forms: &[Form], i: usize) -> Form
    requires { i < length forms.now }
    ensures { result ≡ form_at forms.now i }
{
    forms[i]
}

/// The greedy list of a loop. There is none where turns are left and no candidate serves.
fn list_of<T: Turns>(
    alloc: Global,
    engine: &mut T,
    point: &Point,
    at: u32,
    candidates: &[Form],
) -> Result<Option<Vec<Form>>, AllocError>
    ensures same { T.problem engine.new ≡ T.problem engine.old }
    ensures is { IfOk result (λ r. MatchOption r
        ((fs : List Form) × IsStuck (T.moves (T.problem engine.old) point.now at) (T.stays (T.problem engine.old) point.now at) candidates.now [] fs)
        (λ list. IsGreedy (T.moves (T.problem engine.old) point.now at) (T.stays (T.problem engine.old) point.now at) candidates.now [] list.items)) }
{
    let mut list = Vec::new(alloc);
    let mut used = vec![in alloc; false; candidates.len()]?;
    while engine.stay(alloc, point, at, list.as_slice())? {
        match first_serving(
            alloc,
            engine,
            point,
            at,
            list.as_slice(),
            candidates,
            used.as_slice(),
        )? {
            None => return Ok(None),
            Some(i) => {
                let form = form_of(candidates, i);
                list.push(form)?;
                used[i] = true;
            }
        }
    }
    Ok(Some(list))
}

/// The forms that may rank a loop, in order.
fn candidates(alloc: Global, info: &LoopInfo) -> Result<Vec<Form>, AllocError>
    ensures { IfOk result (λ forms. forms.items ≡ candidates_of info.now) }
{
    let zero = Vec::from_slice(alloc, &[0])?;
    Octagons::new(zero).rows(alloc, info.vars.as_slice(), info.mods.as_slice())
}

/// The greedy lists of all loops at a point, from loop 1 on: always the first candidate that rises on none of the turns that are
/// left and falls on one, until none is left. `None` exactly where some loop has no such list.
pub fn rankings<T: Turns>(
    alloc: Global,
    engine: &mut T,
    point: &Point,
    loops: &[LoopInfo],
) -> Result<Option<Ranks>, AllocError>
    requires { length loops.now < 2 ^ 32 }
    ensures same { T.problem engine.new ≡ T.problem engine.old }
    ensures is { IfOk result (λ r. AreRanks (T.moves (T.problem engine.old) point.now) (T.stays (T.problem engine.old) point.now) loops.now r) }
{
    let mut ranks = Ranks::new(alloc);
    for i in 0..loops.len() {
        let forms = candidates(alloc, &loops[i])?;
        match list_of(alloc, engine, point, i as u32 + 1, forms.as_slice())? {
            None => return Ok(None),
            Some(list) => ranks.push(list)?,
        }
    }
    Ok(Some(ranks))
}
