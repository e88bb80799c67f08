ghost use Rattle.std.specs.Prelude.{◌≡◌, ◌≢◌, ◌<◌, ◌≤◌, ℤ, neg_ℤ, length, Contains};

use crate::marks::Marks;
use l2_cnf::Lit;
use l2_watch::Watch;
use std::alloc::{AllocError, Global};

/// What is known of the literal of a variable that is false, while a clause is shortened.
#[derive(Clone, Copy)]
enum Note {
    Unknown,
    /// Literals of the clause make it false.
    Redundant,
    /// It wasn't found that they do.
    Needed,
}

/// What was found out about variables for the present clause. No promise rests on it, so each read and write is guarded by a
/// test.
#[derive(Drop)]
pub struct Notes {
    rounds: Vec<u64>,
    redundant: Vec<bool>,
    round: u64,
}

impl Notes {
    pub fn new(alloc: Global) -> Notes {
        Notes {
            rounds: Vec::new(alloc),
            redundant: Vec::new(alloc),
            round: 1,
        }
    }

    /// Takes in the variables up to this one.
    pub fn cover(&mut self, variables: u64) -> Result<(), AllocError> {
        while self.rounds.len() as u64 <= variables {
            self.redundant.push(false)?;
            self.rounds.push(0)?;
        }
        Ok(())
    }

    fn of(&self, var: u64) -> Note {
        let i = var as usize;
        if i >= self.rounds.len() || i >= self.redundant.len() || self.rounds[i] != self.round {
            Note::Unknown
        } else if self.redundant[i] {
            Note::Redundant
        } else {
            Note::Needed
        }
    }

    fn note(&mut self, var: u64, redundant: bool) {
        let i = var as usize;
        if i < self.rounds.len() && i < self.redundant.len() {
            self.rounds[i] = self.round;
            self.redundant[i] = redundant;
        }
    }
}

// Where a search for redundant literals ends: those before `root` are false though nothing was decided, and before `floor` no
// other one is redundant. It goes so deep.
#[derive(Clone, Copy)]
struct Reach {
    root: usize,
    floor: usize,
    depth: u32,
}

// Whether the literal at a place is implied by negations of literals of the clause, which are marked, and of those before `root`.
// The places of all that are found to be so stand among the places then.
#[cycle(redundant)]
fn is_implied(
    watch: &Watch,
    marks: &Marks,
    notes: &mut Notes,
    reach: Reach,
    place: usize,
    places: &mut Vec<usize>,
) -> Result<bool, AllocError>
    requires within { place < length watch.now.past.literals }
    requires room { watch.now.variables < length marks.now }
{
    watch.facts();
    let reason = watch.reason(place);
    if reason == 0 || reach.depth == 0 {
        return Ok(false);
    }
    let next = Reach {
        depth: reach.depth - 1,
        ..reach
    };
    let but = watch.literal(place);
    for literal in watch.clause(reason - 1) {
        if !is_redundant(watch, marks, notes, next, *literal, but, places)? {
            return Ok(false);
        }
    }
    places.push(place)?;
    Ok(true)
}

// Whether a literal that is false is one of the clause, or redundant beside it, or the one to be left out.
#[cycle(redundant)]
fn is_redundant(
    watch: &Watch,
    marks: &Marks,
    notes: &mut Notes,
    reach: Reach,
    literal: Lit,
    but: Lit,
    places: &mut Vec<usize>,
) -> Result<bool, AllocError>
    requires false_one { literal ≢ but → Contains watch.now.past.literals (neg_ℤ literal) }
    requires room { watch.now.variables < length marks.now }
{
    if literal == but {
        return Ok(true);
    }
    watch.facts();
    let var = literal.var();
    let place = watch.place(literal.negated());
    if place < reach.root || marks.is_marked(var) {
        return Ok(true);
    }
    if place < reach.floor {
        return Ok(false);
    }
    match notes.of(var) {
        Note::Redundant => Ok(true),
        Note::Needed => Ok(false),
        Note::Unknown => {
            let redundant = is_implied(watch, marks, notes, reach, place, places)?;
            notes.note(var, redundant);
            Ok(redundant)
        }
    }
}

/// How long chains of implications are looked at.
const DEPTH: u32 = 500;

/// The places of literals that are false because of the clause's others, latest first, and of those by which they are. The
/// literals before `root` are false though nothing was decided; those of the clause are marked.
pub fn redundant_places(
    watch: &Watch,
    marks: &Marks,
    notes: &mut Notes,
    root: usize,
    aside: &[Lit],
    alloc: Global,
) -> Result<Vec<usize>, AllocError>
    requires false_ones { (m : ℤ) → Contains aside.now m → Contains watch.now.past.literals (neg_ℤ m) }
    requires room { watch.now.variables < length marks.now }
{
    notes.round = notes.round.saturating_add(1);
    let mut places = Vec::new(alloc);
    let reach = Reach {
        root,
        floor: first_place(watch, root, aside),
        depth: DEPTH,
    };
    for literal in aside {
        let place = fall_place(watch, *literal);
        if place >= root {
            is_implied(watch, marks, notes, reach, place, &mut places)?;
        }
    }
    places.sort_unstable();
    places.reverse();
    Ok(places)
}

// Where a literal became false.
fn fall_place(watch: &Watch, literal: Lit) -> usize
    requires { Contains watch.now.past.literals (neg_ℤ literal) }
    ensures { result < length watch.now.past.literals }
{
    watch.place(literal.negated())
}

// The first place from `root` on at which one of these literals became false.
fn first_place(watch: &Watch, root: usize, aside: &[Lit]) -> usize
    requires { (m : ℤ) → Contains aside.now m → Contains watch.now.past.literals (neg_ℤ m) }
{
    let mut first = usize::MAX;
    for literal in aside {
        let place = fall_place(watch, *literal);
        if place >= root && place < first {
            first = place;
        }
    }
    first
}
