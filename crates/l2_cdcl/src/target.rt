ghost use Rattle.std.specs.Prelude.{◌≡◌, ◌≢◌, ◌⊎◌, ◌≤◌, ◌<◌, ◌+◌, ◌-◌, [], ℕ, ℤ, pos, neg_ℤ, nat_abs, List, length, Contains, slice_index_or, MatchOption};
ghost use Rattle.l2_watch.specs.Board.{start_of};
ghost use Rattle.l2_cdcl.specs.Level.{IsPresent};
ghost use Rattle.l2_cdcl.specs.Analysis.{IsFalseBefore};
ghost use Rattle.l2_cdcl.specs.Target.{IsLast, IsTarget};

use l2_cnf::Lit;
use l2_watch::Watch;

/// A literal that is false, and where its negation stands.
#[derive(Clone, Copy)]
struct Fallen {
    place: usize,
    literal: Lit,
}

/// The level to which the search goes back, and the literal to watch beside the one that is asserted there.
#[derive(Clone, Copy)]
pub struct Target {
    pub level: usize,
    pub second: Lit,
}

fn fall_of(watch: &Watch, literal: Lit) -> Fallen
    requires { Contains watch.now.past.literals (neg_ℤ literal) }
    ensures literal { result.literal ≡ literal }
    ensures within { result.place < length watch.now.past.literals }
    ensures here { slice_index_or watch.now.past.literals result.place (pos 0) ≡ neg_ℤ literal }
{
    Fallen {
        place: watch.place(literal.negated()),
        literal,
    }
}

// The one that stands later.
fn later(a: Fallen, b: Fallen) -> Fallen
    ensures one { (result ≡ a) ⊎ (result ≡ b) }
    ensures first { a.place ≤ result.place }
    ensures second { b.place ≤ result.place }
{
    if a.place < b.place { b } else { a }
}

// The literal that became false last.
fn last_fallen(watch: &Watch, aside: &[Lit]) -> Fallen
    requires some { 0 < length aside.now }
    requires false_ones { (m : ℤ) → Contains aside.now m → Contains watch.now.past.literals (neg_ℤ m) }
    ensures { IsLast watch.now.past.literals aside.now result.place result.literal }
{
    let mut last = fall_of(watch, aside[0]);
    for literal in aside {
        last = later(last, fall_of(watch, *literal));
    }
    last
}

// How many levels were opened up to a place.
fn level_of(watch: &Watch, place: usize) -> usize
    ensures most { result ≤ length watch.now.levels }
    ensures above { result < length watch.now.levels → place < start_of watch.now.levels result }
    ensures below { (j : ℕ) → j < result → start_of watch.now.levels j ≤ place }
{
    watch.facts();
    let mut level = watch.levels();
    while level > 0 && watch.start_of(level - 1) > place {
        level -= 1;
    }
    level
}

/// Where the clause of what was put aside and of u is asserting.
pub fn aim(watch: &Watch, start: usize, aside: &[Lit], u: Lit) -> Target
    requires level { IsPresent watch.now 0 start }
    requires below { (m : ℤ) → Contains aside.now m → IsFalseBefore watch.now.past.literals start m }
    ensures { IsTarget watch.now.past.literals watch.now.levels aside.now u result.level result.second }
{
    watch.facts();
    if aside.is_empty() {
        return Target {
            level: 0,
            second: u,
        };
    }
    let last = last_fallen(watch, aside);
    Target {
        level: level_of(watch, last.place),
        second: last.literal,
    }
}
