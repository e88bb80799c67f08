// The sets of nodes; equal sets are shared.
ghost use Rattle.std.specs.Prelude.{◌≡◌, ◌+◌, ◌^◌, ◌≤◌, ◌<◌, ◌++◌, ◌∷◌, [], ℕ, Bool, List, length, IfOk, OnOk, slice_set, slice_index_or};
ghost use Rattle.l2_runs.specs.declared.member.Member.{Member};
ghost use Rattle.l2_code.specs.Sets.{Rises};
ghost use Rattle.l2_inclusions.specs.Rows.{RowsValue, members_at, number_at, AreRows, Grows, Brings};

use crate::members::{is_within, merged, rank};
use l2_bits::List;
use l2_code::PointsTo;
use l2_runs::{Member, index_of};
use std::alloc::{AllocError, Global};
use std::marker::Model;

/// The set of each node: nodes have numbers of sets, and equal sets have one number. 0 is the number of the empty set.
#[derive(Drop)]
pub struct Rows {
    alloc: Global,
    sets: Vec<PointsTo>,
    at: Vec<u32>,
    /// By a hash of members: the number of a set that may have them. No promise rests on it.
    known: Vec<u32>,
}

impl Model for Rows {
    ghost use Rattle.l2_inclusions.specs.Rows.{RowsValue, AreRows};

    ghost Value = { RowsValue };

    ghost view = { λ r. record { sets = r.sets.items; at = r.at.items } };

    ghost invariant = { λ r. AreRows (record { sets = r.sets.items; at = r.at.items }) };
}

const KNOWN: usize = 65_536;

// A number below the length of `known`, by the members.
fn hash(members: &[Member]) -> usize
    ensures { result < 65536 }
{
    let mut hash = members.len() as u64;
    for member in members {
        hash = hash.wrapping_mul(1_000_003).wrapping_add(rank(*member));
    }
    ((hash ^ (hash >> 29)) % 65_536) as usize
}

fn zeros(alloc: Global, count: usize) -> Result<Vec<u32>, AllocError>
    ensures count { IfOk result (λ v. length v.items ≡ count) }
    ensures zero { IfOk result (λ v. (k : ℕ) → slice_index_or v.items k 0 ≡ 0) }
{
    let all = vec![in alloc; 0; count]?;
    Ok(all)
}

fn add_zeros(numbers: &mut Vec<u32>, more: usize) -> Result<(), AllocError>
    ensures same { (n : ℕ) → slice_index_or numbers.new.items n 0 ≡ slice_index_or numbers.old.items n 0 }
    ensures count { OnOk result (length numbers.new.items ≡ length numbers.old.items + more) }
{
    for _ in 0..more {
        numbers.push(0)?;
    }
    Ok(())
}

impl Rows {
    /// Empty sets for so many nodes.
    pub fn new(alloc: Global, nodes: usize) -> Result<Rows, AllocError>
        ensures count { IfOk result (λ r. length r.at ≡ nodes) }
        ensures empty { IfOk result (λ r. (n : ℕ) → number_at r n ≡ 0) }
    {
        let at = zeros(alloc, nodes)?;
        let known = zeros(alloc, KNOWN)?;
        Ok(Rows {
            alloc,
            sets: Vec::new(alloc),
            at,
            known,
        })
    }

    /// What holds of all rows.
    pub fn facts(&self)
        ensures { AreRows self.now }
    {
        let _at = &self.at;
    }

    /// How many nodes there are.
    pub fn nodes(&self) -> usize
        ensures value { result ≡ length self.now.at }
        ensures small { result < 2 ^ 63 }
    {
        self.at.len()
    }

    /// How many sets there are.
    pub fn sets(&self) -> usize
        ensures value { result ≡ length self.now.sets }
        ensures small { result < 2 ^ 32 }
    {
        self.sets.len()
    }

    /// The number of a node's set.
    pub fn number(&self, node: usize) -> u32
        ensures value { result ≡ number_at self.now node }
        ensures bound { result ≤ length self.now.sets }
    {
        if node < self.at.len() {
            self.at[node]
        } else {
            0
        }
    }

    /// The members of the set of this number.
    pub fn members(&self, number: u32) -> &[Member]
        ensures { result.now ≡ members_at self.now.sets number }
    {
        match index_of(number) {
            Some(index) if index < self.sets.len() => self.sets[index].members.as_slice(),
            _ => &[],
        }
    }

    /// Leads a node to a set.
    pub fn assign(&mut self, node: usize, number: u32)
        requires { number ≤ length self.old.sets }
        ensures sets { self.new.sets ≡ self.old.sets }
        ensures at { self.new.at ≡ slice_set self.old.at node number }
    {
        if node < self.at.len() {
            self.at[node] = number;
        }
    }

    /// Takes more nodes, with empty sets.
    pub fn extend(&mut self, more: usize) -> Result<(), AllocError>
        ensures sets { self.new.sets ≡ self.old.sets }
        ensures same { (n : ℕ) → number_at self.new n ≡ number_at self.old n }
        ensures count { OnOk result (length self.new.at ≡ length self.old.at + more) }
    {
        add_zeros(&mut self.at, more)
    }

    /// Lets the nodes from this one on go.
    pub fn shrink(&mut self, nodes: usize)
        ensures sets { self.new.sets ≡ self.old.sets }
        ensures same { (n : ℕ) → n < nodes → number_at self.new n ≡ number_at self.old n }
        ensures none { (n : ℕ) → nodes ≤ n → number_at self.new n ≡ 0 }
    {
        self.at.truncate(nodes);
    }

    /// The sets.
    pub fn into_sets(self) -> Vec<PointsTo>
        ensures { result.items ≡ self.sets }
    {
        let Rows {
            alloc: _,
            sets,
            at: _,
            known: _,
        } = self;
        sets
    }

    // Takes a set that isn't known.
    fn keep(&mut self, members: Vec<Member>) -> Result<u32, AllocError>
        requires { Rises members.items }
        ensures grows { Grows self.old self.new }
        ensures bound { IfOk result (λ k. k ≤ length self.new.sets) }
        ensures value { IfOk result (λ k. members_at self.new.sets k ≡ members.items) }
    {
        if self.sets.len() >= u32::MAX as usize {
            return Err(AllocError);
        }
        self.sets.push(PointsTo {
            members: List::new(members),
        })?;
        Ok(self.sets.len() as u32)
    }

    // The number of a set that is known and equal to this one, or 0.
    fn find(&self, place: usize, members: &[Member]) -> u32
        ensures bound { result ≤ length self.now.sets }
        ensures brings { (m : Member) (b : Bool) → Brings members.now m b → Brings (members_at self.now.sets result) m b }
    {
        if place < self.known.len() {
            let number = self.known[place];
            if number as usize <= self.sets.len() && is_within(self.members(number), members) {
                return number;
            }
        }
        0
    }

    /// The number of the set of these members.
    pub fn add(&mut self, members: Vec<Member>) -> Result<u32, AllocError>
        requires { Rises members.items }
        ensures grows { Grows self.old self.new }
        ensures bound { IfOk result (λ k. k ≤ length self.new.sets) }
        ensures brings { IfOk result (λ k. (m : Member) (b : Bool) → Brings members.items m b → Brings (members_at self.new.sets k) m b) }
    {
        let place = hash(members.as_slice());
        let near = self.find(place, members.as_slice());
        if self.members(near).len() == members.len() {
            return Ok(near);
        }
        let number = self.keep(members)?;
        if place < self.known.len() {
            self.known[place] = number;
        }
        Ok(number)
    }

    /// The number of the set of all members of two.
    pub fn unite(&mut self, a: u32, b: u32) -> Result<u32, AllocError>
        requires first { a ≤ length self.old.sets }
        requires second { b ≤ length self.old.sets }
        ensures grows { Grows self.old self.new }
        ensures bound { IfOk result (λ k. k ≤ length self.new.sets) }
        ensures brings { IfOk result (λ k. (m : Member) (x : Bool) → Brings (members_at self.old.sets a) m x → Brings (members_at self.old.sets b) m x → Brings (members_at self.new.sets k) m x) }
    {
        if a == b || b == 0 {
            return Ok(a);
        }
        if a == 0 {
            return Ok(b);
        }
        let all = merged(self.alloc, self.members(a), self.members(b))?;
        if all.len() == self.members(a).len() {
            return Ok(a);
        }
        if all.len() == self.members(b).len() {
            return Ok(b);
        }
        self.add(all)
    }
}
