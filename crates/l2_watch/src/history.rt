ghost use Rattle.std.specs.Prelude.{◌≡◌, ◌≤◌, ◌<◌, ◌^◌, ◌+◌, ◌-◌, ◌++◌, ◌∷◌, [], ℕ, ℤ, pos, neg_ℤ, nat_abs, List, length, take, IfOk, IsTrue, ◌↔◌, Contains, slice_index_or};
ghost use Rattle.l2_cnf.specs.Trail.{AreOver, AreApart};
ghost use Rattle.l2_watch.specs.Past.{Past, IsPlaced};

use l2_cnf::{Lit, Trail};
use std::alloc::{AllocError, Global};
use std::marker::Model;

/// Literals that are true, in the order in which they became so, each with its reason: 0 where it was decided, else the
/// number of the clause that made it true, the first of which has 1. It takes memory only when it is made.
#[derive(Drop)]
pub struct History {
    trail: Trail,
    truths: Vec<bool>,
    reasons: Vec<u64>,
    places: Vec<u64>,
}

impl Model for History {
    ghost use Rattle.std.specs.Prelude.{length, take};
    ghost use Rattle.l2_watch.specs.Past.{Past, IsPlaced, AreTold};

    ghost Value = { Past };

    ghost view = { λ a. record { literals = a.trail.literals; reasons = take (length a.trail.literals) a.reasons.items; variables = a.trail.variables } };

    ghost invariant = { λ a. (IsPlaced a.trail.literals a.reasons.items a.places.items a.trail.variables)
        × (AreTold a.trail.literals a.truths.items a.trail.variables) };
}

impl History {
    pub fn new(alloc: Global, variables: u64) -> Result<History, AllocError>
        requires { variables < 2 ^ 62 }
        ensures literals { IfOk result (λ h. h.literals ≡ []) }
        ensures variables { IfOk result (λ h. h.variables ≡ variables) }
    {
        let trail = Trail::new(alloc, variables)?;
        let truths = vec![in alloc; false; 2 * variables as usize + 2]?;
        let reasons = vec![in alloc; 0; variables as usize + 1]?;
        let places = vec![in alloc; 0; variables as usize + 1]?;
        Ok(History {
            trail,
            truths,
            reasons,
            places,
        })
    }

    pub fn len(&self) -> usize
        ensures len { result ≡ length self.now.literals }
        ensures most { result ≤ self.now.variables }
        ensures over { AreOver self.now.variables self.now.literals }
        ensures apart { AreApart self.now.literals }
        ensures count { length self.now.reasons ≡ length self.now.literals }
    {
        let _reasons = &self.reasons;
        self.trail.len()
    }

    pub fn get(&self, i: usize) -> Lit
        requires { i < length self.now.literals }
        ensures { result ≡ slice_index_or self.now.literals i (pos 0) }
    {
        self.trail.get(i)
    }

    /// The reason of the literal at an index.
    pub fn reason(&self, i: usize) -> u64
        requires { i < length self.now.literals }
        ensures { result ≡ slice_index_or self.now.reasons i 0 }
    {
        let _len = self.trail.len();
        self.reasons[i]
    }

    /// The index at which a literal that is true stands.
    pub fn place(&self, l: Lit) -> usize
        requires { Contains self.now.literals l }
        ensures within { result < length self.now.literals }
        ensures there { slice_index_or self.now.literals result (pos 0) ≡ l }
    {
        let _len = self.trail.len();
        self.places[l.var() as usize] as usize
    }

    pub fn is_true(&self, l: Lit) -> bool
        requires { nat_abs l ≤ self.now.variables }
        ensures { IsTrue result ↔ Contains self.now.literals l }
    {
        self.truths[l.code() as usize]
    }

    pub fn is_false(&self, l: Lit) -> bool
        requires { nat_abs l ≤ self.now.variables }
        ensures { IsTrue result ↔ Contains self.now.literals (neg_ℤ l) }
    {
        self.truths[l.negated().code() as usize]
    }

    pub fn variables(&self) -> u64
        ensures { result ≡ self.now.variables }
    {
        self.trail.variables()
    }

    pub fn push(&mut self, l: Lit, reason: u64)
        requires over { nat_abs l ≤ self.old.variables }
        requires new { (m : ℤ) → Contains self.old.literals m → nat_abs m ≡ nat_abs l → ⊥ }
        ensures literals { self.new.literals ≡ self.old.literals ++ l ∷ [] }
        ensures reasons { self.new.reasons ≡ self.old.reasons ++ reason ∷ [] }
        ensures variables { self.new.variables ≡ self.old.variables }
    {
        let at = self.trail.len();
        self.reasons[at] = reason;
        self.places[l.var() as usize] = at as u64;
        self.truths[l.code() as usize] = true;
        self.trail.push(l);
    }

    /// Takes the last literal out.
    pub fn pop(&mut self)
        requires { 0 < length self.old.literals }
        ensures literals { self.new.literals ≡ take (length self.old.literals - 1) self.old.literals }
        ensures reasons { self.new.reasons ≡ take (length self.old.literals - 1) self.old.reasons }
        ensures variables { self.new.variables ≡ self.old.variables }
    {
        let last = self.trail.get(self.trail.len() - 1);
        self.truths[last.code() as usize] = false;
        self.trail.pop();
    }

    /// Takes all literals out but the first ones.
    pub fn cut(&mut self, kept: usize)
        requires { kept ≤ length self.old.literals }
        ensures literals { self.new.literals ≡ take kept self.old.literals }
        ensures reasons { self.new.reasons ≡ take kept self.old.reasons }
        ensures variables { self.new.variables ≡ self.old.variables }
    {
        while self.len() > kept {
            self.pop();
        }
    }
}
