ghost use Rattle.std.specs.Prelude.{◌≡◌, suc, IfOk, OnOk, ◌++◌, ◌∷◌, [], map};
ghost use Rattle.l2_gates.specs.Gates.{Pos, T, F, same, negated, start, fresh, and, or, xor, mux, mux_first, mux_second, new_and, new_xor, new_mux, literal_of, literals_of};

use l2_cnf::{ClauseList, Lit};
use std::alloc::{AllocError, Global};
use std::marker::Model;

/// A clause list that gates grow, and how many variables it has. Variable 1 is true. After want of memory it is given up.
#[derive(Drop)]
pub struct Gates {
    clauses: ClauseList,
    variables: u64,
}

impl Model for Gates {
    ghost use Rattle.std.specs.Prelude.{◌≤◌, ◌<◌, ◌^◌, map};
    ghost use Rattle.l2_gates.specs.Gates.{Made, literals_of};

    ghost Value = { Made };

    ghost view = { λ g. record { next = g.variables; clauses = map literals_of g.clauses } };

    ghost invariant = { λ g. (1 ≤ g.variables) × (g.variables < 2 ^ 62) };
}

/// The literal that is true.
fn truth() -> Lit
    ensures { literal_of result ≡ T }
{
    Lit::new(1, true)
}

/// The literal that is false.
fn falsity() -> Lit
    ensures { literal_of result ≡ F }
{
    Lit::new(1, false)
}

/// Whether two literals are one.
fn same(a: Lit, b: Lit) -> bool
    ensures { result ≡ same (literal_of a) (literal_of b) }
{
    a.code() == b.code()
}

fn negated(a: Lit) -> Lit
    ensures { literal_of result ≡ negated (literal_of a) }
{
    a.negated()
}

impl Gates {
    /// Variable 1, and the clause that makes it true.
    pub fn new(alloc: Global) -> Result<Gates, AllocError>
        ensures { IfOk result (λ g. g ≡ start) }
    {
        let mut clauses = ClauseList::new(alloc);
        let truth = truth();
        clauses.push(&[truth])?;
        Ok(Gates {
            clauses,
            variables: 1,
        })
    }

    fn add(&mut self, clause: &[Lit]) -> Result<(), AllocError>
        ensures { OnOk result (self.new ≡ record self.old { clauses = self.old.clauses ++ literals_of clause.now ∷ [] }) }
    {
        self.clauses.push(clause)
    }

    /// The next variable, without a clause.
    pub fn fresh(&mut self) -> Result<Lit, AllocError>
        ensures is { IfOk result (λ l. literal_of l ≡ (fresh self.old).bit) }
        ensures made { OnOk result (self.new ≡ (fresh self.old).made) }
    {
        if self.variables + 1 >= 1 << 62 {
            return Err(AllocError);
        }
        self.variables += 1;
        Ok(Lit::new(self.variables, true))
    }

    fn new_and(&mut self, a: Lit, b: Lit) -> Result<Lit, AllocError>
        ensures is { IfOk result (λ l. literal_of l ≡ (new_and (literal_of a) (literal_of b) self.old).bit) }
        ensures made { OnOk result (self.new ≡ (new_and (literal_of a) (literal_of b) self.old).made) }
    {
        let v = self.fresh()?;
        let w = negated(v);
        self.add(&[w, a])?;
        self.add(&[w, b])?;
        self.add(&[v, negated(a), negated(b)])?;
        Ok(v)
    }

    fn new_xor(&mut self, a: Lit, b: Lit) -> Result<Lit, AllocError>
        ensures is { IfOk result (λ l. literal_of l ≡ (new_xor (literal_of a) (literal_of b) self.old).bit) }
        ensures made { OnOk result (self.new ≡ (new_xor (literal_of a) (literal_of b) self.old).made) }
    {
        let v = self.fresh()?;
        let w = negated(v);
        self.add(&[w, a, b])?;
        self.add(&[w, negated(a), negated(b)])?;
        self.add(&[v, negated(a), b])?;
        self.add(&[v, a, negated(b)])?;
        Ok(v)
    }

    fn new_mux(&mut self, c: Lit, a: Lit, b: Lit) -> Result<Lit, AllocError>
        ensures is { IfOk result (λ l. literal_of l ≡ (new_mux (literal_of c) (literal_of a) (literal_of b) self.old).bit) }
        ensures made { OnOk result (self.new ≡ (new_mux (literal_of c) (literal_of a) (literal_of b) self.old).made) }
    {
        let v = self.fresh()?;
        let w = negated(v);
        self.add(&[negated(c), negated(a), v])?;
        self.add(&[negated(c), a, w])?;
        self.add(&[c, negated(b), v])?;
        self.add(&[c, b, w])?;
        Ok(v)
    }

    /// Where both are true.
    pub fn and(&mut self, a: Lit, b: Lit) -> Result<Lit, AllocError>
        ensures is { IfOk result (λ l. literal_of l ≡ (and (literal_of a) (literal_of b) self.old).bit) }
        ensures made { OnOk result (self.new ≡ (and (literal_of a) (literal_of b) self.old).made) }
    {
        let no = falsity();
        let yes = truth();
        if same(a, no) {
            Ok(no)
        } else if same(b, no) {
            Ok(no)
        } else if same(a, negated(b)) {
            Ok(no)
        } else if same(a, yes) {
            Ok(b)
        } else if same(b, yes) {
            Ok(a)
        } else if same(a, b) {
            Ok(a)
        } else {
            self.new_and(a, b)
        }
    }

    /// Where one is true, or both.
    pub fn or(&mut self, a: Lit, b: Lit) -> Result<Lit, AllocError>
        ensures is { IfOk result (λ l. literal_of l ≡ (or (literal_of a) (literal_of b) self.old).bit) }
        ensures made { OnOk result (self.new ≡ (or (literal_of a) (literal_of b) self.old).made) }
    {
        let neither = self.and(negated(a), negated(b))?;
        Ok(negated(neither))
    }

    /// Where one is true, and not both.
    pub fn xor(&mut self, a: Lit, b: Lit) -> Result<Lit, AllocError>
        ensures is { IfOk result (λ l. literal_of l ≡ (xor (literal_of a) (literal_of b) self.old).bit) }
        ensures made { OnOk result (self.new ≡ (xor (literal_of a) (literal_of b) self.old).made) }
    {
        let no = falsity();
        let yes = truth();
        if same(a, no) {
            Ok(b)
        } else if same(a, yes) {
            Ok(negated(b))
        } else if same(b, no) {
            Ok(a)
        } else if same(b, yes) {
            Ok(negated(a))
        } else if same(a, b) {
            Ok(no)
        } else if same(a, negated(b)) {
            Ok(yes)
        } else {
            self.new_xor(a, b)
        }
    }

    /// `a` where `c` is true, else `b`.
    pub fn mux(&mut self, c: Lit, a: Lit, b: Lit) -> Result<Lit, AllocError>
        ensures is { IfOk result (λ l. literal_of l ≡ (mux (literal_of c) (literal_of a) (literal_of b) self.old).bit) }
        ensures made { OnOk result (self.new ≡ (mux (literal_of c) (literal_of a) (literal_of b) self.old).made) }
    {
        if same(c, truth()) {
            Ok(a)
        } else if same(c, falsity()) {
            Ok(b)
        } else if same(a, b) {
            Ok(a)
        } else {
            self.chosen_first(c, a, b)
        }
    }

    /// `mux` where `c` is no constant and `a` and `b` differ.
    fn chosen_first(&mut self, c: Lit, a: Lit, b: Lit) -> Result<Lit, AllocError>
        ensures is { IfOk result (λ l. literal_of l ≡ (mux_first (literal_of c) (literal_of a) (literal_of b) self.old).bit) }
        ensures made { OnOk result (self.new ≡ (mux_first (literal_of c) (literal_of a) (literal_of b) self.old).made) }
    {
        if same(a, truth()) {
            self.or(c, b)
        } else if same(a, c) {
            self.or(c, b)
        } else if same(a, falsity()) {
            self.and(negated(c), b)
        } else if same(a, negated(c)) {
            self.and(negated(c), b)
        } else {
            self.chosen_second(c, a, b)
        }
    }

    /// `mux` where `a` is neither a constant nor `c` or its negation.
    fn chosen_second(&mut self, c: Lit, a: Lit, b: Lit) -> Result<Lit, AllocError>
        ensures is { IfOk result (λ l. literal_of l ≡ (mux_second (literal_of c) (literal_of a) (literal_of b) self.old).bit) }
        ensures made { OnOk result (self.new ≡ (mux_second (literal_of c) (literal_of a) (literal_of b) self.old).made) }
    {
        if same(b, truth()) {
            self.or(negated(c), a)
        } else if same(b, negated(c)) {
            self.or(negated(c), a)
        } else if same(b, falsity()) {
            self.and(c, a)
        } else if same(b, c) {
            self.and(c, a)
        } else {
            self.new_mux(c, a, b)
        }
    }

    /// How many variables there are.
    pub fn variables(&self) -> u64
        ensures { result ≡ self.now.next }
    {
        self.variables
    }

    /// The clauses.
    pub fn into_clauses(self) -> ClauseList
        ensures { map literals_of result ≡ self.clauses }
    {
        let Gates { clauses, .. } = self;
        clauses
    }
}
