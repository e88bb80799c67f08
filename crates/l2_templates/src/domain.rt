ghost use Rattle.std.specs.Prelude.{◌≡◌, [], ◌∷◌, ◌<◌, ◌≤ℤ◌, ℤ, pos, IfOk, IsTrue, ◌↔◌, List, length};
ghost use Rattle.std.specs.Int.{int_min};
ghost use Rattle.std.proofs.Common.{arith};
ghost use Rattle.l2_templates.specs.declared.form.Form.{Form};
ghost use Rattle.l2_templates.specs.declared.families.Family.{Family};
ghost use Rattle.l2_templates.specs.Domains.{Allows, Rises, meets, row_list};

use crate::families::{Family, row_list, takes};
use crate::form::Form;
use l2_bits::List;
use std::alloc::{AllocError, Global};

/// Which rows a loop has, and which bounds they may take.
pub trait Domain {
    /// The forms.
    ghost family: { Self → Family };

    /// The bounds.
    ghost bounds: { Self → List ℤ };

    /// The forms of a loop, in the order of forms, for its variables and those of them that it modifies, both by
    /// number.
    fn rows(&self, alloc: Global, vars: &[u32], mods: &[u32]) -> Result<Vec<Form>, AllocError>
        ensures { IfOk result (λ forms. forms.items ≡ row_list (family self.now) vars.now mods.now) };

    /// Whether the form is one of the domain's and the bound one of its thresholds.
    fn allows(&self, form: &Form, bound: i128) -> bool
        ensures { IsTrue result ↔ Allows (family self.now) (bounds self.now) form.now bound };

    /// The bounds that rows may take, rising.
    fn thresholds(&self) -> &[i128]
        ensures { result.now ≡ bounds self.now };

    ghost rising: { (d : Self) → Rises (bounds d) };

    /// What allows two bounds of a form allows the smaller.
    ghost meet_law: { (d : Self) (f : Form) (a b : ℤ) → Allows (family d) (bounds d) f a
        → Allows (family d) (bounds d) f b → Allows (family d) (bounds d) f (int_min a b) };
}

fn allows(family: Family, bounds: &[i128], form: &Form, bound: i128) -> bool
    ensures { IsTrue result ↔ Allows family bounds.now form.now bound }
{
    takes(family, form) && bounds.contains(&bound)
}

/// The domain without rows.
#[derive(Clone, Copy, Debug)]
pub struct NoRows;

impl Domain for NoRows {
    ghost family = { λ d. Family.NoRows };

    ghost bounds = { λ d. [] };

    ghost rising = { λ d i j less inside. absurd (Prim.omega arith) };

    ghost meet_law = { λ d f a b. meets Family.NoRows [] f a b };

    fn rows(&self, alloc: Global, vars: &[u32], mods: &[u32]) -> Result<Vec<Form>, AllocError> {
        row_list(alloc, Family::NoRows, vars, mods)
    }

    fn allows(&self, form: &Form, bound: i128) -> bool {
        allows(Family::NoRows, &[], form, bound)
    }

    fn thresholds(&self) -> &[i128] {
        &[]
    }
}

/// Differences of two variables that are at most 0: two of them say that the variables are equal.
#[derive(Clone, Copy, Debug)]
pub struct Equalities;

static ZERO: [i128; 1] = [0];

impl Domain for Equalities {
    ghost family = { λ d. Family.Equalities };

    ghost bounds = { λ d. pos 0 ∷ [] };

    ghost rising = { λ d i j less inside. absurd (Prim.omega arith) };

    ghost meet_law = { λ d f a b. meets Family.Equalities (pos 0 ∷ []) f a b };

    fn rows(&self, alloc: Global, vars: &[u32], mods: &[u32]) -> Result<Vec<Form>, AllocError> {
        row_list(alloc, Family::Equalities, vars, mods)
    }

    fn allows(&self, form: &Form, bound: i128) -> bool {
        allows(Family::Equalities, &ZERO, form, bound)
    }

    fn thresholds(&self) -> &[i128] {
        &ZERO
    }
}

/// One variable with a sign, at most a threshold.
#[derive(Debug, Drop)]
pub struct Intervals {
    thresholds: List<i128>,
    ghost rising: { Rises thresholds },
    ghost some: { 0 < length thresholds },
}

impl Intervals {
    pub fn new(thresholds: Vec<i128>) -> Intervals
        requires rising { Rises thresholds.items }
        requires some { 0 < length thresholds.items }
        ensures { result.thresholds ≡ thresholds.items }
    {
        Intervals {
            thresholds: List::new(thresholds),
        }
    }
}

impl Domain for Intervals {
    ghost family = { λ d. Family.Intervals };

    ghost bounds = { λ d. d.thresholds };

    ghost rising = { λ d. d.rising };

    ghost meet_law = { λ d f a b. meets Family.Intervals d.thresholds f a b };

    fn rows(&self, alloc: Global, vars: &[u32], mods: &[u32]) -> Result<Vec<Form>, AllocError> {
        row_list(alloc, Family::Intervals, vars, mods)
    }

    fn allows(&self, form: &Form, bound: i128) -> bool {
        allows(Family::Intervals, self.thresholds.as_slice(), form, bound)
    }

    fn thresholds(&self) -> &[i128] {
        self.thresholds.as_slice()
    }
}

/// One variable with a sign or a difference of two, at most a threshold.
#[derive(Debug, Drop)]
pub struct Zones {
    thresholds: List<i128>,
    ghost rising: { Rises thresholds },
    ghost some: { 0 < length thresholds },
}

impl Zones {
    pub fn new(thresholds: Vec<i128>) -> Zones
        requires rising { Rises thresholds.items }
        requires some { 0 < length thresholds.items }
        ensures { result.thresholds ≡ thresholds.items }
    {
        Zones {
            thresholds: List::new(thresholds),
        }
    }
}

impl Domain for Zones {
    ghost family = { λ d. Family.Zones };

    ghost bounds = { λ d. d.thresholds };

    ghost rising = { λ d. d.rising };

    ghost meet_law = { λ d f a b. meets Family.Zones d.thresholds f a b };

    fn rows(&self, alloc: Global, vars: &[u32], mods: &[u32]) -> Result<Vec<Form>, AllocError> {
        row_list(alloc, Family::Zones, vars, mods)
    }

    fn allows(&self, form: &Form, bound: i128) -> bool {
        allows(Family::Zones, self.thresholds.as_slice(), form, bound)
    }

    fn thresholds(&self) -> &[i128] {
        self.thresholds.as_slice()
    }
}

/// All forms, at most a threshold.
#[derive(Debug, Drop)]
pub struct Octagons {
    thresholds: List<i128>,
    ghost rising: { Rises thresholds },
    ghost some: { 0 < length thresholds },
}

impl Octagons {
    pub fn new(thresholds: Vec<i128>) -> Octagons
        requires rising { Rises thresholds.items }
        requires some { 0 < length thresholds.items }
        ensures { result.thresholds ≡ thresholds.items }
    {
        Octagons {
            thresholds: List::new(thresholds),
        }
    }
}

impl Domain for Octagons {
    ghost family = { λ d. Family.Octagons };

    ghost bounds = { λ d. d.thresholds };

    ghost rising = { λ d. d.rising };

    ghost meet_law = { λ d f a b. meets Family.Octagons d.thresholds f a b };

    fn rows(&self, alloc: Global, vars: &[u32], mods: &[u32]) -> Result<Vec<Form>, AllocError> {
        row_list(alloc, Family::Octagons, vars, mods)
    }

    fn allows(&self, form: &Form, bound: i128) -> bool {
        allows(Family::Octagons, self.thresholds.as_slice(), form, bound)
    }

    fn thresholds(&self) -> &[i128] {
        self.thresholds.as_slice()
    }
}
