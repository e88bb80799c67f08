ghost use Rattle.std.specs.Prelude.{◌≡◌, ◌<◌, IfOk, length, slice_get, slice_index_or, slice_set, true};
ghost use Rattle.l2_strategy.specs.Places.{at_bottom, spot_point};

use l2_templates::{Form, LoopPoint, RowList};
use std::alloc::{AllocError, Global};
use std::marker::Model;

/// Of a loop: its forms, for each row an index into the bounds, behind the last of which there is none, and whether some run
/// ended a turn.
#[derive(Debug, Drop)]
pub struct Place {
    forms: Vec<Form>,
    indexes: Vec<usize>,
    /// For each row how often it rose by one index alone since it last rose by more. What is found doesn't depend on it.
    single: Vec<u32>,
    reached: bool,
}

impl Model for Place {
    ghost use Rattle.l2_strategy.specs.Places.{Spot};

    ghost Value = { Spot };

    ghost view = { λ a. record { forms = a.forms.items; indexes = a.indexes.items; reached = a.reached } };
}

/// Whether a row that so often rose by one index is likely to do so once more. From time to time it isn't said to, so that what rises
/// far is found out: where the number is 0 or a power of two.
fn is_slow(single: u32) -> bool {
    single > 0 && single & (single - 1) != 0
}

fn bound_at(bounds: &[i128], i: usize) -> Option<i128>
    ensures { result ≡ slice_get bounds.now i }
{
    bounds.get(i).copied()
}

impl Place {
    /// At Bottom, with the least bounds.
    pub fn new(alloc: Global, forms: &[Form]) -> Result<Place, AllocError>
        ensures { IfOk result (λ s. s ≡ at_bottom forms.now) }
    {
        let forms = Vec::from_slice(alloc, forms)?;
        let mut indexes = Vec::new(alloc);
        indexes.resize(forms.len(), 0)?;
        let mut single = Vec::new(alloc);
        single.resize(forms.len(), 0)?;
        Ok(Place {
            forms,
            indexes,
            single,
            reached: false,
        })
    }

    pub fn is_reached(&self) -> bool
        ensures { result ≡ self.now.reached }
    {
        self.reached
    }

    /// What is known of the loop.
    pub fn point(&self, alloc: Global, bounds: &[i128]) -> Result<LoopPoint, AllocError>
        requires { length self.now.indexes ≡ length self.now.forms }
        ensures { IfOk result (λ q. q ≡ spot_point bounds.now self.now) }
    {
        if !self.reached {
            return Ok(LoopPoint::Bottom);
        }
        let mut rows = RowList::new(alloc);
        for i in 0..self.forms.len() {
            let form = self.forms[i];
            let bound = bound_at(bounds, self.indexes[i]);
            rows.push(form, bound)?;
        }
        Ok(LoopPoint::Rows(rows))
    }

    pub fn index(&self, i: usize) -> usize
        requires { i < length self.now.indexes }
        ensures { result ≡ slice_index_or self.now.indexes i 0 }
    {
        self.indexes[i]
    }

    /// Whether a row is likely to rise by one index alone.
    pub fn is_slow(&self, i: usize) -> bool {
        match self.single.get(i) {
            Some(single) => is_slow(*single),
            None => false,
        }
    }

    pub fn reach(&mut self)
        ensures { self.new ≡ record self.old { reached = true } }
    {
        self.reached = true;
    }

    /// Notes by how much a row rises.
    fn note(&mut self, i: usize, index: usize)
        ensures { self.new ≡ self.old }
    {
        if i >= self.single.len() || i >= self.indexes.len() {
            return;
        }
        let from = self.indexes[i];
        self.single[i] = if from < index && index - from == 1 {
            self.single[i].saturating_add(1)
        } else {
            0
        };
    }

    pub fn raise(&mut self, i: usize, index: usize)
        requires { i < length self.old.indexes }
        ensures { self.new ≡ record self.old { indexes = slice_set self.old.indexes i index } }
    {
        self.note(i, index);
        self.indexes[i] = index;
    }
}
