// The objects in scope.
ghost use Rattle.std.specs.Prelude.{◌≡◌, ℕ, ◌-◌, ◌++◌, ◌∷◌, [], ◌<◌, length, take, IfOk};
ghost use Rattle.l2_meaning.specs.Changes.{is_one_of};
ghost use Rattle.l2_mods.specs.Counts.{count_at};

use std::alloc::{AllocError, Global};
use std::marker::Model;

/// The objects in scope, in the order of their declarations.
#[derive(Drop)]
pub struct Scope {
    objects: Vec<u32>,
    /// How often each object stands among them, by its number.
    counts: Vec<usize>,
}

impl Model for Scope {
    ghost use Rattle.std.specs.Prelude.{ℕ, List};
    ghost use Rattle.l2_mods.specs.Counts.{AreCounted};

    ghost Value = { List ℕ };

    ghost view = { λ s. s.objects.items };

    ghost invariant = { λ s. AreCounted s.objects.items s.counts.items };
}

impl Scope {
    pub fn new(alloc: Global) -> Scope
        ensures { result ≡ [] }
    {
        Scope {
            objects: Vec::new(alloc),
            counts: Vec::new(alloc),
        }
    }

    pub fn len(&self) -> usize
        ensures { result ≡ length self.now }
    {
        self.objects.len()
    }

    /// Whether an object is in scope.
    pub fn has(&self, object: u32) -> bool
        ensures { result ≡ is_one_of self.now object }
    {
        count_at(&self.counts, object) != 0
    }

    /// An object is in scope from here on.
    pub fn enter(&mut self, object: u32) -> Result<(), AllocError>
        ensures { IfOk result (λ u. self.new ≡ self.old ++ object ∷ []) }
    {
        grow(&mut self.counts, object)?;
        self.objects.push(object)?;
        self.counts[object as usize] += 1;
        Ok(())
    }

    /// The objects behind the first `count` go out of scope.
    pub fn leave(&mut self, count: usize)
        ensures { self.new ≡ take count self.old }
    {
        while self.objects.len() > count {
            self.drop_last();
        }
    }

    /// The last object goes out of scope.
    fn drop_last(&mut self)
        ensures { self.new ≡ take (length self.old - 1) self.old }
    {
        if let Some(object) = self.objects.pop() {
            self.counts[object as usize] -= 1;
        }
    }
}

/// Makes room for an object's count.
fn grow(counts: &mut Vec<usize>, object: u32) -> Result<(), AllocError>
    ensures room { IfOk result (λ u. object < length counts.new.items) }
    ensures same { (n : ℕ) → count_at counts.new.items n ≡ count_at counts.old.items n }
{
    for _ in counts.len()..object as usize + 1 {
        counts.push(0)?;
    }
    Ok(())
}

/// How often an object is counted.
fn count_at(counts: &[usize], object: u32) -> usize
    ensures { result ≡ count_at counts.now object }
{
    let n = object as usize;
    if n < counts.len() { counts[n] } else { 0 }
}
