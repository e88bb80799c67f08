ghost use Rattle.std.specs.Prelude.{◌≡◌, ◌≤◌, ◌<◌, ◌^◌, ◌-◌, ◌++◌, ◌∷◌, [], length, take, OnOk, OnErr, slice_index_or};
ghost use Rattle.l2_cnf.specs.Lists.{cut, AreEnds};

use std::alloc::{AllocError, Global};
use std::marker::Model;

/// A list of lists, all in one run of items. It keeps a number of 8 bytes for each list: where the list ends.
#[derive(Drop)]
pub struct Runs<T> {
    items: Vec<T>,
    ends: Vec<u64>,
}

impl<T> Model for Runs<T> {
    ghost use Rattle.std.specs.Prelude.{ℕ, List, length};
    ghost use Rattle.l2_cnf.specs.Lists.{cut, AreEnds};

    ghost Value = { List (List T) };

    ghost view = { λ a. cut 0 a.ends.items a.items.items };

    ghost invariant = { λ a. AreEnds 0 a.ends.items (length a.items.items) };
}

impl<T: Copy + Drop> Runs<T> {
    pub fn new(alloc: Global) -> Runs<T>
        ensures { result ≡ [] }
    {
        Runs {
            items: Vec::new(alloc),
            ends: Vec::new(alloc),
        }
    }

    pub fn len(&self) -> u64
        ensures len { result ≡ length self.now }
        ensures small { result < 2 ^ 60 }
    {
        self.ends.as_slice().len() as u64
    }

    pub fn push(&mut self, run: &[T]) -> Result<(), AllocError>
        ensures ok { OnOk result (self.new ≡ self.old ++ run.now ∷ []) }
        ensures err { OnErr result (self.new ≡ self.old) }
    {
        let start = self.items.len();
        self.items.extend_from_slice(run)?;
        match self.ends.push(self.items.len() as u64) {
            Ok(()) => Ok(()),
            Err(_) => {
                self.items.truncate(start);
                Err(AllocError)
            }
        }
    }

    /// Takes the last list out.
    pub fn pop(&mut self)
        requires { 0 < length self.old }
        ensures { self.new ≡ take (length self.old - 1) self.old }
    {
        let last = self.ends.len() as u64 - 1;
        let (start, _) = bounds(&self.ends, self.items.len(), last);
        match self.ends.pop() {
            Some(_) => self.items.truncate(start),
            None => unreachable!(),
        }
    }

    pub fn get(&self, i: u64) -> &[T]
        requires { i < length self.now }
        ensures { result.now ≡ slice_index_or self.now i [] }
    {
        part(&self.items, &self.ends, i)
    }
}

// The start and the end of a part.
fn bounds(ends: &[u64], total: usize, i: u64) -> (usize, usize)
    requires ends { AreEnds 0 ends.now total }
    requires within { i < length ends.now }
    ensures start { result.0 ≡ slice_index_or (0 ∷ ends.now) i 0 }
    ensures end { result.1 ≡ slice_index_or ends.now i 0 }
    ensures order { result.0 ≤ result.1 }
    ensures total { result.1 ≤ total }
{
    let start = if i == 0 { 0 } else { ends[i as usize - 1] };
    (start as usize, ends[i as usize] as usize)
}

/// A part of a list that is cut at these ends.
pub fn part<'a, T>(all: &'a [T], ends: &[u64], i: u64) -> &'a [T]
    requires ends { AreEnds 0 ends.now (length all.now) }
    requires within { i < length ends.now }
    ensures { result.now ≡ slice_index_or (cut 0 ends.now all.now) i [] }
{
    let (start, end) = bounds(ends, all.len(), i);
    &all[start..end]
}
