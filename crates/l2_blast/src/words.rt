// The names' words.
ghost use Rattle.std.specs.Prelude.{◌≡◌, ◌++◌, ◌∷◌, [], map, IfOk, OnOk, slice_get, Some, None};
ghost use Rattle.l2_code.specs.Values.{is_true};
ghost use Rattle.l2_gates.specs.Gates.{literal_of, literals_of};
ghost use Rattle.l2_row_circuits.specs.Words.{words_of};
ghost use Rattle.l2_blast.specs.Words.{name, no_name, first, literal, constant_word, word, has_sign, is_signed, wide_word, wide_words};
ghost use Rattle.l2_blast.specs.Kept.{sort_of_kept, named_of, env_of};

use crate::sorts::Sort;
use l2_circuits::{constant, extended, falsity, truth};
use l2_cnf::Lit;
use l2_code::Operand;
use l2_pointer_circuits::pointer_word;
use l2_runs::CellValue;
use std::alloc::{AllocError, Global};
use std::marker::Model;

/// A name's word, bit 0 first.
#[derive(Drop)]
pub struct Entry {
    pub sort: Sort,
    pub bits: Vec<Lit>,
}

/// The words of the names of equations, by their numbers from 0 on.
#[derive(Drop)]
pub struct Words {
    entries: Vec<Entry>,
}

impl Model for Words {
    ghost use Rattle.l2_blast.specs.Words.{Env};
    ghost use Rattle.l2_blast.specs.Kept.{env_of};

    ghost Value = { Env };

    ghost view = { λ a. env_of a.entries.items };
}

/// Whether a value is a number other than 0.
fn is_true(value: CellValue) -> bool
    ensures { result ≡ is_true value }
{
    match value {
        CellValue::Number(number) => number != 0,
        CellValue::Null => false,
        CellValue::Invalid => false,
        CellValue::At { object, offset } => false,
    }
}

fn first(bits: &[Lit]) -> Lit
    ensures { literal_of result ≡ first (literals_of bits.now) }
{
    match bits.first() {
        Some(bit) => *bit,
        None => falsity(),
    }
}

/// A constant's word; a number has so many bits.
fn constant_word(alloc: Global, width: usize, value: CellValue) -> Result<Vec<Lit>, AllocError>
    ensures { IfOk result (λ w. literals_of w.items ≡ constant_word width value) }
{
    match value {
        CellValue::Number(number) => constant(alloc, width, number),
        CellValue::Null => pointer_word(alloc, value),
        CellValue::Invalid => pointer_word(alloc, value),
        CellValue::At { object, offset } => pointer_word(alloc, value),
    }
}

impl Words {
    /// No names yet.
    pub fn new(alloc: Global) -> Words
        ensures { result ≡ [] }
    {
        Words {
            entries: Vec::new(alloc),
        }
    }

    /// A name's word; one that isn't there has no bits.
    pub fn bits(&self, number: u32) -> &[Lit]
        ensures { literals_of result.now ≡ (name self.now number).bits }
    {
        match self.entries.get(number as usize) {
            Some(entry) => entry.bits.as_slice(),
            None => &[],
        }
    }

    fn sort_has_sign(&self, number: u32) -> bool
        ensures { result ≡ has_sign (name self.now number).sort }
    {
        match self.entries.get(number as usize) {
            Some(entry) => entry.sort.has_sign(),
            None => true,
        }
    }

    /// Where an operand is true.
    pub fn literal(&self, a: Operand) -> Lit
        ensures { literal_of result ≡ literal self.now a }
    {
        match a {
            Operand::Constant(value) => { if is_true(value) { truth() } else { falsity() } }
            Operand::Temp(number) => first(self.bits(number)),
        }
    }

    /// An operand's word; a constant number has as many bits as are asked.
    pub fn word(&self, alloc: Global, width: usize, a: Operand) -> Result<Vec<Lit>, AllocError>
        ensures { IfOk result (λ w. literals_of w.items ≡ word width self.now a) }
    {
        match a {
            Operand::Constant(value) => constant_word(alloc, width, value),
            Operand::Temp(number) => {
                let mut bits = Vec::new(alloc);
                bits.extend_from_slice(self.bits(number))?;
                Ok(bits)
            }
        }
    }

    /// Whether an operand's word has a sign; a constant's has.
    pub fn is_signed(&self, a: Operand) -> bool
        ensures { result ≡ is_signed self.now a }
    {
        match a {
            Operand::Constant(value) => true,
            Operand::Temp(number) => self.sort_has_sign(number),
        }
    }

    /// An operand's word as one of so many bits.
    pub fn wide_word(&self, alloc: Global, width: usize, a: Operand) -> Result<Vec<Lit>, AllocError>
        ensures { IfOk result (λ w. literals_of w.items ≡ wide_word width self.now a) }
    {
        let bits = self.word(alloc, 66, a)?;
        extended(alloc, width, self.is_signed(a), &bits)
    }

    /// Operands' words of 66 bits.
    pub fn wide_words(
        &self,
        alloc: Global,
        operands: &[Operand],
    ) -> Result<Vec<Vec<Lit>>, AllocError>
        ensures { IfOk result (λ w. words_of w.items ≡ wide_words self.now operands.now) }
    {
        let mut words = Vec::new(alloc);
        for a in operands {
            let word = self.wide_word(alloc, 66, *a)?;
            words.push(word)?;
        }
        Ok(words)
    }

    /// The next name's word.
    pub fn push(&mut self, sort: Sort, bits: Vec<Lit>) -> Result<(), AllocError>
        ensures { OnOk result (self.new ≡ self.old ++ (record { sort = sort_of_kept sort; bits = literals_of bits.items }) ∷ []) }
    {
        self.entries.push(Entry { sort, bits })?;
        Ok(())
    }
}
