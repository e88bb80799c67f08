// The word of one step's name.
ghost use Rattle.std.specs.Prelude.{◌≡◌, ◌-◌, ◌++◌, ◌∷◌, [], map, length, replicate, drop, IfOk, OnOk, if◌then◌else◌};
ghost use Rattle.l2_code.specs.Trees.{code_of};
ghost use Rattle.l2_code.specs.Modes.{types_of};
ghost use Rattle.l2_code.specs.Sets.{family};
ghost use Rattle.l2_ssa.specs.Views.{step_of, flags_of};
ghost use Rattle.l2_gates.specs.Gates.{F, same, fresh, and, or, negated, literal_of, literals_of};
ghost use Rattle.l2_circuits.specs.Words.{choose};
ghost use Rattle.l2_number_circuits.specs.Numbers.{truth_of};
ghost use Rattle.l2_pointer_circuits.specs.Flags.{flags_of as pointer_flags};
ghost use Rattle.l2_pointer_circuits.specs.Tests.{live_bit, among_bit};
ghost use Rattle.l2_blast.specs.Words.{literal, word, wide_words, members, bit_word, fresh_word, flag_literals, picked_word, merged_word, made_word, path_of, blank, unless_dead, word_of};
ghost use Rattle.l2_blast.specs.Sorts.{sort_of, cell_width};
ghost use Rattle.l2_blast.specs.Kept.{setting_of};

use crate::computing::{Place, computed_word};
use crate::fill::Fill;
use crate::member_lists::{SetOf, members};
use crate::sorts::{cell_width, sort_of};
use crate::words::Words;
use l2_bits::Ty;
use l2_circuits::{choose, falsity, negated, truth, truth_word};
use l2_cnf::Lit;
use l2_code::Sets;
use l2_gates::Gates;
use l2_pointer_circuits::{Flag, among_bit, live_bit, pick_word};
use l2_ssa::{AliveStep, AmongStep, LowerStep, MergeStep, PickStep, PointStep, RowStep, Step};
use std::alloc::{AllocError, Global};

fn one_bit(alloc: Global, bit: Lit) -> Result<Vec<Lit>, AllocError>
    ensures { IfOk result (λ w. literals_of w.items ≡ literal_of bit ∷ []) }
{
    let mut word = Vec::new(alloc);
    word.push(bit)?;
    Ok(word)
}

fn is_false(a: Lit) -> bool
    ensures { result ≡ same (literal_of a) F }
{
    a.code() == falsity().code()
}

/// So many new variables, bit 0 first.
fn fresh_word(alloc: Global, gates: &mut Gates, width: usize) -> Result<Vec<Lit>, AllocError>
    ensures bits { IfOk result (λ w. literals_of w.items ≡ (fresh_word width gates.old).bits) }
    ensures made { OnOk result (gates.new ≡ (fresh_word width gates.old).made) }
{
    let mut word = Vec::new(alloc);
    for i in 0..width {
        let bit = gates.fresh()?;
        word.push(bit)?;
    }
    Ok(word)
}

fn fresh_bit(alloc: Global, gates: &mut Gates) -> Result<Vec<Lit>, AllocError>
    ensures bits { IfOk result (λ w. literals_of w.items ≡ (bit_word (fresh gates.old)).bits) }
    ensures made { OnOk result (gates.new ≡ (bit_word (fresh gates.old)).made) }
{
    let bit = gates.fresh()?;
    one_bit(alloc, bit)
}

/// The word 0.
fn blank(alloc: Global, width: usize) -> Result<Vec<Lit>, AllocError>
    ensures { IfOk result (λ w. literals_of w.items ≡ replicate width F) }
{
    let mut word = Vec::new(alloc);
    for i in 0..width {
        word.push(falsity())?;
    }
    Ok(word)
}

fn both(alloc: Global, gates: &mut Gates, a: Lit, b: Lit) -> Result<Vec<Lit>, AllocError>
    ensures bits { IfOk result (λ w. literals_of w.items ≡ (bit_word (and (literal_of a) (literal_of b) gates.old)).bits) }
    ensures made { OnOk result (gates.new ≡ (bit_word (and (literal_of a) (literal_of b) gates.old)).made) }
{
    let bit = gates.and(a, b)?;
    one_bit(alloc, bit)
}

fn either(alloc: Global, gates: &mut Gates, a: Lit, b: Lit) -> Result<Vec<Lit>, AllocError>
    ensures bits { IfOk result (λ w. literals_of w.items ≡ (bit_word (or (literal_of a) (literal_of b) gates.old)).bits) }
    ensures made { OnOk result (gates.new ≡ (bit_word (or (literal_of a) (literal_of b) gates.old)).made) }
{
    let bit = gates.or(a, b)?;
    one_bit(alloc, bit)
}

/// The pointer of a selector and an offset.
fn pointer(alloc: Global, words: &Words, s: &PointStep) -> Result<Vec<Lit>, AllocError>
    ensures { IfOk result (λ w. literals_of w.items ≡ word 17 words.now s.now.selector ++ word 17 words.now s.now.offset) }
{
    let mut pointer = words.word(alloc, 17, s.selector)?;
    let offset = words.word(alloc, 17, s.offset)?;
    pointer.extend_from_slice(&offset)?;
    Ok(pointer)
}

fn among(
    alloc: Global,
    gates: &mut Gates,
    place: &Place,
    s: &AmongStep,
) -> Result<Vec<Lit>, AllocError>
    ensures bits { IfOk result (λ w. literals_of w.items ≡ (bit_word (among_bit (types_of (code_of place.now.code.now)).objects (members (length place.now.code.now.objects) ((family place.now.sets.now).object s.now.object)) (word 17 place.now.words.now s.now.selector) (word 17 place.now.words.now s.now.offset) gates.old)).bits) }
    ensures made { OnOk result (gates.new ≡ (bit_word (among_bit (types_of (code_of place.now.code.now)).objects (members (length place.now.code.now.objects) ((family place.now.sets.now).object s.now.object)) (word 17 place.now.words.now s.now.selector) (word 17 place.now.words.now s.now.offset) gates.old)).made) }
{
    let count = place.code.objects.as_slice().len();
    let set = members(alloc, place.sets, SetOf::Object(s.object), count)?;
    let selector = place.words.word(alloc, 17, s.selector)?;
    let offset = place.words.word(alloc, 17, s.offset)?;
    let bit = among_bit(alloc, gates, place.code, &set, &selector, &offset)?;
    one_bit(alloc, bit)
}

fn flags(alloc: Global, words: &Words, s: &AliveStep) -> Result<Vec<Flag>, AllocError>
    ensures { IfOk result (λ l. pointer_flags l.items ≡ flag_literals words.now (flags_of s.now.flags)) }
{
    let mut list = Vec::new(alloc);
    for flag in s.flags.as_slice() {
        list.push(Flag {
            object: flag.object,
            live: words.literal(flag.live),
        })?;
    }
    Ok(list)
}

fn alive(
    alloc: Global,
    gates: &mut Gates,
    words: &Words,
    s: &AliveStep,
) -> Result<Vec<Lit>, AllocError>
    ensures bits { IfOk result (λ w. literals_of w.items ≡ (truth_of (live_bit (flag_literals words.now (flags_of s.now.flags)) (word 34 words.now s.now.pointer) gates.old)).bits) }
    ensures made { OnOk result (gates.new ≡ (truth_of (live_bit (flag_literals words.now (flags_of s.now.flags)) (word 34 words.now s.now.pointer) gates.old)).made) }
{
    let flags = flags(alloc, words, s)?;
    let pointer = words.word(alloc, 34, s.pointer)?;
    let bit = live_bit(alloc, gates, &flags, &pointer)?;
    truth_word(alloc, bit)
}

fn picked(
    alloc: Global,
    gates: &mut Gates,
    words: &Words,
    s: &PickStep,
) -> Result<Vec<Lit>, AllocError>
    ensures bits { IfOk result (λ w. literals_of w.items ≡ (picked_word words.now s.now.pointer s.now.object s.now.offset s.now.ty s.now.there s.now.elsewhere gates.old).bits) }
    ensures made { OnOk result (gates.new ≡ (picked_word words.now s.now.pointer s.now.object s.now.offset s.now.ty s.now.there s.now.elsewhere gates.old).made) }
{
    let pointer = words.word(alloc, 34, s.pointer)?;
    let there = words.word(alloc, cell_width(s.ty), s.there)?;
    let elsewhere = words.word(alloc, cell_width(s.ty), s.elsewhere)?;
    pick_word(
        alloc, gates, s.object, s.offset, &pointer, &there, &elsewhere,
    )
}

fn chosen(
    alloc: Global,
    gates: &mut Gates,
    words: &Words,
    s: &MergeStep,
    entry: Lit,
) -> Result<Vec<Lit>, AllocError>
    ensures bits { IfOk result (λ w. literals_of w.items ≡ (choose (literal_of entry) (word (cell_width s.now.ty) words.now s.now.brought) (word (cell_width s.now.ty) words.now s.now.own) gates.old).bits) }
    ensures made { OnOk result (gates.new ≡ (choose (literal_of entry) (word (cell_width s.now.ty) words.now s.now.brought) (word (cell_width s.now.ty) words.now s.now.own) gates.old).made) }
{
    let brought = words.word(alloc, cell_width(s.ty), s.brought)?;
    let own = words.word(alloc, cell_width(s.ty), s.own)?;
    choose(alloc, gates, entry, &brought, &own)
}

fn merged(
    alloc: Global,
    gates: &mut Gates,
    words: &Words,
    s: &MergeStep,
) -> Result<Vec<Lit>, AllocError>
    ensures bits { IfOk result (λ w. literals_of w.items ≡ (merged_word (literal words.now s.now.path) (literal words.now s.now.entry) (word (cell_width s.now.ty) words.now s.now.brought) (word (cell_width s.now.ty) words.now s.now.own) gates.old).bits) }
    ensures made { OnOk result (gates.new ≡ (merged_word (literal words.now s.now.path) (literal words.now s.now.entry) (word (cell_width s.now.ty) words.now s.now.brought) (word (cell_width s.now.ty) words.now s.now.own) gates.old).made) }
{
    let entry = words.literal(s.entry);
    let path = words.literal(s.path);
    if is_false(entry) {
        words.word(alloc, cell_width(s.ty), s.own)
    } else if is_false(path) {
        words.word(alloc, cell_width(s.ty), s.brought)
    } else {
        chosen(alloc, gates, words, s, entry)
    }
}

fn row<F: Fill>(
    alloc: Global,
    gates: &mut Gates,
    fill: &F,
    words: &Words,
    s: &RowStep,
) -> Result<Vec<Lit>, AllocError>
    ensures bits { IfOk result (λ w. literals_of w.items ≡ (bit_word ((F.fill fill.now).row s.now.of_loop s.now.row (wide_words words.now s.now.vars) gates.old)).bits) }
    ensures made { OnOk result (gates.new ≡ (bit_word ((F.fill fill.now).row s.now.of_loop s.now.row (wide_words words.now s.now.vars) gates.old)).made) }
{
    let vars = words.wide_words(alloc, s.vars.as_slice())?;
    let bit = fill.row(alloc, gates, s.of_loop, s.row, &vars)?;
    one_bit(alloc, bit)
}

fn lower<F: Fill>(
    alloc: Global,
    gates: &mut Gates,
    fill: &F,
    words: &Words,
    s: &LowerStep,
) -> Result<Vec<Lit>, AllocError>
    ensures bits { IfOk result (λ w. literals_of w.items ≡ (bit_word ((F.fill fill.now).lower s.entry.now.of_loop (wide_words words.now s.entry.now.old) (wide_words words.now s.entry.now.now) gates.old)).bits) }
    ensures made { OnOk result (gates.new ≡ (bit_word ((F.fill fill.now).lower s.entry.now.of_loop (wide_words words.now s.entry.now.old) (wide_words words.now s.entry.now.now) gates.old)).made) }
{
    let old = words.wide_words(alloc, s.old.as_slice())?;
    let now = words.wide_words(alloc, s.now.as_slice())?;
    let bit = fill.lower(alloc, gates, s.of_loop, &old, &now)?;
    one_bit(alloc, bit)
}

/// What a step makes where its path isn't F.
fn made_word<F: Fill>(
    alloc: Global,
    gates: &mut Gates,
    fill: &F,
    place: &Place,
    step: &Step,
) -> Result<Vec<Lit>, AllocError>
    ensures bits { IfOk result (λ w. literals_of w.items ≡ (made_word (setting_of (code_of place.now.code.now) (F.fill fill.now)) (step_of (family place.now.sets.now) step.now) place.now.words.now gates.old).bits) }
    ensures made { OnOk result (gates.new ≡ (made_word (setting_of (code_of place.now.code.now) (F.fill fill.now)) (step_of (family place.now.sets.now) step.now) place.now.words.now gates.old).made) }
{
    let words = place.words;
    match step {
        Step::Choose(_) => fresh_bit(alloc, gates),
        Step::Take(s) => fresh_word(alloc, gates, usize::from(s.ty.width)),
        Step::Half(_) => fresh_word(alloc, gates, 17),
        Step::Point(s) => pointer(alloc, words, s),
        Step::Among(s) => among(alloc, gates, place, s),
        Step::Compute(s) => computed_word(alloc, gates, place, s.what, s.left, s.right),
        Step::Alive(s) => alive(alloc, gates, words, s),
        Step::Pick(s) => picked(alloc, gates, words, s),
        Step::Row(s) => row(alloc, gates, fill, words, s),
        Step::Lower(s) => lower(alloc, gates, fill, words, s),
        Step::Apart(s) => both(
            alloc,
            gates,
            words.literal(s.left),
            negated(words.literal(s.right)),
        ),
        Step::Both(s) => both(alloc, gates, words.literal(s.left), words.literal(s.right)),
        Step::But(s) => both(
            alloc,
            gates,
            words.literal(s.left),
            negated(words.literal(s.right)),
        ),
        Step::Either(s) => either(alloc, gates, words.literal(s.left), words.literal(s.right)),
        Step::Merge(s) => merged(alloc, gates, words, s),
    }
}

/// The path on which a step stands; gates of paths and labels stand on none.
fn path_of(words: &Words, step: &Step, sets: &Sets) -> Lit
    ensures { literal_of result ≡ path_of (step_of (family sets.now) step.now) words.now }
{
    match step {
        Step::Choose(path) => words.literal(**path),
        Step::Take(s) => words.literal(s.path),
        Step::Half(path) => words.literal(**path),
        Step::Point(s) => words.literal(s.path),
        Step::Among(s) => words.literal(s.path),
        Step::Compute(s) => words.literal(s.path),
        Step::Alive(s) => words.literal(s.path),
        Step::Pick(s) => words.literal(s.path),
        Step::Row(s) => words.literal(s.path),
        Step::Lower(s) => words.literal(s.path),
        Step::Apart(s) => words.literal(s.path),
        Step::Both(_) => truth(),
        Step::But(_) => truth(),
        Step::Either(_) => truth(),
        Step::Merge(_) => truth(),
    }
}

/// The word of a step's name; one on a path whose literal is F is passed over.
pub fn word_of<F: Fill>(
    alloc: Global,
    gates: &mut Gates,
    fill: &F,
    place: &Place,
    step: &Step,
) -> Result<Vec<Lit>, AllocError>
    ensures bits { IfOk result (λ w. literals_of w.items ≡ (word_of (setting_of (code_of place.now.code.now) (F.fill fill.now)) (step_of (family place.now.sets.now) step.now) place.now.words.now gates.old).bits) }
    ensures made { OnOk result (gates.new ≡ (word_of (setting_of (code_of place.now.code.now) (F.fill fill.now)) (step_of (family place.now.sets.now) step.now) place.now.words.now gates.old).made) }
{
    if is_false(path_of(place.words, step, place.sets)) {
        blank(alloc, sort_of(step, place.sets).width())
    } else {
        made_word(alloc, gates, fill, place, step)
    }
}
