// Rows and rankings.
ghost use Rattle.std.specs.Prelude.{◌≡◌, ◌<◌, Some, length, slice_get, IfOk, OnOk};
ghost use Rattle.l2_gates.specs.Gates.{literal_of, literals_of};
ghost use Rattle.l2_row_circuits.specs.Rows.{variable_word, signed_word, sum_word, two_words, form_word, bound_bit, row_bit, component_bit, lower_bit};
ghost use Rattle.l2_row_circuits.specs.Words.{words_of};

use l2_circuits::{constant, eq, falsity, lts, negated, sub, sum, truth, zeros};
use l2_cnf::Lit;
use l2_gates::Gates;
use l2_templates::{Form, Row};
use std::alloc::{AllocError, Global};

/// The word of a variable. They are numbered from 1; one that isn't there has no bits.
fn variable_word(words: &[Vec<Lit>], number: u32) -> &[Lit]
    ensures { literals_of result.now ≡ variable_word (words_of words.now) number }
{
    if number == 0 {
        return &[];
    }
    match words.get(number as usize - 1) {
        Some(word) => word.as_slice(),
        None => &[],
    }
}

/// A word, or its negative.
fn signed_word(
    alloc: Global,
    gates: &mut Gates,
    plus: bool,
    a: &[Lit],
) -> Result<Vec<Lit>, AllocError>
    ensures bits { IfOk result (λ w. literals_of w.items ≡ (signed_word plus (literals_of a.now) gates.old).bits) }
    ensures made { OnOk result (gates.new ≡ (signed_word plus (literals_of a.now) gates.old).made) }
{
    if plus {
        let mut word = Vec::new(alloc);
        word.extend_from_slice(a)?;
        Ok(word)
    } else {
        let none = zeros(alloc, a)?;
        let difference = sub(alloc, gates, &none, a)?;
        Ok(difference.bits)
    }
}

fn sum_word(alloc: Global, gates: &mut Gates, a: &[Lit], b: &[Lit]) -> Result<Vec<Lit>, AllocError>
    ensures bits { IfOk result (λ w. literals_of w.items ≡ (sum_word (literals_of a.now) (literals_of b.now) gates.old).bits) }
    ensures made { OnOk result (gates.new ≡ (sum_word (literals_of a.now) (literals_of b.now) gates.old).made) }
{
    let total = sum(alloc, gates, a, b, falsity())?;
    Ok(total.bits)
}

/// The value of a form, of the words of the variables.
pub fn form_word(
    alloc: Global,
    gates: &mut Gates,
    form: &Form,
    words: &[Vec<Lit>],
) -> Result<Vec<Lit>, AllocError>
    ensures bits { IfOk result (λ w. literals_of w.items ≡ (form_word form.now (words_of words.now) gates.old).bits) }
    ensures made { OnOk result (gates.new ≡ (form_word form.now (words_of words.now) gates.old).made) }
{
    let first = signed_word(alloc, gates, form.plus, variable_word(words, form.first))?;
    if form.second == 0 {
        return Ok(first);
    }
    let second = signed_word(
        alloc,
        gates,
        form.second_plus,
        variable_word(words, form.second),
    )?;
    sum_word(alloc, gates, &first, &second)
}

/// Whether a row holds; one without a bound does.
pub fn row_bit(
    alloc: Global,
    gates: &mut Gates,
    row: &Row,
    words: &[Vec<Lit>],
) -> Result<Lit, AllocError>
    ensures is { IfOk result (λ l. literal_of l ≡ (row_bit row.now (words_of words.now) gates.old).bit) }
    ensures made { OnOk result (gates.new ≡ (row_bit row.now (words_of words.now) gates.old).made) }
{
    let value = form_word(alloc, gates, &row.form, words)?;
    match row.bound {
        None => Ok(truth()),
        Some(bound) => {
            let most = constant(alloc, 66, bound)?;
            let above = lts(alloc, gates, &most, &value)?;
            Ok(negated(above))
        }
    }
}

/// One component of a ranking: it is less afterwards, or it is equal and those behind it are lower.
fn component_bit(
    alloc: Global,
    gates: &mut Gates,
    form: &Form,
    before: &[Vec<Lit>],
    after: &[Vec<Lit>],
    low: Lit,
) -> Result<Lit, AllocError>
    ensures is { IfOk result (λ l. literal_of l ≡ (component_bit form.now (words_of before.now) (words_of after.now) (literal_of low) gates.old).bit) }
    ensures made { OnOk result (gates.new ≡ (component_bit form.now (words_of before.now) (words_of after.now) (literal_of low) gates.old).made) }
{
    let x = form_word(alloc, gates, form, after)?;
    let y = form_word(alloc, gates, form, before)?;
    let less = lts(alloc, gates, &x, &y)?;
    let equal = eq(alloc, gates, &x, &y)?;
    let behind = gates.and(equal, low)?;
    gates.or(less, behind)
}

fn form_at(forms: &[Form], i: usize) -> &Form
    requires { i < length forms.now }
    ensures { slice_get forms.now i ≡ Some result.now }
{
    &forms[i]
}

/// Whether a list of ranks is lower afterwards.
pub fn lower_bit(
    alloc: Global,
    gates: &mut Gates,
    forms: &[Form],
    before: &[Vec<Lit>],
    after: &[Vec<Lit>],
) -> Result<Lit, AllocError>
    ensures is { IfOk result (λ l. literal_of l ≡ (lower_bit forms.now (words_of before.now) (words_of after.now) gates.old).bit) }
    ensures made { OnOk result (gates.new ≡ (lower_bit forms.now (words_of before.now) (words_of after.now) gates.old).made) }
{
    let mut low = falsity();
    for i in 0..forms.len() {
        let left = forms.len() - i;
        let form = form_at(forms, left - 1);
        low = component_bit(alloc, gates, form, before, after, low)?;
    }
    Ok(low)
}
