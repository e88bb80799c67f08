ghost use Rattle.std.specs.Prelude.{◌≡◌, ◌≢◌, ◌≤◌, ◌<◌, ◌^◌, ◌∷◌, ◌↔◌, Bool, ℕ, ℤ, List, IsTrue, MatchOption, Some};
ghost use Rattle.std.specs.Fmt.{decimal, signed_decimal};
ghost use Rattle.l2_templates.specs.declared.form.Form.{Form as TheForm};
ghost use Rattle.l2_templates.specs.declared.form.Row.{Row as TheRow};
ghost use Rattle.l2_cert.specs.Cursor.{left};
ghost use Rattle.l2_cert.specs.Words.{Word};
ghost use Rattle.l2_cert.specs.Certificate.{IsBound, IsForm, IsRow, form_words, rank_line, row_line, sign_word};

use crate::words::{Number, Words};
use l2_lines::read_whole;
use l2_templates::{Form, Row};

/// A variable with its sign, and the words behind it.
#[derive(Clone, Copy, Debug)]
struct Signed<'a> {
    plus: bool,
    variable: u32,
    rest: Words<'a>,
}

/// A sign, and the words behind it.
#[derive(Clone, Copy, Debug)]
struct Sign<'a> {
    plus: bool,
    rest: Words<'a>,
}

/// A bound, and the words behind it.
#[derive(Clone, Copy, Debug)]
struct Bound<'a> {
    value: i128,
    rest: Words<'a>,
}

const LEAST_BOUND: i128 = -(1 << 64) - 1;

const MOST_BOUND: i128 = 1 << 64;

/// The number from `least` to `most` that the first word spells.
pub fn between(words: Words<'_>, least: u64, most: u64) -> Option<Number<'_>>
    ensures { MatchOption result
        ((n : ℕ) (rest : List Word) → least ≤ n → n ≤ most → left words.entry ≢ decimal n ∷ rest)
        (λ r. (least ≤ r.value) × (r.value ≤ most) × (left words.entry ≡ decimal r.value ∷ left r.rest)) }
{
    let number = words.natural(u128::from(most))?;
    if number.value < u128::from(least) {
        None
    } else {
        Some(number)
    }
}

fn sign_of(words: Words<'_>) -> Option<Sign<'_>>
    ensures { MatchOption result
        ((plus : Bool) (rest : List Word) → left words.entry ≢ sign_word plus ∷ rest)
        (λ s. left words.entry ≡ sign_word s.plus ∷ left s.rest) }
{
    if let Some(rest) = words.behind(b"+") {
        return Some(Sign { plus: true, rest });
    }
    match words.behind(b"-") {
        Some(rest) => Some(Sign { plus: false, rest }),
        None => None,
    }
}

/// A sign, and a variable that is `least` or greater.
fn signed_of(words: Words<'_>, least: u64) -> Option<Signed<'_>>
    ensures { MatchOption result
        ((plus : Bool) (n : ℕ) (rest : List Word) → least ≤ n → n < 2 ^ 32 → left words.entry ≢ sign_word plus ∷ decimal n ∷ rest)
        (λ s. (least ≤ s.variable) × (left words.entry ≡ sign_word s.plus ∷ decimal s.variable ∷ left s.rest)) }
{
    let sign = sign_of(words)?;
    let number = between(sign.rest, least, u64::from(u32::MAX))?;
    Some(Signed {
        plus: sign.plus,
        variable: number.value as u32,
        rest: number.rest,
    })
}

/// The form that these words are.
pub fn form_of(words: Words<'_>) -> Option<Form>
    ensures { MatchOption result
        ((f : TheForm) → IsForm f → left words.entry ≢ form_words f)
        (λ f. IsForm f × (left words.entry ≡ form_words f)) }
{
    let first = signed_of(words, 1)?;
    if first.rest.over() {
        return Some(Form {
            first: first.variable,
            plus: first.plus,
            second: 0,
            second_plus: true,
        });
    }
    let Some(second) = signed_of(first.rest, u64::from(first.variable) + 1) else {
        return None;
    };
    if !second.rest.over() {
        return None;
    }
    Some(Form {
        first: first.variable,
        plus: first.plus,
        second: second.variable,
        second_plus: second.plus,
    })
}

/// The component of a ranking that a line tells.
pub fn component_of(words: Words<'_>) -> Option<Form>
    ensures { MatchOption result
        ((f : TheForm) → IsForm f → left words.entry ≢ rank_line f)
        (λ f. IsForm f × (left words.entry ≡ rank_line f)) }
{
    let behind = words.behind(b"rank")?;
    form_of(behind)
}

fn is_bound(value: i128) -> bool
    ensures { IsTrue result ↔ IsBound (Some value) }
{
    LEAST_BOUND <= value && value <= MOST_BOUND
}

fn bound_of(words: Words<'_>) -> Option<Bound<'_>>
    ensures { MatchOption result
        ((z : ℤ) (rest : List Word) → IsBound (Some z) → left words.entry ≢ signed_decimal z ∷ rest)
        (λ b. IsBound (Some b.value) × (left words.entry ≡ signed_decimal b.value ∷ left b.rest)) }
{
    let first = words.first()?;
    let value = read_whole(first.word)?;
    if is_bound(value) {
        Some(Bound {
            value,
            rest: first.rest,
        })
    } else {
        None
    }
}

/// The row that a line tells. It has a bound.
pub fn row_of(words: Words<'_>) -> Option<Row>
    ensures { MatchOption result
        ((row : TheRow) → IsRow row → left words.entry ≢ row_line row)
        (λ row. IsRow row × (left words.entry ≡ row_line row)) }
{
    let behind = words.behind(b"row")?;
    let Some(bound) = bound_of(behind) else {
        return None;
    };
    let Some(form) = form_of(bound.rest) else {
        return None;
    };
    Some(Row {
        form,
        bound: Some(bound.value),
    })
}
