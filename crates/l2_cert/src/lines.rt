ghost use Rattle.std.specs.Prelude.{◌≡◌, ◌≢◌, ◌↔◌, ◌≤◌, ◌<◌, ◌^◌, ◌∷◌, [], ℕ, IsTrue, MatchOption};
ghost use Rattle.std.specs.Fmt.{decimal};
ghost use Rattle.l2_cert.specs.Cursor.{left};
ghost use Rattle.l2_cert.specs.Certificate.{bottom_line, checks_line, first_line, goal_line, kind_line, ranks_line, rows_line};
ghost use Rattle.l2_cert.specs.Reading.{TellsLoop};

use crate::cert::CertKind;
use crate::forms::between;
use crate::words::Words;

/// What a line tells of a loop.
#[derive(Clone, Copy, Debug, PartialEq, Eq)]
pub enum LoopLine {
    Bottom,
    /// How many rows follow.
    Rows(u32),
}

/// Whether these words are one, and this.
pub fn is_only(words: Words<'_>, text: &[u8]) -> bool
    ensures { IsTrue result ↔ (left words.entry ≡ text.now ∷ []) }
{
    match words.behind(text) {
        Some(rest) => rest.over(),
        None => false,
    }
}

/// Whether these words are those of the first line.
pub fn is_first(words: Words<'_>) -> bool
    ensures { IsTrue result ↔ (left words.entry ≡ first_line) }
{
    let Some(second) = words.behind(b"2ls") else {
        return false;
    };
    match second.behind(b"certificate") {
        Some(third) => is_only(third, b"1"),
        None => false,
    }
}

/// The kind that a line tells.
pub fn kind_of(words: Words<'_>) -> Option<CertKind>
    ensures { MatchOption result
        ((kind : _) → left words.entry ≢ kind_line kind)
        (λ kind. left words.entry ≡ kind_line kind) }
{
    let rest = words.behind(b"kind")?;
    if is_only(rest, b"safe") {
        Some(CertKind::Safe)
    } else if is_only(rest, b"terminating") {
        Some(CertKind::Terminating)
    } else {
        None
    }
}

/// Whether overflow is a check, as a line tells.
pub fn checks_of(words: Words<'_>) -> Option<bool>
    ensures { MatchOption result
        ((overflow : _) → left words.entry ≢ checks_line overflow)
        (λ overflow. left words.entry ≡ checks_line overflow) }
{
    let rest = words.behind(b"checks")?;
    if is_only(rest, b"plain") {
        Some(false)
    } else if is_only(rest, b"overflow") {
        Some(true)
    } else {
        None
    }
}

/// The number from `least` to `most` that is all of these words.
fn only_number(words: Words<'_>, least: u64, most: u64) -> Option<u64>
    ensures { MatchOption result
        ((n : ℕ) → least ≤ n → n ≤ most → left words.entry ≢ decimal n ∷ [])
        (λ n. (least ≤ n) × (n ≤ most) × (left words.entry ≡ decimal n ∷ [])) }
{
    let number = between(words, least, most)?;
    if number.rest.over() {
        Some(number.value as u64)
    } else {
        None
    }
}

/// The number from `least` to `most` of a line of a word and a number.
pub fn numbered(words: Words<'_>, text: &[u8], least: u64, most: u64) -> Option<u64>
    ensures { MatchOption result
        ((n : ℕ) → least ≤ n → n ≤ most → left words.entry ≢ text.now ∷ decimal n ∷ [])
        (λ n. (least ≤ n) × (n ≤ most) × (left words.entry ≡ text.now ∷ decimal n ∷ [])) }
{
    let rest = words.behind(text)?;
    only_number(rest, least, most)
}

/// What stands behind a word and this number.
fn behind_number<'a>(words: Words<'a>, text: &[u8], index: u64) -> Option<Words<'a>>
    ensures { MatchOption result
        ((rest : _) → left words.entry ≢ text.now ∷ decimal index ∷ rest)
        (λ r. left words.entry ≡ text.now ∷ decimal index ∷ left r) }
{
    let rest = words.behind(text)?;
    let number = between(rest, index, index)?;
    Some(number.rest)
}

/// What a line tells of the loop of this number.
pub fn loop_of(words: Words<'_>, index: u64) -> Option<LoopLine>
    ensures { MatchOption result
        ((left words.entry ≢ bottom_line index) × ((rows : ℕ) → rows < 2 ^ 32 → left words.entry ≢ rows_line index rows))
        (λ line. TellsLoop index (left words.entry) line) }
{
    let rest = behind_number(words, b"loop", index)?;
    if is_only(rest, b"bottom") {
        return Some(LoopLine::Bottom);
    }
    match numbered(rest, b"rows", 0, u64::from(u32::MAX)) {
        Some(rows) => Some(LoopLine::Rows(rows as u32)),
        None => None,
    }
}

/// How many components, at most `most`, a line tells of the ranking of the loop of this number.
pub fn ranks_of(words: Words<'_>, index: u64, most: u64) -> Option<u64>
    ensures { MatchOption result
        ((n : ℕ) → n ≤ most → left words.entry ≢ ranks_line index n)
        (λ n. (n ≤ most) × (left words.entry ≡ ranks_line index n)) }
{
    let rest = behind_number(words, b"ranks", index)?;
    only_number(rest, 0, most)
}

/// How many steps a line tells of the goal of this number.
pub fn goal_of(words: Words<'_>, index: u64) -> Option<u64>
    ensures { MatchOption result
        ((n : ℕ) → n < 2 ^ 62 → left words.entry ≢ goal_line index n)
        (λ n. (n < 2 ^ 62) × (left words.entry ≡ goal_line index n)) }
{
    let rest = behind_number(words, b"goal", index)?;
    numbered(rest, b"lines", 0, (1 << 62) - 1)
}
