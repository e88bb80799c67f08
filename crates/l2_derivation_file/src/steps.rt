ghost use Rattle.std.specs.Prelude.{◌≡◌, ◌≢◌, ◌↔◌, ◌≤◌, ◌<◌, ◌^◌, ◌∷◌, ◌++◌, [], ℕ, ℤ, List, IsTrue, IfOk, IsErrOf, MatchOption, map};
ghost use Rattle.std.specs.List.{All};
ghost use Rattle.std.specs.Fmt.{decimal, signed_decimal};
ghost use Rattle.l2_cnf.specs.Steps.{Step};
ghost use Rattle.l2_cnf.specs.Lines.{step_of};
ghost use Rattle.l2_derivation_file.specs.Cursor.{left};
ghost use Rattle.l2_cert.specs.Words.{Word};
ghost use Rattle.l2_cert.specs.Certificate.{IsLiteral, IsNumber, IsStep, step_line};

use crate::words::Words;
use l2_cnf::Lit;
use l2_lines::{read_natural, read_whole};

/// Why a line was not taken.
#[derive(Clone, Copy, Debug, PartialEq, Eq)]
pub enum LineError {
    Bad,
    NoMemory,
}

const MOST_NUMBER: u64 = (1 << 62) - 1;

fn is_literal(value: i128) -> bool
    ensures { IsTrue result ↔ IsLiteral value }
{
    let variable = value.unsigned_abs();
    1 <= variable && variable <= u128::from(MOST_NUMBER)
}

/// The literal that a word spells.
fn literal_of(word: &[u8]) -> Option<Lit>
    ensures { MatchOption result
        ((z : ℤ) → IsLiteral z → word.now ≢ signed_decimal z)
        (λ l. IsLiteral l × (word.now ≡ signed_decimal l)) }
{
    let value = read_whole(word)?;
    if !is_literal(value) {
        return None;
    }
    Some(Lit::new(value.unsigned_abs() as u64, value > 0))
}

/// The number of a step that a word spells.
fn number_of(word: &[u8]) -> Option<u64>
    ensures { MatchOption result
        ((n : ℕ) → IsNumber n → word.now ≢ decimal n)
        (λ n. IsNumber n × (word.now ≡ decimal n)) }
{
    let value = read_natural(word, u128::from(MOST_NUMBER))?;
    if value == 0 { None } else { Some(value as u64) }
}

/// Reads literals up to a 0, and gives the words behind it.
fn read_clause<'a>(words: Words<'a>, clause: &mut Vec<Lit>) -> Result<Words<'a>, LineError>
    ensures ok { IfOk result (λ r. All IsLiteral clause.new.items
        × (left words.entry ≡ map signed_decimal clause.new.items ++ decimal 0 ∷ left r)) }
    ensures bad { IsErrOf result LineError.Bad → (literals : List ℤ) (rest : List Word) → All IsLiteral literals →
        left words.entry ≢ map signed_decimal literals ++ decimal 0 ∷ rest }
{
    clause.clear();
    let mut rest = words;
    while let Some(first) = rest.first() {
        if first.word == b"0".as_slice() {
            return Ok(first.rest);
        }
        let Some(literal) = literal_of(first.word) else {
            return Err(LineError::Bad);
        };
        if clause.push(literal).is_err() {
            return Err(LineError::NoMemory);
        }
        rest = first.rest;
    }
    Err(LineError::Bad)
}

/// Reads hints up to a 0, and gives the words behind it.
fn read_hints<'a>(words: Words<'a>, hints: &mut Vec<u64>) -> Result<Words<'a>, LineError>
    ensures ok { IfOk result (λ r. All IsNumber hints.new.items
        × (left words.entry ≡ map decimal hints.new.items ++ decimal 0 ∷ left r)) }
    ensures bad { IsErrOf result LineError.Bad → (numbers : List ℕ) (rest : List Word) → All IsNumber numbers →
        left words.entry ≢ map decimal numbers ++ decimal 0 ∷ rest }
{
    hints.clear();
    let mut rest = words;
    while let Some(first) = rest.first() {
        if first.word == b"0".as_slice() {
            return Ok(first.rest);
        }
        let Some(number) = number_of(first.word) else {
            return Err(LineError::Bad);
        };
        if hints.push(number).is_err() {
            return Err(LineError::NoMemory);
        }
        rest = first.rest;
    }
    Err(LineError::Bad)
}

/// Reads the step that a line tells: its number, and into the lists its clause and its hints.
pub fn read_step(
    words: Words<'_>,
    clause: &mut Vec<Lit>,
    hints: &mut Vec<u64>,
) -> Result<u64, LineError>
    ensures ok { IfOk result (λ n. IsStep (step_of n clause.new.items hints.new.items)
        × (left words.entry ≡ step_line (step_of n clause.new.items hints.new.items))) }
    ensures bad { IsErrOf result LineError.Bad → (s : Step) → IsStep s → left words.entry ≢ step_line s }
{
    let Some(number) = words.between(1, MOST_NUMBER) else {
        return Err(LineError::Bad);
    };
    let behind_clause = match read_clause(number.rest, clause) {
        Ok(behind) => behind,
        Err(error) => return Err(error),
    };
    let behind_hints = match read_hints(behind_clause, hints) {
        Ok(behind) => behind,
        Err(error) => return Err(error),
    };
    if behind_hints.over() {
        Ok(number.value as u64)
    } else {
        Err(LineError::Bad)
    }
}
