ghost use Rattle.std.specs.Prelude.{◌≡◌, ◌≤◌, ◌<◌, ◌^◌, ℕ, ℤ, MatchOption, SomeIff};
ghost use Rattle.std.specs.Char.{digit_value};
ghost use Rattle.l2_dimacs.specs.Profile.{IsNumber, Spells};
ghost use Rattle.l2_dimacs.specs.Reading.{IsItem};

/// What a word of the clauses stands for.
#[derive(Clone, Copy, Debug)]
pub enum Item {
    /// The end of a clause.
    End,
    /// A variable.
    Positive(u64),
    /// A variable, negated.
    Negative(u64),
}

/// The value of a decimal digit.
fn digit_of(byte: u8) -> Option<u64>
    ensures { SomeIff result (digit_value byte < 10) (digit_value byte) }
{
    if byte.is_ascii_digit() {
        Some(u64::from(byte - b'0'))
    } else {
        None
    }
}

/// The number that a word of digits spells.
pub fn read_number(word: &[u8]) -> Option<u64>
    ensures { MatchOption result
        ((n : ℕ) → ¬ IsNumber word.now n)
        (λ n. IsNumber word.now n × (n < 10 ^ 18)) }
{
    if word.is_empty() || word.len() > 18 {
        return None;
    }
    let mut value = 0;
    for &byte in word {
        let Some(digit) = digit_of(byte) else {
            return None;
        };
        value = value * 10 + digit;
    }
    Some(value)
}

/// The variable from 1 to `variables` that a word spells.
fn variable(word: &[u8], variables: u64) -> Option<u64>
    ensures { MatchOption result
        ((n : ℕ) → 1 ≤ n → n ≤ variables → ¬ IsNumber word.now n)
        (λ n. (1 ≤ n) × (n ≤ variables) × IsNumber word.now n × (n < 10 ^ 18)) }
{
    match read_number(word) {
        Some(n) if 1 <= n && n <= variables => Some(n),
        _ => None,
    }
}

/// The end of a clause or the literal that a word spells.
pub fn read_item(word: &[u8], variables: u64) -> Option<Item>
    ensures { MatchOption result
        ((z : ℤ) → ¬ Spells variables z word.now)
        (λ i. IsItem variables word.now i) }
{
    if word == b"0".as_slice() {
        return Some(Item::End);
    }
    match word.split_first() {
        Some((b'-', digits)) => match variable(digits, variables) {
            Some(n) => Some(Item::Negative(n)),
            None => None,
        },
        _ => match variable(word, variables) {
            Some(n) => Some(Item::Positive(n)),
            None => None,
        },
    }
}
