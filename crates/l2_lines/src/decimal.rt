ghost use Rattle.std.specs.Prelude.{◌≡◌, ◌≢◌, ℕ, ℤ, ◌+◌, ◌*◌, ◌^◌, ◌<◌, ◌≤◌, ◌↔◌, negsuc, IsTrue, MatchOption, SomeIff, FitsSigned};
ghost use Rattle.std.specs.Int.{w128};
ghost use Rattle.std.specs.Char.{digit_value};
ghost use Rattle.std.specs.Fmt.{decimal, signed_decimal};
ghost use Rattle.l2_lines.specs.Numbers.{BeginsPlainly};

/// The number with one more decimal digit behind it, where that is a digit and the number at most `most`.
fn push_digit(value: u128, byte: u8, most: u128) -> Option<u128>
    ensures { SomeIff result
        ((digit_value byte < 10) × (value * 10 + digit_value byte ≤ most))
        (value * 10 + digit_value byte) }
{
    if !byte.is_ascii_digit() {
        return None;
    }
    let grown = value.checked_mul(10)?.checked_add(u128::from(byte - b'0'))?;
    if grown <= most { Some(grown) } else { None }
}

/// Whether the word has a first digit, which is no leading zero.
fn begins_plainly(word: &[u8]) -> bool
    ensures { IsTrue result ↔ BeginsPlainly word.now }
{
    word.len() == 1 || (word.len() > 1 && word[0] != b'0')
}

/// The number from 0 to `most` that a word spells: decimal digits with no sign and no leading zero.
pub fn read_natural(word: &[u8], most: u128) -> Option<u128>
    ensures { MatchOption result
        ((n : ℕ) → n ≤ most → word.now ≢ decimal n)
        (λ n. (n ≤ most) × (word.now ≡ decimal n)) }
{
    if !begins_plainly(word) {
        return None;
    }
    let mut value = 0;
    for &byte in word {
        value = push_digit(value, byte, most)?;
    }
    Some(value)
}

/// The number below 0 that these digits spell behind a `-`.
fn read_below_zero(digits: &[u8]) -> Option<i128>
    ensures { MatchOption result
        ((n : ℕ) → n < 2 ^ 127 → digits.now ≢ decimal (n + 1))
        (λ v. (n : ℕ) × (v ≡ negsuc n) × (digits.now ≡ decimal (n + 1))) }
{
    match read_natural(digits, 1 << 127) {
        Some(n) if n > 0 => Some(-1 - (n - 1) as i128),
        _ => None,
    }
}

/// The whole number that a word spells: decimal digits with no leading zero, and a `-` before them below 0.
pub fn read_whole(word: &[u8]) -> Option<i128>
    ensures { MatchOption result
        ((v : ℤ) → FitsSigned w128 v → word.now ≢ signed_decimal v)
        (λ v. word.now ≡ signed_decimal v) }
{
    match word.split_first() {
        Some((b'-', digits)) => read_below_zero(digits),
        _ => match read_natural(word, i128::MAX as u128) {
            Some(n) => Some(n as i128),
            None => None,
        },
    }
}

#[cfg(test)]
mod tests {
    use super::*;

    #[test]
    fn a_number_has_one_spelling(rt: HostRuntime) {
        let naturals = [
            ("0", Some(0)),
            ("7", Some(7)),
            ("65", Some(65)),
            ("66", None),
            ("", None),
            ("00", None),
            ("07", None),
            ("+7", None),
            ("7 ", None),
        ];
        for (word, want) in naturals {
            assert_eq!(rt; read_natural(word.as_bytes(), 65), want, "at {word}");
        }
        let wholes = [
            ("0", Some(0)),
            ("-1", Some(-1)),
            ("-0", None),
            ("-01", None),
            ("-", None),
            ("--1", None),
            ("170141183460469231731687303715884105727", Some(i128::MAX)),
            ("170141183460469231731687303715884105728", None),
            ("-170141183460469231731687303715884105728", Some(i128::MIN)),
            ("-170141183460469231731687303715884105729", None),
        ];
        for (word, want) in wholes {
            assert_eq!(rt; read_whole(word.as_bytes()), want, "at {word}");
        }
    }
}
