ghost use Rattle.std.specs.Prelude.{◌≡◌, ◌≢◌, ◌↔◌, ◌≤◌, ◌∷◌, ◌++◌, [], ℕ, List, IsTrue, MatchOption};
ghost use Rattle.std.specs.Fmt.{decimal};
ghost use Rattle.l2_derivation_file.specs.Cursor.{left};
ghost use Rattle.l2_cert.specs.Words.{HasNoSpace, Word, words_of};

use l2_lines::read_natural;

/// The words of a line that aren't read yet.
#[derive(Clone, Copy, Debug)]
pub struct Words<'a> {
    pub rest: &'a [u8],
    /// Whether a word is left. It may be empty.
    pub more: bool,
}

/// The first of some words, and those behind it.
#[derive(Clone, Copy, Debug)]
pub struct First<'a> {
    pub word: &'a [u8],
    pub rest: Words<'a>,
}

/// A number, and the words behind it.
#[derive(Clone, Copy, Debug)]
pub struct Number<'a> {
    pub value: u128,
    pub rest: Words<'a>,
}

/// What stands before and behind the first space of a text.
#[derive(Clone, Copy, Debug)]
struct Cut<'a> {
    word: &'a [u8],
    rest: &'a [u8],
}

/// Cuts a text at its first space, where it has one.
fn at_space(text: &[u8]) -> Option<Cut<'_>>
    ensures { MatchOption result (HasNoSpace text.now)
        (λ cut. HasNoSpace cut.word.now × (text.now ≡ cut.word.now ++ 32 ∷ cut.rest.now)) }
{
    let at = text.iter().position(|byte| *byte == b' ')?;
    let (word, rest) = text.split_at(at);
    Some(Cut {
        word,
        rest: &rest[1..],
    })
}

impl<'a> Words<'a> {
    /// All words of a line.
    pub fn new(line: &'a [u8]) -> Words<'a>
        ensures { left result ≡ words_of line.now }
    {
        Words {
            rest: line,
            more: true,
        }
    }

    /// Cuts behind the first word, where one is left.
    pub fn first(self) -> Option<First<'a>>
        ensures { MatchOption result (left self.entry ≡ []) (λ f. left self.entry ≡ f.word.now ∷ left f.rest) }
    {
        if !self.more {
            return None;
        }
        match at_space(self.rest) {
            Some(cut) => Some(First {
                word: cut.word,
                rest: Words {
                    rest: cut.rest,
                    more: true,
                },
            }),
            None => Some(First {
                word: self.rest,
                rest: Words {
                    rest: self.rest,
                    more: false,
                },
            }),
        }
    }

    /// Whether no word is left.
    pub fn over(self) -> bool
        ensures { IsTrue result ↔ (left self.entry ≡ []) }
    {
        !self.more
    }

    /// The number from 0 to `most` that the first word spells.
    pub fn natural(self, most: u128) -> Option<Number<'a>>
        ensures { MatchOption result
            ((n : ℕ) (rest : List Word) → n ≤ most → left self.entry ≢ decimal n ∷ rest)
            (λ r. (r.value ≤ most) × (left self.entry ≡ decimal r.value ∷ left r.rest)) }
    {
        let first = self.first()?;
        let value = read_natural(first.word, most)?;
        Some(Number {
            value,
            rest: first.rest,
        })
    }

    /// The number from `least` to `most` that the first word spells.
    pub fn between(self, least: u64, most: u64) -> Option<Number<'a>>
        ensures { MatchOption result
            ((n : ℕ) (rest : List Word) → least ≤ n → n ≤ most → left self.entry ≢ decimal n ∷ rest)
            (λ r. (least ≤ r.value) × (r.value ≤ most) × (left self.entry ≡ decimal r.value ∷ left r.rest)) }
    {
        let number = self.natural(u128::from(most))?;
        if number.value < u128::from(least) {
            None
        } else {
            Some(number)
        }
    }
}
