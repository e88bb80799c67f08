ghost use Rattle.std.specs.Prelude.{◌≡◌, ◌≤◌, ◌<◌, ◌+◌, ◌^◌, ◌++◌, ◌∷◌, ℕ, suc, List, [], length, take, drop, slice_index_or, true, false, MatchOption};
ghost use Rattle.std.specs.List.{All};
ghost use Rattle.l2_dimacs.specs.Tokens.{Token, is_blank, line_tokens, line_words, lines, token, tokens, tokens_from};
ghost use Rattle.l2_dimacs.specs.Reading.{left};

use crate::cursor::Tokens;
use l2_lines::first_line;

/// The first of some tokens, and those behind it.
#[derive(Clone, Copy, Debug)]
pub struct First<'a> {
    pub word: &'a [u8],
    pub line: u64,
    pub rest: Tokens<'a>,
}

/// The first word of a line, and what stands behind it.
#[derive(Clone, Copy, Debug)]
struct Cut<'a> {
    word: &'a [u8],
    rest: &'a [u8],
}

/// Whether a byte is a space, a tab or CR.
fn is_blank(byte: u8) -> bool
    ensures { result ≡ is_blank byte }
{
    byte == b' ' || byte == b'\t' || byte == b'\r'
}

/// How many of the first bytes of a text are blank.
fn blanks(text: &[u8]) -> usize
    ensures within { result ≤ length text.now }
    ensures skips { (n : ℕ) → line_words n text.now ≡ line_words n (drop result text.now) }
    ensures ends { result < length text.now → is_blank (slice_index_or text.now result 0) ≡ false }
{
    let mut i = 0;
    while i < text.len() && is_blank(text[i]) {
        i += 1;
    }
    i
}

/// How many of the first bytes of a text aren't blank.
fn word_length(text: &[u8]) -> usize
    ensures within { result ≤ length text.now }
    ensures word { All (λ b. is_blank b ≡ false) (take result text.now) }
    ensures ends { result < length text.now → is_blank (slice_index_or text.now result 0) ≡ true }
{
    let mut i = 0;
    while i < text.len() && !is_blank(text[i]) {
        i += 1;
    }
    i
}

/// Cuts a line behind its first word, where it has one.
fn first_word(line: &[u8]) -> Option<Cut<'_>>
    ensures { MatchOption result
        ((n : ℕ) → line_words n line.now ≡ [])
        (λ cut. (n : ℕ) → line_words n line.now ≡ token n cut.word.now ∷ line_words n cut.rest.now) }
{
    let behind = &line[blanks(line)..];
    if behind.is_empty() {
        return None;
    }
    let end = word_length(behind);
    Some(Cut {
        word: &behind[..end],
        rest: &behind[end..],
    })
}

/// A line, or nothing where it is skipped.
fn unskipped(line: &[u8]) -> &[u8]
    ensures { (n : ℕ) → line_tokens n line.now ≡ line_words n result.now }
{
    if line.len() > 0 && line[0] == b'c' {
        &line[..0]
    } else {
        line
    }
}

impl<'a> Tokens<'a> {
    /// All tokens of a text.
    pub fn new(text: &'a [u8]) -> Tokens<'a>
        ensures { left result ≡ tokens text.now }
    {
        Tokens {
            here: &text[..0],
            rest: text,
            line: 0,
        }
    }

    /// Goes on to the next line.
    fn next_line(self) -> Tokens<'a>
        requires { 0 < length self.rest.now }
        ensures left { left result ≡ tokens_from (suc self.entry.line) (lines self.entry.rest.now) }
        ensures shorter { length result.rest.now < length self.entry.rest.now }
    {
        if let Some(cut) = first_line(self.rest) {
            return Tokens {
                here: unskipped(cut.line),
                rest: cut.rest,
                line: self.line + 1,
            };
        }
        Tokens {
            here: unskipped(self.rest),
            rest: &self.rest[..0],
            line: self.line + 1,
        }
    }

    /// Cuts behind the first token, where one is left.
    pub fn first(self) -> Option<First<'a>>
        ensures { MatchOption result (left self.entry ≡ []) (λ f. left self.entry ≡ token f.line f.word.now ∷ left f.rest) }
    {
        let mut at = self;
        loop {
            if let Some(cut) = first_word(at.here) {
                return Some(First {
                    word: cut.word,
                    line: at.line,
                    rest: Tokens {
                        here: cut.rest,
                        rest: at.rest,
                        line: at.line,
                    },
                });
            }
            if at.rest.is_empty() {
                return None;
            }
            at = at.next_line();
        }
    }
}

/// How many lines a text has: one more than it has LFs.
pub fn line_count(text: &[u8]) -> u64
    ensures { result ≡ length (lines text.now) }
{
    let mut count = 1;
    for &byte in text {
        if byte == b'\n' {
            count += 1;
        }
    }
    count
}
