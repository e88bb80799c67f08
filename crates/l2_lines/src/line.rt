ghost use Rattle.std.specs.Prelude.{◌≡◌, ◌≢◌, List, ℕ, ◌++◌, MatchOption};
ghost use Rattle.std.specs.List.{concat};
ghost use Rattle.l2_lines.specs.Lines.{AreLines, IsLine, ended, lines_of};

/// A text cut behind its first line.
#[derive(Clone, Copy, Debug)]
pub struct Cut<'a> {
    /// The first line without its LF.
    pub line: &'a [u8],
    /// What stands behind that LF.
    pub rest: &'a [u8],
}

/// Cuts a text behind its first LF, where it has one.
pub fn first_line(text: &[u8]) -> Option<Cut<'_>>
    ensures { MatchOption result (IsLine text.now)
        (λ cut. IsLine cut.line.now × (text.now ≡ ended cut.line.now ++ cut.rest.now)) }
{
    let at = text.iter().position(|byte| *byte == b'\n')?;
    let (line, rest) = text.split_at(at);
    Some(Cut {
        line,
        rest: &rest[1..],
    })
}

/// Law: the lines of a text, joined, are the text, and each but the last ends with its only LF.
pub fn lines_law(_text: &[u8])
    ensures joined { concat (lines_of _text.now) ≡ _text.now }
    ensures cut { AreLines (lines_of _text.now) }
{}

/// What stands behind a prefix, where the text begins with it.
pub fn strip<'a>(text: &'a [u8], prefix: &[u8]) -> Option<&'a [u8]>
    ensures { MatchOption result
        ((rest : List ℕ) → text.now ≢ prefix.now ++ rest)
        (λ rest. text.now ≡ prefix.now ++ rest.now) }
{
    text.strip_prefix(prefix)
}
