// What a statement begins with.
ghost use Rattle.std.specs.Prelude.{◌≡◌};
ghost use Rattle.l2_tree.specs.Build.{leader_mark, leader_of, label_of, is_end};
ghost use Rattle.l2_build.specs.Parts.{parts_of};

use l2_build::{heads, name_of};
use l2_reader::Syntax;
use l2_syntax::{Mark, TokenKind};
use l2_tree::Leader;

fn leader_mark(mark: Mark) -> Option<Leader>
    ensures { result ≡ leader_mark mark }
{
    match mark {
        Mark::OpenBrace => Some(Leader::Block),
        Mark::Semicolon => Some(Leader::Empty),
        Mark::If => Some(Leader::If),
        Mark::While => Some(Leader::While),
        Mark::Switch => Some(Leader::Switch),
        Mark::Do => Some(Leader::Do),
        Mark::For => Some(Leader::For),
        Mark::Case => Some(Leader::Case),
        Mark::Default => Some(Leader::Default),
        Mark::Break => Some(Leader::Break),
        Mark::Continue => Some(Leader::Continue),
        Mark::Return => Some(Leader::Return),
        _ => None,
    }
}

/// How a statement begins with this token, where it is neither a declaration nor an expression nor labelled by a name.
pub fn leader_of(kind: TokenKind) -> Option<Leader>
    ensures { result ≡ leader_of kind }
{
    match kind {
        TokenKind::Mark(mark) => leader_mark(mark),
        _ => None,
    }
}

/// A label's name, where a colon follows.
#[tactic(auto, using(crate::proofs::Labels::labels))]
pub fn label_of(kind: TokenKind, behind: &[Syntax]) -> Option<u32>
    ensures { result ≡ label_of kind (parts_of behind.now) }
{
    match name_of(kind) {
        Some(name) => if heads(Mark::Colon, behind) {
            Some(name)
        } else {
            None
        },
        None => None,
    }
}

/// The end of a text.
pub fn is_end(kind: TokenKind) -> bool
    ensures { result ≡ is_end kind }
{
    match kind {
        TokenKind::End => true,
        _ => false,
    }
}
