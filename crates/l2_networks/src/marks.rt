// Which mark a token is.
ghost use Rattle.std.specs.Prelude.{◌≡◌, true};
ghost use Rattle.l2_grammar.specs.Marks.{is, number_of};

use l2_syntax::{Mark, TokenKind};

fn number_of(mark: Mark) -> u8
    ensures { result ≡ number_of mark }
{
    match mark {
        Mark::OpenBracket => 0,
        Mark::CloseBracket => 1,
        Mark::OpenParenthesis => 2,
        Mark::CloseParenthesis => 3,
        Mark::OpenBrace => 4,
        Mark::CloseBrace => 5,
        Mark::Dot => 6,
        Mark::Arrow => 7,
        Mark::PlusPlus => 8,
        Mark::MinusMinus => 9,
        Mark::Ampersand => 10,
        Mark::Star => 11,
        Mark::Plus => 12,
        Mark::Minus => 13,
        Mark::Tilde => 14,
        Mark::Exclamation => 15,
        Mark::Slash => 16,
        Mark::Percent => 17,
        Mark::ShiftLeft => 18,
        Mark::ShiftRight => 19,
        Mark::Less => 20,
        Mark::Greater => 21,
        Mark::LessEqual => 22,
        Mark::GreaterEqual => 23,
        Mark::EqualEqual => 24,
        Mark::NotEqual => 25,
        Mark::Caret => 26,
        Mark::Bar => 27,
        Mark::AndAnd => 28,
        Mark::OrOr => 29,
        Mark::Question => 30,
        Mark::Colon => 31,
        Mark::Semicolon => 32,
        Mark::Ellipsis => 33,
        Mark::Equal => 34,
        Mark::StarEqual => 35,
        Mark::SlashEqual => 36,
        Mark::PercentEqual => 37,
        Mark::PlusEqual => 38,
        Mark::MinusEqual => 39,
        Mark::ShiftLeftEqual => 40,
        Mark::ShiftRightEqual => 41,
        Mark::AmpersandEqual => 42,
        Mark::CaretEqual => 43,
        Mark::BarEqual => 44,
        Mark::Comma => 45,
        Mark::Hash => 46,
        Mark::HashHash => 47,
        Mark::Bool => 48,
        Mark::Break => 49,
        Mark::Case => 50,
        Mark::Char => 51,
        Mark::Const => 52,
        Mark::Continue => 53,
        Mark::Default => 54,
        Mark::Do => 55,
        Mark::Else => 56,
        Mark::Enum => 57,
        Mark::Extern => 58,
        Mark::For => 59,
        Mark::If => 60,
        Mark::Int => 61,
        Mark::Long => 62,
        Mark::Return => 63,
        Mark::Short => 64,
        Mark::Signed => 65,
        Mark::Sizeof => 66,
        Mark::Static => 67,
        Mark::Struct => 68,
        Mark::Switch => 69,
        Mark::Typedef => 70,
        Mark::Unsigned => 71,
        Mark::Void => 72,
        Mark::While => 73,
    }
}

/// Whether the token is the mark.
#[tactic(auto, unfolding(l2_grammar::specs::Marks::is), using(crate::proofs::Tells::is_mark))]
pub fn is(mark: Mark, kind: TokenKind) -> bool
    ensures is { result ≡ is mark kind }
    ensures told { result ≡ true → kind ≡ TokenKind.Mark mark }
{
    match kind {
        TokenKind::Mark(other) => number_of(mark) == number_of(other),
        _ => false,
    }
}
