// What a token begins.
ghost use Rattle.std.specs.Prelude.{◌≡◌, Option, None, Some};
ghost use Rattle.l2_tree.specs.Build.{unary_of, opening_mark, opening_of, binary_of, assignment_of, operator_of, continuation_mark, continuation_of, word_of, simple_of, is_specifier_mark, is_specifier};
ghost use Rattle.l2_build.specs.Types.{perhaps_specifier, word_number};

use l2_syntax::{Mark, Place, TokenKind};
use l2_tree::{
    AssignmentOperator, BinaryOperator, Continuation, MemberOperator, Opening, Specifier,
    SpecifierWord, UnaryOperator, UpdateOperator,
};

fn unary_of(mark: Mark) -> Option<UnaryOperator>
    ensures { result ≡ unary_of mark }
{
    match mark {
        Mark::Ampersand => Some(UnaryOperator::Address),
        Mark::Star => Some(UnaryOperator::Dereference),
        Mark::Plus => Some(UnaryOperator::Plus),
        Mark::Minus => Some(UnaryOperator::Negate),
        Mark::Tilde => Some(UnaryOperator::Complement),
        Mark::Exclamation => Some(UnaryOperator::Not),
        _ => None,
    }
}

fn opening_mark(mark: Mark) -> Option<Opening>
    ensures { result ≡ opening_mark mark }
{
    match mark {
        Mark::OpenParenthesis => Some(Opening::Parenthesis),
        Mark::Sizeof => Some(Opening::Sizeof),
        Mark::PlusPlus => Some(Opening::Update(UpdateOperator::Increment)),
        Mark::MinusMinus => Some(Opening::Update(UpdateOperator::Decrement)),
        _ => match unary_of(mark) {
            Some(operator) => Some(Opening::Unary(operator)),
            None => None,
        },
    }
}

/// How an expression begins with this token.
pub fn opening_of(kind: TokenKind) -> Option<Opening>
    ensures { result ≡ opening_of kind }
{
    match kind {
        TokenKind::Word(name) => Some(Opening::Name(name)),
        TokenKind::Number { value, scalar } => Some(Opening::Number(value, scalar)),
        TokenKind::Text => Some(Opening::Text),
        TokenKind::Mark(mark) => opening_mark(mark),
        TokenKind::TypeName(_) | TokenKind::End => None,
    }
}

fn binary_of(mark: Mark) -> Option<BinaryOperator>
    ensures { result ≡ binary_of mark }
{
    match mark {
        Mark::Star => Some(BinaryOperator::Multiply),
        Mark::Slash => Some(BinaryOperator::Divide),
        Mark::Percent => Some(BinaryOperator::Remainder),
        Mark::Plus => Some(BinaryOperator::Add),
        Mark::Minus => Some(BinaryOperator::Subtract),
        Mark::ShiftLeft => Some(BinaryOperator::ShiftLeft),
        Mark::ShiftRight => Some(BinaryOperator::ShiftRight),
        Mark::Less => Some(BinaryOperator::Less),
        Mark::Greater => Some(BinaryOperator::Greater),
        Mark::LessEqual => Some(BinaryOperator::LessEqual),
        Mark::GreaterEqual => Some(BinaryOperator::GreaterEqual),
        Mark::EqualEqual => Some(BinaryOperator::Equal),
        Mark::NotEqual => Some(BinaryOperator::NotEqual),
        Mark::Ampersand => Some(BinaryOperator::BitAnd),
        Mark::Caret => Some(BinaryOperator::BitXor),
        Mark::Bar => Some(BinaryOperator::BitOr),
        Mark::AndAnd => Some(BinaryOperator::And),
        Mark::OrOr => Some(BinaryOperator::Or),
        _ => None,
    }
}

fn assignment_of(mark: Mark) -> Option<AssignmentOperator>
    ensures { result ≡ assignment_of mark }
{
    match mark {
        Mark::Equal => Some(AssignmentOperator::Assign),
        Mark::StarEqual => Some(AssignmentOperator::Multiply),
        Mark::SlashEqual => Some(AssignmentOperator::Divide),
        Mark::PercentEqual => Some(AssignmentOperator::Remainder),
        Mark::PlusEqual => Some(AssignmentOperator::Add),
        Mark::MinusEqual => Some(AssignmentOperator::Subtract),
        Mark::ShiftLeftEqual => Some(AssignmentOperator::ShiftLeft),
        Mark::ShiftRightEqual => Some(AssignmentOperator::ShiftRight),
        Mark::AmpersandEqual => Some(AssignmentOperator::BitAnd),
        Mark::CaretEqual => Some(AssignmentOperator::BitXor),
        Mark::BarEqual => Some(AssignmentOperator::BitOr),
        _ => None,
    }
}

fn operator_of(mark: Mark) -> Option<Continuation>
    ensures { result ≡ operator_of mark }
{
    match binary_of(mark) {
        Some(operator) => Some(Continuation::Binary(operator)),
        None => match assignment_of(mark) {
            Some(operator) => Some(Continuation::Assign(operator)),
            None => None,
        },
    }
}

fn continuation_mark(mark: Mark) -> Option<Continuation>
    ensures { result ≡ continuation_mark mark }
{
    match mark {
        Mark::OpenBracket => Some(Continuation::Index),
        Mark::OpenParenthesis => Some(Continuation::Call),
        Mark::Dot => Some(Continuation::Member(MemberOperator::Dot)),
        Mark::Arrow => Some(Continuation::Member(MemberOperator::Arrow)),
        Mark::PlusPlus => Some(Continuation::Update(UpdateOperator::Increment)),
        Mark::MinusMinus => Some(Continuation::Update(UpdateOperator::Decrement)),
        Mark::Question => Some(Continuation::Conditional),
        Mark::Comma => Some(Continuation::Comma),
        _ => operator_of(mark),
    }
}

/// How an expression goes on with this token behind an operand.
pub fn continuation_of(kind: TokenKind) -> Option<Continuation>
    ensures { result ≡ continuation_of kind }
{
    match kind {
        TokenKind::Mark(mark) => continuation_mark(mark),
        _ => None,
    }
}

fn word_of(mark: Mark) -> Option<SpecifierWord>
    ensures { result ≡ word_of mark }
{
    match mark {
        Mark::Static => Some(SpecifierWord::Static),
        Mark::Extern => Some(SpecifierWord::Extern),
        Mark::Const => Some(SpecifierWord::Const),
        Mark::Signed => Some(SpecifierWord::Signed),
        Mark::Unsigned => Some(SpecifierWord::Unsigned),
        Mark::Bool => Some(SpecifierWord::Bool),
        Mark::Char => Some(SpecifierWord::Char),
        Mark::Short => Some(SpecifierWord::Short),
        Mark::Int => Some(SpecifierWord::Int),
        Mark::Long => Some(SpecifierWord::Long),
        Mark::Void => Some(SpecifierWord::Void),
        _ => None,
    }
}

/// The specifier of this token alone, if it is one.
pub fn simple_of(kind: TokenKind, place: Place) -> Option<Specifier>
    ensures { perhaps_specifier result ≡ simple_of kind place }
{
    match kind {
        TokenKind::TypeName(name) => Some(Specifier::TypeName(name, place)),
        TokenKind::Mark(mark) => match word_of(mark) {
            Some(word) => Some(Specifier::Word(word, place)),
            None => None,
        },
        TokenKind::Word(_) | TokenKind::Number { .. } | TokenKind::Text | TokenKind::End => None,
    }
}

fn is_specifier_mark(mark: Mark) -> bool
    ensures { result ≡ is_specifier_mark mark }
{
    match mark {
        Mark::Struct => true,
        Mark::Enum => true,
        _ => word_of(mark).is_some(),
    }
}

/// Whether a specifier begins with this token.
pub fn is_specifier(kind: TokenKind) -> bool
    ensures { result ≡ is_specifier kind }
{
    match kind {
        TokenKind::TypeName(_) => true,
        TokenKind::Mark(mark) => is_specifier_mark(mark),
        TokenKind::Word(_) | TokenKind::Number { .. } | TokenKind::Text | TokenKind::End => false,
    }
}

/// The number of the name that this token is, if it is one.
pub fn name_of(kind: TokenKind) -> Option<u32>
    ensures { result ≡ word_number kind }
{
    match kind {
        TokenKind::Word(name) => Some(name),
        _ => None,
    }
}
