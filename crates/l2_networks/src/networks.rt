// The networks: how a construct goes on behind a token.
ghost use Rattle.std.specs.Prelude.{◌≡◌, true, cond, leb};
ghost use Rattle.l2_grammar.specs.Networks.{on, on_word, wants_left, continued, level_of, add_sign, add_core, add_short, add_long, add_word, specifier, closed, add_to, store, alone, alone_in, after_type, begun, begun_item, begun_item_in, begun_external, begun_declarator, begun_enclosed, on_end, begun_as, applied, indexed, after_declarator, cast_in, on_token};

use crate::marks::is;
use l2_grammar::{Core, Items, Length, Named, Right, Shape, Sort, State, Storage};
use l2_syntax::{Mark, TokenKind};

/// Behind this mark so, behind another token otherwise.
fn on(mark: Mark, state: State, kind: TokenKind, otherwise: State) -> State
    ensures { result ≡ on mark state kind otherwise }
{
    if is(mark, kind) { state } else { otherwise }
}

fn on_word(state: State, kind: TokenKind) -> State
    ensures { result ≡ on_word state kind }
{
    match kind {
        TokenKind::Word(_) => state,
        _ => State::None,
    }
}

/// The level that the token wants to its left (C11 6.5).
pub fn wants_left(kind: TokenKind) -> u8
    ensures { result ≡ wants_left kind }
{
    match kind {
        TokenKind::Mark(mark) => match mark {
            Mark::OpenBracket
            | Mark::OpenParenthesis
            | Mark::Dot
            | Mark::Arrow
            | Mark::PlusPlus
            | Mark::MinusMinus => 16,
            Mark::Star | Mark::Slash | Mark::Percent => 13,
            Mark::Plus | Mark::Minus => 12,
            Mark::ShiftLeft | Mark::ShiftRight => 11,
            Mark::Less | Mark::Greater | Mark::LessEqual | Mark::GreaterEqual => 10,
            Mark::EqualEqual | Mark::NotEqual => 9,
            Mark::Ampersand => 8,
            Mark::Caret => 7,
            Mark::Bar => 6,
            Mark::AndAnd => 5,
            Mark::OrOr | Mark::Question => 4,
            Mark::Equal
            | Mark::StarEqual
            | Mark::SlashEqual
            | Mark::PercentEqual
            | Mark::PlusEqual
            | Mark::MinusEqual
            | Mark::ShiftLeftEqual
            | Mark::ShiftRightEqual
            | Mark::AmpersandEqual
            | Mark::CaretEqual
            | Mark::BarEqual => 15,
            Mark::Comma => 1,
            _ => 0,
        },
        _ => 0,
    }
}

/// How an expression goes on behind the token.
pub fn continued(kind: TokenKind) -> State
    ensures { result ≡ continued kind }
{
    match kind {
        TokenKind::Mark(mark) => match mark {
            Mark::OpenBracket => State::Index,
            Mark::OpenParenthesis => State::Call,
            Mark::Dot | Mark::Arrow => State::MemberName,
            Mark::PlusPlus | Mark::MinusMinus => State::Have(16),
            Mark::Star | Mark::Slash | Mark::Percent => State::Right(Right::Binary(13)),
            Mark::Plus | Mark::Minus => State::Right(Right::Binary(12)),
            Mark::ShiftLeft | Mark::ShiftRight => State::Right(Right::Binary(11)),
            Mark::Less | Mark::Greater | Mark::LessEqual | Mark::GreaterEqual => State::Right(
                Right::Binary(10),
            ),
            Mark::EqualEqual | Mark::NotEqual => State::Right(Right::Binary(9)),
            Mark::Ampersand => State::Right(Right::Binary(8)),
            Mark::Caret => State::Right(Right::Binary(7)),
            Mark::Bar => State::Right(Right::Binary(6)),
            Mark::AndAnd => State::Right(Right::Binary(5)),
            Mark::OrOr => State::Right(Right::Binary(4)),
            Mark::Question => State::Quest,
            Mark::Equal
            | Mark::StarEqual
            | Mark::SlashEqual
            | Mark::PercentEqual
            | Mark::PlusEqual
            | Mark::MinusEqual
            | Mark::ShiftLeftEqual
            | Mark::ShiftRightEqual
            | Mark::AmpersandEqual
            | Mark::CaretEqual
            | Mark::BarEqual => State::Right(Right::Assignment),
            Mark::Comma => State::Right(Right::Binary(1)),
            Mark::Semicolon => State::Statement(true),
            _ => State::None,
        },
        _ => State::None,
    }
}

fn add_sign(storage: Storage, signed: bool, length: Length, core: Core) -> State
    ensures { result ≡ add_sign storage signed length core }
{
    if signed {
        State::None
    } else {
        State::Typed(storage, Named::Number(true, length, core))
    }
}

fn add_int(storage: Storage, signed: bool, length: Length, core: Core) -> State
    ensures { result ≡ add_core storage signed length core Core.Int }
{
    match core {
        Core::NoCore => State::Typed(storage, Named::Number(signed, length, Core::Int)),
        _ => State::None,
    }
}

fn add_char(storage: Storage, signed: bool, length: Length, core: Core) -> State
    ensures { result ≡ add_core storage signed length core Core.Char }
{
    match length {
        Length::NoLength => match core {
            Core::NoCore => State::Typed(
                storage,
                Named::Number(signed, Length::NoLength, Core::Char),
            ),
            _ => State::None,
        },
        _ => State::None,
    }
}

fn add_short(storage: Storage, signed: bool, length: Length, core: Core) -> State
    ensures { result ≡ add_short storage signed length core }
{
    match length {
        Length::NoLength => match core {
            Core::NoCore => State::Typed(
                storage,
                Named::Number(signed, Length::Short, Core::NoCore),
            ),
            Core::Int => State::Typed(storage, Named::Number(signed, Length::Short, Core::Int)),
            Core::Char => State::None,
        },
        _ => State::None,
    }
}

fn add_long(storage: Storage, signed: bool, length: Length, core: Core) -> State
    ensures { result ≡ add_long storage signed length core }
{
    match length {
        Length::NoLength => match core {
            Core::NoCore => State::Typed(
                storage,
                Named::Number(signed, Length::Long, Core::NoCore),
            ),
            Core::Int => State::Typed(storage, Named::Number(signed, Length::Long, Core::Int)),
            Core::Char => State::None,
        },
        Length::Long => State::Typed(storage, Named::Number(signed, Length::LongLong, core)),
        _ => State::None,
    }
}

/// Behind `signed`, `int` and the like (C11 6.7.2).
fn add_word(storage: Storage, signed: bool, length: Length, core: Core, kind: TokenKind) -> State
    ensures { result ≡ add_word storage signed length core kind }
{
    match kind {
        TokenKind::Mark(mark) => match mark {
            Mark::Signed | Mark::Unsigned => add_sign(storage, signed, length, core),
            Mark::Int => add_int(storage, signed, length, core),
            Mark::Char => add_char(storage, signed, length, core),
            Mark::Short => add_short(storage, signed, length, core),
            Mark::Long => add_long(storage, signed, length, core),
            _ => State::None,
        },
        _ => State::None,
    }
}

fn store_before(storage: Storage) -> State
    ensures { result ≡ store State.BeforeType storage }
{
    match storage {
        Storage::Automatic => State::BeforeType(Storage::Stored),
        _ => State::None,
    }
}

/// A specifier where no type stands yet.
fn specifier(storage: Storage, kind: TokenKind) -> State
    ensures { result ≡ specifier storage kind }
{
    match kind {
        TokenKind::TypeName(_) => State::Typed(storage, Named::Other),
        TokenKind::Mark(mark) => match mark {
            Mark::Bool => State::Typed(storage, Named::Other),
            Mark::Void => State::Typed(storage, Named::Nothing),
            Mark::Struct => State::StructWord(storage),
            Mark::Enum => State::EnumWord(storage),
            Mark::Const => State::BeforeType(storage),
            Mark::Static | Mark::Extern => store_before(storage),
            _ => add_word(storage, false, Length::NoLength, Core::NoCore, kind),
        },
        _ => State::None,
    }
}

fn closed(named: Named) -> Named
    ensures { result ≡ closed named }
{
    match named {
        Named::StructTag | Named::EnumTag => Named::Tagged,
        other => other,
    }
}

fn add_to(storage: Storage, named: Named, kind: TokenKind) -> State
    ensures { result ≡ add_to storage named kind }
{
    match named {
        Named::Number(signed, length, core) => add_word(storage, signed, length, core, kind),
        Named::StructTag => on(Mark::OpenBrace, State::Members(storage), kind, State::None),
        Named::EnumTag => on(
            Mark::OpenBrace,
            State::Enumerators(storage),
            kind,
            State::None,
        ),
        _ => State::None,
    }
}

fn store_typed(storage: Storage, named: Named) -> State
    ensures { result ≡ store (λ v. State.Typed v (closed named)) storage }
{
    match storage {
        Storage::Automatic => State::Typed(Storage::Stored, closed(named)),
        _ => State::None,
    }
}

fn alone(named: Named) -> State
    ensures { result ≡ alone named }
{
    match named {
        Named::StructTag | Named::EnumTag | Named::Tagged => State::DeclarationEnd,
        _ => State::None,
    }
}

fn alone_in(sort: Sort, named: Named) -> State
    ensures { result ≡ alone_in sort named }
{
    match sort {
        Sort::Member => State::None,
        _ => alone(named),
    }
}

/// A token behind the type.
fn after_type(sort: Sort, storage: Storage, named: Named, kind: TokenKind) -> State
    ensures { result ≡ after_type sort storage named kind }
{
    match kind {
        TokenKind::Mark(mark) => match mark {
            Mark::Const => State::Typed(storage, closed(named)),
            Mark::Static | Mark::Extern => store_typed(storage, named),
            Mark::Semicolon => alone_in(sort, named),
            _ => add_to(storage, named, kind),
        },
        _ => add_to(storage, named, kind),
    }
}

/// An expression, or a declaration, begins.
fn begun(kind: TokenKind) -> State
    ensures { result ≡ begun kind }
{
    match kind {
        TokenKind::Word(_) | TokenKind::Number { .. } | TokenKind::Text => State::Have(16),
        TokenKind::Mark(mark) => match mark {
            Mark::OpenParenthesis => State::Paren,
            Mark::PlusPlus | Mark::MinusMinus => State::Right(Right::Update),
            Mark::Ampersand
            | Mark::Star
            | Mark::Plus
            | Mark::Minus
            | Mark::Tilde
            | Mark::Exclamation => State::Right(Right::Prefix),
            Mark::Sizeof => State::Sizing,
            _ => specifier(Storage::Automatic, kind),
        },
        _ => specifier(Storage::Automatic, kind),
    }
}

fn begun_item(kind: TokenKind) -> State
    ensures { result ≡ begun_item kind }
{
    match kind {
        TokenKind::Word(_) => State::Word,
        TokenKind::Mark(mark) => match mark {
            Mark::OpenBrace => State::Block,
            Mark::If => State::IfOpen,
            Mark::While | Mark::Switch => State::HeadOpen,
            Mark::Do => State::DoBody,
            Mark::For => State::ForOpen,
            Mark::Case => State::CaseValue,
            Mark::Default => State::Colon,
            Mark::Break | Mark::Continue => State::Semicolon,
            Mark::Return => State::Returning,
            Mark::Semicolon => State::Statement(true),
            _ => begun(kind),
        },
        _ => begun(kind),
    }
}

fn begun_item_in(items: Items, kind: TokenKind) -> State
    ensures { result ≡ begun_item_in items kind }
{
    match items {
        Items::BehindElse => match kind {
            TokenKind::Mark(mark) => match mark {
                Mark::If => State::None,
                _ => begun_item(kind),
            },
            _ => begun_item(kind),
        },
        _ => begun_item(kind),
    }
}

fn begun_external(kind: TokenKind) -> State
    ensures { result ≡ begun_external kind }
{
    match kind {
        TokenKind::Mark(mark) => match mark {
            Mark::Semicolon => State::DeclarationEnd,
            Mark::Typedef => State::BeforeType(Storage::Typedef),
            _ => specifier(Storage::Automatic, kind),
        },
        _ => specifier(Storage::Automatic, kind),
    }
}

/// A declarator begins, or goes on behind a `*`.
fn begun_declarator(starred: bool, kind: TokenKind) -> State
    ensures { result ≡ begun_declarator starred kind }
{
    match kind {
        TokenKind::Word(_) => State::Direct(starred, Shape::NameOnly),
        TokenKind::Mark(mark) => match mark {
            Mark::Star => State::Stars,
            Mark::OpenParenthesis => State::Group(starred),
            Mark::OpenBracket => State::Size(starred, Shape::Nameless),
            _ => State::None,
        },
        _ => State::None,
    }
}

fn begun_enclosed(kind: TokenKind) -> State
    ensures { result ≡ begun_enclosed kind }
{
    match kind {
        TokenKind::Word(_) => State::Direct(false, Shape::NameOnly),
        TokenKind::Mark(mark) => match mark {
            Mark::Star => State::Stars,
            Mark::OpenParenthesis => State::Group(false),
            Mark::OpenBracket => State::Size(false, Shape::Nameless),
            _ => specifier(Storage::Automatic, kind),
        },
        _ => specifier(Storage::Automatic, kind),
    }
}

fn on_end(kind: TokenKind) -> State
    ensures { result ≡ on_end kind }
{
    match kind {
        TokenKind::End => State::UnitEnd,
        _ => State::None,
    }
}

fn begun_as(sort: Sort, kind: TokenKind) -> State
    ensures { result ≡ begun_as sort kind }
{
    match sort {
        Sort::Unit => on_end(kind),
        Sort::External => begun_external(kind),
        Sort::Item(items) => begun_item_in(items, kind),
        Sort::Member | Sort::Parameter => specifier(Storage::Automatic, kind),
        Sort::Declarator(_) => begun_declarator(false, kind),
        Sort::Enclosed(_) => begun_enclosed(kind),
        Sort::Initialiser => on(Mark::OpenBrace, State::Braces, kind, begun(kind)),
        _ => begun(kind),
    }
}

/// What parameters behind it make of a declarator.
pub fn applied(shape: Shape, all_named: bool) -> Shape
    ensures { result ≡ applied shape all_named }
{
    match shape {
        Shape::NameOnly => Shape::Function(all_named),
        other => other,
    }
}

/// What a length behind it makes of a declarator.
pub fn indexed(shape: Shape) -> Shape
    ensures { result ≡ indexed shape }
{
    match shape {
        Shape::NameOnly => Shape::Derived,
        other => other,
    }
}

fn after_declarator(storage: Storage, defines: bool, kind: TokenKind) -> State
    ensures { result ≡ after_declarator storage defines kind }
{
    let body = if defines {
        State::FunctionBlock
    } else {
        State::None
    };
    let brace = on(Mark::OpenBrace, body, kind, State::None);
    let semicolon = on(Mark::Semicolon, State::DeclarationEnd, kind, brace);
    let comma = on(Mark::Comma, State::NextDeclarator(storage), kind, semicolon);
    on(Mark::Equal, State::InitValue(storage), kind, comma)
}

fn cast_in(sort: Sort) -> State
    ensures { result ≡ cast_in sort }
{
    match sort {
        Sort::SizeofOperand => State::Sized,
        _ => State::Right(Right::Cast),
    }
}

/// Behind this mark so, behind another token not at all.
fn only(mark: Mark, state: State, kind: TokenKind) -> State
    ensures { result ≡ on mark state kind State.None }
{
    on(mark, state, kind, State::None)
}

/// Behind these marks so.
fn either(first: Mark, then: State, second: Mark, otherwise: State, kind: TokenKind) -> State
    ensures { result ≡ on first then kind (on second otherwise kind State.None) }
{
    on(first, then, kind, only(second, otherwise, kind))
}

fn after_level(level: u8, kind: TokenKind) -> State
    ensures { result ≡ cond (leb (wants_left kind) level) (continued kind) State.None }
{
    if wants_left(kind) <= level {
        continued(kind)
    } else {
        State::None
    }
}

fn after_enumerator(storage: Storage, kind: TokenKind) -> State
    ensures { result ≡ on Mark.Comma (State.EnumComma storage) kind (on Mark.CloseBrace (State.Typed storage Named.Tagged) kind State.None) }
{
    either(
        Mark::Comma,
        State::EnumComma(storage),
        Mark::CloseBrace,
        State::Typed(storage, Named::Tagged),
        kind,
    )
}

/// A construct of this sort, in this state, behind a token.
#[tactic(auto, unfolding(l2_grammar::specs::Networks::on_token))]
pub fn on_token(sort: Sort, state: State, kind: TokenKind) -> State
    ensures { result ≡ on_token sort state kind }
{
    match state {
        State::Fresh => begun_as(sort, kind),
        State::Have(level) => after_level(level, kind),
        State::Word => on(Mark::Colon, State::Body, kind, continued(kind)),
        State::ParenClose | State::Call => only(Mark::CloseParenthesis, State::Have(16), kind),
        State::TypedClose => only(Mark::CloseParenthesis, cast_in(sort), kind),
        State::IndexClose => only(Mark::CloseBracket, State::Have(16), kind),
        State::CallMore => either(
            Mark::Comma,
            State::CallNext,
            Mark::CloseParenthesis,
            State::Have(16),
            kind,
        ),
        State::MemberName => on_word(State::Have(16), kind),
        State::QuestClose => only(Mark::Colon, State::Right(Right::Conditional), kind),
        State::Block => only(Mark::CloseBrace, State::Statement(true), kind),
        State::IfOpen => only(Mark::OpenParenthesis, State::IfTest, kind),
        State::IfClose => only(Mark::CloseParenthesis, State::ThenPart, kind),
        State::ThenDone(own) => only(
            Mark::Else,
            if own { State::ElsePart } else { State::None },
            kind,
        ),
        State::ElsePart => only(Mark::If, State::IfOpen, kind),
        State::HeadOpen => only(Mark::OpenParenthesis, State::HeadTest, kind),
        State::HeadClose | State::ForThird | State::ForClose => only(
            Mark::CloseParenthesis,
            State::Body,
            kind,
        ),
        State::DoWhile => only(Mark::While, State::DoOpen, kind),
        State::DoOpen => only(Mark::OpenParenthesis, State::DoTest, kind),
        State::DoClose => only(Mark::CloseParenthesis, State::Semicolon, kind),
        State::ForOpen => only(Mark::OpenParenthesis, State::ForInit, kind),
        State::ForInit | State::ForInitClose => only(Mark::Semicolon, State::ForSecond, kind),
        State::ForSecond | State::ForSecondClose => only(Mark::Semicolon, State::ForThird, kind),
        State::Colon => only(Mark::Colon, State::Body, kind),
        State::Returning | State::Semicolon => only(Mark::Semicolon, State::Statement(true), kind),
        State::BeforeType(storage) => specifier(storage, kind),
        State::Typed(storage, named) => after_type(sort, storage, named, kind),
        State::StructWord(storage) => on(
            Mark::OpenBrace,
            State::Members(storage),
            kind,
            on_word(State::Typed(storage, Named::StructTag), kind),
        ),
        State::EnumWord(storage) => on(
            Mark::OpenBrace,
            State::Enumerators(storage),
            kind,
            on_word(State::Typed(storage, Named::EnumTag), kind),
        ),
        State::Members(storage) => only(
            Mark::CloseBrace,
            State::Typed(storage, Named::Tagged),
            kind,
        ),
        State::Enumerators(storage) => on_word(State::Enumerator(storage), kind),
        State::Enumerator(storage) => on(
            Mark::Equal,
            State::EnumValue(storage),
            kind,
            after_enumerator(storage, kind),
        ),
        State::EnumValueClose(storage) => after_enumerator(storage, kind),
        State::EnumComma(storage) => on(
            Mark::CloseBrace,
            State::Typed(storage, Named::Tagged),
            kind,
            on_word(State::Enumerator(storage), kind),
        ),
        State::Declared(storage, _, defines) => after_declarator(storage, defines, kind),
        State::InitClose(storage) => either(
            Mark::Comma,
            State::NextDeclarator(storage),
            Mark::Semicolon,
            State::DeclarationEnd,
            kind,
        ),
        State::FunctionBlock => only(Mark::CloseBrace, State::DeclarationEnd, kind),
        State::BraceMore => either(
            Mark::Comma,
            State::BraceNext,
            Mark::CloseBrace,
            State::Braced,
            kind,
        ),
        State::BraceNext => only(Mark::CloseBrace, State::Braced, kind),
        State::Stars => on(
            Mark::Const,
            State::StarsConst,
            kind,
            begun_declarator(true, kind),
        ),
        State::StarsConst => begun_declarator(true, kind),
        State::Group(starred) => only(
            Mark::CloseParenthesis,
            State::Direct(starred, Shape::Nameless),
            kind,
        ),
        State::GroupClose(starred, shape) => only(
            Mark::CloseParenthesis,
            State::Direct(starred, shape),
            kind,
        ),
        State::Direct(starred, shape) => either(
            Mark::OpenBracket,
            State::Size(starred, shape),
            Mark::OpenParenthesis,
            State::Parameters(starred, shape),
            kind,
        ),
        State::Size(starred, shape) | State::SizeClose(starred, shape) => only(
            Mark::CloseBracket,
            State::Direct(starred, indexed(shape)),
            kind,
        ),
        State::Parameters(starred, shape) => only(
            Mark::CloseParenthesis,
            State::Direct(starred, applied(shape, true)),
            kind,
        ),
        State::ParametersMore(starred, shape, now, later) => either(
            Mark::Comma,
            State::ParametersNext(starred, shape, later),
            Mark::CloseParenthesis,
            State::Direct(starred, applied(shape, now)),
            kind,
        ),
        State::None
        | State::UnitEnd
        | State::Right(_)
        | State::Sizing
        | State::Sized
        | State::Paren
        | State::Index
        | State::CallNext => State::None,
        State::Quest
        | State::IfTest
        | State::ThenPart
        | State::HeadTest
        | State::Body
        | State::DoBody
        | State::DoTest
        | State::CaseValue => State::None,
        State::Statement(_)
        | State::EnumValue(_)
        | State::InitValue(_)
        | State::NextDeclarator(_)
        | State::DeclarationEnd
        | State::Braces
        | State::Braced
        | State::ParametersNext(_, _, _) => State::None,
    }
}
