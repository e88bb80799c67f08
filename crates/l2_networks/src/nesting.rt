// Which constructs stand in which, and what a whole one is to the one round it.
ghost use Rattle.std.specs.Prelude.{◌≡◌, ◌≤◌, ◌&&◌, true, false, cond, leb};
ghost use Rattle.l2_grammar.specs.Networks.{level_of, wanted_by, starred, indexed};
ghost use Rattle.l2_grammar.specs.Nesting.{is_unit, values, least, value_at, takes_type, naming, own_naming, grouped, is_named, names, opens, is_nothing, outcome, behind_value, behind_statement, behind_item, behind_declaration, behind_inside, behind_first, defines, behind_declarator, behind_parameter, behind_next_parameter, behind_group, on_child, is_item, is_external, is_sizeof, is_initialiser, declares_in, is_automatic, is_typedef, specifies, initialises, ends_declaration, is_declarator, shaped, stands};

use l2_grammar::{Items, Named, Naming, Outcome, Right, Shape, Sort, State, Storage};

fn is_unit(sort: Sort) -> bool
    ensures { result ≡ is_unit sort }
{
    matches!(sort, Sort::Unit)
}

fn values(sort: Sort) -> bool
    ensures { result ≡ values sort }
{
    match sort {
        Sort::Item(_)
        | Sort::ForFirst
        | Sort::Operand(_)
        | Sort::Inside
        | Sort::SizeofOperand
        | Sort::Initialiser => true,
        _ => false,
    }
}

fn least(sort: Sort) -> u8
    ensures { result ≡ least sort }
{
    match sort {
        Sort::Operand(level) => level,
        Sort::SizeofOperand => 15,
        Sort::Initialiser => 2,
        _ => 1,
    }
}

fn value_at(level: u8, sort: Sort) -> bool
    ensures { result ≡ value_at level sort }
{
    values(sort) && least(sort) <= level
}

fn takes_type(sort: Sort) -> bool
    ensures { result ≡ takes_type sort }
{
    match sort {
        Sort::SizeofOperand => true,
        _ => value_at(14, sort),
    }
}

fn naming(sort: Sort) -> Naming
    ensures { result ≡ naming sort }
{
    match sort {
        Sort::Parameter | Sort::Enclosed(_) => Naming::Optional,
        Sort::Inside => Naming::Absent,
        _ => Naming::Named,
    }
}

fn own_naming(sort: Sort) -> Naming
    ensures { result ≡ own_naming sort }
{
    match sort {
        Sort::Declarator(naming) | Sort::Enclosed(naming) => naming,
        _ => Naming::Named,
    }
}

fn grouped(naming: Naming) -> Sort
    ensures { result ≡ grouped naming }
{
    match naming {
        Naming::Named => Sort::Declarator(Naming::Named),
        other => Sort::Enclosed(other),
    }
}

fn is_named(shape: Shape) -> bool
    ensures { result ≡ is_named shape }
{
    match shape {
        Shape::Nameless => false,
        _ => true,
    }
}

fn names(naming: Naming, shape: Shape) -> bool
    ensures { result ≡ names naming shape }
{
    match naming {
        Naming::Named => is_named(shape),
        Naming::Optional => true,
        Naming::Absent => !is_named(shape),
    }
}

fn level_of(right: Right) -> u8
    ensures { result ≡ level_of right }
{
    match right {
        Right::Binary(level) => level,
        Right::Assignment => 2,
        Right::Conditional => 3,
        Right::Cast => 14,
        Right::Prefix | Right::Update => 15,
    }
}

/// The level that the right operand wants; 255 where it would be greater.
fn wanted_by(right: Right) -> u8
    ensures low { wanted_by right ≤ 16 → result ≡ wanted_by right }
    ensures high { 17 ≤ wanted_by right → 17 ≤ result }
{
    match right {
        Right::Binary(level) => level.saturating_add(1),
        Right::Assignment => 2,
        Right::Conditional => 3,
        Right::Cast | Right::Prefix => 14,
        Right::Update => 15,
    }
}

fn starred(star: bool, shape: Shape) -> Shape
    ensures { result ≡ starred star shape }
{
    match shape {
        Shape::NameOnly => if star {
            Shape::Derived
        } else {
            Shape::NameOnly
        },
        other => other,
    }
}

fn is_nothing(named: Named) -> bool
    ensures { result ≡ is_nothing named }
{
    matches!(named, Named::Nothing)
}

/// What may stand in a construct that is in this state.
#[tactic(auto, unfolding(l2_grammar::specs::Nesting::opens))]
pub fn opens(sort: Sort, state: State) -> Sort
    requires standing { stands sort state ≡ true }
    ensures { result ≡ opens sort state }
{
    match state {
        State::Fresh => if is_unit(sort) {
            Sort::External
        } else {
            Sort::Nowhere
        },
        State::Right(right) => Sort::Operand(wanted_by(right)),
        State::Sizing => Sort::SizeofOperand,
        State::Paren => if takes_type(sort) {
            Sort::Inside
        } else {
            Sort::Operand(1)
        },
        State::Index
        | State::Quest
        | State::IfTest
        | State::HeadTest
        | State::DoTest
        | State::ForSecond
        | State::ForThird
        | State::Returning
        | State::Size(_, _) => Sort::Operand(1),
        State::Call | State::CallNext => Sort::Operand(2),
        State::CaseValue | State::EnumValue(_) => Sort::Operand(3),
        State::Block | State::FunctionBlock => Sort::Item(Items::Listed),
        State::ThenPart | State::Body | State::DoBody => Sort::Item(Items::Lone),
        State::ElsePart => Sort::Item(Items::BehindElse),
        State::ForInit => Sort::ForFirst,
        State::Typed(_, _) | State::NextDeclarator(_) => Sort::Declarator(naming(sort)),
        State::Members(_) => Sort::Member,
        State::InitValue(_) | State::Braces | State::BraceNext => Sort::Initialiser,
        State::Group(_) => grouped(own_naming(sort)),
        State::Parameters(_, _) | State::ParametersNext(_, _, _) => Sort::Parameter,
        _ => Sort::Nowhere,
    }
}

/// What a construct in this state is as a whole.
#[tactic(auto, unfolding(l2_grammar::specs::Nesting::outcome))]
pub fn outcome(state: State) -> Outcome
    ensures { result ≡ outcome state }
{
    match state {
        State::Have(_) | State::Sized | State::Braced => Outcome::Value,
        State::Statement(shut) => Outcome::Stated(shut),
        State::ThenDone(_) => Outcome::Stated(false),
        State::DeclarationEnd => Outcome::Declaration,
        State::Typed(_, named) => Outcome::Specified(false, is_nothing(named)),
        State::Declared(_, shape, _) => Outcome::Specified(is_named(shape), false),
        State::Stars | State::StarsConst => Outcome::Declares(Shape::Nameless),
        State::Direct(star, shape) => Outcome::Declares(starred(star, shape)),
        _ => Outcome::Unfinished,
    }
}

fn behind_value(state: State, outcome: Outcome) -> State
    ensures { result ≡ behind_value state outcome }
{
    match outcome {
        Outcome::Value => state,
        _ => State::None,
    }
}

fn behind_item(state: State, outcome: Outcome) -> State
    ensures { result ≡ behind_item state outcome }
{
    match outcome {
        Outcome::Stated(_) | Outcome::Declaration => state,
        _ => State::None,
    }
}

fn behind_declaration(state: State, outcome: Outcome) -> State
    ensures { result ≡ behind_declaration state outcome }
{
    match outcome {
        Outcome::Declaration => state,
        _ => State::None,
    }
}

fn behind_then(outcome: Outcome) -> State
    ensures { result ≡ behind_statement State.ThenDone outcome }
{
    match outcome {
        Outcome::Stated(shut) => State::ThenDone(shut),
        _ => State::None,
    }
}

fn behind_body(outcome: Outcome) -> State
    ensures { result ≡ behind_statement State.Statement outcome }
{
    match outcome {
        Outcome::Stated(shut) => State::Statement(shut),
        _ => State::None,
    }
}

fn behind_do(outcome: Outcome) -> State
    ensures { result ≡ behind_statement (λ b. State.DoWhile) outcome }
{
    match outcome {
        Outcome::Stated(_) => State::DoWhile,
        _ => State::None,
    }
}

fn behind_inside(outcome: Outcome) -> State
    ensures { result ≡ behind_inside outcome }
{
    match outcome {
        Outcome::Value => State::ParenClose,
        Outcome::Specified(_, _) => State::TypedClose,
        _ => State::None,
    }
}

fn behind_first(outcome: Outcome) -> State
    ensures { result ≡ behind_first outcome }
{
    match outcome {
        Outcome::Value => State::ForInitClose,
        Outcome::Declaration => State::ForSecond,
        _ => State::None,
    }
}

fn defines(storage: Storage, shape: Shape) -> bool
    ensures { result ≡ defines storage shape }
{
    match storage {
        Storage::Typedef => false,
        _ => match shape {
            Shape::Function(all_named) => all_named,
            _ => false,
        },
    }
}

/// Behind the first declarator of a declaration.
fn behind_declarator(naming: Naming, storage: Storage, outcome: Outcome) -> State
    ensures { result ≡ behind_declarator naming (λ h. State.Declared storage h (defines storage h)) outcome }
{
    match outcome {
        Outcome::Declares(shape) => if names(naming, shape) {
            State::Declared(storage, shape, defines(storage, shape))
        } else {
            State::None
        },
        _ => State::None,
    }
}

fn behind_next_declarator(naming: Naming, storage: Storage, outcome: Outcome) -> State
    ensures { result ≡ behind_declarator naming (λ h. State.Declared storage h false) outcome }
{
    match outcome {
        Outcome::Declares(shape) => if names(naming, shape) {
            State::Declared(storage, shape, false)
        } else {
            State::None
        },
        _ => State::None,
    }
}

fn behind_parameter(star: bool, shape: Shape, outcome: Outcome) -> State
    ensures { result ≡ behind_parameter star shape true outcome }
{
    match outcome {
        Outcome::Specified(named, void) => State::ParametersMore(star, shape, named || void, named),
        _ => State::None,
    }
}

fn behind_next_parameter(star: bool, shape: Shape, all_named: bool, outcome: Outcome) -> State
    ensures { result ≡ behind_next_parameter star shape all_named outcome }
{
    match outcome {
        Outcome::Specified(named, _) => State::ParametersMore(
            star,
            shape,
            all_named && named,
            all_named && named,
        ),
        _ => State::None,
    }
}

fn behind_group(naming: Naming, star: bool, outcome: Outcome) -> State
    ensures { result ≡ behind_group naming star outcome }
{
    match outcome {
        Outcome::Declares(shape) => if names(naming, shape) {
            State::GroupClose(star, shape)
        } else {
            State::None
        },
        Outcome::Specified(_, _) => State::ParametersMore(star, Shape::Nameless, false, false),
        _ => State::None,
    }
}

/// A construct of this sort, in this state, behind a construct that stands in it.
#[tactic(auto, unfolding(l2_grammar::specs::Nesting::on_child))]
pub fn on_child(sort: Sort, state: State, outcome: Outcome) -> State
    ensures { result ≡ on_child sort state outcome }
{
    match state {
        State::Fresh => behind_declaration(State::Fresh, outcome),
        State::Right(right) => behind_value(State::Have(level_of(right)), outcome),
        State::Sizing => behind_value(State::Have(15), outcome),
        State::Paren => behind_inside(outcome),
        State::Index => behind_value(State::IndexClose, outcome),
        State::Call | State::CallNext => behind_value(State::CallMore, outcome),
        State::Quest => behind_value(State::QuestClose, outcome),
        State::Block => behind_item(State::Block, outcome),
        State::IfTest => behind_value(State::IfClose, outcome),
        State::ThenPart => behind_then(outcome),
        State::ElsePart | State::Body => behind_body(outcome),
        State::HeadTest => behind_value(State::HeadClose, outcome),
        State::DoBody => behind_do(outcome),
        State::DoTest => behind_value(State::DoClose, outcome),
        State::ForInit => behind_first(outcome),
        State::ForSecond => behind_value(State::ForSecondClose, outcome),
        State::ForThird => behind_value(State::ForClose, outcome),
        State::CaseValue => behind_value(State::Colon, outcome),
        State::Returning => behind_value(State::Semicolon, outcome),
        State::Typed(storage, _) => behind_declarator(naming(sort), storage, outcome),
        State::Members(storage) => behind_declaration(State::Members(storage), outcome),
        State::EnumValue(storage) => behind_value(State::EnumValueClose(storage), outcome),
        State::InitValue(storage) => behind_value(State::InitClose(storage), outcome),
        State::NextDeclarator(storage) => behind_next_declarator(naming(sort), storage, outcome),
        State::FunctionBlock => behind_item(State::FunctionBlock, outcome),
        State::Braces | State::BraceNext => behind_value(State::BraceMore, outcome),
        State::Group(star) => behind_group(own_naming(sort), star, outcome),
        State::Size(star, shape) => behind_value(State::SizeClose(star, shape), outcome),
        State::Parameters(star, shape) => behind_parameter(star, shape, outcome),
        State::ParametersNext(star, shape, all_named) => behind_next_parameter(
            star, shape, all_named, outcome,
        ),
        _ => State::None,
    }
}

fn is_item(sort: Sort) -> bool
    ensures { result ≡ is_item sort }
{
    matches!(sort, Sort::Item(_))
}

fn is_external(sort: Sort) -> bool
    ensures { result ≡ is_external sort }
{
    matches!(sort, Sort::External)
}

fn is_sizeof(sort: Sort) -> bool
    ensures { result ≡ is_sizeof sort }
{
    matches!(sort, Sort::SizeofOperand)
}

fn is_initialiser(sort: Sort) -> bool
    ensures { result ≡ is_initialiser sort }
{
    matches!(sort, Sort::Initialiser)
}

fn is_automatic(storage: Storage) -> bool
    ensures { result ≡ is_automatic storage }
{
    matches!(storage, Storage::Automatic)
}

fn is_typedef(storage: Storage) -> bool
    ensures { result ≡ is_typedef storage }
{
    matches!(storage, Storage::Typedef)
}

fn declares_in(items: Items) -> bool
    ensures { result ≡ declares_in items }
{
    matches!(items, Items::Listed)
}

fn specifies(sort: Sort, storage: Storage) -> bool
    ensures { result ≡ specifies sort storage }
{
    match sort {
        Sort::External => true,
        Sort::Item(items) => declares_in(items) && !is_typedef(storage),
        Sort::ForFirst => !is_typedef(storage),
        Sort::Member | Sort::Parameter | Sort::Enclosed(_) | Sort::Inside => is_automatic(storage),
        _ => false,
    }
}

fn initialises(sort: Sort, storage: Storage) -> bool
    ensures { result ≡ initialises sort storage }
{
    match sort {
        Sort::External | Sort::ForFirst => !is_typedef(storage),
        Sort::Item(items) => declares_in(items) && !is_typedef(storage),
        _ => false,
    }
}

fn ends_declaration(sort: Sort) -> bool
    ensures { result ≡ ends_declaration sort }
{
    match sort {
        Sort::External | Sort::ForFirst | Sort::Member => true,
        Sort::Item(items) => declares_in(items),
        _ => false,
    }
}

fn is_declarator(sort: Sort) -> bool
    ensures { result ≡ is_declarator sort }
{
    matches!(sort, Sort::Declarator(_) | Sort::Enclosed(_))
}

fn shaped(sort: Sort, shape: Shape) -> bool
    ensures { result ≡ shaped sort shape }
{
    is_declarator(sort) && names(own_naming(sort), shape)
}

fn right_stands(sort: Sort, right: Right) -> bool
    ensures { result ≡ (value_at (level_of right) sort && leb (wanted_by right) 16) }
{
    value_at(level_of(right), sort) && wanted_by(right) <= 16
}

fn have_stands(sort: Sort, level: u8) -> bool
    ensures { result ≡ (value_at level sort && leb level 16) }
{
    value_at(level, sort) && level <= 16
}

/// Whether a construct of this sort may be in this state.
#[tactic(auto, unfolding(l2_grammar::specs::Nesting::stands))]
pub fn stands(sort: Sort, state: State) -> bool
    ensures { result ≡ stands sort state }
{
    match state {
        State::None => false,
        State::Fresh | State::UnitEnd => is_unit(sort),
        State::Have(level) => have_stands(sort, level),
        State::Right(right) => right_stands(sort, right),
        State::Sizing => value_at(15, sort),
        State::Sized => is_sizeof(sort),
        State::TypedClose => takes_type(sort),
        State::Paren
        | State::ParenClose
        | State::Index
        | State::IndexClose
        | State::Call
        | State::CallMore
        | State::CallNext
        | State::MemberName => value_at(16, sort),
        State::Quest | State::QuestClose => value_at(3, sort),
        State::BeforeType(storage)
        | State::Typed(storage, _)
        | State::StructWord(storage)
        | State::EnumWord(storage)
        | State::Members(storage)
        | State::Enumerators(storage)
        | State::Enumerator(storage)
        | State::EnumValue(storage)
        | State::EnumValueClose(storage)
        | State::EnumComma(storage) => specifies(sort, storage),
        State::Declared(storage, shape, _) => specifies(sort, storage)
            && names(naming(sort), shape),
        State::InitValue(storage) | State::InitClose(storage) => initialises(sort, storage),
        State::NextDeclarator(storage) => ends_declaration(sort) && specifies(sort, storage),
        State::DeclarationEnd => ends_declaration(sort),
        State::FunctionBlock => is_external(sort),
        State::Braces | State::BraceMore | State::BraceNext | State::Braced => is_initialiser(sort),
        State::Stars | State::StarsConst | State::Group(_) => is_declarator(sort),
        State::GroupClose(_, shape)
        | State::Direct(_, shape)
        | State::Size(_, shape)
        | State::SizeClose(_, shape)
        | State::Parameters(_, shape)
        | State::ParametersMore(_, shape, _, _)
        | State::ParametersNext(_, shape, _) => shaped(sort, shape),
        State::Word
        | State::Block
        | State::IfOpen
        | State::IfTest
        | State::IfClose
        | State::ThenPart
        | State::ElsePart
        | State::HeadOpen => is_item(sort),
        State::HeadTest
        | State::HeadClose
        | State::Body
        | State::DoBody
        | State::DoWhile
        | State::DoOpen
        | State::DoTest
        | State::DoClose => is_item(sort),
        State::ForOpen
        | State::ForInit
        | State::ForInitClose
        | State::ForSecond
        | State::ForSecondClose
        | State::ForThird
        | State::ForClose
        | State::CaseValue => is_item(sort),
        State::Colon
        | State::Returning
        | State::Semicolon
        | State::ThenDone(_)
        | State::Statement(_) => is_item(sort),
    }
}
