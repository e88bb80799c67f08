// How far a construct has been read: the states of the grammar's networks.

/// Whether a declarator has a name.
#[derive(Clone, Copy)]
pub enum Naming {
    /// It must have one.
    Named,
    /// It may, as a parameter's.
    Optional,
    /// It has none, as in the name of a type.
    Absent,
}

/// Where a statement stands.
#[derive(Clone, Copy)]
pub enum Items {
    /// Where no declaration may stand.
    Lone,
    /// In a block, where a declaration may stand too.
    Listed,
    /// Where an `if` goes on with the statement that the `else` belongs to.
    BehindElse,
}

/// Which full expression stands at a place.
#[derive(Clone, Copy)]
pub enum Level {
    /// With commas.
    Comma,
    Assignment,
    Conditional,
}

/// What may stand at a place: the sorts of constructs (C11 6.5 to 6.9).
#[derive(Clone, Copy)]
pub enum Sort {
    /// A whole text.
    Unit,
    /// A function, a declaration, a typedef or `;`.
    External,
    Item(Items),
    /// The first part of a `for`: an expression without its `;`, or a declaration.
    ForFirst,
    /// A declaration of members.
    Member,
    Parameter,
    Declarator(Naming),
    /// Behind a `(` where a name may be missing: a declarator or a parameter.
    Enclosed(Naming),
    /// An expression that binds at least so tightly.
    Operand(u8),
    /// Behind a `(`: an expression or the name of a type.
    Inside,
    /// A unary expression, or the name of a type in parentheses.
    SizeofOperand,
    Initialiser,
    /// Nothing may stand here.
    Nowhere,
}

/// What waits for its right operand.
#[derive(Clone, Copy)]
pub enum Right {
    /// A binary operator of this level, the comma too.
    Binary(u8),
    Assignment,
    Conditional,
    Cast,
    Prefix,
    /// `++` and `--`.
    Update,
}

/// `static` or `extern`, or `typedef`, among the specifiers so far.
#[derive(Clone, Copy)]
pub enum Storage {
    Automatic,
    Stored,
    Typedef,
}

/// Length.
#[derive(Clone, Copy)]
pub enum Length {
    NoLength,
    Short,
    Long,
    LongLong,
}

/// Core.
#[derive(Clone, Copy)]
pub enum Core {
    NoCore,
    Int,
    Char,
}

/// The type among the specifiers so far.
#[derive(Clone, Copy)]
pub enum Named {
    /// With `signed` or `unsigned` or neither.
    Number(bool, Length, Core),
    /// `void`.
    Nothing,
    /// `_Bool`, or a type name.
    Other,
    /// `struct` and a word; `{` may follow.
    StructTag,
    /// `enum` and a word; `{` may follow.
    EnumTag,
    /// A struct or an enum to which nothing more belongs.
    Tagged,
}

/// What a declarator says of its name.
#[derive(Clone, Copy)]
pub enum Shape {
    Nameless,
    NameOnly,
    /// A function; where true, each of its parameters has a name.
    Function(bool),
    /// An array or a pointer.
    Derived,
}

/// State.
#[derive(Clone, Copy)]
pub enum State {
    /// No construct goes on so.
    None,
    /// Nothing was read; in a unit: whole externals were.
    Fresh,
    UnitEnd,
    /// An expression of this level stands.
    Have(u8),
    Right(Right),
    /// Behind `sizeof`.
    Sizing,
    /// `( type )` behind a `sizeof`.
    Sized,
    /// Behind a `(`.
    Paren,
    /// `)` comes, round an expression.
    ParenClose,
    /// `)` comes, round the name of a type.
    TypedClose,
    Index,
    IndexClose,
    Call,
    /// `,` or `)` comes.
    CallMore,
    /// A further argument comes.
    CallNext,
    /// Behind `.` or `->`.
    MemberName,
    Quest,
    /// `:` comes.
    QuestClose,
    /// A statement's first word, which may be a label.
    Word,
    Block,
    /// `(` comes.
    IfOpen,
    IfTest,
    IfClose,
    ThenPart,
    /// `else` may come; where false it would belong further in.
    ThenDone(bool),
    ElsePart,
    /// Behind `while` or `switch`: `(` comes.
    HeadOpen,
    HeadTest,
    HeadClose,
    /// A statement comes, and with it this one ends.
    Body,
    DoBody,
    DoWhile,
    DoOpen,
    DoTest,
    DoClose,
    ForOpen,
    ForInit,
    ForInitClose,
    ForSecond,
    ForSecondClose,
    ForThird,
    ForClose,
    CaseValue,
    /// `:` comes, then a statement.
    Colon,
    Returning,
    /// `;` comes, and with it the statement ends.
    Semicolon,
    /// A whole statement stands; where false an `else` could follow that would be a part of it.
    Statement(bool),
    BeforeType(Storage),
    Typed(Storage, Named),
    StructWord(Storage),
    EnumWord(Storage),
    Members(Storage),
    Enumerators(Storage),
    Enumerator(Storage),
    EnumValue(Storage),
    EnumValueClose(Storage),
    EnumComma(Storage),
    /// Behind a declarator; where true, a function's body may come.
    Declared(Storage, Shape, bool),
    InitValue(Storage),
    InitClose(Storage),
    NextDeclarator(Storage),
    DeclarationEnd,
    FunctionBlock,
    Braces,
    /// `,` or `}` comes.
    BraceMore,
    /// Behind a `,`.
    BraceNext,
    Braced,
    Stars,
    StarsConst,
    /// Behind a `(`.
    Group(bool),
    GroupClose(bool, Shape),
    Direct(bool, Shape),
    Size(bool, Shape),
    SizeClose(bool, Shape),
    Parameters(bool, Shape),
    /// Whether all have names: if `)` comes, and if `,` comes.
    ParametersMore(bool, Shape, bool, bool),
    ParametersNext(bool, Shape, bool),
}

/// What a whole construct is to the one round it.
#[derive(Clone, Copy)]
pub enum Outcome {
    Unfinished,
    Value,
    Stated(bool),
    Declaration,
    /// Specifiers, and perhaps a declarator: whether it has a name, and whether it is `void` alone.
    Specified(bool, bool),
    Declares(Shape),
}
