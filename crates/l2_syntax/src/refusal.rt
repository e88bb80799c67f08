ghost use Rattle.std.specs.Prelude.{◌≡◌, codes};
ghost use Rattle.l2_syntax.specs.Refusals.{rule_text};

use crate::place::Place;
use std::alloc::AllocError;

/// A rule that a text breaks, in the order in which rules stand at one place.
#[derive(Clone, Copy, Debug, PartialEq, Eq)]
pub enum Rule {
    /// A byte with which nothing can begin.
    Byte,
    /// A comment that isn't closed.
    Comment,
    /// A line that begins with `#` and is none of the profile's.
    Directive,
    /// A constant that is none of the profile's.
    Literal,
    /// A string literal that isn't closed on its line.
    BadString,
    /// A word that the profile leaves out.
    Keyword,
    /// Brackets or statements that nest too deep, or an expression that is too long.
    Nesting,
    /// A token with which no unit goes on.
    Syntax,
    UnknownName,
    Redeclared,
    BadType,
    Lvalue,
    Call,
    Recursion,
    Constant,
    Initialiser,
    Label,
    SwitchJump,
    Incomplete,
    Cells,
    MainForm,
    NoMain,
    /// A text that the program can't take yet.
    NotBuilt,
}

impl Rule {
    /// The rule's name, as it is printed.
    pub fn name(self) -> &'static str
        ensures { result.now ≡ rule_text self }
    {
        match self {
            Rule::Byte => "byte",
            Rule::Comment => "comment",
            Rule::Directive => "directive",
            Rule::Literal => "literal",
            Rule::BadString => "string",
            Rule::Keyword => "keyword",
            Rule::Nesting => "nesting",
            Rule::Syntax => "syntax",
            Rule::UnknownName => "unknown-name",
            Rule::Redeclared => "redeclared",
            Rule::BadType => "type",
            Rule::Lvalue => "lvalue",
            Rule::Call => "call",
            Rule::Recursion => "recursion",
            Rule::Constant => "constant",
            Rule::Initialiser => "initialiser",
            Rule::Label => "label",
            Rule::SwitchJump => "switch-jump",
            Rule::Incomplete => "incomplete",
            Rule::Cells => "cells",
            Rule::MainForm => "main-form",
            Rule::NoMain => "no-main",
            Rule::NotBuilt => "not-built",
        }
    }
}

/// Why a text isn't in the profile: the rule that it breaks, and where.
#[derive(Clone, Copy, Debug, PartialEq, Eq)]
pub struct Refusal {
    pub place: Place,
    pub rule: Rule,
}

/// What a call on a text answers in place of its result.
#[derive(Clone, Copy, Debug, PartialEq, Eq)]
pub enum TextFault {
    At(Refusal),
    NoMemory,
}

impl From<AllocError> for TextFault {
    ghost use Rattle.std.specs.Prelude.{◌≡◌};
    ghost use Rattle.l2_syntax.specs.declared.refusal.TextFault.{TextFault};
    ghost use Rattle.l2_syntax.specs.declared.refusal.TextFault.TheVariants.{NoMemory};

    ghost from_gives = { λ e f. f ≡ NoMemory };

    fn from(_error: AllocError) -> TextFault {
        TextFault::NoMemory
    }
}
