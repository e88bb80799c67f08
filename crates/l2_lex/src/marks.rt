// What marks do to a typedef, and what stands before a word.
ghost use Rattle.std.specs.Prelude.{◌≡◌, ◌<◌, ◌+◌, ◌^◌, ◌≤◌};
ghost use Rattle.l2_lex.specs.States.{ends_typedef, in_typedef, begins_typedef, typedef_behind, before_tag, before_word, declares};

use crate::state::Typedef;
use l2_syntax::{Mark, TokenKind};

/// Whether a mark is the `;` that ends a typedef.
pub fn ends_typedef(mark: Mark, typedef: Typedef) -> bool
    ensures { result ≡ ends_typedef mark typedef }
{
    match mark {
        Mark::Semicolon => typedef.is_open && typedef.braces == 0,
        _ => false,
    }
}

fn in_typedef(mark: Mark, typedef: Typedef) -> Typedef
    requires braces { typedef.braces < 2 ^ 31 }
    requires brackets { typedef.brackets < 2 ^ 31 }
    ensures value { result ≡ in_typedef mark typedef }
    ensures braces { result.braces ≤ typedef.braces + 1 }
    ensures brackets { result.brackets ≤ typedef.brackets + 1 }
{
    match mark {
        Mark::OpenBrace => Typedef {
            is_open: typedef.is_open,
            braces: typedef.braces + 1,
            brackets: typedef.brackets,
        },
        Mark::CloseBrace => Typedef {
            is_open: typedef.is_open,
            braces: typedef.braces.saturating_sub(1),
            brackets: typedef.brackets,
        },
        Mark::OpenBracket => Typedef {
            is_open: typedef.is_open,
            braces: typedef.braces,
            brackets: typedef.brackets + 1,
        },
        Mark::CloseBracket => Typedef {
            is_open: typedef.is_open,
            braces: typedef.braces,
            brackets: typedef.brackets.saturating_sub(1),
        },
        _ => typedef,
    }
}

fn begins_typedef(mark: Mark) -> bool
    ensures { result ≡ begins_typedef mark }
{
    matches!(mark, Mark::Typedef)
}

/// The typedef behind a mark that doesn't end it.
pub fn typedef_behind(mark: Mark, typedef: Typedef) -> Typedef
    requires braces { typedef.braces < 2 ^ 31 }
    requires brackets { typedef.brackets < 2 ^ 31 }
    ensures value { result ≡ typedef_behind mark typedef }
    ensures braces { result.braces ≤ typedef.braces + 1 }
    ensures brackets { result.brackets ≤ typedef.brackets + 1 }
{
    if typedef.is_open {
        in_typedef(mark, typedef)
    } else if begins_typedef(mark) {
        Typedef {
            is_open: true,
            braces: 0,
            brackets: 0,
        }
    } else {
        typedef
    }
}

/// Whether a word behind this token is a tag.
pub fn before_tag(kind: TokenKind) -> bool
    ensures { result ≡ before_tag kind }
{
    matches!(
        kind,
        TokenKind::Mark(Mark::Struct) | TokenKind::Mark(Mark::Enum)
    )
}

/// Whether a word behind this token is a tag or a member.
pub fn before_word(kind: TokenKind) -> bool
    ensures { result ≡ before_word kind }
{
    match kind {
        TokenKind::Mark(Mark::Dot) => true,
        TokenKind::Mark(Mark::Arrow) => true,
        _ => before_tag(kind),
    }
}

/// Whether a typedef declares a word that stands behind this token.
pub fn declares(typedef: Typedef, before: TokenKind) -> bool
    ensures { result ≡ declares typedef before }
{
    typedef.is_open && typedef.braces == 0 && typedef.brackets == 0 && !before_tag(before)
}
