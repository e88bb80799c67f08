// What a unit keeps of its tokens.
ghost use Rattle.std.specs.Prelude.{◌≡◌, map, IfOk};
ghost use Rattle.l2_reader.specs.Parts.{seen};
ghost use Rattle.l2_tree.specs.Spelling.{plain, is_placed};
ghost use Rattle.l2_parse_unit.specs.Reading.{constants_of, is_constant, kept};

use l2_bits::List;
use l2_syntax::{Mark, Name, Place, Token, TokenKind};
use std::alloc::{AllocError, Global};

/// Where a tree keeps no place of a token.
const NOWHERE: Place = Place {
    offset: 0,
    line: 0,
    col: 0,
};

fn is_constant(kind: TokenKind) -> bool
    ensures { result ≡ is_constant kind }
{
    matches!(kind, TokenKind::Number { .. })
}

/// The constants among tokens, in their order.
pub fn constants(alloc: Global, tokens: &[Token]) -> Result<Vec<Token>, AllocError>
    ensures { IfOk result (λ all. all.items ≡ constants_of tokens.now) }
{
    let mut all = Vec::new(alloc);
    for token in tokens {
        if is_constant(token.kind) {
            all.push(*token)?;
        }
    }
    Ok(all)
}

fn name(alloc: Global, of: &Name) -> Result<Name, AllocError>
    ensures { IfOk result (λ n. n.bytes ≡ of.now.bytes) }
{
    Ok(Name {
        bytes: List::new(of.bytes.as_slice().to_vec(alloc)?),
    })
}

/// The same names.
pub fn names(alloc: Global, of: &[Name]) -> Result<Vec<Name>, AllocError>
    ensures { IfOk result (λ all. map (λ n. n.bytes) all.items ≡ map (λ n. n.bytes) of.now) }
{
    let mut all = Vec::new(alloc);
    for one in of {
        all.push(name(alloc, one)?)?;
    }
    Ok(all)
}

/// The tokens as trees keep them.
pub fn kept(alloc: Global, tokens: &[Token]) -> Result<Vec<Token>, AllocError>
    ensures { IfOk result (λ all. map seen all.items ≡ kept tokens.now) }
{
    let mut all = Vec::new(alloc);
    for token in tokens {
        all.push(plain(*token))?;
    }
    Ok(all)
}

/// A token without its place, where trees keep none.
fn plain(token: Token) -> Token
    ensures { seen result ≡ plain (seen token) }
{
    let place = if is_placed(token.kind) {
        token.place
    } else {
        NOWHERE
    };
    Token { place, ..token }
}

fn is_placed(kind: TokenKind) -> bool
    ensures { result ≡ is_placed kind }
{
    match kind {
        TokenKind::Mark(mark) => is_mark_placed(mark),
        TokenKind::End => false,
        TokenKind::Word(_) | TokenKind::TypeName(_) | TokenKind::Number { .. } | TokenKind::Text =>
            true,
    }
}

fn is_mark_placed(mark: Mark) -> bool
    ensures { result ≡ is_placed (TokenKind.Mark mark) }
{
    !matches!(
        mark,
        Mark::CloseParenthesis
            | Mark::CloseBracket
            | Mark::CloseBrace
            | Mark::Comma
            | Mark::Colon
            | Mark::Semicolon
            | Mark::Else
    )
}
