// What the lexer says of a text.
use l2_lex::tokens;
use l2_limits::TEXT_LIMIT;
use l2_syntax::Tokens;
use std::alloc::{AllocError, Global};

/// The tokens of a text, unless it is longer than a text may be.
fn lexed(alloc: Global, text: &[u8]) -> Result<Option<Tokens>, AllocError> {
    if text.len() as u64 > TEXT_LIMIT {
        return Ok(None);
    }
    Ok(Some(tokens(alloc, text)?))
}

/// Where the lexer stops, and by which rule.
pub fn stop(alloc: Global, text: &[u8]) -> Result<String, AllocError> {
    match lexed(alloc, text)? {
        None => String::from_str(alloc, "too long"),
        Some(read) => match read.stop {
            None => String::from_str(alloc, "none"),
            Some(refusal) => {
                let (line, col) = (refusal.place.line, refusal.place.col);
                let rule = refusal.rule.name();
                format!(in alloc; "{line}:{col} {rule}")
            }
        },
    }
}

/// The kinds of the tokens of a text.
pub fn kinds(alloc: Global, text: &[u8]) -> Result<String, AllocError> {
    let mut all = String::new(alloc);
    if let Some(read) = lexed(alloc, text)? {
        for token in read.list.as_slice() {
            let kind = token.kind;
            all.push_str(format!(in alloc; "{kind:?} ")?.as_str())?;
        }
    }
    Ok(all)
}

/// Where the tokens of a text stand: offset, line and column, and length.
pub fn places(alloc: Global, text: &[u8]) -> Result<String, AllocError> {
    let mut all = String::new(alloc);
    if let Some(read) = lexed(alloc, text)? {
        for token in read.list.as_slice() {
            let (offset, length) = (token.place.offset, token.length);
            let (line, col) = (token.place.line, token.place.col);
            all.push_str(format!(in alloc; "{offset} {line}:{col} {length}; ")?.as_str())?;
        }
    }
    Ok(all)
}
