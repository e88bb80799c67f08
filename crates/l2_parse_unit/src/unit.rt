// The unit of a text.
ghost use Rattle.std.specs.Prelude.{◌≡◌, None, map, [], IfOk, IfErr};
ghost use Rattle.l2_grammar.specs.Law as grammar;
ghost use Rattle.l2_grammar.specs.Limits.{Shallow as NoneFoundDeep};
ghost use Rattle.l2_lex.specs.Code.{lexed_of};
ghost use Rattle.l2_reader.specs.Parts.{seen, tree_of};
ghost use Rattle.l2_tree.specs.Units.{unit_tree};
ghost use Rattle.l2_parse_unit.specs.Reading.{Spells, IsRefused, OnRefusal, kept as as_kept};

use crate::built::externals;
use crate::copies::{constants, kept, names};
use crate::refusals::refusal;
use l2_bits::List;
use l2_reader::{Open, read};
use l2_syntax::{TextFault, Token, Tokens};
use l2_tree::Unit;
use std::alloc::{AllocError, Global};

/// The unit of a text that was read whole.
#[tactic(auto, using(crate::proofs::Wholes::wholes))]
fn unit_of(alloc: Global, tokens: &Tokens, plain: &[Token], text: &Open) -> Result<Unit, TextFault>
    requires unstopped { tokens.now.stop ≡ None }
    requires plain { map seen plain.now ≡ as_kept tokens.now.list }
    requires spelt { grammar.Spells (map seen plain.now) (tree_of text.now) }
    requires shallow { NoneFoundDeep (map seen plain.now) [] }
    ensures ok { IfOk result (λ u. Spells (lexed_of tokens.now) (unit_tree u)) }
    ensures err { IfErr result (λ e. e ≡ TextFault.NoMemory) }
{
    let _ = plain;
    let list = tokens.list.as_slice();
    match externals(alloc, text) {
        Ok(parts) => Ok(Unit {
            externals: List::new(parts),
            constants: List::new(constants(alloc, list)?),
            names: List::new(names(alloc, tokens.names.as_slice())?),
        }),
        Err(AllocError) => Err(TextFault::NoMemory),
    }
}

/// Reads the tokens of a text to the unit that they spell (C11 6.9), or to where reading stops.
///
/// The refusal is that of the first token that is too deep or with which no unit goes on, and behind the last token the lexical
/// refusal of the text.
#[tactic(auto, using(crate::proofs::Wholes::stopped_behind))]
pub fn parse(alloc: Global, tokens: &Tokens) -> Result<Unit, TextFault>
    ensures ok { IfOk result (λ u. Spells (lexed_of tokens.now) (unit_tree u)) }
    ensures refused { IfErr result (λ e. OnRefusal e (λ f. IsRefused (lexed_of tokens.now) f)) }
{
    let plain = kept(alloc, tokens.list.as_slice())?;
    match read(alloc, &plain) {
        Ok(text) => match tokens.stop {
            None => unit_of(alloc, tokens, &plain, &text),
            Some(refusal) => Err(TextFault::At(refusal)),
        },
        Err(cause) => Err(refusal(tokens, &plain, cause)),
    }
}
