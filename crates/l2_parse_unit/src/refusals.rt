// Where reading stops, as a refusal of the text.
ghost use Rattle.std.specs.Prelude.{◌≡◌, ◌<◌, ◌≤◌, ◌≢◌, List, length, map, drop, slice_index_or};
ghost use Rattle.l2_lex.specs.Code.{lexed_of};
ghost use Rattle.l2_reader.specs.Parts.{seen};
ghost use Rattle.l2_reader.specs.Readings.{IsRefusal, InText};
ghost use Rattle.l2_parse_unit.specs.Reading.{IsRefused, OnRefusal, kept, last_place, start};

use l2_reader::ParseError;
use l2_syntax::{Place, Refusal, Rule, TextFault, Token, Tokens};

/// Where a text starts.
const START: Place = Place {
    offset: 0,
    line: 1,
    col: 1,
};

/// Where the last of some tokens stands.
pub fn last_place(tokens: &[Token]) -> Place
    ensures { result ≡ last_place start tokens.now }
{
    let mut place = START;
    for token in tokens {
        place = token.place;
    }
    place
}

/// The refusal at a token, or behind the last.
#[tactic(auto, using(crate::proofs::Places::places))]
fn syntax_at(tokens: &Tokens, plain: &[Token], index: usize) -> Refusal
    requires plain { map seen plain.now ≡ kept tokens.now.list }
    requires within { index ≤ length plain.now }
    requires stops { IsRefusal plain.now (ParseError.Syntax index) }
    ensures { IsRefused (lexed_of tokens.now) result }
{
    let list = tokens.list.as_slice();
    if index < list.len() {
        return Refusal {
            place: list[index].place,
            rule: Rule::Syntax,
        };
    }
    match tokens.stop {
        Some(refusal) => refusal,
        None => Refusal {
            place: last_place(list),
            rule: Rule::Syntax,
        },
    }
}

/// The refusal of a text, some tokens of which aren't read.
#[tactic(auto, using(crate::proofs::Places::places))]
pub fn refusal(tokens: &Tokens, plain: &[Token], cause: ParseError) -> TextFault
    requires plain { map seen plain.now ≡ kept tokens.now.list }
    requires within { InText plain.now cause }
    requires refused { IsRefusal plain.now cause }
    ensures { OnRefusal result (λ f. IsRefused (lexed_of tokens.now) f) }
{
    match cause {
        ParseError::Nesting(index) => TextFault::At(Refusal {
            place: tokens.list.as_slice()[index].place,
            rule: Rule::Nesting,
        }),
        ParseError::Syntax(index) => TextFault::At(syntax_at(tokens, plain, index)),
        ParseError::NoMemory => TextFault::NoMemory,
    }
}
