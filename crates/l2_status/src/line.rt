ghost use Rattle.std.specs.Prelude.{◌≡◌, ◌++◌, decimal, IfOk, OnOk, string_bytes};
ghost use Rattle.l2_syntax.specs.Places.{place_text};
ghost use Rattle.l2_syntax.specs.Refusals.{rule_text};
ghost use Rattle.l2_status.specs.Printed.{refusal_line};

use l2_syntax::{Place, Refusal};
use std::alloc::{AllocError, Global};

/// A number behind a text.
pub fn push_number(alloc: Global, text: &mut String, n: u64) -> Result<(), AllocError>
    ensures { OnOk result (string_bytes text.new ≡ string_bytes text.old ++ decimal n) }
{
    text.push_str(format!(in alloc; "{n}")?.as_str())
}

/// `LINE:COL`.
pub fn place_text(alloc: Global, place: Place) -> Result<String, AllocError>
    ensures { IfOk result (λ s. string_bytes s ≡ place_text place) }
{
    let mut text = String::new(alloc);
    push_number(alloc, &mut text, u64::from(place.line))?;
    text.push_str(":")?;
    push_number(alloc, &mut text, u64::from(place.col))?;
    Ok(text)
}

/// The line that is printed for a text that is refused.
pub fn refusal_line(alloc: Global, refusal: Refusal) -> Result<Vec<u8>, AllocError>
    ensures { IfOk result (λ line. line.items ≡ refusal_line refusal) }
{
    let place = place_text(alloc, refusal.place)?;
    let mut text = String::from_str(alloc, "REFUSED ")?;
    text.push_str(place.as_str())?;
    text.push_str(" ")?;
    text.push_str(refusal.rule.name())?;
    text.push_str("\n")?;
    Ok(text.into_bytes())
}
