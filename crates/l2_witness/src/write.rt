ghost use Rattle.std.specs.Prelude.{◌≡◌, IfOk, OnOk, ◌++◌, string_bytes};
ghost use Rattle.l2_witness.specs.ValuesFile.{InRange, choice_line, header, spelling, turns_line};

use crate::values::Values;
use std::alloc::{AllocError, Global};

/// The first two lines.
fn head_text(alloc: Global, turns: u64) -> Result<String, AllocError>
    ensures { IfOk result (λ text. string_bytes text ≡ header ++ turns_line turns) }
{
    format!(in alloc; "2ls values 1\nturns {turns}\n")
}

fn choice_text(alloc: Global, choice: i128) -> Result<String, AllocError>
    ensures { IfOk result (λ text. string_bytes text ≡ choice_line choice) }
{
    format!(in alloc; "choice {choice}\n")
}

fn push_choice(alloc: Global, bytes: &mut Vec<u8>, choice: i128) -> Result<(), AllocError>
    ensures { OnOk result (bytes.new.items ≡ bytes.old.items ++ choice_line choice) }
{
    let text = choice_text(alloc, choice)?;
    bytes.extend_from_slice(text.as_bytes())
}

/// The bytes that spell values, of which `read_values` makes the same values again.
pub fn write_values(alloc: Global, values: &Values) -> Result<Vec<u8>, AllocError>
    requires { InRange values.now.turns values.now.choices }
    ensures { IfOk result (λ bytes. bytes.items ≡ spelling values.now.turns values.now.choices) }
{
    let mut bytes = head_text(alloc, values.turns)?.into_bytes();
    for &choice in values.choices.as_slice() {
        push_choice(alloc, &mut bytes, choice)?;
    }
    bytes.extend_from_slice(b"end\n")?;
    Ok(bytes)
}
