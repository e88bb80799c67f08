ghost use Rattle.std.specs.Prelude.{◌≡◌, ◌≤◌, ◌++◌, ◌∷◌, None, IfOk, OnOk, codes};
ghost use Rattle.std.specs.Fmt.{signed_decimal};
ghost use Rattle.l2_cnf.specs.Assignment.{completed};
ghost use Rattle.l2_sat.specs.Texts.{literal_of, model_text, numbered};

use crate::answer::Answer;
use crate::status::SatStatus;
use l2_cnf::Assignment;
use std::alloc::{AllocError, Global};

/// An answer whose text is the same for all words and files.
pub fn fixed<'a>(alloc: Global, status: SatStatus, text: &str) -> Result<Answer<'a>, AllocError>
    ensures { IfOk result (λ a. (a.status ≡ status) × (a.output.items ≡ text.now) × (a.written ≡ None)) }
{
    Ok(Answer {
        status,
        output: String::from_str(alloc, text)?.into_bytes(),
        written: None,
    })
}

/// An answer of words and a number.
pub fn numbered<'a>(
    alloc: Global,
    status: SatStatus,
    words: &str,
    number: u64,
) -> Result<Answer<'a>, AllocError>
    ensures { IfOk result (λ a. (a.status ≡ status) × (a.output.items ≡ numbered words.now number) × (a.written ≡ None)) }
{
    Ok(Answer {
        status,
        output: format!(in alloc; "{words}{number}\n")?.into_bytes(),
        written: None,
    })
}

/// The literal of a variable that is true; one without a value is false.
fn literal(values: &Assignment, var: u64) -> i128
    requires { 1 ≤ var }
    ensures { result ≡ literal_of (completed values.now var) var }
{
    let value = i128::from(var);
    match values.get(var) {
        Some(true) => value,
        _ => -value,
    }
}

fn push_literal(
    alloc: Global,
    bytes: &mut Vec<u8>,
    values: &Assignment,
    var: u64,
) -> Result<(), AllocError>
    requires { 1 ≤ var }
    ensures { OnOk result (bytes.new.items ≡ bytes.old.items ++ 32 ∷ signed_decimal (literal_of (completed values.now var) var)) }
{
    let value = literal(values, var);
    let text = format!(in alloc; " {value}")?;
    bytes.extend_from_slice(text.as_bytes())
}

/// The text of values of the variables up to one.
pub fn model_text(alloc: Global, values: &Assignment, variables: u64) -> Result<Vec<u8>, AllocError>
    requires { variables ≤ 10000000 }
    ensures { IfOk result (λ bytes. bytes.items ≡ model_text (completed values.now) variables) }
{
    let mut bytes = String::from_str(alloc, "s SATISFIABLE\nv")?.into_bytes();
    for i in 0..variables {
        push_literal(alloc, &mut bytes, values, i + 1)?;
    }
    bytes.extend_from_slice(b" 0\n")?;
    Ok(bytes)
}
