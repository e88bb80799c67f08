ghost use Rattle.std.specs.Prelude.{◌≡◌, ◌<◌, ◌^◌, ◌++◌, ◌∷◌, length, IfOk, OnOk, codes, map};
ghost use Rattle.std.specs.List.{concat};
ghost use Rattle.std.specs.Fmt.{decimal, signed_decimal};
ghost use Rattle.l2_cnf.specs.Lines.{step_at};
ghost use Rattle.l2_derivation_file.specs.File.{spelling, step_text};

use l2_cnf::{Lines, Lit};
use std::alloc::{AllocError, Global};

fn value_of(literal: Lit) -> i128
    ensures { result ≡ literal }
{
    let variable = i128::from(literal.var());
    if literal.is_positive() {
        variable
    } else {
        -variable
    }
}

fn push_literal(alloc: Global, bytes: &mut Vec<u8>, literal: Lit) -> Result<(), AllocError>
    ensures { OnOk result (bytes.new.items ≡ bytes.old.items ++ 32 ∷ signed_decimal literal) }
{
    let value = value_of(literal);
    let text = format!(in alloc; " {value}")?;
    bytes.extend_from_slice(text.as_bytes())
}

fn push_hint(alloc: Global, bytes: &mut Vec<u8>, hint: u64) -> Result<(), AllocError>
    ensures { OnOk result (bytes.new.items ≡ bytes.old.items ++ 32 ∷ decimal hint) }
{
    let text = format!(in alloc; " {hint}")?;
    bytes.extend_from_slice(text.as_bytes())
}

fn push_literals(alloc: Global, bytes: &mut Vec<u8>, clause: &[Lit]) -> Result<(), AllocError>
    ensures { OnOk result (bytes.new.items ≡ bytes.old.items ++ concat (map (λ z. 32 ∷ signed_decimal z) clause.now)) }
{
    for &literal in clause {
        push_literal(alloc, bytes, literal)?;
    }
    Ok(())
}

fn push_hints(alloc: Global, bytes: &mut Vec<u8>, hints: &[u64]) -> Result<(), AllocError>
    ensures { OnOk result (bytes.new.items ≡ bytes.old.items ++ concat (map (λ n. 32 ∷ decimal n) hints.now)) }
{
    for &hint in hints {
        push_hint(alloc, bytes, hint)?;
    }
    Ok(())
}

fn push_step(alloc: Global, bytes: &mut Vec<u8>, steps: &Lines, i: u64) -> Result<(), AllocError>
    requires { i < length steps.now }
    ensures { OnOk result (bytes.new.items ≡ bytes.old.items ++ step_text (step_at steps.now i)) }
{
    let number = steps.number(i);
    let text = format!(in alloc; "{number}")?;
    bytes.extend_from_slice(text.as_bytes())?;
    push_literals(alloc, bytes, steps.clause(i))?;
    bytes.extend_from_slice(b" 0")?;
    push_hints(alloc, bytes, steps.hints(i))?;
    bytes.extend_from_slice(b" 0\n")?;
    Ok(())
}

/// The lines before the steps.
fn push_head(alloc: Global, bytes: &mut Vec<u8>, count: u64) -> Result<(), AllocError>
    ensures { OnOk result (bytes.new.items ≡ bytes.old.items ++ (codes "2ls derivation 1\nlines " ++ (decimal count ++ codes "\n"))) }
{
    let text = format!(in alloc; "2ls derivation 1\nlines {count}\n")?;
    bytes.extend_from_slice(text.as_bytes())
}

fn push_steps(alloc: Global, bytes: &mut Vec<u8>, steps: &Lines) -> Result<(), AllocError>
    ensures { OnOk result (bytes.new.items ≡ bytes.old.items ++ concat (map step_text steps.now)) }
{
    for i in 0..steps.len() {
        push_step(alloc, bytes, steps, i)?;
    }
    Ok(())
}

/// The bytes that spell steps, of which `read` makes the same steps again.
pub fn write(alloc: Global, steps: &Lines) -> Result<Vec<u8>, AllocError>
    ensures spelt { IfOk result (λ bytes. bytes.items ≡ spelling steps.now) }
    ensures few { length steps.now < 2 ^ 60 }
{
    let mut bytes = Vec::new(alloc);
    push_head(alloc, &mut bytes, steps.len())?;
    push_steps(alloc, &mut bytes, steps)?;
    bytes.extend_from_slice(b"end\n")?;
    Ok(bytes)
}
