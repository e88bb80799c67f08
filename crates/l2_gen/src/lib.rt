//! A program of some loops, made from a seed: a large input that can be made again.
#![tactic(auto)]

ghost use Rattle.std.specs.Prelude.{◌≡◌, ◌≤◌, ◌<◌, ◌++◌, IfOk, OnOk, string_bytes};
ghost use Rattle.l2_gen.specs.Made.{assertion, constant, counting, declaration, loop, next, program};

use std::alloc::{AllocError, Global};

/// The next state of the linear congruential generator.
fn next(state: u32) -> u32
    ensures { result ≡ next state }
{
    state.wrapping_mul(1_664_525).wrapping_add(1_013_904_223)
}

/// The constant of a state: 10 to 99.
fn constant(state: u32) -> u32
    ensures { result ≡ constant state }
{
    10 + (state / 65536) % 90
}

fn push_declaration(alloc: Global, text: &mut String, number: u32) -> Result<(), AllocError>
    ensures { OnOk result (string_bytes text.new ≡ string_bytes text.old ++ declaration number) }
{
    let made = format!(in alloc; "unsigned a{number}=0;\n")?;
    text.push_str(made.as_str())?;
    Ok(())
}

fn push_while(alloc: Global, text: &mut String, number: u32, most: u32) -> Result<(), AllocError>
    ensures { OnOk result (string_bytes text.new ≡ string_bytes text.old ++ loop number most) }
{
    let made = format!(in alloc; "while(a{number}<{most})a{number}++;\n")?;
    text.push_str(made.as_str())?;
    Ok(())
}

fn push_assertion(
    alloc: Global,
    text: &mut String,
    number: u32,
    most: u32,
) -> Result<(), AllocError>
    ensures { OnOk result (string_bytes text.new ≡ string_bytes text.old ++ assertion number most) }
{
    let made = format!(in alloc; "assert(a{number}=={most});\n")?;
    text.push_str(made.as_str())?;
    Ok(())
}

/// The loop of this number, which counts to a constant.
fn push_loop(alloc: Global, text: &mut String, number: u32, most: u32) -> Result<(), AllocError>
    ensures { OnOk result (string_bytes text.new ≡ string_bytes text.old ++ counting number most) }
{
    push_declaration(alloc, text, number)?;
    push_while(alloc, text, number, most)?;
    push_assertion(alloc, text, number, most)?;
    Ok(())
}

/// A program of so many loops, each with a variable and a constant of its own.
pub fn program_of(alloc: Global, seed: u32, loops: u32) -> Result<String, AllocError>
    ensures { IfOk result (λ text. string_bytes text ≡ program seed loops) }
{
    let mut text = String::from_str(alloc, "int main(void){\n")?;
    let mut state = seed;
    for i in 0..loops {
        state = next(state);
        push_loop(alloc, &mut text, i + 1, constant(state))?;
    }
    text.push_str("return 0;\n}\n")?;
    Ok(text)
}
