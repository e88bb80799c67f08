// Forms.
ghost use Rattle.std.specs.Prelude.{◌≡◌, ◌++◌, OnOk};
ghost use Rattle.l2_program.specs.Programs.{program_tree};
ghost use Rattle.l2_verdict_text.specs.Texts.{first_sign, form_text, second_sign, second_text};

use l2_program::Program;
use l2_show::push_object;
use l2_templates::Form;
use std::alloc::{AllocError, Global};

fn first_sign(plus: bool) -> &'static str
    ensures { result.now ≡ first_sign plus }
{
    if plus { "" } else { "-" }
}

fn second_sign(plus: bool) -> &'static str
    ensures { result.now ≡ second_sign plus }
{
    if plus { "+" } else { "-" }
}

/// The second variable, where there is one.
#[tactic(auto, using(std::proofs::Common::append_assoc))]
fn push_second(
    alloc: Global,
    out: &mut Vec<u8>,
    program: &Program,
    form: Form,
) -> Result<(), AllocError>
    ensures { OnOk result (out.new.items ≡ out.old.items ++ second_text (program_tree program.now) form) }
{
    if form.second == 0 {
        return Ok(());
    }
    out.extend_from_slice(second_sign(form.second_plus).as_bytes())?;
    push_object(alloc, out, program, form.second)
}

/// A form, by the names and numbers of its variables.
#[tactic(auto, using(std::proofs::Common::append_assoc))]
pub fn push_form(
    alloc: Global,
    out: &mut Vec<u8>,
    program: &Program,
    form: Form,
) -> Result<(), AllocError>
    ensures { OnOk result (out.new.items ≡ out.old.items ++ form_text (program_tree program.now) form) }
{
    out.extend_from_slice(first_sign(form.plus).as_bytes())?;
    push_object(alloc, out, program, form.first)?;
    push_second(alloc, out, program, form)
}
