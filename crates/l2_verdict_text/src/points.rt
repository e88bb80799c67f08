// The rows of points, and rankings.
ghost use Rattle.std.specs.Prelude.{◌≡◌, ◌++◌, ◌+◌, codes, OnOk};
ghost use Rattle.l2_program.specs.Programs.{program_tree};
ghost use Rattle.l2_verdict_text.specs.Texts.{bound_text, form_text, loop_start, loop_text, point_text, rank_text, ranks_text, rows_text};

use crate::forms::push_form;
use l2_program::Program;
use l2_templates::{Form, LoopPoint, Point, Ranks, Row};
use std::alloc::{AllocError, Global};

/// What a line of the loop begins with.
#[tactic(auto, using(std::proofs::Common::append_assoc))]
fn push_start(
    alloc: Global,
    out: &mut Vec<u8>,
    keyword: &str,
    number: usize,
) -> Result<(), AllocError>
    ensures { OnOk result (out.new.items ≡ out.old.items ++ loop_start keyword.now number) }
{
    out.extend_from_slice(keyword.as_bytes())?;
    out.extend_from_slice(format!(in alloc; " {number} ")?.as_bytes())
}

/// The line of a row, where it has a bound.
#[tactic(auto, using(std::proofs::Common::append_assoc))]
fn push_row(
    alloc: Global,
    out: &mut Vec<u8>,
    program: &Program,
    number: usize,
    row: Row,
) -> Result<(), AllocError>
    ensures { OnOk result (out.new.items ≡ out.old.items ++ bound_text (program_tree program.now) number row.form row.bound) }
{
    let Some(bound) = row.bound else {
        return Ok(());
    };
    push_start(alloc, out, "invariant", number)?;
    push_form(alloc, out, program, row.form)?;
    out.extend_from_slice(format!(in alloc; " <= {bound}\n")?.as_bytes())
}

fn push_rows(
    alloc: Global,
    out: &mut Vec<u8>,
    program: &Program,
    number: usize,
    rows: &[Row],
) -> Result<(), AllocError>
    ensures { OnOk result (out.new.items ≡ out.old.items ++ rows_text (program_tree program.now) number rows.now) }
{
    for i in 0..rows.len() {
        push_row(alloc, out, program, number, rows[i])?;
    }
    Ok(())
}

/// The lines of a loop.
#[tactic(auto, using(std::proofs::Common::append_assoc))]
fn push_loop(
    alloc: Global,
    out: &mut Vec<u8>,
    program: &Program,
    number: usize,
    at: &LoopPoint,
) -> Result<(), AllocError>
    ensures { OnOk result (out.new.items ≡ out.old.items ++ loop_text (program_tree program.now) number at.now) }
{
    match at {
        LoopPoint::Bottom => {
            push_start(alloc, out, "invariant", number)?;
            out.extend_from_slice(b"false\n")
        }
        LoopPoint::Rows(rows) => push_rows(alloc, out, program, number, rows.as_slice()),
    }
}

/// The rows of a point, a line for each that has a bound.
pub fn push_point(
    alloc: Global,
    out: &mut Vec<u8>,
    program: &Program,
    point: &Point,
) -> Result<(), AllocError>
    ensures { OnOk result (out.new.items ≡ out.old.items ++ point_text (program_tree program.now) 1 point.now) }
{
    for i in 0..point.len() {
        push_loop(alloc, out, program, i + 1, point.get(i))?;
    }
    Ok(())
}

/// A component of a ranking.
#[tactic(auto, using(std::proofs::Common::append_assoc))]
fn push_component(
    alloc: Global,
    out: &mut Vec<u8>,
    program: &Program,
    number: usize,
    form: Form,
) -> Result<(), AllocError>
    ensures { OnOk result (out.new.items ≡ out.old.items ++ (loop_start (codes "rank") number ++ (form_text (program_tree program.now) form ++ codes "\n"))) }
{
    push_start(alloc, out, "rank", number)?;
    push_form(alloc, out, program, form)?;
    out.extend_from_slice(b"\n")
}

/// A loop's ranking.
fn push_rank(
    alloc: Global,
    out: &mut Vec<u8>,
    program: &Program,
    number: usize,
    forms: &[Form],
) -> Result<(), AllocError>
    ensures { OnOk result (out.new.items ≡ out.old.items ++ rank_text (program_tree program.now) number forms.now) }
{
    for i in 0..forms.len() {
        push_component(alloc, out, program, number, forms[i])?;
    }
    Ok(())
}

/// The components of rankings, a line each.
pub fn push_ranks(
    alloc: Global,
    out: &mut Vec<u8>,
    program: &Program,
    ranks: &Ranks,
) -> Result<(), AllocError>
    ensures { OnOk result (out.new.items ≡ out.old.items ++ ranks_text (program_tree program.now) 1 ranks.now) }
{
    for i in 0..ranks.len() {
        push_rank(alloc, out, program, i + 1, ranks.get(i))?;
    }
    Ok(())
}
