ghost use Rattle.std.specs.Prelude.{◌≡◌, ◌<◌, ◌++◌, IfOk, IfErr, OnOk, IsErrOf, Ok, Err, Some, None, drop, length, map, suc, slice_get, ℕ};
ghost use Rattle.l2_runs.specs.Numbers.{at_number};
ghost use Rattle.l2_program.specs.Programs.{program_tree};
ghost use Rattle.l2_templates.specs.Points.{loop_at};
ghost use Rattle.l2_fitting.specs.Said.{Component, first_ranks_said, head_said, loop_said, loops_said, ranks_said, rows_said, said};
ghost use Rattle.l2_fitting.specs.Fitting.{IsBadName, NamesFit};
ghost use Rattle.l2_fitting.specs.Passing.{pass, Tells};

use crate::fitting::{is_form_of, row_fits};
use l2_cert::Cert;
use l2_program::{LoopInfo, Program};
use l2_templates::{Form, LoopPoint, Row};
use thiserror::Error;

/// Why a certificate doesn't fit a program.
#[derive(Clone, Copy, Debug, PartialEq, Eq, Error)]
pub enum NameError {
    /// The first line that doesn't fit, counted from 1.
    #[error("line {line} names what the program doesn't have")]
    BadName { line: u64 },
    /// There are more lines than memory can hold.
    #[error("no memory left")]
    NoMemory,
}

/// The number of the line behind one.
fn next(line: u64) -> Result<u64, NameError>
    ensures ok { IfOk result (λ n. n ≡ suc line) }
    ensures err { IfErr result (λ e. e ≡ NameError.NoMemory) }
{
    match line.checked_add(1) {
        Some(next) => Ok(next),
        None => Err(NameError::NoMemory),
    }
}

/// The rows of a loop, the first of which stands on this line.
fn pass_rows(
    program: &Program,
    number: usize,
    info: &LoopInfo,
    rows: &[Row],
    line: u64,
) -> Result<u64, NameError>
    requires { at_number program.now.loops number ≡ Some info.now }
    ensures { Tells result (pass (program_tree program.now) line (rows_said number None rows.now)) }
{
    let thresholds = program.thresholds.as_slice();
    let mut line = line;
    let mut before = None;
    for row in rows {
        if !row_fits(info, thresholds, before, row) {
            return Err(NameError::BadName { line });
        }
        line = next(line)?;
        before = Some(row.form);
    }
    Ok(line)
}

/// The lines of a loop, the first of which is this one.
fn pass_loop(
    program: &Program,
    number: usize,
    info: &LoopInfo,
    at: &LoopPoint,
    line: u64,
) -> Result<u64, NameError>
    requires { at_number program.now.loops number ≡ Some info.now }
    ensures { Tells result (pass (program_tree program.now) line (loop_said number at.now)) }
{
    let line = next(line)?;
    match at {
        LoopPoint::Bottom => Ok(line),
        LoopPoint::Rows(rows) => pass_rows(program, number, info, rows.as_slice(), line),
    }
}

/// The components of a loop's ranking, the first of which stands on this line.
fn pass_components(
    program: &Program,
    number: usize,
    info: &LoopInfo,
    forms: &[Form],
    line: u64,
) -> Result<u64, NameError>
    requires { at_number program.now.loops number ≡ Some info.now }
    ensures { Tells result (pass (program_tree program.now) line (map (Component number) forms.now)) }
{
    let mut line = line;
    for form in forms {
        if !is_form_of(info, form) {
            return Err(NameError::BadName { line });
        }
        line = next(line)?;
    }
    Ok(line)
}

/// The lines of a loop's ranking, the first of which is this one.
fn pass_ranks(
    program: &Program,
    number: usize,
    info: &LoopInfo,
    forms: &[Form],
    line: u64,
) -> Result<u64, NameError>
    requires { at_number program.now.loops number ≡ Some info.now }
    ensures { Tells result (pass (program_tree program.now) line (ranks_said number forms.now)) }
{
    let line = next(line)?;
    pass_components(program, number, info, forms, line)
}

/// The lines of the ranking of the loop of this index, where it has one.
fn pass_first_ranks(
    program: &Program,
    cert: &Cert,
    i: usize,
    info: &LoopInfo,
    line: u64,
) -> Result<u64, NameError>
    requires listed { at_number program.now.loops (suc i) ≡ Some info.now }
    requires within { i < length cert.now.point }
    ensures { Tells result (pass (program_tree program.now) line (first_ranks_said (suc i) (drop i cert.now.ranks))) }
{
    if i < cert.ranks.len() {
        pass_ranks(program, i + 1, info, cert.ranks.get(i), line)
    } else {
        Ok(line)
    }
}

/// The lines of the loop of this index, and of its ranking where it has one.
fn pass_entry(program: &Program, cert: &Cert, i: usize, line: u64) -> Result<u64, NameError>
    requires listed { i < length program.now.loops }
    requires within { i < length cert.now.point }
    ensures { Tells result (pass (program_tree program.now) line (loop_said (suc i) (loop_at cert.now.point i) ++ first_ranks_said (suc i) (drop i cert.now.ranks))) }
{
    let info = &program.loops.as_slice()[i];
    match pass_loop(program, i + 1, info, cert.point.get(i), line) {
        Ok(line) => pass_first_ranks(program, cert, i, info, line),
        Err(error) => Err(error),
    }
}

/// The lines of the loops.
fn pass_loops(program: &Program, cert: &Cert, line: u64) -> Result<u64, NameError>
    requires { length cert.now.point ≡ length program.now.loops }
    ensures { Tells result (pass (program_tree program.now) line (loops_said 1 cert.now.point cert.now.ranks)) }
{
    let mut line = line;
    for i in 0..cert.point.len() {
        match pass_entry(program, cert, i, line) {
            Ok(next) => line = next,
            Err(error) => return Err(error),
        }
    }
    Ok(line)
}

/// The lines before the goals.
fn pass_all(program: &Program, cert: &Cert) -> Result<u64, NameError>
    ensures { Tells result (pass (program_tree program.now) 1 (said cert.now)) }
{
    if cert.point.len() != program.loops.as_slice().len() {
        return Err(NameError::BadName { line: 5 });
    }
    pass_loops(program, cert, 6)
}

/// Whether each line before the goals of a certificate fits the program: the number of loops is the program's; the variables of each
/// form are the loop's, and the loop may change one of them; rows stand in the order of their forms, and bounds are thresholds.
pub fn check_names(program: &Program, cert: &Cert) -> Result<(), NameError>
    ensures ok { OnOk result (NamesFit (program_tree program.now) cert.now) }
    ensures bad_name { (line : ℕ) → IsErrOf result (NameError.BadName line) → IsBadName (program_tree program.now) cert.now line }
{
    match pass_all(program, cert) {
        Ok(_line) => Ok(()),
        Err(error) => Err(error),
    }
}
