// Rows and rankings of a point as circuits.
ghost use Rattle.std.specs.Prelude.{◌≡◌, ◌≤◌, ◌<◌, ◌+◌, Some, None, IfOk, OnOk, length, map, option_map, suc};
ghost use Rattle.l2_runs.specs.Numbers.{at_number};
ghost use Rattle.l2_code.specs.Trees.{code_of};
ghost use Rattle.l2_gates.specs.Gates.{literal_of};
ghost use Rattle.l2_row_circuits.specs.Words.{words_of};
ghost use Rattle.l2_cuts.specs.Points.{point_at, ranks_at};
ghost use Rattle.l2_ssa_points.specs.Places.{no_row, or_no_ranks, place, placed, placed_ranks_at, placed_row, placed_row_at, row_in, vars_of};
ghost use Rattle.l2_goals.specs.Kept.{fill_in};

use crate::numbering::number;
use l2_blast::Fill;
use l2_cnf::Lit;
use l2_code::Code;
use l2_gates::Gates;
use l2_row_circuits::{lower_bit, row_bit};
use l2_runs::index_of;
use l2_templates::{Form, LoopPoint, Point, Ranks, Row};
use std::alloc::{AllocError, Global};

/// A point and rankings over the loops of a code.
#[derive(Clone, Copy)]
pub struct PointFill<'a> {
    pub code: &'a Code,
    pub point: &'a Point,
    pub ranks: Option<&'a Ranks>,
}

/// A row that always holds.
const NO_ROW: Row = Row {
    form: Form {
        first: 0,
        plus: true,
        second: 0,
        second_plus: true,
    },
    bound: None,
};

fn loop_vars(code: &Code, of_loop: u32) -> &[u32]
    ensures { result.now ≡ vars_of (code_of code.now) of_loop }
{
    let Some(i) = index_of(of_loop) else {
        return &[];
    };
    match code.loops.as_slice().get(i) {
        Some(info) => info.vars.as_slice(),
        None => &[],
    }
}

/// Where a variable stands among these, from 1 on, or 0.
fn place(vars: &[u32], variable: u32) -> Result<u32, AllocError>
    ensures { IfOk result (λ n. n ≡ place vars.now variable) }
{
    for i in 0..vars.len() {
        if vars[i] == variable {
            return number(i);
        }
    }
    Ok(0)
}

fn placed(vars: &[u32], form: &Form) -> Result<Form, AllocError>
    ensures { IfOk result (λ f. f ≡ placed vars.now form.now) }
{
    let first = place(vars, form.first)?;
    let second = place(vars, form.second)?;
    Ok(Form {
        first,
        plus: form.plus,
        second,
        second_plus: form.second_plus,
    })
}

fn placed_row(vars: &[u32], row: Row) -> Result<Row, AllocError>
    ensures { IfOk result (λ r. r ≡ placed_row vars.now row) }
{
    let form = placed(vars, &row.form)?;
    Ok(Row {
        form,
        bound: row.bound,
    })
}

fn placed_forms(alloc: Global, vars: &[u32], forms: &[Form]) -> Result<Vec<Form>, AllocError>
    ensures { IfOk result (λ all. all.items ≡ map (placed vars.now) forms.now) }
{
    let mut all = Vec::new(alloc);
    for form in forms {
        let form = placed(vars, form)?;
        all.push(form)?;
    }
    Ok(all)
}

/// The row of a number among these.
fn row_of(rows: &[Row], row: u32) -> Row
    ensures { result ≡ row_in (LoopPoint.Rows rows.now) row }
{
    let Some(i) = index_of(row) else {
        return NO_ROW;
    };
    match rows.get(i) {
        Some(row) => *row,
        None => NO_ROW,
    }
}

fn row_in(at: &LoopPoint, row: u32) -> Row
    ensures { result ≡ row_in at.now row }
{
    match at {
        LoopPoint::Bottom => NO_ROW,
        LoopPoint::Rows(rows) => row_of(rows.as_slice(), row),
    }
}

fn row_at(point: &Point, of_loop: u32, row: u32) -> Row
    ensures { result ≡ row_in (point_at point.now of_loop) row }
{
    let Some(i) = index_of(of_loop) else {
        return NO_ROW;
    };
    if i < point.len() {
        row_in(point.get(i), row)
    } else {
        NO_ROW
    }
}

fn forms_at(ranks: &Ranks, of_loop: u32) -> &[Form]
    ensures { result.now ≡ ranks_at ranks.now of_loop }
{
    let Some(i) = index_of(of_loop) else {
        return &[];
    };
    if i < ranks.len() { ranks.get(i) } else { &[] }
}

fn forms_of<'a>(ranks: Option<&'a Ranks>, of_loop: u32) -> &'a [Form]
    ensures { result.now ≡ ranks_at (or_no_ranks (option_map (λ r. r.now) ranks.entry)) of_loop }
{
    match ranks {
        Some(ranks) => forms_at(ranks, of_loop),
        None => &[],
    }
}

impl<'a> Fill for PointFill<'a> {
    ghost fill = { fill_in };

    fn row(
        &self,
        alloc: Global,
        gates: &mut Gates,
        of_loop: u32,
        row: u32,
        vars: &[Vec<Lit>],
    ) -> Result<Lit, AllocError> {
        let named = loop_vars(self.code, of_loop);
        if vars.len() < named.len() {
            return Err(AllocError);
        }
        let row = placed_row(named, row_at(self.point, of_loop, row))?;
        row_bit(alloc, gates, &row, vars)
    }

    fn lower(
        &self,
        alloc: Global,
        gates: &mut Gates,
        of_loop: u32,
        old: &[Vec<Lit>],
        now: &[Vec<Lit>],
    ) -> Result<Lit, AllocError> {
        let named = loop_vars(self.code, of_loop);
        if old.len() < named.len() || now.len() < named.len() {
            return Err(AllocError);
        }
        let forms = placed_forms(alloc, named, forms_of(self.ranks, of_loop))?;
        lower_bit(alloc, gates, &forms, old, now)
    }
}
