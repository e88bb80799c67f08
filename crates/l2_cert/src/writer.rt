ghost use Rattle.std.specs.Prelude.{◌≡◌, ◌≤◌, ◌<◌, ◌^◌, ◌++◌, ◌∷◌, [], IfOk, OnOk, drop, length, map, string_bytes, suc};
ghost use Rattle.std.specs.List.{All, concat};
ghost use Rattle.std.specs.Fmt.{decimal, signed_decimal};
ghost use Rattle.l2_cnf.specs.Lines.{step_at};
ghost use Rattle.l2_templates.specs.Points.{loop_at};
ghost use Rattle.l2_cert.specs.Words.{line_of, spaced, text_of};
ghost use Rattle.l2_cert.specs.Certificate.{InGrammar, IsLoop, IsRow, checks_line, entry_lines, form_words, goal_lines, goals_lines, head_lines, kind_line, loop_lines, loops_lines, numbered_line, rank_line, rank_lines, row_line, sign_word, spelling, step_line};

use crate::cert::{Cert, CertKind};
use l2_cnf::{Lines, Lit};
use l2_templates::{Form, LoopPoint, Row};
use std::alloc::{AllocError, Global};

const fn sign(plus: bool) -> &'static str
    ensures { result.now ≡ sign_word plus }
{
    if plus { "+" } else { "-" }
}

fn form_text(alloc: Global, form: &Form) -> Result<String, AllocError>
    ensures { IfOk result (λ text. string_bytes text ≡ spaced (form_words form.now)) }
{
    let first = form.first;
    let plus = sign(form.plus);
    if form.second == 0 {
        return format!(in alloc; "{plus} {first}");
    }
    let second = form.second;
    let second_plus = sign(form.second_plus);
    format!(in alloc; "{plus} {first} {second_plus} {second}")
}

fn push_row(alloc: Global, bytes: &mut Vec<u8>, row: &Row) -> Result<(), AllocError>
    requires { IsRow row.now }
    ensures { OnOk result (bytes.new.items ≡ bytes.old.items ++ line_of (row_line row.now)) }
{
    let form = form_text(alloc, &row.form)?;
    let Some(bound) = row.bound else {
        return Ok(());
    };
    let text = format!(in alloc; "row {bound} {form}\n")?;
    bytes.extend_from_slice(text.as_bytes())
}

fn push_component(alloc: Global, bytes: &mut Vec<u8>, form: &Form) -> Result<(), AllocError>
    ensures { OnOk result (bytes.new.items ≡ bytes.old.items ++ line_of (rank_line form.now)) }
{
    let form = form_text(alloc, form)?;
    let text = format!(in alloc; "rank {form}\n")?;
    bytes.extend_from_slice(text.as_bytes())
}

fn push_rows(alloc: Global, bytes: &mut Vec<u8>, rows: &[Row]) -> Result<(), AllocError>
    requires { All IsRow rows.now }
    ensures { OnOk result (bytes.new.items ≡ bytes.old.items ++ text_of (map row_line rows.now)) }
{
    for row in rows {
        push_row(alloc, bytes, row)?;
    }
    Ok(())
}

fn push_bottom(alloc: Global, bytes: &mut Vec<u8>, index: u64) -> Result<(), AllocError>
    ensures { OnOk result (bytes.new.items ≡ bytes.old.items ++ text_of (loop_lines index LoopPoint.Bottom)) }
{
    let text = format!(in alloc; "loop {index} bottom\n")?;
    bytes.extend_from_slice(text.as_bytes())
}

fn push_rows_of(
    alloc: Global,
    bytes: &mut Vec<u8>,
    index: u64,
    rows: &[Row],
) -> Result<(), AllocError>
    requires { All IsRow rows.now }
    ensures { OnOk result (bytes.new.items ≡ bytes.old.items ++ text_of (loop_lines index (LoopPoint.Rows rows.now))) }
{
    let count = rows.len();
    let text = format!(in alloc; "loop {index} rows {count}\n")?;
    bytes.extend_from_slice(text.as_bytes())?;
    push_rows(alloc, bytes, rows)
}

fn push_loop(
    alloc: Global,
    bytes: &mut Vec<u8>,
    index: u64,
    at: &LoopPoint,
) -> Result<(), AllocError>
    requires { IsLoop at.now }
    ensures { OnOk result (bytes.new.items ≡ bytes.old.items ++ text_of (loop_lines index at.now)) }
{
    match at {
        LoopPoint::Bottom => push_bottom(alloc, bytes, index),
        LoopPoint::Rows(rows) => push_rows_of(alloc, bytes, index, rows.as_slice()),
    }
}

fn push_ranking(
    alloc: Global,
    bytes: &mut Vec<u8>,
    index: u64,
    forms: &[Form],
) -> Result<(), AllocError>
    ensures { OnOk result (bytes.new.items ≡ bytes.old.items ++ text_of (rank_lines index forms.now)) }
{
    let count = forms.len();
    let text = format!(in alloc; "ranks {index} {count}\n")?;
    bytes.extend_from_slice(text.as_bytes())?;
    for form in forms {
        push_component(alloc, bytes, form)?;
    }
    Ok(())
}

fn value_of(literal: Lit) -> i128
    ensures { result ≡ literal }
{
    let variable = i128::from(literal.var());
    if literal.is_positive() {
        variable
    } else {
        -variable
    }
}

fn push_literal(alloc: Global, bytes: &mut Vec<u8>, literal: Lit) -> Result<(), AllocError>
    ensures { OnOk result (bytes.new.items ≡ bytes.old.items ++ 32 ∷ signed_decimal literal) }
{
    let value = value_of(literal);
    let text = format!(in alloc; " {value}")?;
    bytes.extend_from_slice(text.as_bytes())
}

fn push_hint(alloc: Global, bytes: &mut Vec<u8>, hint: u64) -> Result<(), AllocError>
    ensures { OnOk result (bytes.new.items ≡ bytes.old.items ++ 32 ∷ decimal hint) }
{
    let text = format!(in alloc; " {hint}")?;
    bytes.extend_from_slice(text.as_bytes())
}

fn push_literals(alloc: Global, bytes: &mut Vec<u8>, clause: &[Lit]) -> Result<(), AllocError>
    ensures { OnOk result (bytes.new.items ≡ bytes.old.items ++ concat (map (λ z. 32 ∷ signed_decimal z) clause.now)) }
{
    for &literal in clause {
        push_literal(alloc, bytes, literal)?;
    }
    Ok(())
}

fn push_hints(alloc: Global, bytes: &mut Vec<u8>, hints: &[u64]) -> Result<(), AllocError>
    ensures { OnOk result (bytes.new.items ≡ bytes.old.items ++ concat (map (λ n. 32 ∷ decimal n) hints.now)) }
{
    for &hint in hints {
        push_hint(alloc, bytes, hint)?;
    }
    Ok(())
}

fn push_step(alloc: Global, bytes: &mut Vec<u8>, steps: &Lines, i: u64) -> Result<(), AllocError>
    requires { i < length steps.now }
    ensures { OnOk result (bytes.new.items ≡ bytes.old.items ++ line_of (step_line (step_at steps.now i))) }
{
    let number = steps.number(i);
    let text = format!(in alloc; "{number}")?;
    bytes.extend_from_slice(text.as_bytes())?;
    push_literals(alloc, bytes, steps.clause(i))?;
    bytes.extend_from_slice(b" 0")?;
    push_hints(alloc, bytes, steps.hints(i))?;
    bytes.extend_from_slice(b" 0\n")?;
    Ok(())
}

fn push_goal(
    alloc: Global,
    bytes: &mut Vec<u8>,
    index: u64,
    steps: &Lines,
) -> Result<(), AllocError>
    ensures { OnOk result (bytes.new.items ≡ bytes.old.items ++ text_of (goal_lines index steps.now)) }
{
    let count = steps.len();
    let text = format!(in alloc; "goal {index} lines {count}\n")?;
    bytes.extend_from_slice(text.as_bytes())?;
    for i in 0..count {
        push_step(alloc, bytes, steps, i)?;
    }
    Ok(())
}

/// The loop of an index, and its ranking where it has one.
fn push_entry(alloc: Global, bytes: &mut Vec<u8>, cert: &Cert, i: usize) -> Result<(), AllocError>
    requires within { i < length cert.now.point }
    requires few { length cert.now.point < 2 ^ 32 }
    requires point { All IsLoop cert.now.point }
    ensures { OnOk result (bytes.new.items ≡ bytes.old.items ++ text_of (entry_lines (suc i) (loop_at cert.now.point i) (drop i cert.now.ranks))) }
{
    push_loop(alloc, bytes, i as u64 + 1, cert.point.get(i))?;
    if i < cert.ranks.len() {
        push_ranking(alloc, bytes, i as u64 + 1, cert.ranks.get(i))?;
    }
    Ok(())
}

fn push_all_loops(alloc: Global, bytes: &mut Vec<u8>, cert: &Cert) -> Result<(), AllocError>
    requires few { length cert.now.point < 2 ^ 32 }
    requires point { All IsLoop cert.now.point }
    ensures { OnOk result (bytes.new.items ≡ bytes.old.items ++ text_of (loops_lines 1 cert.now.point cert.now.ranks)) }
{
    for i in 0..cert.point.len() {
        push_entry(alloc, bytes, cert, i)?;
    }
    Ok(())
}

fn push_all_goals(alloc: Global, bytes: &mut Vec<u8>, goals: &[Lines]) -> Result<(), AllocError>
    requires { length goals.now < 2 ^ 32 }
    ensures { OnOk result (bytes.new.items ≡ bytes.old.items ++ text_of (goals_lines 1 goals.now)) }
{
    for i in 0..goals.len() {
        push_goal(alloc, bytes, i as u64 + 1, &goals[i])?;
    }
    Ok(())
}

const fn kind_text(kind: CertKind) -> &'static str
    ensures { result.now ≡ line_of (kind_line kind) }
{
    match kind {
        CertKind::Safe => "kind safe\n",
        CertKind::Terminating => "kind terminating\n",
    }
}

const fn checks_text(overflow: bool) -> &'static str
    ensures { result.now ≡ line_of (checks_line overflow) }
{
    if overflow {
        "checks overflow\n"
    } else {
        "checks plain\n"
    }
}

/// A line of a word and a number.
fn push_numbered(
    alloc: Global,
    bytes: &mut Vec<u8>,
    word: &str,
    number: u64,
) -> Result<(), AllocError>
    ensures { OnOk result (bytes.new.items ≡ bytes.old.items ++ line_of (numbered_line word.now number)) }
{
    let text = format!(in alloc; " {number}\n")?;
    bytes.extend_from_slice(word.as_bytes())?;
    bytes.extend_from_slice(text.as_bytes())?;
    Ok(())
}

/// The lines before the loops.
fn push_head(alloc: Global, bytes: &mut Vec<u8>, cert: &Cert) -> Result<(), AllocError>
    ensures { OnOk result (bytes.new.items ≡ bytes.old.items ++ text_of (head_lines cert.now (length cert.now.point))) }
{
    bytes.extend_from_slice(b"2ls certificate 1\n")?;
    bytes.extend_from_slice(kind_text(cert.kind).as_bytes())?;
    bytes.extend_from_slice(checks_text(cert.overflow).as_bytes())?;
    push_numbered(alloc, bytes, "k", u64::from(cert.k))?;
    push_numbered(alloc, bytes, "loops", cert.point.len() as u64)?;
    Ok(())
}

/// The bytes that spell a certificate, of which `read` makes the same certificate again.
pub fn write(alloc: Global, cert: &Cert) -> Result<Vec<u8>, AllocError>
    requires { InGrammar cert.now }
    ensures { IfOk result (λ bytes. bytes.items ≡ spelling cert.now) }
{
    let mut bytes = Vec::new(alloc);
    push_head(alloc, &mut bytes, cert)?;
    push_all_loops(alloc, &mut bytes, cert)?;
    let goals = cert.goals.as_slice();
    push_numbered(alloc, &mut bytes, "goals", goals.len() as u64)?;
    push_all_goals(alloc, &mut bytes, goals)?;
    bytes.extend_from_slice(b"end\n")?;
    Ok(bytes)
}
