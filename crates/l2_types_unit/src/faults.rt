// The faults of a whole text.
ghost use Rattle.std.specs.Prelude.{◌≡◌, Option, None, IfOk};
ghost use Rattle.l2_types_unit.specs.Faults.{rule_number, is_before, lesser, least, leads_back, unless_recursive, recursions, has_main, unless_main, faults};

use crate::calls::{has, reached};
use l2_syntax::{Refusal, Rule};
use l2_types::{CheckError, Site, Table};
use l2_types_declarations::start_of_text;
use std::alloc::Global;

fn rule_number(rule: Rule) -> u8
    ensures { result ≡ rule_number rule }
{
    match rule {
        Rule::Byte => 1,
        Rule::Comment => 2,
        Rule::Directive => 3,
        Rule::Literal => 4,
        Rule::BadString => 5,
        Rule::Keyword => 6,
        Rule::Nesting => 7,
        Rule::Syntax => 8,
        Rule::UnknownName => 9,
        Rule::Redeclared => 10,
        Rule::BadType => 11,
        Rule::Lvalue => 12,
        Rule::Call => 13,
        Rule::Recursion => 14,
        Rule::Constant => 15,
        Rule::Initialiser => 16,
        Rule::Label => 17,
        Rule::SwitchJump => 18,
        Rule::Incomplete => 19,
        Rule::Cells => 20,
        Rule::MainForm => 21,
        Rule::NoMain => 22,
        Rule::NotBuilt => 90,
    }
}

fn is_before(f: Refusal, g: Refusal) -> bool
    ensures { result ≡ is_before f g }
{
    f.place.offset < g.place.offset
        || f.place.offset == g.place.offset && rule_number(f.rule) < rule_number(g.rule)
}

fn lesser(best: Option<Refusal>, f: Refusal) -> Refusal
    ensures { result ≡ lesser best f }
{
    match best {
        None => f,
        Some(g) => if is_before(f, g) { f } else { g },
    }
}

/// The least fault.
pub fn least(faults: &[Refusal]) -> Option<Refusal>
    ensures { result ≡ least faults.now }
{
    let mut best = None;
    for f in faults {
        best = Some(lesser(best, *f));
    }
    best
}

/// Whether the function that is called leads back to the one that calls.
fn leads_back(alloc: Global, table: &Table, c: Site) -> Result<bool, CheckError>
    ensures ok { IfOk result (λ b. b ≡ leads_back table.now c) }
{
    if c.function == 0 {
        return Ok(false);
    }
    let functions = reached(alloc, table.defined_count(), table.calls(), c.function)?;
    Ok(has(&functions, c.caller))
}

fn unless_recursive(
    alloc: Global,
    table: &Table,
    c: Site,
    faults: &mut Vec<Refusal>,
) -> Result<(), CheckError>
    ensures ok { IfOk result (λ u. faults.new.items ≡ unless_recursive table.now c faults.old.items) }
{
    if leads_back(alloc, table, c)? {
        faults.push(Refusal {
            place: c.place,
            rule: Rule::Recursion,
        })?;
    }
    Ok(())
}

fn recursions(alloc: Global, table: &Table, faults: &mut Vec<Refusal>) -> Result<(), CheckError>
    ensures ok { IfOk result (λ u. faults.new.items ≡ recursions table.now table.now.calls faults.old.items) }
{
    for c in table.calls() {
        unless_recursive(alloc, table, *c, faults)?;
    }
    Ok(())
}

/// Whether a definition of `main` was met.
fn has_main(table: &Table, main: Option<u32>) -> bool
    ensures { result ≡ has_main table.now main }
{
    match main {
        None => false,
        Some(n) => table.is_met(n),
    }
}

fn unless_main(found: bool, faults: &mut Vec<Refusal>) -> Result<(), CheckError>
    ensures ok { IfOk result (λ u. faults.new.items ≡ unless_main found faults.old.items) }
{
    if !found {
        faults.push(Refusal {
            place: start_of_text(),
            rule: Rule::NoMain,
        })?;
    }
    Ok(())
}

/// All faults of a text that was looked at.
pub fn faults(alloc: Global, table: &Table) -> Result<Vec<Refusal>, CheckError>
    ensures ok { IfOk result (λ v. v.items ≡ faults table.now) }
{
    let mut all = table.faults().to_vec(alloc)?;
    recursions(alloc, table, &mut all)?;
    unless_main(has_main(table, table.main()), &mut all)?;
    Ok(all)
}
