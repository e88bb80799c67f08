ghost use Rattle.std.specs.Prelude.{◌≡◌, ◌++◌, ◌&&◌, [], IfOk, IsFalse, OnOk, take};
ghost use Rattle.std.specs.Bool.{beq};
ghost use Rattle.std.specs.List.{list_any};
ghost use Rattle.l2_templates.specs.Forms.{is_form};
ghost use Rattle.l2_templates.specs.Domains.{marked, of_one, of_two, one_signs, pair, pairs, row_list, single, singles, takes, two_signs, with_later};

use crate::form::Form;
use std::alloc::{AllocError, Global};

/// Which forms a domain takes.
#[derive(Clone, Copy, PartialEq, Eq, Debug)]
pub enum Family {
    NoRows,
    /// Differences of two variables.
    Equalities,
    /// One variable with a sign.
    Intervals,
    /// One variable with a sign, and differences of two.
    Zones,
    /// All forms.
    Octagons,
}

/// A variable of a loop, and whether the loop modifies it.
#[derive(Clone, Copy, Debug)]
pub(crate) struct Variable {
    pub number: u32,
    pub modified: bool,
}

/// A loop has at most so many rows.
const MOST_ROWS: usize = 1024;

fn single(var: u32, plus: bool) -> Form
    ensures { result ≡ single var plus }
{
    Form {
        first: var,
        plus,
        second: 0,
        second_plus: true,
    }
}

fn pair(first: u32, plus: bool, second: u32, second_plus: bool) -> Form
    ensures { result ≡ pair first second (plus, second_plus) }
{
    Form {
        first,
        plus,
        second,
        second_plus,
    }
}

fn add_one(forms: &mut Vec<Form>, family: Family, v: Variable) -> Result<(), AllocError>
    ensures { OnOk result (forms.new.items ≡ forms.old.items ++ of_one family v) }
{
    match family {
        Family::NoRows | Family::Equalities => Ok(()),
        Family::Intervals | Family::Zones | Family::Octagons => {
            forms.push(single(v.number, true))?;
            forms.push(single(v.number, false))?;
            Ok(())
        }
    }
}

fn add_difference(forms: &mut Vec<Form>, v: Variable, w: Variable) -> Result<(), AllocError>
    ensures { OnOk result (forms.new.items ≡ forms.old.items ++ of_two Family.Zones v w) }
{
    forms.push(pair(v.number, true, w.number, false))?;
    forms.push(pair(v.number, false, w.number, true))?;
    Ok(())
}

fn add_two(
    forms: &mut Vec<Form>,
    family: Family,
    v: Variable,
    w: Variable,
) -> Result<(), AllocError>
    ensures { OnOk result (forms.new.items ≡ forms.old.items ++ of_two family v w) }
{
    match family {
        Family::NoRows | Family::Intervals => Ok(()),
        Family::Equalities | Family::Zones => add_difference(forms, v, w),
        Family::Octagons => {
            forms.push(pair(v.number, true, w.number, true))?;
            add_difference(forms, v, w)?;
            forms.push(pair(v.number, false, w.number, false))?;
            Ok(())
        }
    }
}

fn add_singles(forms: &mut Vec<Form>, family: Family, vars: &[Variable]) -> Result<(), AllocError>
    ensures { OnOk result (take 1024 forms.new.items ≡ take 1024 (forms.old.items ++ singles family vars.now)) }
{
    for v in vars {
        if forms.len() >= MOST_ROWS {
            return Ok(());
        }
        if v.modified {
            add_one(forms, family, *v)?;
        }
    }
    Ok(())
}

fn add_with_later(
    forms: &mut Vec<Form>,
    family: Family,
    v: Variable,
    later: &[Variable],
) -> Result<(), AllocError>
    ensures { OnOk result (take 1024 forms.new.items ≡ take 1024 (forms.old.items ++ with_later family v later.now)) }
{
    for w in later {
        if forms.len() >= MOST_ROWS {
            return Ok(());
        }
        if v.modified || w.modified {
            add_two(forms, family, v, *w)?;
        }
    }
    Ok(())
}

fn add_pairs(forms: &mut Vec<Form>, family: Family, vars: &[Variable]) -> Result<(), AllocError>
    ensures { OnOk result (take 1024 forms.new.items ≡ take 1024 (forms.old.items ++ pairs family vars.now)) }
{
    let mut rest = vars;
    while let Some((v, later)) = rest.split_first() {
        if forms.len() >= MOST_ROWS || !any_modified(rest) {
            return Ok(());
        }
        add_with_later(forms, family, *v, later)?;
        rest = later;
    }
    Ok(())
}

fn any_modified(vars: &[Variable]) -> bool
    ensures { result ≡ list_any (λ v. v.modified) vars.now }
{
    vars.iter().any(|v| v.modified)
}

/// Whether some forms are of two variables.
fn takes_two(family: Family) -> bool
    ensures { IsFalse result → two_signs family ≡ [] }
{
    match family {
        Family::NoRows | Family::Intervals => false,
        Family::Equalities | Family::Zones | Family::Octagons => true,
    }
}

fn marked(alloc: Global, vars: &[u32], mods: &[u32]) -> Result<Vec<Variable>, AllocError>
    ensures { IfOk result (λ vs. vs.items ≡ marked vars.now mods.now) }
{
    vars.iter()
        .map(|v| Variable {
            number: *v,
            modified: mods.contains(v),
        })
        .collect(alloc)
}

/// The forms that a domain takes for a loop with these variables, of which these are modified: the first 1,024.
pub(crate) fn row_list(
    alloc: Global,
    family: Family,
    vars: &[u32],
    mods: &[u32],
) -> Result<Vec<Form>, AllocError>
    ensures { IfOk result (λ forms. forms.items ≡ row_list family vars.now mods.now) }
{
    let vars = marked(alloc, vars, mods)?;
    let mut forms = Vec::new(alloc);
    add_singles(&mut forms, family, &vars)?;
    if takes_two(family) {
        add_pairs(&mut forms, family, &vars)?;
    }
    forms.truncate(MOST_ROWS);
    Ok(forms)
}

/// Whether it is a form: two variables stand in their order, and where there is one the second sign is plus.
fn is_form(form: &Form) -> bool
    ensures { result ≡ is_form form.now }
{
    if form.first == 0 {
        false
    } else if form.second == 0 {
        form.second_plus
    } else {
        form.first < form.second
    }
}

fn takes_one(family: Family, plus: bool) -> bool
    ensures { result ≡ list_any (λ other. beq other plus) (one_signs family) }
{
    match family {
        Family::NoRows | Family::Equalities => false,
        Family::Intervals | Family::Zones | Family::Octagons => true,
    }
}

fn takes_signs(family: Family, plus: bool, second_plus: bool) -> bool
    ensures { result ≡ list_any (λ signs. beq signs.0 plus && beq signs.1 second_plus) (two_signs family) }
{
    match family {
        Family::NoRows | Family::Intervals => false,
        Family::Equalities | Family::Zones => plus != second_plus,
        Family::Octagons => true,
    }
}

/// Whether the form is one of the family's.
pub(crate) fn takes(family: Family, form: &Form) -> bool
    ensures { result ≡ takes family form.now }
{
    if !is_form(form) {
        false
    } else if form.second == 0 {
        takes_one(family, form.plus)
    } else {
        takes_signs(family, form.plus, form.second_plus)
    }
}
