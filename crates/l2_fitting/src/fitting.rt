// Single lines.
ghost use Rattle.std.specs.Prelude.{◌≡◌, Some, None};
ghost use Rattle.l2_templates.specs.Domains.{is_in};
ghost use Rattle.l2_fitting.specs.Fitting.{is_among, is_form_of, row_fits, stands_behind};

use l2_program::LoopInfo;
use l2_templates::{Form, Row, stands_before};

fn is_in(numbers: &[u32], number: u32) -> bool
    ensures { result ≡ is_in numbers.now number }
{
    for &n in numbers {
        if n == number {
            return true;
        }
    }
    false
}

/// Whether the loop has the variables of the form, and may change one of them.
pub fn is_form_of(info: &LoopInfo, form: &Form) -> bool
    ensures { result ≡ is_form_of (Some info.now) form.now }
{
    let vars = info.vars.as_slice();
    let mods = info.mods.as_slice();
    if form.second == 0 {
        is_in(vars, form.first) && is_in(mods, form.first)
    } else {
        is_in(vars, form.first)
            && is_in(vars, form.second)
            && (is_in(mods, form.first) || is_in(mods, form.second))
    }
}

fn stands_behind(before: Option<Form>, form: &Form) -> bool
    ensures { result ≡ stands_behind before form.now }
{
    match before {
        Some(before) => stands_before(&before, form),
        None => true,
    }
}

fn is_bound(thresholds: &[i128], bound: i128) -> bool
    ensures { result ≡ is_among thresholds.now (Some bound) }
{
    for &threshold in thresholds {
        if bound == threshold {
            return true;
        }
    }
    false
}

fn is_among(thresholds: &[i128], bound: Option<i128>) -> bool
    ensures { result ≡ is_among thresholds.now bound }
{
    match bound {
        Some(bound) => is_bound(thresholds, bound),
        None => false,
    }
}

/// Whether a row fits behind a row of this form.
pub fn row_fits(info: &LoopInfo, thresholds: &[i128], before: Option<Form>, row: &Row) -> bool
    ensures { result ≡ row_fits (Some info.now) thresholds.now before row.now }
{
    is_form_of(info, &row.form)
        && stands_behind(before, &row.form)
        && is_among(thresholds, row.bound)
}
