ghost use Rattle.std.specs.Prelude.{◌≡◌, ◌≤◌, ◌^◌, pos, negsuc, ◌≤ℤ◌, length};
ghost use Rattle.std.specs.List.{All};
ghost use Rattle.l2_templates.specs.Forms.{IsNumber, IsOver, lower_than, row_holds, row_value, signed, stands_before, variable};

/// A variable with a sign, or the sum of two. Variables are numbered from 1.
#[derive(Clone, Copy, PartialEq, Eq, Debug)]
pub struct Form {
    pub first: u32,
    /// Whether the first variable is added, and not subtracted.
    pub plus: bool,
    /// Greater than the first; 0 where the form has one variable, and then `second_plus` is true.
    pub second: u32,
    pub second_plus: bool,
}

/// A form that is at most a bound, where it has one.
#[derive(Clone, Copy, PartialEq, Eq, Debug)]
pub struct Row {
    pub form: Form,
    pub bound: Option<i128>,
}

/// The value of a variable, and 0 for number 0.
fn variable(values: &[i128], number: u32) -> i128
    requires over { number ≤ length values.now }
    requires values { All IsNumber values.now }
    ensures is { result ≡ variable values.now number }
    ensures number { IsNumber result }
{
    if number == 0 {
        0
    } else {
        values[number as usize - 1]
    }
}

fn signed(plus: bool, value: i128) -> i128
    requires { IsNumber value }
    ensures is { result ≡ signed plus value }
    ensures least { negsuc (2 ^ 64) ≤ℤ result }
    ensures most { result ≤ℤ pos (2 ^ 64) }
{
    if plus { value } else { -value }
}

/// The value of a form, exact over the whole numbers. Variable v stands at index v - 1; values are from -2^63 to
/// 2^64 - 1.
pub fn row_value(form: &Form, values: &[i128]) -> i128
    requires over { IsOver (length values.now) form.now }
    requires values { All IsNumber values.now }
    ensures { result ≡ row_value form.now values.now }
{
    let first = variable(values, form.first);
    let second = variable(values, form.second);
    signed(form.plus, first) + signed(form.second_plus, second)
}

/// Whether a form stands before another: those of one variable first, then by the variables, and then plus before minus.
pub fn stands_before(form: &Form, other: &Form) -> bool
    ensures { result ≡ stands_before form.now other.now }
{
    if form.second == 0 && other.second != 0 {
        true
    } else if form.second != 0 && other.second == 0 {
        false
    } else if form.first != other.first {
        form.first < other.first
    } else if form.second != other.second {
        form.second < other.second
    } else if form.plus != other.plus {
        form.plus
    } else {
        form.second_plus && !other.second_plus
    }
}

/// Whether the value of the row's form is at most its bound.
pub(crate) fn row_holds(row: &Row, values: &[i128]) -> bool
    requires over { IsOver (length values.now) row.now.form }
    requires values { All IsNumber values.now }
    ensures { result ≡ row_holds row.now values.now }
{
    let value = row_value(&row.form, values);
    match row.bound {
        None => true,
        Some(bound) => value <= bound,
    }
}

/// Whether some component of a ranking has another value afterwards than before, and the first such one is smaller
/// afterwards. Values stand as for `row_value`.
pub fn lower_than(ranking: &[Form], before: &[i128], after: &[i128]) -> bool
    requires over_before { All (IsOver (length before.now)) ranking.now }
    requires over_after { All (IsOver (length after.now)) ranking.now }
    requires values_before { All IsNumber before.now }
    requires values_after { All IsNumber after.now }
    ensures { result ≡ lower_than ranking.now before.now after.now }
{
    for form in ranking {
        let old = row_value(form, before);
        let new = row_value(form, after);
        if new != old {
            return new < old;
        }
    }
    false
}
