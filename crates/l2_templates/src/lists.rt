ghost use Rattle.std.specs.Prelude.{◌≡◌, ◌<◌, ◌++◌, ◌∷◌, [], length, IfOk, OnOk, OnErr, slice_index_or};
ghost use Rattle.l2_templates.specs.Rows.{bounded_rows, row_at, row_of};
ghost use Rattle.l2_templates.specs.Points.{loop_at};

use crate::form::{Form, Row};
use crate::point::LoopPoint;
use l2_bits::List;
use std::alloc::{AllocError, Global};
use std::marker::Model;

/// The rows of a loop, in order.
#[derive(Debug, Drop)]
pub struct RowList {
    rows: Vec<Row>,
}

impl Model for RowList {
    ghost use Rattle.std.specs.Prelude.{List};
    ghost use Rattle.l2_templates.specs.declared.form.Row.{Row};

    ghost Value = { List Row };

    ghost view = { λ a. a.rows.items };
}

impl RowList {
    pub fn new(alloc: Global) -> RowList
        ensures { result ≡ [] }
    {
        RowList {
            rows: Vec::new(alloc),
        }
    }

    pub fn push(&mut self, form: Form, bound: Option<i128>) -> Result<(), AllocError>
        ensures ok { OnOk result (self.new ≡ self.old ++ row_of form bound ∷ []) }
        ensures err { OnErr result (self.new ≡ self.old) }
    {
        self.rows.push(Row { form, bound })?;
        Ok(())
    }

    pub fn len(&self) -> usize
        ensures { result ≡ length self.now }
    {
        self.rows.len()
    }

    pub fn get(&self, i: usize) -> (Form, Option<i128>)
        requires { i < length self.now }
        ensures form { result.0 ≡ (row_at self.now i).form }
        ensures bound { result.1 ≡ (row_at self.now i).bound }
    {
        let row = self.rows[i];
        (row.form, row.bound)
    }

    pub fn as_slice(&self) -> &[Row]
        ensures { result.now ≡ self.now }
    {
        self.rows.as_slice()
    }

    /// Takes out the rows without a bound.
    pub(crate) fn keep_bounded(&mut self)
        ensures { self.new ≡ bounded_rows self.old }
    {
        self.rows.retain(|row| row.bound.is_some());
    }

    /// The same rows once more.
    pub(crate) fn copy(&self) -> Result<RowList, AllocError>
        ensures { IfOk result (λ rows. rows ≡ self.now) }
    {
        let rows = Vec::from_slice(*self.rows.allocator(), self.rows.as_slice())?;
        Ok(RowList { rows })
    }
}

/// For each loop in order what holds at its head: nothing, or its rows.
#[derive(Debug, Drop)]
pub struct Point {
    loops: Vec<LoopPoint>,
}

impl Model for Point {
    ghost use Rattle.std.specs.Prelude.{List};
    ghost use Rattle.l2_templates.specs.declared.point.LoopPoint.{LoopPoint};

    ghost Value = { List LoopPoint };

    ghost view = { λ a. a.loops.items };
}

impl Point {
    pub fn new(alloc: Global) -> Point
        ensures { result ≡ [] }
    {
        Point {
            loops: Vec::new(alloc),
        }
    }

    pub fn push(&mut self, at: LoopPoint) -> Result<(), AllocError>
        ensures ok { OnOk result (self.new ≡ self.old ++ at ∷ []) }
        ensures err { OnErr result (self.new ≡ self.old) }
    {
        self.loops.push(at)?;
        Ok(())
    }

    pub fn len(&self) -> usize
        ensures { result ≡ length self.now }
    {
        self.loops.len()
    }

    pub fn get(&self, i: usize) -> &LoopPoint
        requires { i < length self.now }
        ensures { result.now ≡ loop_at self.now i }
    {
        &self.loops[i]
    }

    pub(crate) fn alloc(&self) -> Global {
        *self.loops.allocator()
    }

    pub(crate) fn into_loops(self) -> Vec<LoopPoint>
        ensures { result.items ≡ self }
    {
        let Point { loops } = self;
        loops
    }

    pub(crate) fn of_loops(loops: Vec<LoopPoint>) -> Point
        ensures { result ≡ loops.items }
    {
        Point { loops }
    }
}

/// For each loop in order its ranking, a list of forms.
#[derive(Debug, Drop)]
pub struct Ranks {
    loops: Vec<List<Form>>,
}

impl Model for Ranks {
    ghost use Rattle.std.specs.Prelude.{List};
    ghost use Rattle.l2_templates.specs.declared.form.Form.{Form};

    ghost Value = { List (List Form) };

    ghost view = { λ a. a.loops.items };
}

impl Ranks {
    pub fn new(alloc: Global) -> Ranks
        ensures { result ≡ [] }
    {
        Ranks {
            loops: Vec::new(alloc),
        }
    }

    pub fn push(&mut self, forms: Vec<Form>) -> Result<(), AllocError>
        ensures ok { OnOk result (self.new ≡ self.old ++ forms.items ∷ []) }
        ensures err { OnErr result (self.new ≡ self.old) }
    {
        self.loops.push(List::new(forms))?;
        Ok(())
    }

    pub fn len(&self) -> usize
        ensures { result ≡ length self.now }
    {
        self.loops.len()
    }

    pub fn get(&self, i: usize) -> &[Form]
        requires { i < length self.now }
        ensures { result.now ≡ slice_index_or self.now i [] }
    {
        self.loops[i].as_slice()
    }
}
