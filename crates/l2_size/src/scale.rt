// What single instructions weigh.
ghost use Rattle.std.specs.Prelude.{◌≡◌, true, List, [], ◌∷◌, length, Contains, MatchOption, IfOk};
ghost use Rattle.l2_runs.specs.declared.cells.CellType.{CellType};
ghost use Rattle.l2_runs.specs.Numbers.{at_number};
ghost use Rattle.l2_runs.specs.Members.{has};
ghost use Rattle.l2_code.specs.Trees.{code_of};
ghost use Rattle.l2_code.specs.Values.{same_type};
ghost use Rattle.l2_code.specs.Sets.{AllRise, family, members_of, entry_of};
ghost use Rattle.l2_code.specs.Modes.{mods_of, object_cells, pointed_cells};
ghost use Rattle.l2_code.specs.Sizes.{cells_in, reach, first_reach, operator_weight, test_weight, computation_weight, weight, cells_among, head_weight, rows_of, end_weight};
ghost use Rattle.l2_size.specs.Capped.{capped};

use crate::tables::{Table, counted, number_at, same_type};
use l2_code::{Action, Code, Computation, Operand, Operator, Sets, Test};
use l2_runs::{CellType, index_of};
use std::alloc::{AllocError, Global};
use std::marker::Model;

/// The table of this type, where it was made.
fn find(tables: &[Table], ty: CellType) -> Option<&Table>
    ensures { MatchOption result (Unit {0}) (λ t. (same_type ty t.now.ty ≡ true) × Contains tables.now t.now) }
{
    for table in tables {
        if same_type(ty, table.ty) {
            return Some(table);
        }
    }
    None
}

/// What stands at this number, or 0.
fn entry_at(entries: &[u32], number: u32) -> u32
    ensures entry { result ≡ entry_of (at_number entries.now number) }
    ensures rows { result ≡ rows_of (at_number entries.now number) }
{
    match index_of(number) {
        Some(i) => match entries.get(i) {
            Some(n) => *n,
            None => 0,
        },
        None => 0,
    }
}

fn operator_weight(operator: Operator) -> u64
    ensures { result ≡ operator_weight operator }
{
    match operator {
        Operator::Add => 1,
        Operator::Sub => 1,
        Operator::Mul => 64,
        Operator::Div => 128,
        Operator::Rem => 128,
        Operator::Shl => 1,
        Operator::Shr => 1,
        Operator::And => 1,
        Operator::Or => 1,
        Operator::Xor => 1,
        Operator::Eq => 1,
        Operator::Ne => 1,
        Operator::Lt => 1,
        Operator::Le => 1,
    }
}

/// A code that is weighed, with its sets, the copies of each turn, the rows of each loop, and the tables that were made.
#[derive(Drop)]
pub struct Scale<'a> {
    code: &'a Code,
    sets: &'a Sets,
    copies: u32,
    rows: &'a [u32],
    tables: Vec<Table>,
}

impl<'a> Model for Scale<'a> {
    ghost use Rattle.std.specs.Coded.{codes};
    ghost use Rattle.l2_code.specs.contracts.code.Code as code_type;
    ghost use Rattle.l2_size.specs.Tables.{Load, AreRight};

    ghost Value = { Load };

    ghost coded = { Prim.hlevel (codes, code_type.the_row.coded) };

    ghost view = { λ s. record { code = s.code.now; sets = s.sets.now; copies = s.copies; rows = s.rows.now } };

    ghost invariant = { λ s. AreRight s.code.now.objects s.sets.now.sets s.tables.items };
}

impl<'a> Scale<'a> {
    pub fn new(
        alloc: Global,
        code: &'a Code,
        sets: &'a Sets,
        copies: u32,
        rows: &'a [u32],
    ) -> Scale<'a>
        requires { AllRise sets.now.sets }
        ensures { result ≡ record { code = code.now; sets = sets.now; copies = copies; rows = rows.now } }
    {
        Scale {
            code,
            sets,
            copies,
            rows,
            tables: Vec::new(alloc),
        }
    }

    /// How many copies each turn has.
    pub fn copies(&self) -> u64
        ensures { result ≡ self.now.copies }
    {
        u64::from(self.copies)
    }

    /// How many cells of a type stand in the objects of the set of this number.
    fn set_reach(&mut self, alloc: Global, ty: CellType, set: u32) -> Result<u64, AllocError>
        ensures same { self.new ≡ self.old }
        ensures is { IfOk result (λ n. n ≡ capped (cells_in (has (members_of (at_number self.old.sets.sets set))) ty 1 self.old.code.objects)) }
    {
        if let Some(table) = find(self.tables.as_slice(), ty) {
            return Ok(number_at(table.counts.as_slice(), set));
        }
        let table = counted(
            alloc,
            self.code.objects.as_slice(),
            self.sets.sets.as_slice(),
            ty,
        )?;
        let n = number_at(table.counts.as_slice(), set);
        self.tables.push(table)?;
        Ok(n)
    }

    /// What an address adds to the weight of what goes to a cell of this type.
    fn reach(&mut self, alloc: Global, ty: CellType, at: Operand) -> Result<u64, AllocError>
        ensures same { self.new ≡ self.old }
        ensures is { IfOk result (λ n. n ≡ capped (reach (code_of self.old.code) (family self.old.sets) ty at)) }
    {
        match at {
            Operand::Constant(_) => Ok(0),
            Operand::Temp(n) => {
                let set = entry_at(self.sets.temps.as_slice(), n);
                self.set_reach(alloc, ty, set)
            }
        }
    }

    /// The cells of a pointed type.
    fn pointed_cells(&self, pointed: u32) -> &[CellType]
        ensures { result.now ≡ pointed_cells (at_number self.now.code.pointed pointed) }
    {
        match index_of(pointed) {
            Some(i) => match self.code.pointed.as_slice().get(i) {
                Some(p) => p.cells.as_slice(),
                None => &[],
            },
            None => &[],
        }
    }

    /// The type of the first cell of a pointed type.
    fn first_type(&self, pointed: u32) -> Option<CellType>
        ensures { MatchOption result
            (pointed_cells (at_number self.now.code.pointed pointed) ≡ [])
            (λ ty. (rest : List CellType) × (pointed_cells (at_number self.now.code.pointed pointed) ≡ ty ∷ rest)) }
    {
        match self.pointed_cells(pointed).split_first() {
            Some((ty, _)) => Some(*ty),
            None => None,
        }
    }

    /// What an address adds to the weight of what looks at the cells of a pointed type there.
    fn first_reach(&mut self, alloc: Global, pointed: u32, at: Operand) -> Result<u64, AllocError>
        ensures same { self.new ≡ self.old }
        ensures is { IfOk result (λ n. n ≡ capped (first_reach (code_of self.old.code) (family self.old.sets) (pointed_cells (at_number self.old.code.pointed pointed)) at)) }
    {
        match self.first_type(pointed) {
            Some(ty) => self.reach(alloc, ty, at),
            None => Ok(0),
        }
    }

    fn test_weight(&mut self, alloc: Global, test: &Test) -> Result<u64, AllocError>
        ensures same { self.new ≡ self.old }
        ensures is { IfOk result (λ n. n ≡ capped (test_weight (code_of self.old.code) (family self.old.sets) test.now)) }
    {
        match test {
            Test::Division(_, _, _) => Ok(1),
            Test::Shift(_, _) => Ok(1),
            Test::Overflow(_, _, _, _) => Ok(1),
            Test::Index(_, _) => Ok(1),
            Test::IndexEnd(_, _) => Ok(1),
            Test::Null(_) => Ok(1),
            Test::Invalid(_) => Ok(1),
            Test::Live(_) => Ok(1),
            Test::Cells(pointed, at) => {
                let n = self.first_reach(alloc, *pointed, *at)?;
                Ok(n.saturating_add(1))
            }
            Test::Move(_, _, _) => Ok(1),
            Test::Same(_, _) => Ok(1),
        }
    }

    fn computation_weight(
        &mut self,
        alloc: Global,
        computation: &Computation,
    ) -> Result<u64, AllocError>
        ensures same { self.new ≡ self.old }
        ensures is { IfOk result (λ n. n ≡ capped (computation_weight (code_of self.old.code) (family self.old.sets) computation.now)) }
    {
        match computation {
            Computation::Numbers(operator, _, _, _) => Ok(operator_weight(*operator)),
            Computation::Convert(_, _) => Ok(1),
            Computation::Move(_, _, _) => Ok(1),
            Computation::Pointers(_, _, _) => Ok(1),
            Computation::Passes(test) => self.test_weight(alloc, test),
        }
    }

    /// What an instruction weighs.
    pub fn weight(&mut self, alloc: Global, action: &Action) -> Result<u64, AllocError>
        ensures same { self.new ≡ self.old }
        ensures is { IfOk result (λ n. n ≡ capped (weight (code_of self.old.code) (family self.old.sets) action.now)) }
    {
        match action {
            Action::Compute(_, computation) => self.computation_weight(alloc, computation),
            Action::Read(_, ty, at) => {
                let n = self.reach(alloc, *ty, *at)?;
                Ok(n.saturating_add(1))
            }
            Action::Write(ty, at, _) => {
                let n = self.reach(alloc, *ty, *at)?;
                Ok(n.saturating_add(1))
            }
            Action::Choice(_, _) => Ok(1),
            Action::Assume(_) => Ok(1),
            Action::Check(_, _) => Ok(1),
            Action::Unless(_, _) => Ok(1),
            Action::Goto(_) => Ok(1),
            Action::Live(_) => Ok(1),
            Action::Dead(_) => Ok(1),
            Action::End => Ok(1),
        }
    }

    /// The objects that a loop may change.
    fn mods(&self, l: u32) -> &[u32]
        ensures { result.now ≡ mods_of (code_of self.now.code) l }
    {
        match index_of(l) {
            Some(i) => match self.code.loops.as_slice().get(i) {
                Some(found) => found.mods.as_slice(),
                None => &[],
            },
            None => &[],
        }
    }

    /// How many cells an object has.
    fn cells(&self, object: u32) -> u64
        ensures { result ≡ length (object_cells (at_number self.now.code.objects object)) }
    {
        match index_of(object) {
            Some(i) => match self.code.objects.as_slice().get(i) {
                Some(found) => found.cells.as_slice().len() as u64,
                None => 0,
            },
            None => 0,
        }
    }

    /// How many cells these objects have.
    fn cells_among(&self, objects: &[u32]) -> u64
        ensures { result ≡ capped (cells_among self.now.code.objects objects.now) }
    {
        let mut total: u64 = 0;
        for object in objects {
            total = total.saturating_add(self.cells(*object));
        }
        total
    }

    /// What a loop's head weighs.
    pub fn head_weight(&self, l: u32) -> u64
        ensures { result ≡ capped (head_weight (code_of self.now.code) l) }
    {
        self.cells_among(self.mods(l)).saturating_add(1)
    }

    /// What the end of a turn weighs.
    pub fn end_weight(&self, l: u32) -> u64
        ensures { result ≡ end_weight self.now.rows l }
    {
        u64::from(entry_at(self.rows, l)) + 1
    }
}
