// Expressions.
ghost use Rattle.std.specs.Prelude.{◌≡◌, true, [], ◌∷◌, IfOk};
ghost use Rattle.l2_bits.specs.Values.{IsValue};
ghost use Rattle.l2_runs.specs.declared.cells.CellType.TheVariants.{Integer};
ghost use Rattle.l2_runs.specs.declared.cells.CellValue.TheVariants.{Number};
ghost use Rattle.l2_runs.specs.Fits.{CellFits, CellsFit, FitsAt};
ghost use Rattle.l2_runs.specs.Runs.{Go, check};
ghost use Rattle.l2_runs.specs.Store.{with_cell};
ghost use Rattle.l2_program.specs.Checked.{typed_tree, Object, Read};
ghost use Rattle.l2_program.specs.Types.{type_of};
ghost use Rattle.l2_meaning.specs.Meaning.{value, put, first_of, fresh, fill, number, number_of, holds};
ghost use Rattle.l2_meaning.specs.Lawful.{IsTyped};
ghost use Rattle.l2_replay.specs.Reach.{value_of, Does, setting, layout, Fits};

use crate::answer::Fault;
use crate::machine::Machine;
use crate::operators::{binary, binary_overflows, unary, unary_overflows};
use l2_bits::{Ty, convert, wrap};
use l2_program::{Lvalue, Program, Typed};
use l2_runs::{CellType, CellValue, Outcome};

/// What an expression gives.
#[derive(Clone, Copy)]
pub enum Value {
    Nothing,
    Scalar(CellValue),
}

/// The number that an integer expression's value is.
fn integer_of(p: &Program, ty: Ty, e: &Typed, v: Value) -> i128
    requires integer { type_of (typed_tree e.now) ≡ Integer ty ∷ [] }
    requires typed { CellsFit (layout p.now) (type_of (typed_tree e.now)) (value_of v) }
    ensures is { value_of v ≡ number result }
    ensures value { IsValue ty result }
{
    match v {
        Value::Scalar(CellValue::Number(z)) => z,
        Value::Scalar(CellValue::Null) => 0,
        Value::Scalar(CellValue::Invalid) => 0,
        Value::Scalar(CellValue::At { .. }) => 0,
        Value::Nothing => 0,
    }
}

/// The number that a value is, or 0.
fn number_of(v: Value) -> i128
    ensures { result ≡ number_of (value_of v) }
{
    match v {
        Value::Scalar(CellValue::Number(z)) => z,
        Value::Scalar(CellValue::Null) => 0,
        Value::Scalar(CellValue::Invalid) => 0,
        Value::Scalar(CellValue::At { .. }) => 0,
        Value::Nothing => 0,
    }
}

/// Whether a value is a scalar that differs from 0.
pub fn holds(v: Value) -> bool
    ensures { result ≡ holds (value_of v) }
{
    match v {
        Value::Scalar(CellValue::Number(z)) => z != 0,
        Value::Scalar(CellValue::At { .. }) => true,
        Value::Scalar(CellValue::Null) => false,
        Value::Scalar(CellValue::Invalid) => false,
        Value::Nothing => false,
    }
}

/// A check of this number, 0 where there is none.
fn check(m: &Machine, c: u32, ok: bool) -> Result<(), Fault>
    ensures { Does (λ u. tt) (check true c ok) m.now m.now result }
{
    if c == 0 || ok {
        Ok(())
    } else {
        Err(Fault::Over(Outcome::Broken(c)))
    }
}

/// What a variable of this type holds.
fn read(m: &Machine, p: &Program, n: u32, ty: CellType) -> CellValue
    requires fits { Fits p.now m.now }
    requires cell { layout p.now n ≡ ty ∷ [] }
    ensures is { value (setting p.now) true (Read ty (Object n)) m.now ≡ Go (result ∷ []) m.now }
    ensures typed { CellFits (layout p.now) ty result }
{
    m.read(n, 0)
}

/// Gives a cell of an object a value of its type.
fn write(m: &mut Machine, p: &Program, n: u32, offset: usize, v: CellValue)
    requires fits { Fits p.now m.old }
    requires typed { FitsAt (layout p.now) (layout p.now n) offset v }
    ensures is { m.new ≡ record m.old { store = with_cell m.old.store (record { object = n; offset = offset }) v } }
    ensures fits { Fits p.now m.new }
{
    m.write(n, offset, v);
}

/// Gives an object the value of an expression of its type.
pub fn put(m: &mut Machine, p: &Program, n: u32, e: &Typed, v: Value)
    requires fits { Fits p.now m.old }
    requires same { layout p.now n ≡ type_of (typed_tree e.now) }
    requires typed { CellsFit (layout p.now) (type_of (typed_tree e.now)) (value_of v) }
    ensures is { put (first_of n) (value_of v) m.old ≡ Go tt m.new }
    ensures fits { Fits p.now m.new }
{
    if let Value::Scalar(c) = v {
        write(m, p, n, 0, c);
    }
}

/// The number that an integer expression gives.
#[cycle(expressions)]
#[tactic(auto, using(crate::proofs::Steps::steps))]
fn operand(m: &mut Machine, p: &Program, ty: Ty, e: &Typed) -> Result<i128, Fault>
    requires fits { Fits p.now m.old }
    requires typed { IsTyped (layout p.now) (typed_tree e.now) }
    requires integer { type_of (typed_tree e.now) ≡ Integer ty ∷ [] }
    ensures does { Does number (value (setting p.now) true (typed_tree e.now)) m.old m.new result }
    ensures fits { Fits p.now m.new }
    ensures value { IfOk result (λ z. IsValue ty z) }
{
    let v = eval(m, p, e)?;
    Ok(integer_of(p, ty, e, v))
}

/// The value of an expression.
#[cycle(expressions)]
#[tactic(auto, using(crate::proofs::Steps::steps))]
pub fn eval(m: &mut Machine, p: &Program, e: &Typed) -> Result<Value, Fault>
    requires fits { Fits p.now m.old }
    requires typed { IsTyped (layout p.now) (typed_tree e.now) }
    ensures does { Does value_of (value (setting p.now) true (typed_tree e.now)) m.old m.new result }
    ensures fits { Fits p.now m.new }
    ensures typed { IfOk result (λ v. CellsFit (layout p.now) (type_of (typed_tree e.now)) (value_of v)) }
{
    match e {
        Typed::Constant(_, v) => Ok(Value::Scalar(*v)),
        Typed::Choice(ty) => {
            let c = m.choose()?;
            Ok(Value::Scalar(CellValue::Number(wrap(*ty, c))))
        }
        Typed::Read(ty, Lvalue::Object(n)) => Ok(Value::Scalar(read(m, p, *n, *ty))),
        Typed::Unary(op, ty, c, e) => {
            let a = operand(m, p, *ty, e)?;
            check(m, *c, !unary_overflows(*op, *ty, a))?;
            Ok(Value::Scalar(CellValue::Number(unary(*op, *ty, a))))
        }
        Typed::Binary(op, ty, c, x, y) => {
            let a = operand(m, p, *ty, x)?;
            let b = operand(m, p, *ty, y)?;
            check(m, *c, !binary_overflows(*op, *ty, a, b))?;
            Ok(Value::Scalar(CellValue::Number(binary(*op, *ty, a, b))))
        }
        Typed::Convert(ty, e) => {
            let v = eval(m, p, e)?;
            Ok(Value::Scalar(CellValue::Number(convert(*ty, number_of(v)))))
        }
        Typed::Assign(_, Lvalue::Object(n), e) => {
            let v = eval(m, p, e)?;
            put(m, p, *n, e, v);
            Ok(v)
        }
        Typed::Assert(c, e) => {
            let v = eval(m, p, e)?;
            check(m, *c, holds(v))?;
            Ok(Value::Nothing)
        }
    }
}

/// A value of a cell that is not initialised.
fn fresh(m: &mut Machine, p: &Program, ty: CellType) -> Result<CellValue, Fault>
    ensures does { Does (λ v. v) (fresh ty) m.old m.new result }
    ensures store { m.new.store ≡ m.old.store }
    ensures typed { IfOk result (λ v. CellFits (layout p.now) ty v) }
{
    match ty {
        CellType::Integer(ty) => {
            let c = m.choose()?;
            Ok(CellValue::Number(wrap(ty, c)))
        }
        CellType::Pointer => Ok(CellValue::Invalid),
    }
}

/// Gives the cells of an object what they hold without an initialiser.
pub fn fill(m: &mut Machine, p: &Program, n: u32, types: &[CellType]) -> Result<(), Fault>
    requires fits { Fits p.now m.old }
    requires cells { types.now ≡ layout p.now n }
    ensures does { Does (λ u. tt) (fill n 0 types.now) m.old m.new result }
    ensures fits { Fits p.now m.new }
{
    for i in 0..types.len() {
        let v = fresh(m, p, types[i])?;
        write(m, p, n, i, v);
    }
    Ok(())
}
