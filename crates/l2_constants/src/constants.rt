// Constant expressions.
ghost use Rattle.std.specs.Prelude.{◌≡◌, ◌&&◌};
ghost use Rattle.l2_bits.specs.Values.{IsValue, wrap};
ghost use Rattle.l2_bits.specs.Operators.{shl, overflows};
ghost use Rattle.l2_bits.specs.declared.operators.Op.{Op};
ghost use Rattle.l2_types.specs.Trees.{typed_tree};
ghost use Rattle.l2_constants.specs.Constants.{compared, unless_over, or_breaks, or_overflows, arithmetic, right_operand, negation, fold_convert, fold_unary, fold_arithmetic, fold_compare, stops, fold_join, both, fold_conditional, fold};

use l2_bits::{Op, Ty, add, and, convert, div, mul, or, overflows, rem, shl, shr, sub, wrap, xor};
use l2_types::{Arithmetic, Comparison, Junction, Negation, Typed};

/// What an expression is before anything is evaluated.
#[derive(Clone, Copy, Debug, PartialEq, Eq)]
pub enum Folded {
    /// It is no constant expression.
    Varies,
    /// It breaks a check.
    Breaks,
    Number(i128),
}

fn compared(op: Comparison, a: i128, b: i128) -> bool
    ensures { result ≡ compared op a b }
{
    match op {
        Comparison::Less => a < b,
        Comparison::LessEqual => a <= b,
        Comparison::Greater => a > b,
        Comparison::GreaterEqual => a >= b,
        Comparison::Equal => a == b,
        Comparison::NotEqual => a != b,
    }
}

fn unless_over(over: bool, v: i128) -> Folded
    ensures { result ≡ unless_over over v }
{
    if over {
        Folded::Breaks
    } else {
        Folded::Number(v)
    }
}

fn or_breaks(v: Option<i128>) -> Folded
    ensures { result ≡ or_breaks v }
{
    match v {
        None => Folded::Breaks,
        Some(v) => Folded::Number(v),
    }
}

/// `a << b` where overflow is checked.
#[tactic(auto, unfolding(l2_bits::specs::Operators::shl, l2_bits::specs::Operators::breaks_shift))]
fn shifted(may: bool, ty: Ty, a: i128, b: i128) -> Folded
    requires { IsValue ty a }
    ensures { result ≡ or_overflows (shl ty a b) (may && overflows Op.Shl ty a b) }
{
    match shl(ty, a, b) {
        None => Folded::Breaks,
        Some(v) => {
            if may {
                unless_over(overflows(Op::Shl, ty, a, b), v)
            } else {
                Folded::Number(v)
            }
        }
    }
}

/// An operator on two numbers.
fn arithmetic(may: bool, op: Arithmetic, ty: Ty, a: i128, b: i128) -> Folded
    ensures { result ≡ arithmetic may op ty (wrap ty a) (right_operand op ty b) }
{
    let x = wrap(ty, a);
    let y = wrap(ty, b);
    match op {
        Arithmetic::Multiply => unless_over(may && overflows(Op::Mul, ty, x, y), mul(ty, x, y)),
        Arithmetic::Divide => or_breaks(div(ty, x, y)),
        Arithmetic::Remainder => or_breaks(rem(ty, x, y)),
        Arithmetic::Add => unless_over(may && overflows(Op::Add, ty, x, y), add(ty, x, y)),
        Arithmetic::Subtract => unless_over(may && overflows(Op::Sub, ty, x, y), sub(ty, x, y)),
        Arithmetic::ShiftLeft => shifted(may, ty, x, b),
        Arithmetic::ShiftRight => or_breaks(shr(ty, x, b)),
        Arithmetic::BitAnd => Folded::Number(and(ty, x, y)),
        Arithmetic::BitXor => Folded::Number(xor(ty, x, y)),
        Arithmetic::BitOr => Folded::Number(or(ty, x, y)),
    }
}

/// An operator on one number.
fn negation(may: bool, op: Negation, ty: Ty, a: i128) -> Folded
    ensures { result ≡ negation may op ty (wrap ty a) }
{
    let x = wrap(ty, a);
    match op {
        Negation::Negate => {
            let zero = wrap(ty, 0);
            unless_over(may && overflows(Op::Sub, ty, zero, x), sub(ty, zero, x))
        }
        Negation::Complement => Folded::Number(xor(ty, x, wrap(ty, -1))),
        Negation::Not => Folded::Number(i128::from(x == 0)),
    }
}

fn fold_convert(ty: Ty, x: Folded) -> Folded
    ensures { result ≡ fold_convert ty x }
{
    match x {
        Folded::Number(a) => Folded::Number(convert(ty, a)),
        _ => x,
    }
}

fn fold_unary(may: bool, op: Negation, ty: Ty, x: Folded) -> Folded
    ensures { result ≡ fold_unary may op ty x }
{
    match x {
        Folded::Number(a) => negation(may, op, ty, a),
        _ => x,
    }
}

fn fold_arithmetic(may: bool, op: Arithmetic, ty: Ty, x: Folded, y: Folded) -> Folded
    ensures { result ≡ fold_arithmetic may op ty x y }
{
    match x {
        Folded::Varies => Folded::Varies,
        Folded::Breaks => match y {
            Folded::Varies => Folded::Varies,
            _ => Folded::Breaks,
        },
        Folded::Number(a) => match y {
            Folded::Number(b) => arithmetic(may, op, ty, a, b),
            _ => y,
        },
    }
}

fn fold_compare(op: Comparison, x: Folded, y: Folded) -> Folded
    ensures { result ≡ fold_compare op x y }
{
    match x {
        Folded::Varies => Folded::Varies,
        Folded::Breaks => match y {
            Folded::Varies => Folded::Varies,
            _ => Folded::Breaks,
        },
        Folded::Number(a) => match y {
            Folded::Number(b) => Folded::Number(i128::from(compared(op, a, b))),
            _ => y,
        },
    }
}

fn stops(op: Junction, a: i128) -> bool
    ensures { result ≡ stops op a }
{
    match op {
        Junction::And => a == 0,
        Junction::Or => a != 0,
    }
}

fn fold_join(op: Junction, x: Folded, y: Folded) -> Folded
    ensures { result ≡ fold_join op x y }
{
    match x {
        Folded::Varies => Folded::Varies,
        Folded::Breaks => match y {
            Folded::Varies => Folded::Varies,
            _ => Folded::Breaks,
        },
        Folded::Number(a) => match y {
            Folded::Varies => Folded::Varies,
            Folded::Breaks => if stops(op, a) {
                Folded::Number(i128::from(a != 0))
            } else {
                Folded::Breaks
            },
            Folded::Number(b) => if stops(op, a) {
                Folded::Number(i128::from(a != 0))
            } else {
                Folded::Number(i128::from(b != 0))
            },
        },
    }
}

fn both(x: Folded, y: Folded, z: Folded) -> Folded
    ensures { result ≡ both x y z }
{
    match x {
        Folded::Varies => Folded::Varies,
        _ => match y {
            Folded::Varies => Folded::Varies,
            _ => z,
        },
    }
}

fn fold_conditional(c: Folded, x: Folded, y: Folded) -> Folded
    ensures { result ≡ fold_conditional c x y }
{
    match c {
        Folded::Varies => Folded::Varies,
        Folded::Breaks => both(x, y, Folded::Breaks),
        Folded::Number(a) => if a == 0 { both(x, y, y) } else { both(x, y, x) },
    }
}

/// The value of a constant expression.
pub fn fold(may: bool, e: &Typed) -> Folded
    ensures { result ≡ fold may (typed_tree e.now) }
{
    match e {
        Typed::Constant(_, v) => Folded::Number(*v),
        Typed::Convert(ty, e) => fold_convert(*ty, fold(may, e)),
        Typed::Unary(op, ty, _, e) => fold_unary(may, *op, *ty, fold(may, e)),
        Typed::Arithmetic(op, ty, _, x, y) => fold_arithmetic(
            may,
            *op,
            *ty,
            fold(may, x),
            fold(may, y),
        ),
        Typed::Compare(op, _, x, y) => fold_compare(*op, fold(may, x), fold(may, y)),
        Typed::Join(op, x, y) => fold_join(*op, fold(may, x), fold(may, y)),
        Typed::Conditional(c, x, y) => fold_conditional(fold(may, c), fold(may, x), fold(may, y)),
        Typed::Choice(..) | Typed::Read(..) | Typed::Comma(..) | Typed::Assign(..) =>
            Folded::Varies,
        Typed::Update(..) | Typed::Call(..) | Typed::Assert(..) | Typed::Fail(..) => Folded::Varies,
        Typed::Assume(..) | Typed::Exit(..) | Typed::Abort | Typed::Discard(..) => Folded::Varies,
    }
}
