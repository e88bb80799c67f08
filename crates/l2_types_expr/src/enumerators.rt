// Constants and enumerators, when their expressions were looked at.
ghost use Rattle.std.specs.Prelude.{◌≡◌, pos, IfOk};
ghost use Rattle.l2_bits.specs.Values.{wrap};
ghost use Rattle.l2_bits.specs.Operators.{add};
ghost use Rattle.l2_types.specs.States.{saw};
ghost use Rattle.l2_types.specs.Meant.{operand_tree};
ghost use Rattle.l2_types_expr.specs.Enumerators.{number_of, constant_of, in_int, successor, enumerator_meaning, with_enumerator, with_enum_tag};

use l2_bits::{Ty, add, wrap};
use l2_constants::{Folded, fold};
use l2_syntax::{Place, Rule};
use l2_tree::Tag;
use l2_types::{CType, CheckError, Meaning, Operand, Table};

fn number_of(table: &mut Table, place: Place, x: Folded) -> Result<Option<i128>, CheckError>
    ensures ok { IfOk result (λ v. number_of place x table.old ≡ saw v table.new) }
{
    match x {
        Folded::Number(v) => Ok(Some(v)),
        Folded::Varies | Folded::Breaks => {
            table.fault(place, Rule::Constant)?;
            Ok(None)
        }
    }
}

/// The number of what must be constant, with its first token's place.
pub fn constant_of(table: &mut Table, place: Place, x: Operand) -> Result<Option<i128>, CheckError>
    ensures ok { IfOk result (λ v. constant_of place (operand_tree x) table.old ≡ saw v table.new) }
{
    match x {
        Operand::Unknown => Ok(None),
        Operand::Of(t, e) => match t {
            CType::Void => {
                table.fault(place, Rule::Constant)?;
                Ok(None)
            }
            CType::Integer(_) => {
                let may = table.overflow();
                let value = fold(may, &e);
                number_of(table, place, value)
            }
        },
    }
}

/// A value of `int`.
pub fn in_int(v: Option<i128>) -> Option<i128>
    ensures { result ≡ in_int v }
{
    match v {
        None => None,
        Some(v) => Some(wrap(Ty::INT, v)),
    }
}

/// The value behind one of a type.
fn value_behind(ty: Ty, v: i128) -> i128
    ensures { result ≡ add ty (wrap ty v) (wrap ty (pos 1)) }
{
    add(ty, wrap(ty, v), wrap(ty, 1))
}

fn successor(v: Option<i128>) -> Option<i128>
    ensures { result ≡ successor v }
{
    match v {
        None => None,
        Some(v) => Some(value_behind(Ty::INT, v)),
    }
}

fn enumerator_meaning(v: Option<i128>) -> Meaning
    ensures { result ≡ enumerator_meaning v }
{
    match v {
        None => Meaning::Unknown,
        Some(v) => Meaning::Enumerator(v),
    }
}

/// An enumerator's name becomes known. The answer is the value of the next one.
pub fn with_enumerator(
    table: &mut Table,
    name: u32,
    place: Place,
    v: Option<i128>,
) -> Result<Option<i128>, CheckError>
    ensures ok { IfOk result (λ w. with_enumerator name place v table.old ≡ saw w table.new) }
{
    table.declare(name, place, enumerator_meaning(v))?;
    Ok(successor(v))
}

/// The tag of an enum with enumerators.
pub fn with_enum_tag(table: &mut Table, tag: Option<Tag>) -> Result<(), CheckError>
    ensures ok { IfOk result (λ u. table.new ≡ with_enum_tag tag table.old) }
{
    match tag {
        None => Ok(()),
        Some(tag) => table.define_tag(tag.name, tag.place),
    }
}
