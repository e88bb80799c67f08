ghost use Rattle.std.specs.Prelude.{◌≡◌, ◌++◌, ◌∷◌, [], List, length, drop, IfOk, OnOk, slice_get};
ghost use Rattle.l2_runs.specs.Numbers.{at_number};
ghost use Rattle.l2_code.specs.Trees.{code_of};
ghost use Rattle.l2_code.specs.Values.{same_type, is_type, cell_of};
ghost use Rattle.l2_code.specs.Sets.{IsResolved, AreSetsOf, family, listed, members_of, entry_of};
ghost use Rattle.l2_code.specs.Modes.{types_of, object_cells};
ghost use Rattle.l2_deref.specs.Candidates.{cells_from, cells_of, single, candidates};

use crate::candidate::Candidate;
use l2_code::{Code, CodeObject, Operand, Sets};
use l2_runs::{CellType, CellValue, Member, index_of};
use std::alloc::{AllocError, Global};

/// A code with sets that are closed over it. Sets and candidates aren't kept in instructions: they are looked up.
#[derive(Clone, Copy)]
pub struct Resolved<'a> {
    pub code: &'a Code,
    pub sets: &'a Sets,
}

/// The code, resolved with these sets.
pub fn deref<'a>(code: &'a Code, sets: &'a Sets) -> Resolved<'a>
    requires { IsResolved (code_of code.now) (family sets.now) }
    ensures code { result.code.now ≡ code.now }
    ensures sets { result.sets.now ≡ sets.now }
    ensures resolved { IsResolved (code_of result.code.now) (family result.sets.now) }
{
    Resolved { code, sets }
}

fn is_same(a: CellType, b: CellType) -> bool
    ensures { result ≡ same_type a b }
{
    match (a, b) {
        (CellType::Integer(t), CellType::Integer(u)) => t.width == u.width && t.signed == u.signed,
        (CellType::Pointer, CellType::Pointer) => true,
        _ => false,
    }
}

// The types of an object's cells.
fn object_cells(objects: &[CodeObject], object: u32) -> &[CellType]
    ensures { result.now ≡ object_cells (at_number objects.now object) }
{
    match index_of(object) {
        Some(index) if index < objects.len() => objects[index].cells.as_slice(),
        _ => &[],
    }
}

// The members of the set to which the entry of a number leads.
fn listed<'a>(sets: &'a Sets, temp: u32) -> &'a [Member]
    ensures { result.now ≡ listed sets.now sets.now.temps temp }
{
    let entries = sets.temps.as_slice();
    let number = match index_of(temp) {
        Some(index) if index < entries.len() => entries[index],
        _ => 0,
    };
    let all = sets.sets.as_slice();
    match index_of(number) {
        Some(index) if index < all.len() => all[index].members.as_slice(),
        _ => &[],
    }
}

// Appends the cells of a type in an object.
fn push_cells(
    list: &mut Vec<Candidate>,
    ty: CellType,
    object: u32,
    types: &[CellType],
) -> Result<(), AllocError>
    ensures { OnOk result (list.new.items ≡ list.old.items ++ cells_from ty object 0 types.now) }
{
    let mut offset: u32 = 0;
    for t in types {
        if is_same(ty, *t) {
            list.push(Candidate { object, offset })?;
        }
        if offset == u32::MAX {
            return Err(AllocError);
        }
        offset += 1;
    }
    Ok(())
}

// Appends the cells of a type in an object, where the member is one.
fn push_member(
    list: &mut Vec<Candidate>,
    code: &Code,
    ty: CellType,
    member: Member,
) -> Result<(), AllocError>
    ensures { OnOk result (list.new.items ≡ list.old.items ++ cells_of (types_of (code_of code.now)).objects ty (member ∷ [])) }
{
    match member {
        Member::Null => Ok(()),
        Member::Invalid => Ok(()),
        Member::Object(object) => push_cells(
            list,
            ty,
            object,
            object_cells(code.objects.as_slice(), object),
        ),
    }
}

// Appends the cells of a type in the objects among members.
fn push_objects(
    list: &mut Vec<Candidate>,
    code: &Code,
    ty: CellType,
    members: &[Member],
) -> Result<(), AllocError>
    ensures { OnOk result (list.new.items ≡ list.old.items ++ cells_of (types_of (code_of code.now)).objects ty members.now) }
{
    for member in members {
        push_member(list, code, ty, *member)?;
    }
    Ok(())
}

// Whether the cell at an offset is of a type.
fn is_type(types: &[CellType], offset: u32, ty: CellType) -> bool
    ensures { result ≡ is_type ty (slice_get types.now offset) }
{
    match types.get(offset as usize) {
        Some(t) => is_same(ty, *t),
        None => false,
    }
}

// Appends the cell at a constant, where one of the type is there.
fn push_constant(
    list: &mut Vec<Candidate>,
    code: &Code,
    ty: CellType,
    value: CellValue,
) -> Result<(), AllocError>
    ensures { OnOk result (list.new.items ≡ list.old.items ++ single (cell_of (types_of (code_of code.now)).objects ty value)) }
{
    if let CellValue::At { object, offset } = value {
        let types = object_cells(code.objects.as_slice(), object);
        if is_type(types, offset, ty) {
            list.push(Candidate { object, offset })?;
        }
    }
    Ok(())
}

impl<'a> Resolved<'a> {
    /// The cells at which a read or a write of a cell of this type may act at this address, in the order of its set.
    pub fn candidates(
        &self,
        alloc: Global,
        ty: CellType,
        address: Operand,
    ) -> Result<Vec<Candidate>, AllocError>
        ensures { IfOk result (λ v. v.items ≡ candidates (types_of (code_of self.now.code.now)).objects self.now.sets.now ty address) }
    {
        let mut list = Vec::new(alloc);
        match address {
            Operand::Constant(value) => push_constant(&mut list, self.code, ty, value)?,
            Operand::Temp(temp) => push_objects(&mut list, self.code, ty, listed(self.sets, temp))?,
        }
        Ok(list)
    }
}
