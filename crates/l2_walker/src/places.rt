// At which cells a pointer may look, and whose flags it may ask for.
ghost use Rattle.std.specs.Prelude.{◌≡◌, ◌++◌, suc, zero, IfOk, OnOk};
ghost use Rattle.l2_runs.specs.Numbers.{at_number};
ghost use Rattle.l2_runs.specs.Members.{has, targets, same_member};
ghost use Rattle.l2_runs.specs.declared.member.Member.TheVariants.{Object};
ghost use Rattle.l2_code.specs.Modes.{object_cells};
ghost use Rattle.l2_code.specs.Sets.{family, listed, may_be};
ghost use Rattle.l2_ssa.specs.Walks.{places_in, candidates, flags_of};
ghost use Rattle.l2_ssa.specs.Views as views;
ghost use Rattle.l2_walker.specs.Made.{state_of, setting};

use crate::operands::same_type;
use crate::walker::Walker;
use l2_code::{CodeObject, Operand, Sets};
use l2_runs::{CellType, CellValue, Member, index_of};
use l2_ssa::Flag;
use std::alloc::AllocError;
use std::marker::Model;

/// A cell, by its object and offset.
#[derive(Drop)]
pub struct Place {
    object: u32,
    offset: u32,
}

impl Model for Place {
    ghost use Rattle.l2_ssa.specs.Walks as walks;

    ghost Value = { walks.Place };

    ghost view = { λ p. record { object = p.object; offset = p.offset } };
}

impl Place {
    fn new(object: u32, offset: u32) -> Place
        ensures { result ≡ record { object = object; offset = offset } }
    {
        Place { object, offset }
    }

    /// The number of the object.
    pub fn object(&self) -> u32
        ensures { result ≡ self.now.object }
    {
        self.object
    }

    /// The cell in it, from 0.
    pub fn offset(&self) -> u32
        ensures { result ≡ self.now.offset }
    {
        self.offset
    }
}

/// The types of an object's cells.
pub fn object_cells(objects: &[CodeObject], object: u32) -> &[CellType]
    ensures { result.now ≡ object_cells (at_number objects.now object) }
{
    match index_of(object) {
        Some(index) if index < objects.len() => objects[index].cells.as_slice(),
        _ => &[],
    }
}

// The members of the set of a temporary.
fn listed<'a>(sets: &'a Sets, temp: u32) -> &'a [Member]
    ensures { result.now ≡ listed sets.now sets.now.temps temp }
{
    let entries = sets.temps.as_slice();
    let number = match index_of(temp) {
        Some(index) if index < entries.len() => entries[index],
        _ => 0,
    };
    let all = sets.sets.as_slice();
    match index_of(number) {
        Some(index) if index < all.len() => all[index].members.as_slice(),
        _ => &[],
    }
}

fn is_object(member: Member, object: u32) -> bool
    ensures { result ≡ same_member member (Object object) }
{
    match member {
        Member::Null => false,
        Member::Invalid => false,
        Member::Object(other) => other == object,
    }
}

fn has_object(members: &[Member], object: u32) -> bool
    ensures { result ≡ has members.now (Object object) }
{
    for member in members {
        if is_object(*member, object) {
            return true;
        }
    }
    false
}

fn leads_to(value: CellValue, object: u32) -> bool
    ensures { result ≡ targets value (Object object) }
{
    match value {
        CellValue::Number(_) => false,
        CellValue::Null => false,
        CellValue::Invalid => false,
        CellValue::At {
            object: other,
            offset: _,
        } => other == object,
    }
}

fn may_be(sets: &Sets, operand: Operand, object: u32) -> bool
    ensures { result ≡ may_be (family sets.now) operand (Object object) }
{
    match operand {
        Operand::Constant(value) => leads_to(value, object),
        Operand::Temp(temp) => has_object(listed(sets, temp), object),
    }
}

// Appends the cells of a type in an object.
fn push_places(
    list: &mut Vec<Place>,
    ty: CellType,
    object: u32,
    types: &[CellType],
) -> Result<(), AllocError>
    ensures { OnOk result (list.new.items ≡ list.old.items ++ places_in ty object 0 types.now) }
{
    let mut offset: u32 = 0;
    for t in types {
        if same_type(ty, *t) {
            list.push(Place::new(object, offset))?;
        }
        if offset == u32::MAX {
            return Err(AllocError);
        }
        offset += 1;
    }
    Ok(())
}

impl<'a> Walker<'a> {
    /// How many objects there are.
    #[tactic(auto, unfolding(crate::specs::Made::state_of))]
    fn objects(&self) -> Result<u32, AllocError>
        ensures { IfOk result (λ n. n ≡ (setting (state_of self.now)).objects) }
    {
        match u32::try_from(self.code.objects.as_slice().len()) {
            Ok(count) => Ok(count),
            Err(_) => Err(AllocError),
        }
    }

    // Appends the cells of a type in an object, where the temporary may lead there.
    #[tactic(auto, unfolding(crate::specs::Made::state_of))]
    fn push_object(
        &self,
        list: &mut Vec<Place>,
        temp: u32,
        ty: CellType,
        object: u32,
    ) -> Result<(), AllocError>
        ensures { OnOk result (list.new.items ≡ list.old.items ++ candidates (setting (state_of self.now)) ((setting (state_of self.now)).family.temp temp) ty object (suc zero)) }
    {
        if has_object(listed(self.sets, temp), object) {
            push_places(
                list,
                ty,
                object,
                object_cells(self.code.objects.as_slice(), object),
            )?;
        }
        Ok(())
    }

    /// The cells of a type to which a temporary may lead, in the order of the objects.
    #[tactic(auto, using(crate::proofs::Looking::candidates_more))]
    pub fn candidates(&self, temp: u32, ty: CellType) -> Result<Vec<Place>, AllocError>
        ensures { IfOk result (λ v. v.items ≡ candidates (setting (state_of self.now)) ((setting (state_of self.now)).family.temp temp) ty 1 (setting (state_of self.now)).objects) }
    {
        let mut list = Vec::new(self.alloc);
        let mut left = self.objects()?;
        let mut object: u32 = 1;
        while left > 0 {
            self.push_object(&mut list, temp, ty, object)?;
            if object == u32::MAX {
                return Err(AllocError);
            }
            object += 1;
            left -= 1;
        }
        Ok(list)
    }

    // Appends the flag of an object, where the operand may lead there.
    #[tactic(auto, unfolding(crate::specs::Made::state_of))]
    fn push_flag(
        &self,
        list: &mut Vec<Flag>,
        pointer: Operand,
        object: u32,
    ) -> Result<(), AllocError>
        ensures { OnOk result (views.flags_of list.new.items ≡ views.flags_of list.old.items ++ flags_of (may_be (setting (state_of self.now)).family pointer) (state_of self.now).walk.slots object (suc zero)) }
    {
        if may_be(self.sets, pointer, object) {
            let live = self.live(object);
            list.push(Flag { object, live })?;
        }
        Ok(())
    }

    /// The live flags of the objects to which an operand may lead, in their order.
    #[tactic(auto, using(crate::proofs::Looking::flags_more))]
    pub fn flags(&self, pointer: Operand) -> Result<Vec<Flag>, AllocError>
        ensures { IfOk result (λ v. views.flags_of v.items ≡ flags_of (may_be (setting (state_of self.now)).family pointer) (state_of self.now).walk.slots 1 (setting (state_of self.now)).objects) }
    {
        let mut list = Vec::new(self.alloc);
        let mut left = self.objects()?;
        let mut object: u32 = 1;
        while left > 0 {
            self.push_flag(&mut list, pointer, object)?;
            if object == u32::MAX {
                return Err(AllocError);
            }
            object += 1;
            left -= 1;
        }
        Ok(list)
    }
}
