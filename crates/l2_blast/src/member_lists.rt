// The members of sets, listed: Null, Invalid, and the objects by their numbers.
ghost use Rattle.std.specs.Prelude.{◌≡◌, ◌+◌, ◌-◌, ◌++◌, ◌∷◌, [], IfOk, OnOk, if◌then◌else◌};
ghost use Rattle.l2_runs.specs.Numbers.{at_number};
ghost use Rattle.l2_runs.specs.Members.{has, targets, same_member};
ghost use Rattle.l2_code.specs.Sets.{family, listed, may_be, members_of, entry_of};
ghost use Rattle.l2_blast.specs.Words.{objects_from, members};
ghost use Rattle.l2_blast.specs.Kept.{set_at};

use l2_bits::List;
use l2_code::{Operand, PointsTo, Sets};
use l2_runs::{CellValue, Member, index_of};
use std::alloc::{AllocError, Global};

/// Whose set of pointers: of an operand of the code, or of an object's cells.
#[derive(Clone, Copy)]
pub enum SetOf {
    Nothing,
    Operand(Operand),
    Object(u32),
}

fn same_member(a: Member, b: Member) -> bool
    ensures { result ≡ same_member a b }
{
    match (a, b) {
        (Member::Null, Member::Null) => true,
        (Member::Invalid, Member::Invalid) => true,
        (Member::Object(o), Member::Object(p)) => o == p,
        _ => false,
    }
}

fn has(set: &[Member], member: Member) -> bool
    ensures { result ≡ has set.now member }
{
    for m in set {
        if same_member(*m, member) {
            return true;
        }
    }
    false
}

// The members of the set to which the entry of a number leads.
fn listed<'a>(sets: &'a [PointsTo], entries: &[u32], number: u32) -> &'a [Member]
    ensures { result.now ≡ members_of (at_number sets.now (entry_of (at_number entries.now number))) }
{
    let entry = match index_of(number) {
        Some(index) if index < entries.len() => entries[index],
        _ => 0,
    };
    match index_of(entry) {
        Some(index) if index < sets.len() => sets[index].members.as_slice(),
        _ => &[],
    }
}

fn leads_to(value: CellValue, member: Member) -> bool
    ensures { result ≡ targets value member }
{
    match value {
        CellValue::Number(number) => false,
        CellValue::Null => same_member(Member::Null, member),
        CellValue::Invalid => same_member(Member::Invalid, member),
        CellValue::At { object, offset } => same_member(Member::Object(object), member),
    }
}

/// Whether a member is in the set.
fn is_member(sets: &Sets, of: SetOf, member: Member) -> bool
    ensures { result ≡ set_at (family sets.now) of member }
{
    match of {
        SetOf::Nothing => false,
        SetOf::Operand(Operand::Constant(value)) => leads_to(value, member),
        SetOf::Operand(Operand::Temp(number)) => has(
            listed(sets.sets.as_slice(), sets.temps.as_slice(), number),
            member,
        ),
        SetOf::Object(number) => has(
            listed(sets.sets.as_slice(), sets.objects.as_slice(), number),
            member,
        ),
    }
}

fn push_if(list: &mut Vec<Member>, here: bool, member: Member) -> Result<(), AllocError>
    ensures { OnOk result (list.new.items ≡ list.old.items ++ (if here then member ∷ [] else [])) }
{
    if here {
        list.push(member)?;
    }
    Ok(())
}

fn push_objects(
    list: &mut Vec<Member>,
    sets: &Sets,
    of: SetOf,
    count: u32,
) -> Result<(), AllocError>
    ensures { OnOk result (list.new.items ≡ list.old.items ++ objects_from (set_at (family sets.now) of) 1 count) }
{
    for index in 0..count {
        let member = Member::Object(index + 1);
        push_if(list, is_member(sets, of, member), member)?;
    }
    Ok(())
}

/// The members of a set among Null, Invalid and so many objects.
pub fn members(
    alloc: Global,
    sets: &Sets,
    of: SetOf,
    count: usize,
) -> Result<Vec<Member>, AllocError>
    ensures { IfOk result (λ l. l.items ≡ members count (set_at (family sets.now) of)) }
{
    let Ok(count) = u32::try_from(count) else {
        return Err(AllocError);
    };
    let mut list = Vec::new(alloc);
    push_if(&mut list, is_member(sets, of, Member::Null), Member::Null)?;
    push_if(
        &mut list,
        is_member(sets, of, Member::Invalid),
        Member::Invalid,
    )?;
    push_objects(&mut list, sets, of, count)?;
    Ok(list)
}
