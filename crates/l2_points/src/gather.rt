// The inclusions that a code asks.
ghost use Rattle.std.specs.Prelude.{◌≡◌, ◌++◌, ◌+◌, ◌*◌, List, drop, IfOk, OnOk};
ghost use Rattle.l2_runs.specs.declared.member.Member.{Member};
ghost use Rattle.l2_code.specs.Trees.{tree_of, items_of, code_of};
ghost use Rattle.l2_code.specs.Sets.{has_pointer, unwritten};
ghost use Rattle.l2_points.specs.Gathering.{temp_node, one_node, target_of, copies_one, copies, loads_one, loads, stores_one, stores_value, stores, of_result, of_action, of_node, of_nodes, of_start, of_first, of_objects, inclusions_of};

use l2_code::{Action, Code, CodeObject, Computation, Item, Operand};
use l2_inclusions::{Inclusion, object_node};
use l2_runs::{CellType, CellValue, Member};
use std::alloc::{AllocError, Global};

fn temp_node(temp: u32) -> usize
    ensures { result ≡ temp_node temp }
{
    3 * temp as usize + 1
}

fn one_node(member: Member) -> usize
    ensures { result ≡ one_node member }
{
    match member {
        Member::Null => 2,
        Member::Invalid => 5,
        Member::Object(object) => 3 * (object as usize + 2) + 2,
    }
}

fn target_of(value: CellValue) -> Option<Member>
    ensures { result ≡ target_of value }
{
    match value {
        CellValue::Number(_) => None,
        CellValue::Null => Some(Member::Null),
        CellValue::Invalid => Some(Member::Invalid),
        CellValue::At { object, offset: _ } => Some(Member::Object(object)),
    }
}

fn copies_one(
    list: &mut Vec<Inclusion>,
    member: Option<Member>,
    node: usize,
) -> Result<(), AllocError>
    ensures { OnOk result (list.new.items ≡ list.old.items ++ copies_one member node) }
{
    if let Some(member) = member {
        list.push(Inclusion::Has(one_node(member), member))?;
        list.push(Inclusion::Copies(one_node(member), node))?;
    }
    Ok(())
}

fn copies(list: &mut Vec<Inclusion>, operand: Operand, node: usize) -> Result<(), AllocError>
    ensures { OnOk result (list.new.items ≡ list.old.items ++ copies operand node) }
{
    match operand {
        Operand::Constant(value) => copies_one(list, target_of(value), node),
        Operand::Temp(temp) => {
            list.push(Inclusion::Copies(temp_node(temp), node))?;
            Ok(())
        }
    }
}

fn loads_one(
    list: &mut Vec<Inclusion>,
    member: Option<Member>,
    node: usize,
) -> Result<(), AllocError>
    ensures { OnOk result (list.new.items ≡ list.old.items ++ loads_one member node) }
{
    match member {
        None => Ok(()),
        Some(Member::Null) => Ok(()),
        Some(Member::Invalid) => Ok(()),
        Some(Member::Object(object)) => {
            list.push(Inclusion::Copies(object_node(object), node))?;
            Ok(())
        }
    }
}

fn loads(list: &mut Vec<Inclusion>, operand: Operand, node: usize) -> Result<(), AllocError>
    ensures { OnOk result (list.new.items ≡ list.old.items ++ loads operand node) }
{
    match operand {
        Operand::Constant(value) => loads_one(list, target_of(value), node),
        Operand::Temp(temp) => {
            list.push(Inclusion::Loads(temp_node(temp), node))?;
            Ok(())
        }
    }
}

fn stores_one(
    list: &mut Vec<Inclusion>,
    member: Option<Member>,
    operand: Operand,
) -> Result<(), AllocError>
    ensures { OnOk result (list.new.items ≡ list.old.items ++ stores_one member operand) }
{
    match member {
        None => Ok(()),
        Some(Member::Null) => Ok(()),
        Some(Member::Invalid) => Ok(()),
        Some(Member::Object(object)) => copies(list, operand, object_node(object)),
    }
}

fn stores_value(
    list: &mut Vec<Inclusion>,
    temp: u32,
    member: Option<Member>,
) -> Result<(), AllocError>
    ensures { OnOk result (list.new.items ≡ list.old.items ++ stores_value temp member) }
{
    if let Some(member) = member {
        list.push(Inclusion::Has(one_node(member), member))?;
        list.push(Inclusion::Stores(temp_node(temp), one_node(member)))?;
    }
    Ok(())
}

fn stores(list: &mut Vec<Inclusion>, address: Operand, operand: Operand) -> Result<(), AllocError>
    ensures { OnOk result (list.new.items ≡ list.old.items ++ stores address operand) }
{
    match address {
        Operand::Constant(value) => stores_one(list, target_of(value), operand),
        Operand::Temp(temp) => match operand {
            Operand::Constant(value) => stores_value(list, temp, target_of(value)),
            Operand::Temp(from) => {
                list.push(Inclusion::Stores(temp_node(temp), temp_node(from)))?;
                Ok(())
            }
        },
    }
}

fn of_action(list: &mut Vec<Inclusion>, action: &Action) -> Result<(), AllocError>
    ensures { OnOk result (list.new.items ≡ list.old.items ++ of_action action.now) }
{
    match action {
        Action::Compute(temp, computation) => of_result(list, *temp, computation),
        Action::Read(temp, _, address) => loads(list, *address, temp_node(*temp)),
        Action::Write(_, address, operand) => stores(list, *address, *operand),
        Action::Choice(_, _) => Ok(()),
        Action::Assume(_) => Ok(()),
        Action::Check(_, _) => Ok(()),
        Action::Unless(_, _) => Ok(()),
        Action::Goto(_) => Ok(()),
        Action::Live(_) => Ok(()),
        Action::Dead(_) => Ok(()),
        Action::End => Ok(()),
    }
}

fn of_result(
    list: &mut Vec<Inclusion>,
    temp: u32,
    computation: &Computation,
) -> Result<(), AllocError>
    ensures { OnOk result (list.new.items ≡ list.old.items ++ of_result temp computation.now) }
{
    match computation {
        Computation::Move(_, pointer, _) => copies(list, *pointer, temp_node(temp)),
        Computation::Numbers(_, _, _, _) => Ok(()),
        Computation::Convert(_, _) => Ok(()),
        Computation::Pointers(_, _, _) => Ok(()),
        Computation::Passes(_) => Ok(()),
    }
}

#[cycle(gathers)]
#[tactic(auto, using(l2_code::proofs::Items::items))]
fn of_item(item: &Item, list: &mut Vec<Inclusion>) -> Result<(), AllocError>
    ensures { OnOk result (list.new.items ≡ list.old.items ++ of_node (tree_of item.now)) }
{
    match item {
        Item::Do(action) => of_action(list, action),
        Item::Block(items) => of_items(items, list),
        Item::Loop(_, items) => of_items(items, list),
    }
}

#[cycle(gathers)]
#[tactic(auto, using(l2_code::proofs::Items::items))]
fn of_items(items: &[Item], list: &mut Vec<Inclusion>) -> Result<(), AllocError>
    ensures { OnOk result (list.new.items ≡ list.old.items ++ of_nodes (items_of items.now)) }
{
    for item in items {
        of_item(item, list)?;
    }
    Ok(())
}

// What an object's cells start with.
fn of_start(list: &mut Vec<Inclusion>, object: u32, start: &[CellValue]) -> Result<(), AllocError>
    ensures { OnOk result (list.new.items ≡ list.old.items ++ of_start object start.now) }
{
    for value in start {
        copies_one(list, target_of(*value), object_node(object))?;
    }
    Ok(())
}

fn has_pointer(cells: &[CellType]) -> bool
    ensures { result ≡ has_pointer cells.now }
{
    for ty in cells {
        if let CellType::Pointer = ty {
            return true;
        }
    }
    false
}

fn of_first(list: &mut Vec<Inclusion>, number: u32, object: &CodeObject) -> Result<(), AllocError>
    ensures { OnOk result (list.new.items ≡ list.old.items ++ of_first number object.now) }
{
    if has_pointer(object.cells.as_slice()) {
        let member = if object.is_static {
            Member::Null
        } else {
            Member::Invalid
        };
        list.push(Inclusion::Has(object_node(number), member))?;
    }
    Ok(())
}

fn of_objects(list: &mut Vec<Inclusion>, objects: &[CodeObject]) -> Result<(), AllocError>
    ensures { OnOk result (list.new.items ≡ list.old.items ++ of_objects 1 objects.now) }
{
    let mut number: u32 = 0;
    for object in objects {
        if number == u32::MAX {
            return Err(AllocError);
        }
        number += 1;
        of_first(list, number, object)?;
        of_start(list, number, object.start.as_slice())?;
    }
    Ok(())
}

/// The inclusions that a code asks.
pub fn gather_all(alloc: Global, code: &Code) -> Result<Vec<Inclusion>, AllocError>
    ensures { IfOk result (λ v. v.items ≡ inclusions_of (code_of code.now)) }
{
    let mut list = Vec::new(alloc);
    of_items(&code.items, &mut list)?;
    of_objects(&mut list, code.objects.as_slice())?;
    Ok(list)
}
