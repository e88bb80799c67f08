// The equations of a code.
ghost use Rattle.std.specs.Prelude.{◌≡◌, IfOk};
ghost use Rattle.l2_code.specs.Trees.{code_of};
ghost use Rattle.l2_code.specs.Sets.{family};
ghost use Rattle.l2_ssa.specs.Law as law;
ghost use Rattle.l2_ssa.specs.Law.{constants, flag_of, first_slots};
ghost use Rattle.l2_ssa.specs.Views.{steps_of, events_of, kinds_of};

use crate::nodes::nodes;
use l2_code::{Code, CodeObject, Operand, Sets};
use l2_runs::CellValue;
use l2_ssa::{Kind, Ssa};
use l2_walker::{FALSE, Slot, TRUE, Walker};
use std::alloc::{AllocError, Global};

fn constants(alloc: Global, values: &[CellValue]) -> Result<Vec<Operand>, AllocError>
    ensures { IfOk result (λ v. v.items ≡ constants values.now) }
{
    let mut list = Vec::new(alloc);
    for value in values {
        list.push(Operand::Constant(*value))?;
    }
    Ok(list)
}

fn flag_of(live: bool) -> Operand
    ensures { result ≡ flag_of live }
{
    if live { TRUE } else { FALSE }
}

// The objects at the start.
fn first_slots(alloc: Global, objects: &[CodeObject]) -> Result<Vec<Slot>, AllocError>
    ensures { IfOk result (λ v. v.items ≡ first_slots objects.now) }
{
    let mut slots = Vec::new(alloc);
    for object in objects {
        let cells = constants(alloc, object.start.as_slice())?;
        slots.push(Slot::new(cells, flag_of(object.is_static || object.hidden)))?;
    }
    Ok(slots)
}

/// The equations of code over its sets, with so many copies of each turn, whose loops are of these kinds, by their numbers. Where rankings
/// are asked for, checks are stops.
pub fn walk<'a>(
    alloc: Global,
    code: &'a Code,
    sets: &'a Sets,
    copies: u32,
    kinds: &'a [Kind],
    ranks: bool,
) -> Result<Ssa<'a>, AllocError>
    ensures steps { IfOk result (λ r. steps_of (family sets.now) r.steps.items ≡ (law.ssa (code_of code.now) (family sets.now) copies (kinds_of kinds.now) ranks).steps) }
    ensures events { IfOk result (λ r. events_of r.events.items ≡ (law.ssa (code_of code.now) (family sets.now) copies (kinds_of kinds.now) ranks).events) }
    ensures heads { IfOk result (λ r. r.heads.items ≡ (law.ssa (code_of code.now) (family sets.now) copies (kinds_of kinds.now) ranks).heads) }
    ensures sets { IfOk result (λ r. r.sets.now ≡ sets.now) }
{
    let slots = first_slots(alloc, code.objects.as_slice())?;
    let mut walker = Walker {
        alloc,
        code,
        sets,
        kinds,
        copies,
        ranks,
        steps: Vec::new(alloc),
        events: Vec::new(alloc),
        heads: Vec::new(alloc),
        entries: Vec::new(alloc),
        frames: Vec::new(alloc),
        path: TRUE,
        temps: Vec::new(alloc),
        slots,
    };
    nodes(&mut walker, &code.items, TRUE)?;
    let Walker {
        alloc: _,
        code: _,
        sets,
        kinds: _,
        copies: _,
        ranks: _,
        steps,
        events,
        heads,
        entries: _,
        frames: _,
        path: _,
        temps: _,
        slots: _,
    } = walker;
    Ok(Ssa {
        sets,
        steps,
        events,
        heads,
    })
}
