// Heads of loops and ends of their turns.
ghost use Rattle.std.specs.Prelude.{◌≡◌, [], zero, suc, Some, IfOk, OnOk};
ghost use Rattle.l2_runs.specs.declared.cells.CellType.TheVariants.{Integer, Pointer};
ghost use Rattle.l2_code.specs.declared.action.Operand.TheVariants.{Temp};
ghost use Rattle.l2_ssa.specs.Steps as steps;
ghost use Rattle.l2_ssa.specs.Walks as walks;
ghost use Rattle.l2_ssa.specs.Walks.{scatter_one, scatter_cells, scatter, head_rows, end_rows, end_rank, end_turn};
ghost use Rattle.l2_ssa.specs.Views.{kind_of};
ghost use Rattle.l2_walker.specs.Made.{state_of, setting, emitted, moved, put, written, started};

use l2_bits::Ty;
use l2_code::Operand;
use l2_runs::CellType;
use l2_ssa::{Goal, Kind, MergeStep};
use l2_walker::{FALSE, Slot, Walker, vars_now};
use std::alloc::AllocError;

// The first value where the loop starts back, else the second.
fn chosen(
    walker: &mut Walker<'_>,
    path: Operand,
    back: Operand,
    ty: CellType,
    brought: Operand,
    own: Operand,
) -> Result<Operand, AllocError>
    ensures name { IfOk result (λ a. a ≡ Temp (state_of walker.old).names) }
    ensures steps { OnOk result (state_of walker.new ≡ emitted (state_of walker.old) (steps.Merge path back ty brought own)) }
{
    walker.merge(MergeStep {
        path,
        entry: back,
        ty,
        brought,
        own,
    })
}

fn scatter_integer(
    walker: &mut Walker<'_>,
    path: Operand,
    back: Operand,
    object: u32,
    offset: u32,
    ty: Ty,
) -> Result<(), AllocError>
    ensures { OnOk result (state_of walker.new ≡ moved (state_of walker.old) (scatter_one (setting (state_of walker.old)) path back object offset (Integer ty) (state_of walker.old).names (state_of walker.old).walk)) }
{
    let own = walker.cell(object, offset);
    let taken = walker.take(path, ty)?;
    let cell = chosen(walker, path, back, CellType::Integer(ty), taken, own)?;
    walker.set_cell(object, offset, cell);
    Ok(())
}

fn scatter_pointer(
    walker: &mut Walker<'_>,
    path: Operand,
    back: Operand,
    object: u32,
    offset: u32,
) -> Result<(), AllocError>
    ensures { OnOk result (state_of walker.new ≡ moved (state_of walker.old) (scatter_one (setting (state_of walker.old)) path back object offset Pointer (state_of walker.old).names (state_of walker.old).walk)) }
{
    let own = walker.cell(object, offset);
    let here = walker.path();
    let selector = walker.half(path)?;
    let place = walker.half(path)?;
    let pointer = walker.point(path, selector, place)?;
    let cell = chosen(walker, path, back, CellType::Pointer, pointer, own)?;
    let among = walker.among(path, selector, place, object)?;
    let bad = walker.but(back, among)?;
    let on = walker.but(here, bad)?;
    walker.set_cell(object, offset, cell);
    walker.set_path(on);
    Ok(())
}

fn scatter_one(
    walker: &mut Walker<'_>,
    path: Operand,
    back: Operand,
    object: u32,
    offset: u32,
    ty: CellType,
) -> Result<(), AllocError>
    ensures { OnOk result (state_of walker.new ≡ moved (state_of walker.old) (scatter_one (setting (state_of walker.old)) path back object offset ty (state_of walker.old).names (state_of walker.old).walk)) }
{
    match ty {
        CellType::Integer(ty) => scatter_integer(walker, path, back, object, offset, ty),
        CellType::Pointer => scatter_pointer(walker, path, back, object, offset),
    }
}

#[tactic(auto, using(crate::proofs::Rows::cells_more))]
fn scatter_cells(
    walker: &mut Walker<'_>,
    path: Operand,
    back: Operand,
    object: u32,
    types: &[CellType],
) -> Result<(), AllocError>
    ensures { OnOk result (state_of walker.new ≡ moved (state_of walker.old) (scatter_cells (setting (state_of walker.old)) path back object 0 types.now (state_of walker.old).names (state_of walker.old).walk)) }
{
    let mut offset: u32 = 0;
    for ty in types {
        scatter_one(walker, path, back, object, offset, *ty)?;
        if offset == u32::MAX {
            return Err(AllocError);
        }
        offset += 1;
    }
    Ok(())
}

// Each cell of these objects takes any value where the loop starts back.
#[tactic(auto, using(crate::proofs::Rows::scatter_more))]
fn scatter(
    walker: &mut Walker<'_>,
    path: Operand,
    back: Operand,
    mods: &[u32],
) -> Result<(), AllocError>
    ensures { OnOk result (state_of walker.new ≡ moved (state_of walker.old) (scatter (setting (state_of walker.old)) path back mods.now (state_of walker.old).names (state_of walker.old).walk)) }
{
    for object in mods {
        let types = walker.types(*object);
        scatter_cells(walker, path, back, *object, types)?;
    }
    Ok(())
}

fn head_row(
    walker: &mut Walker<'_>,
    path: Operand,
    back: Operand,
    l: u32,
    row: u32,
) -> Result<(), AllocError>
    ensures { OnOk result (state_of walker.new ≡ written (state_of walker.old) (head_rows (setting (state_of walker.old)) path back l row (suc zero) (state_of walker.old).names (state_of walker.old).walk)) }
{
    let here = walker.path();
    let vars = walker.vars_here(l)?;
    let holds = walker.row(path, l, row, vars)?;
    let bad = walker.but(back, holds)?;
    let on = walker.but(here, bad)?;
    walker.set_path(on);
    Ok(())
}

// The path ends where the loop starts back and a row fails.
#[tactic(auto, using(crate::proofs::Rows::head_more))]
fn head_rows(
    walker: &mut Walker<'_>,
    path: Operand,
    back: Operand,
    l: u32,
    rows: u32,
) -> Result<(), AllocError>
    ensures { OnOk result (state_of walker.new ≡ written (state_of walker.old) (head_rows (setting (state_of walker.old)) path back l 1 rows (state_of walker.old).names (state_of walker.old).walk)) }
{
    let mut left = rows;
    let mut row: u32 = 1;
    while left > 0 {
        head_row(walker, path, back, l, row)?;
        if row == u32::MAX {
            return Err(AllocError);
        }
        row += 1;
        left -= 1;
    }
    Ok(())
}

/// A back start of a loop with so many rows, on a path, at its head.
pub fn start_back(
    walker: &mut Walker<'_>,
    path: Operand,
    back: Operand,
    l: u32,
    rows: u32,
) -> Result<(), AllocError>
    ensures { OnOk result (state_of walker.new ≡ started (state_of walker.old) path back l rows) }
{
    let mods = walker.mods(l);
    scatter(walker, path, back, mods)?;
    head_rows(walker, path, back, l, rows)
}

fn end_row(
    walker: &mut Walker<'_>,
    path: Operand,
    counting: Operand,
    l: u32,
    row: u32,
) -> Result<(), AllocError>
    ensures { OnOk result (state_of walker.new ≡ put (state_of walker.old) (end_rows (setting (state_of walker.old)) path counting l row (suc zero) (state_of walker.old).names (state_of walker.old).walk)) }
{
    let here = walker.path();
    let vars = walker.vars_here(l)?;
    let counted = walker.both(here, counting)?;
    let holds = walker.row(path, l, row, vars)?;
    let missed = walker.but(counted, holds)?;
    let on = walker.both(here, holds)?;
    walker.add_event(Goal::Row(l, row), missed)?;
    walker.set_path(on);
    Ok(())
}

#[tactic(auto, using(crate::proofs::Rows::end_more))]
fn end_rows(
    walker: &mut Walker<'_>,
    path: Operand,
    counting: Operand,
    l: u32,
    rows: u32,
) -> Result<(), AllocError>
    ensures { OnOk result (state_of walker.new ≡ put (state_of walker.old) (end_rows (setting (state_of walker.old)) path counting l 1 rows (state_of walker.old).names (state_of walker.old).walk)) }
{
    let mut left = rows;
    let mut row: u32 = 1;
    while left > 0 {
        end_row(walker, path, counting, l, row)?;
        if row == u32::MAX {
            return Err(AllocError);
        }
        row += 1;
        left -= 1;
    }
    Ok(())
}

// The ranking of a turn, where it is asked for.
fn end_rank(
    walker: &mut Walker<'_>,
    path: Operand,
    counting: Operand,
    l: u32,
    old: &[Slot],
) -> Result<(), AllocError>
    ensures { OnOk result (state_of walker.new ≡ put (state_of walker.old) (end_rank (setting (state_of walker.old)) (state_of walker.old).ranks path counting l old.now (state_of walker.old).names (state_of walker.old).walk)) }
{
    if !walker.asks_ranks() {
        return Ok(());
    }
    let here = walker.path();
    let before = vars_now(walker.alloc, old, walker.vars(l))?;
    let after = walker.vars_here(l)?;
    let counted = walker.both(here, counting)?;
    let lower = walker.lower(path, l, before, after)?;
    let missed = walker.but(counted, lower)?;
    walker.add_event(Goal::Rank(l), missed)
}

fn end_bottom(walker: &mut Walker<'_>, counting: Operand, l: u32) -> Result<(), AllocError>
    ensures { OnOk result (state_of walker.new ≡ put (state_of walker.old) (end_turn (setting (state_of walker.old)) walks.Bottom counting l [] (state_of walker.old).names (state_of walker.old).walk)) }
{
    let here = walker.path();
    let missed = walker.both(here, counting)?;
    walker.add_event(Goal::Row(l, 0), missed)?;
    walker.set_path(FALSE);
    Ok(())
}

/// The end of a turn, at whose head the objects were these.
#[tactic(auto, using(l2_walker::proofs::States::put_joined))]
pub fn end_turn(
    walker: &mut Walker<'_>,
    kind: Kind,
    counting: Operand,
    l: u32,
    old: &[Slot],
) -> Result<(), AllocError>
    ensures { OnOk result (state_of walker.new ≡ put (state_of walker.old) (end_turn (setting (state_of walker.old)) (kind_of (Some kind)) counting l old.now (state_of walker.old).names (state_of walker.old).walk)) }
{
    match kind {
        Kind::Bottom => end_bottom(walker, counting, l),
        Kind::Plain => Ok(()),
        Kind::Rows(rows) => {
            let path = walker.path();
            end_rows(walker, path, counting, l, rows)?;
            end_rank(walker, path, counting, l, old)
        }
    }
}
