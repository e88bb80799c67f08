// The least rows that are closed under inclusions.
ghost use Rattle.std.specs.Prelude.{◌≡◌, ℕ, IfOk, OnOk};
ghost use Rattle.l2_inclusions.specs.Inclusions.{IsClosed};
ghost use Rattle.l2_inclusions.specs.Rows.{set_at};
ghost use Rattle.l2_inclusions.specs.Closing.{AreForced};

use crate::build::build;
use crate::closed::first_open;
use crate::inclusion::{Inclusion, object_node};
use crate::rows::Rows;
use crate::settle::settle;
use l2_runs::Member;
use std::alloc::{AllocError, Global};

// Gives a node a member that an inclusion asks.
fn take(
    alloc: Global,
    inclusions: &[Inclusion],
    i: usize,
    rows: &mut Rows,
) -> Result<(), AllocError>
    ensures { OnOk result (AreForced inclusions.now rows.old → AreForced inclusions.now rows.new) }
{
    rows.facts();
    if i < inclusions.len() {
        if let Inclusion::Has(node, member) = inclusions[i] {
            let one = rows.add(vec![in alloc; member]?)?;
            let number = rows.unite(rows.number(node), one)?;
            rows.assign(node, number);
        }
    }
    Ok(())
}

// Lets members go as far as the present sets of pointers say, for the loads and stores from the first one on.
fn round(
    alloc: Global,
    inclusions: &[Inclusion],
    first: usize,
    rows: &mut Rows,
) -> Result<(), AllocError>
    ensures { OnOk result (AreForced inclusions.now rows.old → AreForced inclusions.now rows.new) }
{
    let nodes = rows.nodes();
    let graph = build(alloc, inclusions, rows, first)?;
    let sets = rows.sets();
    rows.extend(2 * sets + 2)?;
    settle(alloc, &graph, rows)?;
    rows.shrink(nodes);
    Ok(())
}

// One more than the nodes that an inclusion names. No promise rests on it.
fn nodes_of(inclusion: Inclusion) -> usize {
    let last = match inclusion {
        Inclusion::Has(node, Member::Object(object)) => node.max(object_node(object)),
        Inclusion::Has(node, _) => node,
        Inclusion::Copies(a, b) => a.max(b),
        Inclusion::Loads(a, b) => a.max(b),
        Inclusion::Stores(a, b) => a.max(b),
    };
    last.saturating_add(1)
}

/// The least sets of nodes that are closed under inclusions. It goes on in rounds until they are closed.
pub fn least(alloc: Global, inclusions: &[Inclusion]) -> Result<Rows, AllocError>
    ensures closed { IfOk result (λ r. IsClosed (set_at r) inclusions.now) }
    ensures least { IfOk result (λ r. AreForced inclusions.now r) }
{
    let mut nodes = 0;
    for inclusion in inclusions {
        nodes = nodes.max(nodes_of(*inclusion));
    }
    let mut rows = Rows::new(alloc, nodes)?;
    for i in 0..inclusions.len() {
        take(alloc, inclusions, i, &mut rows)?;
    }
    for _ in 0..usize::MAX {
        match first_open(alloc, inclusions, &rows)? {
            Some(first) => round(alloc, inclusions, first, &mut rows)?,
            None => return Ok(rows),
        }
    }
    Err(AllocError)
}
