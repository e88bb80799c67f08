// Members go along the edges of a graph, from node to node, until each node has what those have that lead to it.
ghost use Rattle.std.specs.Prelude.{◌≡◌, ◌≤◌, ℕ, Bool, true, length, IfOk, OnOk};
ghost use Rattle.l2_inclusions.specs.Rows.{number_at, Grows, AreNumbers};
ghost use Rattle.l2_inclusions.specs.Edges.{Leads, AllPass, EachPasses, Transfers, IsLed, GoesAlong};

use crate::graph::Graph;
use crate::order::order;
use crate::reach::{Tags, Walk, reach};
use crate::rows::Rows;
use crate::unions::union_of;
use std::alloc::{AllocError, Global};
use std::mem;

// Numbers of sets, each once.
#[derive(Drop)]
struct Numbers {
    seen: Vec<usize>,
    list: Vec<u32>,
}

fn make_room(seen: &mut Vec<usize>, place: usize) -> Result<(), AllocError> {
    for _ in seen.len()..place.saturating_add(1) {
        seen.push(0)?;
    }
    Ok(())
}

impl Numbers {
    // Takes a number, unless it was taken under this stamp.
    fn take(&mut self, number: u32, stamp: usize) -> Result<(), AllocError>
        ensures { OnOk result ((q : ℕ → Bool) → q number ≡ true → EachPasses q self.old.list.items → EachPasses q self.new.list.items) }
    {
        let place = number as usize;
        make_room(&mut self.seen, place)?;
        if place < self.seen.len() && self.seen[place] != stamp {
            self.seen[place] = stamp;
            self.list.push(number)?;
        }
        Ok(())
    }

    // Takes the number of the set of a node from where an edge leads to this one.
    fn take_end(
        &mut self,
        graph: &Graph,
        rows: &Rows,
        node: usize,
        edge: u32,
        stamp: usize,
    ) -> Result<(), AllocError>
        ensures { OnOk result ((w q : ℕ → Bool) → Leads true w graph.now → Transfers rows.now w q → w node ≡ true → EachPasses q self.old.list.items → EachPasses q self.new.list.items) }
    {
        if let Some(end) = graph.end(true, edge, node) {
            self.take(rows.number(end), stamp)?;
        }
        Ok(())
    }

    // Takes the numbers of the sets of a node and of those that lead to it.
    fn take_node(
        &mut self,
        graph: &Graph,
        rows: &Rows,
        node: usize,
        stamp: usize,
    ) -> Result<(), AllocError>
        ensures { OnOk result ((w q : ℕ → Bool) → Leads true w graph.now → Transfers rows.now w q → w node ≡ true → EachPasses q self.old.list.items → EachPasses q self.new.list.items) }
    {
        self.take(rows.number(node), stamp)?;
        let mut edge = graph.first(true, node);
        for _ in 0..usize::MAX {
            if edge == 0 {
                break;
            }
            self.take_end(graph, rows, node, edge, stamp)?;
            edge = graph.after(true, edge);
        }
        Ok(())
    }

    // Takes the numbers of the sets of nodes and of those that lead to them, and hands them out.
    fn take_all(
        &mut self,
        alloc: Global,
        graph: &Graph,
        rows: &Rows,
        nodes: &[usize],
        stamp: usize,
    ) -> Result<Vec<u32>, AllocError>
        ensures { IfOk result (λ v. (w q : ℕ → Bool) → Leads true w graph.now → Transfers rows.now w q → q 0 ≡ true → AllPass w nodes.now → EachPasses q v.items) }
    {
        self.list = Vec::new(alloc);
        for node in nodes {
            self.take_node(graph, rows, *node, stamp)?;
        }
        Ok(mem::replace(&mut self.list, Vec::new(alloc)))
    }
}

// Leads nodes to a set.
fn lead(rows: &mut Rows, nodes: &[usize], number: u32)
    requires { number ≤ length rows.old.sets }
    ensures sets { rows.new.sets ≡ rows.old.sets }
    ensures led { (q : ℕ → Bool) → AllPass q nodes.now → (n : ℕ) → IsLed q rows.old rows.new number n }
{
    for node in nodes {
        rows.assign(*node, number);
    }
}

// What the graph's nodes were settled with.
#[derive(Drop)]
struct Settling {
    tags: Tags,
    numbers: Numbers,
}

const DONE: usize = usize::MAX;

impl Settling {
    // Gives the nodes of a cycle, by one of them, the union of what they and those that lead to them have, unless it is
    // done.
    fn settle_part(
        &mut self,
        alloc: Global,
        graph: &Graph,
        rows: &mut Rows,
        root: usize,
        part: usize,
    ) -> Result<(), AllocError>
        ensures { OnOk result (GoesAlong graph.now rows.old rows.new) }
    {
        if !self.tags.has(root, 0) {
            return Ok(());
        }
        rows.facts();
        let gather = Walk {
            backward: true,
            old: 0,
            new: part,
        };
        let list = reach(alloc, graph, gather, root, &mut self.tags)?;
        let numbers = self
            .numbers
            .take_all(alloc, graph, rows, list.as_slice(), part)?;
        let number = union_of(alloc, rows, numbers)?;
        let hand = Walk {
            backward: false,
            old: part,
            new: DONE,
        };
        let reached = reach(alloc, graph, hand, root, &mut self.tags)?;
        lead(rows, reached.as_slice(), number);
        Ok(())
    }
}

/// Lets members go along the edges of a graph, as far as they go.
pub fn settle(alloc: Global, graph: &Graph, rows: &mut Rows) -> Result<(), AllocError>
    ensures { OnOk result (GoesAlong graph.now rows.old rows.new) }
{
    let nodes = rows.nodes();
    let left = order(alloc, graph, nodes)?;
    let mut settling = Settling {
        tags: Tags::new(alloc, nodes)?,
        numbers: Numbers {
            seen: Vec::new(alloc),
            list: Vec::new(alloc),
        },
    };
    for i in 0..left.len() {
        let root = left[left.len() - 1 - i];
        settling.settle_part(alloc, graph, rows, root, i + 1)?;
    }
    Ok(())
}
