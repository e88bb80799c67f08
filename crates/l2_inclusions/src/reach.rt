// The nodes to which edges lead from a node.
ghost use Rattle.std.specs.Prelude.{◌≡◌, ℕ, Bool, true, IfOk, OnOk};
ghost use Rattle.l2_inclusions.specs.Edges.{Leads, AllPass};

use crate::graph::Graph;
use std::alloc::{AllocError, Global};

/// Which nodes were come to: each node has a tag, 0 at first. No promise rests on tags.
#[derive(Drop)]
pub struct Tags {
    tags: Vec<usize>,
}

impl Tags {
    pub fn new(alloc: Global, nodes: usize) -> Result<Tags, AllocError> {
        Ok(Tags {
            tags: vec![in alloc; 0; nodes]?,
        })
    }

    pub fn has(&self, node: usize, tag: usize) -> bool {
        node < self.tags.len() && self.tags[node] == tag
    }

    // Whether a node had the one tag, and then has the other.
    fn change(&mut self, node: usize, walk: Walk) -> bool {
        if node < self.tags.len() && self.tags[node] == walk.old {
            self.tags[node] = walk.new;
            true
        } else {
            false
        }
    }
}

/// A walk along edges or backwards, over nodes of one tag, which get another.
#[derive(Clone, Copy)]
pub struct Walk {
    pub backward: bool,
    pub old: usize,
    pub new: usize,
}

// Appends the node that an edge leads to.
fn step(
    graph: &Graph,
    walk: Walk,
    node: usize,
    edge: u32,
    tags: &mut Tags,
    list: &mut Vec<usize>,
) -> Result<(), AllocError>
    ensures { OnOk result ((w : ℕ → Bool) → Leads walk.backward w graph.now → w node ≡ true → AllPass w list.old.items → AllPass w list.new.items) }
{
    if let Some(end) = graph.end(walk.backward, edge, node) {
        if tags.change(end, walk) {
            list.push(end)?;
        }
    }
    Ok(())
}

// Appends the nodes that a node leads to.
fn spread(
    graph: &Graph,
    walk: Walk,
    node: usize,
    tags: &mut Tags,
    list: &mut Vec<usize>,
) -> Result<(), AllocError>
    ensures { OnOk result ((w : ℕ → Bool) → Leads walk.backward w graph.now → w node ≡ true → AllPass w list.old.items → AllPass w list.new.items) }
{
    let mut edge = graph.first(walk.backward, node);
    for _ in 0..usize::MAX {
        if edge == 0 {
            break;
        }
        step(graph, walk, node, edge, tags, list)?;
        edge = graph.after(walk.backward, edge);
    }
    Ok(())
}

/// The nodes that a node leads to, over nodes of the walk's tag, and it itself.
pub fn reach(
    alloc: Global,
    graph: &Graph,
    walk: Walk,
    start: usize,
    tags: &mut Tags,
) -> Result<Vec<usize>, AllocError>
    ensures { IfOk result (λ v. (w : ℕ → Bool) → Leads walk.backward w graph.now → w start ≡ true → AllPass w v.items) }
{
    let mut list = Vec::new(alloc);
    list.push(start)?;
    let _first = tags.change(start, walk);
    for i in 0..usize::MAX {
        if i >= list.len() {
            break;
        }
        let node = list[i];
        spread(graph, walk, node, tags, &mut list)?;
    }
    Ok(list)
}
