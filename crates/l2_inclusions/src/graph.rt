// A graph: its edges, and for each node those that begin and those that end at it.
ghost use Rattle.std.specs.Prelude.{◌≡◌, ◌++◌, ◌∷◌, [], ℕ, Bool, true, IfOk, IfSome, OnOk};
ghost use Rattle.l2_inclusions.specs.declared.graph.Edge.{Edge};
ghost use Rattle.l2_inclusions.specs.Edges.{Leads, LeadsAlong};

use l2_runs::index_of;
use std::alloc::{AllocError, Global};
use std::marker::Model;

/// An edge: members go from the first node to the second.
#[derive(Clone, Copy)]
pub struct Edge {
    pub from: u32,
    pub to: u32,
}

/// The edges of a graph. For each node the numbers of the edges that begin there, and of those that end there, are chained;
/// no promise rests on the chains.
#[derive(Drop)]
pub struct Graph {
    edges: Vec<Edge>,
    out: Chains,
    into: Chains,
}

/// Numbers from 1 on, chained by heads.
#[derive(Drop)]
struct Chains {
    heads: Vec<u32>,
    next: Vec<u32>,
}

impl Chains {
    fn new(alloc: Global, heads: usize) -> Result<Chains, AllocError> {
        Ok(Chains {
            heads: vec![in alloc; 0; heads]?,
            next: Vec::new(alloc),
        })
    }

    // The next number goes to the front of a head's chain.
    fn push(&mut self, head: usize) -> Result<(), AllocError> {
        if head < self.heads.len() {
            self.next.push(self.heads[head])?;
            self.heads[head] = (self.next.len() % (1 << 32)) as u32;
        } else {
            self.next.push(0)?;
        }
        Ok(())
    }

    fn first(&self, head: usize) -> u32 {
        if head < self.heads.len() {
            self.heads[head]
        } else {
            0
        }
    }

    fn after(&self, number: u32) -> u32 {
        match index_of(number) {
            Some(index) if index < self.next.len() => self.next[index],
            _ => 0,
        }
    }
}

impl Model for Graph {
    ghost use Rattle.std.specs.Prelude.{List};
    ghost use Rattle.l2_inclusions.specs.declared.graph.Edge.{Edge};

    ghost Value = { List Edge };

    ghost view = { λ g. g.edges.items };
}

// The far end of an edge, seen from its near end.
fn far_end(edge: Edge, backward: bool, node: usize) -> Option<usize>
    ensures { IfSome result (λ y. (w : ℕ → Bool) → LeadsAlong backward w edge → w node ≡ true → w y ≡ true) }
{
    if backward {
        (edge.to as usize == node).then_some(edge.from as usize)
    } else {
        (edge.from as usize == node).then_some(edge.to as usize)
    }
}

impl Graph {
    /// No edges, between so many nodes.
    pub fn new(alloc: Global, nodes: usize) -> Result<Graph, AllocError>
        ensures { IfOk result (λ g. g ≡ []) }
    {
        let out = Chains::new(alloc, nodes)?;
        let into = Chains::new(alloc, nodes)?;
        Ok(Graph {
            edges: Vec::new(alloc),
            out,
            into,
        })
    }

    /// How many edges there are.
    pub fn len(&self) -> usize {
        self.edges.len()
    }

    /// One more edge.
    pub fn push(&mut self, from: usize, to: usize) -> Result<(), AllocError>
        ensures { OnOk result (self.new ≡ self.old ++ (record { from = from; to = to }) ∷ []) }
    {
        if from > u32::MAX as usize || to > u32::MAX as usize {
            return Err(AllocError);
        }
        self.edges.push(Edge {
            from: from as u32,
            to: to as u32,
        })?;
        self.out.push(from)?;
        self.into.push(to)?;
        Ok(())
    }

    /// The number of the first edge that begins at a node (backwards: that ends there), or 0.
    pub fn first(&self, backward: bool, node: usize) -> u32 {
        if backward {
            self.into.first(node)
        } else {
            self.out.first(node)
        }
    }

    /// The number of the edge after this one at the same node, or 0.
    pub fn after(&self, backward: bool, edge: u32) -> u32 {
        if backward {
            self.into.after(edge)
        } else {
            self.out.after(edge)
        }
    }

    /// Where an edge leads from a node (backwards: from where it leads there).
    pub fn end(&self, backward: bool, edge: u32, node: usize) -> Option<usize>
        ensures { IfSome result (λ y. (w : ℕ → Bool) → Leads backward w self.now → w node ≡ true → w y ≡ true) }
    {
        let index = index_of(edge)?;
        if index < self.edges.len() {
            far_end(self.edges[index], backward, node)
        } else {
            None
        }
    }
}
