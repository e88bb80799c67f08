// The order of nodes in which a walk leaves them. No promise rests on it.
use crate::graph::Graph;
use std::alloc::{AllocError, Global};

// A node whose edges are walked, and the number of the next edge.
#[derive(Clone, Copy)]
struct Open {
    node: usize,
    edge: u32,
}

#[derive(Drop)]
struct Walked {
    seen: Vec<bool>,
    open: Vec<Open>,
    left: Vec<usize>,
}

impl Walked {
    // Enters a node, unless it was entered before.
    fn enter(&mut self, graph: &Graph, node: usize) -> Result<(), AllocError> {
        if node < self.seen.len() && !self.seen[node] {
            self.seen[node] = true;
            self.open.push(Open {
                node,
                edge: graph.first(false, node),
            })?;
        }
        Ok(())
    }

    // Walks one edge of the node entered last, or leaves it.
    fn advance(&mut self, graph: &Graph, last: Open) -> Result<(), AllocError> {
        if last.edge == 0 {
            self.left.push(last.node)?;
            return Ok(());
        }
        self.open.push(Open {
            node: last.node,
            edge: graph.after(false, last.edge),
        })?;
        if let Some(end) = graph.end(false, last.edge, last.node) {
            self.enter(graph, end)?;
        }
        Ok(())
    }

    fn walk(&mut self, graph: &Graph, start: usize) -> Result<(), AllocError> {
        self.enter(graph, start)?;
        for _ in 0..usize::MAX {
            match self.open.pop() {
                Some(last) => self.advance(graph, last)?,
                None => break,
            }
        }
        Ok(())
    }
}

/// The nodes, each behind those that it leads to, but for cycles.
pub fn order(alloc: Global, graph: &Graph, nodes: usize) -> Result<Vec<usize>, AllocError> {
    let mut walked = Walked {
        seen: vec![in alloc; false; nodes]?,
        open: Vec::new(alloc),
        left: Vec::new(alloc),
    };
    for node in 0..nodes {
        walked.walk(graph, node)?;
    }
    Ok(walked.left)
}
