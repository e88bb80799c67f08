// The graph of what inclusions ask, by the present sets of pointers.
ghost use Rattle.std.specs.Prelude.{◌≡◌, ◌≤◌, ◌<◌, ◌^◌, ℕ, true, length, IfOk, OnOk};
ghost use Rattle.l2_runs.specs.Members.{has};
ghost use Rattle.l2_inclusions.specs.Rows.{members_at};
ghost use Rattle.l2_inclusions.specs.Valuation.{load_node, store_node, AreDue, AddsDue};

use crate::graph::Graph;
use crate::inclusion::{Inclusion, object_node};
use crate::rows::Rows;
use l2_runs::Member;
use std::alloc::{AllocError, Global};

// The node through which the pointers of a set load.
fn load_node(rows: &Rows, number: u32) -> usize
    ensures { result ≡ load_node rows.now number }
{
    rows.nodes() + number as usize
}

// The node through which the pointers of a set store.
fn store_node(rows: &Rows, number: u32) -> usize
    ensures { result ≡ store_node rows.now number }
{
    rows.nodes() + rows.sets() + number as usize + 1
}

// What an object has may be loaded by pointers to it.
fn push_load(graph: &mut Graph, rows: &Rows, number: u32, member: Member) -> Result<(), AllocError>
    requires number { number ≤ length rows.now.sets }
    requires member { has (members_at rows.now.sets number) member ≡ true }
    ensures { OnOk result (AddsDue rows.now graph.old graph.new) }
{
    if let Member::Object(object) = member {
        let node = object_node(object);
        if node < rows.nodes() {
            graph.push(node, load_node(rows, number))?;
        }
    }
    Ok(())
}

// What is stored by pointers to an object, it has.
fn push_store(graph: &mut Graph, rows: &Rows, number: u32, member: Member) -> Result<(), AllocError>
    requires number { number ≤ length rows.now.sets }
    requires member { has (members_at rows.now.sets number) member ≡ true }
    ensures { OnOk result (AddsDue rows.now graph.old graph.new) }
{
    if let Member::Object(object) = member {
        let node = object_node(object);
        if node < rows.nodes() {
            graph.push(store_node(rows, number), node)?;
        }
    }
    Ok(())
}

// The edges from the objects of a set to where its pointers load, unless they are there.
fn push_loads(
    graph: &mut Graph,
    rows: &Rows,
    number: u32,
    done: &mut Vec<bool>,
) -> Result<(), AllocError>
    requires { number ≤ length rows.now.sets }
    ensures { OnOk result (AddsDue rows.now graph.old graph.new) }
{
    if !is_first(done, number) {
        return Ok(());
    }
    let members = rows.members(number);
    for member in members {
        push_load(graph, rows, number, *member)?;
    }
    Ok(())
}

// The edges to the objects of a set from where its pointers store, unless they are there.
fn push_stores(
    graph: &mut Graph,
    rows: &Rows,
    number: u32,
    done: &mut Vec<bool>,
) -> Result<(), AllocError>
    requires { number ≤ length rows.now.sets }
    ensures { OnOk result (AddsDue rows.now graph.old graph.new) }
{
    if !is_first(done, number) {
        return Ok(());
    }
    let members = rows.members(number);
    for member in members {
        push_store(graph, rows, number, *member)?;
    }
    Ok(())
}

// Whether a set's turn comes now.
fn is_first(done: &mut Vec<bool>, number: u32) -> bool {
    let place = number as usize;
    if place < done.len() && !done[place] {
        done[place] = true;
        true
    } else {
        false
    }
}

// The edges for a copy.
fn push_copy(
    graph: &mut Graph,
    rows: &Rows,
    inclusions: &[Inclusion],
    i: usize,
) -> Result<(), AllocError>
    ensures { OnOk result (AreDue inclusions.now rows.now graph.old → AreDue inclusions.now rows.now graph.new) }
{
    if i < inclusions.len() {
        if let Inclusion::Copies(from, to) = inclusions[i] {
            if from < rows.nodes() && to < rows.nodes() {
                graph.push(from, to)?;
            }
        }
    }
    Ok(())
}

// The edges for a load.
fn push_loaded(
    graph: &mut Graph,
    rows: &Rows,
    inclusions: &[Inclusion],
    i: usize,
    done: &mut Vec<bool>,
) -> Result<(), AllocError>
    ensures { OnOk result (AreDue inclusions.now rows.now graph.old → AreDue inclusions.now rows.now graph.new) }
{
    if i < inclusions.len() {
        if let Inclusion::Loads(pointer, to) = inclusions[i] {
            let number = rows.number(pointer);
            push_loads(graph, rows, number, done)?;
            if to < rows.nodes() {
                graph.push(load_node(rows, number), to)?;
            }
        }
    }
    Ok(())
}

// The edges for a store.
fn push_stored(
    graph: &mut Graph,
    rows: &Rows,
    inclusions: &[Inclusion],
    i: usize,
    done: &mut Vec<bool>,
) -> Result<(), AllocError>
    ensures { OnOk result (AreDue inclusions.now rows.now graph.old → AreDue inclusions.now rows.now graph.new) }
{
    if i < inclusions.len() {
        if let Inclusion::Stores(pointer, from) = inclusions[i] {
            let number = rows.number(pointer);
            push_stores(graph, rows, number, done)?;
            if from < rows.nodes() {
                graph.push(from, store_node(rows, number))?;
            }
        }
    }
    Ok(())
}

// The index that comes so many behind the first one, where the end is followed by the beginning.
fn turned(first: usize, n: usize, count: usize) -> usize {
    let i = first.saturating_add(n);
    if i < count { i } else { i - count }
}

// So many edges for loads and stores are enough in one round.
const ENOUGH: usize = 1_000_000;

/// The graph of what inclusions ask, by the present sets of pointers. Beside the nodes of the rows it has two for each set. It
/// has an edge for each copy; of the loads and stores, from the first one on, it has so many as are enough.
pub fn build(
    alloc: Global,
    inclusions: &[Inclusion],
    rows: &Rows,
    first: usize,
) -> Result<Graph, AllocError>
    ensures { IfOk result (λ g. AreDue inclusions.now rows.now g) }
{
    let sets = rows.sets() + 1;
    let mut graph = Graph::new(alloc, rows.nodes() + 2 * sets)?;
    let mut loads = vec![in alloc; false; sets]?;
    let mut stores = vec![in alloc; false; sets]?;
    for i in 0..inclusions.len() {
        push_copy(&mut graph, rows, inclusions, i)?;
    }
    let last = graph.len().saturating_add(ENOUGH);
    for n in 0..inclusions.len() {
        if graph.len() >= last {
            break;
        }
        let i = turned(first, n, inclusions.len());
        push_loaded(&mut graph, rows, inclusions, i, &mut loads)?;
        push_stored(&mut graph, rows, inclusions, i, &mut stores)?;
    }
    Ok(graph)
}
