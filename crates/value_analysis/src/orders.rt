//! An order of nodes in which states flow forward as far as they can.

use crate::program::Program;
use crate::ways::leads_on;
use scale_base::NoMemory;
use std::alloc::Global;

/// A node on the way from the start, and the number of the way that is looked at next.
#[derive(Clone, Copy)]
struct Visit {
    node: usize,
    way: usize,
}

// A search depth first: what is to be left, what is found, and the nodes that are left.
#[derive(Drop)]
struct Search {
    open: Vec<Visit>,
    found: Vec<bool>,
    left: Vec<usize>,
}

impl Search {
    // Opens a node that isn't found yet.
    fn open_node(&mut self, program: &Program, k: usize) -> Result<(), NoMemory> {
        if k < self.found.len() && !self.found[k] {
            self.found[k] = true;
            if let Some(node) = program.node(k) {
                self.open.push(Visit {
                    node: k,
                    way: node.first,
                })?;
            }
        }
        Ok(())
    }

    // Looks at the next way of the node that was opened last, or leaves the node.
    fn go_on(&mut self, program: &Program, visit: Visit) -> Result<(), NoMemory> {
        let end = program.node(visit.node).map_or(0, |node| node.end);
        if visit.way >= end {
            self.left.push(visit.node)?;
            return Ok(());
        }
        self.open.push(Visit {
            node: visit.node,
            way: visit.way + 1,
        })?;
        if let Some(way) = program.way(visit.way) {
            if leads_on(&way) {
                self.open_node(program, way.to)?;
            }
        }
        Ok(())
    }
}

/// The nodes in the order in which a search from the start leaves them: a node mostly behind those to which its ways lead, those behind a call before
/// those of the function that is called.
pub fn leaving_order(alloc: Global, program: &Program) -> Result<Vec<usize>, NoMemory> {
    let mut search = Search {
        open: Vec::new(alloc),
        found: vec![in alloc; false; program.nodes.len()]?,
        left: Vec::new(alloc),
    };
    search.open_node(program, program.start())?;
    let steps = program.nodes.len().saturating_add(program.ways.len());
    for _ in 0..steps.saturating_add(1) {
        match search.open.pop() {
            Some(visit) => search.go_on(program, visit)?,
            None => break,
        }
    }
    Ok(search.left)
}

/// By node, its place in an order.
pub fn places_of(alloc: Global, order: &[usize], count: usize) -> Result<Vec<usize>, NoMemory> {
    let mut places = vec![in alloc; 0; count]?;
    for (place, node) in order.iter().enumerate() {
        if *node < places.len() {
            places[*node] = place;
        }
    }
    Ok(places)
}
