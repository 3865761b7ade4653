//! What the turns of a loop add at most to what is counted in.

ghost use Rattle.std.specs.Prelude.{◌<◌, length};

use flow_graph::CodeGraph;
use scale_base::NoMemory;
use std::alloc::Global;

/// Greater sums than this say nothing.
const MOST_ADDED: u32 = 0x7fff_ffff;

/// So often a node is looked at on average, at most.
const LOOKS: usize = 8;

/// What has been added at most before each node of a loop, and by a turn.
#[derive(Drop)]
pub struct Turns {
    pub added: Vec<u32>,
    pub most: u32,
}

// A walk through a loop: the nodes whose ways are still to be looked at, and which nodes have been reached.
#[derive(Drop)]
struct Walk {
    turns: Turns,
    reached: Vec<bool>,
    open: Vec<usize>,
    fits: bool,
}

/// A loop by its nodes, and what each of them adds.
#[derive(Clone, Copy)]
pub struct Added<'a> {
    pub graph: &'a CodeGraph,
    pub header: usize,
    pub body: &'a [bool],
    pub adds: &'a [u32],
}

/// What has been added at most before each node of a loop, and what the node adds.
#[derive(Clone, Copy)]
pub struct Behind<'a> {
    pub added: &'a [u32],
    pub adds: &'a [u32],
}

impl Behind<'_> {
    /// What has been added at most behind node k.
    pub fn at(&self, k: usize) -> Option<u64> {
        match (self.added.get(k), self.adds.get(k)) {
            (Some(added), Some(more)) => Some(u64::from(*added).saturating_add(u64::from(*more))),
            _ => None,
        }
    }
}

impl Added<'_> {
    fn has(&self, k: usize) -> bool {
        self.body.get(k).copied().unwrap_or(false)
    }

    fn at(&self, k: usize) -> u32 {
        self.adds.get(k).copied().unwrap_or(0)
    }

    // Where edge e leads.
    fn target(&self, e: usize) -> Option<usize> {
        if e < self.graph.edge_count() {
            self.graph.target(e)
        } else {
            None
        }
    }

    // The edges of a node.
    fn edges(&self, k: usize) -> (usize, usize) {
        if k < self.graph.node_count() {
            self.graph.edges_of(k)
        } else {
            (0, 0)
        }
    }
}

impl Walk {
    fn new(alloc: Global, count: usize) -> Result<Walk, NoMemory> {
        Ok(Walk {
            turns: Turns {
                added: vec![in alloc; 0; count]?,
                most: 0,
            },
            reached: vec![in alloc; false; count]?,
            open: Vec::new(alloc),
            fits: true,
        })
    }

    // A way to node k adds so much.
    fn reach(&mut self, k: usize, added: u32) -> Result<(), NoMemory> {
        if k >= self.reached.len() || k >= self.turns.added.len() {
            return Ok(());
        }
        if !self.reached[k] || self.turns.added[k] < added {
            self.reached[k] = true;
            self.turns.added[k] = added;
            self.open.push(k)?;
        }
        Ok(())
    }

    // What has been added behind node k.
    fn behind(&self, looped: &Added<'_>, k: usize) -> u32 {
        let before = self.turns.added.get(k).copied().unwrap_or(0);
        before.saturating_add(looped.at(k))
    }

    // The way over edge e, behind which so much has been added.
    fn follow(&mut self, looped: &Added<'_>, e: usize, behind: u32) -> Result<(), NoMemory> {
        match looped.target(e) {
            Some(to) if to == looped.header => {
                self.turns.most = self.turns.most.max(behind);
                Ok(())
            }
            Some(to) if looped.has(to) => self.reach(to, behind),
            _ => Ok(()),
        }
    }

    // The ways of node k.
    fn look_at(&mut self, looped: &Added<'_>, k: usize) -> Result<(), NoMemory> {
        let behind = self.behind(looped, k);
        if behind > MOST_ADDED {
            self.fits = false;
            return Ok(());
        }
        let (first, end) = looped.edges(k);
        for e in first..end {
            self.follow(looped, e, behind)?;
        }
        Ok(())
    }
}

/// What the turns of a loop add at most. None where that isn't found, as where a loop within it adds something.
pub fn turns_of(alloc: Global, looped: &Added<'_>) -> Result<Option<Turns>, NoMemory> {
    let count = looped.graph.node_count();
    let mut walk = Walk::new(alloc, count)?;
    walk.reach(looped.header, 0)?;
    for _ in 0..count.saturating_mul(LOOKS) {
        match walk.open.pop() {
            Some(k) if walk.fits => walk.look_at(looped, k)?,
            _ => break,
        }
    }
    Ok(if walk.fits && walk.open.is_empty() {
        Some(walk.turns)
    } else {
        None
    })
}
