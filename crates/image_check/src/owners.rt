//! Which loop each counter counts.

ghost use Rattle.std.specs.Prelude.{◌≡◌, ◌<◌, ℕ, Some, length, is_some, IfOk};
ghost use Rattle.std.specs.List.{list_any};
ghost use Rattle.scale_base.specs.Image.{Image};
ghost use Rattle.flow_graph.specs.FlowGraph.{graph as graph_seen};
ghost use Rattle.loop_forest.specs.Tree.{loops};
ghost use Rattle.foreign_scan.specs.Scanned.{Found};
ghost use Rattle.image_check.specs.Known.{owner_by, HasFound, IsFoundIn, IsOwnersAnswer};
ghost use Rattle.image_check.specs.Uses.{IsFirstBad, AreSmallTallies};

use crate::uses::{Tally, is_bad, loop_exits, loop_turns, named_loops, tallies_of};
use flow_graph::CodeGraph;
use foreign_scan::ForeignSites;
use loop_forest::LoopTree;
use scale_base::NoMemory;
use std::alloc::Global;
use std::marker::Model;

/// By counter, the loop that it counts. In contracts a list by the counters' numbers, with none for counters past its end.
#[derive(Drop)]
pub struct OwnerList {
    owners: Vec<Option<usize>>,
}

impl Model for OwnerList {
    ghost use Rattle.std.specs.Prelude.{ℕ, List, Option};

    ghost Value = { List (Option ℕ) };

    ghost view = { λ o. o.owners.items };
}

impl OwnerList {
    /// The loop that a counter counts. None for one that no fragment uses.
    pub fn get(&self, counter: u16) -> Option<usize>
        ensures { result ≡ owner_by self.now counter }
    {
        let number = usize::from(counter);
        if number < self.owners.len() {
            self.owners[number]
        } else {
            None
        }
    }

    /// Whether some counter counts a loop.
    pub fn has_any(&self) -> bool
        ensures { result ≡ list_any is_some self.now }
    {
        self.owners.iter().any(|owner| owner.is_some())
    }
}

/// The least counter that is used and counts no loop.
fn first_bad(
    owners: &[Option<usize>],
    turns: &[usize],
    exits: &[usize],
    tallies: &[Tally],
) -> Option<u16>
    requires size { length owners.now ≡ 511 }
    requires tallies { length tallies.now ≡ 511 }
    requires turns { (c k : ℕ) → owner_by owners.now c ≡ Some k → k < length turns.now }
    requires exits { (c k : ℕ) → owner_by owners.now c ≡ Some k → k < length exits.now }
    requires small { AreSmallTallies 262144 tallies.now }
    ensures { IsFirstBad turns.now exits.now tallies.now owners.now result }
{
    for c in 0..511u16 {
        let number = usize::from(c);
        if is_bad(turns, exits, tallies[number], owners[number]) {
            return Some(c);
        }
    }
    None
}

/// The loop that each counter counts, or the least counter that some fragment uses and that counts no loop: of no loop its count stands once on each back edge and
/// nowhere else, and its exit or its reset, as one of the two, once on each edge that leaves the loop and nowhere else. Takes time that is linear in edges, in
/// fragments, each times those of its edge, and in the nodes of the loops' bodies. The outer Err only for want of memory.
pub fn owners_of(
    alloc: Global,
    graph: &CodeGraph,
    tree: &LoopTree,
    sites: &ForeignSites,
) -> Result<Result<OwnerList, u16>, NoMemory>
    requires { HasFound graph.now tree.now sites.now }
    ensures { (original foreign : Image) (found : Found) → IsFoundIn original foreign graph.now tree.now found sites.now →
        IfOk result (λ answer. IsOwnersAnswer (graph_seen graph.now) graph.now.code (loops graph.now tree.now) found answer) }
{
    let owners = named_loops(alloc, graph, tree, sites)?;
    let turns = loop_turns(alloc, graph, tree, sites)?;
    let exits = loop_exits(alloc, graph, tree, sites)?;
    let tallies = tallies_of(alloc, graph, tree, sites, &owners)?;
    match first_bad(&owners, &turns, &exits, &tallies) {
        None => Ok(Ok(OwnerList { owners })),
        Some(counter) => Ok(Err(counter)),
    }
}
