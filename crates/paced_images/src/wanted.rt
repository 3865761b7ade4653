//! The edges on which switches are wanted, and the counters of the loops that are tallied.

ghost use Rattle.std.specs.Prelude.{◌≡◌, ◌≤◌, ◌<◌, ◌↔◌, ℕ, Bool, length, slice_get, Some, IfOk};
ghost use Rattle.cost_theory.specs.Reached.{edge_at};
ghost use Rattle.loop_forest.specs.Tree.{IsLoopTree};
ghost use Rattle.scale_sites.specs.Counters.{counted_loops};
ghost use Rattle.paced_images.specs.Wanted.{same_kind, names, header_tallied};
ghost use Rattle.paced_images.specs.Flags.{AreFlags, AreRaised, AreLowest, AreTallied};

use crate::noted::is_among;
use flow_graph::CodeGraph;
use loop_forest::LoopTree;
use scale_base::{Edge, EdgeKind, NoMemory};
use scale_sites::CounterList;
use std::alloc::Global;

/// An edge of a branch or of a jump: the address of its instruction, and which of its edges it is. Its switch goes to the level that
/// its table tells, or with `lowest` to the lowest one, by one instruction, where that is what its table would tell at every level;
/// else it stores nothing.
#[derive(Clone, Copy)]
pub struct SwitchSite {
    pub at: u32,
    pub kind: EdgeKind,
    pub lowest: bool,
}

/// The marks that are chosen for a program: the edges with a switch, whether the noted loops are counted, the addresses of the headers of loops that are
/// tallied, and the share of the lent time that levels between the starting and the lowest one get, in quarters.
#[derive(Clone, Copy)]
pub struct ChosenMarks<'a> {
    pub sites: &'a [SwitchSite],
    pub counted: bool,
    pub tallied: &'a [u32],
    pub share: u8,
    ghost quarters: { share ≤ 4 },
}

/// Whether two kinds are the same one of a branch's two, or both a jump's.
fn same_kind(one: EdgeKind, other: EdgeKind) -> bool
    ensures { result ≡ same_kind one other }
{
    match one {
        EdgeKind::Taken => matches!(other, EdgeKind::Taken),
        EdgeKind::Untaken => matches!(other, EdgeKind::Untaken),
        EdgeKind::Jump => matches!(other, EdgeKind::Jump),
        EdgeKind::Next => false,
        EdgeKind::CallNext => false,
        EdgeKind::End => false,
    }
}

/// Whether a site names an edge.
pub fn names(site: SwitchSite, edge: Edge) -> bool
    ensures { result ≡ names site edge }
{
    site.at == edge.at && same_kind(edge.kind, site.kind)
}

/// The number of the first edge that starts at an address, and one past that of the last. Both are 0 where none starts there.
pub fn edges_at(graph: &CodeGraph, at: u32) -> (usize, usize)
    ensures within { (result.0 ≤ result.1) × (result.1 ≤ length graph.now.code.edges) }
    ensures edges { (e : ℕ) → e < length graph.now.code.edges → (edge_at (slice_get graph.now.code.edges e) ≡ at) ↔
        ((result.0 ≤ e) × (e < result.1)) }
{
    let _nodes = graph.node_count();
    match graph.find(at) {
        Some(k) => graph.edges_of(k),
        None => (0, 0),
    }
}

/// Raises the flag of each edge that a site names.
fn raise(flags: &mut Vec<bool>, graph: &CodeGraph, site: SwitchSite)
    requires { length flags.old.items ≡ length graph.now.code.edges }
    ensures { AreRaised graph.now site (length graph.now.code.edges) flags.old.items flags.new.items }
{
    let (first, end) = edges_at(graph, site.at);
    for e in first..end {
        if names(site, graph.edge(e)) {
            flags[e] = true;
        }
    }
}

/// By edge, whether some of the sites name it.
pub fn wanted_flags(
    alloc: Global,
    graph: &CodeGraph,
    sites: &[SwitchSite],
) -> Result<Vec<bool>, NoMemory>
    ensures { IfOk result (λ flags. AreFlags graph.now sites.now (length graph.now.code.edges) flags.items) }
{
    let mut flags = vec![in alloc; false; graph.edge_count()]?;
    for site in sites {
        raise(&mut flags, graph, *site);
    }
    Ok(flags)
}

/// By edge, whether some of the sites that name it want the lowest level there.
pub fn lowest_flags(
    alloc: Global,
    graph: &CodeGraph,
    sites: &[SwitchSite],
) -> Result<Vec<bool>, NoMemory>
    ensures { IfOk result (λ flags. AreLowest graph.now sites.now (length graph.now.code.edges) flags.items) }
{
    let mut flags = vec![in alloc; false; graph.edge_count()]?;
    for site in sites {
        if site.lowest {
            raise(&mut flags, graph, *site);
        }
    }
    Ok(flags)
}

/// Whether the header of loop `l` is tallied.
fn is_tallied(graph: &CodeGraph, tree: &LoopTree, tallied: &[u32], l: usize) -> bool
    requires tree { (extent : ℕ → ℕ → Bool) × IsLoopTree graph.now extent tree.now }
    requires within { l < length tree.now.headers }
    ensures { result ≡ header_tallied graph.now tree.now tallied.now (Some l) }
{
    is_among(graph.node(tree.header(l)), tallied)
}

/// By the places of the counted loops, which are tallied.
pub fn tallied_flags(
    alloc: Global,
    graph: &CodeGraph,
    tree: &LoopTree,
    counters: &CounterList,
    tallied: &[u32],
) -> Result<Vec<bool>, NoMemory>
    requires tree { (extent : ℕ → ℕ → Bool) × IsLoopTree graph.now extent tree.now }
    requires counters { counters.now ≡ counted_loops tree.now }
    ensures { IfOk result (λ flags. AreTallied graph.now tree.now tallied.now flags.items) }
{
    let mut flags = Vec::new(alloc);
    for k in 0..counters.count() {
        flags.push(is_tallied(graph, tree, tallied, *counters.get(k)))?;
    }
    Ok(flags)
}
