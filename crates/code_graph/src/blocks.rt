//! The basic blocks of a graph.

ghost use Rattle.std.specs.Prelude.{◌≡◌, ◌↔◌, ◌⊎◌, ◌+◌, ◌-◌, ◌<◌, ◌≤◌, ◌^◌, ℕ, true, Some, length, slice_get, slice_index, IfOk};
ghost use Rattle.flow_graph.specs.Stored.{AreFirsts};
ghost use Rattle.code_graph.specs.Assembling.{AreEnds, IsEntryNode, IsOnlyNext, LeadsApart, AreHeads, AreUp, AreStretches, AreBlocksBy};

use crate::edges::EdgeLists;
use crate::nodes::Nodes;
use flow_graph::EdgeEnds;
use scale_base::{Edge, EdgeKind, NoMemory, Range};
use std::alloc::Global;

/// Whether an edge is of kind `Next` and the only one of the node where it starts.
fn is_only_next(edges: &[Edge], firsts: &[usize], source: usize, e: usize) -> bool
    requires edge { e < length edges.now }
    requires source { source + 1 < length firsts.now }
    ensures { (result ≡ true) ↔ IsOnlyNext edges.now firsts.now source e }
{
    matches!(edges[e].kind, EdgeKind::Next) && firsts[source] == e && firsts[source + 1] == e + 1
}

/// The number of the node to which an edge leads, but for an edge of kind `Next` that is the only one of its node.
fn led_apart(edges: &[Edge], firsts: &[usize], ends: &EdgeEnds, e: usize) -> Option<usize>
    requires edge { e < length edges.now }
    requires sources { length ends.now.sources.items ≡ length edges.now }
    requires targets { length ends.now.targets.items ≡ length edges.now }
    requires within { (k : ℕ) → slice_get ends.now.sources.items e ≡ Some k → k + 1 < length firsts.now }
    ensures { (k : ℕ) → (result ≡ Some k) ↔ LeadsApart edges.now firsts.now ends.now.sources.items ends.now.targets.items e k }
{
    if is_only_next(edges, firsts, ends.sources[e], e) {
        None
    } else {
        ends.targets[e]
    }
}

/// Raises a flag, if its number is told.
fn raise(flags: &mut Vec<bool>, number: Option<usize>)
    requires { (k : ℕ) → number ≡ Some k → k < length flags.old.items }
    ensures size { length flags.new.items ≡ length flags.old.items }
    ensures up { (k : ℕ) → (slice_get flags.new.items k ≡ Some true) ↔ ((slice_get flags.old.items k ≡ Some true) ⊎ (number ≡ Some k)) }
{
    if let Some(k) = number {
        flags[k] = true;
    }
}

/// By node whether it is the entry of its function.
fn entry_flags(alloc: Global, nodes: &Nodes, functions: &[u32]) -> Result<Vec<bool>, NoMemory>
    requires owners { length nodes.now.owners.items ≡ length nodes.now.addresses.items }
    requires functions { (k o : ℕ) → slice_get nodes.now.owners.items k ≡ Some o → o < length functions.now }
    ensures size { IfOk result (λ flags. length flags.items ≡ length nodes.now.addresses.items) }
    ensures up { IfOk result (λ flags. (k : ℕ) → k < length nodes.now.addresses.items →
        (slice_get flags.items k ≡ Some true) ↔ IsEntryNode nodes.now.addresses.items nodes.now.owners.items functions.now k) }
{
    let mut flags = Vec::new(alloc);
    for k in 0..nodes.addresses.len() {
        flags.push(nodes.addresses[k] == functions[nodes.owners[k]])?;
    }
    Ok(flags)
}

/// By node whether it begins a block. A node does that is the entry of a function, or to which an edge leads that isn't the only one of
/// its node, of kind `Next`.
fn heads_of(
    alloc: Global,
    nodes: &Nodes,
    functions: &[u32],
    lists: &EdgeLists,
    ends: &EdgeEnds,
) -> Result<Vec<bool>, NoMemory>
    requires owners { length nodes.now.owners.items ≡ length nodes.now.addresses.items }
    requires functions { (k o : ℕ) → slice_get nodes.now.owners.items k ≡ Some o → o < length functions.now }
    requires firsts { AreFirsts (length nodes.now.addresses.items) nodes.now.addresses.items lists.now.edges.items lists.now.firsts.items }
    requires ends { AreEnds (length lists.now.edges.items) nodes.now.addresses.items lists.now.edges.items ends.now.sources.items
        ends.now.targets.items }
    ensures { IfOk result (λ heads. AreHeads (length lists.now.edges.items) nodes.now.addresses.items nodes.now.owners.items functions.now
        lists.now.edges.items lists.now.firsts.items ends.now.sources.items ends.now.targets.items heads.items) }
{
    // Each other node is reached over an edge, which is then the only one of the node before it.
    let mut heads = entry_flags(alloc, nodes, functions)?;
    for e in 0..lists.edges.len() {
        raise(&mut heads, led_apart(&lists.edges, &lists.firsts, ends, e));
    }
    Ok(heads)
}

/// The numbers of the flags that are up.
fn numbers_up(alloc: Global, flags: &[bool]) -> Result<Vec<usize>, NoMemory>
    ensures { IfOk result (λ numbers. AreUp (length flags.now) flags.now numbers.items) }
{
    let mut numbers = Vec::new(alloc);
    for k in 0..flags.len() {
        if flags[k] {
            numbers.push(k)?;
        }
    }
    Ok(numbers)
}

/// The addresses of the nodes from one up to another, which is left out.
fn range_of(nodes: &[u32], from: usize, end: usize) -> Range
    requires some { from < end }
    requires within { end ≤ length nodes.now }
    requires low { (k : ℕ) → k < length nodes.now → slice_index nodes.now k + 4 < 2 ^ 32 }
    ensures { result ≡ record { from = slice_index nodes.now from; to = slice_index nodes.now (end - 1) + 4 } }
{
    Range {
        from: nodes[from],
        to: nodes[end - 1] + 4,
    }
}

/// The ranges between the nodes that begin blocks.
fn ranges_of(alloc: Global, nodes: &[u32], starts: &[usize]) -> Result<Vec<Range>, NoMemory>
    requires within { (b k : ℕ) → slice_get starts.now b ≡ Some k → k < length nodes.now }
    requires ascending { (b c j k : ℕ) → b < c → slice_get starts.now b ≡ Some j → slice_get starts.now c ≡ Some k → j < k }
    requires low { (k : ℕ) → k < length nodes.now → slice_index nodes.now k + 4 < 2 ^ 32 }
    ensures { IfOk result (λ blocks. AreStretches (length starts.now) nodes.now starts.now blocks.items) }
{
    let mut blocks = Vec::new(alloc);
    for b in 0..starts.len() {
        let end = starts.get(b + 1).copied().unwrap_or(nodes.len());
        blocks.push(range_of(nodes, starts[b], end))?;
    }
    Ok(blocks)
}

/// The blocks of nodes and their edges, in ascending order.
pub fn blocks_of(
    alloc: Global,
    nodes: &Nodes,
    functions: &[u32],
    lists: &EdgeLists,
    ends: &EdgeEnds,
) -> Result<Vec<Range>, NoMemory>
    requires owners { length nodes.now.owners.items ≡ length nodes.now.addresses.items }
    requires functions { (k o : ℕ) → slice_get nodes.now.owners.items k ≡ Some o → o < length functions.now }
    requires low { (k : ℕ) → k < length nodes.now.addresses.items → slice_index nodes.now.addresses.items k + 4 < 2 ^ 32 }
    requires firsts { AreFirsts (length nodes.now.addresses.items) nodes.now.addresses.items lists.now.edges.items lists.now.firsts.items }
    requires ends { AreEnds (length lists.now.edges.items) nodes.now.addresses.items lists.now.edges.items ends.now.sources.items
        ends.now.targets.items }
    ensures { IfOk result (λ blocks. AreBlocksBy nodes.now.addresses.items nodes.now.owners.items functions.now lists.now.edges.items
        lists.now.firsts.items ends.now.sources.items ends.now.targets.items blocks.items) }
{
    let heads = heads_of(alloc, nodes, functions, lists, ends)?;
    let starts = numbers_up(alloc, &heads)?;
    ranges_of(alloc, &nodes.addresses, &starts)
}
