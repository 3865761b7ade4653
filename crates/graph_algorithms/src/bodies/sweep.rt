//! The bodies of some loops at once: bits are passed back over edges until none is new.

ghost use Rattle.std.specs.Prelude.{◌≡◌, ℕ, ◌<◌, ◌≤◌, ◌↔◌, true, false, length};
ghost use Rattle.graph_algorithms.specs.BodySearch.{is_marked_at, AreUnmarked};
ghost use Rattle.graph_algorithms.specs.Groups.{IsFlagged, OfLoop, IsInSpan, AreLoopExtents, Gains, IsPassedOn, IsPassedBack, AreBitsSettled, IsSearched, IsTurn};

use crate::bodies::edges::IncomingEdges;
use crate::bodies::extent::{LoopExtent, NodeRange};

// So often are the nodes gone through: once or twice where code runs forward, and once more for each loop within a loop where
// loops are left at their headers.
const MOST_SWEEPS: usize = 40;

// Adds bits to the word of a node, those of the extents in which it lies.
fn add_bits(inside: &[u64], found: &mut [u64], pending: &mut [bool], node: usize, bits: u64)
    requires node { node < length found.old }
    requires inside { length inside.now ≡ length found.old }
    requires pending { length pending.old ≡ length found.old }
    ensures gains { Gains (λ v i. (v ≡ node) × IsPassedOn inside.now bits v i) found.old pending.old found.new pending.new }
    ensures all { (i : ℕ) → IsPassedOn inside.now bits node i → IsFlagged found.new node i }
{
    let more = found[node] | bits & inside[node];
    if more != found[node] {
        found[node] = more;
        pending[node] = true;
    }
}

// Bits of loops at a node.
#[derive(Clone, Copy)]
struct NodeBits {
    node: usize,
    bits: u64,
}

/// Passes bits back over each edge to a node.
fn pass_back(
    edges: &IncomingEdges<'_>,
    inside: &[u64],
    found: &mut [u64],
    pending: &mut [bool],
    passed: NodeBits,
)
    requires node { passed.node < edges.now.count }
    requires inside { length inside.now ≡ edges.now.count }
    requires found { length found.old ≡ edges.now.count }
    requires pending { length pending.old ≡ edges.now.count }
    ensures gains { Gains (IsPassedBack edges.now inside.now passed.bits passed.node) found.old pending.old found.new pending.new }
    ensures all { (v i : ℕ) → IsPassedBack edges.now inside.now passed.bits passed.node v i → IsFlagged found.new v i }
{
    let mut next = edges.last(passed.node);
    while let Some(edge) = next {
        add_bits(inside, found, pending, edges.source(edge), passed.bits);
        next = edges.before(edge);
    }
}

/// Sets the bit of each loop at the nodes of its extent from which an edge leads to its header.
pub fn start_loops(
    edges: &IncomingEdges<'_>,
    loops: &[LoopExtent],
    inside: &[u64],
    found: &mut [u64],
    pending: &mut [bool],
)
    requires loops { AreLoopExtents edges.now.count loops.now }
    requires inside { length inside.now ≡ edges.now.count }
    requires found { length found.old ≡ edges.now.count }
    requires pending { length pending.old ≡ edges.now.count }
    requires none { (v i : ℕ) → IsFlagged found.old v i → ⊥ }
    ensures found { (v i : ℕ) → IsFlagged found.new v i ↔ OfLoop loops.now i (IsTurn edges.now inside.now v i) }
    ensures settled { AreBitsSettled edges.now inside.now found.new pending.new }
{
    for (bit, one) in loops.iter().enumerate() {
        let passed = NodeBits {
            node: one.header,
            bits: 1 << bit,
        };
        pass_back(edges, inside, found, pending, passed);
    }
}

// Passes back what was found of a node since the last time.
fn visit_node(
    edges: &IncomingEdges<'_>,
    inside: &[u64],
    found: &mut [u64],
    pending: &mut [bool],
    node: usize,
)
    requires node { node < edges.now.count }
    requires inside { length inside.now ≡ edges.now.count }
    requires settled { AreBitsSettled edges.now inside.now found.old pending.old }
    ensures { IsSearched edges.now inside.now found.old found.new pending.new }
{
    if pending[node] {
        pending[node] = false;
        let bits = found[node];
        pass_back(edges, inside, found, pending, NodeBits { node, bits });
    }
}

// Visits each node of a range, from the last to the first.
fn sweep(
    edges: &IncomingEdges<'_>,
    inside: &[u64],
    found: &mut [u64],
    pending: &mut [bool],
    nodes: NodeRange,
)
    requires nodes { nodes.to ≤ edges.now.count }
    requires inside { length inside.now ≡ edges.now.count }
    requires settled { AreBitsSettled edges.now inside.now found.old pending.old }
    ensures { IsSearched edges.now inside.now found.old found.new pending.new }
{
    let mut node = nodes.to;
    while node > nodes.from {
        node -= 1;
        visit_node(edges, inside, found, pending, node);
    }
}

// Whether no node is pending.
fn is_quiet(pending: &[bool]) -> bool
    ensures { (result ≡ true) ↔ AreUnmarked pending.now }
{
    for waits in pending {
        if *waits {
            return false;
        }
    }
    true
}

// Whether no node of a range is pending.
fn is_quiet_among(pending: &[bool], nodes: NodeRange) -> bool
    requires { nodes.to ≤ length pending.now }
    ensures { (result ≡ true) ↔ ((v : ℕ) → IsInSpan nodes v → is_marked_at pending.now v ≡ false) }
{
    for node in nodes.from..nodes.to {
        if pending[node] {
            return false;
        }
    }
    true
}

// Goes through the nodes of a range until none of them is pending, or often enough.
fn sweep_often(
    edges: &IncomingEdges<'_>,
    inside: &[u64],
    found: &mut [u64],
    pending: &mut [bool],
    nodes: NodeRange,
)
    requires nodes { nodes.to ≤ edges.now.count }
    requires inside { length inside.now ≡ edges.now.count }
    requires settled { AreBitsSettled edges.now inside.now found.old pending.old }
    ensures { IsSearched edges.now inside.now found.old found.new pending.new }
{
    for _ in 0..MOST_SWEEPS {
        if is_quiet_among(pending, nodes) {
            return;
        }
        sweep(edges, inside, found, pending, nodes);
    }
}

/// Goes through the nodes of a range until none of them is pending, or often enough. Says whether no node is.
pub fn settle(
    edges: &IncomingEdges<'_>,
    inside: &[u64],
    found: &mut [u64],
    pending: &mut [bool],
    nodes: NodeRange,
) -> bool
    requires nodes { nodes.to ≤ edges.now.count }
    requires inside { length inside.now ≡ edges.now.count }
    requires settled { AreBitsSettled edges.now inside.now found.old pending.old }
    ensures search { IsSearched edges.now inside.now found.old found.new pending.new }
    ensures quiet { (result ≡ true) ↔ AreUnmarked pending.new }
{
    sweep_often(edges, inside, found, pending, nodes);
    is_quiet(pending)
}
