//! What edges cost with the functions that they call.

ghost use Rattle.std.specs.Prelude.{◌≡◌, ◌⊎◌, ◌↔◌, ℕ, ◌+◌, ◌^◌, ◌<◌, ◌≤◌, true, [], length, Some, None, IsSome, unwrap_or};
ghost use Rattle.cost_theory.specs.Least.{least_call};
ghost use Rattle.flow_graph.specs.FlowGraph.{graph as graph_seen, IsFlowGraph};
ghost use Rattle.least_cycles.specs.Functions.{IsBucket, IsFromFirst};
ghost use Rattle.least_cycles.specs.Tables.{value_beside, least_by};
ghost use Rattle.least_cycles.specs.Passes.{ArePriceTables, IsPriceBy, ArePricedBy};

use flow_graph::CodeGraph;
use scale_base::CYCLE_LIMIT;

/// What is known of a graph where a function of it is priced.
#[derive(Clone, Copy)]
pub struct Tables<'a> {
    pub graph: &'a CodeGraph,
    /// By edge, its cost without the function that it calls.
    pub own: &'a [u64],
    /// By node, the least costs of walks to a return and to an exit, at least of the functions that are called.
    pub returns: &'a [Option<u128>],
    pub exits: &'a [Option<u128>],
}

/// What a table has at the entry of function `f`.
fn at_entry(graph: &CodeGraph, table: &[Option<u128>], f: usize) -> Option<u128>
    requires flow { IsFlowGraph graph.now }
    requires function { f < length graph.now.code.functions }
    requires size { length table.now ≡ length graph.now.code.nodes }
    ensures { result ≡ value_beside graph.now.code.nodes table.now ((graph_seen graph.now).entry f) }
{
    let _count = graph.node_count();
    table[graph.entry_node(f)]
}

/// The least cycles in the function that edge `e` calls: to its return, or to an exit in it where the call doesn't come back.
fn called(
    graph: &CodeGraph,
    returns: &[Option<u128>],
    exits: &[Option<u128>],
    e: usize,
) -> Option<u128>
    requires flow { IsFlowGraph graph.now }
    requires edge { e < length graph.now.code.edges }
    requires returns { length returns.now ≡ length graph.now.code.nodes }
    requires exits { length exits.now ≡ length graph.now.code.nodes }
    ensures cost { unwrap_or result 0 ≡ least_call (graph_seen graph.now) (least_by graph.now returns.now exits.now []) e
        ((graph_seen graph.now).target e) }
    ensures exit { (graph_seen graph.now).target e ≡ None → IsSome result → (f : ℕ) × ((graph_seen graph.now).callee e ≡ Some f) ×
        IsSome (value_beside graph.now.code.nodes exits.now ((graph_seen graph.now).entry f)) }
    ensures whole { (f : ℕ) → (graph_seen graph.now).target e ≡ None → (graph_seen graph.now).callee e ≡ Some f →
        IsSome (value_beside graph.now.code.nodes exits.now ((graph_seen graph.now).entry f)) → IsSome result }
{
    let f = graph.callee(e)?;
    match graph.target(e) {
        Some(_) => at_entry(graph, returns, f),
        None => at_entry(graph, exits, f),
    }
}

/// A number of at most 2^48, and 0 where there is none.
pub(crate) fn small(number: Option<u128>) -> u64
    requires { (x : ℕ) → number ≡ Some x → x ≤ CYCLE_LIMIT }
    ensures { result ≡ unwrap_or number 0 }
{
    match number {
        Some(x) => x as u64,
        None => 0,
    }
}

/// Whether edge `e` is the last of a walk to an exit: an exit, or the end of a call in which there is one.
fn is_last(graph: &CodeGraph, e: usize, exits_in_call: bool) -> bool
    requires edge { e < length graph.now.code.edges }
    ensures { (result ≡ true) ↔ (((graph_seen graph.now).exits e ≡ true) ⊎ (((graph_seen graph.now).target e ≡ None) ×
        (exits_in_call ≡ true))) }
{
    if graph.is_exit(e) {
        return true;
    }
    match graph.target(e) {
        Some(_) => false,
        None => exits_in_call,
    }
}

/// What edge `e` costs with the function that it calls, and whether it is the last of a walk to an exit.
fn price(tables: &Tables<'_>, e: usize) -> (u64, bool)
    requires tables { ArePriceTables tables.now }
    requires edge { e < length tables.now.graph.now.code.edges }
    ensures { IsPriceBy tables.now e result.0 result.1 }
{
    let more = called(tables.graph, tables.returns, tables.exits, e);
    let last = is_last(tables.graph, e, more.is_some());
    (tables.own[e] + small(more), last)
}

/// Prices the edges of the node at place `i` of a function.
fn price_node(
    tables: &Tables<'_>,
    bucket: &[usize],
    i: usize,
    costs: &mut Vec<u64>,
    lasts: &mut Vec<bool>,
)
    requires tables { ArePriceTables tables.now }
    requires bucket { (f : ℕ) × IsBucket tables.now.graph.now f bucket.now }
    requires place { i < length bucket.now }
    requires priced { ArePricedBy tables.now (IsFromFirst tables.now.graph.now bucket.now i) costs.old.items lasts.old.items }
    ensures { ArePricedBy tables.now (IsFromFirst tables.now.graph.now bucket.now (i + 1)) costs.new.items lasts.new.items }
{
    let (first, end) = tables.graph.edges_of(bucket[i]);
    for e in first..end {
        let (cost, last) = price(tables, e);
        costs[e] = cost;
        lasts[e] = last;
    }
}

/// Prices the edges of the nodes of a function.
pub fn price_function(
    tables: &Tables<'_>,
    bucket: &[usize],
    costs: &mut Vec<u64>,
    lasts: &mut Vec<bool>,
)
    requires tables { ArePriceTables tables.now }
    requires bucket { (f : ℕ) × IsBucket tables.now.graph.now f bucket.now }
    requires priced { ArePricedBy tables.now (IsFromFirst tables.now.graph.now bucket.now 0) costs.old.items lasts.old.items }
    ensures { ArePricedBy tables.now (IsFromFirst tables.now.graph.now bucket.now (length bucket.now)) costs.new.items lasts.new.items }
{
    for i in 0..bucket.len() {
        price_node(tables, bucket, i, costs, lasts);
    }
}
