//! The graph of reached code.

ghost use Rattle.std.specs.Prelude.{◌≡◌, ◌<◌, ◌≤◌, ◌↔◌, ℕ, List, Option, Some, None, length, map, slice_get, slice_index, IfOk};
ghost use Rattle.power_model.specs.Price.{cycles_of};
ghost use Rattle.cost_theory.specs.Reached as reached;
ghost use Rattle.cost_theory.specs.Reached.{edge_at};
ghost use Rattle.code_text.specs.EdgeCosts.{cost_of};
ghost use Rattle.code_text.specs.Text.{Text};
ghost use Rattle.cost_theory.specs.Accepted.{AreWeights};
ghost use Rattle.graph_algorithms.specs.Arcs.{number_in_place};
ghost use Rattle.flow_graph.specs.Blocks.{AreBlocks};
ghost use Rattle.flow_graph.specs.Ends.{AreEdgeEnds};
ghost use Rattle.flow_graph.specs.FlowGraph.{graph, word_beside, IsFlowGraph, IsGraphOf};
ghost use Rattle.flow_graph.specs.Stored.{flow_of, IsStoredGraph};

use crate::ends::number_of;
use crate::lists::GraphLists;
use crate::weights::{Weights, weights_of};
use cost_theory::Flow;
use power_model::Costs;
use scale_base::{Edge, EdgeKind, NoMemory, Range, WORD_LIMIT};
use std::alloc::Global;
use std::marker::Model;

/// The graph of reached code.
#[derive(Drop)]
pub struct CodeGraph {
    lists: GraphLists,
}

impl Model for CodeGraph {
    ghost use Rattle.flow_graph.specs.FlowGraph.{FlowGraph};
    ghost use Rattle.flow_graph.specs.Stored.{flow_of, IsStoredGraph};

    ghost Value = { FlowGraph };

    ghost view = { λ g. flow_of g.lists };

    ghost invariant = { λ g. IsStoredGraph (flow_of g.lists) g.lists.callees.items g.lists.firsts.items g.lists.ends.sources.items g.lists.ends.targets.items };
}

fn is_back(word: Flow) -> bool
    ensures { result ≡ reached.is_return_word word }
{
    matches!(word, Flow::Return)
}

/// Whether the step over an edge is an exit, by the word at which it starts.
fn is_exit(word: Flow, kind: EdgeKind) -> bool
    ensures { result ≡ reached.is_exit word kind }
{
    match word {
        Flow::Exit | Flow::MayExit => matches!(kind, EdgeKind::End),
        _ => false,
    }
}

impl CodeGraph {
    ghost use Rattle.flow_graph.specs.FlowGraph.{FlowGraph};

    /// The graph of these lists.
    pub fn of(lists: GraphLists) -> CodeGraph
        requires { IsStoredGraph (flow_of lists) lists.callees.items lists.firsts.items lists.ends.sources.items lists.ends.targets.items }
        ensures { result ≡ flow_of lists }
    {
        CodeGraph { lists }
    }

    /// How many nodes there are. They are numbered by their addresses, which ascend.
    pub fn node_count(&self) -> usize
        ensures count { result ≡ length self.now.code.nodes }
        ensures few { result ≤ WORD_LIMIT }
        ensures graph { IsFlowGraph self.now }
    {
        self.lists.nodes.len()
    }

    /// The address of node `k`.
    pub fn node(&self, k: usize) -> u32
        requires { k < length self.now.code.nodes }
        ensures { slice_get self.now.code.nodes k ≡ Some result }
    {
        self.lists.nodes[k]
    }

    /// The number of the node at an address. None exactly where no node is there.
    pub fn find(&self, at: u32) -> Option<usize>
        ensures { (k : ℕ) → (result ≡ Some k) ↔ (slice_get self.now.code.nodes k ≡ Some at) }
    {
        number_of(&self.lists.nodes, at)
    }

    /// The addresses of the nodes, ascending.
    pub fn nodes(&self) -> &[u32]
        ensures { result.now ≡ self.now.code.nodes }
    {
        &self.lists.nodes
    }

    /// The number of the node at which edge `e` starts.
    pub fn source(&self, e: usize) -> usize
        requires { e < length self.now.code.edges }
        ensures node { slice_get self.now.code.nodes result ≡ Some ((graph self.now).source e) }
        ensures within { result < length self.now.code.nodes }
    {
        self.lists.ends.sources[e]
    }

    /// What the word at which edge `e` starts says of the way on.
    fn word(&self, e: usize) -> Flow
        requires { e < length self.now.code.edges }
        ensures { result ≡ word_beside self.now.code.nodes self.now.kinds ((graph self.now).source e) }
    {
        self.lists.kinds[self.source(e)]
    }

    /// How many edges there are. They ascend by the address at which they start; those of one node stand in the order of `EdgeKind`.
    pub fn edge_count(&self) -> usize
        ensures count { result ≡ length self.now.code.edges }
        ensures few { result ≤ 262144 }
    {
        self.lists.edges.len()
    }

    /// The edges, ascending by address, at one address in the order of their kinds.
    pub fn edges(&self) -> &[Edge]
        ensures { result.now ≡ self.now.code.edges }
    {
        &self.lists.edges
    }

    /// Edge `e`.
    pub fn edge(&self, e: usize) -> Edge
        requires { e < length self.now.code.edges }
        ensures { slice_get self.now.code.edges e ≡ Some result }
    {
        self.lists.edges[e]
    }

    /// The number of node `k`'s first edge, and one past that of its last.
    pub fn edges_of(&self, k: usize) -> (usize, usize)
        requires { k < length self.now.code.nodes }
        ensures within { (result.0 < result.1) × (result.1 ≤ length self.now.code.edges) }
        ensures edges { (e : ℕ) → e < length self.now.code.edges → (edge_at (slice_get self.now.code.edges e) ≡ slice_index
            self.now.code.nodes k) ↔ ((result.0 ≤ e) × (e < result.1)) }
    {
        (self.lists.firsts[k], self.lists.firsts[k + 1])
    }

    /// The number of the node to which edge `e` leads. None exactly for an `End` edge.
    pub fn target(&self, e: usize) -> Option<usize>
        requires { e < length self.now.code.edges }
        ensures some { (k : ℕ) → result ≡ Some k → (graph self.now).target e ≡ slice_get self.now.code.nodes k }
        ensures within { (k : ℕ) → result ≡ Some k → k < length self.now.code.nodes }
        ensures none { result ≡ None → (graph self.now).target e ≡ None }
    {
        self.lists.ends.targets[e]
    }

    /// By edge, the number of the node at which it starts.
    pub fn sources(&self) -> &[usize]
        ensures { (targets : List (Option ℕ)) × AreEdgeEnds self.now result.now targets }
    {
        &self.lists.ends.sources
    }

    /// By edge, the number of the node to which it leads. None for an `End` edge.
    pub fn targets(&self) -> &[Option<usize>]
        ensures { (sources : List ℕ) × AreEdgeEnds self.now sources result.now }
    {
        &self.lists.ends.targets
    }

    /// The number of the function that edge `e` calls. Some exactly for the edges of a call.
    pub fn callee(&self, e: usize) -> Option<usize>
        requires { e < length self.now.code.edges }
        ensures { result ≡ (graph self.now).callee e }
    {
        self.lists.callees[self.source(e)]
    }

    /// Whether edge `e` is an `End` edge of a return.
    pub fn is_return(&self, e: usize) -> bool
        requires { e < length self.now.code.edges }
        ensures { result ≡ (graph self.now).returns e }
    {
        is_back(self.word(e))
    }

    /// Whether edge `e` is an `End` edge of an exit.
    pub fn is_exit(&self, e: usize) -> bool
        requires { e < length self.now.code.edges }
        ensures { result ≡ (graph self.now).exits e }
    {
        is_exit(self.word(e), self.edge(e).kind)
    }

    /// How many functions there are.
    pub fn function_count(&self) -> usize
        ensures count { result ≡ length self.now.code.functions }
        ensures few { result ≤ WORD_LIMIT }
        ensures some { 0 < result }
    {
        self.lists.functions.len()
    }

    /// The entry of function `f`. Function 0 is the program's.
    pub fn function(&self, f: usize) -> u32
        requires { f < length self.now.code.functions }
        ensures { slice_get self.now.code.functions f ≡ Some result }
    {
        self.lists.functions[f]
    }

    /// The number of the node at which function `f` begins.
    pub fn entry_node(&self, f: usize) -> usize
        requires { f < length self.now.code.functions }
        ensures node { slice_get self.now.code.nodes result ≡ Some ((graph self.now).entry f) }
        ensures within { result < length self.now.code.nodes }
    {
        let _nodes = self.node_count();
        self.find(self.function(f)).unwrap()
    }

    /// The number of the function of node `k`.
    pub fn owner(&self, k: usize) -> usize
        requires { k < length self.now.code.nodes }
        ensures owner { result ≡ (graph self.now).owner (slice_index self.now.code.nodes k) }
        ensures within { result < length self.now.code.functions }
    {
        self.lists.owners[k]
    }

    /// The numbers of the functions, each called function before those that call it.
    pub fn call_order(&self) -> &[usize]
        ensures { result.now ≡ self.now.order }
    {
        &self.lists.order
    }

    /// How many basic blocks there are. They ascend by their addresses.
    pub fn block_count(&self) -> usize
        ensures count { result ≡ length self.now.blocks }
        ensures few { result ≤ WORD_LIMIT }
        ensures blocks { AreBlocks self.now self.now.blocks }
    {
        self.lists.blocks.len()
    }

    /// The addresses of basic block `b`.
    pub fn block(&self, b: usize) -> Range
        requires { b < length self.now.blocks }
        ensures { slice_get self.now.blocks b ≡ Some result }
    {
        self.lists.blocks[b]
    }

    /// The cost of each edge in cycles: that of the class of its step, and 0 for an EBREAK, whose step isn't completed. In the graph of
    /// a text there is one for each edge, and the edges of a call cost the same.
    pub fn base_weights(&self, alloc: Global, costs: &Costs) -> Result<Weights, NoMemory>
        ensures weights { IfOk result (λ weights. weights ≡ map (cost_of (cycles_of costs.now)) self.now.classes) }
        ensures size { (t : Text) → IsGraphOf t self.now → IfOk result (λ weights. length weights ≡ length self.now.code.edges) }
        ensures calls { (t : Text) → IsGraphOf t self.now → IfOk result (λ weights. AreWeights (graph self.now) (number_in_place weights)) }
    {
        weights_of(alloc, costs, &self.lists.classes)
    }
}
