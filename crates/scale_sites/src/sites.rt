//! The marks and the jumps of all edges.

ghost use Rattle.std.specs.Prelude.{◌≡◌, ◌+◌, ◌*◌, ◌<◌, ◌≤◌, ℕ, Bool, true, List, [], length, map, slice_get, slice_index, slice_index_or, Some, IfOk};
ghost use Rattle.power_model.specs.Price.{cycles_of};
ghost use Rattle.cost_theory.specs.Graph.{any_below};
ghost use Rattle.code_text.specs.EdgeCosts.{cost_of};
ghost use Rattle.flow_graph.specs.FlowGraph.{graph as graph_seen, IsFlowGraph};
ghost use Rattle.loop_forest.specs.Tree.{loops, IsLoopTree};
ghost use Rattle.scale_sites.specs.Counters.{counted_loops};
ghost use Rattle.scale_sites.specs.Marks.{marks_of};
ghost use Rattle.scale_sites.specs.Marked.{IsMarkableGraph};
ghost use Rattle.scale_sites.specs.Weights.{switches, tail_of, extra_of, is_patched, jumps_of};
ghost use Rattle.scale_sites.specs.Sites.{SitesView, is_branch, is_branch_kind, marks_in, marks_at_edge, flag_at, marks_where, AreMarksBy, AreMarks, AreJumps, AreSitesBy, AreSites, AreWantedSites};
ghost use Rattle.scale_sites.specs.Forms.{formed_where};
ghost use Rattle.scale_base.specs.declared.fragments.Mark.{Mark};

use crate::cost;
use crate::counting::CounterList;
use crate::edge_marks::{Way, edge_marks};
use crate::forms::{flag, form_marks};
use crate::marking::Marking;
use flow_graph::{CodeGraph, Weights};
use loop_forest::LoopTree;
use power_model::Costs;
use scale_base::{EdgeKind, Mark, NoMemory};
use std::alloc::Global;
use std::marker::Model;

/// By edge, its marks, and the jumps of its stub: none where no edge of its instruction has a mark.
#[derive(Drop)]
pub struct Sites {
    marks: Vec<Vec<Mark>>,
    jumps: Vec<u8>,
}

impl Model for Sites {
    ghost use Rattle.std.specs.Prelude.{map};
    ghost use Rattle.scale_sites.specs.Sites.{SitesView, IsSites};

    ghost Value = { SitesView };

    ghost view = { λ s. record { marks = map (λ m. m.items) s.marks.items; jumps = s.jumps.items } };

    ghost invariant = { λ s. IsSites (record { marks = map (λ m. m.items) s.marks.items; jumps = s.jumps.items }) };
}

impl Sites {
    /// The marks of edge `e`, in their order.
    pub fn marks(&self, e: usize) -> &[Mark]
        requires { e < length self.now.marks }
        ensures { result.now ≡ marks_at_edge self.now e }
    {
        &self.marks[e]
    }

    /// How many edges there are.
    fn count(&self) -> usize
        ensures { result ≡ length self.now.marks }
    {
        self.marks.len()
    }

    /// The marks of edge `e`, of which there are few.
    fn few_marks(&self, e: usize) -> &[Mark]
        requires { e < length self.now.marks }
        ensures marks { result.now ≡ marks_at_edge self.now e }
        ensures few { length result.now ≤ 1600 }
    {
        &self.marks[e]
    }

    /// The cycles that edge `e` costs besides its own.
    pub fn extra(&self, e: usize, costs: &Costs) -> u32
        requires { e < length self.now.marks }
        ensures extra { result ≡ extra_of costs.now (slice_index self.now.jumps e) (marks_at_edge self.now e) }
        ensures small { result ≤ 2 * 65535 + 1600 * (16 * 65535) }
    {
        cost::extra_of(&self.marks[e], self.jumps[e], costs)
    }

    /// The cycles of edge `e` behind its port store. Its first mark is one that may store there.
    pub fn tail(&self, e: usize, costs: &Costs) -> u32
        requires edge { e < length self.now.marks }
        requires switches { switches (marks_at_edge self.now e) ≡ true }
        ensures { result ≡ tail_of costs.now (marks_at_edge self.now e) }
    {
        cost::tail_of(&self.marks[e], costs)
    }
}

/// Whether an edge is one of a branch.
fn is_branch(kind: EdgeKind) -> bool
    ensures { result ≡ is_branch_kind kind }
{
    matches!(kind, EdgeKind::Taken | EdgeKind::Untaken)
}

/// The marks of edge `e`, of so much slack, which may have a switch or not.
fn marks_of_edge(
    alloc: Global,
    marking: &Marking<'_>,
    may: bool,
    slack: u64,
    e: usize,
) -> Result<Vec<Mark>, NoMemory>
    requires marking { IsMarkableGraph marking.now }
    requires edge { e < length marking.now.graph.now.code.edges }
    ensures marks { IfOk result (λ m. m.items ≡ marks_of (graph_seen marking.now.graph.now)
        (loops marking.now.graph.now marking.now.tree.now) marking.now.counted.now may slack marking.now.min_gain e) }
    ensures few { IfOk result (λ m. length m.items ≤ 1600) }
{
    let way = Way {
        from: marking.graph.source(e),
        to: marking.graph.target(e),
    };
    let marks = edge_marks(alloc, marking, way, may, slack)?;
    Ok(marks)
}

/// By edge, its marks.
fn all_marks(
    alloc: Global,
    marking: &Marking<'_>,
    slacks: &[u64],
) -> Result<Vec<Vec<Mark>>, NoMemory>
    requires marking { IsMarkableGraph marking.now }
    requires slacks { length slacks.now ≡ length marking.now.graph.now.code.edges }
    ensures { IfOk result (λ marks. AreMarks marking.now.graph.now marking.now.tree.now marking.now.counted.now slacks.now
        marking.now.min_gain (length marking.now.graph.now.code.edges) (map (λ m. m.items) marks.items)) }
{
    let mut marks = Vec::with_capacity(alloc, marking.graph.edge_count())?;
    for e in 0..marking.graph.edge_count() {
        let branch = is_branch(marking.graph.edge(e).kind);
        marks.push(marks_of_edge(alloc, marking, branch, slacks[e], e)?)?;
    }
    Ok(marks)
}

/// By edge, its marks where those with a flag have a switch.
fn wanted_marks(
    alloc: Global,
    marking: &Marking<'_>,
    wanted: &[bool],
) -> Result<Vec<Vec<Mark>>, NoMemory>
    requires marking { IsMarkableGraph marking.now }
    requires no_gain { marking.now.min_gain ≡ 0 }
    requires wanted { length wanted.now ≡ length marking.now.graph.now.code.edges }
    ensures { IfOk result (λ marks. AreMarksBy (marks_where marking.now.graph.now marking.now.tree.now marking.now.counted.now
        (flag_at wanted.now)) (length marking.now.graph.now.code.edges) (map (λ m. m.items) marks.items)) }
{
    let mut marks = Vec::with_capacity(alloc, marking.graph.edge_count())?;
    for e in 0..marking.graph.edge_count() {
        marks.push(marks_of_edge(alloc, marking, wanted[e], 0, e)?)?;
    }
    Ok(marks)
}

/// Whether an edge of the instruction of edge `e` has a mark.
fn is_patched(graph: &CodeGraph, marks: &[Vec<Mark>], e: usize) -> bool
    requires flow { IsFlowGraph graph.now }
    requires size { length marks.now ≡ length graph.now.code.edges }
    requires edge { e < length graph.now.code.edges }
    ensures { result ≡ is_patched (graph_seen graph.now) (marks_in (map (λ m. m.items) marks.now)) ((graph_seen graph.now).source e) }
{
    let (first, end) = graph.edges_of(graph.source(e));
    for d in first..end {
        if !marks[d].is_empty() {
            return true;
        }
    }
    false
}

/// The jumps of the stub over edge `e`: two for a branch and one for another instruction, where an edge of it has a mark.
fn jumps_over(graph: &CodeGraph, marks: &[Vec<Mark>], e: usize) -> u8
    requires flow { IsFlowGraph graph.now }
    requires size { length marks.now ≡ length graph.now.code.edges }
    requires edge { e < length graph.now.code.edges }
    ensures jumps { result ≡ jumps_of (graph_seen graph.now) (is_branch graph.now) (marks_in (map (λ m. m.items) marks.now)) e }
    ensures few { result ≤ 2 }
{
    let branch = is_branch(graph.edge(e).kind);
    if is_patched(graph, marks, e) {
        if branch { 2 } else { 1 }
    } else {
        0
    }
}

/// By edge, the jumps of its stub.
fn all_jumps(alloc: Global, graph: &CodeGraph, marks: &[Vec<Mark>]) -> Result<Vec<u8>, NoMemory>
    requires flow { IsFlowGraph graph.now }
    requires size { length marks.now ≡ length graph.now.code.edges }
    ensures { IfOk result (λ jumps. AreJumps graph.now (map (λ m. m.items) marks.now) (length graph.now.code.edges) jumps.items) }
{
    let mut jumps = Vec::with_capacity(alloc, graph.edge_count())?;
    for e in 0..graph.edge_count() {
        jumps.push(jumps_over(graph, marks, e))?;
    }
    Ok(jumps)
}

/// The marks of all edges, by the slacks that are handed in: a Switch where a branch's edge leaves no counted loop and has at least
/// `min_gain` cycles of slack.
pub fn choose(
    alloc: Global,
    graph: &CodeGraph,
    tree: &LoopTree,
    counters: &CounterList,
    slacks: &[u64],
    min_gain: u32,
) -> Result<Sites, NoMemory>
    requires flow { IsFlowGraph graph.now }
    requires tree { (extent : ℕ → ℕ → Bool) × IsLoopTree graph.now extent tree.now }
    requires counters { counters.now ≡ counted_loops tree.now }
    requires few { length counters.now ≤ 509 }
    requires slacks { length slacks.now ≡ length graph.now.code.edges }
    ensures { IfOk result (λ s. AreSites graph.now tree.now counters.now slacks.now min_gain s) }
{
    let marking = Marking {
        graph,
        tree,
        counted: counters.as_slice(),
        min_gain,
    };
    let marks = all_marks(alloc, &marking, slacks)?;
    let jumps = all_jumps(alloc, graph, &marks)?;
    Ok(Sites { marks, jumps })
}

/// The marks of all edges, by flags that are handed in: a Switch where an edge with a flag leaves no counted loop.
pub fn choose_where(
    alloc: Global,
    graph: &CodeGraph,
    tree: &LoopTree,
    counters: &CounterList,
    wanted: &[bool],
) -> Result<Sites, NoMemory>
    requires flow { IsFlowGraph graph.now }
    requires tree { (extent : ℕ → ℕ → Bool) × IsLoopTree graph.now extent tree.now }
    requires counters { counters.now ≡ counted_loops tree.now }
    requires few { length counters.now ≤ 509 }
    requires wanted { length wanted.now ≡ length graph.now.code.edges }
    ensures { IfOk result (λ s. AreWantedSites graph.now tree.now counters.now wanted.now s) }
{
    let marking = Marking {
        graph,
        tree,
        counted: counters.as_slice(),
        min_gain: 0,
    };
    let marks = wanted_marks(alloc, &marking, wanted)?;
    let jumps = all_jumps(alloc, graph, &marks)?;
    Ok(Sites { marks, jumps })
}

/// By edge, what stands for its marks.
fn formed_marks(
    alloc: Global,
    sites: &Sites,
    lowest: &[bool],
    tallied: &[bool],
) -> Result<Vec<Vec<Mark>>, NoMemory>
    ensures { IfOk result (λ marks. AreMarksBy (formed_where lowest.now tallied.now (marks_at_edge sites.now)) (length sites.now.marks)
        (map (λ m. m.items) marks.items)) }
{
    let mut marks = Vec::with_capacity(alloc, sites.count())?;
    for e in 0..sites.count() {
        marks.push(form_marks(alloc, sites.few_marks(e), flag(lowest, e), tallied)?)?;
    }
    Ok(marks)
}

/// The sites where other marks stand for those of the edges: the flags of `lowest` are by edge, and tell where a Switch is one to the lowest level; those of
/// `tallied` are by counted loop, and tell whether its back edges have tallies.
pub fn form_sites(
    alloc: Global,
    graph: &CodeGraph,
    sites: Sites,
    lowest: &[bool],
    tallied: &[bool],
) -> Result<Sites, NoMemory>
    requires flow { IsFlowGraph graph.now }
    requires edges { length sites.marks ≡ length graph.now.code.edges }
    ensures { IfOk result (λ s. (marked : ℕ → List Mark) → AreSitesBy graph.now marked sites →
        AreSitesBy graph.now (formed_where lowest.now tallied.now marked) s) }
{
    let marks = formed_marks(alloc, &sites, lowest, tallied)?;
    let jumps = all_jumps(alloc, graph, &marks)?;
    Ok(Sites { marks, jumps })
}

impl Sites {
    /// The extra weights: by edge, the cycles that it costs besides its own.
    pub fn extra_weights(
        &self,
        alloc: Global,
        graph: &CodeGraph,
        costs: &Costs,
    ) -> Result<Weights, NoMemory>
        requires { length self.now.marks ≡ length graph.now.code.edges }
        ensures size { IfOk result (λ w. length w ≡ length graph.now.code.edges) }
        ensures each { IfOk result (λ w. (e : ℕ) → e < length graph.now.code.edges →
            slice_index w e ≡ extra_of costs.now (slice_index self.now.jumps e) (marks_at_edge self.now e)) }
    {
        let mut weights = Vec::with_capacity(alloc, graph.edge_count())?;
        for e in 0..graph.edge_count() {
            weights.push(self.extra(e, costs))?;
        }
        Ok(Weights::from_vec(weights))
    }

    /// The stored weights: by edge, the cycles of its step and those that it costs besides.
    pub fn stored_weights(
        &self,
        alloc: Global,
        graph: &CodeGraph,
        costs: &Costs,
    ) -> Result<Weights, NoMemory>
        requires edges { length self.now.marks ≡ length graph.now.code.edges }
        requires classes { length graph.now.classes ≡ length graph.now.code.edges }
        ensures size { IfOk result (λ w. length w ≡ length graph.now.code.edges) }
        ensures each { IfOk result (λ w. (e : ℕ) → e < length graph.now.code.edges →
            slice_index w e ≡ slice_index (map (cost_of (cycles_of costs.now)) graph.now.classes) e + extra_of costs.now
            (slice_index self.now.jumps e) (marks_at_edge self.now e)) }
        ensures small { IfOk result (λ w. (e : ℕ) → e < length graph.now.code.edges → slice_index w e ≤ 4294967295) }
    {
        cost::small_costs(costs);
        let base = graph.base_weights(alloc, costs)?;
        let mut weights = Vec::with_capacity(alloc, graph.edge_count())?;
        for e in 0..graph.edge_count() {
            weights.push(*base.get(e) + self.extra(e, costs))?;
        }
        Ok(Weights::from_vec(weights))
    }
}
