//! The strongly connected parts of a graph, by a depth-first search (Tarjan, SIAM Journal on Computing, 1972).

ghost use Rattle.std.specs.Prelude.{◌≡◌, ◌<◌, ◌≤◌, All, length, vec_len, IfOk, OnOk};
ghost use Rattle.loop_drafts.specs.Numbered.{AreNumbers};

use flow_graph::CodeGraph;
use scale_base::NoMemory;
use std::alloc::Global;

/// A step closes a node or goes past an edge, so that no search takes more.
const MOST_STEPS: usize = 131_072 + 262_144;

/// A search for the parts that edges connect both ways.
#[derive(Drop)]
struct PartSearch {
    /// By node, as which it was met, from 1 on. 0 where it wasn't.
    met: Vec<usize>,
    /// By node, the least of these numbers of the nodes that are known to be of its part.
    low: Vec<usize>,
    /// By node, its edge that is followed next.
    next: Vec<usize>,
    /// By node, whether its part is known.
    closed: Vec<bool>,
    /// By node, the one that was met first of its part.
    roots: Vec<usize>,
    /// The nodes that were met and whose part isn't known, in this order.
    waiting: Vec<usize>,
    /// From where the search began, each node with an edge to the next.
    path: Vec<usize>,
    /// How many nodes were met.
    count: usize,
    ghost low_size: { vec_len low ≡ vec_len met },
    ghost next_size: { vec_len next ≡ vec_len met },
    ghost closed_size: { vec_len closed ≡ vec_len met },
    ghost roots_are: { AreNumbers (vec_len met) (vec_len met) roots.items },
    ghost waiting_within: { All (λ v. v < vec_len met) waiting.items },
    ghost path_within: { All (λ v. v < vec_len met) path.items },
}

// The numbers below a count.
fn numbers_below(alloc: Global, count: usize) -> Result<Vec<usize>, NoMemory>
    ensures { IfOk result (λ numbers. AreNumbers count count numbers.items) }
{
    let mut numbers = Vec::new(alloc);
    for k in 0..count {
        numbers.push(k)?;
    }
    Ok(numbers)
}

impl PartSearch {
    fn new(alloc: Global, count: usize) -> Result<PartSearch, NoMemory>
        ensures { IfOk result (λ search. vec_len search.met ≡ count) }
    {
        Ok(PartSearch {
            met: vec![in alloc; 0; count]?,
            low: vec![in alloc; 0; count]?,
            next: vec![in alloc; 0; count]?,
            closed: vec![in alloc; false; count]?,
            roots: numbers_below(alloc, count)?,
            waiting: Vec::new(alloc),
            path: Vec::new(alloc),
            count: 0,
        })
    }

    // Puts a node that wasn't met at the end of the path.
    fn meet(&mut self, graph: &CodeGraph, node: usize) -> Result<(), NoMemory>
        requires size { vec_len self.old.met ≡ length graph.now.code.nodes }
        requires node { node < length graph.now.code.nodes }
        ensures { vec_len self.new.met ≡ vec_len self.old.met }
    {
        self.count = self.count.saturating_add(1);
        self.met[node] = self.count;
        self.low[node] = self.count;
        self.next[node] = graph.edges_of(node).0;
        self.waiting.push(node)?;
        self.path.push(node)?;
        Ok(())
    }

    // Goes over an edge from one node to another.
    fn follow(&mut self, graph: &CodeGraph, from: usize, to: usize) -> Result<(), NoMemory>
        requires size { vec_len self.old.met ≡ length graph.now.code.nodes }
        requires from { from < length graph.now.code.nodes }
        requires to { to < length graph.now.code.nodes }
        ensures { vec_len self.new.met ≡ vec_len self.old.met }
    {
        if self.met[to] == 0 {
            return self.meet(graph, to);
        }
        if !self.closed[to] {
            self.low[from] = self.low[from].min(self.met[to]);
        }
        Ok(())
    }

    // Closes the part of the node that was met first of it: the nodes that wait from it on.
    fn close(&mut self, root: usize)
        requires { root < vec_len self.old.met }
        ensures { vec_len self.new.met ≡ vec_len self.old.met }
    {
        while let Some(node) = self.waiting.pop() {
            self.closed[node] = true;
            self.roots[node] = root;
            if node == root {
                return;
            }
        }
    }

    // Ends a node that was taken from the path: what is known of its part, the node before it knows too.
    fn finish(&mut self, node: usize)
        requires { node < vec_len self.old.met }
        ensures { vec_len self.new.met ≡ vec_len self.old.met }
    {
        if let Some(before) = self.path.last() {
            let before = *before;
            self.low[before] = self.low[before].min(self.low[node]);
        }
        if self.low[node] == self.met[node] {
            self.close(node);
        }
    }

    // One step from the end of the path: over an edge that is kept, past one that isn't, or back.
    fn step(&mut self, graph: &CodeGraph, kept: &[bool]) -> Result<(), NoMemory>
        requires size { vec_len self.old.met ≡ length graph.now.code.nodes }
        requires kept { length kept.now ≡ length graph.now.code.edges }
        ensures { vec_len self.new.met ≡ vec_len self.old.met }
    {
        let Some(node) = self.path.pop() else {
            return Ok(());
        };
        let edge = self.next[node];
        if edge >= graph.edges_of(node).1 {
            self.finish(node);
            return Ok(());
        }
        self.next[node] = edge + 1;
        self.path.push(node)?;
        match graph.target(edge) {
            Some(to) if kept[edge] => self.follow(graph, node, to),
            _ => Ok(()),
        }
    }

    // Finds the parts of all nodes to which kept edges lead from one.
    fn search_from(&mut self, graph: &CodeGraph, kept: &[bool], root: usize) -> Result<(), NoMemory>
        requires size { vec_len self.old.met ≡ length graph.now.code.nodes }
        requires kept { length kept.now ≡ length graph.now.code.edges }
        requires root { root < length graph.now.code.nodes }
        ensures { vec_len self.new.met ≡ vec_len self.old.met }
    {
        self.meet(graph, root)?;
        for _ in 0..MOST_STEPS {
            if self.path.is_empty() {
                break;
            }
            self.step(graph, kept)?;
        }
        Ok(())
    }
}

/// By node, the node that stands for its part: those to which kept edges lead from it and back.
pub fn parts_of(alloc: Global, graph: &CodeGraph, kept: &[bool]) -> Result<Vec<usize>, NoMemory>
    requires { length kept.now ≡ length graph.now.code.edges }
    ensures { IfOk result (λ roots. AreNumbers (length graph.now.code.nodes) (length graph.now.code.nodes) roots.items) }
{
    let mut search = PartSearch::new(alloc, graph.node_count())?;
    for root in 0..graph.node_count() {
        if search.met[root] == 0 {
            search.search_from(graph, kept, root)?;
        }
    }
    Ok(search.roots)
}
