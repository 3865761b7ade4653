//! The levels of nesting: at each one the parts that turn without the edges into the headers of the levels before.

ghost use Rattle.std.specs.Prelude.{◌≡◌, ◌<◌, All, length, vec_len, IfOk, IfSome};
ghost use Rattle.graph_algorithms.specs.Keys.{AreChains};
ghost use Rattle.loop_drafts.specs.Numbered.{AreNumbers, some_numbers};

use crate::found::{AsidePart, FoundLoop, FoundLoops};
use crate::search::entries::{entered_nodes, turning_parts};
use crate::search::gaps::filled_ranges;
use crate::search::parts::parts_of;
use crate::search::spans::{places_of, spans_of};
use flow_graph::CodeGraph;
use graph_algorithms::{Chains, find_chains};
use scale_base::NoMemory;
use std::alloc::Global;

/// The parts of a level.
#[derive(Clone, Copy)]
struct Level<'a> {
    /// By node, the one that stands for its part.
    roots: &'a [usize],
    /// By node, whether it is entered from outside its part.
    entered: &'a [bool],
    /// How many loops are round a node of a loop of it.
    depth: usize,
}

/// What is found down to a level.
#[derive(Drop)]
pub struct Levels<'a> {
    graph: &'a CodeGraph,
    /// By edge, whether it is one of the next level.
    kept: Vec<bool>,
    /// By node, its place among the nodes of its function.
    places: Vec<usize>,
    /// By node, the header of the least loop round it.
    outer: Vec<Option<u32>>,
    loops: Vec<FoundLoop>,
    aside: Vec<AsidePart>,
    ghost kept_size: { vec_len kept ≡ length graph.now.code.edges },
    ghost places_size: { vec_len places ≡ length graph.now.code.nodes },
    ghost outer_size: { vec_len outer ≡ length graph.now.code.nodes },
}

// The node that stands for its part, as a key of each node.
fn keys_of(alloc: Global, roots: &[usize]) -> Result<Vec<Option<usize>>, NoMemory>
    ensures { IfOk result (λ keys. keys.items ≡ some_numbers roots.now) }
{
    Ok(roots.iter().map(|root| Some(*root)).collect(alloc)?)
}

// The nodes of each part, as chains.
fn chains_of(alloc: Global, roots: &[usize], count: usize) -> Result<Chains, NoMemory>
    requires { AreNumbers count count roots.now }
    ensures { IfOk result (λ chains. AreChains (some_numbers roots.now) count chains) }
{
    let keys = keys_of(alloc, roots)?;
    find_chains(alloc, &keys, count)
}

// The nodes of a part, ascending.
fn body_of(
    alloc: Global,
    chains: &Chains,
    roots: &[usize],
    root: usize,
) -> Result<Vec<usize>, NoMemory>
    requires chains { AreChains (some_numbers roots.now) (length roots.now) chains.now }
    requires root { root < length roots.now }
    ensures { IfOk result (λ body. All (λ v. v < length roots.now) body.items) }
{
    let mut body = Vec::new(alloc);
    let mut node = chains.last(root);
    while let Some(k) = node {
        body.push(k)?;
        node = chains.before(k);
    }
    body.reverse();
    Ok(body)
}

// The nodes of a body at which it is entered.
fn entries_of(alloc: Global, entered: &[bool], body: &[usize]) -> Result<Vec<usize>, NoMemory>
    requires { All (λ v. v < length entered.now) body.now }
    ensures { IfOk result (λ entries. All (λ v. v < length entered.now) entries.items) }
{
    let mut entries = Vec::new(alloc);
    for node in body {
        if entered[*node] {
            entries.push(*node)?;
        }
    }
    Ok(entries)
}

// Whether an edge is one of the level within the loops of a level, by the headers of these.
fn is_within(graph: &CodeGraph, roots: &[usize], heads: &[Option<usize>], edge: usize) -> bool
    requires roots { AreNumbers (length graph.now.code.nodes) (length graph.now.code.nodes) roots.now }
    requires heads { length heads.now ≡ length graph.now.code.nodes }
    requires edge { edge < length graph.now.code.edges }
{
    let Some(to) = graph.target(edge) else {
        return false;
    };
    let root = roots[to];
    match heads[root] {
        Some(header) => roots[graph.source(edge)] == root && to != header,
        None => false,
    }
}

// Keeps the edges of the level within the loops of a level.
fn keep_within(kept: &mut [bool], graph: &CodeGraph, roots: &[usize], heads: &[Option<usize>])
    requires kept { length kept.old ≡ length graph.now.code.edges }
    requires roots { AreNumbers (length graph.now.code.nodes) (length graph.now.code.nodes) roots.now }
    requires heads { length heads.now ≡ length graph.now.code.nodes }
{
    for edge in 0..graph.edge_count() {
        kept[edge] = kept[edge] && is_within(graph, roots, heads, edge);
    }
}

// Writes a header at each node of its loop's body.
fn put_header(outer: &mut [Option<u32>], body: &[usize], at: u32)
    requires { All (λ v. v < length outer.old) body.now }
    ensures { length outer.new ≡ length outer.old }
{
    for node in body {
        outer[*node] = Some(at);
    }
}

impl<'a> Levels<'a> {
    /// Nothing is found yet.
    pub fn new(alloc: Global, graph: &'a CodeGraph) -> Result<Levels<'a>, NoMemory> {
        Ok(Levels {
            graph,
            kept: vec![in alloc; true; graph.edge_count()]?,
            places: places_of(alloc, graph)?,
            outer: vec![in alloc; None; graph.node_count()]?,
            loops: Vec::new(alloc),
            aside: Vec::new(alloc),
        })
    }

    // Adds the loop of a body.
    fn add_loop(
        &mut self,
        alloc: Global,
        level: &Level<'_>,
        header: usize,
        body: &[usize],
    ) -> Result<(), NoMemory>
        requires roots { AreNumbers (length self.old.graph.now.code.nodes) (length self.old.graph.now.code.nodes) level.now.roots.now }
        requires header { header < length self.old.graph.now.code.nodes }
        requires body { All (λ v. v < length self.old.graph.now.code.nodes) body.now }
        ensures { self.new.graph.now ≡ self.old.graph.now }
    {
        let spans = spans_of(alloc, &self.places, body)?;
        let ranges = filled_ranges(alloc, self.graph, level.roots, &spans)?;
        let at = self.graph.node(header);
        self.loops.push(FoundLoop {
            header: at,
            parent: self.outer[header],
            depth: level.depth,
            ranges,
        })?;
        put_header(&mut self.outer, body, at);
        Ok(())
    }

    // Adds a part that is entered at several nodes.
    fn add_aside(&mut self, alloc: Global, entries: &[usize]) -> Result<(), NoMemory>
        requires { All (λ v. v < length self.old.graph.now.code.nodes) entries.now }
        ensures { self.new.graph.now ≡ self.old.graph.now }
    {
        let mut addresses = Vec::new(alloc);
        for entry in entries {
            addresses.push(self.graph.node(*entry))?;
        }
        self.aside.push(AsidePart { entries: addresses })?;
        Ok(())
    }

    // Adds a part that turns: its header, where it is a loop.
    fn add_part(
        &mut self,
        alloc: Global,
        level: &Level<'_>,
        body: &[usize],
    ) -> Result<Option<usize>, NoMemory>
        requires roots { AreNumbers (length self.old.graph.now.code.nodes) (length self.old.graph.now.code.nodes) level.now.roots.now }
        requires entered { length level.now.entered.now ≡ length self.old.graph.now.code.nodes }
        requires body { All (λ v. v < length self.old.graph.now.code.nodes) body.now }
        ensures { self.new.graph.now ≡ self.old.graph.now }
    {
        let entries = entries_of(alloc, level.entered, body)?;
        if entries.len() == 1 {
            let header = entries[0];
            self.add_loop(alloc, level, header, body)?;
            return Ok(Some(header));
        }
        self.add_aside(alloc, &entries)?;
        Ok(None)
    }

    /// Adds the loops of the next level, which are nested so deep. Whether there are any.
    pub fn add_level(&mut self, alloc: Global, depth: usize) -> Result<bool, NoMemory> {
        let graph = self.graph;
        let count = graph.node_count();
        let roots = parts_of(alloc, graph, &self.kept)?;
        let turning = turning_parts(alloc, graph, &self.kept, &roots)?;
        let entered = entered_nodes(alloc, graph, &roots)?;
        let chains = chains_of(alloc, &roots, count)?;
        let level = Level {
            roots: &roots,
            entered: &entered,
            depth,
        };
        let mut heads = vec![in alloc; None; count]?;
        for root in 0..count {
            if turning[root] {
                let body = body_of(alloc, &chains, &roots, root)?;
                heads[root] = self.add_part(alloc, &level, &body)?;
            }
        }
        keep_within(&mut self.kept, graph, &roots, &heads);
        Ok(heads.iter().any(|head| head.is_some()))
    }

    /// What is found, ascending by addresses.
    pub fn into_found(self) -> Result<FoundLoops, NoMemory> {
        let mut loops = self.loops;
        let mut aside = self.aside;
        loops.sort_by(|a, b| a.header.cmp(&b.header))?;
        aside.sort_by(|a, b| a.entries.first().cmp(&b.entries.first()))?;
        Ok(FoundLoops { loops, aside })
    }
}
