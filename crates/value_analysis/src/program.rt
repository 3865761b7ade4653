//! A program as the analysis walks it: its instructions and ways.

ghost use Rattle.std.specs.Prelude.{◌≡◌, Ok};
ghost use Rattle.scale_base.specs.Image.{image_of};

use crate::ways::{Way, WayKind, leads_on, way_of};
use code_text::instr_at;
use elf_image::ImageView;
use flow_graph::CodeGraph;
use scale_base::{Instr, NoMemory};
use std::alloc::Global;

/// A node: its address, its instruction, the number of its function, and its ways.
#[derive(Clone, Copy)]
pub struct Node {
    pub at: u32,
    pub instr: Instr,
    pub function: usize,
    /// The number of its first way, and one past that of its last.
    pub first: usize,
    pub end: usize,
}

/// A program's nodes and ways by number, with the last of the ways to each node, and the nodes at which its functions begin.
#[derive(Drop)]
pub struct Program {
    pub nodes: Vec<Node>,
    pub ways: Vec<Way>,
    pub entered: Vec<Option<usize>>,
    pub entries: Vec<usize>,
    /// By function, its last node, and by node the number of another one of its function.
    pub members: Vec<Option<usize>>,
    pub besides: Vec<Option<usize>>,
}

/// The instruction at an address. Where there is none, nothing goes on.
pub fn instr_or_end(view: &ImageView<'_>, at: u32) -> Instr {
    let _ranges = view.text();
    match instr_at(view, at) {
        Some(instr) => instr,
        None => Instr::Ebreak,
    }
}

fn nodes_of(alloc: Global, view: &ImageView<'_>, graph: &CodeGraph) -> Result<Vec<Node>, NoMemory> {
    let mut nodes = Vec::new(alloc);
    for k in 0..graph.node_count() {
        let at = graph.node(k);
        let (first, end) = graph.edges_of(k);
        nodes.push(Node {
            at,
            instr: instr_or_end(view, at),
            function: graph.owner(k),
            first,
            end,
        })?;
    }
    Ok(nodes)
}

fn ways_of(alloc: Global, graph: &CodeGraph) -> Result<Vec<Way>, NoMemory> {
    let mut ways = Vec::new(alloc);
    for e in 0..graph.edge_count() {
        ways.push(way_of(graph, e))?;
    }
    Ok(ways)
}

fn entries_of(alloc: Global, graph: &CodeGraph) -> Result<Vec<usize>, NoMemory> {
    let mut entries = Vec::new(alloc);
    for f in 0..graph.function_count() {
        entries.push(graph.entry_node(f))?;
    }
    Ok(entries)
}

// Puts each way beside the last one to its node, and answers the last of each node.
fn chain_ways(
    alloc: Global,
    ways: &mut [Way],
    count: usize,
) -> Result<Vec<Option<usize>>, NoMemory> {
    let mut entered = vec![in alloc; None; count]?;
    for w in 0..ways.len() {
        let way = ways[w];
        if leads_on(&way) && way.to < entered.len() {
            ways[w].beside = entered[way.to];
            entered[way.to] = Some(w);
        }
    }
    Ok(entered)
}

// By function its last node, and by node the one before of the same function.
fn chain_members(
    alloc: Global,
    nodes: &[Node],
    functions: usize,
) -> Result<(Vec<Option<usize>>, Vec<Option<usize>>), NoMemory> {
    let mut members = vec![in alloc; None; functions]?;
    let mut besides = Vec::new(alloc);
    for (k, node) in nodes.iter().enumerate() {
        let f = node.function;
        besides.push(members.get(f).copied().flatten())?;
        if f < members.len() {
            members[f] = Some(k);
        }
    }
    Ok((members, besides))
}

/// The nodes and ways of a graph.
pub fn read_program(
    alloc: Global,
    view: &ImageView<'_>,
    graph: &CodeGraph,
) -> Result<Program, NoMemory> {
    let nodes = nodes_of(alloc, view, graph)?;
    let mut ways = ways_of(alloc, graph)?;
    let entered = chain_ways(alloc, &mut ways, nodes.len())?;
    let entries = entries_of(alloc, graph)?;
    let (members, besides) = chain_members(alloc, &nodes, entries.len())?;
    Ok(Program {
        nodes,
        ways,
        entered,
        entries,
        members,
        besides,
    })
}

impl Program {
    /// The node of a number.
    pub fn node(&self, k: usize) -> Option<Node> {
        self.nodes.get(k).copied()
    }

    /// The way of a number.
    pub fn way(&self, w: usize) -> Option<Way> {
        self.ways.get(w).copied()
    }

    /// The node behind a node's instruction, by a step; a branch isn't taken.
    pub fn behind(&self, k: usize) -> Option<usize> {
        let node = self.node(k)?;
        let mut behind = None;
        for w in node.first..node.end {
            if let Some(way) = self.way(w) {
                if let WayKind::Step = way.kind {
                    behind = Some(way.to);
                }
            }
        }
        behind
    }

    /// The number of the last way to a node.
    pub fn last_way_to(&self, k: usize) -> Option<usize> {
        self.entered.get(k).copied().flatten()
    }

    /// The last node of a function.
    pub fn last_member_of(&self, f: usize) -> Option<usize> {
        self.members.get(f).copied().flatten()
    }

    /// The node before of the same function.
    pub fn member_beside(&self, k: usize) -> Option<usize> {
        self.besides.get(k).copied().flatten()
    }

    /// The node at which a function begins.
    pub fn entry(&self, f: usize) -> Option<usize> {
        self.entries.get(f).copied()
    }

    /// The node at which a run begins.
    pub fn start(&self) -> usize {
        self.entry(0).unwrap_or(0)
    }
}
