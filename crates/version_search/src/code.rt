//! The code and the loops that are searched.

ghost use Rattle.std.specs.Prelude.{◌≡◌, ◌<◌, length, Ok};
ghost use Rattle.scale_base.specs.Image.{image_of};

use code_text::instr_at;
use elf_image::ImageView;
use flow_graph::CodeGraph;
use loop_forest::LoopTree;
use scale_base::{Edge, Instr, NoMemory};
use std::alloc::Global;

/// An image, its graph and its loops, if these are known; by node, how many loops are round it, how many edges lead to it, and the innermost loop round it; by
/// function, its nodes; and the nodes that end the program.
#[derive(Drop)]
pub struct Code<'a> {
    pub view: &'a ImageView<'a>,
    graph: &'a CodeGraph,
    tree: Option<&'a LoopTree>,
    depths: Vec<u32>,
    arrivals: Vec<u32>,
    innermost: Vec<Option<usize>>,
    functions: Vec<Vec<usize>>,
    exits: Vec<usize>,
}

// The instruction at an address. Where there is none, nothing goes on.
fn instr_or_end(view: &ImageView<'_>, at: u32) -> Instr {
    let _ranges = view.text();
    match instr_at(view, at) {
        Some(instr) => instr,
        None => Instr::Ebreak,
    }
}

// By node, how many loops are round it.
fn depths_of(
    alloc: Global,
    graph: &CodeGraph,
    tree: Option<&LoopTree>,
) -> Result<Vec<u32>, NoMemory> {
    let mut depths = vec![in alloc; 0; graph.node_count()]?;
    let Some(tree) = tree else {
        return Ok(depths);
    };
    for l in 0..tree.loop_count() {
        add_body(&mut depths, tree.body(l));
    }
    Ok(depths)
}

// By node, how many edges lead to it.
fn arrivals_of(alloc: Global, graph: &CodeGraph) -> Result<Vec<u32>, NoMemory> {
    let mut arrivals = vec![in alloc; 0; graph.node_count()]?;
    for target in graph.targets() {
        if let Some(k) = target {
            add_arrival(&mut arrivals, *k);
        }
    }
    Ok(arrivals)
}

fn add_arrival(arrivals: &mut [u32], k: usize) {
    if k < arrivals.len() {
        arrivals[k] = arrivals[k].saturating_add(1);
    }
}

// By node, the innermost loop round it: that with the fewest nodes.
fn innermost_of(
    alloc: Global,
    graph: &CodeGraph,
    tree: Option<&LoopTree>,
) -> Result<Vec<Option<usize>>, NoMemory> {
    let mut lens = vec![in alloc; usize::MAX; graph.node_count()]?;
    let mut innermost = vec![in alloc; None; graph.node_count()]?;
    let Some(tree) = tree else {
        return Ok(innermost);
    };
    for l in 0..tree.loop_count() {
        for k in tree.body(l) {
            note_loop(&mut innermost, &mut lens, *k, l, tree.body(l).len());
        }
    }
    Ok(innermost)
}

fn note_loop(innermost: &mut [Option<usize>], lens: &mut [usize], k: usize, l: usize, len: usize) {
    if k < innermost.len() && k < lens.len() && len < lens[k] {
        lens[k] = len;
        innermost[k] = Some(l);
    }
}

// By function, its nodes, ascending.
fn nodes_of(alloc: Global, graph: &CodeGraph) -> Result<Vec<Vec<usize>>, NoMemory> {
    let mut functions = Vec::new(alloc);
    for _ in 0..graph.function_count() {
        functions.push(Vec::new(alloc))?;
    }
    for k in 0..graph.node_count() {
        add_node(&mut functions, graph.owner(k), k)?;
    }
    Ok(functions)
}

fn add_node(functions: &mut [Vec<usize>], f: usize, k: usize) -> Result<(), NoMemory> {
    if f < functions.len() {
        functions[f].push(k)?;
    }
    Ok(())
}

fn add_body(depths: &mut [u32], body: &[usize]) {
    for k in body {
        if *k < depths.len() {
            depths[*k] = depths[*k].saturating_add(1);
        }
    }
}

impl<'a> Code<'a> {
    pub fn new(
        alloc: Global,
        view: &'a ImageView<'a>,
        graph: &'a CodeGraph,
        tree: Option<&'a LoopTree>,
    ) -> Result<Code<'a>, NoMemory> {
        let depths = depths_of(alloc, graph, tree)?;
        let arrivals = arrivals_of(alloc, graph)?;
        let innermost = innermost_of(alloc, graph, tree)?;
        let functions = nodes_of(alloc, graph)?;
        let mut code = Code {
            view,
            graph,
            tree,
            depths,
            arrivals,
            innermost,
            functions,
            exits: Vec::new(alloc),
        };
        code.find_exits()?;
        Ok(code)
    }

    fn find_exits(&mut self) -> Result<(), NoMemory> {
        for k in 0..self.node_count() {
            if self.is_exit(k) {
                self.exits.push(k)?;
            }
        }
        Ok(())
    }

    /// The nodes that end the program.
    pub fn exits(&self) -> &[usize] {
        &self.exits
    }

    pub fn loop_count(&self) -> usize {
        match self.tree {
            Some(tree) => tree.loop_count(),
            None => 0,
        }
    }

    pub fn function_count(&self) -> usize {
        self.functions.len()
    }

    pub fn node_count(&self) -> usize {
        self.graph.node_count()
    }

    /// The functions, each behind those that it calls.
    pub fn call_order(&self) -> &'a [usize] {
        let graph = self.graph;
        graph.call_order()
    }

    /// The nodes of a function, ascending.
    pub fn function_nodes(&self, f: usize) -> &[usize] {
        match self.functions.get(f) {
            Some(nodes) => nodes,
            None => &[],
        }
    }

    /// The function that a node calls.
    pub fn callee(&self, k: usize) -> Option<usize> {
        if k >= self.graph.node_count() {
            return None;
        }
        let (first, _) = self.graph.edges_of(k);
        self.graph.callee(first)
    }

    /// The nodes that may run behind a node, of its own function.
    pub fn next_nodes(&self, k: usize) -> [Option<usize>; 2] {
        if k >= self.graph.node_count() {
            return [None, None];
        }
        let (first, end) = self.graph.edges_of(k);
        let second = first.saturating_add(1);
        let other = if second < end {
            self.target(second)
        } else {
            None
        };
        [self.target(first), other]
    }

    // Whether a node ends the program.
    fn is_exit(&self, k: usize) -> bool {
        matches!(self.instr(k), Instr::Ecall) && matches!(self.next_nodes(k), [None, None])
    }

    /// Whether an address is that of a word of the text.
    pub fn is_text(&self, at: u32) -> bool {
        self.view.is_text_word(at)
    }

    /// Whether one edge alone leads to a node.
    pub fn is_alone(&self, k: usize) -> bool {
        self.arrivals.get(k) == Some(&1)
    }

    /// The innermost loop round a node.
    pub fn innermost(&self, k: usize) -> Option<usize> {
        self.innermost.get(k).copied().flatten()
    }

    /// The nodes of a loop, ascending.
    pub fn body(&self, l: usize) -> &'a [usize] {
        match self.tree {
            Some(tree) if l < tree.loop_count() => tree.body(l),
            _ => &[],
        }
    }

    /// How many back edges an entry of a loop may take.
    pub fn bound(&self, l: usize) -> u32 {
        match self.tree {
            Some(tree) if l < tree.loop_count() => tree.bound(l),
            _ => 0,
        }
    }

    /// The loop round a loop.
    pub fn parent(&self, l: usize) -> Option<usize> {
        match self.tree {
            Some(tree) if l < tree.loop_count() => tree.parent(l),
            _ => None,
        }
    }

    pub fn is_in_body(&self, l: usize, k: usize) -> bool {
        match self.tree {
            Some(tree) => l < tree.loop_count() && tree.in_body(l, k),
            None => false,
        }
    }

    /// The node of a loop's header.
    pub fn header(&self, l: usize) -> usize {
        match self.tree {
            Some(tree) if l < tree.loop_count() => tree.header(l),
            _ => 0,
        }
    }

    /// The address of a loop's header.
    pub fn header_at(&self, l: usize) -> u32 {
        self.address(self.header(l))
    }

    /// Whether a node of a loop is in none of the loops within it.
    pub fn is_outermost(&self, l: usize, k: usize) -> bool {
        self.depths.get(k) == self.depths.get(self.header(l))
    }

    /// The address of a node.
    pub fn address(&self, k: usize) -> u32 {
        if k < self.graph.node_count() {
            self.graph.node(k)
        } else {
            0
        }
    }

    /// The node at an address.
    pub fn find(&self, at: u32) -> Option<usize> {
        self.graph.find(at)
    }

    /// The node in front of a node, if each way to the latter leads over it, and calls nothing.
    pub fn before(&self, k: usize) -> Option<usize> {
        let before = k.checked_sub(1)?;
        let follows = self.address(before).wrapping_add(4) == self.address(k);
        let leads = !matches!(self.instr(before), Instr::Jal { .. } | Instr::Jalr { .. });
        if follows && leads && self.is_alone(k) {
            Some(before)
        } else {
            None
        }
    }

    /// The instruction of a node.
    pub fn instr(&self, k: usize) -> Instr {
        self.instr_at(self.address(k))
    }

    /// The instruction at an address.
    pub fn instr_at(&self, at: u32) -> Instr {
        instr_or_end(self.view, at)
    }

    // The node to which an edge leads.
    fn target(&self, e: usize) -> Option<usize> {
        if e < self.graph.edge_count() {
            self.graph.target(e)
        } else {
            None
        }
    }

    /// Whether one of the two ways of a node leads out of a loop, and one doesn't.
    pub fn leaves_by_one(&self, l: usize, k: usize) -> bool {
        if k >= self.graph.node_count() {
            return false;
        }
        let (first, _) = self.graph.edges_of(k);
        match (self.target(first), self.target(first.saturating_add(1))) {
            (Some(one), Some(other)) => self.is_in_body(l, one) != self.is_in_body(l, other),
            _ => false,
        }
    }

    pub fn edge_count(&self) -> usize {
        self.graph.edge_count()
    }

    /// From which node to which one an edge leads, of one function.
    pub fn edge_ends(&self, e: usize) -> Option<(usize, usize)> {
        let to = self.target(e)?;
        if e < self.graph.edge_count() {
            Some((self.graph.source(e), to))
        } else {
            None
        }
    }

    /// Whether a function begins at a node.
    pub fn is_begin(&self, k: usize) -> bool {
        if k >= self.graph.node_count() {
            return false;
        }
        let f = self.graph.owner(k);
        f < self.graph.function_count() && self.graph.entry_node(f) == k
    }

    /// An edge that leads from outside a loop to its header.
    pub fn entering(&self, l: usize, e: usize) -> Option<Edge> {
        if e >= self.graph.edge_count() || self.target(e) != Some(self.header(l)) {
            return None;
        }
        if self.is_in_body(l, self.graph.source(e)) {
            return None;
        }
        Some(self.graph.edge(e))
    }
}
