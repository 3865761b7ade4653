//! The edges of the nodes, and the classes of their steps.

ghost use Rattle.std.specs.Prelude.{◌≡◌, ◌↔◌, ◌<◌, ◌≤◌, ◌+◌, ◌*◌, ◌^◌, ◌++◌, ℕ, true, length, map, slice_get, slice_index, Some, Option, Ok, OnOk, IfOk};
ghost use Rattle.scale_base.specs.Image.{image_of, is_word_address};
ghost use Rattle.cost_theory.specs.Reached as reached;
ghost use Rattle.code_text.specs.Text.{text_of};
ghost use Rattle.code_text.specs.EdgeCosts as costs;
ghost use Rattle.scale_base.specs.declared.edges.Edge.{Edge};
ghost use Rattle.code_graph.specs.Assembling.{flag_at, listed, AreEdgesOf};
ghost use Rattle.flow_graph.specs.Stored.{AreFirsts};

use cost_theory::Flow;
use elf_image::ImageView;
use rv_decode::{class_of, decode};
use scale_base::{Class, Edge, EdgeKind, Instr, NoMemory};
use std::alloc::Global;

/// Edges in the order of their nodes.
#[derive(Drop)]
pub struct EdgeLists {
    pub edges: Vec<Edge>,
    /// By node the number of its first edge, and at last how many edges there are.
    pub firsts: Vec<usize>,
}

fn edge(at: u32, kind: EdgeKind, to: u32) -> Edge
    ensures { result ≡ record { at = at; kind = kind; to = to } }
{
    Edge { at, kind, to }
}

fn end(at: u32) -> Edge
    ensures { result ≡ record { at = at; kind = EdgeKind.End; to = at } }
{
    edge(at, EdgeKind::End, at)
}

/// The first edge of a node. A refused word has none.
fn first_edge(at: u32, word: Flow, returns: bool) -> Option<Edge>
    requires { at + 4 < 2 ^ 32 }
    ensures { result ≡ slice_get (reached.edges_of word at returns) 0 }
{
    match word {
        Flow::Branch(to) => Some(edge(at, EdgeKind::Taken, to)),
        Flow::Jump(to) => Some(edge(at, EdgeKind::Jump, to)),
        Flow::Call(_) if returns => Some(edge(at, EdgeKind::CallNext, at + 4)),
        Flow::MayExit | Flow::Next => Some(edge(at, EdgeKind::Next, at + 4)),
        Flow::Call(_) | Flow::Return | Flow::Exit | Flow::Breakpoint => Some(end(at)),
        Flow::Refused => None,
    }
}

/// The second edge of a node, if it has one.
fn second_edge(at: u32, word: Flow, returns: bool) -> Option<Edge>
    requires { at + 4 < 2 ^ 32 }
    ensures { result ≡ slice_get (reached.edges_of word at returns) 1 }
{
    match word {
        Flow::Branch(_) => Some(edge(at, EdgeKind::Untaken, at + 4)),
        Flow::Call(_) if returns => Some(end(at)),
        Flow::MayExit => Some(end(at)),
        _ => None,
    }
}

/// Puts an edge behind the others, if there is one.
fn add_some(edges: &mut Vec<Edge>, edge: Option<Edge>) -> Result<(), NoMemory>
    ensures { OnOk result (edges.new.items ≡ edges.old.items ++ listed edge) }
{
    if let Some(edge) = edge {
        edges.push(edge)?;
    }
    Ok(())
}

/// Puts the edges of a node behind the others.
fn add_edges(edges: &mut Vec<Edge>, at: u32, word: Flow, returns: bool) -> Result<(), NoMemory>
    requires { at + 4 < 2 ^ 32 }
    ensures { OnOk result (edges.new.items ≡ edges.old.items ++ reached.edges_of word at returns) }
{
    add_some(edges, first_edge(at, word, returns))?;
    add_some(edges, second_edge(at, word, returns))?;
    Ok(())
}

/// Whether the function that is called returns.
fn comes_back(callee: Option<usize>, returning: &[bool]) -> bool
    requires { (f : ℕ) → callee ≡ Some f → f < length returning.now }
    ensures { result ≡ flag_at returning.now callee }
{
    match callee {
        Some(f) => returning[f],
        None => false,
    }
}

/// The edges of nodes, by what their words say of the way on and by the functions that they call.
pub fn edges_of(
    alloc: Global,
    nodes: &[u32],
    kinds: &[Flow],
    callees: &[Option<usize>],
    returning: &[bool],
) -> Result<EdgeLists, NoMemory>
    requires kinds { length kinds.now ≡ length nodes.now }
    requires callees { length callees.now ≡ length nodes.now }
    requires low { (k : ℕ) → k < length nodes.now → slice_index nodes.now k + 4 < 2 ^ 32 }
    requires functions { (k f : ℕ) → slice_get callees.now k ≡ Some (Some f) → f < length returning.now }
    ensures edges { IfOk result (λ lists. AreEdgesOf (length nodes.now) nodes.now kinds.now callees.now returning.now lists.edges.items) }
    ensures firsts { IfOk result (λ lists. AreFirsts (length nodes.now) nodes.now lists.edges.items lists.firsts.items) }
    ensures few { IfOk result (λ lists. length lists.edges.items ≤ 2 * length nodes.now) }
{
    let mut edges = Vec::new(alloc);
    let mut firsts = Vec::new(alloc);
    firsts.push(0)?;
    for k in 0..nodes.len() {
        let returns = comes_back(callees[k], returning);
        add_edges(&mut edges, nodes[k], kinds[k], returns)?;
        firsts.push(edges.len())?;
    }
    Ok(EdgeLists { edges, firsts })
}

/// The class of the step over an edge of a kind. An EBREAK's step isn't completed.
fn class_by(instr: Option<Instr>, kind: EdgeKind) -> Option<Class>
    ensures { result ≡ costs.class_by instr kind }
{
    match instr {
        None | Some(Instr::Ebreak) => None,
        Some(instr) => Some(class_of(&instr, matches!(kind, EdgeKind::Taken))),
    }
}

/// The class of the step over an edge.
fn edge_class(view: &ImageView<'_>, edge: &Edge) -> Option<Class>
    requires image { image_of view.now.file ≡ Ok view.now }
    requires word { is_word_address view.now edge.now.at ≡ true }
    ensures { result ≡ costs.edge_class (text_of view.now) (Some edge.now) }
{
    match view.word_at(edge.at) {
        Some(word) => class_by(decode(word), edge.kind),
        None => None,
    }
}

/// The classes of the steps over edges.
pub fn classes_of(
    alloc: Global,
    view: &ImageView<'_>,
    edges: &[Edge],
) -> Result<Vec<Option<Class>>, NoMemory>
    requires image { image_of view.now.file ≡ Ok view.now }
    requires words { (e : ℕ) (edge : Edge) → slice_get edges.now e ≡ Some edge → is_word_address view.now edge.at ≡ true }
    ensures { IfOk result (λ classes. classes.items ≡ map (λ e. costs.edge_class (text_of view.now) (Some e)) edges.now) }
{
    let mut classes = Vec::new(alloc);
    for edge in edges {
        classes.push(edge_class(view, edge))?;
    }
    Ok(classes)
}
