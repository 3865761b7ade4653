//! The ways of a program, by the numbers of its edges.

ghost use Rattle.std.specs.Prelude.{◌<◌, length};

use flow_graph::CodeGraph;

/// What goes over an edge.
#[derive(Clone, Copy)]
pub enum WayKind {
    /// An instruction that is no call.
    Step,
    /// A call of a function.
    Call(usize),
    /// From a call to what stands behind it, by the function that is called.
    Back(usize),
    /// From a return out of a function.
    Return(usize),
    /// An end of the run.
    End,
}

/// A way from a node to another.
#[derive(Clone, Copy)]
pub struct Way {
    pub from: usize,
    pub to: usize,
    pub kind: WayKind,
    /// The number of another way to the same node.
    pub beside: Option<usize>,
}

fn one_way(from: usize, to: usize, kind: WayKind) -> Way {
    Way {
        from,
        to,
        kind,
        beside: None,
    }
}

// The way of a call's edge.
fn call_way(graph: &CodeGraph, e: usize, f: usize) -> Way
    requires { e < length graph.now.code.edges }
{
    let from = graph.source(e);
    if f >= graph.function_count() {
        return one_way(from, from, WayKind::End);
    }
    match graph.target(e) {
        Some(to) => one_way(from, to, WayKind::Back(f)),
        None => one_way(from, graph.entry_node(f), WayKind::Call(f)),
    }
}

// The way of another edge.
fn plain_way(graph: &CodeGraph, e: usize) -> Way
    requires { e < length graph.now.code.edges }
{
    let from = graph.source(e);
    match graph.target(e) {
        Some(to) => one_way(from, to, WayKind::Step),
        None => {
            let _nodes = graph.node_count();
            if graph.is_return(e) {
                one_way(from, from, WayKind::Return(graph.owner(from)))
            } else {
                one_way(from, from, WayKind::End)
            }
        }
    }
}

/// The way of an edge.
pub fn way_of(graph: &CodeGraph, e: usize) -> Way
    requires { e < length graph.now.code.edges }
{
    match graph.callee(e) {
        Some(f) => call_way(graph, e, f),
        None => plain_way(graph, e),
    }
}

/// Whether a way leads to the node where it says so.
pub fn leads_on(way: &Way) -> bool {
    match way.kind {
        WayKind::Step | WayKind::Call(_) | WayKind::Back(_) => true,
        WayKind::Return(_) | WayKind::End => false,
    }
}
