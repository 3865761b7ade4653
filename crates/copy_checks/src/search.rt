//! Tables of copies: what is found here is shown by the checks, and nothing rests on it.

ghost use Rattle.std.specs.Prelude.{◌<◌, length};

use crate::tables::{CopyCode, CopyTable, Meant};
use flow_graph::CodeGraph;
use loop_file::LoopNote;
use scale_base::NoMemory;
use std::alloc::Global;

/// The body of a loop of a versioned image by the numbers of its nodes, the number of its header's node, and the note of the loop of the
/// original that it copies.
#[derive(Clone, Copy)]
pub struct CopyBody<'a> {
    pub body: &'a [usize],
    pub header: usize,
    pub old: &'a LoopNote,
}

/// Nodes that are marked, and those of them from which none was followed yet.
#[derive(Drop)]
struct Marked {
    marks: Vec<bool>,
    todo: Vec<usize>,
}

fn is_marked(marks: &[bool], k: usize) -> bool {
    k < marks.len() && marks[k]
}

// Marks a node, and says whether it wasn't marked.
fn mark(marks: &mut Vec<bool>, k: usize) -> bool {
    if k < marks.len() && !marks[k] {
        marks[k] = true;
        true
    } else {
        false
    }
}

fn is_extra(meant: &[Meant], k: usize) -> bool {
    k < meant.len() && meant[k].is_extra
}

fn stands_for(meant: &[Meant], k: usize, at: u32) -> bool {
    k < meant.len() && meant[k].text_at == at
}

impl Marked {
    fn push(&mut self, k: usize) -> Result<(), NoMemory> {
        if mark(&mut self.marks, k) {
            self.todo.push(k)?;
        }
        Ok(())
    }

    // The entry of what edge e calls.
    fn push_called(&mut self, graph: &CodeGraph, e: usize) -> Result<(), NoMemory>
        requires { e < length graph.now.code.edges }
    {
        let _nodes = graph.node_count();
        if let Some(f) = graph.callee(e) {
            self.push(graph.entry_node(f))?;
        }
        Ok(())
    }

    // Where edge e leads, too.
    fn push_along(&mut self, graph: &CodeGraph, e: usize) -> Result<(), NoMemory>
        requires { e < length graph.now.code.edges }
    {
        if let Some(n) = graph.target(e) {
            self.push(n)?;
        }
        self.push_called(graph, e)
    }

    // What follows a node.
    fn push_from(&mut self, graph: &CodeGraph, k: usize) -> Result<(), NoMemory> {
        if k >= graph.node_count() {
            return Ok(());
        }
        let (first, end) = graph.edges_of(k);
        for e in first..end {
            self.push_along(graph, e)?;
        }
        Ok(())
    }
}

fn marks_of(alloc: Global, count: usize, numbers: &[usize]) -> Result<Vec<bool>, NoMemory> {
    let mut marks = vec![in alloc; false; count]?;
    for k in numbers {
        mark(&mut marks, *k);
    }
    Ok(marks)
}

// What calls from a body reach.
fn quiet_of(alloc: Global, graph: &CodeGraph, body: &[bool]) -> Result<Vec<bool>, NoMemory> {
    let count = graph.node_count();
    let mut quiet = Marked {
        marks: vec![in alloc; false; count]?,
        todo: Vec::new(alloc),
    };
    for e in 0..graph.edge_count() {
        if is_marked(body, graph.source(e)) {
            quiet.push_called(graph, e)?;
        }
    }
    for _ in 0..count {
        let Some(k) = quiet.todo.pop() else {
            break;
        };
        quiet.push_from(graph, k)?;
    }
    Ok(quiet.marks)
}

// The node at which edge e starts, where the original has to be ahead there.
fn ahead_over(
    code: &CopyCode<'_>,
    copy: &CopyBody<'_>,
    body: &[bool],
    ahead: &[bool],
    e: usize,
) -> Option<usize>
    requires { e < length code.now.graph.now.code.edges }
{
    let k = code.graph.source(e);
    let n = code.graph.target(e)?;
    if !is_marked(body, k) || !is_marked(body, n) {
        return None;
    }
    let extra = is_extra(code.meant, k);
    if n == copy.header {
        return if extra { Some(k) } else { None };
    }
    if is_marked(ahead, n) && (extra || !stands_for(code.meant, n, copy.old.header)) {
        Some(k)
    } else {
        None
    }
}

// Marks where the original is ahead, over each edge once, and says whether anything was marked.
fn go_ahead(
    code: &CopyCode<'_>,
    copy: &CopyBody<'_>,
    body: &[bool],
    ahead: &mut Vec<bool>,
) -> bool {
    let mut changed = false;
    for e in 0..code.graph.edge_count() {
        if let Some(k) = ahead_over(code, copy, body, ahead, e) {
            if mark(ahead, k) {
                changed = true;
            }
        }
    }
    changed
}

/// A table for a loop that may be a copy.
pub fn copy_table(
    alloc: Global,
    code: &CopyCode<'_>,
    copy: &CopyBody<'_>,
) -> Result<CopyTable, NoMemory> {
    let count = code.graph.node_count();
    let body = marks_of(alloc, count, copy.body)?;
    let quiet = quiet_of(alloc, code.graph, &body)?;
    let mut ahead = vec![in alloc; false; count]?;
    for _ in 0..count {
        if !go_ahead(code, copy, &body, &mut ahead) {
            break;
        }
    }
    Ok(CopyTable { body, quiet, ahead })
}
