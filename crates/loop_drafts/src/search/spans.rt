//! Where the body of a loop lies.

ghost use Rattle.std.specs.Prelude.{◌≡◌, ◌<◌, All, length, vec_len, IfOk, IfSome, OnOk};
ghost use Rattle.loop_drafts.specs.Spans.{IsSpan};

use flow_graph::CodeGraph;
use scale_base::{NoMemory, Range};
use std::alloc::Global;

/// The nodes from one up to another, both of them in it.
#[derive(Clone, Copy, Drop)]
pub struct Span {
    pub first: usize,
    pub last: usize,
}

/// By node, its place among the nodes of its function.
pub fn places_of(alloc: Global, graph: &CodeGraph) -> Result<Vec<usize>, NoMemory>
    ensures { IfOk result (λ places. vec_len places ≡ length graph.now.code.nodes) }
{
    let mut counts: Vec<usize> = vec![in alloc; 0; graph.function_count()]?;
    let mut places = Vec::new(alloc);
    for node in 0..graph.node_count() {
        let function = graph.owner(node);
        let place = counts[function];
        places.push(place)?;
        counts[function] = place.saturating_add(1);
    }
    Ok(places)
}

// The span with the next node of a body, where no other node of its function lies between.
fn longer(places: &[usize], span: Span, node: usize) -> Option<Span>
    requires span { IsSpan (length places.now) span }
    requires node { node < length places.now }
    ensures { IfSome result (IsSpan (length places.now)) }
{
    if places[span.last].saturating_add(1) != places[node] {
        return None;
    }
    Some(Span {
        first: span.first,
        last: node,
    })
}

// The span of a node.
fn span_of(node: usize) -> Span
    ensures { (result.first ≡ node) × (result.last ≡ node) }
{
    Span {
        first: node,
        last: node,
    }
}

// Adds the next node of a body to its spans.
fn add_node(spans: &mut Vec<Span>, places: &[usize], node: usize) -> Result<(), NoMemory>
    requires spans { All (IsSpan (length places.now)) spans.old.items }
    requires node { node < length places.now }
    ensures { OnOk result (All (IsSpan (length places.now)) spans.new.items) }
{
    let mut next = span_of(node);
    if let Some(span) = spans.pop() {
        match longer(places, span, node) {
            Some(longer) => next = longer,
            None => spans.push(span)?,
        }
    }
    spans.push(next)?;
    Ok(())
}

/// The spans of a body, whose nodes ascend: joined wherever no other node of the function lies between.
pub fn spans_of(alloc: Global, places: &[usize], body: &[usize]) -> Result<Vec<Span>, NoMemory>
    requires { All (λ v. v < length places.now) body.now }
    ensures { IfOk result (λ spans. All (IsSpan (length places.now)) spans.items) }
{
    let mut spans = Vec::new(alloc);
    for node in body {
        add_node(&mut spans, places, *node)?;
    }
    Ok(spans)
}

/// The addresses of spans.
pub fn ranges_of(alloc: Global, graph: &CodeGraph, spans: &[Span]) -> Result<Vec<Range>, NoMemory>
    requires { All (IsSpan (length graph.now.code.nodes)) spans.now }
    ensures { IfOk result (λ ranges. vec_len ranges ≡ length spans.now) }
{
    let mut ranges = Vec::new(alloc);
    for span in spans {
        ranges.push(Range {
            from: graph.node(span.first),
            to: graph.node(span.last).saturating_add(4),
        })?;
    }
    Ok(ranges)
}
