//! Whether copies keep to the inlined calls that are open.

ghost use Rattle.std.specs.Prelude.{◌≡◌, ◌<◌, ℕ, Some, length, slice_get, true};
ghost use Rattle.code_text.specs.Text.{Text};
ghost use Rattle.code_text.specs.TextGraph.{text_graph};
ghost use Rattle.flow_graph.specs.FlowGraph.{graph, IsGraphOf};
ghost use Rattle.copy_bounds.specs.Copies.{KeepsOpenCalls, Meaning};
ghost use Rattle.copy_checks.specs.Checked as checked;

use crate::tables::Meant;
use flow_graph::CodeGraph;

// Whether two lists are the same.
fn is_same(xs: &[u32], ys: &[u32]) -> bool
    ensures { result ≡ true → xs.now ≡ ys.now }
{
    match xs {
        [] => ys.is_empty(),
        [x, others @ ..] => match ys {
            [] => false,
            [y, rest @ ..] => *x == *y && is_same(others, rest),
        },
    }
}

// Whether what is open behind a step is what is open at a place.
fn is_open(behind: &Option<Vec<u32>>, returns: &[u32]) -> bool
    ensures { result ≡ true → checked.opened_items behind.now ≡ Some returns.now }
{
    match behind {
        Some(rs) => is_same(rs, returns),
        None => false,
    }
}

// Whether what is open behind node k is open at node n.
fn is_kept(meant: &[Meant], k: usize, n: usize) -> bool
    requires node { k < length meant.now }
    requires target { n < length meant.now }
    ensures { result ≡ true → checked.IsKeptAt meant.now k n }
{
    meant[k].is_own || is_open(&meant[k].behind, &meant[n].returns)
}

// The same of an edge.
fn is_edge_kept(code: &CodeGraph, meant: &[Meant], e: usize) -> bool
    requires edge { e < length code.now.code.edges }
    requires sized { length meant.now ≡ length code.now.code.nodes }
    ensures { result ≡ true → checked.IsKeptSo code.now meant.now e }
{
    match code.target(e) {
        Some(n) => is_kept(meant, code.source(e), n),
        None => true,
    }
}

// And of each edge.
fn are_edges_kept(code: &CodeGraph, meant: &[Meant]) -> bool
    requires sized { length meant.now ≡ length code.now.code.nodes }
    ensures { result ≡ true → (e : ℕ) → e < length code.now.code.edges → checked.IsKeptSo code.now meant.now e }
{
    for e in 0..code.edge_count() {
        if !is_edge_kept(code, meant, e) {
            return false;
        }
    }
    true
}

/// Whether the code of copies keeps to the inlined calls that are open, by what each node stands for.
pub fn are_calls_kept(code: &CodeGraph, meant: &[Meant]) -> bool
    ensures { result ≡ true → (m : Meaning) (t : Text) → IsGraphOf t code.now → checked.AreMeant m code.now.code.nodes meant.now →
        KeepsOpenCalls m (text_graph t code.now.code) }
{
    if meant.len() != code.node_count() {
        return false;
    }
    are_edges_kept(code, meant)
}
