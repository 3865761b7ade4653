//! Lower bounds that the code shows.

ghost use Rattle.std.specs.Prelude.{◌≡◌, ◌<◌, ℕ, List, length, true};
ghost use Rattle.code_text.specs.Text.{text_of};
ghost use Rattle.code_text.specs.TextGraph.{text_graph};
ghost use Rattle.loop_file.specs.declared.notes.LoopNote.{LoopNote};
ghost use Rattle.loop_file.specs.Kept.{note_at, noted_loops};
ghost use Rattle.value_checks.specs.Tables.{values_of};
ghost use Rattle.stack_tables.specs.Tables.{stacks_of, IsStackClaim};
ghost use Rattle.lower_bounds.specs.LowerBounds.{IsLowerShown};
ghost use Rattle.lower_bounds.specs.LowerTables.{at_of, cert, AreEdgesSo, AreEntries, IsEntrySo, IsHeaderSo, IsLowerCase};

use crate::counters::has_registers;
use crate::edges::is_edge_so;
use crate::rows::{is_body, is_quiet};
use crate::tables::{LowerCase, LowerTable};
use flow_graph::CodeGraph;
use loop_file::LoopNote;
use stack_tables::StackClaim;

// Whether a table has an entry for each node.
fn has_entries(graph: &CodeGraph, table: &LowerTable) -> bool
    ensures { result ≡ true → AreEntries graph.now.code.nodes table.now }
{
    let nodes = graph.node_count();
    table.body.len() == nodes
        && table.adds.len() == nodes
        && table.added.len() == nodes
        && table.quiet.len() == nodes
}

// What the code says of the header.
fn is_header_so(case: &LowerCase<'_>) -> bool
    requires case { IsLowerCase case.now }
    ensures { result ≡ true → IsHeaderSo (cert case.now) (at_of case.now case.now.header) }
{
    if !has_registers(case.table.counter) {
        return false;
    }
    is_body(case, case.header) && !is_quiet(case, case.header)
}

// What it says of the start of a run.
fn is_entry_so(case: &LowerCase<'_>) -> bool
    requires case { IsLowerCase case.now }
    ensures { result ≡ true → IsEntrySo case.now }
{
    match case.claim.graph.find(case.claim.view.entry()) {
        Some(k) => !is_body(case, k),
        None => false,
    }
}

// What it says of each edge.
fn are_edges_so(case: &LowerCase<'_>) -> bool
    requires case { IsLowerCase case.now }
    ensures { result ≡ true → AreEdgesSo case.now }
{
    for e in 0..case.claim.graph.edge_count() {
        if !is_edge_so(case, e) {
            return false;
        }
    }
    true
}

/// Whether the code shows that the loop of a note turns as often at least as the note says, by a table of what its turns add.
pub fn is_lower_shown(claim: &StackClaim<'_>, note: &LoopNote, table: &LowerTable) -> bool
    requires { IsStackClaim claim.now }
    ensures { result ≡ true → (notes : List LoopNote) (k : ℕ) → note_at notes k ≡ note.now →
        IsLowerShown (text_of claim.now.view.now) (text_graph (text_of claim.now.view.now) claim.now.graph.now.code)
        (values_of claim.now.graph.now.code claim.now.table.now) (stacks_of claim.now.graph.now.code claim.now.stack.now)
        (noted_loops notes) k }
{
    let Some(header) = claim.graph.find(note.header) else {
        return false;
    };
    if !has_entries(claim.graph, table) {
        return false;
    }
    let case = LowerCase {
        claim,
        note,
        header,
        table,
    };
    if !is_header_so(&case) {
        return false;
    }
    if !is_entry_so(&case) {
        return false;
    }
    are_edges_so(&case)
}
