//! Whether a loop of a versioned image is a copy of one of the original.

ghost use Rattle.std.specs.Prelude.{◌≡◌, ◌<◌, ◌≤◌, ℕ, List, length, true};
ghost use Rattle.loop_file.specs.declared.notes.LoopNote.{LoopNote};
ghost use Rattle.loop_file.specs.Kept.{note_at, noted_loops};
ghost use Rattle.code_text.specs.Text.{Text};
ghost use Rattle.code_text.specs.TextGraph.{text_graph};
ghost use Rattle.flow_graph.specs.FlowGraph.{IsGraphOf};
ghost use Rattle.copy_bounds.specs.Copies.{CopiesLoop, Meaning};
ghost use Rattle.copy_checks.specs.Checked as checked;

use crate::edges::{are_apart, are_edges_so};
use crate::tables::{CopyCase, CopyCode, CopyTable, is_ahead, is_body, stands_for};
use loop_file::LoopNote;

// Whether there is an entry for each node.
fn has_entries(code: &CopyCode<'_>, table: &CopyTable) -> bool
    ensures meant { result ≡ true → length code.now.meant.now ≡ length code.now.graph.now.code.nodes }
    ensures table { result ≡ true → checked.AreEntries code.now.graph.now.code.nodes table.now }
{
    let nodes = code.graph.node_count();
    code.meant.len() == nodes
        && table.body.len() == nodes
        && table.quiet.len() == nodes
        && table.ahead.len() == nodes
}

// Whether the bound of the original is no greater.
fn is_enough(note: &LoopNote, old: &LoopNote) -> bool
    ensures { result ≡ true → old.now.bound ≤ note.now.bound }
{
    old.bound <= note.bound
}

// Whether a run doesn't start within the body, but at the header.
fn is_started(case: &CopyCase<'_>, entry: u32) -> bool
    requires { checked.IsCase case.now }
    ensures { result ≡ true → checked.IsStarted case.now entry }
{
    match case.graph.find(entry) {
        Some(k) => k == case.header || !is_body(case.table, k),
        None => true,
    }
}

// What the code says of the header, and of the start of a run.
fn is_begun(case: &CopyCase<'_>, entry: u32) -> bool
    requires { checked.IsCase case.now }
    ensures { result ≡ true → checked.IsBegun case.now entry }
{
    if !is_body(case.table, case.header) {
        return false;
    }
    if is_ahead(case.table, case.header) {
        return false;
    }
    if !stands_for(case.meant, case.header, case.old.header) {
        return false;
    }
    is_started(case, entry)
}

// Whether the code says all of a case.
fn is_copied(case: &CopyCase<'_>, entry: u32) -> bool
    requires { checked.IsCase case.now }
    ensures begun { result ≡ true → checked.IsBegun case.now entry }
    ensures edges { result ≡ true → checked.AreEdgesSo case.now }
    ensures apart { result ≡ true → checked.AreApart case.now }
{
    if !is_begun(case, entry) {
        return false;
    }
    if !are_edges_so(case) {
        return false;
    }
    are_apart(case)
}

/// Whether the code of a versioned image shows by a table that a noted loop copies a noted loop of the original, whose bound is no greater.
pub fn is_copy_shown(
    code: &CopyCode<'_>,
    note: &LoopNote,
    old: &LoopNote,
    table: &CopyTable,
) -> bool
    ensures { result ≡ true → (m : Meaning) (t : Text) (notes olds : List LoopNote) (k n : ℕ) → IsGraphOf t code.now.graph.now →
        t.entry ≡ code.now.entry → checked.AreMeant m code.now.graph.now.code.nodes code.now.meant.now → note_at notes k ≡ note.now →
        n < length olds → note_at olds n ≡ old.now →
        CopiesLoop m t (text_graph t code.now.graph.now.code) (noted_loops olds) (noted_loops notes) k }
{
    let graph = code.graph;
    let Some(header) = graph.find(note.header) else {
        return false;
    };
    let _nodes = graph.node_count();
    if !has_entries(code, table) {
        return false;
    }
    let case = CopyCase {
        graph,
        meant: code.meant,
        note,
        header,
        old,
        table,
    };
    if !is_copied(&case, code.entry) {
        return false;
    }
    is_enough(note, old)
}
