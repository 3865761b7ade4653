//! Whether the code of a program shows a loop's bound.

ghost use Rattle.std.specs.Prelude.{◌≡◌, ◌<◌, ◌≤◌, ◌/◌, ℕ, List, length, true};
ghost use Rattle.loop_file.specs.declared.notes.LoopNote.{LoopNote};
ghost use Rattle.loop_file.specs.Kept.{note_at, noted_loops};
ghost use Rattle.code_text.specs.Text.{text_of};
ghost use Rattle.code_text.specs.TextGraph.{text_graph};
ghost use Rattle.value_checks.specs.Tables.{values_of};
ghost use Rattle.stack_laws.specs.Counting as counting;
ghost use Rattle.turn_laws.specs.Relating.{IsShown};
ghost use Rattle.stack_tables.specs.Tables.{stacks_of, IsStackClaim};
ghost use Rattle.shown_bounds.specs.Certified.{AreEntries};

use crate::certificates::{Case, StackCertificate};
use crate::counters::is_within;
use crate::edges::is_certified;
use flow_graph::CodeGraph;
use loop_file::LoopNote;
use stack_tables::StackClaim;
use turn_checks::is_turn_shown;
use walk_checks::is_walk_shown;

// Whether the least fits into the width no more often than the bound says.
fn is_enough(note: &LoopNote, certificate: &StackCertificate) -> bool
    ensures { result ≡ true → (0 < certificate.now.least) × (certificate.now.width / certificate.now.least ≤ note.now.bound) }
{
    if certificate.least == 0 {
        return false;
    }
    certificate.width / certificate.least <= note.bound
}

// Whether a certificate has an entry for each node.
fn has_entries(graph: &CodeGraph, certificate: &StackCertificate) -> bool
    ensures { result ≡ true → AreEntries graph.now.code.nodes certificate.now }
{
    let nodes = graph.node_count();
    certificate.body.len() == nodes
        && certificate.adds.len() == nodes
        && certificate.offset.len() == nodes
        && certificate.quiet.len() == nodes
}

// Whether it does so by a counter that goes on by a constant.
fn is_counted(claim: &StackClaim<'_>, note: &LoopNote, certificate: &StackCertificate) -> bool
    requires { IsStackClaim claim.now }
    ensures { result ≡ true → (notes : List LoopNote) (k : ℕ) → note_at notes k ≡ note.now →
        counting.IsShown (text_of claim.now.view.now) (text_graph (text_of claim.now.view.now) claim.now.graph.now.code) (values_of claim.now.graph.now.code claim.now.table.now) (stacks_of claim.now.graph.now.code claim.now.stack.now) (noted_loops notes) k }
{
    let Some(header) = claim.graph.find(note.header) else {
        return false;
    };
    if !has_entries(claim.graph, certificate) {
        return false;
    }
    let case = Case {
        claim,
        note,
        header,
        certificate,
    };
    if !is_certified(&case) {
        return false;
    }
    if !is_enough(note, certificate) {
        return false;
    }
    is_within(claim, certificate.counter, header, certificate.width)
}

/// Whether the code shows the bound of a loop's note, by a certificate and tables, for inputs of so many bytes at most, where that is told.
pub fn is_shown(
    claim: &StackClaim<'_>,
    note: &LoopNote,
    certificate: &StackCertificate,
    most: Option<u32>,
) -> bool
    requires { IsStackClaim claim.now }
    ensures { result ≡ true → (notes : List LoopNote) (k : ℕ) → note_at notes k ≡ note.now →
        IsShown (text_of claim.now.view.now) (text_graph (text_of claim.now.view.now) claim.now.graph.now.code) (values_of claim.now.graph.now.code claim.now.table.now) (stacks_of claim.now.graph.now.code claim.now.stack.now) most (noted_loops notes) k }
{
    match (&certificate.walk, &certificate.turns) {
        (Some(table), _) => is_walk_shown(claim, note, table),
        (None, Some(table)) => is_turn_shown(claim, note, table, most),
        (None, None) => is_counted(claim, note, certificate),
    }
}
