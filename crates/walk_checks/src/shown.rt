//! Bounds that the code shows by a walk through memory.

ghost use Rattle.std.specs.Prelude.{◌≡◌, ◌≤◌, ◌<◌, ◌/◌, ℕ, List, None, Some, length, true};
ghost use Rattle.std.specs.List.{All};
ghost use Rattle.bound_laws.specs.Values as values;
ghost use Rattle.bound_laws.specs.Values.{IsRegister};
ghost use Rattle.code_text.specs.Text.{text_of};
ghost use Rattle.code_text.specs.TextGraph.{text_graph};
ghost use Rattle.loop_file.specs.declared.notes.LoopNote.{LoopNote};
ghost use Rattle.loop_file.specs.Kept.{note_at, noted_loops};
ghost use Rattle.value_checks.specs.Tables.{values_of};
ghost use Rattle.stack_tables.specs.Tables.{stacks_of, IsStackClaim};
ghost use Rattle.wrapped_intervals.specs.Small.{IsFoundOr};
ghost use Rattle.walk_areas.specs.Walking as walking;
ghost use Rattle.walk_areas.specs.Walking.Place.{in_register, in_word};
ghost use Rattle.walk_checks.specs.declared.tables.WordTrace.{WordTrace};
ghost use Rattle.walk_checks.specs.Walked.{at_of, cert, certificate_of, found_view, place_view, trace_view, traced_view, AreEdgesWalked, AreWalks, IsEntrySo, IsHeaderSo, IsWalkCase};

use crate::edges::is_edge_walked;
use crate::ground::is_ground;
use crate::rows::{is_body, is_quiet, is_touched, is_unheld, row_at, words_at};
use crate::starts::has_no_start;
use crate::tables::{Trace, WalkCase, WalkPlace, WalkTable, WordTrace};
use crate::traces::{Found, is_wider_trace};
use flow_graph::CodeGraph;
use loop_file::LoopNote;
use stack_tables::StackClaim;
use wrapped_intervals::Arc;

// Whether a table has an entry for each node.
fn has_entries(graph: &CodeGraph, table: &WalkTable) -> bool
    ensures { result ≡ true → AreWalks graph.now.code.nodes table.now }
{
    let nodes = graph.node_count();
    table.body.len() == nodes
        && table.rows.len() == nodes
        && table.words.len() == nodes
        && table.touched.len() == nodes
        && table.holders.len() == nodes
        && table.quiet.len() == nodes
}

// Whether the least fits into the width no more often than the bound says.
fn is_enough(note: &LoopNote, table: &WalkTable) -> bool
    ensures { result ≡ true → (0 < table.now.least) × (table.now.width / table.now.least ≤ note.now.bound) }
{
    if table.least == 0 {
        return false;
    }
    table.width / table.least <= note.bound
}

// Whether two places are the same.
fn is_same_place(p: WalkPlace, q: WalkPlace) -> bool
    ensures { result ≡ true → place_view p ≡ place_view q }
{
    match (p, q) {
        (WalkPlace::Register(r), WalkPlace::Register(s)) => r == s,
        (WalkPlace::Word(k), WalkPlace::Word(j)) => k == j,
        _ => false,
    }
}

// The trace of a number itself, which is so many times the numbers of both places.
fn itself(firsts: u64, seconds: u64) -> Found
    ensures itself { found_view result ≡ walking.traced firsts seconds (Some (values.strided 0 0 0)) }
    ensures found { IsFoundOr result.more }
{
    Found {
        firsts,
        seconds,
        more: Some(Arc::strided(0, 0, 0)),
    }
}

// Whether a place is the other one, and a trace says no more than that it has that number.
fn is_own(p: WalkPlace, q: WalkPlace, b: Option<Trace>, firsts: u64, seconds: u64) -> bool
    ensures place { result ≡ true → place_view p ≡ place_view q }
    ensures own { result ≡ true → walking.IsWider (traced_view b) (walking.traced firsts seconds (Some (values.strided 0 0 0))) }
{
    if !is_same_place(p, q) {
        return false;
    }
    let own = itself(firsts, seconds);
    is_wider_trace(b, &own)
}

// Whether nothing is known of a place at the header, or that it has its own number.
fn is_begun(table: &WalkTable, place: WalkPlace, b: Option<Trace>) -> bool
    ensures { result ≡ true → (nodes : List ℕ) → walking.IsBegun (certificate_of nodes table.now) (place_view place) (traced_view b) }
{
    if b.is_none() {
        return true;
    }
    if is_own(table.first, place, b, 1, 0) {
        return true;
    }
    is_own(table.second, place, b, 0, 1)
}

// The same of each register.
fn are_rows_begun(case: &WalkCase<'_>) -> bool
    requires case { IsWalkCase case.now }
    ensures { result ≡ true → (r : ℕ) → IsRegister r → walking.IsBegun (cert case.now) (in_register r)
        ((cert case.now).row (at_of case.now case.now.header) r) }
{
    for r in 1..32u8 {
        if !is_begun(
            case.table,
            WalkPlace::Register(r),
            row_at(case, case.header, r),
        ) {
            return false;
        }
    }
    true
}

// And of each word of a row.
fn are_each_begun(table: &WalkTable, row: &[WordTrace]) -> bool
    ensures { result ≡ true → All (λ (x : WordTrace). (nodes : List ℕ) → walking.IsBegun (certificate_of nodes table.now) (in_word x.number)
        (Some (trace_view x.trace))) row.now }
{
    for word in row {
        if !is_begun(table, WalkPlace::Word(word.number), Some(word.trace)) {
            return false;
        }
    }
    true
}

// The same of the header's words.
fn are_words_begun(case: &WalkCase<'_>) -> bool
    requires case { IsWalkCase case.now }
    ensures { result ≡ true → (k : ℕ) → walking.IsBegun (cert case.now) (in_word k)
        ((cert case.now).word (at_of case.now case.now.header) k) }
{
    are_each_begun(case.table, words_at(case, case.header))
}

// What the code says of the header.
fn is_header_so(case: &WalkCase<'_>) -> bool
    requires case { IsWalkCase case.now }
    ensures { result ≡ true → IsHeaderSo (cert case.now) (at_of case.now case.now.header) }
{
    if !are_rows_begun(case) {
        return false;
    }
    if !are_words_begun(case) {
        return false;
    }
    if !is_body(case, case.header) {
        return false;
    }
    if is_touched(case, case.header) {
        return false;
    }
    if !is_unheld(case, case.header) {
        return false;
    }
    !is_quiet(case, case.header)
}

// What it says of the start of a run, at node k.
fn is_entry_at(case: &WalkCase<'_>, k: usize) -> bool
    requires case { IsWalkCase case.now }
    requires node { k < length case.now.claim.now.graph.now.code.nodes }
    ensures begins { result ≡ true → (cert case.now).body (at_of case.now k) ≡ true → k ≡ case.now.header }
    ensures unknown { result ≡ true → k ≡ case.now.header → (cert case.now).start ≡ None }
{
    if k == case.header {
        return has_no_start(case);
    }
    !is_body(case, k)
}

// What it says of the start of a run.
fn is_entry_so(case: &WalkCase<'_>) -> bool
    requires case { IsWalkCase case.now }
    ensures { result ≡ true → IsEntrySo case.now }
{
    match case.claim.graph.find(case.claim.view.entry()) {
        Some(k) => is_entry_at(case, k),
        None => false,
    }
}

// What it says of each edge.
fn are_edges_walked(case: &WalkCase<'_>) -> bool
    requires case { IsWalkCase case.now }
    ensures { result ≡ true → AreEdgesWalked case.now }
{
    for e in 0..case.claim.graph.edge_count() {
        if !is_edge_walked(case, e) {
            return false;
        }
    }
    true
}

/// Whether the code shows the bound of a loop's note, by a table of a walk. A ground of more than 16 intervals is refused.
pub fn is_walk_shown(claim: &StackClaim<'_>, note: &LoopNote, table: &WalkTable) -> bool
    requires { IsStackClaim claim.now }
    ensures { result ≡ true → (notes : List LoopNote) (k : ℕ) → note_at notes k ≡ note.now →
        walking.IsWalkShown (text_of claim.now.view.now) (text_graph (text_of claim.now.view.now) claim.now.graph.now.code) (values_of claim.now.graph.now.code claim.now.table.now) (stacks_of claim.now.graph.now.code claim.now.stack.now) (noted_loops notes) k }
{
    let Some(header) = claim.graph.find(note.header) else {
        return false;
    };
    if !has_entries(claim.graph, table) {
        return false;
    }
    let case = WalkCase {
        claim,
        note,
        header,
        table,
    };
    if !is_header_so(&case) {
        return false;
    }
    if !is_entry_so(&case) {
        return false;
    }
    if !is_enough(note, table) {
        return false;
    }
    if !is_ground(claim, table) {
        return false;
    }
    are_edges_walked(&case)
}
