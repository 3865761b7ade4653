//! Bounds that the code shows by what each turn makes of a number.

ghost use Rattle.std.specs.Prelude.{◌≡◌, ◌≤◌, ◌<◌, ◌/◌, ◌+◌, ◌^◌, ◌⊎◌, ℕ, List, length, true};
ghost use Rattle.bound_laws.specs.Values as values;
ghost use Rattle.bound_laws.specs.Values.{IsRegister};
ghost use Rattle.code_text.specs.Text.{text_of};
ghost use Rattle.code_text.specs.TextGraph.{text_graph};
ghost use Rattle.loop_file.specs.declared.notes.LoopNote.{LoopNote};
ghost use Rattle.loop_file.specs.Kept.{note_at, noted_loops};
ghost use Rattle.value_checks.specs.Tables.{values_of};
ghost use Rattle.stack_tables.specs.Tables.{stacks_in, address, stacks_of, values_in, IsStackClaim};
ghost use Rattle.wrapped_intervals.specs.Small.{IsKeptOr};
ghost use Rattle.turn_laws.specs.Relating as relating;
ghost use Rattle.turn_laws.specs.Relating.Relation.{unknown};
ghost use Rattle.turn_laws.specs.Relating.Place.{in_register};
ghost use Rattle.turn_laws.specs.Relating.Kind.{lowers};
ghost use Rattle.turn_checks.specs.Turned.{at_of, cert, certificate_of, kind_view, place_view, AreTurns, IsEntrySo, IsHeaderSo, IsTurnCase, AreEdgesTurned};

use crate::edges::is_edge_turned;
use crate::relations::{ends_of, is_begun};
use crate::rows::{is_body, is_quiet, is_used, own_at, row_at};
use crate::tables::{Relation, TurnCase, TurnKind, TurnPlace, TurnTable};
use flow_graph::CodeGraph;
use loop_file::LoopNote;
use stack_tables::{StackClaim, held_at, word};
use wrapped_intervals::{Arc, covers, scaled, sum_with, top_of};

// Whether a table has an entry for each node.
fn has_entries(graph: &CodeGraph, table: &TurnTable) -> bool
    ensures { result ≡ true → AreTurns graph.now.code.nodes table.now }
{
    let nodes = graph.node_count();
    table.body.len() == nodes
        && table.rows.len() == nodes
        && table.own.len() == nodes
        && table.used.len() == nodes
        && table.quiet.len() == nodes
}

// Whether the least fits into the width no more often than the bound says.
fn is_enough(note: &LoopNote, table: &TurnTable) -> bool
    ensures { result ≡ true → (0 < table.now.least) × (table.now.width / table.now.least ≤ note.now.bound) }
{
    if table.least == 0 {
        return false;
    }
    table.width / table.least <= note.bound
}

// Whether a number has at most so many bits, and so many halvings fit into the width.
fn is_short(i: Option<Arc>, bits: u32, least: u32, width: u32) -> bool
    requires { IsKeptOr i }
    ensures { result ≡ true → (values.top_of i < 2 ^ bits) × (bits + least ≤ width + 1) }
{
    if bits > 32 {
        return false;
    }
    top_of(i) < 1u64 << bits && u64::from(bits) + u64::from(least) <= u64::from(width) + 1
}

// Whether a number is at least so much, and so much more at most.
fn is_between(i: Option<Arc>, from: u32, width: u32) -> bool
    requires { IsKeptOr i }
    ensures { result ≡ true → (from ≤ values.least_of i) × (values.top_of i ≤ from + width) }
{
    let ends = ends_of(i);
    u64::from(from) <= ends.least && ends.top <= u64::from(from) + u64::from(width)
}

// Whether what is counted in is at the header what its kind says, by its interval there.
fn is_started(table: &TurnTable, i: Option<Arc>) -> bool
    requires { IsKeptOr i }
    ensures { result ≡ true → (nodes : List ℕ) → relating.IsStarted (certificate_of nodes table.now) (kind_view table.now.kind) i }
{
    match table.kind {
        TurnKind::Moves(factor, shift) => covers(
            Some(Arc::of(0, u64::from(table.width))),
            sum_with(scaled(u64::from(factor), i), u64::from(shift)),
        ),
        TurnKind::Lowers => top_of(i) <= u64::from(table.width),
        TurnKind::Raises(from) => is_between(i, from, table.width),
        TurnKind::Halves(bits) => is_short(i, bits, table.least, table.width),
    }
}

// Whether an input has no more bytes than the width, from which each turn takes something away.
fn is_filled(table: &TurnTable, most: Option<u32>) -> bool
    ensures { result ≡ true → (kind_view table.now.kind ≡ lowers) × relating.IsFilled most table.now.width }
{
    match (table.kind, most) {
        (TurnKind::Lowers, Some(n)) => n <= table.width,
        _ => false,
    }
}

// The same of what is counted in.
fn is_started_in(case: &TurnCase<'_>) -> bool
    requires case { IsTurnCase case.now }
    ensures { result ≡ true → relating.IsStartedIn (values_in case.now.claim.now) (stacks_in case.now.claim.now) case.now.most
        (cert case.now) (at_of case.now case.now.header) (place_view case.now.table.now.place) }
{
    let (claim, table, h) = (case.claim, case.table, case.header);
    match table.place {
        TurnPlace::Register(r) => is_started(table, held_at(claim, h, r)),
        TurnPlace::Word(number) => is_started(table, word(claim, h, number).arc),
        TurnPlace::Input => is_filled(table, case.most),
    }
}

// Whether nothing is known of a register at the header, or that it has the number itself.
fn is_row_begun(case: &TurnCase<'_>, r: u8) -> bool
    requires case { IsTurnCase case.now }
    ensures { result ≡ true → ((cert case.now).row (at_of case.now case.now.header) r ≡ unknown) ⊎
        ((place_view case.now.table.now.place ≡ in_register r) × relating.IsBegun
        ((cert case.now).row (at_of case.now case.now.header) r)) }
{
    let relation = row_at(case.claim, case.table, case.header, r);
    if matches!(&relation, Relation::Unknown) {
        return true;
    }
    match case.table.place {
        TurnPlace::Register(s) => r == s && is_begun(relation),
        TurnPlace::Word(_) => false,
        TurnPlace::Input => false,
    }
}

// The same of each register.
fn are_rows_begun(case: &TurnCase<'_>) -> bool
    requires case { IsTurnCase case.now }
    ensures { result ≡ true → (r : ℕ) → IsRegister r → ((cert case.now).row (at_of case.now case.now.header) r ≡ unknown) ⊎
        ((place_view case.now.table.now.place ≡ in_register r) × relating.IsBegun
        ((cert case.now).row (at_of case.now case.now.header) r)) }
{
    for r in 1..32u8 {
        if !is_row_begun(case, r) {
            return false;
        }
    }
    true
}

// What the code says of the header.
fn is_header_so(case: &TurnCase<'_>) -> bool
    requires case { IsTurnCase case.now }
    ensures { result ≡ true → IsHeaderSo (values_in case.now.claim.now) (stacks_in case.now.claim.now) case.now.most (cert case.now)
        (at_of case.now case.now.header) }
{
    let (claim, table, h) = (case.claim, case.table, case.header);
    if !are_rows_begun(case) {
        return false;
    }
    if !is_started_in(case) {
        return false;
    }
    if !is_body(claim, table, h) {
        return false;
    }
    if !is_begun(own_at(claim, table, h)) {
        return false;
    }
    if is_used(claim, table, h) {
        return false;
    }
    !is_quiet(claim, table, h)
}

// What it says of the start of a run.
fn is_entry_so(case: &TurnCase<'_>) -> bool
    requires case { IsTurnCase case.now }
    ensures { result ≡ true → IsEntrySo case.now }
{
    match case.claim.graph.find(case.claim.view.entry()) {
        Some(k) => !is_body(case.claim, case.table, k) || k == case.header,
        None => false,
    }
}

// What it says of each edge.
fn are_edges_turned(case: &TurnCase<'_>) -> bool
    requires case { IsTurnCase case.now }
    ensures { result ≡ true → AreEdgesTurned case.now }
{
    for e in 0..case.claim.graph.edge_count() {
        if !is_edge_turned(case, e) {
            return false;
        }
    }
    true
}

/// Whether the code shows the bound of a loop's note, by a table of what its turns do, for inputs of so many bytes at most, where that is told.
pub fn is_turn_shown(
    claim: &StackClaim<'_>,
    note: &LoopNote,
    table: &TurnTable,
    most: Option<u32>,
) -> bool
    requires { IsStackClaim claim.now }
    ensures { result ≡ true → (notes : List LoopNote) (k : ℕ) → note_at notes k ≡ note.now →
        relating.IsTurnShown (text_of claim.now.view.now) (text_graph (text_of claim.now.view.now) claim.now.graph.now.code) (values_of claim.now.graph.now.code claim.now.table.now) (stacks_of claim.now.graph.now.code claim.now.stack.now) most (noted_loops notes) k }
{
    let Some(header) = claim.graph.find(note.header) else {
        return false;
    };
    if !has_entries(claim.graph, table) {
        return false;
    }
    let case = TurnCase {
        claim,
        note,
        header,
        table,
        most,
    };
    if !is_header_so(&case) {
        return false;
    }
    if !is_entry_so(&case) {
        return false;
    }
    if !is_enough(note, table) {
        return false;
    }
    are_edges_turned(&case)
}
