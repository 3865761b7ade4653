//! What stands at a node in a table of a walk.

ghost use Rattle.std.specs.Prelude.{◌≡◌, ◌<◌, ℕ, [], None, false, length, true, slice_get, IfSome};
ghost use Rattle.value_checks.specs.Tables.{or_other};
ghost use Rattle.stack_tables.specs.Tables.{values_in};
ghost use Rattle.wrapped_intervals.specs.Small.{IsKeptOr};
ghost use Rattle.walk_areas.specs.Walking as walking;
ghost use Rattle.walk_checks.specs.Walked.{at_of, cert, found_view, rows_view, traced_view, trace_in, word_in, words_view, IsWalkCase};

use crate::tables::{Trace, WalkCase, WalkTable, WordTrace};
use crate::traces::{Found, by_interval, known};
use stack_tables::held_at;

// What stands at a number of those of the body.
fn body_row(table: &WalkTable, k: usize) -> bool
    requires { k < length table.now.body.items }
    ensures { result ≡ or_other false (slice_get table.now.body.items k) }
{
    table.body[k]
}

// Of those that are quiet.
fn quiet_row(table: &WalkTable, k: usize) -> bool
    requires { k < length table.now.quiet.items }
    ensures { result ≡ or_other false (slice_get table.now.quiet.items k) }
{
    table.quiet[k]
}

// And of those where memory was accessed.
fn touched_row(table: &WalkTable, k: usize) -> bool
    requires { k < length table.now.touched.items }
    ensures { result ≡ or_other false (slice_get table.now.touched.items k) }
{
    table.touched[k]
}

// Of the registers with what was loaded.
fn holder_row(table: &WalkTable, k: usize) -> Option<u8>
    requires { k < length table.now.holders.items }
    ensures { result ≡ or_other None (slice_get table.now.holders.items k) }
{
    table.holders[k]
}

/// Whether node k is code of the loop.
pub fn is_body(case: &WalkCase<'_>, k: usize) -> bool
    requires case { IsWalkCase case.now }
    requires node { k < length case.now.claim.now.graph.now.code.nodes }
    ensures { result ≡ (cert case.now).body (at_of case.now k) }
{
    body_row(case.table, k)
}

/// Whether it may run while a call is open.
pub fn is_quiet(case: &WalkCase<'_>, k: usize) -> bool
    requires case { IsWalkCase case.now }
    requires node { k < length case.now.claim.now.graph.now.code.nodes }
    ensures { result ≡ (cert case.now).quiet (at_of case.now k) }
{
    quiet_row(case.table, k)
}

/// Whether memory was accessed.
pub fn is_touched(case: &WalkCase<'_>, k: usize) -> bool
    requires case { IsWalkCase case.now }
    requires node { k < length case.now.claim.now.graph.now.code.nodes }
    ensures { result ≡ (cert case.now).touched (at_of case.now k) }
{
    touched_row(case.table, k)
}

/// The register with what was loaded.
pub fn holder_at(case: &WalkCase<'_>, k: usize) -> Option<u8>
    requires case { IsWalkCase case.now }
    requires node { k < length case.now.claim.now.graph.now.code.nodes }
    ensures { result ≡ (cert case.now).holder (at_of case.now k) }
{
    holder_row(case.table, k)
}

/// Whether no register has it.
pub fn is_unheld(case: &WalkCase<'_>, k: usize) -> bool
    requires case { IsWalkCase case.now }
    requires node { k < length case.now.claim.now.graph.now.code.nodes }
    ensures { result ≡ true → (cert case.now).holder (at_of case.now k) ≡ None }
{
    match holder_at(case, k) {
        Some(_) => false,
        None => true,
    }
}

// What stands in a row, and nothing behind its last one.
fn trace_of(row: &[Option<Trace>], r: u8) -> Option<Trace>
    ensures { traced_view result ≡ trace_in row.now r }
{
    match row.get(usize::from(r)) {
        Some(trace) => *trace,
        None => None,
    }
}

// The traces of node k.
fn row_of_node(table: &WalkTable, k: usize) -> &[Option<Trace>]
    requires { k < length table.now.rows.items }
    ensures { result.now ≡ or_other [] (slice_get (rows_view table.now.rows.items) k) }
{
    &table.rows[k]
}

/// The trace of a register.
pub fn row_at(case: &WalkCase<'_>, k: usize, r: u8) -> Option<Trace>
    requires case { IsWalkCase case.now }
    requires node { k < length case.now.claim.now.graph.now.code.nodes }
    ensures { traced_view result ≡ (cert case.now).row (at_of case.now k) r }
{
    trace_of(row_of_node(case.table, k), r)
}

/// The same of x1 to x31. x0 has none.
pub fn trace_at(case: &WalkCase<'_>, k: usize, r: u8) -> Option<Trace>
    requires case { IsWalkCase case.now }
    requires node { k < length case.now.claim.now.graph.now.code.nodes }
    ensures { traced_view result ≡ walking.row_of (cert case.now) (at_of case.now k) r }
{
    if 0 < r && r < 32 {
        row_at(case, k, r)
    } else {
        None
    }
}

/// What the instruction of node k finds in a register, where anything is known of it.
pub fn operand(case: &WalkCase<'_>, k: usize, r: u8) -> Option<Found>
    requires case { IsWalkCase case.now }
    requires node { k < length case.now.claim.now.graph.now.code.nodes }
    ensures operand { IfSome result (λ z. found_view z ≡ walking.operand (values_in case.now.claim.now) (cert case.now) (at_of case.now k) r) }
    ensures kept { IfSome result (λ z. IsKeptOr z.more) }
{
    match trace_at(case, k, r) {
        Some(trace) => known(trace),
        None => by_interval(held_at(case.claim, k, r)),
    }
}

// What a row says first of a word.
fn word_of(row: &[WordTrace], number: u32) -> Option<Trace>
    ensures { traced_view result ≡ word_in row.now number }
{
    for word in row {
        if word.number == number {
            return Some(word.trace);
        }
    }
    None
}

// The words of node k.
fn words_of_node(table: &WalkTable, k: usize) -> &[WordTrace]
    requires { k < length table.now.words.items }
    ensures { result.now ≡ or_other [] (slice_get (words_view table.now.words.items) k) }
{
    &table.words[k]
}

/// What is known of words at node k.
pub fn words_at<'a>(case: &WalkCase<'a>, k: usize) -> &'a [WordTrace]
    requires case { IsWalkCase case.now }
    requires node { k < length case.now.claim.now.graph.now.code.nodes }
    ensures { (number : ℕ) → word_in result.now number ≡ (cert case.now).word (at_of case.now k) number }
{
    words_of_node(case.table, k)
}

/// The trace of a word.
pub fn word_at(case: &WalkCase<'_>, k: usize, number: u32) -> Option<Trace>
    requires case { IsWalkCase case.now }
    requires node { k < length case.now.claim.now.graph.now.code.nodes }
    ensures { traced_view result ≡ (cert case.now).word (at_of case.now k) number }
{
    word_of(words_at(case, k), number)
}
