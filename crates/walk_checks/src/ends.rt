//! What ends a turn.

ghost use Rattle.std.specs.Prelude.{◌≡◌, ◌<◌, ℕ, List, Some, length, true, IfSome};
ghost use Rattle.code_text.specs.Text as text;
ghost use Rattle.stack_tables.specs.Tables.{stacks_in, text_in, values_in};
ghost use Rattle.wrapped_intervals.specs.Small.{IsFoundOr, IsKeptOr};
ghost use Rattle.walk_areas.specs.Walking as walking;
ghost use Rattle.walk_checks.specs.Walked.{at_of, cert, certificate_of, found_view, place_view, IsPlaceFound, IsPlaceFoundBack, IsStep, IsWalkCase};

use crate::backs::{row_back, word_back};
use crate::over::{row_over, word_over};
use crate::rows::is_touched;
use crate::starts::is_register;
use crate::tables::{Call, Step, WalkCase, WalkPlace, WalkTable};
use crate::touching::is_touched_over;
use crate::traces::{Found, is_wider, multiplied, sum_of_both};
use scale_base::Instr;
use wrapped_intervals::{Arc, covers, negated, word};

// The trace of what stands in a place behind the instruction of node k.
fn place_over(case: &WalkCase<'_>, i: Instr, k: usize, place: WalkPlace) -> Option<Found>
    requires case { IsWalkCase case.now }
    requires from { k < length case.now.claim.now.graph.now.code.nodes }
    ensures over { IfSome result (λ z. IsPlaceFound (values_in case.now.claim.now) (stacks_in case.now.claim.now) (cert case.now)
        (at_of case.now k) i (place_view place) (found_view z)) }
    ensures found { IfSome result (λ z. IsFoundOr z.more) }
{
    match place {
        WalkPlace::Register(r) => {
            if is_register(r) {
                row_over(case, i, k, r)
            } else {
                None
            }
        }
        WalkPlace::Word(number) => word_over(case, i, k, number),
    }
}

// And behind a call.
fn place_back(case: &WalkCase<'_>, call: Call, place: WalkPlace) -> Option<Found>
    requires case { IsWalkCase case.now }
    requires from { call.from < length case.now.claim.now.graph.now.code.nodes }
    requires entry { call.entry < length case.now.claim.now.graph.now.code.nodes }
    requires instruction { text.instr_at (text_in case.now.claim.now) (at_of case.now call.from) ≡ Some call.instr }
    ensures back { IfSome result (λ z. IsPlaceFoundBack (text_in case.now.claim.now) (values_in case.now.claim.now)
        (stacks_in case.now.claim.now) (cert case.now) (at_of case.now call.from) (at_of case.now call.entry) (place_view place)
        (found_view z)) }
    ensures found { IfSome result (λ z. IsFoundOr z.more) }
{
    match place {
        WalkPlace::Register(r) => {
            if is_register(r) {
                row_back(case, call, r)
            } else {
                None
            }
        }
        WalkPlace::Word(number) => word_back(case, call.from, call.entry, number),
    }
}

// The pointer, by what stands in both places.
fn pointer(table: &WalkTable, first: &Found, second: &Found) -> Option<Found>
    requires first { IsKeptOr first.now.more }
    requires second { IsKeptOr second.now.more }
    ensures pointer { IfSome result (λ z. (nodes : List ℕ) → found_view z ≡ walking.pointer (certificate_of nodes table.now)
        (found_view first.now) (found_view second.now)) }
    ensures found { IfSome result (λ z. IsFoundOr z.more) }
{
    match (
        multiplied(first, table.first_factor),
        multiplied(second, table.second_factor),
    ) {
        (Some(y), Some(z)) => sum_of_both(&y, &z),
        _ => None,
    }
}

// How far the pointer moves, by the way of the walk.
fn steps_of(down: bool, i: Option<Arc>) -> Option<Arc>
    requires { IsFoundOr i }
    ensures steps { result ≡ walking.steps_of down i }
    ensures found { IsFoundOr result }
{
    if !down {
        return i;
    }
    match i {
        Some(i) => Some(negated(i)),
        None => word(),
    }
}

// Whether the pointer is a step behind that of the turn's start, or before it.
fn is_moved(table: &WalkTable, z: &Found) -> bool
    requires { IsFoundOr z.now.more }
    ensures { result ≡ true → (nodes : List ℕ) → walking.IsMoved (certificate_of nodes table.now) (found_view z.now) }
{
    let steps = Some(Arc::of(u64::from(table.least), u64::from(table.spread)));
    z.firsts == u64::from(table.first_factor)
        && z.seconds == u64::from(table.second_factor)
        && covers(steps, steps_of(table.down, z.more))
}

// The same, by what stands in both places.
fn is_pointer_moved(table: &WalkTable, first: &Found, second: &Found) -> bool
    requires first { IsFoundOr first.now.more }
    requires second { IsFoundOr second.now.more }
    ensures first { result ≡ true → walking.IsWider (found_view first.now) (found_view first.now) }
    ensures second { result ≡ true → walking.IsWider (found_view second.now) (found_view second.now) }
    ensures moved { result ≡ true → (nodes : List ℕ) → walking.IsMoved (certificate_of nodes table.now)
        (walking.pointer (certificate_of nodes table.now) (found_view first.now) (found_view second.now)) }
{
    if !is_wider(first, first) {
        return false;
    }
    if !is_wider(second, second) {
        return false;
    }
    match pointer(table, first, second) {
        Some(z) => is_moved(table, &z),
        None => false,
    }
}

/// Whether a step to the header ends a turn as the table says.
pub fn is_turn_over(case: &WalkCase<'_>, step: Step) -> bool
    requires case { IsWalkCase case.now }
    requires step { IsStep case.now step }
    ensures { result ≡ true → walking.IsTurnOver (values_in case.now.claim.now) (stacks_in case.now.claim.now) (cert case.now)
        (at_of case.now step.from) step.instr (at_of case.now step.to) }
{
    let table = case.table;
    match (
        place_over(case, step.instr, step.from, table.first),
        place_over(case, step.instr, step.from, table.second),
    ) {
        (Some(first), Some(second)) => {
            if !is_pointer_moved(table, &first, &second) {
                return false;
            }
            is_touched_over(case, step)
        }
        _ => false,
    }
}

/// Whether a call ends a turn as the table says.
pub fn is_turn_back(case: &WalkCase<'_>, call: Call) -> bool
    requires case { IsWalkCase case.now }
    requires from { call.from < length case.now.claim.now.graph.now.code.nodes }
    requires entry { call.entry < length case.now.claim.now.graph.now.code.nodes }
    requires instruction { text.instr_at (text_in case.now.claim.now) (at_of case.now call.from) ≡ Some call.instr }
    ensures { result ≡ true → walking.IsTurnBack (text_in case.now.claim.now) (values_in case.now.claim.now)
        (stacks_in case.now.claim.now) (cert case.now) (at_of case.now call.from) (at_of case.now call.entry) }
{
    let table = case.table;
    match (
        place_back(case, call, table.first),
        place_back(case, call, table.second),
    ) {
        (Some(first), Some(second)) => {
            if !is_pointer_moved(table, &first, &second) {
                return false;
            }
            is_touched(case, call.from)
        }
        _ => false,
    }
}
