//! The ground of a walk: intervals that hold all that may be accessed in its place, each farther from the others than a step.

ghost use Rattle.std.specs.Prelude.{◌≡◌, ◌<◌, ◌+◌, ◌^◌, ℕ, List, Some, length, slice_get, true};
ghost use Rattle.std.specs.List.{All};
ghost use Rattle.bound_laws.specs.Values as values;
ghost use Rattle.stack_laws.specs.Areas.{AreDisjoint};
ghost use Rattle.stack_tables.specs.Tables.{stacks_in, IsStackClaim};
ghost use Rattle.wrapped_intervals.specs.Small.{IsFound, IsKept, IsKeptOr};
ghost use Rattle.walk_areas.specs.Walking as walking;
ghost use Rattle.walk_checks.specs.Walked.{certificate_of, IsApart, IsApartAt, IsGrounded, IsHeldBy, IsShort};

use crate::searching::is_searched;
use crate::tables::{MOST_GROUND, WalkTable};
use stack_tables::{StackClaim, areas, fixed_parts};
use wrapped_intervals::{Arc, ahead, covers, is_kept, meet_of};

// How many words there are.
const WORDS: u64 = 4_294_967_296;

// Whether one of the intervals holds another one.
fn is_held(intervals: &[Arc], i: Arc) -> bool
    requires intervals { All IsKept intervals.now }
    requires other { IsFound i }
    ensures { result ≡ true → IsHeldBy intervals.now (Some i) }
{
    for j in 0..intervals.len() {
        if covers(Some(intervals[j]), Some(i)) {
            return true;
        }
    }
    false
}

// Whether the place and an area have nothing in common.
fn is_elsewhere(place: Option<Arc>, area: Arc) -> bool
    requires place { IsKeptOr place }
    requires area { IsKept area }
    ensures { result ≡ true → AreDisjoint place area }
{
    match place {
        Some(place) => {
            let distance = ahead(place.low(), area.low());
            place.more() < distance && distance + area.more() < WORDS
        }
        None => false,
    }
}

// Whether one of the intervals holds what they have in common.
fn is_common_held(intervals: &[Arc], place: Option<Arc>, area: Arc) -> bool
    requires intervals { All IsKept intervals.now }
    requires place { IsKeptOr place }
    requires area { IsKept area }
    ensures { result ≡ true → IsHeldBy intervals.now (values.meet_of place (Some area)) }
{
    match meet_of(place, Some(area)) {
        Some(common) => is_held(intervals, common),
        None => false,
    }
}

// Whether they have nothing in common, or that is so of the ground.
fn is_grounded(table: &WalkTable, area: Arc) -> bool
    requires intervals { All IsKept table.now.ground.items }
    requires place { IsKeptOr table.now.place }
    requires area { IsKept area }
    ensures { result ≡ true → IsGrounded table.now area }
{
    is_elsewhere(table.place, area) || is_common_held(&table.ground, table.place, area)
}

// The same of each area.
fn are_grounded(table: &WalkTable, areas: &[Arc]) -> bool
    requires intervals { All IsKept table.now.ground.items }
    requires place { IsKeptOr table.now.place }
    requires areas { All IsKept areas.now }
    ensures { result ≡ true → All (λ (x : values.Arc). IsGrounded table.now x) areas.now }
{
    for area in areas {
        if !is_grounded(table, *area) {
            return false;
        }
    }
    true
}

// How far a step goes at most.
fn gap_of(table: &WalkTable) -> u64
    ensures gap { result ≡ table.now.least + table.now.spread }
    ensures small { result < 2 ^ 33 }
{
    let (least, spread) = (table.least, table.spread);
    u64::from(least) + u64::from(spread)
}

// Whether an interval is short enough for the width.
fn is_within(table: &WalkTable, x: Arc) -> bool
    requires { IsKept x }
    ensures { result ≡ true → IsShort table.now x }
{
    let (least, width) = (table.least, table.width);
    x.more() + u64::from(least) <= u64::from(width) && x.more() + gap_of(table) < WORDS
}

// The same of each one.
fn are_within(table: &WalkTable, intervals: &[Arc]) -> bool
    requires { All IsKept intervals.now }
    ensures { result ≡ true → All (λ (x : values.Arc). IsShort table.now x) intervals.now }
{
    for x in intervals {
        if !is_within(table, *x) {
            return false;
        }
    }
    true
}

// Whether each one is short enough to be kept.
fn are_kept(intervals: &[Arc]) -> bool
    ensures { result ≡ true → All IsKept intervals.now }
{
    for x in intervals {
        if !is_kept(Some(*x)) {
            return false;
        }
    }
    true
}

// Whether the second interval is behind the first one by more than a step, and doesn't come round to it.
fn is_beyond(table: &WalkTable, x: Arc, y: Arc) -> bool
    requires x { IsKept x }
    requires y { IsKept y }
    ensures { result ≡ true → walking.IsBeyond x y (table.now.least + table.now.spread) }
{
    let distance = ahead(x.low(), y.low());
    x.more() + gap_of(table) < distance && distance + y.more() < WORDS
}

// An interval of the ground, by its number.
fn interval(table: &WalkTable, k: usize) -> Arc
    requires { k < length table.now.ground.items }
    ensures { slice_get table.now.ground.items k ≡ Some result }
{
    table.ground[k]
}

// Whether an interval of number k is that of number j, or the other one is beyond it.
fn is_apart_at(table: &WalkTable, k: usize, x: Arc, j: usize) -> bool
    requires intervals { All IsKept table.now.ground.items }
    requires x { IsKept x }
    requires other { j < length table.now.ground.items }
    ensures { result ≡ true → IsApartAt table.now k x j }
{
    if k == j {
        return true;
    }
    is_beyond(table, x, interval(table, j))
}

// The same of each other one.
fn is_apart(table: &WalkTable, k: usize, x: Arc) -> bool
    requires intervals { All IsKept table.now.ground.items }
    requires x { IsKept x }
    ensures { result ≡ true → (j : ℕ) → j < length table.now.ground.items → IsApartAt table.now k x j }
{
    for j in 0..table.ground.len() {
        if !is_apart_at(table, k, x, j) {
            return false;
        }
    }
    true
}

// The same of the interval of a number.
fn is_apart_from_all(table: &WalkTable, k: usize) -> bool
    requires intervals { All IsKept table.now.ground.items }
    requires number { k < length table.now.ground.items }
    ensures { result ≡ true → IsApart table.now k }
{
    is_apart(table, k, interval(table, k))
}

// And of each one.
fn are_apart(table: &WalkTable) -> bool
    requires { All IsKept table.now.ground.items }
    ensures { result ≡ true → (k : ℕ) → k < length table.now.ground.items → IsApart table.now k }
{
    for k in 0..table.ground.len() {
        if !is_apart_from_all(table, k) {
            return false;
        }
    }
    true
}

// Whether the intervals hold what is in areas and in the place. More than 16 are refused.
fn is_of_areas(claim: &StackClaim<'_>, table: &WalkTable) -> bool
    requires claim { IsStackClaim claim.now }
    requires intervals { All IsKept table.now.ground.items }
    ensures { result ≡ true → (nodes : List ℕ) → walking.IsOfAreas (stacks_in claim.now).areas (certificate_of nodes table.now) }
{
    if table.ground.len() > MOST_GROUND {
        return false;
    }
    if !is_kept(table.place) {
        return false;
    }
    if !are_grounded(table, areas(claim)) {
        return false;
    }
    are_apart(table)
}

// Whether they hold all that is accessed of fixed bytes.
fn is_of_fixed(claim: &StackClaim<'_>, table: &WalkTable) -> bool
    requires claim { IsStackClaim claim.now }
    requires intervals { All IsKept table.now.ground.items }
    ensures { result ≡ true → (nodes : List ℕ) → walking.IsOfFixed (stacks_in claim.now).fixed (certificate_of nodes table.now) }
{
    is_searched(table, fixed_parts(claim))
}

/// Whether the intervals of a table are the ground of its walk: of fixed bytes, where something is sought. Of areas more than 16 are refused.
pub fn is_ground(claim: &StackClaim<'_>, table: &WalkTable) -> bool
    requires { IsStackClaim claim.now }
    ensures { result ≡ true → (nodes : List ℕ) → walking.IsGround (stacks_in claim.now).areas (stacks_in claim.now).fixed
        (certificate_of nodes table.now) }
{
    if !are_kept(&table.ground) {
        return false;
    }
    if !are_within(table, &table.ground) {
        return false;
    }
    if table.sought.is_some() {
        return is_of_fixed(claim, table);
    }
    is_of_areas(claim, table)
}
