//! Where the pointer is when the loop is entered.

ghost use Rattle.std.specs.Prelude.{◌≡◌, ◌<◌, ℕ, List, None, Some, length, true, IfSome};
ghost use Rattle.bound_laws.specs.Values as values;
ghost use Rattle.bound_laws.specs.Values.{IsRegister};
ghost use Rattle.stack_tables.specs.Tables.{stacks_in, values_in};
ghost use Rattle.wrapped_intervals.specs.Small.{IsFoundOr, IsKeptOr};
ghost use Rattle.walk_areas.specs.Walking as walking;
ghost use Rattle.walk_checks.specs.Walked.{at_of, cert, certificate_of, place_view, IsStep, IsWalkCase};

use crate::tables::{Step, WalkCase, WalkPlace, WalkTable};
use stack_tables::{address, arcs, held_at, is_missed, stored_from, word};
use wrapped_intervals::{Arc, covers, is_kept, passed, scaled, sum_of, sum_with};

/// Whether a register is one of x1 to x31.
pub fn is_register(r: u8) -> bool
    ensures { result ≡ true → IsRegister r }
{
    0 < r && r < 32
}

/// The interval of a register behind an instruction, on the way.
pub fn passed_on(case: &WalkCase<'_>, step: Step, r: u8) -> Option<Arc>
    requires case { IsWalkCase case.now }
    requires step { IsStep case.now step }
    requires register { r < 32 }
    ensures arc { result ≡ values.passed step.instr (at_of case.now step.from) (at_of case.now step.to)
        ((values_in case.now.claim.now).at (at_of case.now step.from)) r }
    ensures found { IsFoundOr result }
{
    let claim = case.claim;
    passed(
        step.instr,
        address(claim, step.from),
        address(claim, step.to),
        arcs(claim, step.from),
        r,
    )
}

// The interval of a register that the instruction stores to a word.
fn stored_on(case: &WalkCase<'_>, step: Step, number: u32) -> Option<Arc>
    requires case { IsWalkCase case.now }
    requires step { IsStep case.now step }
    ensures over { IfSome result (λ x. walking.IsArcOver (values_in case.now.claim.now) (stacks_in case.now.claim.now)
        (at_of case.now step.from) step.instr (at_of case.now step.to) (walking.Place.in_word number) (Some x)) }
    ensures found { IsFoundOr result }
{
    match stored_from(case.claim, step.instr, step.from) {
        Some((word, register)) => {
            if word == number {
                held_at(case.claim, step.from, register)
            } else {
                None
            }
        }
        None => None,
    }
}

// The interval of a word of the stack behind an instruction.
fn word_on(case: &WalkCase<'_>, step: Step, number: u32) -> Option<Arc>
    requires case { IsWalkCase case.now }
    requires step { IsStep case.now step }
    ensures over { IfSome result (λ x. walking.IsArcOver (values_in case.now.claim.now) (stacks_in case.now.claim.now)
        (at_of case.now step.from) step.instr (at_of case.now step.to) (walking.Place.in_word number) (Some x)) }
    ensures found { IsFoundOr result }
{
    if is_missed(case.claim, step.instr, step.from, number) {
        word(case.claim, step.from, number).arc
    } else {
        stored_on(case, step, number)
    }
}

// The interval, where it is short enough to be kept.
fn short(i: Option<Arc>) -> Option<Arc>
    ensures same { IfSome result (λ x. i ≡ Some x) }
    ensures kept { IsKeptOr result }
{
    match i {
        Some(x) => { if is_kept(Some(x)) { Some(x) } else { None } }
        None => None,
    }
}

// The interval of what is in a place behind an instruction.
fn place_on(case: &WalkCase<'_>, step: Step, place: WalkPlace) -> Option<Arc>
    requires case { IsWalkCase case.now }
    requires step { IsStep case.now step }
    ensures over { IfSome result (λ x. walking.IsArcOver (values_in case.now.claim.now) (stacks_in case.now.claim.now)
        (at_of case.now step.from) step.instr (at_of case.now step.to) (place_view place) (Some x)) }
    ensures found { IsFoundOr result }
{
    match place {
        WalkPlace::Register(r) => {
            if is_register(r) {
                passed_on(case, step, r)
            } else {
                None
            }
        }
        WalkPlace::Word(number) => word_on(case, step, number),
    }
}

// The interval of the address of the access, by those of what is in both places.
fn aimed_in(table: &WalkTable, first: Option<Arc>, second: Option<Arc>) -> Option<Arc>
    requires first { IsKeptOr first }
    requires second { IsKeptOr second }
    ensures aimed { (nodes : List ℕ) → result ≡ walking.aimed_in (certificate_of nodes table.now) first second }
    ensures found { IsFoundOr result }
{
    let (first_factor, second_factor, at) = (table.first_factor, table.second_factor, table.at);
    sum_with(
        sum_of(
            scaled(u64::from(first_factor), first),
            scaled(u64::from(second_factor), second),
        ),
        u64::from(at),
    )
}

// Whether it is in that of the table's first accesses.
fn is_started_in(table: &WalkTable, first: Option<Arc>, second: Option<Arc>) -> bool
    requires first { IsKeptOr first }
    requires second { IsKeptOr second }
    ensures { result ≡ true → (nodes : List ℕ) → values.Covers table.now.start (walking.aimed_in (certificate_of nodes table.now) first second) }
{
    is_kept(table.start) && covers(table.start, aimed_in(table, first, second))
}

/// Whether nothing is said of where the first turn accesses memory.
pub fn has_no_start(case: &WalkCase<'_>) -> bool
    ensures { result ≡ true → (cert case.now).start ≡ None }
{
    match case.table.start {
        Some(_) => false,
        None => true,
    }
}

/// Whether the first turn behind a step to the header accesses memory where the table says.
pub fn is_started_by(case: &WalkCase<'_>, step: Step) -> bool
    requires case { IsWalkCase case.now }
    requires step { IsStep case.now step }
    ensures { result ≡ true → walking.IsStartedBy (values_in case.now.claim.now) (stacks_in case.now.claim.now) (cert case.now)
        (at_of case.now step.from) step.instr (at_of case.now step.to) }
{
    let table = case.table;
    match (
        short(place_on(case, step, table.first)),
        short(place_on(case, step, table.second)),
    ) {
        (Some(first), Some(second)) => is_started_in(table, Some(first), Some(second)),
        _ => false,
    }
}
