//! What a step does to the return addresses and the counts, and what it breaks.

ghost use Rattle.std.specs.Prelude.{◌≡◌, ◌≢◌, ◌==◌, ℕ, ◌+◌, ◌<◌, ◌≤◌, ◌^◌, if◌then◌else◌, length, reverse, slice_index, IfSome, IfOk, None, Some, vec_len, vec_capacity};
ghost use Rattle.graph_runs.specs.ReturnAddresses.{returns_after};
ghost use Rattle.graph_runs.specs.KeptRuns.{most_returns};
ghost use Rattle.graph_runs.specs.KeptSteps as rules;
ghost use Rattle.loop_file.specs.Notes.{AreLoopNotes};
ghost use Rattle.keep_monitor.specs.Headers.{AreRisingLoops, AreLoopsOf, sorted_header};
ghost use Rattle.keep_monitor.specs.Steps.{first_of, broken_by, loop_over, leaves_note, is_left_early, loop_left, lesser_loop, broken_loop, count_then, count_after_at, AreTurning, AreCounts};

use crate::headers::Header;
use loop_file::{LoopNote, LoopNotes, in_extent};
use scale_base::{Kept, Move, NoMemory, RETURN_LIMIT, Stepped};
use std::alloc::Global;

/// The notes of a program's loops, and the loops that have to turn before they are left, ascending.
#[derive(Clone, Copy)]
pub struct Rules<'a> {
    pub notes: &'a LoopNotes,
    pub turning: &'a [usize],
}

/// A step, and the loops to whose header it leads.
#[derive(Clone, Copy)]
pub struct Arrival<'a> {
    pub step: &'a Stepped,
    pub group: &'a [Header],
}

fn last_of(returns: &[u32]) -> Option<u32>
    ensures { result ≡ first_of (reverse returns.now) }
{
    returns.last().copied()
}

/// The source of a step: its own address, of a return that of its call, and of a call none.
pub fn source_of(step: &Stepped, returns: &[u32]) -> Option<u32>
    ensures { result ≡ rules.source_of step.now.moved step.now.pc (reverse returns.now) }
{
    match step.moved {
        Move::Local => Some(step.pc),
        Move::Call => None,
        Move::Return => match last_of(returns) {
            Some(to) => Some(to.wrapping_sub(4)),
            None => None,
        },
    }
}

/// What a step breaks of the rules on calls and returns.
pub fn broken_return(step: &Stepped, returns: &[u32]) -> Option<Kept>
    requires { length returns.now ≤ most_returns }
    ensures { result ≡ broken_by step.now (returns_after (reverse returns.now) step.now) }
{
    match step.moved {
        Move::Local => None,
        Move::Call => {
            if returns.len() == RETURN_LIMIT {
                Some(Kept::BrokeDepth { at: step.pc })
            } else {
                None
            }
        }
        Move::Return => {
            if last_of(returns) == Some(step.next) {
                None
            } else {
                Some(Kept::BrokeReturn {
                    at: step.pc,
                    to: step.next,
                })
            }
        }
    }
}

/// Puts the return address of a call on the list, and takes that of a return off. There is room for it.
pub fn move_returns(returns: &mut Vec<u32>, step: &Stepped)
    requires unbroken { broken_by step.now (returns_after (reverse returns.old.items) step.now) ≡ None }
    requires shallow { vec_len returns.old ≤ most_returns }
    requires spare { most_returns ≤ vec_capacity returns.old }
    ensures moved { returns_after (reverse returns.old.items) step.now ≡ Some (reverse returns.new.items) }
    ensures shallow { vec_len returns.new ≤ most_returns }
    ensures spare { most_returns ≤ vec_capacity returns.new }
{
    match step.moved {
        Move::Local => {}
        Move::Call => {
            let _ = returns.push(step.pc.wrapping_add(4));
        }
        Move::Return => {
            let _ = returns.pop();
        }
    }
}

/// The count of a loop after a step to its header.
pub fn next_count(note: &LoopNote, source: Option<u32>, count: u32) -> u32
    requires { count < 2 ^ 31 }
    ensures { result ≡ count_then note.now source count }
{
    match source {
        Some(at) => { if in_extent(note, at) { count + 1 } else { 0 } }
        None => 0,
    }
}

// The least of these loops of one header whose count a step to it takes above its bound.
fn first_over(
    notes: &LoopNotes,
    group: &[Header],
    counts: &[u32],
    source: Option<u32>,
    next: u32,
) -> Option<usize>
    requires notes { AreLoopNotes notes.now }
    requires counts { AreCounts notes.now counts.now }
    requires loops { AreLoopsOf notes.now next group.now }
    ensures over { result ≡ loop_over notes.now counts.now source next }
    ensures within { IfSome result (λ k. k < length notes.now) }
{
    for header in group {
        let note = notes.note(header.number);
        let count = next_count(note, source, counts[header.number]);
        if count > note.bound {
            return Some(header.number);
        }
    }
    None
}

// Whether a step leaves a loop's extent. A return never does.
fn leaves(note: &LoopNote, step: &Stepped) -> bool
    ensures { result ≡ leaves_note step.now.moved note.now step.now.pc step.now.next }
{
    match step.moved {
        Move::Local => in_extent(note, step.pc) && !in_extent(note, step.next),
        Move::Call => false,
        Move::Return => false,
    }
}

// Whether a step leaves a loop with this count, below its least number.
fn is_left_early(note: &LoopNote, step: &Stepped, count: u32) -> bool
    ensures { result ≡ is_left_early note.now step.now count }
{
    count < note.at_least && leaves(note, step)
}

// The least loop that a step leaves with a count below its least number, among those that have one.
fn first_left(notes: &LoopNotes, turning: &[usize], counts: &[u32], step: &Stepped) -> Option<usize>
    requires notes { AreLoopNotes notes.now }
    requires counts { AreCounts notes.now counts.now }
    requires turning { AreTurning notes.now (length notes.now) turning.now }
    ensures left { result ≡ loop_left notes.now counts.now step.now }
    ensures within { IfSome result (λ k. k < length notes.now) }
{
    for &k in turning {
        if is_left_early(notes.note(k), step, counts[k]) {
            return Some(k);
        }
    }
    None
}

fn lesser(one: Option<usize>, other: Option<usize>) -> Option<usize>
    ensures lesser { result ≡ lesser_loop one other }
    ensures within { (n : ℕ) → IfSome one (λ a. a < n) → IfSome other (λ b. b < n) → IfSome result (λ k. k < n) }
{
    match (one, other) {
        (Some(a), Some(b)) => Some(if a < b { a } else { b }),
        (Some(a), None) => Some(a),
        (None, other) => other,
    }
}

// The count of a loop after a step.
fn count_after(note: &LoopNote, source: Option<u32>, next: u32, count: u32) -> u32
    requires { count < 2 ^ 31 }
    ensures { result ≡ (if next == note.now.header then count_then note.now source count else count) }
{
    if next == note.header {
        next_count(note, source, count)
    } else {
        count
    }
}

/// What a step breaks of the rules on loops: it takes a count above its bound, or leaves a loop with a count below its least. Of
/// several loops the least is named.
pub fn broken_loop(
    rules: &Rules<'_>,
    counts: &[u32],
    source: Option<u32>,
    arrival: &Arrival<'_>,
) -> Option<Kept>
    requires notes { AreLoopNotes rules.now.notes.now }
    requires counts { AreCounts rules.now.notes.now counts.now }
    requires loops { AreLoopsOf rules.now.notes.now arrival.now.step.now.next arrival.now.group.now }
    requires turning { AreTurning rules.now.notes.now (length rules.now.notes.now) rules.now.turning.now }
    ensures { result ≡ broken_loop rules.now.notes.now counts.now source arrival.now.step.now }
{
    let notes = rules.notes;
    let step = arrival.step;
    let over = first_over(notes, arrival.group, counts, source, step.next);
    let left = first_left(notes, rules.turning, counts, step);
    match lesser(over, left) {
        None => None,
        Some(k) => Some(Kept::BrokeBound {
            loop_no: k as u32 + 1,
            count: count_after(notes.note(k), source, step.next, counts[k]),
        }),
    }
}

/// The loops that have to turn before they are left, in their order.
pub fn turning_loops(alloc: Global, notes: &LoopNotes) -> Result<Vec<usize>, NoMemory>
    ensures { IfOk result (λ turning. AreTurning notes.now (length notes.now) turning.items) }
{
    let mut turning = Vec::new(alloc);
    for k in 0..notes.count() {
        if notes.note(k).at_least > 0 {
            turning.push(k)?;
        }
    }
    Ok(turning)
}

/// Counts a step to the header of these loops, none of whose bounds it breaks.
pub fn count_step(notes: &LoopNotes, group: &[Header], counts: &mut [u32], source: Option<u32>)
    requires notes { AreLoopNotes notes.now }
    requires counts { AreCounts notes.now counts.old }
    requires loops { AreRisingLoops (length notes.now) group.now }
    ensures size { length counts.new ≡ length counts.old }
    ensures each { (j : ℕ) → j < length group.now → slice_index counts.new (sorted_header group.now j).number ≡ count_after_at notes.now
        group.now counts.old source j }
    ensures others { (k : ℕ) → ((j : ℕ) → j < length group.now → (sorted_header group.now j).number ≢ k) →
        slice_index counts.new k ≡ slice_index counts.old k }
{
    for header in group {
        let note = notes.note(header.number);
        counts[header.number] = next_count(note, source, counts[header.number]);
    }
}
