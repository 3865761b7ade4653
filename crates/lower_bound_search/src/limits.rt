//! What a counter has where a loop is entered and left.

ghost use Rattle.std.specs.Prelude.{◌≡◌, true};
ghost use Rattle.stack_tables.specs.Tables.{IsStackClaim};
ghost use Rattle.lower_bounds.specs.LowerTables.{IsStep};

use crate::ends::Ends;
use crate::turns::Behind;
use lower_bounds::{Counter, Step, is_counted_in};
use stack_tables::StackClaim;
use wrapped_intervals::Arc;

// Whether it has at most so much behind a step.
fn is_at_most(claim: &StackClaim<'_>, step: Step, counter: Counter, most: u32) -> bool
    requires claim { IsStackClaim claim.now }
    requires step { IsStep claim.now step }
{
    is_counted_in(claim, step, counter, Arc::of(0, u64::from(most)))
}

// Whether it has at least so much.
fn is_at_least(claim: &StackClaim<'_>, step: Step, counter: Counter, least: u32) -> bool
    requires claim { IsStackClaim claim.now }
    requires step { IsStep claim.now step }
{
    let low = u64::from(least);
    is_counted_in(claim, step, counter, Arc::of(low, 4_294_967_295 - low))
}

// The least number that it has at most, bit by bit.
fn most_behind(claim: &StackClaim<'_>, step: Step, counter: Counter) -> Option<u32>
    requires claim { IsStackClaim claim.now }
    requires step { IsStep claim.now step }
{
    if !is_at_most(claim, step, counter, u32::MAX) {
        return None;
    }
    let mut most = u32::MAX;
    for bit in 0..32u32 {
        let less = most & !(0x8000_0000u32 >> bit);
        if is_at_most(claim, step, counter, less) {
            most = less;
        }
    }
    Some(most)
}

// The greatest number that it has at least.
fn least_behind(claim: &StackClaim<'_>, step: Step, counter: Counter) -> u32
    requires claim { IsStackClaim claim.now }
    requires step { IsStep claim.now step }
{
    let mut least = 0u32;
    for bit in 0..32u32 {
        let more = least | (0x8000_0000u32 >> bit);
        if is_at_least(claim, step, counter, more) {
            least = more;
        }
    }
    least
}

// Whether both nodes of a step are there.
fn is_there(claim: &StackClaim<'_>, step: Step) -> bool
    ensures { result ≡ true → IsStep claim.now step }
{
    step.from < claim.graph.node_count() && step.to < claim.graph.node_count()
}

// What it has at most behind one more step, where that is known.
fn most_of_both(claim: &StackClaim<'_>, step: Step, counter: Counter, first: u32) -> Option<u32>
    requires { IsStackClaim claim.now }
{
    if !is_there(claim, step) {
        return None;
    }
    match most_behind(claim, step, counter) {
        Some(most) => Some(first.max(most)),
        None => None,
    }
}

/// What it has at most where the loop is entered.
pub fn first_of(claim: &StackClaim<'_>, ends: &Ends, counter: Counter) -> Option<u32>
    requires { IsStackClaim claim.now }
{
    let mut first = 0;
    for step in &ends.entering {
        match most_of_both(claim, *step, counter, first) {
            Some(most) => first = most,
            None => return None,
        }
    }
    Some(first)
}

// By how much it has more behind a step than what has been added.
fn more_behind(claim: &StackClaim<'_>, step: Step, counter: Counter, behind: Behind<'_>) -> u64
    requires { IsStackClaim claim.now }
{
    match behind.at(step.from) {
        Some(added) if is_there(claim, step) => {
            u64::from(least_behind(claim, step, counter)).saturating_sub(added)
        }
        _ => 0,
    }
}

/// By how much it has more at least, where the loop is left, than what the last turn has added. None where it is never left.
pub fn last_of(
    claim: &StackClaim<'_>,
    ends: &Ends,
    counter: Counter,
    behind: Behind<'_>,
) -> Option<u64>
    requires { IsStackClaim claim.now }
{
    let mut last = None;
    for step in &ends.leaving {
        let more = more_behind(claim, *step, counter, behind);
        last = match last {
            Some(other) => Some(more.min(other)),
            None => Some(more),
        };
    }
    last
}
