//! Bits of numbers.

ghost use Rattle.std.specs.Prelude.{◌≡◌, ◌≤◌, ◌<◌, ◌^◌, Some};
ghost use Rattle.bound_laws.specs.Values as values;
ghost use Rattle.wrapped_intervals.specs.Small.{IsFound, IsFoundOr};

use crate::arcs::{Arc, WORDS, from_to};

// Whether each number is 0 or has all bits.
fn is_mask(i: Arc) -> bool
    ensures { result ≡ values.is_mask i }
{
    i.low() == WORDS - 1 && i.more() < 2
}

// Whether an interval goes on from the greatest number to 0.
fn goes_round(i: Arc) -> bool
    requires { IsFound i }
    ensures { result ≡ values.goes_round i }
{
    i.low() + i.more() >= WORDS
}

// What two numbers have in common.
fn common(i: Arc, j: Arc) -> Arc
    requires i { IsFound i }
    requires j { IsFound j }
    ensures common { result ≡ values.common i j }
    ensures found { IsFound result }
{
    if is_mask(j) && goes_round(i) {
        Arc::of(i.low(), i.more())
    } else if is_mask(i) && goes_round(j) {
        Arc::of(j.low(), j.more())
    } else {
        Arc::of(0, i.top().min(j.top()))
    }
}

/// What the bits of both numbers have in common.
pub fn common_of(i: Option<Arc>, j: Option<Arc>) -> Option<Arc>
    requires i { IsFoundOr i }
    requires j { IsFoundOr j }
    ensures common { result ≡ values.common_of i j }
    ensures found { IsFoundOr result }
{
    match (i, j) {
        (None, None) => None,
        (None, Some(j)) => Some(Arc::of(0, j.top())),
        (Some(i), None) => Some(Arc::of(0, i.top())),
        (Some(i), Some(j)) => Some(common(i, j)),
    }
}

// The greatest word that is at most a sum of both numbers.
fn top_sum(i: Arc, j: Arc) -> u64
    requires i { IsFound i }
    requires j { IsFound j }
    ensures sum { result ≡ values.top_sum i j }
    ensures small { result < 2 ^ 32 }
{
    (i.top() + j.top()).min(WORDS - 1)
}

/// The bits of either number.
pub fn united_of(i: Option<Arc>, j: Option<Arc>) -> Option<Arc>
    requires i { IsFoundOr i }
    requires j { IsFoundOr j }
    ensures united { result ≡ values.united_of i j }
    ensures found { IsFoundOr result }
{
    match (i, j) {
        (Some(i), Some(j)) => from_to(i.least().max(j.least()), top_sum(i, j)),
        _ => None,
    }
}

/// The bits of one number that the other doesn't have.
pub fn parted_of(i: Option<Arc>, j: Option<Arc>) -> Option<Arc>
    requires i { IsFoundOr i }
    requires j { IsFoundOr j }
    ensures parted { result ≡ values.parted_of i j }
    ensures found { IsFoundOr result }
{
    match (i, j) {
        (Some(i), Some(j)) => Some(Arc::of(0, top_sum(i, j))),
        _ => None,
    }
}
