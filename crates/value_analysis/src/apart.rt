//! Intervals of addresses that have nothing in common, and sums of intervals where nothing is known of what isn't.

ghost use Rattle.std.specs.Prelude.{◌≡◌, ◌≤◌, ◌^◌};
ghost use Rattle.wrapped_intervals.specs.Small.{IsKeptOr};

use crate::arcs::{WORDS, ahead, kept};
use wrapped_intervals::{Arc, sum_of, sum_with};

/// The number whose sum with this one is 0, modulo 2^32.
pub fn opposite_of(n: u32) -> u64
    ensures { result ≤ 2 ^ 32 }
{
    u64::from(n.wrapping_neg())
}

/// The sums with a number.
pub fn raised(arc: Option<Arc>, n: u32) -> Option<Arc>
    ensures { IsKeptOr result }
{
    match kept(arc) {
        Some(i) => kept(sum_with(Some(i), u64::from(n))),
        None => None,
    }
}

/// The sums of both.
pub fn summed(a: Option<Arc>, b: Option<Arc>) -> Option<Arc>
    ensures { IsKeptOr result }
{
    match (kept(a), kept(b)) {
        (Some(i), Some(j)) => kept(sum_of(Some(i), Some(j))),
        _ => None,
    }
}

/// Whether none of so many bytes from an address of one interval on is one of the four from an address of the other on.
pub fn are_apart(a: Option<Arc>, width: u64, b: Option<Arc>) -> bool {
    let (Some(i), Some(j)) = (a, b) else {
        return false;
    };
    let distance = ahead(i.low(), j.low());
    i.more() < distance
        && i.more().saturating_add(width) <= distance
        && distance.saturating_add(j.more()).saturating_add(4) <= WORDS
}

/// Whether so many bytes fit between an address and what x2 had when the function began, which is above it.
pub fn is_below(begins: Option<Arc>, offset: u32, width: u64) -> bool {
    let Some(i) = begins else {
        return false;
    };
    i.low().saturating_add(i.more()) < WORDS
        && opposite_of(offset) <= i.low()
        && width <= opposite_of(offset)
}

/// The same of all addresses of an interval, by how far they are above what x2 had.
pub fn are_below(begins: Option<Arc>, span: Option<Arc>, width: u64) -> bool {
    let (Some(i), Some(j)) = (begins, span) else {
        return false;
    };
    let end = j.low().saturating_add(j.more());
    i.low().saturating_add(i.more()) < WORDS
        && j.low() > 0
        && end < WORDS
        && WORDS.saturating_sub(j.low()) <= i.low()
        && width <= WORDS.saturating_sub(end)
}
