//! Numbers and intervals modulo 2^32 that have nothing in common.

ghost use Rattle.std.specs.Prelude.{◌≡◌, ◌≤◌, ◌^◌, Some, true};
ghost use Rattle.bound_laws.specs.Values as values;
ghost use Rattle.stack_laws.specs.Stacks as stacks;
ghost use Rattle.wrapped_intervals.specs.Small.{IsFoundOr};

use wrapped_intervals::{Arc, ahead, opposite_of, sum_of, sum_with};

// How many words there are.
const WORDS: u64 = 4_294_967_296;

/// Whether none of so many bytes from an address on is one of the four from the other on, modulo 2^32.
pub fn is_apart(at: u64, width: u64, other: u64) -> bool
    requires at { at ≤ 2 ^ 32 }
    requires other { other ≤ 2 ^ 32 }
    ensures { result ≡ true → stacks.IsApart at width other }
{
    width <= ahead(at, other) && 4 <= ahead(other, at)
}

// The same of all addresses of two intervals.
fn are_arcs_apart(i: Arc, width: u64, j: Arc) -> bool
    requires i { IsFoundOr (Some i) }
    requires j { IsFoundOr (Some j) }
    requires width { width ≤ 2 ^ 32 }
    ensures { result ≡ true → stacks.AreApart (Some i) width (Some j) }
{
    let distance = ahead(i.low(), j.low());
    i.more() < distance && width + i.more() <= distance && distance + j.more() + 4 <= WORDS
}

/// The same, where both are known.
pub fn are_apart(i: Option<Arc>, width: u64, j: Option<Arc>) -> bool
    requires i { IsFoundOr i }
    requires j { IsFoundOr j }
    requires width { width ≤ 2 ^ 32 }
    ensures { result ≡ true → stacks.AreApart i width j }
{
    match (i, j) {
        (Some(i), Some(j)) => are_arcs_apart(i, width, j),
        _ => false,
    }
}

/// Whether a number is not in an interval.
pub fn has_not(i: Option<Arc>, n: u64) -> bool
    requires i { IsFoundOr i }
    requires n { n ≤ 2 ^ 33 }
    ensures { result ≡ true → stacks.HasNot i n }
{
    match i {
        Some(i) => i.more() < ahead(i.low(), n),
        None => false,
    }
}

/// Whether so many bytes fit between an address and what x2 had when the function began, which is above it, without wrapping.
pub fn is_below(begins: Option<Arc>, o: u64, width: u64) -> bool
    requires { IsFoundOr begins }
    ensures { result ≡ true → stacks.IsBelow begins o width }
{
    match begins {
        Some(i) => {
            let down = opposite_of(o);
            i.low() + i.more() < WORDS && down <= i.low() && width <= down
        }
        None => false,
    }
}

// The same of all numbers of an interval.
fn are_arcs_below(i: Arc, j: Arc, width: u64) -> bool
    requires i { IsFoundOr (Some i) }
    requires j { IsFoundOr (Some j) }
    ensures { result ≡ true → stacks.AreBelow (Some i) (Some j) width }
{
    i.low() + i.more() < WORDS
        && 0 < j.low()
        && j.low() + j.more() < WORDS
        && opposite_of(j.low()) <= i.low()
        && width <= opposite_of(j.low() + j.more())
}

/// The same, where both are known.
pub fn are_below(begins: Option<Arc>, span: Option<Arc>, width: u64) -> bool
    requires begins { IsFoundOr begins }
    requires span { IsFoundOr span }
    ensures { result ≡ true → stacks.AreBelow begins span width }
{
    match (begins, span) {
        (Some(i), Some(j)) => are_arcs_below(i, j, width),
        _ => false,
    }
}

/// The sum with a number, where the interval is known.
pub fn known_sum(i: Option<Arc>, n: u64) -> Option<Arc>
    requires i { IsFoundOr i }
    requires n { n ≤ 2 ^ 33 }
    ensures sum { result ≡ stacks.known_sum i n }
    ensures found { IsFoundOr result }
{
    match i {
        Some(i) => sum_with(Some(i), n),
        None => None,
    }
}

/// The sum of two, where the first is known.
pub fn known_sums(i: Option<Arc>, j: Option<Arc>) -> Option<Arc>
    requires i { IsFoundOr i }
    requires j { IsFoundOr j }
    ensures sum { result ≡ stacks.known_sums i j }
    ensures found { IsFoundOr result }
{
    match i {
        Some(i) => sum_of(Some(i), j),
        None => None,
    }
}
