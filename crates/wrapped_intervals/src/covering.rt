//! Whether an interval holds another, and what both have in common.

ghost use Rattle.std.specs.Prelude.{◌≡◌, ◌≤◌, ◌<◌, ◌^◌, Some, true};
ghost use Rattle.bound_laws.specs.Values as values;
ghost use Rattle.wrapped_intervals.specs.Small.{IsFound, IsFoundOr, IsKept, IsKeptOr};

use crate::arcs::{Arc, WORDS, is_multiple};
use crate::sums::plus;

/// How far a word is behind another, modulo 2^32.
pub fn ahead(low: u64, value: u64) -> u64
    requires low { low ≤ 2 ^ 32 }
    requires value { value ≤ 2 ^ 33 }
    ensures ahead { result ≡ values.ahead low value }
    ensures word { result < 2 ^ 32 }
{
    (value + (WORDS - low)) % WORDS
}

// Whether what is in the other is in this one, with its strides.
fn is_part(a: Arc, b: Arc) -> bool
    requires a { IsKept a }
    requires b { IsFound b }
    ensures { result ≡ true → values.IsPart a b }
{
    let distance = ahead(a.low(), b.low());
    distance + b.more() <= a.more()
        && is_multiple(a.stride(), distance)
        && is_multiple(a.stride(), b.stride())
}

// Whether all words are in it.
fn is_all(a: Arc) -> bool
    ensures { result ≡ true → values.IsAll a }
{
    a.more() >= WORDS - 1 && a.stride() == 1
}

/// Whether an interval holds another; where nothing is known, it does.
pub fn covers(a: Option<Arc>, b: Option<Arc>) -> bool
    requires a { IsKeptOr a }
    requires b { IsFoundOr b }
    ensures { result ≡ true → values.Covers a b }
{
    match (a, b) {
        (None, _) => true,
        (Some(_), None) => false,
        (Some(a), Some(b)) => is_all(a) || is_part(a, b),
    }
}

// The first multiple of a stride that is at least so much.
fn multiple_from(stride: u64, n: u64) -> u64
    requires stride { stride < 2 ^ 32 }
    requires n { n ≤ 2 ^ 32 }
    ensures multiple { result ≡ values.multiple_from stride n }
    ensures small { result ≤ 2 ^ 33 }
{
    if stride == 0 {
        n
    } else {
        let up = n + (stride - 1);
        up - up % stride
    }
}

// The numbers of an interval that are at least so far behind its first one, and at most so far; all of its numbers, where none is.
fn part(i: Arc, from: u64, to: u64) -> Arc
    requires i { IsKept i }
    requires from { from ≤ 2 ^ 32 }
    ensures part { result ≡ values.part i from to }
    ensures found { IsFound result }
{
    let first = multiple_from(i.stride(), from);
    let last = i.more().min(to);
    if last < first {
        i
    } else {
        Arc::strided(plus(i.low(), first), last - first, i.stride())
    }
}

/// The numbers of an interval that another one has too, where these are one interval; else those of the shorter one.
pub fn meet(i: Arc, j: Arc) -> Arc
    requires i { IsKept i }
    requires j { IsFound j }
    ensures meet { result ≡ values.meet i j }
    ensures found { IsFound result }
{
    let distance = ahead(i.low(), j.low());
    let last = distance + j.more();
    if last < WORDS {
        part(i, distance, last)
    } else if i.more() < distance {
        part(i, 0, last - WORDS)
    } else if j.more() < i.more() {
        j
    } else {
        i
    }
}

/// The same, where one may be unknown.
pub fn meet_of(i: Option<Arc>, j: Option<Arc>) -> Option<Arc>
    requires i { IsKeptOr i }
    requires j { IsFoundOr j }
    ensures meet { result ≡ values.meet_of i j }
    ensures found { IsFoundOr result }
{
    match (i, j) {
        (None, j) => j,
        (Some(i), None) => Some(i),
        (Some(i), Some(j)) => Some(meet(i, j)),
    }
}
