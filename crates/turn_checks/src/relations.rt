//! What instructions make of relations.

ghost use Rattle.std.specs.Prelude.{◌≡◌, ◌≤◌, ◌<◌, ◌+◌, ◌^◌, ◌&&◌, ℕ, not, nat_lt, true, is_some, Some};
ghost use Rattle.bound_laws.specs.Values as values;
ghost use Rattle.turn_laws.specs.Relating as relating;
ghost use Rattle.wrapped_intervals.specs.Small.{IsFoundOr, IsKeptOr};
ghost use Rattle.turn_checks.specs.Turned.{added_by, less_by, more_by, relation_view, taken_by};

use crate::tables::Relation;
use wrapped_intervals::{Arc, covers, difference_of, sum_of, sum_with, top_of};

/// The interval of a relation.
pub fn arc(low: u32, more: u32) -> Option<Arc>
    ensures arc { result ≡ Some (values.arc low more) }
    ensures kept { IsKeptOr result }
{
    Some(Arc::of(u64::from(low), u64::from(more)))
}

/// Whether a relation says no more than another.
pub fn is_weaker(b: Relation, q: Relation) -> bool
    ensures { result ≡ true → relating.IsWeaker (relation_view b) (relation_view q) }
{
    match (b, q) {
        (Relation::Unknown, _) => true,
        (Relation::Ahead(low, more), Relation::Ahead(start, many)) => {
            covers(arc(low, more), arc(start, many))
        }
        (Relation::Below(less, shift), Relation::Below(more, further)) => {
            less <= more && shift <= further
        }
        (Relation::Above(more), Relation::Above(most)) => more <= most,
        (Relation::Read(less), Relation::Read(more)) => less <= more,
        _ => false,
    }
}

// How much less a sum of what is in an interval is, where the other number is 2^32 less that.
fn taken(i: Option<Arc>, n: u32) -> Option<u64>
    requires { IsKeptOr i }
    ensures { result ≡ taken_by i n }
{
    if n == 0 {
        Some(0)
    } else if least_of(i) + u64::from(n) > 4_294_967_295 {
        Some(4_294_967_296 - u64::from(n))
    } else {
        None
    }
}

// How much more a sum is than so much, by the same.
fn added(more: u32, i: Option<Arc>, n: u32) -> Option<u64>
    requires { IsKeptOr i }
    ensures { result ≡ added_by more i n }
{
    let sum = u64::from(more) + u64::from(n);
    if top_of(i) + u64::from(n) < 4_294_967_296 {
        Some(sum)
    } else if sum > 4_294_967_295 {
        Some(sum - 4_294_967_296)
    } else {
        None
    }
}

// Whether there is a number that a sum with another one is at least.
fn is_at_least(sum: Option<u64>, more: u32, least: u32) -> bool
    ensures { result ≡ true → (n : ℕ) × (sum ≡ Some n) × (least ≤ more + n) }
{
    match sum {
        Some(n) => u64::from(least).saturating_sub(u64::from(more)) <= n,
        None => false,
    }
}

/// Whether it says no more than a sum with a number, of what is in an interval.
pub fn is_moved_by_number(b: Relation, q: Relation, i: Option<Arc>, n: u32) -> bool
    requires { IsKeptOr i }
    ensures { result ≡ true → relating.IsWeaker (relation_view b) (relating.moved_by_number (relation_view q) i n) }
{
    match (b, q) {
        (Relation::Unknown, _) => true,
        (Relation::Ahead(low, more), Relation::Ahead(start, many)) => {
            covers(arc(low, more), sum_with(arc(start, many), u64::from(n)))
        }
        (Relation::Below(less, shift), Relation::Below(more, further)) => {
            shift <= further && is_at_least(taken(i, n), more, less)
        }
        (Relation::Above(less), Relation::Above(more)) => is_at_least(added(more, i, n), 0, less),
        (Relation::Read(less), Relation::Read(more)) => n == 0 && less <= more,
        _ => false,
    }
}

/// The least and the greatest number of an interval.
#[derive(Clone, Copy)]
pub struct Ends {
    pub least: u64,
    pub top: u64,
}

/// Those of an interval, or of all words.
pub fn ends_of(j: Option<Arc>) -> Ends
    requires { IsFoundOr j }
    ensures least { result.least ≡ values.least_of j }
    ensures top { result.top ≡ values.top_of j }
    ensures small { result.top < 2 ^ 32 }
{
    match j {
        Some(i) => Ends {
            least: i.least(),
            top: i.top(),
        },
        None => Ends {
            least: 0,
            top: 4_294_967_295,
        },
    }
}

// How much more a sum of values of two intervals is than the first one, where it is a word.
fn sum_more(i: Option<Arc>, j: Option<Arc>) -> Option<u64>
    requires i { IsKeptOr i }
    requires j { IsKeptOr j }
    ensures { result ≡ more_by i j }
{
    let (one, other) = (ends_of(i), ends_of(j));
    if one.top + other.top < 4_294_967_296 {
        Some(other.least)
    } else {
        None
    }
}

/// Whether it says no more than a sum of values of two intervals.
pub fn is_moved_by_arc(b: Relation, q: Relation, i: Option<Arc>, j: Option<Arc>) -> bool
    requires i { IsKeptOr i }
    requires j { IsKeptOr j }
    ensures { result ≡ true → relating.IsWeaker (relation_view b) (relating.moved_by_arc (relation_view q) i j) }
{
    match (b, q) {
        (Relation::Unknown, _) => true,
        (Relation::Ahead(low, more), Relation::Ahead(start, many)) => {
            covers(arc(low, more), sum_of(arc(start, many), j))
        }
        (Relation::Below(less, shift), Relation::Below(more, further)) => {
            top_of(j) == 0 && less <= more && shift <= further
        }
        (Relation::Above(less), Relation::Above(more)) => is_at_least(sum_more(i, j), more, less),
        _ => false,
    }
}

// How much less a difference of their values is, where it doesn't wrap.
fn difference_less(i: Option<Arc>, j: Option<Arc>) -> Option<u64>
    requires i { IsKeptOr i }
    requires j { IsKeptOr j }
    ensures { result ≡ less_by i j }
{
    let words = i.is_some() && j.is_some();
    let (one, other) = (ends_of(i), ends_of(j));
    if words && other.top <= one.least {
        Some(other.least)
    } else {
        None
    }
}

/// Whether it says no more than a difference of values of two intervals.
pub fn is_moved_back(b: Relation, q: Relation, i: Option<Arc>, j: Option<Arc>) -> bool
    requires i { IsKeptOr i }
    requires j { IsKeptOr j }
    ensures { result ≡ true → relating.IsWeaker (relation_view b) (relating.moved_back (relation_view q) i j) }
{
    match (b, q) {
        (Relation::Unknown, _) => true,
        (Relation::Ahead(low, more), Relation::Ahead(start, many)) => {
            covers(arc(low, more), difference_of(arc(start, many), j))
        }
        (Relation::Below(less, shift), Relation::Below(more, further)) => {
            shift <= further && is_at_least(difference_less(i, j), more, less)
        }
        _ => false,
    }
}

/// Whether it says no more than a product with a power of 2, of a value of an interval.
pub fn is_multiplied(b: Relation, q: Relation, i: Option<Arc>, n: u32) -> bool
    requires i { IsKeptOr i }
    requires n { n < 32 }
    ensures { result ≡ true → relating.IsWeaker (relation_view b) (relating.multiplied (relation_view q) i n) }
{
    match (b, q) {
        (Relation::Unknown, _) => true,
        (Relation::Above(less), Relation::Above(more)) => {
            i.is_some()
                && top_of(i) * (1u64 << n) < 4_294_967_296
                && u64::from(less) <= u64::from(more) + least_of(i) * ((1u64 << n) - 1)
        }
        _ => false,
    }
}

/// Whether it says no more than a division of a word.
pub fn is_divided(b: Relation, q: Relation, n: u32, word: bool) -> bool
    requires { n < 32 }
    ensures { result ≡ true → relating.IsWeaker (relation_view b) (relating.divided (relation_view q) n word) }
{
    match (b, q) {
        (Relation::Unknown, _) => true,
        (Relation::Below(less, shift), Relation::Below(_, further)) => {
            word && less == 0 && u64::from(shift) <= u64::from(further) + u64::from(n)
        }
        _ => false,
    }
}

/// Whether it says no more than a word that is less by so much.
pub fn is_lowered(b: Relation, q: Relation, n: u32, word: bool) -> bool
    ensures { result ≡ true → relating.IsWeaker (relation_view b) (relating.lowered (relation_view q) n word) }
{
    match (b, q) {
        (Relation::Unknown, _) => true,
        (Relation::Below(less, shift), Relation::Below(more, further)) => {
            word && u64::from(less) <= u64::from(more) + u64::from(n) && shift <= further
        }
        _ => false,
    }
}

/// Whether an interval has words below 2^31 alone.
pub fn is_low(j: Option<Arc>) -> bool
    requires { IsKeptOr j }
    ensures { result ≡ relating.is_low j }
{
    match j {
        Some(_) => top_of(j) < 2_147_483_648,
        None => false,
    }
}

/// The least number of an interval.
pub fn least_of(j: Option<Arc>) -> u64
    requires { IsFoundOr j }
    ensures { result ≡ values.least_of j }
{
    match j {
        Some(i) => i.least(),
        None => 0,
    }
}

/// Whether neither of two intervals has a negative number.
pub fn are_low(i: Option<Arc>, j: Option<Arc>) -> bool
    requires i { IsKeptOr i }
    requires j { IsKeptOr j }
    ensures { result ≡ relating.are_low i j }
{
    is_low(i) && is_low(j)
}

/// How many bits a quotient by a value of an interval has less, at least.
pub fn bits_off(j: Option<Arc>) -> u32
    requires { IsFoundOr j }
    ensures bits { result ≡ relating.bits_off j }
    ensures small { result < 32 }
{
    let least = least_of(j);
    if least == 0 { 0 } else { least.ilog2() }
}

/// Whether an interval has one word alone.
pub fn is_one(j: Option<Arc>, n: u64) -> bool
    requires { IsFoundOr j }
    ensures { result ≡ relating.is_one j n }
{
    match j {
        Some(i) => i.least() == n && i.top() == n,
        None => false,
    }
}

/// How much at least was taken from the input, by what is left of it.
pub fn consumed_by(b: Relation) -> u32
    ensures { result ≡ relating.consumed_by (relation_view b) }
{
    match b {
        Relation::Below(less, _) => less,
        _ => 0,
    }
}

/// Whether a relation says at the header that a number is itself.
pub fn is_begun(b: Relation) -> bool
    ensures { result ≡ true → relating.IsBegun (relation_view b) }
{
    match b {
        Relation::Unknown => true,
        Relation::Ahead(low, more) => covers(arc(low, more), Some(Arc::strided(0, 0, 0))),
        Relation::Below(less, shift) => less == 0 && shift == 0,
        Relation::Above(more) => more == 0,
        Relation::Read(_) => false,
    }
}

/// Whether it says no more than what is so of a number that is greater than one with a relation, by so much at least.
pub fn is_greater(b: Relation, q: Relation, n: u32) -> bool
    ensures { result ≡ true → relating.IsWeaker (relation_view b) (relating.greater (relation_view q) n) }
{
    match (b, q) {
        (Relation::Unknown, _) => true,
        (Relation::Above(less), Relation::Above(more)) => {
            u64::from(less) <= u64::from(more) + u64::from(n)
        }
        _ => false,
    }
}

/// And of one that is less.
pub fn is_lesser(b: Relation, q: Relation, n: u32) -> bool
    ensures { result ≡ true → relating.IsWeaker (relation_view b) (relating.lesser (relation_view q) n) }
{
    match (b, q) {
        (Relation::Unknown, _) => true,
        (Relation::Below(less, shift), Relation::Below(more, further)) => {
            u64::from(less) <= u64::from(more) + u64::from(n) && shift <= further
        }
        _ => false,
    }
}
