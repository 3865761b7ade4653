//! What two intervals have together, and what they may grow to.

ghost use Rattle.std.specs.Prelude.{◌≡◌, ◌≤◌, ◌<◌, ◌^◌, true};
ghost use Rattle.wrapped_intervals.specs.Small.{IsKept, IsKeptOr};

use crate::thresholds::{Threshold, Whose};
use wrapped_intervals::{Arc, covers, word};

/// How many words there are.
pub const WORDS: u64 = 4_294_967_296;

/// The first address of the stack, and the one behind it.
pub const STACK_START: u64 = 0x7FFC_0000;

const STACK_END: u64 = 0x8000_0000;

/// Numbers from here on may be addresses.
const LEAST_ADDRESS: u64 = 0x1000;

/// How far a threshold may be from the end of an interval that grows to it.
const FAR: u64 = 2_147_483_648;

/// By how many numbers less an interval without a stride is taken for one with a stride.
const FEW: u64 = 2;

/// How far past a threshold a step may go.
const NEAR: u64 = 2048;

/// How often an interval grows before thresholds that are less far are passed over, since they may be the ends of what grows with it, and before those of its
/// register alone are looked at.
const APART_FROM: u8 = 8;

const APART: u64 = 4;

const OWN_FROM: u8 = 20;

/// Thresholds, and how far they are at least.
#[derive(Clone, Copy)]
struct Ends<'a> {
    thresholds: &'a [Threshold],
    least: u64,
}

// Whether an interval is short enough to be kept.
fn is_short(a: Arc) -> bool
    ensures { result ≡ true → IsKept a }
{
    a.low() < WORDS && a.more() < WORDS && a.stride() < WORDS
}

// An interval of all that is in one whose stride is too great.
fn without_stride(a: Arc) -> Option<Arc>
    ensures { IsKeptOr result }
{
    if a.low() < WORDS && a.more() < WORDS {
        Some(Arc::of(a.low(), a.more()))
    } else {
        None
    }
}

/// An interval that is short enough to be kept, and has what this one has.
pub fn kept(arc: Option<Arc>) -> Option<Arc>
    ensures { IsKeptOr result }
{
    match arc {
        Some(a) => {
            if is_short(a) {
                Some(a)
            } else {
                without_stride(a)
            }
        }
        None => None,
    }
}

/// Whether an interval holds another.
pub fn holds(a: Option<Arc>, b: Option<Arc>) -> bool {
    covers(kept(a), kept(b))
}

/// The numbers of one interval, or those of the other, whichever is shorter.
pub fn shorter(a: Option<Arc>, b: Option<Arc>) -> Option<Arc> {
    match (a, b) {
        (Some(i), Some(j)) => { if i.more() < j.more() { a } else { b } }
        (None, _) => b,
        (_, None) => a,
    }
}

/// The one number of an interval.
pub fn only(arc: Option<Arc>) -> Option<u32> {
    let i = kept(arc)?;
    if i.more() == 0 {
        u32::try_from(i.low()).ok()
    } else {
        None
    }
}

// How many numbers an interval has behind its first one.
fn members(a: Arc) -> u64 {
    a.more() / a.stride().max(1)
}

// Whether an interval has fewer numbers than another, which has a stride: far fewer, if it has none.
fn is_fewer(a: Arc, b: Arc) -> bool {
    if b.stride() > 1 && a.stride() <= 1 {
        members(a).saturating_add(FEW) < members(b)
    } else {
        members(a) < members(b)
    }
}

/// The one of both intervals that has fewer numbers, or the second one.
pub fn fewer(a: Option<Arc>, b: Option<Arc>) -> Option<Arc> {
    match (a, b) {
        (Some(i), Some(j)) => { if is_fewer(i, j) { a } else { b } }
        (None, _) => b,
        (_, None) => a,
    }
}

/// How far a word is behind another, modulo 2^32.
pub fn ahead(low: u64, value: u64) -> u64
    ensures { result < 2 ^ 32 }
{
    (value % WORDS + (WORDS - low % WORDS)) % WORDS
}

/// The greatest common divisor, where 0 is a multiple of all.
pub fn common_divisor(mut a: u64, mut b: u64) -> u64 {
    while b != 0 {
        let rest = a % b;
        a = b;
        b = rest;
    }
    a
}

// The least interval from a word on that holds both.
fn both_from(low: u64, a: Arc, b: Arc) -> Option<Arc> {
    let to_a = ahead(low, a.low());
    let to_b = ahead(low, b.low());
    let more = to_a
        .saturating_add(a.more())
        .max(to_b.saturating_add(b.more()));
    if more >= WORDS - 1 {
        return word();
    }
    let stride = common_divisor(
        common_divisor(a.stride(), b.stride()),
        common_divisor(to_a, to_b),
    );
    Some(Arc::strided(low, more, stride))
}

// Whether an interval is of addresses near the end of the stack, and the other one of addresses below the stack: there is more of the stack before these than
// behind them.
fn is_above(stack: Arc, other: Arc) -> bool {
    let end = stack.low().saturating_add(stack.more());
    STACK_START <= stack.low()
        && stack.low() < STACK_END - 16
        && end <= STACK_END
        && LEAST_ADDRESS <= other.low()
        && other.low().saturating_add(other.more()) < STACK_START
}

/// An interval that holds both: the shorter one of two, or the one that goes from the stack on round to other addresses. Nothing is known where nothing is of one.
pub fn joined(a: Option<Arc>, b: Option<Arc>) -> Option<Arc> {
    match (a, b) {
        (Some(i), Some(j)) => {
            if is_above(i, j) {
                both_from(i.low(), i, j)
            } else if is_above(j, i) {
                both_from(j.low(), i, j)
            } else {
                shorter(both_from(i.low(), i, j), both_from(j.low(), i, j))
            }
        }
        _ => None,
    }
}

/// An interval that has grown is stretched to a wider one: only at its end, or only at its beginning, where it has grown there alone.
pub fn one_sided(old: Option<Arc>, new: Option<Arc>, wide: Option<Arc>) -> Option<Arc> {
    let (i, j, k) = (old?, new?, wide?);
    let before = ahead(k.low(), i.low());
    let behind = before.saturating_add(i.more());
    if i.low() == j.low() && before <= k.more() {
        Some(Arc::strided(i.low(), k.more() - before, k.stride()))
    } else if ahead(j.low(), i.low()).saturating_add(i.more()) == j.more() && behind <= k.more() {
        Some(Arc::strided(k.low(), behind, k.stride()))
    } else {
        wide
    }
}

// How far below the first number of an interval the nearest threshold is, rounded to the interval's stride.
fn nearest_below(arc: Arc, whose: Whose, ends: &Ends<'_>) -> Option<u64> {
    let mut nearest = None;
    let stride = arc.stride().max(1);
    for threshold in ends.thresholds {
        let far = ahead(u64::from(threshold.word), arc.low());
        if threshold.is_for(whose) && ends.least <= far && far < FAR {
            nearest = lesser(nearest, far - far % stride);
        }
    }
    nearest
}

// How far behind the first number of an interval the nearest threshold is that isn't before its last, rounded so.
fn nearest_above(arc: Arc, whose: Whose, ends: &Ends<'_>) -> Option<u64> {
    let mut nearest = None;
    let stride = arc.stride().max(1);
    let least = arc.more().saturating_add(ends.least);
    for threshold in ends.thresholds {
        let far = ahead(arc.low(), u64::from(threshold.word));
        let whole = far - far % stride;
        if threshold.is_for(whose) && whole >= least && whole - arc.more() < FAR {
            nearest = lesser(nearest, whole);
        }
    }
    nearest
}

// Whether a threshold of a register is a little behind the first number of an interval, or a little before the last: what a loop's step goes past it.
fn is_near(number: u64, register: u8, thresholds: &[Threshold]) -> bool {
    for threshold in thresholds {
        let far = ahead(number, u64::from(threshold.word));
        if threshold.is_for(Whose::Of(register)) && far.min(WORDS - far) < NEAR {
            return true;
        }
    }
    false
}

fn lesser(least: Option<u64>, n: u64) -> Option<u64> {
    match least {
        Some(m) if m <= n => Some(m),
        _ => Some(n),
    }
}

// An interval that begins so much before this one, and ends so far behind its first number.
fn stretched(arc: Arc, before: u64, more: u64) -> Option<Arc> {
    let more = before.saturating_add(more);
    if more >= WORDS - 1 {
        return word();
    }
    Some(Arc::strided(ahead(before, arc.low()), more, arc.stride()))
}

// How far behind its first number an interval that is to end before 0, at it or behind it ends.
fn end_near_nothing(arc: Arc) -> Option<u64> {
    let stride = arc.stride().max(1);
    for end in [WORDS - 1, 0, 1] {
        let far = ahead(arc.low(), end);
        let whole = far - far % stride;
        if whole >= arc.more() && whole - arc.more() < FAR {
            return Some(whole);
        }
    }
    None
}

// And how far below that it begins, if it is to begin behind 0, at it or before it.
fn begin_near_nothing(arc: Arc) -> Option<u64> {
    let stride = arc.stride().max(1);
    for begin in [1, 0, WORDS - 1] {
        let far = ahead(begin, arc.low());
        if far < FAR {
            return Some(far - far % stride);
        }
    }
    None
}

/// An interval of a difference that has grown is stretched to 0, or to the number before or behind it.
pub fn stretched_to(old: Arc, new: Arc) -> Option<Arc> {
    let before = if new.low() == old.low() {
        Some(0)
    } else {
        begin_near_nothing(new)
    };
    let has_end = ahead(new.low(), old.low()).saturating_add(old.more()) >= new.more();
    let more = if has_end {
        Some(new.more())
    } else {
        end_near_nothing(new)
    };
    stretched(new, before?, more?)
}

// How far below its first number an interval that has grown begins.
fn before_of(old: Arc, new: Arc, whose: Whose, ends: &Ends<'_>) -> Option<u64> {
    if new.low() == old.low() {
        Some(0)
    } else {
        nearest_below(new, whose, ends)
    }
}

// How far behind its first number it ends.
fn more_of(old: Arc, new: Arc, whose: Whose, ends: &Ends<'_>) -> Option<u64> {
    if ahead(new.low(), old.low()).saturating_add(old.more()) >= new.more() {
        Some(new.more())
    } else {
        nearest_above(new, whose, ends)
    }
}

// How far below its first number an interval that is to grow begins: at a threshold of the register, where it does if one is near, or at another's.
fn any_before(old: Arc, new: Arc, register: u8, ends: &Ends<'_>) -> Option<u64> {
    let own = before_of(old, new, Whose::Of(register), ends);
    if own.is_none() && is_near(new.low(), register, ends.thresholds) {
        return Some(0);
    }
    own.or(before_of(old, new, Whose::OfAny, ends))
}

// And how far behind it ends.
fn any_more(old: Arc, new: Arc, register: u8, ends: &Ends<'_>) -> Option<u64> {
    let own = more_of(old, new, Whose::Of(register), ends);
    let last = new.low().saturating_add(new.more());
    if own.is_none() && is_near(last, register, ends.thresholds) {
        return Some(new.more());
    }
    own.or(more_of(old, new, Whose::OfAny, ends))
}

/// An interval that has grown so often is stretched to the next threshold on each side on which it has: to one of the register, else by nothing where one is near
/// or to one of another register, or to all words where there is none. In the end those of the register alone are looked at.
pub fn widened(
    old: Arc,
    new: Arc,
    register: u8,
    count: u8,
    thresholds: &[Threshold],
) -> Option<Arc> {
    let own = Whose::Of(register);
    let least = if (APART_FROM..OWN_FROM).contains(&count) {
        APART
    } else {
        0
    };
    let ends = Ends { thresholds, least };
    let (before, more) = if count < OWN_FROM {
        (
            any_before(old, new, register, &ends),
            any_more(old, new, register, &ends),
        )
    } else {
        (
            before_of(old, new, own, &ends),
            more_of(old, new, own, &ends),
        )
    };
    match (before, more) {
        (Some(before), Some(more)) => stretched(new, before, more),
        _ => word(),
    }
}
