//! Traces of values, and what sums and multiples make of them.

ghost use Rattle.std.specs.Prelude.{◌≡◌, IfSome, Some, true};
ghost use Rattle.wrapped_intervals.specs.Small.{IsFoundOr, IsKeptOr};
ghost use Rattle.walk_areas.specs.Walking as walking;
ghost use Rattle.walk_checks.specs.Walked.{found_view, trace_view, traced_view};

use crate::tables::Trace;
use wrapped_intervals::{Arc, covers, is_kept, scaled, sum_of, sum_with};

/// A trace as it is found from others.
#[derive(Clone, Copy)]
pub struct Found {
    pub firsts: u64,
    pub seconds: u64,
    pub more: Option<Arc>,
}

/// The same trace, where its interval is short enough to be kept.
pub fn known(trace: Trace) -> Option<Found>
    ensures known { IfSome result (λ z. found_view z ≡ Some (trace_view trace)) }
    ensures kept { IfSome result (λ z. IsKeptOr z.more) }
{
    if is_kept(Some(trace.more)) {
        Some(Found {
            firsts: u64::from(trace.firsts),
            seconds: u64::from(trace.seconds),
            more: Some(trace.more),
        })
    } else {
        None
    }
}

/// That of a value that depends on neither number, by its interval.
pub fn by_interval(i: Option<Arc>) -> Option<Found>
    requires { IsKeptOr i }
    ensures interval { IfSome result (λ z. found_view z ≡ walking.by_interval i) }
    ensures kept { IfSome result (λ z. IsKeptOr z.more) }
{
    match i {
        Some(i) => Some(Found {
            firsts: 0,
            seconds: 0,
            more: Some(i),
        }),
        None => None,
    }
}

/// Whether a trace says no more than another. Its interval is short enough to be kept then.
pub fn is_wider(b: &Found, z: &Found) -> bool
    requires { IsFoundOr z.now.more }
    ensures wider { result ≡ true → walking.IsWider (found_view b.now) (found_view z.now) }
    ensures kept { result ≡ true → IsKeptOr b.now.more }
{
    is_kept(b.more) && b.firsts == z.firsts && b.seconds == z.seconds && covers(b.more, z.more)
}

/// The same of what a table says, which may be nothing.
pub fn is_wider_trace(b: Option<Trace>, z: &Found) -> bool
    requires { IsFoundOr z.now.more }
    ensures { result ≡ true → walking.IsWider (traced_view b) (found_view z.now) }
{
    match b {
        Some(b) => match known(b) {
            Some(b) => is_wider(&b, z),
            None => false,
        },
        None => true,
    }
}

/// The sum with a number.
pub fn moved(z: &Found, n: u32) -> Found
    requires { IsFoundOr z.now.more }
    ensures moved { found_view result ≡ walking.moved_by_number (found_view z.now) n }
    ensures found { IsFoundOr result.more }
{
    Found {
        firsts: z.firsts,
        seconds: z.seconds,
        more: sum_with(z.more, u64::from(n)),
    }
}

/// The sum of both, where its numbers of times have at most 64 bits.
pub fn sum_of_both(y: &Found, z: &Found) -> Option<Found>
    requires y { IsFoundOr y.now.more }
    requires z { IsFoundOr z.now.more }
    ensures sum { IfSome result (λ s. found_view s ≡ walking.sum_of_both (found_view y.now) (found_view z.now)) }
    ensures found { IfSome result (λ s. IsFoundOr s.more) }
{
    match (
        y.firsts.checked_add(z.firsts),
        y.seconds.checked_add(z.seconds),
    ) {
        (Some(firsts), Some(seconds)) => Some(Found {
            firsts,
            seconds,
            more: sum_of(y.more, z.more),
        }),
        _ => None,
    }
}

/// So many times the value, where its numbers of times have at most 64 bits.
pub fn multiplied(z: &Found, n: u32) -> Option<Found>
    requires { IsKeptOr z.now.more }
    ensures product { IfSome result (λ s. found_view s ≡ walking.multiplied (found_view z.now) n) }
    ensures found { IfSome result (λ s. IsFoundOr s.more) }
{
    match (
        u64::from(n).checked_mul(z.firsts),
        u64::from(n).checked_mul(z.seconds),
    ) {
        (Some(firsts), Some(seconds)) => Some(Found {
            firsts,
            seconds,
            more: scaled(u64::from(n), z.more),
        }),
        _ => None,
    }
}
