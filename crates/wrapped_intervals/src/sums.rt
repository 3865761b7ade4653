//! Sums, differences and multiples.

ghost use Rattle.std.specs.Prelude.{◌≡◌, ◌≤◌, ◌<◌, ◌^◌, Some};
ghost use Rattle.scale_base.specs.Arith.{plus};
ghost use Rattle.bound_laws.specs.Values as values;
ghost use Rattle.wrapped_intervals.specs.Small.{IsFound, IsFoundOr, IsKept, IsKeptOr};

use crate::arcs::{Arc, WORDS, word};

/// The sum of two words, modulo 2^32.
pub fn plus(a: u64, b: u64) -> u64
    requires a { a ≤ 2 ^ 33 }
    requires b { b ≤ 2 ^ 33 }
    ensures sum { result ≡ plus a b }
    ensures word { result < 2 ^ 32 }
{
    (a + b) % WORDS
}

/// A stride of sums: 0 is that of one number.
pub fn common_stride(s: u64, t: u64) -> u64
    requires s { s < 2 ^ 63 }
    requires t { t < 2 ^ 63 }
    ensures stride { result ≡ values.common_stride s t }
    ensures small { result < 2 ^ 63 }
{
    if s == 0 {
        t
    } else if t == 0 || s == t {
        s
    } else {
        1
    }
}

// The sum of two intervals that don't go round together.
fn sum(i: Arc, j: Arc) -> Option<Arc>
    requires i { IsFound i }
    requires j { IsFound j }
    ensures sum { result ≡ values.sum_of (Some i) (Some j) }
    ensures found { IsFoundOr result }
{
    let more = i.more() + j.more();
    if more < WORDS {
        Some(Arc::strided(
            plus(i.low(), j.low()),
            more,
            common_stride(i.stride(), j.stride()),
        ))
    } else {
        word()
    }
}

/// The sum.
pub fn sum_of(i: Option<Arc>, j: Option<Arc>) -> Option<Arc>
    requires i { IsFoundOr i }
    requires j { IsFoundOr j }
    ensures sum { result ≡ values.sum_of i j }
    ensures found { IsFoundOr result }
{
    match (i, j) {
        (Some(i), Some(j)) => sum(i, j),
        _ => word(),
    }
}

/// The sum with a number.
pub fn sum_with(i: Option<Arc>, n: u64) -> Option<Arc>
    requires i { IsFoundOr i }
    requires n { n ≤ 2 ^ 33 }
    ensures sum { result ≡ values.sum_with i n }
    ensures found { IsFoundOr result }
{
    match i {
        Some(i) => Some(Arc::strided(plus(i.low(), n), i.more(), i.stride())),
        None => word(),
    }
}

/// The numbers below 0 in place of those above, modulo 2^32.
pub fn negated(i: Arc) -> Arc
    requires { IsFound i }
    ensures negated { result ≡ values.negated i }
    ensures found { IsFound result }
{
    let stride = if i.is_whole() { i.stride() } else { 1 };
    Arc::strided((WORDS - plus(i.low(), i.more())) % WORDS, i.more(), stride)
}

/// The difference.
pub fn difference_of(i: Option<Arc>, j: Option<Arc>) -> Option<Arc>
    requires i { IsFoundOr i }
    requires j { IsFoundOr j }
    ensures difference { result ≡ values.difference_of i j }
    ensures found { IsFoundOr result }
{
    match j {
        Some(j) => sum_of(i, Some(negated(j))),
        None => word(),
    }
}

/// The multiples by a number, modulo 2^32.
pub fn times(i: Option<Arc>, factor: u64) -> Option<Arc>
    requires i { IsKeptOr i }
    requires factor { factor ≤ 2 ^ 31 }
    ensures product { result ≡ values.times i factor }
    ensures found { IsFoundOr result }
{
    match i {
        Some(i) => {
            let more = i.more() * factor;
            if more < WORDS {
                Some(Arc::strided(i.low() * factor % WORDS, more, i.stride() * factor))
            } else {
                word()
            }
        }
        None => word(),
    }
}

// That of a multiple.
fn negated_of(i: Option<Arc>) -> Option<Arc>
    requires { IsFoundOr i }
    ensures negated { result ≡ values.negated_of i }
    ensures found { IsFoundOr result }
{
    match i {
        Some(i) => Some(negated(i)),
        None => word(),
    }
}

// The multiples by a factor that isn't 0, where 2^32 - 1 stands for -1.
fn multiple(factor: u64, i: Arc) -> Option<Arc>
    requires factor { factor < 2 ^ 32 }
    requires i { IsKept i }
    ensures multiple { result ≡ values.multiple factor (Some i) }
    ensures found { IsFoundOr result }
{
    if factor == 1 {
        Some(i)
    } else if factor == WORDS - 1 {
        Some(negated(i))
    } else if factor == 0 {
        word()
    } else if factor < 2_147_483_648 {
        times(Some(i), factor)
    } else {
        negated_of(times(Some(i), WORDS - factor))
    }
}

/// The multiples by a factor, where 2^32 - 1 stands for -1.
pub fn scaled(factor: u64, i: Option<Arc>) -> Option<Arc>
    requires factor { factor < 2 ^ 32 }
    requires i { IsKeptOr i }
    ensures scaled { result ≡ values.scaled factor i }
    ensures found { IsFoundOr result }
{
    if factor == 0 {
        return Some(Arc::strided(0, 0, 0));
    }
    match i {
        Some(i) => multiple(factor, i),
        None => word(),
    }
}

/// The number whose sum with this one is 0, modulo 2^32.
pub fn opposite_of(n: u64) -> u64
    ensures opposite { result ≡ values.opposite_of n }
    ensures word { result < 2 ^ 32 }
{
    (WORDS - n % WORDS) % WORDS
}
