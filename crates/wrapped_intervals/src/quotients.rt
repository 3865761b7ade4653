//! Products, quotients, remainders and shifts.

ghost use Rattle.std.specs.Prelude.{◌≡◌, ◌≤◌, ◌<◌, ◌^◌, ◌*◌, ◌/◌, Some};
ghost use Rattle.bound_laws.specs.Values as values;
ghost use Rattle.wrapped_intervals.specs.Small.{IsFound, IsFoundOr, IsKept, IsKeptOr};

use crate::arcs::{Arc, WORDS, exactly, from_to, word};
use crate::sums::{scaled, sum_with};

// How many signed words there are from 0 on.
const HALF: u64 = 2_147_483_648;

// The product of two words.
fn product(a: u64, b: u64) -> u64
    requires a { a < 2 ^ 32 }
    requires b { b < 2 ^ 32 }
    ensures product { result ≡ a * b }
{
    a * b
}

// The products of numbers of two intervals.
fn products(i: Arc, j: Arc) -> Option<Arc>
    requires i { IsKept i }
    requires j { IsKept j }
    ensures product { result ≡ values.product_of (Some i) (Some j) }
    ensures found { IsFoundOr result }
{
    if j.more() == 0 {
        scaled(j.low(), Some(i))
    } else if i.more() == 0 {
        scaled(i.low(), Some(j))
    } else if product(i.top(), j.top()) < WORDS {
        from_to(product(i.least(), j.least()), product(i.top(), j.top()))
    } else {
        word()
    }
}

/// The product.
pub fn product_of(i: Option<Arc>, j: Option<Arc>) -> Option<Arc>
    requires i { IsKeptOr i }
    requires j { IsKeptOr j }
    ensures product { result ≡ values.product_of i j }
    ensures found { IsFoundOr result }
{
    match (i, j) {
        (Some(i), Some(j)) => products(i, j),
        _ => word(),
    }
}

// The upper halves of the products of numbers of two intervals.
fn upper_products(i: Arc, j: Arc) -> Option<Arc>
    requires i { IsFound i }
    requires j { IsFound j }
    ensures product { result ≡ values.upper_product_of (Some i) (Some j) }
    ensures found { IsFoundOr result }
{
    from_to(
        upper_half(i.least(), j.least()),
        upper_half(i.top(), j.top()),
    )
}

/// The upper half of the product.
pub fn upper_product_of(i: Option<Arc>, j: Option<Arc>) -> Option<Arc>
    requires i { IsFoundOr i }
    requires j { IsFoundOr j }
    ensures product { result ≡ values.upper_product_of i j }
    ensures found { IsFoundOr result }
{
    match (i, j) {
        (Some(i), Some(j)) => upper_products(i, j),
        _ => None,
    }
}

// The upper half of the product of two words.
fn upper_half(a: u64, b: u64) -> u64
    requires a { a < 2 ^ 32 }
    requires b { b < 2 ^ 32 }
    ensures half { result ≡ a * b / 2 ^ 32 }
    ensures small { result < 2 ^ 32 }
{
    product(a, b) / WORDS
}

// The quotients of numbers of two intervals.
fn quotients(i: Arc, j: Arc) -> Option<Arc>
    requires i { IsFound i }
    requires j { IsFound j }
    ensures quotient { result ≡ values.quotient_of (Some i) (Some j) }
    ensures found { IsFoundOr result }
{
    let (least, top) = (j.least(), j.top());
    if 0 < least {
        from_to(i.least() / top, i.top() / least)
    } else {
        word()
    }
}

/// The quotient; any word, where the divisor may be 0.
pub fn quotient_of(i: Option<Arc>, j: Option<Arc>) -> Option<Arc>
    requires i { IsFoundOr i }
    requires j { IsFoundOr j }
    ensures quotient { result ≡ values.quotient_of i j }
    ensures found { IsFoundOr result }
{
    match (i, j) {
        (None, _) => None,
        (Some(_), None) => word(),
        (Some(i), Some(j)) => quotients(i, j),
    }
}

// The remainders of numbers of two intervals.
fn remainders(i: Arc, j: Arc) -> Arc
    requires i { IsFound i }
    requires j { IsFound j }
    ensures remainder { Some result ≡ values.remainder_of (Some i) (Some j) }
    ensures found { IsFound result }
{
    if i.top() < j.least() {
        i
    } else if 0 < j.least() {
        Arc::of(0, i.top().min(j.top() - 1))
    } else {
        Arc::of(0, i.top())
    }
}

/// The remainder, which is the dividend where the divisor is greater, or 0.
pub fn remainder_of(i: Option<Arc>, j: Option<Arc>) -> Option<Arc>
    requires i { IsFoundOr i }
    requires j { IsFoundOr j }
    ensures remainder { result ≡ values.remainder_of i j }
    ensures found { IsFoundOr result }
{
    match (i, j) {
        (None, _) => None,
        (Some(i), None) => Some(Arc::of(0, i.top())),
        (Some(i), Some(j)) => Some(remainders(i, j)),
    }
}

// Whether neither number is negative.
fn are_low(i: Arc, j: Arc) -> bool
    requires i { IsFound i }
    requires j { IsFound j }
    ensures low { result ≡ values.are_low i j }
{
    i.top() < HALF && j.top() < HALF
}

// The upper halves of the products of signed numbers of two intervals.
fn signed_upper_products(i: Arc, j: Arc) -> Option<Arc>
    requires i { IsFound i }
    requires j { IsFound j }
    ensures product { result ≡ values.signed_upper_product_of (Some i) (Some j) }
    ensures found { IsFoundOr result }
{
    if are_low(i, j) {
        upper_products(i, j)
    } else {
        word()
    }
}

/// The upper half of the product of signed numbers.
pub fn signed_upper_product_of(i: Option<Arc>, j: Option<Arc>) -> Option<Arc>
    requires i { IsFoundOr i }
    requires j { IsFoundOr j }
    ensures product { result ≡ values.signed_upper_product_of i j }
    ensures found { IsFoundOr result }
{
    match (i, j) {
        (Some(i), Some(j)) => signed_upper_products(i, j),
        _ => word(),
    }
}

// The quotients of signed numbers of two intervals.
fn signed_quotients(i: Arc, j: Arc) -> Option<Arc>
    requires i { IsFound i }
    requires j { IsFound j }
    ensures quotient { result ≡ values.signed_quotient_of (Some i) (Some j) }
    ensures found { IsFoundOr result }
{
    if are_low(i, j) {
        quotients(i, j)
    } else {
        word()
    }
}

/// The quotient of signed numbers.
pub fn signed_quotient_of(i: Option<Arc>, j: Option<Arc>) -> Option<Arc>
    requires i { IsFoundOr i }
    requires j { IsFoundOr j }
    ensures quotient { result ≡ values.signed_quotient_of i j }
    ensures found { IsFoundOr result }
{
    match (i, j) {
        (Some(i), Some(j)) => signed_quotients(i, j),
        _ => word(),
    }
}

// The remainders of signed numbers of two intervals.
fn signed_remainders(i: Arc, j: Arc) -> Option<Arc>
    requires i { IsFound i }
    requires j { IsFound j }
    ensures remainder { result ≡ values.signed_remainder_of (Some i) (Some j) }
    ensures found { IsFoundOr result }
{
    if are_low(i, j) {
        Some(remainders(i, j))
    } else {
        word()
    }
}

/// The remainder of signed numbers.
pub fn signed_remainder_of(i: Option<Arc>, j: Option<Arc>) -> Option<Arc>
    requires i { IsFoundOr i }
    requires j { IsFoundOr j }
    ensures remainder { result ≡ values.signed_remainder_of i j }
    ensures found { IsFoundOr result }
{
    match (i, j) {
        (None, _) => None,
        (Some(_), None) => word(),
        (Some(i), Some(j)) => signed_remainders(i, j),
    }
}

/// What a shift by a register multiplies or divides by.
pub fn power_of(j: Option<Arc>) -> Option<Arc>
    requires { IsKeptOr j }
    ensures power { result ≡ values.power_of j }
    ensures kept { IsKeptOr result }
{
    match j {
        Some(j) => {
            if j.more() == 0 {
                exactly(1 << (j.low() % 32))
            } else {
                Some(Arc::of(1, HALF - 1))
            }
        }
        None => Some(Arc::of(1, HALF - 1)),
    }
}

// The numbers of an interval as signed ones, divided by a power of 2, and rounded down.
fn lowered(i: Arc, n: u64) -> Option<Arc>
    requires i { IsFound i }
    requires some { 0 < n }
    requires power { n ≤ 2 ^ 31 }
    ensures lowered { result ≡ values.lowered_by (Some i) n }
    ensures found { IsFoundOr result }
{
    let raised = quotient_of(sum_with(Some(i), HALF), exactly(n));
    sum_with(raised, WORDS - HALF / n)
}

/// A signed number divided by a power of 2, and rounded down.
pub fn lowered_by(i: Option<Arc>, n: u64) -> Option<Arc>
    requires i { IsFoundOr i }
    requires some { 0 < n }
    requires power { n ≤ 2 ^ 31 }
    ensures lowered { result ≡ values.lowered_by i n }
    ensures found { IsFoundOr result }
{
    match i {
        Some(i) => lowered(i, n),
        None => word(),
    }
}

/// The same, by what a register shifts by.
pub fn lowered_of(i: Option<Arc>, j: Option<Arc>) -> Option<Arc>
    requires i { IsFoundOr i }
    requires j { IsKeptOr j }
    ensures lowered { result ≡ values.lowered_of i j }
    ensures found { IsFoundOr result }
{
    match j {
        Some(j) => {
            if j.more() == 0 {
                lowered_by(i, 1 << (j.low() % 32))
            } else {
                word()
            }
        }
        None => word(),
    }
}
