//! Intervals without wrapping, as comparisons see them.

ghost use Rattle.std.specs.Prelude.{◌≡◌, ◌≤◌, ◌<◌, ◌^◌, ◌==◌, nat_lt, Some, if◌then◌else◌};
ghost use Rattle.bound_laws.specs.Values as values;
ghost use Rattle.wrapped_intervals.specs.Small.{IsFound, IsFoundOr, IsKept, IsKeptOr, IsSeen};

use crate::arcs::{Arc, WORDS};
use crate::covering::meet;
use crate::sums::plus;
use scale_base::BranchOp;
use std::marker::Model;

/// The numbers from one to another.
#[derive(Clone, Copy)]
pub struct Interval {
    from: u64,
    to: u64,
}

impl Model for Interval {
    ghost use Rattle.bound_laws.specs.Values as values;

    ghost Value = { values.Interval };

    ghost view = { λ i. record { from = i.from; to = i.to } };

    ghost inverse = { λ v. record { from = v.from; to = v.to } };
}

// The numbers from one to another.
fn between(from: u64, to: u64) -> Interval
    ensures { result ≡ values.between from to }
{
    Interval { from, to }
}

// The interval of words from `low` on, or all words where it wraps.
fn plain(low: u64, more: u64) -> Interval
    requires low { low < 2 ^ 32 }
    requires more { more < 2 ^ 32 }
    ensures plain { result ≡ values.plain low more }
    ensures seen { IsSeen result }
{
    if low + more < WORDS {
        between(low, low + more)
    } else {
        between(0, WORDS - 1)
    }
}

// A signed word plus 2^31.
fn biased(a: u64) -> u64
    requires { a ≤ 2 ^ 32 }
    ensures biased { result ≡ values.biased a }
    ensures word { result < 2 ^ 32 }
{
    plus(a, 2_147_483_648)
}

// Whether a comparison is one of signed words.
fn is_signed(op: BranchOp) -> bool
    ensures { result ≡ values.is_signed op }
{
    match op {
        BranchOp::Blt | BranchOp::Bge => true,
        BranchOp::Beq | BranchOp::Bne | BranchOp::Bltu | BranchOp::Bgeu => false,
    }
}

/// An interval as a comparison sees it: as unsigned numbers, or as signed ones plus 2^31.
pub fn view(op: BranchOp, i: Arc) -> Interval
    requires { IsKept i }
    ensures view { result ≡ values.view op i }
    ensures seen { IsSeen result }
{
    if is_signed(op) {
        plain(biased(i.low()), i.more())
    } else {
        plain(i.low(), i.more())
    }
}

/// And back.
pub fn of_view(op: BranchOp, i: Interval) -> Arc
    requires from { i.from ≤ 2 ^ 32 }
    requires to { i.to < 2 ^ 32 }
    ensures arc { result ≡ values.of_view op i }
    ensures found { IsFound result }
{
    let more = i.to.saturating_sub(i.from);
    if is_signed(op) {
        Arc::of(biased(i.from), more)
    } else {
        Arc::of(i.from, more)
    }
}

// The numbers of i that are below some of j.
fn below(i: Interval, j: Interval) -> Interval
    ensures { result ≡ values.below i j }
{
    between(i.from, i.to.min(j.to.saturating_sub(1)))
}

// The numbers of i that are above some of j.
fn above(i: Interval, j: Interval) -> Interval
    requires { j.from < 2 ^ 32 }
    ensures { result ≡ values.above i j }
{
    between(i.from.max(j.from + 1), i.to)
}

fn at_most(i: Interval, j: Interval) -> Interval
    ensures { result ≡ values.at_most i j }
{
    between(i.from, i.to.min(j.to))
}

fn at_least(i: Interval, j: Interval) -> Interval
    ensures { result ≡ values.at_least i j }
{
    between(i.from.max(j.from), i.to)
}

fn both(i: Interval, j: Interval) -> Interval
    ensures { result ≡ values.both i j }
{
    between(i.from.max(j.from), i.to.min(j.to))
}

// Without the one number of j, at an end of i.
fn without_one(i: Interval, j: Interval) -> Interval
    requires { i.from < 2 ^ 32 }
    ensures { result ≡ values.without_one i j }
{
    let from = if j.from == j.to && i.from == j.from {
        i.from + 1
    } else {
        i.from
    };
    let to = if j.from == j.to && i.to == j.from {
        i.to.saturating_sub(1)
    } else {
        i.to
    };
    between(from, to)
}

/// The numbers of the first register with which the comparison may hold.
pub fn first_range(op: BranchOp, i: Interval, j: Interval) -> Interval
    requires i { IsSeen i }
    requires j { IsSeen j }
    ensures range { result ≡ values.first_range op i j }
    ensures from { result.from ≤ 2 ^ 32 }
    ensures to { result.to < 2 ^ 32 }
{
    match op {
        BranchOp::Beq => both(i, j),
        BranchOp::Bne => without_one(i, j),
        BranchOp::Blt | BranchOp::Bltu => below(i, j),
        BranchOp::Bge | BranchOp::Bgeu => at_least(i, j),
    }
}

/// And those of the second one.
pub fn second_range(op: BranchOp, i: Interval, j: Interval) -> Interval
    requires i { IsSeen i }
    requires j { IsSeen j }
    ensures range { result ≡ values.second_range op i j }
    ensures from { result.from ≤ 2 ^ 32 }
    ensures to { result.to < 2 ^ 32 }
{
    match op {
        BranchOp::Beq => both(j, i),
        BranchOp::Bne => without_one(j, i),
        BranchOp::Blt | BranchOp::Bltu => above(j, i),
        BranchOp::Bge | BranchOp::Bgeu => at_most(j, i),
    }
}

// The differences of numbers of two intervals, and 2^32 more.
fn differences(i: Interval, j: Interval) -> Interval
    requires i_from { i.from ≤ 2 ^ 32 }
    requires i_to { i.to < 2 ^ 32 }
    requires j_from { j.from ≤ 2 ^ 32 }
    requires j_to { j.to < 2 ^ 32 }
    ensures differences { result ≡ values.differences i j }
{
    between(i.from + WORDS - j.to, i.to + WORDS - j.from)
}

// Those of numbers that compare so.
fn ordered(op: BranchOp, d: Interval) -> Interval
    ensures { result ≡ values.ordered op d }
{
    match op {
        BranchOp::Beq => between(WORDS, WORDS),
        BranchOp::Bne => d,
        BranchOp::Blt | BranchOp::Bltu => between(d.from, d.to.min(WORDS - 1)),
        BranchOp::Bge | BranchOp::Bgeu => between(d.from.max(WORDS), d.to),
    }
}

// And as words.
fn of_differences(d: Interval) -> Arc
    ensures arc { result ≡ values.of_differences d }
    ensures found { IsFound result }
{
    Arc::of(d.from % WORDS, d.to.saturating_sub(d.from).min(WORDS - 1))
}

// The first word less the second one, where the comparison holds.
fn difference_where(op: BranchOp, i: Arc, j: Arc) -> Arc
    requires i { IsKept i }
    requires j { IsKept j }
    ensures arc { Some result ≡ values.difference_by op (Some i) (Some j) }
    ensures found { IsFound result }
{
    let first = first_range(op, view(op, i), view(op, j));
    let second = second_range(op, view(op, i), view(op, j));
    of_differences(ordered(op, differences(first, second)))
}

/// The first word less the second one, where a comparison of them holds.
pub fn difference_by(op: BranchOp, i: Option<Arc>, j: Option<Arc>) -> Option<Arc>
    requires i { IsKeptOr i }
    requires j { IsKeptOr j }
    ensures difference { result ≡ values.difference_by op i j }
    ensures found { IsFoundOr result }
{
    match (i, j) {
        (Some(i), Some(j)) => Some(difference_where(op, i, j)),
        _ => None,
    }
}

/// Whether there is no number between.
pub fn is_empty(i: Interval) -> bool
    ensures { result ≡ nat_lt i.to i.from }
{
    i.to < i.from
}

// Without the number at an end.
fn without_word(i: Arc, n: u64) -> Arc
    requires i { IsKept i }
    ensures arc { Some result ≡ values.without (Some i) n }
    ensures found { IsFound result }
{
    if i.low() == n {
        Arc::strided(
            plus(i.low(), i.stride()),
            i.more().saturating_sub(i.stride()),
            i.stride(),
        )
    } else if plus(i.low(), i.more()) == n {
        let less = if i.is_whole() { i.stride() } else { 1 };
        Arc::strided(i.low(), i.more().saturating_sub(less), i.stride())
    } else {
        i
    }
}

/// An interval without the number at an end.
pub fn without(i: Option<Arc>, n: u64) -> Option<Arc>
    requires { IsKeptOr i }
    ensures without { result ≡ values.without i n }
    ensures found { IsFoundOr result }
{
    match i {
        Some(i) => Some(without_word(i, n)),
        None => None,
    }
}

// The numbers of the first register where it is another word than the second one.
fn other_than(i: Arc, j: Arc) -> Arc
    requires i { IsKept i }
    requires j { IsKept j }
    ensures arc { Some result ≡ (if j.more == 0 then values.without (Some i) j.low else Some i) }
    ensures found { IsFound result }
{
    if j.more() == 0 {
        without_word(i, j.low())
    } else {
        i
    }
}

// The same of any comparison.
fn first_where(op: BranchOp, i: Arc, j: Arc) -> Arc
    requires i { IsKept i }
    requires j { IsKept j }
    ensures arc { Some result ≡ values.first_by op (Some i) (Some j) }
    ensures found { IsFound result }
{
    match op {
        BranchOp::Bne => other_than(i, j),
        BranchOp::Beq | BranchOp::Blt | BranchOp::Bge | BranchOp::Bltu | BranchOp::Bgeu => {
            let range = first_range(op, view(op, i), view(op, j));
            meet(i, of_view(op, range))
        }
    }
}

fn second_where(op: BranchOp, i: Arc, j: Arc) -> Arc
    requires i { IsKept i }
    requires j { IsKept j }
    ensures arc { Some result ≡ values.second_by op (Some i) (Some j) }
    ensures found { IsFound result }
{
    match op {
        BranchOp::Bne => other_than(j, i),
        BranchOp::Beq | BranchOp::Blt | BranchOp::Bge | BranchOp::Bltu | BranchOp::Bgeu => {
            let range = second_range(op, view(op, i), view(op, j));
            meet(j, of_view(op, range))
        }
    }
}

/// The interval of the first register where a comparison holds.
pub fn first_by(op: BranchOp, i: Option<Arc>, j: Option<Arc>) -> Option<Arc>
    requires i { IsKeptOr i }
    requires j { IsKeptOr j }
    ensures first { result ≡ values.first_by op i j }
    ensures found { IsFoundOr result }
{
    match (i, j) {
        (None, _) => None,
        (Some(i), None) => Some(i),
        (Some(i), Some(j)) => Some(first_where(op, i, j)),
    }
}

/// The interval of the second register where a comparison holds.
pub fn second_by(op: BranchOp, i: Option<Arc>, j: Option<Arc>) -> Option<Arc>
    requires i { IsKeptOr i }
    requires j { IsKeptOr j }
    ensures second { result ≡ values.second_by op i j }
    ensures found { IsFoundOr result }
{
    match (i, j) {
        (_, None) => None,
        (None, Some(j)) => Some(j),
        (Some(i), Some(j)) => Some(second_where(op, i, j)),
    }
}
