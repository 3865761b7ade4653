//! The order of lines, and what their own cycles add up to.

ghost use Rattle.std.specs.Prelude.{◌≡◌, ℕ, ◌+◌, ◌<◌, true, length, slice_get, Some, IfSome};
ghost use Rattle.std.specs.List.{sum_by};
ghost use Rattle.worst_lines.specs.Lines as lines;
ghost use Rattle.worst_lines.specs.Lines.{IsBefore};

use crate::shown::{Line, Part};
use std::cmp::Ordering;

/// Whether a line is that of a loop.
fn is_loop(part: Part) -> bool
    ensures { result ≡ lines.is_loop part }
{
    match part {
        Part::Function { .. } => false,
        Part::Loop { .. } => true,
    }
}

/// The line with more cycles of its own first, then the one with the lower address, then a function before a loop.
pub fn order_of(a: &Line, b: &Line) -> Ordering {
    b.own
        .cmp(&a.own)
        .then(a.at.cmp(&b.at))
        .then(is_loop(a.part).cmp(&is_loop(b.part)))
}

/// Whether line `a` stands before line `b`.
fn is_before(a: &Line, b: &Line) -> bool
    ensures { result ≡ true → IsBefore a.now b.now }
{
    if a.own != b.own {
        return b.own < a.own;
    }
    if a.at != b.at {
        return a.at < b.at;
    }
    if is_loop(a.part) {
        return false;
    }
    is_loop(b.part)
}

/// Whether line `i` stands before the next, if there is one.
fn is_before_next(lines: &[Line], i: usize) -> bool
    requires { i < length lines.now }
    ensures { result ≡ true → (a b : Line) → slice_get lines.now i ≡ Some a → slice_get lines.now (i + 1) ≡ Some b → IsBefore a b }
{
    let next = i + 1;
    if next >= lines.len() {
        return true;
    }
    is_before(&lines[i], &lines[next])
}

/// Whether each line stands before the next.
pub fn are_in_order(lines: &[Line]) -> bool
    ensures { result ≡ true → (i : ℕ) (a b : Line) → slice_get lines.now i ≡ Some a → slice_get lines.now (i + 1) ≡ Some b → IsBefore a b }
{
    for i in 0..lines.len() {
        if !is_before_next(lines, i) {
            return false;
        }
    }
    true
}

/// The sum of the own cycles. None where it isn't in range.
fn own_sum(lines: &[Line]) -> Option<u64>
    ensures { IfSome result (λ sum. sum ≡ sum_by (λ line. line.own) lines.now) }
{
    let mut sum: u64 = 0;
    for line in lines {
        let Some(more) = sum.checked_add(line.own) else {
            return None;
        };
        sum = more;
    }
    Some(sum)
}

/// Whether the own cycles add up to so many.
pub fn adds_up(lines: &[Line], cycles: u64) -> bool
    ensures { result ≡ true → sum_by (λ line. line.own) lines.now ≡ cycles }
{
    match own_sum(lines) {
        Some(sum) => sum == cycles,
        None => false,
    }
}
