//! Tables that are parts of one.

use crate::addresses::MOST_WORDS;
use fixed_tables::Table;

// The address of the last word.
fn last_of(table: Table) -> u32 {
    table
        .at
        .saturating_add(table.step.saturating_mul(table.count.saturating_sub(1)))
}

// The greatest number that divides both: Euclid's algorithm takes less than 48 steps for two words (Knuth, The Art of Computer Programming, 4.5.3).
fn common_divisor(one: u32, other: u32) -> u32 {
    let mut a = one;
    let mut b = other;
    for _ in 0..48 {
        if b == 0 {
            return a;
        }
        let rest = a % b;
        a = b;
        b = rest;
    }
    a
}

// The step of a table: 0 where it has one word.
fn step_of(table: Table) -> u32 {
    if table.count <= 1 { 0 } else { table.step }
}

// The greatest step of a table that has the words of both: 0 where these are one word.
fn common_step(one: Table, other: Table) -> u32 {
    let steps = common_divisor(step_of(one), step_of(other));
    common_divisor(steps, one.at.abs_diff(other.at))
}

/// The least table that has the words of both. None where they aren't parts of one.
pub fn joined(one: Table, other: Table) -> Option<Table> {
    if one.base != other.base {
        return None;
    }
    let step = common_step(one, other);
    if step == 0 {
        return Some(one);
    }
    let at = one.at.min(other.at);
    let more = last_of(one).max(last_of(other)).saturating_sub(at) / step;
    if step % 4 != 0 || u64::from(more) >= MOST_WORDS {
        return None;
    }
    Some(Table {
        at,
        step,
        count: more.saturating_add(1),
        base: one.base,
    })
}
