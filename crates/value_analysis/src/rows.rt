//! Rows of intervals, by register.

ghost use Rattle.std.specs.Prelude.{◌≡◌, ◌<◌, length, true};
ghost use Rattle.std.specs.List.{All};
ghost use Rattle.wrapped_intervals.specs.Small.{IsKeptOr};

use crate::arcs::{holds, joined, kept};
use crate::tables::Row;
use scale_base::Instr;
use wrapped_intervals::{
    Arc, Measure, Said, compared, difference_of, exactly, is_difference, is_impossible, is_kept,
    line_of, meet_of, passed, said_by, scaled, solved, sum_with,
};

/// The stack pointer at the start of a run.
const STACK_POINTER: u64 = 0x7FFF_FFF0;

/// The row of 0 in each register.
pub fn zeros() -> Row {
    [exactly(0); 32]
}

/// The row of which nothing is known.
pub fn unknown() -> Row {
    [None; 32]
}

/// Puts a row in the place of another.
pub fn put_row(row: &mut Row, other: &Row) {
    for r in 0..32 {
        row[r] = other[r];
    }
}

/// The same row again.
pub fn copy_of(row: &Row) -> Row {
    let mut copy = unknown();
    put_row(&mut copy, row);
    copy
}

/// The row of the start of a run.
pub fn starting_row() -> Row {
    let mut row = zeros();
    row[2] = exactly(STACK_POINTER);
    row
}

/// Whether all intervals of a row are short enough to be kept.
fn are_kept(row: &[Option<Arc>]) -> bool
    ensures { result ≡ true → All IsKeptOr row.now }
{
    for arc in row {
        if !is_kept(*arc) {
            return false;
        }
    }
    true
}

/// What an instruction leaves in the registers on the way to an address. None where no state goes there.
pub fn passed_row(i: Instr, pc: u32, next: u32, from: &Row) -> Option<Row> {
    if !are_kept(from) {
        return Some(unknown());
    }
    if is_impossible(said_by(i, pc, next), from) {
        return None;
    }
    let mut to = unknown();
    for r in 0..32 {
        to[usize::from(r)] = kept(passed(i, pc, next, from, r));
    }
    Some(to)
}

/// The interval of a register that an instruction leaves, on the way to an address.
pub fn passed_word(i: Instr, pc: u32, next: u32, from: &Row, r: u8) -> Option<Arc> {
    if r < 32 && are_kept(from) {
        kept(passed(i, pc, next, from, r))
    } else {
        None
    }
}

/// The interval of a form, by those of the registers.
pub fn line_of_row(m: Measure, row: &Row) -> Option<Arc> {
    if are_kept(row) {
        kept(line_of(m, row))
    } else {
        None
    }
}

/// The interval of a register by a line of it, and by the line's other register.
pub fn solved_arc(m: Measure, line: &Option<Arc>, other: &Option<Arc>) -> Option<Arc> {
    if is_kept(*line) && is_kept(*other) {
        kept(solved(m, *line, *other))
    } else {
        None
    }
}

/// The same of a register that is in the measure with the factor -1.
pub fn lessened_arc(m: Measure, line: &Option<Arc>, other: &Option<Arc>) -> Option<Arc> {
    if is_kept(*line) && is_kept(*other) {
        let many = scaled(u64::from(m.other_factor), *other);
        kept(sum_with(difference_of(many, *line), u64::from(m.shift)))
    } else {
        None
    }
}

/// What one interval has of another one.
pub fn within(arc: &Option<Arc>, passed: &Option<Arc>) -> Option<Arc> {
    if is_kept(*arc) && is_kept(*passed) {
        kept(meet_of(*arc, *passed))
    } else {
        *arc
    }
}

/// Whether a comparison says that the registers of a difference differ.
pub fn is_different(said: Option<Said>, m: Measure, row: &Row) -> bool {
    are_kept(row) && is_difference(said, m, row)
}

/// The interval of a line that a comparison leaves as it is, by what it says of that.
pub fn compared_line(said: Option<Said>, m: Measure, line: &Option<Arc>, row: &Row) -> Option<Arc> {
    if are_kept(row) && is_kept(*line) {
        kept(meet_of(*line, compared(said, m, row)))
    } else {
        *line
    }
}

/// Joins a row to another.
pub fn join_row(row: &mut Row, other: &Row) {
    for r in 1..32 {
        if !holds(row[r], other[r]) {
            row[r] = joined(row[r], other[r]);
        }
    }
}

/// Takes each interval of another row that this one's holds.
pub fn narrow_row(row: &mut Row, other: &Row) {
    for r in 1..32 {
        if holds(row[r], other[r]) && !holds(other[r], row[r]) {
            row[r] = other[r];
        }
    }
}
