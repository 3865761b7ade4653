//! Cells: numbers in memory that are always in an interval, and what is stored and loaded there.

ghost use Rattle.std.specs.Prelude.{◌≡◌, ◌≤◌, ◌<◌, ◌*◌, ◌^◌, Some, true};
ghost use Rattle.scale_base.specs.Arith.{load_width};
ghost use Rattle.stack_laws.specs.Cells as cells;
ghost use Rattle.wrapped_intervals.specs.Small.{IsFoundOr, IsKept};
ghost use Rattle.stack_tables.specs.Tables.{IsKeptBy, IsStoring, cell_view};

use crate::tables::Cell;
use scale_base::LoadOp;
use wrapped_intervals::{Arc, ahead, covers, top_of};

// How many words there are.
const WORDS: u64 = 4_294_967_296;

/// What is stored: where, how many bytes, and of which numbers they are the lowest.
#[derive(Clone, Copy)]
pub struct Storing {
    pub place: Option<Arc>,
    pub width: u64,
    pub numbers: Option<Arc>,
}

// Whether an interval is a number alone.
fn is_only(i: Option<Arc>, n: u32) -> bool
    ensures { result ≡ true → cells.IsOnly i n }
{
    match i {
        Some(i) => i.low() == u64::from(n) && i.more() == 0,
        None => false,
    }
}

// Whether so many bytes from an address of the interval on miss a cell.
fn is_arc_beside(i: Arc, width: u64, cell: &Cell) -> bool
    requires i { IsFoundOr (Some i) }
    requires width { width ≤ 2 ^ 32 }
    ensures { result ≡ true → cells.IsBeside (Some i) width (cell_view cell.now) }
{
    let distance = ahead(i.low(), u64::from(cell.at));
    i.more() < distance && width + i.more() <= distance && distance + u64::from(cell.width) <= WORDS
}

// Whether none of so many bytes from an address of the interval on is one of a cell's, modulo 2^32.
fn is_beside(place: Option<Arc>, width: u64, cell: &Cell) -> bool
    requires place { IsFoundOr place }
    requires width { width ≤ 2 ^ 32 }
    ensures { result ≡ true → cells.IsBeside place width (cell_view cell.now) }
{
    match place {
        Some(i) => is_arc_beside(i, width, cell),
        None => false,
    }
}

// How many numbers so many bytes have, where they are 1, 2 or 4.
fn number_count(width: u8) -> u64
    ensures { result ≤ 2 ^ (8 * width) }
{
    match width {
        1 => 0x100,
        2 => 0x1_0000,
        4 => WORDS,
        _ => 0,
    }
}

// Whether what is stored is stored to a cell's bytes alone, and is one of its numbers.
fn is_stored_into(storing: &Storing, cell: &Cell) -> bool
    requires cell { IsKept cell.now.values }
    requires numbers { IsFoundOr storing.now.numbers }
    ensures { result ≡ true → cells.IsStoredInto storing.now.place storing.now.width storing.now.numbers (cell_view cell.now) }
{
    is_only(storing.place, cell.at)
        && storing.width == u64::from(cell.width)
        && top_of(storing.numbers) < number_count(cell.width)
        && covers(Some(cell.values), storing.numbers)
}

/// Whether what is stored misses a cell, or is one of its numbers.
pub fn is_kept_by(storing: &Storing, cell: &Cell) -> bool
    requires storing { IsStoring storing.now }
    requires cell { IsKept cell.now.values }
    ensures { result ≡ true → IsKeptBy (Some storing.now) (cell_view cell.now) }
{
    is_beside(storing.place, storing.width, cell) || is_stored_into(storing, cell)
}

/// How many bytes a load loads.
pub fn load_width(op: LoadOp) -> u32
    ensures width { result ≡ load_width op }
    ensures some { 0 < result }
{
    match op {
        LoadOp::Lb | LoadOp::Lbu => 1,
        LoadOp::Lh | LoadOp::Lhu => 2,
        LoadOp::Lw => 4,
    }
}

// Below this a load gives the number of the bytes as it is, without their sign.
fn unsigned_below(op: LoadOp) -> u64
    ensures { result ≡ cells.unsigned_below op }
{
    match op {
        LoadOp::Lb => 0x80,
        LoadOp::Lh => 0x8000,
        LoadOp::Lw => WORDS,
        LoadOp::Lbu => 0x100,
        LoadOp::Lhu => 0x1_0000,
    }
}

/// Whether a load at an address of the interval loads a cell's bytes alone, all of them, and none of its numbers with a sign.
pub fn is_loaded_from(op: LoadOp, place: Option<Arc>, cell: &Cell) -> bool
    requires { IsKept cell.now.values }
    ensures { result ≡ true → cells.IsLoadedFrom op place (cell_view cell.now) }
{
    is_only(place, cell.at)
        && load_width(op) == u32::from(cell.width)
        && cell.values.top() < unsigned_below(op)
}
