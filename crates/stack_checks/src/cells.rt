//! Numbers in memory that are always in an interval: that what is stored leaves them so, and what a load of one gives.

ghost use Rattle.std.specs.Prelude.{◌≡◌, ◌<◌, ℕ, length, Some, true};
ghost use Rattle.std.specs.List.{All};
ghost use Rattle.stack_laws.specs.Stacks as stacks;
ghost use Rattle.wrapped_intervals.specs.Small.{IsKeptOr};
ghost use Rattle.stack_tables.specs.Tables.{HasKeptValues, IsKeptBy, IsStackClaim, IsStoring, address, cell_view, stacks_in, values_in};
ghost use Rattle.stack_checks.specs.Checked.{IsLoadOf, IsSomeLoaded, IsWay, from, stacks_along, to, values_along};

use crate::ways::{Way, arc_behind};
use scale_base::{Instr, LoadOp};
use stack_tables::{
    Cell, StackClaim, Storing, cells, held_at, is_kept_by, is_loaded_from, stored_by,
};
use wrapped_intervals::{Arc, covers, sum_with};

// Whether what is stored misses each cell or is one of its numbers.
fn are_kept_by(storing: &Storing, cells: &[Cell]) -> bool
    requires storing { IsStoring storing.now }
    requires cells { All HasKeptValues cells.now }
    ensures { result ≡ true → All (λ c. IsKeptBy (Some storing.now) (cell_view c)) cells.now }
{
    for cell in cells {
        if !is_kept_by(storing, cell) {
            return false;
        }
    }
    true
}

/// Whether what the instruction of node k stores leaves the number of each cell in its interval.
pub fn are_cells_kept(claim: &StackClaim<'_>, i: Instr, k: usize) -> bool
    requires claim { IsStackClaim claim.now }
    requires node { k < length claim.now.graph.now.code.nodes }
    ensures { result ≡ true → (j : ℕ) → stacks.IsCellKept (values_in claim.now) (address claim.now k) i ((stacks_in claim.now).cell j) }
{
    match stored_by(claim, i, k) {
        Some(storing) => are_kept_by(&storing, cells(claim)),
        None => true,
    }
}

/// A load: of which kind, at which addresses, and the interval that is to hold what it gives.
#[derive(Clone, Copy)]
pub struct Loading {
    pub op: LoadOp,
    pub place: Option<Arc>,
    pub values: Option<Arc>,
}

// Whether it loads a cell whose numbers are all of the interval.
fn is_cell_within(loading: &Loading, cell: &Cell) -> bool
    requires cell { HasKeptValues cell.now }
    requires values { IsKeptOr loading.now.values }
    ensures { result ≡ true → IsLoadOf loading.now cell.now }
{
    is_loaded_from(loading.op, loading.place, cell) && covers(loading.values, Some(cell.values))
}

// Whether it loads one of the cells, and that is so of it.
fn is_some_within(loading: &Loading, cells: &[Cell]) -> bool
    requires cells { All HasKeptValues cells.now }
    requires values { IsKeptOr loading.now.values }
    ensures { result ≡ true → IsSomeLoaded loading.now cells.now }
{
    for cell in cells {
        if is_cell_within(loading, cell) {
            return true;
        }
    }
    false
}

/// Whether a register's interval where the way leads holds the numbers of a cell that is loaded to it.
pub fn is_cell_loaded(way: &Way<'_>, r: u8) -> bool
    requires way { IsWay way.now }
    requires register { r < 32 }
    ensures { result ≡ true → stacks.IsCellLoaded (values_along way.now) (stacks_along way.now) way.now.instr (from way.now) (to way.now)
        r }
{
    match way.instr {
        Instr::Load {
            op,
            rd,
            rs1,
            offset,
        } => {
            if rd == r {
                let loading = Loading {
                    op,
                    place: sum_with(
                        held_at(way.claim, way.from, rs1),
                        u64::from(offset.cast_unsigned()),
                    ),
                    values: arc_behind(way, r),
                };
                is_some_within(&loading, cells(way.claim))
            } else {
                false
            }
        }
        _ => false,
    }
}
