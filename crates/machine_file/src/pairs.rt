//! Reads what a machine file says of the costs of switches.

ghost use Rattle.std.specs.Prelude.{◌≡◌, ◌==◌, length, map};
ghost use Rattle.std.specs.List.{list_all, range_with_len};
ghost use Rattle.toml.specs.View.{table_view};
ghost use Rattle.scale_base.specs.Answer.{Answers};
ghost use Rattle.power_model.specs.Pairs.{pairs_by};
ghost use Rattle.machine_file.specs.Machine.{same_cost, pair_costs, switch_cost, cell, has_shape, pair_table};
ghost use Rattle.machine_file.specs.Pairs.{cost_view, rows_view};

use crate::place::Place;
use crate::reads::small_number;
use power_model::PairTable;
use scale_base::Stop;
use std::alloc::Global;
use table_keys::{find, number_rows};
use toml::Table;

/// What a file says of the time or of the energy of switches.
#[derive(Drop)]
pub enum SwitchCost {
    /// The same number for each change of level.
    Same(u32),
    /// A row for each level, and in it a number for each level.
    ByPair(Vec<Vec<u32>>),
}

fn same_cost(alloc: Global, table: &Table, key: &str) -> Result<SwitchCost, Stop>
    ensures { Answers cost_view result (same_cost (table_view table.now) key.now) }
{
    let n = small_number(alloc, Place::File, table, key, 0)?;
    Ok(SwitchCost::Same(n))
}

fn pair_costs(alloc: Global, table: &Table, key: &str) -> Result<SwitchCost, Stop>
    ensures { Answers cost_view result (pair_costs (table_view table.now) key.now) }
{
    if let Some(value) = find(table, key) {
        if let Some(rows) = number_rows(alloc, value, 0, 0xFFFF_FFFF)? {
            return Ok(SwitchCost::ByPair(rows));
        }
    }
    Err(Place::File.bad_value(alloc, key))
}

/// What a file of a version says of switches at a key.
pub fn switch_cost(
    alloc: Global,
    version: u64,
    table: &Table,
    key: &str,
) -> Result<SwitchCost, Stop>
    ensures { Answers cost_view result (switch_cost version (table_view table.now) key.now) }
{
    if version == 1 {
        same_cost(alloc, table, key)
    } else {
        pair_costs(alloc, table, key)
    }
}

// The number in a row and a column, 0 where there is none.
fn cell(rows: &[Vec<u32>], i: usize, l: usize) -> u32
    ensures { result ≡ cell (rows_view rows.now) i l }
{
    match rows.get(i) {
        Some(row) => match row.get(l) {
            Some(n) => *n,
            None => 0,
        },
        None => 0,
    }
}

// Each row has so many numbers.
fn have_width(count: usize, rows: &[Vec<u32>]) -> bool
    ensures { result ≡ list_all (λ row. length row == count) (rows_view rows.now) }
{
    for row in rows {
        if row.len() != count {
            return false;
        }
    }
    true
}

// The numbers of the first rows in their own columns are zeros.
fn have_zero_diagonal(count: usize, rows: &[Vec<u32>]) -> bool
    ensures { result ≡ list_all (λ i. cell (rows_view rows.now) i i == 0) (range_with_len 0 count) }
{
    for i in 0..count {
        if cell(rows, i, i) != 0 {
            return false;
        }
    }
    true
}

// One row per level, in it one number per level, and zeros on the diagonal.
fn has_shape(count: usize, rows: &[Vec<u32>]) -> bool
    ensures { result ≡ has_shape count (rows_view rows.now) }
{
    rows.len() == count && have_width(count, rows) && have_zero_diagonal(count, rows)
}

// The numbers of a row, and zeros behind them.
fn padded(rows: &[Vec<u32>], i: usize) -> [u32; 8]
    ensures { result ≡ map (cell (rows_view rows.now) i) (range_with_len 0 8) }
{
    std::array::from_fn(|l| cell(rows, i, l))
}

// The numbers of the rows by pair.
fn table_of(rows: &[Vec<u32>]) -> PairTable
    ensures { result ≡ pairs_by (cell (rows_view rows.now)) }
{
    PairTable {
        rows: [
            padded(rows, 0),
            padded(rows, 1),
            padded(rows, 2),
            padded(rows, 3),
            padded(rows, 4),
            padded(rows, 5),
            padded(rows, 6),
            padded(rows, 7),
        ],
    }
}

/// The numbers of switches by pair of so many levels.
pub fn pair_table(
    alloc: Global,
    key: &str,
    levels: u8,
    cost: &SwitchCost,
) -> Result<PairTable, Stop>
    ensures { Answers (λ t. t) result (pair_table key.now levels (cost_view cost.now)) }
{
    match cost {
        SwitchCost::Same(n) => Ok(PairTable::uniform(*n)),
        SwitchCost::ByPair(rows) => {
            if has_shape(usize::from(levels), rows) {
                Ok(table_of(rows))
            } else {
                Err(Place::File.bad_value(alloc, key))
            }
        }
    }
}
