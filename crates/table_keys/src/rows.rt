//! Arrays of arrays of numbers.

ghost use Rattle.std.specs.Prelude.{◌≡◌, map, option_map, IfOk};
ghost use Rattle.toml.specs.View.{items_view, view};
ghost use Rattle.table_keys.specs.Keys.{all_numbers, numbers_of, all_rows, number_rows_of};

use crate::number_of;
use std::alloc::{AllocError, Global};
use toml::Value;

/// The rows of an array of arrays of numbers from `low` to `high`. None where the value is none.
pub fn number_rows(
    alloc: Global,
    value: &Value,
    low: u32,
    high: u32,
) -> Result<Option<Vec<Vec<u32>>>, AllocError>
    ensures { IfOk result (λ found. option_map (λ v. map (λ row. row.items) v.items) found ≡ number_rows_of low high (view value.now)) }
{
    match value.as_array() {
        Some(array) => all_rows(alloc, array.as_slice(), low, high),
        None => Ok(None),
    }
}

fn all_rows(
    alloc: Global,
    items: &[Value],
    low: u32,
    high: u32,
) -> Result<Option<Vec<Vec<u32>>>, AllocError>
    ensures { IfOk result (λ found. option_map (λ v. map (λ row. row.items) v.items) found ≡ all_rows low high (items_view items.now)) }
{
    let mut rows = Vec::new(alloc);
    for item in items {
        match numbers(alloc, item, low, high)? {
            Some(row) => rows.push(row)?,
            None => return Ok(None),
        }
    }
    Ok(Some(rows))
}

// The numbers of an array of numbers from `low` to `high`. None where the value is none.
fn numbers(
    alloc: Global,
    value: &Value,
    low: u32,
    high: u32,
) -> Result<Option<Vec<u32>>, AllocError>
    ensures { IfOk result (λ found. option_map (λ v. v.items) found ≡ numbers_of low high (view value.now)) }
{
    match value.as_array() {
        Some(array) => all_numbers(alloc, array.as_slice(), low, high),
        None => Ok(None),
    }
}

fn all_numbers(
    alloc: Global,
    items: &[Value],
    low: u32,
    high: u32,
) -> Result<Option<Vec<u32>>, AllocError>
    ensures { IfOk result (λ found. option_map (λ v. v.items) found ≡ all_numbers low high (items_view items.now)) }
{
    let mut numbers = Vec::new(alloc);
    for item in items {
        match number_of(item, u64::from(low), u64::from(high)) {
            Some(n) => numbers.push(n as u32)?,
            None => return Ok(None),
        }
    }
    Ok(Some(numbers))
}
