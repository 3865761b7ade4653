//! The keys of a TOML table: which are missing, which are unknown, and the numbers that they hold.
//! Tests: crates/file_tests/src/toml_tables.rt.
#![tactic(auto)]

ghost use Rattle.std.specs.Prelude.{◌≡◌, ℕ, ◌≤◌, map, option_map, IfSome, IfOk};
ghost use Rattle.toml.specs.Data.{get_member};
ghost use Rattle.toml.specs.View.{items_view, table_view, view};
ghost use Rattle.table_keys.specs.Keys.{document_of, first_missing, is_known, least_unknown, number_at, number_of, all_tables, tables_of};

mod rows;

pub use rows::number_rows;
use std::alloc::{AllocError, Global};
use toml::{Table, Value};

/// The table of a file. None where the bytes aren't UTF-8, or the text isn't a TOML document.
pub fn document(alloc: Global, bytes: &[u8]) -> Result<Option<Table>, AllocError>
    ensures { IfOk result (λ table. option_map table_view table ≡ document_of bytes.now) }
{
    match toml::table_from_slice(alloc, bytes) {
        Ok(table) => Ok(Some(table)),
        Err(error) if error.is_memory() => Err(AllocError),
        Err(_) => Ok(None),
    }
}

/// The value at a key.
pub fn find<'t>(table: &'t Table, key: &str) -> Option<&'t Value>
    ensures { option_map (λ v. view v.now) result ≡ get_member key.now (table_view table.now) }
{
    table.get(key)
}

/// The first of the keys that the table lacks.
pub fn first_missing<'k>(table: &Table, keys: &[&'k str]) -> Option<&'k str>
    ensures { option_map (λ k. k.now) result ≡ first_missing (map (λ k. k.now) keys.now) (table_view table.now) }
{
    for key in keys {
        if find(table, key).is_none() {
            return Some(key);
        }
    }
    None
}

/// The least key of the table, by bytes, that is none of these.
pub fn least_unknown<'t>(table: &'t Table, known: &[&str]) -> Option<&'t str>
    ensures { option_map (λ k. k.now) result ≡ least_unknown (map (λ k. k.now) known.now) (table_view table.now) }
{
    for key in table.keys() {
        let key = key.as_str();
        if !is_known(known, key) {
            return Some(key);
        }
    }
    None
}

fn is_known(known: &[&str], key: &str) -> bool
    ensures { result ≡ is_known (map (λ k. k.now) known.now) key.now }
{
    for k in known {
        if *k == key {
            return true;
        }
    }
    false
}

/// The number that a value is, where it is one from `low` to `high`.
pub fn number_of(value: &Value, low: u64, high: u64) -> Option<u64>
    ensures value { result ≡ number_of low high (view value.now) }
    ensures within { IfSome result (λ n. (low ≤ n) × (n ≤ high)) }
{
    let n = u64::try_from(value.as_integer()?).ok()?;
    if low <= n && n <= high { Some(n) } else { None }
}

/// The number at a key, where it is one from `low` to `high`.
pub fn number_at(table: &Table, key: &str, low: u64, high: u64) -> Option<u64>
    ensures value { result ≡ number_at low high key.now (table_view table.now) }
    ensures within { IfSome result (λ n. (low ≤ n) × (n ≤ high)) }
{
    number_of(find(table, key)?, low, high)
}

/// The tables of an array of tables. None where the value is none.
pub fn tables<'t>(alloc: Global, value: &'t Value) -> Result<Option<Vec<&'t Table>>, AllocError>
    ensures { IfOk result (λ found. option_map (λ v. map (λ t. table_view t.now) v.items) found ≡ tables_of (view value.now)) }
{
    match value.as_array() {
        Some(array) => all_tables(alloc, array.as_slice()),
        None => Ok(None),
    }
}

fn all_tables<'t>(alloc: Global, items: &'t [Value]) -> Result<Option<Vec<&'t Table>>, AllocError>
    ensures { IfOk result (λ found. option_map (λ v. map (λ t. table_view t.now) v.items) found ≡ all_tables (items_view items.now)) }
{
    let mut tables = Vec::new(alloc);
    for item in items {
        match item.as_table() {
            Some(table) => tables.push(table)?,
            None => return Ok(None),
        }
    }
    Ok(Some(tables))
}
