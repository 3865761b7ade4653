//! The keys of TOML tables.

use crate::fixtures::{expect_words, words_text};
use std::alloc::Global;
use std::process::Abort;
use std::test::Fail;
use table_keys::{document, find, first_missing, least_unknown, number_at, number_rows, tables};
use toml::Table;

/// The table of a document.
fn table_of(alloc: Global, text: &[u8]) -> Result<Table, Fail> {
    match document(alloc, text)? {
        Some(table) => Ok(table),
        None => Err("no document".into()),
    }
}

const KEYS: &str = "one = 1\nb = 2\naa = 3\n[[rows]]\nx = 5\n[[rows]]\n";

/// Keys that are known, the first that is missing, and the least one that isn't known.
static KNOWN: [(&[&str], Option<&str>, Option<&str>); 4] = [
    (&["one", "two", "three"], Some("two"), Some("aa")),
    (&["aa", "rows"], None, Some("b")),
    (&["one", "rows"], None, Some("aa")),
    (&["rows", "b", "aa", "one"], None, None),
];

#[test]
fn finds_keys(rt: HostRuntime) -> Result<(), Fail> {
    let table = table_of(rt.alloc(), KEYS.as_bytes())?;
    for (known, missing, unknown) in &KNOWN {
        let found = (first_missing(&table, known), least_unknown(&table, known));
        assert_eq!(rt; found, (*missing, *unknown), "{known:?}");
    }
    Ok(())
}

/// The least and the greatest number, and what is found.
static NUMBERS: [(u64, u64, Option<u64>); 3] = [(3, 3, Some(3)), (4, 9, None), (0, 2, None)];

#[test]
fn finds_numbers(rt: HostRuntime) -> Result<(), Fail> {
    let table = table_of(rt.alloc(), KEYS.as_bytes())?;
    for (low, high, number) in &NUMBERS {
        let found = number_at(&table, "aa", *low, *high);
        assert_eq!(rt; found, *number, "from {low} to {high}");
    }
    Ok(())
}

/// How many tables a key has.
fn expect_tables(
    rt: &impl Abort,
    alloc: Global,
    table: &Table,
    key: &str,
    count: Option<usize>,
) -> Result<(), Fail> {
    let value = find(table, key).ok_or("no value")?;
    let found = tables(alloc, value)?;
    assert_eq!(rt; found.map(|rows| rows.len()), count, "{key}");
    Ok(())
}

#[test]
fn finds_tables(rt: HostRuntime) -> Result<(), Fail> {
    let table = table_of(rt.alloc(), KEYS.as_bytes())?;
    expect_tables(&rt, rt.alloc(), &table, "rows", Some(2))?;
    expect_tables(&rt, rt.alloc(), &table, "one", None)
}

/// Documents, and the rows of numbers of `a`.
static ROWS: [(&str, &str); 8] = [
    (
        "a = [[0, 4, 9], [], [4294967295]]",
        "[[0, 4, 9], [], [4294967295]]",
    ),
    ("a = []", "[]"),
    ("a = [[1], 2]", "none"),
    ("a = [[1], [2.0]]", "none"),
    ("a = [[1], [-1]]", "none"),
    ("a = [[4294967296]]", "none"),
    ("a = [[[1]]]", "none"),
    ("a = 1", "none"),
];

fn rows_text(alloc: Global, table: &Table) -> Result<String, Fail> {
    let value = find(table, "a").ok_or("no value")?;
    match number_rows(alloc, value, 0, 0xFFFF_FFFF)? {
        Some(rows) => Ok(format!(in alloc; "{rows:?}")?),
        None => words_text(alloc, "none"),
    }
}

fn rows_of(alloc: Global, text: &str) -> Result<String, Fail> {
    let table = table_of(alloc, text.as_bytes())?;
    rows_text(alloc, &table)
}

#[test]
fn reads_rows_of_numbers(rt: HostRuntime) -> Result<(), Fail> {
    for (text, expected) in &ROWS {
        expect_words(&rt, text, rows_of(rt.alloc(), text), expected)?;
    }
    Ok(())
}

static NO_DOCUMENTS: [&[u8]; 3] = [b"one = ", b"one = 1 # \xff", b"one = 1\none = 2"];

#[test]
fn refuses_what_is_no_document(rt: HostRuntime) -> Result<(), Fail> {
    for text in &NO_DOCUMENTS {
        let found = document(rt.alloc(), text)?;
        assert!(rt; found.is_none(), "{text:?}");
    }
    Ok(())
}
