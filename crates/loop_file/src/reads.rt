//! Reads the table of a loop file, and those of its loops.

ghost use Rattle.std.specs.Prelude.{◌≡◌, ◌≤◌, length, map, option_map, IfOk};
ghost use Rattle.toml.specs.View.{table_view};
ghost use Rattle.scale_base.specs.Answer.{Answers, Refuses};
ghost use Rattle.scale_base.specs.declared.refusal.Refusal.TheVariants.{LoopKey, LoopValue};
ghost use Rattle.table_keys.specs.Keys.{checked_keys, least_unknown};
ghost use Rattle.loop_file.specs.Notes.{IsLoopNote};
ghost use Rattle.loop_file.specs.Loops.{loop_version, loop_tables, fault_refusal, required_keys, loop_keys, header_at, ranges_at, bound_of, counted_at, least_at, note_of, notes_from, notes_of};

use crate::address::{Fault, address};
use crate::notes::{LoopNote, LoopNotes, RangeList};
use crate::ranges::ranges_of;
use elf_image::ImageView;
use scale_base::{Name, Refusal, Stop};
use std::alloc::Global;
use symbol_index::SortedSymbols;
use table_keys::{find, first_missing, least_unknown, number_at, number_of, tables};
use toml::Table;

// The number that stands for the file itself where a refusal names a loop.
const FILE: u32 = 0;

const FILE_KEYS: [&str; 2] = ["version", "loop"];

const REQUIRED_KEYS: [&str; 3] = ["header", "ranges", "bound"];

const FIRST_LOOP_KEYS: [&str; 4] = ["header", "ranges", "bound", "counted"];

const LOOP_KEYS: [&str; 5] = ["header", "ranges", "bound", "counted", "at_least"];

const MOST_LOOPS: usize = 4096;

// The refusal of a key of a loop that is missing or unknown.
fn bad_key(alloc: Global, number: u32, key: &str) -> Stop
    ensures { Refuses result (LoopKey number key.now) }
{
    match String::from_str(alloc, key) {
        Ok(text) => Stop::Refused(Refusal::LoopKey(number, Name::new(text))),
        Err(_) => Stop::Memory,
    }
}

// The refusal of a value of a loop.
fn bad_value(alloc: Global, number: u32, key: &str) -> Stop
    ensures { Refuses result (LoopValue number key.now) }
{
    match String::from_str(alloc, key) {
        Ok(text) => Stop::Refused(Refusal::LoopValue(number, Name::new(text))),
        Err(_) => Stop::Memory,
    }
}

// The refusal of a value of a loop that gives addresses.
fn faulty(alloc: Global, number: u32, key: &str, fault: Fault) -> Stop
    ensures { Refuses result (fault_refusal number key.now fault) }
{
    match fault {
        Fault::Bad => bad_value(alloc, number, key),
        Fault::Absent => Stop::Refused(Refusal::UnknownSymbol(number)),
    }
}

fn version(alloc: Global, table: &Table) -> Result<u32, Stop>
    ensures { Answers (λ n. n) result (loop_version (table_view table.now)) }
{
    if find(table, "version").is_none() {
        return Err(bad_key(alloc, FILE, "version"));
    }
    match number_at(table, "version", 1, 2) {
        Some(n) => Ok(n as u32),
        None => Err(bad_value(alloc, FILE, "version")),
    }
}

fn loop_tables<'t>(alloc: Global, table: &'t Table) -> Result<Vec<&'t Table>, Stop>
    ensures { Answers (λ v. map (λ t. table_view t.now) v.items) result (loop_tables (table_view table.now)) }
{
    match find(table, "loop") {
        None => Ok(Vec::new(alloc)),
        Some(value) => match tables(alloc, value)? {
            Some(found) => Ok(found),
            None => Err(bad_value(alloc, FILE, "loop")),
        },
    }
}

// The least key of a loop that a file of this version doesn't know.
fn unknown_key<'t>(version: u32, table: &'t Table) -> Option<&'t str>
    ensures { option_map (λ k. k.now) result ≡ least_unknown (loop_keys version) (table_view table.now) }
{
    if version == 2 {
        least_unknown(table, &LOOP_KEYS)
    } else {
        least_unknown(table, &FIRST_LOOP_KEYS)
    }
}

fn check_keys(alloc: Global, version: u32, number: u32, table: &Table) -> Result<(), Stop>
    ensures { Answers (λ x. x) result (checked_keys (LoopKey number) required_keys (loop_keys version) (table_view table.now)) }
{
    if let Some(key) = first_missing(table, &REQUIRED_KEYS) {
        return Err(bad_key(alloc, number, key));
    }
    if let Some(key) = unknown_key(version, table) {
        return Err(bad_key(alloc, number, key));
    }
    Ok(())
}

fn header(
    alloc: Global,
    symbols: &SortedSymbols<'_>,
    number: u32,
    table: &Table,
) -> Result<u32, Stop>
    ensures { Answers (λ at. at) result (header_at symbols.now number (table_view table.now)) }
{
    let Some(value) = find(table, "header") else {
        return Err(bad_value(alloc, number, "header"));
    };
    match address(symbols, value) {
        Ok(at) => Ok(at),
        Err(fault) => Err(faulty(alloc, number, "header", fault)),
    }
}

fn ranges(
    alloc: Global,
    symbols: &SortedSymbols<'_>,
    number: u32,
    table: &Table,
) -> Result<RangeList, Stop>
    ensures ranges { Answers (λ ranges. ranges) result (ranges_at symbols.now number (table_view table.now)) }
    ensures few { IfOk result (λ ranges. (1 ≤ length ranges) × (length ranges ≤ 16)) }
{
    let Some(value) = find(table, "ranges") else {
        return Err(bad_value(alloc, number, "ranges"));
    };
    match ranges_of(alloc, symbols, value)? {
        Ok(ranges) => Ok(ranges),
        Err(fault) => Err(faulty(alloc, number, "ranges", fault)),
    }
}

fn bound(alloc: Global, number: u32, table: &Table) -> Result<u32, Stop>
    ensures bound { Answers (λ n. n) result (bound_of number (table_view table.now)) }
    ensures within { IfOk result (λ n. n ≤ 1000000000) }
{
    match number_at(table, "bound", 0, 1_000_000_000) {
        Some(n) => Ok(n as u32),
        None => Err(bad_value(alloc, number, "bound")),
    }
}

fn counted(alloc: Global, number: u32, table: &Table) -> Result<bool, Stop>
    ensures { Answers (λ b. b) result (counted_at number (table_view table.now)) }
{
    match find(table, "counted") {
        None => Ok(false),
        Some(value) => match value.as_bool() {
            Some(counted) => Ok(counted),
            None => Err(bad_value(alloc, number, "counted")),
        },
    }
}

fn at_least(alloc: Global, number: u32, bound: u32, table: &Table) -> Result<u32, Stop>
    ensures least { Answers (λ n. n) result (least_at number bound (table_view table.now)) }
    ensures within { IfOk result (λ n. n ≤ bound) }
{
    match find(table, "at_least") {
        None => Ok(0),
        Some(value) => match number_of(value, 0, bound as u64) {
            Some(n) => Ok(n as u32),
            None => Err(bad_value(alloc, number, "at_least")),
        },
    }
}

#[tactic(auto, unfolding(crate::specs::Loops::note_of))]
fn note(
    alloc: Global,
    symbols: &SortedSymbols<'_>,
    version: u32,
    number: u32,
    table: &Table,
) -> Result<LoopNote, Stop>
    ensures note { Answers (λ note. note) result (note_of symbols.now version number (table_view table.now)) }
    ensures kept { IfOk result IsLoopNote }
{
    check_keys(alloc, version, number, table)?;
    let header = header(alloc, symbols, number, table)?;
    let ranges = ranges(alloc, symbols, number, table)?;
    let bound = bound(alloc, number, table)?;
    Ok(LoopNote {
        header,
        ranges,
        bound,
        counted: counted(alloc, number, table)?,
        at_least: at_least(alloc, number, bound, table)?,
    })
}

fn notes(
    alloc: Global,
    symbols: &SortedSymbols<'_>,
    version: u32,
    tables: &[&Table],
) -> Result<LoopNotes, Stop>
    requires { length tables.now ≤ 4096 }
    ensures { Answers (λ notes. notes) result (notes_from symbols.now version 1 (map (λ t. table_view t.now) tables.now)) }
{
    let mut notes = LoopNotes::new(alloc);
    for (i, table) in tables.iter().enumerate() {
        notes.push(note(alloc, symbols, version, i as u32 + 1, table)?)?;
    }
    Ok(notes)
}

/// The notes of a table.
#[tactic(auto, unfolding(crate::specs::Loops::notes_of))]
pub fn notes_of(alloc: Global, image: &ImageView<'_>, table: &Table) -> Result<LoopNotes, Stop>
    ensures { Answers (λ notes. notes) result (notes_of image.now (table_view table.now)) }
{
    let version = version(alloc, table)?;
    if let Some(key) = least_unknown(table, &FILE_KEYS) {
        return Err(bad_key(alloc, FILE, key));
    }
    let tables = loop_tables(alloc, table)?;
    if tables.len() > MOST_LOOPS {
        let count = tables.len().min(0xFFFF_FFFF) as u32;
        return Err(Stop::Refused(Refusal::TooManyLoops(count)));
    }
    if tables.is_empty() {
        return Ok(LoopNotes::new(alloc));
    }
    let symbols = SortedSymbols::of(alloc, image)?;
    notes(alloc, &symbols, version, &tables)
}
