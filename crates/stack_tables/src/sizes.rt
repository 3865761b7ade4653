//! Whether a table has a row for each node and each function.

ghost use Rattle.std.specs.Prelude.{◌≡◌, true};
ghost use Rattle.std.specs.List.{All};
ghost use Rattle.wrapped_intervals.specs.Small.{IsKept, IsKeptOr};
ghost use Rattle.stack_tables.specs.Tables.{AreStacksSized, HasKeptValues, IsDwindlingKept, IsDwindlingRow, IsRowOf, IsRowOfDwindling, IsRowOfTold, IsRowOfWords, IsToldKept, IsToldRow, IsWordKept};

use crate::stores::MOST_WORDS;
use crate::tables::{
    Cell, Dwindling, MOST_AREAS, MOST_CELLS, MOST_DWINDLING, MOST_PARTS, MOST_TOLD, StackTable,
    Told, Word,
};
use flow_graph::CodeGraph;
use value_checks::{are_arcs_kept, are_rows_kept};
use wrapped_intervals::{Arc, is_kept};

// Whether the intervals of a word are.
fn is_word_kept(word: Word) -> bool
    ensures { result ≡ true → IsWordKept word }
{
    is_kept(word.arc) && is_kept(word.span)
}

// Whether those of a row of words are.
fn are_words_kept(words: &[Word]) -> bool
    ensures { result ≡ true → All IsWordKept words.now }
{
    for word in words {
        if !is_word_kept(*word) {
            return false;
        }
    }
    true
}

// The same, of no more words than a row may have.
fn is_row_of_words(words: &[Word]) -> bool
    ensures { result ≡ true → IsRowOfWords words.now }
{
    words.len() <= MOST_WORDS as usize && are_words_kept(words)
}

// The same of each row.
fn are_rows_of_words(rows: &[Vec<Word>]) -> bool
    ensures { result ≡ true → All IsRowOf rows.now }
{
    for words in rows {
        if !is_row_of_words(words) {
            return false;
        }
    }
    true
}

// Whether the intervals of numbers in memory are.
fn are_cells_kept(cells: &[Cell]) -> bool
    ensures { result ≡ true → All HasKeptValues cells.now }
{
    for cell in cells {
        if !is_kept(Some(cell.values)) {
            return false;
        }
    }
    true
}

// Whether intervals of addresses are.
fn are_areas_kept(areas: &[Arc]) -> bool
    ensures { result ≡ true → All IsKept areas.now }
{
    for area in areas {
        if !is_kept(Some(*area)) {
            return false;
        }
    }
    true
}

// Whether what is told is of registers from x1 on, with an interval that is kept.
fn is_told_kept(told: Told) -> bool
    ensures { result ≡ true → IsToldKept told }
{
    0 < told.teller
        && told.teller < 32
        && 0 < told.about
        && told.about < 32
        && is_kept(Some(told.arc))
}

// The same of all that a node tells.
fn are_told_kept(row: &[Told]) -> bool
    ensures { result ≡ true → All IsToldKept row.now }
{
    for told in row {
        if !is_told_kept(*told) {
            return false;
        }
    }
    true
}

// The same, of no more than a node may tell.
fn is_row_of_told(row: &[Told]) -> bool
    ensures { result ≡ true → IsRowOfTold row.now }
{
    row.len() <= MOST_TOLD && are_told_kept(row)
}

// The same of each node.
fn are_rows_of_told(rows: &[Vec<Told>]) -> bool
    ensures { result ≡ true → All IsToldRow rows.now }
{
    for row in rows {
        if !is_row_of_told(row) {
            return false;
        }
    }
    true
}

// Whether what is divided is of registers from x1 on, and the bits fewer than 64.
fn is_dwindling_kept(pair: Dwindling) -> bool
    ensures { result ≡ true → IsDwindlingKept pair }
{
    0 < pair.value
        && pair.value < 32
        && 0 < pair.count
        && pair.count < 32
        && pair.bits < 64
        && pair.below < 64
}

// The same of all at a node.
fn are_dwindling_kept(row: &[Dwindling]) -> bool
    ensures { result ≡ true → All IsDwindlingKept row.now }
{
    for pair in row {
        if !is_dwindling_kept(*pair) {
            return false;
        }
    }
    true
}

// The same, of no more than a node may have.
fn is_row_of_dwindling(row: &[Dwindling]) -> bool
    ensures { result ≡ true → IsRowOfDwindling row.now }
{
    row.len() <= MOST_DWINDLING && are_dwindling_kept(row)
}

// The same of each node.
fn are_rows_of_dwindling(rows: &[Vec<Dwindling>]) -> bool
    ensures { result ≡ true → All IsDwindlingRow rows.now }
{
    for row in rows {
        if !is_row_of_dwindling(row) {
            return false;
        }
    }
    true
}

// Whether all intervals of a table are kept.
fn are_all_kept(stack: &StackTable) -> bool
    ensures spans { result ≡ true → All (All IsKeptOr) stack.now.spans.items }
    ensures words { result ≡ true → All IsRowOf stack.now.words.items }
    ensures begins { result ≡ true → All IsKeptOr stack.now.begins.items }
    ensures place { result ≡ true → IsKeptOr stack.now.place }
    ensures cells { result ≡ true → All HasKeptValues stack.now.cells.items }
    ensures told { result ≡ true → All IsToldRow stack.now.told.items }
    ensures dwindling { result ≡ true → All IsDwindlingRow stack.now.dwindling.items }
    ensures areas { result ≡ true → All IsKept stack.now.areas.items }
{
    are_rows_kept(&stack.spans)
        && are_rows_of_words(&stack.words)
        && are_arcs_kept(&stack.begins)
        && is_kept(stack.place)
        && are_cells_kept(&stack.cells)
        && are_rows_of_told(&stack.told)
        && are_rows_of_dwindling(&stack.dwindling)
        && are_areas_kept(&stack.areas)
}

/// Whether a table has a row for each node and each function of a graph, with intervals that are kept, rows of at most so many words
/// and of at most so much that is told and so many that are divided, and at most so many numbers in memory, intervals of addresses and
/// parts whose bytes no store changes.
pub fn is_stack_sized(graph: &CodeGraph, stack: &StackTable) -> bool
    ensures { result ≡ true → AreStacksSized graph.now.code stack.now }
{
    let nodes = graph.node_count();
    let functions = graph.function_count();
    stack.names.len() == nodes
        && stack.spans.len() == nodes
        && stack.words.len() == nodes
        && stack.spared.len() == nodes
        && stack.begins.len() == functions
        && stack.restored.len() == functions
        && stack.cells.len() <= MOST_CELLS
        && stack.told.len() == nodes
        && stack.dwindling.len() == nodes
        && stack.areas.len() <= MOST_AREAS
        && stack.fixed.len() <= MOST_PARTS
        && stack.doubtful.len() == nodes
        && stack.kept.len() == functions
        && are_all_kept(stack)
}
