//! What stands in a table, by number.

ghost use Rattle.std.specs.Prelude.{◌≡◌, ◌<◌, ◌≤◌, ℕ, [], false, length, slice_get};
ghost use Rattle.std.specs.List.{All};
ghost use Rattle.wrapped_intervals.specs.Small.{IsKeptOr, measure_view, row};
ghost use Rattle.value_checks.specs.Tables.{flag, form_in, line_in, line_rows, or_other, IsForm, IsLineKept};
ghost use Rattle.value_checks.specs.Tables as lines;
ghost use Rattle.stack_tables.specs.Tables.{IsDwindlingRow, IsRowOf, IsRowOfDwindling, IsRowOfTold, IsRowOfWords, IsToldRow, IsWordKept, arc_of, dwindling_rows, name_in, name_of_word, named, rows_view, span_of_word, told_rows};

use crate::tables::{Dwindling, Name, StackTable, Told, Word};
use value_checks::{Line, ValueTable};
use wrapped_intervals::{Arc, Measure};

/// Whether a run may come to node k.
pub fn live_row(table: &ValueTable, k: usize) -> bool
    requires { k < length table.now.live.items }
    ensures { result ≡ or_other false (slice_get table.now.live.items k) }
{
    table.live[k]
}

/// The intervals of registers at node k.
pub fn arcs_row(table: &ValueTable, k: usize) -> &[Option<Arc>]
    requires row { k < length table.now.rows.items }
    requires kept { All (All IsKeptOr) table.now.rows.items }
    ensures row { result.now ≡ or_other [] (slice_get table.now.rows.items k) }
    ensures size { length result.now ≡ 32 }
    ensures kept { All IsKeptOr result.now }
{
    &table.rows[k]
}

/// Those at the returns of function f.
pub fn exits_row(table: &ValueTable, f: usize) -> &[Option<Arc>]
    requires row { f < length table.now.exits.items }
    requires kept { All (All IsKeptOr) table.now.exits.items }
    ensures row { result.now ≡ or_other [] (slice_get table.now.exits.items f) }
    ensures size { length result.now ≡ 32 }
    ensures kept { All IsKeptOr result.now }
{
    &table.exits[f]
}

/// Where the values of registers come from, at node k.
pub fn names_row(stack: &StackTable, k: usize) -> &[Option<Name>]
    requires { k < length stack.now.names.items }
    ensures row { result.now ≡ or_other [] (slice_get stack.now.names.items k) }
    ensures size { length result.now ≡ 32 }
{
    &stack.names[k]
}

/// That of one of them.
pub fn name_in_row(names: &[Option<Name>], r: u8) -> Option<Name>
    requires size { length names.now ≡ 32 }
    requires register { r < 32 }
    ensures { result ≡ name_in names.now r }
{
    names[usize::from(r)]
}

/// How far above the function's first x2 it points.
pub fn span_in_row(stack: &StackTable, k: usize, r: u8) -> Option<Arc>
    requires row { k < length stack.now.spans.items }
    requires kept { All (All IsKeptOr) stack.now.spans.items }
    requires register { r < 32 }
    ensures span { result ≡ row (or_other [] (slice_get stack.now.spans.items k)) r }
    ensures kept { IsKeptOr result }
{
    stack.spans[k][usize::from(r)]
}

/// What x2 has when function f begins.
pub fn begins_row(stack: &StackTable, f: usize) -> Option<Arc>
    requires row { f < length stack.now.begins.items }
    requires kept { All IsKeptOr stack.now.begins.items }
    ensures begins { result ≡ row stack.now.begins.items f }
    ensures kept { IsKeptOr result }
{
    stack.begins[f]
}

/// Whether function f restores a register.
pub fn restored_row(stack: &StackTable, f: usize, r: u8) -> bool
    requires row { f < length stack.now.restored.items }
    requires register { r < 32 }
    ensures { result ≡ flag (or_other [] (slice_get stack.now.restored.items f)) r }
{
    stack.restored[f][usize::from(r)]
}

/// Whether nothing is stored to what waits, from node k on.
pub fn spared_row(stack: &StackTable, k: usize) -> bool
    requires { k < length stack.now.spared.items }
    ensures { result ≡ or_other false (slice_get stack.now.spared.items k) }
{
    stack.spared[k]
}

/// Whether what is stored at node k is taken to miss all words that are kept.
pub fn doubtful_row(stack: &StackTable, k: usize) -> bool
    requires { k < length stack.now.doubtful.items }
    ensures { result ≡ or_other false (slice_get stack.now.doubtful.items k) }
{
    stack.doubtful[k]
}

/// Whether a word of the stack of function f is kept: none is behind the last one.
pub fn kept_row(stack: &StackTable, f: usize, number: u32) -> bool
    requires { f < length stack.now.kept.items }
    ensures { result ≡ flag (or_other [] (slice_get stack.now.kept.items f)) number }
{
    match stack.kept[f].get(number as usize) {
        Some(is) => *is,
        None => false,
    }
}

/// The words at node k.
pub fn words_row(stack: &StackTable, k: usize) -> &[Word]
    requires row { k < length stack.now.words.items }
    requires kept { All IsRowOf stack.now.words.items }
    ensures row { result.now ≡ or_other [] (slice_get (rows_view stack.now.words.items) k) }
    ensures words { IsRowOfWords result.now }
{
    &stack.words[k]
}

/// What is known of a word of a row: nothing, behind the last one.
pub fn word_in(words: &[Word], k: u32) -> Word
    requires { All IsWordKept words.now }
    ensures arc { result.arc ≡ arc_of (slice_get words.now k) }
    ensures name { named result.name ≡ name_of_word (slice_get words.now k) }
    ensures span { result.span ≡ span_of_word (slice_get words.now k) }
    ensures kept { IsWordKept result }
{
    match words.get(k as usize) {
        Some(word) => *word,
        None => Word {
            arc: None,
            name: None,
            span: None,
        },
    }
}

/// What is told at node k.
pub fn told_row(stack: &StackTable, k: usize) -> &[Told]
    requires row { k < length stack.now.told.items }
    requires kept { All IsToldRow stack.now.told.items }
    ensures row { result.now ≡ or_other [] (slice_get (told_rows stack.now.told.items) k) }
    ensures told { IsRowOfTold result.now }
{
    &stack.told[k]
}

/// What is divided at node k, and how often.
pub fn dwindling_row(stack: &StackTable, k: usize) -> &[Dwindling]
    requires row { k < length stack.now.dwindling.items }
    requires kept { All IsDwindlingRow stack.now.dwindling.items }
    ensures row { result.now ≡ or_other [] (slice_get (dwindling_rows stack.now.dwindling.items) k) }
    ensures dwindling { IsRowOfDwindling result.now }
{
    &stack.dwindling[k]
}

/// The form of a number: behind the last one, one of which nothing is known.
pub fn form_row(table: &ValueTable, j: usize) -> Measure
    requires { All IsForm table.now.forms.items }
    ensures form { measure_view result ≡ form_in table.now.forms.items j }
    ensures kept { IsForm result }
{
    match table.forms.get(j) {
        Some(form) => *form,
        None => Measure {
            register: 1,
            factor: 0,
            other: 1,
            other_factor: 0,
            shift: 0,
        },
    }
}

/// The lines at node k.
pub fn lines_row(table: &ValueTable, k: usize) -> &[Line]
    requires row { k < length table.now.lines.items }
    requires kept { All lines.IsRowOf table.now.lines.items }
    ensures row { result.now ≡ or_other [] (slice_get (line_rows table.now.lines.items) k) }
    ensures lines { lines.IsRowOfLines result.now }
{
    &table.lines[k]
}

/// What a row of lines says of a form.
pub fn line_in_row(lines: &[Line], j: usize) -> Option<Arc>
    requires { All IsLineKept lines.now }
    ensures line { result ≡ line_in lines.now j }
    ensures kept { IsKeptOr result }
{
    for line in lines {
        if line.form == j {
            return Some(line.arc);
        }
    }
    None
}
