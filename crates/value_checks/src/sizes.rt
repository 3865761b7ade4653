//! Whether a table has a row for each node and each function.

ghost use Rattle.std.specs.Prelude.{◌≡◌, true};
ghost use Rattle.std.specs.List.{All};
ghost use Rattle.wrapped_intervals.specs.Small.{IsKeptOr};
ghost use Rattle.value_checks.specs.Tables.{AreSized, IsForm, IsLineKept, IsRowOf, IsRowOfLines};

use crate::tables::{Line, ValueTable};
use flow_graph::CodeGraph;
use wrapped_intervals::{Arc, Measure, is_kept};

/// How many lines a row has at most.
pub const MOST_LINES: usize = 16;

/// Whether each interval of a row is one that is kept.
pub fn are_arcs_kept(row: &[Option<Arc>]) -> bool
    ensures { result ≡ true → All IsKeptOr row.now }
{
    for arc in row {
        if !is_kept(*arc) {
            return false;
        }
    }
    true
}

/// The same of each row.
pub fn are_rows_kept(rows: &[[Option<Arc>; 32]]) -> bool
    ensures { result ≡ true → All (All IsKeptOr) rows.now }
{
    for row in rows {
        if !are_arcs_kept(row) {
            return false;
        }
    }
    true
}

// Whether both registers of a form are of x1 to x31.
fn is_form(m: Measure) -> bool
    ensures { result ≡ true → IsForm m }
{
    0 < m.register && m.register < 32 && 0 < m.other && m.other < 32
}

// The same of each form.
fn are_forms(forms: &[Measure]) -> bool
    ensures { result ≡ true → All IsForm forms.now }
{
    for form in forms {
        if !is_form(*form) {
            return false;
        }
    }
    true
}

// Whether each interval of a row of lines is kept.
fn are_lines_kept(lines: &[Line]) -> bool
    ensures { result ≡ true → All IsLineKept lines.now }
{
    for line in lines {
        if !is_kept(Some(line.arc)) {
            return false;
        }
    }
    true
}

// The same, of no more lines than a row may have.
fn is_row_of_lines(lines: &[Line]) -> bool
    ensures { result ≡ true → IsRowOfLines lines.now }
{
    lines.len() <= MOST_LINES && are_lines_kept(lines)
}

// The same of each row.
fn are_rows_of_lines(rows: &[Vec<Line>]) -> bool
    ensures { result ≡ true → All IsRowOf rows.now }
{
    for lines in rows {
        if !is_row_of_lines(lines) {
            return false;
        }
    }
    true
}

/// Whether a table has a row for each node and each function of a graph, with intervals that are kept, forms of x1 to x31, and rows of at
/// most so many lines.
pub fn is_sized(graph: &CodeGraph, table: &ValueTable) -> bool
    ensures { result ≡ true → AreSized graph.now.code table.now }
{
    let nodes = graph.node_count();
    table.live.len() == nodes
        && table.rows.len() == nodes
        && table.lines.len() == nodes
        && table.exits.len() == graph.function_count()
        && are_rows_kept(&table.rows)
        && are_rows_kept(&table.exits)
        && are_forms(&table.forms)
        && are_rows_of_lines(&table.lines)
}
