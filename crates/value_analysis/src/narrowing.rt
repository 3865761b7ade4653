//! The narrowing part of the analysis: intervals shrink to what flows to them.

ghost use Rattle.std.specs.Prelude.{◌<◌};

use crate::arcs::{holds, joined, kept, shorter};
use crate::forms::MOST_WANTED;
use crate::growing::{Growth, starting_state};
use crate::names::Names;
use crate::program::Program;
use crate::rows::{copy_of, join_row, narrow_row, put_row, unknown};
use crate::states::{Facts, State, WORD_COUNT, flowing_arc, word_at};
use crate::tables::Row;
use crate::ways::WayKind;
use scale_base::NoMemory;
use stack_tables::{MOST_TOLD, Told, Word};
use std::alloc::Global;
use value_checks::Line;
use wrapped_intervals::Arc;

// The intervals of all that flows to a node, if anything does.
#[derive(Drop)]
struct Gathered {
    found: bool,
    row: Row,
    arcs: [Option<Arc>; 64],
    /// The lines that are known where they flow to.
    lines: [Option<Arc>; 16],
    /// And what is told there, where it is of any state that flows.
    told: [Option<Arc>; 8],
    is_told: [bool; 8],
}

// The intervals of what flows, by the names that are known where it flows to.
fn named_row(state: &State, names: &Names, begins: &Option<Arc>) -> Row {
    let mut row = unknown();
    for r in 0..32 {
        let named = flowing_arc(names[r], state, begins);
        row[r] = shorter(state.met[r], shorter(state.row[r], named));
    }
    row
}

impl Gathered {
    fn nothing() -> Gathered {
        Gathered {
            found: false,
            row: unknown(),
            arcs: [None; 64],
            lines: [None; 16],
            told: [None; 8],
            is_told: [false; 8],
        }
    }

    fn arc(&self, k: usize) -> Option<Arc> {
        self.arcs.get(k).copied().flatten()
    }

    // Takes the first of what flows.
    fn put(&mut self, state: &State, row: &Row) {
        self.found = true;
        put_row(&mut self.row, row);
        for k in 0..WORD_COUNT {
            self.arcs[k] = state.word(k).arc;
        }
    }

    // Takes the lines of what flows.
    fn add_lines(&mut self, state: &State, lines: &[Line]) {
        for (place, line) in lines.iter().enumerate() {
            if place < MOST_WANTED {
                let arc = state.lines.of(line.form).and_then(|flow| flow.shortest());
                self.lines[place] = if self.found {
                    joined(self.lines[place], arc)
                } else {
                    arc
                };
            }
        }
    }

    // Takes what is told by what flows.
    fn add_told(&mut self, state: &State, row: &[Told]) {
        for (place, told) in row.iter().enumerate() {
            if place < MOST_TOLD && !state.is_never(told) {
                let arc = state.told_arc(told);
                self.told[place] = if self.is_told[place] {
                    joined(self.told[place], arc)
                } else {
                    arc
                };
                self.is_told[place] = true;
            }
        }
    }

    // Takes one more.
    fn add(&mut self, state: &State, facts: &Facts, begins: &Option<Arc>) {
        let row = named_row(state, &facts.names, begins);
        self.add_lines(state, &facts.lines);
        self.add_told(state, &facts.told);
        if !self.found {
            self.put(state, &row);
            return;
        }
        join_row(&mut self.row, &row);
        for k in 0..WORD_COUNT {
            if !holds(self.arc(k), state.word(k).arc) {
                self.arcs[k] = joined(self.arc(k), state.word(k).arc);
            }
        }
    }
}

// All that flows to a node.
fn gather(growth: &Growth<'_>, k: usize, state: &mut State) -> Gathered {
    let program: &Program = growth.program;
    let mut sum = Gathered::nothing();
    let begins = program
        .node(k)
        .and_then(|node| growth.begins(node.function));
    let Some(facts) = growth.facts.get(k) else {
        return sum;
    };
    if k == program.start() {
        starting_state(state);
        sum.add(state, facts, &begins);
    }
    let mut next = program.last_way_to(k);
    for _ in 0..program.ways.len() {
        let Some(way) = next.and_then(|w| program.way(w)) else {
            break;
        };
        if growth.flow(&way, state) {
            sum.add(state, facts, &begins);
        }
        next = way.beside;
    }
    sum
}

// Takes each interval that a word's holds.
fn narrow_words(words: &mut [Word], sum: &Gathered) {
    for k in 0..words.len() {
        if k < WORD_COUNT {
            if holds(word_at(words, k).arc, sum.arc(k))
                && !holds(sum.arc(k), word_at(words, k).arc)
            {
                words[k].arc = sum.arc(k);
            }
        }
    }
}

// And each that a line's holds.
fn narrow_lines(lines: &mut [Line], sum: &Gathered) {
    for place in 0..lines.len() {
        if place < MOST_WANTED {
            let narrower = sum.lines[place];
            if holds(Some(lines[place].arc), narrower)
                && !holds(sum.lines[place], Some(lines[place].arc))
            {
                if let Some(arc) = sum.lines[place] {
                    lines[place].arc = arc;
                }
            }
        }
    }
}

// And each of what is told.
fn narrow_told(row: &mut [Told], sum: &Gathered) {
    for place in 0..row.len() {
        if place < MOST_TOLD {
            let narrower = sum.told[place];
            if holds(Some(row[place].arc), narrower)
                && !holds(sum.told[place], Some(row[place].arc))
            {
                if let Some(arc) = kept(sum.told[place]) {
                    row[place].arc = arc;
                }
            }
        }
    }
}

// Narrows what is known at a node to what flows there.
fn narrow_node(growth: &mut Growth<'_>, k: usize, state: &mut State) {
    if !growth.is_live(k) {
        return;
    }
    let sum = gather(growth, k, state);
    if k >= growth.live.len() || k >= growth.facts.len() {
        return;
    }
    let facts = &mut growth.facts[k];
    if !sum.found {
        growth.live[k] = false;
        facts.forget();
        return;
    }
    narrow_row(&mut facts.row, &sum.row);
    narrow_words(&mut facts.words, &sum);
    narrow_lines(&mut facts.lines, &sum);
    narrow_told(&mut facts.told, &sum);
}

// The functions to which a node's ways return.
fn returns_to(growth: &Growth<'_>, k: usize) -> Option<usize> {
    let node = growth.program.node(k)?;
    match growth.program.way(node.first)?.kind {
        WayKind::Return(f) => Some(f),
        _ => None,
    }
}

// Joins a row to those at a function's returns.
fn add_exit(exits: &mut [Option<Row>], f: usize, row: &Row) {
    if f < exits.len() {
        let mut sum = copy_of(row);
        if let Some(before) = &exits[f] {
            join_row(&mut sum, before);
        }
        exits[f] = Some(sum);
    }
}

// Narrows what is known at a node, and joins it to those at the function's returns if it is at one.
fn narrow_at(growth: &mut Growth<'_>, exits: &mut [Option<Row>], k: usize, state: &mut State) {
    narrow_node(growth, k, state);
    if let (Some(f), true) = (returns_to(growth, k), growth.is_live(k)) {
        if let Some(facts) = growth.facts.get(k) {
            add_exit(exits, f, &facts.row);
        }
    }
}

// Narrows the row at a function's returns.
fn narrow_exit(growth: &mut Growth<'_>, f: usize, row: &Row) {
    if f < growth.known.len() {
        narrow_row(&mut growth.known[f].exit, row);
    }
}

// Narrows all intervals once, in the order in which states flow, and then those at returns.
fn narrow_once(alloc: Global, growth: &mut Growth<'_>, state: &mut State) -> Result<(), NoMemory> {
    let mut exits: Vec<Option<Row>> = vec![in alloc; None; growth.known.len()]?;
    for place in (0..growth.order.len()).rev() {
        if let Some(k) = growth.order.get(place).copied() {
            narrow_at(growth, &mut exits, k, state);
        }
    }
    for (f, exit) in exits.iter().enumerate() {
        if let Some(row) = exit {
            narrow_exit(growth, f, row);
        }
    }
    Ok(())
}

/// Narrows all intervals, some times.
pub fn narrow(
    alloc: Global,
    growth: &mut Growth<'_>,
    state: &mut State,
    times: usize,
) -> Result<(), NoMemory> {
    for _ in 0..times {
        narrow_once(alloc, growth, state)?;
    }
    Ok(())
}
