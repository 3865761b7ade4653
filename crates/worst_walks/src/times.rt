//! How often the parts of a walk are gone: proposals, which are tested behind it.

ghost use Rattle.std.specs.Prelude.{◌≡◌, ◌+◌, length, IfOk};
ghost use Rattle.worst_walks.specs.Known.{IsKnown};

use crate::keys::{begun_loops, called_functions, entered_loops};
use crate::parts::Parts;
use crate::search::Known;
use graph_algorithms::{Arc, Order, are_numbered, sort};
use scale_base::NoMemory;
use std::alloc::Global;

/// What edges and functions lead into, other parts: functions that are called, and loops that are entered. The loops are numbered behind
/// the functions.
#[derive(Clone, Copy)]
struct Uses<'a> {
    called: &'a [Option<usize>],
    entered: &'a [Option<usize>],
    begun: &'a [Option<usize>],
    functions: usize,
}

/// The number of a loop among the parts.
fn loop_part(uses: &Uses<'_>, l: Option<usize>) -> Option<usize> {
    match l {
        Some(l) => uses.functions.checked_add(l),
        None => None,
    }
}

/// The entry of a table, and none behind its end.
fn key_in(keys: &[Option<usize>], i: usize) -> Option<usize> {
    if i < keys.len() { keys[i] } else { None }
}

/// An arc from a part to one that it uses, if it is one.
fn add_arc(from: usize, to: Option<usize>, arcs: &mut Vec<Arc>) -> Result<(), NoMemory> {
    if let Some(to) = to {
        arcs.push(Arc { from, to })?;
    }
    Ok(())
}

/// Arcs from a part to those that its edges use.
fn add_arcs(
    uses: &Uses<'_>,
    part: usize,
    edges: &[usize],
    arcs: &mut Vec<Arc>,
) -> Result<(), NoMemory> {
    add_arc(part, loop_part(uses, key_in(uses.begun, part)), arcs)?;
    for e in edges {
        add_arc(part, key_in(uses.called, *e), arcs)?;
        add_arc(part, loop_part(uses, key_in(uses.entered, *e)), arcs)?;
    }
    Ok(())
}

/// The edges of a part.
fn part_edges<'a>(parts: &'a Parts, functions: usize, part: usize) -> &'a [usize] {
    if part < functions {
        edges_in(&parts.paths, part)
    } else {
        edges_in(&parts.turns, part - functions)
    }
}

/// A list of some, and none behind their end.
fn edges_in(lists: &[Vec<usize>], l: usize) -> &[usize] {
    if l < lists.len() { &lists[l] } else { &[] }
}

/// Adds so many times to a part, if it is one.
fn add_times(part: Option<usize>, gone: u64, times: &mut [u64]) {
    if let Some(part) = part {
        if part < times.len() {
            times[part] = times[part].saturating_add(gone);
        }
    }
}

/// Adds the times that a part is gone to those that its edges use.
fn go_part(uses: &Uses<'_>, part: usize, edges: &[usize], gone: u64, times: &mut [u64]) {
    add_times(loop_part(uses, key_in(uses.begun, part)), gone, times);
    for e in edges {
        add_times(key_in(uses.called, *e), gone, times);
        add_times(loop_part(uses, key_in(uses.entered, *e)), gone, times);
    }
}

/// How often functions are called and loops entered.
#[derive(Drop)]
pub struct Times {
    pub calls: Vec<u64>,
    pub entries: Vec<u64>,
}

/// No program has more parts, and no more uses of them.
const MOST_USES: usize = 1 << 24;

/// Arcs from each part to those that it uses.
fn find_arcs(
    alloc: Global,
    uses: &Uses<'_>,
    parts: &Parts,
    count: usize,
) -> Result<Vec<Arc>, NoMemory> {
    let mut arcs = Vec::new(alloc);
    for part in 0..count {
        add_arcs(
            uses,
            part,
            part_edges(parts, uses.functions, part),
            &mut arcs,
        )?;
    }
    Ok(arcs)
}

/// The parts, each behind those that it uses: none where there is no such order.
fn order_of(alloc: Global, count: usize, arcs: &[Arc]) -> Result<Vec<usize>, NoMemory> {
    if count > MOST_USES || arcs.len() > MOST_USES || !are_numbered(count, arcs) {
        return Ok(Vec::new(alloc));
    }
    match sort(alloc, count, arcs)? {
        Order::Sorted(order) => Ok(order),
        Order::Cycle(_) => Ok(Vec::new(alloc)),
    }
}

/// How often the edges of a part are gone that is entered so often.
fn times_gone(known: &Known<'_>, part: usize, times: u64) -> u64 {
    let functions = known.graph.function_count();
    if part < functions {
        return times;
    }
    let l = part - functions;
    if l < known.tree.loop_count() {
        times.saturating_mul(u64::from(known.tree.bound(l)))
    } else {
        0
    }
}

/// Goes through the parts from those that use others to those that are used.
fn go_parts(known: &Known<'_>, uses: &Uses<'_>, parts: &Parts, order: &[usize], times: &mut [u64]) {
    for part in order.iter().rev() {
        let part = *part;
        if part < times.len() {
            let gone = times_gone(known, part, times[part]);
            go_part(
                uses,
                part,
                part_edges(parts, uses.functions, part),
                gone,
                times,
            );
        }
    }
}

/// By part, how often it is entered.
fn times_by_part(alloc: Global, known: &Known<'_>, parts: &Parts) -> Result<Vec<u64>, NoMemory>
    requires { IsKnown known.now }
{
    let called = called_functions(alloc, known.graph)?;
    let entered = entered_loops(alloc, known.graph, known.tree)?;
    let begun = begun_loops(alloc, known.graph, known.tree)?;
    let functions = known.graph.function_count();
    let uses = Uses {
        called: &called,
        entered: &entered,
        begun: &begun,
        functions,
    };
    let count = functions + known.tree.loop_count();
    let arcs = find_arcs(alloc, &uses, parts, count)?;
    let order = order_of(alloc, count, &arcs)?;
    let mut times = vec![in alloc; 0; count]?;
    times[0] = 1;
    go_parts(known, &uses, parts, &order, &mut times);
    Ok(times)
}

/// So many numbers of a table from one place on, and 0 behind its end.
fn table_part(
    alloc: Global,
    table: &[u64],
    first: usize,
    count: usize,
) -> Result<Vec<u64>, NoMemory>
    ensures { IfOk result (λ part. length part.items ≡ count) }
{
    let mut part = Vec::new(alloc);
    for i in 0..count {
        part.push(number_from(table, first, i))?;
    }
    Ok(part)
}

/// The number so many places behind the first, and 0 behind the end.
fn number_from(table: &[u64], first: usize, i: usize) -> u64 {
    match first.checked_add(i) {
        Some(k) => { if k < table.len() { table[k] } else { 0 } }
        None => 0,
    }
}

/// Proposes how often functions are called and loops entered along a walk of these parts.
pub fn find_times(alloc: Global, known: &Known<'_>, parts: &Parts) -> Result<Times, NoMemory>
    requires { IsKnown known.now }
    ensures calls { IfOk result (λ times. length times.calls.items ≡ length known.now.graph.now.code.functions) }
    ensures entries { IfOk result (λ times. length times.entries.items ≡ length known.now.tree.now.headers) }
{
    let times = times_by_part(alloc, known, parts)?;
    let functions = known.graph.function_count();
    let calls = table_part(alloc, &times, 0, functions)?;
    let entries = table_part(alloc, &times, functions, known.tree.loop_count())?;
    Ok(Times { calls, entries })
}
