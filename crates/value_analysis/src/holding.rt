//! Numbers in memory as the analysis grows: loads say what they may be, and stores let them grow.

ghost use Rattle.std.specs.Prelude.{◌<◌};

use crate::arcs::{fewer, joined, shorter};
use crate::cells::{Cells, Place, loaded_place, loaded_values, stored_number};
use crate::fixed::has_fixed;
use crate::growing::Growth;
use crate::tables::Row;
use elf_image::ImageView;
use scale_base::{Instr, NoMemory};
use std::alloc::Global;
use wrapped_intervals::Arc;

/// How many loads are looked at for thresholds of a number.
const MOST_LOADS: usize = 8;

// The byte that is loaded to an address, if a segment has it.
fn loaded_byte(view: &ImageView<'_>, at: u32) -> Option<u8> {
    for k in 0..view.segment_count() {
        let segment = view.segment(k);
        let place = at.wrapping_sub(segment.from);
        if place < segment.len {
            return Some(segment.file.get(place as usize).copied().unwrap_or(0));
        }
    }
    None
}

// The number of some bytes when a run starts, where segments have them all.
fn first_number(view: &ImageView<'_>, place: Place) -> Option<u64> {
    let mut number = 0;
    for k in (0..u32::from(place.width)).rev() {
        let byte = loaded_byte(view, place.at.wrapping_add(k))?;
        number = (number << 8) | u64::from(byte);
    }
    Some(number)
}

/// Puts what is known of a number in memory for the register that it is loaded to.
pub fn put_loaded(cells: &Cells, i: Instr, from: &Row, to: &mut Row) {
    let (Instr::Load { op, rd, .. }, Some(place)) = (i, loaded_place(i, from)) else {
        return;
    };
    let values = cells
        .values_at(place)
        .and_then(|values| loaded_values(op, values));
    let r = usize::from(rd);
    if 0 < r && r < 32 && values.is_some() {
        to[r] = fewer(values, to[r]);
    }
}

// The number of a place, which is looked at from here on.
fn number_of(growth: &mut Growth<'_>, place: Place) -> Result<Option<usize>, NoMemory> {
    if let Some(number) = growth.cells.find(place) {
        return Ok(Some(number));
    }
    if !growth.cells.is_open() {
        return Ok(None);
    }
    match first_number(growth.view, place) {
        Some(first) => growth.cells.find_or_add(place, first),
        None => Ok(None),
    }
}

// Has the loads of a number looked at again.
fn wait_for_loads(growth: &mut Growth<'_>, number: usize) -> Result<(), NoMemory> {
    let mut next = growth.cells.last_load(number);
    for _ in 0..growth.cells.load_count() {
        let Some(load) = next else {
            break;
        };
        if let Some(k) = growth.cells.load_node(load) {
            if growth.is_live(k) {
                growth.wait_for(k)?;
            }
        }
        next = growth.cells.load_before(load);
    }
    Ok(())
}

// What a number grows to by the thresholds of the functions that store it, and of some that load it.
fn widened_number(growth: &mut Growth<'_>, number: usize, k: usize, stored: Arc) -> Option<Arc> {
    let grown = growth.cells.growing(number, stored)?;
    let mut least = grown.widened_in(growth.thresholds_at(k));
    let mut next = growth.cells.last_load(number);
    for _ in 0..MOST_LOADS {
        let Some(load) = next else {
            break;
        };
        if let Some(node) = growth.cells.load_node(load) {
            least = shorter(grown.widened_in(growth.thresholds_at(node)), least);
        }
        next = growth.cells.load_before(load);
    }
    least
}

// Lets a number grow by what the instruction at a node stores.
fn store(growth: &mut Growth<'_>, k: usize, place: Place, stored: Arc) -> Result<(), NoMemory> {
    let Some(number) = number_of(growth, place)? else {
        return Ok(());
    };
    if growth.cells.is_held(number, stored) {
        return Ok(());
    }
    let arc = if growth.is_hasty() {
        None
    } else {
        widened_number(growth, number, k, stored)
    };
    growth.cells.put(number, arc);
    wait_for_loads(growth, number)
}

// Notes the load of a number at a node, where stores may change it.
fn load(growth: &mut Growth<'_>, k: usize, place: Place) -> Result<(), NoMemory> {
    if has_fixed(growth.fixed, place) {
        return Ok(());
    }
    match number_of(growth, place)? {
        Some(number) => growth.cells.note_load(k, number),
        None => Ok(()),
    }
}

/// Looks at what the instruction at a node loads and stores.
pub fn look_at_memory(growth: &mut Growth<'_>, k: usize) -> Result<(), NoMemory> {
    let (Some(node), Some(facts)) = (growth.program.node(k), growth.facts.get(k)) else {
        return Ok(());
    };
    let loaded = loaded_place(node.instr, &facts.row);
    let stored = stored_number(node.instr, &facts.row);
    if let Some(place) = loaded {
        load(growth, k, place)?;
    }
    match stored {
        Some((place, values)) => store(growth, k, place, values),
        None => Ok(()),
    }
}

// What the instruction at a node stores.
fn stored_at(growth: &Growth<'_>, k: usize) -> Option<(usize, Arc)> {
    let node = growth.program.node(k)?;
    let (place, values) = stored_number(node.instr, &growth.facts.get(k)?.row)?;
    Some((growth.cells.find(place)?, values))
}

/// Lets each number be what it is when the run starts and what is stored there.
pub fn narrow_numbers(alloc: Global, growth: &mut Growth<'_>) -> Result<(), NoMemory> {
    let mut sums = growth.cells.firsts(alloc)?;
    for k in 0..growth.live.len() {
        if growth.is_live(k) {
            if let Some((number, values)) = stored_at(growth, k) {
                if number < sums.len() && sums[number].is_some() {
                    sums[number] = joined(sums[number], Some(values));
                }
            }
        }
    }
    growth.cells.narrow(&sums);
    Ok(())
}
