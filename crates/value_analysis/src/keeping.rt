//! Which numbers in memory all stores keep.

ghost use Rattle.std.specs.Prelude.{◌<◌};

use crate::arcs::{WORDS, ahead};
use crate::cells::{Place, loaded_place, loaded_values, stored_number};
use crate::growing::Growth;
use crate::stores::{Reach, reach_of};
use scale_base::{Instr, NoMemory};
use stack_tables::{Cell, MOST_CELLS};
use std::alloc::Global;
use wrapped_intervals::Arc;

/// A place of a number, and whether the number is given up.
#[derive(Clone, Copy, PartialEq, Eq, PartialOrd, Ord, Drop)]
struct Claimed {
    place: Place,
    number: usize,
    gone: bool,
}

/// The numbers that are used, by place, and the places of those that stores may change to something else.
#[derive(Drop)]
struct Kept {
    claimed: Vec<Claimed>,
    gone: Vec<Place>,
}

// Whether an access of these addresses may touch a number at a place.
fn touches(reach: &Arc, most: u64, place: Place) -> bool {
    let distance = ahead(reach.low(), u64::from(place.at));
    !(reach.more() < distance
        && reach.more().saturating_add(most) <= distance
        && distance.saturating_add(u64::from(place.width)) <= WORDS)
}

// Whether a number at an address may be touched, or one at a lower one.
fn is_near(reach: &Arc, most: u64, at: u32) -> bool {
    let from = reach.low().saturating_add(WORDS - 3);
    let width = reach.more().saturating_add(most).saturating_add(3);
    ahead(from, u64::from(at)) < width
}

impl Kept {
    // Where the first number is that an access may touch.
    fn first(&self, reach: &Arc) -> usize {
        let sought = Claimed {
            place: Place {
                at: ahead(3, reach.low()) as u32,
                width: 0,
            },
            number: 0,
            gone: false,
        };
        match self.claimed.binary_search(&sought) {
            Ok(first) => first,
            Err(first) => first,
        }
    }

    // Gives up a number.
    fn give_up(&mut self, k: usize) -> Result<(), NoMemory> {
        if k < self.claimed.len() {
            self.claimed[k].gone = true;
            self.gone.push(self.claimed[k].place)?;
        }
        Ok(())
    }

    // Takes those that are given up away.
    fn take_away(&mut self) {
        self.claimed.retain(|claimed| !claimed.gone);
    }

    // Gives up all.
    fn give_up_all(&mut self) -> Result<(), NoMemory> {
        for k in 0..self.claimed.len() {
            self.give_up(k)?;
        }
        self.take_away();
        Ok(())
    }

    // Gives up the numbers that an access to some addresses may touch, but for one. Whether there are any.
    fn give_up_touched(
        &mut self,
        reach: &Arc,
        most: u64,
        but: Option<usize>,
    ) -> Result<bool, NoMemory> {
        let count = self.claimed.len();
        let first = self.first(reach);
        let before = self.gone.len();
        for step in 0..count {
            let k = first.saturating_add(step) % count;
            let Some(claimed) = self.claimed.get(k).copied() else {
                break;
            };
            if !is_near(reach, most, claimed.place.at) {
                break;
            }
            if but != Some(claimed.number) && touches(reach, most, claimed.place) {
                self.give_up(k)?;
            }
        }
        Ok(before < self.gone.len())
    }

    // Gives up the numbers that a store may change, but for one.
    fn store(&mut self, reach: &Reach, but: Option<usize>) -> Result<(), NoMemory> {
        let Some(arc) = reach.arc else {
            return self.give_up_all();
        };
        if self.give_up_touched(&arc, reach.most, but)? {
            self.take_away();
        }
        Ok(())
    }
}

// The number that a load at a node says something of.
fn used_at(growth: &Growth<'_>, k: usize) -> Option<usize> {
    let node = growth.program.node(k)?;
    let place = loaded_place(node.instr, &growth.facts.get(k)?.row)?;
    let number = growth.cells.find(place)?;
    let Instr::Load { op, .. } = node.instr else {
        return None;
    };
    match growth.cells.told(number) {
        Some(values) if loaded_values(op, values).is_some() => Some(number),
        _ => None,
    }
}

// By number, whether a load uses it.
fn used_numbers(alloc: Global, growth: &Growth<'_>) -> Result<Vec<bool>, NoMemory> {
    let mut used = vec![in alloc; false; growth.cells.count()]?;
    for k in 0..growth.live.len() {
        if growth.is_live(k) {
            if let Some(number) = used_at(growth, k) {
                if number < used.len() {
                    used[number] = true;
                }
            }
        }
    }
    Ok(used)
}

// The numbers that are used, up to as many as a table has. The rest is given up.
fn claimed_numbers(alloc: Global, growth: &Growth<'_>) -> Result<Kept, NoMemory> {
    let used = used_numbers(alloc, growth)?;
    let mut kept = Kept {
        claimed: Vec::new(alloc),
        gone: Vec::new(alloc),
    };
    for entry in growth.cells.entries() {
        if used.get(entry.number).copied().unwrap_or(false) {
            if kept.claimed.len() < MOST_CELLS {
                kept.claimed.push(Claimed {
                    place: entry.place,
                    number: entry.number,
                    gone: false,
                })?;
            } else {
                kept.gone.push(entry.place)?;
            }
        }
    }
    Ok(kept)
}

// The number that the instruction at a node stores, where it is one that it may be.
fn held_at(growth: &Growth<'_>, k: usize) -> Option<usize> {
    let node = growth.program.node(k)?;
    let (place, values) = stored_number(node.instr, &growth.facts.get(k)?.row)?;
    let number = growth.cells.find(place)?;
    if growth.cells.is_held(number, values) {
        Some(number)
    } else {
        None
    }
}

// Where the instruction at a node stores, if it does.
fn reach_at(growth: &Growth<'_>, k: usize) -> Option<Reach> {
    let node = growth.program.node(k)?;
    reach_of(node.instr, &growth.facts.get(k)?.row)
}

// The numbers that all stores keep, and those that they don't.
fn kept_numbers(alloc: Global, growth: &Growth<'_>) -> Result<Kept, NoMemory> {
    let mut kept = claimed_numbers(alloc, growth)?;
    for k in 0..growth.live.len() {
        if growth.is_live(k) {
            if let Some(reach) = reach_at(growth, k) {
                kept.store(&reach, held_at(growth, k))?;
            }
        }
    }
    Ok(kept)
}

/// The numbers that all stores keep, if these are all that loads use. The others are added to those of which nothing is to be said.
pub fn confirmed_cells(
    alloc: Global,
    growth: &Growth<'_>,
    gone: &mut Vec<Place>,
) -> Result<Option<Vec<Cell>>, NoMemory> {
    let kept = kept_numbers(alloc, growth)?;
    for place in &kept.gone {
        gone.push(*place)?;
    }
    if !kept.gone.is_empty() {
        return Ok(None);
    }
    let mut cells = Vec::new(alloc);
    for claimed in &kept.claimed {
        if let Some(values) = growth.cells.told(claimed.number) {
            cells.push(Cell {
                at: claimed.place.at,
                width: claimed.place.width,
                values,
            })?;
        }
    }
    Ok(Some(cells))
}
