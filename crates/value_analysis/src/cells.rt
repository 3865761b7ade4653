//! Numbers at fixed addresses of memory, which instructions load and store: what they may be, wherever the run is.

ghost use Rattle.std.specs.Prelude.{◌<◌};

use crate::apart::raised;
use crate::arcs::{WORDS, holds, joined, kept, only};
use crate::joining::widened_by;
use crate::stores::arc_of;
use crate::tables::Row;
use crate::thresholds::Threshold;
use scale_base::{Instr, LoadOp, NoMemory, StoreOp};
use std::alloc::Global;
use wrapped_intervals::{Arc, exactly};

/// How many numbers are looked at.
const MOST_NUMBERS: usize = 4096;

/// A register number that no instruction has.
const NO_REGISTER: u8 = 255;

/// The address of a number, and of how many bytes it is.
#[derive(Clone, Copy, PartialEq, Eq, PartialOrd, Ord, Drop)]
pub struct Place {
    pub at: u32,
    pub width: u8,
}

/// What is known of a number: what it is when the run starts, what it may be, if anything is said of it, how often that has grown, and the last of its loads.
#[derive(Clone, Copy)]
struct Number {
    place: Place,
    first: Option<Arc>,
    values: Option<Arc>,
    count: u8,
    last: Option<usize>,
}

/// What a number was, what it is to be at least, and how often it has grown.
#[derive(Clone, Copy)]
pub struct Grown {
    old: Arc,
    both: Arc,
    count: u8,
}

impl Grown {
    /// What it grows to by the thresholds of a function.
    pub fn widened_in(&self, thresholds: &[Threshold]) -> Option<Arc> {
        widened_by(self.old, self.both, self.count, NO_REGISTER, thresholds)
    }
}

/// A place, and the number there.
#[derive(Clone, Copy, PartialEq, Eq, PartialOrd, Ord, Drop)]
pub struct Entry {
    pub place: Place,
    pub number: usize,
}

/// A load at a node, and the one before it of the same number.
#[derive(Clone, Copy)]
struct LoadAt {
    node: usize,
    before: Option<usize>,
}

/// The numbers in the order in which they are found, and by place; their loads, and by node the number that was last noted of it.
#[derive(Drop)]
pub struct Cells {
    numbers: Vec<Number>,
    places: Vec<Entry>,
    loads: Vec<LoadAt>,
    noted: Vec<Option<usize>>,
    open: bool,
}

fn load_width(op: LoadOp) -> u8 {
    match op {
        LoadOp::Lb | LoadOp::Lbu => 1,
        LoadOp::Lh | LoadOp::Lhu => 2,
        LoadOp::Lw => 4,
    }
}

fn store_width(op: StoreOp) -> u8 {
    match op {
        StoreOp::Sb => 1,
        StoreOp::Sh => 2,
        StoreOp::Sw => 4,
    }
}

// The one address at an offset from a register.
fn exact_address(row: &Row, r: u8, offset: i32) -> Option<u32> {
    only(raised(arc_of(row, r), offset.cast_unsigned()))
}

/// The number that an instruction loads, and to which register, where its address is known.
pub fn loaded_place(i: Instr, row: &Row) -> Option<Place> {
    match i {
        Instr::Load {
            op,
            rd: _,
            rs1,
            offset,
        } => Some(Place {
            at: exact_address(row, rs1, offset)?,
            width: load_width(op),
        }),
        _ => None,
    }
}

/// The number that an instruction stores, where its address is known, and what it stores there.
pub fn stored_number(i: Instr, row: &Row) -> Option<(Place, Arc)> {
    match i {
        Instr::Store {
            op,
            rs1,
            rs2,
            offset,
        } => {
            let width = store_width(op);
            let at = exact_address(row, rs1, offset)?;
            Some((Place { at, width }, trimmed(arc_of(row, rs2), width)))
        }
        _ => None,
    }
}

// How many numbers so many bytes may have, but for one.
fn last_of(width: u8) -> u64 {
    match width {
        1 => 255,
        2 => 65_535,
        _ => WORDS - 1,
    }
}

// All numbers of so many bytes.
fn all_of(width: u8) -> Arc {
    Arc::of(0, last_of(width))
}

// What is left of a number in so many bytes.
fn trimmed(arc: Option<Arc>, width: u8) -> Arc {
    match kept(arc) {
        Some(i) if width == 4 || i.low().saturating_add(i.more()) <= last_of(width) => i,
        _ => all_of(width),
    }
}

// Whether a number may be any of so many bytes.
fn is_any(arc: Arc, width: u8) -> bool {
    arc.more() >= last_of(width) && arc.stride() <= 1
}

/// What a load gives of a number that may be these: where its highest bit may be set, a load that spreads it says nothing.
pub fn loaded_values(op: LoadOp, values: Arc) -> Option<Arc> {
    let end = values.low().saturating_add(values.more());
    match op {
        LoadOp::Lb if end >= 128 => None,
        LoadOp::Lh if end >= 32_768 => None,
        _ => Some(values),
    }
}

impl Number {
    // Whether anything is said of it.
    fn is_told(&self) -> bool {
        match self.values {
            Some(values) => !is_any(values, self.place.width),
            None => false,
        }
    }
}

impl Cells {
    /// Nothing is found yet, and where there are to be none nothing will be. Nothing is said of numbers at some places.
    pub fn new(alloc: Global, nodes: usize, gone: &[Place], open: bool) -> Result<Cells, NoMemory> {
        let mut cells = Cells {
            numbers: Vec::new(alloc),
            places: Vec::new(alloc),
            loads: Vec::new(alloc),
            noted: vec![in alloc; None; nodes]?,
            open,
        };
        for place in gone {
            cells.add(*place, None)?;
        }
        Ok(cells)
    }

    // Where a place is among those that are known, or would be.
    fn rank(&self, place: Place) -> usize {
        match self.places.binary_search(&Entry { place, number: 0 }) {
            Ok(rank) => rank,
            Err(rank) => rank,
        }
    }

    /// The number of a place, where it is looked at.
    pub fn find(&self, place: Place) -> Option<usize> {
        match self.places.get(self.rank(place)) {
            Some(entry) if entry.place == place => Some(entry.number),
            _ => None,
        }
    }

    /// Whether one more is looked at.
    pub fn is_open(&self) -> bool {
        self.open && self.numbers.len() < MOST_NUMBERS
    }

    // Adds the number of a place.
    fn add(&mut self, place: Place, first: Option<Arc>) -> Result<(), NoMemory> {
        let rank = self.rank(place);
        let number = self.numbers.len();
        if rank <= self.places.len() {
            let values = first;
            self.places.insert(rank, Entry { place, number })?;
            self.numbers.push(Number {
                place,
                first,
                values,
                count: 0,
                last: None,
            })?;
        }
        Ok(())
    }

    /// The number of a place, which is looked at from here on if there is room, and is this one when the run starts.
    pub fn find_or_add(&mut self, place: Place, first: u64) -> Result<Option<usize>, NoMemory> {
        if self.is_open() && self.find(place).is_none() {
            self.add(place, exactly(first))?;
        }
        Ok(self.find(place))
    }

    /// What the number of a place may be, where anything is known of it.
    pub fn values_at(&self, place: Place) -> Option<Arc> {
        self.numbers.get(self.find(place)?)?.values
    }

    /// Notes a load of a number at a node. Whether it is new.
    pub fn note_load(&mut self, node: usize, number: usize) -> Result<(), NoMemory> {
        if node >= self.noted.len() || number >= self.numbers.len() {
            return Ok(());
        }
        if self.noted[node] != Some(number) {
            self.noted[node] = Some(number);
            let before = self.numbers[number].last;
            self.numbers[number].last = Some(self.loads.len());
            self.loads.push(LoadAt { node, before })?;
        }
        Ok(())
    }

    /// How many loads are noted.
    pub fn load_count(&self) -> usize {
        self.loads.len()
    }

    /// The last load of a number.
    pub fn last_load(&self, number: usize) -> Option<usize> {
        self.numbers.get(number)?.last
    }

    /// The node of a load.
    pub fn load_node(&self, load: usize) -> Option<usize> {
        Some(self.loads.get(load)?.node)
    }

    /// The load before a load, of the same number.
    pub fn load_before(&self, load: usize) -> Option<usize> {
        self.loads.get(load)?.before
    }

    /// Whether a number may be all that is stored there.
    pub fn is_held(&self, number: usize, stored: Arc) -> bool {
        match self.numbers.get(number) {
            Some(known) => known.values.is_none() || holds(known.values, Some(stored)),
            None => true,
        }
    }

    /// A number with what is stored there, and how often it has grown, once more from here on.
    pub fn growing(&mut self, number: usize, stored: Arc) -> Option<Grown> {
        let known = self.numbers.get_mut(number)?;
        let old = known.values?;
        let both = joined(Some(old), Some(stored))?;
        let count = known.count;
        known.count = count.saturating_add(1);
        Some(Grown { old, both, count })
    }

    /// Lets a number be what it has grown to.
    pub fn put(&mut self, number: usize, arc: Option<Arc>) {
        if let Some(known) = self.numbers.get_mut(number) {
            if known.values.is_some() {
                known.values = Some(trimmed(arc, known.place.width));
            }
        }
    }

    /// What a number may be, where that says anything.
    pub fn told(&self, number: usize) -> Option<Arc> {
        let known = self.numbers.get(number)?;
        if known.is_told() { known.values } else { None }
    }

    /// How many numbers are looked at.
    pub fn count(&self) -> usize {
        self.numbers.len()
    }

    /// The numbers by place.
    pub fn entries(&self) -> &[Entry] {
        &self.places
    }

    /// What each number is when the run starts.
    pub fn firsts(&self, alloc: Global) -> Result<Vec<Option<Arc>>, NoMemory> {
        let mut firsts = Vec::new(alloc);
        for known in &self.numbers {
            firsts.push(known.first)?;
        }
        Ok(firsts)
    }

    /// Lets each number be what is stored there at most.
    pub fn narrow(&mut self, sums: &[Option<Arc>]) {
        for (known, sum) in self.numbers.iter_mut().zip(sums) {
            if known.values.is_some() && sum.is_some() && holds(known.values, *sum) {
                known.values = *sum;
            }
        }
    }
}
