//! Counts, in one run after another, how often loops are entered, and the turns of each entry.

use scale_base::{Move, NoMemory, RETURN_LIMIT, Range, Stepped};
use speed_sim::Watches;
use std::alloc::Global;
use std::marker::Model;

/// So many slots there are: words of as many in a row have slots of their own.
const SLOTS: u32 = 65_536;

/// A loop: the address of its header, and where its body lies.
#[derive(Clone, Copy, Drop)]
pub struct LoopPlace<'a> {
    pub header: u32,
    pub ranges: &'a [Range],
}

impl LoopPlace<'_> {
    // Whether an address lies in the body.
    fn has(&self, at: u32) -> bool {
        at == self.header
            || self
                .ranges
                .iter()
                .any(|range| range.from <= at && at < range.to)
    }
}

/// How often a loop was entered, and the least and the most turns of an entry: how often it went back to the header.
#[derive(Clone, Copy)]
pub struct LoopTurns {
    pub entries: u64,
    pub least: u64,
    pub most: u64,
}

impl LoopTurns {
    // Of a loop that wasn't entered yet.
    fn none() -> LoopTurns {
        LoopTurns {
            entries: 0,
            least: u64::MAX,
            most: 0,
        }
    }

    // With one entry more.
    fn with(self, turns: u64) -> LoopTurns {
        LoopTurns {
            entries: self.entries.saturating_add(1),
            least: self.least.min(turns),
            most: self.most.max(turns),
        }
    }
}

/// Sees the steps of runs. All the memory that it needs is taken before the first one. Contracts see nothing of it.
#[derive(Drop)]
pub struct TurnCounter<'a> {
    // Ascending by their headers, which differ.
    loops: &'a [LoopPlace<'a>],
    // By slots of addresses: whether there is a header.
    slots: Vec<bool>,
    // The addresses behind the calls that are open, the last one last.
    returns: Vec<u32>,
    // By loop, the turns of the entry that the run is in or was in last.
    open: Vec<Option<u64>>,
    turns: Vec<LoopTurns>,
    at: u32,
    is_lost: bool,
}

impl<'a> Model for TurnCounter<'a> {
    ghost Value = { Unit {0} };

    ghost view = { λ _. tt };
}

fn slot_of(at: u32) -> usize {
    (at / 4 % SLOTS) as usize
}

// Which slots have a header.
fn slots_of(alloc: Global, loops: &[LoopPlace<'_>]) -> Result<Vec<bool>, NoMemory> {
    let mut slots = vec![in alloc; false; SLOTS as usize]?;
    for found in loops {
        if let Some(slot) = slots.get_mut(slot_of(found.header)) {
            *slot = true;
        }
    }
    Ok(slots)
}

impl<'a> TurnCounter<'a> {
    /// A counter before the first run, of loops that ascend by their headers.
    pub fn new(alloc: Global, loops: &'a [LoopPlace<'a>]) -> Result<TurnCounter<'a>, NoMemory> {
        Ok(TurnCounter {
            loops,
            slots: slots_of(alloc, loops)?,
            returns: Vec::with_capacity(alloc, RETURN_LIMIT)?,
            open: vec![in alloc; None; loops.len()]?,
            turns: vec![in alloc; LoopTurns::none(); loops.len()]?,
            at: 0,
            is_lost: false,
        })
    }

    /// Begins another run, at an address.
    pub fn begin(&mut self, entry: u32) {
        self.returns.clear();
        self.open.fill(None);
        self.at = entry;
        self.is_lost = false;
        self.arrive(entry, None);
    }

    /// Ends the run.
    pub fn end(&mut self) {
        for k in 0..self.loops.len() {
            self.close(k);
        }
    }

    /// The address of the instruction behind the last step.
    pub fn at(&self) -> u32 {
        self.at
    }

    /// Whether a return of the run didn't go back to its call, or too many calls were open. Nothing is counted from there on.
    pub fn is_lost(&self) -> bool {
        self.is_lost
    }

    /// What the runs came to, by loop.
    pub fn into_turns(self) -> Vec<LoopTurns> {
        self.turns
    }

    // The loop with a header.
    fn loop_at(&self, at: u32) -> Option<usize> {
        let place = self.loops.partition_point(|found| found.header < at);
        if self.loops.get(place)?.header == at {
            Some(place)
        } else {
            None
        }
    }

    // Takes the entry of a loop that the run is in or was in last as one that is over.
    fn close(&mut self, k: usize) {
        let Some(open) = self.open.get_mut(k) else {
            return;
        };
        let Some(turns) = *open else {
            return;
        };
        *open = None;
        if let Some(sum) = self.turns.get_mut(k) {
            *sum = sum.with(turns);
        }
    }

    // Puts the turns of an entry.
    fn set(&mut self, k: usize, turns: u64) {
        if let Some(open) = self.open.get_mut(k) {
            *open = Some(turns);
        }
    }

    // Counts a step to a header from a source, if it has one: another turn from within the loop, else another entry.
    fn count(&mut self, k: usize, source: Option<u32>) {
        let Some(found) = self.loops.get(k) else {
            return;
        };
        let is_within = match source {
            Some(at) => found.has(at),
            None => false,
        };
        if is_within {
            let turns = match self.open.get(k) {
                Some(Some(turns)) => turns.saturating_add(1),
                _ => 1,
            };
            self.set(k, turns);
        } else {
            self.close(k);
            self.set(k, 0);
        }
    }

    // Counts a step to an address whose slot has a header.
    #[inline(never)]
    fn arrive_at_slot(&mut self, at: u32, source: Option<u32>) {
        if let Some(k) = self.loop_at(at) {
            self.count(k, source);
        }
    }

    // Counts a step to an address, which may be a header.
    #[inline(always)]
    fn arrive(&mut self, at: u32, source: Option<u32>) {
        if matches!(self.slots.get(slot_of(at)), Some(true)) {
            self.arrive_at_slot(at, source);
        }
    }

    // Counts a call, which is no turn of any loop.
    fn call(&mut self, step: &Stepped) {
        if self.returns.len() < RETURN_LIMIT && self.returns.push(step.pc.wrapping_add(4)).is_ok() {
            self.arrive(step.next, None);
        } else {
            self.is_lost = true;
        }
    }

    // Counts a return, which goes on from its call.
    fn go_back(&mut self, step: &Stepped) {
        if self.returns.pop() == Some(step.next) {
            self.arrive(step.next, Some(step.next.wrapping_sub(4)));
        } else {
            self.is_lost = true;
        }
    }
}

impl<'a> Watches for TurnCounter<'a> {
    ghost watched = { λ _ _. tt };

    #[inline(always)]
    fn show(&mut self, step: &Stepped) {
        self.at = step.next;
        if self.is_lost {
            return;
        }
        match step.moved {
            Move::Local => self.arrive(step.next, Some(step.pc)),
            Move::Call => self.call(step),
            Move::Return => self.go_back(step),
        }
    }
}
