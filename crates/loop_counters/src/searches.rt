//! Walks over bytes that no store changes, up to one where a load gives 0: where their first turn may access memory, and the runs of addresses from
//! there on.

use crate::grounds::Ground;
use crate::scope::Scope;
use crate::stores::{is_missed, stored_word};
use crate::traced::{Term, Value, joined, scaled, sum};
use crate::walking::{FIRST_WORD, Words};
use scale_base::{LoadOp, NoMemory};
use stack_tables::{FixedPart, fixed_load, load_width};
use std::alloc::Global;
use walk_checks::{MOST_STARTS, Sought};
use wrapped_intervals::Arc;

/// How many runs a ground has at most.
const MOST_RUNS: usize = 4_096;

/// How many addresses are looked at for all runs of a walk together.
const MOST_ADDRESSES: u32 = 262_144;

/// What is looked for by loads of a kind: numbers that aren't 0.
pub fn not_zero(op: LoadOp) -> Sought {
    Sought {
        op,
        wanted: Arc::of(1, 0xFFFF_FFFE),
    }
}

// The interval of a word of the stack behind a node.
fn word_behind(scope: &Scope<'_>, k: usize, number: u32) -> Option<Value> {
    if is_missed(scope, k, number) {
        return Value::of_arc(scope.word_arc(k, number));
    }
    let stored = stored_word(scope, k)?;
    if stored.number == number {
        Value::of_arc(scope.arc(k, stored.register))
    } else {
        None
    }
}

// That of what is in a place behind a node, on the way to the header.
fn place_behind(scope: &Scope<'_>, words: &Words, k: usize, place: u8) -> Option<Value> {
    if place < FIRST_WORD {
        return Value::of_arc(scope.arc_on(k, scope.header, place));
    }
    let number = words.numbers.get(usize::from(place - FIRST_WORD))?;
    word_behind(scope, k, *number)
}

fn term_behind(scope: &Scope<'_>, words: &Words, k: usize, term: Term) -> Option<Value> {
    scaled(place_behind(scope, words, k, term.place)?, term.times)
}

// That of the address of an access.
fn aim_behind(scope: &Scope<'_>, words: &Words, k: usize, aim: &Value) -> Option<Value> {
    let first = term_behind(scope, words, k, aim.first)?;
    if aim.second.times == 0 {
        return Some(first.moved(aim.low));
    }
    let second = term_behind(scope, words, k, aim.second)?;
    Some(sum(first, second)?.moved(aim.low))
}

// Whether the loop is entered from a node.
fn is_entered_from(scope: &Scope<'_>, k: usize) -> bool {
    if !scope.is_live(k) || scope.is_in_body(k) {
        return false;
    }
    for to in scope.targets_of(k) {
        if to == Some(scope.header) && !scope.is_never(k, scope.header) {
            return true;
        }
    }
    false
}

/// The addresses that the first turn may access, where they are known: the loop is entered by steps that are no calls.
pub fn start_of(scope: &Scope<'_>, words: &Words, aim: &Value) -> Option<Arc> {
    if scope.is_entry(scope.header) {
        return None;
    }
    let mut all: Option<Value> = None;
    for k in 0..scope.body.len() {
        if is_entered_from(scope, k) {
            if scope.callee_of(k).is_some() {
                return None;
            }
            let here = aim_behind(scope, words, k, aim)?;
            all = match all {
                Some(known) => Some(joined(Some(known), Some(here))?),
                None => Some(here),
            };
        }
    }
    let all = all?;
    Some(Arc::of(u64::from(all.low), u64::from(all.more)))
}

// What is looked for in which bytes, by steps of so many, and how many addresses may be looked at yet.
#[derive(Clone, Copy)]
struct Search<'a> {
    parts: &'a [FixedPart],
    op: LoadOp,
    step: u32,
    left: u32,
}

impl<'a> Search<'a> {
    // Whether a walk ends at an address, where that is known.
    fn ends_at(&self, at: u32) -> Option<bool> {
        if at % load_width(self.op) != 0 {
            return Some(true);
        }
        Some(fixed_load(self.parts, self.op, at)? == 0)
    }

    // The last address of the walk from one on at which it doesn't end.
    fn last_from(&mut self, at: u32) -> Option<u32> {
        let mut last = at;
        for _ in 0..self.left {
            self.left = self.left.saturating_sub(1);
            let next = last.checked_add(self.step)?;
            if self.ends_at(next)? {
                return Some(last);
            }
            last = next;
        }
        None
    }

    // The last address of the walk from one on, if it doesn't end there at once.
    fn run_from(&mut self, at: u32) -> Option<Option<u32>> {
        if self.ends_at(at)? {
            Some(None)
        } else {
            Some(Some(self.last_from(at)?))
        }
    }
}

// Adds a run of addresses.
fn add_run(ground: &mut Ground, low: u32, last: u32, step: u32) -> Result<(), NoMemory> {
    let more = last.saturating_sub(low);
    ground.longest = ground.longest.max(more);
    ground.intervals.push(Arc::strided(u64::from(low), u64::from(more), u64::from(step)))?;
    Ok(())
}

// The first and the last of the addresses from which walks begin.
fn ends_of(first: &Arc) -> Option<(u32, u32)> {
    if first.more() >= MOST_STARTS {
        return None;
    }
    let low = u32::try_from(first.low()).ok()?;
    let more = u32::try_from(first.more()).ok()?;
    Some((low, low.checked_add(more)?))
}

/// The ground of a walk that moves up by steps of so many bytes and begins at one of some addresses: runs of addresses up to where loads give 0.
pub fn runs_of(
    alloc: Global,
    parts: &[FixedPart],
    op: LoadOp,
    first: &Arc,
    step: u32,
) -> Result<Option<Ground>, NoMemory> {
    let Some((low, last)) = ends_of(first) else {
        return Ok(None);
    };
    if step == 0 || (step > 1 && low != last) {
        return Ok(None);
    }
    let mut search = Search {
        parts,
        op,
        step,
        left: MOST_ADDRESSES,
    };
    let mut ground = Ground {
        place: None,
        intervals: Vec::new(alloc),
        longest: 0,
    };
    let mut next = low;
    for at in low..=last {
        if at >= next {
            match search.run_from(at) {
                Some(Some(end)) => {
                    add_run(&mut ground, at, end, step)?;
                    next = end.saturating_add(1);
                }
                Some(None) => {}
                None => return Ok(None),
            }
        }
    }
    if ground.intervals.len() <= MOST_RUNS {
        Ok(Some(ground))
    } else {
        Ok(None)
    }
}
