//! What the turns of a loop add to a counter.

ghost use Rattle.std.specs.Prelude.{◌<◌, length};

use crate::adding::{Place, adds_of};
use crate::scope::Scope;
use scale_base::NoMemory;
use std::alloc::Global;

/// What the turns of a loop add to a counter: by node of its body what its instruction adds and what is added from the header up to it, and the least and the
/// most that a turn adds, all of them modulo 2^32.
#[derive(Drop)]
pub struct Turns {
    pub adds: Vec<u32>,
    pub offset: Vec<u32>,
    pub least: u32,
    pub most: u32,
}

// What is added to the opposites of numbers.
fn negate_all(added: &mut [u32]) {
    for number in added.iter_mut() {
        *number = number.wrapping_neg();
    }
}

impl Turns {
    /// Makes them what the turns add to the opposite of the counter.
    pub fn negate(&mut self) {
        negate_all(&mut self.adds);
        negate_all(&mut self.offset);
    }
}

// A walk through the body: what is added, the nodes that are reached, and those whose ways are still to be looked at.
#[derive(Drop)]
struct Walk {
    turns: Turns,
    turned: bool,
    reached: Vec<bool>,
    open: Vec<usize>,
}

impl Walk {
    fn new(alloc: Global, adds: Vec<u32>) -> Result<Walk, NoMemory> {
        let count = adds.len();
        let offset = vec![in alloc; 0; count]?;
        let reached = vec![in alloc; false; count]?;
        Ok(Walk {
            turns: Turns {
                adds,
                offset,
                least: u32::MAX,
                most: 0,
            },
            turned: false,
            reached,
            open: Vec::new(alloc),
        })
    }

    // Notes what a way to the header has added.
    fn turn(&mut self, added: u32) {
        self.turns.least = self.turns.least.min(added);
        self.turns.most = self.turns.most.max(added);
        self.turned = true;
    }

    // Notes what a way to another node of the body has added. Whether that agrees with what is known.
    fn reach(&mut self, k: usize, added: u32) -> Result<bool, NoMemory> {
        if k >= self.reached.len() || k >= self.turns.offset.len() {
            return Ok(false);
        }
        if self.reached[k] {
            return Ok(self.turns.offset[k] == added);
        }
        self.reached[k] = true;
        self.turns.offset[k] = added;
        self.open.push(k)?;
        Ok(true)
    }

    // What is added behind the instruction of a node.
    fn behind(&self, k: usize) -> u32 {
        let before = self.turns.offset.get(k).copied().unwrap_or(0);
        before.wrapping_add(self.turns.adds.get(k).copied().unwrap_or(0))
    }

    // Looks at the ways of a node. Whether what they add agrees.
    fn look_at(&mut self, scope: &Scope<'_>, k: usize) -> Result<bool, NoMemory> {
        if !scope.is_live(k) {
            return Ok(true);
        }
        let behind = self.behind(k);
        for to in scope.targets_of(k) {
            if let Some(to) = to {
                if to == scope.header {
                    self.turn(behind);
                } else if scope.is_in_body(to) && !self.reach(to, behind)? {
                    return Ok(false);
                }
            }
        }
        Ok(true)
    }
}

// What the turns of a loop add, by what its nodes do.
fn walk_turns(alloc: Global, scope: &Scope<'_>, adds: Vec<u32>) -> Result<Option<Turns>, NoMemory> {
    let count = adds.len();
    let mut walk = Walk::new(alloc, adds)?;
    let mut agrees = walk.reach(scope.header, 0)?;
    for _ in 0..count {
        let (Some(k), true) = (walk.open.pop(), agrees) else {
            break;
        };
        agrees = walk.look_at(scope, k)?;
    }
    Ok(if agrees && walk.turned {
        Some(walk.turns)
    } else {
        None
    })
}

/// What the turns of a loop add to what is counted in. None where an instruction of the body does something else to it, or two ways to a node add other
/// numbers.
pub fn turns_of(alloc: Global, scope: &Scope<'_>, place: Place) -> Result<Option<Turns>, NoMemory> {
    match adds_of(alloc, scope, place)? {
        Some(adds) => walk_turns(alloc, scope, adds),
        None => Ok(None),
    }
}
