//! Which words are copied.

use crate::code::Code;
use crate::functions::Functions;
use scale_base::{Instr, NoMemory};
use std::alloc::Global;

/// As many words in front of an exit are looked at.
const MOST_WORDS: usize = 32;

/// The nodes that are reached, and of these such whose edges aren't followed yet.
#[derive(Drop)]
struct Reach {
    reached: Vec<bool>,
    waiting: Vec<usize>,
}

impl Reach {
    fn reach(&mut self, k: usize) -> Result<(), NoMemory> {
        if k < self.reached.len() && !self.reached[k] {
            self.reached[k] = true;
            self.waiting.push(k)?;
        }
        Ok(())
    }
}

// Takes the words away that end in an exit, back to where they are entered: there it has to be known which service is asked.
fn leave_exit(code: &Code<'_>, reached: &mut [bool], exit: usize) {
    let mut next = Some(exit);
    for _ in 0..MOST_WORDS {
        let Some(k) = next else {
            break;
        };
        if k < reached.len() {
            reached[k] = false;
        }
        next = code.before(k).filter(|before| !matches!(code.instr(*before), Instr::Branch { .. }));
    }
}

// Whether a node is in a loop, but not its header; where there is no loop any node is.
fn is_within(code: &Code<'_>, round: Option<usize>, k: usize) -> bool {
    match round {
        Some(l) => code.is_in_body(l, k) && code.header(l) != k,
        None => true,
    }
}

/// What may run from a node on until the loop round it turns, or, where there is none, until its function ends: of it the nodes that can be copied and are
/// reached over such alone, ascending.
pub fn rest_of(
    alloc: Global,
    code: &Code<'_>,
    functions: &Functions,
    from: usize,
    round: Option<usize>,
) -> Result<Vec<usize>, NoMemory> {
    let mut reach = Reach {
        reached: vec![in alloc; false; code.node_count()]?,
        waiting: Vec::new(alloc),
    };
    if functions.size(code, from).is_some() {
        reach.reach(from)?;
    }
    for _ in 0..code.node_count() {
        let Some(k) = reach.waiting.pop() else {
            break;
        };
        for next in code.next_nodes(k) {
            if let Some(next) = next {
                if is_within(code, round, next) && functions.size(code, next).is_some() {
                    reach.reach(next)?;
                }
            }
        }
    }
    for exit in code.exits() {
        leave_exit(code, &mut reach.reached, *exit);
    }
    let mut nodes = Vec::new(alloc);
    for (k, reached) in reach.reached.iter().enumerate() {
        if *reached {
            nodes.push(k)?;
        }
    }
    Ok(nodes)
}
