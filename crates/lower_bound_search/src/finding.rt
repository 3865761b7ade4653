//! How often a loop turns at least, as a proposal.

ghost use Rattle.stack_tables.specs.Tables.{IsStackClaim};

use crate::adding::adds_of;
use crate::candidates::candidates_of;
use crate::ends::{Ends, ends_of};
use crate::limits::{first_of, last_of};
use crate::noted::noted;
use crate::turns::{Added, Behind, Turns, turns_of};
use loop_file::LoopNote;
use lower_bounds::{Counter, LowerTable, is_lower_shown};
use scale_base::NoMemory;
use stack_tables::StackClaim;
use std::alloc::Global;

/// A noted loop: the node of its header, something that it may count in, and by node whether it is code of the loop, and whether it may run while
/// a call from there is open.
#[derive(Clone, Copy)]
pub struct CountedLoop<'a> {
    pub note: &'a LoopNote,
    pub header: usize,
    pub counter: Counter,
    pub body: &'a [bool],
    pub quiet: &'a [bool],
}

/// How often a loop turns at least, and a table that may show it.
#[derive(Drop)]
pub struct LowerFound {
    pub at_least: u32,
    pub table: LowerTable,
}

/// So many times the nodes are looked at for one loop, but once at least.
const MOST_NODES: usize = 65_536;

// How many counters are tried.
fn most_tried(nodes: usize) -> usize {
    (MOST_NODES / nodes.max(1)).max(1)
}

// How often it turns at least where it starts at `first` at most, each turn adds `most` at most, and it is left only where it is so much more
// than what the last turn has added. No more often than its bound says.
fn turns_at_least(first: u32, most: u32, last: u64, bound: u32) -> u32 {
    let Some(rest) = last.checked_sub(u64::from(first).saturating_add(1)) else {
        return 0;
    };
    if most == 0 {
        return bound;
    }
    let turns = (rest / u64::from(most)).saturating_add(1);
    if turns < u64::from(bound) {
        turns as u32
    } else {
        bound
    }
}

// What the nodes of a loop add, and what its turns add by that.
#[derive(Drop)]
struct AddedTurns {
    adds: Vec<u32>,
    turns: Turns,
}

impl CountedLoop<'_> {
    // What is found with these turns.
    fn found_with(
        &self,
        alloc: Global,
        claim: &StackClaim<'_>,
        ends: &Ends,
        added: AddedTurns,
    ) -> Result<Option<LowerFound>, NoMemory>
        requires { IsStackClaim claim.now }
    {
        let AddedTurns { adds, turns } = added;
        let behind = Behind {
            added: &turns.added,
            adds: &adds,
        };
        let (Some(first), Some(last)) = (
            first_of(claim, ends, self.counter),
            last_of(claim, ends, self.counter, behind),
        ) else {
            return Ok(None);
        };
        let at_least = turns_at_least(first, turns.most, last, self.note.bound);
        Ok(Some(LowerFound {
            at_least,
            table: LowerTable {
                counter: self.counter,
                first,
                most: turns.most,
                body: Vec::from_slice(alloc, self.body)?,
                adds,
                added: turns.added,
                quiet: Vec::from_slice(alloc, self.quiet)?,
            },
        }))
    }

    // What is found with its counter.
    fn found(
        &self,
        alloc: Global,
        claim: &StackClaim<'_>,
        ends: &Ends,
    ) -> Result<Option<LowerFound>, NoMemory>
        requires { IsStackClaim claim.now }
    {
        let adds = adds_of(alloc, claim, self.counter, self.body)?;
        let added = Added {
            graph: claim.graph,
            header: self.header,
            body: self.body,
            adds: &adds,
        };
        match turns_of(alloc, &added)? {
            Some(turns) => self.found_with(alloc, claim, ends, AddedTurns { adds, turns }),
            None => Ok(None),
        }
    }
}

// How often a loop turns at least by what is found.
fn least_of(found: &Option<LowerFound>) -> u32 {
    match found {
        Some(found) => found.at_least,
        None => 0,
    }
}

// Whether the code confirms what is found of a noted loop.
fn is_confirmed(
    alloc: Global,
    claim: &StackClaim<'_>,
    note: &LoopNote,
    found: &LowerFound,
) -> Result<bool, NoMemory>
    requires { IsStackClaim claim.now }
{
    let wanted = noted(alloc, note, found.at_least)?;
    Ok(is_lower_shown(claim, &wanted, &found.table))
}

// The best that is found so far, or another one, if it has more turns and the code confirms it.
fn better(
    alloc: Global,
    claim: &StackClaim<'_>,
    note: &LoopNote,
    best: Option<LowerFound>,
    other: Option<LowerFound>,
) -> Result<Option<LowerFound>, NoMemory>
    requires { IsStackClaim claim.now }
{
    let Some(found) = other else {
        return Ok(best);
    };
    if found.at_least > least_of(&best) && is_confirmed(alloc, claim, note, &found)? {
        Ok(Some(found))
    } else {
        Ok(best)
    }
}

// The best that the code confirms of what is found with the first so many candidates.
fn best_of(
    alloc: Global,
    claim: &StackClaim<'_>,
    looped: CountedLoop<'_>,
    ends: &Ends,
    candidates: &[Counter],
) -> Result<Option<LowerFound>, NoMemory>
    requires { IsStackClaim claim.now }
{
    let mut best = None;
    for counter in candidates {
        let counter = *counter;
        let other = CountedLoop { counter, ..looped }.found(alloc, claim, ends)?;
        best = better(alloc, claim, looped.note, best, other)?;
        if least_of(&best) >= looped.note.bound {
            break;
        }
    }
    Ok(best)
}

/// How often a loop turns at least, as far as it is found. Whether the code confirms it is asked only where there are several to choose from: whoever
/// notes it asks anyway.
pub fn find_lower(
    alloc: Global,
    claim: &StackClaim<'_>,
    looped: CountedLoop<'_>,
) -> Result<Option<LowerFound>, NoMemory>
    requires { IsStackClaim claim.now }
{
    let ends = ends_of(alloc, claim, looped.note)?;
    let candidates = candidates_of(alloc, claim, looped.header, &ends, looped.counter)?;
    let tried = candidates.first(most_tried(claim.graph.node_count()));
    if tried.len() == 1 {
        let counter = tried[0];
        return CountedLoop { counter, ..looped }.found(alloc, claim, &ends);
    }
    best_of(alloc, claim, looped, &ends, tried)
}
