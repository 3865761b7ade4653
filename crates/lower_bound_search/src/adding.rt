//! What the instructions of a loop add to what is counted in.

ghost use Rattle.std.specs.Prelude.{◌<◌, length};
ghost use Rattle.stack_tables.specs.Tables.{IsStackClaim};

use lower_bounds::{CountedWord, Counter};
use scale_base::{Instr, NoMemory};
use stack_tables::{Name, StackClaim, instruction, name_of, stored_from};
use std::alloc::Global;
use wrapped_intervals::effect;

// What a register that is stored to a word is more than it.
fn more_than(claim: &StackClaim<'_>, k: usize, r: u8, number: u32) -> u32
    requires claim { IsStackClaim claim.now }
    requires node { k < length claim.now.graph.now.code.nodes }
{
    match name_of(claim, k, r) {
        Some(Name::OfWord(named, more)) if named == number => more,
        _ => 0,
    }
}

// What the instruction of node k adds to a word.
fn added_to_word(claim: &StackClaim<'_>, counted: CountedWord, i: Instr, k: usize) -> u32
    requires claim { IsStackClaim claim.now }
    requires node { k < length claim.now.graph.now.code.nodes }
{
    match stored_from(claim, i, k) {
        Some((number, r)) if number == counted.number => {
            counted.factor.wrapping_mul(more_than(claim, k, r, number))
        }
        _ => 0,
    }
}

// What the instruction of node k adds, modulo 2^32, as far as it is known.
fn added(claim: &StackClaim<'_>, counter: Counter, k: usize) -> u32
    requires claim { IsStackClaim claim.now }
    requires node { k < length claim.now.graph.now.code.nodes }
{
    let Some(i) = instruction(claim, k) else {
        return 0;
    };
    match counter {
        Counter::Registers(m) => effect(m, i).unwrap_or(0),
        Counter::Word(counted) => added_to_word(claim, counted, i, k),
    }
}

/// The same of each node of a loop, by node.
pub fn adds_of(
    alloc: Global,
    claim: &StackClaim<'_>,
    counter: Counter,
    body: &[bool],
) -> Result<Vec<u32>, NoMemory>
    requires { IsStackClaim claim.now }
{
    let mut adds = vec![in alloc; 0; claim.graph.node_count()]?;
    for k in 0..claim.graph.node_count() {
        if body.get(k).copied().unwrap_or(false) && k < adds.len() {
            adds[k] = added(claim, counter, k);
        }
    }
    Ok(adds)
}
