//! The nodes and the functions of reached code.

ghost use Rattle.std.specs.Prelude.{◌≡◌, ◌≢◌, ◌↔◌, ◌<◌, ℕ, length, map, slice_index, IfOk, Some, None};
ghost use Rattle.cost_theory.specs.Reached.{callee_of};
ghost use Rattle.code_graph.specs.Finding.{reach_of, IsReach};
ghost use Rattle.code_graph.specs.Assembling.{AreReachedNodes, owner_number, flag_of, entry_addresses};

use crate::reach::{Mark, TextReach};
use cost_theory::Flow;
use scale_base::NoMemory;
use std::alloc::Global;

/// The nodes of reached code.
#[derive(Drop)]
pub struct Nodes {
    /// Ascending.
    pub addresses: Vec<u32>,
    /// What the word at each node says of the way on.
    pub kinds: Vec<Flow>,
    /// The number of the function of each node.
    pub owners: Vec<usize>,
}

/// The number of the function in which alone a word is reached.
fn owner_of(reach: &TextReach, k: usize) -> Option<usize>
    requires reach { IsReach reach.now }
    requires within { k < length reach.now.words.addresses }
    ensures { result ≡ owner_number (reach_of reach.now) k }
{
    match reach.marks[k] {
        Mark::Owner(first) => reach.numbers[first],
        _ => None,
    }
}

/// The words that are reached in one function.
pub fn nodes_of(alloc: Global, reach: &TextReach) -> Result<Nodes, NoMemory>
    requires { IsReach reach.now }
    ensures { IfOk result (λ nodes. AreReachedNodes (reach_of reach.now) (length reach.now.words.addresses) nodes.addresses.items
        nodes.kinds.items nodes.owners.items) }
{
    let mut addresses = Vec::new(alloc);
    let mut kinds = Vec::new(alloc);
    let mut owners = Vec::new(alloc);
    for k in 0..reach.words.count() {
        if let Some(owner) = owner_of(reach, k) {
            addresses.push(reach.words.address(k))?;
            kinds.push(reach.words.kind(k))?;
            owners.push(owner)?;
        }
    }
    Ok(Nodes {
        addresses,
        kinds,
        owners,
    })
}

/// The entries of the functions.
pub fn entries_of(alloc: Global, reach: &TextReach) -> Result<Vec<u32>, NoMemory>
    requires { IsReach reach.now }
    ensures { IfOk result (λ entries. entries.items ≡ entry_addresses (reach_of reach.now)) }
{
    let mut entries = Vec::new(alloc);
    for k in &reach.functions {
        entries.push(reach.words.address(*k))?;
    }
    Ok(entries)
}

/// Which functions return.
pub fn returning_of(alloc: Global, reach: &TextReach) -> Result<Vec<bool>, NoMemory>
    requires { IsReach reach.now }
    ensures { IfOk result (λ flags. flags.items ≡ map (flag_of reach.now.returning.items) reach.now.functions.items) }
{
    let mut flags = Vec::new(alloc);
    for k in &reach.functions {
        flags.push(reach.returning[*k])?;
    }
    Ok(flags)
}

/// The number of the function that a word calls.
fn callee(reach: &TextReach, word: Flow) -> Option<usize>
    requires { IsReach reach.now }
    ensures { result ≡ callee_of (entry_addresses (reach_of reach.now)) word }
{
    match word {
        Flow::Call(to) => match reach.words.find(to) {
            Some(first) => reach.numbers[first],
            None => None,
        },
        _ => None,
    }
}

/// The functions that words call.
pub fn callees_of(
    alloc: Global,
    reach: &TextReach,
    kinds: &[Flow],
) -> Result<Vec<Option<usize>>, NoMemory>
    requires { IsReach reach.now }
    ensures { IfOk result (λ callees. callees.items ≡ map (callee_of (entry_addresses (reach_of reach.now))) kinds.now) }
{
    let mut callees = Vec::new(alloc);
    for kind in kinds {
        callees.push(callee(reach, *kind))?;
    }
    Ok(callees)
}
