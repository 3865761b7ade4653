//! Places of a list that share a key, as a chain for each key: the last of them, and before each of them the one before.
//! A chain is found in linear time, without sorting, and walked from its last place to its first.

ghost use Rattle.std.specs.Prelude.{◌≡◌, ◌<◌, length, IfOk};
ghost use Rattle.graph_algorithms.specs.Keys.{option_at, AreKeys, AreChains};

use scale_base::NoMemory;
use std::alloc::Global;
use std::marker::Model;

/// The chains of the places of a list by their keys. Contracts see two lists: the last place of each key, and for each
/// place the one before it with the same key.
#[derive(Drop)]
pub struct Chains {
    last: Vec<Option<usize>>,
    before: Vec<Option<usize>>,
}

impl Model for Chains {
    ghost use Rattle.graph_algorithms.specs.Keys.{ChainView};

    ghost Value = { ChainView };

    ghost view = { λ c. record { last = c.last.items; before = c.before.items } };
}

impl Chains {
    /// The last place that has a key.
    pub fn last(&self, key: usize) -> Option<usize>
        requires { key < length self.now.last }
        ensures { result ≡ option_at self.now.last key }
    {
        self.last[key]
    }

    /// The place before a place with the same key. There is none before a place that has no key.
    pub fn before(&self, place: usize) -> Option<usize>
        requires { place < length self.now.before }
        ensures { result ≡ option_at self.now.before place }
    {
        self.before[place]
    }

    /// The last place that has each key, and for each place the one before it with the same key.
    pub fn into_parts(self) -> (Vec<Option<usize>>, Vec<Option<usize>>)
        ensures last { result.0.items ≡ self.last }
        ensures before { result.1.items ≡ self.before }
    {
        (self.last, self.before)
    }
}

/// The chains of the places of `keys`, of which each is below `count`. A place with None has no key, and is in no chain.
pub fn find_chains(alloc: Global, keys: &[Option<usize>], count: usize) -> Result<Chains, NoMemory>
    requires { AreKeys keys.now count }
    ensures { IfOk result (λ chains. AreChains keys.now count chains) }
{
    let mut last: Vec<Option<usize>> = vec![in alloc; None; count]?;
    let mut before: Vec<Option<usize>> = vec![in alloc; None; keys.len()]?;
    for (place, key) in keys.iter().enumerate() {
        if let Some(k) = *key {
            before[place] = last[k];
            last[k] = Some(place);
        }
    }
    Ok(Chains { last, before })
}
