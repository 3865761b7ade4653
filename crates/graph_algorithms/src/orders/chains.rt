//! The arcs that leave each number, as a chain.

ghost use Rattle.std.specs.Prelude.{◌≡◌, length, map, IfOk, Some};
ghost use Rattle.graph_algorithms.specs.Arcs.{AreNumbered};
ghost use Rattle.graph_algorithms.specs.DepthFirst.{AreLasts, AreArcChains};

use crate::Arc;
use crate::chains::find_chains;
use scale_base::NoMemory;
use std::alloc::{AllocError, Global};

/// Where each arc comes from, as a key.
fn keys_of(alloc: Global, arcs: &[Arc]) -> Result<Vec<Option<usize>>, AllocError>
    ensures { IfOk result (λ keys. keys.items ≡ map (λ arc. Some arc.from) arcs.now) }
{
    arcs.iter().map(|arc| Some(arc.from)).collect(alloc)
}

/// The last arc from each number, and for each arc the one before it from the same number.
pub fn chains_of(
    alloc: Global,
    count: usize,
    arcs: &[Arc],
) -> Result<(Vec<Option<usize>>, Vec<Option<usize>>), NoMemory>
    requires numbered { AreNumbered count arcs.now }
    ensures size { IfOk result (λ chains. length chains.0.items ≡ count) }
    ensures lasts { IfOk result (λ chains. AreLasts (length arcs.now) arcs.now chains.0.items) }
    ensures chain { IfOk result (λ chains. AreArcChains (length arcs.now) arcs.now chains.1.items) }
    ensures before { IfOk result (λ chains. length chains.1.items ≡ length arcs.now) }
{
    let keys = keys_of(alloc, arcs)?;
    let chains = find_chains(alloc, &keys, count)?;
    Ok(chains.into_parts())
}
