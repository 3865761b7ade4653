//! Loops by the lengths of their bodies.

ghost use Rattle.std.specs.Prelude.{length, IfOk};
ghost use Rattle.graph_algorithms.specs.Nesting.{bodies_of};
ghost use Rattle.graph_algorithms.specs.NestingPass.{AreRanks, AreFalling};

use scale_base::NoMemory;
use std::alloc::Global;

/// A loop, and how many nodes its body has.
#[derive(Clone, Copy, Drop)]
pub struct Rank {
    pub size: usize,
    pub number: usize,
}

/// The loops by number.
fn ranks_of(alloc: Global, bodies: &[Vec<usize>]) -> Result<Vec<Rank>, NoMemory>
    ensures { IfOk result (λ ranks. AreRanks (bodies_of bodies.now) ranks.items (length bodies.now)) }
{
    let mut ranks = Vec::new(alloc);
    for (number, body) in bodies.iter().enumerate() {
        ranks.push(Rank {
            size: body.len(),
            number,
        })?;
    }
    Ok(ranks)
}

/// The loops, the longest body first.
pub fn falling_ranks(alloc: Global, bodies: &[Vec<usize>]) -> Result<Vec<Rank>, NoMemory>
    ensures { IfOk result (λ ranks. AreFalling (bodies_of bodies.now) ranks.items) }
{
    let mut ranks = ranks_of(alloc, bodies)?;
    ranks.sort_by(|a, b| b.size.cmp(&a.size))?;
    Ok(ranks)
}
