//! What is left of a program, at its nodes and behind its edges.

ghost use Rattle.scale_base.specs.Answer.{AnswersBy};
ghost use Rattle.worst_cycles.specs.Worst.{by_edge};
ghost use Rattle.worst_cycles.specs.Lefts.{ArePartsFound};
ghost use Rattle.worst_cycles.specs.Planned.{IsVisitedGraph};

use crate::around::turns_around;
use crate::contexts::contexts_of;
use crate::lefts::lefts_of;
use crate::planned::VisitedGraph;
use crate::slacks::{rests_behind, slacks_of};
use scale_base::Stop;
use std::alloc::Global;

/// By node what is left there, by function its context, and by edge its slack and the rest behind it.
#[derive(Drop)]
pub struct LeftParts {
    pub left: Vec<u64>,
    pub context: Vec<u64>,
    pub slacks: Vec<u64>,
    pub rests: Vec<u64>,
}

/// What is left of a program whose worst cycles are in range, once all its nodes are visited.
pub fn parts_of(alloc: Global, visited: &VisitedGraph<'_>) -> Result<LeftParts, Stop>
    requires visited { IsVisitedGraph visited.now }
    ensures { AnswersBy (λ parts. parts) result (ArePartsFound visited.now.planned.graph.now visited.now.planned.tree.now
        (by_edge visited.now.planned.weights.now)) }
{
    let left = lefts_of(alloc, visited)?;
    let around = turns_around(alloc, visited)?;
    let context = contexts_of(alloc, visited, &left, &around)?;
    let slacks = slacks_of(alloc, visited, &left)?;
    let rests = rests_behind(alloc, visited, &left, &around, &context)?;
    Ok(LeftParts {
        left,
        context,
        slacks,
        rests,
    })
}
