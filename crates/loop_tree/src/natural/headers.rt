//! The headers of loops.

ghost use Rattle.std.specs.Prelude.{◌≡◌, ◌+◌, ◌<◌, ℕ, length, slice_get, Some, IfOk};
ghost use Rattle.scale_base.specs.Answer.{AnswersBy};
ghost use Rattle.graph_algorithms.specs.Bodies.{IsLeastPair};
ghost use Rattle.loop_tree.specs.Passes.{IsSmallGraph, AreHeadersFound, HaveOneNumber};

use flow_graph::CodeGraph;
use graph_algorithms::lesser_pair;
use loop_file::LoopNotes;
use scale_base::{NoMemory, Refusal, Stop};
use std::alloc::Global;

/// The number of a loop in refusals, which count from 1.
pub fn number_of(k: usize) -> u32
    requires { k < 4096 }
    ensures { result ≡ k + 1 }
{
    k as u32 + 1
}

/// By loop, the node of its header. A loop whose header isn't reached is refused.
pub fn find_headers(alloc: Global, graph: &CodeGraph, notes: &LoopNotes) -> Result<Vec<usize>, Stop>
    requires { IsSmallGraph graph.now }
    ensures { AnswersBy (λ headers. headers.items) result (AreHeadersFound graph.now notes.now) }
{
    let mut headers = Vec::new(alloc);
    for k in 0..notes.count() {
        match graph.find(notes.note(k).header) {
            Some(header) => headers.push(header)?,
            None => return Err(Stop::Refused(Refusal::HeaderNotReached(number_of(k)))),
        }
    }
    Ok(headers)
}

/// The least two loops with one header, which is a node below the count.
pub fn least_pair(
    alloc: Global,
    headers: &[usize],
    count: usize,
) -> Result<Option<(usize, usize)>, NoMemory>
    requires { (k x : ℕ) → slice_get headers.now k ≡ Some x → x < count }
    ensures { IfOk result (IsLeastPair (HaveOneNumber headers.now)) }
{
    // By node, the first loop that has its header there.
    let mut firsts: Vec<Option<usize>> = vec![in alloc; None; count]?;
    let mut least = None;
    for (k, header) in headers.iter().enumerate() {
        match firsts[*header] {
            Some(first) => least = Some(lesser_pair(least, (first, k))),
            None => firsts[*header] = Some(k),
        }
    }
    Ok(least)
}
