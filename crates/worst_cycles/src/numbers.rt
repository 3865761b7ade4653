//! Worst cycles by function, iterations by loop, and what is left at nodes and behind edges.

ghost use Rattle.std.specs.Prelude.{◌≡◌, ◌<◌, length, slice_get, Some};
ghost use Rattle.worst_cycles.specs.Worst.{WorstView};

use crate::parts::LeftParts;
use std::marker::Model;

/// The worst cycles of a program's functions: the most that one call of each may take, with all that it calls; of its loops the
/// most that one iteration may take; and what is left at its nodes and behind its edges. All are in cycles.
#[derive(Drop)]
pub struct WorstNumbers {
    worst: Vec<u64>,
    iteration: Vec<u64>,
    left: Vec<u64>,
    context: Vec<u64>,
    slacks: Vec<u64>,
    rests: Vec<u64>,
}

impl Model for WorstNumbers {
    ghost use Rattle.std.specs.Prelude.{◌<◌, length};
    ghost use Rattle.worst_cycles.specs.Worst.{WorstView};

    ghost Value = { WorstView };

    ghost view = { λ n. record {
      worst = n.worst.items;
      iteration = n.iteration.items;
      left = n.left.items;
      context = n.context.items;
      slacks = n.slacks.items;
      rests = n.rests.items;
    } };

    ghost invariant = { λ n. 0 < length n.worst.items };
}

impl WorstNumbers {
    pub(crate) fn from_parts(worst: Vec<u64>, iteration: Vec<u64>, parts: LeftParts) -> WorstNumbers
        requires some { 0 < length worst.items }
        ensures { result ≡ record {
          worst = worst.items;
          iteration = iteration.items;
          left = parts.left.items;
          context =
              parts.context.items;
          slacks = parts.slacks.items;
          rests = parts.rests.items;
        } }
    {
        WorstNumbers {
            worst,
            iteration,
            left: parts.left,
            context: parts.context,
            slacks: parts.slacks,
            rests: parts.rests,
        }
    }

    /// The worst cycles of the program: those of function 0.
    pub fn total(&self) -> u64
        ensures { slice_get self.now.worst 0 ≡ Some result }
    {
        self.worst[0]
    }

    /// The worst cycles of function `f`.
    pub fn function(&self, f: usize) -> u64
        requires { f < length self.now.worst }
        ensures { slice_get self.now.worst f ≡ Some result }
    {
        self.worst[f]
    }

    /// The greatest cost of one iteration of loop `l`.
    pub fn iteration(&self, l: usize) -> u64
        requires { l < length self.now.iteration }
        ensures { slice_get self.now.iteration l ≡ Some result }
    {
        self.iteration[l]
    }

    /// What is left at node `k` of its function, without the turns that the loops round it have left.
    pub fn left(&self, k: usize) -> u64
        requires { k < length self.now.left }
        ensures { slice_get self.now.left k ≡ Some result }
    {
        self.left[k]
    }

    /// What is left of the callers of function `f` behind a call of it: 0 for the program's entry.
    pub fn context(&self, f: usize) -> u64
        requires { f < length self.now.context }
        ensures { slice_get self.now.context f ≡ Some result }
    {
        self.context[f]
    }

    /// The slack of edge `e` in cycles: what is left before it, and one iteration more where it is a back edge, less its cost
    /// with all turns of the loops that it enters and what is left behind it. 0 for an edge that leads to no node.
    pub fn slack(&self, e: usize) -> u64
        requires { e < length self.now.slacks }
        ensures { slice_get self.now.slacks e ≡ Some result }
    {
        self.slacks[e]
    }

    /// The rest behind edge `e` in cycles: what is left at most of the program after it. 0 for an edge that leads to no node.
    pub fn rest(&self, e: usize) -> u64
        requires { e < length self.now.rests }
        ensures { slice_get self.now.rests e ≡ Some result }
    {
        self.rests[e]
    }

    /// By edge, its slack.
    pub fn slacks(&self) -> &[u64]
        ensures { result.now ≡ self.now.slacks }
    {
        &self.slacks
    }
}
