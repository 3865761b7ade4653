//! What runs do at each edge, in all.

use crate::tracing::{EdgeTrace, Passed};
use scale_base::NoMemory;
use std::alloc::Global;

/// The weight of a run of so many cycles, which has so many shares: runs with the same shares count the same in all, whatever their lengths are.
pub fn weight_of(shares: u64, cycles: u64) -> u64 {
    let whole = u128::from(shares) * 0x1_0000_0000_0000;
    let weight = whole.checked_div(u128::from(cycles)).unwrap_or(0);
    if weight < u128::from(u64::MAX) {
        weight as u64
    } else {
        u64::MAX
    }
}

/// Of the runs that go over an edge, in all and each by its weight: how many there are, their cycles behind the first pass and from the first to the
/// last one, and their passes.
#[derive(Clone, Copy)]
pub struct EdgeSum {
    pub runs: u128,
    pub behind: u128,
    pub span: u128,
    pub passes: u128,
}

impl EdgeSum {
    /// Of no runs.
    pub fn none() -> EdgeSum {
        EdgeSum {
            runs: 0,
            behind: 0,
            span: 0,
            passes: 0,
        }
    }
}

/// By edge, what the runs do there, and the cycles of all of them.
#[derive(Drop)]
pub struct Sums {
    edges: Vec<EdgeSum>,
    cycles: u128,
    runs: u64,
}

/// A number by a weight.
fn weighed(number: u64, weight: u64) -> u128 {
    u128::from(number) * u128::from(weight)
}

/// The sums with a run of so many cycles that goes over the edge.
fn added(sum: EdgeSum, passed: Passed, cycles: u64, weight: u64) -> EdgeSum {
    let behind = weighed(cycles.saturating_sub(passed.first), weight);
    let span = weighed(passed.last.saturating_sub(passed.first), weight);
    EdgeSum {
        runs: sum.runs.saturating_add(u128::from(weight)),
        behind: sum.behind.saturating_add(behind),
        span: sum.span.saturating_add(span),
        passes: sum.passes.saturating_add(weighed(passed.passes, weight)),
    }
}

impl Sums {
    /// Of no runs, for so many edges.
    pub fn new(alloc: Global, edges: usize) -> Result<Sums, NoMemory> {
        Ok(Sums {
            edges: vec![in alloc; EdgeSum::none(); edges]?,
            cycles: 0,
            runs: 0,
        })
    }

    /// Adds a run of so many cycles that was traced.
    pub fn add(&mut self, trace: &EdgeTrace, cycles: u64, weight: u64) {
        self.runs = self.runs.saturating_add(1);
        self.cycles = self.cycles.saturating_add(weighed(cycles, weight));
        for e in 0..self.edges.len() {
            let passed = trace.passed(e);
            if passed.passes > 0 {
                self.edges[e] = added(self.edges[e], passed, cycles, weight);
            }
        }
    }

    /// What the runs do at edge `e`.
    pub fn edge(&self, e: usize) -> EdgeSum {
        if e < self.edges.len() {
            self.edges[e]
        } else {
            EdgeSum::none()
        }
    }

    /// How many runs there are.
    pub fn runs(&self) -> u64 {
        self.runs
    }

    /// The cycles of all runs.
    pub fn cycles(&self) -> u128 {
        self.cycles
    }
}
