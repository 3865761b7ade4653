//! The rests of an iteration of a loop.

ghost use Rattle.std.specs.Prelude.{◌≡◌, ℕ, ◌+◌, ◌^◌, ◌<◌, ◌≤◌, true, length, slice_index, Some};
ghost use Rattle.cost_theory.specs.Worst.{Numbers};
ghost use Rattle.loop_forest.specs.Tree.{loops};
ghost use Rattle.worst_cycles.specs.Worst.{by_edge};
ghost use Rattle.worst_cycles.specs.Visits.{AreVisits, AreSolvedBy, IsEdgeKnown, AreKnownAt};
ghost use Rattle.worst_cycles.specs.Rests.{AreRests, IsRestOf, IsRestKnown, AreRestsKnownAt, IsRestFor, IsRestPast, IsGreaterOf};
ghost use Rattle.worst_cycles.specs.Planned.{IsPlannedGraph};

use crate::planned::PlannedGraph;
use crate::visits::{Visit, cost_of};
use scale_base::CYCLE_LIMIT;

/// The rests of an iteration of a loop from the nodes of its body, each the greatest cost of a plain path within the body
/// and a back edge of the loop.
#[derive(Drop)]
pub struct Rests {
    /// The places of the body's nodes, ascending.
    pub steps: Vec<usize>,
    /// The rests from the first of these nodes, where there are any.
    pub found: Vec<Option<u64>>,
}

impl Rests {
    /// The rest from the node at a place, if it is found.
    pub fn at(&self, place: usize) -> Option<u64>
        requires rests { AreRests self.now }
        ensures rest { IsRestOf self.now place result }
        ensures small { (b : ℕ) → result ≡ Some b → b ≤ CYCLE_LIMIT + 2 ^ 32 }
    {
        // In straight code an edge leads to the node whose rest was found last.
        let count = self.found.len();
        if 0 < count && count <= self.steps.len() && self.steps[count - 1] == place {
            self.found[count - 1]
        } else {
            self.search(place)
        }
    }

    /// The same by halving.
    fn search(&self, place: usize) -> Option<u64>
        requires rests { AreRests self.now }
        ensures rest { IsRestOf self.now place result }
        ensures small { (b : ℕ) → result ≡ Some b → b ≤ CYCLE_LIMIT + 2 ^ 32 }
    {
        match self.steps.binary_search(&place) {
            Ok(m) => {
                if m < self.found.len() {
                    self.found[m]
                } else {
                    None
                }
            }
            Err(_) => None,
        }
    }
}

/// The rest over edge `e`, which is plain.
fn rest_past(planned: &PlannedGraph<'_>, visits: &[Visit], rests: &Rests, e: usize) -> Option<u64>
    requires planned { IsPlannedGraph planned.now }
    requires visits { AreVisits planned.now.graph.now visits.now }
    requires rests { AreRests rests.now }
    requires edge { e < length planned.now.graph.now.code.edges }
    ensures rest { IsRestPast planned.now.graph.now planned.now.plan.now (by_edge planned.now.weights.now) visits.now rests.now e result }
    ensures small { (b : ℕ) → result ≡ Some b → b ≤ 2 ^ 51 }
{
    match planned.graph.target(e) {
        Some(k) => match rests.at(planned.plan.places[k]) {
            Some(rest) => {
                let cost = cost_of(planned, visits, e);
                Some(cost + visits[k].turns + rest)
            }
            None => None,
        },
        None => None,
    }
}

/// The rest over edge `e` of an iteration of loop `l`.
fn rest_over(
    planned: &PlannedGraph<'_>,
    visits: &[Visit],
    rests: &Rests,
    l: usize,
    e: usize,
) -> Option<u64>
    requires planned { IsPlannedGraph planned.now }
    requires visits { AreVisits planned.now.graph.now visits.now }
    requires rests { AreRests rests.now }
    requires within { l < length planned.now.tree.now.headers }
    requires edge { e < length planned.now.graph.now.code.edges }
    ensures rest { (n : Numbers) → AreSolvedBy planned.now.graph.now planned.now.tree.now (by_edge planned.now.weights.now) n →
        IsEdgeKnown planned.now.graph.now planned.now.tree.now planned.now.plan.now visits.now n e →
        IsRestKnown planned.now.graph.now planned.now.tree.now planned.now.plan.now rests.now n l e →
        IsRestFor planned.now.graph.now planned.now.tree.now (by_edge planned.now.weights.now) n l e result }
    ensures small { (b : ℕ) → result ≡ Some b → b ≤ 2 ^ 51 }
{
    match planned.tree.back_loop(e) {
        Some(j) => {
            if j == l {
                Some(cost_of(planned, visits, e))
            } else {
                None
            }
        }
        None => rest_past(planned, visits, rests, e),
    }
}

/// The greater of two numbers, if any.
fn greater(one: Option<u64>, other: Option<u64>) -> Option<u64>
    ensures { IsGreaterOf one other result }
{
    match one {
        Some(a) => match other {
            Some(b) => { if a < b { other } else { one } }
            None => one,
        },
        None => other,
    }
}

/// The rest from node `k` of an iteration of loop `l`, in whose body the node is.
pub fn rest_at_node(
    planned: &PlannedGraph<'_>,
    visits: &[Visit],
    rests: &Rests,
    l: usize,
    k: usize,
) -> Option<u64>
    requires planned { IsPlannedGraph planned.now }
    requires visits { AreVisits planned.now.graph.now visits.now }
    requires rests { AreRests rests.now }
    requires within { l < length planned.now.tree.now.headers }
    requires node { k < length planned.now.graph.now.code.nodes }
    requires inside { (loops planned.now.graph.now planned.now.tree.now).inside l (slice_index planned.now.graph.now.code.nodes k) ≡ true }
    ensures { (n : Numbers) → AreSolvedBy planned.now.graph.now planned.now.tree.now (by_edge planned.now.weights.now) n →
        AreKnownAt planned.now.graph.now planned.now.tree.now planned.now.plan.now visits.now n
        (slice_index planned.now.graph.now.code.nodes k) → AreRestsKnownAt planned.now.graph.now planned.now.tree.now planned.now.plan.now
        rests.now n l (slice_index planned.now.graph.now.code.nodes k) → result ≡ n.closing l
        (slice_index planned.now.graph.now.code.nodes k) }
{
    let (first, end) = planned.graph.edges_of(k);
    let mut most = None;
    for e in first..end {
        most = greater(most, rest_over(planned, visits, rests, l, e));
    }
    most
}
