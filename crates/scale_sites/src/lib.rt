//! Where a program gets switches of level and counters of turns, and what their stubs cost.
//! Tests: crates/answer_tests/src/rewriting.rt.
#![tactic(auto)]

mod cost;
mod counting;
mod edge_marks;
mod forms;
mod marking;
mod sites;

ghost use Rattle.scale_sites.specs.Forms.{MarksStoreFirst, FormedStoresFirst, FormedIsNoLonger, FormedCountsAlike};
ghost use Rattle.scale_sites.specs.Marks.{SwitchesOnce};
ghost use Rattle.scale_sites.specs.Weights.{ExtraSplits};

pub use cost::{mark_cost, mark_tail, small_costs};
pub use counting::{CounterList, counters};
pub use sites::{Sites, choose, choose_where, form_sites};

/// On accepted loops at most one mark of an edge is a switch. The extra cycles of a branch's edge with a switch are a jump, those up
/// to the port store, and the tail.
pub fn site_laws()
    ensures once { SwitchesOnce }
    ensures splits { ExtraSplits }
{}

/// At most the first mark of an edge stores at the port, also where others stand for them. Those are no more, and do the same to the counters.
pub fn form_laws()
    ensures first { MarksStoreFirst }
    ensures formed_first { FormedStoresFirst }
    ensures formed_few { FormedIsNoLonger }
    ensures formed_counts { FormedCountsAlike }
{}
