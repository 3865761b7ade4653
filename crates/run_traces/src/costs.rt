//! What the stubs of marks cost, as a first estimate.

use power_model::Costs;
use scale_base::{EdgeKind, Mark};
use scale_sites::mark_cost;

/// What marks cost, in cycles: the code of a switch by a word, of one to the lowest level, of a tally and of a reset, and a jump.
#[derive(Clone, Copy)]
pub struct StubCosts {
    pub word: u64,
    pub lowest: u64,
    pub tally: u64,
    pub reset: u64,
    pub jump: u64,
}

// The cycles of a mark's code.
fn code(mark: &Mark, costs: &Costs) -> u64 {
    u64::from(mark_cost(mark, costs))
}

impl StubCosts {
    pub fn new(costs: &Costs) -> StubCosts {
        StubCosts {
            word: code(&Mark::Switch, costs),
            lowest: code(&Mark::Lowest, costs),
            tally: code(&Mark::Tally(0), costs),
            reset: code(&Mark::Reset(0), costs),
            jump: u64::from(costs.jump),
        }
    }

    /// The jumps of a stub, by the kind of an edge of its instruction.
    pub fn jumps(&self, kind: EdgeKind) -> u64 {
        match kind {
            EdgeKind::Taken | EdgeKind::Untaken => self.jump.saturating_mul(2),
            EdgeKind::Jump => self.jump,
            _ => 0,
        }
    }
}
