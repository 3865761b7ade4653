//! Runs of a stored image with stubs: they follow the runs of the original, and each step of the original is one leg of the stored run,
//! which costs the stored weight of its edge and stores at the speed port what the edge's marks choose.
//! Tests: none, since nothing of it runs.
#![tactic(auto)]

ghost use Rattle.stored_runs.specs.Laws.{LegsAreLong, LegsAreShort, LegsCostStoredWeights, LegsHaveOneStepOfText, MeetingsAreOnce, PatchedRunsFollow, StoredRunsFollow, StubbedArePatched};

mod stub_steps;

pub use stub_steps::{block_in_place, passages, stubs_at_work};

/// The stored image follows the original.
pub fn stored_runs_follow()
    ensures { StoredRunsFollow }
{}

/// So does every image of which some instructions are patched, wherever their stubs stand in its keyed segment. One with a block of stubs is such
/// an image.
pub fn patched_runs_follow()
    ensures follow { PatchedRunsFollow }
    ensures stubbed { StubbedArePatched }
{}

/// What legs cost, and how many steps they have: one of the text each, and at most so many others as the stubs cost cycles.
pub fn legs_cost_stored_weights()
    ensures cost { LegsCostStoredWeights }
    ensures text { LegsHaveOneStepOfText }
    ensures short { LegsAreShort }
    ensures long { LegsAreLong }
{}

/// The runs of an image and of its stored image meet once after each step of the original.
pub fn meetings_are_once()
    ensures { MeetingsAreOnce }
{}
