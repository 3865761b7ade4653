//! Stored images of programs whose edges are marked: they follow each kept run of the original, step by step, and their shadow counters
//! hold the counts of the loops that the run is in.

ghost use Rattle.paid_runs.specs.MarkedLaws.{KeptRunsAreFollowed, KeptRunsArePatched, KeptRunsStayInText, LoopsAreCountable, TransitionsCostExtraWeights, TransitionsCostStoredWeights, PatchedWeightsAreWeights, StoredWeightsAreWeights, TargetsAreWords};

mod counts;

pub use counts::counts_on_edges;

/// The stored image follows each kept run, which stays in the text.
pub fn kept_runs_are_followed()
    ensures followed { KeptRunsAreFollowed }
    ensures text { KeptRunsStayInText }
{}

/// So does every image of which some instructions are patched, wherever their stubs stand, and where a loop may have several counters.
pub fn kept_runs_are_patched()
    ensures { KeptRunsArePatched }
{}

/// A kept run costs under the stored weights of its edges what its steps cost with their stubs.
pub fn transitions_cost_stored_weights()
    ensures stored { TransitionsCostStoredWeights }
    ensures extra { TransitionsCostExtraWeights }
{}

/// What the other laws ask of marked graphs: the words to which reached words lead, the loops that can be counted, and the weights.
pub fn graphs_can_be_marked()
    ensures targets { TargetsAreWords }
    ensures countable { LoopsAreCountable }
    ensures weights { StoredWeightsAreWeights }
    ensures patched { PatchedWeightsAreWeights }
{}
