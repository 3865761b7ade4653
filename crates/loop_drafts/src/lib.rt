//! Drafts of loop files: the loops of an image's reached code, their headers and their ranges, with the bounds that the code shows.
//! Tests: crates/graph_tests/src/drafts.rt.
#![tactic(auto)]

ghost use Rattle.loop_drafts.specs.Shapes.{BoundsAreFree};
ghost use Rattle.loop_drafts.specs.Countable.{CountsAreFree};
ghost use Rattle.loop_drafts.specs.Trusting.{NothingIsTrusted};
ghost use Rattle.loop_drafts.specs.Kept.{DraftedBoundsAreKept, DraftedCountsAreTaken, DraftedFilesNeedReturns, DraftedReturnsGoBack, DraftedFilesAreKept};

mod bounds;
mod counting;
mod draft;
mod drafted;
mod drafting;
mod exact;
mod found;
mod least;
mod left;
mod noted;
mod remarks;
mod search;
mod texts;
mod trusted;
mod trusting;

pub use drafted::{LoopDraft, Piece, filled_text, printed_text};
pub use drafting::{DraftInputs, draft_loops};
pub use found::{AsidePart, FoundLoop, FoundLoops};
pub use search::find_loops;
pub use trusting::Trust;

/// Where no store is trusted, nothing has to be so of a run.
pub fn nothing_is_trusted()
    ensures { NothingIsTrusted }
{}

/// Where the loops of a draft are taken, they are with any bounds: loops are refused by their headers and ranges alone.
pub fn bounds_are_free()
    ensures { BoundsAreFree }
{}

/// Where loops can be counted, they can be with any bounds: so what a draft counts can be.
pub fn counts_are_free()
    ensures free { CountsAreFree }
    ensures drafted { DraftedCountsAreTaken }
{}

/// No run of the image, on an input that is as short as was told, breaks a drafted bound before it breaks a return address or a bound that the user filled
/// in; and where each loop has a drafted bound, the file as it is printed is kept by each such run whose returns go back to their calls. Both are so as long as
/// no store that is trusted changes a word of the stack that is kept.
pub fn drafted_bounds_are_kept()
    ensures filled { DraftedBoundsAreKept }
    ensures printed { DraftedFilesNeedReturns }
{}

/// Where a draft says so of returns, every run goes back to its calls, on each input; and where each loop has a drafted bound as well, every run keeps
/// the file as it is printed, on each input that is as short as was told. Both are so of runs in which no store that is trusted changes a word that is kept.
pub fn drafted_files_are_kept()
    ensures returns { DraftedReturnsGoBack }
    ensures kept { DraftedFilesAreKept }
{}
