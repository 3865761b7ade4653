//! Whether an image of other make is a safe rewriting of an original, and what such an image promises.
//! Tests: crates/answer_tests/src/checking.rt.
#![tactic(auto)]

ghost use Rattle.image_check.specs.Laws.{LoadedBytesAreSmall, SafeImagesAreTuned, SafeImagesKeepRuns, SafeImagesKeepThePromise};
ghost use Rattle.image_check.specs.PacedChecks.{LeastBudgetsDecide};
ghost use Rattle.image_check.specs.PacedLaws.{PacedImagesAreBudgeted, PacedImagesKeepRuns, PacedImagesKeepThePromise, SafeImagesArePaced};

mod answers;
mod checking;
mod entries;
mod last_rows;
mod levels;
mod owners;
mod told;
mod uses;
mod weights;

pub use answers::{checked_answers_agree, rewritten_images_are_safe_to_check};
pub use checking::check;

/// Every kept run of a safe image ends as the original's does, with the same output, in time, at no higher level than before, with no more
/// energy than its own cycles at the starting level, and with at most so many cycles and steps more.
pub fn safe_images_keep_the_promise()
    ensures tuned { SafeImagesAreTuned }
    ensures runs { SafeImagesKeepRuns }
    ensures promise { SafeImagesKeepThePromise }
{}

/// So does every kept run of a paced image, whose levels keep budgets: a switch may use what the budget of the level behind it has more, and so
/// stand on an edge without slack. A safe image is a paced one whose budgets are all the deadline.
pub fn paced_images_keep_the_promise()
    ensures safe { SafeImagesArePaced }
    ensures budgeted { PacedImagesAreBudgeted }
    ensures runs { PacedImagesKeepRuns }
    ensures promise { PacedImagesKeepThePromise }
{}

/// There are budgets by which an image is paced just where its entries pay and the least budgets that they need are up to the deadline.
pub fn least_budgets_decide()
    ensures { LeastBudgetsDecide }
{}

/// The bytes that the image of a file loads are below 256, as the other law asks.
pub fn loaded_bytes_are_small()
    ensures { LoadedBytesAreSmall }
{}
