//! What a command makes of an image, a machine file and a loop file.
//! Tests: crates/answer_tests/src/rewriting.rt.
#![tactic(auto)]

ghost use Rattle.std.specs.Prelude.{◌≤◌, ℕ, Bool, List, length, Ok};
ghost use Rattle.scale_base.specs.declared.summary.Summary.{Summary};
ghost use Rattle.scaler.specs.Agree.{HeldAnswersAgree, RewrittenAnswersAgree, RewrittenAsAnswersAgree};
ghost use Rattle.scaler.specs.Held.{IsHeld};
ghost use Rattle.marked_images.specs.Promise.{IsStoredSafely};
ghost use Rattle.scaler.specs.Rewritten.{IsRewritten};
ghost use Rattle.scaler.specs.RewrittenAs.{IsRewrittenAs};
ghost use Rattle.scaler.specs.RewrittenRuns.{IsRewrittenSafely};
ghost use Rattle.scaler.specs.Runs.{IsHeldSafely};

use scale_base::{FILE_LIMIT, IMAGE_LIMIT};

mod holding;
mod lines;
mod planning;
mod preparing;
mod rewriting;
mod rewriting_as;
mod timing;

pub use holding::hold;
pub use planning::plan;
pub use preparing::PreparedProgram;
pub use rewriting::rewrite;
pub use rewriting_as::rewrite_as;
pub use timing::TimedProgram;

/// What `hold` stores is safe: on every input and after every number of steps its run is that of the original image, and as long
/// as that run keeps the loops' bounds and the return addresses it takes at most the printed cycles, at most the printed time,
/// which is at most the deadline, and its held energy; and it ends.
pub fn held_images_are_safe()
    ensures { (image machine loops stored : List ℕ) (summary : Summary) → length image ≤ IMAGE_LIMIT → length machine ≤ FILE_LIMIT →
        length loops ≤ FILE_LIMIT → IsHeld image machine loops (Ok ((stored, summary))) → IsHeldSafely image machine loops stored summary }
{}

/// What `rewrite` stores is safe: on every input on which the original run exits and keeps the loops' bounds and the return addresses,
/// its run gives the same output and the same status, ends by the deadline, never raises its level, takes no more energy than its own
/// cycles at its starting level, and adds at most the printed number of cycles; and it follows the original run in time, step by step.
pub fn rewritten_images_are_safe()
    ensures { (image machine loops stored : List ℕ) (summary : Summary) → length image ≤ IMAGE_LIMIT → length machine ≤ FILE_LIMIT →
        length loops ≤ FILE_LIMIT → IsRewritten image machine loops (Ok ((stored, summary))) →
        IsRewrittenSafely image machine loops stored summary }
{}

/// What `rewrite_as` stores is safe, for the machine and the notes of the files themselves: on every input on which the original run exits
/// and keeps the loops' bounds and the return addresses, its run gives the same output and the same status, ends by the deadline, never
/// raises its level, takes no more energy than its own cycles at its starting level, and adds at most the printed number of cycles.
pub fn images_rewritten_as_are_safe()
    ensures { (image machine loops : List ℕ) (min_gain : ℕ) (counters : Bool) (stored : List ℕ) (summary : Summary) →
        length image ≤ IMAGE_LIMIT → length machine ≤ FILE_LIMIT → length loops ≤ FILE_LIMIT →
        IsRewrittenAs image machine loops min_gain counters (Ok ((stored, summary))) → IsStoredSafely image machine loops stored summary }
{}

/// Two answers that `hold` may give for the same files are the same, but for the cycle that a refusal names.
pub fn held_answers_agree()
    ensures { HeldAnswersAgree }
{}

/// Two answers that `rewrite` may give for the same files are the same, but for the cycle that a refusal names.
pub fn rewritten_answers_agree()
    ensures { RewrittenAnswersAgree }
{}

/// Two answers that `rewrite_as` may give for the same files and choices are the same, but for the cycle that a refusal names.
pub fn rewritten_as_answers_agree()
    ensures { RewrittenAsAnswersAgree }
{}
