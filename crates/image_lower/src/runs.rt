//! Laws of lowered images, over the definitions alone.

ghost use Rattle.std.specs.Prelude.{◌≡◌, ◌≤◌, ◌<◌, ◌^◌, ℕ, List, length, All, Ok};
ghost use Rattle.scale_base.specs.declared.summary.Lowered.{Lowered};
ghost use Rattle.image_lower.specs.Lowered.{IsLowered};
ghost use Rattle.image_lower.specs.Meets.{LoweredRunsFollow};
ghost use Rattle.image_lower.specs.Promise.{IsLoweredSafely, LoweredAnswersAgree};
ghost use Rattle.image_lower.specs.TreeRuns.{TreesFindTargets};

use scale_base::IMAGE_LIMIT;

/// A tree of comparisons leads to the target that its register holds, with the registers as they were, and costs no more
/// than a tree of its depth.
pub fn trees_find_targets()
    ensures { TreesFindTargets }
{}

/// The lowered image follows each run of the raw one that keeps to the lists: at some number of its own steps it stands as
/// the raw one does, or has ended as it did, with at most the cycles of a tree more for each noted jump that was taken.
pub fn lowered_runs_follow()
    ensures { LoweredRunsFollow }
{}

/// What `lower` stores is safe: it is the file in which each pair and each noted jump is lowered, the numbers are those of that file, and
/// its runs follow those of the original that keep to the lists.
pub fn lowered_images_are_safe()
    ensures { (image jumps stored : List ℕ) (counts : Lowered) → length image ≤ IMAGE_LIMIT → All (λ b. b < 2 ^ 8) image →
        IsLowered image jumps (Ok ((stored, counts))) → IsLoweredSafely image jumps stored counts }
{}

/// Two answers that `lower` may give for the same files are the same.
pub fn lowered_answers_agree()
    ensures { LoweredAnswersAgree }
{}
