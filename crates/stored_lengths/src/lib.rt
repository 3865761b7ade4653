//! What a command stores is at most 8,388,608 bytes long, so that `check`, `simulate` and `survey` may load it again. Laws alone.
//! Tests: none, since nothing of it runs.
#![tactic(auto)]

ghost use Rattle.stored_lengths.specs.Laws.{HeldImagesAreShort, ImagesRewrittenAsAreShort, RewrittenImagesAreShort, StubbedFilesAreShort, TunedImagesAreShort};

/// The file of an image with stubs at the place of their block, all in reach, has at most 8,388,608 bytes, whatever chose the stubs.
pub fn stubbed_files_are_short()
    ensures { StubbedFilesAreShort }
{}

/// What `hold` stores has at most 8,388,608 bytes.
pub fn held_images_are_short()
    ensures { HeldImagesAreShort }
{}

/// What `rewrite` stores has at most 8,388,608 bytes.
pub fn rewritten_images_are_short()
    ensures { RewrittenImagesAreShort }
{}

/// What `rewrite_as` stores has at most 8,388,608 bytes.
pub fn images_rewritten_as_are_short()
    ensures { ImagesRewrittenAsAreShort }
{}

/// What `tune` stores has at most 8,388,608 bytes.
pub fn tuned_images_are_short()
    ensures { TunedImagesAreShort }
{}
