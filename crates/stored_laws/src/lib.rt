//! What a stored image is read as.
//! Tests: none, since nothing of it runs.
#![tactic(auto)]

ghost use Rattle.std.specs.Prelude.{◌≡◌, ℕ, List, Ok};
ghost use Rattle.scale_base.specs.declared.ranges.Patch.{Patch};
ghost use Rattle.scale_base.specs.Image.{Image, image_of};
ghost use Rattle.elf_patch.specs.Stored.{stored_image};
ghost use Rattle.stored_laws.specs.StoredView.{IsStorable, stored_view};

mod held;

pub use held::a_held_image_is_an_image;

/// What `write_image` stores of an image is an image again: the original one over the new bytes, with the block as
/// its keyed segment and the starting level.
pub fn stored_is_an_image()
    ensures { (file : List ℕ) (image : Image) (patches : List Patch) (base : ℕ) (block : List ℕ) (start : ℕ)
        → image_of file ≡ Ok image → IsStorable image patches base block start
        → let stored = stored_image file patches base block start in image_of stored ≡ Ok (stored_view image stored base block start) }
{}
