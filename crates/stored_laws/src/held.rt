//! Laws of stored images.

ghost use Rattle.std.specs.Prelude.{◌≡◌, Ok, Some};
ghost use Rattle.scale_base.specs.Image.{image_of, loaded_byte};
ghost use Rattle.scale_base.specs.Layout.{layout_of};
ghost use Rattle.stored_laws.specs.Held.{OfHeldImages, empty_block_file};

/// An accepted image without a key, stored with an empty block and no patch, is an accepted image again: the same
/// program, held at the level that its keyed segment names.
pub fn a_held_image_is_an_image()
    ensures accepted { OfHeldImages (λ file image base start held. image_of (empty_block_file file base start) ≡ Ok held) }
    ensures entry { OfHeldImages (λ file image base start held. held.entry ≡ image.entry) }
    ensures bytes { OfHeldImages (λ file image base start held. loaded_byte held ≡ loaded_byte image) }
    ensures layout { OfHeldImages (λ file image base start held. layout_of held ≡ record (layout_of image)
        { keyed = Some (record { from = base; to = base }) }) }
    ensures keyed { OfHeldImages (λ file image base start held. held.keyed_segment ≡ Some
        (record { range = record { from = base; to = base }; start = start })) }
    ensures text { OfHeldImages (λ file image base start held. held.text ≡ image.text) }
{}
