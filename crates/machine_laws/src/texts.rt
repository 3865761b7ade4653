//! Laws of the text of an image, over the definitions alone: a word of the text is what is loaded at its address, and
//! where the ranges of the text lie. System V ABI, chapter 5, "Program Loading".

ghost use Rattle.std.specs.Prelude.{◌≡◌, ℕ, ◌%◌, ◌<◌, ◌≤◌, true, List, All, Some, Ok};
ghost use Rattle.scale_base.specs.Image.{Image, PLAIN_END, image_of, loaded_byte, text_word};
ghost use Rattle.scale_base.specs.Layout.{can_fetch, layout_of};
ghost use Rattle.scale_base.specs.State.{word_at};

/// A word of the text, which is read from the file, is the word that the loaded memory holds at its address, and it may
/// be fetched.
pub fn text_words_are_loaded()
    ensures loaded { (file : List ℕ) (image : Image) (at w : ℕ) → image_of file ≡ Ok image → text_word image at ≡ Some w →
        word_at (loaded_byte image) at ≡ w }
    ensures fetched { (file : List ℕ) (image : Image) (at w : ℕ) → image_of file ≡ Ok image → text_word image at ≡ Some w →
        can_fetch (layout_of image) at ≡ true }
{}

/// Each range of the text begins and ends at a multiple of 4, has an address, and ends below the addresses that a program
/// may not use.
pub fn text_ranges_are_aligned()
    ensures first { (file : List ℕ) (image : Image) → image_of file ≡ Ok image → All (λ r. r.from % 4 ≡ 0) image.text }
    ensures last { (file : List ℕ) (image : Image) → image_of file ≡ Ok image → All (λ r. r.to % 4 ≡ 0) image.text }
    ensures nonempty { (file : List ℕ) (image : Image) → image_of file ≡ Ok image → All (λ r. r.from < r.to) image.text }
    ensures below { (file : List ℕ) (image : Image) → image_of file ≡ Ok image → All (λ r. r.to ≤ PLAIN_END) image.text }
{}
