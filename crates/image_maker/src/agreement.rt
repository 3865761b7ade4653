//! Laws of images of lines.

ghost use Rattle.std.specs.Prelude.{◌≡◌, ℕ, List};
ghost use Rattle.image_maker.specs.declared.line.Line.{Line};
ghost use Rattle.image_maker.specs.Made.{IsImageOf};

/// Lines have one image at most: two files that are images of the same lines have the same bytes.
pub fn images_of_lines_agree()
    ensures { (lines : List Line) (a b : List ℕ) → IsImageOf lines a → IsImageOf lines b → a ≡ b }
{}
