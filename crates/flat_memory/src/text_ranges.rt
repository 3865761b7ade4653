//! Text ranges in ascending order.

ghost use Rattle.std.specs.Prelude.{◌≡◌, ℕ, ◌≤◌, ◌<◌, length, Bool, Some, IsTrue, slice_index_or};
ghost use Rattle.std.specs.List.{list_any};
ghost use Rattle.scale_base.specs.declared.ranges.Range.{Range};
ghost use Rattle.scale_base.specs.Image as image;
ghost use Rattle.flat_memory.specs.Ordered.{is_ordered_text};

use scale_base::Range;

/// How many of the ranges begin at or below an address.
fn place_of(text: &[Range], at: u32) -> usize
    requires { IsTrue (is_ordered_text text.now) }
    ensures bound { result ≤ length text.now }
    ensures below { (k : ℕ) (d : Range) → k < result → (slice_index_or text.now k d).from ≤ at }
    ensures above { (k : ℕ) (d : Range) → result ≤ k → k < length text.now → at < (slice_index_or text.now k d).from }
{
    text.partition_point(|range| range.from <= at)
}

/// Whether a range has the address.
pub fn in_text(text: &[Range], at: u32) -> bool
    requires { IsTrue (is_ordered_text text.now) }
    ensures { result ≡ list_any (image.is_in at) text.now }
{
    let place = place_of(text, at);
    if place == 0 {
        return false;
    }
    at < text[place - 1].to
}

/// Whether the ranges have each address from one to another, if they have all or none.
pub fn text_whole(text: &[Range], from: u32, last: u32) -> Option<bool>
    requires ordered { IsTrue (is_ordered_text text.now) }
    requires some { from ≤ last }
    ensures { (at : ℕ) (b : Bool) → result ≡ Some b → from ≤ at → at ≤ last → list_any (image.is_in at) text.now ≡ b }
{
    let place = place_of(text, last);
    if place == 0 {
        return Some(false);
    }
    let range = &text[place - 1];
    if range.from > from {
        None
    } else if last < range.to {
        Some(true)
    } else if range.to <= from {
        Some(false)
    } else {
        None
    }
}
