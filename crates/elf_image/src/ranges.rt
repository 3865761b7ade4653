//! An address among ranges in ascending order.

ghost use Rattle.std.specs.Prelude.{◌≡◌, ◌≤◌, ◌<◌, ◌+◌, ℕ, length, slice_index_or};
ghost use Rattle.std.specs.List.{list_any};
ghost use Rattle.scale_base.specs.declared.ranges.Range.{Range};
ghost use Rattle.scale_base.specs.Image as image;
ghost use Rattle.elf_image.specs.Ascending.{AscendFrom};

use scale_base::Range;

/// How many of the ranges begin at or below an address.
fn place_of(ranges: &[Range], at: u32) -> usize
    requires { AscendFrom 0 ranges.now }
    ensures bound { result ≤ length ranges.now }
    ensures below { (k : ℕ) (d : Range) → k < result → (slice_index_or ranges.now k d).from ≤ at }
    ensures above { (k : ℕ) (d : Range) → result ≤ k → k < length ranges.now → at < (slice_index_or ranges.now k d).from }
{
    ranges.partition_point(|range| range.from <= at)
}

/// The address lies in some range.
pub fn is_in_some(ranges: &[Range], at: u32) -> bool
    requires { AscendFrom 0 ranges.now }
    ensures { result ≡ list_any (image.is_in at) ranges.now }
{
    let place = place_of(ranges, at);
    if place == 0 {
        return false;
    }
    at < ranges[place - 1].to
}
