//! The memory with which a run begins, and the numbers of cells there.

ghost use Rattle.std.specs.Prelude.{◌≡◌, ◌<◌, ◌^◌, ℕ, IfSome, Some, find, option_map, true};
ghost use Rattle.std.specs.List.{All};
ghost use Rattle.scale_base.specs.Image as image;
ghost use Rattle.scale_base.specs.Image.{loaded_byte};
ghost use Rattle.scale_base.specs.State.{half_at, word_at};
ghost use Rattle.elf_image.specs.Segment.{segment_value};
ghost use Rattle.stack_laws.specs.Cells.{IsCellHeld, number_at};
ghost use Rattle.stack_tables.specs.Tables.{HasKeptValues, IsStackClaim, cell_view, stacks_in};

use elf_image::{ImageView, Segment};
use stack_tables::{Cell, StackClaim, cells};
use wrapped_intervals::holds;

// Whether an address is one of a segment's.
fn has_address(segment: &Segment<'_>, at: u64) -> bool
    ensures { result ≡ image.covers at (segment_value segment.now) }
{
    u64::from(segment.from) <= at && at < u64::from(segment.from) + u64::from(segment.len)
}

// The bytes of the file's header that are loaded as zeros, by their place.
fn is_zeroed(place: u64) -> bool
    ensures { result ≡ image.is_zeroed place }
{
    (28 <= place && place < 36) || (44 <= place && place < 46) || (48 <= place && place < 50)
}

// The byte that a segment loads at an address of its own.
fn segment_byte(segment: &Segment<'_>, at: u64) -> u8
    requires { image.covers at (segment_value segment.now) ≡ true }
    ensures { result ≡ image.segment_byte at (segment_value segment.now) }
{
    let offset = at - u64::from(segment.from);
    if offset < segment.file.len() as u64 && !is_zeroed(u64::from(segment.file_at) + offset) {
        segment.file[offset as usize]
    } else {
        0
    }
}

// The first segment that has an address.
fn segment_at<'a>(view: &'a ImageView<'_>, at: u64) -> Option<Segment<'a>>
    ensures { option_map segment_value result ≡ find (image.covers at) view.now.segments }
{
    for k in 0..view.segment_count() {
        let segment = view.segment(k);
        if has_address(&segment, at) {
            return Some(segment);
        }
    }
    None
}

/// The byte at an address.
pub fn byte_at(view: &ImageView<'_>, at: u64) -> u8
    ensures { result ≡ loaded_byte view.now at }
{
    match segment_at(view, at) {
        Some(segment) => segment_byte(&segment, at),
        None => 0,
    }
}

// The number of two bytes from an address on.
fn half(view: &ImageView<'_>, at: u64) -> u32
    requires { at < 2 ^ 33 }
    ensures number { result ≡ half_at (loaded_byte view.now) at }
    ensures small { result < 2 ^ 16 }
{
    u32::from(byte_at(view, at)) + u32::from(byte_at(view, at + 1)) * 0x100
}

// The number of four.
fn word(view: &ImageView<'_>, at: u64) -> u32
    requires { at < 2 ^ 32 }
    ensures { result ≡ word_at (loaded_byte view.now) at }
{
    half(view, at) + half(view, at + 2) * 0x1_0000
}

// The number of a cell, where it has 1, 2 or 4 bytes.
fn cell_number(view: &ImageView<'_>, cell: &Cell) -> Option<u32>
    ensures { IfSome result (λ n. n ≡ number_at (loaded_byte view.now) cell.now.at cell.now.width) }
{
    let at = u64::from(cell.at);
    match cell.width {
        1 => Some(u32::from(byte_at(view, at))),
        2 => Some(half(view, at)),
        4 => Some(word(view, at)),
        _ => None,
    }
}

// Whether it is in the cell's interval.
fn is_cell_started(view: &ImageView<'_>, cell: &Cell) -> bool
    requires { HasKeptValues cell.now }
    ensures { result ≡ true → IsCellHeld (Some (cell_view cell.now)) (loaded_byte view.now) }
{
    match cell_number(view, cell) {
        Some(number) => holds(Some(cell.values), number),
        None => false,
    }
}

// Whether that is so of each of them.
fn are_started(view: &ImageView<'_>, cells: &[Cell]) -> bool
    requires { All HasKeptValues cells.now }
    ensures { result ≡ true → All (λ c. IsCellHeld (Some (cell_view c)) (loaded_byte view.now)) cells.now }
{
    for cell in cells {
        if !is_cell_started(view, cell) {
            return false;
        }
    }
    true
}

/// Whether the memory with which a run begins has the number of each cell in its interval.
pub fn are_cells_started(claim: &StackClaim<'_>) -> bool
    requires { IsStackClaim claim.now }
    ensures { result ≡ true → (j : ℕ) → IsCellHeld ((stacks_in claim.now).cell j) (loaded_byte claim.now.view.now) }
{
    are_started(claim.view, cells(claim))
}
