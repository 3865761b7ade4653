//! Bytes that no store changes: that an image has them where nothing may be written, and what loads of them give.

ghost use Rattle.std.specs.Prelude.{◌≡◌, ◌<◌, ◌≤◌, ◌+◌, ◌*◌, ◌%◌, ◌^◌, ℕ, length, slice_index, Some, false, true};
ghost use Rattle.scale_base.specs.Image.{LoadSegment, addresses_of, loaded_byte, PF_W};
ghost use Rattle.scale_base.specs.Elf.{has};
ghost use Rattle.scale_base.specs.Layout.{layout_of};
ghost use Rattle.scale_base.specs.Spans.{in_span};
ghost use Rattle.std.specs.List.{All};
ghost use Rattle.elf_image.specs.Segment.{segment_value};
ghost use Rattle.stack_laws.specs.Fixed.{AreFixedIn, AreUnwritten, GivesFixed};
ghost use Rattle.stack_laws.specs.Stacks as stacks;
ghost use Rattle.wrapped_intervals.specs.Small.{IsKept, IsKeptOr};
ghost use Rattle.stack_tables.specs.Tables.{IsStackClaim, fixed_in, has_address, stacks_in};
ghost use Rattle.stack_checks.specs.Checked.{GivesAt, HasBytes, IsApartFrom, IsFixedPart, IsGiven, IsUnwrittenIn, IsWay, from, stacks_along, to, values_along};

use crate::cells::Loading;
use crate::memory::byte_at;
use crate::ways::{Way, arc_behind};
use elf_image::{ImageView, Segment};
use scale_base::{Instr, LoadOp, PF_W, STACK, Span};
use stack_tables::{
    FixedPart, StackClaim, fixed_load, fixed_parts, held_at, load_width, number_at, stride_count,
};
use wrapped_intervals::{Arc, holds, is_kept, sum_with};

// At how many addresses a load is looked at, at most.
const MOST_ADDRESSES: u64 = 1_024;

// Whether a load at an address gives a number of the interval, or traps since it isn't aligned.
fn is_given_at(loading: &Loading, parts: &[FixedPart], at: u32) -> bool
    requires { IsKeptOr loading.now.values }
    ensures { result ≡ true → GivesAt (fixed_in parts.now) loading.now at }
{
    if at % load_width(loading.op) != 0 {
        return true;
    }
    match fixed_load(parts, loading.op, at) {
        Some(number) => holds(loading.values, number),
        None => false,
    }
}

// Whether that is so at each address of an interval.
fn are_given(loading: &Loading, parts: &[FixedPart], place: Arc) -> bool
    requires values { IsKeptOr loading.now.values }
    requires place { IsKept place }
    ensures { result ≡ true → GivesFixed (fixed_in parts.now) loading.now.op place loading.now.values }
{
    let strides = stride_count(place);
    if strides >= MOST_ADDRESSES {
        return false;
    }
    for n in 0..strides + 1 {
        if !is_given_at(loading, parts, number_at(place, n)) {
            return false;
        }
    }
    true
}

// Whether it is so at the addresses of a load, where they are known.
fn is_given(loading: &Loading, parts: &[FixedPart]) -> bool
    requires values { IsKeptOr loading.now.values }
    ensures { result ≡ true → IsGiven (fixed_in parts.now) loading.now }
{
    match loading.place {
        Some(place) => is_kept(Some(place)) && are_given(loading, parts, place),
        None => false,
    }
}

/// Whether a register's interval where the way leads holds what loads of bytes give that no store changes.
pub fn is_fixed_loaded(way: &Way<'_>, r: u8) -> bool
    requires way { IsWay way.now }
    requires register { r < 32 }
    ensures { result ≡ true → stacks.IsFixedLoaded (values_along way.now) (stacks_along way.now) way.now.instr (from way.now) (to way.now)
        r }
{
    match way.instr {
        Instr::Load {
            op,
            rd,
            rs1,
            offset,
        } => {
            if rd == r {
                let loading = Loading {
                    op,
                    place: sum_with(
                        held_at(way.claim, way.from, rs1),
                        u64::from(offset.cast_unsigned()),
                    ),
                    values: arc_behind(way, r),
                };
                is_given(&loading, fixed_parts(way.claim))
            } else {
                false
            }
        }
        _ => false,
    }
}

// Whether a span has no address of a part.
fn is_apart(span: Span, part: &FixedPart) -> bool
    ensures { result ≡ true → IsApartFrom span part.now }
{
    let from = u64::from(part.from);
    let end = from + part.bytes.len() as u64;
    let first = u64::from(span.from);
    if end <= first {
        return true;
    }
    first + u64::from(span.len) <= from
}

// Whether no address of a part is one of a segment's that may be written.
fn is_unwritten_in(segment: &Segment<'_>, part: &FixedPart) -> bool
    ensures { result ≡ true → IsUnwrittenIn (segment_value segment.now) part.now }
{
    if segment.flags & PF_W != 0 {
        return is_apart(
            Span {
                from: segment.from,
                len: segment.len,
            },
            part,
        );
    }
    true
}

// The same of each segment.
fn is_unwritten(view: &ImageView<'_>, part: &FixedPart) -> bool
    ensures { result ≡ true → All (λ s. IsUnwrittenIn s part.now) view.now.segments }
{
    for k in 0..view.segment_count() {
        if !is_unwritten_in(&view.segment(k), part) {
            return false;
        }
    }
    true
}

// Whether an image loads the bytes of a part.
fn has_bytes(view: &ImageView<'_>, part: &FixedPart) -> bool
    ensures { result ≡ true → HasBytes view.now part.now }
{
    let from = u64::from(part.from);
    for k in 0..part.bytes.len() {
        if byte_at(view, from + k as u64) != part.bytes[k] {
            return false;
        }
    }
    true
}

// Whether it does, where nothing may be written.
fn is_fixed(view: &ImageView<'_>, part: &FixedPart) -> bool
    ensures { result ≡ true → IsFixedPart view.now part.now }
{
    if !is_apart(STACK, part) {
        return false;
    }
    if !is_unwritten(view, part) {
        return false;
    }
    has_bytes(view, part)
}

// Whether that is so of each part.
fn are_parts_fixed(view: &ImageView<'_>, parts: &[FixedPart]) -> bool
    ensures { result ≡ true → All (IsFixedPart view.now) parts.now }
{
    for part in parts {
        if !is_fixed(view, part) {
            return false;
        }
    }
    true
}

/// Whether the image has all bytes that no store changes, where nothing may be written.
pub fn are_fixed(claim: &StackClaim<'_>) -> bool
    requires { IsStackClaim claim.now }
    ensures unwritten { result ≡ true → AreUnwritten (layout_of claim.now.view.now) (stacks_in claim.now).fixed }
    ensures fixed { result ≡ true → AreFixedIn (stacks_in claim.now).fixed (loaded_byte claim.now.view.now) }
{
    are_parts_fixed(claim.view, fixed_parts(claim))
}
