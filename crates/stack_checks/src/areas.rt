//! Whether the areas of a table hold all that an image lets be loaded from or stored to: its stack and its segments.

ghost use Rattle.std.specs.Prelude.{◌≡◌, ◌<◌, ℕ, true};
ghost use Rattle.std.specs.List.{All};
ghost use Rattle.scale_base.specs.Image.{addresses_of};
ghost use Rattle.scale_base.specs.Layout.{layout_of};
ghost use Rattle.scale_base.specs.Spans.{in_span};
ghost use Rattle.bound_laws.specs.Values as values;
ghost use Rattle.elf_image.specs.Segment.{segment_value};
ghost use Rattle.stack_laws.specs.Areas.{AreAreas};
ghost use Rattle.wrapped_intervals.specs.Small.{IsKept};
ghost use Rattle.stack_tables.specs.Tables.{IsStackClaim, stacks_in};
ghost use Rattle.stack_checks.specs.Checked.{IsSpanIn};

use elf_image::{ImageView, Segment};
use scale_base::{STACK, Span};
use stack_tables::{StackClaim, areas};
use wrapped_intervals::{Arc, ahead};

// How many words there are.
const WORDS: u64 = 4_294_967_296;

// Whether an area holds each address of a span that has one.
fn is_span_in(span: Span, area: Arc) -> bool
    requires area { IsKept area }
    requires some { 0 < span.len }
    ensures { result ≡ true → (at : ℕ) → in_span span at ≡ true → values.IsIn area at }
{
    let from = u64::from(span.from);
    let last = u64::from(span.len) - 1;
    if area.stride() != 1 {
        return false;
    }
    if WORDS <= from + last {
        return false;
    }
    ahead(area.low(), from) + last <= area.more()
}

// Whether one of the areas does.
fn is_span_in_some(span: Span, areas: &[Arc]) -> bool
    requires areas { All IsKept areas.now }
    requires some { 0 < span.len }
    ensures { result ≡ true → IsSpanIn areas.now span }
{
    for area in areas {
        if is_span_in(span, *area) {
            return true;
        }
    }
    false
}

// The same of any span: one that has no address is in each area.
fn is_held(span: Span, areas: &[Arc]) -> bool
    requires { All IsKept areas.now }
    ensures { result ≡ true → IsSpanIn areas.now span }
{
    if span.len == 0 {
        return true;
    }
    is_span_in_some(span, areas)
}

// Whether the areas hold the addresses of a segment.
fn is_segment_held(segment: &Segment<'_>, areas: &[Arc]) -> bool
    requires { All IsKept areas.now }
    ensures { result ≡ true → IsSpanIn areas.now (addresses_of (segment_value segment.now)) }
{
    is_held(
        Span {
            from: segment.from,
            len: segment.len,
        },
        areas,
    )
}

// The same of each segment.
fn are_segments_held(view: &ImageView<'_>, areas: &[Arc]) -> bool
    requires { All IsKept areas.now }
    ensures { result ≡ true → All (λ s. IsSpanIn areas.now (addresses_of s)) view.now.segments }
{
    for k in 0..view.segment_count() {
        if !is_segment_held(&view.segment(k), areas) {
            return false;
        }
    }
    true
}

/// Whether each address of the stack, and of each segment, is in one of the areas.
pub fn are_areas(claim: &StackClaim<'_>) -> bool
    requires { IsStackClaim claim.now }
    ensures { result ≡ true → AreAreas (layout_of claim.now.view.now) (stacks_in claim.now).areas }
{
    let known = areas(claim);
    if !is_held(STACK, known) {
        return false;
    }
    are_segments_held(claim.view, known)
}
