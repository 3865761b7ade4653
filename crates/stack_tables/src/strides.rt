//! The numbers of an interval, a stride from one to the next.

ghost use Rattle.std.specs.Prelude.{◌≡◌, ◌<◌, ◌≤◌, ◌+◌, ◌*◌, ◌/◌, ◌%◌, ◌^◌};
ghost use Rattle.wrapped_intervals.specs.Small.{IsKept};

use wrapped_intervals::Arc;

// How many words there are.
const WORDS: u64 = 4_294_967_296;

/// The number of an interval that is so many of its strides behind the first.
pub fn number_at(place: Arc, n: u64) -> u32
    requires place { IsKept place }
    requires few { n ≤ 2 ^ 17 }
    ensures { result ≡ (place.low + place.stride * n) % 2 ^ 32 }
{
    ((place.low() + place.stride() * n) % WORDS) as u32
}

/// How many of its strides the last number of an interval is behind the first, at most.
pub fn stride_count(place: Arc) -> u64
    ensures none { place.stride ≡ 0 → result ≡ 0 }
    ensures some { 0 < place.stride → result ≡ place.more / place.stride }
{
    if place.stride() == 0 {
        0
    } else {
        place.more() / place.stride()
    }
}
