//! The lesser of two numbers that may be missing.

ghost use Rattle.std.specs.Prelude.{◌≡◌};
ghost use Rattle.scale_base.specs.Least.{lesser_of};

/// The lesser of two numbers, or the one that is there.
pub fn lesser(one: Option<u32>, other: Option<u32>) -> Option<u32>
    ensures { result ≡ lesser_of one other }
{
    match (one, other) {
        (Some(a), Some(b)) => Some(a.min(b)),
        (None, other) => other,
        (one, None) => one,
    }
}
