//! The refusals of a file that is no image, by their numbers.

ghost use Rattle.std.specs.Prelude.{◌≡◌};
ghost use Rattle.elf_view.specs.Refused as refused;

use scale_base::Refusal;

/// The number of the refusal of a file that is no image: 1 to 7. It is 0 for every other refusal.
pub fn refusal_number(refusal: &Refusal) -> u8
    ensures { result ≡ refused.refusal_number refusal.now }
{
    match refusal {
        Refusal::NotElf => 1,
        Refusal::UnsupportedElf(_) => 2,
        Refusal::TruncatedElf => 3,
        Refusal::DynamicImage => 4,
        Refusal::BadSegment(_) => 5,
        Refusal::BadText(_) => 6,
        Refusal::WritableText(_) => 7,
        _ => 0,
    }
}
