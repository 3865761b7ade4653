//! Ranges in ascending order, and whether they may be written.

ghost use Rattle.std.specs.Prelude.{◌≡◌, ◌<◌, ◌+◌, ◌^◌, IfOk, IfErr};
ghost use Rattle.std.specs.List.{list_all, list_any};
ghost use Rattle.std.specs.Bool.{OnTrue};
ghost use Rattle.scale_base.specs.Rules.{first_broken, refusal_in};
ghost use Rattle.scale_base.specs.Image as image;
ghost use Rattle.elf_image.specs.Ascending.{AscendFrom};
ghost use Rattle.elf_view.specs.Beside.{are_separate, ranges_by};

use crate::segments::has_key;
use scale_base::{PF_W, ProgramHeader, Range, Refusal, Stop, TextPart};
use std::alloc::{AllocError, Global};
use std::collections::BTreeMap;

/// The addresses of a part.
pub fn range_of(part: &TextPart) -> Range
    requires { part.now.span.from + part.now.span.len < 2 ^ 32 }
    ensures { result ≡ image.range_of part.now }
{
    Range {
        from: part.span.from,
        to: part.span.from + part.span.len,
    }
}

/// The range shares no address with these ranges, given as the end of each by its start. The last that begins below its end decides.
fn is_separate(ends: &BTreeMap<u32, u32>, range: Range) -> bool
    requires ascending { AscendFrom 0 (ranges_by ends.now) }
    requires some { range.from < range.to }
    ensures { result ≡ list_all (λ r. are_separate r range) (ranges_by ends.now) }
{
    match ends.range(..range.to).next_back() {
        Some((_, end)) => *end <= range.from,
        None => true,
    }
}

/// Adds a range to these, given as the end of each by its start, if it shares no address with them. The answer says whether it did.
pub fn insert_range(ends: &mut BTreeMap<u32, u32>, range: Range) -> Result<bool, Stop>
    requires ascending { AscendFrom 0 (ranges_by ends.old) }
    requires some { range.from < range.to }
    ensures separate { IfOk result (λ separate. separate ≡ list_all (λ r. are_separate r range) (ranges_by ends.old)) }
    ensures ranges { IfOk result (λ separate. OnTrue separate (ranges_by ends.new ≡ image.insert_range (ranges_by ends.old) range)) }
    ensures kept { IfOk result (λ separate. OnTrue separate (AscendFrom 0 (ranges_by ends.new))) }
    ensures err { IfErr result (λ stop. stop ≡ Stop.Memory) }
{
    if !is_separate(ends, range) {
        return Ok(false);
    }
    ends.insert(range.from, range.to)?;
    Ok(true)
}

/// The ranges, given as the end of each by its start, in ascending order.
pub fn list_ranges(alloc: Global, ends: &BTreeMap<u32, u32>) -> Result<Vec<Range>, AllocError>
    ensures { IfOk result (λ ranges. ranges.items ≡ ranges_by ends.now) }
{
    ends.iter()
        .map(|(from, to)| Range {
            from: *from,
            to: *to,
        })
        .collect(alloc)
}

fn is_writable_at(range: &Range, header: &ProgramHeader) -> bool
    ensures { result ≡ image.is_writable_at range.now header.now }
{
    !has_key(header)
        && header.p_vaddr <= range.from
        && u64::from(range.to) <= u64::from(header.p_vaddr) + u64::from(header.p_filesz)
        && header.p_flags & PF_W != 0
}

fn is_writable(segments: &[ProgramHeader], range: &Range) -> bool
    ensures { result ≡ list_any (image.is_writable_at range.now) segments.now }
{
    segments.iter().any(|h| is_writable_at(range, h))
}

/// No range may be written.
pub fn check_not_writable(segments: &[ProgramHeader], ranges: &[Range]) -> Result<(), Refusal>
    ensures { refusal_in result ≡ first_broken (image.write_rules segments.now ranges.now) }
{
    for range in ranges {
        if is_writable(segments, range) {
            return Err(Refusal::WritableText(range.from));
        }
    }
    Ok(())
}
