//! The text of an image: its parts, their rules, and its ranges in ascending order.

ghost use Rattle.std.specs.Prelude.{◌≡◌, ◌≤◌, ◌<◌, ◌+◌, ◌*◌, ◌^◌, [], ◌∷◌, nat_lt, length, map, fold, sum_by, All, OnOk, IfOk, IfErr, MatchResult, IsTrue};
ghost use Rattle.std.specs.Bool.{OnTrue};
ghost use Rattle.std.specs.Option.{ForSome};
ghost use Rattle.std.specs.List.{list_any, filter_map, cons_option};
ghost use Rattle.scale_base.specs.Rules.{rule, first_broken, refusal_in, AllHold, IsStop};
ghost use Rattle.elf_image.specs.Ascending.{AscendFrom};
ghost use Rattle.elf_view.specs.Beside.{fits_beside, next_rules, ranges_by};
ghost use Rattle.scale_base.specs.Elf as elf;
ghost use Rattle.scale_base.specs.Image as image;

use crate::ranges::{check_not_writable, insert_range, list_ranges, range_of};
use crate::segments::has_key;
use crate::tables::{has_section_headers, read_section_header, section_header_count};
use elf_image::word;
use scale_base::{PF_X, ProgramHeader, Range, Refusal, SectionHeader, Span, Stop, TextPart};
use std::alloc::Global;
use std::collections::BTreeMap;

const SHT_PROGBITS: u32 = 1;

const SHF_ALLOC: u32 = 2;

const SHF_EXECINSTR: u32 = 4;

const HEADER_LEN: u32 = 52;

/// Behind the bytes of the file's header that a rewriting changes.
const CHANGED_END: u32 = 46;

const MAX_TEXT: u64 = 524_288;

/// The text of a section, if it holds any.
fn text_of_section(section: &SectionHeader) -> Option<TextPart>
    ensures part { result ≡ image.text_of_section section.now }
    ensures some { ForSome result (λ p. 0 < p.span.len) }
{
    if section.sh_type == SHT_PROGBITS
        && section.sh_flags & SHF_ALLOC != 0
        && section.sh_flags & SHF_EXECINSTR != 0
        && 0 < section.sh_size
    {
        Some(TextPart {
            span: Span {
                from: section.sh_addr,
                len: section.sh_size,
            },
            place: u64::from(section.sh_offset),
        })
    } else {
        None
    }
}

fn is_code_segment(header: &ProgramHeader) -> bool
    ensures { result ≡ image.is_code_segment header.now }
{
    !has_key(header) && header.p_flags & PF_X != 0
}

/// The text of a segment, if it holds any.
fn text_of_segment(header: &ProgramHeader) -> Option<TextPart>
    requires { header.now.p_vaddr + header.now.p_filesz < 2 ^ 32 }
    ensures part { result ≡ image.text_of_segment header.now }
    ensures some { ForSome result (λ p. 0 < p.span.len) }
{
    let first = u64::from(header.p_vaddr);
    let from = 4 * ((first + u64::from(HEADER_LEN.saturating_sub(header.p_offset)) + 3) / 4);
    let to = 4 * ((first + u64::from(header.p_filesz)) / 4);
    if is_code_segment(header) && from < to {
        Some(TextPart {
            span: Span {
                from: from as u32,
                len: (to - from) as u32,
            },
            place: u64::from(header.p_offset) + (from - first),
        })
    } else {
        None
    }
}

fn holds_part(part: &TextPart, header: &ProgramHeader) -> bool
    ensures { result ≡ image.holds_part part.now header.now }
{
    let first = u64::from(header.p_vaddr);
    is_code_segment(header)
        && header.p_vaddr <= part.span.from
        && part.span.end() <= first + u64::from(header.p_filesz)
        && u128::from(part.place) + u128::from(first)
            == u128::from(header.p_offset) + u128::from(part.span.from)
}

fn is_off_table(bytes: &[u8], part: &TextPart) -> bool
    requires { 52 ≤ length bytes.now }
    ensures { result ≡ image.is_off_table bytes.now part.now }
{
    let table = u64::from(word(bytes, 32));
    let end = table + 40 * section_header_count(bytes) as u64;
    !has_section_headers(bytes)
        || u64::from(CHANGED_END) <= table
            && (u128::from(part.place) + u128::from(part.span.len) <= u128::from(table)
                || end <= part.place)
}

fn is_text_place(bytes: &[u8], segments: &[ProgramHeader], part: &TextPart) -> bool
    requires { 52 ≤ length bytes.now }
    ensures { result ≡ image.is_text_place bytes.now segments.now part.now }
{
    part.span.from % 4 == 0
        && part.span.len % 4 == 0
        && is_held(segments, part)
        && 52 <= part.place
        && is_off_table(bytes, part)
}

fn is_held(segments: &[ProgramHeader], part: &TextPart) -> bool
    ensures { result ≡ list_any (image.holds_part part.now) segments.now }
{
    segments.iter().any(|h| holds_part(part, h))
}

/// The ranges of the parts so far, as the end of each by its start, and how many bytes they have.
#[derive(Drop)]
struct TextSoFar {
    ends: BTreeMap<u32, u32>,
    bytes: u64,
}

impl TextSoFar {
    fn new(alloc: Global) -> TextSoFar
        ensures ranges { ranges_by result.ends ≡ [] }
        ensures bytes { result.bytes ≡ 0 }
    {
        TextSoFar {
            ends: BTreeMap::new(alloc),
            bytes: 0,
        }
    }

    /// Adds a part, if it keeps the rules beside the earlier ones. The answer says whether it does.
    fn add(
        &mut self,
        bytes: &[u8],
        segments: &[ProgramHeader],
        part: &TextPart,
    ) -> Result<bool, Stop>
        requires header { 52 ≤ length bytes.now }
        requires low { All (λ h. h.p_vaddr + h.p_filesz < 2 ^ 32) segments.now }
        requires some { 0 < part.now.span.len }
        requires ascending { AscendFrom 0 (ranges_by self.old.ends) }
        requires few { self.old.bytes ≤ 524288 }
        ensures fits { IfOk result (λ fits. fits ≡ fits_beside bytes.now segments.now (ranges_by self.old.ends) self.old.bytes part.now) }
        ensures ranges { IfOk result (λ fits. OnTrue fits (ranges_by self.new.ends ≡ image.insert_range (ranges_by self.old.ends)
            (image.range_of part.now))) }
        ensures bytes { IfOk result (λ fits. OnTrue fits (self.new.bytes ≡ self.old.bytes + part.now.span.len)) }
        ensures kept { IfOk result (λ fits. OnTrue fits (AscendFrom 0 (ranges_by self.new.ends))) }
        ensures err { IfErr result (λ stop. stop ≡ Stop.Memory) }
    {
        let total = self.bytes + u64::from(part.span.len);
        if !is_text_place(bytes, segments, part) {
            return Ok(false);
        }
        if total > MAX_TEXT {
            return Ok(false);
        }
        if !insert_range(&mut self.ends, range_of(part))? {
            return Ok(false);
        }
        self.bytes = total;
        Ok(true)
    }

    /// Adds the next part of a table, if there is one, or refuses it.
    fn add_next(
        &mut self,
        bytes: &[u8],
        segments: &[ProgramHeader],
        part: Option<TextPart>,
    ) -> Result<(), Stop>
        requires header { 52 ≤ length bytes.now }
        requires low { All (λ h. h.p_vaddr + h.p_filesz < 2 ^ 32) segments.now }
        requires some { ForSome part (λ p. 0 < p.span.len) }
        requires ascending { AscendFrom 0 (ranges_by self.old.ends) }
        requires few { self.old.bytes ≤ 524288 }
        ensures rules { MatchResult result
            (λ _. AllHold (next_rules bytes.now segments.now (ranges_by self.old.ends) self.old.bytes part))
            (IsStop (next_rules bytes.now segments.now (ranges_by self.old.ends) self.old.bytes part)) }
        ensures ranges { OnOk result (ranges_by self.new.ends ≡ fold image.insert_range (ranges_by self.old.ends)
            (map image.range_of (cons_option part []))) }
        ensures bytes { OnOk result (self.new.bytes ≡ self.old.bytes + sum_by (λ p. p.span.len) (cons_option part [])) }
        ensures kept { OnOk result (AscendFrom 0 (ranges_by self.new.ends)) }
    {
        let Some(part) = part else {
            return Ok(());
        };
        if !self.add(bytes, segments, &part)? {
            return Err(Stop::Refused(Refusal::BadText(part.span.from)));
        }
        Ok(())
    }
}

/// The ranges of the sections that hold code, as the end of each by its start, where each keeps the rules.
fn section_ends(
    alloc: Global,
    bytes: &[u8],
    segments: &[ProgramHeader],
) -> Result<BTreeMap<u32, u32>, Stop>
    requires header { 52 ≤ length bytes.now }
    requires table { elf.e_shoff bytes.now + 40 * elf.e_shnum bytes.now ≤ length bytes.now }
    requires low { All (λ h. h.p_vaddr + h.p_filesz < 2 ^ 32) segments.now }
    ensures rules { let parts = filter_map image.text_of_section (elf.section_headers bytes.now) in
        MatchResult result (λ _. AllHold (image.part_rules bytes.now segments.now parts)) (IsStop (image.part_rules bytes.now segments.now parts)) }
    ensures ranges { IfOk result (λ ends. ranges_by ends ≡ image.ranges_of (filter_map image.text_of_section
        (elf.section_headers bytes.now))) }
    ensures ascending { IfOk result (λ ends. AscendFrom 0 (ranges_by ends)) }
{
    let mut text = TextSoFar::new(alloc);
    for k in 0..section_header_count(bytes) {
        let part = text_of_section(&read_section_header(bytes, k));
        text.add_next(bytes, segments, part)?;
    }
    Ok(text.ends)
}

/// The ranges of the segments that hold code, as the end of each by its start, where each keeps the rules.
fn segment_ends(
    alloc: Global,
    bytes: &[u8],
    segments: &[ProgramHeader],
) -> Result<BTreeMap<u32, u32>, Stop>
    requires header { 52 ≤ length bytes.now }
    requires low { All (λ h. h.p_vaddr + h.p_filesz < 2 ^ 32) segments.now }
    ensures rules { let parts = filter_map image.text_of_segment segments.now in
        MatchResult result (λ _. AllHold (image.part_rules bytes.now segments.now parts)) (IsStop (image.part_rules bytes.now segments.now parts)) }
    ensures ranges { IfOk result (λ ends. ranges_by ends ≡ image.ranges_of (filter_map image.text_of_segment segments.now)) }
    ensures ascending { IfOk result (λ ends. AscendFrom 0 (ranges_by ends)) }
{
    let mut text = TextSoFar::new(alloc);
    for header in segments {
        text.add_next(bytes, segments, text_of_segment(header))?;
    }
    Ok(text.ends)
}

/// The ranges of the parts of the text, as the end of each by its start, where each keeps the rules.
#[tactic(auto, unfolding(scale_base::specs::Image::text_parts))]
fn part_ends(
    alloc: Global,
    bytes: &[u8],
    segments: &[ProgramHeader],
) -> Result<BTreeMap<u32, u32>, Stop>
    requires header { 52 ≤ length bytes.now }
    requires table { IsTrue (elf.has_sections bytes.now) → elf.e_shoff bytes.now + 40 * elf.e_shnum bytes.now ≤ length bytes.now }
    requires low { All (λ h. h.p_vaddr + h.p_filesz < 2 ^ 32) segments.now }
    ensures rules { let parts = image.text_parts bytes.now segments.now in
        MatchResult result (λ _. AllHold (image.part_rules bytes.now segments.now parts)) (IsStop (image.part_rules bytes.now segments.now parts)) }
    ensures ranges { IfOk result (λ ends. ranges_by ends ≡ image.ranges_of (image.text_parts bytes.now segments.now)) }
    ensures ascending { IfOk result (λ ends. AscendFrom 0 (ranges_by ends)) }
{
    if has_section_headers(bytes) {
        section_ends(alloc, bytes, segments)
    } else {
        segment_ends(alloc, bytes, segments)
    }
}

/// There is some text.
fn check_some(ranges: &[Range]) -> Result<(), Refusal>
    ensures { refusal_in result ≡ first_broken (rule (nat_lt 0 (length ranges.now)) (Refusal.BadText 0) ∷ []) }
{
    if ranges.is_empty() {
        return Err(Refusal::BadText(0));
    }
    Ok(())
}

/// The ranges of the text in ascending order, where each rule for the text is kept.
pub fn read_text(
    alloc: Global,
    bytes: &[u8],
    segments: &[ProgramHeader],
) -> Result<Vec<Range>, Stop>
    requires header { 52 ≤ length bytes.now }
    requires table { IsTrue (elf.has_sections bytes.now) → elf.e_shoff bytes.now + 40 * elf.e_shnum bytes.now ≤ length bytes.now }
    requires low { All (λ h. h.p_vaddr + h.p_filesz < 2 ^ 32) segments.now }
    ensures rules { MatchResult result
        (λ _. AllHold (image.all_text_rules bytes.now segments.now)) (IsStop (image.all_text_rules bytes.now segments.now)) }
    ensures ranges { IfOk result (λ ranges. ranges.items ≡ image.ranges_of (image.text_parts bytes.now segments.now)) }
    ensures ascending { IfOk result (λ ranges. AscendFrom 0 ranges.items) }
{
    let ends = part_ends(alloc, bytes, segments)?;
    let ranges = list_ranges(alloc, &ends)?;
    check_some(&ranges)?;
    check_not_writable(segments, &ranges)?;
    Ok(ranges)
}
