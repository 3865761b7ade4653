//! The words of the text that are not the original's.

ghost use Rattle.std.specs.Prelude.{◌≡◌, ◌↔◌, ℕ, length, slice_get, Some};
ghost use Rattle.code_text.specs.Walk.{RiseStrictly};
ghost use Rattle.cost_theory.specs.Lists.{is_among};
ghost use Rattle.scale_base.specs.Image.{loaded_byte};
ghost use Rattle.scale_base.specs.Reading.{instr_of};
ghost use Rattle.scale_base.specs.State.{word_at};
ghost use Rattle.foreign_scan.specs.Least as least;
ghost use Rattle.foreign_scan.specs.Least.{IsLeastBadOf, IsFromUpTo, IsInRanges, goto_target, is_patchable, is_patch_at, is_bad_word};
ghost use Rattle.foreign_scan.specs.Scanned as scanned;

use crate::bytes::{is_keyed, word};
use crate::parts;
use code_text::moved;
use elf_image::ImageView;
use rv_decode::decode;
use scale_base::{Instr, Range, lesser};

/// Whether the word at an address isn't the original's.
pub fn is_changed(original: &ImageView<'_>, foreign: &ImageView<'_>, at: u32) -> bool
    ensures { result ≡ scanned.is_changed original.now foreign.now at }
{
    word(foreign, at) != word(original, at)
}

/// The instruction at an address.
pub fn instr_at(view: &ImageView<'_>, at: u32) -> Option<Instr>
    ensures { result ≡ instr_of (word_at (loaded_byte view.now) at) }
{
    decode(word(view, at))
}

/// The address to which the jump at an address goes that links no register.
pub fn jump_target(view: &ImageView<'_>, at: u32) -> Option<u32>
    ensures { result ≡ goto_target (instr_of (word_at (loaded_byte view.now) at)) at }
{
    match parts::goto_offset(instr_at(view, at)) {
        Some(offset) => Some(moved(at, offset)),
        None => None,
    }
}

/// Whether it is a branch, or a jump that links no register.
fn can_be_patched(instr: Option<Instr>) -> bool
    ensures { result ≡ is_patchable instr }
{
    match instr {
        Some(Instr::Branch { .. }) => true,
        Some(Instr::Jal { rd, .. }) => rd == 0,
        _ => false,
    }
}

/// Whether an address is a multiple of 4 in the keyed segment.
fn is_key_place(view: &ImageView<'_>, place: Option<u32>) -> bool
    ensures { result ≡ least.is_key_place view.now place }
{
    match place {
        Some(to) => to % 4 == 0 && is_keyed(view, to),
        None => false,
    }
}

/// Whether the word at an address is a jump that links no register, to a multiple of 4 in the keyed segment.
fn leads_to_key(view: &ImageView<'_>, at: u32) -> bool
    ensures { result ≡ least.leads_to_key view.now at }
{
    is_key_place(view, jump_target(view, at))
}

/// The number of the node at an address, by halving.
fn find_node(nodes: &[u32], at: u32) -> Option<usize>
    requires { RiseStrictly nodes.now }
    ensures { (k : ℕ) → (result ≡ Some k) ↔ (slice_get nodes.now k ≡ Some at) }
{
    nodes.binary_search(&at).ok()
}

/// Whether an address is one of a node.
fn is_node(nodes: &[u32], at: u32) -> bool
    requires { RiseStrictly nodes.now }
    ensures { result ≡ is_among at nodes.now }
{
    find_node(nodes, at).is_some()
}

/// Whether the word at an address may take the place of the original's.
fn is_patch(original: &ImageView<'_>, foreign: &ImageView<'_>, nodes: &[u32], at: u32) -> bool
    requires { RiseStrictly nodes.now }
    ensures { result ≡ is_patch_at original.now foreign.now nodes.now at }
{
    is_node(nodes, at) && can_be_patched(instr_at(original, at)) && leads_to_key(foreign, at)
}

/// Whether it is a word of the text that isn't the original's and may not take its place.
fn is_bad_patch(original: &ImageView<'_>, foreign: &ImageView<'_>, nodes: &[u32], at: u32) -> bool
    requires { RiseStrictly nodes.now }
    ensures { result ≡ is_bad_word original.now foreign.now nodes.now at }
{
    original.is_text_word(at)
        && is_changed(original, foreign, at)
        && !is_patch(original, foreign, nodes, at)
}

/// The least address of such a word in a range.
fn bad_patch_in(
    original: &ImageView<'_>,
    foreign: &ImageView<'_>,
    nodes: &[u32],
    range: Range,
) -> Option<u32>
    requires { RiseStrictly nodes.now }
    ensures { IsLeastBadOf (is_bad_word original.now foreign.now nodes.now) (IsFromUpTo range.from range.to) result }
{
    for at in range.from..range.to {
        if is_bad_patch(original, foreign, nodes, at) {
            return Some(at);
        }
    }
    None
}

/// The least address of such a word in these ranges.
fn bad_patch_among(
    original: &ImageView<'_>,
    foreign: &ImageView<'_>,
    nodes: &[u32],
    ranges: &[Range],
) -> Option<u32>
    requires { RiseStrictly nodes.now }
    ensures { IsLeastBadOf (is_bad_word original.now foreign.now nodes.now) (IsInRanges ranges.now (length ranges.now)) result }
{
    let mut least = None;
    for range in ranges {
        least = lesser(least, bad_patch_in(original, foreign, nodes, *range));
    }
    least
}

/// The least address of such a word in the text.
pub fn bad_patch(original: &ImageView<'_>, foreign: &ImageView<'_>, nodes: &[u32]) -> Option<u32>
    requires { RiseStrictly nodes.now }
    ensures { IsLeastBadOf (is_bad_word original.now foreign.now nodes.now) (IsInRanges original.now.text (length original.now.text))
        result }
{
    bad_patch_among(original, foreign, nodes, original.text())
}
