//! The memory of an image before its first step.

ghost use Rattle.std.specs.Prelude.{◌≡◌, ◌+◌, ◌≤◌, ◌<◌, IfOk, map, filter, take, length, ℕ, find, vec_len, replicate, option_map};
ghost use Rattle.std.specs.List.{range_with_len};
ghost use Rattle.scale_base.specs.Image as image;
ghost use Rattle.scale_base.specs.Layout as rules;
ghost use Rattle.elf_image.specs.Segment.{segment_value};
ghost use Rattle.flat_memory.specs.Lists.{list_bytes, list_layout};
ghost use Rattle.flat_memory.specs.Loaded.{IsBlockOf, AreBlocksOf, offset_byte};

use crate::block::Block;
use crate::list_memory::ListMemory;
use elf_image::{ImageView, Segment};
use scale_base::{NoMemory, Range, STACK_LEN};
use std::alloc::Global;

/// Whether the byte at this place of the file is loaded as zero.
fn is_zeroed(place: usize) -> bool
    ensures { result ≡ image.is_zeroed place }
{
    place >= 28 && place < 36 || place >= 44 && place < 46 || place >= 48 && place < 50
}

/// The byte that a segment loads so many addresses from its start.
fn loaded_byte(segment: &Segment<'_>, offset: usize) -> u8
    requires { offset < segment.now.len }
    ensures { result ≡ offset_byte (segment_value segment.now) offset }
{
    if offset < segment.file.len() && !is_zeroed(segment.file_at as usize + offset) {
        segment.file[offset]
    } else {
        0
    }
}

fn load_block(alloc: Global, segment: &Segment<'_>) -> Result<Block, NoMemory>
    ensures { IfOk result (λ b. IsBlockOf (segment_value segment.now) b) }
{
    let len = segment.len as usize;
    let mut bytes = Vec::with_capacity(alloc, len)?;
    for k in 0..len {
        bytes.push(loaded_byte(segment, k))?;
    }
    Ok(Block {
        from: segment.from,
        bytes,
        flags: segment.flags,
    })
}

fn load_blocks(alloc: Global, view: &ImageView<'_>) -> Result<Vec<Block>, NoMemory>
    ensures { IfOk result (λ blocks. AreBlocksOf view.now.segments blocks.items) }
{
    let mut blocks = Vec::new(alloc);
    for k in 0..view.segment_count() {
        blocks.push(load_block(alloc, &view.segment(k))?)?;
    }
    Ok(blocks)
}

fn zeros(alloc: Global, len: usize) -> Result<Vec<u8>, NoMemory>
    ensures items { IfOk result (λ bytes. bytes.items ≡ replicate len 0) }
    ensures len { IfOk result (λ bytes. vec_len bytes ≡ len) }
{
    Ok(vec![in alloc; 0; len]?)
}

fn keyed_range(view: &ImageView<'_>) -> Option<Range>
    ensures { result ≡ option_map (λ k. k.range) view.now.keyed_segment }
{
    match view.keyed() {
        Some(keyed) => Some(keyed.range),
        None => None,
    }
}

/// The memory of an image before its first step: the file part of each segment, zeros in the rest of it, in the stack and
/// at the file's bytes of `e_phoff`, `e_shoff`, `e_phnum` and `e_shnum`.
pub fn load_list(alloc: Global, view: &ImageView<'_>) -> Result<ListMemory, NoMemory>
    ensures bytes { IfOk result (λ m. list_bytes m ≡ image.loaded_byte view.now) }
    ensures layout { IfOk result (λ m. list_layout m ≡ rules.layout_of view.now) }
{
    let blocks = load_blocks(alloc, view)?;
    let stack = zeros(alloc, STACK_LEN as usize)?;
    let text = Vec::from_slice(alloc, view.text())?;
    let keyed = keyed_range(view);
    Ok(ListMemory {
        stack,
        blocks,
        text,
        keyed,
    })
}
