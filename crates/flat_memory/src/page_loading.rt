//! The memory of pages of an image before its first step.

ghost use Rattle.std.specs.Prelude.{◌≡◌, ◌↔◌, true, ◌&&◌, ◌||◌, nat_lt, nat_le, ◌+◌, ◌*◌, ◌≤◌, ◌<◌, ◌^◌, ℕ, IfOk, vec_len, slice_index_or, Option};
ghost use Rattle.scale_base.specs.Image as image;
ghost use Rattle.scale_base.specs.Layout as rules;
ghost use Rattle.std.specs.List.{list_any};
ghost use Rattle.flat_memory.specs.Blocks.{holds};
ghost use Rattle.flat_memory.specs.Lists.{list_layout};
ghost use Rattle.flat_memory.specs.Pages.{UseHolds};
ghost use Rattle.flat_memory.specs.Paged.{page_bytes, page_layout};
ghost use Rattle.flat_memory.specs.Wholes.{IsPageOf, MayBePageOf, MayBeGroupOf};
ghost use Rattle.flat_memory.specs.declared.page_table.PageGroup.{PageGroup};

use crate::block::Block;
use crate::block_list::block_use;
use crate::list_memory::ListMemory;
use crate::list_rules::in_stack;
use crate::loading::load_list;
use crate::memory::Memory;
use crate::page::{Page, PageUse};
use crate::page_memory::PageMemory;
use crate::page_table::{PageGroup, PageTable};
use crate::text_ranges::text_whole;
use elf_image::ImageView;
use scale_base::{NoMemory, STACK_LEN, STACK_START};
use std::alloc::Global;

/// Whether the block has an address from one to another.
fn touches(block: &Block, from: u32, last: u32) -> bool
    requires { from ≤ last }
    ensures { (result ≡ true) ↔ ((a : ℕ) × (from ≤ a) × (a ≤ last) × (holds a block.now ≡ true)) }
{
    let begins = from <= block.from && !block.is_empty();
    block.from <= last && (begins || block.holds(from))
}

/// Whether the stack or a block has an address from one to another.
fn is_used(list: &ListMemory, from: u32, last: u32) -> bool
    requires { from ≤ last }
    ensures { (result ≡ true) ↔ ((a : ℕ) × (from ≤ a) × (a ≤ last) × ((rules.in_stack a || list_any (holds a) list.now.blocks.items) ≡
        true)) }
{
    for block in &list.blocks {
        if touches(block, from, last) {
            return true;
        }
    }
    !is_off_stack(from, last)
}

/// Whether the addresses from one to another are the stack's.
fn is_within_stack(from: u32, last: u32) -> bool
    ensures { result ≡ (rules.in_stack from && rules.in_stack last) }
{
    in_stack(from) && in_stack(last)
}

/// Whether none of the addresses from one to another is the stack's.
fn is_off_stack(from: u32, last: u32) -> bool
    ensures { result ≡ (nat_lt last image.STACK_START || nat_le (image.STACK_START + image.STACK_LEN) from) }
{
    last < STACK_START || from >= STACK_START + STACK_LEN
}

/// Who may use each of the 4,096 addresses from one on.
fn whole_use(list: &ListMemory, from: u32) -> PageUse
    requires { from + 4096 ≤ 2 ^ 32 }
    ensures { (k : ℕ) → k < 4096 → UseHolds (list_layout list.now) (from + k) result }
{
    let last = from + 4095;
    let text = text_whole(&list.text, from, last);
    if is_within_stack(from, last) {
        return match text {
            Some(false) => PageUse::Writable,
            _ => PageUse::Mixed,
        };
    }
    if !is_off_stack(from, last) {
        return PageUse::Mixed;
    }
    match text {
        Some(true) => PageUse::Text,
        Some(false) => block_use(&list.blocks, from, last),
        None => PageUse::Mixed,
    }
}

fn load_page(alloc: Global, list: &ListMemory, number: u32) -> Result<Page, NoMemory>
    requires { number < 2 ^ 20 }
    ensures { IfOk result (λ p. IsPageOf list.now number p) }
{
    let from = number * 4096;
    let whole = whole_use(list, from);
    let mut bytes = Vec::with_capacity(alloc, 4096)?;
    for k in 0..4096 {
        bytes.push(list.byte(from + k))?;
    }
    Ok(Page { bytes, whole })
}

/// The page of a number, if an address of it is used.
fn load_used_page(alloc: Global, list: &ListMemory, number: u32) -> Result<Option<Page>, NoMemory>
    requires { number < 2 ^ 20 }
    ensures { IfOk result (λ o. MayBePageOf list.now number o) }
{
    let from = number * 4096;
    if !is_used(list, from, from + 4095) {
        return Ok(None);
    }
    Ok(Some(load_page(alloc, list, number)?))
}

/// The group of a number, if an address of it is used.
fn load_group(alloc: Global, list: &ListMemory, number: u32) -> Result<Option<PageGroup>, NoMemory>
    requires { number < 1024 }
    ensures { IfOk result (λ o. MayBeGroupOf list.now number o) }
{
    let from = number * 0x40_0000;
    if !is_used(list, from, from + 0x3F_FFFF) {
        return Ok(None);
    }
    let mut pages = Vec::with_capacity(alloc, 1024)?;
    for k in 0..1024 {
        pages.push(load_used_page(alloc, list, number * 1024 + k)?)?;
    }
    Ok(Some(PageGroup { pages }))
}

fn load_table(alloc: Global, list: &ListMemory) -> Result<PageTable, NoMemory>
    ensures { IfOk result (λ t. (m : ℕ) (o : Option PageGroup) → m < 1024 → o ≡ slice_index_or t.groups.items m o →
        MayBeGroupOf list.now m o) }
{
    let mut groups = Vec::with_capacity(alloc, 1024)?;
    for k in 0..1024 {
        groups.push(load_group(alloc, list, k)?)?;
    }
    Ok(PageTable { groups })
}

/// The memory of an image before its first step, by pages. Pages are made where a segment or the stack has an address, but no
/// clause says which: the lists of the image answer for an address without a page, so that costs time alone.
pub fn load_pages(alloc: Global, view: &ImageView<'_>) -> Result<PageMemory, NoMemory>
    ensures bytes { IfOk result (λ m. page_bytes m ≡ image.loaded_byte view.now) }
    ensures layout { IfOk result (λ m. page_layout m ≡ rules.layout_of view.now) }
{
    let ranges = load_list(alloc, view)?;
    let pages = load_table(alloc, &ranges)?;
    Ok(PageMemory { pages, ranges })
}
