//! Blocks in ascending order, of which at most one has an address.

ghost use Rattle.std.specs.Prelude.{◌≡◌, ℕ, ◌≤◌, ◌<◌, length, map, IsTrue, IfSome, IfNone, false};
ghost use Rattle.std.specs.List.{list_any};
ghost use Rattle.scale_base.specs.State.{with_byte};
ghost use Rattle.flat_memory.specs.Blocks.{span_of, holds, parts_of, may_be_used};
ghost use Rattle.flat_memory.specs.Blocks as words;
ghost use Rattle.flat_memory.specs.Ordered.{are_ordered, IsPlaceOf, HasBlock};
ghost use Rattle.flat_memory.specs.Wholes.{BlocksAllow};

use crate::block::Block;
use crate::page::PageUse;
use scale_base::{PF_R, PF_W};

/// How many of the blocks begin at or below an address.
fn place_of(blocks: &[Block], at: u32) -> usize
    requires { IsTrue (are_ordered blocks.now) }
    ensures { IsPlaceOf blocks.now at result }
{
    blocks.partition_point(|block| block.from <= at)
}

/// The number of the block that has the address. An empty block may begin within another one.
fn find_block(blocks: &[Block], at: u32) -> Option<usize>
    requires { IsTrue (are_ordered blocks.now) }
    ensures found { IfSome result (λ k. HasBlock blocks.now at k) }
    ensures none { IfNone result (list_any (holds at) blocks.now ≡ false) }
{
    let mut k = place_of(blocks, at);
    while k > 0 {
        k -= 1;
        if blocks[k].holds(at) {
            return Some(k);
        }
        if !blocks[k].is_empty() {
            return None;
        }
    }
    None
}

/// The byte at the address, or 0 where no block has it.
pub fn byte_in(blocks: &[Block], at: u32) -> u8
    requires { IsTrue (are_ordered blocks.now) }
    ensures { result ≡ words.byte_in_blocks blocks.now at }
{
    match find_block(blocks, at) {
        Some(k) => blocks[k].byte(at),
        None => 0,
    }
}

/// Writes the byte at an address that a block has.
pub fn put_in(blocks: &mut [Block], at: u32, value: u8)
    requires ordered { IsTrue (are_ordered blocks.old) }
    requires held { IsTrue (list_any (holds at) blocks.old) }
    ensures bytes { words.byte_in_blocks blocks.new ≡ with_byte (words.byte_in_blocks blocks.old) at value }
    ensures parts { parts_of blocks.new ≡ parts_of blocks.old }
    ensures spans { map span_of blocks.new ≡ map span_of blocks.old }
{
    if let Some(k) = find_block(blocks, at) {
        blocks[k].set_byte(at, value);
    }
}

/// Whether a segment without the key has the address and the flag.
pub fn allows(blocks: &[Block], flag: u32, at: u32) -> bool
    requires { IsTrue (are_ordered blocks.now) }
    ensures { result ≡ list_any (may_be_used flag at) blocks.now }
{
    match find_block(blocks, at) {
        Some(k) => blocks[k].allows(flag),
        None => false,
    }
}

/// The number of the block that has each address from one to another.
fn block_over(blocks: &[Block], from: u32, last: u32) -> Option<usize>
    requires { IsTrue (are_ordered blocks.now) }
    ensures inside { IfSome result (λ k. k < length blocks.now) }
    ensures has { IfSome result (λ k. (at : ℕ) → from ≤ at → at ≤ last → HasBlock blocks.now at k) }
{
    match find_block(blocks, from) {
        Some(k) if blocks[k].holds(last) => Some(k),
        _ => None,
    }
}

/// Who may use each address from one to another, as far as the blocks decide.
pub fn block_use(blocks: &[Block], from: u32, last: u32) -> PageUse
    requires { IsTrue (are_ordered blocks.now) }
    ensures { (at : ℕ) → from ≤ at → at ≤ last → BlocksAllow blocks.now at result }
{
    let Some(k) = block_over(blocks, from, last) else {
        return PageUse::Mixed;
    };
    if !blocks[k].allows(PF_R) {
        PageUse::Mixed
    } else if blocks[k].allows(PF_W) {
        PageUse::Writable
    } else {
        PageUse::Readable
    }
}
