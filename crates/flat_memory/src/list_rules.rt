//! A memory of lists keeps the laws of a memory.

ghost use Rattle.std.specs.Prelude.{◌≡◌, ◌&&◌, ◌||◌, not, map, IsTrue};
ghost use Rattle.std.specs.List.{list_any};
ghost use Rattle.scale_base.specs.Layout as rules;
ghost use Rattle.flat_memory.specs.Lists.{list_bytes, list_layout};

use crate::block_list;
use crate::list_memory::ListMemory;
use crate::memory::Memory;
use crate::text_ranges::in_text;
use scale_base::{PF_R, PF_W, STACK_LEN, STACK_START};

pub fn in_stack(at: u32) -> bool
    ensures { result ≡ rules.in_stack at }
{
    at >= STACK_START && at < STACK_START + STACK_LEN
}

impl Memory for ListMemory {
    ghost bytes = { list_bytes };

    ghost layout = { list_layout };

    #[tactic(auto, unfolding(crate::specs::Lists::memory_byte))]
    fn byte(&self, at: u32) -> u8 {
        if in_stack(at) {
            self.stack[(at - STACK_START) as usize]
        } else {
            block_list::byte_in(&self.blocks, at)
        }
    }

    #[tactic(auto, using(crate::proofs::ListLaws::stack_written, crate::proofs::ListLaws::blocks_written, crate::proofs::BlockLaws::whole_again))]
    fn set_byte(&mut self, at: u32, value: u8) {
        if in_stack(at) {
            self.stack[(at - STACK_START) as usize] = value;
        } else {
            block_list::put_in(&mut self.blocks, at, value);
        }
    }

    #[tactic(auto, using(crate::proofs::BlockLaws::readable_in_parts), unfolding(scale_base::specs::Layout::may_read))]
    fn may_read(&self, at: u32) -> bool {
        in_stack(at) || block_list::allows(&self.blocks, PF_R, at) && !in_text(&self.text, at)
    }

    #[tactic(auto, using(crate::proofs::BlockLaws::writable_in_parts), unfolding(scale_base::specs::Layout::may_write))]
    fn may_write(&self, at: u32) -> bool {
        in_stack(at) || block_list::allows(&self.blocks, PF_W, at) && !in_text(&self.text, at)
    }

    #[tactic(auto, unfolding(scale_base::specs::Layout::may_fetch))]
    fn may_fetch(&self, at: u32) -> bool {
        in_text(&self.text, at)
    }

    fn is_keyed(&self, at: u32) -> bool {
        match &self.keyed {
            Some(range) => range.contains(at),
            None => false,
        }
    }
}
