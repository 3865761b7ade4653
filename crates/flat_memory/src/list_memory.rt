//! A memory of lists of bytes.

ghost use Rattle.std.specs.Prelude.{◌≡◌, vec_len, IsTrue};
ghost use Rattle.scale_base.specs.Image.{STACK_LEN};
ghost use Rattle.flat_memory.specs.Ordered.{are_ordered, is_ordered_text};

use crate::block::Block;
use scale_base::Range;

/// A memory that keeps the stack and each segment as one list of bytes, and finds a segment or a text range by halving.
#[derive(Drop)]
pub struct ListMemory {
    pub(crate) stack: Vec<u8>,
    pub(crate) blocks: Vec<Block>,
    pub(crate) text: Vec<Range>,
    pub(crate) keyed: Option<Range>,
    ghost stack_len: { vec_len stack ≡ STACK_LEN },
    ghost ordered: { IsTrue (are_ordered blocks.items) },
    ghost ordered_text: { IsTrue (is_ordered_text text.items) },
}
