//! Addresses that each image and the machine share, and the flags of segments. The definitions of an image and of its
//! layout state the same numbers.

use crate::ranges::Span;

/// The flag of a segment that may be executed (System V ABI, "Program Header", `p_flags`).
pub const PF_X: u32 = 1;

/// The flag of a segment that may be written (System V ABI, "Program Header", `p_flags`).
pub const PF_W: u32 = 2;

/// The flag of a segment that may be read (System V ABI, "Program Header", `p_flags`).
pub const PF_R: u32 = 4;

/// The flag of the keyed segment, a bit of `PF_MASKOS`.
pub const KEY_FLAG: u32 = 0x0010_0000;

/// All the flags of the keyed segment: the key, `PF_R` and `PF_X`.
pub const KEYED_FLAGS: u32 = 0x0010_0005;

/// The first address of the stack.
pub const STACK_START: u32 = 0x7FFC_0000;

/// The stack's number of bytes.
pub const STACK_LEN: u32 = 0x4_0000;

/// The addresses of the stack.
pub const STACK: Span = Span {
    from: STACK_START,
    len: STACK_LEN,
};

/// The stack pointer (x2) at the start of a run.
pub const STACK_POINTER: u32 = 0x7FFF_FFF0;

/// The first address that no segment without the key may have.
pub const PLAIN_END: u32 = 0xFF00_0000;

/// The first address of the window, which has the shadow words and the speed port.
pub const WINDOW_START: u32 = 0xFFFF_F800;

/// The window's number of bytes.
pub const WINDOW_LEN: u32 = 0x800;

/// The addresses of the window.
pub const WINDOW: Span = Span {
    from: WINDOW_START,
    len: WINDOW_LEN,
};

/// The window's number of words.
pub const WINDOW_WORDS: usize = 512;

/// The number of the window's word that is the speed port, its last.
pub const PORT: usize = 511;
