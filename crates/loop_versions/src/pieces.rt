//! Copied code, and the words of the text that lead to it.

/// A piece of copied code. Addresses are those of the text, but `to` may be that of a piece.
#[derive(Clone, Copy, PartialEq, Eq)]
pub enum Piece {
    /// The instruction at an address, behind which the next piece follows.
    Copied {
        at: u32,
    },
    /// The branch at an address: where it is taken it goes to `to`, else the next piece follows.
    Branched {
        at: u32,
        to: u32,
    },
    /// The `jal x0` at an address.
    Jumped {
        at: u32,
        to: u32,
    },
    /// A `jal x0` in front of the instruction at an address: it leads to `to`, which stands for that instruction, too.
    Bridge {
        at: u32,
        to: u32,
    },
    /// A choice in front of the instruction at an address, between two copies of it: where `larger` less `smaller` is from 0 on and below the limit, as
    /// a signed number, the next piece follows, else `to`. It changes no register.
    Guard {
        at: u32,
        larger: u8,
        smaller: u8,
        limit: u16,
        to: u32,
    },
    /// The `jal x1` at an address: it leads to `to`, with the address behind the original call in x1. Where a copy of what it calls is
    /// inlined, that lies from `to` up to `end`; else `end` is `to`.
    Entered {
        at: u32,
        to: u32,
        end: u32,
    },
    /// The `jalr x0,0(x1)` at an address, in the copy of what an `Entered` calls: it leads to `to`, which stands for the address behind
    /// that call.
    Returned {
        at: u32,
        to: u32,
    },
}

/// An instruction of the text in whose place a `jal x0` leads to a piece that stands for it.
#[derive(Clone, Copy, PartialEq, Eq)]
pub struct Site {
    pub at: u32,
    pub to: u32,
}
