//! Why a call has no answer.

ghost use Rattle.std.specs.Prelude.{◌≡◌};
ghost use Rattle.scale_base.specs.declared.refusal.Stop.TheVariants.{Memory, Refused};

use crate::names::{Cycle, Name};
use std::alloc::{AllocError, AllocFailed};

/// The fields of an ELF header that are tested, in the order of the tests (System V ABI, chapter 4, `Elf32_Ehdr`).
#[derive(Clone, Copy, PartialEq, Eq)]
pub enum Field {
    Class,
    Encoding,
    Version,
    Kind,
    Machine,
    Flags,
    PhEntSize,
    PhNum,
    ShEntSize,
}

/// Memory ran out.
#[derive(Clone, Copy, Debug, PartialEq, Eq)]
pub struct NoMemory;

/// Why a call stopped.
#[derive(Drop)]
pub enum Stop {
    Refused(Refusal),
    Memory,
}

/// The first thing that is wrong with the files of a command.
#[derive(Drop)]
pub enum Refusal {
    /// The first four bytes aren't those of an ELF file.
    NotElf,
    /// A field of the header has a value that isn't supported.
    UnsupportedElf(Field),
    /// The header, a table or the file part of a segment passes the end of the file.
    TruncatedElf,
    /// There is an entry for a dynamic section or for an interpreter.
    DynamicImage,
    /// A rule for segments is broken: the least entry up to which one is.
    BadSegment(u32),
    /// A rule for text is broken: the start of the first bad range, or 0 where there is no text.
    BadText(u32),
    /// The segment of a text range may be written: the start of the least such range.
    WritableText(u32),
    /// The image has a keyed segment.
    AlreadyScaled,
    /// The starting level of a keyed segment isn't below the number of levels: the level, and that number.
    StartLevel(u32, u32),
    /// The machine file isn't a TOML document.
    MachineText,
    /// A key of the machine file is missing or unknown.
    MachineKey(Name),
    /// A value of the machine file has another type or range.
    MachineValue(Name),
    /// The first level, from 1, whose period isn't below or whose energy isn't above that of the one before.
    LevelOrder(u32),
    /// The loop file isn't a TOML document.
    LoopText,
    /// A key of the loop file is missing or unknown: the loop, 0 for the file itself, and the key.
    LoopKey(u32, Name),
    /// A value of the loop file has another form or range: the loop, 0 for the file itself, and the key.
    LoopValue(u32, Name),
    /// An address of a loop names a symbol that the image doesn't have: the loop.
    UnknownSymbol(u32),
    /// There are more than 4,096 loops: how many.
    TooManyLoops(u32),
    /// A reached word stands for no instruction.
    IllegalWord(u32),
    /// A reached address is in no text range.
    OutsideText(u32),
    /// A reached address is no multiple of 4.
    MisalignedTarget(u32),
    /// A reached JAL links another register than x0 and x1.
    OddLink(u32),
    /// A reached JALR isn't `jalr x0,0(x1)`.
    IndirectJump(u32),
    /// The least address that is reached in two functions.
    SharedCode(u32),
    /// Calls form a cycle: the entries of its functions.
    Recursion(Cycle),
    /// The header of a loop isn't reached: the loop.
    HeaderNotReached(u32),
    /// Two loops have one header: the first of them, and the next.
    SameHeader(u32, u32),
    /// No edge leads from the body of a loop to its header: the loop.
    NoBackEdge(u32),
    /// An edge leads into the body of a loop from outside, past its header: the loop, and where the edge starts and leads
    /// to. Both are the entry of a function where that is a node of the body and not the header.
    SideEntry(u32, u32, u32),
    /// The bodies of two loops share a node, and neither holds the other: the two loops.
    CrossingLoops(u32, u32),
    /// The header of a loop is in the bodies of more than 16: the loop.
    TooDeep(u32),
    /// Edges within a function form a cycle that no loop bounds: its addresses.
    UnboundedCycle(Cycle),
    /// The worst cycles are over 2^48.
    TooLong,
    /// The time units that the worst case needs at the fastest level, and those of the deadline.
    DeadlineMissed(u128, u64),
    /// A counted loop has a back edge that can't be counted: the loop, and where the edge starts.
    Uncountable(u32, u32),
    /// There are more than 509 counted loops: how many.
    TooManyCounters(u32),
    /// A jump to or from a stub is too far: the address of its instruction.
    StubOutOfReach(u32),
    /// A loaded file is longer than its limit.
    TooLarge(Name),
    /// The jump file isn't a TOML document.
    JumpText,
    /// A key of the jump file is missing or unknown: the jump, 0 for the file itself, and the key.
    JumpKey(u32, Name),
    /// A value of the jump file has another form: the jump, 0 for the file itself, and the key.
    JumpValue(u32, Name),
    /// A listed jump can't be lowered: the least address of one.
    BadJump(u32),
    /// The lowered file would be no image: the number of the refusal.
    NoRoom(u32),
    /// A jump to or from a listed jump's tree is too far: the address of the listed jump.
    LowerOutOfReach(u32),
}

impl From<Refusal> for Stop {
    ghost from_gives = { λ refusal stop. stop ≡ Refused refusal };

    fn from(refusal: Refusal) -> Stop {
        Stop::Refused(refusal)
    }
}

impl From<AllocError> for Stop {
    ghost from_gives = { λ _ stop. stop ≡ Memory };

    fn from(_error: AllocError) -> Stop {
        Stop::Memory
    }
}

impl<T: Drop> From<AllocFailed<T>> for Stop {
    ghost from_gives = { λ _ stop. stop ≡ Memory };

    fn from(_error: AllocFailed<T>) -> Stop {
        Stop::Memory
    }
}

impl From<NoMemory> for Stop {
    ghost from_gives = { λ _ stop. stop ≡ Memory };

    fn from(_error: NoMemory) -> Stop {
        Stop::Memory
    }
}

impl From<AllocError> for NoMemory {
    fn from(_error: AllocError) -> NoMemory {
        NoMemory
    }
}

impl<T: Drop> From<AllocFailed<T>> for NoMemory {
    fn from(_error: AllocFailed<T>) -> NoMemory {
        NoMemory
    }
}
