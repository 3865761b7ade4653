//! What a step of the machine tells.

/// What an instruction costs: each class has its own number of cycles. A branch is taken or untaken.
#[derive(Clone, Copy, Debug, PartialEq, Eq)]
pub enum Class {
    Alu,
    Load,
    Store,
    Taken,
    Untaken,
    Jump,
    Mul,
    Div,
    Ecall,
    Fence,
}

/// Whether a step calls, returns, or does neither.
#[derive(Clone, Copy, PartialEq, Eq)]
pub enum Move {
    Local,
    Call,
    Return,
}

/// A completed step.
#[derive(Clone, Copy, PartialEq, Eq)]
pub struct Stepped {
    /// The address of the instruction.
    pub pc: u32,
    /// The address of the next instruction. Of a step that exits it is `pc`.
    pub next: u32,
    pub class: Class,
    pub moved: Move,
    /// Whether the instruction was fetched from the keyed segment.
    pub keyed: bool,
    /// The value stored at the speed port.
    pub port: Option<u8>,
}

/// Why an instruction did not complete.
#[derive(Clone, Copy, PartialEq, Eq)]
pub enum TrapKind {
    Breakpoint,
    IllegalWord,
    FetchFault,
    MisalignedTarget,
    LoadMisaligned,
    StoreMisaligned,
    LoadFault,
    StoreFault,
}

/// An instruction that did not complete, and the address that it is about.
#[derive(Clone, Copy, PartialEq, Eq)]
pub struct Trap {
    pub kind: TrapKind,
    pub at: u32,
}

/// How a step ended: it went on, or the program exited with a status, or the instruction trapped.
#[derive(Clone, Copy, PartialEq, Eq)]
pub enum StepEnd {
    Went(Stepped),
    Exited(Stepped, u8),
    Trapped(Trap),
}
