//! What a word says of the way on from its address.

/// The kind of control flow at an address. The numbers are the addresses of targets.
#[derive(Clone, Copy, Debug, PartialEq, Eq)]
pub enum Flow {
    /// A conditional branch to a target, or on to the next word.
    Branch(u32),
    /// A jump that links no register: `jal x0`.
    Jump(u32),
    /// A call of the function that begins at the target: `jal x1`.
    Call(u32),
    /// A return: `jalr x0, 0(x1)`.
    Return,
    /// A system call that ends the program.
    Exit,
    /// A system call whose number isn't known: it may end the program, or go on to the next word.
    MayExit,
    /// A breakpoint, at which the run stops.
    Breakpoint,
    /// Any other instruction: on to the next word.
    Next,
    /// A word that reached code must not have.
    Refused,
}
