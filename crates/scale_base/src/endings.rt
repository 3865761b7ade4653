//! How runs end, and whether they were kept.

use crate::stepping::Trap;

/// How a simulated run ended.
#[derive(Clone, Copy, PartialEq, Eq)]
pub enum End {
    /// The program exited with this status.
    Exited(u8),
    /// An instruction trapped.
    Trapped(Trap),
    /// As many instructions as may be were completed, and none of them exited.
    OutOfSteps,
}

/// Whether a run kept the bounds of its loops and its return addresses; or what it broke first.
#[derive(Clone, Copy, PartialEq, Eq)]
pub enum Kept {
    Kept,
    /// A loop took more back edges than its bound since it was last entered, or it was left before it had taken as many as its
    /// least number: the loop by its number, from 1, and how many it has taken.
    BrokeBound { loop_no: u32, count: u32 },
    /// A return didn't go back to the last return address: where the return stands, and where it went.
    BrokeReturn { at: u32, to: u32 },
    /// There were more than 131,072 return addresses: where the call stands.
    BrokeDepth { at: u32 },
}
