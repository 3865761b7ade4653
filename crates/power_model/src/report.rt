//! What a simulated run gives.

use crate::meter::Meter;
use scale_base::{End, Kept};

/// A simulated run: how it ended, what its steps cost, what it wrote, and whether it was kept.
#[derive(Drop)]
pub struct RunReport {
    pub end: End,
    pub meter: Meter,
    /// What the cycles would have cost at the starting level, in energy units.
    pub held: u128,
    pub output: Vec<u8>,
    /// None where no loop file was given.
    pub kept: Option<Kept>,
}
