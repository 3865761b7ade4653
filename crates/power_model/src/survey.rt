//! What a survey over a list of inputs gives.

use crate::meter::Meter;
use scale_base::{End, Kept};

/// The runs of both images on one input, each up to its end or the machine file's most steps.
#[derive(Drop)]
pub struct SurveyLine {
    /// How the original's run ended, whether it was kept, and what its steps cost.
    pub end: End,
    pub kept: Kept,
    pub meter: Meter,
    /// How the other image's run ended, and what its steps cost.
    pub scaled_end: End,
    pub scaled_meter: Meter,
    /// What the other run's cycles would have cost at its starting level, in energy units.
    pub held: u128,
    /// Whether the outputs and the endings are equal.
    pub same: bool,
}

/// What the lines of a survey come to. Energy, held energy and switches are those of the scaled runs.
#[derive(Clone, Copy, PartialEq, Eq)]
pub struct Totals {
    pub inputs: u32,
    /// The lines whose original run was kept.
    pub kept: u32,
    /// The lines whose scaled run took more time than the deadline.
    pub late: u32,
    /// The lines whose outputs or endings differ.
    pub differ: u32,
    pub cycles: u128,
    pub scaled_cycles: u128,
    pub energy: u128,
    pub held: u128,
    pub switches: u128,
}

/// A survey: a line for each input, for each loop the most back edges that an entry of it took, and the totals.
#[derive(Drop)]
pub struct SurveyReport {
    pub lines: Vec<SurveyLine>,
    pub most: Vec<u32>,
    pub totals: Totals,
}
