//! Between which numbers a counter is, and how far each turn moves it on.

use crate::turns::Turns;
use wrapped_intervals::Arc;

/// The least number of a counter that goes up, or the greatest of one that goes down; how far it goes from there on at most, and by how much at least
/// each turn.
#[derive(Clone, Copy)]
pub struct Limits {
    pub falls: bool,
    pub start: u32,
    pub width: u32,
    pub least: u32,
}

impl Limits {
    /// How many turns there may be.
    pub fn bound(&self) -> u32 {
        self.width.checked_div(self.least).unwrap_or(u32::MAX)
    }
}

// The limits of a counter that turns move on by so much at least and at most.
fn limits_of(falls: bool, start: u32, width: u32, least: u32, most: u32) -> Option<Limits> {
    if least == 0 || most.checked_add(width).is_none() {
        return None;
    }
    Some(Limits {
        falls,
        start,
        width,
        least,
    })
}

// From the first number of an interval up.
fn rising(low: u32, more: u32, turns: &Turns) -> Option<Limits> {
    limits_of(false, low, more, turns.least, turns.most)
}

// From the last number down.
fn falling(low: u32, more: u32, turns: &Turns) -> Option<Limits> {
    limits_of(
        true,
        low.wrapping_add(more),
        more,
        turns.most.wrapping_neg(),
        turns.least.wrapping_neg(),
    )
}

// The one of the lesser bound.
fn better(a: Option<Limits>, b: Option<Limits>) -> Option<Limits> {
    match (a, b) {
        (Some(one), Some(other)) => { if other.bound() < one.bound() { b } else { a } }
        (None, _) => b,
        (_, None) => a,
    }
}

/// The limits of a counter with this interval at the header, whichever way it goes.
pub fn limits_within(arc: Arc, turns: &Turns) -> Option<Limits> {
    let low = u32::try_from(arc.low()).ok()?;
    let more = u32::try_from(arc.more()).ok()?;
    let down = if turns.least == 0 {
        None
    } else {
        falling(low, more, turns)
    };
    better(rising(low, more, turns), down)
}
