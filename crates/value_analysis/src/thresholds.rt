//! Numbers at which an interval may stop to grow: those with which branches compare a register, those beside them, and the ends of where loads and
//! stores may be.

use crate::arcs::WORDS;
use scale_base::NoMemory;
use wrapped_intervals::Arc;

/// How many thresholds a function has at most.
const MOST_THRESHOLDS: usize = 4096;

/// The longest interval whose ends are both taken.
const LONGEST: u64 = 65_536;

/// The least signed number, and the greatest one.
const LEAST: u64 = 0x8000_0000;

const GREATEST: u64 = 0x7FFF_FFFF;

/// A number with which a register is compared, and whether it was the one number of the other register then.
#[derive(Clone, Copy, PartialEq, Eq, PartialOrd, Ord, Drop)]
pub struct Threshold {
    register: u8,
    pub word: u32,
    exact: bool,
}

/// A number beyond which a register may not go: up, or else down.
#[derive(Clone, Copy)]
pub struct Limit {
    pub word: u32,
    pub is_upper: bool,
}

/// Whose thresholds are looked at: those of a register, or the one numbers that any is compared with.
#[derive(Clone, Copy)]
pub enum Whose {
    Of(u8),
    OfAny,
}

impl Threshold {
    /// Whether it is one of those.
    pub fn is_for(&self, whose: Whose) -> bool {
        match whose {
            Whose::Of(register) => self.register == register,
            Whose::OfAny => self.exact,
        }
    }
}

fn add_threshold(thresholds: &mut Vec<Threshold>, threshold: Threshold) -> Result<(), NoMemory> {
    if thresholds.len() < MOST_THRESHOLDS {
        if let Err(place) = thresholds.binary_search(&threshold) {
            thresholds.insert(place, threshold)?;
        }
    }
    Ok(())
}

// A number, and those beside it.
fn add_about(
    thresholds: &mut Vec<Threshold>,
    register: u8,
    number: u32,
    exact: bool,
) -> Result<(), NoMemory> {
    for word in [number.wrapping_sub(1), number, number.wrapping_add(1)] {
        add_threshold(
            thresholds,
            Threshold {
                register,
                word,
                exact,
            },
        )?;
    }
    Ok(())
}

// A number as a word.
fn word_of(n: u64) -> u32 {
    (n % WORDS) as u32
}

impl Limit {
    /// The same of a register that is so much more.
    pub fn raised(self, n: u32) -> Limit {
        Limit {
            word: self.word.wrapping_add(n),
            is_upper: self.is_upper,
        }
    }
}

/// Adds a number beyond which a register may not go.
pub fn add_limit(
    thresholds: &mut Vec<Threshold>,
    register: u8,
    limit: Limit,
) -> Result<(), NoMemory> {
    add_threshold(
        thresholds,
        Threshold {
            register,
            word: limit.word,
            exact: false,
        },
    )
}

/// Adds the ends of an interval with which a register is compared. A long one says something by its last number where it begins with the least signed number, and
/// by its first one where it ends with the greatest.
pub fn add_ends(
    thresholds: &mut Vec<Threshold>,
    register: u8,
    arc: Option<Arc>,
) -> Result<(), NoMemory> {
    let Some(arc) = arc else {
        return Ok(());
    };
    let exact = arc.more() == 0;
    let last = arc.low().saturating_add(arc.more());
    let short = arc.more() <= LONGEST;
    if short || last % WORDS == GREATEST {
        add_about(thresholds, register, word_of(arc.low()), exact)?;
    }
    if short || arc.low() == LEAST {
        add_about(thresholds, register, word_of(last), exact)?;
    }
    Ok(())
}
