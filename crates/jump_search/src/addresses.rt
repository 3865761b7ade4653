//! The addresses that a load may read: by the interval of its register, and by those of what that is made of right before.

use fixed_tables::Table;
use wrapped_intervals::Arc;

/// A table has at most so many words.
pub const MOST_WORDS: u64 = 1024;

/// So many words there are.
const WORDS: u64 = 0x1_0000_0000;

/// Words from `low` on, up to so many more, modulo 2^32, in steps.
#[derive(Clone, Copy)]
pub struct Numbers {
    low: u32,
    more: u64,
    step: u64,
}

impl Numbers {
    /// Those of an interval.
    pub fn of(arc: Arc) -> Option<Numbers> {
        let low = (arc.low() % WORDS) as u32;
        let more = arc.more();
        if more >= WORDS {
            return None;
        }
        let step = if more == 0 { 0 } else { arc.stride() };
        Some(Numbers { low, more, step })
    }

    /// The number, where there is one.
    pub fn only(&self) -> Option<u32> {
        if self.more == 0 { Some(self.low) } else { None }
    }

    /// The sums with a number.
    pub fn moved(self, by: u32) -> Numbers {
        Numbers {
            low: self.low.wrapping_add(by),
            ..self
        }
    }

    /// The multiples by a power of two.
    pub fn shifted(self, shift: u32) -> Option<Numbers> {
        let factor = 1u64.checked_shl(shift)?;
        let more = self.more.checked_mul(factor)?;
        if more >= WORDS {
            return None;
        }
        Some(Numbers {
            low: self.low.wrapping_shl(shift),
            more,
            step: self.step.checked_mul(factor)?,
        })
    }

    /// The table of which these are the addresses.
    pub fn table(self, base: u32) -> Option<Table> {
        if self.step == 0 || self.more == 0 {
            return Some(Table {
                at: self.low,
                step: 4,
                count: 1,
                base,
            });
        }
        let more = self.more / self.step;
        if self.step % 4 != 0 || self.step > 0xFFFF || more >= MOST_WORDS {
            return None;
        }
        Some(Table {
            at: self.low,
            step: self.step as u32,
            count: more as u32 + 1,
            base,
        })
    }
}

/// The fewer of two, of which both are right.
pub fn fewer(one: Option<Numbers>, other: Option<Numbers>) -> Option<Numbers> {
    match (one, other) {
        (Some(a), Some(b)) => { if b.more < a.more { Some(b) } else { Some(a) } }
        (Some(a), None) => Some(a),
        (None, b) => b,
    }
}
