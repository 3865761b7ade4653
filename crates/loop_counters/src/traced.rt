//! Values by what stood in one or two places when the header of a loop was last come to, and what sums and multiples make of them.

use wrapped_intervals::Arc;

/// So many times what stood in a place, which has a number; 0 times it where there is no place.
#[derive(Clone, Copy, PartialEq, Eq)]
pub struct Term {
    pub place: u8,
    pub times: u32,
}

const NO_TERM: Term = Term { place: 0, times: 0 };

/// A value: so many times what stood in two places, in the order of their numbers, and a number more of those from the first on, with so many
/// more, modulo 2^32.
#[derive(Clone, Copy, PartialEq, Eq)]
pub struct Value {
    pub first: Term,
    pub second: Term,
    pub low: u32,
    pub more: u32,
}

impl Value {
    /// What stood in a place.
    pub fn itself(place: u8) -> Value {
        Value {
            first: Term { place, times: 1 },
            second: NO_TERM,
            low: 0,
            more: 0,
        }
    }

    /// A number of an interval.
    pub fn of_arc(arc: Option<Arc>) -> Option<Value> {
        let arc = arc?;
        Some(Value {
            first: NO_TERM,
            second: NO_TERM,
            low: u32::try_from(arc.low()).ok()?,
            more: u32::try_from(arc.more()).ok()?,
        })
    }

    /// Whether it depends on a place.
    pub fn is_traced(&self) -> bool {
        self.first.times > 0
    }

    /// Whether both depend on the same places as often.
    pub fn has_terms_of(&self, other: &Value) -> bool {
        self.first == other.first && self.second == other.second
    }

    /// How often it has what stood in a place.
    pub fn times(&self, place: u8) -> u32 {
        if self.first.place == place {
            self.first.times
        } else if self.second.place == place {
            self.second.times
        } else {
            0
        }
    }

    /// The sum with a number.
    pub fn moved(self, by: u32) -> Value {
        Value {
            low: self.low.wrapping_add(by),
            ..self
        }
    }
}

// A term so many times.
fn scaled_term(term: Term, n: u32) -> Option<Term> {
    Some(Term {
        place: term.place,
        times: term.times.checked_mul(n)?,
    })
}

/// So many times a value, which is not 0 times.
pub fn scaled(value: Value, n: u32) -> Option<Value> {
    Some(Value {
        first: scaled_term(value.first, n)?,
        second: scaled_term(value.second, n)?,
        low: value.low.wrapping_mul(n),
        more: value.more.checked_mul(n)?,
    })
}

// Both terms of a place together.
fn joined_terms(one: Term, other: Term) -> Option<Term> {
    Some(Term {
        place: one.place,
        times: one.times.checked_add(other.times)?,
    })
}

// A value of one place at most with a term of another one.
fn with_other(value: Value, term: Term) -> Option<Value> {
    if value.first.times == 0 {
        Some(Value {
            first: term,
            ..value
        })
    } else if value.second.times > 0 {
        None
    } else if value.first.place < term.place {
        Some(Value {
            second: term,
            ..value
        })
    } else {
        Some(Value {
            first: term,
            second: value.first,
            ..value
        })
    }
}

// A value with a term more.
fn with_term(value: Value, term: Term) -> Option<Value> {
    if term.times == 0 {
        Some(value)
    } else if value.first.times > 0 && value.first.place == term.place {
        Some(Value {
            first: joined_terms(value.first, term)?,
            ..value
        })
    } else if value.second.times > 0 && value.second.place == term.place {
        Some(Value {
            second: joined_terms(value.second, term)?,
            ..value
        })
    } else {
        with_other(value, term)
    }
}

/// A sum of two values, where it has two places at most.
pub fn sum(one: Value, other: Value) -> Option<Value> {
    let value = with_term(with_term(one, other.first)?, other.second)?;
    Some(Value {
        low: one.low.wrapping_add(other.low),
        more: one.more.checked_add(other.more)?,
        ..value
    })
}

// The numbers from one on, with so many more at least, up to an end that is so far behind it.
fn up_to(value: Value, low: u32, more: u32, end: Option<u32>) -> Option<Value> {
    let end = end?;
    Some(Value {
        low,
        more: end.max(more),
        ..value
    })
}

// The one of the shorter interval.
fn shorter(p: Option<Value>, q: Option<Value>) -> Option<Value> {
    match (p, q) {
        (Some(one), Some(other)) => { if one.more <= other.more { p } else { q } }
        (None, _) => q,
        (_, None) => p,
    }
}

/// What both values say: of the same places, by an interval that holds both.
pub fn joined(p: Option<Value>, q: Option<Value>) -> Option<Value> {
    let (p, q) = (p?, q?);
    if !p.has_terms_of(&q) {
        return None;
    }
    let end = q.low.wrapping_sub(p.low).checked_add(q.more);
    let other = p.low.wrapping_sub(q.low).checked_add(p.more);
    shorter(up_to(p, p.low, p.more, end), up_to(p, q.low, q.more, other))
}
