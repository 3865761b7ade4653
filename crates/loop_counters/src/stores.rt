//! What instructions and calls do to words of the stack.

ghost use Rattle.std.specs.Prelude.{◌≡◌, true};
ghost use Rattle.wrapped_intervals.specs.Small.{IsKept, IsKeptOr};

use crate::scope::{Callee, Scope};
use scale_base::{Instr, LoadOp, StoreOp};
use stack_tables::{Name, word_number};
use wrapped_intervals::{Arc, covers, sum_with};

/// How many words there are.
const WORDS: u64 = 4_294_967_296;

/// The number of the service that stores what is read.
const READ: u32 = 63;

/// So many bytes it stores at most.
const MOST_READ: u32 = 256;

// The numbers from `low` on, with so many more, modulo 2^32.
#[derive(Clone, Copy)]
struct Stretch {
    low: u32,
    more: u32,
}

impl Stretch {
    // The numbers of an interval, and those between them.
    fn of(arc: Option<Arc>) -> Option<Stretch> {
        let arc = arc?;
        Some(Stretch {
            low: u32::try_from(arc.low()).ok()?,
            more: u32::try_from(arc.more()).ok()?,
        })
    }

    fn one(low: u32) -> Stretch {
        Stretch { low, more: 0 }
    }

    // The numbers that are greater by so much.
    fn moved(self, by: u32) -> Stretch {
        Stretch {
            low: self.low.wrapping_add(by),
            more: self.more,
        }
    }

    // Whether a number isn't one of them.
    fn has_not(self, n: u32) -> bool {
        self.more < n.wrapping_sub(self.low)
    }

    // The greatest of them, where they don't wrap.
    fn top(self) -> u32 {
        self.low.saturating_add(self.more)
    }

    // Whether they don't wrap, and none is below a number.
    fn is_from(self, n: u32) -> bool {
        n <= self.low && self.low.checked_add(self.more).is_some()
    }

    // Whether none of so many bytes from each of them on is one of the four from one of the others on.
    fn is_apart(self, width: u32, words: Stretch) -> bool {
        let distance = u64::from(words.low.wrapping_sub(self.low));
        let more = u64::from(self.more);
        more < distance
            && u64::from(width) + more <= distance
            && distance + u64::from(words.more) + 4 <= WORDS
    }
}

// The same where it is known what both are.
fn are_apart(bytes: Option<Stretch>, width: u32, words: Option<Stretch>) -> bool {
    match (bytes, words) {
        (Some(bytes), Some(words)) => bytes.is_apart(width, words),
        _ => false,
    }
}

// How far below what x2 had when the function began a word is.
fn depth_of(number: u32) -> u32 {
    number.saturating_add(1).saturating_mul(4)
}

/// A word that is stored, by its number, and the register from which it is.
#[derive(Clone, Copy)]
pub struct Stored {
    pub number: u32,
    pub register: u8,
}

// How far above what x2 had when the function began a register points, by its name.
fn above_begin(name: Option<Name>) -> Option<u32> {
    match name {
        Some(Name::OfBegin(2, more)) => Some(more),
        _ => None,
    }
}

// And the address of a store.
fn stored_at(scope: &Scope<'_>, k: usize) -> Option<u32> {
    match scope.instr(k) {
        Instr::Store { rs1, offset, .. } => {
            let above = above_begin(scope.name(k, rs1))?;
            Some(above.wrapping_add(offset.cast_unsigned()))
        }
        _ => None,
    }
}

/// The word of the stack that the instruction of a node stores, where the name of a register says which.
pub fn stored_word(scope: &Scope<'_>, k: usize) -> Option<Stored> {
    match scope.instr(k) {
        Instr::Store {
            op: StoreOp::Sw,
            rs2,
            ..
        } => Some(Stored {
            number: word_number(stored_at(scope, k)?)?,
            register: rs2,
        }),
        _ => None,
    }
}

// What an instruction may store to: the addresses, how far they are above what x2 had when the function began, and that number itself where a name
// says it; and how many bytes it stores at most.
#[derive(Clone, Copy)]
struct Storing {
    at: Option<Stretch>,
    above: Option<Stretch>,
    offset: Option<u32>,
    width: u32,
}

fn width_of(op: StoreOp) -> u32 {
    match op {
        StoreOp::Sb => 1,
        StoreOp::Sh => 2,
        StoreOp::Sw => 4,
    }
}

// Numbers that are greater by so much.
fn moved(numbers: Option<Stretch>, by: u32) -> Option<Stretch> {
    match numbers {
        Some(numbers) => Some(numbers.moved(by)),
        None => None,
    }
}

// What a store stores to.
fn plain_storing(scope: &Scope<'_>, k: usize, op: StoreOp, rs1: u8, offset: i32) -> Storing {
    let by = offset.cast_unsigned();
    Storing {
        at: moved(Stretch::of(scope.arc(k, rs1)), by),
        above: moved(Stretch::of(scope.span(k, rs1)), by),
        offset: stored_at(scope, k),
        width: width_of(op),
    }
}

// What a service stores to.
fn read_storing(scope: &Scope<'_>, k: usize) -> Storing {
    let at = Stretch::of(scope.arc(k, 11));
    let above = if at.is_some() {
        Stretch::of(scope.span(k, 11))
    } else {
        None
    };
    let most = match Stretch::of(scope.arc(k, 12)) {
        Some(count) => count.top(),
        None => MOST_READ,
    };
    Storing {
        at,
        above,
        offset: None,
        width: most.min(MOST_READ),
    }
}

// Whether a node's service isn't the one that stores.
fn reads_nothing(scope: &Scope<'_>, k: usize) -> bool {
    match Stretch::of(scope.arc(k, 17)) {
        Some(numbers) => numbers.has_not(READ),
        None => false,
    }
}

// What the instruction of a node stores to. None where it stores nothing.
fn storing_of(scope: &Scope<'_>, k: usize) -> Option<Storing> {
    match scope.instr(k) {
        Instr::Store {
            op,
            rs1,
            offset,
            ..
        } => Some(plain_storing(scope, k, op, rs1, offset)),
        Instr::Ecall if !reads_nothing(scope, k) => Some(read_storing(scope, k)),
        _ => None,
    }
}

/// Whether the instruction of a node stores nothing to a word of the stack: by the intervals, by the name of the register that has the address, by how
/// far above what x2 had when the function began it points, or since that is taken so.
pub fn is_missed(scope: &Scope<'_>, k: usize, number: u32) -> bool {
    let Some(storing) = storing_of(scope, k) else {
        return true;
    };
    let word = depth_of(number).wrapping_neg();
    let width = storing.width;
    let named = match storing.offset {
        Some(above) => Some(Stretch::one(above)),
        None => None,
    };
    let one = Some(Stretch::one(word));
    let words = moved(Stretch::of(scope.begins(k)), word);
    are_apart(named, width, one)
        || are_apart(storing.above, width, one)
        || are_apart(storing.at, width, words)
        || (scope.is_doubtful(k) && scope.is_kept(k, number))
}

// Whether an interval is short enough to be kept.
fn is_short(arc: Arc) -> bool
    ensures { result ≡ true → IsKept arc }
{
    arc.low() < WORDS && arc.more() < WORDS && arc.stride() < WORDS
}

// An interval, if it is short enough.
fn kept(arc: Option<Arc>) -> Option<Arc>
    ensures { IsKeptOr result }
{
    match arc {
        Some(arc) => { if is_short(arc) { Some(arc) } else { None } }
        None => None,
    }
}

// Whether a word of the function of a node is where words of functions that wait may be.
fn is_placed(scope: &Scope<'_>, k: usize, number: u32) -> bool {
    let word = depth_of(number).wrapping_neg();
    let words = sum_with(kept(scope.begins(k)), u64::from(word));
    covers(kept(scope.place()), words)
}

// Whether x2 is at a node not above what it had when the function began, and not above a word.
fn is_held(scope: &Scope<'_>, k: usize, number: u32) -> bool {
    let (Some(above), Some(begins)) = (above_begin(scope.name(k, 2)), Stretch::of(scope.begins(k)))
    else {
        return false;
    };
    let depth = above.wrapping_neg();
    depth_of(number) <= depth && begins.is_from(depth)
}

/// Whether a call at a node keeps a word of the stack.
pub fn is_safe(scope: &Scope<'_>, k: usize, callee: Callee, number: u32) -> bool {
    scope.is_spared(callee.entry)
        && scope.is_kept(k, number)
        && is_placed(scope, k, number)
        && is_held(scope, k, number)
}

// How far above what x2 had when the function began a load's address is.
fn loaded_at(scope: &Scope<'_>, k: usize) -> Option<u32> {
    match scope.instr(k) {
        Instr::Load {
            op: LoadOp::Lw,
            rs1,
            offset,
            ..
        } => {
            let above = above_begin(scope.name(k, rs1))?;
            Some(above.wrapping_add(offset.cast_unsigned()))
        }
        _ => None,
    }
}

/// The word of the stack that the instruction of a node loads, where the name of a register says which.
pub fn loaded_word(scope: &Scope<'_>, k: usize) -> Option<u32> {
    word_number(loaded_at(scope, k)?)
}
