//! Registers that are divided while others count how often, as they flow over a way: what the one holds, times two to the power of so many bits times the
//! count, stays below a power of two. So the count has a limit wherever the other one isn't 0.

ghost use Rattle.std.specs.Prelude.{◌<◌};

use crate::arcs::kept;
use crate::dividing::{Divided, bits_below};
use crate::passing::Step;
use crate::rows::{passed_word, within};
use crate::states::{Facts, State};
use crate::stores::arc_of;
use crate::tables::Row;
use crate::ways::Way;
use scale_base::{ImmOp, Instr, NoMemory, RegOp};
use stack_tables::{Dwindling, MOST_DWINDLING};
use wrapped_intervals::{Arc, keeps, top_of};

/// How many pairs flow over a way at most.
const MOST_PAIRS: usize = 8;

/// From how many bits on a pair says nothing.
const TOO_MANY: u64 = 64;

/// From which number on a word is negative.
const NEGATIVE: u64 = 0x8000_0000;

/// The pairs that flow over a way.
#[derive(Clone, Copy)]
pub struct Pairs {
    items: [Option<Dwindling>; 8],
    count: usize,
}

/// Whether both are of the same registers and bits.
fn is_same(a: &Dwindling, b: &Dwindling) -> bool {
    a.value == b.value && a.count == b.count && a.bits == b.bits
}

impl Pairs {
    /// None.
    pub fn none() -> Pairs {
        Pairs {
            items: [None; 8],
            count: 0,
        }
    }

    /// Forgets all.
    pub fn clear(&mut self) {
        self.count = 0;
    }

    /// How many there are.
    pub fn count(&self) -> usize {
        self.count.min(MOST_PAIRS)
    }

    /// The one of a place.
    pub fn at(&self, place: usize) -> Option<Dwindling> {
        if place < self.count {
            self.items.get(place).copied().flatten()
        } else {
            None
        }
    }

    // Where one of the same registers is.
    fn find(&self, sought: &Dwindling) -> Option<usize> {
        for place in 0..self.count() {
            if self.at(place).is_some_and(|pair| is_same(&pair, sought)) {
                return Some(place);
            }
        }
        None
    }

    /// Below which power of two a pair is.
    pub fn below(&self, sought: &Dwindling) -> Option<u8> {
        Some(self.at(self.find(sought)?)?.below)
    }

    // Adds one, where there is room: the lower one of the same registers.
    fn add(&mut self, pair: Dwindling) {
        match self.find(&pair) {
            Some(place) => {
                if self.at(place).is_some_and(|other| pair.below < other.below)
                    && place < MOST_PAIRS
                {
                    self.items[place] = Some(pair);
                }
            }
            None => {
                if self.count < MOST_PAIRS {
                    self.items[self.count] = Some(pair);
                    self.count += 1;
                }
            }
        }
    }
}

// The least number of an interval.
fn least_of(arc: Option<Arc>) -> u64 {
    match kept(arc) {
        Some(i) => i.least(),
        None => 0,
    }
}

// The greatest number of an interval that is known.
fn greatest_of(arc: Option<Arc>) -> Option<u64> {
    let i = kept(arc)?;
    Some(top_of(Some(i)))
}

// How many bits a number has.
fn bits_of(n: u64) -> u64 {
    if n == 0 {
        0
    } else {
        u64::from(bits_below(n)).saturating_add(1)
    }
}

/// A step on a way, by which pairs flow.
#[derive(Clone, Copy)]
pub struct Dwindled<'a> {
    pub divided: &'a Divided,
    pub step: Step,
    pub from: &'a Facts,
}

impl Dwindled<'_> {
    // The interval of a register behind the instruction.
    fn passed(&self, r: u8) -> Option<Arc> {
        let step = self.step;
        passed_word(step.instr, step.at, step.next, &self.from.row, r)
    }

    fn row(&self) -> &Row {
        &self.from.row
    }

    // How many bits a division by a register takes off.
    fn bits_of_divisor(&self, r: u8) -> Option<u64> {
        let least = least_of(arc_of(self.row(), r));
        if least == 0 {
            None
        } else {
            Some(u64::from(bits_below(least)))
        }
    }

    // Whether a register is known to be no negative number.
    fn is_low(&self, r: u8) -> bool {
        greatest_of(arc_of(self.row(), r)).is_some_and(|top| top < NEGATIVE)
    }

    // The register that the instruction makes of a divided one, and how many bits it takes off.
    fn quotient(&self, value: u8) -> Option<(u8, u64)> {
        match self.step.instr {
            Instr::Imm {
                op: ImmOp::Addi,
                rd,
                rs1,
                imm: 0,
            } if rs1 == value => Some((rd, 0)),
            Instr::Imm {
                op: ImmOp::Srli,
                rd,
                rs1,
                imm,
            } if rs1 == value => Some((rd, u64::try_from(imm).ok()?)),
            Instr::Imm {
                op: ImmOp::Srai,
                rd,
                rs1,
                imm,
            } if rs1 == value && self.is_low(rs1) => Some((rd, u64::try_from(imm).ok()?)),
            Instr::Reg { op, rd, rs1, rs2 } => Some((rd, self.taken_off(op, rs1, rs2, value)?)),
            _ => None,
        }
    }

    // How many bits the high word of a product with a register takes off.
    fn bits_of_factor(&self, r: u8) -> Option<u64> {
        let top = greatest_of(arc_of(self.row(), r))?;
        Some(32u64.saturating_sub(bits_of(top)))
    }

    // How many bits a quotient or a product takes off.
    fn taken_off(&self, op: RegOp, rs1: u8, rs2: u8, value: u8) -> Option<u64> {
        let is_first = rs1 == value;
        let is_low = self.is_low(rs1) && self.is_low(rs2);
        match op {
            RegOp::Divu if is_first => self.bits_of_divisor(rs2),
            RegOp::Div if is_first && is_low => self.bits_of_divisor(rs2),
            RegOp::Mulhu if is_first => self.bits_of_factor(rs2),
            RegOp::Mulhu if rs2 == value => self.bits_of_factor(rs1),
            RegOp::Mulh if is_first && is_low => self.bits_of_factor(rs2),
            RegOp::Mulh if rs2 == value && is_low => self.bits_of_factor(rs1),
            _ => self.nothing_off(op, rs1, rs2, value),
        }
    }

    // The same of a sum with 0, and of a difference: nothing.
    fn nothing_off(&self, op: RegOp, rs1: u8, rs2: u8, value: u8) -> Option<u64> {
        match op {
            RegOp::Add | RegOp::Sub if rs1 == value && self.is_zero(rs2) => Some(0),
            RegOp::Add if rs2 == value && self.is_zero(rs1) => Some(0),
            _ => None,
        }
    }

    // Whether a register holds 0.
    fn is_zero(&self, r: u8) -> bool {
        greatest_of(arc_of(self.row(), r)) == Some(0)
    }

    // The register that the instruction makes of one that counts, and how much more that is.
    fn raised(&self, count: u8) -> Option<(u8, u64)> {
        match self.step.instr {
            Instr::Imm {
                op: ImmOp::Addi,
                rd,
                rs1,
                imm,
            } if rs1 == count && imm >= 0 => Some((rd, u64::try_from(imm).ok()?)),
            _ => None,
        }
    }

    // Adds a pair, where both registers are used later, and it says anything.
    fn add(&self, to: &mut Pairs, node: usize, pair: Dwindling, below: u64) {
        if let Ok(below) = u8::try_from(below) {
            let next = Dwindling { below, ..pair };
            let differ = next.value != next.count && 0 < next.value && 0 < next.count;
            if u64::from(below) < TOO_MANY && differ && self.divided.is_used(node, &next) {
                to.add(next);
            }
        }
    }

    // Adds what a pair becomes whose value becomes another one, so many bits less.
    fn add_valued(&self, to: &mut Pairs, node: usize, pair: Dwindling, valued: (u8, u64)) {
        let (value, lost) = valued;
        let below = u64::from(pair.below);
        let next = Dwindling { value, ..pair };
        if let Some((count, more)) = self.raised(pair.count) {
            let added = more.saturating_mul(u64::from(pair.bits));
            let sum = below.saturating_add(added).saturating_sub(lost);
            self.add(to, node, Dwindling { count, ..next }, sum);
        }
        if keeps(pair.count, self.step.instr) {
            self.add(to, node, next, below.saturating_sub(lost));
        }
    }

    // Adds what a pair becomes.
    fn add_handed(&self, to: &mut Pairs, node: usize, pair: Dwindling) {
        if let Some(quotient) = self.quotient(pair.value) {
            self.add_valued(to, node, pair, quotient);
        }
        if keeps(pair.value, self.step.instr) {
            self.add_valued(to, node, pair, (pair.value, 0));
        }
    }

    // Below how many bits a pair is by the intervals of its registers.
    fn known(&self, pair: &Dwindling) -> Option<u64> {
        let value = greatest_of(self.passed(pair.value))?;
        let count = greatest_of(self.passed(pair.count))?;
        Some(bits_of(value).saturating_add(count.saturating_mul(u64::from(pair.bits))))
    }

    // The pairs that flow to a node: those that begin there, and those that there were.
    fn pairs(&self, node: usize) -> Pairs {
        let mut to = Pairs::none();
        for pair in self.divided.begun_at(node) {
            if let Some(below) = self.known(pair) {
                self.add(&mut to, node, *pair, below);
            }
        }
        for pair in &self.from.dwindling {
            self.add_handed(&mut to, node, *pair);
        }
        to
    }

    // How often a value was divided at most, that is so great at least.
    fn most_counted(&self, pair: &Dwindling) -> Option<u64> {
        let least = least_of(self.passed(pair.value));
        if least == 0 || pair.bits == 0 {
            return None;
        }
        let rest = u64::from(pair.below).saturating_sub(u64::from(bits_below(least)));
        let bits = u64::from(pair.bits);
        Some((rest.saturating_add(bits - 1) / bits).saturating_sub(1))
    }

    // Limits the register of a pair that counts.
    fn limit(&self, pair: &Dwindling, to: &mut State) {
        let i = self.step.instr;
        let place = usize::from(pair.count);
        if !keeps(pair.value, i) || !keeps(pair.count, i) || place >= 32 {
            return;
        }
        let (Some(most), Some(_)) = (self.most_counted(pair), arc_of(self.row(), pair.count)) else {
            return;
        };
        if most < top_of(kept(to.row[place])) {
            to.row[place] = within(&Some(Arc::of(0, most)), &self.passed(pair.count));
        }
    }

    /// Puts the pairs that flow over a way, and what those that there were say of the registers that count.
    pub fn put(&self, way: &Way, to: &mut State) {
        to.pairs = self.pairs(way.to);
        for pair in &self.from.dwindling {
            self.limit(pair, to);
        }
    }
}

// Lets each pair grow to what flows. It is given up where none does. Whether any has grown, or is given up.
fn grow_each(row: &mut [Dwindling], pairs: &Pairs) -> bool {
    let mut has_grown = false;
    for place in 0..row.len() {
        match pairs.below(&row[place]) {
            Some(below) => {
                if below > row[place].below {
                    row[place].below = below;
                    has_grown = true;
                }
            }
            None => {
                row[place].count = 0;
                has_grown = true;
            }
        }
    }
    has_grown
}

/// Lets the pairs of a node grow, and gives up those that are left without a count. Whether any has grown, or is given up.
pub fn grow_pairs(row: &mut Vec<Dwindling>, pairs: &Pairs) -> bool {
    let has_grown = !row.is_empty() && grow_each(row, pairs);
    if has_grown {
        row.retain(|pair| pair.count != 0);
    }
    has_grown
}

/// Puts pairs in the place of others.
pub fn put_pairs(row: &mut Vec<Dwindling>, pairs: &Pairs) -> Result<(), NoMemory> {
    row.clear();
    for place in 0..pairs.count() {
        if let Some(pair) = pairs.at(place) {
            if row.len() < MOST_DWINDLING {
                row.push(pair)?;
            }
        }
    }
    Ok(())
}
