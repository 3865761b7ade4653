//! What registers tell of others: where one is 0, or where it isn't, another one is in an interval. Comparisons that are no branches begin to tell, and
//! a branch on what they have written says what they told.

ghost use Rattle.std.specs.Prelude.{◌<◌};

use crate::apart::raised;
use crate::arcs::{WORDS, ahead, holds, kept, only, shorter};
use crate::areas::access_of;
use crate::passing::Step;
use crate::program::Program;
use crate::rows::within;
use crate::states::{Facts, State};
use crate::stores::arc_of;
use crate::tables::Row;
use crate::ways::{Way, WayKind, leads_on};
use scale_base::{BranchOp, ImmOp, Instr, NoMemory, RegOp};
use stack_tables::{MOST_TOLD, Told};
use std::alloc::Global;
use wrapped_intervals::{Arc, exactly, first_by, keeps, second_by};

/// From which length on an interval says nothing.
const LONGEST: u64 = 0xF000_0000;

/// How many instructions behind a difference are looked at for one that asks whether it is 0.
const SOON: usize = 12;

/// What registers tell where a state flows to, and the registers of whose intervals there nothing follows: one is loaded, and the access behind which the
/// state is says something of the other one, which what is told doesn't use.
#[derive(Clone, Copy)]
pub struct Sentences {
    items: [Option<Told>; 8],
    count: usize,
    loaded: u8,
    cut: u8,
}

impl Sentences {
    /// Nothing is told.
    pub fn none() -> Sentences {
        Sentences {
            items: [None; 8],
            count: 0,
            loaded: 0,
            cut: 0,
        }
    }

    /// Forgets all.
    pub fn clear(&mut self) {
        self.count = 0;
        self.loaded = 0;
        self.cut = 0;
    }

    // Whether nothing follows of a register's interval.
    fn is_silent(&self, r: u8) -> bool {
        r == self.loaded || r == self.cut
    }

    /// How many there are.
    pub fn count(&self) -> usize {
        self.count.min(MOST_TOLD)
    }

    /// The one of a place.
    pub fn at(&self, place: usize) -> Option<Told> {
        if place < self.count {
            self.items.get(place).copied().flatten()
        } else {
            None
        }
    }

    // Adds one, where it says anything and there is room.
    fn add(&mut self, told: Told) {
        if self.count < MOST_TOLD && is_telling(told.arc) {
            self.items[self.count] = Some(told);
            self.count += 1;
        }
    }

    // Whether one of those that tell the same has an interval in this one.
    fn has(&self, sought: &Told) -> bool {
        for place in 0..self.count() {
            if let Some(told) = self.at(place) {
                if is_same(&told, sought) && holds(Some(sought.arc), Some(told.arc)) {
                    return true;
                }
            }
        }
        false
    }

    /// The shortest interval of those that tell the same.
    pub fn of(&self, sought: &Told) -> Option<Arc> {
        let mut arc = None;
        for place in 0..self.count() {
            match self.at(place) {
                Some(told) if is_same(&told, sought) => arc = shorter(arc, Some(told.arc)),
                _ => {}
            }
        }
        arc
    }
}

/// Whether an interval says something.
pub fn is_telling(arc: Arc) -> bool {
    arc.more() < LONGEST
}

/// Whether both tell of the same register where the same is 0, or where it isn't.
pub fn is_same(a: &Told, b: &Told) -> bool {
    a.teller == b.teller && a.zero == b.zero && a.about == b.about
}

// Whether 0 is not in an interval.
fn misses_zero(arc: Option<Arc>) -> bool {
    match kept(arc) {
        Some(i) => ahead(i.low(), 0) > i.more(),
        None => false,
    }
}

// Whether an interval of a register is one of 0 alone, or has no 0.
fn is_so(arc: Option<Arc>, zero: bool) -> bool {
    if zero {
        only(arc) == Some(0)
    } else {
        misses_zero(arc)
    }
}

/// Whether a register is never so, by the row.
pub fn is_never(row: &Row, told: &Told) -> bool {
    is_so(arc_of(row, told.teller), !told.zero)
}

impl State {
    // The interval of a register that the instruction leaves there.
    fn known(&self, r: u8) -> Option<Arc> {
        if self.told.is_silent(r) {
            None
        } else {
            arc_of(&self.row, r)
        }
    }

    /// Whether what is told is so for want of states of which it is told.
    pub fn is_never(&self, told: &Told) -> bool {
        !self.told.is_silent(told.teller) && is_never(&self.row, told)
    }

    /// The interval of the register of which something is told, by what is told of it, or whatever the teller is.
    pub fn told_arc(&self, told: &Told) -> Option<Arc> {
        shorter(self.told.of(told), self.known(told.about))
    }

    // Whether it is so whatever the teller is.
    fn is_known(&self, told: &Told) -> bool {
        match self.known(told.about) {
            Some(arc) => holds(Some(told.arc), Some(arc)),
            None => false,
        }
    }

    /// Whether what is told is so.
    pub fn is_told(&self, told: &Told) -> bool {
        self.is_never(told) || self.is_known(told) || self.told.has(told)
    }
}

/// What holds of two words: one is less, as signed or as unsigned numbers, or they differ.
#[derive(Clone, Copy)]
enum Test {
    IsLess,
    IsBelow,
    Differs,
}

/// A comparison of two registers, or of one and a number, that holds where what is written to the teller isn't 0, and doesn't where it is.
#[derive(Clone, Copy)]
pub struct Comparison {
    teller: u8,
    pub first: u8,
    pub second: u8,
    number: Option<Arc>,
    test: Test,
}

// A comparison of a register and a number.
fn with_number(teller: u8, first: u8, number: u32, test: Test) -> Comparison {
    Comparison {
        teller,
        first,
        second: 0,
        number: exactly(u64::from(number)),
        test,
    }
}

// And of two registers.
fn of_both(teller: u8, first: u8, second: u8, test: Test) -> Comparison {
    Comparison {
        teller,
        first,
        second,
        number: None,
        test,
    }
}

// The comparison whose truth an instruction writes.
fn truth_of(i: Instr) -> Option<Comparison> {
    match i {
        Instr::Imm {
            op: ImmOp::Slti,
            rd,
            rs1,
            imm,
        } => Some(with_number(rd, rs1, imm.cast_unsigned(), Test::IsLess)),
        Instr::Imm {
            op: ImmOp::Sltiu,
            rd,
            rs1,
            imm,
        } => Some(with_number(rd, rs1, imm.cast_unsigned(), Test::IsBelow)),
        Instr::Reg {
            op: RegOp::Slt,
            rd,
            rs1,
            rs2,
        } => Some(of_both(rd, rs1, rs2, Test::IsLess)),
        Instr::Reg {
            op: RegOp::Sltu,
            rd,
            rs1,
            rs2,
        } => Some(of_both(rd, rs1, rs2, Test::IsBelow)),
        _ => None,
    }
}

// What isn't 0 where two words differ: a sum with the opposite of one of them, a difference, or one word's bits turned round by the other.
fn difference_of(i: Instr) -> Option<Comparison> {
    match i {
        Instr::Imm {
            op: ImmOp::Addi,
            rd,
            rs1,
            imm,
        } => Some(with_number(rd, rs1, imm.cast_unsigned().wrapping_neg(), Test::Differs)),
        Instr::Imm {
            op: ImmOp::Xori,
            rd,
            rs1,
            imm,
        } => Some(with_number(rd, rs1, imm.cast_unsigned(), Test::Differs)),
        Instr::Reg {
            op: RegOp::Sub | RegOp::Xor,
            rd,
            rs1,
            rs2,
        } => Some(of_both(rd, rs1, rs2, Test::Differs)),
        _ => None,
    }
}

// Whether an instruction asks only whether a register is 0, or joins such questions.
fn is_asked(i: Instr, r: u8) -> bool {
    match i {
        Instr::Imm {
            op: ImmOp::Sltiu,
            rd: _,
            rs1,
            imm,
        } => rs1 == r && imm == 1,
        Instr::Reg {
            op: RegOp::Sltu,
            rd: _,
            rs1,
            rs2,
        } => rs1 == 0 && rs2 == r,
        Instr::Reg {
            op: RegOp::And | RegOp::Or,
            rd: _,
            rs1,
            rs2,
        } => rs1 == r || rs2 == r,
        _ => is_tested(i, r),
    }
}

// Whether it is asked of a register, soon behind a node, whether it is 0.
fn is_asked_behind(program: &Program, k: usize, r: u8) -> bool {
    let mut at = k;
    for _ in 0..SOON {
        let Some(next) = program.behind(at) else {
            return false;
        };
        let Some(node) = program.node(next) else {
            return false;
        };
        if is_asked(node.instr, r) {
            return true;
        }
        if !keeps(r, node.instr) {
            return false;
        }
        at = next;
    }
    false
}

// Whether a node's instruction makes a difference that tells of a register, and of which it is asked soon behind it whether it is 0.
fn is_difference_asked(program: &Program, k: usize) -> bool {
    let difference = program.node(k).and_then(|node| difference_of(node.instr));
    match difference {
        Some(difference) => difference.tells() && is_asked_behind(program, k, difference.teller),
        None => false,
    }
}

/// By node, whether its instruction's difference tells: it is asked soon behind it whether it is 0. Others would only take up places.
pub fn asked_nodes(alloc: Global, program: &Program) -> Result<Vec<bool>, NoMemory> {
    let mut asked = Vec::new(alloc);
    for k in 0..program.nodes.len() {
        asked.push(is_difference_asked(program, k))?;
    }
    Ok(asked)
}

/// What an instruction compares: what it writes is a truth, or a difference, if that tells.
pub fn comparison_of(i: Instr, is_asked: bool) -> Option<Comparison> {
    let truth = truth_of(i);
    if truth.is_some() || !is_asked {
        truth
    } else {
        difference_of(i)
    }
}

impl Comparison {
    // Whether something may be told of a register: it is not x0, and not the teller.
    fn tells_of(&self, about: u8) -> bool {
        about != 0 && about != self.teller && self.teller != 0
    }

    fn tells(&self) -> bool {
        self.tells_of(self.first) || self.tells_of(self.second)
    }

    // What the registers compare as where the teller is 0, or where it isn't.
    fn op(&self, zero: bool) -> BranchOp {
        match (self.test, zero) {
            (Test::IsLess, false) => BranchOp::Blt,
            (Test::IsLess, true) => BranchOp::Bge,
            (Test::IsBelow, false) => BranchOp::Bltu,
            (Test::IsBelow, true) => BranchOp::Bgeu,
            (Test::Differs, false) => BranchOp::Bne,
            (Test::Differs, true) => BranchOp::Beq,
        }
    }

    /// The interval of what the first register is compared with.
    pub fn other(&self, row: &Row) -> Option<Arc> {
        if self.number.is_some() {
            self.number
        } else {
            arc_of(row, self.second)
        }
    }

    // What is told of the first register.
    fn first_told(&self, row: &Row, zero: bool) -> Option<Told> {
        let _other = self.other(row)?;
        let i = kept(arc_of(row, self.first));
        let j = kept(self.other(row));
        self.told(self.first, zero, first_by(self.op(zero), i, j))
    }

    // And of the second one.
    fn second_told(&self, row: &Row, zero: bool) -> Option<Told> {
        let _first = arc_of(row, self.first)?;
        let i = kept(arc_of(row, self.first));
        let j = kept(self.other(row));
        self.told(self.second, zero, second_by(self.op(zero), i, j))
    }

    fn told(&self, about: u8, zero: bool, arc: Option<Arc>) -> Option<Told> {
        let arc = kept(arc)?;
        if !self.tells_of(about) {
            return None;
        }
        Some(Told {
            teller: self.teller,
            zero,
            about,
            arc,
        })
    }
}

// Whether an interval is of 0 and 1.
fn is_truth(arc: Option<Arc>) -> bool {
    holds(Some(Arc::of(0, 1)), arc)
}

/// A register that is 0 where another one is, or where it isn't.
#[derive(Clone, Copy)]
struct Turned {
    teller: u8,
    by: u8,
    flips: bool,
}

// The register that an instruction makes of another one so.
fn turned_by(i: Instr, row: &Row) -> Option<Turned> {
    let (teller, by, flips) = match i {
        Instr::Imm {
            op: ImmOp::Xori,
            rd,
            rs1,
            imm: 1,
        } if is_truth(arc_of(row, rs1)) => (rd, rs1, true),
        Instr::Imm {
            op: ImmOp::Sltiu,
            rd,
            rs1,
            imm: 1,
        } => (rd, rs1, true),
        Instr::Reg {
            op: RegOp::Sltu,
            rd,
            rs1: 0,
            rs2,
        } => (rd, rs2, false),
        Instr::Imm {
            op: ImmOp::Addi,
            rd,
            rs1,
            imm: 0,
        } if arc_of(row, rs1).is_some() => (rd, rs1, false),
        _ => return None,
    };
    Some(Turned { teller, by, flips })
}

/// A register that is 0 only where one of two is, or where both are.
#[derive(Clone, Copy)]
struct Joined {
    teller: u8,
    first: u8,
    second: u8,
    zero: bool,
}

// The register that an instruction makes of two so.
fn joined_by(i: Instr) -> Option<Joined> {
    let (teller, first, second, zero) = match i {
        Instr::Reg {
            op: RegOp::And,
            rd,
            rs1,
            rs2,
        } => (rd, rs1, rs2, false),
        Instr::Reg {
            op: RegOp::Or,
            rd,
            rs1,
            rs2,
        } => (rd, rs1, rs2, true),
        Instr::Imm {
            op: ImmOp::Andi,
            rd,
            rs1,
            imm: _,
        } => (rd, rs1, rs1, false),
        _ => return None,
    };
    Some(Joined {
        teller,
        first,
        second,
        zero,
    })
}

// Whether an instruction compares a register with 0: what it tells is known then.
fn is_tested(i: Instr, r: u8) -> bool {
    match i {
        Instr::Branch { rs1, rs2, .. } => (rs1 == r && rs2 == 0) || (rs2 == r && rs1 == 0),
        _ => false,
    }
}

/// A step from a node, what it compares, and the intervals that it leaves.
#[derive(Clone, Copy)]
pub struct Telling<'a> {
    pub step: Step,
    pub comparison: Option<Comparison>,
    pub from: &'a Facts,
    pub passed: &'a Row,
}

impl Telling<'_> {
    // Adds what is told. Where the teller is never so, whatever interval will do.
    fn add(&self, to: &mut Sentences, told: Told) {
        let known = kept(arc_of(self.passed, told.about));
        match known {
            Some(arc) if is_never(self.passed, &told) => to.add(Told { arc, ..told }),
            _ => to.add(told),
        }
    }

    // Adds what a comparison tells.
    fn add_compared(&self, to: &mut Sentences) {
        let Some(comparison) = self.comparison else {
            return;
        };
        for zero in [false, true] {
            if let Some(told) = comparison.first_told(&self.from.row, zero) {
                self.add(to, told);
            }
            if let Some(told) = comparison.second_told(&self.from.row, zero) {
                self.add(to, told);
            }
        }
    }

    // Adds what a register tells by another one.
    fn add_turned(&self, to: &mut Sentences) {
        let Some(turned) = turned_by(self.step.instr, &self.from.row) else {
            return;
        };
        if turned.teller == 0 || turned.by == 0 {
            return;
        }
        for told in &self.from.told {
            if told.teller == turned.by && told.about != turned.teller {
                let next = Told {
                    teller: turned.teller,
                    zero: told.zero != turned.flips,
                    ..*told
                };
                self.add(to, next);
            }
        }
    }

    // And by two others.
    fn add_joined(&self, to: &mut Sentences) {
        let Some(joined) = joined_by(self.step.instr) else {
            return;
        };
        if joined.teller == 0 {
            return;
        }
        for told in &self.from.told {
            let is_source = told.teller == joined.first || told.teller == joined.second;
            if is_source && told.zero == joined.zero && told.about != joined.teller {
                let next = Told {
                    teller: joined.teller,
                    ..*told
                };
                self.add(to, next);
            }
        }
    }

    // Adds what is told on.
    fn add_kept(&self, to: &mut Sentences) {
        let i = self.step.instr;
        for told in &self.from.told {
            if keeps(told.teller, i) && keeps(told.about, i) && !is_tested(i, told.teller) {
                self.add(to, *told);
            }
        }
    }

    // And what is told of a register that is so much more.
    fn add_moved(&self, to: &mut Sentences) {
        let Instr::Imm {
            op: ImmOp::Addi,
            rd,
            rs1,
            imm,
        } = self.step.instr
        else {
            return;
        };
        if rd == 0 {
            return;
        }
        for told in &self.from.told {
            if told.about == rs1 && told.teller != rd {
                if let Some(arc) = kept(raised(Some(told.arc), imm.cast_unsigned())) {
                    let next = Told {
                        about: rd,
                        arc,
                        ..*told
                    };
                    self.add(to, next);
                }
            }
        }
    }

    // Notes of which registers nothing follows: what is loaded is known by the words alone, and what an access says of its register by its area.
    fn note_silent(&self, to: &mut Sentences) {
        if let Instr::Load { rd, .. } = self.step.instr {
            to.loaded = rd;
        }
        if let Some(access) = access_of(self.step.instr) {
            let r = access.register;
            if !holds(arc_of(self.passed, r), arc_of(&self.from.row, r)) {
                to.cut = r;
            }
        }
    }

    /// What registers tell behind the step: first what the instruction has them tell.
    pub fn sentences(&self) -> Sentences {
        let mut to = Sentences::none();
        self.note_silent(&mut to);
        self.add_compared(&mut to);
        if !self.from.told.is_empty() {
            self.add_turned(&mut to);
            self.add_joined(&mut to);
            self.add_kept(&mut to);
            self.add_moved(&mut to);
        }
        to
    }

    // What is told of a register on a branch, with what else is known of it.
    fn said(&self, told: &Told) -> Option<Arc> {
        let i = self.step.instr;
        let teller = arc_of(self.passed, told.teller);
        if keeps(told.about, i) && is_so(teller, told.zero) {
            within(&Some(told.arc), &arc_of(self.passed, told.about))
        } else {
            None
        }
    }
}

/// Puts what is told of registers over a branch.
pub fn put_told(step: Step, from: &Facts, to: &mut State) {
    if let Instr::Branch { .. } = step.instr {
        for told in &from.told {
            let telling = Telling {
                step,
                comparison: None,
                from,
                passed: &to.row,
            };
            let said = telling.said(told);
            to.solve(usize::from(told.about), None, said);
        }
    }
}

// Whether registers may tell of others where a way ends: it is a step on.
fn is_told_over(way: &Way, places: &[usize]) -> bool {
    let from = places.get(way.from).copied().unwrap_or(0);
    let to = places.get(way.to).copied().unwrap_or(0);
    match way.kind {
        WayKind::Step => to < from,
        _ => false,
    }
}

/// By node, whether nothing is told there: where a run or a function begins, behind calls, and where ways back end.
pub fn untold_nodes(
    alloc: Global,
    program: &Program,
    places: &[usize],
) -> Result<Vec<bool>, NoMemory> {
    let mut untold = vec![in alloc; false; program.nodes.len()]?;
    for way in &program.ways {
        if leads_on(way) && !is_told_over(way, places) && way.to < untold.len() {
            untold[way.to] = true;
        }
    }
    let start = program.start();
    if start < untold.len() {
        untold[start] = true;
    }
    Ok(untold)
}
