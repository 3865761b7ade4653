//! What is known, at each node of a loop, of registers and of a word of the stack, or of what is left of the input, by the number that stood
//! in a counted place when the header was last come to.

ghost use Rattle.std.specs.Prelude.{◌<◌};

use crate::scope::{Callee, Scope};
use crate::stores::{is_missed, is_safe, loaded_word, stored_word};
use scale_base::{BranchOp, ImmOp, Instr, RegOp};
use turn_checks::{Relation, TurnPlace};
use wrapped_intervals::{Arc, keeps};

/// The number of the service that reads.
const READ: u64 = 63;

/// The relations before a node: by register, and that of a word of the stack, or of what is left of the input; and whether the number at the header was not 0.
#[derive(Clone, Copy)]
pub struct Known {
    pub row: [Relation; 32],
    pub own: Relation,
    pub used: bool,
}

impl Known {
    /// Nothing is known.
    pub fn nothing() -> Known {
        Known {
            row: [Relation::Unknown; 32],
            own: Relation::Unknown,
            used: false,
        }
    }

    /// At the header, where the place has the number itself.
    pub fn begun(place: TurnPlace, relation: Relation) -> Known {
        let mut known = Known::nothing();
        match place {
            TurnPlace::Register(r) => known.set(r, relation),
            TurnPlace::Word(_) | TurnPlace::Input => known.own = relation,
        }
        known
    }

    /// The relation of a register.
    pub fn of(&self, r: u8) -> Relation {
        if 0 < r && r < 32 {
            self.row[usize::from(r)]
        } else {
            Relation::Unknown
        }
    }

    fn set(&mut self, r: u8, relation: Relation) {
        if 0 < r && r < 32 {
            self.row[usize::from(r)] = relation;
        }
    }

    /// That of a place.
    pub fn at_place(&self, place: TurnPlace) -> Relation {
        match place {
            TurnPlace::Register(r) => self.of(r),
            TurnPlace::Word(_) | TurnPlace::Input => self.own,
        }
    }
}

// The ends of an interval, where it is short enough.
fn ends(arc: Option<Arc>) -> Option<(u32, u32)> {
    let arc = arc?;
    Some((
        u32::try_from(arc.low()).ok()?,
        u32::try_from(arc.more()).ok()?,
    ))
}

// The least and the greatest number of an interval.
fn limits(arc: Option<Arc>) -> (u32, u32) {
    match ends(arc) {
        Some((low, more)) => match low.checked_add(more) {
            Some(top) => (low, top),
            None => (0, u32::MAX),
        },
        None => (0, u32::MAX),
    }
}

// Whether an interval has no negative number.
fn is_low(arc: Option<Arc>) -> bool {
    limits(arc).1 < 0x8000_0000
}

// The numbers of an interval more.
fn moved_by(low: u32, more: u32, arc: Option<Arc>) -> Relation {
    match ends(arc) {
        Some((start, many)) => match more.checked_add(many) {
            Some(all) => Relation::Ahead(low.wrapping_add(start), all),
            None => Relation::Unknown,
        },
        None => Relation::Unknown,
    }
}

// The numbers of an interval less.
fn moved_back(low: u32, more: u32, arc: Option<Arc>) -> Relation {
    match ends(arc) {
        Some((start, many)) => match more.checked_add(many) {
            Some(all) => Relation::Ahead(low.wrapping_sub(start.wrapping_add(many)), all),
            None => Relation::Unknown,
        },
        None => Relation::Unknown,
    }
}

// What is known of an operand.
#[derive(Clone, Copy)]
struct Operand {
    relation: Relation,
    arc: Option<Arc>,
}

// A number that is at least so much, where a sum of what is at most so much stays a word.
fn least_sum(more: u32, top: u32, other: Option<Arc>) -> Relation {
    let (least, most) = limits(other);
    if top.checked_add(most).is_some() {
        Relation::Above(more.saturating_add(least))
    } else {
        Relation::Unknown
    }
}

// A sum of what has a relation and a value of an interval.
fn sum(one: Operand, arc: Option<Arc>) -> Relation {
    match one.relation {
        Relation::Ahead(low, more) => moved_by(low, more, arc),
        Relation::Below(_, _) if limits(arc).1 == 0 => one.relation,
        Relation::Above(more) => least_sum(more, limits(one.arc).1, arc),
        _ => Relation::Unknown,
    }
}

// What is at most so much, less a number that is taken away from what is at least that.
fn less(few: u32, shift: u32, least: u32, n: u32) -> Relation {
    if n <= least {
        Relation::Below(few.saturating_add(n), shift)
    } else {
        Relation::Unknown
    }
}

// What is at least so much, with a number more, or with one taken away.
fn raised(more: u32, top: u32, n: u32) -> Relation {
    if top.checked_add(n).is_some() {
        return Relation::Above(more.saturating_add(n));
    }
    match more.checked_sub(n.wrapping_neg()) {
        Some(rest) => Relation::Above(rest),
        None => Relation::Unknown,
    }
}

// A sum with a number.
fn more(one: Operand, n: u32) -> Relation {
    let (least, top) = limits(one.arc);
    match one.relation {
        Relation::Ahead(low, many) => Relation::Ahead(low.wrapping_add(n), many),
        Relation::Below(_, _) if n == 0 => one.relation,
        Relation::Below(few, shift) => less(few, shift, least, n.wrapping_neg()),
        Relation::Above(many) => raised(many, top, n),
        Relation::Read(_) if n == 0 => one.relation,
        Relation::Read(_) | Relation::Unknown => Relation::Unknown,
    }
}

// A difference.
fn difference(one: Operand, other: Option<Arc>) -> Relation {
    match one.relation {
        Relation::Ahead(low, many) => moved_back(low, many, other),
        Relation::Below(few, shift) if one.arc.is_some() && other.is_some() => {
            let (least, most) = limits(other);
            if most <= limits(one.arc).0 {
                Relation::Below(few.saturating_add(least), shift)
            } else {
                Relation::Unknown
            }
        }
        _ => Relation::Unknown,
    }
}

// A product with a power of 2.
fn multiplied(one: Operand, n: u32) -> Relation
    requires { n < 32 }
{
    match one.relation {
        Relation::Above(many) if one.arc.is_some() => {
            let (least, top) = limits(one.arc);
            if u64::from(top) << n > u64::from(u32::MAX) {
                return Relation::Unknown;
            }
            let added = (u64::from(least) << n).saturating_sub(u64::from(least));
            Relation::Above(many.saturating_add(u32::try_from(added).unwrap_or(0)))
        }
        _ => Relation::Unknown,
    }
}

fn halved(q: Relation, n: u32, word: bool) -> Relation {
    match q {
        Relation::Below(_, shift) if word => Relation::Below(0, shift.saturating_add(n).min(64)),
        _ => Relation::Unknown,
    }
}

// A quotient, which has as many bits less as the least divisor has but for its first one.
fn divided(q: Relation, word: bool, by: Option<Arc>) -> Relation {
    let (least, _) = limits(by);
    if least == 0 {
        Relation::Unknown
    } else {
        halved(q, least.ilog2(), word)
    }
}

fn lowered(q: Relation, n: u32, word: bool) -> Relation {
    match q {
        Relation::Below(less, shift) if word => Relation::Below(less.saturating_add(n), shift),
        _ => Relation::Unknown,
    }
}

fn is_telling(q: Relation) -> bool {
    !matches!(&q, Relation::Unknown)
}

fn either(p: Relation, q: Relation) -> Relation {
    if is_telling(p) { p } else { q }
}

// What is known of a register in front of the instruction of node k.
fn operand_at(scope: &Scope<'_>, known: &Known, k: usize, r: u8) -> Operand {
    Operand {
        relation: known.of(r),
        arc: scope.arc(k, r),
    }
}

// What an operation with a number gives.
fn by_number(op: ImmOp, one: Operand, imm: i32) -> Relation {
    let Operand { relation: q, arc } = one;
    let by = imm.cast_unsigned();
    match op {
        ImmOp::Addi => more(one, by),
        ImmOp::Slli => multiplied(one, by % 32),
        ImmOp::Andi => lowered(q, 0, arc.is_some()),
        ImmOp::Srli => halved(q, by % 32, arc.is_some()),
        ImmOp::Srai => halved(q, by % 32, is_low(arc)),
        _ => Relation::Unknown,
    }
}

// And one of two registers.
fn by_registers(op: RegOp, one: Operand, other: Operand) -> Relation {
    let (p, q) = (one.relation, other.relation);
    let (first, second) = (one.arc, other.arc);
    let words = first.is_some() && second.is_some();
    let low = is_low(first) && is_low(second);
    match op {
        RegOp::Add => either(sum(one, second), sum(other, first)),
        RegOp::Sub => difference(one, second),
        RegOp::And => either(
            lowered(p, 0, first.is_some()),
            lowered(q, 0, second.is_some()),
        ),
        RegOp::Mulh => either(halved(p, 1, low), halved(q, 1, low)),
        RegOp::Mulhu => either(halved(p, 0, words), halved(q, 0, words)),
        RegOp::Div => divided(p, low, second),
        RegOp::Divu => divided(p, first.is_some(), second),
        RegOp::Rem => lowered(q, 1, low && limits(second).0 > 0),
        RegOp::Remu => lowered(q, 1, second.is_some() && limits(second).0 > 0),
        _ => Relation::Unknown,
    }
}

// What an instruction leaves in the register that it writes.
fn written(scope: &Scope<'_>, known: &Known, k: usize, instr: Instr) -> Relation {
    match instr {
        Instr::Imm { op, rs1, imm, .. } => by_number(op, operand_at(scope, known, k, rs1), imm),
        Instr::Reg { op, rs1, rs2, .. } => by_registers(
            op,
            operand_at(scope, known, k, rs1),
            operand_at(scope, known, k, rs2),
        ),
        _ => Relation::Unknown,
    }
}

/// The register that an instruction writes, but for a service.
pub fn target_of(instr: Instr) -> u8 {
    match instr {
        Instr::Lui { rd, .. }
        | Instr::Auipc { rd, .. }
        | Instr::Jal { rd, .. }
        | Instr::Jalr { rd, .. }
        | Instr::Load { rd, .. }
        | Instr::Imm { rd, .. }
        | Instr::Reg { rd, .. } => rd,
        Instr::Ecall => 10,
        _ => 0,
    }
}

/// Whether a node reads from the input.
pub fn is_read(scope: &Scope<'_>, k: usize) -> bool {
    match scope.instr(k) {
        Instr::Ecall => is_one(scope.arc(k, 17), READ),
        _ => false,
    }
}

// Whether an interval has one number alone.
fn is_one(arc: Option<Arc>, n: u64) -> bool {
    match arc {
        Some(arc) => arc.low() == n && arc.more() == 0,
        None => false,
    }
}

// How much was taken from the input, by what is left of it.
fn consumed_by(own: Relation) -> u32 {
    match own {
        Relation::Below(less, _) => less,
        _ => 0,
    }
}

// How much a register shows that was taken on the way to a node.
fn counted_by(scope: &Scope<'_>, known: &Known, k: usize, to: usize, r: u8) -> u32 {
    match known.of(r) {
        Relation::Read(less) if keeps(r, scope.instr(k)) => {
            let (least, top) = limits(scope.arc_on(k, to, r));
            if top < 0x8000_0000 {
                less.saturating_add(least)
            } else {
                0
            }
        }
        _ => 0,
    }
}

/// What is left of the input on the way from a node to another, by what is known before the node and behind it.
pub fn taken_on(scope: &Scope<'_>, known: &Known, own: Relation, k: usize, to: usize) -> Relation {
    let mut taken = 0;
    for r in 1..32 {
        taken = taken.max(counted_by(scope, known, k, to, r));
    }
    if taken > consumed_by(own) {
        Relation::Below(taken, 0)
    } else {
        own
    }
}

// Behind an instruction that is no call.
fn behind_step(scope: &Scope<'_>, place: TurnPlace, known: &Known, k: usize) -> Known {
    let instr = scope.instr(k);
    let mut then = *known;
    let rd = target_of(instr);
    let mut left = written(scope, known, k, instr);
    if let TurnPlace::Word(word) = place {
        if loaded_word(scope, k) == Some(word) {
            left = known.own;
        }
        then.own = match stored_word(scope, k) {
            Some(stored) if stored.number == word => known.of(stored.register),
            _ => {
                if is_missed(scope, k, word) {
                    known.own
                } else {
                    Relation::Unknown
                }
            }
        };
    }
    if matches!(&place, TurnPlace::Input) && is_read(scope, k) {
        left = Relation::Read(consumed_by(known.own));
    }
    then.set(rd, left);
    then
}

// Behind a call that comes back.
fn behind_call(
    scope: &Scope<'_>,
    place: TurnPlace,
    known: &Known,
    k: usize,
    callee: Callee,
) -> Known {
    let mut then = *known;
    for r in 1..32 {
        if !scope.restores(callee.function, r) || !keeps(r, scope.instr(k)) {
            then.set(r, Relation::Unknown);
        }
    }
    if let TurnPlace::Word(word) = place {
        if !is_safe(scope, k, callee, word) {
            then.own = Relation::Unknown;
        }
    }
    then
}

/// What is known behind the instruction of a node.
pub fn behind(scope: &Scope<'_>, place: TurnPlace, known: &Known, k: usize) -> Known {
    match scope.callee_of(k) {
        Some(callee) => behind_call(scope, place, known, k, callee),
        None => behind_step(scope, place, known, k),
    }
}

// Whether a register that has a number below the one at the header is left, and not 0 on the way to a node.
fn is_proof(scope: &Scope<'_>, known: &Known, k: usize, to: usize, r: u8) -> bool {
    if !matches!(known.of(r), Relation::Below(_, _)) || !keeps(r, scope.instr(k)) {
        return false;
    }
    let (least, _) = limits(scope.arc_on(k, to, r));
    least > 0
}

/// Whether the number at the header isn't 0 on the way from a node to another.
pub fn is_used_on(scope: &Scope<'_>, known: &Known, k: usize, to: usize) -> bool {
    if known.used {
        return true;
    }
    for r in 1..32 {
        if is_proof(scope, known, k, to, r) {
            return true;
        }
    }
    false
}

/// What both say.
pub fn joined(p: Relation, q: Relation) -> Relation {
    match (p, q) {
        (Relation::Ahead(low, many), Relation::Ahead(start, few)) => hull(low, many, start, few),
        (Relation::Below(less, shift), Relation::Below(other, further)) => {
            Relation::Below(less.min(other), shift.min(further))
        }
        (Relation::Above(more), Relation::Above(other)) => Relation::Above(more.min(other)),
        (Relation::Read(less), Relation::Read(other)) => Relation::Read(less.min(other)),
        _ => Relation::Unknown,
    }
}

// The numbers from one on, with so many more at least, up to an end that is so far behind it.
fn up_to(low: u32, more: u32, end: Option<u32>) -> Relation {
    match end {
        Some(end) => Relation::Ahead(low, end.max(more)),
        None => Relation::Unknown,
    }
}

// The shorter one of two intervals.
fn shorter(p: Relation, q: Relation) -> Relation {
    match (p, q) {
        (Relation::Ahead(_, many), Relation::Ahead(_, few)) => { if many <= few { p } else { q } }
        (Relation::Unknown, _) => q,
        _ => p,
    }
}

// The shorter one of the intervals that hold both.
fn hull(low: u32, many: u32, start: u32, few: u32) -> Relation {
    let end = start.wrapping_sub(low).checked_add(few);
    let other = low.wrapping_sub(start).checked_add(many);
    shorter(up_to(low, many, end), up_to(start, few, other))
}

fn is_same(p: Relation, q: Relation) -> bool {
    match (p, q) {
        (Relation::Unknown, Relation::Unknown) => true,
        (Relation::Ahead(low, many), Relation::Ahead(start, few)) => low == start && many == few,
        (Relation::Below(less, shift), Relation::Below(other, further)) => {
            less == other && shift == further
        }
        (Relation::Above(more), Relation::Above(other)) => more == other,
        (Relation::Read(less), Relation::Read(other)) => less == other,
        _ => false,
    }
}

// What both say, or nothing where it goes on changing.
fn met(p: Relation, q: Relation, ends: bool) -> Relation {
    let both = joined(p, q);
    if ends && !is_same(both, p) {
        Relation::Unknown
    } else {
        both
    }
}

impl Known {
    /// Takes what another way says as well. Whether it says less now.
    pub fn join(&mut self, other: &Known, ends: bool) -> bool {
        let mut changed = false;
        for r in 0..32 {
            let both = met(self.row[r], other.row[r], ends);
            changed = changed || !is_same(both, self.row[r]);
            self.row[r] = both;
        }
        let own = met(self.own, other.own, ends);
        let used = self.used && other.used;
        changed = changed || !is_same(own, self.own) || used != self.used;
        self.own = own;
        self.used = used;
        changed
    }
}

// What is so of the first register of a comparison by the relation of the second one, and of the second one by that of the first.
fn related_by(op: BranchOp, first: Relation, second: Relation) -> (Relation, Relation) {
    match op {
        BranchOp::Beq => (second, first),
        BranchOp::Bne => (Relation::Unknown, Relation::Unknown),
        BranchOp::Blt | BranchOp::Bltu => (lesser(second, 1), greater(first, 1)),
        BranchOp::Bge | BranchOp::Bgeu => (greater(second, 0), lesser(first, 0)),
    }
}

fn greater(q: Relation, n: u32) -> Relation {
    match q {
        Relation::Above(more) => Relation::Above(more.saturating_add(n)),
        _ => Relation::Unknown,
    }
}

fn lesser(q: Relation, n: u32) -> Relation {
    match q {
        Relation::Below(less, shift) => Relation::Below(less.saturating_add(n), shift),
        _ => Relation::Unknown,
    }
}

// Whether numbers compare as words.
fn are_ordered(op: BranchOp, first: Option<Arc>, second: Option<Arc>) -> bool {
    if first.is_none() || second.is_none() {
        return false;
    }
    match op {
        BranchOp::Blt => limits(first).1 < 0x8000_0000,
        BranchOp::Bge => limits(second).1 < 0x8000_0000,
        _ => true,
    }
}

/// What is known on the way from a node to another, by what is known behind the node's instruction, and by what a branch says there.
pub fn on_way(scope: &Scope<'_>, then: &Known, k: usize, to: usize) -> Known {
    let mut known = *then;
    if let Some(said) = scope.said(k, to) {
        let (i, j) = (scope.arc(k, said.first), scope.arc(k, said.second));
        if are_ordered(said.op, i, j) {
            let (p, q) = (then.of(said.first), then.of(said.second));
            let (first, second) = related_by(said.op, p, q);
            known.set(said.first, either(p, first));
            known.set(said.second, either(q, second));
        }
    }
    known
}
