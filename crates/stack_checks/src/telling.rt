//! What registers tell of others over an edge that is no call, and what follows for a register's interval.

ghost use Rattle.std.specs.Prelude.{◌≡◌, ◌<◌, ◌⊎◌, ℕ, length, is_some, not, Some, None, true};
ghost use Rattle.std.specs.List.{All};
ghost use Rattle.scale_base.specs.declared.instruction.BranchOp.{BranchOp};
ghost use Rattle.scale_base.specs.declared.instruction.Instr.TheVariants.{Imm, Reg};
ghost use Rattle.scale_base.specs.Arith.{unsigned};
ghost use Rattle.bound_laws.specs.Registers.{keeps};
ghost use Rattle.bound_laws.specs.Values as values;
ghost use Rattle.bound_laws.specs.Values.{Values};
ghost use Rattle.stack_laws.specs.Telling as telling;
ghost use Rattle.wrapped_intervals.specs.Small.{IsFoundOr};
ghost use Rattle.stack_tables.specs.Tables.{IsStackClaim, IsToldKept, address, stacks_in, told_view};
ghost use Rattle.stack_checks.specs.Checked.{IsComparedAlong, IsHandedAlong, IsHandedOn, IsSomeHanded, IsSomeTeller, IsTellerOf, IsToldAlong, IsWay, from, passed_along, stacks_along, to, told_before, values_along};

use crate::ways::{Way, held_on, is_left, is_within, passed_on};
use scale_base::{BranchOp, ImmOp, Instr, RegOp};
use stack_tables::{StackClaim, Told, held_at, told};
use wrapped_intervals::{
    Arc, ahead, covers, exactly, first_by, keeps, opposite_of, second_by, sum_with,
};

// ---- comparisons

// The comparison that holds where another one doesn't.
fn opposite(op: BranchOp) -> BranchOp
    ensures { result ≡ values.opposite op }
{
    match op {
        BranchOp::Beq => BranchOp::Bne,
        BranchOp::Bne => BranchOp::Beq,
        BranchOp::Blt => BranchOp::Bge,
        BranchOp::Bge => BranchOp::Blt,
        BranchOp::Bltu => BranchOp::Bgeu,
        BranchOp::Bgeu => BranchOp::Bltu,
    }
}

// The one that holds where what is written is 0, if `zero`, or isn't, otherwise.
fn test_where(zero: bool, op: BranchOp) -> BranchOp
    ensures { result ≡ telling.test_where zero op }
{
    if zero { opposite(op) } else { op }
}

// The comparison that an operation with a number writes.
fn imm_test(op: ImmOp) -> Option<BranchOp>
    ensures { result ≡ telling.imm_test op }
{
    match op {
        ImmOp::Slti => Some(BranchOp::Blt),
        ImmOp::Sltiu => Some(BranchOp::Bltu),
        ImmOp::Addi | ImmOp::Xori => Some(BranchOp::Bne),
        _ => None,
    }
}

// The word with which an operation with a number compares.
fn compared_with(op: ImmOp, n: u32) -> u64
    ensures { result ≡ telling.compared_with op n }
{
    match op {
        ImmOp::Addi => opposite_of(u64::from(n)),
        _ => u64::from(n),
    }
}

// The one that an operation of two registers writes.
fn reg_test(op: RegOp) -> Option<BranchOp>
    ensures { result ≡ telling.reg_test op }
{
    match op {
        RegOp::Slt => Some(BranchOp::Blt),
        RegOp::Sltu => Some(BranchOp::Bltu),
        RegOp::Sub | RegOp::Xor => Some(BranchOp::Bne),
        _ => None,
    }
}

// Whether what is told holds the numbers of the register that compare so with a number.
fn is_told_by_number(way: &Way<'_>, y: &Told, test: BranchOp, n: u64) -> bool
    requires way { IsWay way.now }
    requires told { IsToldKept y.now }
    ensures { result ≡ true → values.Covers (Some y.now.arc) (values.first_by (telling.test_where y.now.zero test)
        (values.held ((values_along way.now).at (from way.now)) y.now.about) (values.exactly n)) }
{
    covers(
        Some(y.arc),
        first_by(
            test_where(y.zero, test),
            held_at(way.claim, way.from, y.about),
            exactly(n),
        ),
    )
}

// Or with those of another register, as the first of both.
fn is_told_by_first(way: &Way<'_>, y: &Told, test: BranchOp, other: u8) -> bool
    requires way { IsWay way.now }
    requires told { IsToldKept y.now }
    ensures { result ≡ true → values.Covers (Some y.now.arc) (values.first_by (telling.test_where y.now.zero test)
        (values.held ((values_along way.now).at (from way.now)) y.now.about)
        (values.held ((values_along way.now).at (from way.now)) other)) }
{
    covers(
        Some(y.arc),
        first_by(
            test_where(y.zero, test),
            held_at(way.claim, way.from, y.about),
            held_at(way.claim, way.from, other),
        ),
    )
}

// Or as the second one.
fn is_told_by_second(way: &Way<'_>, y: &Told, test: BranchOp, other: u8) -> bool
    requires way { IsWay way.now }
    requires told { IsToldKept y.now }
    ensures { result ≡ true → values.Covers (Some y.now.arc) (values.second_by (telling.test_where y.now.zero test)
        (values.held ((values_along way.now).at (from way.now)) other)
        (values.held ((values_along way.now).at (from way.now)) y.now.about)) }
{
    covers(
        Some(y.arc),
        second_by(
            test_where(y.zero, test),
            held_at(way.claim, way.from, other),
            held_at(way.claim, way.from, y.about),
        ),
    )
}

// Whether a comparison with a number, of the register that is told about, says what is told.
fn is_number_compared(way: &Way<'_>, y: &Told, op: ImmOp, n: i32) -> bool
    requires way { IsWay way.now }
    requires told { IsToldKept y.now }
    requires instruction { way.now.instr ≡ Imm op y.now.teller y.now.about n }
    ensures { result ≡ true → IsComparedAlong way.now y.now }
{
    match imm_test(op) {
        Some(test) => { is_told_by_number(way, y, test, compared_with(op, n.cast_unsigned())) }
        None => false,
    }
}

// Whether a comparison of it with another one does, as the first of both.
fn is_first_compared(way: &Way<'_>, y: &Told, op: RegOp, other: u8) -> bool
    requires way { IsWay way.now }
    requires told { IsToldKept y.now }
    requires instruction { way.now.instr ≡ Reg op y.now.teller y.now.about other }
    ensures { result ≡ true → IsComparedAlong way.now y.now }
{
    match reg_test(op) {
        Some(test) => is_told_by_first(way, y, test, other),
        None => false,
    }
}

// And as the second one.
fn is_second_compared(way: &Way<'_>, y: &Told, op: RegOp, other: u8) -> bool
    requires way { IsWay way.now }
    requires told { IsToldKept y.now }
    requires instruction { way.now.instr ≡ Reg op y.now.teller other y.now.about }
    ensures { result ≡ true → IsComparedAlong way.now y.now }
{
    match reg_test(op) {
        Some(test) => is_told_by_second(way, y, test, other),
        None => false,
    }
}

// Whether a comparison of two registers says what is told of one of them.
fn is_pair_compared(way: &Way<'_>, y: &Told, op: RegOp, rs1: u8, rs2: u8) -> bool
    requires way { IsWay way.now }
    requires told { IsToldKept y.now }
    requires instruction { way.now.instr ≡ Reg op y.now.teller rs1 rs2 }
    ensures { result ≡ true → IsComparedAlong way.now y.now }
{
    if rs1 == y.about {
        return is_first_compared(way, y, op, rs2);
    }
    if rs2 == y.about {
        return is_second_compared(way, y, op, rs1);
    }
    false
}

// Whether the instruction writes a comparison to the teller that says what is told.
fn is_compared(way: &Way<'_>, y: &Told) -> bool
    requires way { IsWay way.now }
    requires told { IsToldKept y.now }
    ensures { result ≡ true → IsComparedAlong way.now y.now }
{
    match way.instr {
        Instr::Imm { op, rd, rs1, imm } => {
            if rd == y.teller && rs1 == y.about {
                is_number_compared(way, y, op, imm)
            } else {
                false
            }
        }
        Instr::Reg { op, rd, rs1, rs2 } => {
            if rd == y.teller {
                is_pair_compared(way, y, op, rs1, rs2)
            } else {
                false
            }
        }
        _ => false,
    }
}

// ---- what an instruction hands on

// Whether it leaves the teller, which is z's too.
fn is_teller_left(way: &Way<'_>, z: &Told, y: &Told) -> bool
    requires { IsWay way.now }
    ensures { result ≡ true → IsHandedAlong way.now z.now y.now }
{
    keeps(y.teller, way.instr) && z.teller == y.teller && z.zero == y.zero
}

// Whether z's teller is known to be 0 or 1.
fn is_truth(way: &Way<'_>, z: &Told) -> bool
    requires { IsWay way.now }
    ensures { result ≡ true → values.Covers (Some (values.arc 0 1))
        (values.held ((values_along way.now).at (from way.now)) z.now.teller) }
{
    covers(Some(Arc::of(0, 1)), held_at(way.claim, way.from, z.teller))
}

// Whether z's teller is known to be a word.
fn is_word(way: &Way<'_>, z: &Told) -> bool
    requires { IsWay way.now }
    ensures { result ≡ true → is_some (values.held ((values_along way.now).at (from way.now)) z.now.teller) ≡ true }
{
    held_at(way.claim, way.from, z.teller).is_some()
}

// Whether the number is 0, and both tell where it is the same.
fn is_same_by(n: i32, z: &Told, y: &Told) -> bool
    ensures number { result ≡ true → unsigned n ≡ 0 }
    ensures kind { result ≡ true → z.now.zero ≡ y.now.zero }
{
    n == 0 && z.zero == y.zero
}

// Whether it is 1, and one tells where the other doesn't.
fn is_turned_by(n: i32, z: &Told, y: &Told) -> bool
    ensures number { result ≡ true → unsigned n ≡ 1 }
    ensures kind { result ≡ true → z.now.zero ≡ not y.now.zero }
{
    n == 1 && z.zero != y.zero
}

// Whether both tell where their tellers are 0, if `zero`, or aren't, otherwise.
fn are_both(zero: bool, z: &Told, y: &Told) -> bool
    ensures z { result ≡ true → z.now.zero ≡ zero }
    ensures y { result ≡ true → y.now.zero ≡ zero }
{
    z.zero == zero && y.zero == zero
}

// Whether an operation of z's teller and a number makes y's: a copy, a test for 0, a 0 or 1 turned round, or a mask.
fn is_handed_with(way: &Way<'_>, op: ImmOp, n: i32, z: &Told, y: &Told) -> bool
    requires way { IsWay way.now }
    requires instruction { way.now.instr ≡ Imm op y.now.teller z.now.teller n }
    ensures { result ≡ true → IsHandedAlong way.now z.now y.now }
{
    match op {
        ImmOp::Addi => is_same_by(n, z, y) && is_word(way, z),
        ImmOp::Sltiu => is_turned_by(n, z, y),
        ImmOp::Xori => is_turned_by(n, z, y) && is_truth(way, z),
        ImmOp::Andi => are_both(false, z, y),
        _ => false,
    }
}

// Whether a register is one of two.
fn is_one_of(r: u8, rs1: u8, rs2: u8) -> bool
    ensures { result ≡ true → (rs1 ≡ r) ⊎ (rs2 ≡ r) }
{
    rs1 == r || rs2 == r
}

// Whether an operation of two registers makes it of z's: a test for another number than 0, or both joined.
fn is_handed_of(op: RegOp, rs1: u8, rs2: u8, z: &Told, y: &Told) -> bool
    ensures { result ≡ true → (v : Values) → (a : ℕ) → telling.IsHanded v (Reg op y.now.teller rs1 rs2) a (told_view z.now)
        (told_view y.now) }
{
    match op {
        RegOp::Sltu => rs1 == 0 && rs2 == z.teller && z.zero == y.zero,
        RegOp::And => are_both(false, z, y) && is_one_of(z.teller, rs1, rs2),
        RegOp::Or => are_both(true, z, y) && is_one_of(z.teller, rs1, rs2),
        _ => false,
    }
}

// Whether y's teller is so behind the instruction only where z's was so before it.
fn is_handed(way: &Way<'_>, z: &Told, y: &Told) -> bool
    requires { IsWay way.now }
    ensures { result ≡ true → IsHandedAlong way.now z.now y.now }
{
    if is_teller_left(way, z, y) {
        return true;
    }
    match way.instr {
        Instr::Imm { op, rd, rs1, imm } => {
            if rd == y.teller && rs1 == z.teller {
                is_handed_with(way, op, imm, z, y)
            } else {
                false
            }
        }
        Instr::Reg { op, rd, rs1, rs2 } => {
            if rd == y.teller {
                is_handed_of(op, rs1, rs2, z, y)
            } else {
                false
            }
        }
        _ => false,
    }
}

// Whether the instruction leaves what is told about, which z tells about too, in an interval that holds z's.
fn is_about_left(way: &Way<'_>, z: &Told, y: &Told) -> bool
    requires z { IsToldKept z.now }
    requires y { IsToldKept y.now }
    ensures { result ≡ true → telling.IsCarried way.now.instr (told_view z.now) (told_view y.now) }
{
    keeps(y.about, way.instr) && z.about == y.about && covers(Some(y.arc), Some(z.arc))
}

// Whether an interval holds what is so much more than what z tells.
fn is_more(z: &Told, y: &Told, n: u32) -> bool
    requires z { IsToldKept z.now }
    requires y { IsToldKept y.now }
    ensures { result ≡ true → values.Covers (Some y.now.arc) (values.sum_with (Some z.now.arc) n) }
{
    covers(Some(y.arc), sum_with(Some(z.arc), u64::from(n)))
}

// Whether an operation of what z tells about and a number makes what y tells about: a sum.
fn is_summed(way: &Way<'_>, op: ImmOp, n: i32, z: &Told, y: &Told) -> bool
    requires z { IsToldKept z.now }
    requires y { IsToldKept y.now }
    requires instruction { way.now.instr ≡ Imm op y.now.about z.now.about n }
    ensures { result ≡ true → telling.IsCarried way.now.instr (told_view z.now) (told_view y.now) }
{
    match op {
        ImmOp::Addi => is_more(z, y, n.cast_unsigned()),
        _ => false,
    }
}

// Whether what y tells about is in its interval behind the instruction where what z tells about was in its own before it.
fn is_carried(way: &Way<'_>, z: &Told, y: &Told) -> bool
    requires z { IsToldKept z.now }
    requires y { IsToldKept y.now }
    ensures { result ≡ true → telling.IsCarried way.now.instr (told_view z.now) (told_view y.now) }
{
    if is_about_left(way, z, y) {
        return true;
    }
    match way.instr {
        Instr::Imm { op, rd, rs1, imm } => {
            if rd == y.about && rs1 == z.about {
                is_summed(way, op, imm, z, y)
            } else {
                false
            }
        }
        _ => false,
    }
}

// Both.
fn is_handed_on(way: &Way<'_>, z: &Told, y: &Told) -> bool
    requires way { IsWay way.now }
    requires z { IsToldKept z.now }
    requires y { IsToldKept y.now }
    ensures { result ≡ true → IsHandedOn way.now z.now y.now }
{
    if !is_handed(way, z, y) {
        return false;
    }
    is_carried(way, z, y)
}

// Whether some of what a row tells is handed on so.
fn is_some_handed(way: &Way<'_>, row: &[Told], y: &Told) -> bool
    requires way { IsWay way.now }
    requires row { All IsToldKept row.now }
    requires y { IsToldKept y.now }
    ensures { result ≡ true → IsSomeHanded way.now row.now y.now }
{
    for z in row {
        if is_handed_on(way, z, y) {
            return true;
        }
    }
    false
}

// ---- what is told where the way leads

// Whether all numbers of an interval are 0, if `zero`, or none is, otherwise.
fn are_so(zero: bool, i: Option<Arc>) -> bool
    requires i { IsFoundOr i }
    ensures { result ≡ true → telling.AreSo zero i }
{
    match (zero, i) {
        (true, Some(i)) => i.low() == 0 && i.more() == 0,
        (false, Some(i)) => i.more() < ahead(i.low(), 0),
        (_, None) => false,
    }
}

// Whether the register is in the interval anyway.
fn is_anyway(way: &Way<'_>, y: &Told) -> bool
    requires way { IsWay way.now }
    requires told { IsToldKept y.now }
    ensures { result ≡ true → values.Covers (Some y.now.arc) (passed_along way.now y.now.about) }
{
    covers(Some(y.arc), passed_on(way, y.about))
}

// Whether the teller never is so.
fn is_teller_never(way: &Way<'_>, y: &Told) -> bool
    requires way { IsWay way.now }
    requires told { IsToldKept y.now }
    ensures { result ≡ true → telling.AreSo (not y.now.zero) (passed_along way.now y.now.teller) }
{
    are_so(!y.zero, passed_on(way, y.teller))
}

// Whether what is told where the way leads is so behind the instruction.
fn is_told(way: &Way<'_>, y: &Told) -> bool
    requires way { IsWay way.now }
    requires told { IsToldKept y.now }
    ensures { result ≡ true → IsToldAlong way.now y.now }
{
    if is_anyway(way, y) {
        return true;
    }
    if is_teller_never(way, y) {
        return true;
    }
    if is_left(way, y.about) && is_compared(way, y) {
        return true;
    }
    is_some_handed(way, told(way.claim, way.from), y)
}

// The same of all of a row.
fn are_all_told(way: &Way<'_>, row: &[Told]) -> bool
    requires way { IsWay way.now }
    requires row { All IsToldKept row.now }
    ensures { result ≡ true → All (λ y. IsToldAlong way.now y) row.now }
{
    for y in row {
        if !is_told(way, y) {
            return false;
        }
    }
    true
}

/// Whether all that is told where the way leads is so behind the instruction.
pub fn are_told_passed(way: &Way<'_>) -> bool
    requires { IsWay way.now }
    ensures { result ≡ true → (j : ℕ) → telling.IsToldBehind (values_along way.now) (told_before way.now) way.now.instr (from way.now)
        (to way.now) ((stacks_along way.now).told (to way.now) j) }
{
    are_all_told(way, told(way.claim, way.to))
}

/// Whether no register tells of another one at node n.
pub fn is_none_told(claim: &StackClaim<'_>, n: usize) -> bool
    requires claim { IsStackClaim claim.now }
    requires node { n < length claim.now.graph.now.code.nodes }
    ensures { result ≡ true → (j : ℕ) → (stacks_in claim.now).told (address claim.now n) j ≡ None }
{
    told(claim, n).is_empty()
}

// ---- registers

// Whether z tells that of the register, and its teller is so on the way.
fn is_teller_of(way: &Way<'_>, z: &Told, r: u8) -> bool
    requires way { IsWay way.now }
    requires z { IsToldKept z.now }
    requires register { r < 32 }
    ensures { result ≡ true → IsTellerOf way.now r z.now }
{
    if z.about != r {
        return false;
    }
    if !is_left(way, r) {
        return false;
    }
    if !is_left(way, z.teller) {
        return false;
    }
    if !are_so(z.zero, held_on(way, z.teller)) {
        return false;
    }
    is_within(way, r, z.arc)
}

// Whether some of a row does.
fn is_some_teller(way: &Way<'_>, row: &[Told], r: u8) -> bool
    requires way { IsWay way.now }
    requires row { All IsToldKept row.now }
    requires register { r < 32 }
    ensures { result ≡ true → IsSomeTeller way.now row.now r }
{
    for z in row {
        if is_teller_of(way, z, r) {
            return true;
        }
    }
    false
}

/// Whether a register's interval where the way leads holds what another one tells of it.
pub fn is_told_to(way: &Way<'_>, r: u8) -> bool
    requires way { IsWay way.now }
    requires register { r < 32 }
    ensures { result ≡ true → telling.IsToldTo (values_along way.now) (told_before way.now) way.now.instr (from way.now) (to way.now) r }
{
    is_some_teller(way, told(way.claim, way.from), r)
}
