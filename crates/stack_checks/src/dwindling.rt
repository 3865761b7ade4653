//! Numbers that are divided over an edge that is no call, and what follows for the registers that count how often.

ghost use Rattle.std.specs.Prelude.{◌≡◌, ◌+◌, ◌*◌, ◌^◌, ◌<◌, ◌≤◌, ℕ, length, is_some, IfSome, Some, None, true};
ghost use Rattle.std.specs.List.{All};
ghost use Rattle.scale_base.specs.declared.instruction.Instr.TheVariants.{Imm, Reg};
ghost use Rattle.scale_base.specs.Arith.{unsigned};
ghost use Rattle.bound_laws.specs.Values as values;
ghost use Rattle.stack_laws.specs.Digits as digits;
ghost use Rattle.wrapped_intervals.specs.Small.{IsFoundOr};
ghost use Rattle.stack_tables.specs.Tables.{IsDwindlingKept, IsStackClaim, address, stacks_in};
ghost use Rattle.stack_checks.specs.Checked.{IsCountedAlong, IsDividedOn, IsDwindlingAlong, IsDwindlingByAlong, IsLessAlong, IsLimit, IsLimitOf, IsSomeDivided, IsSomeLimit, IsWay, dwindling_before, from, passed_along, stacks_along, to, values_along};

use crate::ways::{Way, held_on, is_left, is_within, passed_on};
use scale_base::{ImmOp, Instr, RegOp};
use stack_tables::{Dwindling, StackClaim, dwindling, held_at};
use wrapped_intervals::{Arc, top_of};

// ---- powers of two

// The exponent of a power of two that is at most a number.
fn exponent(n: u64) -> Option<u32>
    ensures { IfSome result (λ bits. 2 ^ bits ≤ n) }
{
    if n == 0 { None } else { Some(n.ilog2()) }
}

// How many bits a number has.
fn bits_of(n: u64) -> u32
    requires { n < 2 ^ 32 }
    ensures { n < 2 ^ result }
{
    (2 * n + 1).ilog2()
}

// The least number of an interval.
fn least_of(i: Option<Arc>) -> u64
    requires { IsFoundOr i }
    ensures { result ≡ values.least_of i }
{
    match i {
        Some(i) => i.least(),
        None => 0,
    }
}

// ---- how many bits a number loses

// Whether a register holds a word below 2^31 before the instruction.
fn is_low(way: &Way<'_>, r: u8) -> bool
    requires { IsWay way.now }
    ensures { result ≡ true → digits.IsLow (values_along way.now) (from way.now) r }
{
    let held = held_at(way.claim, way.from, r);
    held.is_some() && top_of(held) < 2_147_483_648
}

// Whether each of two does.
fn are_low(way: &Way<'_>, r: u8, s: u8) -> bool
    requires { IsWay way.now }
    ensures first { result ≡ true → digits.IsLow (values_along way.now) (from way.now) r }
    ensures second { result ≡ true → digits.IsLow (values_along way.now) (from way.now) s }
{
    is_low(way, r) && is_low(way, s)
}

// Whether it holds 0.
fn is_zero(way: &Way<'_>, r: u8) -> bool
    requires { IsWay way.now }
    ensures { result ≡ true → digits.IsZero (values_along way.now) (from way.now) r }
{
    let held = held_at(way.claim, way.from, r);
    held.is_some() && top_of(held) == 0
}

// How many bits a quotient by a register is shorter.
fn quotient_bits(way: &Way<'_>, r: u8) -> Option<u32>
    requires { IsWay way.now }
    ensures { IfSome result (λ lost. 2 ^ lost ≤ values.least_of (values.held ((values_along way.now).at (from way.now)) r)) }
{
    exponent(least_of(held_at(way.claim, way.from, r)))
}

// How many bits the high word of a product with a register is shorter than the other number.
fn product_bits(way: &Way<'_>, r: u8) -> Option<u32>
    requires { IsWay way.now }
    ensures { IfSome result (λ lost. digits.IsShort (values_along way.now) (from way.now) r lost) }
{
    let held = held_at(way.claim, way.from, r);
    let bits = bits_of(top_of(held));
    if held.is_some() && bits <= 32 {
        Some(32 - bits)
    } else {
        None
    }
}

// How many bits a shift shifts.
fn shift(n: i32) -> Option<u32>
    ensures { IfSome result (λ lost. (unsigned n ≡ lost) × (lost < 32)) }
{
    if 0 <= n && n < 32 {
        Some(n.cast_unsigned())
    } else {
        None
    }
}

// Whether a number is 0.
fn is_nothing(n: i32) -> bool
    ensures { result ≡ true → unsigned n ≡ 0 }
{
    n == 0
}

// How many bits y's number behind an operation with a number is shorter than z's before it.
fn lost_with(way: &Way<'_>, op: ImmOp, n: i32, z: &Dwindling, y: &Dwindling) -> Option<u32>
    requires way { IsWay way.now }
    requires instruction { way.now.instr ≡ Imm op y.now.value z.now.value n }
    ensures { IfSome result (λ lost. IsLessAlong way.now z.now y.now lost) }
{
    match op {
        ImmOp::Addi => { if is_nothing(n) { Some(0) } else { None } }
        ImmOp::Srli => shift(n),
        ImmOp::Srai => { if is_low(way, z.value) { shift(n) } else { None } }
        _ => None,
    }
}

// The same of an operation of it and another register, as the first of both.
fn lost_first(way: &Way<'_>, op: RegOp, other: u8, z: &Dwindling, y: &Dwindling) -> Option<u32>
    requires way { IsWay way.now }
    requires instruction { way.now.instr ≡ Reg op y.now.value z.now.value other }
    ensures { IfSome result (λ lost. IsLessAlong way.now z.now y.now lost) }
{
    match op {
        RegOp::Divu => quotient_bits(way, other),
        RegOp::Div => {
            if are_low(way, z.value, other) {
                quotient_bits(way, other)
            } else {
                None
            }
        }
        RegOp::Mulhu => product_bits(way, other),
        RegOp::Mulh => {
            if are_low(way, z.value, other) {
                product_bits(way, other)
            } else {
                None
            }
        }
        RegOp::Add => { if is_zero(way, other) { Some(0) } else { None } }
        RegOp::Sub => { if is_zero(way, other) { Some(0) } else { None } }
        _ => None,
    }
}

// And as the second one.
fn lost_second(way: &Way<'_>, op: RegOp, other: u8, z: &Dwindling, y: &Dwindling) -> Option<u32>
    requires way { IsWay way.now }
    requires instruction { way.now.instr ≡ Reg op y.now.value other z.now.value }
    ensures { IfSome result (λ lost. IsLessAlong way.now z.now y.now lost) }
{
    match op {
        RegOp::Mulhu => product_bits(way, other),
        RegOp::Mulh => {
            if are_low(way, z.value, other) {
                product_bits(way, other)
            } else {
                None
            }
        }
        RegOp::Add => { if is_zero(way, other) { Some(0) } else { None } }
        _ => None,
    }
}

// How many bits it is shorter where the instruction writes it.
fn lost_written(way: &Way<'_>, z: &Dwindling, y: &Dwindling) -> Option<u32>
    requires { IsWay way.now }
    ensures { IfSome result (λ lost. IsLessAlong way.now z.now y.now lost) }
{
    match way.instr {
        Instr::Imm { op, rd, rs1, imm } => {
            if rd == y.value && rs1 == z.value {
                lost_with(way, op, imm, z, y)
            } else {
                None
            }
        }
        Instr::Reg { op, rd, rs1, rs2 } => {
            if rd == y.value && rs1 == z.value {
                lost_first(way, op, rs2, z, y)
            } else if rd == y.value && rs2 == z.value {
                lost_second(way, op, rs1, z, y)
            } else {
                None
            }
        }
        _ => None,
    }
}

// How many bits it is shorter at least, where it is no longer.
fn lost_by(way: &Way<'_>, z: &Dwindling, y: &Dwindling) -> Option<u32>
    requires { IsWay way.now }
    ensures { IfSome result (λ lost. IsLessAlong way.now z.now y.now lost) }
{
    if is_left(way, y.value) && z.value == y.value {
        Some(0)
    } else {
        lost_written(way, z, y)
    }
}

// ---- what it is counted by

// How much greater an operation of z's count and a number makes y's.
fn more_with(way: &Way<'_>, op: ImmOp, n: i32, z: &Dwindling, y: &Dwindling) -> Option<u32>
    requires way { IsWay way.now }
    requires instruction { way.now.instr ≡ Imm op y.now.count z.now.count n }
    ensures { IfSome result (λ more. IsCountedAlong way.now z.now y.now more) }
{
    match op {
        ImmOp::Addi => Some(n.cast_unsigned()),
        _ => None,
    }
}

// How much greater it is where the instruction writes it.
fn more_written(way: &Way<'_>, z: &Dwindling, y: &Dwindling) -> Option<u32>
    requires { IsWay way.now }
    ensures { IfSome result (λ more. IsCountedAlong way.now z.now y.now more) }
{
    match way.instr {
        Instr::Imm { op, rd, rs1, imm } => {
            if rd == y.count && rs1 == z.count {
                more_with(way, op, imm, z, y)
            } else {
                None
            }
        }
        _ => None,
    }
}

// How much greater it is behind the instruction at most than z's before it.
fn more_by(way: &Way<'_>, z: &Dwindling, y: &Dwindling) -> Option<u32>
    requires { IsWay way.now }
    ensures { IfSome result (λ more. IsCountedAlong way.now z.now y.now more) }
{
    if is_left(way, y.count) && z.count == y.count {
        Some(0)
    } else {
        more_written(way, z, y)
    }
}

// ---- over an edge

// Whether what z says is enough for y, where so many bits are lost and so much more is counted.
fn is_enough(z: &Dwindling, y: &Dwindling, lost: u32, more: u32) -> bool
    ensures bits { result ≡ true → z.now.bits ≡ y.now.bits }
    ensures room { result ≡ true → z.now.below + y.now.bits * more ≤ y.now.below + lost }
{
    z.bits == y.bits
        && u64::from(z.below) + u64::from(y.bits) * u64::from(more)
            <= u64::from(y.below) + u64::from(lost)
}

// Whether the instruction makes y of z.
fn is_divided_on(way: &Way<'_>, z: &Dwindling, y: &Dwindling) -> bool
    requires { IsWay way.now }
    ensures { result ≡ true → IsDividedOn way.now z.now y.now }
{
    match (lost_by(way, z, y), more_by(way, z, y)) {
        (Some(lost), Some(more)) => is_enough(z, y, lost, more),
        _ => false,
    }
}

// Whether it makes y of some of a row.
fn is_some_divided(way: &Way<'_>, row: &[Dwindling], y: &Dwindling) -> bool
    requires { IsWay way.now }
    ensures { result ≡ true → IsSomeDivided way.now row.now y.now }
{
    for z in row {
        if is_divided_on(way, z, y) {
            return true;
        }
    }
    false
}

// Whether a number below such a power of two, and a count that is at most so much, are so.
fn is_room(y: &Dwindling, bits: u32, count: u64) -> bool
    requires { count < 2 ^ 32 }
    ensures { result ≡ true → bits + y.now.bits * count ≤ y.now.below }
{
    u64::from(bits) + u64::from(y.bits) * count <= u64::from(y.below)
}

// Whether the number and the count are so by their intervals, which are these.
fn is_so_by(way: &Way<'_>, y: &Dwindling, value: Arc, count: Arc) -> bool
    requires value { passed_along way.now y.now.value ≡ Some value }
    requires count { passed_along way.now y.now.count ≡ Some count }
    requires value_found { IsFoundOr (Some value) }
    requires count_found { IsFoundOr (Some count) }
    ensures { result ≡ true → IsDwindlingByAlong way.now y.now }
{
    let most = top_of(Some(count));
    let bits = bits_of(top_of(Some(value)));
    is_room(y, bits, most)
}

// The same, where they are known.
fn is_so_anyway(way: &Way<'_>, y: &Dwindling) -> bool
    requires way { IsWay way.now }
    requires pair { IsDwindlingKept y.now }
    ensures { result ≡ true → IsDwindlingByAlong way.now y.now }
{
    match (passed_on(way, y.value), passed_on(way, y.count)) {
        (Some(value), Some(count)) => is_so_by(way, y, value, count),
        _ => false,
    }
}

// Whether what is divided where the way leads is so behind the instruction.
fn is_dwindling(way: &Way<'_>, y: &Dwindling) -> bool
    requires way { IsWay way.now }
    requires pair { IsDwindlingKept y.now }
    ensures { result ≡ true → IsDwindlingAlong way.now y.now }
{
    if is_so_anyway(way, y) {
        return true;
    }
    is_some_divided(way, dwindling(way.claim, way.from), y)
}

// The same of all of a row.
fn are_all_dwindling(way: &Way<'_>, row: &[Dwindling]) -> bool
    requires way { IsWay way.now }
    requires row { All IsDwindlingKept row.now }
    ensures { result ≡ true → All (λ y. IsDwindlingAlong way.now y) row.now }
{
    for y in row {
        if !is_dwindling(way, y) {
            return false;
        }
    }
    true
}

/// Whether all that is divided where the way leads is so behind the instruction.
pub fn are_dwindling_passed(way: &Way<'_>) -> bool
    requires { IsWay way.now }
    ensures { result ≡ true → (j : ℕ) → digits.IsDwindlingBehind (values_along way.now) (dwindling_before way.now) way.now.instr
        (from way.now) (to way.now) ((stacks_along way.now).dwindling (to way.now) j) }
{
    are_all_dwindling(way, dwindling(way.claim, way.to))
}

/// Whether nothing is said of what is divided at node n.
pub fn is_none_dwindling(claim: &StackClaim<'_>, n: usize) -> bool
    requires claim { IsStackClaim claim.now }
    requires node { n < length claim.now.graph.now.code.nodes }
    ensures { result ≡ true → (j : ℕ) → (stacks_in claim.now).dwindling (address claim.now n) j ≡ None }
{
    dwindling(claim, n).is_empty()
}

// ---- registers

// How much the count is at most, where the number is at least a power of two.
fn most_of(z: &Dwindling, bits: u32) -> Option<u64>
    requires { IsDwindlingKept z.now }
    ensures enough { IfSome result (λ most. z.now.below ≤ bits + z.now.bits * (most + 1)) }
    ensures small { IfSome result (λ most. most < 2 ^ 32) }
{
    if z.bits == 0 {
        None
    } else {
        let rest = u64::from(z.below).saturating_sub(u64::from(bits));
        Some(rest.saturating_sub(1) / u64::from(z.bits))
    }
}

// Whether a register's interval where the way leads holds what z says of it, where z's number is at least such a power of two on the way.
fn is_limited_at(way: &Way<'_>, z: &Dwindling, r: u8, bits: u32) -> bool
    requires way { IsWay way.now }
    requires z { IsDwindlingKept z.now }
    requires register { r < 32 }
    requires least { 2 ^ bits ≤ values.least_of (values.held (passed_along way.now) z.now.value) }
    ensures { result ≡ true → IsLimit way.now r z.now }
{
    match most_of(z, bits) {
        Some(most) => is_within(way, r, Arc::of(0, most)),
        None => false,
    }
}

// Whether it holds what z says of it.
fn is_limited(way: &Way<'_>, z: &Dwindling, r: u8) -> bool
    requires way { IsWay way.now }
    requires z { IsDwindlingKept z.now }
    requires register { r < 32 }
    ensures { result ≡ true → IsLimit way.now r z.now }
{
    match exponent(least_of(held_on(way, z.value))) {
        Some(bits) => is_limited_at(way, z, r, bits),
        None => false,
    }
}

// Whether the interval of a register is known before the instruction.
fn is_known(way: &Way<'_>, r: u8) -> bool
    requires { IsWay way.now }
    ensures { result ≡ true → is_some (values.held ((values_along way.now).at (from way.now)) r) ≡ true }
{
    held_at(way.claim, way.from, r).is_some()
}

// Whether z counts by the register, and says what its interval holds.
fn is_limit_of(way: &Way<'_>, z: &Dwindling, r: u8) -> bool
    requires way { IsWay way.now }
    requires z { IsDwindlingKept z.now }
    requires register { r < 32 }
    ensures { result ≡ true → IsLimitOf way.now r z.now }
{
    if z.count != r {
        return false;
    }
    if !is_left(way, r) {
        return false;
    }
    if !is_left(way, z.value) {
        return false;
    }
    if !is_known(way, r) {
        return false;
    }
    is_limited(way, z, r)
}

// Whether some of a row does.
fn is_some_limit(way: &Way<'_>, row: &[Dwindling], r: u8) -> bool
    requires way { IsWay way.now }
    requires row { All IsDwindlingKept row.now }
    requires register { r < 32 }
    ensures { result ≡ true → IsSomeLimit way.now row.now r }
{
    for z in row {
        if is_limit_of(way, z, r) {
            return true;
        }
    }
    false
}

/// Whether a register's interval where the way leads holds how often a number can be divided that it counts.
pub fn is_limited_by(way: &Way<'_>, r: u8) -> bool
    requires way { IsWay way.now }
    requires register { r < 32 }
    ensures { result ≡ true → digits.IsLimitedBy (values_along way.now) (dwindling_before way.now) way.now.instr (from way.now)
        (to way.now) r }
{
    is_some_limit(way, dwindling(way.claim, way.from), r)
}
