//! Sums of two registers that an instruction makes of others, and differences that it writes.

ghost use Rattle.scale_base.specs.declared.instruction.Instr.TheVariants.{Reg};
ghost use Rattle.scale_base.specs.declared.instruction.RegOp.TheVariants.{Sub};
ghost use Rattle.std.specs.Prelude.{◌≡◌, ◌<◌, ◌*◌, ◌+◌, ◌%◌, ◌^◌, ℕ, is_some, true};
ghost use Rattle.bound_laws.specs.Registers.{keeps};
ghost use Rattle.bound_laws.specs.Values as values;
ghost use Rattle.stack_laws.specs.Making as making;
ghost use Rattle.wrapped_intervals.specs.Small.{IsKeptOr, measure_view};
ghost use Rattle.stack_checks.specs.declared.origins.Origin.TheVariants.{Plus, Sum};
ghost use Rattle.stack_checks.specs.Checked.{IsLineFrom, IsLineMadeAlong, IsOriginOf, IsSideOf, IsSubtractedAlong, IsSumAlong, IsWay, from, to, values_along};

use crate::origins::{Origin, origin_of};
use crate::ways::{Way, arc_behind, has_line_more, is_left};
use scale_base::{Instr, RegOp};
use stack_tables::{arcs, form, held_at, line, lines};
use wrapped_intervals::{Arc, Measure, covers, line_of};

/// The same sum, the other way round.
pub fn turned(m: Measure) -> Measure
    ensures { measure_view result ≡ making.turned (measure_view m) }
{
    Measure {
        register: m.other,
        factor: m.other_factor,
        other: m.register,
        other_factor: m.factor,
        shift: m.shift,
    }
}

// Both factors in one, where both registers are the same.
fn joined(m: Measure) -> Measure
    ensures { measure_view result ≡ making.joined (measure_view m) }
{
    if m.register == m.other {
        Measure {
            register: m.register,
            factor: m.factor.wrapping_add(m.other_factor),
            other: m.other,
            other_factor: 0,
            shift: m.shift,
        }
    } else {
        m
    }
}

// A sum of another first register, with so many times its factor more.
fn moved_for(m: Measure, rs: u8, more: u32) -> Measure
    ensures { measure_view result ≡ making.moved (making.taken_for (measure_view m) rs) (m.factor * more) }
{
    Measure {
        register: rs,
        factor: m.factor,
        other: m.other,
        other_factor: m.other_factor,
        shift: m.shift.wrapping_add(m.factor.wrapping_mul(more)),
    }
}

// A sum of another first register, whose factor goes to both.
fn spread(m: Measure, rs: u8) -> Measure
    ensures { measure_view result ≡ making.spread (measure_view m) rs }
{
    Measure {
        register: rs,
        factor: m.factor,
        other: m.other,
        other_factor: m.factor.wrapping_add(m.other_factor),
        shift: m.shift,
    }
}

// How much more a sum is than another one, by their shifts.
fn shift_from(m: Measure, n: Measure) -> u32
    ensures { (m.shift + result) % 2 ^ 32 ≡ n.shift }
{
    n.shift.wrapping_sub(m.shift)
}

// Whether a sum is another one but for its shift.
fn is_moved(m: Measure, n: Measure) -> bool
    ensures { result ≡ true → (more : ℕ) → (m.shift + more) % 2 ^ 32 ≡ n.shift → measure_view n ≡ making.moved (measure_view m) more }
{
    n.register == m.register
        && n.factor == m.factor
        && n.other == m.other
        && n.other_factor == m.other_factor
}

// Whether an interval holds what line k says, which is of this form, of a sum that is the same but for its shift.
fn is_sum_of(way: &Way<'_>, interval: Option<Arc>, n: Measure, k: usize, m: Measure) -> bool
    requires way { IsWay way.now }
    requires interval { IsKeptOr interval }
    requires side { IsSideOf way.now (measure_view m) k }
    ensures { result ≡ true → IsSumAlong way.now interval (measure_view n) }
{
    let more = shift_from(m, n);
    if !is_moved(m, n) {
        return false;
    }
    has_line_more(way, interval, k, more)
}

// The same, by one of both forms of line k.
fn is_sum_on(way: &Way<'_>, interval: &Option<Arc>, n: Measure, k: usize) -> bool
    requires way { IsWay way.now }
    requires interval { IsKeptOr interval.now }
    ensures { result ≡ true → IsSumAlong way.now interval.now (measure_view n) }
{
    let m = form(way.claim, k);
    if is_sum_of(way, *interval, n, k, m) {
        return true;
    }
    is_sum_of(way, *interval, n, k, turned(m))
}

// The same, by some line.
fn is_sum_by(way: &Way<'_>, interval: &Option<Arc>, n: Measure) -> bool
    requires way { IsWay way.now }
    requires interval { IsKeptOr interval.now }
    ensures { result ≡ true → IsSumAlong way.now interval.now (measure_view n) }
{
    for known in lines(way.claim, way.from) {
        if is_sum_on(way, interval, n, known.form) {
            return true;
        }
    }
    false
}

// Whether a line's interval holds a sum before the instruction, by its registers.
fn is_line_before(way: &Way<'_>, j: usize, n: Measure) -> bool
    requires { IsWay way.now }
    ensures { result ≡ true → values.Covers ((values_along way.now).lines (to way.now) j)
        (values.line_of (measure_view n) ((values_along way.now).at (from way.now))) }
{
    covers(
        line(way.claim, way.to, j),
        line_of(n, arcs(way.claim, way.from)),
    )
}

// The same, by a line.
fn is_line_by(way: &Way<'_>, j: usize, n: Measure) -> bool
    requires { IsWay way.now }
    ensures { result ≡ true → IsSumAlong way.now ((values_along way.now).lines (to way.now) j) (measure_view n) }
{
    let interval = line(way.claim, way.to, j);
    is_sum_by(way, &interval, n)
}

// The same, by its registers or by a line.
fn is_line_from(way: &Way<'_>, j: usize, n: Measure) -> bool
    requires { IsWay way.now }
    ensures { result ≡ true → IsLineFrom way.now j (measure_view n) }
{
    if is_line_before(way, j, n) {
        return true;
    }
    is_line_by(way, j, n)
}

// Whether it holds what the sum was before the instruction, which writes its first register with a sum of the other one and of register rs.
fn is_spread(way: &Way<'_>, j: usize, m: Measure, rs: u8) -> bool
    requires way { IsWay way.now }
    requires side { IsSideOf way.now (measure_view m) j }
    requires other { keeps m.other way.now.instr ≡ true }
    requires made { making.IsMade (measure_view m) way.now.instr (making.spread (measure_view m) rs) }
    ensures { result ≡ true → IsLineMadeAlong way.now j }
{
    is_line_from(way, j, spread(m, rs))
}

// The same, where it writes it with a sum of two registers, of which the other one may be one.
fn is_made_by_sum(way: &Way<'_>, j: usize, m: Measure, rs1: u8, rs2: u8) -> bool
    requires way { IsWay way.now }
    requires side { IsSideOf way.now (measure_view m) j }
    requires other { keeps m.other way.now.instr ≡ true }
    requires origin { IsOriginOf way.now m.register (Sum rs1 rs2) }
    ensures { result ≡ true → IsLineMadeAlong way.now j }
{
    if rs1 == m.other {
        return is_spread(way, j, m, rs2);
    }
    if rs2 == m.other {
        return is_spread(way, j, m, rs1);
    }
    false
}

// The same, where it writes it with so much more than register rs.
fn is_made_by_plus(way: &Way<'_>, j: usize, m: Measure, rs: u8, more: u32) -> bool
    requires way { IsWay way.now }
    requires side { IsSideOf way.now (measure_view m) j }
    requires other { keeps m.other way.now.instr ≡ true }
    requires origin { IsOriginOf way.now m.register (Plus rs more) }
    ensures { result ≡ true → IsLineMadeAlong way.now j }
{
    is_line_from(way, j, joined(moved_for(m, rs, more)))
}

// The same by where what it writes comes from.
fn is_made_of(way: &Way<'_>, j: usize, m: Measure) -> bool
    requires way { IsWay way.now }
    requires side { IsSideOf way.now (measure_view m) j }
    ensures { result ≡ true → IsLineMadeAlong way.now j }
{
    if !is_left(way, m.other) {
        return false;
    }
    match origin_of(way, m.register) {
        Origin::Plus(rs, more) => is_made_by_plus(way, j, m, rs, more),
        Origin::Sum(rs1, rs2) => is_made_by_sum(way, j, m, rs1, rs2),
        _ => false,
    }
}

/// Whether a line's interval holds what the sum was before the instruction, which writes one of its registers.
pub fn is_line_made(way: &Way<'_>, j: usize) -> bool
    requires { IsWay way.now }
    ensures { result ≡ true → IsLineMadeAlong way.now j }
{
    let m = form(way.claim, j);
    if is_made_of(way, j, m) {
        return true;
    }
    is_made_of(way, j, turned(m))
}

// ---- a difference that is written

// The difference of two registers.
fn difference(first: u8, second: u8) -> Measure
    ensures { measure_view result ≡ making.difference first second }
{
    Measure {
        register: first,
        factor: 1,
        other: second,
        other_factor: u32::MAX,
        shift: 0,
    }
}

// Whether a register's interval where the way leads holds what a line says of the difference of two registers.
fn is_difference_by(way: &Way<'_>, r: u8, first: u8, second: u8) -> bool
    requires way { IsWay way.now }
    requires register { r < 32 }
    ensures { result ≡ true → IsSumAlong way.now ((values_along way.now).at (to way.now) r) (making.difference first second) }
{
    let interval = arc_behind(way, r);
    is_sum_by(way, &interval, difference(first, second))
}

// Whether an interval is known of any number of a register before the instruction.
fn is_held(way: &Way<'_>, r: u8) -> bool
    requires { IsWay way.now }
    ensures { result ≡ true → is_some (values.held ((values_along way.now).at (from way.now)) r) ≡ true }
{
    held_at(way.claim, way.from, r).is_some()
}

// Whether a register's interval holds what a line says of the difference of these registers, which the instruction writes to it.
fn is_subtracted_from(way: &Way<'_>, r: u8, first: u8, second: u8) -> bool
    requires way { IsWay way.now }
    requires register { r < 32 }
    requires subtracts { way.now.instr ≡ Reg Sub r first second }
    ensures { result ≡ true → IsSubtractedAlong way.now r }
{
    if !is_held(way, second) {
        return false;
    }
    is_difference_by(way, r, first, second)
}

/// Whether a register's interval holds what a line says of the difference that the instruction writes to it.
pub fn is_subtracted(way: &Way<'_>, r: u8) -> bool
    requires way { IsWay way.now }
    requires register { r < 32 }
    ensures { result ≡ true → IsSubtractedAlong way.now r }
{
    match way.instr {
        Instr::Reg {
            op: RegOp::Sub,
            rd,
            rs1,
            rs2,
        } => {
            if rd == r {
                is_subtracted_from(way, r, rs1, rs2)
            } else {
                false
            }
        }
        _ => false,
    }
}
