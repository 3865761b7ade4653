//! What a table says of registers by lines and accesses: an access says where it may be, and so what the register holds through which it goes,
//! even where a load overwrites that, and a line of a sum of that and of another register says what the other one holds.

ghost use Rattle.std.specs.Prelude.{◌≡◌, ◌<◌, IfSome, Some, true};
ghost use Rattle.bound_laws.specs.Values as values;
ghost use Rattle.stack_laws.specs.Areas.{IsAccess, IsSolvedByAccess, IsSolvedTo};
ghost use Rattle.wrapped_intervals.specs.Small.{IsFoundOr, IsKept, IsKeptOr, measure_view};
ghost use Rattle.stack_checks.specs.Checked.{IsAccessedAlong, IsBased, IsSideOf, IsSolvedOn, IsWay, from, stacks_along, to, values_along};

use crate::accesses::{access_of, accessed_in};
use crate::lines::is_known_behind;
use crate::made::turned;
use crate::ways::{Way, is_left, is_within};
use stack_tables::{form, line, lines};
use wrapped_intervals::{
    Arc, Measure, difference_of, is_kept, opposite_of, scaled, solved, sum_with,
};

// ---- the register through which an access goes

/// A register through which an instruction accesses memory, so far from what it holds, where that may be, and what the register holds then.
#[derive(Clone, Copy)]
pub struct Based {
    pub register: u8,
    pub more: u32,
    pub place: Arc,
    pub held: Arc,
}

// What a register holds from which an access is so far, by where it may be.
fn held_below(place: Arc, more: u32) -> Option<Arc>
    requires { IsKept place }
    ensures held { IfSome result (λ held. values.sum_with (Some place) (values.opposite_of more) ≡ Some held) }
    ensures kept { IsKeptOr result }
{
    match sum_with(Some(place), opposite_of(u64::from(more))) {
        Some(held) => {
            if is_kept(Some(held)) {
                Some(held)
            } else {
                None
            }
        }
        None => None,
    }
}

// The same of a way's access at a place.
fn based_at(way: &Way<'_>, register: u8, more: u32, place: Arc) -> Option<Based>
    requires way { IsWay way.now }
    requires accessed { IsAccessedAlong way.now register more place }
    requires kept { IsKept place }
    ensures { IfSome result (IsBased way.now) }
{
    match held_below(place, more) {
        Some(held) => Some(Based {
            register,
            more,
            place,
            held,
        }),
        None => None,
    }
}

// The same of an access through a register.
fn based_on(way: &Way<'_>, register: u8, more: u32) -> Option<Based>
    requires way { IsWay way.now }
    requires access { IsAccess way.now.instr register more }
    ensures { IfSome result (IsBased way.now) }
{
    match accessed_in(way, register, more) {
        Some(place) => based_at(way, register, more, place),
        None => None,
    }
}

// The register through which the instruction accesses memory.
fn base_of(way: &Way<'_>) -> Option<Based>
    requires { IsWay way.now }
    ensures { IfSome result (IsBased way.now) }
{
    match access_of(way.instr) {
        Some((register, more)) => based_on(way, register, more),
        None => None,
    }
}

// ---- the other register of a line

// The first register of a sum by the sum's interval and by the other register's, where it is in the sum once, or the sum is so much less.
fn solution_of(m: Measure, line: Option<Arc>, other: Arc) -> Option<Arc>
    requires line { IsKeptOr line }
    requires other { IsKept other }
    ensures solves { IfSome result (λ s. IsSolvedTo (measure_view m) line (Some other) (Some s)) }
    ensures found { IsFoundOr result }
{
    if m.factor == 1 {
        solved(m, line, Some(other))
    } else if m.factor == u32::MAX {
        let rest = difference_of(scaled(u64::from(m.other_factor), Some(other)), line);
        sum_with(rest, u64::from(m.shift))
    } else {
        None
    }
}

// The same, where it is short enough to be kept.
fn solution(m: Measure, line: Option<Arc>, other: Arc) -> Option<Arc>
    requires line { IsKeptOr line }
    requires other { IsKept other }
    ensures solves { IfSome result (λ s. IsSolvedTo (measure_view m) line (Some other) (Some s)) }
    ensures kept { IsKeptOr result }
{
    match solution_of(m, line, other) {
        Some(s) => { if is_kept(Some(s)) { Some(s) } else { None } }
        None => None,
    }
}

// Whether a sum is of these two registers.
fn is_sum_of(m: Measure, first: u8, second: u8) -> bool
    ensures first { result ≡ true → m.register ≡ first }
    ensures second { result ≡ true → m.other ≡ second }
{
    m.register == first && m.other == second
}

// Whether a register's interval where the way leads holds what one of both forms of line j says, before the instruction.
fn is_solved_side(way: &Way<'_>, r: u8, j: usize, m: Measure, b: &Based) -> bool
    requires way { IsWay way.now }
    requires register { r < 32 }
    requires side { IsSideOf way.now (measure_view m) j }
    requires base { IsBased way.now b.now }
    ensures { result ≡ true → IsSolvedOn way.now r b.now }
{
    if !is_sum_of(m, r, b.register) {
        return false;
    }
    match solution(m, line(way.claim, way.from, j), b.held) {
        Some(s) => is_within(way, r, s),
        None => false,
    }
}

// Whether it holds what line j says.
fn is_solved_line(way: &Way<'_>, r: u8, j: usize, b: &Based) -> bool
    requires way { IsWay way.now }
    requires register { r < 32 }
    requires base { IsBased way.now b.now }
    ensures { result ≡ true → IsSolvedOn way.now r b.now }
{
    let m = form(way.claim, j);
    if is_solved_side(way, r, j, m, b) {
        return true;
    }
    is_solved_side(way, r, j, turned(m), b)
}

// Whether it holds what some line says.
fn is_some_solved(way: &Way<'_>, r: u8, b: &Based) -> bool
    requires way { IsWay way.now }
    requires register { r < 32 }
    requires base { IsBased way.now b.now }
    ensures { result ≡ true → IsSolvedOn way.now r b.now }
{
    for known in lines(way.claim, way.from) {
        if is_solved_line(way, r, known.form, b) {
            return true;
        }
    }
    false
}

// The same of a register that is a word, and that the instruction leaves.
fn is_solved_through(way: &Way<'_>, r: u8, b: &Based) -> bool
    requires way { IsWay way.now }
    requires register { r < 32 }
    requires base { IsBased way.now b.now }
    ensures { result ≡ true → IsSolvedByAccess (values_along way.now) (stacks_along way.now).areas way.now.instr (from way.now)
        (to way.now) r }
{
    if !is_left(way, r) {
        return false;
    }
    if !is_known_behind(way, r) {
        return false;
    }
    is_some_solved(way, r, b)
}

/// Whether a register's interval where the way leads holds what a line of it and of a register through which the instruction accesses memory
/// says, by where that may be.
pub fn is_solved_by_access(way: &Way<'_>, r: u8) -> bool
    requires way { IsWay way.now }
    requires register { r < 32 }
    ensures { result ≡ true → IsSolvedByAccess (values_along way.now) (stacks_along way.now).areas way.now.instr (from way.now)
        (to way.now) r }
{
    match base_of(way) {
        Some(b) => is_solved_through(way, r, &b),
        None => false,
    }
}
