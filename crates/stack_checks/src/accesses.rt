//! Loads and stores: where they may be at all, since any other one traps, and what that says of a register through which they are and of a
//! word of the stack.

ghost use Rattle.std.specs.Prelude.{◌≡◌, ◌<◌, IfSome, Some, true};
ghost use Rattle.std.specs.List.{All};
ghost use Rattle.bound_laws.specs.Registers.{keeps};
ghost use Rattle.bound_laws.specs.Values as values;
ghost use Rattle.stack_laws.specs.Areas.{AreDisjoint, IsAccess, IsCoveredByAccess};
ghost use Rattle.wrapped_intervals.specs.Small.{IsFound, IsFoundOr, IsKept, IsKeptOr};
ghost use Rattle.stack_checks.specs.Checked.{AreCutTo, IsAccessedAlong, IsCutOf, IsWay, from, stacks_along, to, values_along};

use crate::ways::{Way, arc_behind, is_left};
use scale_base::Instr;
use stack_tables::{areas, held_at};
use wrapped_intervals::{Arc, ahead, covers, is_kept, meet_of, opposite_of, sum_with};

// How many words there are.
const WORDS: u64 = 4_294_967_296;

/// The register through which an instruction loads or stores, and how far from what it holds, modulo 2^32.
pub fn access_of(i: Instr) -> Option<(u8, u32)>
    ensures { IfSome result (λ p. IsAccess i p.0 p.1) }
{
    match i {
        Instr::Load {
            op: _,
            rd: _,
            rs1,
            offset,
        } => Some((rs1, offset.cast_unsigned())),
        Instr::Store {
            op: _,
            rs1,
            rs2: _,
            offset,
        } => Some((rs1, offset.cast_unsigned())),
        _ => None,
    }
}

// ---- what an interval of addresses and the areas have in common

// Whether an interval and an area have nothing in common.
fn is_disjoint(i: Arc, area: Arc) -> bool
    requires i { IsFound i }
    requires area { IsKept area }
    ensures { result ≡ true → AreDisjoint (Some i) area }
{
    let distance = ahead(i.low(), area.low());
    i.more() < distance && distance + area.more() < WORDS
}

// Whether a part of an interval that begins so far behind its first number has none but numbers of a stride. A part may be a whole area.
fn is_on(stride: u64, first: u64, part: Arc) -> bool
    requires { 0 < stride }
{
    first % stride == 0 && (part.more() == 0 || part.stride() % stride == 0)
}

// From the first number of two parts of an interval to the last one, in its order, with its stride where both are on it.
fn both_along(i: Arc, one: Arc, other: Arc) -> Arc
    requires i { IsKept i }
    requires one { IsKept one }
    requires other { IsKept other }
{
    let (first, second) = (ahead(i.low(), one.low()), ahead(i.low(), other.low()));
    let stride = i.stride().max(1);
    let is_strided = is_on(stride, first, one) && is_on(stride, second, other);
    let begin = first.min(second);
    let end = (first + one.more()).max(second + other.more());
    Arc::strided(
        (i.low() + begin) % WORDS,
        end.saturating_sub(begin),
        if is_strided { stride } else { 1 },
    )
}

// The parts of an interval so far, and one more.
fn with_part(i: Arc, parts: Option<Arc>, part: Option<Arc>) -> Option<Arc>
    requires { IsKept i }
{
    let (Some(one), Some(other)) = (parts, part) else {
        return parts.or(part);
    };
    if is_kept(Some(one)) && is_kept(Some(other)) {
        Some(both_along(i, one, other))
    } else {
        None
    }
}

// What an interval and the areas have in common, from the first of it to the last one.
fn all_common(areas: &[Arc], i: Arc) -> Option<Arc>
    requires areas { All IsKept areas.now }
    requires i { IsKept i }
{
    let mut all = None;
    for area in areas {
        if !is_disjoint(i, *area) {
            all = with_part(i, all, meet_of(Some(i), Some(*area)));
        }
    }
    all
}

// Whether an area has nothing in common with an interval, or no more than another interval holds.
fn is_cut(area: Arc, i: Arc, to: Arc) -> bool
    requires area { IsKept area }
    requires i { IsKept i }
    requires to { IsKept to }
    ensures { result ≡ true → IsCutOf (Some i) to area }
{
    is_disjoint(i, area) || covers(Some(to), meet_of(Some(i), Some(area)))
}

// The same of each area.
fn are_cut(areas: &[Arc], i: Arc, to: Arc) -> bool
    requires areas { All IsKept areas.now }
    requires i { IsKept i }
    requires to { IsKept to }
    ensures { result ≡ true → AreCutTo areas.now (Some i) to }
{
    for area in areas {
        if !is_cut(*area, i, to) {
            return false;
        }
    }
    true
}

// An interval that holds what an interval and the areas have in common.
fn cut(areas: &[Arc], i: Arc) -> Option<Arc>
    requires areas { All IsKept areas.now }
    requires i { IsKept i }
    ensures cut { IfSome result (λ to. AreCutTo areas.now (Some i) to) }
    ensures kept { IsKeptOr result }
{
    match all_common(areas, i) {
        Some(to) => {
            if is_kept(Some(to)) && are_cut(areas, i, to) {
                Some(to)
            } else {
                None
            }
        }
        None => None,
    }
}

// The same of an interval that may be unknown.
fn cut_of(areas: &[Arc], i: Option<Arc>) -> Option<Arc>
    requires areas { All IsKept areas.now }
    requires i { IsFoundOr i }
    ensures cut { IfSome result (λ to. AreCutTo areas.now i to) }
    ensures kept { IsKeptOr result }
{
    match i {
        Some(i) => {
            if is_kept(Some(i)) {
                cut(areas, i)
            } else {
                None
            }
        }
        None => None,
    }
}

/// The interval of the addresses that an access through register r may have, so far from what it holds.
pub fn accessed_in(way: &Way<'_>, r: u8, more: u32) -> Option<Arc>
    requires way { IsWay way.now }
    requires access { IsAccess way.now.instr r more }
    ensures place { IfSome result (λ place. IsAccessedAlong way.now r more place) }
    ensures kept { IsKeptOr result }
{
    match held_at(way.claim, way.from, r) {
        Some(held) => cut_of(areas(way.claim), sum_with(Some(held), u64::from(more))),
        None => None,
    }
}

// ---- registers

// Whether a register's interval where the way leads holds what is so far below the addresses.
fn is_access_below(way: &Way<'_>, r: u8, more: u32, place: Arc) -> bool
    requires way { IsWay way.now }
    requires register { r < 32 }
    requires place { IsKept place }
    ensures { result ≡ true → values.Covers ((values_along way.now).at (to way.now) r) (values.sum_with (Some place)
        (values.opposite_of more)) }
{
    covers(
        arc_behind(way, r),
        sum_with(Some(place), opposite_of(u64::from(more))),
    )
}

// Whether it holds what the access through it says, by how far the access is from what it holds.
fn is_covered_at(way: &Way<'_>, r: u8, more: u32) -> bool
    requires way { IsWay way.now }
    requires register { r < 32 }
    requires left { keeps r way.now.instr ≡ true }
    requires access { IsAccess way.now.instr r more }
    ensures { result ≡ true → IsCoveredByAccess (values_along way.now) (stacks_along way.now).areas way.now.instr (from way.now)
        (to way.now) r }
{
    match accessed_in(way, r, more) {
        Some(place) => is_access_below(way, r, more, place),
        None => false,
    }
}

/// Whether a register's interval where the way leads holds what an access through it says, which leaves it as it is.
pub fn is_covered_by_access(way: &Way<'_>, r: u8) -> bool
    requires way { IsWay way.now }
    requires register { r < 32 }
    ensures { result ≡ true → IsCoveredByAccess (values_along way.now) (stacks_along way.now).areas way.now.instr (from way.now)
        (to way.now) r }
{
    match access_of(way.instr) {
        Some((s, more)) => {
            if s == r && is_left(way, r) {
                is_covered_at(way, r, more)
            } else {
                false
            }
        }
        None => false,
    }
}
