//! An instruction and the node to which it leads.

ghost use Rattle.std.specs.Prelude.{◌≡◌, ◌<◌, ◌⊎◌, IfSome, Some, true};
ghost use Rattle.bound_laws.specs.Registers.{keeps};
ghost use Rattle.bound_laws.specs.Values as values;
ghost use Rattle.wrapped_intervals.specs.Small.{IsFoundOr, IsKept, IsKeptOr};
ghost use Rattle.stack_checks.specs.Checked.{IsWay, from, passed_along, to, values_along};

use scale_base::Instr;
use stack_tables::{StackClaim, address, arc_at, arcs, line};
use wrapped_intervals::{Arc, covers, is_kept, keeps, meet_of, passed, sum_with};

/// An instruction of a program with its tables, by the number of its node, and the node to which it leads or behind which it comes back.
#[derive(Clone, Copy)]
pub struct Way<'a> {
    pub claim: &'a StackClaim<'a>,
    pub instr: Instr,
    pub from: usize,
    pub to: usize,
}

/// The interval of a register behind the instruction.
pub fn passed_on(way: &Way<'_>, r: u8) -> Option<Arc>
    requires way { IsWay way.now }
    requires register { r < 32 }
    ensures arc { result ≡ passed_along way.now r }
    ensures found { IsFoundOr result }
{
    let claim = way.claim;
    passed(
        way.instr,
        address(claim, way.from),
        address(claim, way.to),
        arcs(claim, way.from),
        r,
    )
}

/// The same of any number of a register. x0 is 0.
pub fn held_on(way: &Way<'_>, r: u8) -> Option<Arc>
    requires { IsWay way.now }
    ensures held { result ≡ values.held (passed_along way.now) r }
    ensures found { IsFoundOr result }
{
    if 0 < r && r < 32 {
        passed_on(way, r)
    } else {
        Some(Arc::strided(0, 0, 0))
    }
}

/// The same, where it is known and short enough to be kept.
pub fn kept_on(way: &Way<'_>, r: u8) -> Option<Arc>
    requires { IsWay way.now }
    ensures held { IfSome result (λ a. values.held (passed_along way.now) r ≡ Some a) }
    ensures kept { IsKeptOr result }
{
    match held_on(way, r) {
        Some(a) => { if is_kept(Some(a)) { Some(a) } else { None } }
        None => None,
    }
}

/// Whether a register is left as it is.
pub fn is_left(way: &Way<'_>, r: u8) -> bool
    requires { IsWay way.now }
    ensures { result ≡ true → keeps r way.now.instr ≡ true }
{
    keeps(r, way.instr)
}

/// The interval of a register before the instruction.
pub fn arc_before(way: &Way<'_>, r: u8) -> Option<Arc>
    requires way { IsWay way.now }
    requires register { r < 32 }
    ensures arc { result ≡ (values_along way.now).at (from way.now) r }
    ensures kept { IsKeptOr result }
{
    arc_at(way.claim, way.from, r)
}

/// And where it leads.
pub fn arc_behind(way: &Way<'_>, r: u8) -> Option<Arc>
    requires way { IsWay way.now }
    requires register { r < 32 }
    ensures arc { result ≡ (values_along way.now).at (to way.now) r }
    ensures kept { IsKeptOr result }
{
    arc_at(way.claim, way.to, r)
}

/// Whether a register's interval where the way leads holds what is known of it, or what of that the instruction leaves.
pub fn is_within(way: &Way<'_>, r: u8, known: Arc) -> bool
    requires way { IsWay way.now }
    requires register { r < 32 }
    requires known { IsKept known }
    ensures { result ≡ true → values.Covers ((values_along way.now).at (to way.now) r) (Some known) ⊎
        values.Covers ((values_along way.now).at (to way.now) r) (values.meet_of (Some known) (passed_along way.now r)) }
{
    covers(arc_behind(way, r), Some(known))
        || covers(arc_behind(way, r), meet_of(Some(known), passed_on(way, r)))
}

/// What line k was, with so much more.
pub fn line_more(way: &Way<'_>, k: usize, more: u32) -> Option<Arc>
    requires { IsWay way.now }
    ensures sum { result ≡ values.sum_with ((values_along way.now).lines (from way.now) k) more }
    ensures found { IsFoundOr result }
{
    sum_with(line(way.claim, way.from, k), u64::from(more))
}

/// Whether an interval holds that.
pub fn has_line_more(way: &Way<'_>, interval: Option<Arc>, k: usize, more: u32) -> bool
    requires way { IsWay way.now }
    requires interval { IsKeptOr interval }
    ensures { result ≡ true → values.Covers interval (values.sum_with ((values_along way.now).lines (from way.now) k) more) }
{
    covers(interval, line_more(way, k, more))
}
