//! What is known of registers behind a step.

ghost use Rattle.std.specs.Prelude.{◌≡◌, ◌<◌, IfSome, Some, true};
ghost use Rattle.bound_laws.specs.Values as values;
ghost use Rattle.wrapped_intervals.specs.Small.{IsFoundOr, IsKeptOr};
ghost use Rattle.stack_tables.specs.Tables.{IsStackClaim};
ghost use Rattle.lower_bounds.specs.LowerTables.{passed_along, IsNeverTaken, IsStep};

use crate::tables::Step;
use stack_tables::{StackClaim, address, arcs};
use wrapped_intervals::{Arc, is_impossible, is_kept, passed, said_by};

/// The interval of a register.
pub fn passed_on(claim: &StackClaim<'_>, step: Step, r: u8) -> Option<Arc>
    requires claim { IsStackClaim claim.now }
    requires step { IsStep claim.now step }
    requires register { r < 32 }
    ensures arc { result ≡ passed_along claim.now step r }
    ensures found { IsFoundOr result }
{
    passed(
        step.instr,
        address(claim, step.from),
        address(claim, step.to),
        arcs(claim, step.from),
        r,
    )
}

/// The same of any number of a register. x0 is 0.
pub fn held_on(claim: &StackClaim<'_>, step: Step, r: u8) -> Option<Arc>
    requires claim { IsStackClaim claim.now }
    requires step { IsStep claim.now step }
    ensures held { result ≡ values.held (passed_along claim.now step) r }
    ensures found { IsFoundOr result }
{
    if 0 < r && r < 32 {
        passed_on(claim, step, r)
    } else {
        Some(Arc::strided(0, 0, 0))
    }
}

/// The same, where it is known and short enough to be kept.
pub fn kept_on(claim: &StackClaim<'_>, step: Step, r: u8) -> Option<Arc>
    requires claim { IsStackClaim claim.now }
    requires step { IsStep claim.now step }
    ensures held { IfSome result (λ a. values.held (passed_along claim.now step) r ≡ Some a) }
    ensures kept { IsKeptOr result }
{
    match held_on(claim, step, r) {
        Some(a) => { if is_kept(Some(a)) { Some(a) } else { None } }
        None => None,
    }
}

/// Whether the instruction doesn't go on there.
pub fn is_never(claim: &StackClaim<'_>, step: Step) -> bool
    requires claim { IsStackClaim claim.now }
    requires step { IsStep claim.now step }
    ensures { result ≡ true → IsNeverTaken claim.now step }
{
    is_impossible(
        said_by(
            step.instr,
            address(claim, step.from),
            address(claim, step.to),
        ),
        arcs(claim, step.from),
    )
}
