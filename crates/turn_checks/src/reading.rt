//! What is taken from the input.

ghost use Rattle.std.specs.Prelude.{◌≡◌, ◌≤◌, ◌<◌, ◌+◌, ◌^◌, length, true};
ghost use Rattle.bound_laws.specs.Values as values;
ghost use Rattle.stack_tables.specs.Tables.{values_in};
ghost use Rattle.turn_laws.specs.Relating as relating;
ghost use Rattle.turn_checks.specs.Turned.{at_of, cert, IsStep, IsTurnCase};

use crate::relations::{consumed_by, ends_of};
use crate::rows::{own_at, row_at};
use crate::tables::{Relation, Step, TurnCase};
use stack_tables::{address, arcs};
use wrapped_intervals::{keeps, passed};

// Whether a register is no error number on the way, and at least so much.
fn is_count(case: &TurnCase<'_>, step: Step, r: u8, least: u32) -> bool
    requires case { IsTurnCase case.now }
    requires step { IsStep case.now step }
    requires register { r < 32 }
    ensures { result ≡ true → (values.top_of (values.passed step.instr (at_of case.now step.from) (at_of case.now step.to)
        ((values_in case.now.claim.now).at (at_of case.now step.from)) r) < 2 ^ 31) ×
        (least ≤ values.least_of (values.passed step.instr (at_of case.now step.from) (at_of case.now step.to)
        ((values_in case.now.claim.now).at (at_of case.now step.from)) r)) }
{
    let claim = case.claim;
    let ends = ends_of(passed(
        step.instr,
        address(claim, step.from),
        address(claim, step.to),
        arcs(claim, step.from),
        r,
    ));
    ends.top < 2_147_483_648 && u64::from(least) <= ends.least
}

// Whether a register shows that so much was taken.
fn is_counted_by(case: &TurnCase<'_>, step: Step, r: u8, n: u32) -> bool
    requires case { IsTurnCase case.now }
    requires step { IsStep case.now step }
    requires register { r < 32 }
    requires positive { 0 < r }
    ensures { result ≡ true → relating.IsCounted (values_in case.now.claim.now) (cert case.now) (at_of case.now step.from) step.instr
        (at_of case.now step.to) n }
{
    match row_at(case.claim, case.table, step.from, r) {
        Relation::Read(less) => {
            keeps(r, step.instr) && is_count(case, step, r, n.saturating_sub(less))
        }
        _ => false,
    }
}

/// Whether so much at least was taken on the way, by what is known before the step, or by a register.
pub fn is_taken_on(case: &TurnCase<'_>, step: Step, n: u32) -> bool
    requires case { IsTurnCase case.now }
    requires step { IsStep case.now step }
    ensures { result ≡ true → relating.IsTakenOn (values_in case.now.claim.now) (cert case.now) (at_of case.now step.from) step.instr
        (at_of case.now step.to) n }
{
    if n <= consumed_by(own_at(case.claim, case.table, step.from)) {
        return true;
    }
    for r in 1..32u8 {
        if is_counted_by(case, step, r, n) {
            return true;
        }
    }
    false
}
