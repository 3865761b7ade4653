//! Whether the number at the header isn't 0.

ghost use Rattle.std.specs.Prelude.{◌≡◌, ◌<◌, length, true};
ghost use Rattle.bound_laws.specs.Values as values;
ghost use Rattle.stack_tables.specs.Tables.{stacks_in, values_in};
ghost use Rattle.turn_laws.specs.Relating as relating;
ghost use Rattle.turn_checks.specs.Turned.{at_of, cert, IsTurnCase};

use crate::relations::least_of;
use crate::rows::{is_used, row_at};
use crate::tables::{Relation, TurnCase};
use scale_base::Instr;
use stack_tables::{address, arcs};
use wrapped_intervals::{keeps, passed};

// Whether a register is a number that is not 0, on the way to node n.
fn is_positive(case: &TurnCase<'_>, i: Instr, k: usize, n: usize, r: u8) -> bool
    requires case { IsTurnCase case.now }
    requires from { k < length case.now.claim.now.graph.now.code.nodes }
    requires to { n < length case.now.claim.now.graph.now.code.nodes }
    requires register { r < 32 }
    ensures { result ≡ true → 0 < values.least_of (values.passed i (at_of case.now k) (at_of case.now n)
        ((values_in case.now.claim.now).at (at_of case.now k)) r) }
{
    let claim = case.claim;
    let arc = passed(i, address(claim, k), address(claim, n), arcs(claim, k), r);
    0 < least_of(arc)
}

// Whether a register shows it.
fn is_evident_by(case: &TurnCase<'_>, i: Instr, k: usize, n: usize, r: u8) -> bool
    requires case { IsTurnCase case.now }
    requires from { k < length case.now.claim.now.graph.now.code.nodes }
    requires to { n < length case.now.claim.now.graph.now.code.nodes }
    requires register { r < 32 }
    requires positive { 0 < r }
    ensures { result ≡ true → relating.IsEvident (values_in case.now.claim.now) (cert case.now) (at_of case.now k) i (at_of case.now n) }
{
    match row_at(case.claim, case.table, k, r) {
        Relation::Below(_, _) => keeps(r, i) && is_positive(case, i, k, n, r),
        _ => false,
    }
}

/// Whether it isn't 0 on the way to node n, by what is known at node k, or by a register.
pub fn is_used_over(case: &TurnCase<'_>, i: Instr, k: usize, n: usize) -> bool
    requires case { IsTurnCase case.now }
    requires from { k < length case.now.claim.now.graph.now.code.nodes }
    requires to { n < length case.now.claim.now.graph.now.code.nodes }
    ensures { result ≡ true → relating.IsUsed (values_in case.now.claim.now) (cert case.now) (at_of case.now k) i (at_of case.now n) }
{
    if is_used(case.claim, case.table, k) {
        return true;
    }
    for r in 1..32u8 {
        if is_evident_by(case, i, k, n, r) {
            return true;
        }
    }
    false
}
