//! What stands at a node in a table of a lower bound.

ghost use Rattle.std.specs.Prelude.{◌≡◌, ◌<◌, ◌^◌, false, length, slice_get};
ghost use Rattle.value_checks.specs.Tables.{or_other};
ghost use Rattle.lower_bounds.specs.LowerBounds as lower;
ghost use Rattle.lower_bounds.specs.LowerTables.{at_of, cert, IsLowerCase};

use crate::tables::{LowerCase, LowerTable};

// What stands at a number of those of the body.
fn body_row(table: &LowerTable, k: usize) -> bool
    requires { k < length table.now.body.items }
    ensures { result ≡ or_other false (slice_get table.now.body.items k) }
{
    table.body[k]
}

// Of those that are quiet.
fn quiet_row(table: &LowerTable, k: usize) -> bool
    requires { k < length table.now.quiet.items }
    ensures { result ≡ or_other false (slice_get table.now.quiet.items k) }
{
    table.quiet[k]
}

// Of what instructions add.
fn adds_row(table: &LowerTable, k: usize) -> u32
    requires { k < length table.now.adds.items }
    ensures { result ≡ or_other 0 (slice_get table.now.adds.items k) }
{
    table.adds[k]
}

// And of what has been added.
fn added_row(table: &LowerTable, k: usize) -> u32
    requires { k < length table.now.added.items }
    ensures { result ≡ or_other 0 (slice_get table.now.added.items k) }
{
    table.added[k]
}

/// Whether node k is code of the loop.
pub fn is_body(case: &LowerCase<'_>, k: usize) -> bool
    requires case { IsLowerCase case.now }
    requires node { k < length case.now.claim.now.graph.now.code.nodes }
    ensures { result ≡ (cert case.now).body (at_of case.now k) }
{
    body_row(case.table, k)
}

/// Whether it may run while a call is open.
pub fn is_quiet(case: &LowerCase<'_>, k: usize) -> bool
    requires case { IsLowerCase case.now }
    requires node { k < length case.now.claim.now.graph.now.code.nodes }
    ensures { result ≡ (cert case.now).quiet (at_of case.now k) }
{
    quiet_row(case.table, k)
}

/// What its instruction adds.
pub fn adds(case: &LowerCase<'_>, k: usize) -> u32
    requires case { IsLowerCase case.now }
    requires node { k < length case.now.claim.now.graph.now.code.nodes }
    ensures { result ≡ (cert case.now).adds (at_of case.now k) }
{
    adds_row(case.table, k)
}

/// What has been added before it at most.
pub fn added(case: &LowerCase<'_>, k: usize) -> u32
    requires case { IsLowerCase case.now }
    requires node { k < length case.now.claim.now.graph.now.code.nodes }
    ensures { result ≡ (cert case.now).added (at_of case.now k) }
{
    added_row(case.table, k)
}

/// What has been added behind it at most.
pub fn most_behind(case: &LowerCase<'_>, k: usize) -> u64
    requires case { IsLowerCase case.now }
    requires node { k < length case.now.claim.now.graph.now.code.nodes }
    ensures behind { result ≡ lower.most_behind (cert case.now) (at_of case.now k) }
    ensures few { result < 2 ^ 33 }
{
    u64::from(added(case, k)) + u64::from(adds(case, k))
}
