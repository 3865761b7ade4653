//! What stands at a node in a table of turns.

ghost use Rattle.std.specs.Prelude.{◌≡◌, ◌<◌, ◌≤◌, ℕ, [], false, length, slice_get};
ghost use Rattle.value_checks.specs.Tables.{or_other};
ghost use Rattle.stack_tables.specs.Tables.{IsStackClaim, address};
ghost use Rattle.turn_laws.specs.Relating as relating;
ghost use Rattle.turn_checks.specs.Turned.{AreTurns, certificate_in, relation_in, relation_view, rows_view};
ghost use Rattle.turn_checks.specs.declared.tables.Relation.TheVariants.{Unknown};

use crate::tables::{Relation, TurnTable};
use stack_tables::StackClaim;

// What stands at a number of those of the body.
fn body_row(table: &TurnTable, k: usize) -> bool
    requires { k < length table.now.body.items }
    ensures { result ≡ or_other false (slice_get table.now.body.items k) }
{
    table.body[k]
}

// Of those that are quiet.
fn quiet_row(table: &TurnTable, k: usize) -> bool
    requires { k < length table.now.quiet.items }
    ensures { result ≡ or_other false (slice_get table.now.quiet.items k) }
{
    table.quiet[k]
}

// Of those where the number isn't 0.
fn used_row(table: &TurnTable, k: usize) -> bool
    requires { k < length table.now.used.items }
    ensures { result ≡ or_other false (slice_get table.now.used.items k) }
{
    table.used[k]
}

// And of relations of a word.
fn own_row(table: &TurnTable, k: usize) -> Relation
    requires { k < length table.now.own.items }
    ensures { result ≡ or_other Unknown (slice_get table.now.own.items k) }
{
    table.own[k]
}

/// Whether node k is code of the loop.
pub fn is_body(claim: &StackClaim<'_>, table: &TurnTable, k: usize) -> bool
    requires claim { IsStackClaim claim.now }
    requires node { k < length claim.now.graph.now.code.nodes }
    requires sized { AreTurns claim.now.graph.now.code.nodes table.now }
    ensures { result ≡ (certificate_in claim.now table.now).body (address claim.now k) }
{
    body_row(table, k)
}

/// Whether it may run while a call is open.
pub fn is_quiet(claim: &StackClaim<'_>, table: &TurnTable, k: usize) -> bool
    requires claim { IsStackClaim claim.now }
    requires node { k < length claim.now.graph.now.code.nodes }
    requires sized { AreTurns claim.now.graph.now.code.nodes table.now }
    ensures { result ≡ (certificate_in claim.now table.now).quiet (address claim.now k) }
{
    quiet_row(table, k)
}

/// Whether the number at the header was not 0.
pub fn is_used(claim: &StackClaim<'_>, table: &TurnTable, k: usize) -> bool
    requires claim { IsStackClaim claim.now }
    requires node { k < length claim.now.graph.now.code.nodes }
    requires sized { AreTurns claim.now.graph.now.code.nodes table.now }
    ensures { result ≡ (certificate_in claim.now table.now).used (address claim.now k) }
{
    used_row(table, k)
}

/// The relation of the word that is counted in.
pub fn own_at(claim: &StackClaim<'_>, table: &TurnTable, k: usize) -> Relation
    requires claim { IsStackClaim claim.now }
    requires node { k < length claim.now.graph.now.code.nodes }
    requires sized { AreTurns claim.now.graph.now.code.nodes table.now }
    ensures { relation_view result ≡ (certificate_in claim.now table.now).own (address claim.now k) }
{
    own_row(table, k)
}

// What stands in a row, and nothing behind its last one.
fn relation_of(row: &[Relation], r: u8) -> Relation
    ensures { relation_view result ≡ relation_in row.now r }
{
    match row.get(usize::from(r)) {
        Some(relation) => *relation,
        None => Relation::Unknown,
    }
}

// The relations of node k.
fn row_of_node(table: &TurnTable, k: usize) -> &[Relation]
    requires { k < length table.now.rows.items }
    ensures { result.now ≡ or_other [] (slice_get (rows_view table.now.rows.items) k) }
{
    &table.rows[k]
}

/// The relation of a register.
pub fn row_at(claim: &StackClaim<'_>, table: &TurnTable, k: usize, r: u8) -> Relation
    requires claim { IsStackClaim claim.now }
    requires node { k < length claim.now.graph.now.code.nodes }
    requires sized { AreTurns claim.now.graph.now.code.nodes table.now }
    ensures { relation_view result ≡ (certificate_in claim.now table.now).row (address claim.now k) r }
{
    relation_of(row_of_node(table, k), r)
}

/// The same of x1 to x31. x0 has none.
pub fn relation_at(claim: &StackClaim<'_>, table: &TurnTable, k: usize, r: u8) -> Relation
    requires claim { IsStackClaim claim.now }
    requires node { k < length claim.now.graph.now.code.nodes }
    requires sized { AreTurns claim.now.graph.now.code.nodes table.now }
    ensures { relation_view result ≡ relating.row_of (certificate_in claim.now table.now) (address claim.now k) r }
{
    if 0 < r && r < 32 {
        row_at(claim, table, k, r)
    } else {
        Relation::Unknown
    }
}
