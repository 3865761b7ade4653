//! What stands in a claim, by the number of a node.

ghost use Rattle.std.specs.Prelude.{◌≡◌, ◌<◌, IfSome, length, slice_get, None, true};
ghost use Rattle.bound_laws.specs.Values.{IsRegister};
ghost use Rattle.stack_laws.specs.Stacks.{IsExactly};
ghost use Rattle.wrapped_intervals.specs.Small.{IsKeptOr};
ghost use Rattle.value_checks.specs.Tables.{or_other};
ghost use Rattle.stack_tables.specs.Tables.{address, values_in};
ghost use Rattle.jump_laws.specs.Reads.{raised};
ghost use Rattle.jump_checks.specs.Claimed.{IsReadClaim, known_in};

use crate::claims::ReadClaim;
use fixed_tables::Table;
use jump_laws::TableRead;
use stack_tables::held_at;
use wrapped_intervals::Arc;

/// What stands at a number.
pub fn entry(reads: &[Option<TableRead>], k: usize) -> Option<TableRead>
    requires { k < length reads.now }
    ensures { result ≡ or_other None (slice_get reads.now k) }
{
    reads[k]
}

/// What is claimed at node k.
pub fn read(claim: &ReadClaim<'_>, k: usize) -> Option<TableRead>
    requires claim { IsReadClaim claim.now }
    requires node { k < length claim.now.claim.now.graph.now.code.nodes }
    ensures { result ≡ known_in claim.now (address claim.now.claim.now k) }
{
    entry(claim.reads, k)
}

/// The one number that a register holds at node k, as an interval.
pub fn exact(claim: &ReadClaim<'_>, k: usize, r: u8) -> Option<Arc>
    requires claim { IsReadClaim claim.now }
    requires node { k < length claim.now.claim.now.graph.now.code.nodes }
    ensures exact { IfSome result (λ c. IsExactly (values_in claim.now.claim.now) (address claim.now.claim.now k) r c) }
    ensures kept { IsKeptOr result }
{
    match held_at(claim.claim, k, r) {
        Some(c) => { if c.more() == 0 { Some(c) } else { None } }
        None => None,
    }
}

/// Whether two tables are the same.
pub fn is_same_table(one: Table, other: Table) -> bool
    ensures { result ≡ true → one ≡ other }
{
    one.at == other.at
        && one.step == other.step
        && one.count == other.count
        && one.base == other.base
}

/// Whether two claims are the same.
pub fn is_same_read(one: TableRead, other: TableRead) -> bool
    ensures { result ≡ true → one ≡ other }
{
    one.register == other.register && is_same_table(one.table, other.table)
}

/// A table with so much more added to its words.
pub fn raised(table: Table, n: u32) -> Table
    ensures { result ≡ raised table n }
{
    Table {
        base: table.base.wrapping_add(n),
        ..table
    }
}

/// Whether a register is one of x1 to x31.
pub fn is_register(r: u8) -> bool
    ensures { result ≡ true → IsRegister r }
{
    0 < r && r < 32
}
