//! Why a register has a word of a table behind an instruction.

ghost use Rattle.std.specs.Prelude.{◌≡◌, ◌<◌, length, Some, true};
ghost use Rattle.scale_base.specs.declared.instruction.RegOp.TheVariants.{Add};
ghost use Rattle.scale_base.specs.declared.instruction.Instr.TheVariants.{Reg};
ghost use Rattle.bound_laws.specs.Values as values;
ghost use Rattle.stack_tables.specs.Tables.{address, values_in};
ghost use Rattle.jump_laws.specs.Reads.{IsPlainTable, addresses_in};
ghost use Rattle.jump_checks.specs.Claimed.{IsReadClaim, IsReadThere, IsRaisedFrom, IsWithinTable, known_in};

use crate::claims::ReadClaim;
use crate::origins::{Origin, origin_of};
use crate::reading::{exact, is_same_read, is_same_table, raised, read};
use fixed_tables::Table;
use jump_laws::TableRead;
use scale_base::Instr;
use stack_tables::held_at;
use wrapped_intervals::{Arc, covers, keeps, sum_with};

/// So many words there are.
const WORDS: u64 = 0x1_0000_0000;

// Whether the words of a table are addresses, all of them below 2^32.
fn is_plain(table: Table) -> bool
    ensures { result ≡ true → IsPlainTable table }
{
    table.base == 0
        && 0 < table.count
        && 0 < table.step
        && u64::from(table.at) + u64::from(table.step) * (u64::from(table.count) - 1) < WORDS
}

// The addresses of its words.
fn addresses(table: Table) -> Arc
    requires { IsPlainTable table }
    ensures { result ≡ addresses_in table }
{
    Arc::strided(
        u64::from(table.at),
        u64::from(table.step) * (u64::from(table.count) - 1),
        u64::from(table.step),
    )
}

// Whether a register with so much more, modulo 2^32, gives an address of one of its words at node k.
fn is_within(claim: &ReadClaim<'_>, k: usize, table: Table, rs1: u8, more: u32) -> bool
    requires claim { IsReadClaim claim.now }
    requires node { k < length claim.now.claim.now.graph.now.code.nodes }
    requires table { IsPlainTable table }
    ensures { result ≡ true → values.Covers (Some (addresses_in table)) (values.sum_with
        (values.held ((values_in claim.now.claim.now).at (address claim.now.claim.now k)) rs1) more) }
{
    let held = held_at(claim.claim, k, rs1);
    let address = sum_with(held, u64::from(more));
    covers(Some(addresses(table)), address)
}

// The same of a table that may be another.
fn is_table_word(claim: &ReadClaim<'_>, k: usize, table: Table, rs1: u8, more: u32) -> bool
    requires claim { IsReadClaim claim.now }
    requires node { k < length claim.now.claim.now.graph.now.code.nodes }
    ensures { result ≡ true → IsWithinTable (values_in claim.now.claim.now) (address claim.now.claim.now k) table rs1 more }
{
    if !is_plain(table) {
        return false;
    }
    is_within(claim, k, table, rs1, more)
}

// Whether register r has a word at node k of which register o makes one of another table.
fn is_raised(claim: &ReadClaim<'_>, k: usize, r: u8, o: u8, table: Table) -> bool
    requires claim { IsReadClaim claim.now }
    requires node { k < length claim.now.claim.now.graph.now.code.nodes }
    ensures { result ≡ true → IsRaisedFrom (values_in claim.now.claim.now) (known_in claim.now) (address claim.now.claim.now k) r o table }
{
    let Some(before) = read(claim, k) else {
        return false;
    };
    let Some(c) = exact(claim, k, o) else {
        return false;
    };
    if before.register != r {
        return false;
    }
    is_same_table(table, raised(before.table, c.low() as u32))
}

// Whether a sum of two registers is a word with a number more.
fn is_added(claim: &ReadClaim<'_>, k: usize, x: TableRead, rs1: u8, rs2: u8) -> bool
    requires claim { IsReadClaim claim.now }
    requires node { k < length claim.now.claim.now.graph.now.code.nodes }
    ensures { result ≡ true → IsReadThere claim.now k (Reg Add x.register rs1 rs2) x }
{
    if is_raised(claim, k, rs1, rs2, x.table) {
        return true;
    }
    is_raised(claim, k, rs2, rs1, x.table)
}

// Whether what the instruction at node k leaves in its register is a word of the table.
fn is_made(claim: &ReadClaim<'_>, i: Instr, k: usize, x: TableRead) -> bool
    requires claim { IsReadClaim claim.now }
    requires node { k < length claim.now.claim.now.graph.now.code.nodes }
    ensures { result ≡ true → IsReadThere claim.now k i x }
{
    match origin_of(i, x.register) {
        Origin::Loaded(rs1, more) => is_table_word(claim, k, x.table, rs1, more),
        Origin::Sum(rs1, rs2) => is_added(claim, k, x, rs1, rs2),
        Origin::Other => false,
    }
}

// Whether it is left, and had one.
fn is_left(claim: &ReadClaim<'_>, i: Instr, k: usize, x: TableRead) -> bool
    requires claim { IsReadClaim claim.now }
    requires node { k < length claim.now.claim.now.graph.now.code.nodes }
    ensures { result ≡ true → IsReadThere claim.now k i x }
{
    let Some(before) = read(claim, k) else {
        return false;
    };
    if !is_same_read(before, x) {
        return false;
    }
    keeps(x.register, i)
}

/// Whether a register has a word of a table behind the instruction at node k.
pub fn is_read_over(claim: &ReadClaim<'_>, i: Instr, k: usize, x: TableRead) -> bool
    requires claim { IsReadClaim claim.now }
    requires node { k < length claim.now.claim.now.graph.now.code.nodes }
    ensures { result ≡ true → IsReadThere claim.now k i x }
{
    if is_left(claim, i, k, x) {
        return true;
    }
    is_made(claim, i, k, x)
}
