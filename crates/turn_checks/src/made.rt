//! What an instruction of a loop leaves of relations.

ghost use Rattle.std.specs.Prelude.{◌≡◌, ◌<◌, true, length};
ghost use Rattle.bound_laws.specs.Values as values;
ghost use Rattle.stack_tables.specs.Tables.{IsStackClaim, address, stacks_in, values_in};
ghost use Rattle.stack_laws.specs.Stacks as stacks;
ghost use Rattle.turn_laws.specs.Relating as relating;
ghost use Rattle.turn_checks.specs.Turned.{AreTurns, certificate_in, relation_view};

use crate::relations::{
    are_low, bits_off, consumed_by, is_divided, is_low, is_lowered, is_moved_back, is_moved_by_arc,
    is_moved_by_number, is_multiplied, is_one, is_weaker, least_of,
};
use crate::rows::{own_at, relation_at, row_at};
use crate::tables::{Relation, TurnCase, TurnPlace, TurnTable};
use scale_base::{ImmOp, Instr, RegOp};
use stack_tables::{StackClaim, held_at, is_missed, loaded_to, stored_from};
use wrapped_intervals::keeps;

// Whether a relation says nothing.
fn is_unknown(b: Relation) -> bool
    ensures { result ≡ true → (q : relating.Relation) → relating.IsWeaker (relation_view b) q }
{
    matches!(&b, Relation::Unknown)
}

// Whether an operation with a number leaves in its register what has a relation.
fn is_made_by_number(
    claim: &StackClaim<'_>,
    table: &TurnTable,
    i: Instr,
    k: usize,
    b: Relation,
) -> bool
    requires claim { IsStackClaim claim.now }
    requires node { k < length claim.now.graph.now.code.nodes }
    requires sized { AreTurns claim.now.graph.now.code.nodes table.now }
    ensures { result ≡ true → relating.IsWeaker (relation_view b) (relating.made i
        (relating.row_of (certificate_in claim.now table.now) (address claim.now k)) ((values_in claim.now).at (address claim.now k))) }
{
    let Instr::Imm {
        op,
        rd: _,
        rs1,
        imm,
    } = i
    else {
        return is_unknown(b);
    };
    let (first, one) = (relation_at(claim, table, k, rs1), held_at(claim, k, rs1));
    let number = imm.cast_unsigned();
    match op {
        ImmOp::Addi => is_moved_by_number(b, first, one, number),
        ImmOp::Andi => is_lowered(b, first, 0, one.is_some()),
        ImmOp::Slli => is_multiplied(b, first, one, number % 32),
        ImmOp::Srli => is_divided(b, first, number % 32, one.is_some()),
        ImmOp::Srai => is_divided(b, first, number % 32, is_low(one)),
        _ => is_unknown(b),
    }
}

// The same of an operation with a second register.
fn is_made_by_registers(
    claim: &StackClaim<'_>,
    table: &TurnTable,
    i: Instr,
    k: usize,
    b: Relation,
) -> bool
    requires claim { IsStackClaim claim.now }
    requires node { k < length claim.now.graph.now.code.nodes }
    requires sized { AreTurns claim.now.graph.now.code.nodes table.now }
    ensures { result ≡ true → relating.IsWeaker (relation_view b) (relating.made i
        (relating.row_of (certificate_in claim.now table.now) (address claim.now k)) ((values_in claim.now).at (address claim.now k))) }
{
    let Instr::Reg {
        op,
        rd: _,
        rs1,
        rs2,
    } = i
    else {
        return is_unknown(b);
    };
    let first = relation_at(claim, table, k, rs1);
    let second = relation_at(claim, table, k, rs2);
    let (one, other) = (held_at(claim, k, rs1), held_at(claim, k, rs2));
    let parts = 0 < least_of(other);
    match op {
        RegOp::Add => is_moved_by_arc(b, first, one, other),
        RegOp::Sub => is_moved_back(b, first, one, other),
        RegOp::And => is_lowered(b, first, 0, one.is_some()),
        RegOp::Mulh => is_divided(b, first, 1, are_low(one, other)),
        RegOp::Mulhu => is_divided(b, first, 0, one.is_some() && other.is_some()),
        RegOp::Div => is_divided(b, first, bits_off(other), are_low(one, other) && parts),
        RegOp::Divu => is_divided(b, first, bits_off(other), one.is_some() && parts),
        RegOp::Rem => is_lowered(b, second, 1, are_low(one, other) && parts),
        RegOp::Remu => is_lowered(b, second, 1, other.is_some() && parts),
        _ => is_unknown(b),
    }
}

// The same by the second register of a sum or a product.
fn is_made_too(claim: &StackClaim<'_>, table: &TurnTable, i: Instr, k: usize, b: Relation) -> bool
    requires claim { IsStackClaim claim.now }
    requires node { k < length claim.now.graph.now.code.nodes }
    requires sized { AreTurns claim.now.graph.now.code.nodes table.now }
    ensures { result ≡ true → relating.IsWeaker (relation_view b) (relating.made_too i
        (relating.row_of (certificate_in claim.now table.now) (address claim.now k)) ((values_in claim.now).at (address claim.now k))) }
{
    let Instr::Reg {
        op,
        rd: _,
        rs1,
        rs2,
    } = i
    else {
        return is_unknown(b);
    };
    let second = relation_at(claim, table, k, rs2);
    let (one, other) = (held_at(claim, k, rs1), held_at(claim, k, rs2));
    match op {
        RegOp::Add => is_moved_by_arc(b, second, other, one),
        RegOp::And => is_lowered(b, second, 0, other.is_some()),
        RegOp::Mulh => is_divided(b, second, 1, are_low(one, other)),
        RegOp::Mulhu => is_divided(b, second, 0, one.is_some() && other.is_some()),
        _ => is_unknown(b),
    }
}

// Whether the instruction writes a register, of what has such a relation.
fn is_made_over(case: &TurnCase<'_>, i: Instr, k: usize, r: u8, b: Relation) -> bool
    requires claim { IsStackClaim case.now.claim.now }
    requires node { k < length case.now.claim.now.graph.now.code.nodes }
    requires sized { AreTurns case.now.claim.now.graph.now.code.nodes case.now.table.now }
    ensures { result ≡ true → relating.IsMadeOver (values_in case.now.claim.now) (certificate_in case.now.claim.now case.now.table.now)
        (address case.now.claim.now k) i r (relation_view b) }
{
    if keeps(r, i) {
        return false;
    }
    is_made_by_number(case.claim, case.table, i, k, b)
        || is_made_by_registers(case.claim, case.table, i, k, b)
        || is_made_too(case.claim, case.table, i, k, b)
}

// Whether a word is loaded to a register.
fn is_loaded_to(claim: &StackClaim<'_>, i: Instr, k: usize, word: u32, r: u8) -> bool
    requires claim { IsStackClaim claim.now }
    requires node { k < length claim.now.graph.now.code.nodes }
    ensures { result ≡ true → stacks.IsLoadedTo (stacks_in claim.now) (address claim.now k) i word r }
{
    match loaded_to(claim, i, k) {
        Some((number, register)) => number == word && register == r,
        None => false,
    }
}

// Whether the word that is counted in is loaded.
fn is_loaded_own(case: &TurnCase<'_>, i: Instr, k: usize, r: u8, b: Relation) -> bool
    requires claim { IsStackClaim case.now.claim.now }
    requires node { k < length case.now.claim.now.graph.now.code.nodes }
    requires sized { AreTurns case.now.claim.now.graph.now.code.nodes case.now.table.now }
    ensures { result ≡ true → relating.IsLoadedOwn (stacks_in case.now.claim.now) (certificate_in case.now.claim.now case.now.table.now)
        (address case.now.claim.now k) i r (relation_view b) }
{
    match case.table.place {
        TurnPlace::Word(word) => {
            if !is_loaded_to(case.claim, i, k, word, r) {
                return false;
            }
            is_weaker(b, own_at(case.claim, case.table, k))
        }
        TurnPlace::Register(_) => false,
        TurnPlace::Input => false,
    }
}

// Whether what is known of the interval of x17 is that a service reads.
fn is_reading(claim: &StackClaim<'_>, k: usize) -> bool
    requires claim { IsStackClaim claim.now }
    requires node { k < length claim.now.graph.now.code.nodes }
    ensures { result ≡ relating.is_one (values.held ((values_in claim.now).at (address claim.now k)) 17) relating.read_number }
{
    is_one(held_at(claim, k, 17), 63)
}

// Whether the input is counted in, and the register has the answer of a read.
fn is_read_into(case: &TurnCase<'_>, i: Instr, k: usize, r: u8, b: Relation) -> bool
    requires claim { IsStackClaim case.now.claim.now }
    requires node { k < length case.now.claim.now.graph.now.code.nodes }
    requires sized { AreTurns case.now.claim.now.graph.now.code.nodes case.now.table.now }
    ensures { result ≡ true → relating.IsReadInto (values_in case.now.claim.now) (certificate_in case.now.claim.now case.now.table.now)
        (address case.now.claim.now k) i r (relation_view b) }
{
    match (case.table.place, i) {
        (TurnPlace::Input, Instr::Ecall) => {
            if r != 10 {
                return false;
            }
            if !is_reading(case.claim, k) {
                return false;
            }
            let less = consumed_by(own_at(case.claim, case.table, k));
            is_weaker(b, Relation::Read(less))
        }
        _ => false,
    }
}

/// Whether a relation is one of a register behind the instruction of node k.
pub fn is_row_over(case: &TurnCase<'_>, i: Instr, k: usize, r: u8, b: Relation) -> bool
    requires claim { IsStackClaim case.now.claim.now }
    requires node { k < length case.now.claim.now.graph.now.code.nodes }
    requires sized { AreTurns case.now.claim.now.graph.now.code.nodes case.now.table.now }
    ensures { result ≡ true → relating.IsRowOver (values_in case.now.claim.now) (stacks_in case.now.claim.now)
        (certificate_in case.now.claim.now case.now.table.now) (address case.now.claim.now k) i r (relation_view b) }
{
    if is_unknown(b) {
        return true;
    }
    if keeps(r, i) {
        return is_weaker(b, row_at(case.claim, case.table, k, r));
    }
    is_made_over(case, i, k, r, b)
        || is_loaded_own(case, i, k, r, b)
        || is_read_into(case, i, k, r, b)
}

// Whether a register is stored to the word.
fn is_stored_own(case: &TurnCase<'_>, i: Instr, k: usize, word: u32, b: Relation) -> bool
    requires claim { IsStackClaim case.now.claim.now }
    requires node { k < length case.now.claim.now.graph.now.code.nodes }
    requires sized { AreTurns case.now.claim.now.graph.now.code.nodes case.now.table.now }
    ensures { result ≡ true → relating.IsWordOver (values_in case.now.claim.now) (stacks_in case.now.claim.now)
        (certificate_in case.now.claim.now case.now.table.now) (address case.now.claim.now k) i word (relation_view b) }
{
    match stored_from(case.claim, i, k) {
        Some((number, register)) => {
            number == word && is_weaker(b, relation_at(case.claim, case.table, k, register))
        }
        None => false,
    }
}

/// Whether a relation is one of a word of the stack behind the instruction of node k.
pub fn is_word_over(case: &TurnCase<'_>, i: Instr, k: usize, word: u32, b: Relation) -> bool
    requires claim { IsStackClaim case.now.claim.now }
    requires node { k < length case.now.claim.now.graph.now.code.nodes }
    requires sized { AreTurns case.now.claim.now.graph.now.code.nodes case.now.table.now }
    ensures { result ≡ true → relating.IsWordOver (values_in case.now.claim.now) (stacks_in case.now.claim.now)
        (certificate_in case.now.claim.now case.now.table.now) (address case.now.claim.now k) i word (relation_view b) }
{
    if is_weaker(b, own_at(case.claim, case.table, k)) && is_missed(case.claim, i, k, word) {
        return true;
    }
    is_stored_own(case, i, k, word, b)
}
