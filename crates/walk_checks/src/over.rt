//! What an instruction of a loop leaves of traces.

ghost use Rattle.std.specs.Prelude.{◌≡◌, ◌<◌, ◌%◌, ◌^◌, true, length, IfSome};
ghost use Rattle.scale_base.specs.Arith.{unsigned};
ghost use Rattle.stack_tables.specs.Tables.{stacks_in, values_in};
ghost use Rattle.wrapped_intervals.specs.Small.{IsFoundOr};
ghost use Rattle.walk_areas.specs.Walking as walking;
ghost use Rattle.walk_checks.specs.Walked.{at_of, cert, found_view, traced_view, IsRowFound, IsWalkCase, IsWordFound};

use crate::rows::{operand, row_at, word_at};
use crate::tables::{Trace, WalkCase};
use crate::traces::{Found, is_wider_trace, known, moved, multiplied, sum_of_both};
use scale_base::{ImmOp, Instr, RegOp};
use stack_tables::{is_missed, loaded_to, stored_from};
use wrapped_intervals::keeps;

/// The trace that a table has for a register, or for a word, where there is one.
pub fn known_of(trace: Option<Trace>) -> Option<Found>
    ensures known { IfSome result (λ z. found_view z ≡ traced_view trace) }
    ensures found { IfSome result (λ z. IsFoundOr z.more) }
{
    match trace {
        Some(trace) => known(trace),
        None => None,
    }
}

// The sum of a register and a number.
fn summed(case: &WalkCase<'_>, k: usize, rs1: u8, imm: i32) -> Option<Found>
    requires case { IsWalkCase case.now }
    requires from { k < length case.now.claim.now.graph.now.code.nodes }
    ensures summed { IfSome result (λ z. found_view z ≡ walking.moved_by_number
        (walking.operand (values_in case.now.claim.now) (cert case.now) (at_of case.now k) rs1) (unsigned imm)) }
    ensures found { IfSome result (λ z. IsFoundOr z.more) }
{
    match operand(case, k, rs1) {
        Some(z) => Some(moved(&z, imm.cast_unsigned())),
        None => None,
    }
}

// The power of 2 by which a shift multiplies.
fn power_of(n: u32) -> u32
    requires { n < 32 }
    ensures { result ≡ 2 ^ n }
{
    1u32 << n
}

// A register that is shifted to the left.
fn shifted(case: &WalkCase<'_>, k: usize, rs1: u8, imm: i32) -> Option<Found>
    requires case { IsWalkCase case.now }
    requires from { k < length case.now.claim.now.graph.now.code.nodes }
    ensures shifted { IfSome result (λ z. found_view z ≡ walking.multiplied
        (walking.operand (values_in case.now.claim.now) (cert case.now) (at_of case.now k) rs1) (2 ^ (unsigned imm % 32))) }
    ensures found { IfSome result (λ z. IsFoundOr z.more) }
{
    match operand(case, k, rs1) {
        Some(z) => multiplied(&z, power_of(imm.cast_unsigned() % 32)),
        None => None,
    }
}

// The sum of two registers.
fn added(case: &WalkCase<'_>, k: usize, rs1: u8, rs2: u8) -> Option<Found>
    requires case { IsWalkCase case.now }
    requires from { k < length case.now.claim.now.graph.now.code.nodes }
    ensures added { IfSome result (λ z. found_view z ≡ walking.sum_of_both
        (walking.operand (values_in case.now.claim.now) (cert case.now) (at_of case.now k) rs1)
        (walking.operand (values_in case.now.claim.now) (cert case.now) (at_of case.now k) rs2)) }
    ensures found { IfSome result (λ z. IsFoundOr z.more) }
{
    match (operand(case, k, rs1), operand(case, k, rs2)) {
        (Some(y), Some(z)) => sum_of_both(&y, &z),
        _ => None,
    }
}

// The trace of a register that an operation with a number writes.
fn numbered_over(case: &WalkCase<'_>, i: Instr, k: usize, r: u8) -> Option<Found>
    requires case { IsWalkCase case.now }
    requires from { k < length case.now.claim.now.graph.now.code.nodes }
    ensures over { IfSome result (λ z. IsRowFound (values_in case.now.claim.now) (stacks_in case.now.claim.now) (cert case.now)
        (at_of case.now k) i r (found_view z)) }
    ensures found { IfSome result (λ z. IsFoundOr z.more) }
{
    let Instr::Imm { op, rd, rs1, imm } = i else {
        return None;
    };
    if rd != r {
        return None;
    }
    match op {
        ImmOp::Addi => summed(case, k, rs1, imm),
        ImmOp::Slli => shifted(case, k, rs1, imm),
        _ => None,
    }
}

// Of one that an operation with two registers writes.
fn added_over(case: &WalkCase<'_>, i: Instr, k: usize, r: u8) -> Option<Found>
    requires case { IsWalkCase case.now }
    requires from { k < length case.now.claim.now.graph.now.code.nodes }
    ensures over { IfSome result (λ z. IsRowFound (values_in case.now.claim.now) (stacks_in case.now.claim.now) (cert case.now)
        (at_of case.now k) i r (found_view z)) }
    ensures found { IfSome result (λ z. IsFoundOr z.more) }
{
    let Instr::Reg { op, rd, rs1, rs2 } = i else {
        return None;
    };
    if rd != r {
        return None;
    }
    match op {
        RegOp::Add => added(case, k, rs1, rs2),
        _ => None,
    }
}

// And of one to which a word is loaded.
fn loaded_over(case: &WalkCase<'_>, i: Instr, k: usize, r: u8) -> Option<Found>
    requires case { IsWalkCase case.now }
    requires from { k < length case.now.claim.now.graph.now.code.nodes }
    ensures over { IfSome result (λ z. IsRowFound (values_in case.now.claim.now) (stacks_in case.now.claim.now) (cert case.now)
        (at_of case.now k) i r (found_view z)) }
    ensures found { IfSome result (λ z. IsFoundOr z.more) }
{
    match loaded_to(case.claim, i, k) {
        Some((number, register)) => {
            if register == r {
                known_of(word_at(case, k, number))
            } else {
                None
            }
        }
        None => None,
    }
}

// Of one that is written.
fn written_over(case: &WalkCase<'_>, i: Instr, k: usize, r: u8) -> Option<Found>
    requires case { IsWalkCase case.now }
    requires from { k < length case.now.claim.now.graph.now.code.nodes }
    ensures over { IfSome result (λ z. IsRowFound (values_in case.now.claim.now) (stacks_in case.now.claim.now) (cert case.now)
        (at_of case.now k) i r (found_view z)) }
    ensures found { IfSome result (λ z. IsFoundOr z.more) }
{
    match i {
        Instr::Imm {
            op: _,
            rd: _,
            rs1: _,
            imm: _,
        } => numbered_over(case, i, k, r),
        Instr::Reg {
            op: _,
            rd: _,
            rs1: _,
            rs2: _,
        } => added_over(case, i, k, r),
        _ => loaded_over(case, i, k, r),
    }
}

/// The trace of a register behind the instruction of node k.
pub fn row_over(case: &WalkCase<'_>, i: Instr, k: usize, r: u8) -> Option<Found>
    requires case { IsWalkCase case.now }
    requires from { k < length case.now.claim.now.graph.now.code.nodes }
    ensures over { IfSome result (λ z. IsRowFound (values_in case.now.claim.now) (stacks_in case.now.claim.now) (cert case.now)
        (at_of case.now k) i r (found_view z)) }
    ensures found { IfSome result (λ z. IsFoundOr z.more) }
{
    if keeps(r, i) {
        known_of(row_at(case, k, r))
    } else {
        written_over(case, i, k, r)
    }
}

/// Whether a trace is one of a register behind it.
pub fn is_row_over(case: &WalkCase<'_>, i: Instr, k: usize, r: u8, b: Option<Trace>) -> bool
    requires case { IsWalkCase case.now }
    requires from { k < length case.now.claim.now.graph.now.code.nodes }
    ensures { result ≡ true → walking.IsRowOver (values_in case.now.claim.now) (stacks_in case.now.claim.now) (cert case.now)
        (at_of case.now k) i r (traced_view b) }
{
    if b.is_none() {
        return true;
    }
    match row_over(case, i, k, r) {
        Some(z) => is_wider_trace(b, &z),
        None => false,
    }
}

// The trace of a word that the instruction stores.
fn stored_over(case: &WalkCase<'_>, i: Instr, k: usize, number: u32) -> Option<Found>
    requires case { IsWalkCase case.now }
    requires from { k < length case.now.claim.now.graph.now.code.nodes }
    ensures over { IfSome result (λ z. IsWordFound (values_in case.now.claim.now) (stacks_in case.now.claim.now) (cert case.now)
        (at_of case.now k) i number (found_view z)) }
    ensures found { IfSome result (λ z. IsFoundOr z.more) }
{
    match stored_from(case.claim, i, k) {
        Some((word, register)) => {
            if word == number {
                operand(case, k, register)
            } else {
                None
            }
        }
        None => None,
    }
}

/// The trace of a word of the stack behind the instruction of node k.
pub fn word_over(case: &WalkCase<'_>, i: Instr, k: usize, number: u32) -> Option<Found>
    requires case { IsWalkCase case.now }
    requires from { k < length case.now.claim.now.graph.now.code.nodes }
    ensures over { IfSome result (λ z. IsWordFound (values_in case.now.claim.now) (stacks_in case.now.claim.now) (cert case.now)
        (at_of case.now k) i number (found_view z)) }
    ensures found { IfSome result (λ z. IsFoundOr z.more) }
{
    if is_missed(case.claim, i, k, number) {
        known_of(word_at(case, k, number))
    } else {
        stored_over(case, i, k, number)
    }
}

/// Whether a trace is one of a word behind it.
pub fn is_word_over(case: &WalkCase<'_>, i: Instr, k: usize, number: u32, b: Option<Trace>) -> bool
    requires case { IsWalkCase case.now }
    requires from { k < length case.now.claim.now.graph.now.code.nodes }
    ensures { result ≡ true → walking.IsWordOver (values_in case.now.claim.now) (stacks_in case.now.claim.now) (cert case.now)
        (at_of case.now k) i number (traced_view b) }
{
    if b.is_none() {
        return true;
    }
    match word_over(case, i, k, number) {
        Some(z) => is_wider_trace(b, &z),
        None => false,
    }
}
