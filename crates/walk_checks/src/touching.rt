//! Whether memory was accessed where the pointer points.

ghost use Rattle.std.specs.Prelude.{◌≡◌, ◌<◌, ℕ, List, None, Some, length, true, IfSome};
ghost use Rattle.bound_laws.specs.Registers as registers;
ghost use Rattle.bound_laws.specs.Values as values;
ghost use Rattle.bound_laws.specs.Values.{IsRegister};
ghost use Rattle.stack_laws.specs.Areas.{IsAccess};
ghost use Rattle.stack_tables.specs.Tables.{values_in};
ghost use Rattle.wrapped_intervals.specs.Small.{IsFoundOr};
ghost use Rattle.walk_areas.specs.Walking as walking;
ghost use Rattle.walk_checks.specs.Walked.{at_of, cert, certificate_of, found_view, IsLoadTo, IsPlaced, IsStep, IsWalkCase};

use crate::rows::{holder_at, is_touched, operand};
use crate::starts::{is_register, passed_on};
use crate::tables::{Sought, Step, WalkCase, WalkTable};
use crate::traces::{Found, is_wider, moved};
use scale_base::{Instr, LoadOp};
use stack_tables::held_at;
use wrapped_intervals::{Arc, covers, is_kept, keeps, sum_with};

// The register through which an instruction loads or stores, and how far from what it holds, modulo 2^32.
fn access_of(i: Instr) -> Option<(u8, u32)>
    ensures { IfSome result (λ p. IsAccess i p.0 p.1) }
{
    match i {
        Instr::Load {
            op: _,
            rd: _,
            rs1,
            offset,
        } => Some((rs1, offset.cast_unsigned())),
        Instr::Store {
            op: _,
            rs1,
            rs2: _,
            offset,
        } => Some((rs1, offset.cast_unsigned())),
        _ => None,
    }
}

// The address of the access.
fn aim(table: &WalkTable) -> Found
    ensures { (nodes : List ℕ) → found_view result ≡ walking.aim (certificate_of nodes table.now) }
{
    Found {
        firsts: u64::from(table.first_factor),
        seconds: u64::from(table.second_factor),
        more: Some(Arc::strided(u64::from(table.at), 0, 0)),
    }
}

// Whether it is so far from what a register holds before node k.
fn is_aimed_by(case: &WalkCase<'_>, k: usize, register: u8, more: u32) -> bool
    requires case { IsWalkCase case.now }
    requires from { k < length case.now.claim.now.graph.now.code.nodes }
    ensures { result ≡ true → walking.IsWider (walking.aim (cert case.now)) (walking.moved_by_number
        (walking.operand (values_in case.now.claim.now) (cert case.now) (at_of case.now k) register) more) }
{
    match operand(case, k, register) {
        Some(z) => is_wider(&aim(case.table), &moved(&z, more)),
        None => false,
    }
}

// Whether an interval of addresses is in the place of the walk.
fn is_in_place(table: &WalkTable, i: Option<Arc>) -> bool
    requires { IsFoundOr i }
    ensures { result ≡ true → values.Covers table.now.place i }
{
    is_kept(table.place) && covers(table.place, i)
}

// Whether the address is, by the register's interval.
fn is_placed(case: &WalkCase<'_>, k: usize, register: u8, more: u32) -> bool
    requires case { IsWalkCase case.now }
    requires from { k < length case.now.claim.now.graph.now.code.nodes }
    ensures { result ≡ true → IsPlaced case.now k register more }
{
    match held_at(case.claim, k, register) {
        Some(held) => is_in_place(case.table, sum_with(Some(held), u64::from(more))),
        None => is_in_place(case.table, sum_with(None, u64::from(more))),
    }
}

// Whether the instruction of node k accesses memory there.
fn is_aimed(case: &WalkCase<'_>, i: Instr, k: usize) -> bool
    requires case { IsWalkCase case.now }
    requires from { k < length case.now.claim.now.graph.now.code.nodes }
    ensures { result ≡ true → walking.IsAimed (values_in case.now.claim.now) (cert case.now) (at_of case.now k) i }
{
    match access_of(i) {
        Some((register, more)) => {
            is_aimed_by(case, k, register, more) && is_placed(case, k, register, more)
        }
        None => false,
    }
}

// Whether two kinds of loads are the same.
fn is_same_kind(op: LoadOp, other: LoadOp) -> bool
    ensures { result ≡ true → op ≡ other }
{
    op == other
}

// Whether an instruction is a load of a kind to a register.
fn is_load_to(i: Instr, kind: LoadOp, r: u8) -> bool
    ensures { result ≡ true → IsLoadTo i kind r }
{
    match i {
        Instr::Load {
            op,
            rd,
            rs1: _,
            offset: _,
        } => {
            if rd == r {
                is_same_kind(op, kind)
            } else {
                false
            }
        }
        _ => false,
    }
}

// Whether it is one of the kind of what is sought, at the pointer.
fn is_seeking(case: &WalkCase<'_>, i: Instr, k: usize, r: u8, sought: Sought) -> bool
    requires case { IsWalkCase case.now }
    requires from { k < length case.now.claim.now.graph.now.code.nodes }
    ensures register { result ≡ true → IsRegister r }
    ensures loads { result ≡ true → IsLoadTo i sought.op r }
    ensures aimed { result ≡ true → walking.IsAimed (values_in case.now.claim.now) (cert case.now) (at_of case.now k) i }
{
    is_register(r) && is_load_to(i, sought.op, r) && is_aimed(case, i, k)
}

// The same of what the table says is sought.
fn is_searching(case: &WalkCase<'_>, i: Instr, k: usize, r: u8) -> bool
    requires case { IsWalkCase case.now }
    requires from { k < length case.now.claim.now.graph.now.code.nodes }
    ensures { result ≡ true → walking.IsSearching (values_in case.now.claim.now) (cert case.now) (at_of case.now k) i r }
{
    match case.table.sought {
        Some(sought) => is_seeking(case, i, k, r, sought),
        None => false,
    }
}

// Whether the instruction leaves the register that has what was loaded.
fn is_holder_kept(case: &WalkCase<'_>, i: Instr, k: usize, r: u8) -> bool
    requires case { IsWalkCase case.now }
    requires from { k < length case.now.claim.now.graph.now.code.nodes }
    ensures { result ≡ true → ((cert case.now).holder (at_of case.now k) ≡ Some r) × (registers.keeps r i ≡ true) }
{
    match holder_at(case, k) {
        Some(q) => q == r && keeps(r, i),
        None => false,
    }
}

// Whether a register has behind it what was loaded.
fn is_held_over(case: &WalkCase<'_>, i: Instr, k: usize, r: u8) -> bool
    requires case { IsWalkCase case.now }
    requires from { k < length case.now.claim.now.graph.now.code.nodes }
    ensures { result ≡ true → walking.IsHolderOver (values_in case.now.claim.now) (cert case.now) (at_of case.now k) i (Some r) }
{
    if is_holder_kept(case, i, k, r) {
        return true;
    }
    is_searching(case, i, k, r)
}

/// The same, where a register is said to.
pub fn is_holder_over(case: &WalkCase<'_>, i: Instr, k: usize, b: Option<u8>) -> bool
    requires case { IsWalkCase case.now }
    requires from { k < length case.now.claim.now.graph.now.code.nodes }
    ensures { result ≡ true → walking.IsHolderOver (values_in case.now.claim.now) (cert case.now) (at_of case.now k) i b }
{
    match b {
        Some(r) => is_held_over(case, i, k, r),
        None => true,
    }
}

// Whether an interval is in that of what is sought.
fn is_wanted(sought: Sought, i: Option<Arc>) -> bool
    requires { IsFoundOr i }
    ensures { result ≡ true → values.Covers (Some sought.wanted) i }
{
    is_kept(Some(sought.wanted)) && covers(Some(sought.wanted), i)
}

// Whether what a register has that the instruction leaves is sought, by its interval on the way to node n.
fn is_found_in(case: &WalkCase<'_>, step: Step, r: u8, sought: Sought) -> bool
    requires case { IsWalkCase case.now }
    requires step { IsStep case.now step }
    ensures register { result ≡ true → IsRegister r }
    ensures left { result ≡ true → registers.keeps r step.instr ≡ true }
    ensures covers { result ≡ true → values.Covers (Some sought.wanted) (values.passed step.instr (at_of case.now step.from)
        (at_of case.now step.to) ((values_in case.now.claim.now).at (at_of case.now step.from)) r) }
{
    is_register(r) && keeps(r, step.instr) && is_wanted(sought, passed_on(case, step, r))
}

// Whether what was loaded shows to be sought on the way.
fn is_found(case: &WalkCase<'_>, step: Step) -> bool
    requires case { IsWalkCase case.now }
    requires step { IsStep case.now step }
    ensures { result ≡ true → walking.IsFound (values_in case.now.claim.now) (cert case.now) (at_of case.now step.from) step.instr
        (at_of case.now step.to) }
{
    match (case.table.sought, holder_at(case, step.from)) {
        (Some(sought), Some(r)) => is_found_in(case, step, r, sought),
        _ => false,
    }
}

// Whether nothing is sought.
fn has_none_sought(case: &WalkCase<'_>) -> bool
    ensures { result ≡ true → (cert case.now).sought ≡ None }
{
    match case.table.sought {
        Some(_) => false,
        None => true,
    }
}

// Whether it accesses memory, and nothing is sought.
fn is_aimed_alone(case: &WalkCase<'_>, i: Instr, k: usize) -> bool
    requires case { IsWalkCase case.now }
    requires from { k < length case.now.claim.now.graph.now.code.nodes }
    ensures alone { result ≡ true → (cert case.now).sought ≡ None }
    ensures aimed { result ≡ true → walking.IsAimed (values_in case.now.claim.now) (cert case.now) (at_of case.now k) i }
{
    has_none_sought(case) && is_aimed(case, i, k)
}

/// Whether memory was accessed on the way, by its instruction or by one before it, and what is sought was found.
pub fn is_touched_over(case: &WalkCase<'_>, step: Step) -> bool
    requires case { IsWalkCase case.now }
    requires step { IsStep case.now step }
    ensures { result ≡ true → walking.IsTouched (values_in case.now.claim.now) (cert case.now) (at_of case.now step.from) step.instr
        (at_of case.now step.to) }
{
    if is_touched(case, step.from) {
        return true;
    }
    if is_aimed_alone(case, step.instr, step.from) {
        return true;
    }
    is_found(case, step)
}
