//! What a table says of registers where a function begins, behind a call and at a return.

ghost use Rattle.std.specs.Prelude.{◌≡◌, ◌<◌, ◌⊎◌, ℕ, length, Some, None, true};
ghost use Rattle.code_text.specs.Text as text;
ghost use Rattle.bound_laws.specs.Values as values;
ghost use Rattle.bound_laws.specs.Values.{IsRegister};
ghost use Rattle.stack_laws.specs.Stacks as stacks;
ghost use Rattle.stack_laws.specs.Stacks.Name.{of_begin};
ghost use Rattle.stack_tables.specs.Tables.{IsStackClaim, address, named, stacks_in, text_in, values_in};
ghost use Rattle.stack_checks.specs.Checked.{IsGivenBack, IsRegisterBegun, IsRegisterBehind, IsWay, from, stacks_along, text_along, to, values_along};

use crate::registers::{is_covered_by_name, is_span_left, is_spanned_by_name};
use crate::ways::{Way, arc_before, arc_behind};
use scale_base::Instr;
use stack_tables::{
    Name, StackClaim, arc_at, exits, is_given_back, is_name_safe, is_restored, is_same_name, name,
};
use wrapped_intervals::{covers, keeps};

// Whether a register is unnamed at node n, or named as it was when the function began.
fn is_name_begun(claim: &StackClaim<'_>, n: usize, r: u8) -> bool
    requires claim { IsStackClaim claim.now }
    requires node { n < length claim.now.graph.now.code.nodes }
    requires register { r < 32 }
    ensures { result ≡ true → ((stacks_in claim.now).name (address claim.now n) r ≡ None) ⊎
        ((stacks_in claim.now).name (address claim.now n) r ≡ Some (of_begin r 0)) }
{
    is_same_name(name(claim, n, r), None)
        || is_same_name(name(claim, n, r), Some(Name::OfBegin(r, 0)))
}

// Whether a register is so at node n as it is where a function begins.
fn is_register_begun(claim: &StackClaim<'_>, n: usize, r: u8) -> bool
    requires claim { IsStackClaim claim.now }
    requires node { n < length claim.now.graph.now.code.nodes }
    requires register { r < 32 }
    ensures { result ≡ true → IsRegisterBegun (stacks_in claim.now) (address claim.now n) r }
{
    is_name_begun(claim, n, r) && is_spanned_by_name(claim, n, r)
}

/// Whether each one is.
pub fn are_registers_begun(claim: &StackClaim<'_>, n: usize) -> bool
    requires claim { IsStackClaim claim.now }
    requires node { n < length claim.now.graph.now.code.nodes }
    ensures { result ≡ true → (r : ℕ) → IsRegister r → IsRegisterBegun (stacks_in claim.now) (address claim.now n) r }
{
    for r in 1..32u8 {
        if !is_register_begun(claim, n, r) {
            return false;
        }
    }
    true
}

// Whether a register is behind the call what it was before, as the function that begins at node h restores it.
fn is_back(way: &Way<'_>, h: usize, r: u8) -> bool
    requires way { IsWay way.now }
    requires entry { h < length way.now.claim.now.graph.now.code.nodes }
    requires register { r < 32 }
    ensures { result ≡ true → IsGivenBack way.now h r }
{
    is_given_back(way.claim, way.instr, way.from, h, r)
}

// Whether a register's interval holds what it has at the returns of the function.
fn is_exit_covered(way: &Way<'_>, h: usize, r: u8) -> bool
    requires way { IsWay way.now }
    requires entry { h < length way.now.claim.now.graph.now.code.nodes }
    requires register { r < 32 }
    ensures { result ≡ true → values.Covers ((values_along way.now).at (to way.now) r)
        ((values_along way.now).exit ((values_along way.now).function (address way.now.claim.now h)) r) }
{
    covers(arc_behind(way, r), exits(way.claim, h)[usize::from(r)])
}

// Whether a register's interval holds what it had.
fn is_arc_left(way: &Way<'_>, r: u8) -> bool
    requires way { IsWay way.now }
    requires register { r < 32 }
    ensures { result ≡ true → values.Covers ((values_along way.now).at (to way.now) r) ((values_along way.now).at (from way.now) r) }
{
    covers(arc_behind(way, r), arc_before(way, r))
}

// Whether a register's interval holds what it has behind the call.
fn is_arc_back(way: &Way<'_>, h: usize, r: u8) -> bool
    requires way { IsWay way.now }
    requires entry { h < length way.now.claim.now.graph.now.code.nodes }
    requires register { r < 32 }
    ensures { result ≡ true → stacks.IsRegisterBack (text_along way.now) (values_along way.now) (stacks_along way.now) (from way.now)
        (address way.now.claim.now h) (to way.now) r }
{
    is_exit_covered(way, h, r)
        || (is_back(way, h, r) && is_arc_left(way, r))
        || is_covered_by_name(way.claim, way.to, r)
}

// Whether its name is the one that it had.
fn is_name_back(way: &Way<'_>, h: usize, r: u8) -> bool
    requires way { IsWay way.now }
    requires entry { h < length way.now.claim.now.graph.now.code.nodes }
    requires register { r < 32 }
    ensures { result ≡ true → stacks.IsNameBack (text_along way.now) (values_along way.now) (stacks_along way.now) (from way.now)
        (address way.now.claim.now h) (to way.now) r }
{
    let before = name(way.claim, way.from, r);
    let behind = name(way.claim, way.to, r);
    is_same_name(behind, None)
        || (is_back(way, h, r)
            && is_same_name(behind, before)
            && is_name_safe(way.claim, way.from, h, before))
}

// Whether its span is.
fn is_span_back(way: &Way<'_>, h: usize, r: u8) -> bool
    requires way { IsWay way.now }
    requires entry { h < length way.now.claim.now.graph.now.code.nodes }
    requires register { r < 32 }
    ensures { result ≡ true → stacks.IsSpanBack (text_along way.now) (values_along way.now) (stacks_along way.now) (from way.now)
        (address way.now.claim.now h) (to way.now) r }
{
    is_spanned_by_name(way.claim, way.to, r) || (is_back(way, h, r) && is_span_left(way, r))
}

// Whether all that a table says of a register is so behind the call of the function that begins at node h.
fn is_register_behind(way: &Way<'_>, h: usize, r: u8) -> bool
    requires way { IsWay way.now }
    requires entry { h < length way.now.claim.now.graph.now.code.nodes }
    requires register { r < 32 }
    ensures { result ≡ true → IsRegisterBehind way.now h r }
{
    is_arc_back(way, h, r) && is_name_back(way, h, r) && is_span_back(way, h, r)
}

/// The same of each one.
pub fn are_registers_behind(way: &Way<'_>, h: usize) -> bool
    requires way { IsWay way.now }
    requires entry { h < length way.now.claim.now.graph.now.code.nodes }
    ensures { result ≡ true → (r : ℕ) → IsRegister r → IsRegisterBehind way.now h r }
{
    for r in 1..32u8 {
        if !is_register_behind(way, h, r) {
            return false;
        }
    }
    true
}

// Whether the intervals at the returns of node u's function hold that of a register.
fn is_exit_held(claim: &StackClaim<'_>, u: usize, r: u8) -> bool
    requires claim { IsStackClaim claim.now }
    requires from { u < length claim.now.graph.now.code.nodes }
    requires register { r < 32 }
    ensures { result ≡ true → values.Covers ((values_in claim.now).exit ((values_in claim.now).function (address claim.now u)) r)
        ((values_in claim.now).at (address claim.now u) r) }
{
    covers(exits(claim, u)[usize::from(r)], arc_at(claim, u, r))
}

// Whether a register that node u's function restores is there what it was when the function began.
fn is_name_restored(claim: &StackClaim<'_>, u: usize, r: u8) -> bool
    requires claim { IsStackClaim claim.now }
    requires from { u < length claim.now.graph.now.code.nodes }
    requires register { r < 32 }
    ensures { result ≡ true → (stacks_in claim.now).restored ((values_in claim.now).function (address claim.now u)) r ≡ true →
        (stacks_in claim.now).name (address claim.now u) r ≡ Some (of_begin r 0) }
{
    !is_restored(claim, u, r) || is_same_name(name(claim, u, r), Some(Name::OfBegin(r, 0)))
}

// Whether a return at node u leaves a register, and what the table says of it at returns is so.
fn is_register_returned(claim: &StackClaim<'_>, i: Instr, u: usize, r: u8) -> bool
    requires claim { IsStackClaim claim.now }
    requires from { u < length claim.now.graph.now.code.nodes }
    requires register { r < 32 }
    requires instruction { text.instr_at (text_in claim.now) (address claim.now u) ≡ Some i }
    ensures { result ≡ true → stacks.IsReturned (text_in claim.now) (values_in claim.now) (stacks_in claim.now) (address claim.now u) r }
{
    keeps(r, i) && is_exit_held(claim, u, r) && is_name_restored(claim, u, r)
}

/// The same of each one.
pub fn are_registers_returned(claim: &StackClaim<'_>, i: Instr, u: usize) -> bool
    requires claim { IsStackClaim claim.now }
    requires from { u < length claim.now.graph.now.code.nodes }
    requires instruction { text.instr_at (text_in claim.now) (address claim.now u) ≡ Some i }
    ensures { result ≡ true → (r : ℕ) → IsRegister r → stacks.IsReturned (text_in claim.now) (values_in claim.now) (stacks_in claim.now)
        (address claim.now u) r }
{
    for r in 1..32u8 {
        if !is_register_returned(claim, i, u, r) {
            return false;
        }
    }
    true
}
