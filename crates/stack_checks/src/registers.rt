//! What a table says of registers over an edge that is no call.

ghost use Rattle.std.specs.Prelude.{◌≡◌, ◌<◌, ◌⊎◌, ℕ, length, IfSome, Some, None, is_some, true};
ghost use Rattle.bound_laws.specs.Values as values;
ghost use Rattle.bound_laws.specs.Values.{IsRegister};
ghost use Rattle.stack_laws.specs.Stacks as stacks;
ghost use Rattle.stack_laws.specs.Stacks.Name.{of_word};
ghost use Rattle.wrapped_intervals.specs.Small.{IsKeptOr};
ghost use Rattle.stack_tables.specs.Tables.{IsStackClaim, address, named, stacks_in, values_in};
ghost use Rattle.stack_checks.specs.declared.origins.Origin.TheVariants.{Sum};
ghost use Rattle.stack_checks.specs.Checked.{IsCoveredAlong, IsNamedAlong, IsOriginOf, IsRegisterPassed, IsSpannedAlong, IsWay, from, stacks_along, to, values_along};

use crate::accesses::is_covered_by_access;
use crate::cells::is_cell_loaded;
use crate::dwindling::is_limited_by;
use crate::fixed::is_fixed_loaded;
use crate::lines::is_solved;
use crate::made::is_subtracted;
use crate::origins::{Origin, origin_of};
use crate::solving::is_solved_by_access;
use crate::telling::is_told_to;
use crate::ways::{Way, arc_before, arc_behind, passed_on};
use stack_tables::{
    Name, StackClaim, arc_at, begins, held_at, is_same_name, is_steady, known_sum, known_sums,
    more_of, name, name_arc, name_of, name_span, span, span_of, stored_from, word,
};
use wrapped_intervals::{Arc, covers, keeps, opposite_of, sum_with};

// Whether a register's interval holds what the instruction leaves in it.
fn is_covered(way: &Way<'_>, r: u8) -> bool
    requires way { IsWay way.now }
    requires register { r < 32 }
    ensures { result ≡ true → IsCoveredAlong way.now r }
{
    covers(arc_behind(way, r), passed_on(way, r))
        || (keeps(r, way.instr) && covers(arc_behind(way, r), arc_before(way, r)))
        || is_solved(way, r)
}

/// Whether a register's interval at node n holds what its name there says.
pub fn is_covered_by_name(claim: &StackClaim<'_>, n: usize, r: u8) -> bool
    requires claim { IsStackClaim claim.now }
    requires node { n < length claim.now.graph.now.code.nodes }
    requires register { r < 32 }
    ensures { result ≡ true → values.Covers ((values_in claim.now).at (address claim.now n) r)
        (stacks.name_arc (values_in claim.now) (stacks_in claim.now) (address claim.now n)
        ((stacks_in claim.now).name (address claim.now n) r)) }
{
    covers(arc_at(claim, n, r), name_arc(claim, n, name(claim, n, r)))
}

// Whether one of both does, or a line of the difference that the instruction writes, or a cell that it loads, or what another one tells, or
// where the access through it may be, or how often a number can be divided that it counts, or a line of it and
// of a register through which an access goes.
fn is_covered_over(way: &Way<'_>, r: u8) -> bool
    requires way { IsWay way.now }
    requires register { r < 32 }
    ensures { result ≡ true → stacks.IsCoveredOver (values_along way.now) (stacks_along way.now) way.now.instr (from way.now) (to way.now)
        r }
{
    if is_covered(way, r) {
        return true;
    }
    if is_covered_by_name(way.claim, way.to, r) {
        return true;
    }
    if is_subtracted(way, r) {
        return true;
    }
    if is_cell_loaded(way, r) {
        return true;
    }
    if is_told_to(way, r) {
        return true;
    }
    if is_covered_by_access(way, r) {
        return true;
    }
    if is_limited_by(way, r) {
        return true;
    }
    if is_solved_by_access(way, r) {
        return true;
    }
    is_fixed_loaded(way, r)
}

// ---- names

// Whether a register has this name where the way leads.
fn is_named(way: &Way<'_>, r: u8, wanted: Option<Name>) -> bool
    requires way { IsWay way.now }
    requires register { r < 32 }
    ensures { result ≡ true → (stacks_along way.now).name (to way.now) r ≡ named wanted }
{
    is_same_name(name(way.claim, way.to, r), wanted)
}

// Whether it has the name that it had, of what is not stored to.
fn is_name_left(way: &Way<'_>, r: u8) -> bool
    requires way { IsWay way.now }
    requires register { r < 32 }
    ensures same { result ≡ true → (stacks_along way.now).name (to way.now) r ≡ (stacks_along way.now).name (from way.now) r }
    ensures steady { result ≡ true → stacks.IsSteady (values_along way.now) (stacks_along way.now) (from way.now) way.now.instr
        ((stacks_along way.now).name (from way.now) r) }
{
    let before = name(way.claim, way.from, r);
    is_named(way, r, before) && is_steady(way.claim, way.instr, way.from, before)
}

// Whether it has the name of register s, by a number more.
fn is_name_more(way: &Way<'_>, r: u8, s: u8, more: u32) -> bool
    requires way { IsWay way.now }
    requires register { r < 32 }
    ensures { result ≡ true → (stacks_along way.now).name (to way.now) r ≡ stacks.more_of
        (stacks.name_of (stacks_along way.now) (from way.now) s) more }
{
    is_named(way, r, more_of(name_of(way.claim, way.from, s), more))
}

// The one number that a register holds before the instruction, as an interval.
fn exact(way: &Way<'_>, r: u8) -> Option<Arc>
    requires { IsWay way.now }
    ensures exact { IfSome result (λ c. stacks.IsExactly (values_along way.now) (from way.now) r c) }
    ensures kept { IsKeptOr result }
{
    match held_at(way.claim, way.from, r) {
        Some(c) => { if c.more() == 0 { Some(c) } else { None } }
        None => None,
    }
}

// Whether it has the name of register s, by the number of register o more.
fn is_name_exact(way: &Way<'_>, r: u8, s: u8, o: u8) -> bool
    requires way { IsWay way.now }
    requires register { r < 32 }
    ensures { result ≡ true → (c : values.Arc) × stacks.IsExactly (values_along way.now) (from way.now) o c ×
        ((stacks_along way.now).name (to way.now) r ≡ stacks.more_of (stacks.name_of (stacks_along way.now) (from way.now) s) c.low) }
{
    match exact(way, o) {
        Some(c) => is_name_more(way, r, s, c.low() as u32),
        None => false,
    }
}

// Whether it has the name of a sum of two registers, of which one is a number.
fn is_name_sum(way: &Way<'_>, r: u8, rs1: u8, rs2: u8) -> bool
    requires way { IsWay way.now }
    requires register { r < 32 }
    requires sum { IsOriginOf way.now r (Sum rs1 rs2) }
    ensures { result ≡ true → IsNamedAlong way.now r }
{
    if is_name_exact(way, r, rs1, rs2) {
        return true;
    }
    is_name_exact(way, r, rs2, rs1)
}

// Whether it has the name of a word, or the name that this word has.
fn is_name_from(way: &Way<'_>, r: u8, number: u32) -> bool
    requires way { IsWay way.now }
    requires register { r < 32 }
    ensures { result ≡ true → ((stacks_along way.now).name (to way.now) r ≡ Some (of_word number 0)) ⊎
        ((stacks_along way.now).name (to way.now) r ≡ (stacks_along way.now).word_name (from way.now) number) }
{
    is_named(way, r, Some(Name::OfWord(number, 0)))
        || is_named(way, r, word(way.claim, way.from, number).name)
}

// Whether it has the name of what the instruction leaves in it, by where that comes from.
fn is_name_by_origin(way: &Way<'_>, r: u8) -> bool
    requires way { IsWay way.now }
    requires register { r < 32 }
    ensures { result ≡ true → IsNamedAlong way.now r }
{
    match origin_of(way, r) {
        Origin::Left => is_name_left(way, r),
        Origin::Plus(rs, more) => is_name_more(way, r, rs, more),
        Origin::Sum(rs1, rs2) => is_name_sum(way, r, rs1, rs2),
        Origin::Loaded(number) => is_name_from(way, r, number),
        Origin::Other => false,
    }
}

// Whether a register's interval before the instruction is known.
fn is_known(way: &Way<'_>, r: u8) -> bool
    requires way { IsWay way.now }
    requires register { r < 32 }
    ensures { result ≡ true → is_some ((values_along way.now).at (from way.now) r) ≡ true }
{
    arc_before(way, r).is_some()
}

// Whether a register that is known has the name of the word to which it is stored.
fn is_name_stored_to(way: &Way<'_>, r: u8, number: u32) -> bool
    requires way { IsWay way.now }
    requires register { r < 32 }
    requires stored { stacks.IsStoredFrom (stacks_along way.now) (from way.now) way.now.instr number r }
    ensures { result ≡ true → IsNamedAlong way.now r }
{
    if !is_known(way, r) {
        return false;
    }
    is_named(way, r, Some(Name::OfWord(number, 0)))
}

// The same, where a word is stored.
fn is_name_stored(way: &Way<'_>, r: u8) -> bool
    requires way { IsWay way.now }
    requires register { r < 32 }
    ensures { result ≡ true → IsNamedAlong way.now r }
{
    match stored_from(way.claim, way.instr, way.from) {
        Some((number, rs)) => {
            if rs == r {
                is_name_stored_to(way, r, number)
            } else {
                false
            }
        }
        None => false,
    }
}

// Whether a register's name is that of what the instruction leaves in it.
fn is_named_over(way: &Way<'_>, r: u8) -> bool
    requires way { IsWay way.now }
    requires register { r < 32 }
    ensures { result ≡ true → IsNamedAlong way.now r }
{
    if is_named(way, r, None) {
        return true;
    }
    if is_name_by_origin(way, r) {
        return true;
    }
    is_name_stored(way, r)
}

// ---- spans

/// Whether a register points at node n as its name there says.
pub fn is_spanned_by_name(claim: &StackClaim<'_>, n: usize, r: u8) -> bool
    requires claim { IsStackClaim claim.now }
    requires node { n < length claim.now.graph.now.code.nodes }
    requires register { r < 32 }
    ensures { result ≡ true → values.Covers ((stacks_in claim.now).span (address claim.now n) r)
        (stacks.name_span ((stacks_in claim.now).name (address claim.now n) r)) }
{
    covers(span(claim, n, r), name_span(name(claim, n, r)))
}

/// Whether a register's span where the way leads holds the one that it had.
pub fn is_span_left(way: &Way<'_>, r: u8) -> bool
    requires way { IsWay way.now }
    requires register { r < 32 }
    ensures { result ≡ true → values.Covers ((stacks_along way.now).span (to way.now) r) ((stacks_along way.now).span (from way.now) r) }
{
    covers(span(way.claim, way.to, r), span(way.claim, way.from, r))
}

// Whether it holds the one of register s, by a number more.
fn is_span_more(way: &Way<'_>, r: u8, s: u8, more: u32) -> bool
    requires way { IsWay way.now }
    requires register { r < 32 }
    ensures { result ≡ true → values.Covers ((stacks_along way.now).span (to way.now) r)
        (stacks.known_sum (stacks.span_of (stacks_along way.now) (from way.now) s) more) }
{
    covers(
        span(way.claim, way.to, r),
        known_sum(span_of(way.claim, way.from, s), u64::from(more)),
    )
}

// Whether it holds the sum of that and of the interval of register o.
fn is_span_adding(way: &Way<'_>, r: u8, s: u8, o: u8) -> bool
    requires way { IsWay way.now }
    requires register { r < 32 }
    ensures { result ≡ true → values.Covers ((stacks_along way.now).span (to way.now) r)
        (stacks.known_sums (stacks.span_of (stacks_along way.now) (from way.now) s)
        (values.held ((values_along way.now).at (from way.now)) o)) }
{
    covers(
        span(way.claim, way.to, r),
        known_sums(
            span_of(way.claim, way.from, s),
            held_at(way.claim, way.from, o),
        ),
    )
}

// Whether it holds that of a sum of two registers.
fn is_span_sum(way: &Way<'_>, r: u8, rs1: u8, rs2: u8) -> bool
    requires way { IsWay way.now }
    requires register { r < 32 }
    requires sum { IsOriginOf way.now r (Sum rs1 rs2) }
    ensures { result ≡ true → IsSpannedAlong way.now r }
{
    if is_span_adding(way, r, rs1, rs2) {
        return true;
    }
    is_span_adding(way, r, rs2, rs1)
}

// Whether it holds that of a word.
fn is_span_from(way: &Way<'_>, r: u8, number: u32) -> bool
    requires way { IsWay way.now }
    requires register { r < 32 }
    ensures { result ≡ true → values.Covers ((stacks_along way.now).span (to way.now) r)
        ((stacks_along way.now).word_span (from way.now) number) }
{
    covers(
        span(way.claim, way.to, r),
        word(way.claim, way.from, number).span,
    )
}

// Whether a register points as what the instruction leaves in it, by where that comes from.
fn is_span_by_origin(way: &Way<'_>, r: u8) -> bool
    requires way { IsWay way.now }
    requires register { r < 32 }
    ensures { result ≡ true → IsSpannedAlong way.now r }
{
    match origin_of(way, r) {
        Origin::Left => is_span_left(way, r),
        Origin::Plus(rs, more) => is_span_more(way, r, rs, more),
        Origin::Sum(rs1, rs2) => is_span_sum(way, r, rs1, rs2),
        Origin::Loaded(number) => is_span_from(way, r, number),
        Origin::Other => false,
    }
}

// Whether a register's span where the way leads holds its interval there less one number.
fn is_span_of_interval(way: &Way<'_>, r: u8, begun: u64) -> bool
    requires way { IsWay way.now }
    requires register { r < 32 }
    ensures { result ≡ true → values.Covers ((stacks_along way.now).span (to way.now) r)
        (values.sum_with ((values_along way.now).at (to way.now) r) (values.opposite_of begun)) }
{
    covers(
        span(way.claim, way.to, r),
        sum_with(arc_behind(way, r), opposite_of(begun)),
    )
}

// Whether it holds its interval less what x2 had when the function began, where that is one number.
fn is_span_by_interval(way: &Way<'_>, r: u8) -> bool
    requires way { IsWay way.now }
    requires register { r < 32 }
    ensures { result ≡ true → stacks.IsSpannedByInterval (values_along way.now) (stacks_along way.now) (to way.now) r }
{
    match begins(way.claim, way.to) {
        Some(begun) => {
            if begun.more() == 0 {
                is_span_of_interval(way, r, begun.low())
            } else {
                false
            }
        }
        None => false,
    }
}

// Whether a register points as what the instruction leaves in it.
fn is_spanned_over(way: &Way<'_>, r: u8) -> bool
    requires way { IsWay way.now }
    requires register { r < 32 }
    ensures { result ≡ true → IsSpannedAlong way.now r }
{
    if is_spanned_by_name(way.claim, way.to, r) {
        return true;
    }
    if is_span_by_origin(way, r) {
        return true;
    }
    is_span_by_interval(way, r)
}

// ---- all

// Whether all that a table says of a register is so.
fn is_register_passed(way: &Way<'_>, r: u8) -> bool
    requires way { IsWay way.now }
    requires register { r < 32 }
    ensures { result ≡ true → IsRegisterPassed way.now r }
{
    if !is_covered_over(way, r) {
        return false;
    }
    if !is_named_over(way, r) {
        return false;
    }
    is_spanned_over(way, r)
}

/// The same of each register.
pub fn are_registers_passed(way: &Way<'_>) -> bool
    requires { IsWay way.now }
    ensures { result ≡ true → (r : ℕ) → IsRegister r → IsRegisterPassed way.now r }
{
    for r in 1..32u8 {
        if !is_register_passed(way, r) {
            return false;
        }
    }
    true
}

/// Whether each register's interval holds what the instruction leaves in it.
pub fn are_registers_covered(way: &Way<'_>) -> bool
    requires { IsWay way.now }
    ensures { result ≡ true → (r : ℕ) → IsRegister r → IsCoveredAlong way.now r }
{
    for r in 1..32u8 {
        if !is_covered(way, r) {
            return false;
        }
    }
    true
}
