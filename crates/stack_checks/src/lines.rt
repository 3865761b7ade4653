//! What a table says of sums and differences of two registers, and of registers by them.

ghost use Rattle.std.specs.List.{All};
ghost use Rattle.std.specs.Prelude.{◌≡◌, ◌<◌, ◌%◌, ◌^◌, ◌⊎◌, ℕ, length, option_map, is_some, IfSome, Some, true};
ghost use Rattle.bound_laws.specs.Laws.{starting_registers};
ghost use Rattle.bound_laws.specs.Registers as registers;
ghost use Rattle.bound_laws.specs.Values as values;
ghost use Rattle.wrapped_intervals.specs.Small.{IsFoundOr, IsKeptOr, measure_view};
ghost use Rattle.value_checks.specs.Tables.{IsForm};
ghost use Rattle.stack_tables.specs.Tables.{IsStackClaim, address, values_in};
ghost use Rattle.stack_checks.specs.Checked.{IsGivenBack, IsLineAlong, IsLineBehind, IsLineStarted, IsSolvedAlong, IsWay, from, passed_along, to, values_along};

use crate::made::is_line_made;
use crate::starting::starting_register;
use crate::ways::{Way, arc_behind, has_line_more, kept_on, line_more, passed_on};
use stack_tables::{StackClaim, address, arcs, form, is_given_back, line, lines};
use value_checks::Line;
use wrapped_intervals::{
    Arc, Measure, compared, covers, effect, holds, is_difference, is_kept, line_by, line_of,
    meet_of, said_by, solved, without,
};

// ---- over an edge

// Whether a line's interval holds what those of its registers say, which are these.
fn is_line_as(way: &Way<'_>, j: usize, first: Arc, other: Arc) -> bool
    requires way { IsWay way.now }
    requires first { values.held (passed_along way.now) ((values_along way.now).forms j).register ≡ Some first }
    requires other { values.held (passed_along way.now) ((values_along way.now).forms j).other ≡ Some other }
    requires first_kept { IsKeptOr (Some first) }
    requires other_kept { IsKeptOr (Some other) }
    ensures { result ≡ true → values.Covers ((values_along way.now).lines (to way.now) j)
        (values.line_of ((values_along way.now).forms j) (passed_along way.now)) }
{
    covers(
        line(way.claim, way.to, j),
        line_by(form(way.claim, j), Some(first), Some(other)),
    )
}

// The same, where they are known.
fn is_line_by_registers(way: &Way<'_>, j: usize) -> bool
    requires { IsWay way.now }
    ensures { result ≡ true → values.Covers ((values_along way.now).lines (to way.now) j)
        (values.line_of ((values_along way.now).forms j) (passed_along way.now)) }
{
    let m = form(way.claim, j);
    match (kept_on(way, m.register), kept_on(way, m.other)) {
        (Some(first), Some(other)) => is_line_as(way, j, first, other),
        _ => false,
    }
}

// Whether the way says that both registers of a line, which is a difference of them, are different words.
fn is_told_apart(way: &Way<'_>, j: usize) -> bool
    requires { IsWay way.now }
    ensures { result ≡ true → values.is_difference (values.said way.now.instr (from way.now) (to way.now)) ((values_along way.now).forms j)
        ((values_along way.now).at (from way.now)) ≡ true }
{
    let claim = way.claim;
    is_difference(
        said_by(way.instr, address(claim, way.from), address(claim, way.to)),
        form(claim, j),
        arcs(claim, way.from),
    )
}

// Whether it holds what it was but for the number of two registers that are the same.
fn is_line_without(way: &Way<'_>, j: usize) -> bool
    requires { IsWay way.now }
    ensures { result ≡ true → values.Covers ((values_along way.now).lines (to way.now) j)
        (values.without ((values_along way.now).lines (from way.now) j) (((values_along way.now).forms j).shift % 2 ^ 32)) }
{
    let shift = form(way.claim, j).shift;
    covers(
        line(way.claim, way.to, j),
        without(line(way.claim, way.from, j), u64::from(shift)),
    )
}

// What the instruction adds to a line, where that is known.
fn effect_on(way: &Way<'_>, j: usize) -> Option<u32>
    requires { IsWay way.now }
    ensures { IfSome result (λ e. registers.effect ((values_along way.now).forms j) way.now.instr ≡ Some e) }
{
    effect(form(way.claim, j), way.instr)
}

// Whether a line's interval holds what it was, with so much more.
fn is_line_more(way: &Way<'_>, j: usize, more: u32) -> bool
    requires { IsWay way.now }
    ensures { result ≡ true → values.Covers ((values_along way.now).lines (to way.now) j)
        (values.sum_with ((values_along way.now).lines (from way.now) j) more) }
{
    has_line_more(way, line(way.claim, way.to, j), j, more)
}

// Whether nothing is added.
fn is_nothing(adds: u32) -> bool
    ensures { result ≡ true → adds ≡ 0 }
{
    adds == 0
}

// What a comparison on the way says of a line.
fn compared_on(way: &Way<'_>, j: usize) -> Option<Arc>
    requires { IsWay way.now }
    ensures compared { result ≡ values.compared (values.said way.now.instr (from way.now) (to way.now)) ((values_along way.now).forms j)
        ((values_along way.now).at (from way.now)) }
    ensures found { IsFoundOr result }
{
    let claim = way.claim;
    compared(
        said_by(way.instr, address(claim, way.from), address(claim, way.to)),
        form(claim, j),
        arcs(claim, way.from),
    )
}

// Whether it holds what it was and what a comparison says of it.
fn is_line_compared(way: &Way<'_>, j: usize) -> bool
    requires { IsWay way.now }
    ensures { result ≡ true → values.Covers ((values_along way.now).lines (to way.now) j)
        (values.meet_of ((values_along way.now).lines (from way.now) j)
        (values.compared (values.said way.now.instr (from way.now) (to way.now)) ((values_along way.now).forms j)
        ((values_along way.now).at (from way.now)))) }
{
    let both = meet_of(line(way.claim, way.from, j), compared_on(way, j));
    covers(line(way.claim, way.to, j), both)
}

// Whether a line's interval holds what it was, with the number that the instruction adds, without that of two words that are the same, or
// with what a comparison says of it.
fn is_line_passed_by(way: &Way<'_>, j: usize, adds: u32) -> bool
    requires way { IsWay way.now }
    requires effect { registers.effect ((values_along way.now).forms j) way.now.instr ≡ Some adds }
    ensures { result ≡ true → values.IsLineCovered (values_along way.now) way.now.instr (from way.now) (to way.now) j }
{
    if is_line_more(way, j, adds) {
        return true;
    }
    if !is_nothing(adds) {
        return false;
    }
    if is_line_compared(way, j) {
        return true;
    }
    if !is_told_apart(way, j) {
        return false;
    }
    is_line_without(way, j)
}

// The same, where it is known what the instruction adds.
fn is_line_passed(way: &Way<'_>, j: usize) -> bool
    requires { IsWay way.now }
    ensures { result ≡ true → values.IsLineCovered (values_along way.now) way.now.instr (from way.now) (to way.now) j }
{
    match effect_on(way, j) {
        Some(adds) => is_line_passed_by(way, j, adds),
        None => false,
    }
}

// Whether it is so by the line, by its registers, or by what the instruction makes it of.
fn is_line_covered(way: &Way<'_>, j: usize) -> bool
    requires { IsWay way.now }
    ensures { result ≡ true → IsLineAlong way.now j }
{
    if is_line_passed(way, j) {
        return true;
    }
    if is_line_by_registers(way, j) {
        return true;
    }
    is_line_made(way, j)
}

// The same of each line of a row.
fn are_covered(way: &Way<'_>, row: &[Line]) -> bool
    requires { IsWay way.now }
    ensures { result ≡ true → All (λ (known : Line). IsLineAlong way.now known.form) row.now }
{
    for known in row {
        if !is_line_covered(way, known.form) {
            return false;
        }
    }
    true
}

/// Whether each line's interval holds what the instruction leaves of it.
pub fn are_lines_covered(way: &Way<'_>) -> bool
    requires { IsWay way.now }
    ensures { result ≡ true → (j : ℕ) → IsLineAlong way.now j }
{
    are_covered(way, lines(way.claim, way.to))
}

// ---- a register by a line

/// Whether a register's interval behind the instruction is known.
pub fn is_known_behind(way: &Way<'_>, r: u8) -> bool
    requires way { IsWay way.now }
    requires register { r < 32 }
    ensures { result ≡ true → is_some (passed_along way.now r) ≡ true }
{
    passed_on(way, r).is_some()
}

// The interval of a register that a line of it gives, to which the instruction adds so much, and whose other register is this.
fn solved_as(way: &Way<'_>, j: usize, adds: u32, other: Arc) -> Option<Arc>
    requires way { IsWay way.now }
    requires other { values.held (passed_along way.now) ((values_along way.now).forms j).other ≡ Some other }
    requires kept { IsKeptOr (Some other) }
    ensures solved { result ≡ values.solved_by (values_along way.now) way.now.instr (from way.now) (to way.now) j adds }
    ensures found { IsFoundOr result }
{
    let sum = line_more(way, j, adds);
    solved(form(way.claim, j), sum, Some(other))
}

// Whether a register's interval holds that.
fn is_held_as(way: &Way<'_>, r: u8, j: usize, adds: u32, other: Arc) -> bool
    requires way { IsWay way.now }
    requires register { r < 32 }
    requires other { values.held (passed_along way.now) ((values_along way.now).forms j).other ≡ Some other }
    requires kept { IsKeptOr (Some other) }
    ensures { result ≡ true → values.Covers ((values_along way.now).at (to way.now) r)
        (values.solved_by (values_along way.now) way.now.instr (from way.now) (to way.now) j adds) }
{
    covers(arc_behind(way, r), solved_as(way, j, adds, other))
}

// That interval, where it is short enough to be kept.
fn kept_as(way: &Way<'_>, j: usize, adds: u32, other: Arc) -> Option<Arc>
    requires way { IsWay way.now }
    requires other { values.held (passed_along way.now) ((values_along way.now).forms j).other ≡ Some other }
    requires kept { IsKeptOr (Some other) }
    ensures solved { IfSome result
        (λ a. values.solved_by (values_along way.now) way.now.instr (from way.now) (to way.now) j adds ≡ Some a) }
    ensures kept { IsKeptOr result }
{
    match solved_as(way, j, adds, other) {
        Some(a) => { if is_kept(Some(a)) { Some(a) } else { None } }
        None => None,
    }
}

// Whether a register's interval holds what of another one the instruction leaves.
fn is_met_by(way: &Way<'_>, r: u8, known: Arc) -> bool
    requires way { IsWay way.now }
    requires register { r < 32 }
    requires kept { IsKeptOr (Some known) }
    ensures { result ≡ true → values.Covers ((values_along way.now).at (to way.now) r)
        (values.meet_of (Some known) (passed_along way.now r)) }
{
    covers(arc_behind(way, r), meet_of(Some(known), passed_on(way, r)))
}

// The same of what a line says.
fn is_met_as(way: &Way<'_>, r: u8, j: usize, adds: u32, other: Arc) -> bool
    requires way { IsWay way.now }
    requires register { r < 32 }
    requires other { values.held (passed_along way.now) ((values_along way.now).forms j).other ≡ Some other }
    requires kept { IsKeptOr (Some other) }
    ensures { result ≡ true → values.Covers ((values_along way.now).at (to way.now) r)
        (values.meet_of (values.solved_by (values_along way.now) way.now.instr (from way.now) (to way.now) j adds)
        (passed_along way.now r)) }
{
    match kept_as(way, j, adds, other) {
        Some(known) => is_met_by(way, r, known),
        None => false,
    }
}

// Whether it holds what the line says, or what of that the instruction leaves.
fn is_solved_as(way: &Way<'_>, r: u8, j: usize, adds: u32, other: Arc) -> bool
    requires way { IsWay way.now }
    requires register { r < 32 }
    requires other { values.held (passed_along way.now) ((values_along way.now).forms j).other ≡ Some other }
    requires kept { IsKeptOr (Some other) }
    ensures { result ≡ true → values.Covers ((values_along way.now).at (to way.now) r)
        (values.solved_by (values_along way.now) way.now.instr (from way.now) (to way.now) j adds) ⊎
        values.Covers ((values_along way.now).at (to way.now) r)
        (values.meet_of (values.solved_by (values_along way.now) way.now.instr (from way.now) (to way.now) j adds)
        (passed_along way.now r)) }
{
    if is_held_as(way, r, j, adds, other) {
        return true;
    }
    is_met_as(way, r, j, adds, other)
}

// The same, where the line's other register is known.
fn is_solved_by(way: &Way<'_>, r: u8, j: usize, adds: u32) -> bool
    requires way { IsWay way.now }
    requires register { r < 32 }
    ensures { result ≡ true → values.Covers ((values_along way.now).at (to way.now) r)
        (values.solved_by (values_along way.now) way.now.instr (from way.now) (to way.now) j adds) ⊎
        values.Covers ((values_along way.now).at (to way.now) r)
        (values.meet_of (values.solved_by (values_along way.now) way.now.instr (from way.now) (to way.now) j adds)
        (passed_along way.now r)) }
{
    match kept_on(way, form(way.claim, j).other) {
        Some(other) => is_solved_as(way, r, j, adds, other),
        None => false,
    }
}

// Whether the form of a line has a register with the factor 1.
fn is_of(way: &Way<'_>, j: usize, r: u8) -> bool
    requires { IsWay way.now }
    ensures register { result ≡ true → ((values_along way.now).forms j).register ≡ r }
    ensures factor { result ≡ true → ((values_along way.now).forms j).factor ≡ 1 }
{
    let m = form(way.claim, j);
    m.register == r && m.factor == 1
}

// Whether a register's interval holds what the line of this number says.
fn is_solved_of(way: &Way<'_>, r: u8, j: usize) -> bool
    requires way { IsWay way.now }
    requires register { r < 32 }
    ensures { result ≡ true → IsSolvedAlong way.now r }
{
    if !is_of(way, j, r) {
        return false;
    }
    if !is_known_behind(way, r) {
        return false;
    }
    match effect_on(way, j) {
        Some(adds) => is_solved_by(way, r, j, adds),
        None => false,
    }
}

/// Whether a register's interval holds what some line says of it.
pub fn is_solved(way: &Way<'_>, r: u8) -> bool
    requires way { IsWay way.now }
    requires register { r < 32 }
    ensures { result ≡ true → IsSolvedAlong way.now r }
{
    for known in lines(way.claim, way.from) {
        if is_solved_of(way, r, known.form) {
            return true;
        }
    }
    false
}

// ---- behind a call

// Whether a line's interval at node n holds what those of its registers there say.
fn is_line_anew(claim: &StackClaim<'_>, n: usize, j: usize) -> bool
    requires claim { IsStackClaim claim.now }
    requires node { n < length claim.now.graph.now.code.nodes }
    ensures { result ≡ true → values.Covers ((values_in claim.now).lines (address claim.now n) j)
        (values.line_of ((values_in claim.now).forms j) ((values_in claim.now).at (address claim.now n))) }
{
    covers(line(claim, n, j), line_of(form(claim, j), arcs(claim, n)))
}

// Whether both registers of a line are what they were before the call of the function that begins at node h.
fn is_given_both(way: &Way<'_>, h: usize, j: usize) -> bool
    requires way { IsWay way.now }
    requires entry { h < length way.now.claim.now.graph.now.code.nodes }
    ensures register { result ≡ true → IsGivenBack way.now h ((values_along way.now).forms j).register }
    ensures other { result ≡ true → IsGivenBack way.now h ((values_along way.now).forms j).other }
{
    let m = form(way.claim, j);
    is_given_back(way.claim, way.instr, way.from, h, m.register)
        && is_given_back(way.claim, way.instr, way.from, h, m.other)
}

// Whether its interval holds the one that it had.
fn is_line_left(way: &Way<'_>, j: usize) -> bool
    requires { IsWay way.now }
    ensures { result ≡ true → values.Covers ((values_along way.now).lines (to way.now) j) ((values_along way.now).lines (from way.now) j) }
{
    covers(line(way.claim, way.to, j), line(way.claim, way.from, j))
}

// Whether a line's interval holds what it is behind the call.
fn is_line_behind(way: &Way<'_>, h: usize, j: usize) -> bool
    requires way { IsWay way.now }
    requires entry { h < length way.now.claim.now.graph.now.code.nodes }
    ensures { result ≡ true → IsLineBehind way.now h j }
{
    if is_line_anew(way.claim, way.to, j) {
        return true;
    }
    if !is_given_both(way, h, j) {
        return false;
    }
    is_line_left(way, j)
}

// The same of each line of a row.
fn are_behind(way: &Way<'_>, h: usize, row: &[Line]) -> bool
    requires way { IsWay way.now }
    requires entry { h < length way.now.claim.now.graph.now.code.nodes }
    ensures { result ≡ true → All (λ (known : Line). IsLineBehind way.now h known.form) row.now }
{
    for known in row {
        if !is_line_behind(way, h, known.form) {
            return false;
        }
    }
    true
}

/// Whether each line's interval holds what it is behind the call.
pub fn are_lines_behind(way: &Way<'_>, h: usize) -> bool
    requires way { IsWay way.now }
    requires entry { h < length way.now.claim.now.graph.now.code.nodes }
    ensures { result ≡ true → (j : ℕ) → IsLineBehind way.now h j }
{
    are_behind(way, h, lines(way.claim, way.to))
}

// ---- at the start of a run

// What a sum of two registers is at the start.
fn starting_sum(m: Measure) -> u32
    requires { IsForm m }
    ensures { result ≡ registers.measured (measure_view m) starting_registers }
{
    let first = m.factor.wrapping_mul(starting_register(m.register));
    let other = m.other_factor.wrapping_mul(starting_register(m.other));
    first.wrapping_add(other).wrapping_add(m.shift)
}

// Whether a line's interval has what is there at the start.
fn is_line_started(claim: &StackClaim<'_>, k: usize, j: usize) -> bool
    requires claim { IsStackClaim claim.now }
    requires node { k < length claim.now.graph.now.code.nodes }
    ensures { result ≡ true → IsLineStarted (values_in claim.now) (address claim.now k) j }
{
    holds(line(claim, k, j), starting_sum(form(claim, j)))
}

// The same of each line of a row.
fn are_started(claim: &StackClaim<'_>, k: usize, row: &[Line]) -> bool
    requires claim { IsStackClaim claim.now }
    requires node { k < length claim.now.graph.now.code.nodes }
    ensures { result ≡ true → All (λ (known : Line). IsLineStarted (values_in claim.now) (address claim.now k) known.form) row.now }
{
    for known in row {
        if !is_line_started(claim, k, known.form) {
            return false;
        }
    }
    true
}

/// Whether each line's interval has what is there at the start.
pub fn are_lines_started(claim: &StackClaim<'_>, k: usize) -> bool
    requires claim { IsStackClaim claim.now }
    requires node { k < length claim.now.graph.now.code.nodes }
    ensures { result ≡ true → (j : ℕ) → IsLineStarted (values_in claim.now) (address claim.now k) j }
{
    are_started(claim, k, lines(claim, k))
}
