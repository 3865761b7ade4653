//! The ground of a walk over fixed bytes that looks for something: from each address at which the first turn may access memory on up to one
//! where a load gives nothing that is sought.

ghost use Rattle.std.specs.Prelude.{◌≡◌, ◌≤◌, ◌<◌, ◌+◌, ◌*◌, ◌%◌, ◌^◌, ℕ, IfSome, is_some, length, true};
ghost use Rattle.std.specs.List.{All};
ghost use Rattle.bound_laws.specs.Values as values;
ghost use Rattle.bound_laws.specs.Values.{IsHeld, IsIn};
ghost use Rattle.wrapped_intervals.specs.Small.{IsKept, IsKeptOr};
ghost use Rattle.walk_checks.specs.Walked.{IsBegunAt, IsEnding, IsIdle, IsInNumbered, IsSearched};

use crate::tables::{MOST_STARTS, Sought, WalkTable};
use stack_tables::{FixedPart, fixed_load, load_width, number_at, stride_count};
use wrapped_intervals::{Arc, ahead, holds, is_kept};

// How many words there are.
const WORDS: u64 = 4_294_967_296;

// Whether a number is not in an interval.
fn is_outside(i: Arc, number: u32) -> bool
    requires { IsKept i }
    ensures { result ≡ true → IsIn i number → ⊥ }
{
    ahead(i.low(), u64::from(number)) > i.more()
}

// Whether a load at an address gives nothing that is sought, or traps since it isn't aligned.
fn is_idle(parts: &[FixedPart], sought: Sought, at: u32) -> bool
    requires { IsKept sought.wanted }
    ensures { result ≡ true → IsIdle parts.now sought at }
{
    if at % load_width(sought.op) != 0 {
        return true;
    }
    match fixed_load(parts, sought.op, at) {
        Some(number) => is_outside(sought.wanted, number),
        None => false,
    }
}

// What is looked for, and the intervals that hold what is accessed meanwhile.
#[derive(Clone, Copy)]
struct Search<'a> {
    parts: &'a [FixedPart],
    sought: Sought,
    ground: &'a [Arc],
}

// Whether the interval of a number has an address.
fn is_in(ground: &[Arc], k: usize, at: u32) -> bool
    requires { All IsKept ground.now }
    ensures { result ≡ true → IsInNumbered ground.now k at }
{
    k < ground.len() && holds(Some(ground[k]), at)
}

// Whether an address is in the interval of a number, or nothing that is sought is there.
fn is_begun_at(search: &Search<'_>, k: usize, at: u32) -> bool
    requires wanted { IsKept search.now.sought.wanted }
    requires ground { All IsKept search.now.ground.now }
    ensures { result ≡ true → IsBegunAt search.now.parts.now search.now.sought search.now.ground.now at }
{
    is_in(search.ground, k, at) || is_idle(search.parts, search.sought, at)
}

// The number of the interval to look at: the next one, where that has the address.
fn next_of(ground: &[Arc], k: usize, at: u32) -> usize
    requires { All IsKept ground.now }
{
    let next = k.saturating_add(1);
    if is_in(ground, next, at) { next } else { k }
}

// Whether each address of an interval is so.
fn are_begun(search: &Search<'_>, first: Arc) -> bool
    requires wanted { IsKept search.now.sought.wanted }
    requires ground { All IsKept search.now.ground.now }
    requires first { IsKept first }
    ensures { result ≡ true → (at : ℕ) → IsIn first at → IsBegunAt search.now.parts.now search.now.sought search.now.ground.now at }
{
    let strides = stride_count(first);
    if strides >= MOST_STARTS {
        return false;
    }
    let mut k = 0;
    for n in 0..strides + 1 {
        let at = number_at(first, n);
        k = next_of(search.ground, k, at);
        if !is_begun_at(search, k, at) {
            return false;
        }
    }
    true
}

// The addresses at which the first turn may access memory: those that are known, or those of all turns.
fn first_of(table: &WalkTable) -> Option<Arc>
    ensures { IfSome result (λ x. (at : ℕ) → IsHeld table.now.start at → IsHeld table.now.place at → IsIn x at) }
{
    match table.start {
        Some(start) => Some(start),
        None => table.place,
    }
}

// Whether a step from an interval leads within it, or to an address where nothing that is sought is.
fn is_ending(search: &Search<'_>, least: u32, x: Arc) -> bool
    requires wanted { IsKept search.now.sought.wanted }
    requires interval { IsKept x }
    ensures { result ≡ true → IsEnding search.now.parts.now search.now.sought least x }
{
    let least = u64::from(least);
    if least == 0 {
        return false;
    }
    if x.stride() != least || x.more() % least != 0 {
        return false;
    }
    let behind = (x.low() + x.more() + least) % WORDS;
    is_idle(search.parts, search.sought, behind as u32)
}

// The same of each one.
fn are_ending(search: &Search<'_>, least: u32) -> bool
    requires wanted { IsKept search.now.sought.wanted }
    requires ground { All IsKept search.now.ground.now }
    ensures { result ≡ true → All (λ (x : values.Arc). IsEnding search.now.parts.now search.now.sought least x) search.now.ground.now }
{
    for x in search.ground {
        if !is_ending(search, least, *x) {
            return false;
        }
    }
    true
}

// Whether each first access is in an interval of the table, or nothing that is sought is there.
fn is_begun_by(search: &Search<'_>, first: Option<Arc>) -> bool
    requires wanted { IsKept search.now.sought.wanted }
    requires ground { All IsKept search.now.ground.now }
    ensures each { result ≡ true → IfSome first (λ x. (at : ℕ) → IsIn x at → IsBegunAt search.now.parts.now search.now.sought
        search.now.ground.now at) }
    ensures some { result ≡ true → is_some first ≡ true }
{
    match first {
        Some(first) => is_kept(Some(first)) && are_begun(search, first),
        None => false,
    }
}

// Whether the intervals of a table hold all that is accessed of fixed bytes while this is found.
fn is_searched_for(table: &WalkTable, parts: &[FixedPart], sought: Sought) -> bool
    requires wanted { IsKept sought.wanted }
    requires ground { All IsKept table.now.ground.items }
    ensures begins { result ≡ true → (at : ℕ) → IsHeld table.now.start at → IsHeld table.now.place at →
        IsBegunAt parts.now sought table.now.ground.items at }
    ensures ends { result ≡ true → All (λ (x : values.Arc). IsEnding parts.now sought table.now.least x) table.now.ground.items }
{
    let search = Search {
        parts,
        sought,
        ground: &table.ground,
    };
    if !is_begun_by(&search, first_of(table)) {
        return false;
    }
    are_ending(&search, table.least)
}

/// Whether the intervals of a table hold all that is accessed of fixed bytes while what is sought is found.
pub fn is_searched(table: &WalkTable, parts: &[FixedPart]) -> bool
    requires { All IsKept table.now.ground.items }
    ensures { result ≡ true → IsSearched parts.now table.now }
{
    match table.sought {
        Some(sought) => {
            if table.down || table.spread != 0 || !is_kept(Some(sought.wanted)) {
                return false;
            }
            is_searched_for(table, parts, sought)
        }
        None => false,
    }
}
