//! What a table says of the words of the stack over an edge, where a function begins, and behind a call.

ghost use Rattle.std.specs.Prelude.{◌≡◌, ◌<◌, ℕ, length, IfSome, Some, None, true};
ghost use Rattle.scale_base.specs.Arith.{plus};
ghost use Rattle.bound_laws.specs.Values as values;
ghost use Rattle.bound_laws.specs.Values.{IsRegister};
ghost use Rattle.stack_laws.specs.Areas.{IsAccess};
ghost use Rattle.stack_laws.specs.Stacks as stacks;
ghost use Rattle.stack_laws.specs.Stacks.Name.{of_word};
ghost use Rattle.wrapped_intervals.specs.Small.{IsKept};
ghost use Rattle.stack_tables.specs.Tables.{IsStackClaim, IsUnknown, address, named, stacks_in};
ghost use Rattle.stack_checks.specs.declared.origins.Source.TheVariants.{Missed};
ghost use Rattle.stack_checks.specs.Checked.{IsSourceOf, IsWay, IsWordAlong, IsWordBehind, IsWordNamedAlong, IsWordPassed, IsWordSpannedAlong, from, passed_along, stacks_along, to, values_along};

use crate::accesses::{access_of, accessed_in};
use crate::origins::{Source, source_of};
use crate::ways::{Way, is_left, passed_on};
use scale_base::Instr;
use stack_tables::{
    Name, StackClaim, held_at, is_name_safe, is_safe, is_same_name, is_steady, name, name_of,
    name_span, span_of, word, word_count,
};
use wrapped_intervals::{Arc, covers, opposite_of, sum_with, word as any_word};

// Whether a word's interval holds each word.
fn is_any(way: &Way<'_>, j: u32) -> bool
    requires { IsWay way.now }
    ensures { result ≡ true → values.Covers ((stacks_along way.now).word (to way.now) j) values.word }
{
    covers(word(way.claim, way.to, j).arc, any_word())
}

// Whether it holds the one that it had.
fn is_word_left(way: &Way<'_>, j: u32) -> bool
    requires { IsWay way.now }
    ensures { result ≡ true → values.Covers ((stacks_along way.now).word (to way.now) j) ((stacks_along way.now).word (from way.now) j) }
{
    covers(
        word(way.claim, way.to, j).arc,
        word(way.claim, way.from, j).arc,
    )
}

// Whether it holds the interval that a register had.
fn is_word_of(way: &Way<'_>, j: u32, r: u8) -> bool
    requires { IsWay way.now }
    ensures { result ≡ true → values.Covers ((stacks_along way.now).word (to way.now) j)
        (values.held ((values_along way.now).at (from way.now)) r) }
{
    covers(
        word(way.claim, way.to, j).arc,
        held_at(way.claim, way.from, r),
    )
}

// By how much a register is more than a word before the instruction, where its name says it.
fn more_than(way: &Way<'_>, j: u32, r: u8) -> Option<u32>
    requires way { IsWay way.now }
    requires register { r < 32 }
    ensures { IfSome result (λ more. (stacks_along way.now).name (from way.now) r ≡ Some (of_word j more)) }
{
    match name(way.claim, way.from, r) {
        Some(Name::OfWord(number, more)) => { if number == j { Some(more) } else { None } }
        _ => None,
    }
}

// Whether it holds what a branch says of a register that is so much more than the word.
fn is_more_covered(way: &Way<'_>, j: u32, r: u8, more: u32) -> bool
    requires way { IsWay way.now }
    requires register { r < 32 }
    ensures { result ≡ true → values.Covers ((stacks_along way.now).word (to way.now) j)
        (values.sum_with (passed_along way.now r) (values.opposite_of more)) }
{
    covers(
        word(way.claim, way.to, j).arc,
        sum_with(passed_on(way, r), opposite_of(u64::from(more))),
    )
}

// The same of a register that is left.
fn is_tied_by(way: &Way<'_>, j: u32, r: u8, more: u32) -> bool
    requires way { IsWay way.now }
    requires register { r < 32 }
    requires some { 0 < r }
    requires named { (stacks_along way.now).name (from way.now) r ≡ Some (of_word j more) }
    requires missed { IsSourceOf way.now j Missed }
    ensures { result ≡ true → IsWordAlong way.now j }
{
    if !is_left(way, r) {
        return false;
    }
    is_more_covered(way, j, r, more)
}

// The same, where it has the word's name.
fn is_tied_to(way: &Way<'_>, j: u32, r: u8) -> bool
    requires way { IsWay way.now }
    requires register { r < 32 }
    requires some { 0 < r }
    requires missed { IsSourceOf way.now j Missed }
    ensures { result ≡ true → IsWordAlong way.now j }
{
    match more_than(way, j, r) {
        Some(more) => is_tied_by(way, j, r, more),
        None => false,
    }
}

// The same of any number of a register.
fn is_tied(way: &Way<'_>, j: u32, r: u8) -> bool
    requires way { IsWay way.now }
    requires missed { IsSourceOf way.now j Missed }
    ensures { result ≡ true → IsWordAlong way.now j }
{
    if 0 < r && r < 32 {
        is_tied_to(way, j, r)
    } else {
        false
    }
}

// The registers that a branch compares. No other instruction says more of a register than is known of the word of its name.
fn compared(i: Instr) -> (u8, u8) {
    match i {
        Instr::Branch {
            op: _,
            rs1,
            rs2,
            offset: _,
        } => (rs1, rs2),
        _ => (0, 0),
    }
}

// The sum of two numbers, modulo 2^32.
fn added(a: u32, b: u32) -> u32
    ensures { result ≡ plus a b }
{
    a.wrapping_add(b)
}

// Whether a word's interval holds what is so far below an access's addresses.
fn is_access_below(way: &Way<'_>, j: u32, place: Arc, more: u32) -> bool
    requires way { IsWay way.now }
    requires place { IsKept place }
    ensures { result ≡ true → values.Covers ((stacks_along way.now).word (to way.now) j)
        (values.sum_with (Some place) (values.opposite_of more)) }
{
    covers(
        word(way.claim, way.to, j).arc,
        sum_with(Some(place), opposite_of(u64::from(more))),
    )
}

// The same of the access through a register that is so much more than the word, so far from what that holds.
fn is_accessed_by(way: &Way<'_>, j: u32, r: u8, more: u32, further: u32) -> bool
    requires way { IsWay way.now }
    requires register { IsRegister r }
    requires named { (stacks_along way.now).name (from way.now) r ≡ Some (of_word j more) }
    requires access { IsAccess way.now.instr r further }
    requires missed { IsSourceOf way.now j Missed }
    ensures { result ≡ true → IsWordAlong way.now j }
{
    match accessed_in(way, r, further) {
        Some(place) => is_access_below(way, j, place, added(further, more)),
        None => false,
    }
}

// The same, where it has the word's name.
fn is_accessed_at(way: &Way<'_>, j: u32, r: u8, further: u32) -> bool
    requires way { IsWay way.now }
    requires register { IsRegister r }
    requires access { IsAccess way.now.instr r further }
    requires missed { IsSourceOf way.now j Missed }
    ensures { result ≡ true → IsWordAlong way.now j }
{
    match more_than(way, j, r) {
        Some(more) => is_accessed_by(way, j, r, more, further),
        None => false,
    }
}

// Whether it holds what the instruction's access says, if it loads or stores.
fn is_accessed(way: &Way<'_>, j: u32) -> bool
    requires way { IsWay way.now }
    requires missed { IsSourceOf way.now j Missed }
    ensures { result ≡ true → IsWordAlong way.now j }
{
    match access_of(way.instr) {
        Some((r, further)) => {
            if 0 < r && r < 32 {
                is_accessed_at(way, j, r, further)
            } else {
                false
            }
        }
        None => false,
    }
}

// Whether a word that is missed keeps its interval, or has what a branch says, or an access.
fn is_missed_covered(way: &Way<'_>, j: u32) -> bool
    requires way { IsWay way.now }
    requires missed { IsSourceOf way.now j Missed }
    ensures { result ≡ true → IsWordAlong way.now j }
{
    if is_word_left(way, j) {
        return true;
    }
    let registers = compared(way.instr);
    if is_tied(way, j, registers.0) {
        return true;
    }
    if is_tied(way, j, registers.1) {
        return true;
    }
    is_accessed(way, j)
}

// Whether a word's interval holds what the instruction leaves there, by where that comes from.
fn is_word_covered(way: &Way<'_>, j: u32, source: Source) -> bool
    requires way { IsWay way.now }
    requires source { IsSourceOf way.now j source }
    ensures { result ≡ true → IsWordAlong way.now j }
{
    if is_any(way, j) {
        return true;
    }
    match source {
        Source::Missed => is_missed_covered(way, j),
        Source::Stored(r) => is_word_of(way, j, r),
        Source::Unknown => false,
    }
}

// Whether a word has this name, of what is not stored to.
fn has_steady_name(way: &Way<'_>, j: u32, wanted: Option<Name>) -> bool
    requires { IsWay way.now }
    ensures name { result ≡ true → (stacks_along way.now).word_name (to way.now) j ≡ named wanted }
    ensures steady { result ≡ true → stacks.IsSteady (values_along way.now) (stacks_along way.now) (from way.now) way.now.instr
        (named wanted) }
{
    is_same_name(word(way.claim, way.to, j).name, wanted)
        && is_steady(way.claim, way.instr, way.from, wanted)
}

// Whether it has the name that it had.
fn is_name_left(way: &Way<'_>, j: u32) -> bool
    requires { IsWay way.now }
    ensures name { result ≡ true → (stacks_along way.now).word_name (to way.now) j ≡ (stacks_along way.now).word_name (from way.now) j }
    ensures steady { result ≡ true → stacks.IsSteady (values_along way.now) (stacks_along way.now) (from way.now) way.now.instr
        ((stacks_along way.now).word_name (from way.now) j) }
{
    has_steady_name(way, j, word(way.claim, way.from, j).name)
}

// Whether it has the name that a register had.
fn is_name_of(way: &Way<'_>, j: u32, r: u8) -> bool
    requires { IsWay way.now }
    ensures name { result ≡ true → (stacks_along way.now).word_name (to way.now) j ≡ stacks.name_of (stacks_along way.now) (from way.now)
        r }
    ensures steady { result ≡ true → stacks.IsSteady (values_along way.now) (stacks_along way.now) (from way.now) way.now.instr
        (stacks.name_of (stacks_along way.now) (from way.now) r) }
{
    has_steady_name(way, j, name_of(way.claim, way.from, r))
}

// Whether a word has no name at node n.
fn is_unnamed(claim: &StackClaim<'_>, n: usize, j: u32) -> bool
    requires claim { IsStackClaim claim.now }
    requires node { n < length claim.now.graph.now.code.nodes }
    ensures { result ≡ true → (stacks_in claim.now).word_name (address claim.now n) j ≡ None }
{
    is_same_name(word(claim, n, j).name, None)
}

// Whether a word's name is that of what the instruction leaves there.
fn is_word_named(way: &Way<'_>, j: u32, source: Source) -> bool
    requires way { IsWay way.now }
    requires source { IsSourceOf way.now j source }
    ensures { result ≡ true → IsWordNamedAlong way.now j }
{
    if is_unnamed(way.claim, way.to, j) {
        return true;
    }
    match source {
        Source::Missed => is_name_left(way, j),
        Source::Stored(r) => is_name_of(way, j, r),
        Source::Unknown => false,
    }
}

// Whether a word points at node n as its name there says.
fn is_span_named(claim: &StackClaim<'_>, n: usize, j: u32) -> bool
    requires claim { IsStackClaim claim.now }
    requires node { n < length claim.now.graph.now.code.nodes }
    ensures { result ≡ true → values.Covers ((stacks_in claim.now).word_span (address claim.now n) j)
        (stacks.name_span ((stacks_in claim.now).word_name (address claim.now n) j)) }
{
    covers(word(claim, n, j).span, name_span(word(claim, n, j).name))
}

// Whether its span holds the one that it had.
fn is_span_left(way: &Way<'_>, j: u32) -> bool
    requires { IsWay way.now }
    ensures { result ≡ true → values.Covers ((stacks_along way.now).word_span (to way.now) j)
        ((stacks_along way.now).word_span (from way.now) j) }
{
    covers(
        word(way.claim, way.to, j).span,
        word(way.claim, way.from, j).span,
    )
}

// Whether it holds the span that a register had.
fn is_span_of(way: &Way<'_>, j: u32, r: u8) -> bool
    requires { IsWay way.now }
    ensures { result ≡ true → values.Covers ((stacks_along way.now).word_span (to way.now) j)
        (stacks.span_of (stacks_along way.now) (from way.now) r) }
{
    covers(
        word(way.claim, way.to, j).span,
        span_of(way.claim, way.from, r),
    )
}

// Whether a word points as what the instruction leaves there.
fn is_word_spanned(way: &Way<'_>, j: u32, source: Source) -> bool
    requires way { IsWay way.now }
    requires source { IsSourceOf way.now j source }
    ensures { result ≡ true → IsWordSpannedAlong way.now j }
{
    if is_span_named(way.claim, way.to, j) {
        return true;
    }
    match source {
        Source::Missed => is_span_left(way, j),
        Source::Stored(r) => is_span_of(way, j, r),
        Source::Unknown => false,
    }
}

// Whether all that a table says of a word is so over an edge that is no call.
fn is_word_passed(way: &Way<'_>, j: u32) -> bool
    requires { IsWay way.now }
    ensures { result ≡ true → IsWordPassed way.now j }
{
    let source = source_of(way, j);
    if !is_word_covered(way, j, source) {
        return false;
    }
    if !is_word_named(way, j, source) {
        return false;
    }
    is_word_spanned(way, j, source)
}

/// The same of each word.
pub fn are_words_passed(way: &Way<'_>) -> bool
    requires { IsWay way.now }
    ensures { result ≡ true → (j : ℕ) → IsWordPassed way.now j }
{
    for j in 0..word_count(way.claim, way.to) {
        if !is_word_passed(way, j) {
            return false;
        }
    }
    true
}

// Whether nothing is known of a word at node n.
fn is_unknown(claim: &StackClaim<'_>, n: usize, j: u32) -> bool
    requires claim { IsStackClaim claim.now }
    requires node { n < length claim.now.graph.now.code.nodes }
    ensures { result ≡ true → IsUnknown (stacks_in claim.now) (address claim.now n) j }
{
    word(claim, n, j).arc.is_none() && is_unnamed(claim, n, j) && word(claim, n, j).span.is_none()
}

/// The same of each word.
pub fn are_unknown(claim: &StackClaim<'_>, n: usize) -> bool
    requires claim { IsStackClaim claim.now }
    requires node { n < length claim.now.graph.now.code.nodes }
    ensures { result ≡ true → (j : ℕ) → IsUnknown (stacks_in claim.now) (address claim.now n) j }
{
    for j in 0..word_count(claim, n) {
        if !is_unknown(claim, n, j) {
            return false;
        }
    }
    true
}

// Whether a word's interval holds what it has behind the call of the function that begins at node h.
fn is_word_back(way: &Way<'_>, h: usize, j: u32) -> bool
    requires way { IsWay way.now }
    requires entry { h < length way.now.claim.now.graph.now.code.nodes }
    ensures { result ≡ true → stacks.IsWordBack (values_along way.now) (stacks_along way.now) (from way.now) (address way.now.claim.now h)
        (to way.now) j }
{
    is_any(way, j) || (is_safe(way.claim, way.from, h, j) && is_word_left(way, j))
}

// Whether its name is the one that it had.
fn is_name_back(way: &Way<'_>, h: usize, j: u32) -> bool
    requires way { IsWay way.now }
    requires entry { h < length way.now.claim.now.graph.now.code.nodes }
    ensures { result ≡ true → stacks.IsWordNameBack (values_along way.now) (stacks_along way.now) (from way.now)
        (address way.now.claim.now h) (to way.now) j }
{
    let before = word(way.claim, way.from, j).name;
    is_unnamed(way.claim, way.to, j)
        || (is_safe(way.claim, way.from, h, j)
            && is_same_name(word(way.claim, way.to, j).name, before)
            && is_name_safe(way.claim, way.from, h, before))
}

// Whether its span is.
fn is_span_back(way: &Way<'_>, h: usize, j: u32) -> bool
    requires way { IsWay way.now }
    requires entry { h < length way.now.claim.now.graph.now.code.nodes }
    ensures { result ≡ true → stacks.IsWordSpanBack (values_along way.now) (stacks_along way.now) (from way.now)
        (address way.now.claim.now h) (to way.now) j }
{
    is_span_named(way.claim, way.to, j)
        || (is_safe(way.claim, way.from, h, j) && is_span_left(way, j))
}

// Whether all that a table says of a word is so behind the call.
fn is_word_behind(way: &Way<'_>, h: usize, j: u32) -> bool
    requires way { IsWay way.now }
    requires entry { h < length way.now.claim.now.graph.now.code.nodes }
    ensures { result ≡ true → IsWordBehind way.now h j }
{
    is_word_back(way, h, j) && is_name_back(way, h, j) && is_span_back(way, h, j)
}

/// The same of each word.
pub fn are_words_behind(way: &Way<'_>, h: usize) -> bool
    requires way { IsWay way.now }
    requires entry { h < length way.now.claim.now.graph.now.code.nodes }
    ensures { result ≡ true → (j : ℕ) → IsWordBehind way.now h j }
{
    for j in 0..word_count(way.claim, way.to) {
        if !is_word_behind(way, h, j) {
            return false;
        }
    }
    true
}
