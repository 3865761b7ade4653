//! What calls leave of traces.

ghost use Rattle.std.specs.Prelude.{◌≡◌, ◌<◌, Some, length, true, IfSome};
ghost use Rattle.bound_laws.specs.Values.{IsRegister};
ghost use Rattle.code_text.specs.Text as text;
ghost use Rattle.stack_laws.specs.Stacks as stacks;
ghost use Rattle.stack_tables.specs.Tables.{stacks_in, text_in, values_in};
ghost use Rattle.wrapped_intervals.specs.Small.{IsFoundOr};
ghost use Rattle.walk_areas.specs.Walking as walking;
ghost use Rattle.walk_checks.specs.Walked.{at_of, cert, found_view, traced_view, IsRowFoundBack, IsWalkCase, IsWordFoundBack};

use crate::over::known_of;
use crate::rows::{holder_at, row_at, word_at};
use crate::starts::is_register;
use crate::tables::{Call, Trace, WalkCase};
use crate::traces::{Found, is_wider_trace};
use stack_tables::{is_given_back, is_safe};

/// The trace of a register behind a call.
pub fn row_back(case: &WalkCase<'_>, call: Call, r: u8) -> Option<Found>
    requires case { IsWalkCase case.now }
    requires from { call.from < length case.now.claim.now.graph.now.code.nodes }
    requires entry { call.entry < length case.now.claim.now.graph.now.code.nodes }
    requires register { r < 32 }
    requires instruction { text.instr_at (text_in case.now.claim.now) (at_of case.now call.from) ≡ Some call.instr }
    ensures back { IfSome result (λ z. IsRowFoundBack (text_in case.now.claim.now) (values_in case.now.claim.now) (stacks_in case.now.claim.now)
        (cert case.now) (at_of case.now call.from) (at_of case.now call.entry) r (found_view z)) }
    ensures found { IfSome result (λ z. IsFoundOr z.more) }
{
    if is_given_back(case.claim, call.instr, call.from, call.entry, r) {
        known_of(row_at(case, call.from, r))
    } else {
        None
    }
}

/// Whether a trace is one of a register behind it.
pub fn is_row_back(case: &WalkCase<'_>, call: Call, r: u8, b: Option<Trace>) -> bool
    requires case { IsWalkCase case.now }
    requires from { call.from < length case.now.claim.now.graph.now.code.nodes }
    requires entry { call.entry < length case.now.claim.now.graph.now.code.nodes }
    requires register { r < 32 }
    requires instruction { text.instr_at (text_in case.now.claim.now) (at_of case.now call.from) ≡ Some call.instr }
    ensures { result ≡ true → walking.IsRowBack (text_in case.now.claim.now) (values_in case.now.claim.now) (stacks_in case.now.claim.now)
        (cert case.now) (at_of case.now call.from) (at_of case.now call.entry) r (traced_view b) }
{
    if b.is_none() {
        return true;
    }
    match row_back(case, call, r) {
        Some(z) => is_wider_trace(b, &z),
        None => false,
    }
}

/// The trace of a word of the stack behind a call at node k of the function that begins at node h.
pub fn word_back(case: &WalkCase<'_>, k: usize, h: usize, number: u32) -> Option<Found>
    requires case { IsWalkCase case.now }
    requires from { k < length case.now.claim.now.graph.now.code.nodes }
    requires entry { h < length case.now.claim.now.graph.now.code.nodes }
    ensures back { IfSome result (λ z. IsWordFoundBack (values_in case.now.claim.now) (stacks_in case.now.claim.now) (cert case.now)
        (at_of case.now k) (at_of case.now h) number (found_view z)) }
    ensures found { IfSome result (λ z. IsFoundOr z.more) }
{
    if is_safe(case.claim, k, h, number) {
        known_of(word_at(case, k, number))
    } else {
        None
    }
}

/// Whether a trace is one of a word behind it.
pub fn is_word_back(case: &WalkCase<'_>, k: usize, h: usize, number: u32, b: Option<Trace>) -> bool
    requires case { IsWalkCase case.now }
    requires from { k < length case.now.claim.now.graph.now.code.nodes }
    requires entry { h < length case.now.claim.now.graph.now.code.nodes }
    ensures { result ≡ true → walking.IsWordBack (values_in case.now.claim.now) (stacks_in case.now.claim.now) (cert case.now)
        (at_of case.now k) (at_of case.now h) number (traced_view b) }
{
    if b.is_none() {
        return true;
    }
    match word_back(case, k, h, number) {
        Some(z) => is_wider_trace(b, &z),
        None => false,
    }
}

// Whether the register has what was loaded before a call, which gives it back.
fn is_holder_given_back(case: &WalkCase<'_>, call: Call, r: u8) -> bool
    requires case { IsWalkCase case.now }
    requires from { call.from < length case.now.claim.now.graph.now.code.nodes }
    requires entry { call.entry < length case.now.claim.now.graph.now.code.nodes }
    requires instruction { text.instr_at (text_in case.now.claim.now) (at_of case.now call.from) ≡ Some call.instr }
    ensures register { result ≡ true → IsRegister r }
    ensures restored { result ≡ true → stacks.IsRestored (text_in case.now.claim.now) (values_in case.now.claim.now)
        (stacks_in case.now.claim.now) (at_of case.now call.from) (at_of case.now call.entry) r }
{
    is_register(r) && is_given_back(case.claim, call.instr, call.from, call.entry, r)
}

/// Whether a register has behind a call what was loaded, where one is said to.
pub fn is_holder_back(case: &WalkCase<'_>, call: Call, b: Option<u8>) -> bool
    requires case { IsWalkCase case.now }
    requires from { call.from < length case.now.claim.now.graph.now.code.nodes }
    requires entry { call.entry < length case.now.claim.now.graph.now.code.nodes }
    requires instruction { text.instr_at (text_in case.now.claim.now) (at_of case.now call.from) ≡ Some call.instr }
    ensures { result ≡ true → walking.IsHolderBack (text_in case.now.claim.now) (values_in case.now.claim.now)
        (stacks_in case.now.claim.now) (cert case.now) (at_of case.now call.from) (at_of case.now call.entry) b }
{
    match (b, holder_at(case, call.from)) {
        (None, _) => true,
        (Some(r), Some(q)) => q == r && is_holder_given_back(case, call, r),
        _ => false,
    }
}
