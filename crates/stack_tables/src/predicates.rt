//! Small questions to two tables, for what is shown by them.

ghost use Rattle.std.specs.Prelude.{◌≡◌, ◌<◌, ℕ, length, option_map, slice_get, IfSome, Some, true};
ghost use Rattle.code_text.specs.Text.{instr_at};
ghost use Rattle.stack_laws.specs.Stacks as stacks;
ghost use Rattle.wrapped_intervals.specs.Small.{IsKeptOr, measure_view};
ghost use Rattle.stack_tables.specs.Tables.{IsLineOf, IsStackClaim, address, claim_stacks, claim_text, claim_values, name_view, values_in};

use crate::claims::StackClaim;
use crate::reading::{form, is_live, is_restored, line, lines, name_of, word as word_of};
use crate::safe::is_safe;
use crate::stores::{is_missed, stored_from};
use crate::tables::Name;
use scale_base::Instr;
use wrapped_intervals::{Arc, Measure, keeps};

/// Whether what the instruction of node k stores misses a word of the function's own stack.
pub fn is_missed_by(claim: &StackClaim<'_>, i: Instr, k: usize, word: u32) -> bool
    requires claim { IsStackClaim claim.now }
    requires node { k < length claim.now.graph.now.code.nodes }
    ensures { result ≡ true → (a : ℕ) → slice_get claim.now.graph.now.code.nodes k ≡ Some a →
        stacks.IsMissed (claim_values claim.now) (claim_stacks claim.now) a i word }
{
    is_missed(claim, i, k, word)
}

/// Whether a word of the stack of the function that calls at node u is kept by the function that begins at node h.
pub fn is_safe_at(claim: &StackClaim<'_>, u: usize, h: usize, word: u32) -> bool
    requires claim { IsStackClaim claim.now }
    requires from { u < length claim.now.graph.now.code.nodes }
    requires entry { h < length claim.now.graph.now.code.nodes }
    ensures { result ≡ true → (a b : ℕ) → slice_get claim.now.graph.now.code.nodes u ≡ Some a →
        slice_get claim.now.graph.now.code.nodes h ≡ Some b → stacks.IsSafe (claim_values claim.now) (claim_stacks claim.now) a b word }
{
    is_safe(claim, u, h, word)
}

/// Whether a register is behind the call at node u what it was before, as the function that begins at node h restores it.
pub fn is_restored_by(claim: &StackClaim<'_>, i: Instr, u: usize, h: usize, r: u8) -> bool
    requires claim { IsStackClaim claim.now }
    requires from { u < length claim.now.graph.now.code.nodes }
    requires entry { h < length claim.now.graph.now.code.nodes }
    requires register { r < 32 }
    ensures { result ≡ true → (a b : ℕ) → slice_get claim.now.graph.now.code.nodes u ≡ Some a →
        slice_get claim.now.graph.now.code.nodes h ≡ Some b → instr_at (claim_text claim.now) a ≡ Some i →
        stacks.IsRestored (claim_text claim.now) (claim_values claim.now) (claim_stacks claim.now) a b r }
{
    is_restored(claim, h, r) && keeps(r, i)
}

/// The word of the stack that the instruction of node k stores, and the register from which.
pub fn stored_word(claim: &StackClaim<'_>, i: Instr, k: usize) -> Option<(u32, u8)>
    requires claim { IsStackClaim claim.now }
    requires node { k < length claim.now.graph.now.code.nodes }
    ensures { IfSome result (λ p. (a : ℕ) → slice_get claim.now.graph.now.code.nodes k ≡ Some a →
        stacks.IsStoredFrom (claim_stacks claim.now) a i p.0 p.1) }
{
    stored_from(claim, i, k)
}

/// Where the value of a register comes from, at node k.
pub fn name_at(claim: &StackClaim<'_>, k: usize, r: u8) -> Option<Name>
    requires claim { IsStackClaim claim.now }
    requires node { k < length claim.now.graph.now.code.nodes }
    ensures { (a : ℕ) → slice_get claim.now.graph.now.code.nodes k ≡ Some a →
        option_map name_view result ≡ stacks.name_of (claim_stacks claim.now) a r }
{
    name_of(claim, k, r)
}

/// The interval of a word of the stack, at node k.
pub fn word_at(claim: &StackClaim<'_>, k: usize, word: u32) -> Option<Arc>
    requires claim { IsStackClaim claim.now }
    requires node { k < length claim.now.graph.now.code.nodes }
    ensures arc { (a : ℕ) → slice_get claim.now.graph.now.code.nodes k ≡ Some a → result ≡ (claim_stacks claim.now).word a word }
    ensures kept { IsKeptOr result }
{
    word_of(claim, k, word).arc
}

/// Whether a run may come to node k.
pub fn is_live_at(claim: &StackClaim<'_>, k: usize) -> bool
    requires claim { IsStackClaim claim.now }
    requires node { k < length claim.now.graph.now.code.nodes }
    ensures { (a : ℕ) → slice_get claim.now.graph.now.code.nodes k ≡ Some a → result ≡ (claim_values claim.now).live a }
{
    is_live(claim, k)
}

// Whether both sums are the same.
fn is_same_form(m: Measure, n: Measure) -> bool
    ensures { result ≡ true → measure_view m ≡ measure_view n }
{
    m.register == n.register
        && m.factor == n.factor
        && m.other == n.other
        && m.other_factor == n.other_factor
        && m.shift == n.shift
}

// What the line of a number says at node k, where it is of this form.
fn line_if(claim: &StackClaim<'_>, k: usize, j: usize, m: Measure) -> Option<Arc>
    requires claim { IsStackClaim claim.now }
    requires node { k < length claim.now.graph.now.code.nodes }
    ensures line { IfSome result (λ arc. IsLineOf (values_in claim.now) (address claim.now k) (measure_view m) arc) }
    ensures kept { IsKeptOr result }
{
    if is_same_form(form(claim, j), m) {
        line(claim, k, j)
    } else {
        None
    }
}

// What a line of this form says at node k.
fn line_found(claim: &StackClaim<'_>, k: usize, m: Measure) -> Option<Arc>
    requires claim { IsStackClaim claim.now }
    requires node { k < length claim.now.graph.now.code.nodes }
    ensures line { IfSome result (λ arc. IsLineOf (values_in claim.now) (address claim.now k) (measure_view m) arc) }
    ensures kept { IsKeptOr result }
{
    for known in lines(claim, k) {
        let found = line_if(claim, k, known.form, m);
        if found.is_some() {
            return found;
        }
    }
    None
}

/// The interval of a sum of two registers at node k, where a line says it.
pub fn line_at(claim: &StackClaim<'_>, k: usize, m: Measure) -> Option<Arc>
    requires claim { IsStackClaim claim.now }
    requires node { k < length claim.now.graph.now.code.nodes }
    ensures line { IfSome result (λ arc. (a : ℕ) → slice_get claim.now.graph.now.code.nodes k ≡ Some a →
        IsLineOf (claim_values claim.now) a (measure_view m) arc) }
    ensures kept { IsKeptOr result }
{
    line_found(claim, k, m)
}
