//! What a call leaves as it was: words of the stack of the function that calls, and registers that the called one restores.

ghost use Rattle.std.specs.Prelude.{◌≡◌, ◌<◌, length, IfSome, Some, true};
ghost use Rattle.code_text.specs.Text as text;
ghost use Rattle.bound_laws.specs.Values as values;
ghost use Rattle.stack_laws.specs.Stacks as stacks;
ghost use Rattle.stack_tables.specs.Tables.{IsStackClaim, address, named, stacks_in, text_in, values_in};

use crate::apart::is_below;
use crate::claims::StackClaim;
use crate::reading::{begins, is_kept, is_restored, is_spared, name, offset, place};
use crate::tables::Name;
use scale_base::Instr;
use wrapped_intervals::{covers, keeps, opposite_of, sum_with};

/// How far x2 is above what it had when the function began, at node k, where it is not above it.
pub fn descending(claim: &StackClaim<'_>, k: usize) -> Option<u32>
    requires claim { IsStackClaim claim.now }
    requires node { k < length claim.now.graph.now.code.nodes }
    ensures { IfSome result (λ more. stacks.IsDescending (values_in claim.now) (stacks_in claim.now) (address claim.now k) more) }
{
    match name(claim, k, 2) {
        Some(Name::OfBegin(r, more)) => {
            if r == 2 && is_below(begins(claim, k), u64::from(more), 0) {
                Some(more)
            } else {
                None
            }
        }
        _ => None,
    }
}

// Whether word `number` of node u's function is where words of functions that wait may be.
fn is_placed(claim: &StackClaim<'_>, u: usize, number: u32) -> bool
    requires claim { IsStackClaim claim.now }
    requires node { u < length claim.now.graph.now.code.nodes }
    ensures { result ≡ true → values.Covers ((stacks_in claim.now).place number)
        (values.sum_with ((stacks_in claim.now).begins ((values_in claim.now).function (address claim.now u)))
        ((stacks_in claim.now).offset number)) }
{
    covers(
        place(claim),
        sum_with(begins(claim, u), offset(claim, number)),
    )
}

/// Whether word `number` of the stack of the function that calls at node u is kept by the function that begins at node h.
pub fn is_safe(claim: &StackClaim<'_>, u: usize, h: usize, number: u32) -> bool
    requires claim { IsStackClaim claim.now }
    requires from { u < length claim.now.graph.now.code.nodes }
    requires entry { h < length claim.now.graph.now.code.nodes }
    ensures { result ≡ true → stacks.IsSafe (values_in claim.now) (stacks_in claim.now) (address claim.now u) (address claim.now h) number }
{
    match descending(claim, u) {
        Some(more) => {
            is_spared(claim, h)
                && is_kept(claim, u, number)
                && is_placed(claim, u, number)
                && opposite_of(offset(claim, number)) <= opposite_of(u64::from(more))
        }
        None => false,
    }
}

/// Whether what a name names is kept.
pub fn is_name_safe(claim: &StackClaim<'_>, u: usize, h: usize, name: Option<Name>) -> bool
    requires claim { IsStackClaim claim.now }
    requires from { u < length claim.now.graph.now.code.nodes }
    requires entry { h < length claim.now.graph.now.code.nodes }
    ensures { result ≡ true → stacks.IsNameSafe (values_in claim.now) (stacks_in claim.now) (address claim.now u) (address claim.now h)
        (named name) }
{
    match name {
        Some(Name::OfWord(number, _)) => is_safe(claim, u, h, number),
        Some(Name::OfBegin(_, _)) => true,
        None => true,
    }
}

/// Whether a register is behind the call at node u, of which this is the instruction, what it was before, as the function that begins at
/// node h restores it.
pub fn is_given_back(claim: &StackClaim<'_>, i: Instr, u: usize, h: usize, r: u8) -> bool
    requires claim { IsStackClaim claim.now }
    requires from { u < length claim.now.graph.now.code.nodes }
    requires entry { h < length claim.now.graph.now.code.nodes }
    requires register { r < 32 }
    requires instruction { text.instr_at (text_in claim.now) (address claim.now u) ≡ Some i }
    ensures { result ≡ true → stacks.IsRestored (text_in claim.now) (values_in claim.now) (stacks_in claim.now) (address claim.now u)
        (address claim.now h) r }
{
    is_restored(claim, h, r) && keeps(r, i)
}
