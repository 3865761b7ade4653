//! Whether each return of a run goes back behind its call, and calls are never too deep.

ghost use Rattle.std.specs.Prelude.{◌≡◌, ◌≢◌, ◌<◌, ◌≤◌, ℕ, length, slice_get, Some, true};
ghost use Rattle.scale_base.specs.declared.stepping.Move.TheVariants.{Return};
ghost use Rattle.scale_base.specs.Step.{move_of};
ghost use Rattle.code_text.specs.Text.{text_of};
ghost use Rattle.code_text.specs.TextGraph.{text_graph};
ghost use Rattle.graph_runs.specs.KeptRuns.{most_returns};
ghost use Rattle.stack_laws.specs.Returning.{ComesBack};
ghost use Rattle.stack_laws.specs.Stacks.Name.{of_begin};
ghost use Rattle.value_checks.specs.Tables.{values_of};
ghost use Rattle.stack_tables.specs.Tables.{claim_values, name_view, stacks_of, IsStackClaim};
ghost use Rattle.shown_bounds.specs.Returned.{height_at, AreLinked, AreLower, IsLink, IsLinkedAt, IsLowerSo};

use crate::reading::{is_live, node_instr};
use scale_base::Instr;
use stack_tables::{Name, StackClaim, name_at};

// The number of return addresses that a kept run carries at most.
const MOST_RETURNS: u32 = 131_072;

// Whether an instruction is a return.
fn is_return(i: Instr) -> bool
    ensures { move_of i ≡ Return → result ≡ true }
{
    matches!(
        i,
        Instr::Jalr {
            rd: 0,
            rs1: 1,
            offset: 0,
        }
    )
}

// Whether a name is that of x1 when the function began.
fn is_first_link(name: Name) -> bool
    ensures { result ≡ true → name_view name ≡ of_begin 1 0 }
{
    match name {
        Name::OfBegin(register, more) => register == 1 && more == 0,
        Name::OfWord(..) => false,
    }
}

// Whether x1 is at node k what it was when the function began, and that isn't function `first`.
fn is_link(claim: &StackClaim<'_>, k: usize, first: usize) -> bool
    requires claim { IsStackClaim claim.now }
    requires node { k < length claim.now.graph.now.code.nodes }
    ensures { result ≡ true → (a : ℕ) → slice_get claim.now.graph.now.code.nodes k ≡ Some a → IsLink claim.now a first }
{
    if claim.graph.owner(k) == first {
        return false;
    }
    match name_at(claim, k, 1) {
        Some(name) => is_first_link(name),
        None => false,
    }
}

// What is to say of node k, where a run may come to it.
fn is_linked_instr(claim: &StackClaim<'_>, k: usize, first: usize) -> bool
    requires claim { IsStackClaim claim.now }
    requires node { k < length claim.now.graph.now.code.nodes }
    ensures { result ≡ true → (a : ℕ) → slice_get claim.now.graph.now.code.nodes k ≡ Some a → IsLinkedAt claim.now a first }
{
    let Some(i) = node_instr(claim, k) else {
        return false;
    };
    if !is_return(i) {
        return true;
    }
    is_link(claim, k, first)
}

// What is to say of node k.
fn is_linked(claim: &StackClaim<'_>, k: usize, first: usize) -> bool
    requires claim { IsStackClaim claim.now }
    requires node { k < length claim.now.graph.now.code.nodes }
    ensures { result ≡ true → (a : ℕ) → slice_get claim.now.graph.now.code.nodes k ≡ Some a → IsLinkedAt claim.now a first }
{
    if !is_live(claim.table, k) {
        return true;
    }
    is_linked_instr(claim, k, first)
}

// And of each node.
fn are_linked(claim: &StackClaim<'_>, first: usize) -> bool
    requires { IsStackClaim claim.now }
    ensures { result ≡ true → AreLinked claim.now first }
{
    for k in 0..claim.graph.node_count() {
        if !is_linked(claim, k, first) {
            return false;
        }
    }
    true
}

// The height of a function.
fn height(heights: &[u32], f: usize) -> u32
    requires { f < length heights.now }
    ensures { result ≡ height_at heights.now f }
{
    heights[f]
}

// Whether a call at edge e goes to a lower function.
fn is_lower(claim: &StackClaim<'_>, heights: &[u32], e: usize) -> bool
    requires claim { IsStackClaim claim.now }
    requires heights { length heights.now ≡ length claim.now.graph.now.code.functions }
    requires edge { e < length claim.now.graph.now.code.edges }
    ensures { result ≡ true → IsLowerSo claim.now heights.now e }
{
    let graph = claim.graph;
    let k = graph.source(e);
    if !is_live(claim.table, k) {
        return true;
    }
    match graph.callee(e) {
        Some(f) => height(heights, f) < height(heights, graph.owner(k)),
        None => true,
    }
}

// Whether each one does.
fn are_lower(claim: &StackClaim<'_>, heights: &[u32]) -> bool
    requires claim { IsStackClaim claim.now }
    requires heights { length heights.now ≡ length claim.now.graph.now.code.functions }
    ensures { result ≡ true → AreLower claim.now heights.now }
{
    for e in 0..claim.graph.edge_count() {
        if !is_lower(claim, heights, e) {
            return false;
        }
    }
    true
}

/// Whether each return goes back behind its call, and calls are never too deep. `heights` has for each function how many calls may be open
/// in what it calls.
pub fn comes_back(claim: &StackClaim<'_>, heights: &[u32]) -> bool
    requires { IsStackClaim claim.now }
    ensures { result ≡ true → ComesBack (text_of claim.now.view.now) (text_graph (text_of claim.now.view.now) claim.now.graph.now.code)
        (values_of claim.now.graph.now.code claim.now.table.now) (stacks_of claim.now.graph.now.code claim.now.stack.now) }
{
    if heights.len() != claim.graph.function_count() {
        return false;
    }
    let Some(k) = claim.graph.find(claim.view.entry()) else {
        return false;
    };
    let first = claim.graph.owner(k);
    if height(heights, first) > MOST_RETURNS {
        return false;
    }
    if !are_lower(claim, heights) {
        return false;
    }
    are_linked(claim, first)
}
