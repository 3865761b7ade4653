//! What the code says of two tables at an edge.

ghost use Rattle.std.specs.Prelude.{◌≡◌, ◌<◌, ℕ, length, Some, None, true};
ghost use Rattle.code_text.specs.Text as text;
ghost use Rattle.flow_graph.specs.FlowGraph.{graph};
ghost use Rattle.scale_base.specs.declared.instruction.Instr.{Instr};
ghost use Rattle.bound_laws.specs.Registers.{keeps};
ghost use Rattle.bound_laws.specs.Values as values;
ghost use Rattle.bound_laws.specs.Values.{IsRegister};
ghost use Rattle.stack_laws.specs.Stacks as stacks;
ghost use Rattle.stack_checks.specs.Checked.{AreBackAlong, AreEnteredAlong, ArePassedAlong, IsEdgeChecked, IsEdgeSound, IsWay, from, stacks_along, to, values_along};
ghost use Rattle.stack_tables.specs.Tables.{IsStackClaim, address, stacks_in, text_in, values_in};

use crate::calls::{are_registers_begun, are_registers_behind, are_registers_returned};
use crate::cells::are_cells_kept;
use crate::dwindling::{are_dwindling_passed, is_none_dwindling};
use crate::lines::{are_lines_behind, are_lines_covered};
use crate::registers::{are_registers_covered, are_registers_passed};
use crate::telling::{are_told_passed, is_none_told};
use crate::ways::Way;
use crate::words::{are_unknown, are_words_behind, are_words_passed};
use scale_base::Instr;
use stack_tables::{
    StackClaim, address, arc_at, arcs, begins, descending, instruction, is_far, is_live, is_spared,
    is_sparing,
};
use wrapped_intervals::{covers, is_impossible, keeps, said_by};

// Whether no state goes this way.
fn is_never(way: &Way<'_>) -> bool
    requires { IsWay way.now }
    ensures { result ≡ true → values.IsImpossible (values.said way.now.instr (from way.now) (to way.now))
        ((values_along way.now).at (from way.now)) }
{
    let claim = way.claim;
    is_impossible(
        said_by(way.instr, address(claim, way.from), address(claim, way.to)),
        arcs(claim, way.from),
    )
}

/// Whether a run may come to node n.
pub fn is_alive(claim: &StackClaim<'_>, n: usize) -> bool
    requires claim { IsStackClaim claim.now }
    requires node { n < length claim.now.graph.now.code.nodes }
    ensures { result ≡ true → (values_in claim.now).live (address claim.now n) ≡ true }
{
    is_live(claim, n)
}

// Whether all that the tables say where the way leads is so behind the instruction.
fn are_passed(way: &Way<'_>) -> bool
    requires { IsWay way.now }
    ensures { result ≡ true → ArePassedAlong way.now }
{
    if !is_alive(way.claim, way.to) {
        return false;
    }
    if !are_registers_passed(way) {
        return false;
    }
    if !are_lines_covered(way) {
        return false;
    }
    if !are_told_passed(way) {
        return false;
    }
    if !are_dwindling_passed(way) {
        return false;
    }
    are_words_passed(way)
}

// Whether it is, or no state goes there.
fn is_passed(way: &Way<'_>) -> bool
    requires { IsWay way.now }
    ensures { result ≡ true → stacks.IsPassed (values_along way.now) (stacks_along way.now) way.now.instr (from way.now) (to way.now) }
{
    is_never(way) || are_passed(way)
}

/// Whether the tables say at node n what is so where a function begins.
pub fn is_beginning(claim: &StackClaim<'_>, n: usize) -> bool
    requires claim { IsStackClaim claim.now }
    requires node { n < length claim.now.graph.now.code.nodes }
    ensures { result ≡ true → stacks.IsBeginning (stacks_in claim.now) (address claim.now n) }
{
    if !are_registers_begun(claim, n) {
        return false;
    }
    if !is_none_told(claim, n) {
        return false;
    }
    if !is_none_dwindling(claim, n) {
        return false;
    }
    are_unknown(claim, n)
}

// Whether what x2 has at node k is among what it has where the function of node n begins.
fn is_begun(claim: &StackClaim<'_>, k: usize, n: usize) -> bool
    requires claim { IsStackClaim claim.now }
    requires from { k < length claim.now.graph.now.code.nodes }
    requires to { n < length claim.now.graph.now.code.nodes }
    ensures { result ≡ true → values.Covers ((stacks_in claim.now).begins ((values_in claim.now).function (address claim.now n)))
        ((values_in claim.now).at (address claim.now k) 2) }
{
    covers(begins(claim, n), arc_at(claim, k, 2))
}

// Whether a call at node k leaves the stack as it is.
fn is_quiet(claim: &StackClaim<'_>, i: Instr, k: usize) -> bool
    requires claim { IsStackClaim claim.now }
    requires from { k < length claim.now.graph.now.code.nodes }
    ensures { result ≡ true → (keeps 2 i ≡ true) × stacks.IsFar (values_in claim.now) (address claim.now k) i None }
{
    keeps(2, i) && is_far(claim, i, k, None)
}

// Whether all that the tables say where the way leads, and a function begins, is so behind the call.
fn are_entered(way: &Way<'_>) -> bool
    requires { IsWay way.now }
    ensures { result ≡ true → AreEnteredAlong way.now }
{
    if !is_alive(way.claim, way.to) {
        return false;
    }
    if !are_registers_covered(way) {
        return false;
    }
    if !are_lines_covered(way) {
        return false;
    }
    if !is_beginning(way.claim, way.to) {
        return false;
    }
    if !is_quiet(way.claim, way.instr, way.from) {
        return false;
    }
    is_begun(way.claim, way.from, way.to)
}

// Whether all that the tables say where the way leads is so behind the call of the function that begins at node h.
fn are_back(way: &Way<'_>, h: usize) -> bool
    requires way { IsWay way.now }
    requires entry { h < length way.now.claim.now.graph.now.code.nodes }
    ensures { result ≡ true → AreBackAlong way.now h }
{
    if !is_alive(way.claim, way.to) {
        return false;
    }
    if !are_registers_behind(way, h) {
        return false;
    }
    if !are_lines_behind(way, h) {
        return false;
    }
    if !is_none_told(way.claim, way.to) {
        return false;
    }
    if !is_none_dwindling(way.claim, way.to) {
        return false;
    }
    are_words_behind(way, h)
}

// The same of a way, by its ends.
fn is_way_passed(claim: &StackClaim<'_>, i: Instr, k: usize, n: usize) -> bool
    requires claim { IsStackClaim claim.now }
    requires from { k < length claim.now.graph.now.code.nodes }
    requires to { n < length claim.now.graph.now.code.nodes }
    requires instruction { text.instr_at (text_in claim.now) (address claim.now k) ≡ Some i }
    ensures { result ≡ true → stacks.IsPassed (values_in claim.now) (stacks_in claim.now) i (address claim.now k) (address claim.now n) }
{
    is_passed(&Way {
        claim,
        instr: i,
        from: k,
        to: n,
    })
}

fn is_way_entered(claim: &StackClaim<'_>, i: Instr, k: usize, n: usize) -> bool
    requires claim { IsStackClaim claim.now }
    requires from { k < length claim.now.graph.now.code.nodes }
    requires to { n < length claim.now.graph.now.code.nodes }
    requires instruction { text.instr_at (text_in claim.now) (address claim.now k) ≡ Some i }
    ensures { result ≡ true → stacks.AreEntered (values_in claim.now) (stacks_in claim.now) i (address claim.now k) (address claim.now n) }
{
    are_entered(&Way {
        claim,
        instr: i,
        from: k,
        to: n,
    })
}

fn is_way_back(claim: &StackClaim<'_>, i: Instr, k: usize, h: usize, n: usize) -> bool
    requires claim { IsStackClaim claim.now }
    requires from { k < length claim.now.graph.now.code.nodes }
    requires entry { h < length claim.now.graph.now.code.nodes }
    requires to { n < length claim.now.graph.now.code.nodes }
    requires instruction { text.instr_at (text_in claim.now) (address claim.now k) ≡ Some i }
    ensures { result ≡ true → stacks.AreBack (text_in claim.now) (values_in claim.now) (stacks_in claim.now) (address claim.now k)
        (address claim.now h) (address claim.now n) }
{
    are_back(
        &Way {
            claim,
            instr: i,
            from: k,
            to: n,
        },
        h,
    )
}

// Of a step that is no call.
fn is_step_checked(claim: &StackClaim<'_>, i: Instr, k: usize, e: usize) -> bool
    requires claim { IsStackClaim claim.now }
    requires edge { e < length claim.now.graph.now.code.edges }
    requires node { k < length claim.now.graph.now.code.nodes }
    requires instruction { text.instr_at (text_in claim.now) (address claim.now k) ≡ Some i }
    ensures { result ≡ true → (b : ℕ) → (graph claim.now.graph.now).target e ≡ Some b → (graph claim.now.graph.now).callee e ≡ None →
        stacks.IsPassed (values_in claim.now) (stacks_in claim.now) i (address claim.now k) b }
{
    match (claim.graph.callee(e), claim.graph.target(e)) {
        (None, Some(n)) => is_way_passed(claim, i, k, n),
        _ => true,
    }
}

// Of a call.
fn is_call_checked(claim: &StackClaim<'_>, i: Instr, k: usize, e: usize) -> bool
    requires claim { IsStackClaim claim.now }
    requires edge { e < length claim.now.graph.now.code.edges }
    requires node { k < length claim.now.graph.now.code.nodes }
    requires instruction { text.instr_at (text_in claim.now) (address claim.now k) ≡ Some i }
    ensures { result ≡ true → (f : ℕ) → (graph claim.now.graph.now).callee e ≡ Some f →
        stacks.AreEntered (values_in claim.now) (stacks_in claim.now) i (address claim.now k) ((graph claim.now.graph.now).entry f) }
{
    match claim.graph.callee(e) {
        Some(f) => is_way_entered(claim, i, k, claim.graph.entry_node(f)),
        None => true,
    }
}

// Of a return.
fn is_return_checked(claim: &StackClaim<'_>, i: Instr, k: usize, e: usize) -> bool
    requires claim { IsStackClaim claim.now }
    requires edge { e < length claim.now.graph.now.code.edges }
    requires node { k < length claim.now.graph.now.code.nodes }
    requires instruction { text.instr_at (text_in claim.now) (address claim.now k) ≡ Some i }
    ensures { result ≡ true → (r : ℕ) → (graph claim.now.graph.now).returns e ≡ true → IsRegister r →
        stacks.IsReturned (text_in claim.now) (values_in claim.now) (stacks_in claim.now) (address claim.now k) r }
{
    !claim.graph.is_return(e) || are_registers_returned(claim, i, k)
}

// Of the way on behind a call that comes back.
fn is_back_checked(claim: &StackClaim<'_>, i: Instr, k: usize, e: usize) -> bool
    requires claim { IsStackClaim claim.now }
    requires edge { e < length claim.now.graph.now.code.edges }
    requires node { k < length claim.now.graph.now.code.nodes }
    requires instruction { text.instr_at (text_in claim.now) (address claim.now k) ≡ Some i }
    ensures { result ≡ true → (f b : ℕ) → (graph claim.now.graph.now).callee e ≡ Some f → (graph claim.now.graph.now).target e ≡ Some b →
        stacks.AreBack (text_in claim.now) (values_in claim.now) (stacks_in claim.now) (address claim.now k)
        ((graph claim.now.graph.now).entry f) b }
{
    match (claim.graph.callee(e), claim.graph.target(e)) {
        (Some(f), Some(n)) => is_way_back(claim, i, k, claim.graph.entry_node(f), n),
        _ => true,
    }
}

// Whether a call at node k, of the function that begins at node n, is one of what spares the words of what waits, where node k is.
fn is_spared_to(claim: &StackClaim<'_>, k: usize, n: usize) -> bool
    requires claim { IsStackClaim claim.now }
    requires from { k < length claim.now.graph.now.code.nodes }
    requires to { n < length claim.now.graph.now.code.nodes }
    ensures { result ≡ true → (j : ℕ) → (stacks_in claim.now).spared j (address claim.now k) ≡ true →
        ((stacks_in claim.now).spared j (address claim.now n) ≡ true) × (more : ℕ) ×
        stacks.IsDescending (values_in claim.now) (stacks_in claim.now) (address claim.now k) more }
{
    if is_spared(claim, k) {
        match descending(claim, k) {
            Some(_) => is_spared(claim, n),
            None => false,
        }
    } else {
        true
    }
}

// Of a call from what spares the words of what waits.
fn is_spared_called(claim: &StackClaim<'_>, k: usize, e: usize) -> bool
    requires claim { IsStackClaim claim.now }
    requires edge { e < length claim.now.graph.now.code.edges }
    requires node { k < length claim.now.graph.now.code.nodes }
    ensures { result ≡ true → (f j : ℕ) → (graph claim.now.graph.now).callee e ≡ Some f →
        (stacks_in claim.now).spared j (address claim.now k) ≡ true → ((stacks_in claim.now).spared j ((graph claim.now.graph.now).entry f)
        ≡ true) × (more : ℕ) × stacks.IsDescending (values_in claim.now) (stacks_in claim.now) (address claim.now k) more }
{
    match claim.graph.callee(e) {
        Some(f) => is_spared_to(claim, k, claim.graph.entry_node(f)),
        None => true,
    }
}

// Of an instruction of it.
fn is_sparing_checked(claim: &StackClaim<'_>, i: Instr, k: usize) -> bool
    requires claim { IsStackClaim claim.now }
    requires node { k < length claim.now.graph.now.code.nodes }
    ensures { result ≡ true → (j : ℕ) → (stacks_in claim.now).spared j (address claim.now k) ≡ true →
        stacks.IsSparing (values_in claim.now) (stacks_in claim.now) (address claim.now k) i j }
{
    !is_spared(claim, k) || is_sparing(claim, i, k)
}

// Whether node n spares the words of what waits, where node k does.
fn is_spared_behind(claim: &StackClaim<'_>, k: usize, n: usize) -> bool
    requires claim { IsStackClaim claim.now }
    requires from { k < length claim.now.graph.now.code.nodes }
    requires to { n < length claim.now.graph.now.code.nodes }
    ensures { result ≡ true → (j : ℕ) → (stacks_in claim.now).spared j (address claim.now k) ≡ true →
        (stacks_in claim.now).spared j (address claim.now n) ≡ true }
{
    if is_spared(claim, k) {
        is_spared(claim, n)
    } else {
        true
    }
}

// Whether what spares the words of what waits goes on so.
fn is_spared_along(claim: &StackClaim<'_>, k: usize, e: usize) -> bool
    requires claim { IsStackClaim claim.now }
    requires edge { e < length claim.now.graph.now.code.edges }
    requires node { k < length claim.now.graph.now.code.nodes }
    ensures { result ≡ true → (j b : ℕ) → (graph claim.now.graph.now).target e ≡ Some b →
        (stacks_in claim.now).spared j (address claim.now k) ≡ true → (stacks_in claim.now).spared j b ≡ true }
{
    match claim.graph.target(e) {
        Some(n) => is_spared_behind(claim, k, n),
        None => true,
    }
}

// All of an edge from node k, to which a run may come, and its instruction.
fn is_sound(claim: &StackClaim<'_>, i: Instr, k: usize, e: usize) -> bool
    requires claim { IsStackClaim claim.now }
    requires edge { e < length claim.now.graph.now.code.edges }
    requires node { k < length claim.now.graph.now.code.nodes }
    requires instruction { text.instr_at (text_in claim.now) (address claim.now k) ≡ Some i }
    ensures { result ≡ true → IsEdgeSound (text_in claim.now) (graph claim.now.graph.now) (values_in claim.now) (stacks_in claim.now) i
        (address claim.now k) e }
{
    if !is_step_checked(claim, i, k, e) {
        return false;
    }
    if !is_call_checked(claim, i, k, e) {
        return false;
    }
    if !is_return_checked(claim, i, k, e) {
        return false;
    }
    if !is_back_checked(claim, i, k, e) {
        return false;
    }
    if !is_spared_called(claim, k, e) {
        return false;
    }
    if !is_sparing_checked(claim, i, k) {
        return false;
    }
    are_cells_kept(claim, i, k)
}

// The same, where a run may come to node k.
fn is_sound_or_dead(claim: &StackClaim<'_>, k: usize, e: usize) -> bool
    requires claim { IsStackClaim claim.now }
    requires edge { e < length claim.now.graph.now.code.edges }
    requires node { k < length claim.now.graph.now.code.nodes }
    ensures { result ≡ true → (values_in claim.now).live (address claim.now k) ≡ true → (i : Instr) ×
        (text.instr_at (text_in claim.now) (address claim.now k) ≡ Some i) × IsEdgeSound (text_in claim.now) (graph claim.now.graph.now)
        (values_in claim.now) (stacks_in claim.now) i (address claim.now k) e }
{
    if is_live(claim, k) {
        match instruction(claim, k) {
            Some(i) => is_sound(claim, i, k, e),
            None => false,
        }
    } else {
        true
    }
}

/// All of an edge.
pub fn is_edge_checked(claim: &StackClaim<'_>, e: usize) -> bool
    requires claim { IsStackClaim claim.now }
    requires edge { e < length claim.now.graph.now.code.edges }
    ensures { result ≡ true → IsEdgeChecked (text_in claim.now) (graph claim.now.graph.now) (values_in claim.now) (stacks_in claim.now) e }
{
    let k = claim.graph.source(e);
    if !is_spared_along(claim, k, e) {
        return false;
    }
    is_sound_or_dead(claim, k, e)
}
