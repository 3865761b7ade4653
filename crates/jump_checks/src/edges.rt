//! What the code says of a claim, edge by edge.

ghost use Rattle.std.specs.Prelude.{◌≡◌, ◌<◌, ℕ, length, slice_get, Some, true};
ghost use Rattle.scale_base.specs.declared.instruction.Instr.{Instr};
ghost use Rattle.code_text.specs.Text as text;
ghost use Rattle.code_text.specs.Text.{text_of};
ghost use Rattle.code_text.specs.TextGraph.{text_graph};
ghost use Rattle.bound_laws.specs.Values.{IsRegister};
ghost use Rattle.stack_tables.specs.Tables.{address, claim_values, text_in};
ghost use Rattle.jump_laws.specs.declared.reads.TableRead.{TableRead};
ghost use Rattle.jump_laws.specs.Reads.{AreReads};
ghost use Rattle.jump_checks.specs.Claimed.{AreOfRegisters, IsBackRead, IsEdgeSo, IsKnownOver, IsNothing, IsReadClaim, IsReadThere, IsStepRead, known_beside};

use crate::claims::ReadClaim;
use crate::reading::{entry, is_register, read};
use crate::rules::is_read_over;
use jump_laws::TableRead;
use scale_base::Instr;
use stack_tables::{instruction, is_live};

// Whether something is so behind the instruction at node k, if a run may come to it.
fn is_so_behind(claim: &ReadClaim<'_>, k: usize, x: TableRead) -> bool
    requires claim { IsReadClaim claim.now }
    requires node { k < length claim.now.claim.now.graph.now.code.nodes }
    ensures { result ≡ true → (i : Instr) → text.instr_at (text_in claim.now.claim.now) (address claim.now.claim.now k) ≡ Some i →
        IsReadThere claim.now k i x }
{
    match instruction(claim.claim, k) {
        Some(i) => is_read_over(claim, i, k, x),
        None => false,
    }
}

// Whether what is known at node n is so behind node k.
fn is_known_over(claim: &ReadClaim<'_>, k: usize, n: usize) -> bool
    requires claim { IsReadClaim claim.now }
    requires from { k < length claim.now.claim.now.graph.now.code.nodes }
    requires to { n < length claim.now.claim.now.graph.now.code.nodes }
    ensures { result ≡ true → IsKnownOver claim.now k n }
{
    let Some(x) = read(claim, n) else {
        return true;
    };
    if !is_live(claim.claim, k) {
        return true;
    }
    is_so_behind(claim, k, x)
}

// Whether nothing is known at node n.
fn is_nothing(claim: &ReadClaim<'_>, n: usize) -> bool
    requires claim { IsReadClaim claim.now }
    requires node { n < length claim.now.claim.now.graph.now.code.nodes }
    ensures { result ≡ true → IsNothing claim.now n }
{
    read(claim, n).is_none()
}

// Of an edge that is no call.
fn is_step_read(claim: &ReadClaim<'_>, e: usize) -> bool
    requires claim { IsReadClaim claim.now }
    requires edge { e < length claim.now.claim.now.graph.now.code.edges }
    ensures { result ≡ true → IsStepRead claim.now e }
{
    let graph = claim.claim.graph;
    let k = graph.source(e);
    match graph.target(e) {
        Some(n) => is_known_over(claim, k, n),
        None => true,
    }
}

// Of one behind a call.
fn is_back_read(claim: &ReadClaim<'_>, e: usize) -> bool
    requires claim { IsReadClaim claim.now }
    requires edge { e < length claim.now.claim.now.graph.now.code.edges }
    ensures { result ≡ true → IsBackRead claim.now e }
{
    match claim.claim.graph.target(e) {
        Some(n) => is_nothing(claim, n),
        None => true,
    }
}

// Of one of a call of the function that begins at node h.
fn is_call_read(claim: &ReadClaim<'_>, e: usize, h: usize) -> bool
    requires claim { IsReadClaim claim.now }
    requires edge { e < length claim.now.claim.now.graph.now.code.edges }
    requires entry { h < length claim.now.claim.now.graph.now.code.nodes }
    ensures { result ≡ true → IsNothing claim.now h × IsBackRead claim.now e }
{
    if !is_nothing(claim, h) {
        return false;
    }
    is_back_read(claim, e)
}

// Of any edge.
fn is_edge_read(claim: &ReadClaim<'_>, e: usize) -> bool
    requires claim { IsReadClaim claim.now }
    requires edge { e < length claim.now.claim.now.graph.now.code.edges }
    ensures { result ≡ true → IsEdgeSo claim.now e }
{
    let graph = claim.claim.graph;
    match graph.callee(e) {
        Some(f) => is_call_read(claim, e, graph.entry_node(f)),
        None => is_step_read(claim, e),
    }
}

// And of each edge.
fn are_edges_read(claim: &ReadClaim<'_>) -> bool
    requires { IsReadClaim claim.now }
    ensures { result ≡ true → (e : ℕ) → e < length claim.now.claim.now.graph.now.code.edges → IsEdgeSo claim.now e }
{
    for e in 0..claim.claim.graph.edge_count() {
        if !is_edge_read(claim, e) {
            return false;
        }
    }
    true
}

// Whether what is known is of a register that instructions write.
fn is_of_register(read: Option<TableRead>) -> bool
    ensures { result ≡ true → (x : TableRead) → read ≡ Some x → IsRegister x.register }
{
    match read {
        Some(x) => is_register(x.register),
        None => true,
    }
}

// Whether all is.
fn are_of_registers(reads: &[Option<TableRead>]) -> bool
    ensures { result ≡ true → AreOfRegisters reads.now }
{
    for k in 0..reads.len() {
        if !is_of_register(entry(reads, k)) {
            return false;
        }
    }
    true
}

// Whether nothing is known where a run begins.
fn is_start_clear(claim: &ReadClaim<'_>) -> bool
    requires { IsReadClaim claim.now }
    ensures { result ≡ true → known_beside claim.now.claim.now.graph.now.code.nodes claim.now.reads.now claim.now.claim.now.view.now.entry
        ≡ None }
{
    let table = claim.claim;
    match table.graph.find(table.view.entry()) {
        Some(k) => is_nothing(claim, k),
        None => false,
    }
}

/// Whether the code shows what is claimed: then it is so along each run whose returns go back to their calls.
pub fn is_read_so(claim: &ReadClaim<'_>) -> bool
    requires { IsReadClaim claim.now }
    ensures { result ≡ true → AreReads (text_of claim.now.claim.now.view.now)
        (text_graph (text_of claim.now.claim.now.view.now) claim.now.claim.now.graph.now.code) (claim_values claim.now.claim.now)
        (known_beside claim.now.claim.now.graph.now.code.nodes claim.now.reads.now) }
{
    if !are_of_registers(claim.reads) {
        return false;
    }
    if !is_start_clear(claim) {
        return false;
    }
    are_edges_read(claim)
}
