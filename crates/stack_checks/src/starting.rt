//! Whether the start of a run is within two tables, and all that the code of an image says of them.

ghost use Rattle.std.specs.Prelude.{◌≡◌, ◌<◌, ℕ, length, None, true};
ghost use Rattle.scale_base.specs.Run.{STACK_POINTER};
ghost use Rattle.scale_base.specs.State.{reg};
ghost use Rattle.bound_laws.specs.Laws.{starting_registers};
ghost use Rattle.bound_laws.specs.Values.{AreIn, IsHeld, IsRegister};
ghost use Rattle.stack_laws.specs.Laws.{IsStackAnalysed};
ghost use Rattle.stack_laws.specs.Stacks as stacks;
ghost use Rattle.stack_checks.specs.Checked.{IsStart};
ghost use Rattle.stack_tables.specs.Tables.{IsStackClaim, address, stacks_in, stacks_of, values_in};
ghost use Rattle.value_checks.specs.Tables.{values_of};

use crate::areas::are_areas;
use crate::confirming::is_confirmed;
use crate::edges::{is_alive, is_beginning};
use crate::fixed::are_fixed;
use crate::lines::are_lines_started;
use crate::memory::are_cells_started;
use stack_tables::{StackClaim, arc_at, begins};
use wrapped_intervals::holds;

/// What register `r` is at the start of a run.
pub fn starting_register(r: u8) -> u32
    requires { r < 32 }
    ensures { result ≡ reg starting_registers r }
{
    if r == 2 { 0x7FFF_FFF0 } else { 0 }
}

// Whether a register's interval has what is there at the start.
fn is_register_started(claim: &StackClaim<'_>, k: usize, r: u8) -> bool
    requires claim { IsStackClaim claim.now }
    requires node { k < length claim.now.graph.now.code.nodes }
    requires register { r < 32 }
    ensures { result ≡ true → IsHeld ((values_in claim.now).at (address claim.now k) r) (reg starting_registers r) }
{
    holds(arc_at(claim, k, r), starting_register(r))
}

// Whether each one has.
fn are_registers_started(claim: &StackClaim<'_>, k: usize) -> bool
    requires claim { IsStackClaim claim.now }
    requires node { k < length claim.now.graph.now.code.nodes }
    ensures { result ≡ true → (r : ℕ) → IsRegister r → IsHeld ((values_in claim.now).at (address claim.now k) r)
        (reg starting_registers r) }
{
    for r in 1..32u8 {
        if !is_register_started(claim, k, r) {
            return false;
        }
    }
    true
}

// Whether the function of node k may begin with what x2 is at the start.
fn is_stack_started(claim: &StackClaim<'_>, k: usize) -> bool
    requires claim { IsStackClaim claim.now }
    requires node { k < length claim.now.graph.now.code.nodes }
    ensures { result ≡ true → IsHeld ((stacks_in claim.now).begins ((values_in claim.now).function (address claim.now k))) STACK_POINTER }
{
    holds(begins(claim, k), 0x7FFF_FFF0)
}

// Whether the start of a run is within what the tables say at node k.
fn is_started_at(claim: &StackClaim<'_>, k: usize) -> bool
    requires claim { IsStackClaim claim.now }
    requires node { k < length claim.now.graph.now.code.nodes }
    ensures { result ≡ true → IsStart (values_in claim.now) (stacks_in claim.now) (address claim.now k) }
{
    if !is_alive(claim, k) {
        return false;
    }
    if !are_registers_started(claim, k) {
        return false;
    }
    if !are_lines_started(claim, k) {
        return false;
    }
    if !is_beginning(claim, k) {
        return false;
    }
    is_stack_started(claim, k)
}

// Whether it is so where the image begins.
fn is_started(claim: &StackClaim<'_>) -> bool
    requires { IsStackClaim claim.now }
    ensures { result ≡ true → IsStart (values_in claim.now) (stacks_in claim.now) claim.now.view.now.entry }
{
    match claim.graph.find(claim.view.entry()) {
        Some(k) => is_started_at(claim, k),
        None => false,
    }
}

// Whether an image has no keyed segment.
fn is_plain(claim: &StackClaim<'_>) -> bool
    ensures { result ≡ true → claim.now.view.now.keyed_segment ≡ None }
{
    claim.view.keyed().is_none()
}

/// Whether the code of an image without a keyed segment confirms two tables: then they say what is so all along each run whose returns go
/// back to their calls.
pub fn is_stack_analysed(claim: &StackClaim<'_>) -> bool
    requires { IsStackClaim claim.now }
    ensures { result ≡ true → IsStackAnalysed claim.now.view.now claim.now.graph.now.code
        (values_of claim.now.graph.now.code claim.now.table.now) (stacks_of claim.now.graph.now.code claim.now.stack.now) }
{
    if !is_plain(claim) {
        return false;
    }
    if !is_started(claim) {
        return false;
    }
    if !are_areas(claim) {
        return false;
    }
    if !are_cells_started(claim) {
        return false;
    }
    if !are_fixed(claim) {
        return false;
    }
    is_confirmed(claim)
}
