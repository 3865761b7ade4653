//! A run of an image.

ghost use Rattle.std.specs.Prelude.{◌≡◌, ◌≤◌, ℕ, IfOk, IfSome, None, Some, [], ◌∷◌, true, length};
ghost use Rattle.scale_base.specs.Run.{run, run_of, setting_of, start_of};
ghost use Rattle.stack_laws.specs.Tidy.{IsTidy, begun_at};
ghost use Rattle.flat_memory.specs.Paged.{page_bytes, page_layout};
ghost use Rattle.rv_machine.specs.Code.{IsDecodedCode};
ghost use Rattle.rv_machine.specs.Machine.{machine_setting, state_of};
ghost use Rattle.stack_tables.specs.Tables.{IsStackClaim, claim_stacks, claim_values};
ghost use Rattle.tidy_runs.specs.Looking.{IsBroken, active_now};

use crate::activations::{Activation, Broken, function_at};
use crate::looking::{Looked, look};
use elf_image::ImageView;
use flat_memory::{Memory, PageMemory, load_pages};
use rv_machine::{Code, Machine, Places, decode_code};
use scale_base::{NoMemory, RETURN_LIMIT, STACK_POINTER};
use stack_tables::StackClaim;
use std::alloc::Global;

/// How far a run is tidy: so many steps of it are. All are where it has ended then. Otherwise the next step may change a word that is kept, or as many steps
/// were looked at as were to be, or more than 131,072 calls are open, or an instruction isn't known beforehand.
#[derive(Clone, Copy)]
pub struct TidyRun {
    pub steps: u64,
    pub has_ended: bool,
    pub broken: Option<Broken>,
}

// How far the machine's run is tidy, of at most so many steps, with its code and the function that runs.
fn look_along<M: Memory>(
    claim: &StackClaim<'_>,
    machine: &mut Machine<M>,
    code: &Code,
    active: &mut Vec<Activation>,
    most: u64,
) -> TidyRun
    requires claim { IsStackClaim claim.now }
    requires code { IsDecodedCode (M.layout machine.old.memory) (M.bytes machine.old.memory) code.now }
    requires active { active_now active.old.items ≡ begun_at (claim_values claim.now) (state_of M.bytes machine.old) ∷ [] }
    ensures tidy { let env = machine_setting M.layout machine.old in let s = state_of M.bytes machine.old in
        IsTidy (claim_values claim.now) (claim_stacks claim.now) env s result.steps }
    ensures ended { let env = machine_setting M.layout machine.old in let s = state_of M.bytes machine.old in
        result.has_ended ≡ true → (n : ℕ) → IsTidy (claim_values claim.now) (claim_stacks claim.now) env s n }
    ensures broken { let env = machine_setting M.layout machine.old in let s = state_of M.bytes machine.old in
        IfSome result.broken (IsBroken (claim_stacks claim.now) (run env s result.steps).state.pc) }
    ensures few { result.steps ≤ most }
{
    for steps in 0..most {
        match look(claim, machine, code, active) {
            Looked::GoesOn => {}
            Looked::Ended => {
                return TidyRun {
                    steps: steps + 1,
                    has_ended: true,
                    broken: None,
                };
            }
            Looked::Broke(broken) => {
                return TidyRun {
                    steps,
                    has_ended: false,
                    broken: Some(broken),
                };
            }
            Looked::Lost => {
                return TidyRun {
                    steps,
                    has_ended: false,
                    broken: None,
                };
            }
        }
    }
    TidyRun {
        steps: most,
        has_ended: false,
        broken: None,
    }
}

// The machine of an image without a keyed segment before its first step, at the only level, and its code.
fn machine_of(
    alloc: Global,
    view: &ImageView<'_>,
    input: &[u8],
) -> Result<Machine<PageMemory>, NoMemory>
    requires { view.now.keyed_segment ≡ None }
    ensures state { IfOk result (λ m. state_of page_bytes m ≡ start_of view.now 1) }
    ensures setting { IfOk result (λ m. machine_setting page_layout m ≡ setting_of view.now 1 input.now) }
{
    let memory = load_pages(alloc, view)?;
    let input = Vec::from_slice(alloc, input)?;
    Machine::start(alloc, memory, view.entry(), 1, 0, input)
}

/// How far the run of a claim's image on an input is tidy, of at most so many steps, by the tables of the claim. That doesn't depend on how many levels a
/// machine has. All the memory that the run needs is taken before its first step, but for that of the list of functions that wait.
pub fn look_at_run(
    alloc: Global,
    claim: &StackClaim<'_>,
    input: &[u8],
    most: u64,
) -> Result<TidyRun, NoMemory>
    requires claim { IsStackClaim claim.now }
    requires plain { claim.now.view.now.keyed_segment ≡ None }
    ensures tidy { (levels : ℕ) → IfOk result (λ r. IsTidy (claim_values claim.now) (claim_stacks claim.now)
        (setting_of claim.now.view.now levels input.now) (start_of claim.now.view.now levels) r.steps) }
    ensures ended { (levels n : ℕ) → IfOk result (λ r. r.has_ended ≡ true → IsTidy (claim_values claim.now) (claim_stacks claim.now)
        (setting_of claim.now.view.now levels input.now) (start_of claim.now.view.now levels) n) }
    ensures broken { (levels : ℕ) → IfOk result (λ r. IfSome r.broken (IsBroken (claim_stacks claim.now)
        (run_of claim.now.view.now levels input.now r.steps).state.pc)) }
    ensures few { IfOk result (λ r. r.steps ≤ most) }
{
    let view = claim.view;
    let mut machine = machine_of(alloc, view, input)?;
    let places = Places {
        text: view.text(),
        keyed: None,
    };
    let code = decode_code(alloc, &machine.memory, &places)?;
    let mut active = Vec::with_capacity(alloc, RETURN_LIMIT + 1)?;
    active.push(Activation {
        function: function_at(claim, machine.pc),
        stack: STACK_POINTER,
    })?;
    Ok(look_along(claim, &mut machine, &code, &mut active, most))
}
