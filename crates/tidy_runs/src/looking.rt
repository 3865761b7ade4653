//! One step of a run, and whether it is tidy.

ghost use Rattle.std.specs.Prelude.{◌≡◌, IfSome, None};
ghost use Rattle.scale_base.specs.declared.stepping.Move.TheVariants as moves;
ghost use Rattle.scale_base.specs.State.{Setting, State};
ghost use Rattle.scale_base.specs.Step as steps;
ghost use Rattle.scale_base.specs.Word.{FieldsInRange};
ghost use Rattle.stack_laws.specs.Tidy.{IsTidyStep};
ghost use Rattle.rv_machine.specs.Code.{IsDecodedCode, IsFixed};
ghost use Rattle.rv_machine.specs.Machine.{machine_setting, state_of};
ghost use Rattle.stack_tables.specs.Tables.{IsStackClaim, claim_stacks, claim_values};
ghost use Rattle.tidy_runs.specs.Looking.{IsArrival, IsBroken, IsLooked, IsMoved, active_now};

use crate::activations::{Activation, Broken, broken_by, function_at, is_doubtful_at};
use crate::writing::written_by;
use flat_memory::Memory;
use rv_machine::{Code, Decoded, Machine, step, step_decoded};
use scale_base::{Instr, Move, RETURN_LIMIT, StepEnd};
use stack_tables::StackClaim;

/// What a step came to: the run goes on, or has ended; a word that is kept may have been changed; or the run is followed no further.
#[derive(Clone, Copy)]
pub enum Looked {
    GoesOn,
    Ended,
    Broke(Broken),
    Lost,
}

// A word that an instruction may change, where it stands at a doubtful step.
fn broken_at(
    claim: &StackClaim<'_>,
    at: u32,
    regs: &[u32; 32],
    instr: &Instr,
    active: &[Activation],
) -> Option<Broken>
    requires claim { IsStackClaim claim.now }
    requires fields { FieldsInRange instr.now }
    ensures tidy { result ≡ None → (env : Setting) (s : State) → s.regs ≡ regs.now →
        IsTidyStep (claim_stacks claim.now) at (active_now active.now) s.bytes (steps.performs env s instr.now instr.now).state.bytes }
    ensures broken { IfSome result (IsBroken (claim_stacks claim.now) at) }
{
    let written = written_by(regs, instr)?;
    if is_doubtful_at(claim, at) {
        broken_by(claim, at, active, written)
    } else {
        None
    }
}

// Puts the function that begins where the machine stands on the list, where there is room.
fn begin<M: Memory>(
    claim: &StackClaim<'_>,
    machine: &Machine<M>,
    active: &mut Vec<Activation>,
) -> Looked
    requires { IsStackClaim claim.now }
    ensures { IsMoved (claim_values claim.now) (active_now active.old.items) moves.Call (state_of M.bytes machine.now)
        (active_now active.new.items) result }
{
    let activation = Activation {
        function: function_at(claim, machine.pc),
        stack: machine.regs[2],
    };
    if active.len() <= RETURN_LIMIT && active.push(activation).is_ok() {
        Looked::GoesOn
    } else {
        Looked::Lost
    }
}

// Moves the list along a step to where the machine stands.
fn move_along<M: Memory>(
    claim: &StackClaim<'_>,
    machine: &Machine<M>,
    moved: Move,
    active: &mut Vec<Activation>,
) -> Looked
    requires { IsStackClaim claim.now }
    ensures { IsMoved (claim_values claim.now) (active_now active.old.items) moved (state_of M.bytes machine.now)
        (active_now active.new.items) result }
{
    match moved {
        Move::Local => Looked::GoesOn,
        Move::Call => begin(claim, machine, active),
        Move::Return => {
            let _ = active.pop();
            Looked::GoesOn
        }
    }
}

// Moves the list along a step that ended so, where the machine stands.
fn arrive<M: Memory>(
    claim: &StackClaim<'_>,
    machine: &Machine<M>,
    end: &StepEnd,
    active: &mut Vec<Activation>,
) -> Looked
    requires { IsStackClaim claim.now }
    ensures { IsArrival (claim_values claim.now) (active_now active.old.items) end.now (state_of M.bytes machine.now)
        (active_now active.new.items) result }
{
    match end {
        StepEnd::Went(done) => move_along(claim, machine, done.moved, active),
        StepEnd::Exited(_, _) | StepEnd::Trapped(_) => Looked::Ended,
    }
}

// One step, whose instruction is known.
fn look_known<M: Memory>(
    claim: &StackClaim<'_>,
    machine: &mut Machine<M>,
    known: &Decoded,
    active: &mut Vec<Activation>,
) -> Looked
    requires claim { IsStackClaim claim.now }
    requires known { IsFixed (M.layout machine.old.memory) (M.bytes machine.old.memory) machine.old.pc known.now }
    ensures looked { let s = state_of M.bytes machine.old in let o = steps.step (machine_setting M.layout machine.old) s in
        IsLooked (claim_values claim.now) (claim_stacks claim.now) s (active_now active.old.items) o (state_of M.bytes machine.new)
        (active_now active.new.items) result }
    ensures setting { machine_setting M.layout machine.new ≡ machine_setting M.layout machine.old }
{
    let pc = machine.pc;
    if let Some(broken) = broken_at(claim, pc, &machine.regs, &known.instr, active) {
        return Looked::Broke(broken);
    }
    let effect = step_decoded(machine, known);
    let end = known.end(pc, effect, machine.pc);
    arrive(claim, machine, &end, active)
}

// One step, of whose instruction nothing is known: followed where it isn't doubtful.
fn look_unknown<M: Memory>(
    claim: &StackClaim<'_>,
    machine: &mut Machine<M>,
    active: &mut Vec<Activation>,
) -> Looked
    requires claim { IsStackClaim claim.now }
    ensures looked { let s = state_of M.bytes machine.old in let o = steps.step (machine_setting M.layout machine.old) s in
        IsLooked (claim_values claim.now) (claim_stacks claim.now) s (active_now active.old.items) o (state_of M.bytes machine.new)
        (active_now active.new.items) result }
    ensures setting { machine_setting M.layout machine.new ≡ machine_setting M.layout machine.old }
{
    if is_doubtful_at(claim, machine.pc) {
        return Looked::Lost;
    }
    let end = step(machine);
    arrive(claim, machine, &end, active)
}

/// One step of the machine of a claim's image, with its code, before which these functions run or wait. The machine and they are behind the step
/// where the run goes on.
pub fn look<M: Memory>(
    claim: &StackClaim<'_>,
    machine: &mut Machine<M>,
    code: &Code,
    active: &mut Vec<Activation>,
) -> Looked
    requires claim { IsStackClaim claim.now }
    requires code { IsDecodedCode (M.layout machine.old.memory) (M.bytes machine.old.memory) code.now }
    ensures looked { let s = state_of M.bytes machine.old in let o = steps.step (machine_setting M.layout machine.old) s in
        IsLooked (claim_values claim.now) (claim_stacks claim.now) s (active_now active.old.items) o (state_of M.bytes machine.new)
        (active_now active.new.items) result }
    ensures setting { machine_setting M.layout machine.new ≡ machine_setting M.layout machine.old }
{
    match code.instr(machine.pc) {
        Some(known) => look_known(claim, machine, known, active),
        None => look_unknown(claim, machine, active),
    }
}
