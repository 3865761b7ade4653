//! The run of a machine.

ghost use Rattle.std.specs.Prelude.{◌≡◌, ◌<◌, ◌+◌, ◌^◌, length};
ghost use Rattle.scale_base.specs.Step as steps;
ghost use Rattle.scale_base.specs.Step.{PortBelow};
ghost use Rattle.scale_base.specs.Run.{run};
ghost use Rattle.power_model.specs.Price.{price};
ghost use Rattle.rv_machine.specs.Code.{IsDecodedCode, IsFixed};
ghost use Rattle.rv_machine.specs.Machine.{state_of, machine_setting, outcome_of};
ghost use Rattle.speed_sim.specs.Simulated.{run_end};
ghost use Rattle.speed_sim.specs.Seen.{seen_after, seen_from};
ghost use Rattle.speed_sim.specs.Tallied.{tallied, AreCosts, IsPaid, IsAdvance, ended_by};

use crate::costs::Prices;
use crate::reporting::ImageRun;
use crate::tally::{Performed, Tally};
use crate::watcher::Watches;
use flat_memory::Memory;
use power_model::{Meter, Power};
use run_progress::Progress;
use rv_machine::{Code, Decoded, Machine, step, step_decoded};
use scale_base::{End, StepEnd};

/// So many steps are completed from one telling of them to the next: a power of two.
const TOLD_STEPS: u64 = 1_048_576;

/// One step of the machine, whose instruction is known, and its price.
#[inline(always)]
fn pay_known<M: Memory>(
    machine: &mut Machine<M>,
    known: &Decoded,
    prices: &Prices<'_>,
    tally: &mut Tally,
) -> StepEnd
    requires known { IsFixed (M.layout machine.old.memory) (M.bytes machine.old.memory) machine.old.pc known.now }
    requires costs { AreCosts prices.now.power.now.costs prices.now.costs.by_class }
    requires levels { machine.old.levels ≡ length prices.now.power.now.levels }
    requires level { tally.old.meter.level < length prices.now.power.now.levels }
    requires few { tally.old.meter.steps + tally.old.steps < 2 ^ 40 }
    ensures outcome { outcome_of M.bytes result machine.new ≡ steps.step (machine_setting M.layout machine.old)
        (state_of M.bytes machine.old) }
    ensures setting { machine_setting M.layout machine.new ≡ machine_setting M.layout machine.old }
    ensures port { PortBelow result machine.old.levels }
    ensures paid { IsPaid prices.now.power.now result (tallied prices.now.power.now tally.old) (tallied prices.now.power.now tally.new) }
{
    let pc = machine.pc;
    let effect = step_decoded(machine, known);
    let next = machine.pc;
    tally.add_effect(prices, known, &Performed { pc, effect, next });
    known.end(pc, effect, next)
}

/// One step of the machine, and its price.
#[inline(never)]
fn pay_step<M: Memory>(machine: &mut Machine<M>, power: &Power, tally: &mut Tally) -> StepEnd
    requires levels { machine.old.levels ≡ length power.now.levels }
    requires level { tally.old.meter.level < length power.now.levels }
    requires few { tally.old.meter.steps + tally.old.steps < 2 ^ 40 }
    ensures outcome { outcome_of M.bytes result machine.new ≡ steps.step (machine_setting M.layout machine.old)
        (state_of M.bytes machine.old) }
    ensures setting { machine_setting M.layout machine.new ≡ machine_setting M.layout machine.old }
    ensures port { PortBelow result machine.old.levels }
    ensures paid { IsPaid power.now result (tallied power.now tally.old) (tallied power.now tally.new) }
{
    let end = step(machine);
    tally.add_end(power, &end);
    end
}

/// Shows a completed step after which the run goes on to the watcher, and says how the run ended otherwise.
#[inline(always)]
fn seen<W: Watches>(watcher: &mut W, end: &StepEnd) -> Option<End>
    ensures watched { watcher.new ≡ seen_after W.watched end.now watcher.old }
    ensures ended { result ≡ ended_by end.now }
{
    match end {
        StepEnd::Went(done) => {
            watcher.show(done);
            None
        }
        StepEnd::Exited(_, status) => Some(End::Exited(*status)),
        StepEnd::Trapped(trap) => Some(End::Trapped(*trap)),
    }
}

/// One step of the machine whose instruction isn't known, priced and watched, and how the run ended, if the step ended it.
#[inline(always)]
fn advance_unknown<M: Memory, W: Watches>(
    machine: &mut Machine<M>,
    power: &Power,
    tally: &mut Tally,
    watcher: &mut W,
) -> Option<End>
    requires levels { machine.old.levels ≡ length power.now.levels }
    requires level { tally.old.meter.level < length power.now.levels }
    requires few { tally.old.meter.steps + tally.old.steps < 2 ^ 40 }
    ensures advance { let o = steps.step (machine_setting M.layout machine.old) (state_of M.bytes machine.old) in
        IsAdvance power.now W.watched o (state_of M.bytes machine.new) (tallied power.now tally.old) (tallied power.now tally.new)
        watcher.old watcher.new result }
    ensures setting { machine_setting M.layout machine.new ≡ machine_setting M.layout machine.old }
    ensures port { let o = steps.step (machine_setting M.layout machine.old) (state_of M.bytes machine.old) in
        PortBelow o.end machine.old.levels }
{
    let end = pay_step(machine, power, tally);
    seen(watcher, &end)
}

/// One step of the machine, with its code, priced and watched, and how the run ended, if the step ended it.
#[inline(always)]
fn advance<M: Memory, W: Watches>(
    machine: &mut Machine<M>,
    code: &Code,
    prices: &Prices<'_>,
    tally: &mut Tally,
    watcher: &mut W,
) -> Option<End>
    requires code { IsDecodedCode (M.layout machine.old.memory) (M.bytes machine.old.memory) code.now }
    requires costs { AreCosts prices.now.power.now.costs prices.now.costs.by_class }
    requires levels { machine.old.levels ≡ length prices.now.power.now.levels }
    requires level { tally.old.meter.level < length prices.now.power.now.levels }
    requires few { tally.old.meter.steps + tally.old.steps < 2 ^ 40 }
    ensures advance { let o = steps.step (machine_setting M.layout machine.old) (state_of M.bytes machine.old) in
        IsAdvance prices.now.power.now W.watched o (state_of M.bytes machine.new) (tallied prices.now.power.now tally.old)
        (tallied prices.now.power.now tally.new) watcher.old watcher.new result }
    ensures setting { machine_setting M.layout machine.new ≡ machine_setting M.layout machine.old }
    ensures port { let o = steps.step (machine_setting M.layout machine.old) (state_of M.bytes machine.old) in
        PortBelow o.end machine.old.levels }
{
    match code.instr(machine.pc) {
        Some(known) => seen(watcher, &pay_known(machine, known, prices, tally)),
        None => advance_unknown(machine, prices.power, tally, watcher),
    }
}

/// Tells now and then how many steps are completed.
#[inline(always)]
fn tell<P: Progress>(progress: &mut P, steps: u64) {
    if steps % TOLD_STEPS == 0 {
        progress.ran(steps);
    }
}

/// Runs the machine of an image, with its code, for at most as many steps as its power model says. A meter has the price of each completed step,
/// and the watcher sees each step after which the run goes on.
pub fn run_machine<M: Memory, W: Watches, P: Progress>(
    machine: &mut Machine<M>,
    code: &Code,
    given: &ImageRun<'_>,
    watcher: &mut W,
    progress: &mut P,
) -> (End, Meter)
    requires code { IsDecodedCode (M.layout machine.old.memory) (M.bytes machine.old.memory) code.now }
    requires levels { machine.old.levels ≡ length given.now.power.now.levels }
    requires start { given.now.start < length given.now.power.now.levels }
    ensures end { let r = run (machine_setting M.layout machine.old) (state_of M.bytes machine.old) given.now.power.now.steps in
        result.0 ≡ run_end r.standing }
    ensures paid { let r = run (machine_setting M.layout machine.old) (state_of M.bytes machine.old) given.now.power.now.steps in
        result.1 ≡ price given.now.power.now given.now.start r.steps }
    ensures state { let r = run (machine_setting M.layout machine.old) (state_of M.bytes machine.old) given.now.power.now.steps in
        state_of M.bytes machine.new ≡ r.state }
    ensures watched { let env = machine_setting M.layout machine.old in let first = state_of M.bytes machine.old in
        watcher.new ≡ seen_from env first W.watched watcher.old given.now.power.now.steps }
{
    let power = given.power;
    let prices = Prices::new(power);
    let mut tally = Tally::new(given.start);
    for step in 0..power.steps {
        tell(progress, step);
        if let Some(end) = advance(machine, code, &prices, &mut tally, watcher) {
            return (end, tally.meter(power));
        }
    }
    (End::OutOfSteps, tally.meter(power))
}
