//! The price of a run, kept so that most steps only add up cycles.

ghost use Rattle.std.specs.Prelude.{◌≤◌, ◌*◌};

use crate::costs::Prices;
use power_model::{Meter, Power};
use rv_machine::{Decoded, Effect};
use scale_base::{StepEnd, Stepped};

/// The price of a run so far. Of the steps behind the last change of the level it keeps the cycles, which are priced at once.
#[derive(Drop)]
pub struct Tally {
    /// The price up to the last change of the level.
    pub meter: Meter,
    /// The steps behind it.
    pub steps: u64,
    pub cycles: u64,
    /// The cycles of instructions that were fetched from the keyed segment.
    pub keyed: u64,
    ghost cycles_bound: { cycles ≤ 65535 * steps },
    ghost keyed_bound: { keyed ≤ 65535 * steps },
}

/// What an instruction at an address did, and the address after it.
#[derive(Clone, Copy)]
pub struct Performed {
    pub pc: u32,
    pub effect: Effect,
    pub next: u32,
}

impl Tally {
    ghost use Rattle.std.specs.Prelude.{◌≡◌, ◌≤◌, ◌<◌, ◌+◌, ◌^◌, length, None};
    ghost use Rattle.std.specs.Option.{ForSome};
    ghost use Rattle.scale_base.specs.Step.{PortBelow};
    ghost use Rattle.scale_base.specs.declared.stepping.Stepped.{Stepped};
    ghost use Rattle.power_model.specs.Numbers.{PowerModel};
    ghost use Rattle.power_model.specs.Price.{metered, unstarted, step_cycles};
    ghost use Rattle.rv_machine.specs.Decoded.{decoded_end};
    ghost use Rattle.speed_sim.specs.Tallied.{tallied, AreCosts, IsPaid};

    /// The price before the first step, at a level.
    pub fn new(start: u8) -> Tally
        ensures { (power : PowerModel) → tallied power result ≡ unstarted start }
    {
        Tally {
            meter: Meter::new(start),
            steps: 0,
            cycles: 0,
            keyed: 0,
        }
    }

    /// Adds a step of so many cycles that stores nothing at the speed port.
    #[inline(always)]
    pub fn add(&mut self, cost: u16, keyed: bool)
        requires { self.old.steps < 2 ^ 40 }
        ensures { (power : PowerModel) (x : Stepped) → x.port ≡ None → cost ≡ step_cycles power x → keyed ≡ x.keyed →
            tallied power self.new ≡ metered power (tallied power self.old) x }
    {
        self.steps += 1;
        self.cycles += u64::from(cost);
        self.keyed += if keyed { u64::from(cost) } else { 0 };
    }

    /// The price as a meter has it.
    #[inline(never)]
    pub fn meter(&self, power: &Power) -> Meter
        requires level { self.now.meter.level < length power.now.levels }
        requires few { self.now.meter.steps + self.now.steps ≤ 2 ^ 40 }
        ensures { result ≡ tallied power.now self.now }
    {
        let level = power.levels.get(self.meter.level);
        Meter {
            start: self.meter.start,
            level: self.meter.level,
            steps: self.meter.steps + self.steps,
            cycles: self.meter.cycles + self.cycles,
            time: self.meter.time + u128::from(self.cycles) * u128::from(level.period),
            energy: self.meter.energy + u128::from(self.cycles) * u128::from(level.energy),
            switches: self.meter.switches,
            keyed: self.meter.keyed + self.keyed,
        }
    }

    /// Adds any completed step.
    #[inline(never)]
    fn add_step(&mut self, power: &Power, step: &Stepped)
        requires level { self.old.meter.level < length power.now.levels }
        requires few { self.old.meter.steps + self.old.steps < 2 ^ 40 }
        requires to_level { ForSome step.now.port (λ l. l < length power.now.levels) }
        ensures { tallied power.now self.new ≡ metered power.now (tallied power.now self.old) step.now }
    {
        let mut meter = self.meter(power);
        meter.add(power, step);
        *self = Tally {
            meter,
            steps: 0,
            cycles: 0,
            keyed: 0,
        };
    }

    /// Adds the step that ended so, if it was completed.
    #[inline(never)]
    pub fn add_end(&mut self, power: &Power, end: &StepEnd)
        requires level { self.old.meter.level < length power.now.levels }
        requires few { self.old.meter.steps + self.old.steps < 2 ^ 40 }
        requires to_level { PortBelow end.now (length power.now.levels) }
        ensures { IsPaid power.now end.now (tallied power.now self.old) (tallied power.now self.new) }
    {
        match end {
            StepEnd::Went(done) => self.add_step(power, done),
            StepEnd::Exited(done, _) => self.add_step(power, done),
            StepEnd::Trapped(_) => {}
        }
    }

    /// The same for a known instruction, by what it did.
    #[inline(always)]
    pub fn add_effect(&mut self, prices: &Prices<'_>, known: &Decoded, done: &Performed)
        requires costs { AreCosts prices.now.power.now.costs prices.now.costs.by_class }
        requires level { self.old.meter.level < length prices.now.power.now.levels }
        requires few { self.old.meter.steps + self.old.steps < 2 ^ 40 }
        requires to_level { PortBelow (decoded_end known.now done.now.pc done.now.effect done.now.next)
            (length prices.now.power.now.levels) }
        ensures { IsPaid prices.now.power.now (decoded_end known.now done.now.pc done.now.effect done.now.next)
            (tallied prices.now.power.now self.old) (tallied prices.now.power.now self.new) }
    {
        match done.effect {
            Effect::Went => self.add(prices.costs.of(known.untaken), known.keyed),
            Effect::Branched => self.add(prices.costs.of(known.taken), known.keyed),
            _ => self.add_end(prices.power, &known.end(done.pc, done.effect, done.next)),
        }
    }
}
