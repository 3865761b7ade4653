//! What the steps of a run cost.

ghost use Rattle.std.specs.Prelude.{◌≡◌, ◌+◌, ◌*◌, ◌≤◌, ◌<◌, ◌^◌, length};
ghost use Rattle.std.specs.Option.{ForSome};
ghost use Rattle.power_model.specs.Price.{metered, unstarted, held_energy};

use crate::power::Power;
use scale_base::Stepped;
use std::marker::Model;

/// What the steps of a run cost so far.
#[derive(Drop)]
pub struct Meter {
    /// The level at the start.
    pub start: u8,
    /// The level now.
    pub level: u8,
    pub steps: u64,
    pub cycles: u64,
    /// Time units.
    pub time: u128,
    /// Energy units.
    pub energy: u128,
    /// Changes of the level.
    pub switches: u64,
    /// The cycles of instructions that were fetched from the keyed segment.
    pub keyed: u64,
}

impl Model for Meter {
    ghost use Rattle.power_model.specs.Numbers.{RunPrice};

    ghost Value = { RunPrice };

    ghost use Rattle.power_model.specs.MeterInside.{numbers, meter_invariant};

    ghost view = { numbers };

    ghost invariant = { meter_invariant };
}

impl Meter {
    /// A meter before the first step, at a level.
    pub fn new(start: u8) -> Meter
        ensures { result ≡ unstarted start }
    {
        Meter {
            start,
            level: start,
            steps: 0,
            cycles: 0,
            time: 0,
            energy: 0,
            switches: 0,
            keyed: 0,
        }
    }

    /// Adds the price of a completed step.
    pub fn add(&mut self, power: &Power, step: &Stepped)
        requires few { self.old.steps < 2 ^ 40 }
        requires at_level { self.old.level < length power.now.levels }
        requires to_level { ForSome step.now.port (λ l. l < length power.now.levels) }
        ensures { self.new ≡ metered power.now self.old step.now }
    {
        let cost = power.costs.of(step.class);
        let level = power.levels.get(self.level);
        let after = step.port.unwrap_or(self.level);
        let changed = after != self.level;
        self.steps += 1;
        self.cycles += u64::from(cost);
        let switch_time = power.switch_time_of(self.level, after);
        let switch_energy = power.switch_energy_of(self.level, after);
        self.time += u128::from(step_price(cost, level.period, switch_time));
        self.energy += u128::from(step_price(cost, level.energy, switch_energy));
        self.switches += u64::from(changed);
        self.keyed += if step.keyed { u64::from(cost) } else { 0 };
        self.level = after;
    }

    /// What the cycles so far would have cost at the starting level.
    pub fn held(&self, power: &Power) -> u128
        requires { self.now.start < length power.now.levels }
        ensures { result ≡ held_energy power.now self.now }
    {
        u128::from(self.cycles) * u128::from(power.levels.get(self.start).energy)
    }
}

// The time or the energy of a step, with that of a change of level.
fn step_price(cost: u16, rate: u32, switch: u32) -> u64
    ensures price { result ≡ cost * rate + switch }
    ensures small { result ≤ 2 ^ 49 }
{
    u64::from(cost) * u64::from(rate) + u64::from(switch)
}
