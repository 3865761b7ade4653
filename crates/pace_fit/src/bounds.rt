//! The least energy of runs, whatever level each of their cycles is run at.

ghost use Rattle.std.specs.Prelude.{◌≡◌, ◌≤◌, ◌<◌, ◌^◌, ℕ, List, cond, length, sum_by};
ghost use Rattle.std.specs.List.{All, filter};
ghost use Rattle.power_model.specs.Numbers.{IsPowerModel};
ghost use Rattle.pace_fit.specs.Endings.{is_counted};
ghost use Rattle.pace_fit.specs.Least as bounds;

use crate::endings::{Ending, is_counted};
use power_model::{Level, Power};

/// What a cycle at a level takes where a unit of time costs a / b units of energy, times b.
fn rate(a: u32, b: u32, level: Level) -> u128
    ensures rate { result ≡ bounds.rate a b level }
    ensures small { result < 2 ^ 65 }
{
    u128::from(b) * u128::from(level.energy) + u128::from(a) * u128::from(level.period)
}

/// The least of the levels.
fn least_rate(power: &Power, a: u32, b: u32) -> u128
    requires { IsPowerModel power.now }
    ensures rate { result ≡ bounds.least_rate power.now.levels a b }
    ensures small { result < 2 ^ 65 }
{
    let mut least = rate(a, b, power.levels.get(0));
    for k in 0..power.levels.count() {
        least = least.min(rate(a, b, power.levels.get(k)));
    }
    least
}

/// The bound at that price.
fn bound_at(power: &Power, cycles: u64, a: u32, b: u32) -> u128
    requires power { IsPowerModel power.now }
    requires cycles { cycles ≤ 2 ^ 56 }
    requires positive { 1 ≤ b }
    ensures bound { result ≡ bounds.bound_at power.now cycles a b }
    ensures small { result ≤ 2 ^ 121 }
{
    let paid = u128::from(cycles) * least_rate(power, a, b);
    let deadline = u128::from(a) * u128::from(power.deadline);
    paid.saturating_sub(deadline) / u128::from(b)
}

/// The greatest bound at the prices of a level and each slower one.
fn bound_with(power: &Power, cycles: u64, j: u8) -> u128
    requires power { IsPowerModel power.now }
    requires cycles { cycles ≤ 2 ^ 56 }
    requires level { j < length power.now.levels }
    ensures bound { result ≡ bounds.bound_with power.now cycles j }
    ensures small { result ≤ 2 ^ 121 }
{
    let faster = power.levels.get(j);
    let mut most: u128 = 0;
    for i in 0..j {
        let slower = power.levels.get(i);
        let a = faster.energy - slower.energy;
        let b = slower.period - faster.period;
        most = most.max(bound_at(power, cycles, a, b));
    }
    most
}

/// The least energy of a run of so many cycles by the deadline: that of one who knows their number beforehand, runs each cycle at the
/// level that suits, and changes levels for nothing; rounded down, in energy units. No split of the cycles over the levels that is in time
/// takes less.
pub fn least_energy(power: &Power, cycles: u64) -> u128
    requires power { IsPowerModel power.now }
    requires cycles { cycles ≤ 2 ^ 56 }
    ensures least { (split : List ℕ) → bounds.IsSplit power.now cycles split → result ≤ bounds.split_energy power.now split }
    ensures exact { result ≡ bounds.least_energy power.now cycles }
    ensures small { result ≤ 2 ^ 121 }
{
    let mut most = bound_at(power, cycles, 0, 1);
    for j in 0..power.levels.count() {
        most = most.max(bound_with(power, cycles, j));
    }
    most
}

/// The least energy of a run that ends so, if its input counts.
fn least_of(power: &Power, ending: &Ending) -> u128
    requires power { IsPowerModel power.now }
    requires cycles { ending.now.cycles ≤ 2 ^ 56 }
    ensures least { result ≡ cond (is_counted ending.now) (bounds.least_energy power.now ending.now.cycles) 0 }
    ensures small { result ≤ 2 ^ 121 }
{
    if is_counted(ending) {
        least_energy(power, ending.cycles)
    } else {
        0
    }
}

/// The least energy of runs that end so, of those whose inputs count.
pub fn least_over(power: &Power, endings: &[Ending]) -> u128
    requires power { IsPowerModel power.now }
    requires few { length endings.now ≤ 64 }
    requires small { All (λ ending. ending.cycles ≤ 2 ^ 56) endings.now }
    ensures { result ≡ sum_by (λ ending. bounds.least_energy power.now ending.cycles) (filter is_counted endings.now) }
{
    let mut energy: u128 = 0;
    for ending in endings {
        energy += least_of(power, ending);
    }
    energy
}
