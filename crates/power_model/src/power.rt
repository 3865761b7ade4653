//! The machine: its levels, its costs, and the starting level.

ghost use Rattle.std.specs.Prelude.{◌≡◌, ◌≤◌, ◌<◌, ◌↔◌, [], ◌∷◌, ◌++◌, length, IfSome, IsNone, OnSome, MatchBool};
ghost use Rattle.power_model.specs.Levels.{level, AreRanked};
ghost use Rattle.power_model.specs.Pairs.{pair_at, pairs_by, uniform};
ghost use Rattle.power_model.specs.Price.{cycles_of, switch_time, switch_energy};
ghost use Rattle.power_model.specs.Slowest.{IsSlowest, IsTooSlow, IsInTime, fastest, slowest_of};

use scale_base::Class;
use std::marker::Model;

/// One speed of the processor.
#[derive(Clone, Copy, PartialEq, Eq)]
pub struct Level {
    /// Time units per cycle.
    pub period: u32,
    /// Energy units per cycle.
    pub energy: u32,
}

/// The levels of a machine, the slowest first: `len` of them, and behind them zeros.
#[derive(Drop)]
pub struct Levels {
    pub items: [Level; 8],
    pub len: u8,
}

impl Model for Levels {
    ghost use Rattle.std.specs.Prelude.{◌≡◌, ℕ, ◌≤◌, List, length, take};
    ghost use Rattle.power_model.specs.declared.power.Level.{Level};
    ghost use Rattle.power_model.specs.Levels.{level, no_level};

    ghost Value = { List Level };

    ghost view = { λ l. take l.len l.items };

    ghost invariant = { λ l. (l.len ≤ 8) × (length l.items ≡ 8) × ((i : ℕ) → l.len ≤ i → level l.items i ≡ no_level) };
}

impl Levels {
    /// No levels.
    pub fn new() -> Levels
        ensures { result ≡ [] }
    {
        Levels {
            items: [Level {
                period: 0,
                energy: 0,
            }; 8],
            len: 0,
        }
    }

    /// One more level, which is the fastest now.
    pub fn push(&mut self, level: Level)
        requires { length self.old < 8 }
        ensures { self.new ≡ self.old ++ level ∷ [] }
    {
        self.items[usize::from(self.len)] = level;
        self.len += 1;
    }

    pub fn count(&self) -> u8
        ensures count { result ≡ length self.now }
        ensures few { result ≤ 8 }
    {
        self.len
    }

    /// The level of a number.
    pub fn get(&self, k: u8) -> Level
        requires { k < length self.now }
        ensures { result ≡ level self.now k }
    {
        self.items[usize::from(k)]
    }
}

/// The cycles of each class of instruction.
#[derive(Clone, Copy, PartialEq, Eq)]
pub struct Costs {
    pub alu: u16,
    pub load: u16,
    pub store: u16,
    pub taken: u16,
    pub untaken: u16,
    pub jump: u16,
    pub mul: u16,
    pub div: u16,
    pub ecall: u16,
    pub fence: u16,
}

impl Costs {
    /// The cycles of a class.
    pub fn of(&self, class: Class) -> u16
        ensures { result ≡ cycles_of self.now class }
    {
        match class {
            Class::Alu => self.alu,
            Class::Load => self.load,
            Class::Store => self.store,
            Class::Taken => self.taken,
            Class::Untaken => self.untaken,
            Class::Jump => self.jump,
            Class::Mul => self.mul,
            Class::Div => self.div,
            Class::Ecall => self.ecall,
            Class::Fence => self.fence,
        }
    }
}

/// A number for each pair of levels: row i has that of a change from level i, its column l that of one to level l.
#[derive(Clone, Copy, PartialEq, Eq)]
pub struct PairTable {
    pub rows: [[u32; 8]; 8],
}

impl PairTable {
    /// The same number for each change of level, and 0 where the level stays.
    pub fn uniform(n: u32) -> PairTable
        ensures { result ≡ uniform n }
    {
        PairTable {
            rows: [
                [0, n, n, n, n, n, n, n],
                [n, 0, n, n, n, n, n, n],
                [n, n, 0, n, n, n, n, n],
                [n, n, n, 0, n, n, n, n],
                [n, n, n, n, 0, n, n, n],
                [n, n, n, n, n, 0, n, n],
                [n, n, n, n, n, n, 0, n],
                [n, n, n, n, n, n, n, 0],
            ],
        }
    }

    /// The number of a pair.
    pub fn at(&self, from: u8, to: u8) -> u32
        requires from { from < 8 }
        requires to { to < 8 }
        ensures { result ≡ pair_at self.now from to }
    {
        self.rows[usize::from(from)][usize::from(to)]
    }
}

/// A machine: its speeds, its costs, and what is asked of a job.
#[derive(Drop)]
pub struct Power {
    pub levels: Levels,
    pub costs: Costs,
    /// Time units of a change from one level to another.
    pub switch_time: PairTable,
    /// Energy units of a change from one level to another.
    pub switch_energy: PairTable,
    /// Time units that a job may take.
    pub deadline: u64,
    /// Cycles of slack from which on an edge gets a switch.
    pub min_gain: u32,
    /// The most steps of a simulated run.
    pub steps: u64,
}

impl Model for Power {
    ghost use Rattle.power_model.specs.Numbers.{PowerModel};

    ghost Value = { PowerModel };

    ghost use Rattle.power_model.specs.Inside.{power_model, power_invariant};

    ghost view = { power_model };

    ghost invariant = { power_invariant };
}

impl Power {
    /// The time units of a change from one level to another: 0 where they are the same.
    pub fn switch_time_of(&self, from: u8, to: u8) -> u32
        requires from { from < 8 }
        requires to { to < 8 }
        ensures { result ≡ switch_time self.now from to }
    {
        if from == to {
            0
        } else {
            self.switch_time.at(from, to)
        }
    }

    /// The energy units of a change from one level to another: 0 where they are the same.
    pub fn switch_energy_of(&self, from: u8, to: u8) -> u32
        requires from { from < 8 }
        requires to { to < 8 }
        ensures { result ≡ switch_energy self.now from to }
    {
        if from == to {
            0
        } else {
            self.switch_energy.at(from, to)
        }
    }
}

/// The slowest level at which a job of at most so many cycles meets the deadline; None exactly where even the fastest level is
/// too slow. The choice of one speed for a whole job, from which intra-task scheduling starts (Shin, Kim and Lee, 2001).
pub fn slowest(power: &Power, worst: u64) -> Option<u8>
    ensures slowest { IfSome result (IsSlowest power.now worst) }
    ensures none { IsNone result ↔ IsTooSlow power.now worst (fastest power.now) }
    ensures some { OnSome result (IsInTime power.now worst (fastest power.now)) }
    ensures chosen { result ≡ slowest_of power.now worst }
{
    for i in 0..power.levels.count() {
        if is_in_time(power, worst, i) {
            return Some(i);
        }
    }
    None
}

fn is_in_time(power: &Power, worst: u64, i: u8) -> bool
    requires { i < length power.now.levels }
    ensures in_time { MatchBool result (IsInTime power.now worst i) (IsTooSlow power.now worst i) }
    ensures ranked { AreRanked power.now.levels }
{
    u128::from(worst) * u128::from(power.levels.get(i).period) <= u128::from(power.deadline)
}
