//! The prices of runs, and the level that they start at.

ghost use Rattle.std.specs.Prelude.{◌≡◌, ◌≤◌, ◌<◌, ◌^◌, [], ◌∷◌, length};

use power_model::{Costs, Level, Levels, Meter, PairTable, Power, slowest};
use scale_base::{Class, Move, Stepped};

// Three levels of 4, 2 and 1 time units and 1, 3 and 8 energy units per cycle.
fn three_levels() -> Levels
    ensures { result ≡ record { period = 4; energy = 1 } ∷ record { period = 2; energy = 3 } ∷ record { period = 1; energy = 8 } ∷ [] }
{
    let mut levels = Levels::new();
    levels.push(Level {
        period: 4,
        energy: 1,
    });
    levels.push(Level {
        period: 2,
        energy: 3,
    });
    levels.push(Level {
        period: 1,
        energy: 8,
    });
    levels
}

fn machine(deadline: u64) -> Power
    requires from { 1 ≤ deadline }
    requires to { deadline < 2 ^ 63 }
    ensures { length result.levels ≡ 3 }
{
    Power {
        levels: three_levels(),
        costs: Costs {
            alu: 1,
            load: 2,
            store: 1,
            taken: 2,
            untaken: 1,
            jump: 2,
            mul: 3,
            div: 10,
            ecall: 5,
            fence: 1,
        },
        switch_time: PairTable {
            rows: [
                [0, 4, 14, 0, 0, 0, 0, 0],
                [4, 0, 10, 0, 0, 0, 0, 0],
                [14, 10, 0, 0, 0, 0, 0, 0],
                [0; 8],
                [0; 8],
                [0; 8],
                [0; 8],
                [0; 8],
            ],
        },
        switch_energy: PairTable::uniform(20),
        deadline,
        min_gain: 20,
        steps: 1_000_000,
    }
}

fn step(class: Class, keyed: bool, port: Option<u8>) -> Stepped
    ensures { result.port ≡ port }
{
    Stepped {
        pc: 0x10000,
        next: 0x10004,
        class,
        moved: Move::Local,
        keyed,
        port,
    }
}

// A division of 10 cycles at level 2, a store of 1 cycle that changes to level 0, a load of 2 cycles there, and a store that
// changes to level 1: 10 + (1 + 14) + 8 + (4 + 4) time units, and 80 + (8 + 20) + 2 + (1 + 20) energy units.
#[test]
fn prices_at_the_level_before(rt: HostRuntime) {
    let power = machine(28);
    let mut meter = Meter::new(2);
    meter.add(&power, &step(Class::Div, false, None));
    meter.add(&power, &step(Class::Store, true, Some(0)));
    meter.add(&power, &step(Class::Load, true, None));
    meter.add(&power, &step(Class::Store, false, Some(1)));
    let counted = [meter.steps, meter.cycles, meter.switches, meter.keyed];
    assert_eq!(rt; (counted, meter.level), ([4, 14, 2, 3], 1));
    let paid = [meter.time, meter.energy, meter.held(&power)];
    assert_eq!(rt; paid, [41, 131, 112]);
}

#[test]
fn same_number_for_each_change(rt: HostRuntime) {
    let table = PairTable::uniform(20);
    for i in 0..8u8 {
        for l in 0..8u8 {
            assert_eq!(rt;
                table.at(i, l),
                if i == l { 0 } else { 20 },
                "from {i} to {l}"
            );
        }
    }
}

/// Deadlines, and the levels that runs of 7 cycles start at.
static STARTS: [(u64, Option<u8>); 6] = [
    (28, Some(0)),
    (27, Some(1)),
    (14, Some(1)),
    (13, Some(2)),
    (7, Some(2)),
    (6, None),
];

#[test]
fn starts_at_the_slowest_level_in_time(rt: HostRuntime) {
    for (deadline, start) in &STARTS {
        if *deadline >= 1 && *deadline < 1 << 63 {
            let power = machine(*deadline);
            assert_eq!(rt; slowest(&power, 7), *start, "deadline {deadline}");
        }
    }
}
