//! What is read of machine files. Why they are refused is data, `machine-files.txt` of the first program's `cases`.

use machine_file::read_machine;
use power_model::{Level, Power};
use std::alloc::Global;
use std::process::Abort;
use std::test::Fail;

const TOP: &str =
    "version = 1\ndeadline = 28\nsteps = 1000000\nmin_gain = 20\nswitch_time = 10\nswitch_energy = 20\n";

const COST: &str =
    "\n[cost]\nalu = 1\nload = 2\nstore = 1\ntaken = 2\nuntaken = 1\njump = 2\nmul = 3\ndiv = 10\necall = 5\nfence = 1\n";

const LEVELS: &str =
    "\n[[level]]\nperiod = 4\nenergy = 1\n[[level]]\nperiod = 2\nenergy = 3\n[[level]]\nperiod = 1\nenergy = 8\n";

const PAIRS_TOP: &str =
    "version = 2\ndeadline = 28\nsteps = 1000000\nmin_gain = 20\nswitch_time = [[0, 4, 14], [4, 0, 10], [14, 10, 0]]\nswitch_energy = [[0, 20, 20], [20, 0, 20], [20, 20, 0]]\n";

/// The machine of a file with this top.
fn power_of(alloc: Global, top: &str) -> Result<Power, Fail> {
    let text = format!(in alloc; "{top}{COST}{LEVELS}")?;
    match read_machine(alloc, text.as_bytes()) {
        Ok(power) => Ok(power),
        Err(_) => Err("refused".into()),
    }
}

#[test]
fn reads_costs_and_levels(rt: HostRuntime) -> Result<(), Fail> {
    let power = power_of(rt.alloc(), TOP)?;
    assert_eq!(rt;
        (power.deadline, power.steps, power.min_gain, power.costs.div),
        (28, 1_000_000, 20, 10)
    );
    assert_eq!(rt; power.levels.count(), 3);
    assert!(rt;
        power.levels.get(1)
            == Level {
                period: 2,
                energy: 3
            }
    );
    Ok(())
}

/// Two levels, and the time and the energy of the switch from the one to the other.
type Switch = (u8, u8, u32, u32);

static SWITCHES: [Switch; 3] = [(0, 7, 10, 20), (2, 1, 10, 20), (1, 1, 0, 0)];

static PAIR_SWITCHES: [Switch; 8] = [
    (0, 1, 4, 20),
    (0, 2, 14, 20),
    (1, 2, 10, 20),
    (2, 1, 10, 20),
    (1, 1, 0, 0),
    (1, 3, 0, 0),
    (3, 1, 0, 0),
    (7, 7, 0, 0),
];

fn expect_switches(rt: &impl Abort, power: &Power, switches: &[Switch]) {
    for (from, to, time, energy) in switches {
        if *from < 8 && *to < 8 {
            let found = (
                power.switch_time.at(*from, *to),
                power.switch_energy.at(*from, *to),
            );
            assert_eq!(rt; found, (*time, *energy), "from {from} to {to}");
        }
    }
}

#[test]
fn reads_costs_of_switches(rt: HostRuntime) -> Result<(), Fail> {
    let power = power_of(rt.alloc(), TOP)?;
    expect_switches(&rt, &power, &SWITCHES);
    let power = power_of(rt.alloc(), PAIRS_TOP)?;
    expect_switches(&rt, &power, &PAIR_SWITCHES);
    Ok(())
}
