//! The runs of an image on inputs.

ghost use Rattle.std.specs.Prelude.{◌≡◌, ◌<◌, None, length};
ghost use Rattle.scale_base.specs.Run.{starting_level};

use crate::counter::{LoopPlace, LoopTurns, TurnCounter};
use elf_image::ImageView;
use power_model::{Costs, Level, Levels, PairTable, Power, RunReport};
use run_progress::{Part, Progress};
use scale_base::{End, NoMemory, Trap};
use speed_sim::{ImageRun, watched_with_progress};
use std::alloc::Global;

/// A run has no more steps.
const MOST_STEPS: u64 = 10_000_000;

/// How a run ended: by an exit; or, before an instruction, by a trap or as many steps as may be. A run is lost where a return doesn't go back to its call,
/// or more than 131,072 calls are open.
#[derive(Clone, Copy)]
pub enum Ending {
    Exited,
    Trapped { trap: Trap, at: u32 },
    OutOfSteps { at: u32 },
    Lost,
}

/// How often each loop turned in the runs, up to where these ended, and how they did, by input.
#[derive(Drop)]
pub struct Turns {
    pub loops: Vec<LoopTurns>,
    pub endings: Vec<Ending>,
}

// A machine on which each instruction takes a cycle: costs don't matter here.
fn plain_machine() -> Power
    ensures { length result.levels ≡ 1 }
{
    let mut levels = Levels::new();
    levels.push(Level {
        period: 1,
        energy: 1,
    });
    Power {
        levels,
        costs: Costs {
            alu: 1,
            load: 1,
            store: 1,
            taken: 1,
            untaken: 1,
            jump: 1,
            mul: 1,
            div: 1,
            ecall: 1,
            fence: 1,
        },
        switch_time: PairTable::uniform(0),
        switch_energy: PairTable::uniform(0),
        deadline: 1,
        min_gain: 0,
        steps: MOST_STEPS,
    }
}

// How a run ended that a counter saw.
fn ending_of(report: &RunReport, counter: &TurnCounter<'_>) -> Ending {
    if counter.is_lost() {
        return Ending::Lost;
    }
    match report.end {
        End::Exited(_) => Ending::Exited,
        End::Trapped(trap) => Ending::Trapped {
            trap,
            at: counter.at(),
        },
        End::OutOfSteps => Ending::OutOfSteps { at: counter.at() },
    }
}

// Counts in the run on an input.
fn count_run<P: Progress>(
    alloc: Global,
    given: &ImageRun<'_>,
    input: &[u8],
    counter: &mut TurnCounter<'_>,
    progress: &mut P,
) -> Result<Ending, NoMemory>
    requires start { given.now.start ≡ starting_level (length given.now.power.now.levels) given.now.view.now.keyed_segment }
    requires is_level { given.now.start < length given.now.power.now.levels }
{
    counter.begin(given.view.entry());
    let report = watched_with_progress(alloc, given, input, counter, progress)?;
    counter.end();
    Ok(ending_of(&report, counter))
}

/// The turns of an image's loops, which ascend by their headers, in its runs on inputs, each of at most 10,000,000 steps. A return goes on from its call; a call is no
/// turn. An entry that a run ends in has the turns that it took till then. How far it is is told.
pub fn count_turns<P: Progress>(
    alloc: Global,
    view: &ImageView<'_>,
    loops: &[LoopPlace<'_>],
    inputs: &[Vec<u8>],
    progress: &mut P,
) -> Result<Turns, NoMemory>
    requires { view.now.keyed_segment ≡ None }
{
    let power = plain_machine();
    let given = ImageRun {
        view,
        power: &power,
        start: 0,
    };
    let mut counter = TurnCounter::new(alloc, loops)?;
    let mut endings = Vec::new(alloc);
    progress.begin(Part::Input, inputs.len());
    for input in inputs {
        progress.next(Part::Input);
        endings.push(count_run(alloc, &given, input, &mut counter, progress)?)?;
    }
    Ok(Turns {
        loops: counter.into_turns(),
        endings,
    })
}
