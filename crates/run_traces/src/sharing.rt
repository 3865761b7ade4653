//! Runs that share so many steps.

ghost use Rattle.std.specs.Prelude.{◌≤◌, ◌^◌};

use elf_image::ImageView;
use keep_monitor::LoopCounter;
use power_model::{Power, RunReport};
use run_progress::Progress;
use scale_base::{End, Stop};
use speed_sim::{ImageRun, counted_report, report, start_of};
use std::alloc::Global;

/// How many steps a run on any machine takes at most.
const MOST_STEPS: u64 = 0x100_0000_0000;

/// A machine, how many steps its file allows a run, and how many are left for all runs to come.
#[derive(Drop)]
pub struct SharedSteps {
    power: Power,
    most: u64,
    left: u64,
}

/// How many steps the next run may take.
fn next_steps(most: u64, left: u64) -> u64
    ensures from { 1 ≤ result }
    ensures to { result ≤ 2 ^ 40 }
{
    let steps = if left < most { left } else { most };
    if steps == 0 {
        1
    } else if steps < MOST_STEPS {
        steps
    } else {
        MOST_STEPS
    }
}

impl SharedSteps {
    /// A machine whose runs share so many steps.
    pub fn new(power: Power, steps: u64) -> SharedSteps {
        let most = power.steps;
        SharedSteps {
            power,
            most,
            left: steps,
        }
    }

    /// The report of the run of an image on an input, if it exits within the steps that are left; with a counter it says whether the run keeps the counter's
    /// notes. How far the run is is told.
    pub fn exited<P: Progress>(
        &mut self,
        alloc: Global,
        view: &ImageView<'_>,
        input: &[u8],
        counter: Option<&mut LoopCounter>,
        progress: &mut P,
    ) -> Result<Option<RunReport>, Stop> {
        self.power.steps = next_steps(self.most, self.left);
        let power = &self.power;
        let levels = power.levels.count();
        if levels == 0 || self.left == 0 {
            return Ok(None);
        }
        let start = start_of(levels, view.keyed())?;
        let given = ImageRun { view, power, start };
        let run = match counter {
            Some(counter) => counted_report(alloc, &given, input, counter, progress)?,
            None => report(alloc, &given, input, None, progress)?,
        };
        self.left = self.left.saturating_sub(run.meter.steps);
        match run.end {
            End::Exited(_) => Ok(Some(run)),
            _ => Ok(None),
        }
    }
}
