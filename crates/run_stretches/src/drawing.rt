//! The bars of a run.

ghost use Rattle.std.specs.Prelude.{◌≡◌, ◌<◌, length, IfOk};
ghost use Rattle.scale_base.specs.Run.{starting_level};
ghost use Rattle.power_model.specs.Numbers.{IsPowerModel};
ghost use Rattle.run_stretches.specs.Stretches.{IsRunDrawn};

use crate::bars::BarEnd;
use crate::recording::Recorder;
use power_model::RunReport;
use run_progress::Progress;
use scale_base::NoMemory;
use speed_sim::{ImageRun, watched_with_progress};
use std::alloc::Global;

/// A run: its report, and its bars.
#[derive(Drop)]
pub struct RunBars {
    pub report: RunReport,
    pub bars: Vec<BarEnd>,
}

/// The run of an image with an input: its report, and its stretches at one level as at most 512 bars. All the memory that the run needs
/// is taken before its first step. How far it is is told.
pub fn draw_run<P: Progress>(
    alloc: Global,
    given: &ImageRun<'_>,
    input: &[u8],
    progress: &mut P,
) -> Result<RunBars, NoMemory>
    requires start { given.now.start ≡ starting_level (length given.now.power.now.levels) given.now.view.now.keyed_segment }
    requires is_level { given.now.start < length given.now.power.now.levels }
    requires machine { IsPowerModel given.now.power.now }
    ensures { IfOk result (IsRunDrawn given.now.power.now given.now.view.now input.now) }
{
    let mut recorder = Recorder::new(alloc, given.power, given.start)?;
    let report = watched_with_progress(alloc, given, input, &mut recorder, progress)?;
    let bars = recorder.finish(&report.meter);
    Ok(RunBars { report, bars })
}
