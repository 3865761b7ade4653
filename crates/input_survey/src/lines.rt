//! The runs of both images on an input.

ghost use Rattle.std.specs.Prelude.{◌≡◌, ◌<◌, ◌^◌, ◌↔◌, length, None, IsTrue, IfOk, OnOk};
ghost use Rattle.scale_base.specs.Run.{starting_level};
ghost use Rattle.keep_monitor.specs.Counted.{counted_run};
ghost use Rattle.power_model.specs.Price.{held_energy};
ghost use Rattle.power_model.specs.Survey.{line_view};
ghost use Rattle.input_survey.specs.Surveyed.{IsLine};

use elf_image::ImageView;
use keep_monitor::LoopCounter;
use power_model::{Meter, Power, RunReport, SurveyLine};
use run_progress::Progress;
use scale_base::NoMemory;
use speed_sim::{ImageRun, counted_report, report};
use std::alloc::Global;

/// Whether two runs have the same ending and the same output.
fn are_same(one: &RunReport, other: &RunReport) -> bool
    ensures { IsTrue result ↔ ((one.now.end ≡ other.now.end) × (one.now.output.items ≡ other.now.output.items)) }
{
    one.end == other.end && one.output.as_slice() == other.output.as_slice()
}

/// What the cycles of a run cost at its starting level.
fn held_of(power: &Power, meter: &Meter) -> u128
    requires { meter.now.start < length power.now.levels }
    ensures held { result ≡ held_energy power.now meter.now }
    ensures small { result < 2 ^ 100 }
{
    let energy = power.levels.get(meter.start).energy;
    u128::from(meter.cycles) * u128::from(energy)
}

/// The images of a survey on their machine: the original, without a keyed segment, and the scaled one, which starts at a level.
#[derive(Clone, Copy)]
pub struct Images<'a> {
    pub power: &'a Power,
    pub original: &'a ImageView<'a>,
    pub scaled: &'a ImageView<'a>,
    pub start: u8,
}

/// The runs of both images on an input, one after the other. The counter counts the loops of the original's.
pub fn line_of<P: Progress>(
    alloc: Global,
    images: &Images<'_>,
    input: &[u8],
    counter: &mut LoopCounter,
    progress: &mut P,
) -> Result<SurveyLine, NoMemory>
    requires unscaled { images.now.original.now.keyed_segment ≡ None }
    requires start { images.now.start ≡ starting_level (length images.now.power.now.levels) images.now.scaled.now.keyed_segment }
    requires is_level { images.now.start < length images.now.power.now.levels }
    ensures line { IfOk result (λ line. IsLine images.now.power.now images.now.original.now images.now.scaled.now counter.old.notes
        input.now (line_view line)) }
    ensures held { IfOk result (λ line. line.held < 2 ^ 100) }
    ensures counted { let power = images.now.power.now in
        OnOk result (counter.new
        ≡ counted_run images.now.original.now (length power.levels) input.now counter.old.notes counter.old.most power.steps) }
{
    let power = images.power;
    let fastest = ImageRun {
        view: images.original,
        power,
        start: power.levels.count() - 1,
    };
    let run = counted_report(alloc, &fastest, input, counter, progress)?;
    let slower = ImageRun {
        view: images.scaled,
        power,
        start: images.start,
    };
    let scaled = report(alloc, &slower, input, None, progress)?;
    let same = are_same(&run, &scaled);
    let held = held_of(power, &scaled.meter);
    Ok(SurveyLine {
        end: run.end,
        kept: counter.kept(),
        meter: run.meter,
        scaled_end: scaled.end,
        scaled_meter: scaled.meter,
        held,
        same,
    })
}
