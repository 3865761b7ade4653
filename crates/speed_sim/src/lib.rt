//! Simulated runs of images: how they end, what they cost, what they write, and whether they keep the notes of their loops.
//! Tests: crates/answer_tests/src/simulating.rt.
#![tactic(auto)]

ghost use Rattle.std.specs.Prelude.{option_map};
ghost use Rattle.scale_base.specs.Answer.{Answers};
ghost use Rattle.power_model.specs.Report.{report_view};
ghost use Rattle.speed_sim.specs.Simulated.{simulated};

mod allowed;
mod costs;
mod reporting;
mod running;
mod tally;
mod watcher;

pub use allowed::start_of;
use elf_view::read_image;
use machine_file::read_machine;
pub use power_model::RunReport;
pub use reporting::{ImageRun, counted_report, report, watched_with_progress};
use run_progress::{Progress, Silent};
pub use scale_base::End;
use scale_base::Stop;
use std::alloc::Global;
pub use watcher::Watches;

/// The files of a run: an image, a machine file, an input, and a loop file, if one is given.
#[derive(Clone, Copy)]
pub struct RunFiles<'a> {
    pub image: &'a [u8],
    pub machine: &'a [u8],
    pub input: &'a [u8],
    pub loops: Option<&'a [u8]>,
}

/// `simulate`, which tells how far it is.
#[tactic(auto, unfolding(crate::specs::Simulated::simulated))]
pub fn simulate_with_progress<P: Progress>(
    alloc: Global,
    files: &RunFiles<'_>,
    progress: &mut P,
) -> Result<RunReport, Stop>
    ensures { Answers report_view result (simulated files.now.image.now files.now.machine.now files.now.input.now
        (option_map (λ l. l.now) files.now.loops)) }
{
    let power = read_machine(alloc, files.machine)?;
    let view = read_image(alloc, files.image)?;
    let keyed = view.keyed();
    allowed::check_loops(files.loops, keyed)?;
    let start = start_of(power.levels.count(), keyed)?;
    let notes = allowed::read_notes(alloc, &view, files.loops)?;
    let given = ImageRun {
        view: &view,
        power: &power,
        start,
    };
    Ok(report(alloc, &given, files.input, notes, progress)?)
}

/// The run of an image on a machine, with an input: at most as many steps as the machine file says. Refused are, in this
/// order, what is wrong with the machine file, with the image, a loop file given with an image that has a keyed segment, a
/// starting level that the machine hasn't got, and what is wrong with the loop file.
///
/// All the memory that the run needs is taken before its first step.
pub fn simulate(
    alloc: Global,
    image: &[u8],
    machine: &[u8],
    input: &[u8],
    loops: Option<&[u8]>,
) -> Result<RunReport, Stop>
    ensures { Answers report_view result (simulated image.now machine.now input.now (option_map (λ l. l.now) loops.entry)) }
{
    let files = RunFiles {
        image,
        machine,
        input,
        loops,
    };
    simulate_with_progress(alloc, &files, &mut Silent)
}
