//! Files to runs.

ghost use Rattle.std.specs.Prelude.{◌≡◌};
ghost use Rattle.scale_base.specs.Answer.{AnswersBy};
ghost use Rattle.power_model.specs.Numbers.{IsPowerModel};
ghost use Rattle.run_pictures.specs.Pictures.{AreRunsDrawn, IsRunOn, AreRunsOn};

use crate::picture::{DrawnFiles, PictureRun, RunPicture};
use elf_view::read_image;
use machine_file::read_machine;
use power_model::Power;
use run_progress::{Part, Progress};
use run_stretches::draw_run;
use scale_base::Stop;
use speed_sim::{ImageRun, start_of};
use std::alloc::Global;

/// The run of an image on a machine, or why its image is refused.
fn picture_run<P: Progress>(
    alloc: Global,
    power: &Power,
    files: &DrawnFiles<'_>,
    progress: &mut P,
) -> Result<PictureRun, Stop>
    requires { IsPowerModel power.now }
    ensures { AnswersBy (λ run. run) result (IsRunOn power.now files.now) }
{
    let view = read_image(alloc, files.image)?;
    let levels = power.levels.count();
    let keyed = view.keyed();
    let start = start_of(levels, keyed)?;
    let given = ImageRun {
        view: &view,
        power,
        start,
    };
    let drawn = draw_run(alloc, &given, files.input, progress)?;
    let image_name = String::from_str(alloc, files.image_name)?;
    let input_name = String::from_str(alloc, files.input_name)?;
    Ok(PictureRun {
        image_name,
        input_name,
        report: drawn.report,
        bars: drawn.bars,
    })
}

/// The runs of some files on a machine, in their order.
fn picture_runs<P: Progress>(
    alloc: Global,
    power: &Power,
    files: &[DrawnFiles<'_>],
    progress: &mut P,
) -> Result<Vec<PictureRun>, Stop>
    requires { IsPowerModel power.now }
    ensures { AnswersBy (λ runs. runs.items) result (AreRunsOn power.now files.now) }
{
    let mut runs = Vec::new(alloc);
    progress.begin(Part::Input, files.len());
    for pair in files {
        progress.next(Part::Input);
        let run = picture_run(alloc, power, pair, progress)?;
        runs.push(run)?;
    }
    Ok(runs)
}

/// The runs of images with inputs on a machine, each with its report and its stretches at one level as at most 512 bars; or the first
/// refusal, as `simulate` has it: of the machine file, then of each pair its image and its level. All the memory that a run needs is
/// taken before its first step. How far it is is told.
pub fn draw_runs<P: Progress>(
    alloc: Global,
    machine: &[u8],
    files: &[DrawnFiles<'_>],
    progress: &mut P,
) -> Result<RunPicture, Stop>
    ensures { AnswersBy (λ picture. picture) result (AreRunsDrawn machine.now files.now) }
{
    let power = read_machine(alloc, machine)?;
    let runs = picture_runs(alloc, &power, files, progress)?;
    Ok(RunPicture { power, runs })
}
