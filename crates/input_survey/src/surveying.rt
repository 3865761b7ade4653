//! The survey.

ghost use Rattle.std.specs.Prelude.{◌≡◌, ◌≤◌, ◌<◌, length, map, None, IfOk};
ghost use Rattle.std.specs.List.{All};
ghost use Rattle.scale_base.specs.Answer.{AnswersBy};
ghost use Rattle.scale_base.specs.Run.{starting_level};
ghost use Rattle.power_model.specs.Survey.{survey_view, line_view};
ghost use Rattle.input_survey.specs.Surveyed.{IsSurvey, IsSurveyed};
ghost use Rattle.input_survey.specs.Bounds.{MostIsEnough, MostIsNeeded};
ghost use Rattle.input_survey.specs.Promised.{LinesArePromised};

use crate::lines::{Images, line_of};
use crate::totals::totals_of;
use elf_view::read_image;
use keep_monitor::LoopCounter;
use loop_file::{LoopNotes, read_loops};
use power_model::SurveyReport;
use program_sources::OriginalImage;
use run_progress::{Part, Progress, Silent};
use scale_base::{FILE_LIMIT, IMAGE_LIMIT, NoMemory, STORED_LIMIT, Stop};
use speed_sim::start_of;
use std::alloc::Global;

/// The survey of the images, one run after the other.
fn survey_of<P: Progress>(
    alloc: Global,
    images: &Images<'_>,
    notes: LoopNotes,
    inputs: &[Vec<u8>],
    progress: &mut P,
) -> Result<SurveyReport, NoMemory>
    requires unscaled { images.now.original.now.keyed_segment ≡ None }
    requires start { images.now.start ≡ starting_level (length images.now.power.now.levels) images.now.scaled.now.keyed_segment }
    requires is_level { images.now.start < length images.now.power.now.levels }
    requires few { length inputs.now ≤ 64 }
    ensures { IfOk result (λ survey. IsSurvey images.now.power.now images.now.original.now images.now.scaled.now notes
        (map (λ input. input.items) inputs.now) (survey_view survey)) }
{
    let mut counter = LoopCounter::new(alloc, notes)?;
    let mut lines = Vec::new(alloc);
    progress.begin(Part::Input, inputs.len());
    for input in inputs {
        progress.next(Part::Input);
        lines.push(line_of(alloc, images, input, &mut counter, progress)?)?;
    }
    let totals = totals_of(images.power, &lines);
    Ok(SurveyReport {
        lines,
        most: counter.into_most(),
        totals,
    })
}

/// The files of a survey: an image, the image that was scaled, a machine file and a loop file.
#[derive(Clone, Copy)]
pub struct SurveyFiles<'a> {
    pub image: &'a [u8],
    pub scaled: &'a [u8],
    pub machine: &'a [u8],
    pub loops: &'a [u8],
}

/// The survey, or the first refusal.
fn survey_files<P: Progress>(
    alloc: Global,
    files: &SurveyFiles<'_>,
    inputs: &[Vec<u8>],
    progress: &mut P,
) -> Result<SurveyReport, Stop>
    requires { length inputs.now ≤ 64 }
    ensures { AnswersBy survey_view result (IsSurveyed files.now.image.now files.now.scaled.now files.now.machine.now files.now.loops.now
        (map (λ input. input.items) inputs.now)) }
{
    let original = OriginalImage::read(alloc, files.image, files.machine)?;
    let other = read_image(alloc, files.scaled)?;
    let start = start_of(original.power.levels.count(), other.keyed())?;
    let notes = read_loops(alloc, files.loops, &original.view)?;
    let images = Images {
        power: &original.power,
        original: &original.view,
        scaled: &other,
        start,
    };
    Ok(survey_of(alloc, &images, notes, inputs, progress)?)
}

/// `survey`, which tells how far it is.
pub fn survey_with_progress<P: Progress>(
    alloc: Global,
    files: &SurveyFiles<'_>,
    inputs: &[Vec<u8>],
    progress: &mut P,
) -> Result<SurveyReport, Stop>
    requires image { length files.now.image.now ≤ IMAGE_LIMIT }
    requires scaled { length files.now.scaled.now ≤ STORED_LIMIT }
    requires machine { length files.now.machine.now ≤ FILE_LIMIT }
    requires loops { length files.now.loops.now ≤ FILE_LIMIT }
    requires some { 1 ≤ length inputs.now }
    requires few { length inputs.now ≤ 64 }
    requires inputs { All (λ input. length input.items ≤ FILE_LIMIT) inputs.now }
    ensures survey { AnswersBy survey_view result (IsSurveyed files.now.image.now files.now.scaled.now files.now.machine.now
        files.now.loops.now (map (λ input. input.items) inputs.now)) }
    ensures enough { IfOk result (λ survey. MostIsEnough files.now.image.now files.now.machine.now files.now.loops.now
        (map (λ input. input.items) inputs.now) survey.most.items) }
    ensures needed { IfOk result (λ survey. MostIsNeeded files.now.image.now files.now.machine.now files.now.loops.now
        (map (λ input. input.items) inputs.now) survey.most.items) }
    ensures promised { IfOk result (λ survey. LinesArePromised files.now.image.now files.now.scaled.now files.now.machine.now
        files.now.loops.now (map line_view survey.lines.items)) }
{
    survey_files(alloc, files, inputs, progress)
}

/// The runs of an image, and of an image that was scaled, over a list of inputs: a line for each input, the most back edges that an entry of each
/// loop took in the original's runs, and the totals. Refused are, in this order, what is wrong with the machine file, with the image, a keyed
/// segment of it, what is wrong with the scaled image, a starting level of it that the machine hasn't got, and what is wrong with the loop
/// file.
///
/// There is one run at a time in memory, and no run is made twice.
pub fn survey(
    alloc: Global,
    image: &[u8],
    scaled: &[u8],
    machine: &[u8],
    loops: &[u8],
    inputs: &[Vec<u8>],
) -> Result<SurveyReport, Stop>
    requires image { length image.now ≤ IMAGE_LIMIT }
    requires scaled { length scaled.now ≤ STORED_LIMIT }
    requires machine { length machine.now ≤ FILE_LIMIT }
    requires loops { length loops.now ≤ FILE_LIMIT }
    requires some { 1 ≤ length inputs.now }
    requires few { length inputs.now ≤ 64 }
    requires inputs { All (λ input. length input.items ≤ FILE_LIMIT) inputs.now }
    ensures survey { AnswersBy survey_view result (IsSurveyed image.now scaled.now machine.now loops.now
        (map (λ input. input.items) inputs.now)) }
    ensures enough { IfOk result (λ survey. MostIsEnough image.now machine.now loops.now (map (λ input. input.items) inputs.now)
        survey.most.items) }
    ensures needed { IfOk result (λ survey. MostIsNeeded image.now machine.now loops.now (map (λ input. input.items) inputs.now)
        survey.most.items) }
    ensures promised { IfOk result (λ survey. LinesArePromised image.now scaled.now machine.now loops.now
        (map line_view survey.lines.items)) }
{
    let files = SurveyFiles {
        image,
        scaled,
        machine,
        loops,
    };
    survey_with_progress(alloc, &files, inputs, &mut Silent)
}
