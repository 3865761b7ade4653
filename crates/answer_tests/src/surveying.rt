//! The survey of the runs of two images. Other rows are data, `survey.txt` of the first program's `cases`.

use crate::fixtures::*;
use input_survey::{SurveyReport, survey};
use scale_base::Stop;
use scale_report::survey_text;
use std::alloc::Global;
use std::test::Fail;

/// The survey of files that the program would load.
fn surveyed(
    alloc: Global,
    files: &Files<'_>,
    scaled: &[u8],
    inputs: &[Vec<u8>],
) -> Result<SurveyReport, Stop> {
    let image = files.image.as_slice();
    let machine = files.machine.as_bytes();
    let loops = files.loops.as_bytes();
    if image.len() > 4_194_304 || scaled.len() > 8_388_608 {
        return Err(Stop::Memory);
    }
    if machine.len() > 1_048_576 || loops.len() > 1_048_576 {
        return Err(Stop::Memory);
    }
    if inputs.len() < 1 || inputs.len() > 64 || !are_short(inputs) {
        return Err(Stop::Memory);
    }
    survey(alloc, image, scaled, machine, loops, inputs)
}

/// The survey of a program beside what `rewrite` stores of it.
fn survey_of(alloc: Global, files: &Files<'_>, inputs: &[Vec<u8>]) -> Result<String, Fail> {
    let scaled = stored(alloc, files)?;
    match surveyed(alloc, files, &scaled, inputs) {
        Ok(report) => Ok(survey_text(alloc, &report)?),
        Err(_) => Err("a refusal".into()),
    }
}

#[test]
fn runs_of_an_image_beside_the_scaled_one(rt: HostRuntime) -> Result<(), Fail> {
    let files = files_of(rt.alloc(), &ONE)?;
    let inputs = inputs_of(rt.alloc(), &[0, 1])?;
    let lines =
        "input 1 cycles 16 scaled cycles 34 time 102 energy 98\ninput 2 cycles 75 scaled cycles 79 time 158 energy 237\ninputs 2\nkept 2\nlate 0\ndiffer 0\noriginal cycles 91\nscaled cycles 113\nenergy 335\nheld 339\nswitches 1\n";
    expect_text(&rt, 0, survey_of(rt.alloc(), &files, &inputs), lines)
}
