//! The image that is chosen for inputs. Other rows are data, `tune.txt` of the first program's `cases`.

use crate::fixtures::*;
use gain_tuner::{Tuned, tune};
use scale_base::Stop;
use scale_report::tuned_text;
use std::alloc::Global;
use std::test::Fail;

/// What `tune` makes of files that the program would load.
fn tuned(alloc: Global, files: &Files<'_>, inputs: &[Vec<u8>]) -> Result<(Vec<u8>, Tuned), Stop> {
    let image = files.image.as_slice();
    let machine = files.machine.as_bytes();
    let loops = files.loops.as_bytes();
    if image.len() > 4_194_304 || machine.len() > 1_048_576 || loops.len() > 1_048_576 {
        return Err(Stop::Memory);
    }
    if inputs.is_empty() || inputs.len() > 64 || !are_short(inputs) {
        return Err(Stop::Memory);
    }
    tune(alloc, image, machine, loops, inputs)
}

/// How an image was chosen.
fn choice_of(alloc: Global, files: &Files<'_>, inputs: &[Vec<u8>]) -> Result<String, Fail> {
    match tuned(alloc, files, inputs) {
        Ok((_, choice)) => Ok(tuned_text(alloc, &choice)?),
        Err(_) => Err("a refusal".into()),
    }
}

/// It is the first of equal candidates.
#[test]
fn the_first_of_equal_candidates(rt: HostRuntime) -> Result<(), Fail> {
    let files = files_of(rt.alloc(), &SKIPPING)?;
    let inputs = inputs_of(rt.alloc(), &[0])?;
    let lines =
        "candidate 1\nstart level 1\nworst cycles 251\nworst time 502 of 502\nstub cycles at most 18\nswitch edges 1\nexit edges 0\ncount edges 0\nstub bytes 56\ninputs 1\nleft out 0\nenergy 174\nhold energy 324\n";
    expect_text(&rt, 0, choice_of(rt.alloc(), &files, &inputs), lines)
}
