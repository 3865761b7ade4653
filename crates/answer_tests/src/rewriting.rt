//! What `rewrite` and `plan` make of files. Other rows are data, `rewrite.txt` and `report.txt` of the first program's `cases`.

use crate::fixtures::*;
use scale_base::{ScalePlan, Stop};
use scale_report::summary_text;
use scaler::plan;
use std::alloc::Global;
use std::test::Fail;

/// What `plan` makes of files that the program would load.
fn planned(alloc: Global, files: &Files<'_>) -> Result<ScalePlan, Stop> {
    let image = files.image.as_slice();
    let machine = files.machine.as_bytes();
    let loops = files.loops.as_bytes();
    if image.len() > 4_194_304 || machine.len() > 1_048_576 || loops.len() > 1_048_576 {
        return Err(Stop::Memory);
    }
    plan(alloc, image, machine, loops)
}

/// The numbers of a plan, and how many lines it has.
fn plan_of(alloc: Global, files: &Files<'_>) -> Result<(String, usize), Fail> {
    match planned(alloc, files) {
        Ok(plan) => Ok((summary_text(alloc, &plan.summary)?, plan.lines.len())),
        Err(_) => Err("a refusal".into()),
    }
}

/// The numbers of a rewriting, and the length of what is stored.
fn rewriting_of(alloc: Global, files: &Files<'_>) -> Result<(String, usize), Fail> {
    match rewritten(alloc, files) {
        Ok((bytes, summary)) => Ok((summary_text(alloc, &summary)?, bytes.len())),
        Err(_) => Err("a refusal".into()),
    }
}

/// A counted loop, whose turns and whose exit have a line each.
#[test]
fn a_counted_loop(rt: HostRuntime) -> Result<(), Fail> {
    let files = files_of(rt.alloc(), &ALL)?;
    let lines =
        "start level 1\nworst cycles 241\nworst time 482 of 500\nstub cycles at most 135\nswitch edges 0\nexit edges 1\ncount edges 1\nstub bytes 140\n";
    let (planned, count) = plan_of(rt.alloc(), &files)?;
    assert_eq!(rt; (planned.as_str(), count), (lines, 2));
    let (made, len) = rewriting_of(rt.alloc(), &files)?;
    assert_eq!(rt; (made.as_str(), len), (lines, 4300));
    Ok(())
}
