//! The report of a run. Other rows are data, `simulate.txt` of the first program's `cases`.

use crate::fixtures::*;
use scale_report::run_text;
use speed_sim::simulate;
use std::alloc::Global;
use std::test::Fail;

/// The report of a run of files without input, and its output behind it.
fn simulated(alloc: Global, files: &Files<'_>) -> Result<String, Fail> {
    let machine = files.machine.as_bytes();
    match simulate(
        alloc,
        &files.image,
        machine,
        &[],
        Some(files.loops.as_bytes()),
    ) {
        Ok(report) => Ok(run_text(alloc, &report)?),
        Err(_) => Err("a refusal".into()),
    }
}

/// It begins at the fastest level.
#[test]
fn a_run_reads_and_ends(rt: HostRuntime) -> Result<(), Fail> {
    let files = files_of(rt.alloc(), &ONE)?;
    let lines =
        "end exit 0\nsteps 7\ncycles 16\ntime 16\nenergy 128\nheld 128\nswitches 0\nlevel 2\nkeyed 0\noutput 0\nkept yes\n";
    expect_text(&rt, 0, simulated(rt.alloc(), &files), lines)
}
