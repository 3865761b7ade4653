//! Where the worst cycles of a program go. Other rows are data, `explain.txt` of the second program's `cases`.

use crate::fixtures::*;
use std::alloc::Global;
use std::test::Fail;
use worst_reports::{explain, explained_text};

/// The text of where the worst cycles of a program go.
fn explained(alloc: Global, files: &Files<'_>) -> Result<String, Fail> {
    let machine = files.machine.as_bytes();
    match explain(alloc, &files.image, machine, files.loops.as_bytes()) {
        Ok(explained) => Ok(explained_text(alloc, &explained)?),
        Err(_) => Err("a refusal".into()),
    }
}

/// Ten turns of 1 + 1 + 5 + 2, and a passage of 1 + 1 + 5 + 1.
#[test]
fn a_line_for_each_function_and_loop_on_the_worst_walk(rt: HostRuntime) -> Result<(), Fail> {
    let files = files_of(rt.alloc(), &ALL)?;
    let lines =
        "worst cycles 106\nloop 1 0x00010008 entries 1 turns 10 own 98 all 98\nfunction 0x00010000 calls 1 own 8 all 106\n";
    expect_text(&rt, 0, explained(rt.alloc(), &files), lines)
}
