//! What keeps levels from being lowered. Other rows are data, `show.txt` of the second program's `cases`.

use crate::fixtures::*;
use level_reasons::{reasons, reasons_text};
use std::alloc::Global;
use std::test::Fail;

/// The text of the reasons of a program.
fn shown(alloc: Global, files: &Files<'_>) -> Result<String, Fail> {
    let machine = files.machine.as_bytes();
    match reasons(alloc, &files.image, machine, files.loops.as_bytes()) {
        Ok(shown) => Ok(reasons_text(alloc, &shown)?),
        Err(_) => Err("a refusal".into()),
    }
}

/// Before the branch 67 cycles are left at most: 1 + 60 + 6 untaken, 2 + 6 taken. So 59 fall away where it is taken, with 6 left.
/// From level 1 to level 0 takes 6 * 4 + 10, and (6 + 59) * 2 are there; it saves 6 * (3 - 1), and takes 20.
#[test]
fn a_reason_for_each_edge_on_which_cycles_fall_away(rt: HostRuntime) -> Result<(), Fail> {
    let files = files_of(rt.alloc(), &ONE)?;
    let lines =
        "start level 1\nworst cycles 75\nedge 0x00010010 taken slack 59 pays not: 6 cycles left at least\n";
    expect_text(&rt, 0, shown(rt.alloc(), &files), lines)
}
