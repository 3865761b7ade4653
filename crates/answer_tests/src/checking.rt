//! What `check` answers for an image of other make. Other rows are data, `check.txt` and `check-scanned.txt` of the first program's `cases`.

use crate::fixtures::*;
use image_check::check;
use scale_report::verdict_text;
use std::alloc::Global;
use std::test::Fail;

/// The text of what `check` answers for files that the program would load.
fn answer(alloc: Global, files: &Files<'_>, foreign: &[u8]) -> Result<String, Fail> {
    let image = files.image.as_slice();
    let machine = files.machine.as_bytes();
    let loops = files.loops.as_bytes();
    if image.len() > 4_194_304 || foreign.len() > 8_388_608 {
        return Err(Fail::from("images that are too long"));
    }
    if machine.len() > 1_048_576 || loops.len() > 1_048_576 {
        return Err(Fail::from("files that are too long"));
    }
    match check(alloc, image, foreign, machine, loops) {
        Ok(verdict) => Ok(verdict_text(alloc, &verdict)?),
        Err(_) => Err(Fail::from("a refusal")),
    }
}

#[test]
fn an_image_that_rewrite_stores(rt: HostRuntime) -> Result<(), Fail> {
    let files = files_of(rt.alloc(), &ONE)?;
    let foreign = stored(rt.alloc(), &files)?;
    let lines =
        "check yes\nstart level 1\nworst cycles 79\nworst time 158 of 160\nstub cycles at most 18\n";
    expect_text(&rt, 0, answer(rt.alloc(), &files, &foreign), lines)
}
