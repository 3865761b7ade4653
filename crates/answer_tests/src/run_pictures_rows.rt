//! The picture of a run. Whole ones, and parts of others, are data, `draw-run.txt` of the second program's `cases`.

use crate::fixtures::*;
use run_pictures::{DrawnFiles, draw_runs, picture_svg, picture_text};
use run_progress::Silent;
use std::alloc::Global;
use std::test::Fail;

/// The picture of a program's run without input, and behind it its line.
fn drawn(alloc: Global, files: &Files<'_>) -> Result<String, Fail> {
    let pair = DrawnFiles {
        image_name: "a<b>&c.elf",
        input_name: "x\ty",
        image: files.image.as_slice(),
        input: &[],
    };
    match draw_runs(alloc, files.machine.as_bytes(), &[pair], &mut Silent) {
        Ok(picture) => {
            let mut text = picture_svg(alloc, &picture)?;
            let line = picture_text(alloc, &picture)?;
            text.push_str(line.as_str())?;
            Ok(text)
        }
        Err(_) => Err("a refusal".into()),
    }
}

#[test]
fn what_a_run_does_is_shown(rt: HostRuntime) -> Result<(), Fail> {
    let files = files_of(rt.alloc(), &ONE)?;
    let parts = [
        "  a&lt;b&gt;&amp;c.elf with input x?y</text>",
        "><title>level 2, time 16, energy 128</title>",
        "</svg>\nrun 1 exit 0 cycles 16 time 16 energy 128 switches 0 merged 0\n",
    ];
    expect_parts(&rt, 0, drawn(rt.alloc(), &files), &parts)
}
