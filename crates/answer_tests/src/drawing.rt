//! The picture of a program. Whole ones are data, `draw-plan.txt` of the second program's `cases`.

use crate::fixtures::*;
use plan_graphs::draw_plan;
use plan_texts::{plan_dot, plan_text};
use std::alloc::Global;
use std::test::Fail;

/// The picture of a program, and behind it the lines that count what is drawn.
fn drawn(alloc: Global, files: &Files<'_>) -> Result<String, Fail> {
    let machine = files.machine.as_bytes();
    match draw_plan(alloc, &files.image, machine, files.loops.as_bytes()) {
        Ok(plan) => {
            let mut text = plan_dot(alloc, &plan)?;
            let counts = plan_text(alloc, &plan)?;
            text.push_str(counts.as_str())?;
            Ok(text)
        }
        Err(_) => Err("a refusal".into()),
    }
}

/// The counted loop is left where the rewriting marks it.
#[test]
fn blocks_and_edges_of_a_loop(rt: HostRuntime) -> Result<(), Fail> {
    let files = files_of(rt.alloc(), &ALL)?;
    let parts = [
        "b0x00010008 [label=\"0x00010008 to 0x00010018\\lleft 104\\l\"]",
        "}\nfunctions 1\nblocks 3\nloops 1\nedges 3\nmarked 2\nworst cycles 106\n",
    ];
    expect_parts(&rt, 0, drawn(rt.alloc(), &files), &parts)
}
