//! The loops.

ghost use Rattle.std.specs.Prelude.{◌≡◌, ◌<◌, length, IfOk};
ghost use Rattle.plan_graphs.specs.Drawn.{Told, AreDrawn, IsLoopDrawn};
ghost use Rattle.plan_graphs.specs.Sketched.{IsSketch, Holds, turns_kept};

use crate::nests::nest_of;
use crate::plan::DrawnLoop;
use crate::sketch::{Sketch, number_at};
use scale_base::NoMemory;
use std::alloc::Global;

/// How many turns of loop `l` the worst walk takes.
fn turns_of(sketch: &Sketch<'_, '_>, l: usize) -> u64
    ensures { result ≡ turns_kept sketch.now.walk.now l }
{
    match sketch.walk {
        None => 0,
        Some(walk) => number_at(&walk.turns, l),
    }
}

fn draw_loop(alloc: Global, sketch: &Sketch<'_, '_>, l: usize) -> Result<DrawnLoop, NoMemory>
    requires sketch { IsSketch sketch.now }
    requires within { l < length sketch.now.tree.now.headers }
    ensures { IfOk result (λ x. (told : Told) → Holds sketch.now told → IsLoopDrawn sketch.now.graph.now sketch.now.tree.now told l x) }
{
    let header = sketch.tree.header(l);
    let around = nest_of(
        alloc,
        sketch.graph,
        sketch.tree,
        sketch.tree.innermost(header),
    )?;
    Ok(DrawnLoop {
        number: l,
        header: sketch.graph.node(header),
        bound: sketch.tree.bound(l),
        turn: sketch.worst.iteration(l),
        function: sketch.graph.owner(header),
        around,
        turns: turns_of(sketch, l),
    })
}

/// The loops of a program.
pub fn draw_loops(alloc: Global, sketch: &Sketch<'_, '_>) -> Result<Vec<DrawnLoop>, NoMemory>
    requires { IsSketch sketch.now }
    ensures { IfOk result (λ xs. (told : Told) → Holds sketch.now told → AreDrawn
        (IsLoopDrawn sketch.now.graph.now sketch.now.tree.now told) (length sketch.now.tree.now.headers) xs.items) }
{
    let mut loops = Vec::new(alloc);
    for l in 0..sketch.tree.loop_count() {
        loops.push(draw_loop(alloc, sketch, l)?)?;
    }
    Ok(loops)
}
