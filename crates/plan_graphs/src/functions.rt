//! The functions.

ghost use Rattle.std.specs.Prelude.{◌≡◌, ◌<◌, length, IfOk};
ghost use Rattle.plan_graphs.specs.Drawn.{Told, AreDrawn, IsFunctionDrawn};
ghost use Rattle.plan_graphs.specs.Sketched.{IsSketch, Holds, calls_kept};

use crate::named::name_of;
use crate::plan::DrawnFunction;
use crate::sketch::{Sketch, number_at};
use scale_base::NoMemory;
use std::alloc::Global;

/// How often the worst walk calls function `f`.
fn calls_of(sketch: &Sketch<'_, '_>, f: usize) -> u64
    ensures { result ≡ calls_kept sketch.now.walk.now f }
{
    match sketch.walk {
        None => 0,
        Some(walk) => number_at(&walk.calls, f),
    }
}

fn draw_function(
    alloc: Global,
    sketch: &Sketch<'_, '_>,
    f: usize,
) -> Result<DrawnFunction, NoMemory>
    requires sketch { IsSketch sketch.now }
    requires function { f < length sketch.now.graph.now.code.functions }
    ensures { IfOk result (λ x. (told : Told) → Holds sketch.now told → IsFunctionDrawn sketch.now.graph.now told f x) }
{
    let entry = sketch.graph.function(f);
    let name = name_of(alloc, sketch.names, entry)?;
    Ok(DrawnFunction {
        number: f,
        entry,
        name,
        worst: sketch.worst.function(f),
        calls: calls_of(sketch, f),
    })
}

/// The functions of a program.
pub fn draw_functions(
    alloc: Global,
    sketch: &Sketch<'_, '_>,
) -> Result<Vec<DrawnFunction>, NoMemory>
    requires { IsSketch sketch.now }
    ensures { IfOk result (λ xs. (told : Told) → Holds sketch.now told → AreDrawn (IsFunctionDrawn sketch.now.graph.now told)
        (length sketch.now.graph.now.code.functions) xs.items) }
{
    let mut functions = Vec::new(alloc);
    for f in 0..sketch.graph.function_count() {
        functions.push(draw_function(alloc, sketch, f)?)?;
    }
    Ok(functions)
}
