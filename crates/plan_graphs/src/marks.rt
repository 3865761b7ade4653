//! The marks of an edge.

ghost use Rattle.std.specs.Prelude.{◌≡◌, ◌<◌, [], map, length, IfOk};
ghost use Rattle.scale_sites.specs.Counters.{counted_loops};
ghost use Rattle.plan_graphs.specs.Drawn.{counted_of as loop_of, drawn_mark};
ghost use Rattle.plan_graphs.specs.Sketched.{IsSketch, marks_kept};

use crate::plan::DrawnMark;
use crate::sketch::Sketch;
use scale_base::{Mark, NoMemory};
use scale_sites::CounterList;
use std::alloc::Global;

/// The counted loop that a mark is for. None for a mark that chooses a level alone.
fn counted_of(counters: &CounterList, mark: Mark) -> Option<usize>
    ensures { result ≡ loop_of counters.now mark }
{
    let counter = match mark {
        Mark::Switch | Mark::Lowest => return None,
        Mark::Exit(counter) | Mark::Reset(counter) | Mark::Count(counter) | Mark::Tally(counter) =>
            counter,
    };
    let k = usize::from(counter.saturating_sub(2));
    if k < counters.count() {
        Some(*counters.get(k))
    } else {
        None
    }
}

/// Marks with their loops.
fn drawn_marks(
    alloc: Global,
    counters: &CounterList,
    marks: &[Mark],
) -> Result<Vec<DrawnMark>, NoMemory>
    ensures { IfOk result (λ drawn. drawn.items ≡ map (drawn_mark counters.now) marks.now) }
{
    let mut drawn = Vec::new(alloc);
    for mark in marks {
        drawn.push(DrawnMark {
            mark: *mark,
            counted: counted_of(counters, *mark),
        })?;
    }
    Ok(drawn)
}

/// The marks of edge `e`: none where loops can't be counted.
pub fn marks_at(
    alloc: Global,
    sketch: &Sketch<'_, '_>,
    e: usize,
) -> Result<Vec<DrawnMark>, NoMemory>
    requires sketch { IsSketch sketch.now }
    requires edge { e < length sketch.now.graph.now.code.edges }
    ensures { IfOk result (λ drawn. drawn.items ≡ map (drawn_mark (counted_loops sketch.now.tree.now))
        (marks_kept sketch.now.marked.now e)) }
{
    match sketch.marked {
        None => Ok(Vec::new(alloc)),
        Some(marked) => drawn_marks(alloc, &marked.counters, marked.sites.marks(e)),
    }
}
