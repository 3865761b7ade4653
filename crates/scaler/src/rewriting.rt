//! A program that lowers its speed as soon as what is left of its worst case allows it.

ghost use Rattle.std.specs.Prelude.{◌≡◌, ◌≤◌, ℕ, Bool, List, length, None, Ok, IfOk};
ghost use Rattle.scale_base.specs.Answer.{AnswersBy};
ghost use Rattle.scale_base.specs.Image.{Image, image_of};
ghost use Rattle.power_model.specs.Numbers.{IsPowerModel};
ghost use Rattle.scale_sites.specs.Counters.{counted_loops, AreCounters};
ghost use Rattle.code_text.specs.Text.{text_of};
ghost use Rattle.flow_graph.specs.FlowGraph.{IsGraphOf};
ghost use Rattle.loop_file.specs.declared.notes.LoopNote.{LoopNote};
ghost use Rattle.loop_forest.specs.Tree.{IsLoopTree, IsTreeOf};
ghost use Rattle.scaler.specs.Rewritten as rewritten;
ghost use Rattle.scaler.specs.RewrittenRuns.{IsRewrittenSafely};
ghost use Rattle.scaler.specs.Scalings as scalings;

use crate::timing::weights_of;
use code_graph::build_graph;
use elf_image::ImageView;
use flow_graph::CodeGraph;
use loop_file::LoopNotes;
use loop_forest::LoopTree;
use loop_tree::build_loops;
use marked_images::{EdgeMarks, Marked, Marking, Program, marking_with, scaling_of, stored_file};
use power_model::Power;
use program_sources::Sources;
use scale_base::{FILE_LIMIT, IMAGE_LIMIT, Stop, Summary};
use scale_sites::{CounterList, Sites, choose, counters};
use std::alloc::Global;
use worst_cycles::worst;

/// The marks of a program's edges, by their slacks under the plain weights.
fn sites_of(
    alloc: Global,
    graph: &CodeGraph,
    tree: &LoopTree,
    counters: &CounterList,
    power: &Power,
) -> Result<Sites, Stop>
    requires code { (image : Image) × IsGraphOf (text_of image) graph.now }
    requires tree { (extent : ℕ → ℕ → Bool) × IsLoopTree graph.now extent tree.now }
    requires counters { counters.now ≡ counted_loops tree.now }
    requires few { length counters.now ≤ 509 }
    ensures { (image : Image) → IsGraphOf (text_of image) graph.now → AnswersBy (λ s. s) result
        (scalings.AreSitesFound power.now image graph.now tree.now) }
{
    let weights = weights_of(alloc, graph, power)?;
    let plain = worst(alloc, graph, tree, &weights)?;
    Ok(choose(alloc, graph, tree, counters, plain.slacks(), power.min_gain)?)
}

/// The marks of a program with its numbers under the stored weights, if these are in time, and its starting level.
fn marking_of(
    alloc: Global,
    graph: &CodeGraph,
    tree: &LoopTree,
    counters: CounterList,
    power: &Power,
) -> Result<(Marking, u8), Stop>
    requires program { (image : Image) × (notes : List LoopNote) × IsGraphOf (text_of image) graph.now × IsTreeOf graph.now notes tree.now }
    requires counters { AreCounters graph.now tree.now (Ok counters) }
    ensures { (image : Image) → IsGraphOf (text_of image) graph.now → AnswersBy (λ x. x) result
        (scalings.IsMarkingBySlack power.now image graph.now tree.now) }
{
    let sites = sites_of(alloc, graph, tree, &counters, power)?;
    marking_with(alloc, power, graph, tree, EdgeMarks { counters, sites })
}

/// The marks of the program of an image, if it is in time with them.
fn marked_of(
    alloc: Global,
    view: &ImageView<'_>,
    power: &Power,
    notes: &LoopNotes,
) -> Result<Marked, Stop>
    requires image { image_of view.now.file ≡ Ok view.now }
    requires power { IsPowerModel power.now }
    ensures { AnswersBy (λ m. m) result (scalings.IsMarkedFound power.now view.now notes.now) }
{
    let graph = build_graph(alloc, view)?;
    let tree = build_loops(alloc, &graph, notes)?;
    let counters = counters(alloc, &graph, &tree)?;
    let (marking, start) = marking_of(alloc, &graph, &tree, counters, power)?;
    Ok(Marked {
        graph,
        tree,
        marking,
        start,
    })
}

/// The image of a marked program with its stubs, or that one is out of reach.
pub fn rewrite_marked(
    alloc: Global,
    view: &ImageView<'_>,
    power: &Power,
    marked: &Marked,
) -> Result<(Vec<u8>, Summary), Stop>
    requires read { image_of view.now.file ≡ Ok view.now }
    requires file { length view.now.file ≤ IMAGE_LIMIT }
    requires no_key { view.now.keyed_segment ≡ None }
    requires power { IsPowerModel power.now }
    requires marked { (notes : List LoopNote) × scalings.IsMarkedBySlack power.now view.now notes marked.now }
    ensures { (notes : List LoopNote) → scalings.IsMarkedBySlack power.now view.now notes marked.now →
        AnswersBy (λ given. (given.0.items, given.1)) result (rewritten.IsRewrittenProgram power.now view.now notes) }
{
    let scaling = scaling_of(alloc, view, power, marked)?;
    let bytes = stored_file(alloc, view, &scaling)?;
    Ok((bytes, scaling.summary))
}

/// The image of a program with its stubs, or the first refusal of its code, of its loops, or of its numbers.
pub fn rewrite_program(
    alloc: Global,
    view: &ImageView<'_>,
    power: &Power,
    notes: &LoopNotes,
) -> Result<(Vec<u8>, Summary), Stop>
    requires read { image_of view.now.file ≡ Ok view.now }
    requires file { length view.now.file ≤ IMAGE_LIMIT }
    requires no_key { view.now.keyed_segment ≡ None }
    requires power { IsPowerModel power.now }
    ensures { AnswersBy (λ given. (given.0.items, given.1)) result (rewritten.IsRewrittenProgram power.now view.now notes.now) }
{
    let marked = marked_of(alloc, view, power, notes)?;
    rewrite_marked(alloc, view, power, &marked)
}

/// The program of three files, or the first refusal.
pub fn program_of<'a>(
    alloc: Global,
    image: &'a [u8],
    machine: &[u8],
    loops: &[u8],
) -> Result<Program<'a>, Stop>
    ensures { AnswersBy (λ p. p) result (scalings.IsProgramFound image.now machine.now loops.now) }
{
    let sources = Sources::read(alloc, image, machine, loops)?;
    let power = sources.power;
    let view = sources.view;
    let marked = marked_of(alloc, &view, &power, &sources.notes)?;
    let scaling = scaling_of(alloc, &view, &power, &marked)?;
    Ok(Program {
        power,
        view,
        marked,
        scaling,
    })
}

/// The image with stubs that lower its level where what is left of the worst case allows it, started at the slowest level at which its
/// worst case, stubs and switches counted, is in time; and the numbers of its summary. Or the first refusal: of the machine file, of the
/// image, of a keyed segment, of the loop file, of the reached code, of its loops, of a counted loop that can't be counted, of more than
/// 509 counted loops, of more than 2^48 worst cycles, of the deadline, and of a stub that is out of reach of a jump.
///
/// The files have at most the bytes that the program loads: 4,194,304 of an image, 1,048,576 of each other file. Times are in
/// the machine file's time units.
pub fn rewrite(
    alloc: Global,
    image: &[u8],
    machine: &[u8],
    loops: &[u8],
) -> Result<(Vec<u8>, Summary), Stop>
    requires image { length image.now ≤ IMAGE_LIMIT }
    requires machine { length machine.now ≤ FILE_LIMIT }
    requires loops { length loops.now ≤ FILE_LIMIT }
    ensures given { AnswersBy (λ given. (given.0.items, given.1)) result (rewritten.IsRewritten image.now machine.now loops.now) }

    // On each input on which the original run exits and is kept, the stored run keeps the promise; and it follows the original in time.
    ensures safe { IfOk result (λ given. IsRewrittenSafely image.now machine.now loops.now given.0.items given.1) }
{
    let sources = Sources::read(alloc, image, machine, loops)?;
    rewrite_program(alloc, &sources.view, &sources.power, &sources.notes)
}
