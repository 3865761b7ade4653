//! A program whose marks are wanted ones.

ghost use Rattle.std.specs.Prelude.{◌≡◌, List, Ok, IfOk};
ghost use Rattle.scale_base.specs.Answer.{AnswersBy};
ghost use Rattle.scale_base.specs.Image.{Image, image_of};
ghost use Rattle.power_model.specs.Numbers.{IsPowerModel};
ghost use Rattle.scale_sites.specs.Counters.{AreCounters};
ghost use Rattle.code_text.specs.Text.{text_of};
ghost use Rattle.flow_graph.specs.FlowGraph.{IsGraphOf};
ghost use Rattle.loop_file.specs.declared.notes.LoopNote.{LoopNote};
ghost use Rattle.loop_forest.specs.Tree.{IsTreeOf};
ghost use Rattle.marked_images.specs.Scalings.{HasMarks};
ghost use Rattle.paced_images.specs.Programs.{IsMarkedFound};
ghost use Rattle.paced_images.specs.Wanted.{wanted_of};

use crate::budgeted::budgeted;
use crate::wanted::{ChosenMarks, lowest_flags, tallied_flags, wanted_flags};
use code_graph::build_graph;
use elf_image::ImageView;
use flow_graph::CodeGraph;
use loop_file::LoopNotes;
use loop_forest::LoopTree;
use loop_tree::build_loops;
use marked_images::{EdgeMarks, Marked, marking_with};
use power_model::Power;
use scale_base::{NoMemory, Stop};
use scale_sites::{CounterList, Sites, choose_where, counters, form_sites};
use std::alloc::Global;

/// The marks of a program's edges: switches on the edges that the sites name, and the marks of counted loops and of tallied ones.
fn wanted_marks(
    alloc: Global,
    graph: &CodeGraph,
    tree: &LoopTree,
    counters: &CounterList,
    chosen: &ChosenMarks<'_>,
) -> Result<Sites, NoMemory>
    requires program { (image : Image) × (notes : List LoopNote) × IsGraphOf (text_of image) graph.now × IsTreeOf graph.now notes tree.now }
    requires counters { AreCounters graph.now tree.now (Ok counters.now) }
    ensures { IfOk result (λ marks. HasMarks graph.now tree.now
        (wanted_of graph.now tree.now chosen.now.sites.now chosen.now.tallied.now) marks) }
{
    let flags = wanted_flags(alloc, graph, chosen.sites)?;
    let marks = choose_where(alloc, graph, tree, counters, &flags)?;
    let lowest = lowest_flags(alloc, graph, chosen.sites)?;
    let tallied = tallied_flags(alloc, graph, tree, counters, chosen.tallied)?;
    form_sites(alloc, graph, marks, &lowest, &tallied)
}

/// The marks of the program of an image, as they are wanted, if it is in time with them.
pub fn marked_of(
    alloc: Global,
    view: &ImageView<'_>,
    power: &Power,
    notes: &LoopNotes,
    chosen: &ChosenMarks<'_>,
) -> Result<Marked, Stop>
    requires image { image_of view.now.file ≡ Ok view.now }
    requires power { IsPowerModel power.now }
    ensures { AnswersBy (λ m. m) result (IsMarkedFound power.now view.now notes.now
        chosen.now.sites.now chosen.now.tallied.now chosen.now.share) }
{
    let graph = build_graph(alloc, view)?;
    let tree = build_loops(alloc, &graph, notes)?;
    let counters = counters(alloc, &graph, &tree)?;
    let sites = wanted_marks(alloc, &graph, &tree, &counters, chosen)?;
    let marks = EdgeMarks { counters, sites };
    let (marking, start) = marking_with(alloc, power, &graph, &tree, marks)?;
    Ok(Marked {
        graph,
        tree,
        marking: budgeted(power, marking, start, chosen.share),
        start,
    })
}
