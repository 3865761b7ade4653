//! What is stored of a program with marks: its stubs, and the numbers of its summary.

ghost use Rattle.std.specs.Prelude.{◌≡◌, ◌≤◌, ℕ, Bool, List, length, map, All, None, IfOk};
ghost use Rattle.scale_base.specs.Answer.{AnswersBy};
ghost use Rattle.scale_base.specs.Image.{image_of};
ghost use Rattle.power_model.specs.Numbers.{PowerModel, IsPowerModel};
ghost use Rattle.flow_graph.specs.FlowGraph.{FlowGraph};
ghost use Rattle.loop_file.specs.declared.notes.LoopNote.{LoopNote};
ghost use Rattle.loop_forest.specs.Tree.{IsLoopTree, LoopView};
ghost use Rattle.stub_writer.specs.Sites.{IsSite, site_of};
ghost use Rattle.rewritten_runs.specs.Stubs.{rewritten_file};
ghost use Rattle.marked_images.specs.Scalings as scalings;
ghost use Rattle.marked_images.specs.Stored.{BudgetRule};
ghost use Rattle.marked_images.specs.Wanted.{Wanted};

use crate::counting::count_edges;
use crate::stubs::{Marked, stub_sites};
use answer_parts::time_at;
use elf_image::ImageView;
use elf_patch::{stub_base, write_image};
use flow_graph::CodeGraph;
use loop_forest::LoopTree;
use power_model::Power;
use scale_base::{BLOCK_LIMIT, IMAGE_LIMIT, NoMemory, Stop, Summary, WORD_LIMIT};
use scale_sites::Sites;
use std::alloc::Global;
use stub_writer::{StubBlock, StubSite, block_len, emit};
use worst_cycles::worst;

/// What is stored of a program besides its file.
#[derive(Drop)]
pub struct Scaling {
    pub stubs: Vec<StubSite>,
    pub block: StubBlock,
    pub base: u32,
    pub summary: Summary,
}

/// The program of three files: its machine, its image, its marks and its stubs.
#[derive(Drop)]
pub struct Program<'a> {
    pub power: Power,
    pub view: ImageView<'a>,
    pub marked: Marked,
    pub scaling: Scaling,
}

/// The most cycles that stubs add to a run.
fn stub_cycles(
    alloc: Global,
    graph: &CodeGraph,
    tree: &LoopTree,
    sites: &Sites,
    power: &Power,
) -> Result<u64, Stop>
    requires tree { (extent : ℕ → ℕ → Bool) × IsLoopTree graph.now extent tree.now }
    requires range { scalings.IsInRange power.now graph.now tree.now sites.now }
    requires size { length sites.now.marks ≡ length graph.now.code.edges }
    ensures { (wanted : Wanted) → scalings.HasMarks graph.now tree.now wanted sites.now →
        AnswersBy (λ n. n) result (scalings.IsExtraFound power.now graph.now tree.now wanted) }
{
    let weights = sites.extra_weights(alloc, graph, &power.costs)?;
    let numbers = worst(alloc, graph, tree, &weights)?;
    Ok(numbers.total())
}

/// The block of stubs, and the base at which it stands.
pub fn block_of(
    alloc: Global,
    view: &ImageView<'_>,
    stubs: &[StubSite],
) -> Result<(StubBlock, u32), Stop>
    requires few { length stubs.now ≤ WORD_LIMIT }
    requires each { All IsSite stubs.now }
    ensures { AnswersBy (λ x. x) result (scalings.IsBlockGiven view.now stubs.now) }
{
    let len = block_len(stubs);
    let base = stub_base(view, len.min(BLOCK_LIMIT));
    Ok((emit(alloc, stubs, base)?, base))
}

/// The stubs of a marked program, and the numbers of its summary; or that a stub is out of reach.
pub fn scaling_of(
    alloc: Global,
    view: &ImageView<'_>,
    power: &Power,
    marked: &Marked,
) -> Result<Scaling, Stop>
    requires image { image_of view.now.file ≡ Ok view.now }
    requires power { IsPowerModel power.now }
    requires marked { (notes : List LoopNote) × (wanted : Wanted) × (rule : BudgetRule) ×
        scalings.IsMarked power.now view.now notes wanted rule marked.now }
    ensures { (notes : List LoopNote) (wanted : Wanted) (rule : BudgetRule) →
        scalings.IsMarked power.now view.now notes wanted rule marked.now → AnswersBy (λ s. s) result
        (scalings.IsScalingFound power.now view.now notes marked.now.graph marked.now.tree wanted rule) }
{
    let graph = &marked.graph;
    let marking = &marked.marking;
    let start = marked.start;
    let stub_cycles = stub_cycles(alloc, graph, &marked.tree, &marking.sites, power)?;
    let stubs = stub_sites(alloc, view, power, marked)?;
    let (block, base) = block_of(alloc, view, &stubs)?;
    let edges = count_edges(graph, &marking.sites);
    let worst = marking.worst.total();
    let summary = Summary {
        start,
        worst,
        time: time_at(power, worst, start),
        deadline: power.deadline,
        stub_cycles,
        switch_edges: edges.switch,
        exit_edges: edges.exit,
        count_edges: edges.count,
        stub_bytes: block_len(&stubs),
    };
    Ok(Scaling {
        stubs,
        block,
        base,
        summary,
    })
}

/// The image with the jumps to the stubs and their block.
pub fn stored_file(
    alloc: Global,
    view: &ImageView<'_>,
    scaling: &Scaling,
) -> Result<Vec<u8>, NoMemory>
    requires read { image_of view.now.file ≡ Ok view.now }
    requires file { length view.now.file ≤ IMAGE_LIMIT }
    requires no_key { view.now.keyed_segment ≡ None }
    requires scaled { (power : PowerModel) × (notes : List LoopNote) × (v : FlowGraph) × (t : LoopView) × (wanted : Wanted) ×
        (rule : BudgetRule) × IsPowerModel power × scalings.IsScaled power view.now notes v t wanted rule scaling.now }
    ensures { IfOk result (λ out. out.items ≡ rewritten_file view.now (map site_of scaling.now.stubs.items) scaling.now.base
        scaling.now.summary.start) }
{
    let block = &scaling.block;
    write_image(
        alloc,
        view,
        &block.patches,
        scaling.base,
        &block.bytes,
        scaling.summary.start,
    )
}
