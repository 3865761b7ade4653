//! A program that stands ready: its graph, its loops and its worst case are found once, for every choice of a least gain and of counters.

ghost use Rattle.std.specs.Prelude.{◌≡◌, ◌≤◌, ℕ, List, length, map, None, Ok, IfOk};
ghost use Rattle.scale_base.specs.Answer.{AnswersBy};
ghost use Rattle.scale_base.specs.Image.{Image, image_of};
ghost use Rattle.power_model.specs.Numbers.{IsPowerModel};
ghost use Rattle.code_text.specs.Text.{text_of};
ghost use Rattle.flow_graph.specs.FlowGraph.{IsGraphOf};
ghost use Rattle.loop_file.specs.declared.notes.LoopNote.{LoopNote};
ghost use Rattle.loop_file.specs.Notes.{uncounted_note};
ghost use Rattle.loop_forest.specs.Tree.{LoopView, IsTreeOf};
ghost use Rattle.marked_images.specs.Promise.{IsStoredSafely};
ghost use Rattle.scaler.specs.Held.{IsHeld};
ghost use Rattle.scaler.specs.Prepared.{IsMarkingFrom, IsPrepared, IsPreparedFound, IsReady, IsReadyWith, exchanged};
ghost use Rattle.scaler.specs.Rewritten.{IsRewrittenProgram};
ghost use Rattle.scaler.specs.RewrittenAs as variant;
ghost use Rattle.scaler.specs.RewrittenAs.{IsRewrittenAs};

use crate::holding::hold_timed;
use crate::rewriting::rewrite_marked;
use crate::rewriting_as::with_gain;
use crate::timing::TimedProgram;
use elf_image::ImageView;
use flow_graph::CodeGraph;
use loop_file::LoopNotes;
use loop_forest::LoopTree;
use loop_tree::build_loops;
use marked_images::{EdgeMarks, Marked, Marking, marking_with};
use power_model::Power;
use program_sources::Sources;
use scale_base::{FILE_LIMIT, IMAGE_LIMIT, NoMemory, Stop, Summary};
use scale_sites::{choose, counters};
use std::alloc::Global;
use worst_cycles::WorstNumbers;

/// The graph and the loops of a program.
#[derive(Drop)]
pub struct LoopedGraph {
    pub graph: CodeGraph,
    pub tree: LoopTree,
}

/// A program of three files, in time at some level: its machine, its image, its graph and its loops with their worst case, and its loops
/// where none is counted. The two trees of loops differ in what is counted alone.
#[derive(Drop)]
pub struct PreparedProgram<'a> {
    pub power: Power,
    pub view: ImageView<'a>,
    pub program: TimedProgram,
    pub uncounted: LoopTree,
}

/// The number of cycles of slack from which on an edge gets a switch.
fn least_gain(power: &Power) -> u32
    ensures { result ≡ power.now.min_gain }
{
    power.min_gain
}

/// The tree of the loops of notes that leave out what is counted, where the tree of the others is known.
fn tree_of(alloc: Global, graph: &CodeGraph, notes: &LoopNotes) -> Result<LoopTree, NoMemory>
    requires flow { (image : Image) × IsGraphOf (text_of image) graph.now }
    requires tree { (noted : List LoopNote) × (tree : LoopView) × IsTreeOf graph.now noted tree × (notes.now ≡ map uncounted_note noted) }
    ensures { IfOk result (λ tree. IsTreeOf graph.now notes.now tree) }
{
    match build_loops(alloc, graph, notes) {
        Ok(tree) => Ok(tree),
        Err(Stop::Memory) => Err(NoMemory),
        Err(Stop::Refused(_)) => unreachable!(),
    }
}

/// The marks of a program's edges by the slacks of its worst case, with its numbers under the stored weights, if these are in time, and its
/// starting level.
fn marking_from(
    alloc: Global,
    power: &Power,
    program: &LoopedGraph,
    plain: &WorstNumbers,
) -> Result<(Marking, u8), Stop>
    requires { (image : Image) × (notes : List LoopNote) × IsReady power.now image notes program.now plain.now }
    ensures { (image : Image) (notes : List LoopNote) → IsReady power.now image notes program.now plain.now →
        AnswersBy (λ x. x) result (IsMarkingFrom power.now image notes program.now) }
{
    let graph = &program.graph;
    let tree = &program.tree;
    let counters = counters(alloc, graph, tree)?;
    let sites = choose(
        alloc,
        graph,
        tree,
        &counters,
        plain.slacks(),
        power.min_gain,
    )?;
    marking_with(alloc, power, graph, tree, EdgeMarks { counters, sites })
}

/// The image of a program with its stubs, or the first refusal of its counters or of its numbers; and the program again.
fn rewrite_looped(
    alloc: Global,
    view: &ImageView<'_>,
    power: &Power,
    program: LoopedGraph,
    plain: &WorstNumbers,
) -> (LoopedGraph, Result<(Vec<u8>, Summary), Stop>)
    requires read { image_of view.now.file ≡ Ok view.now }
    requires file { length view.now.file ≤ IMAGE_LIMIT }
    requires no_key { view.now.keyed_segment ≡ None }
    requires power { IsPowerModel power.now }
    requires ready { (notes : List LoopNote) × IsReady power.now view.now notes program plain.now }
    ensures same { result.0 ≡ program }
    ensures given { (notes : List LoopNote) → IsReady power.now view.now notes program plain.now →
        AnswersBy (λ given. (given.0.items, given.1)) result.1 (IsRewrittenProgram power.now view.now notes) }
{
    match marking_from(alloc, power, &program, plain) {
        Ok((marking, start)) => {
            let marked = Marked {
                graph: program.graph,
                tree: program.tree,
                marking,
                start,
            };
            let made = rewrite_marked(alloc, view, power, &marked);
            let program = LoopedGraph {
                graph: marked.graph,
                tree: marked.tree,
            };
            (program, made)
        }
        Err(stop) => (program, Err(stop)),
    }
}

impl<'a> PreparedProgram<'a> {
    /// The program of three files, or the first refusal, as `hold` has it.
    pub fn of(
        alloc: Global,
        image: &'a [u8],
        machine: &[u8],
        loops: &[u8],
    ) -> Result<PreparedProgram<'a>, Stop>
        ensures { AnswersBy (λ p. p) result (IsPreparedFound image.now machine.now loops.now) }
    {
        let sources = Sources::read(alloc, image, machine, loops)?;
        let program = TimedProgram::of(alloc, &sources)?;
        let notes = sources.notes.uncounted();
        let uncounted = tree_of(alloc, &program.graph, &notes)?;
        Ok(PreparedProgram {
            power: sources.power,
            view: sources.view,
            program,
            uncounted,
        })
    }

    /// What `hold` gives of the files.
    pub fn held(&self, alloc: Global) -> Result<(Vec<u8>, Summary), NoMemory>
        requires { (image : List ℕ) × (machine : List ℕ) × (loops : List ℕ) × (length image ≤ IMAGE_LIMIT) ×
            IsPrepared image machine loops self.now }
        ensures { (image machine loops : List ℕ) → IsPrepared image machine loops self.now →
            IfOk result (λ given. IsHeld image machine loops (Ok ((given.0.items, given.1)))) }
    {
        hold_timed(alloc, &self.view, &self.power, &self.program)
    }

    /// The program with its two trees of loops exchanged.
    fn exchanged(self) -> PreparedProgram<'a>
        ensures { result ≡ exchanged self.entry }
    {
        let program = self.program;
        PreparedProgram {
            power: self.power,
            view: self.view,
            program: TimedProgram {
                graph: program.graph,
                tree: self.uncounted,
                weights: program.weights,
                worst: program.worst,
                start: program.start,
            },
            uncounted: program.tree,
        }
    }

    /// The image with the stubs that the first of its trees asks for under this least gain, or the first refusal; and the program again.
    fn rewritten_by_tree(
        self,
        alloc: Global,
        min_gain: u32,
    ) -> (PreparedProgram<'a>, Result<(Vec<u8>, Summary), Stop>)
        requires read { image_of self.view.file ≡ Ok self.view }
        requires file { length self.view.file ≤ IMAGE_LIMIT }
        requires no_key { self.view.keyed_segment ≡ None }
        requires power { IsPowerModel self.power }
        requires ready { (notes : List LoopNote) × IsReadyWith self min_gain notes }
        ensures same { result.0 ≡ self.entry }
        ensures given { (notes : List LoopNote) → IsReadyWith self.entry min_gain notes →
            AnswersBy (λ given. (given.0.items, given.1)) result.1 (IsRewrittenProgram (variant.with_gain self.entry.power min_gain)
            self.entry.view notes) }
    {
        let own_gain = least_gain(&self.power);
        let power = with_gain(self.power, min_gain);
        let view = self.view;
        let program = self.program;
        let worst = program.worst;
        let looped = LoopedGraph {
            graph: program.graph,
            tree: program.tree,
        };
        let (looped, made) = rewrite_looped(alloc, &view, &power, looped, &worst);
        let timed = TimedProgram {
            graph: looped.graph,
            tree: looped.tree,
            weights: program.weights,
            worst,
            start: program.start,
        };
        let prepared = PreparedProgram {
            power: with_gain(power, own_gain),
            view,
            program: timed,
            uncounted: self.uncounted,
        };
        (prepared, made)
    }

    /// What `rewrite_as` gives of the files: an image, or the first refusal; and the program again, for the next choice.
    pub fn rewritten(
        self,
        alloc: Global,
        min_gain: u32,
        counters: bool,
    ) -> (PreparedProgram<'a>, Result<(Vec<u8>, Summary), Stop>)
        requires { (image : List ℕ) × (machine : List ℕ) × (loops : List ℕ) × (length image ≤ IMAGE_LIMIT) ×
            IsPrepared image machine loops self }
        ensures same { result.0 ≡ self.entry }
        ensures given { (image machine loops : List ℕ) → IsPrepared image machine loops self.entry →
            AnswersBy (λ given. (given.0.items, given.1)) result.1 (IsRewrittenAs image machine loops min_gain counters) }

        // On each input on which the original run exits and is kept, by the files' own notes, the stored run keeps the promise.
        ensures safe { (image machine loops : List ℕ) → length image ≤ IMAGE_LIMIT → length machine ≤ FILE_LIMIT →
            length loops ≤ FILE_LIMIT → IsPrepared image machine loops self.entry →
            IfOk result.1 (λ given. IsStoredSafely image machine loops given.0.items given.1) }
    {
        if counters {
            self.rewritten_by_tree(alloc, min_gain)
        } else {
            let (program, made) = self.exchanged().rewritten_by_tree(alloc, min_gain);
            (program.exchanged(), made)
        }
    }
}
