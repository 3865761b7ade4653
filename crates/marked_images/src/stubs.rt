//! The stubs of a program, whatever chose its switches: its marked instructions with the fragments of their edges.

ghost use Rattle.std.specs.Prelude.{◌≡◌, ◌<◌, ◌≤◌, ◌^◌, ℕ, true, length, slice_get, option_map, ◌+◌, None, Some, Ok, IfSome, IfOk};
ghost use Rattle.scale_base.specs.Image.{image_of, is_word_address};
ghost use Rattle.scale_base.specs.Word.{FieldsInRange};
ghost use Rattle.code_text.specs.Text.{text_of, instr_at as instruction_at};
ghost use Rattle.scale_base.specs.declared.fragments.Mark.TheVariants as marks;
ghost use Rattle.scale_sites.specs.Sites.{marks_at_edge};
ghost use Rattle.scale_sites.specs.Weights.{switches};
ghost use Rattle.marked_images.specs.Scalings.{IsMarkedProgram, AreStubsFound};
ghost use Rattle.marked_images.specs.Markings.{HasMarking, IsToldAt, IsFragmentAt, AreFragmentsAt, AreEdgesAt};

use elf_image::ImageView;
use flow_graph::CodeGraph;
use least_cycles::LeastNumbers;
use level_tables::{
    EdgeNumbers, LevelBudgets, exit_rows_within, shift, tally_from_within, tally_shift,
};
use loop_forest::LoopTree;
use power_model::Power;
use rv_decode::decode;
use scale_base::{Fragment, Instr, Mark, NoMemory};
use scale_sites::{CounterList, Sites};
use std::alloc::Global;
use stub_writer::{EdgeList, FragmentList, StubEdge, StubSite};
use worst_cycles::WorstNumbers;

/// The marks of a program's edges, its numbers under the stored weights, and the budgets of its levels: what its stubs are made of.
#[derive(Drop)]
pub struct Marking {
    pub counters: CounterList,
    pub sites: Sites,
    pub worst: WorstNumbers,
    pub least: LeastNumbers,
    pub budgets: LevelBudgets,
}

/// The graph and the loops of a program, the marks of its edges with its numbers under the stored weights, and its starting level.
#[derive(Drop)]
pub struct Marked {
    pub graph: CodeGraph,
    pub tree: LoopTree,
    pub marking: Marking,
    pub start: u8,
}

/// What edge `e`, which has a mark that may store a level, tells its switch: its slack, and what is left behind the store at the speed port.
pub fn told_at(power: &Power, marked: &Marked, e: usize) -> EdgeNumbers
    requires marking { HasMarking power.now marked.now.graph marked.now.tree marked.now.marking }
    requires edge { e < length marked.now.graph.code.edges }
    requires switches { switches (marks_at_edge marked.now.marking.sites e) ≡ true }
    ensures told { IsToldAt power.now marked.now.graph marked.now.tree marked.now.marking e result }
    ensures slack { result.slack ≤ 2 ^ 50 }
    ensures least { IfSome result.least (λ z. z < 2 ^ 90) }
{
    let marking = &marked.marking;
    let edge = EdgeNumbers {
        slack: marking.worst.slack(e),
        left: marking.worst.rest(e),
        least: marking.least.to_end_after(e),
    };
    edge.with_tail(marking.sites.tail(e, &power.costs))
}

/// The code of an Exit on edge `e`: a row for each shifted count of its loop.
fn exit_of(power: &Power, marked: &Marked, e: usize, counter: u16) -> Fragment
    requires marking { HasMarking power.now marked.now.graph marked.now.tree marked.now.marking }
    requires edge { e < length marked.now.graph.code.edges }
    requires mark { (i : ℕ) × (slice_get (marks_at_edge marked.now.marking.sites e) i ≡ Some (marks.Exit counter)) }
    ensures { IsFragmentAt power.now marked.now.graph marked.now.tree marked.now.marking e (marks.Exit counter) result }
{
    let told = told_at(power, marked, e);
    let marking = &marked.marking;
    let l = *marking.counters.get(usize::from(counter - 2));
    let bound = marked.tree.bound(l);
    let iteration = marking.worst.iteration(l);
    Fragment::Exit {
        counter,
        shift: shift(bound),
        rows: exit_rows_within(power, &marking.budgets, bound, iteration, &told),
    }
}

/// The code of a Lowest on edge `e`: it stores where every level goes to the lowest.
fn lowest_of(power: &Power, marked: &Marked, e: usize) -> Fragment
    requires marking { HasMarking power.now marked.now.graph marked.now.tree marked.now.marking }
    requires edge { e < length marked.now.graph.code.edges }
    requires mark { (i : ℕ) × (slice_get (marks_at_edge marked.now.marking.sites e) i ≡ Some marks.Lowest) }
    ensures { IsFragmentAt power.now marked.now.graph marked.now.tree marked.now.marking e marks.Lowest result }
{
    let told = told_at(power, marked, e);
    Fragment::Lowest {
        down: told.lowest_within(power, &marked.marking.budgets),
    }
}

/// The code of a Tally on edge `e`: it stores from the least count on from which every level goes to the lowest.
fn tally_of(power: &Power, marked: &Marked, e: usize, counter: u16) -> Fragment
    requires marking { HasMarking power.now marked.now.graph marked.now.tree marked.now.marking }
    requires edge { e < length marked.now.graph.code.edges }
    requires mark { (i : ℕ) × (slice_get (marks_at_edge marked.now.marking.sites e) i ≡ Some (marks.Tally counter)) }
    ensures { IsFragmentAt power.now marked.now.graph marked.now.tree marked.now.marking e (marks.Tally counter) result }
{
    let told = told_at(power, marked, e);
    let marking = &marked.marking;
    let l = *marking.counters.get(usize::from(counter - 2));
    let bound = marked.tree.bound(l);
    let iteration = marking.worst.iteration(l);
    Fragment::Tally {
        counter,
        shift: tally_shift(bound),
        from: tally_from_within(power, &marking.budgets, bound, iteration, &told),
    }
}

/// The code of a mark on edge `e`.
pub fn fragment_of(power: &Power, marked: &Marked, e: usize, mark: Mark) -> Fragment
    requires marking { HasMarking power.now marked.now.graph marked.now.tree marked.now.marking }
    requires edge { e < length marked.now.graph.code.edges }
    requires mark { (i : ℕ) × (slice_get (marks_at_edge marked.now.marking.sites e) i ≡ Some mark) }
    ensures { IsFragmentAt power.now marked.now.graph marked.now.tree marked.now.marking e mark result }
{
    match mark {
        Mark::Switch => {
            let told = told_at(power, marked, e);
            Fragment::Switch {
                word: told.word_within(power, &marked.marking.budgets),
            }
        }
        Mark::Exit(counter) => exit_of(power, marked, e, counter),
        Mark::Reset(counter) => Fragment::Reset { counter },
        Mark::Count(counter) => Fragment::Count { counter },
        Mark::Lowest => lowest_of(power, marked, e),
        Mark::Tally(counter) => tally_of(power, marked, e, counter),
    }
}

/// The code of the marks of edge `e`.
fn fragments_at(
    alloc: Global,
    power: &Power,
    marked: &Marked,
    e: usize,
) -> Result<FragmentList, NoMemory>
    requires marking { HasMarking power.now marked.now.graph marked.now.tree marked.now.marking }
    requires edge { e < length marked.now.graph.code.edges }
    ensures { IfOk result (λ fs. AreFragmentsAt power.now marked.now.graph marked.now.tree marked.now.marking e fs) }
{
    let mut fragments = Vec::new(alloc);
    for mark in marked.marking.sites.marks(e) {
        fragments.push(fragment_of(power, marked, e, *mark))?;
    }
    Ok(FragmentList::from_vec(fragments))
}

/// The marked edges of node `k`.
fn stub_edges(
    alloc: Global,
    power: &Power,
    marked: &Marked,
    k: usize,
) -> Result<Vec<StubEdge>, NoMemory>
    requires marking { HasMarking power.now marked.now.graph marked.now.tree marked.now.marking }
    requires node { k < length marked.now.graph.code.nodes }
    ensures { IfOk result (λ es. AreEdgesAt power.now marked.now.graph marked.now.tree marked.now.marking k es.items) }
{
    let graph = &marked.graph;
    let (first, end) = graph.edges_of(k);
    let mut edges = Vec::new(alloc);
    for e in first..end {
        if !marked.marking.sites.marks(e).is_empty() {
            let edge = graph.edge(e);
            let fragments = fragments_at(alloc, power, marked, e)?;
            edges.push(StubEdge { edge, fragments })?;
        }
    }
    Ok(edges)
}

/// The instruction of the word at an address.
fn instr_at(view: &ImageView<'_>, at: u32) -> Option<Instr>
    requires { image_of view.now.file ≡ Ok view.now }
    ensures some { IfSome result (λ i. (is_word_address view.now at ≡ true) × (instruction_at (text_of view.now) at ≡ Some i) ×
        FieldsInRange i) }
    ensures none { result ≡ None → is_word_address view.now at ≡ true → instruction_at (text_of view.now) at ≡ None }
{
    let word = view.word_at(at)?;
    decode(word)
}

/// The marked instructions, ascending.
pub fn stub_sites(
    alloc: Global,
    view: &ImageView<'_>,
    power: &Power,
    marked: &Marked,
) -> Result<Vec<StubSite>, NoMemory>
    requires image { image_of view.now.file ≡ Ok view.now }
    requires program { IsMarkedProgram power.now view.now marked.now.graph marked.now.tree marked.now.marking }
    ensures { IfOk result (λ stubs. AreStubsFound power.now view.now marked.now.graph marked.now.tree marked.now.marking stubs.items) }
{
    let graph = &marked.graph;
    let mut stubs = Vec::new(alloc);
    for k in 0..graph.node_count() {
        let edges = stub_edges(alloc, power, marked, k)?;
        let at = graph.node(k);
        if !edges.is_empty() {
            if let Some(instr) = instr_at(view, at) {
                stubs.push(StubSite {
                    at,
                    instr,
                    edges: EdgeList::from_vec(edges),
                })?;
            }
        }
    }
    Ok(stubs)
}
