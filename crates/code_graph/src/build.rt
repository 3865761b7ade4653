//! The graph of an image's reached code.

ghost use Rattle.std.specs.Prelude.{◌≡◌, ◌≤◌, length, Ok, IfOk};
ghost use Rattle.scale_base.specs.Answer.{AnswersBy};
ghost use Rattle.scale_base.specs.Image.{image_of};
ghost use Rattle.cost_theory.specs.Reached.{HasNoBadWord, HasNoSharedCode};
ghost use Rattle.code_text.specs.Text.{text_of, kind_at};
ghost use Rattle.code_graph.specs.Building.{IsBuilt};
ghost use Rattle.code_graph.specs.Finding.{IsReachIn, reach_of};

use crate::blocks::blocks_of;
use crate::edges::{classes_of, edges_of};
use crate::ends::ends_of;
use crate::nodes::{callees_of, entries_of, nodes_of, returning_of};
use crate::reach::{TextReach, reach_text};
use crate::recursion::call_order_of;
use crate::refusals::{first_shared, least_refused, refusal_at};
use elf_image::ImageView;
use flow_graph::{CodeGraph, GraphLists};
use scale_base::{NoMemory, Refusal, Stop, WORD_LIMIT};
use std::alloc::Global;

/// The reached words of the text of an image.
fn reached_words(alloc: Global, view: &ImageView<'_>) -> Result<TextReach, NoMemory>
    ensures image { image_of view.now.file ≡ Ok view.now }
    ensures reach { IfOk result (λ reach. IsReachIn (text_of view.now) (reach_of reach)) }
    ensures few { IfOk result (λ reach. length reach.words.addresses ≤ WORD_LIMIT) }
{
    // The ranges of a text ascend, and begin and end at multiples of 4.
    let _ranges = view.text();
    reach_text(alloc, view)
}

/// The graph of reached code in which no address is refused and no code is shared. Refused only for recursion.
fn graph_of(alloc: Global, view: &ImageView<'_>, reach: &TextReach) -> Result<CodeGraph, Stop>
    requires image { image_of view.now.file ≡ Ok view.now }
    requires reach { IsReachIn (text_of view.now) (reach_of reach.now) }
    requires few { length reach.now.words.addresses ≤ WORD_LIMIT }
    requires words { HasNoBadWord (kind_at (text_of view.now)) view.now.entry }
    requires apart { HasNoSharedCode (kind_at (text_of view.now)) view.now.entry }
    ensures { AnswersBy (λ graph. graph) result (IsBuilt (text_of view.now)) }
{
    let nodes = nodes_of(alloc, reach)?;
    let functions = entries_of(alloc, reach)?;
    let returning = returning_of(alloc, reach)?;
    let callees = callees_of(alloc, reach, &nodes.kinds)?;
    let order = call_order_of(alloc, &functions, &nodes.owners, &callees)?;
    let lists = edges_of(alloc, &nodes.addresses, &nodes.kinds, &callees, &returning)?;
    let classes = classes_of(alloc, view, &lists.edges)?;
    let ends = ends_of(alloc, &nodes.addresses, &lists.edges)?;
    let blocks = blocks_of(alloc, &nodes, &functions, &lists, &ends)?;
    Ok(CodeGraph::of(GraphLists {
        nodes: nodes.addresses,
        kinds: nodes.kinds,
        owners: nodes.owners,
        callees,
        firsts: lists.firsts,
        edges: lists.edges,
        ends,
        classes,
        functions,
        returning,
        order,
        blocks,
    }))
}

/// The graph of the reached code of an image; or why it is refused. The least reached address decides that is misaligned, outside
/// the text, an illegal word, a JAL with another link, or a JALR that is no return, in this order; then the least address that two
/// functions share; then functions that call each other round. Want of memory may be answered instead.
pub fn build_graph(alloc: Global, view: &ImageView<'_>) -> Result<CodeGraph, Stop>
    ensures { AnswersBy (λ graph. graph) result (IsBuilt (text_of view.now)) }
{
    let reach = reached_words(alloc, view)?;
    if let Some(at) = least_refused(view, &reach) {
        return Err(Stop::Refused(refusal_at(view, at)));
    }
    if let Some(k) = first_shared(&reach.marks) {
        return Err(Stop::Refused(Refusal::SharedCode(reach.words.address(k))));
    }
    graph_of(alloc, view, &reach)
}
