//! The draft of an image's loop file, and whether its loops are taken.

ghost use Rattle.std.specs.Prelude.{◌≡◌, ℕ, codes, vec_len, Bool, true, IfOk, IfSome, None};
ghost use Rattle.scale_base.specs.Answer.{AnswersBy, Refuses};
ghost use Rattle.scale_base.specs.declared.refusal.Refusal.TheVariants.{TooLarge};
ghost use Rattle.code_text.specs.Text.{text_of};
ghost use Rattle.flow_graph.specs.FlowGraph.{IsGraphOf};
ghost use Rattle.loop_forest.specs.Tree.{IsLoopTree};
ghost use Rattle.loop_drafts.specs.Bounds.{AreBoundsFound};
ghost use Rattle.loop_drafts.specs.Pieces.{HasFirstLines, printed};
ghost use Rattle.loop_drafts.specs.Countable.{AreCountable, IsCountable};
ghost use Rattle.loop_drafts.specs.Trusting.{IsAllowed, trusted_stores};
ghost use Rattle.loop_drafts.specs.Drafted.{AreTried, AreNotesTaken, ArePiecesRead, ArePiecesChecked, IsDraftTried, IsGraphDrafted, IsDraftedImage, IsDrafted};

use crate::bounds::{Bounds, Wanted, find_bounds, open_all};
use crate::draft::{Reason, unknown};
use crate::drafted::{LoopDraft, Piece, byte_count, count_open, filled_text};
use crate::found::FoundLoops;
use crate::noted::{GREATEST_BOUND, are_wanted, count_bounded};
use crate::remarks::{Remarks, turns_of};
use crate::search::find_loops;
use crate::texts::{FirstLines, pieces_of};
use crate::trusted::Trusted;
use crate::trusting::Trust;
use code_graph::build_graph;
use code_names::{Names, names_of};
use debug_lines::{Lines, lines_of};
use elf_image::ImageView;
use elf_view::read_image;
use flow_graph::CodeGraph;
use loop_file::{LoopNote, LoopNotes, read_loops};
use loop_forest::LoopTree;
use loop_tree::build_loops;
use run_progress::Progress;
use scale_base::{FILE_LIMIT, Name, NoMemory, Refusal, Stop};
use scale_sites::counters;
use std::alloc::Global;
use turn_counts::Turns;

const MOST_LOOPS: usize = 4096;

/// A file with more bytes has brief comments.
const MOST_REMARKED: usize = 900_000;

// The refusal of a file that is too long to be loaded.
fn too_long(alloc: Global) -> Stop
    ensures { Refuses result (TooLarge (codes "LOOPS")) }
{
    match String::from_str(alloc, "LOOPS") {
        Ok(name) => Stop::Refused(Refusal::TooLarge(Name::new(name))),
        Err(_) => Stop::Memory,
    }
}

// Why the loops of notes are refused. None where they are taken.
fn refusal_of(
    alloc: Global,
    graph: &CodeGraph,
    notes: &LoopNotes,
) -> Result<Option<Refusal>, NoMemory>
    ensures { IfOk result (AreTried graph.now notes.now) }
{
    match build_loops(alloc, graph, notes) {
        Ok(_) => Ok(None),
        Err(Stop::Refused(refusal)) => Ok(Some(refusal)),
        Err(Stop::Memory) => Err(NoMemory),
    }
}

// Whether the loops of notes are taken. They need not be where there are parts of the code that turn and are no loops: for such code every loop file
// is refused.
fn check_loops(
    alloc: Global,
    graph: &CodeGraph,
    notes: &LoopNotes,
    aside: usize,
) -> Result<(), Stop>
    ensures { AnswersBy (λ taken. taken) result (AreNotesTaken graph.now notes.now aside) }
{
    let Some(refusal) = refusal_of(alloc, graph, notes)? else {
        return Ok(());
    };
    if aside > 0 {
        return Ok(());
    }
    Err(Stop::Refused(refusal))
}

// Whether a rewritten image takes what is noted as counted. Nothing is proved of what is proposed, so that it is looked at.
fn are_counters_taken(alloc: Global, graph: &CodeGraph, tree: &LoopTree) -> Result<bool, NoMemory>
    requires { (extent : ℕ → ℕ → Bool) × IsLoopTree graph.now extent tree.now }
    ensures { IfOk result (λ taken. taken ≡ true → IsCountable graph.now tree.now) }
{
    match counters(alloc, graph, tree) {
        Ok(_) => Ok(true),
        Err(Stop::Refused(_)) => Ok(false),
        Err(Stop::Memory) => Err(NoMemory),
    }
}

// Whether it takes what notes count, where their loops are taken.
fn are_counts_taken(
    alloc: Global,
    graph: &CodeGraph,
    notes: &LoopNotes,
    aside: usize,
) -> Result<bool, NoMemory>
    ensures { IfOk result (λ taken. taken ≡ true → AreCountable graph.now notes.now aside) }
{
    match build_loops(alloc, graph, notes) {
        Ok(tree) => are_counters_taken(alloc, graph, &tree),
        Err(Stop::Refused(_)) => Ok(aside > 0),
        Err(Stop::Memory) => Err(NoMemory),
    }
}

// The notes of the file that the pieces are of, with a bound for each loop.
fn read_pieces(alloc: Global, view: &ImageView<'_>, pieces: &[Piece]) -> Result<LoopNotes, Stop>
    ensures { AnswersBy (λ notes. notes) result (ArePiecesRead view.now pieces.now) }
{
    let text = filled_text(alloc, pieces, GREATEST_BOUND)?;
    let bytes = text.as_bytes();
    if bytes.len() > FILE_LIMIT {
        return Err(too_long(alloc));
    }
    read_loops(alloc, bytes, view)
}

/// What is told of a program: some of its inputs, on which it is run, of which comments tell; how many bytes an input has at most, where that is told; and
/// whether stores of which nothing is known are trusted to change no word of the stack that is kept, where that shows more.
#[derive(Clone, Copy)]
pub struct DraftInputs<'a> {
    pub items: &'a [Vec<u8>],
    pub most: Option<u32>,
    pub trusts: bool,
}

/// An image with its graph, the loops that are found in it, the names and the source lines of its places, how the loops turned in runs, how many bytes an input
/// has at most, where that is told, whether stores are trusted, and some inputs.
#[derive(Drop)]
struct Sketch<'a> {
    view: &'a ImageView<'a>,
    graph: &'a CodeGraph,
    found: FoundLoops,
    names: Names<'a>,
    lines: Lines<'a>,
    turns: Turns,
    most: Option<u32>,
    trusts: bool,
    inputs: &'a [Vec<u8>],
}

// What the comments tell.
fn remarks_of<'a>(sketch: &'a Sketch<'a>) -> Remarks<'a> {
    Remarks {
        names: &sketch.names,
        lines: Some(&sketch.lines),
        turns: Some(&sketch.turns),
    }
}

// Whether the file that the pieces are of has the notes that are wanted, and counts what can be counted. Then its loops are taken.
fn check_pieces(
    alloc: Global,
    sketch: &Sketch<'_>,
    pieces: &[Piece],
    wanted: &[LoopNote],
) -> Result<bool, Stop>
    ensures { AnswersBy (λ same. same) result (ArePiecesChecked sketch.now.view.now sketch.now.graph.now pieces.now wanted.now
        (vec_len sketch.now.found.aside)) }
{
    let notes = read_pieces(alloc, sketch.view, pieces)?;
    if !are_wanted(&notes, wanted) {
        return Ok(false);
    }
    let aside = sketch.found.aside.len();
    check_loops(alloc, sketch.graph, &notes, aside)?;
    let taken = are_counts_taken(alloc, sketch.graph, &notes, aside)?;
    if !taken {
        return Ok(false);
    }
    Ok(true)
}

// The pieces with the bounds that are found. Where the file would be long, its comments tell neither source lines nor turns.
fn pieces_with(alloc: Global, sketch: &Sketch<'_>, bounds: &Bounds) -> Result<Vec<Piece>, NoMemory>
    ensures { IfOk result (λ pieces. HasFirstLines sketch.now.most bounds.now.returns (trusted_stores bounds.now.trust) (printed pieces.items)) }
{
    let remarks = remarks_of(sketch);
    let found = &sketch.found;
    let returns = bounds.returns;
    let first = FirstLines {
        returns,
        most: sketch.most,
        trusted: Trusted {
            graph: sketch.graph,
            trust: &bounds.trust,
            tried: &bounds.tried,
        },
    };
    let pieces = pieces_of(alloc, &remarks, found, &bounds.known, first)?;
    if byte_count(&pieces) <= MOST_REMARKED {
        return Ok(pieces);
    }
    pieces_of(alloc, &remarks.brief(), found, &bounds.known, first)
}

// The draft with the bounds that are found, where its file has them.
fn draft_bounds(
    alloc: Global,
    sketch: &Sketch<'_>,
    bounds: Bounds,
) -> Result<Option<LoopDraft>, Stop>
    requires graph { IsGraphOf (text_of sketch.now.view.now) sketch.now.graph.now }
    requires found { AreBoundsFound sketch.now.view.now sketch.now.most bounds.notes.items bounds.returns bounds.trust }
    ensures drafted { AnswersBy (λ draft. draft) result (IsDraftTried sketch.now.view.now sketch.now.most sketch.now.graph.now) }
    ensures trust { IfOk result (λ draft. IfSome draft (λ draft. draft.trust ≡ bounds.trust)) }
{
    let pieces = pieces_with(alloc, sketch, &bounds)?;
    if !check_pieces(alloc, sketch, &pieces, &bounds.notes)? {
        return Ok(None);
    }
    let unbounded = count_open(&pieces);
    Ok(Some(LoopDraft {
        pieces,
        loops: bounds.notes.len(),
        proved: count_bounded(&bounds.notes),
        unbounded,
        aside: sketch.found.aside.len(),
        returns: bounds.returns,
        trust: bounds.trust,
    }))
}

// The draft without bounds. Nothing is proved of the texts, so that here too it is looked at whether the file has the notes that are wanted. It always has.
fn draft_open(alloc: Global, sketch: &Sketch<'_>, notes: &LoopNotes) -> Result<LoopDraft, Stop>
    requires { IsGraphOf (text_of sketch.now.view.now) sketch.now.graph.now }
    ensures drafted { AnswersBy (λ draft. draft) result (IsGraphDrafted sketch.now.view.now sketch.now.most sketch.now.graph.now) }
    ensures allowed { IfOk result (λ draft. IsAllowed sketch.now.trusts draft.trust) }
{
    let bounds = open_all(alloc, notes, Reason::NotConfirmed)?;
    match draft_bounds(alloc, sketch, bounds)? {
        Some(draft) => Ok(draft),
        None => Err(Stop::Memory),
    }
}

// The draft with the bounds that are found for the notes of a file without bounds, where its file has them.
fn draft_found(
    alloc: Global,
    sketch: &Sketch<'_>,
    notes: &LoopNotes,
    counts: bool,
) -> Result<Option<LoopDraft>, Stop>
    requires { IsGraphOf (text_of sketch.now.view.now) sketch.now.graph.now }
    ensures drafted { AnswersBy (λ draft. draft) result (IsDraftTried sketch.now.view.now sketch.now.most sketch.now.graph.now) }
    ensures allowed { IfOk result (λ draft. IfSome draft (λ draft. IsAllowed sketch.now.trusts draft.trust)) }
{
    let wanted = Wanted {
        notes,
        inputs: sketch.inputs,
        counts,
        most: sketch.most,
        trusts: sketch.trusts,
    };
    let bounds = find_bounds(alloc, sketch.view, sketch.graph, wanted)?;
    draft_bounds(alloc, sketch, bounds)
}

// The same that counts no loops, or else the draft without bounds.
fn draft_uncounted(alloc: Global, sketch: &Sketch<'_>, notes: &LoopNotes) -> Result<LoopDraft, Stop>
    requires { IsGraphOf (text_of sketch.now.view.now) sketch.now.graph.now }
    ensures drafted { AnswersBy (λ draft. draft) result (IsGraphDrafted sketch.now.view.now sketch.now.most sketch.now.graph.now) }
    ensures allowed { IfOk result (λ draft. IsAllowed sketch.now.trusts draft.trust) }
{
    match draft_found(alloc, sketch, notes, false)? {
        Some(draft) => Ok(draft),
        None => draft_open(alloc, sketch, notes),
    }
}

// The draft of a sketch. Where a rewritten image doesn't take what it counts, none that counts: it always does, since no other loops are proposed.
fn draft_sketch(alloc: Global, sketch: &Sketch<'_>) -> Result<LoopDraft, Stop>
    requires { IsGraphOf (text_of sketch.now.view.now) sketch.now.graph.now }
    ensures drafted { AnswersBy (λ draft. draft) result (IsGraphDrafted sketch.now.view.now sketch.now.most sketch.now.graph.now) }
    ensures allowed { IfOk result (λ draft. IsAllowed sketch.now.trusts draft.trust) }
{
    let known = unknown(alloc, sketch.found.loops.len())?;
    let remarks = remarks_of(sketch).brief();
    let none = Trust::none(alloc);
    let first = FirstLines {
        returns: false,
        most: sketch.most,
        trusted: Trusted {
            graph: sketch.graph,
            trust: &none,
            tried: &[],
        },
    };
    let pieces = pieces_of(alloc, &remarks, &sketch.found, &known, first)?;
    let notes = read_pieces(alloc, sketch.view, &pieces)?;
    match draft_found(alloc, sketch, &notes, true)? {
        Some(draft) => Ok(draft),
        None => draft_uncounted(alloc, sketch, &notes),
    }
}

/// The draft of the loops of a graph, or why they have none.
fn draft_graph<'a, P: Progress>(
    alloc: Global,
    view: &'a ImageView<'a>,
    graph: &'a CodeGraph,
    inputs: &DraftInputs<'_>,
    progress: &mut P,
) -> Result<LoopDraft, Stop>
    requires plain { view.now.keyed_segment ≡ None }
    requires graph { IsGraphOf (text_of view.now) graph.now }
    ensures drafted { AnswersBy (λ draft. draft) result (IsGraphDrafted view.now inputs.now.most graph.now) }
    ensures allowed { IfOk result (λ draft. IsAllowed inputs.now.trusts draft.trust) }
{
    let found = find_loops(alloc, graph)?;
    let count = found.loops.len();
    if count > MOST_LOOPS {
        return Err(Stop::Refused(Refusal::TooManyLoops(count.min(0xFFFF_FFFF) as u32)));
    }
    let names = names_of(alloc, view)?;
    let lines = lines_of(alloc, view)?;
    let turns = turns_of(alloc, view, &found.loops, inputs.items, progress)?;
    let sketch = Sketch {
        view,
        graph,
        found,
        names,
        lines,
        turns,
        most: inputs.most,
        trusts: inputs.trusts,
        inputs: inputs.items,
    };
    draft_sketch(alloc, &sketch)
}

/// The draft of an image without a keyed segment.
fn draft_plain<P: Progress>(
    alloc: Global,
    view: &ImageView<'_>,
    inputs: &DraftInputs<'_>,
    progress: &mut P,
) -> Result<LoopDraft, Stop>
    requires { view.now.keyed_segment ≡ None }
    ensures drafted { AnswersBy (λ draft. draft) result (IsDraftedImage view.now inputs.now.most) }
    ensures allowed { IfOk result (λ draft. IsAllowed inputs.now.trusts draft.trust) }
{
    let graph = build_graph(alloc, view)?;
    draft_graph(alloc, view, &graph, inputs, progress)
}

/// The draft of an image.
fn draft_image<P: Progress>(
    alloc: Global,
    view: &ImageView<'_>,
    inputs: &DraftInputs<'_>,
    progress: &mut P,
) -> Result<LoopDraft, Stop>
    ensures drafted { AnswersBy (λ draft. draft) result (IsDraftedImage view.now inputs.now.most) }
    ensures allowed { IfOk result (λ draft. IsAllowed inputs.now.trusts draft.trust) }
{
    match view.keyed() {
        Some(_) => Err(Stop::Refused(Refusal::AlreadyScaled)),
        None => draft_plain(alloc, view, inputs, progress),
    }
}

/// The draft of the loop file of an image, or the first refusal, as `hold` has it: of the image, of a keyed segment, and of the reached code; then of more
/// than 4,096 loops, of a file of more than 1,048,576 bytes, and of loops nested more than 16 deep.
///
/// A loop has a bound where the code shows one by itself, by a register or a word of the stack that each turn moves on, or by the input that each turn reads.
/// Where it is told how many bytes an input has at most, bounds are for inputs that have no more, and the file says so. Any other loop stands without one. With
/// any bounds filled in, the loops are taken where no part of the code that turns is entered at several places.
///
/// Comments tell of each loop its source line, where the image has debug lines, and how it turned in the image's runs on the inputs, each of at most 10,000,000
/// steps, where there are inputs. Where the file would have more than 900,000 bytes with these, they are left out. They change nothing of what is promised, and nothing
/// is promised of them. How far these runs are is told.
pub fn draft_loops<P: Progress>(
    alloc: Global,
    image: &[u8],
    inputs: &DraftInputs<'_>,
    progress: &mut P,
) -> Result<LoopDraft, Stop>
    ensures drafted { AnswersBy (λ draft. draft) result (IsDrafted image.now inputs.now.most) }
    ensures allowed { IfOk result (λ draft. IsAllowed inputs.now.trusts draft.trust) }
{
    let view = read_image(alloc, image)?;
    draft_image(alloc, &view, inputs, progress)
}
