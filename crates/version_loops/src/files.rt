//! The loop file of a version.

ghost use Rattle.std.specs.Prelude.{◌≡◌, ◌≤◌, length, string_bytes, None, Ok, IfOk, IfSome};
ghost use Rattle.scale_base.specs.declared.limits.TheConstants.{FILE_LIMIT};
ghost use Rattle.code_text.specs.Text.{text_of};
ghost use Rattle.flow_graph.specs.FlowGraph.{IsGraphOf};
ghost use Rattle.loop_file.specs.Loops.{read_loops};
ghost use Rattle.loop_drafts.specs.Drafted.{filled_most, IsDrafted};
ghost use Rattle.loop_drafts.specs.Trusting.{AreNoneTrusted};
ghost use Rattle.loop_drafts.specs.Kept.{AreBytes};
ghost use Rattle.copy_bounds.specs.Meanings.{meaning};
ghost use Rattle.copy_checks.specs.Checked.{AreMeant};
ghost use Rattle.versioned_images.specs.Versions.{IsVersionOf};
ghost use Rattle.version_loops.specs.Checked.{AreNotesDrafted, AreNotesOf, IsRightFile, IsShownFile};
ghost use Rattle.version_loops.specs.VersionFile.{IsVersionFile};

use crate::checking::{OPEN_BOUND, VersionNotes, are_right};
use crate::proposing::{Proposed, propose};
use code_graph::build_graph;
use copy_checks::{CopiedCode, CopyCode, Meant, are_calls_kept, meanings_of};
use elf_image::ImageView;
use elf_view::read_image;
use flow_graph::CodeGraph;
use loop_drafts::{DraftInputs, LoopDraft, draft_loops, filled_text};
use loop_file::{LoopNotes, read_loops};
use loop_tree::build_loops;
use run_progress::Progress;
use scale_base::{FILE_LIMIT, NoMemory, Stop};
use std::alloc::Global;
use versioned_images::Version;

/// An image and its loop file.
#[derive(Clone, Copy)]
pub struct VersionedProgram<'a> {
    pub image: &'a [u8],
    pub loops: &'a [u8],
}

// A version with the image and the graph of its file, the notes of its original and those of its own draft.
#[derive(Clone, Copy)]
struct VersionCase<'a> {
    version: &'a Version,
    view: &'a ImageView<'a>,
    graph: &'a CodeGraph,
    olds: &'a LoopNotes,
    drafted: &'a LoopNotes,
}

// The numbers in a file are bytes.
fn are_bytes(file: &[u8])
    ensures { AreBytes file.now }
{}

// The notes of a program.
fn notes_of(alloc: Global, program: &VersionedProgram<'_>) -> Result<LoopNotes, Stop>
    ensures { IfOk result (AreNotesOf program.now.image.now program.now.loops.now) }
{
    let view = read_image(alloc, program.image)?;
    read_loops(alloc, program.loops, &view)
}

// The draft of a version's loops, for inputs however long.
fn draft_of<P: Progress>(
    alloc: Global,
    version: &Version,
    progress: &mut P,
) -> Result<LoopDraft, Stop>
    ensures drafted { IfOk result (λ draft. IsDrafted version.now.file.items None (Ok draft)) }
    ensures untrusting { IfOk result (λ draft. AreNoneTrusted draft.trust) }
{
    let inputs = DraftInputs {
        items: &[],
        most: None,
        trusts: false,
    };
    draft_loops(alloc, &version.file, &inputs, progress)
}

// The notes of a draft, with the greatest bound for each loop that has none.
fn filled_notes(alloc: Global, view: &ImageView<'_>, draft: &LoopDraft) -> Result<LoopNotes, Stop>
    ensures { IfOk result (λ notes. read_loops view.now (filled_most draft.now.pieces.items) ≡ Ok notes) }
{
    let text = filled_text(alloc, &draft.pieces, OPEN_BOUND)?;
    read_loops(alloc, text.as_bytes(), view)
}

// The notes of the draft of a version.
fn drafted_notes<P: Progress>(
    alloc: Global,
    version: &Version,
    view: &ImageView<'_>,
    progress: &mut P,
) -> Result<LoopNotes, Stop>
    ensures { IfOk result (AreNotesDrafted version.now.file.items view.now) }
{
    let draft = draft_of(alloc, version, progress)?;
    filled_notes(alloc, view, &draft)
}

// What is proposed, where the notes of its file are right.
fn right_text(
    alloc: Global,
    view: &ImageView<'_>,
    notes: &VersionNotes<'_>,
    proposed: Proposed,
) -> Result<Option<String>, Stop>
    ensures right { IfOk result (λ file. IfSome file (λ text. IsRightFile view.now notes.now.code notes.now.olds.now notes.now.drafted.now
        (string_bytes text))) }
    ensures short { IfOk result (λ file. IfSome file (λ text. length (string_bytes text) ≤ FILE_LIMIT)) }
{
    let Proposed { text, reasons } = proposed;
    if text.len() > FILE_LIMIT {
        return Ok(None);
    }
    let own = read_loops(alloc, text.as_bytes(), view)?;
    if are_right(notes, &own, &reasons) {
        Ok(Some(text))
    } else {
        Ok(None)
    }
}

// What is proposed for the drafted loops of a version, where it is right.
fn proposed_text(
    alloc: Global,
    view: &ImageView<'_>,
    notes: &VersionNotes<'_>,
) -> Result<Option<String>, Stop>
    ensures right { IfOk result (λ file. IfSome file (λ text. IsRightFile view.now notes.now.code notes.now.olds.now notes.now.drafted.now
        (string_bytes text))) }
    ensures short { IfOk result (λ file. IfSome file (λ text. length (string_bytes text) ≤ FILE_LIMIT)) }
{
    let tree = build_loops(alloc, notes.code.graph, notes.drafted)?;
    match propose(alloc, notes, &tree)? {
        Some(proposed) => right_text(alloc, view, notes, proposed),
        None => Ok(None),
    }
}

// The same by what the nodes of a version stand for, where its copies keep to the inlined calls that are open.
fn meant_text(
    alloc: Global,
    case: &VersionCase<'_>,
    meant: &[Meant],
) -> Result<Option<String>, Stop>
    requires graph { IsGraphOf (text_of case.now.view.now) case.now.graph.now }
    requires meant { AreMeant (meaning case.now.version.now.pieces.items case.now.version.now.sites.items case.now.version.now.base)
        case.now.graph.now.code.nodes meant.now }
    ensures shown { IfOk result (λ file. IfSome file (λ text. IsShownFile case.now.view.now case.now.graph.now case.now.version.now
        case.now.olds.now case.now.drafted.now (string_bytes text))) }
    ensures short { IfOk result (λ file. IfSome file (λ text. length (string_bytes text) ≤ FILE_LIMIT)) }
{
    if !are_calls_kept(case.graph, meant) {
        return Ok(None);
    }
    let code = CopyCode {
        graph: case.graph,
        entry: case.view.entry(),
        meant,
    };
    let notes = VersionNotes {
        code,
        olds: case.olds,
        drafted: case.drafted,
    };
    proposed_text(alloc, case.view, &notes)
}

// The loop file of a version with its graph.
fn shown_text(alloc: Global, case: &VersionCase<'_>) -> Result<Option<String>, Stop>
    requires graph { IsGraphOf (text_of case.now.view.now) case.now.graph.now }
    requires few { length case.now.version.now.pieces.items ≤ 4096 }
    ensures shown { IfOk result (λ file. IfSome file (λ text. IsShownFile case.now.view.now case.now.graph.now case.now.version.now
        case.now.olds.now case.now.drafted.now (string_bytes text))) }
    ensures short { IfOk result (λ file. IfSome file (λ text. length (string_bytes text) ≤ FILE_LIMIT)) }
{
    let copied = CopiedCode {
        pieces: &case.version.pieces,
        sites: &case.version.sites,
        base: case.version.base,
    };
    let meant = meanings_of(alloc, case.graph, &copied)?;
    meant_text(alloc, case, &meant)
}

// The loop file of a version, or nothing where it has none, or something refuses it.
fn file_of<P: Progress>(
    alloc: Global,
    program: &VersionedProgram<'_>,
    version: &Version,
    progress: &mut P,
) -> Result<Option<String>, Stop>
    requires { IsVersionOf program.now.image.now version.now }
    ensures file { IfOk result (λ file. IfSome file (λ text. IsVersionFile program.now.image.now program.now.loops.now version.now
        (string_bytes text))) }
    ensures short { IfOk result (λ file. IfSome file (λ text. length (string_bytes text) ≤ FILE_LIMIT)) }
{
    are_bytes(&version.file);
    let olds = notes_of(alloc, program)?;
    let view = read_image(alloc, &version.file)?;
    let graph = build_graph(alloc, &view)?;
    let drafted = drafted_notes(alloc, version, &view, progress)?;
    let case = VersionCase {
        version,
        view: &view,
        graph: &graph,
        olds: &olds,
        drafted: &drafted,
    };
    shown_text(alloc, &case)
}

/// A loop file for a version of a program, by the program's own loop file: each loop has the bound that the draft of the version proves, or copies a
/// loop of the program and has that one's bound, whichever is less. None is counted but those that copy a counted one, or copy none and are counted
/// by the draft, and none has to turn. None where a loop has neither bound, where the code doesn't show that a loop is a copy, where the loops times
/// the nodes are more than 50,000,000, and where an image or a file is refused.
pub fn version_file<P: Progress>(
    alloc: Global,
    program: &VersionedProgram<'_>,
    version: &Version,
    progress: &mut P,
) -> Result<Option<String>, NoMemory>
    requires { IsVersionOf program.now.image.now version.now }
    ensures file { IfOk result (λ file. IfSome file (λ text. IsVersionFile program.now.image.now program.now.loops.now version.now
        (string_bytes text))) }
    ensures short { IfOk result (λ file. IfSome file (λ text. length (string_bytes text) ≤ FILE_LIMIT)) }
{
    match file_of(alloc, program, version, progress) {
        Ok(file) => Ok(file),
        Err(Stop::Refused(_)) => Ok(None),
        Err(Stop::Memory) => Err(NoMemory),
    }
}
