//! What the code of a lowered image shows of noted jumps.

ghost use Rattle.std.specs.Prelude.{◌≡◌, IfOk, Ok, true};
ghost use Rattle.scale_base.specs.Image.{image_of};
ghost use Rattle.code_text.specs.Text.{text_of};
ghost use Rattle.flow_graph.specs.FlowGraph.{IsGraphOf};
ghost use Rattle.stack_tables.specs.Tables.{IsStackClaim};
ghost use Rattle.jump_checks.specs.Claimed.{IsReadClaim};
ghost use Rattle.jump_proofs.specs.Shown.{AreShownBy, IsShownBy};
ghost use Rattle.jump_proofs.specs.Proved.{IsProofOf};

use crate::proof::JumpProof;
use crate::proposing::propose_reads;
use crate::registers::register_at;
use code_graph::build_graph;
use elf_image::ImageView;
use fixed_tables::{Table, is_table_of};
use flow_graph::CodeGraph;
use jump_checks::{ReadClaim, are_words_fixed, is_read_so, read};
use jump_laws::table_words_hold;
use jump_lists::{JumpNote, JumpNotes};
use loop_counters::heights_of;
use scale_base::{NoMemory, Stop};
use shown_bounds::comes_back;
use stack_checks::is_stack_analysed;
use stack_tables::{StackClaim, is_certain, is_stack_sized};
use std::alloc::Global;
use value_analysis::analyse;
use value_checks::is_sized;

// Whether the code shows that a noted jump's register has a word of a table where the jump stood, and that the table's words are the note's targets.
fn is_jump_shown(
    alloc: Global,
    original: &ImageView<'_>,
    claim: &ReadClaim<'_>,
    note: &JumpNote,
) -> Result<bool, NoMemory>
    requires image { image_of original.now.file ≡ Ok original.now }
    requires claim { IsReadClaim claim.now }
    ensures { IfOk result (λ shown. shown ≡ true → IsShownBy original.now claim.now note.now) }
{
    let Some(k) = claim.claim.graph.find(note.at) else {
        return Ok(false);
    };
    let Some(x) = read(claim, k) else {
        return Ok(false);
    };
    let Some(r) = register_at(original, note.at) else {
        return Ok(false);
    };
    if r != x.register {
        return Ok(false);
    }
    let same = is_table_of(alloc, claim.claim.view, x.table, note.targets.as_slice())?;
    Ok(same)
}

// By number of a note, whether it does.
fn shown_of(
    alloc: Global,
    original: &ImageView<'_>,
    claim: &ReadClaim<'_>,
    notes: &JumpNotes,
) -> Result<Vec<bool>, NoMemory>
    requires image { image_of original.now.file ≡ Ok original.now }
    requires claim { IsReadClaim claim.now }
    ensures { IfOk result (λ flags. AreShownBy original.now claim.now notes.now flags.items) }
{
    let mut flags = Vec::new(alloc);
    for k in 0..notes.count() {
        let shown = is_jump_shown(alloc, original, claim, notes.get(k))?;
        flags.push(shown)?;
    }
    Ok(flags)
}

// Nothing is proved of notes.
fn nothing(
    alloc: Global,
    original: &ImageView<'_>,
    lowered: &ImageView<'_>,
    notes: &JumpNotes,
) -> JumpProof
    ensures { IsProofOf original.now lowered.now notes.now result }
{
    JumpProof::none(alloc)
}

// What is proved by a claim that the code confirms, in whose tables nothing is doubtful.
fn proof_by(
    alloc: Global,
    original: &ImageView<'_>,
    claim: &ReadClaim<'_>,
    notes: &JumpNotes,
) -> Result<JumpProof, NoMemory>
    requires image { image_of original.now.file ≡ Ok original.now }
    requires claim { IsReadClaim claim.now }
    ensures { IfOk result (λ proof. IsProofOf original.now claim.now.claim.now.view.now notes.now proof) }
{
    table_words_hold();
    let fixed = are_words_fixed(alloc, claim)?;
    if !fixed {
        return Ok(nothing(alloc, original, claim.claim.view, notes));
    }
    if !is_stack_analysed(claim.claim) {
        return Ok(nothing(alloc, original, claim.claim.view, notes));
    }
    if !is_certain(claim.claim) {
        return Ok(nothing(alloc, original, claim.claim.view, notes));
    }
    if !is_read_so(claim) {
        return Ok(nothing(alloc, original, claim.claim.view, notes));
    }
    let jumps = shown_of(alloc, original, claim, notes)?;
    let heights = heights_of(alloc, claim.claim.graph)?;
    let returns = comes_back(claim.claim, &heights);
    Ok(JumpProof { jumps, returns })
}

// The same of what is proposed for two tables.
fn proof_with(
    alloc: Global,
    original: &ImageView<'_>,
    claim: &StackClaim<'_>,
    notes: &JumpNotes,
    tables: &[Table],
) -> Result<JumpProof, NoMemory>
    requires image { image_of original.now.file ≡ Ok original.now }
    requires claim { IsStackClaim claim.now }
    ensures { IfOk result (λ proof. IsProofOf original.now claim.now.view.now notes.now proof) }
{
    let reads = propose_reads(alloc, original, claim, notes.as_slice(), tables)?;
    if reads.len() != claim.graph.node_count() {
        return Ok(nothing(alloc, original, claim.view, notes));
    }
    let both = ReadClaim {
        claim,
        reads: &reads,
    };
    proof_by(alloc, original, &both, notes)
}

// The jumps that are noted, and by number of a note the table that its targets are in.
#[derive(Clone, Copy)]
struct NotedJumps<'a> {
    notes: &'a JumpNotes,
    tables: &'a [Table],
}

// The same of the graph of a lowered image.
fn proof_in(
    alloc: Global,
    original: &ImageView<'_>,
    lowered: &ImageView<'_>,
    graph: &CodeGraph,
    jumps: &NotedJumps<'_>,
) -> Result<JumpProof, NoMemory>
    requires image { image_of original.now.file ≡ Ok original.now }
    requires lowered { image_of lowered.now.file ≡ Ok lowered.now }
    requires graph { IsGraphOf (text_of lowered.now) graph.now }
    ensures { IfOk result (λ proof. IsProofOf original.now lowered.now jumps.now.notes.now proof) }
{
    let found = analyse(alloc, lowered, graph)?;
    if !is_sized(graph, &found.values) || !is_stack_sized(graph, &found.stack) {
        return Ok(nothing(alloc, original, lowered, jumps.notes));
    }
    let claim = StackClaim {
        view: lowered,
        graph,
        table: &found.values,
        stack: &found.stack,
    };
    proof_with(alloc, original, &claim, jumps.notes, jumps.tables)
}

/// What the code of an image that is lowered by notes shows of these. `tables` has by number of a note the table that its targets are in.
pub fn prove_jumps(
    alloc: Global,
    original: &ImageView<'_>,
    lowered: &ImageView<'_>,
    notes: &JumpNotes,
    tables: &[Table],
) -> Result<JumpProof, NoMemory>
    requires image { image_of original.now.file ≡ Ok original.now }
    requires lowered { image_of lowered.now.file ≡ Ok lowered.now }
    ensures { IfOk result (λ proof. IsProofOf original.now lowered.now notes.now proof) }
{
    match build_graph(alloc, lowered) {
        Ok(graph) => proof_in(
            alloc,
            original,
            lowered,
            &graph,
            &NotedJumps { notes, tables },
        ),
        Err(Stop::Refused(_)) => Ok(nothing(alloc, original, lowered, notes)),
        Err(Stop::Memory) => Err(NoMemory),
    }
}
