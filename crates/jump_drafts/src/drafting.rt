//! The draft of an image's jump file.

ghost use Rattle.std.specs.Prelude.{◌≡◌, ◌≤◌, IfOk, IfSome, None, Ok, length, true};
ghost use Rattle.scale_base.specs.Answer.{AnswersBy};
ghost use Rattle.jump_drafts.specs.Drafted.{AreJumpsDrafted, IsDraftOf, IsFileProved, IsImageDrafted, IsImageProved, IsLowerable, IsReadAs};
ghost use Rattle.scale_base.specs.Image.{image_of};

use crate::draft::JumpDraft;
use crate::listing::{are_listed, is_lowerable, left_jumps};
use crate::texts::told_text;
use code_names::{Names, names_of};
use elf_image::ImageView;
use elf_view::read_image;
use fixed_tables::Table;
use image_lower::lower;
use jump_lists::{JumpNotes, read_jumps};
use jump_proofs::{JumpProof, prove_jumps};
use jump_search::{FoundJumps, find_jumps};
use scale_base::{FILE_LIMIT, IMAGE_LIMIT, NoMemory, Refusal, Stop};
use std::alloc::Global;

// The tables that are found.
fn tables_of(alloc: Global, found: &FoundJumps) -> Result<Vec<Table>, NoMemory> {
    let mut tables = Vec::new(alloc);
    for jump in &found.jumps {
        tables.push(jump.table)?;
    }
    Ok(tables)
}

// The notes of a file, if it has some and isn't too long.
fn notes_of(alloc: Global, file: &str) -> Result<Option<JumpNotes>, NoMemory>
    ensures { IfOk result (λ notes. IfSome notes (IsReadAs file.now)) }
{
    let bytes = file.as_bytes();
    if bytes.len() > FILE_LIMIT {
        return Ok(None);
    }
    match read_jumps(alloc, bytes) {
        Ok(notes) => Ok(Some(notes)),
        Err(Stop::Refused(_)) => Ok(None),
        Err(Stop::Memory) => Err(NoMemory),
    }
}

// Whether `lower` takes a file.
fn is_taken(alloc: Global, view: &ImageView<'_>, file: &str) -> Result<bool, NoMemory>
    ensures { IfOk result (λ taken. taken ≡ true → length view.now.file ≤ IMAGE_LIMIT → IsLowerable view.now.file file.now) }
{
    let image = view.file();
    if image.len() > IMAGE_LIMIT {
        return Ok(true);
    }
    is_lowerable(alloc, image, file.as_bytes())
}

// Nothing is proved of notes, whatever image the bytes are of, and whatever is stored by a file.
fn unproved_image(alloc: Global, view: &ImageView<'_>, bytes: &[u8], notes: &JumpNotes) -> JumpProof
    ensures { IsImageProved view.now bytes.now notes.now result }
{
    JumpProof::none(alloc)
}

fn unproved_file(alloc: Global, view: &ImageView<'_>, file: &str, notes: &JumpNotes) -> JumpProof
    ensures { IsFileProved view.now file.now notes.now result }
{
    JumpProof::none(alloc)
}

// What is proved of notes, by the bytes of the image that is lowered by them.
fn proof_of(
    alloc: Global,
    view: &ImageView<'_>,
    bytes: &[u8],
    notes: &JumpNotes,
    tables: &[Table],
) -> Result<JumpProof, NoMemory>
    requires { image_of view.now.file ≡ Ok view.now }
    ensures { IfOk result (λ proof. IsImageProved view.now bytes.now notes.now proof) }
{
    match read_image(alloc, bytes) {
        Ok(lowered) => {
            let _file = lowered.file();
            prove_jumps(alloc, view, &lowered, notes, tables)
        }
        Err(Stop::Refused(_)) => Ok(unproved_image(alloc, view, bytes, notes)),
        Err(Stop::Memory) => Err(NoMemory),
    }
}

// What is proved of the notes of a file, where `lower` takes it.
fn proof_by(
    alloc: Global,
    view: &ImageView<'_>,
    file: &str,
    notes: &JumpNotes,
    tables: &[Table],
) -> Result<JumpProof, NoMemory>
    requires { image_of view.now.file ≡ Ok view.now }
    ensures { IfOk result (λ proof. IsFileProved view.now file.now notes.now proof) }
{
    let image = view.file();
    if notes.count() == 0 {
        return Ok(unproved_file(alloc, view, file, notes));
    }
    if image.len() > IMAGE_LIMIT {
        return Ok(unproved_file(alloc, view, file, notes));
    }
    match lower(alloc, image, file.as_bytes()) {
        Ok((bytes, _)) => proof_of(alloc, view, &bytes, notes, tables),
        Err(Stop::Refused(_)) => Ok(unproved_file(alloc, view, file, notes)),
        Err(Stop::Memory) => Err(NoMemory),
    }
}

// What can be proved of the jumps that are found, so that the file says it. The file's own notes are looked at again.
fn tried_proof(
    alloc: Global,
    view: &ImageView<'_>,
    names: &Names<'_>,
    found: &FoundJumps,
    tables: &[Table],
) -> Result<JumpProof, NoMemory> {
    let file = told_text(alloc, names, found, &JumpProof::none(alloc))?;
    let _image = view.file();
    match notes_of(alloc, file.as_str())? {
        Some(notes) => proof_by(alloc, view, file.as_str(), &notes, tables),
        None => Ok(JumpProof::none(alloc)),
    }
}

// The draft with the tables that are found, where it keeps what is promised of drafts.
fn checked_draft(
    alloc: Global,
    view: &ImageView<'_>,
    found: &FoundJumps,
) -> Result<Option<JumpDraft>, NoMemory>
    ensures { IfOk result (λ draft. IfSome draft (IsDraftOf view.now)) }
{
    let names = names_of(alloc, view)?;
    let tables = tables_of(alloc, found)?;
    let tried = tried_proof(alloc, view, &names, found, &tables)?;
    let file = told_text(alloc, &names, found, &tried)?;
    let Some(notes) = notes_of(alloc, file.as_str())? else {
        return Ok(None);
    };
    let _image = view.file();
    let listed = are_listed(alloc, view, &notes, &tables)?;
    let taken = is_taken(alloc, view, file.as_str())?;
    if !listed || !taken {
        return Ok(None);
    }
    let proof = proof_by(alloc, view, file.as_str(), &notes, &tables)?;
    if !proof.is_same(&tried) {
        return Ok(None);
    }
    let others = left_jumps(alloc, view, notes.as_slice(), found)?;
    Ok(Some(JumpDraft {
        file,
        notes,
        tables,
        others,
        proof,
    }))
}

// The draft of an image without a keyed segment. Nothing is proved of what is found, so that it is looked at whether the draft keeps what is promised. It
// always does.
fn draft_plain(alloc: Global, view: &ImageView<'_>) -> Result<JumpDraft, Stop>
    requires { view.now.keyed_segment ≡ None }
    ensures { AnswersBy (λ draft. draft) result (IsImageDrafted view.now) }
{
    let found = find_jumps(alloc, view)?;
    if let Some(draft) = checked_draft(alloc, view, &found)? {
        return Ok(draft);
    }
    match checked_draft(alloc, view, &FoundJumps::none(alloc))? {
        Some(draft) => Ok(draft),
        None => Err(Stop::Memory),
    }
}

// The draft of an image.
fn draft_image(alloc: Global, view: &ImageView<'_>) -> Result<JumpDraft, Stop>
    ensures { AnswersBy (λ draft. draft) result (IsImageDrafted view.now) }
{
    match view.keyed() {
        Some(_) => Err(Stop::Refused(Refusal::AlreadyScaled)),
        None => draft_plain(alloc, view),
    }
}

/// The draft of the jump file of an image, or the first refusal, as `lower` has it: of the image, and of a keyed segment.
///
/// A jump is listed with the targets of a table in bytes of the file that no store can change, where the code that leads to it shows which words of it the
/// jump reads. All other jumps through registers that are no returns are there, each with a reason.
pub fn draft_jumps(alloc: Global, image: &[u8]) -> Result<JumpDraft, Stop>
    ensures { AnswersBy (λ draft. draft) result (AreJumpsDrafted image.now) }
{
    let view = read_image(alloc, image)?;
    draft_image(alloc, &view)
}
