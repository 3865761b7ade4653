//! Lowers an image.

ghost use Rattle.std.specs.Prelude.{◌≡◌, Ok, [], ◌≤◌, ◌<◌, ◌^◌, ◌*◌, ◌++◌, None, All, length, map, IfOk};
ghost use Rattle.std.specs.List.{flat_map};
ghost use Rattle.scale_base.specs.Answer.{Answers, AnswersBy};
ghost use Rattle.scale_base.specs.Image.{image_of};
ghost use Rattle.scale_base.specs.Word.{word_of};
ghost use Rattle.elf_patch.specs.Stored.{little};
ghost use Rattle.elf_patch.specs.Added.{added_file};
ghost use Rattle.jump_lists.specs.Notes.{IsJumpNote, AreJumpNotes};
ghost use Rattle.image_lower.specs.Block as block;
ghost use Rattle.code_text.specs.Text as texts;
ghost use Rattle.image_lower.specs.FarJumps as far;
ghost use Rattle.image_lower.specs.Lowered as lowered;
ghost use Rattle.image_lower.specs.Promise.{IsLoweredSafely};

use crate::block::{ascending, least_bad};
use crate::code::{code_bytes, greatest_depth, out_of_reach, tree_patches, trees_code};
use crate::far::{entered_by, far_patches};
use elf_image::ImageView;
use elf_patch::{has_sections, section_count, stub_base, write_added, write_patched};
use elf_view::{read_image, refusal_number};
use jump_lists::{JumpNote, read_jumps};
use scale_base::{IMAGE_LIMIT, Lowered, NoMemory, Patch, Refusal, Stop};
use std::alloc::Global;

/// The file made is an image again.
fn check_image(alloc: Global, file: &[u8]) -> Result<(), Stop>
    ensures { Answers (λ x. x) result (lowered.roomy (image_of file.now)) }
{
    match read_image(alloc, file) {
        Ok(_) => Ok(()),
        Err(Stop::Refused(refusal)) => {
            let number = refusal_number(&refusal);
            Err(Stop::Refused(Refusal::NoRoom(u32::from(number))))
        }
        Err(Stop::Memory) => Err(Stop::Memory),
    }
}

/// The file made, where it is an image again.
#[tactic(auto, unfolding(crate::specs::Lowered::finished))]
fn finish(alloc: Global, file: Vec<u8>, counts: Lowered) -> Result<(Vec<u8>, Lowered), Stop>
    ensures { Answers (λ p. (p.0.items, p.1)) result (lowered.finished file.items counts) }
{
    check_image(alloc, &file)?;
    Ok((file, counts))
}

/// An image in which near jumps stand for far ones, where no jump is noted.
#[tactic(auto, unfolding(crate::specs::Block::ascending_notes))]
fn lower_far(
    alloc: Global,
    view: &ImageView<'_>,
    patches: &[Patch],
) -> Result<(Vec<u8>, Lowered), Stop>
    requires patches { patches.now ≡ far.far_patches view.now [] }
    requires few { length patches.now < 2 ^ 32 }
    ensures { Answers (λ p. (p.0.items, p.1)) result (lowered.finished (lowered.lowered_file view.now 0 []) (lowered.summary view.now [])) }
{
    let file = write_patched(alloc, view, patches)?;
    let counts = Lowered {
        pairs: patches.len() as u32,
        jumps: 0,
        block: 0,
        depth: 0,
    };
    finish(alloc, file, counts)
}

fn is_full(file: &[u8]) -> bool
    requires { 52 ≤ length file.now }
    ensures { result ≡ lowered.is_full file.now }
{
    has_sections(file) && section_count(file) == 65535
}

fn join(alloc: Global, first: &[Patch], second: &[Patch]) -> Result<Vec<Patch>, NoMemory>
    ensures { IfOk result (λ all. all.items ≡ first.now ++ second.now) }
{
    let mut all = Vec::from_slice(alloc, first)?;
    all.extend_from_slice(second)?;
    Ok(all)
}

/// The file with the trees of notes, which ascend, at a base.
fn tree_file(
    alloc: Global,
    view: &ImageView<'_>,
    near: &[Patch],
    sorted: &[&JumpNote],
    base: u32,
) -> Result<Vec<u8>, NoMemory>
    requires file { length view.now.file ≤ IMAGE_LIMIT }
    requires few { length sorted.now ≤ 1024 }
    requires notes { All (λ n. IsJumpNote n.now) sorted.now }
    requires reach { block.tree_out_of_reach view.now base (map (λ n. n.now) sorted.now) ≡ None }
    ensures { IfOk result (λ out. out.items ≡ added_file view.now.file (near.now ++ block.tree_patches view.now base
        (map (λ n. n.now) sorted.now)) base (flat_map (λ i. little 4 (word_of i))
        (block.trees_code view.now base (map (λ n. n.now) sorted.now)))) }
{
    let code = trees_code(alloc, view, base, sorted)?;
    let block = code_bytes(alloc, &code)?;
    let trees = tree_patches(alloc, view, base, sorted)?;
    let patches = join(alloc, near, &trees)?;
    let file = write_added(alloc, view, &patches, base, &block)?;
    Ok(file)
}

/// The block of the trees of ascending notes: where it begins, and its length in bytes.
#[derive(Clone, Copy)]
struct TreeBlock<'a> {
    sorted: &'a [&'a JumpNote],
    base: u32,
    len: u32,
}

/// What notes give, with their block at a base.
fn lower_at(
    alloc: Global,
    view: &ImageView<'_>,
    notes: &[JumpNote],
    near: &[Patch],
    trees: &TreeBlock<'_>,
) -> Result<(Vec<u8>, Lowered), Stop>
    requires file { length view.now.file ≤ IMAGE_LIMIT }
    requires some { 1 ≤ length notes.now }
    requires few_notes { length notes.now ≤ 1024 }
    requires few { length near.now < 2 ^ 32 }
    requires near { near.now ≡ far.far_patches view.now notes.now }
    requires notes { All (λ n. IsJumpNote n.now) trees.now.sorted.now }
    requires few_sorted { length trees.now.sorted.now ≤ 1024 }
    requires sorted { map (λ n. n.now) trees.now.sorted.now ≡ block.ascending_notes notes.now }
    requires len { trees.now.len ≡ block.block_len view.now notes.now }
    ensures { Answers (λ p. (p.0.items, p.1)) result (lowered.lowered_at view.now trees.now.base notes.now) }
{
    if let Some(at) = out_of_reach(alloc, view, trees.base, trees.sorted)? {
        return Err(Stop::Refused(Refusal::LowerOutOfReach(at)));
    }
    if is_full(view.file()) {
        return Err(Stop::Refused(Refusal::NoRoom(2)));
    }
    let depth = greatest_depth(alloc, notes)?;
    let file = tree_file(alloc, view, near, trees.sorted, trees.base)?;
    let counts = Lowered {
        pairs: near.len() as u32,
        jumps: notes.len() as u32,
        block: trees.len,
        depth,
    };
    finish(alloc, file, counts)
}

/// What notes give, with their block at the stub base.
#[tactic(auto, using(crate::proofs::Kept::ascending_kept, crate::proofs::Kept::ascending_len))]
fn lower_all(
    alloc: Global,
    view: &ImageView<'_>,
    notes: &[JumpNote],
    near: &[Patch],
) -> Result<(Vec<u8>, Lowered), Stop>
    requires file { length view.now.file ≤ IMAGE_LIMIT }
    requires some { 1 ≤ length notes.now }
    requires notes { AreJumpNotes notes.now }
    requires few { length near.now < 2 ^ 32 }
    requires near { near.now ≡ far.far_patches view.now notes.now }
    ensures { AnswersBy (λ p. (p.0.items, p.1)) result (lowered.IsLoweredImage view.now notes.now) }
{
    let sorted = ascending(alloc, notes)?;
    let code = trees_code(alloc, view, 0, &sorted)?;
    let len = 4 * code.len() as u32;
    let base = stub_base(view, len);
    let trees = TreeBlock {
        sorted: &sorted,
        base,
        len,
    };
    lower_at(alloc, view, notes, near, &trees)
}

/// What the notes of an image give: the refusal of a noted jump, or what is lowered.
fn lower_notes(
    alloc: Global,
    view: &ImageView<'_>,
    notes: &[JumpNote],
) -> Result<(Vec<u8>, Lowered), Stop>
    requires file { length view.now.file ≤ IMAGE_LIMIT }
    requires image { image_of view.now.file ≡ Ok view.now }
    requires notes { AreJumpNotes notes.now }
    ensures { AnswersBy (λ p. (p.0.items, p.1)) result (lowered.AfterPart (lowered.no_bad_jump view.now notes.now)
        (λ _. lowered.IsLoweredImage view.now notes.now)) }
{
    let entered = entered_by(alloc, view, notes)?;
    if let Some(at) = least_bad(view, notes, &entered) {
        return Err(Stop::Refused(Refusal::BadJump(at)));
    }
    let near = far_patches(alloc, view, notes, &entered)?;
    if notes.is_empty() {
        lower_far(alloc, view, &near)
    } else {
        lower_all(alloc, view, notes, &near)
    }
}

/// The lowered image and what was lowered, or the first refusal.
#[tactic(auto, unfolding(crate::specs::Lowered::IsLowered))]
fn lower_files(alloc: Global, image: &[u8], jumps: &[u8]) -> Result<(Vec<u8>, Lowered), Stop>
    requires { length image.now ≤ IMAGE_LIMIT }
    ensures { AnswersBy (λ p. (p.0.items, p.1)) result (lowered.IsLowered image.now jumps.now) }
{
    let notes = read_jumps(alloc, jumps)?;
    let view = read_image(alloc, image)?;
    if view.keyed().is_some() {
        return Err(Stop::Refused(Refusal::AlreadyScaled));
    }
    lower_notes(alloc, &view, notes.as_slice())
}

/// Lowers an image with the lists of a jump file: a JAL stands for each far jump that it reaches, that no other way leads into and that lies
/// outside the program header table, and a tree of comparisons for each listed jump. The answer is the bytes of the file made, and what
/// was lowered. The first thing that is wrong is refused, in the order of `specs/Lowered.antt`.
pub fn lower(alloc: Global, image: &[u8], jumps: &[u8]) -> Result<(Vec<u8>, Lowered), Stop>
    requires { length image.now ≤ IMAGE_LIMIT }
    ensures given { AnswersBy (λ p. (p.0.items, p.1)) result (lowered.IsLowered image.now jumps.now) }

    // On each input on which the original run keeps to the lists, the stored image's run follows it.
    ensures safe { IfOk result (λ p. IsLoweredSafely image.now jumps.now p.0.items p.1) }
{
    lower_files(alloc, image, jumps)
}
