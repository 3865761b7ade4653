//! The block of the trees.

ghost use Rattle.std.specs.Prelude.{◌≡◌, [], ◌≤◌, ◌<◌, ◌+◌, ◌*◌, ◌%◌, ◌^◌, ◌++◌, ◌&&◌, map, IfOk, OnOk, IsTrue, ◌↔◌, Some, None, length, All, true};
ghost use Rattle.std.specs.List.{list_all, flat_map};
ghost use Rattle.scale_base.specs.Word.{FieldsInRange, IsEven, IsSignedField, word_of};
ghost use Rattle.elf_patch.specs.Stored.{little};
ghost use Rattle.stub_writer.specs.Stubs as stubs;
ghost use Rattle.jump_lists.specs.Notes.{IsJumpNote};
ghost use Rattle.image_lower.specs.Trees as trees;
ghost use Rattle.image_lower.specs.Block as block;

use crate::block::register_at;
use crate::trees::{jump, tree_depth, whole_tree};
use elf_image::ImageView;
use jump_lists::JumpNote;
use rv_encode::encode;
use scale_base::{Instr, NoMemory, Patch};
use std::alloc::Global;

fn is_even(offset: i32) -> bool
    ensures { IsTrue result ↔ IsEven offset }
{
    offset % 2 == 0
}

fn is_near(offset: i32) -> bool
    ensures { IsTrue result ↔ IsSignedField 21 offset }
{
    offset >= -1_048_576 && offset < 1_048_576
}

#[tactic(auto, using(crate::proofs::Reach::fits_as))]
fn fits_jal(offset: i32) -> bool
    ensures { result ≡ (stubs.is_even offset && stubs.is_field offset) }
{
    let even = is_even(offset);
    let near = is_near(offset);
    even && near
}

/// Whether a JAL reaches what it jumps to.
fn fits(instr: &Instr) -> bool
    ensures { result ≡ trees.fits instr.now }
{
    match *instr {
        Instr::Jal { offset, .. } => fits_jal(offset),
        _ => true,
    }
}

fn all_fit(code: &[Instr]) -> bool
    ensures { result ≡ list_all trees.fits code.now }
{
    for instr in code {
        if !fits(instr) {
            return false;
        }
    }
    true
}

/// The tree of a note, at an address.
fn note_code(
    alloc: Global,
    view: &ImageView<'_>,
    at: u64,
    note: &JumpNote,
) -> Result<Vec<Instr>, NoMemory>
    requires at { at < 2 ^ 36 }
    requires note { IsJumpNote note.now }
    ensures code { IfOk result (λ code. code.items ≡ block.note_code view.now at note.now) }
    ensures short { IfOk result (λ code. length code.items ≤ 638) }
    ensures fields { IfOk result (λ code. list_all trees.fits code.items ≡ true → All FieldsInRange code.items) }
{
    let rs = register_at(view, note.at).unwrap_or(0);
    whole_tree(alloc, rs, at, note.targets.as_slice())
}

/// The trees, one behind the other.
pub fn trees_code(
    alloc: Global,
    view: &ImageView<'_>,
    base: u32,
    sorted: &[&JumpNote],
) -> Result<Vec<Instr>, NoMemory>
    requires few { length sorted.now ≤ 1024 }
    requires notes { All (λ n. IsJumpNote n.now) sorted.now }
    ensures code { IfOk result (λ code. code.items ≡ block.trees_code view.now base (map (λ n. n.now) sorted.now)) }
    ensures short { IfOk result (λ code. length code.items ≤ 653312) }
    ensures fields { IfOk result (λ code. block.tree_out_of_reach view.now base (map (λ n. n.now) sorted.now) ≡ None →
        All FieldsInRange code.items) }
{
    let mut code = Vec::new(alloc);
    let mut at = u64::from(base);
    for note in sorted {
        let tree = note_code(alloc, view, at, note)?;
        at += 4 * tree.len() as u64;
        code.extend_from_slice(&tree)?;
    }
    Ok(code)
}

fn is_in_reach(at: u64, note: &JumpNote, tree: &[Instr]) -> bool
    ensures { result ≡ block.is_in_reach at note.now tree.now }
{
    fits(&jump(u64::from(note.at), at)) && all_fit(tree)
}

/// The least noted jump from which the jump to its tree, or one of that tree, doesn't fit.
pub fn out_of_reach(
    alloc: Global,
    view: &ImageView<'_>,
    base: u32,
    sorted: &[&JumpNote],
) -> Result<Option<u32>, NoMemory>
    requires few { length sorted.now ≤ 1024 }
    requires notes { All (λ n. IsJumpNote n.now) sorted.now }
    ensures { IfOk result (λ far. far ≡ block.tree_out_of_reach view.now base (map (λ n. n.now) sorted.now)) }
{
    let mut at = u64::from(base);
    for note in sorted {
        let tree = note_code(alloc, view, at, note)?;
        if !is_in_reach(at, note, &tree) {
            return Ok(Some(note.at));
        }
        at += 4 * tree.len() as u64;
    }
    Ok(None)
}

fn push_instr(out: &mut Vec<u8>, instr: &Instr) -> Result<(), NoMemory>
    requires { FieldsInRange instr.now }
    ensures bytes { OnOk result (out.new.items ≡ out.old.items ++ little 4 (word_of instr.now)) }
    ensures len { OnOk result (length out.new.items ≡ length out.old.items + 4) }
{
    match encode(instr) {
        Some(word) => {
            out.extend_from_slice(&word.to_le_bytes())?;
            Ok(())
        }
        None => Ok(()),
    }
}

/// The bytes of instructions.
pub fn code_bytes(alloc: Global, code: &[Instr]) -> Result<Vec<u8>, NoMemory>
    requires { All FieldsInRange code.now }
    ensures bytes { IfOk result (λ out. out.items ≡ flat_map (λ i. little 4 (word_of i)) code.now) }
    ensures len { IfOk result (λ out. length out.items ≡ 4 * length code.now) }
{
    let mut out = Vec::new(alloc);
    for instr in code {
        push_instr(&mut out, instr)?;
    }
    Ok(out)
}

/// The greatest depth of a tree.
pub fn greatest_depth(alloc: Global, notes: &[JumpNote]) -> Result<u32, NoMemory>
    ensures depth { IfOk result (λ depth. depth ≡ block.greatest_depth notes.now) }
    ensures small { IfOk result (λ depth. depth ≤ 32) }
{
    match notes {
        [] => Ok(0),
        [first, others @ ..] => {
            let depth = tree_depth(alloc, 32, first.targets.as_slice())?;
            Ok(depth.max(greatest_depth(alloc, others)?))
        }
    }
}

/// The word of a jump that fits.
#[tactic(auto, using(crate::proofs::TreeFields::jump_fits))]
fn jump_word(from: u64, to: u64) -> u32
    requires { trees.fits (stubs.jump from to) ≡ true }
    ensures { result ≡ word_of (stubs.jump from to) }
{
    match encode(&jump(from, to)) {
        Some(word) => word,
        None => 0,
    }
}

/// Each noted jump becomes a jump to its tree.
pub fn tree_patches(
    alloc: Global,
    view: &ImageView<'_>,
    base: u32,
    sorted: &[&JumpNote],
) -> Result<Vec<Patch>, NoMemory>
    requires few { length sorted.now ≤ 1024 }
    requires notes { All (λ n. IsJumpNote n.now) sorted.now }
    requires near { block.tree_out_of_reach view.now base (map (λ n. n.now) sorted.now) ≡ None }
    ensures { IfOk result (λ patches. patches.items ≡ block.tree_patches view.now base (map (λ n. n.now) sorted.now)) }
{
    let mut patches = Vec::new(alloc);
    let mut at = u64::from(base);
    for note in sorted {
        let tree = note_code(alloc, view, at, note)?;
        let word = jump_word(u64::from(note.at), at);
        patches.push(Patch { at: note.at, word })?;
        at += 4 * tree.len() as u64;
    }
    Ok(patches)
}
