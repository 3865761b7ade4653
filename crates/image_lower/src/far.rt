//! Far jumps: an AUIPC, and right behind it a JALR by the same register.

ghost use Rattle.std.specs.Prelude.{◌≡◌, [], ◌≤◌, ◌<◌, ◌+◌, ◌-◌, ◌%◌, ◌^◌, ◌++◌, ◌||◌, ◌==◌, ◌&&◌, nat_le, IfOk, IfSome, Ok, Some, length, option_map, filter_map, true, OnOk};
ghost use Rattle.std.specs.List.{list_any, cons_option};
ghost use Rattle.scale_base.specs.Elf as elf;
ghost use Rattle.scale_base.specs.Image.{image_of, is_in, is_word_address};
ghost use Rattle.scale_base.specs.Word.{FieldsInRange};
ghost use Rattle.code_text.specs.Text as texts;
ghost use Rattle.code_text.specs.Walk.{IsWalked, Rise};
ghost use Rattle.code_text.specs.Table.{word_addresses, all_addresses};
ghost use Rattle.rv_encode.specs.Jumps as jumps;
ghost use Rattle.stub_writer.specs.Stubs as stubs;
ghost use Rattle.image_lower.specs.FarJumps as far;
ghost use Rattle.image_lower.specs.Entered.{AreWaysIn};

use byteorder::{ByteOrder, LittleEndian};
use code_text::{instr_at, moved, targets_of};
use elf_image::ImageView;
use elf_view::program_header_count;
use jump_lists::JumpNote;
use rv_encode::{encode, jal_fits};
use scale_base::{Instr, NoMemory, Patch, Range};
use std::alloc::Global;

/// How far a jump goes.
pub fn distance(from: u32, to: u32) -> i32
    ensures { result ≡ jumps.distance from to }
{
    to.wrapping_sub(from).cast_signed()
}

/// Whether a JAL reaches its target.
#[tactic(auto, using(crate::proofs::Reach::reaches_as))]
pub fn reaches(from: u32, to: u32) -> bool
    ensures { result ≡ stubs.reaches from to }
{
    jal_fits(from, to)
}

fn far_target(at: u32, imm: u32, offset: i32) -> u32
    ensures { result ≡ far.far_target at imm offset }
{
    let to = moved(at.wrapping_add(imm), offset);
    to - to % 2
}

#[tactic(auto, using(crate::proofs::Reach::near_fits))]
fn near_jump(view: &ImageView<'_>, at: u32, rd: u8, to: u32) -> Option<Instr>
    requires { rd ≤ 1 }
    ensures jump { result ≡ far.near_jump (texts.text_of view.now) at rd to }
    ensures fits { IfSome result FieldsInRange }
{
    if view.is_text_word(to) && reaches(at, to) {
        Some(Instr::Jal {
            rd,
            offset: distance(at, to),
        })
    } else {
        None
    }
}

fn pair_jump(
    view: &ImageView<'_>,
    at: u32,
    before: Option<Instr>,
    here: Option<Instr>,
) -> Option<Instr>
    requires { 4 ≤ at }
    ensures jump { result ≡ far.pair_jump (texts.text_of view.now) at before here }
    ensures fits { IfSome result FieldsInRange }
{
    let Some(Instr::Auipc { rd: rx, imm }) = before else {
        return None;
    };
    let Some(Instr::Jalr { rd, rs1, offset }) = here else {
        return None;
    };
    if rx != 0 && rs1 == rx && rd <= 1 {
        near_jump(view, at, rd, far_target(at - 4, imm, offset))
    } else {
        None
    }
}

/// Where the program header table begins.
#[tactic(auto, unfolding(scale_base::specs::Bytes::list_half_at, scale_base::specs::Bytes::list_word_at))]
fn table_offset(file: &[u8]) -> usize
    requires { 52 ≤ length file.now }
    ensures value { result ≡ elf.e_phoff file.now }
    ensures small { result < 2 ^ 32 }
{
    LittleEndian::read_u32(&file[28..]) as usize
}

/// Whether the four bytes from a place on share one with the program header table.
fn touches_table(file: &[u8], place: usize) -> bool
    requires header { 52 ≤ length file.now }
    requires within { place + 4 ≤ length file.now }
    ensures { result ≡ far.touches_table file.now (Some place) }
{
    let from = table_offset(file);
    let entries = program_header_count(file);
    entries > 0 && place < from + 32 * entries && from < place + 4
}

/// Whether the word at an address lies in the program header table.
pub fn is_in_table(view: &ImageView<'_>, at: u32) -> bool
    ensures { result ≡ far.is_in_table view.now.file at }
{
    match view.file_place(at) {
        Some(place) => touches_table(view.file(), place),
        None => false,
    }
}

/// Whether the address is among others, which ascend.
fn is_among(addresses: &[u32], at: u32) -> bool
    requires { Rise addresses.now }
    ensures { result ≡ list_any (λ u. u == at) addresses.now }
{
    addresses.binary_search(&at).is_ok()
}

/// The JAL that stands for the word at an address, if that is the second of a far jump.
#[tactic(auto, unfolding(crate::specs::FarJumps::far_jump))]
pub fn far_jump(
    view: &ImageView<'_>,
    notes: &[JumpNote],
    entered: &[u32],
    at: u32,
    follows: bool,
) -> Option<Instr>
    requires image { image_of view.now.file ≡ Ok view.now }
    requires entered { AreWaysIn (texts.text_of view.now) notes.now entered.now }
    requires rising { Rise entered.now }
    requires follows { follows ≡ texts.follows (texts.text_of view.now) at }
    requires words { at % 4 ≡ 0 → follows ≡ true → (is_word_address view.now at ≡ true) × (is_word_address view.now (at - 4) ≡ true) ×
        (4 ≤ at) }
    ensures jump { result ≡ far.far_jump view.now notes.now at }
    ensures fits { IfSome result FieldsInRange }
{
    if !follows || at % 4 != 0 {
        return None;
    }
    if is_among(entered, at) || is_in_table(view, at) {
        return None;
    }
    pair_jump(view, at, instr_at(view, at - 4), instr_at(view, at))
}

/// The entry, the targets of the branches and JALs of the text, and those of the noted jumps, ascending.
pub fn entered_by(
    alloc: Global,
    view: &ImageView<'_>,
    notes: &[JumpNote],
) -> Result<Vec<u32>, NoMemory>
    ensures entered { IfOk result (λ entered. AreWaysIn (texts.text_of view.now) notes.now entered.items) }
    ensures rising { IfOk result (λ entered. Rise entered.items) }
{
    let mut entered = targets_of(alloc, view)?;
    for note in notes {
        entered.extend_from_slice(note.targets.as_slice())?;
    }
    entered.sort()?;
    Ok(entered)
}

/// What the word at an address of a range is replaced by.
fn far_patch(
    view: &ImageView<'_>,
    notes: &[JumpNote],
    entered: &[u32],
    range: Range,
    at: u32,
) -> Option<Patch>
    requires range { IsWalked view.now range }
    requires aligned { at % 4 ≡ 0 }
    requires inside { is_in at range ≡ true }
    requires entered { AreWaysIn (texts.text_of view.now) notes.now entered.now }
    requires rising { Rise entered.now }
    ensures { result ≡ far.far_patch view.now notes.now at }
{
    let instr = far_jump(view, notes, entered, at, at - range.from >= 4)?;
    let word = encode(&instr)?;
    Some(Patch { at, word })
}

fn push_some(patches: &mut Vec<Patch>, patch: Option<Patch>) -> Result<(), NoMemory>
    ensures { OnOk result (patches.new.items ≡ patches.old.items ++ cons_option patch []) }
{
    if let Some(patch) = patch {
        patches.push(patch)?;
    }
    Ok(())
}

/// Adds what the words of a range are replaced by.
fn add_far_patches(
    patches: &mut Vec<Patch>,
    view: &ImageView<'_>,
    notes: &[JumpNote],
    entered: &[u32],
    range: Range,
) -> Result<(), NoMemory>
    requires range { IsWalked view.now range }
    requires entered { AreWaysIn (texts.text_of view.now) notes.now entered.now }
    requires rising { Rise entered.now }
    ensures { IfOk result (λ _. patches.new.items ≡ patches.old.items ++ filter_map (far.far_patch view.now notes.now)
        (word_addresses range)) }
{
    for k in 0..range.to.saturating_sub(range.from) / 4 {
        let patch = far_patch(view, notes, entered, range, range.from + 4 * k);
        push_some(patches, patch)?;
    }
    Ok(())
}

/// What the second words of far jumps are replaced by.
pub fn far_patches(
    alloc: Global,
    view: &ImageView<'_>,
    notes: &[JumpNote],
    entered: &[u32],
) -> Result<Vec<Patch>, NoMemory>
    requires entered { AreWaysIn (texts.text_of view.now) notes.now entered.now }
    requires rising { Rise entered.now }
    ensures patches { IfOk result (λ patches. patches.items ≡ far.far_patches view.now notes.now) }
    ensures few { IfOk result (λ patches. length patches.items < 2 ^ 32) }
{
    let text = view.text();
    let mut patches = Vec::new(alloc);
    for range in text {
        add_far_patches(&mut patches, view, notes, entered, *range)?;
    }
    Ok(patches)
}
