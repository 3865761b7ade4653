//! The bytes of a file with a block of code added.

ghost use Rattle.std.specs.Prelude.{◌≡◌, ◌≤◌, ◌<◌, ◌+◌, ◌*◌, ◌%◌, ◌++◌, length, All, OnOk, IfOk, IsTrue, Ok};
ghost use Rattle.scale_base.specs.Elf as elf;
ghost use Rattle.scale_base.specs.Image as image;
ghost use Rattle.elf_patch.specs.Stored as stored;
ghost use Rattle.elf_patch.specs.Added as added;

use crate::write::{
    changed, keyed_number, push_entries, push_zeros, put_half, put_patches, put_word,
};
use byteorder::{ByteOrder, LittleEndian};
use elf_image::ImageView;
use elf_view::program_header_count;
use scale_base::{BLOCK_LIMIT, IMAGE_LIMIT, NoMemory, Patch};
use std::alloc::Global;

const PT_LOAD: u32 = 1;

const SHT_PROGBITS: u32 = 1;

const READ_AND_EXECUTE: u32 = 5;

const ALLOCATED_CODE: u32 = 6;

const WORD: u32 = 4;

/// Adds the entry of the block.
fn push_code_entry(out: &mut Vec<u8>, block_at: u32, base: u32, len: u32) -> Result<(), NoMemory>
    ensures { OnOk result (out.new.items ≡ out.old.items ++ added.code_entry block_at base len) }
{
    let mut entry = [0; 32];
    LittleEndian::write_u32_into(
        &[
            PT_LOAD,
            block_at,
            base,
            base,
            len,
            len,
            READ_AND_EXECUTE,
            WORD,
        ],
        &mut entry,
    );
    out.extend_from_slice(&entry)?;
    Ok(())
}

/// Adds the section of the block.
fn push_code_section(out: &mut Vec<u8>, block_at: u32, base: u32, len: u32) -> Result<(), NoMemory>
    ensures { OnOk result (out.new.items ≡ out.old.items ++ added.code_section block_at base len) }
{
    let mut section = [0; 40];
    LittleEndian::write_u32_into(
        &[
            0,
            SHT_PROGBITS,
            ALLOCATED_CODE,
            base,
            block_at,
            len,
            0,
            0,
            WORD,
            0,
        ],
        &mut section,
    );
    out.extend_from_slice(&section)?;
    Ok(())
}

/// Adds the program header table with the entry of the block in its place.
#[tactic(auto, unfolding(crate::specs::Added::code_table))]
fn push_code_table(
    out: &mut Vec<u8>,
    file: &[u8],
    block_at: u32,
    base: u32,
    len: u32,
) -> Result<(), NoMemory>
    requires header { 52 ≤ length file.now }
    requires table { elf.e_phoff file.now + 32 * elf.e_phnum file.now ≤ length file.now }
    ensures { OnOk result (out.new.items ≡ out.old.items ++ added.code_table file.now block_at base len) }
{
    let place = keyed_number(file, base);
    push_entries(out, file, 0, place)?;
    push_code_entry(out, block_at, base, len)?;
    push_entries(out, file, place, program_header_count(file))?;
    Ok(())
}

#[tactic(auto, unfolding(scale_base::specs::Bytes::list_half_at, scale_base::specs::Bytes::list_word_at))]
fn section_offset(file: &[u8]) -> usize
    requires { 52 ≤ length file.now }
    ensures { result ≡ elf.e_shoff file.now }
{
    LittleEndian::read_u32(&file[32..]) as usize
}

/// How many section headers the file says that it has.
#[tactic(auto, unfolding(scale_base::specs::Bytes::list_half_at, scale_base::specs::Bytes::list_word_at))]
pub fn section_count(file: &[u8]) -> u16
    requires { 52 ≤ length file.now }
    ensures { result ≡ elf.e_shnum file.now }
{
    LittleEndian::read_u16(&file[48..])
}

/// Whether the file has section headers.
pub fn has_sections(file: &[u8]) -> bool
    requires { 52 ≤ length file.now }
    ensures { result ≡ elf.has_sections file.now }
{
    section_offset(file) != 0 && section_count(file) != 0
}

/// Adds the old section headers and that of the block, where the file has section headers.
#[tactic(auto, unfolding(crate::specs::Added::code_sections))]
fn push_sections(
    out: &mut Vec<u8>,
    file: &[u8],
    block_at: u32,
    base: u32,
    len: u32,
) -> Result<(), NoMemory>
    requires header { 52 ≤ length file.now }
    requires table { IsTrue (elf.has_sections file.now) → elf.e_shoff file.now + 40 * elf.e_shnum file.now ≤ length file.now }
    ensures { OnOk result (out.new.items ≡ out.old.items ++ added.code_sections file.now block_at base len) }
{
    if has_sections(file) {
        let at = section_offset(file);
        out.extend_from_slice(&file[at..at + 40 * usize::from(section_count(file))])?;
        push_code_section(out, block_at, base, len)?;
    }
    Ok(())
}

/// Where the section headers stand, and how many they are, where the file has some.
fn move_sections(out: &mut [u8], file: &[u8], at: u32)
    requires header { 52 ≤ length file.now }
    requires room { 52 ≤ length out.old }
    ensures { out.new ≡ added.moved_sections file.now at out.old }
{
    if has_sections(file) {
        put_word(out, 32, at);
        put_half(out, 48, section_count(file).wrapping_add(1));
    }
}

/// The original file, changed in the patched words, and in the places and the lengths of its tables.
fn change(out: &mut [u8], view: &ImageView<'_>, patches: &[Patch], table_at: u32, sections_at: u32)
    requires { out.old ≡ view.now.file }
    ensures { out.new ≡ added.moved_sections view.now.file sections_at (stored.changed view.now.file patches.now table_at) }
{
    let file = view.file();
    changed(out, view, patches, table_at);
    move_sections(out, file, sections_at);
}

/// The file with these patches.
pub fn write_patched(
    alloc: Global,
    view: &ImageView<'_>,
    patches: &[Patch],
) -> Result<Vec<u8>, NoMemory>
    ensures { IfOk result (λ out. out.items ≡ stored.patched view.now.file patches.now) }
{
    let mut out = Vec::from_slice(alloc, view.file())?;
    put_patches(&mut out, view, patches);
    Ok(out)
}

/// The file with these patches, and this block of code at the base.
#[tactic(auto, unfolding(crate::specs::Added::added_file))]
pub fn write_added(
    alloc: Global,
    view: &ImageView<'_>,
    patches: &[Patch],
    base: u32,
    block: &[u8],
) -> Result<Vec<u8>, NoMemory>
    requires file { length view.now.file ≤ IMAGE_LIMIT }
    requires block { length block.now ≤ BLOCK_LIMIT }
    ensures { IfOk result (λ out. out.items ≡ added.added_file view.now.file patches.now base block.now) }
{
    let file = view.file();
    let len = file.len();
    let block_at = 4096 * ((len + 4095) / 4096);
    let table_at = block_at + block.len();
    let sections_at = table_at + 32 * (program_header_count(file) + 1);
    let mut out = Vec::from_slice(alloc, file)?;
    change(&mut out, view, patches, table_at as u32, sections_at as u32);
    push_zeros(&mut out, block_at - len)?;
    out.extend_from_slice(block)?;
    push_code_table(&mut out, file, block_at as u32, base, block.len() as u32)?;
    push_sections(&mut out, file, block_at as u32, base, block.len() as u32)?;
    Ok(out)
}
