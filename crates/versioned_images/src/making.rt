//! The file of a versioned image.

ghost use Rattle.std.specs.Prelude.{◌≡◌, ◌≤◌, ◌<◌, ◌+◌, ◌*◌, ◌^◌, ◌++◌, ◌↔◌, true, length, None, Ok, IfOk, IfSome, IfNone, OnOk, IsTrue, All};
ghost use Rattle.std.specs.List.{flat_map};
ghost use Rattle.scale_base.specs.Image.{Image, image_of};
ghost use Rattle.scale_base.specs.Word.{FieldsInRange, word_of};
ghost use Rattle.elf_patch.specs.Stored.{IsStubBase, little};
ghost use Rattle.image_lower.specs.Lowered as lowered;
ghost use Rattle.loop_versions.specs.Fitting as fitting;
ghost use Rattle.loop_versions.specs.Made.{pieces_bytes, versioned_file};
ghost use Rattle.versioned_images.specs.Versioned as versions;
ghost use Rattle.versioned_images.specs.Versioned.{HasNone, IsOpen, IsVersionedBy};

use crate::versions::Made;
use elf_image::ImageView;
use elf_patch::{has_sections, section_count, stub_base, write_added};
use elf_view::read_image;
use loop_versions::{Piece, Site, are_fit, piece_len, pieces_code, site_patches};
use rv_encode::encode;
use scale_base::{IMAGE_LIMIT, Instr, NoMemory, Stop};
use std::alloc::Global;

/// As many pieces does a versioned image have at most.
const MOST_PIECES: usize = 4096;

/// Below it the pieces begin.
const BASES: u32 = 4_294_819_804;

fn is_full(file: &[u8]) -> bool
    requires { 52 ≤ length file.now }
    ensures { result ≡ lowered.is_full file.now }
{
    has_sections(file) && section_count(file) == 65535
}

/// Whether pieces may be added to an image.
fn is_open(view: &ImageView<'_>) -> bool
    ensures { IsTrue result ↔ IsOpen view.now }
{
    let file = view.file();
    file.len() <= IMAGE_LIMIT && !is_full(file) && view.keyed().is_none()
}

/// Whether a file is an image.
fn is_image(alloc: Global, file: &[u8]) -> Result<bool, NoMemory>
    ensures one { IfOk result (λ is. IsTrue is → (image : Image) × (image_of file.now ≡ Ok image)) }
    ensures each { IfOk result (λ is. (image : Image) → image_of file.now ≡ Ok image → IsTrue is) }
{
    match read_image(alloc, file) {
        Ok(_) => Ok(true),
        Err(Stop::Refused(_)) => Ok(false),
        Err(Stop::Memory) => Err(NoMemory),
    }
}

/// The numbers in a file are bytes.
fn are_bytes(file: &[u8])
    ensures { All (λ b. b < 2 ^ 8) file.now }
{}

/// The number of bytes of pieces.
fn pieces_len(pieces: &[Piece]) -> u32
    requires { length pieces.now ≤ 4096 }
    ensures len { result ≡ versions.pieces_len pieces.now }
    ensures few { result ≤ 36 * length pieces.now }
{
    match pieces {
        [] => 0,
        [first, others @ ..] => 4 * piece_len(first) + pieces_len(others),
    }
}

fn push_instr(out: &mut Vec<u8>, instr: &Instr) -> Result<(), NoMemory>
    requires { FieldsInRange instr.now }
    ensures bytes { OnOk result (out.new.items ≡ out.old.items ++ little 4 (word_of instr.now)) }
    ensures len { OnOk result (length out.new.items ≡ length out.old.items + 4) }
{
    match encode(instr) {
        Some(word) => {
            out.extend_from_slice(&word.to_le_bytes())?;
            Ok(())
        }
        None => Ok(()),
    }
}

/// The bytes of instructions.
fn code_bytes(alloc: Global, code: &[Instr]) -> Result<Vec<u8>, NoMemory>
    requires { All FieldsInRange code.now }
    ensures bytes { IfOk result (λ out. out.items ≡ flat_map (λ i. little 4 (word_of i)) code.now) }
    ensures len { IfOk result (λ out. length out.items ≡ 4 * length code.now) }
{
    let mut out = Vec::new(alloc);
    for instr in code {
        push_instr(&mut out, instr)?;
    }
    Ok(out)
}

/// The bytes of the pieces, from a base on.
fn pieces_bytes(
    alloc: Global,
    view: &ImageView<'_>,
    pieces: &[Piece],
    sites: &[Site],
    base: u32,
) -> Result<Vec<u8>, NoMemory>
    requires few { length pieces.now ≤ 4096 }
    requires room { base < 4294819804 }
    requires fit { fitting.are_fit view.now pieces.now sites.now base ≡ true }
    ensures bytes { IfOk result (λ out. out.items ≡ pieces_bytes view.now base pieces.now) }
    ensures few { IfOk result (λ out. length out.items ≤ 147456) }
{
    are_bytes(view.file());
    let code = pieces_code(alloc, view, base, pieces)?;
    code_bytes(alloc, &code)
}

/// The file with the pieces from a base on.
fn file_at(
    alloc: Global,
    view: &ImageView<'_>,
    pieces: &[Piece],
    sites: &[Site],
    base: u32,
) -> Result<Vec<u8>, NoMemory>
    requires file { length view.now.file ≤ IMAGE_LIMIT }
    requires few { length pieces.now ≤ 4096 }
    requires room { base < 4294819804 }
    requires fit { fitting.are_fit view.now pieces.now sites.now base ≡ true }
    ensures { IfOk result (λ file. file.items ≡ versioned_file view.now base pieces.now sites.now) }
{
    let bytes = pieces_bytes(alloc, view, pieces, sites, base)?;
    let patches = site_patches(alloc, sites)?;
    write_added(alloc, view, &patches, base, &bytes)
}

/// The versioned image whose pieces begin at the base that they have room at.
fn versioned_at(
    alloc: Global,
    view: &ImageView<'_>,
    pieces: &[Piece],
    sites: &[Site],
    base: u32,
) -> Result<Option<Made>, NoMemory>
    requires open { IsOpen view.now }
    requires few { length pieces.now ≤ 4096 }
    requires room { base < 4294819804 }
    requires place { IsStubBase view.now (versions.pieces_len pieces.now) base }
    ensures made { IfOk result (λ given. IfSome given (λ made. IsVersionedBy view.now pieces.now sites.now made.file.items made.base made.words)) }
    ensures none { IfOk result (λ given. IfNone given (HasNone view.now pieces.now sites.now)) }
{
    are_bytes(view.file());
    let fits = are_fit(alloc, view, pieces, sites, base)?;
    if !fits {
        return Ok(None);
    }
    let file = file_at(alloc, view, pieces, sites, base)?;
    if !is_image(alloc, &file)? {
        return Ok(None);
    }
    let words = pieces_len(pieces) / 4;
    Ok(Some(Made { file, base, words }))
}

/// The file of the image with these pieces and sites, and how many instructions the pieces have. They stand at the lowest base that has room
/// for them, and are to be made for it. None where the image is too long, has a block already or has no room for a section more, where there
/// is no piece or there are more than 4,096, or where pieces and sites don't fit.
pub fn versioned(
    alloc: Global,
    view: &ImageView<'_>,
    pieces: &[Piece],
    sites: &[Site],
) -> Result<Option<Made>, NoMemory>
    ensures made { IfOk result (λ given. IfSome given (λ made. IsVersionedBy view.now pieces.now sites.now made.file.items made.base made.words)) }
    ensures none { IfOk result (λ given. IfNone given (HasNone view.now pieces.now sites.now)) }
{
    if !is_open(view) {
        return Ok(None);
    }
    if pieces.len() > MOST_PIECES {
        return Ok(None);
    }
    let len = pieces_len(pieces);
    let base = stub_base(view, len);
    if base >= BASES {
        return Ok(None);
    }
    versioned_at(alloc, view, pieces, sites, base)
}
