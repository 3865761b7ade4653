//! The image of a file, borrowed from its bytes.

ghost use Rattle.std.specs.Prelude.{◌≡◌, ◌<◌, ◌≤◌, ◌+◌, ◌-◌, length, Ok, Some, IfSome, is_some, slice_get, find, option_map, ◌&&◌, ◌%◌, ◌==◌};
ghost use Rattle.std.specs.List.{list_any};
ghost use Rattle.scale_base.specs.Bytes.{list_word_at};
ghost use Rattle.scale_base.specs.Image as image;
ghost use Rattle.scale_base.specs.Image.{image_of, contents, text_word, Image};
ghost use Rattle.scale_base.specs.Symbols.{symbol_value};
ghost use Rattle.elf_image.specs.Ascending.{AscendFrom};
ghost use Rattle.elf_image.specs.Segment.{segment_value};
ghost use Rattle.elf_image.specs.Table.{AreSymbolBytes};
ghost use Rattle.elf_image.specs.View.{IsViewOf};

use crate::fields::word;
use crate::ranges::is_in_some;
use crate::symbols::SymbolTable;
use scale_base::{Keyed, ProgramHeader, Range};
use std::marker::Model;

/// The image of a file.
#[derive(Drop)]
pub struct ImageView<'a> {
    bytes: &'a [u8],
    segments: Vec<ProgramHeader>,
    keyed: Option<Keyed>,
    text: Vec<Range>,
    symbols: SymbolTable<'a>,
}

impl<'a> Model for ImageView<'a> {
    ghost use Rattle.scale_base.specs.Image.{Image, contents};
    ghost use Rattle.elf_image.specs.View.{IsViewOf};

    ghost Value = { Image };

    ghost view = { λ v. contents v.bytes.now };

    ghost invariant = { λ v. IsViewOf v.bytes.now v.segments.items v.keyed v.text.items v.symbols.strings.now v.symbols.entries.now };
}

/// A loaded segment: its addresses, its flags, and its part of the file with the place where that begins.
#[derive(Clone, Copy)]
pub struct Segment<'a> {
    pub from: u32,
    pub len: u32,
    pub flags: u32,
    pub file_at: u32,
    pub file: &'a [u8],
}

fn segment_of<'a>(bytes: &'a [u8], header: &ProgramHeader) -> Segment<'a>
    requires { header.now.p_offset + header.now.p_filesz ≤ length bytes.now }
    ensures { segment_value result ≡ image.segment_of bytes.now header.now }
{
    let at = header.p_offset as usize;
    Segment {
        from: header.p_vaddr,
        len: header.p_memsz,
        flags: header.p_flags,
        file_at: header.p_offset,
        file: &bytes[at..at + header.p_filesz as usize],
    }
}

fn has_word(header: &ProgramHeader, at: u32) -> bool
    ensures { result ≡ image.header_has_word at header.now }
{
    header.p_vaddr <= at
        && u64::from(at) + 4 <= u64::from(header.p_vaddr) + u64::from(header.p_filesz)
}

fn is_word_in(text: &[Range], at: u32) -> bool
    requires { AscendFrom 0 text.now }
    ensures { result ≡ ((at % 4 == 0) && list_any (image.is_in at) text.now) }
{
    at % 4 == 0 && is_in_some(text, at)
}

fn word_of(bytes: &[u8], place: Option<usize>) -> Option<u32>
    requires { IfSome place (λ p. p + 4 ≤ length bytes.now) }
    ensures { result ≡ option_map (list_word_at bytes.now) place }
{
    match place {
        Some(place) => Some(word(bytes, place)),
        None => None,
    }
}

/// The place in the file of the four bytes for the addresses from this one on.
fn place_in(segments: &[ProgramHeader], at: u32) -> Option<usize>
    ensures { result ≡ option_map (λ h. h.p_offset + (at - h.p_vaddr)) (find (image.header_has_word at) segments.now) }
{
    for header in segments {
        if has_word(header, at) {
            return Some(header.p_offset as usize + (at - header.p_vaddr) as usize);
        }
    }
    None
}

impl<'a> ImageView<'a> {
    /// The image of a file, by what is read of it: its loaded segments, its keyed segment, its text and its symbols.
    pub fn of(
        bytes: &'a [u8],
        segments: Vec<ProgramHeader>,
        keyed: Option<Keyed>,
        text: Vec<Range>,
        symbols: SymbolTable<'a>,
    ) -> ImageView<'a>
        requires { IsViewOf bytes.now segments.items keyed text.items symbols.strings.now symbols.entries.now }
        ensures { result ≡ contents bytes.now }
    {
        ImageView {
            bytes,
            segments,
            keyed,
            text,
            symbols,
        }
    }

    /// The address of the first instruction.
    pub fn entry(&self) -> u32
        ensures { result ≡ self.now.entry }
    {
        word(self.bytes, 24)
    }

    /// The bytes of the file.
    pub fn file(&self) -> &[u8]
        ensures bytes { result.now ≡ self.now.file }
        ensures image { image_of self.now.file ≡ Ok self.now }
    {
        self.bytes
    }

    /// The ranges of the text, in ascending order.
    pub fn text(&self) -> &[Range]
        ensures ranges { result.now ≡ self.now.text }
        ensures ascending { AscendFrom 0 self.now.text }
        ensures image { image_of self.now.file ≡ Ok self.now }
    {
        &self.text
    }

    /// The number of loaded segments.
    pub fn segment_count(&self) -> usize
        ensures { result ≡ length self.now.segments }
    {
        self.segments.len()
    }

    /// A loaded segment, in the order of the table.
    pub fn segment(&self, k: usize) -> Segment<'_>
        requires { k < length self.now.segments }
        ensures { slice_get self.now.segments k ≡ Some (segment_value result) }
    {
        segment_of(self.bytes, &self.segments[k])
    }

    /// The keyed segment, and the level that a run starts at.
    pub fn keyed(&self) -> Option<Keyed>
        ensures { result ≡ self.now.keyed_segment }
    {
        self.keyed
    }

    /// The word of an address, a multiple of 4 in a text range.
    pub fn word_at(&self, at: u32) -> Option<u32>
        ensures value { result ≡ text_word self.now at }
        ensures present { is_some result ≡ image.is_word_address self.now at }
    {
        if !is_word_in(&self.text, at) {
            return None;
        }
        word_of(self.bytes, place_in(&self.segments, at))
    }

    /// The value of a symbol, if the file has it.
    pub fn symbol(&self, name: &str) -> Option<u32>
        ensures { result ≡ symbol_value self.now.file name.now }
    {
        self.symbols.value(name.as_bytes())
    }

    /// The table of the symbols, for those who look for many of them.
    pub fn symbol_table(&self) -> SymbolTable<'_>
        ensures { AreSymbolBytes self.now.file result.strings.now result.entries.now }
    {
        self.symbols
    }

    /// The address is a multiple of 4 in a text range.
    pub fn is_text_word(&self, at: u32) -> bool
        ensures { result ≡ image.is_word_address self.now at }
    {
        is_word_in(&self.text, at)
    }

    /// The place in the file of the four bytes for the addresses from this one on, if a segment has them there.
    pub fn file_place(&self, at: u32) -> Option<usize>
        ensures value { result ≡ image.file_place self.now.file at }
        ensures within { IfSome result (λ place. place + 4 ≤ length self.now.file) }
    {
        place_in(&self.segments, at)
    }
}
