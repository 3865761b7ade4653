//! The names of a program's addresses: the nearest symbol at or below each, as `objdump` writes it.

ghost use Rattle.std.specs.Prelude.{◌≡◌, IfOk, IfSome};
ghost use Rattle.code_names.specs.Places.{IsNamedPlace};

use elf_image::ImageView;
use elf_sections::{
    SHT_STRTAB, SHT_SYMTAB, bytes_at, half, section, section_count, section_header, word,
};
use scale_base::NoMemory;
use std::alloc::Global;
use std::marker::Model;
use symbol_index::SortedSymbols;

// System V ABI, chapter 4: the kinds of symbols that stand for code.
const STT_NOTYPE: u8 = 0;

const STT_FUNC: u8 = 2;

const SYMBOL: usize = 16;

/// A longer name isn't used.
const MOST_NAME: usize = 64;

/// A symbol of the text.
#[derive(Clone, Copy, Drop)]
pub struct Symbol<'a> {
    pub at: u32,
    pub name: &'a str,
}

/// The symbols of an image, ascending by their addresses.
#[derive(Drop)]
pub struct Names<'a> {
    symbols: Vec<Symbol<'a>>,
    sorted: SortedSymbols<'a>,
}

impl<'a> Model for Names<'a> {
    ghost use Rattle.scale_base.specs.Image.{Image};

    ghost Value = { Image };

    ghost view = { λ n. n.sorted };
}

/// The place of an address beside a symbol.
#[derive(Clone, Copy, Drop)]
pub struct NamedPlace<'a> {
    pub name: &'a str,
    pub offset: u32,
    /// Whether the loop file finds the address by the name: it is the first symbol of that name.
    pub is_first: bool,
}

// The entries of a symbol table and the bytes of its strings.
#[derive(Clone, Copy)]
struct Table<'a> {
    entries: &'a [u8],
    strings: &'a [u8],
}

// The symbol table of a header, where it and its strings lie in the file.
fn table_at<'a>(file: &'a [u8], header: &[u8]) -> Option<Table<'a>> {
    let entries = section(file, header, SHT_SYMTAB)?;
    let strings = section(file, section_header(file, word(header, 24)), SHT_STRTAB)?;
    Some(Table { entries, strings })
}

// The first symbol table of a file, or one without entries.
fn table_of(file: &[u8]) -> Table<'_> {
    for number in 0..section_count(file) {
        if let Some(table) = table_at(file, section_header(file, u32::from(number))) {
            return table;
        }
    }
    Table {
        entries: &[],
        strings: &[],
    }
}

fn is_name_byte(byte: u8) -> bool {
    byte.is_ascii_alphanumeric() || byte == b'_' || byte == b'.' || byte == b'$'
}

// The name at a place of the strings, where it is short and may stand in a loop file. Names that begin with a point or a dollar are marks of the assembler.
fn name_at(strings: &[u8], at: usize) -> Option<&str> {
    let bytes = bytes_at(strings, at);
    let end = bytes
        .iter()
        .take(MOST_NAME + 1)
        .position(|byte| *byte == 0)?;
    let name = bytes.get(..end)?;
    let first = *name.first()?;
    if first == b'.' || first == b'$' || !name.iter().all(|byte| is_name_byte(*byte)) {
        return None;
    }
    std::str::from_utf8(name).ok()
}

// A symbol of a kind that names a place of the text, by its entry.
fn symbol_of<'a>(
    view: &ImageView<'_>,
    table: Table<'a>,
    number: usize,
    kind: u8,
) -> Option<Symbol<'a>> {
    let entry = bytes_at(table.entries, SYMBOL.saturating_mul(number));
    let info = *entry.get(12)?;
    let at = word(entry, 4);
    if info % 16 != kind || half(entry, 14) == 0 || !view.is_text_word(at) {
        return None;
    }
    let name = name_at(table.strings, word(entry, 0) as usize)?;
    Some(Symbol { at, name })
}

// Adds the symbols of a kind.
fn push_symbols<'a>(
    symbols: &mut Vec<Symbol<'a>>,
    view: &ImageView<'_>,
    table: Table<'a>,
    kind: u8,
) -> Result<(), NoMemory> {
    for number in 1..table.entries.len() / SYMBOL {
        if let Some(symbol) = symbol_of(view, table, number, kind) {
            symbols.push(symbol)?;
        }
    }
    Ok(())
}

/// The symbols of an image. Of those with one address a function's stands last.
pub fn names_of<'a>(alloc: Global, view: &'a ImageView<'a>) -> Result<Names<'a>, NoMemory>
    ensures { IfOk result (λ names. names ≡ view.now) }
{
    let table = table_of(view.file());
    let mut symbols = Vec::new(alloc);
    push_symbols(&mut symbols, view, table, STT_NOTYPE)?;
    push_symbols(&mut symbols, view, table, STT_FUNC)?;
    symbols.sort_by(|a, b| a.at.cmp(&b.at))?;
    let sorted = SortedSymbols::of(alloc, view)?;
    Ok(Names { symbols, sorted })
}

// The place of an address beside a symbol at or below it, which the image has by its name.
fn placed<'a>(sorted: &SortedSymbols<'a>, symbol: Symbol<'a>, at: u32) -> Option<NamedPlace<'a>>
    ensures { IfSome result (λ place. IsNamedPlace sorted.now.file at place.name.now place.offset place.is_first) }
{
    if at < symbol.at {
        return None;
    }
    match sorted.value(symbol.name) {
        Some(first) => Some(NamedPlace {
            name: symbol.name,
            offset: at - symbol.at,
            is_first: first == symbol.at,
        }),
        None => None,
    }
}

impl<'a> Names<'a> {
    /// The place of an address beside the nearest symbol at or below it. None where there is none.
    pub fn place(&self, at: u32) -> Option<NamedPlace<'a>>
        ensures { IfSome result (λ place. IsNamedPlace self.now.file at place.name.now place.offset place.is_first) }
    {
        let above = self.symbols.partition_point(|symbol| symbol.at <= at);
        let symbol = *self.symbols.get(above.checked_sub(1)?)?;
        placed(&self.sorted, symbol, at)
    }
}
