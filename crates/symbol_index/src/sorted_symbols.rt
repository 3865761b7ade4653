//! The symbols of an image, sorted by the stems of their names.

ghost use Rattle.std.specs.Prelude.{◌≡◌, ◌+◌, ◌*◌, length, find, option_map, All, IfOk};
ghost use Rattle.scale_base.specs.Bytes.{list_word_at};
ghost use Rattle.scale_base.specs.Symbols.{symbol_value, value_in, is_named};
ghost use Rattle.symbol_index.specs.Stems.{AreSortedKeys, IsInTable};

use crate::stems::{SymbolKey, keys_with, sorted_keys, stem_of};
use elf_image::{ImageView, SymbolTable, word};
use scale_base::NoMemory;
use std::alloc::Global;
use std::marker::Model;

/// The symbols of an image, sorted, for many look-ups: each takes about as many steps as the number of symbols has bits.
#[derive(Drop)]
pub struct SortedSymbols<'a> {
    file: &'a [u8],
    table: SymbolTable<'a>,
    keys: Vec<SymbolKey>,
}

impl<'a> Model for SortedSymbols<'a> {
    ghost use Rattle.scale_base.specs.Image.{Image, contents};
    ghost use Rattle.symbol_index.specs.Stems.{AreSymbolsOf};

    ghost Value = { Image };

    ghost view = { λ s. contents s.file.now };

    ghost invariant = { λ s. AreSymbolsOf s.file.now s.table.strings.now s.table.entries.now s.keys.items };
}

/// The value of the first of these symbols that has the name.
fn value_among(name: &[u8], table: &SymbolTable<'_>, keys: &[SymbolKey]) -> Option<u32>
    requires { All (IsInTable (length table.now.entries.now)) keys.now }
    ensures { result ≡ option_map (λ key. list_word_at table.now.entries.now (16 * key.number + 4))
        (find (λ key. is_named name.now table.now.strings.now table.now.entries.now key.number) keys.now) }
{
    for key in keys {
        if table.is_named(name, key.number) {
            return Some(word(table.entries, 16 * key.number + 4));
        }
    }
    None
}

fn value_by(name: &[u8], table: &SymbolTable<'_>, keys: &[SymbolKey]) -> Option<u32>
    requires { AreSortedKeys table.now.strings.now table.now.entries.now keys.now }
    ensures { result ≡ value_in name.now table.now.strings.now table.now.entries.now }
{
    value_among(name, table, keys_with(keys, stem_of(name)))
}

impl<'a> SortedSymbols<'a> {
    /// Sorts the symbols of an image. An error says that memory ran out.
    pub fn of(alloc: Global, image: &'a ImageView<'_>) -> Result<SortedSymbols<'a>, NoMemory>
        ensures { IfOk result (λ symbols. symbols ≡ image.now) }
    {
        let file = image.file();
        let table = image.symbol_table();
        let keys = sorted_keys(alloc, &table)?;
        Ok(SortedSymbols { file, table, keys })
    }

    /// The value of a symbol, if the image has it: the same as of `ImageView::symbol`.
    pub fn value(&self, name: &str) -> Option<u32>
        ensures { result ≡ symbol_value self.now.file name.now }
    {
        value_by(name.as_bytes(), &self.table, &self.keys)
    }
}
