//! The symbols of a file, in their table.

ghost use Rattle.std.specs.Prelude.{◌≡◌, ◌≤◌, ◌<◌, ◌+◌, ◌*◌, ◌++◌, ◌∷◌, [], ◌==◌, ◌&&◌, not, length, drop, nat_eq, find};
ghost use Rattle.std.specs.List.{list_any, starts_with};
ghost use Rattle.scale_base.specs.Bytes.{list_word_at};
ghost use Rattle.scale_base.specs.Symbols as symbols;
ghost use Rattle.elf_image.specs.Table as table;

use crate::fields::{half, word};

/// The bytes of a symbol table, and those of its strings.
#[derive(Clone, Copy)]
pub struct SymbolTable<'a> {
    pub entries: &'a [u8],
    pub strings: &'a [u8],
}

/// The bytes begin with the name and a zero.
fn begins_with_text(bytes: &[u8], name: &[u8]) -> bool
    ensures { result ≡ starts_with nat_eq bytes.now (name.now ++ 0 ∷ []) }
{
    if bytes.len() <= name.len() {
        return false;
    }
    if !bytes.starts_with(name) {
        return false;
    }
    bytes[name.len()] == 0
}

/// The name stands at a place of the strings.
fn stands_at(name: &[u8], strings: &[u8], at: usize) -> bool
    ensures { result ≡ starts_with nat_eq (drop at strings.now) (name.now ++ 0 ∷ []) }
{
    if at > strings.len() {
        return begins_with_text(&[], name);
    }
    begins_with_text(&strings[at..], name)
}

fn has_zero(name: &[u8]) -> bool
    ensures { result ≡ list_any (λ b. b == 0) name.now }
{
    name.iter().any(|b| *b == 0)
}

impl<'a> SymbolTable<'a> {
    /// The section of entry `k` isn't 0.
    pub fn is_defined(&self, k: usize) -> bool
        requires { 16 * k + 16 ≤ length self.now.entries.now }
        ensures { result ≡ table.is_defined self.now.entries.now k }
    {
        half(self.entries, 16 * k + 14) != 0
    }

    /// Entry `k` is defined and has the name.
    pub fn is_named(&self, name: &[u8], k: usize) -> bool
        requires { 16 * k + 16 ≤ length self.now.entries.now }
        ensures { result ≡ symbols.is_named name.now self.now.strings.now self.now.entries.now k }
    {
        self.is_defined(k)
            && !has_zero(name)
            && stands_at(name, self.strings, word(self.entries, 16 * k) as usize)
    }

    /// The value of the first entry after entry 0 that has the name.
    pub fn value(&self, name: &[u8]) -> Option<u32>
        ensures { result ≡ symbols.value_in name.now self.now.strings.now self.now.entries.now }
    {
        for k in 1..self.entries.len() / 16 {
            if self.is_named(name, k) {
                return Some(word(self.entries, 16 * k + 4));
            }
        }
        None
    }
}
