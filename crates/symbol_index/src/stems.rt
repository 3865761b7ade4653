//! Symbols by the stems of their names: numbers that are the same where the names are.

ghost use Rattle.std.specs.Prelude.{◌≡◌, ◌-◌, ◌/◌, ◌*◌, ◌+◌, ◌<◌, ◌≤◌, ℕ, length, take, drop, filter, All, IfOk, slice_index_or};
ghost use Rattle.std.specs.List.Sorted.{IsNonDecreasingBy};
ghost use Rattle.symbol_index.specs.declared.stems.SymbolKey.{SymbolKey};
ghost use Rattle.symbol_index.specs.Stems as stems;
ghost use Rattle.symbol_index.specs.Stems.{AreSortedKeys, IsInTable};

use elf_image::{SymbolTable, word};
use scale_base::NoMemory;
use std::alloc::Global;

// FNV-1a with 64 bits (G. Fowler, L. C. Noll, K.-P. Vo): its offset basis and its prime.
const FNV_BASIS: u64 = 0xCBF2_9CE4_8422_2325;

const FNV_PRIME: u64 = 0x0000_0100_0000_01B3;

// A stem takes no more bytes of a name, so that many symbols with one long name cost little.
const MOST_BYTES: usize = 4096;

/// The stem of a symbol's name, and the symbol's number in its table.
#[derive(Clone, Copy, Drop)]
pub struct SymbolKey {
    pub stem: u64,
    pub number: usize,
}

#[tactic(auto, unfolding(crate::specs::Stems::mixed))]
fn mixed(stem: u64, byte: u8) -> u64
    ensures { result ≡ stems.mixed stem byte }
{
    (stem ^ u64::from(byte)).wrapping_mul(FNV_PRIME)
}

fn stem_from(basis: u64, bytes: &[u8]) -> u64
    ensures { result ≡ stems.stem_from basis bytes.now }
{
    let mut stem = basis;
    for byte in bytes {
        if *byte == 0 {
            return stem;
        }
        stem = mixed(stem, *byte);
    }
    stem
}

/// The first bytes of a text: those that a stem may take.
fn first_bytes(text: &[u8]) -> &[u8]
    ensures { result.now ≡ take 4096 text.now }
{
    if text.len() > MOST_BYTES {
        return &text[..MOST_BYTES];
    }
    text
}

/// The stem of the bytes before the first zero.
#[tactic(auto, unfolding(crate::specs::Stems::stem_of))]
pub fn stem_of(text: &[u8]) -> u64
    ensures { result ≡ stems.stem_of text.now }
{
    stem_from(FNV_BASIS, first_bytes(text))
}

/// The bytes of the strings from a place on.
fn text_at(strings: &[u8], at: usize) -> &[u8]
    ensures { result.now ≡ drop at strings.now }
{
    if at > strings.len() {
        return &[];
    }
    &strings[at..]
}

fn key_of(symbols: &SymbolTable<'_>, number: usize) -> SymbolKey
    requires { 16 * number + 16 ≤ length symbols.now.entries.now }
    ensures { result ≡ stems.symbol_key symbols.now.strings.now symbols.now.entries.now number }
{
    let at = word(symbols.entries, 16 * number) as usize;
    SymbolKey {
        stem: stem_of(text_at(symbols.strings, at)),
        number,
    }
}

fn list_keys(alloc: Global, symbols: &SymbolTable<'_>) -> Result<Vec<SymbolKey>, NoMemory>
    ensures { IfOk result (λ keys. keys.items ≡ stems.keys_of symbols.now.strings.now symbols.now.entries.now
        (length symbols.now.entries.now / 16 - 1)) }
{
    let mut keys = Vec::new(alloc);
    for number in 1..symbols.entries.len() / 16 {
        if symbols.is_defined(number) {
            keys.push(key_of(symbols, number))?;
        }
    }
    Ok(keys)
}

/// The defined symbols by their stems, those of one stem in their order.
pub fn sorted_keys(alloc: Global, symbols: &SymbolTable<'_>) -> Result<Vec<SymbolKey>, NoMemory>
    ensures { IfOk result (λ keys. AreSortedKeys symbols.now.strings.now symbols.now.entries.now keys.items) }
{
    let mut keys = list_keys(alloc, symbols)?;
    keys.sort_by(|a, b| a.stem.cmp(&b.stem))?;
    Ok(keys)
}

// How many keys stand below a stem.
fn below(keys: &[SymbolKey], stem: u64) -> usize
    requires { IsNonDecreasingBy (λ (key : SymbolKey). key.stem) keys.now }
    ensures bound { result ≤ length keys.now }
    ensures before { (k : ℕ) (d : SymbolKey) → k < result → (slice_index_or keys.now k d).stem < stem }
    ensures behind { (k : ℕ) (d : SymbolKey) → result ≤ k → k < length keys.now → stem ≤ (slice_index_or keys.now k d).stem }
{
    keys.partition_point(|key| key.stem < stem)
}

// How many keys stand at or below a stem.
fn up_to(keys: &[SymbolKey], stem: u64) -> usize
    requires { IsNonDecreasingBy (λ (key : SymbolKey). key.stem) keys.now }
    ensures bound { result ≤ length keys.now }
    ensures before { (k : ℕ) (d : SymbolKey) → k < result → (slice_index_or keys.now k d).stem ≤ stem }
    ensures behind { (k : ℕ) (d : SymbolKey) → result ≤ k → k < length keys.now → stem < (slice_index_or keys.now k d).stem }
{
    keys.partition_point(|key| key.stem <= stem)
}

/// The keys of a stem.
pub fn keys_with(keys: &[SymbolKey], stem: u64) -> &[SymbolKey]
    requires { IsNonDecreasingBy (λ (key : SymbolKey). key.stem) keys.now }
    ensures { result.now ≡ filter (stems.has_stem stem) keys.now }
{
    let first = below(keys, stem);
    let rest = &keys[first..];
    &rest[..up_to(rest, stem)]
}
