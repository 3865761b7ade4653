//! The words of a text, by number.

ghost use Rattle.std.specs.Prelude.{◌≡◌, ◌↔◌, ◌<◌, ℕ, ◌%◌, ◌++◌, IfOk, Some, length, map, slice_index, slice_get, true};
ghost use Rattle.scale_base.specs.Image.{is_in};
ghost use Rattle.code_text.specs.Text as texts;
ghost use Rattle.code_text.specs.Table.{word_addresses, all_addresses, word_table};
ghost use Rattle.code_text.specs.Walk.{IsWalked, AreTargetsOf, Rise, RiseStrictly};

use crate::instructions::{instr_at, instr_kind};
use crate::known::known_within;
use crate::targets::targets_of;
use cost_theory::Flow;
use elf_image::ImageView;
use scale_base::{Instr, NoMemory, Range};
use std::alloc::Global;
use std::marker::Model;

/// How many words before an ECALL the number of its service is looked for.
const WORDS_BACK: u32 = 16;

/// The words of a text, numbered by their addresses, which ascend.
#[derive(Drop)]
pub struct TextWords {
    addresses: Vec<u32>,
    kinds: Vec<Flow>,
}

impl Model for TextWords {
    ghost use Rattle.std.specs.Prelude.{◌≡◌, length};
    ghost use Rattle.code_text.specs.Table.{WordTable};
    ghost use Rattle.code_text.specs.Walk.{RiseStrictly};

    ghost Value = { WordTable };

    ghost view = { λ w. record { addresses = w.addresses.items; kinds = w.kinds.items } };

    ghost invariant = { λ w. (length w.kinds.items ≡ length w.addresses.items) × RiseStrictly w.addresses.items };
}

/// Puts the addresses of the words of a range behind the others.
fn add_addresses(addresses: &mut Vec<u32>, range: Range) -> Result<(), NoMemory>
    ensures { IfOk result (λ _. addresses.new.items ≡ addresses.old.items ++ word_addresses range) }
{
    for k in 0..range.to.saturating_sub(range.from) / 4 {
        addresses.push(range.from + 4 * k)?;
    }
    Ok(())
}

/// The addresses of the words of the text.
fn addresses_of(alloc: Global, view: &ImageView<'_>) -> Result<Vec<u32>, NoMemory>
    ensures words { IfOk result (λ addresses. addresses.items ≡ all_addresses view.now.text) }
    ensures rising { IfOk result (λ addresses. RiseStrictly addresses.items) }
{
    let text = view.text();
    let mut addresses = Vec::new(alloc);
    for range in text {
        add_addresses(&mut addresses, *range)?;
    }
    Ok(addresses)
}

/// The number that x17 is known to hold at an ECALL.
fn known_for(
    instr: &Instr,
    view: &ImageView<'_>,
    targets: &[u32],
    range: Range,
    at: u32,
) -> Option<u32>
    requires aligned { at % 4 ≡ 0 }
    requires inside { is_in at range ≡ true }
    requires range { IsWalked view.now range }
    requires targets { AreTargetsOf (texts.text_of view.now) targets.now }
    requires rising { Rise targets.now }
    ensures { instr.now ≡ Instr.Ecall → texts.known (texts.text_of view.now) at ≡ result }
{
    match instr {
        Instr::Ecall => known_within(view, targets, range, at, WORDS_BACK),
        _ => None,
    }
}

/// What the word at an address of a range says of the way on.
fn kind_at(view: &ImageView<'_>, targets: &[u32], range: Range, at: u32) -> Flow
    requires aligned { at % 4 ≡ 0 }
    requires inside { is_in at range ≡ true }
    requires range { IsWalked view.now range }
    requires targets { AreTargetsOf (texts.text_of view.now) targets.now }
    requires rising { Rise targets.now }
    ensures { result ≡ texts.kind_at (texts.text_of view.now) at }
{
    match instr_at(view, at) {
        Some(instr) => instr_kind(&instr, at, known_for(&instr, view, targets, range, at)),
        None => Flow::Refused,
    }
}

/// Puts what the words of a range say of the way on behind the others.
fn add_kinds(
    kinds: &mut Vec<Flow>,
    view: &ImageView<'_>,
    targets: &[u32],
    range: Range,
) -> Result<(), NoMemory>
    requires range { IsWalked view.now range }
    requires targets { AreTargetsOf (texts.text_of view.now) targets.now }
    requires rising { Rise targets.now }
    ensures { IfOk result (λ _. kinds.new.items ≡ kinds.old.items ++ map (texts.kind_at (texts.text_of view.now)) (word_addresses range)) }
{
    for k in 0..range.to.saturating_sub(range.from) / 4 {
        kinds.push(kind_at(view, targets, range, range.from + 4 * k))?;
    }
    Ok(())
}

/// What each word of the text says of the way on.
fn kinds_of(alloc: Global, view: &ImageView<'_>, targets: &[u32]) -> Result<Vec<Flow>, NoMemory>
    requires targets { AreTargetsOf (texts.text_of view.now) targets.now }
    requires rising { Rise targets.now }
    ensures { IfOk result (λ kinds. kinds.items ≡ map (texts.kind_at (texts.text_of view.now)) (all_addresses view.now.text)) }
{
    let text = view.text();
    let mut kinds = Vec::new(alloc);
    for range in text {
        add_kinds(&mut kinds, view, targets, *range)?;
    }
    Ok(kinds)
}

/// The words of the text of an image. Err only for want of memory.
pub fn read_words(alloc: Global, view: &ImageView<'_>) -> Result<TextWords, NoMemory>
    ensures { IfOk result (λ words. words ≡ word_table (texts.text_of view.now)) }
{
    let addresses = addresses_of(alloc, view)?;
    let targets = targets_of(alloc, view)?;
    let kinds = kinds_of(alloc, view, &targets)?;
    Ok(TextWords { addresses, kinds })
}

impl TextWords {
    /// The number of words.
    pub fn count(&self) -> usize
        ensures addresses { result ≡ length self.now.addresses }
        ensures kinds { result ≡ length self.now.kinds }
        ensures rising { RiseStrictly self.now.addresses }
    {
        self.addresses.len()
    }

    /// The address of a word.
    pub fn address(&self, k: usize) -> u32
        requires { k < length self.now.addresses }
        ensures { slice_get self.now.addresses k ≡ Some result }
    {
        self.addresses[k]
    }

    /// What a word says of the way on.
    pub fn kind(&self, k: usize) -> Flow
        requires { k < length self.now.addresses }
        ensures { slice_get self.now.kinds k ≡ Some result }
    {
        self.kinds[k]
    }

    /// The number of the word at an address. None exactly where none of the words begins there.
    pub fn find(&self, at: u32) -> Option<usize>
        ensures { (k : ℕ) → (result ≡ Some k) ↔ (slice_get self.now.addresses k ≡ Some at) }
    {
        self.addresses.binary_search(&at).ok()
    }
}
