//! The instructions of the keyed segment of an image.

ghost use Rattle.std.specs.Prelude.{◌≡◌, ◌↔◌, ◌+◌, ◌-◌, ◌*◌, ◌/◌, ◌≤◌, ℕ, IfOk, Some, map};
ghost use Rattle.std.specs.List.{range_with_len};
ghost use Rattle.scale_base.specs.State.{word_at};
ghost use Rattle.flat_memory.specs.Lists.{list_bytes};
ghost use Rattle.foreign_scan.specs.Form.{HoldsAt};
ghost use Rattle.foreign_scan.specs.KeyWords.{IsWordAt, first_word, end_word};

use elf_image::ImageView;
use flat_memory::{ListMemory, Memory, load_list};
use rv_decode::decode;
use scale_base::{Instr, NoMemory};
use std::alloc::Global;
use std::marker::Model;

/// The words of the keyed segment of an image, each read once. In contracts it stands for the image.
#[derive(Drop)]
pub struct KeyCode<'a> {
    view: &'a ImageView<'a>,
    first: u32,
    words: Vec<u32>,
}

impl<'a> Model for KeyCode<'a> {
    ghost use Rattle.scale_base.specs.Image.{Image};
    ghost use Rattle.foreign_scan.specs.KeyWords.{AreKeyWords};

    ghost Value = { Image };

    ghost view = { λ k. k.view.now };

    ghost invariant = { λ k. AreKeyWords k.view.now k.first k.words.items };
}

/// The numbers of the words of the keyed segment: the first one, and one more than the last.
fn word_numbers(view: &ImageView<'_>) -> (u32, u32)
    ensures first { result.0 ≡ first_word view.now.keyed_segment }
    ensures end { result.1 ≡ end_word view.now.keyed_segment }
    ensures bound { 4 * result.1 ≤ 0xFFFF_FFFF }
{
    match view.keyed() {
        Some(keyed) => (keyed.range.from.div_ceil(4), keyed.range.to / 4),
        None => (0, 0),
    }
}

/// The words of a memory from a number on until another.
fn words_between(
    alloc: Global,
    memory: &ListMemory,
    first: u32,
    end: u32,
) -> Result<Vec<u32>, NoMemory>
    requires { 4 * end ≤ 0xFFFF_FFFF }
    ensures { IfOk result (λ words. words.items ≡ map (λ k. word_at (list_bytes memory.now) (4 * (first + k)))
        (range_with_len 0 (end - first))) }
{
    let mut words = Vec::new(alloc);
    for k in 0..end.saturating_sub(first) {
        words.push(memory.word(4 * (first + k)))?;
    }
    Ok(words)
}

/// The words of the keyed segment of an image, none where it has no such segment. Takes the memory of the whole image while it reads. Err only for want of
/// memory.
pub fn read_key<'a>(alloc: Global, view: &'a ImageView<'a>) -> Result<KeyCode<'a>, NoMemory>
    ensures { IfOk result (λ key. key ≡ view.now) }
{
    let (first, end) = word_numbers(view);
    let memory = load_list(alloc, view)?;
    let words = words_between(alloc, &memory, first, end)?;
    Ok(KeyCode { view, first, words })
}

impl<'a> KeyCode<'a> {
    /// The word at an address, a multiple of 4 whose four bytes lie in the keyed segment.
    pub(crate) fn word(&self, at: u64) -> Option<u32>
        ensures { (word : ℕ) → (result ≡ Some word) ↔ IsWordAt self.now at word }
    {
        if at % 4 != 0 || at / 4 < u64::from(self.first) {
            return None;
        }
        let k = at / 4 - u64::from(self.first);
        if k >= self.words.len() as u64 {
            return None;
        }
        Some(self.words[k as usize])
    }

    /// The instruction at an address. None exactly where the address is no multiple of 4, one of its four bytes lies outside of the keyed segment, or its
    /// word is none of RV32IM.
    pub fn instr(&self, at: u64) -> Option<Instr>
        ensures { (i : Instr) → (result ≡ Some i) ↔ HoldsAt self.now at i }
    {
        match self.word(at) {
            Some(word) => decode(word),
            None => None,
        }
    }
}
