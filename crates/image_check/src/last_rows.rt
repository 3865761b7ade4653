//! Where each entry of each level stands last, before any word of the keyed segment.

ghost use Rattle.std.specs.Prelude.{◌≡◌, ◌<◌, ◌≤◌, ◌+◌, ◌-◌, ◌*◌, ◌/◌, ◌^◌, ℕ, IfOk, vec_len};
ghost use Rattle.scale_base.specs.Image.{loaded_byte};
ghost use Rattle.stored_runs.specs.Meaning.{four_bits};
ghost use Rattle.flat_memory.specs.Lists.{list_bytes};
ghost use Rattle.image_check.specs.LastRows.{first_of_key, count_of_key, words_from, last_of, AreLastBefore, IsOneMore, AreBlocks};

use elf_image::ImageView;
use flat_memory::{ListMemory, Memory, load_list};
use scale_base::NoMemory;
use std::alloc::Global;

/// Where each entry of each level stands last among some words: 16 numbers for each of 8 levels, each one more than the number of the last word that has
/// the entry, or 0 where none has.
#[derive(Clone, Copy)]
pub struct LastPlaces {
    pub numbers: [u32; 128],
}

/// The entry of a word for a level: its bits 4i to 4i + 3.
fn entry_of(word: u32, i: u8) -> u8
    requires { i < 8 }
    ensures value { result ≡ four_bits word i }
    ensures small { result < 16 }
{
    ((word >> (4 * u32::from(i))) % 16) as u8
}

impl LastPlaces {
    /// Those of no word.
    fn none() -> LastPlaces
        ensures { (words : ℕ → ℕ) → AreLastBefore words 0 result }
    {
        LastPlaces { numbers: [0; 128] }
    }

    /// The number of a level and an entry.
    pub fn get(&self, i: u8, entry: u8) -> u32
        requires level { i < 8 }
        requires small { entry < 16 }
        ensures { result ≡ last_of self.now i entry }
    {
        self.numbers[16 * usize::from(i) + usize::from(entry)]
    }

    fn set(&mut self, i: u8, entry: u8, number: u32)
        requires level { i < 8 }
        requires small { entry < 16 }
        ensures there { last_of self.new i entry ≡ number }
        ensures others { (k j : ℕ) → k < 8 → j < 16 → (k ≡ i → j ≡ entry → ⊥) → last_of self.new k j ≡ last_of self.old k j }
    {
        self.numbers[16 * usize::from(i) + usize::from(entry)] = number;
    }

    /// One word more.
    fn add(&mut self, word: u32, number: u32)
        requires { number < 2 ^ 30 }
        ensures { IsOneMore self.old word number self.new }
    {
        for i in 0..8u8 {
            self.set(i, entry_of(word, i), number + 1);
        }
    }

    /// Those of the words up to a number, from those of the words up to a lower one.
    fn with_words(self, memory: &ListMemory, first: u32, from: u32, to: u32) -> LastPlaces
        requires fits { 4 * (first + to) < 2 ^ 32 }
        requires order { from ≤ to }
        requires before { AreLastBefore (words_from (list_bytes memory.now) first) from self }
        ensures { AreLastBefore (words_from (list_bytes memory.now) first) to result }
    {
        let mut places = self;
        for number in from..to {
            places.add(memory.word(4 * (first + number)), number);
        }
        places
    }
}

/// Those before each 64th of some words.
fn blocks_of(
    alloc: Global,
    memory: &ListMemory,
    first: u32,
    count: u32,
) -> Result<Vec<LastPlaces>, NoMemory>
    requires { 4 * (first + count) < 2 ^ 32 }
    ensures { IfOk result (λ blocks. AreBlocks (words_from (list_bytes memory.now) first) (count / 64 + 1) blocks.items) }
{
    let mut blocks = Vec::with_capacity(alloc, (count / 64 + 1) as usize)?;
    let mut places = LastPlaces::none();
    for b in 0..count / 64 {
        blocks.push(places)?;
        places = places.with_words(memory, first, 64 * b, 64 * b + 64);
    }
    blocks.push(places)?;
    Ok(blocks)
}

/// What an image loads, and where the entries of the words of its keyed segment stand last. A word's number counts from the segment's first word on.
#[derive(Drop)]
pub struct LastRows {
    pub memory: ListMemory,
    /// The address of word 0, divided by 4.
    pub first: u32,
    /// How many words there are.
    pub count: u32,
    /// The places before word 0 and before each 64th word behind it, up to some word.
    pub blocks: Vec<LastPlaces>,
    ghost fits: { 4 * (first + count) < 2 ^ 32 },
    ghost some: { 1 ≤ vec_len blocks },
    ghost few: { vec_len blocks ≤ count / 64 + 1 },
    ghost places: { AreBlocks (words_from (list_bytes memory) first) (vec_len blocks) blocks.items },
}

impl LastRows {
    /// Where each entry of each level stands last among the first `end` words. Reads the words from the last place before `end` on: at most 63 words where
    /// there are places before each 64th word.
    pub fn places_before(&self, end: u32) -> LastPlaces
        requires { end ≤ self.now.count }
        ensures { AreLastBefore (words_from (list_bytes self.now.memory) self.now.first) end result }
    {
        let b = (end as usize / 64).min(self.blocks.len() - 1);
        self.blocks[b].with_words(&self.memory, self.first, 64 * b as u32, end)
    }
}

/// The first word of the keyed segment of an image, and how many there are.
fn key_words(view: &ImageView<'_>) -> (u32, u32)
    ensures first { result.0 ≡ first_of_key view.now.keyed_segment }
    ensures count { result.1 ≡ count_of_key view.now.keyed_segment }
    ensures fits { 4 * (result.0 + result.1) < 2 ^ 32 }
{
    match view.keyed() {
        Some(keyed) => {
            let first = keyed.range.from / 4;
            (first, (keyed.range.to / 4).saturating_sub(first))
        }
        None => (0, 0),
    }
}

/// The memory of an image. Where its rows are looked at, the places of its keyed segment are read too, each word of that segment once; they take twice the
/// bytes of the segment, and 512 more. Err only for want of memory.
pub fn read_rows(alloc: Global, view: &ImageView<'_>, are_read: bool) -> Result<LastRows, NoMemory>
    ensures bytes { IfOk result (λ rows. list_bytes rows.memory ≡ loaded_byte view.now) }
    ensures first { IfOk result (λ rows. rows.first ≡ first_of_key view.now.keyed_segment) }
    ensures count { IfOk result (λ rows. rows.count ≡ count_of_key view.now.keyed_segment) }
{
    let (first, count) = key_words(view);
    let memory = load_list(alloc, view)?;
    let blocks = blocks_of(alloc, &memory, first, if are_read { count } else { 0 })?;
    Ok(LastRows {
        memory,
        first,
        count,
        blocks,
    })
}
