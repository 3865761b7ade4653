//! The instructions of a memory before the first step.

ghost use Rattle.std.specs.Prelude.{◌≡◌, ℕ, ◌+◌, ◌*◌, ◌≤◌, ◌<◌, ◌%◌, ◌^◌, true, not, IfOk};
ghost use Rattle.scale_base.specs.Image.{is_in};
ghost use Rattle.scale_base.specs.Layout.{in_option};
ghost use Rattle.rv_machine.specs.Places.{is_text, has_address, IsTextInOrder, AreFull};
ghost use Rattle.scale_base.specs.Layout as rules;
ghost use Rattle.rv_machine.specs.Code.{IsDecodedCode, MayBeFixed, MayBePage, MayBeGroup};

use crate::access;
use crate::code::{Code, CodeGroup, CodePage};
use crate::decoded::{Decoded, describe};
use flat_memory::Memory;
use rv_decode::decode;
use scale_base::{NoMemory, Range};
use std::alloc::Global;

/// Whether the range has an address from one to another.
fn meets(range: &Range, from: u32, last: u32) -> bool
    requires { from ≤ last }
    ensures each { (a : ℕ) → from ≤ a → a ≤ last → is_in a range.now ≡ true → result ≡ true }
    ensures some { range.now.from < range.now.to → result ≡ true → (a : ℕ) × (from ≤ a) × (a ≤ last) × (is_in a range.now ≡ true) }
{
    range.from <= last && from < range.to
}

/// Where instructions may be fetched: text ranges, which ascend, and a keyed segment.
#[derive(Clone, Copy)]
pub struct Places<'a> {
    pub text: &'a [Range],
    pub keyed: Option<Range>,
}

impl Places<'_> {
    /// Whether one of them has an address from one to another.
    fn meet(&self, from: u32, last: u32) -> bool
        requires { from ≤ last }
        ensures keyed { (a : ℕ) → from ≤ a → a ≤ last → in_option a self.now.keyed ≡ true → result ≡ true }
        ensures text { (a : ℕ) → IsTextInOrder self.now → from ≤ a → a ≤ last → is_text self.now a ≡ true → result ≡ true }
        ensures some { AreFull self.now → result ≡ true → (a : ℕ) × (from ≤ a) × (a ≤ last) × (has_address self.now a ≡ true) }
    {
        if let Some(range) = &self.keyed {
            if meets(range, from, last) {
                return true;
            }
        }
        let place = self.text.partition_point(|range| range.to <= from);
        place < self.text.len() && meets(&self.text[place], from, last)
    }
}

/// Whether none of the four bytes may be written.
#[tactic(auto, using(scale_base::proofs::Laws::each_byte_none, scale_base::proofs::Laws::each_byte_more))]
fn is_unwritten<M: Memory>(memory: &M, at: u32) -> bool
    requires { at + 4 ≤ 2 ^ 32 }
    ensures { result ≡ rules.each_byte (λ a. not (rules.may_write (M.layout memory.now) a)) at 4 }
{
    for k in 0..4 {
        if memory.may_write(at + k) {
            return false;
        }
    }
    true
}

/// The instruction of the word at a multiple of 4, if it may be fetched and no byte of it may be written.
fn fixed_instr<M: Memory>(memory: &M, at: u32) -> Option<Decoded>
    requires { at % 4 ≡ 0 }
    ensures { MayBeFixed (M.layout memory.now) (M.bytes memory.now) at result }
{
    if access::can_fetch(memory, at) && is_unwritten(memory, at) {
        match decode(access::word_at(memory, at)) {
            Some(instr) => Some(describe(memory, at, instr)),
            None => None,
        }
    } else {
        None
    }
}

/// The instructions of a page, if one of the places has an address of it.
fn code_page<M: Memory>(
    alloc: Global,
    memory: &M,
    places: &Places<'_>,
    number: u32,
) -> Result<Option<CodePage>, NoMemory>
    requires { number < 2 ^ 20 }
    ensures { IfOk result (λ o. MayBePage (M.layout memory.now) (M.bytes memory.now) number o) }
{
    let from = number * 4096;
    if !places.meet(from, from + 4095) {
        return Ok(None);
    }
    let mut instrs = Vec::with_capacity(alloc, 1024)?;
    for k in 0..1024 {
        instrs.push(fixed_instr(memory, 4 * (number * 1024 + k)))?;
    }
    Ok(Some(CodePage { instrs }))
}

/// The instructions of a group of pages, if one of the places has an address of it.
fn code_group<M: Memory>(
    alloc: Global,
    memory: &M,
    places: &Places<'_>,
    number: u32,
) -> Result<Option<CodeGroup>, NoMemory>
    requires { number < 1024 }
    ensures { IfOk result (λ o. MayBeGroup (M.layout memory.now) (M.bytes memory.now) number o) }
{
    let from = number * 0x40_0000;
    if !places.meet(from, from + 0x3F_FFFF) {
        return Ok(None);
    }
    let mut pages = Vec::with_capacity(alloc, 1024)?;
    for k in 0..1024 {
        pages.push(code_page(alloc, memory, places, number * 1024 + k)?)?;
    }
    Ok(Some(CodeGroup { pages }))
}

/// The instructions of the words in these places, as far as no step can change them. What stands elsewhere isn't known.
/// The clause says what is so of each known instruction, and not which words are known: any other word is decoded at its step,
/// to the same end, so that costs time alone.
pub fn decode_code<M: Memory>(
    alloc: Global,
    memory: &M,
    places: &Places<'_>,
) -> Result<Code, NoMemory>
    ensures { IfOk result (λ code. IsDecodedCode (M.layout memory.now) (M.bytes memory.now) code) }
{
    let mut groups = Vec::with_capacity(alloc, 1024)?;
    for k in 0..1024 {
        groups.push(code_group(alloc, memory, places, k)?)?;
    }
    Ok(Code { groups })
}
