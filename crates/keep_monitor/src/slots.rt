//! Where headers of loops may stand: a coarse table that most steps need alone.

ghost use Rattle.std.specs.Prelude.{◌≡◌, ◌<◌, length, IfOk, slice_index_or, true};
ghost use Rattle.keep_monitor.specs.Slots.{slot_of, AreSlotsOf};

use loop_file::LoopNotes;
use scale_base::NoMemory;
use std::alloc::Global;

/// So many slots there are: words of as many in a row have slots of their own.
const SLOTS: u32 = 65_536;

#[inline(always)]
fn slot_of(at: u32) -> usize
    ensures is { result ≡ slot_of at }
    ensures small { result < 65536 }
{
    (at / 4 % SLOTS) as usize
}

/// Which slots have a header of a loop.
pub fn header_slots(alloc: Global, notes: &LoopNotes) -> Result<Vec<bool>, NoMemory>
    ensures { IfOk result (λ slots. AreSlotsOf notes.now (length notes.now) slots.items) }
{
    let mut slots = vec![in alloc; false; SLOTS as usize]?;
    for k in 0..notes.count() {
        slots[slot_of(notes.note(k).header)] = true;
    }
    Ok(slots)
}

/// Whether the slot of an address has a header.
#[inline(always)]
pub fn has_header(slots: &[bool], at: u32) -> bool
    requires { length slots.now ≡ 65536 }
    ensures { result ≡ slice_index_or slots.now (slot_of at) true }
{
    slots[slot_of(at)]
}
