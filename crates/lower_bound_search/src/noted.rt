//! Notes of loops that turn more often at least.

use loop_file::{LoopNote, RangeList};
use scale_base::NoMemory;
use std::alloc::Global;

// The same ranges once more.
fn copied(alloc: Global, ranges: &RangeList) -> Result<RangeList, NoMemory> {
    let mut items = Vec::new(alloc);
    for k in 0..ranges.count() {
        items.push(*ranges.get(k))?;
    }
    Ok(RangeList::from_vec(items))
}

/// The note of a loop that turns so often at least.
pub fn noted(alloc: Global, note: &LoopNote, at_least: u32) -> Result<LoopNote, NoMemory> {
    Ok(LoopNote {
        header: note.header,
        ranges: copied(alloc, &note.ranges)?,
        bound: note.bound,
        counted: note.counted,
        at_least,
    })
}
