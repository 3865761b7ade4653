//! The extent of a loop.

ghost use Rattle.std.specs.Prelude.{◌≡◌};
ghost use Rattle.loop_file.specs.Kept as kept;

use crate::notes::LoopNote;

/// Whether an address is a loop's header or lies in its ranges.
pub fn in_extent(note: &LoopNote, at: u32) -> bool
    ensures { result ≡ kept.in_extent note.now at }
{
    if at == note.header {
        return true;
    }
    for k in 0..note.ranges.count() {
        if note.ranges.get(k).contains(at) {
            return true;
        }
    }
    false
}
