//! Reads loop files: the bounds of a program's loops, in TOML.
//! Tests: crates/file_tests/src/loop_files.rt.
#![tactic(auto)]

ghost use Rattle.scale_base.specs.Answer.{Answers};
ghost use Rattle.loop_file.specs.Loops.{read_loops};

mod address;
mod extent;
mod notes;
mod ranges;
mod reads;

use elf_image::ImageView;
pub use extent::in_extent;
pub use notes::{LoopNote, LoopNotes, RangeList};
use reads::notes_of;
use scale_base::{Refusal, Stop};
use std::alloc::Global;

/// Reads the loop file of an image, a TOML document: `version`, which is 1 or 2, and for each loop a table `[[loop]]` with the
/// address of its `header`, 1 to 16 `ranges` of two addresses, the `bound` of its back edges for an entry, at most 1,000,000,000,
/// maybe `counted`, a boolean, and in version 2 maybe `at_least`, the least number of back edges of an entry that leaves the loop,
/// at most the bound. An address is an integer below 2^32, or names a symbol of the image, with an offset or without: `"main"`, `"main+16"`,
/// `"main+0x1f"`. The first thing that is wrong is refused, in the order of `specs/Loops.antt`.
#[tactic(auto, unfolding(crate::specs::Loops::read_loops))]
pub fn read_loops(alloc: Global, bytes: &[u8], view: &ImageView<'_>) -> Result<LoopNotes, Stop>
    ensures { Answers (λ notes. notes) result (read_loops view.now bytes.now) }
{
    match table_keys::document(alloc, bytes)? {
        Some(table) => notes_of(alloc, view, &table),
        None => Err(Stop::Refused(Refusal::LoopText)),
    }
}
