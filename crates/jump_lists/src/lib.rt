//! Reads jump files: where the jumps of a program that go through a register lead, in TOML.
//! Tests: crates/file_tests/src/jump_files.rt.
#![tactic(auto)]

ghost use Rattle.scale_base.specs.Answer.{Answers};
ghost use Rattle.jump_lists.specs.Jumps.{read_jumps};

mod notes;
mod reads;
mod targets;

pub use notes::{JumpNote, JumpNotes, TargetList};
use reads::notes_of;
use scale_base::{Refusal, Stop};
use std::alloc::Global;

/// Reads a jump file, a TOML document: `version = 1`, and for each jump, of at most 1,024, a table `[[jump]]` with the address
/// `at` that it stands at and its `targets`, 1 to 128 distinct addresses. An address is an integer below 2^32 and a multiple of 4.
/// The first thing that is wrong is refused, in the order of `specs/Jumps.antt`.
#[tactic(auto, unfolding(crate::specs::Jumps::read_jumps))]
pub fn read_jumps(alloc: Global, bytes: &[u8]) -> Result<JumpNotes, Stop>
    ensures { Answers (λ notes. notes) result (read_jumps bytes.now) }
{
    match table_keys::document(alloc, bytes)? {
        Some(table) => notes_of(alloc, &table),
        None => Err(Stop::Refused(Refusal::JumpText)),
    }
}
