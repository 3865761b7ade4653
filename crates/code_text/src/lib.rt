//! The words of the text of an image: the address of each, and what it says of the way on. RISC-V Unprivileged ISA, RV32I.
//! Tests: crates/graph_tests/src/text_words.rt.
#![tactic(auto)]

ghost use Rattle.code_text.specs.Laws.{KindsAreOfStoredWords, InstructionsAreOfStoredWords, KnownNumbersArePut, ImageNumbersArePut};

mod instructions;
mod known;
mod targets;
mod words;

pub use instructions::{instr_at, moved};
pub use targets::targets_of;
pub use words::{TextWords, read_words};

/// The service number that is known at an address is the one that the nearest `addi x17,x0,k` before it puts into x17, at most
/// 16 words away and in the same range, with no way in between. The ranges of an image share no address.
pub fn known_numbers_are_put()
    ensures text { KnownNumbersArePut }
    ensures image { ImageNumbersArePut }
{}

/// The words of the text of an image are those that are read from its file: an address where none is read is refused.
pub fn words_are_stored()
    ensures kind { KindsAreOfStoredWords }
    ensures instruction { InstructionsAreOfStoredWords }
{}
