//! The image of an ELF file, borrowed from its bytes, with what is asked of it once it is read.
//! Tests: crates/file_tests/src/elf_files.rt.
#![tactic(auto)]

mod fields;
mod ranges;
mod symbols;
mod view;

pub use fields::{half, word};
pub use symbols::SymbolTable;
pub use view::{ImageView, Segment};
