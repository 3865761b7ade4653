//! The symbols of an image in an order that finds them fast.
//! Tests: crates/file_tests/src/elf_files.rt.
#![tactic(auto)]

mod sorted_symbols;
mod stems;

pub use sorted_symbols::SortedSymbols;
