//! Which line of which source file an instruction is from, where an image has debug lines: those of DWARF, versions 2 to 5, with offsets of 32 bits.
//! Nothing is promised of it but that it is safe and ends, and that lines count from 1: no other wrong body is refused for its answer. Time and memory are linear in
//! the file.
//! Tests: crates/file_tests/src/debug_files.rt.
#![tactic(auto)]

mod files;
mod lines;
mod programs;
mod reader;
mod registers;
mod units;

pub use lines::{Lines, SourcePlace, lines_of};
