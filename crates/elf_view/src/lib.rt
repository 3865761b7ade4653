//! Reads the images of ELF files.
//! Tests: crates/file_tests/src/elf_files.rt.
#![tactic(auto)]

mod header;
mod ranges;
mod reading;
mod refused;
mod segments;
mod symbols;
mod tables;
mod text;

pub use elf_image::{ImageView, Segment};
pub use reading::read_image;
pub use refused::refusal_number;
pub use scale_base::Keyed;
pub use tables::{program_header_count, read_program_header};
