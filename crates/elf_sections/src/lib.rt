//! The sections of an ELF file, by their headers. A file may have none, or headers that say what isn't so: nothing is promised but that what is given lies
//! in the file, and that a look takes as long as the file has headers.
//! Tests: crates/file_tests/src/debug_files.rt.
#![tactic(auto)]

mod fields;
mod sections;

pub use fields::{bytes_at, half, word};
pub use sections::{
    SHT_PROGBITS, SHT_STRTAB, SHT_SYMTAB, section, section_count, section_header, section_named,
};
