//! Memories of a program: a byte at each address, and who may use it.
//! Tests: crates/machine_tests/src/memories.rt.
#![tactic(auto)]

mod block;
mod block_list;
mod list_memory;
mod list_rules;
mod loading;
mod memory;
mod page;
mod page_bytes;
mod page_loading;
mod page_memory;
mod page_rules;
mod page_table;
mod text_ranges;

pub use list_memory::ListMemory;
pub use loading::load_list;
pub use memory::Memory;
pub use page_loading::load_pages;
pub use page_memory::PageMemory;
