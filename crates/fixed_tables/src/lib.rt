//! Tables of addresses in bytes of a file that no store can change. That no run changes them is a law of `jump_laws`.
//! Tests: crates/graph_tests/src/table_jumps.rt.
#![tactic(auto)]

mod entries;
mod table;

pub use entries::{entries_of, fixed_word, is_table_of};
pub use table::Table;
