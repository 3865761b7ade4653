//! Whether the code of a program shows that registers have words of tables of targets.
//! Tests: crates/graph_tests/src/table_jumps.rt.
#![tactic(auto)]

mod claims;
mod edges;
mod fixed;
mod origins;
mod reading;
mod rules;

pub use claims::ReadClaim;
pub use edges::is_read_so;
pub use fixed::are_words_fixed;
pub use reading::read;
