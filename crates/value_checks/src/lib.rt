//! Tables of values: intervals of the registers and of sums of two registers at each node, as `bound_laws` says values.
//! Tests: crates/graph_tests/src/bounds.rt.
#![tactic(auto)]

mod sizes;
mod tables;

pub use sizes::{MOST_LINES, are_arcs_kept, are_rows_kept, is_sized};
pub use tables::{Line, ValueTable};
