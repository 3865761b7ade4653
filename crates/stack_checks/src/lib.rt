//! Whether the code of a program confirms a table of its stacks: what is known of registers, of sums of two registers and of the words of the
//! stack at each node, which registers the functions give back as they found them, numbers in memory that are always in an interval, what
//! registers that are 0, or aren't, tell of others, which are divided while others count how often, and intervals of addresses that hold all
//! that may be loaded from or stored to.
//! Tests: crates/graph_tests/src/stack_bounds.rt and fixed_loads.rt.
#![tactic(auto)]

mod accesses;
mod areas;
mod calls;
mod cells;
mod confirming;
mod dwindling;
mod edges;
mod fixed;
mod lines;
mod made;
mod memory;
mod origins;
mod registers;
mod solving;
mod starting;
mod telling;
mod ways;
mod words;

pub use starting::is_stack_analysed;
