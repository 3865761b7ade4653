//! Algorithms over numbers, for graphs and their loops: the places of a list by their keys, an order of numbers along arcs, the
//! bodies of natural loops, and how loops are nested.
//! Tests: bodies.rt, chains.rt, nesting.rt and orders.rt in crates/graph_tests/src/.
#![tactic(auto)]

mod bodies;
mod chains;
mod nesting;
mod orders;

pub use bodies::{BodySearch, GroupBodies, LoopExtent, NodeRange, has_bit, lesser_pair};
pub use chains::{Chains, find_chains};
pub use nesting::{Nesting, nest_loops};
pub use orders::{Arc, Order, are_numbered, least_first, sort};
