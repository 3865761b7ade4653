//! Intervals of words that may wrap round, and what the machine's instructions and branches make of them: the operations of
//! `bound_laws`, as code.
//! Tests: crates/graph_tests/src/bounds.rt.
#![tactic(auto)]

mod arcs;
mod bits;
mod branches;
mod covering;
mod lines;
mod quotients;
mod results;
mod sums;
mod views;

pub use arcs::{Arc, exactly, holds, is_kept, top_of, word};
pub use bits::common_of;
pub use branches::{Said, is_impossible, keeps, kept_by, passed, said_by};
pub use covering::{ahead, covers, meet_of};
pub use lines::{Measure, compared, effect, is_difference, line_by, line_of, solved};
pub use results::{held, written};
pub use sums::{difference_of, negated, opposite_of, scaled, sum_of, sum_with, times};
pub use views::{
    Interval, first_by, first_range, is_empty, second_by, second_range, view, without,
};
