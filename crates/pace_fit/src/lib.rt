//! Of the image of a program that runs at one level and the images of proposals the one whose runs on given inputs take the least energy.
//! Tests: crates/answer_tests/src/fitting.rt.
#![tactic(auto)]

mod bounds;
mod choosing;
mod endings;
mod fitting;
mod preparing;
mod trials;

pub use bounds::least_energy;
pub use endings::{Ending, is_counted};
pub use fitting::{Fitted, choose};
pub use preparing::{Prepared, prepare};
