//! Where a program's switches of level might stand, so that its runs take less energy. What is proposed is for others to try: nothing is promised of it.
//! Tests: none of its own. The crate that builds and runs what is proposed tries it.
#![tactic(auto)]

mod building;
mod candidates;
mod counted;
mod growing;
mod marks;
mod paying;
mod pricing;
mod proposing;
mod sets;

pub use building::Files;
pub use proposing::propose;
