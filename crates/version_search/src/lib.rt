//! Proposals of versions: what runs behind a read, or from the entry of a loop on, copied with the calls in it inlined, and with a guard in front
//! of it that asks how many bytes were read, or how far the loop's counter is from where it ends; and splits of code that turns and is entered at
//! several places, by copies of it. Nothing is promised of them, but that `loop_versions` finds their pieces and sites to fit.
//! Tests: crates/version_tests/src/proposals.rt.
#![tactic(auto)]

mod building;
mod candidates;
mod code;
mod copies;
mod counting;
mod entering;
mod functions;
mod parting;
mod reading;
mod regions;
mod search;
mod splitting;
mod starting;
mod weights;

pub use candidates::Candidate;
pub use counting::Range;
pub use search::find_candidates;
pub use splitting::{Split, find_split};
