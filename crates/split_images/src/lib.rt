//! Images in which the code that turns and is entered at several places is made enterable at one, by copies of it: its loops can then be found.
//! Tests: crates/pace_tool/cases/split.txt and crates/version_tests/src/splits.rt.
#![tactic(auto)]

mod split;
mod splitting;

pub use split::SplitImage;
pub use splitting::split_image;
