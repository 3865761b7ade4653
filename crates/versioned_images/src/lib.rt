//! Images in which code is there twice: the file that is made of an image with pieces and sites that fit it, and such files of a program's
//! loops and of what runs behind a read.
//! Tests: crates/version_tests/src/runs.rt, calls.rt and versions.rt.
#![tactic(auto)]

mod finding;
mod making;
mod proposing;
mod versions;

pub use finding::find_versions;
pub use making::versioned;
pub use versions::{Made, Version};
