//! The outside of a program: named files and printed bytes, behind one trait.
//! Tests: crates/file_tests/src/hosts.rt.
#![tactic(auto)]

mod host;
mod mem_host;
mod never_fails;
mod real_host;
mod stored;
mod whole_file;

pub use host::{Host, HostError, Loaded};
pub use mem_host::MemHost;
pub use never_fails::NeverFails;
pub use real_host::RealHost;
pub use scale_base::NoMemory;
