//! Whether the code of a versioned image shows that its loops copy loops of the original, and that its copies keep to the inlined calls
//! that are open: edge by edge, as `copy_bounds` says it.
//! Tests: crates/version_tests/src/copies.rt.
#![tactic(auto)]

mod copies;
mod covering;
mod edges;
mod kept;
mod meanings;
mod search;
mod tables;

pub use copies::is_copy_shown;
pub use covering::{CopyReason, are_covered};
pub use kept::are_calls_kept;
pub use meanings::{CopiedCode, meanings_of};
pub use search::{CopyBody, copy_table};
pub use tables::{CopyCode, CopyTable, Meant};
