//! Drafts of jump files: which jumps of an image through registers are listed, by the tables that are found, and what is printed.
//! Tests: crates/graph_tests/src/table_jumps.rt.
#![tactic(auto)]

mod draft;
mod drafting;
mod listing;
mod texts;

pub use draft::JumpDraft;
pub use drafting::draft_jumps;
pub use fixed_tables::Table;
pub use jump_search::{OpenJump, Reason};
pub use texts::{jumps_text, printed_jumps};
