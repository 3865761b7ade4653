//! What stands in the stubs of an image that some other tool may have made of an original, or why such an image is not known to be safe.
//! Tests: crates/answer_tests/src/scanning.rt.
#![tactic(auto)]

mod agreeing;
mod bytes;
mod counts;
mod fragment;
mod graph_scan;
mod key;
mod layout;
mod list_scan;
mod lists;
mod parts;
mod patches;
mod reading;
mod rows;
mod run_out;
mod site;
mod sites;
mod stub;

pub use agreeing::scans_agree;
pub use fragment::ForeignFragment;
pub use graph_scan::scan;
pub use key::{KeyCode, read_key};
pub use list_scan::Scanned;
pub use reading::read_fragment;
pub use run_out::read_run_out;
pub use sites::ForeignSites;
pub use stub::{StubFragments, read_stub};
