//! Proofs that runs keep to the lists of noted jumps: tables of the lowered image's registers and stack are proposed and checked, then for each jump where its
//! register gets a word of its table.
//! Tests: crates/graph_tests/src/table_jumps.rt.
#![tactic(auto)]

ghost use Rattle.jump_proofs.specs.Proved.{AllProvedRunsKeepLists, ProvedJumpsKeepLists};

mod chains;
mod proof;
mod proposing;
mod proving;
mod registers;

pub use proof::JumpProof;
pub use proving::prove_jumps;

/// A proved jump's register holds one of its targets, as long as a run keeps to the lists, where the returns of the lowered image are proved to go back. So
/// where all are proved, a run keeps to the lists.
pub fn proved_jumps_keep_lists()
    ensures each { ProvedJumpsKeepLists }
    ensures all { AllProvedRunsKeepLists }
{}
