//! What a program's runs on inputs, on ones that are derived from these, and random walks of its graph do at its edges and in its loops, what is known of these
//! beforehand, and whether an image takes more on derived inputs than the program at one level.
//! Nothing is promised of it but that it is safe to run.
//! Tests: none of its own. The crate above proposes switches by it, and others build and run what is proposed.
#![tactic(auto)]

mod comparing;
mod costs;
mod counting;
mod derived;
mod inputs;
mod numbers;
mod runs;
mod sharing;
mod sums;
mod tracing;
mod turning;
mod walking;

pub use comparing::{ComparedImage, DerivedRun, ProgramInputs, derived_runs, is_much};
pub use costs::StubCosts;
pub use inputs::Runs;
pub use numbers::{Numbers, TracedEdge, numbers_of};
pub use runs::{Candidate, CandidateRun, RunKind, RunMarks, Span, Watched};
pub use sums::{EdgeSum, Sums};
pub use tracing::{EdgeTrace, may_switch};
pub use turning::{LoopPlan, MOST_LOOPS, NumberedProgram, loop_plan};
pub use walking::WalkPlan;
