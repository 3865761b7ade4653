//! Tests of the crates over the machine: words and instructions, memories, steps, and what is kept along a run.
#![tactic(auto)]

#[cfg(test)]
mod fixtures;
#[cfg(test)]
mod instructions;
#[cfg(test)]
mod machine_steps;
#[cfg(test)]
mod memories;
#[cfg(test)]
mod watched_runs;
