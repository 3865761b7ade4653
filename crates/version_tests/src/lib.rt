//! Tests of the calls of the crates that propose and make versions of loops.
#![tactic(auto)]

#[cfg(test)]
mod calling;
#[cfg(test)]
mod calls;
#[cfg(test)]
mod copies;
#[cfg(test)]
mod files;
#[cfg(test)]
mod programs;
#[cfg(test)]
mod proposals;
#[cfg(test)]
mod runs;
#[cfg(test)]
mod splits;
#[cfg(test)]
mod versions;
