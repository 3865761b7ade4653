//! Tests of the crates that answer for whole files: images, machine files, loop files, jump files and inputs.
#![tactic(auto)]

#[cfg(test)]
mod checking;
#[cfg(test)]
mod drawing;
#[cfg(test)]
mod explaining;
#[cfg(test)]
mod fitting;
#[cfg(test)]
mod fixtures;
#[cfg(test)]
mod lowering;
#[cfg(test)]
mod pacing;
#[cfg(test)]
mod reasons;
#[cfg(test)]
mod rewriting;
#[cfg(test)]
mod run_pictures_rows;
#[cfg(test)]
mod scanning;
#[cfg(test)]
mod simulating;
#[cfg(test)]
mod stub_keys;
#[cfg(test)]
mod surveying;
#[cfg(test)]
mod tuning;
