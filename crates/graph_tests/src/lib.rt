//! Tests of the calls of the crates over the graph of a program, from the words of its text to its least cycles, and of its levels and stubs.
#![tactic(auto)]

#[cfg(test)]
mod bodies;
#[cfg(test)]
mod bounds;
#[cfg(test)]
mod cells;
#[cfg(test)]
mod chains;
#[cfg(test)]
mod drafts;
#[cfg(test)]
mod fixed_loads;
#[cfg(test)]
mod graphs;
#[cfg(test)]
mod least_numbers;
#[cfg(test)]
mod levels;
#[cfg(test)]
mod loops;
#[cfg(test)]
mod nesting;
#[cfg(test)]
mod orders;
#[cfg(test)]
mod programs;
#[cfg(test)]
mod stack_bounds;
#[cfg(test)]
mod stubs;
#[cfg(test)]
mod table_jumps;
#[cfg(test)]
mod tellers;
#[cfg(test)]
mod text_words;
#[cfg(test)]
mod walked;
#[cfg(test)]
mod walks;
#[cfg(test)]
mod worst_numbers;
