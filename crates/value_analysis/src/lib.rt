//! Intervals of the registers and of words of the stack at each node of a program, where their values come from, and which registers
//! functions give back: proposals, which `stack_checks` accepts or refuses. Nothing is promised of them. The fixpoint is that of an interval
//! analysis with widening and narrowing (Cousot and Cousot, Static determination of dynamic properties of programs, 1976).
//! Tests: crates/graph_tests/src/bounds.rt.
#![tactic(auto)]

mod apart;
mod arcs;
mod areas;
mod befores;
mod calls;
mod cells;
mod copies;
mod dividing;
mod doubts;
mod dwindling;
mod finding;
mod fixed;
mod forms;
mod growing;
mod holding;
mod joining;
mod keeping;
mod lines;
mod moves;
mod names;
mod narrowing;
mod orders;
mod passing;
mod program;
mod rows;
mod shifting;
mod sparing;
mod states;
mod stores;
mod tables;
mod telling;
mod thresholds;
mod ways;

pub use finding::{analyse, analyse_loops};
pub use tables::Tables;
