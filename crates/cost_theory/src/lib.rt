//! The theory of worst cycles over control-flow graphs: reached code, loops, the numbers of a program, and the step law.
//! A graph, its loops and the weights of its edges are abstract: no machine, no width and no limit is meant.
//! The definitions stand in `specs/`. The laws are the contracts of functions with empty bodies.
//!
//! Worst cycles with bounded loops are the longest path of worst-case execution time analysis (Wilhelm and others, ACM
//! Transactions on Embedded Computing Systems, 2008). The cycles left along a run are the remaining worst-case cycles of
//! intra-task voltage scheduling (Shin, Kim and Lee, IEEE Design & Test of Computers, 2001).
//! Tests: none, since nothing of it runs.
#![tactic(auto)]

mod flow;
mod kept_runs;
mod least_cycles;
mod loops;
mod numbers;
mod reached;

pub use flow::Flow;
pub use kept_runs::{left_within_the_rest, run_law, step_law};
pub use least_cycles::turns_take_the_least;
pub use loops::entered_loops_are_nested;
pub use numbers::{
    iterations_near_the_worst, numbers_are_determined, numbers_exist, parts_within_the_worst,
    slack_is_not_negative, worst_equation,
};
pub use reached::{
    edges_start_at_nodes, graphs_agree, no_loops_are_accepted, orders_exist, orders_show_no_cycle,
    reached_code_is_a_program,
};
