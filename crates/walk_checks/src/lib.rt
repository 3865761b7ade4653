//! Tables of walks through memory, which the code confirms edge by edge, as `walk_areas` says certificates.
#![tactic(auto)]

mod backs;
mod edges;
mod ends;
mod ground;
mod over;
mod rows;
mod searching;
mod shown;
mod starts;
mod tables;
mod touching;
mod traces;

pub use shown::is_walk_shown;
pub use tables::{
    MOST_GROUND, MOST_STARTS, Sought, Trace, WalkCase, WalkPlace, WalkTable, WordTrace,
};
