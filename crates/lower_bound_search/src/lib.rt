//! Tables of what the turns of loops add to what they count in, and how often the loops turn at least by them: proposals, which
//! `lower_bounds` accepts or refuses. Nothing is promised of them.
#![tactic(auto)]

mod adding;
mod candidates;
mod ends;
mod finding;
mod limits;
mod noted;
mod turns;

pub use finding::{CountedLoop, LowerFound, find_lower};
