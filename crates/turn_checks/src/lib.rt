//! Tables of what each turn of a loop makes of a register, of a word of the stack, or of what is left of the input, which the code confirms
//! edge by edge, as `turn_laws` says certificates.
#![tactic(auto)]

mod backs;
mod compared;
mod edges;
mod ends;
mod made;
mod reading;
mod relations;
mod rows;
mod shown;
mod tables;
mod using;

pub use shown::is_turn_shown;
pub use tables::{Relation, TurnCase, TurnKind, TurnPlace, TurnTable};
