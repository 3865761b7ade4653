//! The names of a program's addresses, as `objdump` writes them: the nearest symbol at or below, and the bytes from there on.
//! Tests: crates/graph_tests/src/drafts.rt.
#![tactic(auto)]

mod names;
mod texts;

pub use names::{NamedPlace, Names, names_of};
pub use texts::{PlaceWords, place_text};
