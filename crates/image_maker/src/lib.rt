//! Assembles lines, makes plain images of words, and makes images to try the scaler on.
//! Tests: crates/file_tests/src/made_files.rt.
#![tactic(auto)]

mod agreement;
mod assembler;
mod draws;
mod labels;
mod line;
mod maker;
mod plain;
mod program;
mod texts;
mod words;

pub use agreement::images_of_lines_agree;
pub use assembler::assemble;
pub use line::{AsmError, Line};
pub use maker::{Made, make};
pub use plain::plain_image;
