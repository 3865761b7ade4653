//! Runs as a picture: their levels over time, under one another on one axis of time, with the deadline.
//! Tests: crates/answer_tests/src/run_pictures_rows.rt.
#![tactic(auto)]

ghost use Rattle.run_pictures.specs.Pictures.{RunsAreSimulated, RefusalsAreSimulated};
ghost use Rattle.run_pictures.specs.Places.{WidthsAreTimes};

mod axes;
mod bars;
mod drawing;
mod frames;
mod lines;
mod names;
mod picture;
mod rows;

pub use drawing::draw_runs;
pub use frames::picture_svg;
pub use lines::picture_text;
pub use picture::{DrawnFiles, PictureRun, RunPicture};
pub use run_stretches::BarEnd;

/// A run that is drawn reports what simulating its files gives, and is refused as that is; and a bar is as wide as its time.
pub fn pictures_are_of_runs()
    ensures reports { RunsAreSimulated }
    ensures refusals { RefusalsAreSimulated }
    ensures widths { WidthsAreTimes }
{}
