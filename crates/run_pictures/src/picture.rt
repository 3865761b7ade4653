//! What is drawn.

use power_model::{Power, RunReport};
use run_stretches::BarEnd;

/// The files of a run, and their names.
#[derive(Clone, Copy)]
pub struct DrawnFiles<'a> {
    pub image_name: &'a str,
    pub input_name: &'a str,
    pub image: &'a [u8],
    pub input: &'a [u8],
}

/// A run: the names of its files, its report, and its bars, at most 512.
#[derive(Drop)]
pub struct PictureRun {
    pub image_name: String,
    pub input_name: String,
    pub report: RunReport,
    pub bars: Vec<BarEnd>,
}

/// The machine, and runs on it.
#[derive(Drop)]
pub struct RunPicture {
    pub power: Power,
    pub runs: Vec<PictureRun>,
}
