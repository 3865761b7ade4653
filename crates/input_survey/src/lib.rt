//! Surveys of the runs of an image, and of an image that was scaled, over a list of inputs.
//! Tests: crates/answer_tests/src/surveying.rt.
#![tactic(auto)]

mod agreeing;
mod lines;
mod surveying;
mod totals;

pub use agreeing::{surveys_agree, surveys_say_of_runs};
pub use power_model::{SurveyLine, SurveyReport, Totals};
pub use surveying::{SurveyFiles, survey, survey_with_progress};
