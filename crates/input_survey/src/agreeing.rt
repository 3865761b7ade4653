//! Laws of surveys: two of the same files agree, and what one says of the runs.

ghost use Rattle.input_survey.specs.Agreeing.{SurveysAgree};
ghost use Rattle.input_survey.specs.Said.{SurveysSayOfRuns};

/// Two answers that `survey` may give for the same files and inputs are the same.
pub fn surveys_agree()
    ensures { SurveysAgree }
{}

/// What a survey says of the runs on its inputs: with each bound replaced by the most that was reached they break no bound, with a positive
/// most less by one some run breaks that bound, and where the scaled image is what `rewrite` stores each line keeps its promise.
pub fn surveys_say_of_runs()
    ensures { SurveysSayOfRuns }
{}
