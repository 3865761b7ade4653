//! Laws of kept runs: runs along which no loop turns more often than its bound and each return goes back behind its call.

ghost use Rattle.cost_theory.specs.Laws.{WorstLeftAtStart, StepLowers, StepAlong, StepCall, RunWithinWorst, CyclesWithinWorst, LeftWithinRest, LeftWithinRestOfTurns, LeftWithinRestOfReturn};

/// At the start the worst cycles are left, and each kept step lowers the cycles left by at least its weight. A step within
/// a function, and a call that comes back, lower them by a sum.
pub fn step_law()
    ensures start { WorstLeftAtStart }
    ensures step { StepLowers }
    ensures along { StepAlong }
    ensures call { StepCall }
{}

/// Under any weights the cycles of a kept run and those left after it are at most the worst cycles.
pub fn run_law()
    ensures run { RunWithinWorst }
    ensures cycles { CyclesWithinWorst }
{}

/// After a step over an edge within a function, or back from a call, the cycles left are at most the rest behind that edge.
pub fn left_within_the_rest()
    ensures along { LeftWithinRest }
    ensures turns { LeftWithinRestOfTurns }
    ensures back { LeftWithinRestOfReturn }
{}
