//! Counts of loops' back edges that are kept on the edges alone, as shadow counters keep them: along a kept run they are the run's own
//! counts for the loops that the run is in.

ghost use Rattle.paid_runs.specs.CountLaws.{CountsAreShown, CountsAreWithin};

/// Along a kept run the counts on the edges are the run's own for each loop round its node or round the site of a suspended call, and 0
/// for every other loop.
pub fn counts_on_edges()
    ensures shown { CountsAreShown }
    ensures within { CountsAreWithin }
{}
