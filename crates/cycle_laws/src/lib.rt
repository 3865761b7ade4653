//! Laws of the worst and of the least cycles of a program: numbers of its nodes, each from the edges of one node and the numbers behind them,
//! as one pass over the nodes, backwards along plain edges, finds them; the least ones where loops turn at least so often before they are left.
//! Tests: none, since nothing of it runs.
#![tactic(auto)]

ghost use Rattle.cycle_laws.specs.Passes.{ChargedOn, ChargedBack, ChargedInto, HeadersAreDifferent, BackIsOfHeader, PlainOver, ClosingOver, IterationIsClosing, WorstIsPlain, PlainWithinWorst};
ghost use Rattle.cycle_laws.specs.Met.{LeastHypothesesAreMet};
ghost use Rattle.cycle_laws.specs.LeastLaws.{ChargedExist, ChargedAgree, ReachedCodeHasPlainReturns, LeastChargedOn, LeastChargedBack, LeastChargedInto, ReturnOver, ExitOver, LeastClosingOver, StableIsLeast, TurnWithinIteration, ChargeWithinTurns, ChargeWithinWorst, ReturnWithinWorst, LeastWithinEdges, EndWithin, ExitTakesCharged, ExitTakesLeastBehind, ExitTakesLeastBehindReturn, RunTakesLeastBehind};

/// What an edge is charged: its cost, and all turns of the loop that it enters from outside. Such an edge leads to the
/// loop's header.
pub fn edges_are_charged()
    ensures on { ChargedOn }
    ensures back { ChargedBack }
    ensures into { ChargedInto }
{}

/// A node is the header of at most one loop, and the back edges of that loop lead to it.
pub fn headers_are_told_apart()
    ensures different { HeadersAreDifferent }
    ensures of_header { BackIsOfHeader }
{}

/// The greatest cost of a plain path from a node, from its plain edges and the numbers behind them.
pub fn plain_over_edges()
    ensures { PlainOver }
{}

/// The greatest rest of an iteration from a node of the loop's body, from the node's edges and the numbers behind them.
pub fn rest_over_edges()
    ensures { ClosingOver }
{}

/// One iteration of a loop is the rest of one from its header. It is there on an accepted program.
pub fn iteration_from_header()
    ensures { IterationIsClosing }
{}

/// The worst cycles of a function are a plain path from its entry, with all turns of the loop whose header the entry is.
/// No plain path costs more than the program's worst cycles.
pub fn worst_from_plain()
    ensures of_function { WorstIsPlain }
    ensures within { PlainWithinWorst }
{}

/// An accepted program has one record of least cycles with charged loops, under any weights.
pub fn the_charged_are_determined()
    ensures exist { ChargedExist }
    ensures agree { ChargedAgree }
{}

/// What these laws ask of calls and returns is so of the graph over reached code.
pub fn reached_code_has_plain_returns()
    ensures { ReachedCodeHasPlainReturns }
{}

/// What an edge is charged: the turns that the loop which it enters from outside has to take before it is left, each at the least
/// cost of one.
pub fn edges_are_charged_least()
    ensures on { LeastChargedOn }
    ensures back { LeastChargedBack }
    ensures into { LeastChargedInto }
{}

/// The least cycles to a return, to an exit and to the end of a turn, from the edges of one node and the numbers behind them.
pub fn least_over_edges()
    ensures to_return { ReturnOver }
    ensures to_exit { ExitOver }
    ensures closing { LeastClosingOver }
{}

/// Numbers that runs have and that no edge improves are the least: what a pass over the edges, or a list of those that may still
/// improve, shows at its end.
pub fn stable_is_least()
    ensures { StableIsLeast }
{}

/// Where no loop has to turn more often than it may, the least numbers are within the worst ones: a turn within an iteration, a
/// charge within all turns, and the least cycles of a function to a return within its worst cycles.
pub fn least_within_worst()
    ensures turn { TurnWithinIteration }
    ensures charge { ChargeWithinTurns }
    ensures within { ChargeWithinWorst }
    ensures to_return { ReturnWithinWorst }
{}

/// A least number is at most the greatest cost of an edge, once for each edge; and to an end twice for each function, whatever
/// the calls.
pub fn least_within_edges()
    ensures run { LeastWithinEdges }
    ensures end { EndWithin }
{}

/// A kept run that exits takes at least the least cycles from where it stands to an end, and the turns that it owes there; after
/// a step those behind its edge.
pub fn exits_take_the_charged()
    ensures node { ExitTakesCharged }
    ensures step { ExitTakesLeastBehind }
    ensures return_step { ExitTakesLeastBehindReturn }
    ensures run { RunTakesLeastBehind }
{}

/// The hypotheses of these laws are met together: by a branch to itself that turns twice, and then leads to an exit.
pub fn hypotheses_are_met()
    ensures { LeastHypothesesAreMet }
{}
