//! Laws of the numbers of a program: its worst cycles, and the parts that they are made of.

ghost use Rattle.cost_theory.specs.Laws.{NumbersExist, NumbersAgree, WorstEquation, SlackIsNotNegative, FunctionWithinWorst, NodeWithinWorst, TurnsWithinWorst, RestWithinWorst, IterationNearWorst, ClosingNearWorst};

/// An accepted program has its numbers, under any weights.
pub fn numbers_exist()
    ensures { NumbersExist }
{}

/// An accepted program has no other numbers.
pub fn numbers_are_determined()
    ensures { NumbersAgree }
{}

/// The worst cycles of a function are a sum: what is left at its entry, and all turns of the loop whose header that is.
pub fn worst_equation()
    ensures { WorstEquation }
{}

/// The slack of an edge is never negative.
pub fn slack_is_not_negative()
    ensures { SlackIsNotNegative }
{}

/// Each part is at most the program's worst cycles: a function's worst cycles with its context, what is left at a node
/// with all turns round it, all turns of a loop, and the rest behind an edge.
pub fn parts_within_the_worst()
    ensures function { FunctionWithinWorst }
    ensures node { NodeWithinWorst }
    ensures turns { TurnsWithinWorst }
    ensures rest { RestWithinWorst }
{}

/// One iteration of a loop may cost more than the program's worst cycles, but by no more than the weight of one edge that is
/// no call. It may where the loop's bound is 0.
pub fn iterations_near_the_worst()
    ensures whole { IterationNearWorst }
    ensures rest { ClosingNearWorst }
{}
