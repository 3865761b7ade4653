//! Runs of the machine over the graph of the reached code of a text: each completed step is a transition over an edge that costs what
//! the step costs. Costs are cycles, by the class of the instruction. RISC-V Unprivileged ISA, RV32I; the worst cycles are those of
//! WCET analysis, the greatest cost of a walk that keeps the loops' bounds.
//! Tests: none, since nothing of it runs.
#![tactic(auto)]

ghost use Rattle.graph_runs.specs.Met.{RunHypothesesAreMet};
ghost use Rattle.graph_runs.specs.Laws.{RunsAreTransitions, KeptRunsAreKeptTransitions, KeptRunsAreKeptByLess, KeptRunsAreBelow, KeptRunsEnd, CyclesLeftAreBelow, ImagesStartOver, ImageRunsAreKeptTransitions, ImageRunsAreBelow, ImageRunsEnd};

/// A run over a text whose returns go back to their calls is a list of transitions over the graph of its reached code, at the cost of
/// its steps. A run that keeps the loops' bounds too is a list of kept transitions. The run of an image starts over its text, so both
/// hold of it.
pub fn runs_follow_the_graph()
    ensures moves { RunsAreTransitions }
    ensures kept { KeptRunsAreKeptTransitions }
    ensures start { ImagesStartOver }
    ensures image { ImageRunsAreKeptTransitions }
{}

/// A run that is kept where loops have to turn so often before they are left is kept where they have to turn less often.
pub fn kept_runs_are_kept_by_less()
    ensures { KeptRunsAreKeptByLess }
{}

/// A kept run costs at most the worst cycles of the program's entry, whatever the costs of the classes, the machine's levels and
/// the input.
pub fn kept_runs_are_below()
    ensures run { KeptRunsAreBelow }
    ensures image { ImageRunsAreBelow }
{}

/// After a kept run, its cycles and those that are left, at the node and with the calls and counts to which it leads, are at most
/// the worst cycles of the program's entry.
pub fn cycles_left_are_below()
    ensures { CyclesLeftAreBelow }
{}

/// Where each class costs a cycle at least, a kept run goes on for at most as many steps as the worst cycles of the program's
/// entry are.
pub fn kept_runs_end()
    ensures run { KeptRunsEnd }
    ensures image { ImageRunsEnd }
{}

/// The hypotheses of these laws are met together: by the image of a file of three instructions, the first of which branches to
/// itself.
pub fn hypotheses_are_met()
    ensures { RunHypothesesAreMet }
{}
