//! Laws of turns: a loop each turn of which moves a register or a word of the stack on by a number of an interval, takes something away from
//! it, or halves it, turns no more often than that allows. Laws of the machine's runs, over the definitions alone. RISC-V Unprivileged ISA,
//! RV32I and the extension M.
#![tactic(auto)]

ghost use Rattle.turn_laws.specs.Laws.{TurnCertificatesBoundTurns, TidyBoundsAreKept, TidyRunsAreKept, ShownBoundsAreKept, ShownBoundsAreKeptByReturns, RunsAreKept};

/// A loop turns at most as often as a certificate of its turns allows, as long as the run is tidy and its returns go back to their calls.
pub fn turn_certificates_bound_turns()
    ensures { TurnCertificatesBoundTurns }
{}

/// A tidy run breaks no bound that tables of its code show, before it breaks a return address or another bound. Where all bounds are shown, and
/// the code says of returns that they go back, it is kept as long as it is tidy.
pub fn tidy_runs_are_kept()
    ensures bounds { TidyBoundsAreKept }
    ensures kept { TidyRunsAreKept }
{}

/// As long as it is tidy, a run of an image breaks no bound that tables of its code show, in one way or in the other, before it breaks a return
/// address or another bound. Where all bounds are shown, and the code says of returns that they go back, every run of an image keeps them as
/// long as it is tidy, on each input.
pub fn shown_bounds_are_kept()
    ensures shown { ShownBoundsAreKept }
    ensures all { ShownBoundsAreKeptByReturns }
    ensures kept { RunsAreKept }
{}
