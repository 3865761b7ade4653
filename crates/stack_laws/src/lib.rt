//! Laws of stacks: words of the stack, and registers that functions give back as they found them, stay within tables that the code
//! confirms, and loops that count in them turn no more often than the tables show. Laws of the machine's runs, over the definitions alone.
//! RISC-V Unprivileged ISA, RV32I; RISC-V ABIs Specification, Integer Calling Convention.
#![tactic(auto)]

ghost use Rattle.stack_laws.specs.Laws.{CertainRunsAreTidy, StackValuesHold, RestoredRegistersHold, StackCertificatesBoundTurns, ShownBoundsAreKept, ShownBoundsAreKeptByReturns, RunsComeBack, RunsAreKept};

/// Where nothing is doubtful every run is tidy.
pub fn certain_runs_are_tidy()
    ensures { CertainRunsAreTidy }
{}

/// What the tables say of registers and of words of the stack is so all along a tidy run whose returns go back to their calls. So the registers
/// that a function restores are behind a call of it what they were before.
pub fn stack_values_hold()
    ensures values { StackValuesHold }
    ensures restored { RestoredRegistersHold }
{}

/// A loop whose turns each raise a register or a word of its function's stack by so much, where that is within a width at the loop's
/// header, turns at most as often as the width allows, as long as the returns of the run go back to their calls.
pub fn stack_certificates_bound_turns()
    ensures { StackCertificatesBoundTurns }
{}

/// As long as it is tidy, a run of an image breaks no bound that tables of its code show, before it breaks a return address or another bound.
pub fn shown_bounds_are_kept()
    ensures shown { ShownBoundsAreKept }
    ensures all { ShownBoundsAreKeptByReturns }
{}

/// Returns whose x1 is what it was when the function began go back behind their calls, as long as a run is tidy. Where all bounds are shown too,
/// every run of an image keeps them as long as it is tidy, on each input.
pub fn runs_are_kept()
    ensures returns { RunsComeBack }
    ensures kept { RunsAreKept }
{}
