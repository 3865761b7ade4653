//! Laws of loop bounds: a loop whose turns each move a register on, between limits, turns no more often than the limits allow. Laws
//! of the machine's runs, over the definitions alone. RISC-V Unprivileged ISA, RV32I.
#![tactic(auto)]

ghost use Rattle.bound_laws.specs.Laws.{StepsLeaveRegisters, StepsAddEffects, CertificatesBoundTurns, BoundsAreKeptByReturns, FoundBoundsAreKept, ReturnsAreKept};

/// A step changes no register but the one that its instruction writes, and adds to a measure of that one what the instruction adds.
pub fn steps_change_registers()
    ensures leaves { StepsLeaveRegisters }
    ensures adds { StepsAddEffects }
{}

/// A loop whose turns each raise a measure of a register by so much, where that measure is within a width at the loop's header, turns at
/// most as often as the width allows, as long as the returns of the run go back to their calls.
pub fn certificates_bound_turns()
    ensures { CertificatesBoundTurns }
{}

/// So a run whose returns go back to their calls breaks no bound of a loop that is as great as that.
pub fn found_bounds_are_kept()
    ensures returns { ReturnsAreKept }
    ensures all { BoundsAreKeptByReturns }
    ensures found { FoundBoundsAreKept }
{}
