//! Laws of walks: a loop each turn of which loads or stores where a pointer points, and moves the pointer on by less than any two areas of
//! memory are apart, stays in one area, and turns no more often than the longest area has steps. Laws of the machine's runs, over the
//! definitions alone. RISC-V Unprivileged ISA, RV32I.
#![tactic(auto)]

ghost use Rattle.walk_areas.specs.Laws.{WalkCertificatesBoundTurns};

/// A loop turns at most as often as a certificate of its walk allows, as long as the run is tidy and its returns go back to their calls.
pub fn walk_certificates_bound_turns()
    ensures { WalkCertificatesBoundTurns }
{}
