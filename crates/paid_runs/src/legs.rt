//! What the legs of a stored run cost, and what its switches of level save. The payment of a switch is that of intra-task voltage
//! scheduling (Shin, Kim and Lee, IEEE Design & Test of Computers, 2001).

ghost use Rattle.paid_runs.specs.LegLaws.{EnergyIsSaved, LegsArePaid, SwitchesSave};

/// The steps of a leg cost the stored weight of its edge: up to the store at the port at the level before, and from there on at the level
/// behind.
pub fn legs_are_paid()
    ensures { LegsArePaid }
{}

/// Held energy less energy is the sum of what the switches of a run save, less their fees.
pub fn switches_save_energy()
    ensures sum { EnergyIsSaved }
    ensures saves { SwitchesSave }
{}
