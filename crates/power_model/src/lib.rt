//! The levels and costs of a machine, and what the steps of a run cost on it.
//! Tests: crates/file_tests/src/prices.rt.
#![tactic(auto)]

mod meter;
mod power;
mod report;
mod survey;

ghost use Rattle.std.specs.Prelude.{◌≡◌, ℕ, List, [], ◌∷◌, ◌++◌, None, length, sum_by, All};
ghost use Rattle.scale_base.specs.declared.stepping.Stepped.{Stepped};
ghost use Rattle.power_model.specs.Numbers.{PowerModel};
ghost use Rattle.power_model.specs.PairLaws.{PairsHoldNumbers, EachChangeTakesOne};
ghost use Rattle.power_model.specs.Price.{price, metered, step_cycles, keyed_cycles, IsHeldPrice};

pub use meter::Meter;
pub use power::{Costs, Level, Levels, PairTable, Power, slowest};
pub use report::RunReport;
pub use survey::{SurveyLine, SurveyReport, Totals};

/// A run with one more step has the price of the run and one step of the meter, so a meter to which the steps of a run were added
/// holds the price of the run. A run that never stores at the port takes the time and the energy of its cycles at the starting level.
pub fn price_laws()
    ensures one_more { (power : PowerModel) (start : ℕ) (steps : List Stepped) (step : Stepped)
        → price power start (steps ++ step ∷ []) ≡ metered power (price power start steps) step }
    ensures start { (power : PowerModel) (start : ℕ) (steps : List Stepped) → (price power start steps).start ≡ start }
    ensures steps { (power : PowerModel) (start : ℕ) (steps : List Stepped) → (price power start steps).steps ≡ length steps }
    ensures cycles { (power : PowerModel) (start : ℕ) (steps : List Stepped)
        → (price power start steps).cycles ≡ sum_by (step_cycles power) steps }
    ensures keyed { (power : PowerModel) (start : ℕ) (steps : List Stepped)
        → (price power start steps).keyed ≡ sum_by (keyed_cycles power) steps }
    ensures held { (power : PowerModel) (start : ℕ) (steps : List Stepped)
        → All (λ s. s.port ≡ None) steps → IsHeldPrice power start (price power start steps) }
{}

/// A table by pair of levels holds the numbers that it is made from, each in its row and column, and where there is one number for each
/// change of level, a switch between two levels takes it.
pub fn pair_law()
    ensures pairs { PairsHoldNumbers }
    ensures one { EachChangeTakesOne }
{}
