//! Parts of the answers over files: whether an image has a key yet, and what so many cycles take.
//! Tests: crates/answer_tests/src/rewriting.rt.
#![tactic(auto)]

ghost use Rattle.std.specs.Prelude.{◌≡◌, ◌<◌, length};
ghost use Rattle.power_model.specs.Price.{time_at};
ghost use Rattle.answer_parts.specs.Parts.{unscaled};

use power_model::Power;
use scale_base::{Keyed, Refusal};

/// No keyed segment is there yet: `AlreadyScaled` exactly where there is one.
pub fn check_unscaled(keyed: Option<Keyed>) -> Result<(), Refusal>
    ensures { result ≡ unscaled keyed }
{
    match keyed {
        Some(_) => Err(Refusal::AlreadyScaled),
        None => Ok(()),
    }
}

/// So many cycles in time units at a level.
pub fn time_at(power: &Power, worst: u64, i: u8) -> u128
    requires { i < length power.now.levels }
    ensures { result ≡ time_at power.now i worst }
{
    u128::from(worst) * u128::from(power.levels.get(i).period)
}
