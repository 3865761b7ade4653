//! Reads machine files: the costs, the levels and the deadline of a machine, in TOML.
//! Tests: crates/file_tests/src/machine_files.rt.
#![tactic(auto)]

ghost use Rattle.std.specs.Prelude.{◌≡◌, ℕ, List, Ok, IfOk};
ghost use Rattle.scale_base.specs.Answer.{Answers};
ghost use Rattle.power_model.specs.Numbers.{PowerModel, IsPowerModel};
ghost use Rattle.machine_file.specs.Machine.{read_machine};

mod levels;
mod pairs;
mod place;
mod reads;

pub use power_model::{Costs, Level, Levels, PairTable, Power};
use reads::machine;
use scale_base::{Refusal, Stop};
use std::alloc::Global;

/// Reads a machine file. The first thing that is wrong with it is refused: the text, the version, a missing key, an
/// unknown key, a value, the costs, a level, the shape of a table of switches, the order of the levels.
#[tactic(auto, unfolding(crate::specs::Machine::read_machine))]
pub fn read_machine(alloc: Global, bytes: &[u8]) -> Result<Power, Stop>
    ensures answers { Answers (λ power. power) result (read_machine bytes.now) }
    ensures in_range { IfOk result IsPowerModel }
{
    match table_keys::document(alloc, bytes)? {
        Some(table) => machine(alloc, &table),
        None => Err(Stop::Refused(Refusal::MachineText)),
    }
}

/// A machine that is read from bytes has 1 to 8 levels in order, each with a time and an energy of at least 1, costs of at least 1,
/// a deadline from 1 to 2^63 - 1 and 1 to 2^40 steps. The type `Power` keeps these ranges in code; this says the same of the definition.
pub fn machines_keep_their_ranges()
    ensures { (bytes : List ℕ) (power : PowerModel) → read_machine bytes ≡ Ok power → IsPowerModel power }
{}
