//! The names of keys in refusals.

ghost use Rattle.std.specs.Prelude.{◌≡◌, ◌++◌, IfOk};
ghost use Rattle.scale_base.specs.Answer.{Refuses};
ghost use Rattle.machine_file.specs.Machine.{bad_key, bad_value};
ghost use Rattle.machine_file.specs.Place.{path};

use scale_base::{Name, Refusal, Stop};
use std::alloc::{AllocError, Global};

/// Where a key stands.
#[derive(Clone, Copy)]
pub enum Place {
    File,
    Cost,
    Level(u8),
}

impl Place {
    // The name of a key, from the top of the file.
    fn name(&self, alloc: Global, key: &str) -> Result<Name, AllocError>
        ensures { IfOk result (λ name. name ≡ path self.now ++ key.now) }
    {
        let text = match self {
            Place::File => String::from_str(alloc, key)?,
            Place::Cost => format!(in alloc; "cost.{key}")?,
            Place::Level(i) => format!(in alloc; "level.{i}.{key}")?,
        };
        Ok(Name::new(text))
    }

    /// The refusal of a key that is missing or unknown.
    pub fn bad_key(&self, alloc: Global, key: &str) -> Stop
        ensures { Refuses result (bad_key (path self.now) key.now) }
    {
        match self.name(alloc, key) {
            Ok(name) => Stop::Refused(Refusal::MachineKey(name)),
            Err(_) => Stop::Memory,
        }
    }

    /// The refusal of a value of another type or range.
    pub fn bad_value(&self, alloc: Global, key: &str) -> Stop
        ensures { Refuses result (bad_value (path self.now) key.now) }
    {
        match self.name(alloc, key) {
            Ok(name) => Stop::Refused(Refusal::MachineValue(name)),
            Err(_) => Stop::Memory,
        }
    }
}
