//! Reads the levels of a machine file, and tests their order.

ghost use Rattle.std.specs.Prelude.{◌≡◌, ◌≤◌, ◌<◌, length, map, IfOk, IfNone};
ghost use Rattle.toml.specs.View.{table_view};
ghost use Rattle.scale_base.specs.Answer.{Answers};
ghost use Rattle.power_model.specs.Levels.{ArePositive, AreRanked};
ghost use Rattle.machine_file.specs.Machine.{level_of, levels_from, first_unranked};

use crate::place::Place;
use crate::reads::{check_keys, small_number};
use power_model::{Level, Levels};
use scale_base::Stop;
use std::alloc::Global;
use toml::Table;

const LEVEL_KEYS: [&str; 2] = ["period", "energy"];

#[tactic(auto, unfolding(crate::specs::Machine::level_of))]
fn read_level(alloc: Global, i: u8, table: &Table) -> Result<Level, Stop>
    ensures level { Answers (λ l. l) result (level_of i (table_view table.now)) }
    ensures positive { IfOk result (λ l. (1 ≤ l.period) × (1 ≤ l.energy)) }
{
    let place = Place::Level(i);
    check_keys(alloc, place, table, &LEVEL_KEYS)?;
    let period = small_number(alloc, place, table, "period", 1)?;
    let energy = small_number(alloc, place, table, "energy", 1)?;
    Ok(Level { period, energy })
}

/// The levels of some tables.
pub fn read_levels(alloc: Global, tables: &[&Table]) -> Result<Levels, Stop>
    requires { length tables.now ≤ 8 }
    ensures levels { Answers (λ l. l) result (levels_from 0 (map (λ t. table_view t.now) tables.now)) }
    ensures count { IfOk result (λ l. length l ≡ length tables.now) }
    ensures positive { IfOk result ArePositive }
{
    let mut levels = Levels::new();
    for table in tables {
        let level = read_level(alloc, levels.count(), table)?;
        levels.push(level);
    }
    Ok(levels)
}

/// The first level, from 1, whose period isn't below, or whose energy isn't above, that of the one before.
pub fn first_unranked(levels: &Levels) -> Option<u8>
    ensures first { result ≡ first_unranked 1 levels.now }
    ensures ranked { IfNone result (AreRanked levels.now) }
{
    for i in 1..levels.count() {
        let before = levels.get(i - 1);
        let level = levels.get(i);
        if before.period <= level.period || level.energy <= before.energy {
            return Some(i);
        }
    }
    None
}
