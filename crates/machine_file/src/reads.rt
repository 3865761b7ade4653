//! Reads the tables of a machine file.

ghost use Rattle.std.specs.Prelude.{◌≡◌, ◌≤◌, ◌<◌, ◌^◌, length, map, IfOk};
ghost use Rattle.toml.specs.View.{table_view};
ghost use Rattle.scale_base.specs.Answer.{Answers};
ghost use Rattle.power_model.specs.Numbers.{CostsArePositive, IsPowerModel};
ghost use Rattle.table_keys.specs.Keys.{checked_keys};
ghost use Rattle.machine_file.specs.Machine.{bad_key, number, version_of, cost_at_key, costs_in, cost_table, level_tables, top_numbers, machine_of};
ghost use Rattle.machine_file.specs.Place.{path};
ghost use Rattle.machine_file.specs.Top.{file_numbers};

use crate::levels::{first_unranked, read_levels};
use crate::pairs::{SwitchCost, pair_table, switch_cost};
use crate::place::Place;
use power_model::{Costs, Power};
use scale_base::{Refusal, Stop};
use std::alloc::Global;
use table_keys::{find, first_missing, least_unknown, number_at, tables};
use toml::{Table, Value};

const TOP_KEYS: [&str; 8] = [
    "version",
    "deadline",
    "steps",
    "min_gain",
    "switch_time",
    "switch_energy",
    "cost",
    "level",
];

const COST_KEYS: [&str; 10] = [
    "alu", "load", "store", "taken", "untaken", "jump", "mul", "div", "ecall", "fence",
];

/// The keys of a table are these, each of them.
pub fn check_keys(alloc: Global, place: Place, table: &Table, keys: &[&str]) -> Result<(), Stop>
    ensures { Answers (λ x. x) result
        (checked_keys (bad_key (path place)) (map (λ k. k.now) keys.now) (map (λ k. k.now) keys.now) (table_view table.now)) }
{
    if let Some(key) = first_missing(table, keys) {
        return Err(place.bad_key(alloc, key));
    }
    if let Some(key) = least_unknown(table, keys) {
        return Err(place.bad_key(alloc, key));
    }
    Ok(())
}

/// The least and the greatest number that may stand at a key.
#[derive(Clone, Copy)]
pub struct Limits {
    pub low: u64,
    pub high: u64,
}

/// The number at a key, within these limits.
pub fn number(
    alloc: Global,
    place: Place,
    table: &Table,
    key: &str,
    limits: Limits,
) -> Result<u64, Stop>
    ensures number { Answers (λ n. n) result (number (path place) (table_view table.now) limits.low limits.high key.now) }
    ensures within { IfOk result (λ n. (limits.low ≤ n) × (n ≤ limits.high)) }
{
    match number_at(table, key, limits.low, limits.high) {
        Some(n) => Ok(n),
        None => Err(place.bad_value(alloc, key)),
    }
}

/// The number at a key, up to 2^32 - 1.
pub fn small_number(
    alloc: Global,
    place: Place,
    table: &Table,
    key: &str,
    low: u32,
) -> Result<u32, Stop>
    ensures number { Answers (λ n. n) result (number (path place) (table_view table.now) low 0xFFFF_FFFF key.now) }
    ensures within { IfOk result (λ n. low ≤ n) }
{
    let limits = Limits {
        low: u64::from(low),
        high: 0xFFFF_FFFF,
    };
    Ok(number(alloc, place, table, key, limits)? as u32)
}

fn version(alloc: Global, table: &Table) -> Result<u64, Stop>
    ensures { Answers (λ n. n) result (version_of (table_view table.now)) }
{
    if find(table, "version").is_none() {
        return Err(Place::File.bad_key(alloc, "version"));
    }
    number(
        alloc,
        Place::File,
        table,
        "version",
        Limits { low: 1, high: 2 },
    )
}

fn cost(alloc: Global, table: &Table, key: &str) -> Result<u16, Stop>
    ensures cost { Answers (λ n. n) result (cost_at_key (table_view table.now) key.now) }
    ensures positive { IfOk result (λ n. 1 ≤ n) }
{
    let limits = Limits {
        low: 1,
        high: 65535,
    };
    Ok(number(alloc, Place::Cost, table, key, limits)? as u16)
}

#[tactic(auto, unfolding(crate::specs::Machine::costs_in))]
fn read_costs(alloc: Global, table: &Table) -> Result<Costs, Stop>
    ensures costs { Answers (λ costs. costs) result (costs_in (table_view table.now)) }
    ensures positive { IfOk result CostsArePositive }
{
    check_keys(alloc, Place::Cost, table, &COST_KEYS)?;
    Ok(Costs {
        alu: cost(alloc, table, "alu")?,
        load: cost(alloc, table, "load")?,
        store: cost(alloc, table, "store")?,
        taken: cost(alloc, table, "taken")?,
        untaken: cost(alloc, table, "untaken")?,
        jump: cost(alloc, table, "jump")?,
        mul: cost(alloc, table, "mul")?,
        div: cost(alloc, table, "div")?,
        ecall: cost(alloc, table, "ecall")?,
        fence: cost(alloc, table, "fence")?,
    })
}

fn cost_table<'t>(alloc: Global, table: &'t Table) -> Result<&'t Table, Stop>
    ensures { Answers (λ t. table_view t.now) result (cost_table (table_view table.now)) }
{
    match find(table, "cost").and_then(Value::as_table) {
        Some(costs) => Ok(costs),
        None => Err(Place::File.bad_value(alloc, "cost")),
    }
}

fn level_tables<'t>(alloc: Global, table: &'t Table) -> Result<Vec<&'t Table>, Stop>
    ensures tables { Answers (λ v. map (λ t. table_view t.now) v.items) result (level_tables (table_view table.now)) }
    ensures few { IfOk result (λ v. (1 ≤ length v.items) × (length v.items ≤ 8)) }
{
    if let Some(value) = find(table, "level") {
        if let Some(found) = tables(alloc, value)? {
            if 1 <= found.len() && found.len() <= 8 {
                return Ok(found);
            }
        }
    }
    Err(Place::File.bad_value(alloc, "level"))
}

// The numbers at the top of the file.
#[derive(Drop)]
struct TopNumbers {
    deadline: u64,
    steps: u64,
    min_gain: u32,
    switch_time: SwitchCost,
    switch_energy: SwitchCost,
}

#[tactic(auto, unfolding(crate::specs::Machine::top_numbers))]
fn top_numbers(alloc: Global, version: u64, table: &Table) -> Result<TopNumbers, Stop>
    ensures numbers { Answers file_numbers result (top_numbers version (table_view table.now)) }
    ensures deadline { IfOk result (λ n. (1 ≤ n.deadline) × (n.deadline < 2 ^ 63)) }
    ensures steps { IfOk result (λ n. (1 ≤ n.steps) × (n.steps ≤ 2 ^ 40)) }
{
    Ok(TopNumbers {
        deadline: number(
            alloc,
            Place::File,
            table,
            "deadline",
            Limits {
                low: 1,
                high: 0x7FFF_FFFF_FFFF_FFFF,
            },
        )?,
        steps: number(
            alloc,
            Place::File,
            table,
            "steps",
            Limits {
                low: 1,
                high: 1 << 40,
            },
        )?,
        min_gain: small_number(alloc, Place::File, table, "min_gain", 0)?,
        switch_time: switch_cost(alloc, version, table, "switch_time")?,
        switch_energy: switch_cost(alloc, version, table, "switch_energy")?,
    })
}

/// The machine of a table.
#[tactic(auto, unfolding(crate::specs::Machine::machine_of))]
pub fn machine(alloc: Global, table: &Table) -> Result<Power, Stop>
    ensures answers { Answers (λ power. power) result (machine_of (table_view table.now)) }
    ensures in_range { IfOk result IsPowerModel }
{
    let version = version(alloc, table)?;
    check_keys(alloc, Place::File, table, &TOP_KEYS)?;
    let top = top_numbers(alloc, version, table)?;
    let in_costs = cost_table(alloc, table)?;
    let in_levels = level_tables(alloc, table)?;
    let costs = read_costs(alloc, in_costs)?;
    let levels = read_levels(alloc, &in_levels)?;
    let count = levels.count();
    let switch_time = pair_table(alloc, "switch_time", count, &top.switch_time)?;
    let switch_energy = pair_table(alloc, "switch_energy", count, &top.switch_energy)?;
    if let Some(i) = first_unranked(&levels) {
        return Err(Stop::Refused(Refusal::LevelOrder(u32::from(i))));
    }
    Ok(Power {
        levels,
        costs,
        switch_time,
        switch_energy,
        deadline: top.deadline,
        min_gain: top.min_gain,
        steps: top.steps,
    })
}
