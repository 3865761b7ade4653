//! Reads the table of a jump file, and those of its jumps.

ghost use Rattle.std.specs.Prelude.{◌≡◌, ◌≤◌, length, map, IfOk};
ghost use Rattle.toml.specs.View.{table_view};
ghost use Rattle.scale_base.specs.Answer.{Answers, Refuses};
ghost use Rattle.scale_base.specs.declared.refusal.Refusal.TheVariants.{JumpKey, JumpValue};
ghost use Rattle.table_keys.specs.Keys.{checked_keys};
ghost use Rattle.jump_lists.specs.Notes.{IsAligned, AreTargets, IsJumpNote};
ghost use Rattle.jump_lists.specs.Jumps.{checked_version, jump_tables, jump_keys, at_of, targets_at, jump_note_of, jump_notes_from, jump_notes_of};

use crate::notes::{JumpNote, JumpNotes, TargetList};
use crate::targets::{address, targets_of};
use scale_base::{Name, Refusal, Stop};
use std::alloc::Global;
use table_keys::{find, first_missing, least_unknown, number_at, tables};
use toml::Table;

// The number that stands for the file itself where a refusal names a jump.
const FILE: u32 = 0;

const FILE_KEYS: [&str; 2] = ["version", "jump"];

const JUMP_KEYS: [&str; 2] = ["at", "targets"];

const MOST_JUMPS: usize = 1024;

// The refusal of a key of a jump that is missing or unknown.
fn bad_key(alloc: Global, number: u32, key: &str) -> Stop
    ensures { Refuses result (JumpKey number key.now) }
{
    match String::from_str(alloc, key) {
        Ok(text) => Stop::Refused(Refusal::JumpKey(number, Name::new(text))),
        Err(_) => Stop::Memory,
    }
}

// The refusal of a value of a jump.
fn bad_value(alloc: Global, number: u32, key: &str) -> Stop
    ensures { Refuses result (JumpValue number key.now) }
{
    match String::from_str(alloc, key) {
        Ok(text) => Stop::Refused(Refusal::JumpValue(number, Name::new(text))),
        Err(_) => Stop::Memory,
    }
}

fn check_version(alloc: Global, table: &Table) -> Result<(), Stop>
    ensures { Answers (λ x. x) result (checked_version (table_view table.now)) }
{
    if find(table, "version").is_none() {
        return Err(bad_key(alloc, FILE, "version"));
    }
    match number_at(table, "version", 1, 1) {
        Some(_) => Ok(()),
        None => Err(bad_value(alloc, FILE, "version")),
    }
}

fn jump_tables<'t>(alloc: Global, table: &'t Table) -> Result<Vec<&'t Table>, Stop>
    ensures tables { Answers (λ v. map (λ t. table_view t.now) v.items) result (jump_tables (table_view table.now)) }
    ensures few { IfOk result (λ v. length v.items ≤ 1024) }
{
    let Some(value) = find(table, "jump") else {
        return Ok(Vec::new(alloc));
    };
    let Some(found) = tables(alloc, value)? else {
        return Err(bad_value(alloc, FILE, "jump"));
    };
    if found.len() <= MOST_JUMPS {
        Ok(found)
    } else {
        Err(bad_value(alloc, FILE, "jump"))
    }
}

fn check_keys(alloc: Global, number: u32, table: &Table) -> Result<(), Stop>
    ensures { Answers (λ x. x) result (checked_keys (JumpKey number) jump_keys jump_keys (table_view table.now)) }
{
    if let Some(key) = first_missing(table, &JUMP_KEYS) {
        return Err(bad_key(alloc, number, key));
    }
    if let Some(key) = least_unknown(table, &JUMP_KEYS) {
        return Err(bad_key(alloc, number, key));
    }
    Ok(())
}

fn at(alloc: Global, number: u32, table: &Table) -> Result<u32, Stop>
    ensures at { Answers (λ at. at) result (at_of number (table_view table.now)) }
    ensures aligned { IfOk result IsAligned }
{
    let Some(value) = find(table, "at") else {
        return Err(bad_value(alloc, number, "at"));
    };
    match address(value) {
        Some(at) => Ok(at),
        None => Err(bad_value(alloc, number, "at")),
    }
}

fn targets(alloc: Global, number: u32, table: &Table) -> Result<TargetList, Stop>
    ensures targets { Answers (λ targets. targets) result (targets_at number (table_view table.now)) }
    ensures kept { IfOk result AreTargets }
{
    let Some(value) = find(table, "targets") else {
        return Err(bad_value(alloc, number, "targets"));
    };
    match targets_of(alloc, value)? {
        Some(targets) => Ok(targets),
        None => Err(bad_value(alloc, number, "targets")),
    }
}

#[tactic(auto, unfolding(crate::specs::Jumps::jump_note_of))]
fn note(alloc: Global, number: u32, table: &Table) -> Result<JumpNote, Stop>
    ensures note { Answers (λ note. note) result (jump_note_of number (table_view table.now)) }
    ensures kept { IfOk result IsJumpNote }
{
    check_keys(alloc, number, table)?;
    Ok(JumpNote {
        at: at(alloc, number, table)?,
        targets: targets(alloc, number, table)?,
    })
}

fn notes(alloc: Global, tables: &[&Table]) -> Result<JumpNotes, Stop>
    requires { length tables.now ≤ 1024 }
    ensures { Answers (λ notes. notes) result (jump_notes_from 1 (map (λ t. table_view t.now) tables.now)) }
{
    let mut notes = JumpNotes::new(alloc);
    for (i, table) in tables.iter().enumerate() {
        notes.push(note(alloc, i as u32 + 1, table)?)?;
    }
    Ok(notes)
}

/// The notes of a table.
#[tactic(auto, unfolding(crate::specs::Jumps::jump_notes_of))]
pub fn notes_of(alloc: Global, table: &Table) -> Result<JumpNotes, Stop>
    ensures { Answers (λ notes. notes) result (jump_notes_of (table_view table.now)) }
{
    check_version(alloc, table)?;
    if let Some(key) = least_unknown(table, &FILE_KEYS) {
        return Err(bad_key(alloc, FILE, key));
    }
    let tables = jump_tables(alloc, table)?;
    notes(alloc, &tables)
}
