//! The entries of words and of tables, and which of them are safe.

ghost use Rattle.std.specs.Prelude.{◌≡◌, ◌↔◌, ◌<◌, ◌≤◌, ◌+◌, ◌/◌, ◌^◌, ℕ, true, length, IfSome};
ghost use Rattle.flat_memory.specs.Lists.{list_bytes};
ghost use Rattle.image_check.specs.LastRows.{last_of};
ghost use Rattle.image_check.specs.Entries.{is_safe, IsWordLevel, IsExitLevel, AreRowsAmong, HasBadLast, last_row, told_row};

use crate::last_rows::{LastPlaces, LastRows};
use crate::told::ExitTold;
use level_tables::EdgeNumbers;
use power_model::Power;

/// Whether an entry for level i is i itself, or a lower level that meets both tests.
fn is_safe(power: &Power, told: &EdgeNumbers, i: u8, entry: u8) -> bool
    requires level { i < length power.now.levels }
    requires least { IfSome told.now.least (λ z. z < 2 ^ 90) }
    ensures { result ≡ is_safe power.now told.now i entry }
{
    entry == i || entry < i && told.is_in_time(power, i, entry) && told.pays(power, i, entry)
}

/// The least level for which the entry of a word isn't safe.
pub fn word_level(power: &Power, told: &EdgeNumbers, word: u32) -> Option<u8>
    requires least { IfSome told.now.least (λ z. z < 2 ^ 90) }
    ensures { IsWordLevel power.now told.now word result }
{
    for i in 0..power.levels.count() {
        let entry = (word >> (4 * u32::from(i))) % 16;
        if !is_safe(power, told, i, entry as u8) {
            return Some(i);
        }
    }
    None
}

/// Whether an entry for level i is safe in a row.
fn is_safe_in_row(power: &Power, exit: &ExitTold, row: u32, i: u8, entry: u8) -> bool
    requires level { i < length power.now.levels }
    requires row { row ≤ last_row exit.now }
    requires least { IfSome exit.now.told.least (λ z. z < 2 ^ 90) }
    ensures { result ≡ is_safe power.now (told_row exit.now row) i entry }
{
    let exit_told = &exit.told;
    let told = exit_told.at_row(exit.bound, exit.iteration, exit.shift, row);
    is_safe(power, &told, i, entry)
}

/// Whether an entry for level i isn't safe in the last row that has it, of the rows from word `start` on.
fn has_bad_last(power: &Power, exit: &ExitTold, start: u32, places: &LastPlaces, i: u8) -> bool
    requires level { i < length power.now.levels }
    requires few { i < 8 }
    requires rows { (j : ℕ) → j < 16 → last_of places.now i j ≤ start + last_row exit.now + 1 }
    requires least { IfSome exit.now.told.least (λ z. z < 2 ^ 90) }
    ensures { (result ≡ true) ↔ HasBadLast power.now exit.now start places.now i }
{
    for entry in 0..16u8 {
        let last = places.get(i, entry);
        if last > start && !is_safe_in_row(power, exit, last - 1 - start, i, entry) {
            return true;
        }
    }
    false
}

/// The least level for which an entry isn't safe in one of the rows of an exit's table. An entry that is safe in a row is safe in the rows before it, so the last
/// row that has the entry decides: fewer than 64 words are read, however many rows there are.
pub fn table_level(power: &Power, rows: &LastRows, exit: &ExitTold, table: u32) -> Option<u8>
    requires rows { AreRowsAmong rows.now.first rows.now.count table (last_row exit.now) }
    requires least { IfSome exit.now.told.least (λ z. z < 2 ^ 90) }
    ensures { IsExitLevel power.now (list_bytes rows.now.memory) exit.now table result }
{
    let start = table / 4 - rows.first;
    let places = rows.places_before(start + (exit.bound >> exit.shift) + 1);
    for i in 0..power.levels.count() {
        if has_bad_last(power, exit, start, &places, i) {
            return Some(i);
        }
    }
    None
}
