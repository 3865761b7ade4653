//! What calls leave of relations.

ghost use Rattle.std.specs.Prelude.{◌≡◌, ◌<◌, Some, length, true};
ghost use Rattle.code_text.specs.Text as text;
ghost use Rattle.stack_tables.specs.Tables.{stacks_in, text_in, values_in};
ghost use Rattle.turn_laws.specs.Relating as relating;
ghost use Rattle.turn_checks.specs.Turned.{at_of, cert, place_view, relation_view, IsTurnCase};
ghost use Rattle.turn_laws.specs.Relating.Place.{in_word};

use crate::relations::{consumed_by, is_weaker};
use crate::rows::{own_at, row_at};
use crate::tables::{Call, Relation, TurnCase, TurnPlace};
use stack_tables::{is_given_back, is_safe};

/// Whether a relation is one of a register behind a call.
pub fn is_row_back(case: &TurnCase<'_>, call: Call, r: u8, b: Relation) -> bool
    requires case { IsTurnCase case.now }
    requires from { call.from < length case.now.claim.now.graph.now.code.nodes }
    requires entry { call.entry < length case.now.claim.now.graph.now.code.nodes }
    requires register { r < 32 }
    requires instruction { text.instr_at (text_in case.now.claim.now) (at_of case.now call.from) ≡ Some call.instr }
    ensures { result ≡ true → relating.IsRowBack (text_in case.now.claim.now) (values_in case.now.claim.now) (stacks_in case.now.claim.now)
        (cert case.now) (at_of case.now call.from) (at_of case.now call.entry) r (relation_view b) }
{
    if is_weaker(b, Relation::Unknown) {
        return true;
    }
    is_weaker(b, row_at(case.claim, case.table, call.from, r))
        && is_given_back(case.claim, call.instr, call.from, call.entry, r)
}

// The same of a word, behind the call at node k of the function that begins at node h.
fn is_word_back(case: &TurnCase<'_>, k: usize, h: usize, word: u32, b: Relation) -> bool
    requires case { IsTurnCase case.now }
    requires from { k < length case.now.claim.now.graph.now.code.nodes }
    requires entry { h < length case.now.claim.now.graph.now.code.nodes }
    ensures { result ≡ true → relating.IsOwnBack (values_in case.now.claim.now) (stacks_in case.now.claim.now) (cert case.now)
        (at_of case.now k) (at_of case.now h) (in_word word) (relation_view b) }
{
    if is_weaker(b, Relation::Unknown) {
        return true;
    }
    is_weaker(b, own_at(case.claim, case.table, k)) && is_safe(case.claim, k, h, word)
}

/// Whether it is one of a word that is counted in, or of what is left of the input.
pub fn is_own_back(case: &TurnCase<'_>, k: usize, h: usize, b: Relation) -> bool
    requires case { IsTurnCase case.now }
    requires from { k < length case.now.claim.now.graph.now.code.nodes }
    requires entry { h < length case.now.claim.now.graph.now.code.nodes }
    ensures { result ≡ true → relating.IsOwnBack (values_in case.now.claim.now) (stacks_in case.now.claim.now) (cert case.now)
        (at_of case.now k) (at_of case.now h) (place_view case.now.table.now.place) (relation_view b) }
{
    match case.table.place {
        TurnPlace::Register(_) => true,
        TurnPlace::Word(word) => is_word_back(case, k, h, word, b),
        TurnPlace::Input => consumed_by(b) <= consumed_by(own_at(case.claim, case.table, k)),
    }
}
