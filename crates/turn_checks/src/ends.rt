//! What ends a turn.

ghost use Rattle.std.specs.Prelude.{◌≡◌, ◌≤◌, ◌<◌, ℕ, List, Some, length, true};
ghost use Rattle.code_text.specs.Text as text;
ghost use Rattle.stack_tables.specs.Tables.{stacks_in, text_in, values_in};
ghost use Rattle.turn_laws.specs.Relating as relating;
ghost use Rattle.turn_checks.specs.Turned.{at_of, cert, certificate_of, kind_view, place_view, relation_view, IsMoved, IsStep, IsTurnCase};
ghost use Rattle.turn_laws.specs.Relating.Place.{in_input};
ghost use Rattle.turn_laws.specs.Relating.Relation.{below};

use crate::backs::{is_own_back, is_row_back};
use crate::made::{is_row_over, is_word_over};
use crate::reading::is_taken_on;
use crate::relations::{arc, consumed_by};
use crate::rows::{is_used, own_at};
use crate::tables::{Call, Relation, Step, TurnCase, TurnKind, TurnPlace, TurnTable};
use crate::using::is_used_over;
use scale_base::Instr;
use wrapped_intervals::{Arc, covers, scaled};

// Whether a multiple of the numbers of an interval is at least so much, and so much that with the width it is a word.
fn is_moved(factor: u32, low: u32, more: u32, least: u32, width: u32) -> bool
    ensures { result ≡ true → IsMoved factor low more least width }
{
    match (u32::MAX - width).checked_sub(least) {
        Some(most) => covers(
            Some(Arc::of(u64::from(least), u64::from(most))),
            scaled(u64::from(factor), arc(low, more)),
        ),
        None => false,
    }
}

// Whether the relation at the end of each turn is one of the table's kind.
fn is_turned(table: &TurnTable) -> bool
    ensures { result ≡ true → (nodes : List ℕ) → relating.IsTurned (certificate_of nodes table.now) (kind_view table.now.kind)
        (relation_view table.now.end) }
{
    match (table.kind, table.end) {
        (TurnKind::Moves(factor, _), Relation::Ahead(low, more)) => {
            is_moved(factor, low, more, table.least, table.width)
        }
        (TurnKind::Lowers, Relation::Below(less, _)) => table.least <= less,
        (TurnKind::Raises(_), Relation::Above(more)) => table.least <= more,
        (TurnKind::Halves(_), Relation::Below(_, shift)) => table.least <= shift,
        _ => false,
    }
}

// Whether it says that so much was taken from the input on the way.
fn is_end_taken(case: &TurnCase<'_>, step: Step) -> bool
    requires case { IsTurnCase case.now }
    requires step { IsStep case.now step }
    ensures { result ≡ true → relating.IsPlaceOn (values_in case.now.claim.now) (stacks_in case.now.claim.now) (cert case.now)
        (at_of case.now step.from) step.instr (at_of case.now step.to) in_input (relation_view case.now.table.now.end) }
{
    match case.table.end {
        Relation::Below(n, 0) => is_taken_on(case, step, n),
        _ => false,
    }
}

// Whether it is one on the way from node k to the header.
fn is_place_on(case: &TurnCase<'_>, i: Instr, k: usize) -> bool
    requires case { IsTurnCase case.now }
    requires from { k < length case.now.claim.now.graph.now.code.nodes }
    ensures { result ≡ true → relating.IsPlaceOn (values_in case.now.claim.now) (stacks_in case.now.claim.now) (cert case.now)
        (at_of case.now k) i (at_of case.now case.now.header) (place_view case.now.table.now.place)
        (relation_view case.now.table.now.end) }
{
    let end = case.table.end;
    match case.table.place {
        TurnPlace::Register(r) => { 0 < r && r < 32 && is_row_over(case, i, k, r, end) }
        TurnPlace::Word(word) => is_word_over(case, i, k, word, end),
        TurnPlace::Input => {
            let step = Step {
                instr: i,
                from: k,
                to: case.header,
            };
            is_end_taken(case, step)
        }
    }
}

// Whether turns are counted by halving.
fn is_halving(kind: TurnKind) -> bool
    ensures { result ≡ relating.is_halving (kind_view kind) }
{
    match kind {
        TurnKind::Halves(_) => true,
        TurnKind::Moves(_, _) => false,
        TurnKind::Lowers => false,
        TurnKind::Raises(_) => false,
    }
}

/// Whether the instruction of node k ends a turn as the table says.
pub fn is_turn_over(case: &TurnCase<'_>, i: Instr, k: usize) -> bool
    requires case { IsTurnCase case.now }
    requires from { k < length case.now.claim.now.graph.now.code.nodes }
    ensures { result ≡ true → relating.IsTurnOver (values_in case.now.claim.now) (stacks_in case.now.claim.now) (cert case.now)
        (at_of case.now k) i case.now.note.now.header }
{
    if !is_turned(case.table) {
        return false;
    }
    if !is_place_on(case, i, k) {
        return false;
    }
    !is_halving(case.table.kind) || is_used_over(case, i, k, case.header)
}

// Whether the relation at the end of a turn says that so much was taken from the input before node k.
fn is_end_left(case: &TurnCase<'_>, k: usize) -> bool
    requires case { IsTurnCase case.now }
    requires from { k < length case.now.claim.now.graph.now.code.nodes }
    ensures { result ≡ true → (n : ℕ) × (relation_view case.now.table.now.end ≡ below n 0) ×
        (n ≤ relating.consumed_by ((cert case.now).own (at_of case.now k))) }
{
    match case.table.end {
        Relation::Below(n, 0) => n <= consumed_by(own_at(case.claim, case.table, k)),
        _ => false,
    }
}

// Whether it is one behind a call.
fn is_place_back(case: &TurnCase<'_>, call: Call) -> bool
    requires case { IsTurnCase case.now }
    requires from { call.from < length case.now.claim.now.graph.now.code.nodes }
    requires entry { call.entry < length case.now.claim.now.graph.now.code.nodes }
    requires instruction { text.instr_at (text_in case.now.claim.now) (at_of case.now call.from) ≡ Some call.instr }
    ensures { result ≡ true → relating.IsPlaceBack (text_in case.now.claim.now) (values_in case.now.claim.now)
        (stacks_in case.now.claim.now) (cert case.now) (at_of case.now call.from) (at_of case.now call.entry)
        (place_view case.now.table.now.place) (relation_view case.now.table.now.end) }
{
    match case.table.place {
        TurnPlace::Register(r) => { 0 < r && r < 32 && is_row_back(case, call, r, case.table.end) }
        TurnPlace::Word(_) => is_own_back(case, call.from, call.entry, case.table.end),
        TurnPlace::Input => is_end_left(case, call.from),
    }
}

/// Whether a call ends a turn as the table says.
pub fn is_turn_back(case: &TurnCase<'_>, call: Call) -> bool
    requires case { IsTurnCase case.now }
    requires from { call.from < length case.now.claim.now.graph.now.code.nodes }
    requires entry { call.entry < length case.now.claim.now.graph.now.code.nodes }
    requires instruction { text.instr_at (text_in case.now.claim.now) (at_of case.now call.from) ≡ Some call.instr }
    ensures { result ≡ true → relating.IsTurnBack (text_in case.now.claim.now) (values_in case.now.claim.now)
        (stacks_in case.now.claim.now) (cert case.now) (at_of case.now call.from) (at_of case.now call.entry) }
{
    if !is_turned(case.table) {
        return false;
    }
    if !is_place_back(case, call) {
        return false;
    }
    !is_halving(case.table.kind) || is_used(case.claim, case.table, call.from)
}
