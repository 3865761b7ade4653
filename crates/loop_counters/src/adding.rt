//! What the instructions of a loop add to what is counted in.

use crate::scope::Scope;
use crate::stores::{is_missed, is_safe, stored_word};
use scale_base::NoMemory;
use stack_tables::Name;
use std::alloc::Global;
use wrapped_intervals::{Arc, Measure, effect};

/// What is counted in: a register, a word of the stack, by its number, or a sum of two registers whose interval the table has.
#[derive(Clone, Copy)]
pub enum Place {
    Register(u8),
    Word(u32),
    Sum(Measure),
}

/// A register as a measure.
pub fn register_measure(r: u8) -> Measure {
    Measure {
        register: r,
        factor: 1,
        other: 0,
        other_factor: 0,
        shift: 0,
    }
}

// Whether a function gives the registers of a measure back.
fn restores(scope: &Scope<'_>, function: usize, m: Measure) -> bool {
    (m.register == 0 || scope.restores(function, m.register))
        && (m.other == 0 || scope.restores(function, m.other))
}

// What a node adds to a sum of registers. A call adds nothing, where the function gives them back.
fn added_to_registers(scope: &Scope<'_>, k: usize, m: Measure) -> Option<u32> {
    let added = effect(m, scope.instr(k))?;
    match scope.callee_of(k) {
        Some(callee) if !restores(scope, callee.function, m) => None,
        _ => Some(added),
    }
}

/// How much more than a word a register is before a node, by its name.
pub fn more_than_word(scope: &Scope<'_>, k: usize, r: u8, number: u32) -> Option<u32> {
    match scope.name(k, r) {
        Some(Name::OfWord(named, more)) if named == number => Some(more),
        _ => None,
    }
}

// What a node that calls nothing adds to a word of the stack: what a register is more that is stored there, or nothing where the word is missed.
fn stored_to_word(scope: &Scope<'_>, k: usize, number: u32) -> Option<u32> {
    match stored_word(scope, k) {
        Some(stored) if stored.number == number => {
            more_than_word(scope, k, stored.register, number)
        }
        _ => {
            if is_missed(scope, k, number) {
                Some(0)
            } else {
                None
            }
        }
    }
}

// What a node adds to a word of the stack. A call adds nothing, where it keeps the word.
fn added_to_word(scope: &Scope<'_>, k: usize, number: u32) -> Option<u32> {
    match scope.callee_of(k) {
        Some(callee) => {
            if is_safe(scope, k, callee, number) {
                Some(0)
            } else {
                None
            }
        }
        None => stored_to_word(scope, k, number),
    }
}

fn added(scope: &Scope<'_>, place: Place, k: usize) -> Option<u32> {
    match place {
        Place::Register(r) => added_to_registers(scope, k, register_measure(r)),
        Place::Word(number) => added_to_word(scope, k, number),
        Place::Sum(m) => added_to_registers(scope, k, m),
    }
}

/// What the nodes of the body add, modulo 2^32, by node. None where one of them does something else.
pub fn adds_of(
    alloc: Global,
    scope: &Scope<'_>,
    place: Place,
) -> Result<Option<Vec<u32>>, NoMemory> {
    let mut adds = vec![in alloc; 0; scope.body.len()]?;
    for k in scope.nodes {
        if scope.is_live(*k) {
            let Some(more) = added(scope, place, *k) else {
                return Ok(None);
            };
            if *k < adds.len() {
                adds[*k] = more;
            }
        }
    }
    Ok(Some(adds))
}

/// The interval at the header of what is counted in.
pub fn arc_at_header(scope: &Scope<'_>, place: Place) -> Option<Arc> {
    match place {
        Place::Register(r) => scope.arc(scope.header, r),
        Place::Word(number) => scope.word_arc(scope.header, number),
        Place::Sum(m) => scope.line_arc(scope.header, m),
    }
}
