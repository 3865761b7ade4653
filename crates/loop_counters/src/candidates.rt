//! The registers and words of the stack that a loop moves on, and does nothing else to that is seen at once.

ghost use Rattle.std.specs.Prelude.{◌<◌};

use crate::adding::{more_than_word, register_measure};
use crate::scope::Scope;
use crate::stores::stored_word;
use scale_base::Instr;
use wrapped_intervals::effect;

/// How many words of a stack are looked at.
pub const WORDS_LOOKED_AT: usize = 64;

// Takes out the registers that an instruction does something else to than to add a number, and notes those that it moves on.
fn note_effects(instr: Instr, moved: &mut [bool; 32], lost: &mut [bool; 32]) {
    for r in 1..32 {
        match effect(register_measure(r), instr) {
            Some(0) => {}
            Some(_) => moved[usize::from(r)] = true,
            None => lost[usize::from(r)] = true,
        }
    }
}

// Takes out the registers that a called function doesn't give back.
fn note_call(scope: &Scope<'_>, function: usize, lost: &mut [bool; 32]) {
    for r in 1..32 {
        if !scope.restores(function, r) {
            lost[usize::from(r)] = true;
        }
    }
}

/// By register, whether it may be a counter.
pub fn counting_registers(scope: &Scope<'_>) -> [bool; 32] {
    let mut moved = [false; 32];
    let mut lost = [false; 32];
    for k in scope.nodes {
        if scope.is_live(*k) {
            note_effects(scope.instr(*k), &mut moved, &mut lost);
            if let Some(callee) = scope.callee_of(*k) {
                note_call(scope, callee.function, &mut lost);
            }
        }
    }
    for r in 0..32 {
        moved[r] = moved[r] && !lost[r];
    }
    moved
}

// Notes a word that a node stores: that it is moved on, or else that it is lost.
fn note_store(scope: &Scope<'_>, k: usize, moved: &mut [bool; 64], lost: &mut [bool; 64]) {
    let Some(stored) = stored_word(scope, k) else {
        return;
    };
    let place = stored.number as usize;
    if place >= WORDS_LOOKED_AT {
        return;
    }
    match more_than_word(scope, k, stored.register, stored.number) {
        Some(0) => {}
        Some(_) => moved[place] = true,
        None => lost[place] = true,
    }
}

/// By number of a word of the stack, whether it may be a counter.
pub fn counting_words(scope: &Scope<'_>) -> [bool; 64] {
    let mut moved = [false; 64];
    let mut lost = [false; 64];
    for k in scope.nodes {
        if scope.is_live(*k) {
            note_store(scope, *k, &mut moved, &mut lost);
        }
    }
    for k in 0..WORDS_LOOKED_AT {
        moved[k] = moved[k] && !lost[k];
    }
    moved
}
