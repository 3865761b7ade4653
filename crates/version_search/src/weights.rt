//! Which loops hold most of the worst case.

use crate::code::Code;
use crate::functions::{Functions, MOST_DEPTH};
use scale_base::NoMemory;
use std::alloc::Global;

fn add_weight(weights: &mut [u64], l: usize, words: u64) {
    if l < weights.len() {
        weights[l] = weights[l].saturating_add(words);
    }
}

// Adds a word, with what it calls, to the weights of the loops round it.
fn add_word(code: &Code<'_>, functions: &Functions, weights: &mut [u64], k: usize) {
    let mut words = functions.words_at(code, k);
    let mut next = code.innermost(k);
    for _ in 0..MOST_DEPTH {
        let Some(l) = next else {
            break;
        };
        words = words.saturating_mul(u64::from(code.bound(l)) + 1);
        add_weight(weights, l, words);
        next = code.parent(l);
    }
}

/// The loops behind their weights, the heaviest first. The weight is about how many words run in one entry at most, and is taken off the greatest
/// number.
pub fn by_weight(
    alloc: Global,
    code: &Code<'_>,
    functions: &Functions,
) -> Result<Vec<(u64, usize)>, NoMemory> {
    let mut weights = vec![in alloc; 0; code.loop_count()]?;
    for k in 0..code.node_count() {
        add_word(code, functions, &mut weights, k);
    }
    let mut loops = Vec::new(alloc);
    for (l, weight) in weights.iter().enumerate() {
        loops.push((u64::MAX - *weight, l))?;
    }
    loops.sort()?;
    Ok(loops)
}
