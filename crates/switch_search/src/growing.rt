//! Sets of marks that grow as long as they save more.

use crate::candidates::MOST;
use crate::pricing::Search;
use crate::sets::{Form, MarkSet, Priced};
use run_traces::Candidate;
use scale_base::NoMemory;
use std::alloc::Global;

/// How many marks a set has at most.
const MOST_MARKS: usize = 8;

/// How many sets grow from a single mark of each sort.
const SEEDS: usize = 2;

/// What one mark more has to save, in thousandths of the energy at the starting level.
const GAIN: u128 = 10;

/// What a set has to save on the inputs to be proposed where some run may lose with it, in thousandths of the energy at the starting level. What saves less
/// there often takes more on other inputs.
pub const WORTH_RISK: u128 = 40;

/// The one that takes less, and the first where they take the same.
fn better(one: Priced, other: Priced) -> Priced {
    if other.energy < one.energy {
        other
    } else {
        one
    }
}

/// The best set with one mark more.
fn best_addition(search: &mut Search<'_>, from: Priced) -> Result<Priced, NoMemory> {
    let mut best = from;
    if from.set.count() >= MOST_MARKS {
        return Ok(best);
    }
    for c in 0..search.places.candidates.len() {
        if !from.set.contains(c) && may_have(search, from.set.form, c) {
            best = better(best, search.priced(from.set.with(c))?);
        }
    }
    Ok(best)
}

/// The set with more marks, as long as each saves enough.
fn grown(search: &mut Search<'_>, from: Priced) -> Result<Priced, NoMemory> {
    let mut best = from;
    for _ in 0..MOST_MARKS {
        let next = best_addition(search, best)?;
        if !search.saves(next.energy, best.energy, GAIN) {
            return Ok(best);
        }
        best = next;
    }
    Ok(best)
}

/// The set without the marks that save too little.
fn shrunk(search: &mut Search<'_>, from: Priced) -> Result<Priced, NoMemory> {
    let mut best = from;
    for c in 0..MOST {
        if best.set.contains(c) {
            let without = search.priced(best.set.without(c))?;
            if !search.saves(best.energy, without.energy, GAIN) {
                best = without;
            }
        }
    }
    Ok(best)
}

/// The best set with another candidate in the place of candidate `c`.
fn best_swap(search: &mut Search<'_>, from: Priced, c: usize) -> Result<Priced, NoMemory> {
    let rest = from.set.without(c);
    let mut best = from;
    for d in 0..search.places.candidates.len() {
        if !from.set.contains(d) && may_have(search, from.set.form, d) {
            best = better(best, search.priced(rest.with(d))?);
        }
    }
    Ok(best)
}

/// The set with each of its marks in a better place, if there is one.
fn swapped(search: &mut Search<'_>, from: Priced) -> Result<Priced, NoMemory> {
    let mut best = from;
    for c in 0..MOST {
        if best.set.contains(c) {
            best = best_swap(search, best, c)?;
        }
    }
    Ok(best)
}

/// The set that grows from another one.
fn improved(search: &mut Search<'_>, from: Priced) -> Result<Priced, NoMemory> {
    let larger = grown(search, from)?;
    let first = shrunk(search, larger)?;
    let other = swapped(search, first)?;
    let larger = grown(search, other)?;
    shrunk(search, larger)
}

/// Whether candidate `c` is a loop.
fn is_loop(search: &Search<'_>, c: usize) -> bool {
    let candidates = search.places.candidates;
    c < candidates.len() && matches!(candidates[c], Candidate::Loop(_))
}

/// Each edge or each loop alone, those first with which the runs take least.
fn singles(
    alloc: Global,
    search: &mut Search<'_>,
    form: Form,
    loops: bool,
) -> Result<Vec<Priced>, NoMemory> {
    let mut singles = Vec::new(alloc);
    for c in 0..search.places.candidates.len() {
        if is_loop(search, c) == loops && (form.tallies || !loops) {
            singles.push(search.priced(MarkSet::empty(form).with(c))?)?;
        }
    }
    singles.sort_by_key(|single| single.energy)?;
    Ok(singles)
}

/// Whether candidate `c` may be in a set of a form: no loop where none is tallied; and where no level between the starting and the lowest one gets
/// any time, what saves nothing alone saves nothing with others.
fn may_have(search: &Search<'_>, form: Form, c: usize) -> bool {
    if is_loop(search, c) && !form.tallies {
        return false;
    }
    form.share > 0 || search.is_hopeful(&MarkSet::empty(form).with(c))
}

/// Whether a set is among others.
fn has_set(sets: &[Priced], set: &MarkSet) -> bool {
    for other in sets {
        if other.set == *set {
            return true;
        }
    }
    false
}

/// Whether a set saves enough to be proposed, in all and on the inputs.
fn is_worth_it(search: &Search<'_>, priced: &Priced) -> bool {
    let least = if search.is_harmless(priced) {
        GAIN
    } else {
        WORTH_RISK
    };
    search.saves(priced.energy, search.held, GAIN) && search.saves_on_inputs(priced, least)
}

/// Appends a set that saves enough and isn't there yet.
fn offer(search: &Search<'_>, sets: &mut Vec<Priced>, other: Priced) -> Result<(), NoMemory> {
    if is_worth_it(search, &other) && !has_set(sets, &other.set) {
        sets.push(other)?;
    }
    Ok(())
}

/// Appends the sets that grow from the best of some.
fn offer_grown(
    search: &mut Search<'_>,
    sets: &mut Vec<Priced>,
    singles: &[Priced],
) -> Result<(), NoMemory> {
    for (k, single) in singles.iter().enumerate() {
        if k < SEEDS {
            let set = improved(search, *single)?;
            offer(search, sets, set)?;
        }
    }
    Ok(())
}

/// Appends the first ones of others, as long as there are few.
fn offer_first(
    search: &Search<'_>,
    sets: &mut Vec<Priced>,
    others: &[Priced],
    most: usize,
) -> Result<(), NoMemory> {
    for other in others {
        if sets.len() < most {
            offer(search, sets, *other)?;
        }
    }
    Ok(())
}

/// Appends the sets of one form that grow from nothing and from single marks of each sort, and to other ones those single marks.
fn sets_of(
    alloc: Global,
    search: &mut Search<'_>,
    form: Form,
    sets: &mut Vec<Priced>,
    alone: &mut Vec<Priced>,
) -> Result<(), NoMemory> {
    let edges = singles(alloc, search, form, false)?;
    let loops = singles(alloc, search, form, true)?;
    let nothing = search.priced(MarkSet::empty(form))?;
    let set = improved(search, nothing)?;
    offer(search, sets, set)?;
    offer_grown(search, sets, &edges)?;
    offer_grown(search, sets, &loops)?;
    alone.extend_from_slice(&edges)?;
    alone.extend_from_slice(&loops)?;
    Ok(())
}

/// Switches to the lowest level and tallied loops.
const LOWEST: Form = Form {
    lowest: true,
    tallies: true,
    share: 0,
};

/// Switches by words alone.
const WORDS: Form = Form {
    lowest: false,
    tallies: false,
    share: 4,
};

/// Switches by words and tallied loops.
const BOTH: Form = Form {
    lowest: false,
    tallies: true,
    share: 2,
};

/// The sets that are proposed, so many at most, the most promising first; the last quarter of them are the best single marks. Where the runs begin at the lowest level but
/// one, a switch by a word does nothing that one to the lowest level doesn't do.
pub fn best_sets(
    alloc: Global,
    search: &mut Search<'_>,
    most: usize,
) -> Result<Vec<Priced>, NoMemory> {
    let mut grown = Vec::new(alloc);
    let mut alone = Vec::new(alloc);
    sets_of(alloc, search, LOWEST, &mut grown, &mut alone)?;
    if search.start > 1 {
        sets_of(alloc, search, WORDS, &mut grown, &mut alone)?;
        sets_of(alloc, search, BOTH, &mut grown, &mut alone)?;
    }
    grown.sort_by_key(|set| set.energy)?;
    alone.sort_by_key(|set| set.energy)?;
    let mut sets = Vec::new(alloc);
    offer_first(search, &mut sets, &grown, most - most / 4)?;
    offer_first(search, &mut sets, &alone, most)?;
    Ok(sets)
}
