//! Which functions store nothing to the words of functions that wait for them, and where those words may be.

ghost use Rattle.std.specs.Prelude.{◌<◌};

use crate::apart::raised;
use crate::arcs::{holds, joined};
use crate::doubts::Kept;
use crate::growing::Growth;
use crate::program::{Node, Program};
use crate::states::{State, UNKNOWN_WORD};
use crate::stores::{Target, span_by_interval, target_of, word_offset};
use crate::ways::{Way, WayKind};
use scale_base::NoMemory;
use stack_tables::{Name, Word};
use wrapped_intervals::Arc;

/// How often functions are looked at before nothing is said of any.
const MOST_ROUNDS: usize = 24;

/// The longest interval of stores within which words are given up in place of all calls of the function.
const LONGEST: u64 = 65_536;

// Whether a register's value comes from a word.
fn is_named(names: &[Option<Name>; 32], k: usize) -> bool {
    for r in 1..32 {
        if let Some(Name::OfWord(word, _)) = names[r] {
            if word as usize == k {
                return true;
            }
        }
    }
    false
}

// An interval with all that both have, where both are there.
fn added(sum: &Option<Arc>, arc: &Option<Arc>) -> Option<Arc> {
    if sum.is_none() {
        return *arc;
    }
    if arc.is_none() || holds(*sum, *arc) {
        return *sum;
    }
    joined(*sum, *arc)
}

// The words that are known behind a call, of those that it keeps.
fn kept_behind(growth: &Growth<'_>, way: &Way, f: usize) -> usize {
    let Some(node) = growth.program.node(way.from) else {
        return 0;
    };
    match (growth.site(&node, way.from), growth.callee(f)) {
        (Some(site), Some(callee)) => site.kept_words(&callee),
        _ => 0,
    }
}

// Where the words are that a call keeps, and that something is known of behind it.
fn place_of(growth: &Growth<'_>, way: &Way, f: usize, begins: &Option<Arc>) -> Option<Arc> {
    let kept = kept_behind(growth, way, f);
    let facts = growth.facts.get(way.to)?;
    let mut place = None;
    for k in 0..kept.min(64) {
        let word: Word = facts.word(k);
        if word != UNKNOWN_WORD || is_named(&facts.names, k) {
            place = added(&place, &raised(*begins, word_offset(k)));
        }
    }
    place
}

/// Where the words are that calls keep.
pub fn kept_place(growth: &Growth<'_>) -> Option<Arc> {
    let mut place = None;
    for way in &growth.program.ways {
        if let (WayKind::Back(f), Some(node)) = (way.kind, growth.program.node(way.from)) {
            if growth.is_live(way.from) {
                let begins = growth.begins(node.function);
                place = added(&place, &place_of(growth, way, f, &begins));
            }
        }
    }
    place
}

// Whether a node is come to by steps alone: spans may be by intervals there.
fn is_stepped_to(program: &Program, k: usize) -> bool {
    if k == program.start() {
        return false;
    }
    let mut next = program.last_way_to(k);
    for _ in 0..program.ways.len() {
        let Some(way) = next.and_then(|w| program.way(w)) else {
            break;
        };
        if !matches!(&way.kind, WayKind::Step) {
            return false;
        }
        next = way.beside;
    }
    true
}

/// The span of the register by which a node stores, by its interval, where it is known by that alone.
pub fn added_span(growth: &Growth<'_>, k: usize) -> Option<(u8, Arc)> {
    let node = growth.program.node(k)?;
    let facts = growth.facts.get(k)?;
    let begins = growth.begins(node.function);
    let span = span_by_interval(node.instr, &facts.row, &facts.spans, &begins)?;
    if growth.is_live(k) && is_stepped_to(growth.program, k) {
        Some(span)
    } else {
        None
    }
}

// Where a node stores, if it does.
fn target_at(growth: &Growth<'_>, node: &Node, k: usize) -> Option<Target> {
    let facts = growth.facts.get(k)?;
    let target = target_of(node.instr, &facts.row, &facts.names, &facts.spans)?;
    if is_stepped_to(growth.program, k) {
        Some(target.spanned(&growth.begins(node.function)))
    } else {
        Some(target)
    }
}

// Whether a call is of a function that spares the words of those that wait.
fn calls_sparing(growth: &Growth<'_>, node: &Node, k: usize, f: usize) -> bool {
    let descends = match growth.site(node, k) {
        Some(site) => site.is_descending(),
        None => false,
    };
    match growth.known.get(f) {
        Some(known) => known.sparing && descends,
        None => false,
    }
}

// Whether all calls at a node are.
fn is_calling_well(growth: &Growth<'_>, node: &Node, k: usize) -> bool {
    for w in node.first..node.end {
        if let Some(way) = growth.program.way(w) {
            if let WayKind::Call(f) = way.kind {
                if !calls_sparing(growth, node, k, f) {
                    return false;
                }
            }
        }
    }
    true
}

/// What a node does to the words of functions that wait.
#[derive(Clone, Copy)]
enum Verdict {
    Spares,
    Stores(Target),
    Calls,
}

// Whether a store may be taken to miss words: nothing is known of it.
fn is_doubted(growth: &Growth<'_>, node: &Node, target: &Target) -> bool {
    match growth.kept_of(node.function) {
        Some(kept) => kept.may_doubt(node.instr) && target.is_unknown(),
        None => false,
    }
}

// Whether a store misses those words, or is taken to.
fn is_spared(growth: &Growth<'_>, node: &Node, target: &Target, place: &Option<Arc>) -> bool {
    target.spares(&growth.begins(node.function), place) || is_doubted(growth, node, target)
}

// Whether a store may be to a word of its function that is kept.
fn may_store(target: &Target, begins: &Option<Arc>, kept: &Kept) -> bool {
    (0..64).any(|k| kept.words[k] && !target.misses(begins, k))
}

/// Whether what a node stores is taken to miss all words that are kept: nothing is known of it, and nothing else says it.
pub fn is_doubtful(growth: &Growth<'_>, place: &Option<Arc>, k: usize) -> bool {
    let Some(node) = growth.program.node(k) else {
        return false;
    };
    let (Some(target), Some(kept)) = (target_at(growth, &node, k), growth.kept_of(node.function))
    else {
        return false;
    };
    let begins = growth.begins(node.function);
    growth.is_live(k)
        && is_doubted(growth, &node, &target)
        && (may_store(&target, &begins, kept)
            || (place.is_some() && !target.spares(&begins, place)))
}

fn judge(growth: &Growth<'_>, place: &Option<Arc>, k: usize) -> Verdict {
    let Some(node) = growth.program.node(k) else {
        return Verdict::Spares;
    };
    if let Some(target) = target_at(growth, &node, k) {
        if place.is_some() && !is_spared(growth, &node, &target, place) {
            return Verdict::Stores(target);
        }
    }
    if is_calling_well(growth, &node, k) {
        Verdict::Spares
    } else {
        Verdict::Calls
    }
}

// The number of the first word of a function's stack that a store may be to.
fn first_stored(begins: &Option<Arc>, target: &Target) -> Option<usize> {
    for k in 0..64 {
        if begins.is_some() && !target.is_apart(raised(*begins, word_offset(k))) {
            return Some(k);
        }
    }
    None
}

// The number of the first word of a function's stack that a store may be to, if calls are to keep that.
fn first_given_up(growth: &Growth<'_>, target: &Target, f: usize) -> Option<usize> {
    let known = growth.known.get(f)?;
    let k = first_stored(&known.begins, target)?;
    if k < known.limit { Some(k) } else { None }
}

// Has calls of a function keep fewer words.
fn limit_words(growth: &mut Growth<'_>, f: usize, k: usize) -> Result<(), NoMemory> {
    if f < growth.known.len() {
        growth.known[f].limit = k;
    }
    growth.wait_for_members(f)
}

// Gives up the words of all functions to which a store may be, where that is in a short interval. Whether there were any.
fn give_up_words(growth: &mut Growth<'_>, target: &Target) -> Result<bool, NoMemory> {
    let mut given_up = false;
    if !target.is_shorter(LONGEST) {
        return Ok(false);
    }
    for f in 0..growth.known.len() {
        if let Some(k) = first_given_up(growth, target, f) {
            limit_words(growth, f, k)?;
            given_up = true;
        }
    }
    Ok(given_up)
}

// Says no more of a function that it spares the words of those that wait.
fn give_up_function(growth: &mut Growth<'_>, f: usize) -> Result<(), NoMemory> {
    if f < growth.known.len() {
        growth.known[f].sparing = false;
        growth.wait_for_calls(f)?;
    }
    Ok(())
}

fn is_sparing(growth: &Growth<'_>, f: usize) -> bool {
    match growth.known.get(f) {
        Some(known) => known.sparing,
        None => false,
    }
}

// Looks at a node. Whether anything is given up.
fn look_at(growth: &mut Growth<'_>, place: &Option<Arc>, k: usize) -> Result<bool, NoMemory> {
    let Some(node) = growth.program.node(k) else {
        return Ok(false);
    };
    let f = node.function;
    if !growth.is_live(k) || !is_sparing(growth, f) {
        return Ok(false);
    }
    match judge(growth, place, k) {
        Verdict::Spares => return Ok(false),
        Verdict::Stores(target) => {
            if give_up_words(growth, &target)? {
                return Ok(true);
            }
        }
        Verdict::Calls => {}
    }
    give_up_function(growth, f)?;
    Ok(true)
}

// Looks at all nodes. Whether anything is given up.
fn look_at_all(growth: &mut Growth<'_>) -> Result<bool, NoMemory> {
    let place = kept_place(growth);
    let mut given_up = false;
    for k in 0..growth.live.len() {
        if look_at(growth, &place, k)? {
            given_up = true;
        }
    }
    Ok(given_up)
}

/// Gives up what is said of stores in functions until the code bears it out. Whether it came so far.
pub fn spare(growth: &mut Growth<'_>, state: &mut State) -> Result<bool, NoMemory> {
    for _ in 0..MOST_ROUNDS {
        if !look_at_all(growth)? {
            return Ok(true);
        }
        if !growth.settle(state)? {
            return Ok(false);
        }
    }
    for f in 0..growth.known.len() {
        give_up_function(growth, f)?;
    }
    growth.settle(state)
}
