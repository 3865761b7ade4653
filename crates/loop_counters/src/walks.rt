//! Tables of walks: loops each turn of which accesses memory by a pointer, and moves the pointer on.

ghost use Rattle.std.specs.Prelude.{◌<◌, length};

use crate::grounds::{Ground, ground_of};
use crate::quiet::quiet_of;
use crate::scope::Scope;
use crate::searches::{not_zero, runs_of, start_of};
use crate::traced::{Term, Value, scaled, sum};
use crate::turning::Numbers;
use crate::walking::{FIRST_WORD, Look, Standing, Walk, Words, accessed, walk_of};
use scale_base::{Instr, LoadOp, NoMemory};
use std::alloc::Global;
use walk_checks::{Sought, Trace, WalkPlace, WalkTable, WordTrace};
use wrapped_intervals::Arc;

/// How many nodes of a loop are looked at, and how many addresses.
const MOST_NODES: usize = 2048;

const MOST_AIMS: usize = 8;

/// Which walks are looked at: those up to a 0 in constant bytes, or these and those through areas.
#[derive(Clone, Copy)]
pub enum WalkKinds {
    ToZero,
    All,
}

// How a walk moves its pointer: down or up, by so much at least, and so much more at most.
#[derive(Clone, Copy)]
struct Move {
    down: bool,
    least: u32,
    spread: u32,
}

impl Move {
    fn most(&self) -> u32 {
        self.least.saturating_add(self.spread)
    }
}

// What a term is at the end of a turn.
fn term_at(end: &Standing, term: Term) -> Option<Value> {
    scaled(end.of(term.place)?, term.times)
}

// What the pointer of an address is at the end of a turn.
fn pointer_at(end: &Standing, aim: &Value) -> Option<Value> {
    let first = term_at(end, aim.first)?;
    if aim.second.times == 0 {
        return Some(first);
    }
    sum(first, term_at(end, aim.second)?)
}

// By how much each turn moves the pointer of an address.
fn move_of(end: &Standing, aim: &Value) -> Option<Move> {
    let pointer = pointer_at(end, aim)?;
    if !pointer.has_terms_of(aim) || !end.touched {
        return None;
    }
    let last = pointer.low.wrapping_add(pointer.more);
    let (down, least) = if pointer.low < 0x8000_0000 {
        (false, pointer.low)
    } else {
        (true, last.wrapping_neg())
    };
    if least == 0 || least.checked_add(pointer.more)? >= 0x8000_0000 {
        return None;
    }
    Some(Move {
        down,
        least,
        spread: pointer.more,
    })
}

// Whether what stands in a place is another number at the end of a turn.
fn is_changed(end: &Standing, term: Term) -> bool {
    term.times > 0 && end.of(term.place) != Some(Value::itself(term.place))
}

// What is known at the header of all places.
fn all_begun(words: &Words) -> Standing {
    let mut first = Standing::nothing();
    for r in 1..32 {
        first.begin(r);
    }
    for j in 0..words.numbers.len() {
        if let Ok(number) = u8::try_from(j) {
            first.begin(FIRST_WORD.saturating_add(number));
        }
    }
    first
}

// And of the places of an address alone.
fn begun_of(aim: &Value) -> Standing {
    let mut first = Standing::nothing();
    first.begin(aim.first.place);
    if aim.second.times > 0 {
        first.begin(aim.second.place);
    }
    first
}

// The addresses of accesses whose places each turn changes, each once.
fn aims_of(alloc: Global, look: &Look<'_>, walk: &Walk) -> Result<Vec<Value>, NoMemory> {
    let mut aims = Vec::new(alloc);
    let Some(end) = walk.end else {
        return Ok(aims);
    };
    for k in look.scope.nodes {
        let known = walk.at(look.numbers.of(*k));
        if let (Some(known), true) = (known, look.scope.is_live(*k)) {
            if let Some(aim) = accessed(look.scope, &known, *k) {
                let moves = is_changed(&end, aim.first) || is_changed(&end, aim.second);
                if moves && aim.more == 0 && aims.len() < MOST_AIMS && !aims.contains(&aim) {
                    aims.push(aim)?;
                }
            }
        }
    }
    Ok(aims)
}

// A walk that is found: the address of its accesses, how it moves, what is known at its nodes, and its ground.
#[derive(Drop)]
struct Found {
    aim: Value,
    way: Move,
    walk: Walk,
    start: Option<Arc>,
    sought: Option<Sought>,
    ground: Ground,
    width: u32,
}

impl Found {
    // How many turns there may be.
    fn bound(&self) -> u32 {
        self.width.checked_div(self.way.least).unwrap_or(u32::MAX)
    }
}

// The walk by an address, if each turn moves its pointer.
fn walk_by(alloc: Global, look: &Look<'_>, aim: Value) -> Result<Option<Found>, NoMemory> {
    let aimed = Look {
        aim: Some(aim),
        ..*look
    };
    let Some(walk) = walk_of(alloc, &aimed, &begun_of(&aim))? else {
        return Ok(None);
    };
    let Some(end) = walk.end else {
        return Ok(None);
    };
    let Some(way) = move_of(&end, &aim) else {
        return Ok(None);
    };
    let place = aimed.reach(&walk);
    let Some(ground) = ground_of(alloc, look.scope.areas(), place, way.most())? else {
        return Ok(None);
    };
    match ground.longest.checked_add(way.most()) {
        Some(_) => Ok(Some(Found {
            aim,
            way,
            walk,
            start: None,
            sought: None,
            width: ground.longest.saturating_add(way.least),
            ground,
        })),
        None => Ok(None),
    }
}

// The walk by an address up to where a load gives 0 of bytes that no store changes, if each turn moves its pointer.
fn search_by(
    alloc: Global,
    look: &Look<'_>,
    aim: Value,
    op: LoadOp,
) -> Result<Option<Found>, NoMemory> {
    let aimed = Look {
        aim: Some(aim),
        sought: Some(not_zero(op)),
        ..*look
    };
    let Some(walk) = walk_of(alloc, &aimed, &begun_of(&aim))? else {
        return Ok(None);
    };
    let Some(end) = walk.end else {
        return Ok(None);
    };
    let Some(way) = move_of(&end, &aim) else {
        return Ok(None);
    };
    if way.down || way.spread > 0 {
        return Ok(None);
    }
    let Some(start) = start_of(look.scope, look.words, &aim) else {
        return Ok(None);
    };
    let ground = runs_of(alloc, look.scope.fixed(), op, &start, way.least)?;
    match ground {
        Some(ground) => Ok(Some(Found {
            aim,
            way,
            walk,
            start: Some(start),
            sought: Some(not_zero(op)),
            width: ground.longest.saturating_add(way.least),
            ground,
        })),
        None => Ok(None),
    }
}

// The kind of the first load at an address.
fn load_at(look: &Look<'_>, walk: &Walk, aim: &Value) -> Option<LoadOp> {
    for k in look.scope.nodes {
        if let (Some(known), Instr::Load { op, .. }) = (
            walk.at(look.numbers.of(*k)),
            look.scope.instr(*k),
        ) {
            if look.scope.is_live(*k) && accessed(look.scope, &known, *k) == Some(*aim) {
                return Some(op);
            }
        }
    }
    None
}

// The walk by the loads at an address, if there are any.
fn searched(
    alloc: Global,
    look: &Look<'_>,
    all: &Walk,
    aim: Value,
) -> Result<Option<Found>, NoMemory> {
    if look.scope.fixed().is_empty() {
        return Ok(None);
    }
    match load_at(look, all, &aim) {
        Some(op) => search_by(alloc, look, aim, op),
        None => Ok(None),
    }
}

// The one of the lesser bound.
fn better(a: Option<Found>, b: Option<Found>) -> Option<Found> {
    match (a, b) {
        (Some(one), Some(other)) => {
            if other.bound() < one.bound() {
                Some(other)
            } else {
                Some(one)
            }
        }
        (None, b) => b,
        (a, None) => a,
    }
}

// The walk of the least bound.
fn best_walk(alloc: Global, look: &Look<'_>, kinds: WalkKinds) -> Result<Option<Found>, NoMemory> {
    let Some(all) = walk_of(alloc, look, &all_begun(look.words))? else {
        return Ok(None);
    };
    let aims = aims_of(alloc, look, &all)?;
    let mut best = None;
    for aim in &aims {
        if matches!(kinds, WalkKinds::All) {
            best = better(best, walk_by(alloc, look, *aim)?);
        }
        best = better(best, searched(alloc, look, &all, *aim)?);
    }
    Ok(best)
}

// A place by its number.
fn place_of(words: &Words, place: u8) -> WalkPlace {
    if place < FIRST_WORD {
        return WalkPlace::Register(place);
    }
    match words.numbers.get(usize::from(place - FIRST_WORD)) {
        Some(number) => WalkPlace::Word(*number),
        None => WalkPlace::Register(place),
    }
}

// The places of an address, the second of which may be the first one again.
#[derive(Clone, Copy)]
struct Pair {
    first: u8,
    second: Option<u8>,
}

impl Pair {
    fn of(aim: &Value) -> Pair {
        Pair {
            first: aim.first.place,
            second: if aim.second.times > 0 {
                Some(aim.second.place)
            } else {
                None
            },
        }
    }
}

// A value as a table has it.
fn trace_of(pair: Pair, value: Value) -> Trace {
    let more = if value.more == 0 {
        Arc::strided(u64::from(value.low), 0, 0)
    } else {
        Arc::of(u64::from(value.low), u64::from(value.more))
    };
    Trace {
        firsts: value.times(pair.first),
        seconds: match pair.second {
            Some(place) => value.times(place),
            None => 0,
        },
        more,
    }
}

fn traced_in(pair: Pair, value: Option<Value>) -> Option<Trace> {
    match value {
        Some(value) => Some(trace_of(pair, value)),
        None => None,
    }
}

// What is known of registers before a node.
fn row_of(alloc: Global, pair: Pair, known: &Standing) -> Result<Vec<Option<Trace>>, NoMemory> {
    let mut row = Vec::new(alloc);
    for value in known.row {
        row.push(traced_in(pair, value))?;
    }
    Ok(row)
}

// And of words.
fn words_of(
    alloc: Global,
    pair: Pair,
    words: &Words,
    known: &Standing,
) -> Result<Vec<WordTrace>, NoMemory> {
    let mut row = Vec::new(alloc);
    for j in 0..words.numbers.len() {
        if let Some(trace) = traced_in(pair, known.word(j)) {
            row.push(WordTrace {
                number: words.numbers[j],
                trace,
            })?;
        }
    }
    Ok(row)
}

// What is known at the nodes of a program.
#[derive(Drop)]
struct Rows {
    rows: Vec<Vec<Option<Trace>>>,
    words: Vec<Vec<WordTrace>>,
    touched: Vec<bool>,
    holders: Vec<Option<u8>>,
}

// The rows of a node.
fn add_rows(
    alloc: Global,
    all: &mut Rows,
    pair: Pair,
    words: &Words,
    known: Option<Standing>,
) -> Result<(), NoMemory> {
    match known {
        Some(known) => {
            all.rows.push(row_of(alloc, pair, &known)?)?;
            all.words.push(words_of(alloc, pair, words, &known)?)?;
            all.touched.push(known.touched)?;
            all.holders.push(known.holder)?;
        }
        None => {
            all.rows.push(Vec::new(alloc))?;
            all.words.push(Vec::new(alloc))?;
            all.touched.push(false)?;
            all.holders.push(None)?;
        }
    }
    Ok(())
}

// The rows of a walk.
fn rows_of(alloc: Global, look: &Look<'_>, found: &Found) -> Result<Rows, NoMemory> {
    let mut all = Rows {
        rows: Vec::new(alloc),
        words: Vec::new(alloc),
        touched: Vec::new(alloc),
        holders: Vec::new(alloc),
    };
    let pair = Pair::of(&found.aim);
    for k in 0..look.scope.body.len() {
        let known = found.walk.at(look.numbers.of(k));
        add_rows(alloc, &mut all, pair, look.words, known)?;
    }
    Ok(all)
}

// The table of a walk.
fn table_of(alloc: Global, look: &Look<'_>, found: Found) -> Result<WalkTable, NoMemory> {
    let Rows {
        rows,
        words,
        touched,
        holders,
    } = rows_of(alloc, look, &found)?;
    let Found {
        aim,
        way,
        walk: _,
        start,
        sought,
        ground,
        width,
    } = found;
    let Ground {
        place,
        intervals,
        longest: _,
    } = ground;
    let second = if aim.second.times > 0 {
        aim.second.place
    } else {
        aim.first.place
    };
    Ok(WalkTable {
        first: place_of(look.words, aim.first.place),
        first_factor: aim.first.times,
        second: place_of(look.words, second),
        second_factor: aim.second.times,
        at: aim.low,
        down: way.down,
        least: way.least,
        spread: way.spread,
        width,
        place,
        start,
        sought,
        ground: intervals,
        body: look.scope.body.clone()?,
        rows,
        words,
        touched,
        holders,
        quiet: quiet_of(alloc, look.scope)?,
    })
}

/// A table of a walk of a loop, of the least bound that is found; none where no pointer is found that each turn uses and moves on.
pub fn find_walk(
    alloc: Global,
    scope: &Scope<'_>,
    kinds: WalkKinds,
) -> Result<Option<WalkTable>, NoMemory> {
    if scope.nodes.len() > MOST_NODES {
        return Ok(None);
    }
    let numbers = Numbers::new(alloc, scope)?;
    let words = Words::of(alloc, scope)?;
    let look = Look {
        scope,
        words: &words,
        numbers: &numbers,
        aim: None,
        sought: None,
    };
    match best_walk(alloc, &look, kinds)? {
        Some(found) => Ok(Some(table_of(alloc, &look, found)?)),
        None => Ok(None),
    }
}
