//! Tables of what each turn of a loop makes of a number.

ghost use Rattle.std.specs.Prelude.{◌<◌, length};

use crate::quiet::quiet_of;
use crate::relating::{Known, behind, is_read, is_used_on, on_way, taken_on, target_of};
use crate::scope::Scope;
use crate::stores::stored_word;
use scale_base::{ImmOp, Instr, NoMemory, RegOp};
use std::alloc::Global;
use turn_checks::{Relation, TurnKind, TurnPlace, TurnTable};
use wrapped_intervals::Arc;

/// How many nodes of a loop are looked at, how many places, and how often.
const MOST_NODES: usize = 2048;

const MOST_PLACES: usize = 24;

const PASSES: usize = 6;

/// From this pass on, what changes is forgotten.
const LAST_PASSES: usize = 2;

/// Bounds from here on say nothing.
const NO_BOUND: u32 = 0x8000_0000;

/// Where a counter has such a bound, it is looked at what else turns do: that of a pointer may be the size of its segment.
const WIDE: u32 = 16;

/// What is known at the nodes of a loop, in the order of its nodes, by one place; and what is so of the place at the end of its turns.
#[derive(Drop)]
struct Flow {
    known: Vec<Option<Known>>,
    end: Option<Relation>,
    used: bool,
    changed: bool,
    // Whether what changes is forgotten.
    ends: bool,
}

/// By node of the program its number in the loop.
#[derive(Drop)]
pub struct Numbers {
    of_node: Vec<u32>,
}

impl Numbers {
    /// Those of a loop.
    pub fn new(alloc: Global, scope: &Scope<'_>) -> Result<Numbers, NoMemory> {
        let mut of_node = vec![in alloc; u32::MAX; scope.body.len()]?;
        let mut number = 0u32;
        for k in scope.nodes {
            if *k < of_node.len() {
                of_node[*k] = number;
            }
            number = number.saturating_add(1);
        }
        Ok(Numbers { of_node })
    }

    /// That of a node.
    pub fn of(&self, k: usize) -> usize {
        match self.of_node.get(k) {
            Some(number) => *number as usize,
            None => usize::MAX,
        }
    }
}

impl Flow {
    fn new(alloc: Global, count: usize) -> Result<Flow, NoMemory> {
        Ok(Flow {
            known: vec![in alloc; None; count]?,
            end: None,
            used: true,
            changed: false,
            ends: false,
        })
    }

    fn at(&self, number: usize) -> Option<Known> {
        self.known.get(number).copied().flatten()
    }

    // Takes what a way to a node of the loop says.
    fn arrive(&mut self, number: usize, then: &Known) {
        if number >= self.known.len() {
            return;
        }
        match self.known[number] {
            Some(known) => {
                let mut known = known;
                if known.join(then, self.ends) {
                    self.known[number] = Some(known);
                    self.changed = true;
                }
            }
            None => {
                self.known[number] = Some(*then);
                self.changed = true;
            }
        }
    }

    // Takes what a way to the header says.
    fn turn(&mut self, relation: Relation, used: bool) {
        self.used = self.used && used;
        self.end = match self.end {
            Some(end) => Some(crate::relating::joined(end, relation)),
            None => Some(relation),
        };
    }
}

// What is known on the way from a node to another, by what is known before and behind the node's instruction, if a run may go there.
fn known_to(
    scope: &Scope<'_>,
    known: &Known,
    behind: &Known,
    k: usize,
    to: usize,
) -> Option<Known> {
    if scope.callee_of(k).is_some() {
        return Some(*behind);
    }
    if scope.is_never(k, to) {
        return None;
    }
    let mut then = if to == scope.header {
        *behind
    } else {
        on_way(scope, behind, k, to)
    };
    then.used = is_used_on(scope, known, k, to);
    then.own = taken_on(scope, known, then.own, k, to);
    Some(then)
}

// What a node's ways say.
fn flow_from(flow: &mut Flow, scope: &Scope<'_>, numbers: &Numbers, place: TurnPlace, k: usize) {
    let Some(known) = flow.at(numbers.of(k)) else {
        return;
    };
    if !scope.is_live(k) {
        return;
    }
    let then = behind(scope, place, &known, k);
    for to in scope.targets_of(k) {
        if let Some(to) = to {
            match known_to(scope, &known, &then, k, to) {
                Some(then) if to == scope.header => flow.turn(then.at_place(place), then.used),
                Some(then) if scope.is_in_body(to) => flow.arrive(numbers.of(to), &then),
                _ => {}
            }
        }
    }
}

// What is known by a place, if that comes to an end.
fn flow_of(
    alloc: Global,
    scope: &Scope<'_>,
    numbers: &Numbers,
    place: TurnPlace,
    first: Relation,
) -> Result<Option<Flow>, NoMemory> {
    let mut flow = Flow::new(alloc, scope.nodes.len())?;
    flow.arrive(numbers.of(scope.header), &Known::begun(place, first));
    for pass in 0..PASSES {
        flow.changed = false;
        flow.end = None;
        flow.used = true;
        flow.ends = pass >= LAST_PASSES;
        for k in scope.nodes {
            flow_from(&mut flow, scope, numbers, place, *k);
        }
        if !flow.changed {
            return Ok(Some(flow));
        }
    }
    Ok(None)
}

/// How the turns are counted, and by how much.
#[derive(Clone, Copy)]
struct Measured {
    kind: TurnKind,
    least: u32,
    width: u32,
}

impl Measured {
    fn bound(&self) -> u32 {
        self.width.checked_div(self.least).unwrap_or(u32::MAX)
    }
}

// The lesser of both bounds.
fn better(a: Option<Measured>, b: Option<Measured>) -> Option<Measured> {
    match (a, b) {
        (Some(one), Some(other)) => { if other.bound() < one.bound() { b } else { a } }
        (None, _) => b,
        (_, None) => a,
    }
}

// Turns that move a number on by so much at least, and so much more at most.
fn moving(kind: TurnKind, least: u32, more: u32, width: u32) -> Option<Measured> {
    let most = least.checked_add(more)?;
    most.checked_add(width)?;
    if least == 0 {
        return None;
    }
    Some(Measured { kind, least, width })
}

// The place's interval at the header.
fn place_arc(scope: &Scope<'_>, place: TurnPlace) -> Option<Arc> {
    match place {
        TurnPlace::Register(r) => scope.arc(scope.header, r),
        TurnPlace::Word(number) => scope.word_arc(scope.header, number),
        TurnPlace::Input => None,
    }
}

// How turns are counted that move a number of the interval on.
fn moved(scope: &Scope<'_>, place: TurnPlace, flow: &Flow) -> Option<Measured> {
    let arc = place_arc(scope, place)?;
    let start = u32::try_from(arc.low()).ok()?;
    let width = u32::try_from(arc.more()).ok()?;
    let Some(Relation::Ahead(low, more)) = flow.end else {
        return None;
    };
    let up = moving(TurnKind::Moves(1, start.wrapping_neg()), low, more, width);
    let least = low.wrapping_add(more).wrapping_neg();
    let last = start.wrapping_add(width);
    better(
        up,
        moving(TurnKind::Moves(u32::MAX, last), least, more, width),
    )
}

// The greatest number that the place has at the header.
fn place_top(scope: &Scope<'_>, place: TurnPlace) -> u32 {
    match place_arc(scope, place) {
        Some(arc) => u32::try_from(arc.low().saturating_add(arc.more())).unwrap_or(u32::MAX),
        None => u32::MAX,
    }
}

// How turns are counted that add something to a number.
fn raised(scope: &Scope<'_>, place: TurnPlace, flow: &Flow) -> Option<Measured> {
    let Some(Relation::Above(least)) = flow.end else {
        return None;
    };
    let arc = place_arc(scope, place)?;
    let from = u32::try_from(arc.low()).ok()?;
    let width = u32::try_from(arc.more()).ok()?;
    from.checked_add(width)?;
    if least == 0 {
        return None;
    }
    Some(Measured {
        kind: TurnKind::Raises(from),
        least,
        width,
    })
}

// How turns are counted that lower a number or halve it.
fn reduced(scope: &Scope<'_>, place: TurnPlace, flow: &Flow) -> Option<Measured> {
    let Some(Relation::Below(less, shift)) = flow.end else {
        return None;
    };
    let top = place_top(scope, place);
    let bits = 32u32.saturating_sub(top.leading_zeros());
    let lowers = if less > 0 {
        Some(Measured {
            kind: TurnKind::Lowers,
            least: less,
            width: top,
        })
    } else {
        None
    };
    let halves = if shift > 0 && flow.used {
        Some(Measured {
            kind: TurnKind::Halves(bits),
            least: shift,
            width: bits.saturating_add(shift).saturating_sub(1),
        })
    } else {
        None
    };
    better(lowers, halves)
}

/// A place with what the turns do to it, and what was known at the header.
#[derive(Clone, Copy)]
struct Found {
    place: TurnPlace,
    first: Relation,
    measured: Measured,
}

// The better one of what was found and what a place gives.
fn best_of(
    alloc: Global,
    scope: &Scope<'_>,
    numbers: &Numbers,
    place: TurnPlace,
    best: Option<Found>,
) -> Result<Option<Found>, NoMemory> {
    let mut best = best;
    for first in [
        Relation::Ahead(0, 0),
        Relation::Below(0, 0),
        Relation::Above(0),
    ] {
        if let Some(flow) = flow_of(alloc, scope, numbers, place, first)? {
            let risen = better(moved(scope, place, &flow), raised(scope, place, &flow));
            let measured = better(risen, reduced(scope, place, &flow));
            if let Some(measured) = measured {
                let bound = match best {
                    Some(found) => found.measured.bound(),
                    None => NO_BOUND,
                };
                if measured.bound() < bound {
                    best = Some(Found {
                        place,
                        first,
                        measured,
                    });
                }
            }
        }
    }
    Ok(best)
}

// Whether an instruction may move, lower or halve what it writes.
fn is_counting(instr: Instr) -> bool {
    match instr {
        Instr::Imm { op, .. } => {
            matches!(&op, ImmOp::Addi | ImmOp::Slli | ImmOp::Srli | ImmOp::Srai)
        }
        Instr::Reg { op, .. } => {
            matches!(
                &op,
                RegOp::Add
                    | RegOp::Sub
                    | RegOp::And
                    | RegOp::Mulh
                    | RegOp::Mulhu
                    | RegOp::Div
                    | RegOp::Divu
                    | RegOp::Rem
                    | RegOp::Remu
            )
        }
        _ => false,
    }
}

// Adds a place once.
fn note(places: &mut Vec<TurnPlace>, seen: &mut [bool; 96], number: usize) -> Result<(), NoMemory> {
    if number < 96 && !seen[number] && places.len() < MOST_PLACES {
        seen[number] = true;
        if number < 32 {
            places.push(TurnPlace::Register(number as u8))?;
        } else {
            places.push(TurnPlace::Word((number - 32) as u32))?;
        }
    }
    Ok(())
}

// How turns are counted that read, where an input has so many bytes at most.
fn reading(flow: &Flow, most: u32) -> Option<Measured> {
    match flow.end {
        Some(Relation::Below(least, _)) if least > 0 => Some(Measured {
            kind: TurnKind::Lowers,
            least,
            width: most,
        }),
        _ => None,
    }
}

// The better one of what was found and what is left of the input.
fn best_with_input(
    alloc: Global,
    scope: &Scope<'_>,
    numbers: &Numbers,
    most: u32,
    best: Option<Found>,
) -> Result<Option<Found>, NoMemory> {
    let (place, first) = (TurnPlace::Input, Relation::Below(0, 0));
    let Some(flow) = flow_of(alloc, scope, numbers, place, first)? else {
        return Ok(best);
    };
    let Some(measured) = reading(&flow, most) else {
        return Ok(best);
    };
    match best {
        Some(found) if found.measured.bound() <= measured.bound() => Ok(best),
        _ => Ok(Some(Found {
            place,
            first,
            measured,
        })),
    }
}

// Whether the loop reads from the input.
fn has_reads(scope: &Scope<'_>) -> bool {
    for k in scope.nodes {
        if scope.is_live(*k) && is_read(scope, *k) {
            return true;
        }
    }
    false
}

// The registers and words that the loop writes.
fn places_of(alloc: Global, scope: &Scope<'_>) -> Result<Vec<TurnPlace>, NoMemory> {
    let mut places = Vec::new(alloc);
    let mut seen = [false; 96];
    for k in scope.nodes {
        if is_counting(scope.instr(*k)) {
            note(
                &mut places,
                &mut seen,
                usize::from(target_of(scope.instr(*k))),
            )?;
        }
        if let Some(stored) = stored_word(scope, *k) {
            note(
                &mut places,
                &mut seen,
                (stored.number as usize).saturating_add(32),
            )?;
        }
    }
    Ok(places)
}

// The relations of the registers, of a node that is reached.
fn row_of(alloc: Global, known: Option<Known>) -> Result<Vec<Relation>, NoMemory> {
    let mut row = Vec::new(alloc);
    if let Some(known) = known {
        for relation in known.row {
            row.push(relation)?;
        }
    }
    Ok(row)
}

// What is known at the nodes of a program, by what is at those of the loop.
#[derive(Drop)]
struct Rows {
    rows: Vec<Vec<Relation>>,
    own: Vec<Relation>,
    used: Vec<bool>,
}

// The rows of what is known.
fn rows_of(alloc: Global, flow: &Flow, numbers: &Numbers, count: usize) -> Result<Rows, NoMemory> {
    let mut rows = Vec::new(alloc);
    let mut own = Vec::new(alloc);
    let mut used = Vec::new(alloc);
    for k in 0..count {
        let known = flow.at(numbers.of(k));
        rows.push(row_of(alloc, known)?)?;
        let known = known.unwrap_or(Known::nothing());
        own.push(known.own)?;
        used.push(known.used)?;
    }
    Ok(Rows { rows, own, used })
}

// What is so of a place at the end of its turns. Of what is left of the input, nothing is halved.
fn end_of(place: TurnPlace, end: Option<Relation>) -> Relation {
    match (place, end) {
        (TurnPlace::Input, Some(Relation::Below(less, _))) => Relation::Below(less, 0),
        (_, Some(end)) => end,
        (_, None) => Relation::Unknown,
    }
}

// The table of what was found.
fn table_of(
    alloc: Global,
    scope: &Scope<'_>,
    numbers: &Numbers,
    found: Found,
) -> Result<Option<TurnTable>, NoMemory> {
    let Some(flow) = flow_of(alloc, scope, numbers, found.place, found.first)? else {
        return Ok(None);
    };
    let Rows { rows, own, used } = rows_of(alloc, &flow, numbers, scope.body.len())?;
    Ok(Some(TurnTable {
        place: found.place,
        kind: found.measured.kind,
        width: found.measured.width,
        least: found.measured.least,
        end: end_of(found.place, flow.end),
        body: scope.body.clone()?,
        rows,
        own,
        used,
        quiet: quiet_of(alloc, scope)?,
    }))
}

// The best place of a loop, of those that it writes.
fn best_place(
    alloc: Global,
    scope: &Scope<'_>,
    numbers: &Numbers,
) -> Result<Option<Found>, NoMemory> {
    let places = places_of(alloc, scope)?;
    let mut best = None;
    for place in &places {
        best = best_of(alloc, scope, numbers, *place, best)?;
    }
    Ok(best)
}

// Whether there is a counter whose bound is less than a number.
fn is_within(counter: Option<u32>, number: u32) -> bool {
    match counter {
        Some(bound) => bound < number,
        None => false,
    }
}

/// A table of a loop's turns, of the least bound that is found: by what is left of the input, if it has so many bytes at most, and by the
/// registers and words that the loop writes, where a counter's bound is wide or there is none. None where the counter's bound is as low: a table has a row for
/// each node of the program, so that it isn't made in vain.
pub fn find_turns(
    alloc: Global,
    scope: &Scope<'_>,
    most: Option<u32>,
    counter: Option<u32>,
) -> Result<Option<TurnTable>, NoMemory> {
    if scope.nodes.len() > MOST_NODES {
        return Ok(None);
    }
    let numbers = Numbers::new(alloc, scope)?;
    let mut best = if is_within(counter, WIDE) {
        None
    } else {
        best_place(alloc, scope, &numbers)?
    };
    if let Some(most) = most {
        if has_reads(scope) {
            best = best_with_input(alloc, scope, &numbers, most, best)?;
        }
    }
    match best {
        Some(found) if !is_within(counter, found.measured.bound().saturating_add(1)) => {
            table_of(alloc, scope, &numbers, found)
        }
        _ => Ok(None),
    }
}
