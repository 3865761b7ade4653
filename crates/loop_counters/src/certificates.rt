//! Certificates of loops: a counter that each turn moves on, and the interval in which it is at the header.

ghost use Rattle.std.specs.Prelude.{◌<◌, length};

use crate::adding::{Place, arc_at_header, register_measure};
use crate::candidates::{WORDS_LOOKED_AT, counting_registers, counting_words};
use crate::limits::{Limits, limits_within};
use crate::quiet::quiet_of;
use crate::scope::Scope;
use crate::turning::find_turns;
use crate::turns::{Turns, turns_of};
use crate::unturned::{UNTURNED, is_turned, no_turns};
use crate::walks::{WalkKinds, find_walk};
use flow_graph::CodeGraph;
use loop_forest::LoopTree;
use scale_base::NoMemory;
use shown_bounds::{StackCertificate, StackCounter};
use stack_tables::StackClaim;
use std::alloc::Global;
use turn_checks::{TurnKind, TurnPlace, TurnTable};
use value_analysis::Tables;
use walk_checks::{WalkPlace, WalkTable};
use wrapped_intervals::Measure;

/// Bounds from here on say nothing.
const NO_BOUND: u32 = 0x8000_0000;

/// Where a certificate has such a bound, a walk up to a 0 in constant bytes is looked at, too.
const NEAR: u32 = 16;

/// And from such a bound on, each walk through memory.
const FAR: u32 = 1024;

/// A walk of such a bound is worth no more than a counter, but one of so many turns, which no file may have.
const FARTHEST: u32 = 16_384;

const MOST_TURNS: u32 = 1_000_000_000;

/// How many nodes and edges are looked at for walks of all loops together.
const WALK_WORK: u64 = 50_000_000;

/// No number of a register.
const NO_MEASURE: Measure = Measure {
    register: 1,
    factor: 0,
    other: 1,
    other_factor: 0,
    shift: 0,
};

/// A program whose loops are bounded: its loops, what is proposed of it, and how many bytes its input has at most, where that is known.
#[derive(Clone, Copy)]
pub struct LoopProgram<'a> {
    pub tree: &'a LoopTree,
    pub tables: &'a Tables,
    pub most: Option<u32>,
}

/// The best counter so far, and what the turns add to it.
#[derive(Drop)]
struct Choice {
    place: Place,
    limits: Limits,
    turns: Turns,
}

// Takes a counter if its bound is less.
fn better(best: Option<Choice>, other: Choice) -> Option<Choice> {
    match best {
        Some(choice) if choice.limits.bound() <= other.limits.bound() => Some(choice),
        _ => Some(other),
    }
}

// A place as a counter, where the turns move it on between limits that are known.
fn counter_at(alloc: Global, scope: &Scope<'_>, place: Place) -> Result<Option<Choice>, NoMemory> {
    let Some(arc) = arc_at_header(scope, place) else {
        return Ok(None);
    };
    let Some(turns) = turns_of(alloc, scope, place)? else {
        return Ok(None);
    };
    match limits_within(arc, &turns) {
        Some(limits) => Ok(Some(Choice {
            place,
            limits,
            turns,
        })),
        None => Ok(None),
    }
}

// The register of the least bound.
fn choose_register(alloc: Global, scope: &Scope<'_>) -> Result<Option<Choice>, NoMemory> {
    let counting = counting_registers(scope);
    let mut best = None;
    for r in 1..32 {
        if counting[usize::from(r)] {
            if let Some(choice) = counter_at(alloc, scope, Place::Register(r))? {
                best = better(best, choice);
            }
        }
    }
    Ok(best)
}

// The word of the stack of the least bound, if that is less than the one of a register.
fn choose_word(
    alloc: Global,
    scope: &Scope<'_>,
    register: Option<Choice>,
) -> Result<Option<Choice>, NoMemory> {
    let counting = counting_words(scope);
    let mut best = register;
    for number in 0..WORDS_LOOKED_AT {
        if counting[number] {
            if let Some(choice) = counter_at(alloc, scope, Place::Word(number as u32))? {
                best = better(best, choice);
            }
        }
    }
    Ok(best)
}

// A sum of two registers as a counter, where it goes up from 0.
fn counter_in_sum(alloc: Global, scope: &Scope<'_>, j: usize) -> Result<Option<Choice>, NoMemory> {
    let Some(m) = scope.form(j) else {
        return Ok(None);
    };
    match counter_at(alloc, scope, Place::Sum(m))? {
        Some(choice) if !choice.limits.falls && choice.limits.start == 0 => Ok(Some(choice)),
        _ => Ok(None),
    }
}

// The sum of two registers of the least bound, if that is less than the one of a place.
fn choose_sum(
    alloc: Global,
    scope: &Scope<'_>,
    place: Option<Choice>,
) -> Result<Option<Choice>, NoMemory> {
    let mut best = place;
    for line in scope.lines(scope.header) {
        if let Some(choice) = counter_in_sum(alloc, scope, line.form)? {
            best = better(best, choice);
        }
    }
    Ok(best)
}

// The counter as a certificate has it: it goes up from 0.
fn counter_of(place: Place, limits: &Limits) -> StackCounter {
    let (factor, shift) = if limits.falls {
        (u32::MAX, limits.start)
    } else {
        (1, limits.start.wrapping_neg())
    };
    match place {
        Place::Register(r) => StackCounter::InRegisters(Measure {
            factor,
            shift,
            ..register_measure(r)
        }),
        Place::Sum(m) => StackCounter::InRegisters(m),
        Place::Word(number) => StackCounter::InWord {
            number,
            factor,
            shift,
        },
    }
}

fn certificate_of(
    alloc: Global,
    scope: &Scope<'_>,
    choice: Choice,
) -> Result<StackCertificate, NoMemory> {
    let quiet = quiet_of(alloc, scope)?;
    let Choice {
        place,
        limits,
        mut turns,
    } = choice;
    if limits.falls {
        turns.negate();
    }
    Ok(StackCertificate {
        counter: counter_of(place, &limits),
        width: limits.width,
        least: limits.least,
        body: scope.body.clone()?,
        adds: turns.adds,
        offset: turns.offset,
        quiet,
        turns: None,
        walk: None,
    })
}

// A certificate of a loop that no run turns, by x0.
fn unturned(alloc: Global, scope: &Scope<'_>) -> Result<StackCertificate, NoMemory> {
    let turns = no_turns(alloc, scope)?;
    let choice = Choice {
        place: Place::Register(0),
        limits: UNTURNED,
        turns,
    };
    certificate_of(alloc, scope, choice)
}

// A certificate by what each turn does.
fn certificate_by(alloc: Global, table: TurnTable) -> StackCertificate {
    StackCertificate {
        counter: counter_by(&table),
        width: table.width,
        least: table.least,
        body: Vec::new(alloc),
        adds: Vec::new(alloc),
        offset: Vec::new(alloc),
        quiet: Vec::new(alloc),
        turns: Some(table),
        walk: None,
    }
}

// What is counted in, by what each turn does.
fn counter_by(table: &TurnTable) -> StackCounter {
    let (factor, shift) = match table.kind {
        TurnKind::Moves(factor, shift) => (factor, shift),
        TurnKind::Lowers => (u32::MAX, 0),
        TurnKind::Raises(from) => (1, from.wrapping_neg()),
        TurnKind::Halves(_) => (u32::MAX, 0),
    };
    match table.place {
        TurnPlace::Register(r) => StackCounter::InRegisters(Measure {
            factor,
            shift,
            ..register_measure(r)
        }),
        TurnPlace::Word(number) => StackCounter::InWord {
            number,
            factor,
            shift,
        },
        TurnPlace::Input => StackCounter::InRegisters(NO_MEASURE),
    }
}

// The bound of a counter.
fn bound_of(counter: &Option<Choice>) -> Option<u32> {
    match counter {
        Some(choice) => Some(choice.limits.bound()),
        None => None,
    }
}

// A certificate by a counter, or by what each turn does, of the least bound that is found.
fn counted(
    alloc: Global,
    scope: &Scope<'_>,
    most: Option<u32>,
) -> Result<Option<StackCertificate>, NoMemory> {
    let register = choose_register(alloc, scope)?;
    let place = choose_word(alloc, scope, register)?;
    let counter = choose_sum(alloc, scope, place)?;
    if let Some(table) = find_turns(alloc, scope, most, bound_of(&counter))? {
        return Ok(Some(certificate_by(alloc, table)));
    }
    match counter {
        Some(choice) if choice.limits.bound() < NO_BOUND => {
            Ok(Some(certificate_of(alloc, scope, choice)?))
        }
        _ => Ok(None),
    }
}

// What is added to a register in a pointer.
fn other_of(table: &WalkTable, factor: u32) -> (u8, u32) {
    match table.second {
        WalkPlace::Register(r) => {
            if table.second_factor == 0 {
                (0, 0)
            } else {
                (r, factor)
            }
        }
        WalkPlace::Word(_) => (0, 0),
    }
}

// The pointer of a walk.
fn pointer_of(table: &WalkTable) -> StackCounter {
    let factor = if table.down { u32::MAX } else { 1 };
    let (other, other_factor) = other_of(table, factor);
    match table.first {
        WalkPlace::Register(register) => StackCounter::InRegisters(Measure {
            register,
            factor,
            other,
            other_factor,
            shift: 0,
        }),
        WalkPlace::Word(number) => StackCounter::InWord {
            number,
            factor,
            shift: 0,
        },
    }
}

// A certificate by a walk through memory.
fn walked(alloc: Global, table: WalkTable) -> StackCertificate {
    StackCertificate {
        counter: pointer_of(&table),
        width: table.width,
        least: table.least,
        body: Vec::new(alloc),
        adds: Vec::new(alloc),
        offset: Vec::new(alloc),
        quiet: Vec::new(alloc),
        turns: None,
        walk: Some(table),
    }
}

// A certificate by a walk of one of the kinds that are looked at, where one is found.
fn by_walk(
    alloc: Global,
    scope: &Scope<'_>,
    kinds: WalkKinds,
) -> Result<Option<StackCertificate>, NoMemory> {
    match find_walk(alloc, scope, kinds)? {
        Some(table) => Ok(Some(walked(alloc, table))),
        None => Ok(None),
    }
}

// How many turns a certificate shows at most.
fn turns_shown(certificate: &StackCertificate) -> u32 {
    certificate
        .width
        .checked_div(certificate.least)
        .unwrap_or(u32::MAX)
}

// Which walks are looked at, by the bound of the certificate that is found.
fn kinds_beside(found: &Option<StackCertificate>) -> Option<WalkKinds> {
    match found {
        Some(certificate) => {
            let bound = turns_shown(certificate);
            if bound < NEAR {
                None
            } else if bound < FAR {
                Some(WalkKinds::ToZero)
            } else {
                Some(WalkKinds::All)
            }
        }
        None => Some(WalkKinds::All),
    }
}

// Whether a walk's bound is worth more than a counter's.
fn is_nearer(walk: u32, counter: u32) -> bool {
    walk < counter && (walk < FARTHEST || counter >= MOST_TURNS)
}

// A certificate by a counter, or one by a walk, where that is worth more.
fn nearer(
    found: Option<StackCertificate>,
    walk: Option<StackCertificate>,
) -> Option<StackCertificate> {
    match (found, walk) {
        (Some(one), Some(other)) => {
            if is_nearer(turns_shown(&other), turns_shown(&one)) {
                Some(other)
            } else {
                Some(one)
            }
        }
        (None, walk) => walk,
        (found, None) => found,
    }
}

/// How many loops of a graph are looked at, where so many nodes and edges are for all of them together.
pub fn loops_within(graph: &CodeGraph, work: u64) -> usize {
    let size = graph.node_count().saturating_add(graph.edge_count()).max(1);
    (work / size as u64) as usize
}

/// A certificate of loop `k` of a program, of the least bound that is found, by a counter, or by a walk where that has none or one that isn't near.
pub fn find_certificate(
    alloc: Global,
    claim: &StackClaim<'_>,
    program: LoopProgram<'_>,
    k: usize,
) -> Result<Option<StackCertificate>, NoMemory> {
    let LoopProgram { tree, tables, most } = program;
    if k >= tree.loop_count() {
        return Ok(None);
    }
    let scope = Scope::new(alloc, claim, tables, tree.header(k), tree.body(k))?;
    if !scope.begins_at_header() {
        return Ok(None);
    }
    if !is_turned(&scope) {
        return Ok(Some(unturned(alloc, &scope)?));
    }
    let found = counted(alloc, &scope, most)?;
    let Some(kinds) = kinds_beside(&found) else {
        return Ok(found);
    };
    if k >= loops_within(claim.graph, WALK_WORK) {
        return Ok(found);
    }
    Ok(nearer(found, by_walk(alloc, &scope, kinds)?))
}
