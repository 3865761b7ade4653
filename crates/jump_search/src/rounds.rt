//! The tables of all jumps: rounds of an analysis in which each jump leads where the round before has found, until nothing changes.

use crate::copies::{copy_of, places_of};
use crate::plain::plain_text;
use crate::reasons::{OpenJump, Reason};
use crate::tables::joined;
use crate::tracing::Tracer;
use code_graph::build_graph;
use code_text::instr_at;
use elf_image::ImageView;
use elf_view::read_image;
use fixed_tables::{Table, entries_of};
use flow_graph::CodeGraph;
use scale_base::{Instr, NoMemory, Stop};
use std::alloc::Global;
use value_analysis::analyse;

/// So many rounds are made.
const MOST_ROUNDS: usize = 32;

/// So many jumps are tried one after the other.
const MOST_TRIED: usize = 128;

/// A jump file has at most so many jumps, and a jump at most so many targets.
const MOST_JUMPS: usize = 1024;

const MOST_TARGETS: usize = 128;

/// A drafted file has at most so many targets.
const MOST_IN_FILE: usize = 32_768;

/// A jump whose table is found, with its targets in ascending order.
#[derive(Drop)]
pub struct FoundJump {
    pub at: u32,
    pub table: Table,
    pub targets: Vec<u32>,
}

/// The jumps whose tables are found, and those of which it is known why none is, both in ascending order.
#[derive(Drop)]
pub struct FoundJumps {
    pub jumps: Vec<FoundJump>,
    pub others: Vec<OpenJump>,
}

impl FoundJumps {
    /// Nothing is found.
    pub fn none(alloc: Global) -> FoundJumps {
        FoundJumps {
            jumps: Vec::new(alloc),
            others: Vec::new(alloc),
        }
    }

    /// The table of a jump.
    fn table(&self, at: u32) -> Option<Table> {
        let place = self.jumps.binary_search_by(|jump| jump.at.cmp(&at)).ok()?;
        Some(self.jumps.get(place)?.table)
    }

    /// Why a jump has none.
    pub fn reason(&self, at: u32) -> Option<Reason> {
        let place = self
            .others
            .binary_search_by(|other| other.at.cmp(&at))
            .ok()?;
        Some(self.others.get(place)?.reason)
    }
}

/// A round: the image, its copy with the graph and the intervals of that, and what the round before has found.
#[derive(Clone, Copy)]
struct Look<'a> {
    view: &'a ImageView<'a>,
    copy: &'a ImageView<'a>,
    graph: &'a CodeGraph,
    tracer: &'a Tracer<'a>,
    before: &'a FoundJumps,
}

// The targets of a table: words of the text, ascending, each once.
fn targets_of(
    alloc: Global,
    view: &ImageView<'_>,
    table: Table,
) -> Result<Result<Vec<u32>, Reason>, NoMemory> {
    let Some(mut entries) = entries_of(alloc, view, table)? else {
        return Ok(Err(Reason::NotFixed));
    };
    if !entries.iter().all(|entry| view.is_text_word(*entry)) {
        return Ok(Err(Reason::OutsideText));
    }
    entries.sort()?;
    entries.dedup();
    if entries.len() > MOST_TARGETS {
        return Ok(Err(Reason::TooMany));
    }
    Ok(Ok(entries))
}

// The register of a jump that can be lowered.
fn register_at(view: &ImageView<'_>, at: u32) -> Result<u8, Reason> {
    let _file = view.file();
    match instr_at(view, at) {
        Some(Instr::Jalr { rd, rs1, offset }) => {
            if rd != 0 {
                Err(Reason::Call)
            } else if offset != 0 || rs1 < 2 {
                Err(Reason::OddForm)
            } else {
                Ok(rs1)
            }
        }
        _ => Err(Reason::OddForm),
    }
}

impl Look<'_> {
    // The node of a jump that a run may come to.
    fn node(&self, at: u32) -> Result<usize, Reason> {
        match self.graph.find(at) {
            Some(node) if self.tracer.is_live(node) => Ok(node),
            _ => Err(Reason::NotReached),
        }
    }

    // Whether a jump is neither listed nor an end: then it is lowered with the word before it.
    fn is_far(&self, at: u32) -> bool {
        let _file = self.copy.file();
        let ends = matches!(instr_at(self.copy, at), Some(Instr::Ebreak));
        !ends && self.before.table(at).is_none()
    }

    // The table of a jump, with what was found of it before.
    fn table(&self, alloc: Global, at: u32) -> Result<Result<Table, Reason>, NoMemory> {
        if let Some(reason) = self.before.reason(at)
            && reason.is_open()
        {
            return Ok(Err(reason));
        }
        if self.is_far(at) {
            return Ok(Err(Reason::FarJump));
        }
        let node = match self.node(at) {
            Ok(node) => node,
            Err(reason) => return Ok(Err(reason)),
        };
        let register = match register_at(self.view, at) {
            Ok(register) => register,
            Err(reason) => return Ok(Err(reason)),
        };
        let table = match self.tracer.table_at(alloc, node, register)? {
            Ok(table) => table,
            Err(reason) => return Ok(Err(reason)),
        };
        Ok(match self.before.table(at) {
            Some(other) => joined(other, table).ok_or(Reason::NoTable),
            None => Ok(table),
        })
    }

    // What is found of a jump.
    fn jump(&self, alloc: Global, at: u32) -> Result<Result<FoundJump, Reason>, NoMemory> {
        let table = match self.table(alloc, at)? {
            Ok(table) => table,
            Err(reason) => return Ok(Err(reason)),
        };
        Ok(match targets_of(alloc, self.view, table)? {
            Ok(targets) => Ok(FoundJump { at, table, targets }),
            Err(reason) => Err(reason),
        })
    }

    // What is found of all jumps, as long as they fit into a file.
    fn all(&self, alloc: Global, places: &[u32]) -> Result<FoundJumps, NoMemory> {
        let mut found = FoundJumps::none(alloc);
        let mut room = MOST_IN_FILE;
        for at in places {
            match self.jump(alloc, *at)? {
                Ok(jump) if found.jumps.len() < MOST_JUMPS && jump.targets.len() <= room => {
                    room -= jump.targets.len();
                    found.jumps.push(jump)?;
                }
                Ok(_) => found.others.push(OpenJump {
                    at: *at,
                    reason: Reason::TooMany,
                })?,
                Err(reason) => found.others.push(OpenJump { at: *at, reason })?,
            }
        }
        Ok(found)
    }
}

// Whether the tables are the same.
fn are_same(one: &FoundJumps, other: &FoundJumps) -> bool {
    one.jumps.len() == other.jumps.len()
        && one
            .jumps
            .iter()
            .zip(&other.jumps)
            .all(|(a, b)| a.at == b.at && a.table == b.table)
}

// What is found in the graph of a copy.
fn find_in(
    alloc: Global,
    view: &ImageView<'_>,
    copy: &ImageView<'_>,
    places: &[u32],
    before: &FoundJumps,
) -> Result<Option<FoundJumps>, NoMemory> {
    let graph = match build_graph(alloc, copy) {
        Ok(graph) => graph,
        Err(Stop::Refused(_)) => return Ok(None),
        Err(Stop::Memory) => return Err(NoMemory),
    };
    let tables = analyse(alloc, copy, &graph)?;
    let tracer = Tracer::new(alloc, copy, &graph, &tables, places.len())?;
    let look = Look {
        view,
        copy,
        graph: &graph,
        tracer: &tracer,
        before,
    };
    Ok(Some(look.all(alloc, places)?))
}

// What a round finds.
fn find_once(
    alloc: Global,
    view: &ImageView<'_>,
    places: &[u32],
    before: &FoundJumps,
) -> Result<Option<FoundJumps>, NoMemory> {
    let file = plain_text(alloc, before)?;
    let Some(bytes) = copy_of(alloc, view.file(), file.as_bytes())? else {
        return Ok(None);
    };
    let copy = match read_image(alloc, &bytes) {
        Ok(copy) => copy,
        Err(Stop::Refused(_)) => return Ok(None),
        Err(Stop::Memory) => return Err(NoMemory),
    };
    find_in(alloc, view, &copy, places, before)
}

// All jumps are open, for one reason.
fn all_open(alloc: Global, places: &[u32], reason: Reason) -> Result<FoundJumps, NoMemory> {
    let mut found = FoundJumps::none(alloc);
    for at in places {
        found.others.push(OpenJump { at: *at, reason })?;
    }
    Ok(found)
}

// Whether the graph of a copy is made.
fn has_graph_of(alloc: Global, copy: &ImageView<'_>) -> Result<bool, NoMemory> {
    match build_graph(alloc, copy) {
        Ok(_) => Ok(true),
        Err(Stop::Refused(_)) => Ok(false),
        Err(Stop::Memory) => Err(NoMemory),
    }
}

// Whether the graph is made with the jumps that are found.
fn has_graph(alloc: Global, view: &ImageView<'_>, found: &FoundJumps) -> Result<bool, NoMemory> {
    let file = plain_text(alloc, found)?;
    let Some(bytes) = copy_of(alloc, view.file(), file.as_bytes())? else {
        return Ok(false);
    };
    match read_image(alloc, &bytes) {
        Ok(copy) => has_graph_of(alloc, &copy),
        Err(Stop::Refused(_)) => Ok(false),
        Err(Stop::Memory) => Err(NoMemory),
    }
}

// The jumps that are found, one after the other, without those with which the graph can't be made.
fn fitting(
    alloc: Global,
    view: &ImageView<'_>,
    found: &FoundJumps,
) -> Result<FoundJumps, NoMemory> {
    let mut kept = FoundJumps::none(alloc);
    for jump in &found.jumps {
        kept.jumps.push(FoundJump {
            at: jump.at,
            table: jump.table,
            targets: Vec::from_slice(alloc, &jump.targets)?,
        })?;
        if !has_graph(alloc, view, &kept)? {
            let _ = kept.jumps.pop();
        }
    }
    Ok(kept)
}

// What is found without the jumps with which the graph can't be made. None where it is all of it, or too much to try.
fn find_fitting(
    alloc: Global,
    view: &ImageView<'_>,
    places: &[u32],
    found: &FoundJumps,
) -> Result<Option<FoundJumps>, NoMemory> {
    if found.jumps.len() > MOST_TRIED {
        return Ok(None);
    }
    let mut kept = fitting(alloc, view, found)?;
    if kept.jumps.len() == found.jumps.len() {
        return Ok(None);
    }
    for place in places {
        if kept.table(*place).is_none() {
            let reason = found.reason(*place).unwrap_or(Reason::NoGraph);
            kept.others.push(OpenJump { at: *place, reason })?;
        }
    }
    Ok(Some(kept))
}

/// The jumps of an image whose tables are found.
pub fn find_jumps(alloc: Global, view: &ImageView<'_>) -> Result<FoundJumps, NoMemory> {
    let places = places_of(alloc, view)?;
    let mut found = FoundJumps::none(alloc);
    for _ in 0..MOST_ROUNDS {
        let (other, same) = match find_once(alloc, view, &places, &found)? {
            Some(other) => {
                let same = are_same(&found, &other);
                (other, same)
            }
            None => match find_fitting(alloc, view, &places, &found)? {
                Some(other) => (other, false),
                None => return all_open(alloc, &places, Reason::NoGraph),
            },
        };
        found = other;
        if same {
            return Ok(found);
        }
    }
    all_open(alloc, &places, Reason::TooLarge)
}
