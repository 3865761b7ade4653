//! The search for versions.

ghost use Rattle.std.specs.Prelude.{◌≡◌, ◌≤◌, ◌<◌, ◌+◌, ◌^◌, length, Ok};
ghost use Rattle.scale_base.specs.Image.{image_of};

use crate::building::{Plan, Region, Version, build};
use crate::candidates::Candidate;
use crate::code::Code;
use crate::counting::{Range, ranges_of};
use crate::entering::entries_of;
use crate::functions::Functions;
use crate::reading::{Read, reads_of};
use crate::regions::rest_of;
use crate::starting::may_vary;
use crate::weights::by_weight;
use elf_image::ImageView;
use elf_patch::stub_base;
use flow_graph::CodeGraph;
use loop_forest::LoopTree;
use loop_versions::are_fit;
use scale_base::NoMemory;
use std::alloc::Global;

/// As many candidates are proposed, and entries of as many loops looked for.
const MOST_CANDIDATES: usize = 32;

/// The pieces of one candidate, and of all of them.
const MOST_PIECES: usize = 4096;

const MOST_PIECES_OF_ALL: usize = 16384;

/// The greatest limit that a guard has.
const MOST_LIMIT: u64 = 2047;

/// The parts of the number of bytes and of a loop's bound that a copy may take, in sixteenths.
const PARTS_OF_READS: [u64; 3] = [11, 9, 5];

const PARTS_OF_LOOPS: [u64; 2] = [9, 5];

/// What is searched, what was found, and how many pieces that has.
#[derive(Drop)]
struct Search<'a> {
    code: &'a Code<'a>,
    functions: &'a Functions,
    found: Vec<Candidate>,
    pieces: usize,
}

// The limit of a guard: below it are the differences of so many sixteenths of the bound, in steps.
fn limit_of(bound: u32, step: u32, sixteenths: u64) -> u16 {
    let turns = u64::from(bound).saturating_mul(sixteenths) / 16;
    let limit = turns
        .saturating_mul(u64::from(step))
        .saturating_add(1)
        .min(MOST_LIMIT);
    u16::try_from(limit).unwrap_or(1)
}

// A version with the base at which its pieces have room.
fn placed(
    alloc: Global,
    code: &Code<'_>,
    plan: &Plan<'_>,
) -> Result<Option<(Version, u32)>, NoMemory> {
    let Some(first) = build(alloc, code, plan, 0)? else {
        return Ok(None);
    };
    if first.pieces.len() > MOST_PIECES {
        return Ok(None);
    }
    let len = first.len(0);
    if len > 147_456 {
        return Ok(None);
    }
    let base = stub_base(code.view, len);
    match build(alloc, code, plan, base)? {
        Some(version) => Ok(Some((version, base))),
        None => Ok(None),
    }
}

// Whether the pieces and sites of a version fit the image.
fn is_fit(
    alloc: Global,
    view: &ImageView<'_>,
    version: &Version,
    base: u32,
) -> Result<bool, NoMemory> {
    let _ranges = view.text();
    if version.pieces.len() > MOST_PIECES || base >= u32::MAX - 147_456 {
        return Ok(false);
    }
    are_fit(alloc, view, &version.pieces, &version.sites, base)
}

impl<'a> Search<'a> {
    fn is_full(&self) -> bool {
        self.found.len() >= MOST_CANDIDATES || self.pieces >= MOST_PIECES_OF_ALL
    }

    fn try_plan(&mut self, alloc: Global, plan: &Plan<'_>) -> Result<(), NoMemory> {
        let Some((version, base)) = placed(alloc, self.code, plan)? else {
            return Ok(());
        };
        self.pieces = self.pieces.saturating_add(version.pieces.len());
        if !is_fit(alloc, self.code.view, &version, base)? {
            return Ok(());
        }
        self.found.push(Candidate {
            number: plan.number,
            larger: plan.range.larger,
            smaller: plan.range.smaller,
            limit: plan.limit,
            base,
            pieces: version.pieces,
            sites: version.sites,
        })?;
        Ok(())
    }

    fn try_limit(
        &mut self,
        alloc: Global,
        region: &Region<'_>,
        range: Range,
        limit: u16,
    ) -> Result<(), NoMemory> {
        let number = match region.number {
            Some(l) => l,
            None => self.code.loop_count().saturating_add(self.found.len()),
        };
        self.try_plan(
            alloc,
            &Plan {
                number,
                region,
                range,
                limit,
            },
        )
    }

    // The versions of a region by one range: first those with the greatest part of its bound. Where two parts give the same limit, one is left out.
    fn try_range(
        &mut self,
        alloc: Global,
        region: &Region<'_>,
        range: Range,
        parts: &[u64],
    ) -> Result<(), NoMemory> {
        let mut before = 0;
        for part in parts {
            let limit = limit_of(region.bound, range.step, *part);
            if limit != before && limit > 1 && !self.is_full() {
                self.try_limit(alloc, region, range, limit)?;
            }
            before = limit;
        }
        Ok(())
    }

    // Whether a copy of nodes isn't too large.
    fn has_room(&self, nodes: &[usize]) -> bool {
        match self.functions.size_of(self.code, nodes) {
            Some(size) => 0 < size && size <= MOST_PIECES,
            None => false,
        }
    }

    // The versions of what runs from a loop's entry on, or of the loop alone where another loop is round it; and whether there may be any.
    fn try_loop(&mut self, alloc: Global, l: usize) -> Result<bool, NoMemory> {
        let code = self.code;
        let ranges = ranges_of(alloc, code, self.functions, l)?;
        if ranges.is_empty() || !self.has_room(code.body(l)) {
            return Ok(false);
        }
        let entries = entries_of(alloc, code, l)?;
        if entries.is_empty() {
            return Ok(true);
        }
        let rest = rest_of(alloc, code, self.functions, code.header(l), code.parent(l))?;
        let nodes = if code.parent(l).is_none() && self.has_room(&rest) {
            &rest
        } else {
            code.body(l)
        };
        let region = Region {
            number: Some(l),
            at: code.header_at(l),
            nodes,
            entries: &entries,
            bound: code.bound(l),
        };
        for range in &ranges {
            if may_vary(code, &entries, *range) {
                self.try_range(alloc, &region, *range, &PARTS_OF_LOOPS)?;
            }
        }
        Ok(true)
    }

    // The versions of what runs behind a read, where few bytes were read.
    fn try_read(&mut self, alloc: Global, read: Read) -> Result<(), NoMemory> {
        let code = self.code;
        let Some(entry) = read.entry(code) else {
            return Ok(());
        };
        let nodes = rest_of(
            alloc,
            code,
            self.functions,
            read.node,
            code.innermost(read.node),
        )?;
        if !self.has_room(&nodes) {
            return Ok(());
        }
        let region = Region {
            number: None,
            at: entry.at,
            nodes: &nodes,
            entries: &[entry],
            bound: read.most,
        };
        self.try_range(alloc, &region, read.range(), &PARTS_OF_READS)
    }
}

/// Versions of what runs behind a read where few bytes were read, and of loops, with the calls in them inlined. At most 32: of the loops first that run
/// the most words in one entry at most, by the bounds. Each candidate's pieces and sites fit the image.
pub fn find_candidates(
    alloc: Global,
    view: &ImageView<'_>,
    graph: &CodeGraph,
    tree: &LoopTree,
) -> Result<Vec<Candidate>, NoMemory> {
    let code = Code::new(alloc, view, graph, Some(tree))?;
    let functions = Functions::of(alloc, &code)?;
    let mut search = Search {
        code: &code,
        functions: &functions,
        found: Vec::new(alloc),
        pieces: 0,
    };
    for read in &reads_of(alloc, &code, &functions)? {
        search.try_read(alloc, *read)?;
    }
    let mut tried = 0;
    for (_, l) in &by_weight(alloc, &code, &functions)? {
        if search.is_full() || tried >= MOST_CANDIDATES {
            break;
        }
        if search.try_loop(alloc, *l)? {
            tried += 1;
        }
    }
    Ok(search.found)
}
