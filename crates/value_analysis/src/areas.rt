//! Where loads and stores may be: in the stack or in a segment. Anything else traps, and a run that traps takes no further step.

ghost use Rattle.std.specs.Prelude.{◌<◌};

use crate::apart::raised;
use crate::arcs::{STACK_START, WORDS, ahead};
use crate::rows::within;
use crate::stores::arc_of;
use crate::tables::Row;
use crate::thresholds::Limit;
use elf_image::ImageView;
use scale_base::{Instr, NoMemory};
use stack_tables::MOST_AREAS;
use std::alloc::Global;
use wrapped_intervals::Arc;

/// How many addresses of the stack there are behind its first one.
const STACK_MORE: u64 = 0x3_FFFF;

/// A register by which an instruction loads or stores, and how far from there.
#[derive(Clone, Copy)]
pub struct Access {
    pub register: u8,
    pub offset: u32,
}

/// The register by which an instruction loads or stores.
pub fn access_of(i: Instr) -> Option<Access> {
    let (register, offset) = match i {
        Instr::Load { rs1, offset, .. } => (rs1, offset),
        Instr::Store { rs1, offset, .. } => (rs1, offset),
        _ => return None,
    };
    Some(Access {
        register,
        offset: offset.cast_unsigned(),
    })
}

// Adds the addresses of a segment: to an area that ends where it begins, or as one more.
fn add_area(areas: &mut Vec<Arc>, from: u64, len: u64) -> Result<(), NoMemory> {
    for k in 0..areas.len() {
        let before = areas[k];
        let count = before.more().saturating_add(1);
        if before.low().saturating_add(count) == from {
            let more = before.more().saturating_add(len);
            areas[k] = Arc::of(before.low(), more);
            return Ok(());
        }
    }
    if len > 0 {
        areas.push(Arc::of(from, len - 1))?;
    }
    Ok(())
}

/// The stack and the segments of an image, or all addresses where there are too many.
pub fn areas_of(alloc: Global, view: &ImageView<'_>) -> Result<Vec<Arc>, NoMemory> {
    let mut areas = Vec::new(alloc);
    if view.segment_count() >= MOST_AREAS {
        areas.push(Arc::of(0, WORDS - 1))?;
        return Ok(areas);
    }
    areas.push(Arc::of(STACK_START, STACK_MORE))?;
    for k in 0..view.segment_count() {
        let segment = view.segment(k);
        add_area(&mut areas, u64::from(segment.from), u64::from(segment.len))?;
    }
    Ok(areas)
}

// Whether an interval has nothing of an area.
fn is_apart(arc: Arc, area: Arc) -> bool {
    let distance = ahead(arc.low(), area.low());
    arc.more() < distance && distance.saturating_add(area.more()) < WORDS
}

// Whether a part of an interval that begins so far behind its first number has none but numbers of a stride. A part may be a whole area.
fn is_on(stride: u64, first: u64, part: Arc) -> bool
    requires { 0 < stride }
{
    first % stride == 0 && (part.more() == 0 || part.stride() % stride == 0)
}

// From the first number of two parts of an interval to the last one, in its order, with its stride where both are on it.
fn both_along(i: Arc, one: Arc, other: Arc) -> Arc {
    let (first, second) = (ahead(i.low(), one.low()), ahead(i.low(), other.low()));
    let stride = i.stride().max(1);
    let is_strided = is_on(stride, first, one) && is_on(stride, second, other);
    let begin = first.min(second);
    let end = first
        .saturating_add(one.more())
        .max(second.saturating_add(other.more()));
    Arc::strided(
        i.low().wrapping_add(begin) % WORDS,
        end.saturating_sub(begin),
        if is_strided { stride } else { 1 },
    )
}

// The parts of an interval so far, and one more.
fn with_part(i: Arc, parts: Option<Arc>, part: Option<Arc>) -> Option<Arc> {
    match (parts, part) {
        (Some(one), Some(other)) => Some(both_along(i, one, other)),
        (None, part) => part,
        (parts, None) => parts,
    }
}

// What an interval and the areas have in common, from the first of it to the last one.
fn all_common(areas: &[Arc], arc: Arc) -> Option<Arc> {
    let mut all = None;
    for area in areas {
        if !is_apart(arc, *area) {
            all = with_part(arc, all, within(&Some(arc), &Some(*area)));
        }
    }
    all
}

// The area in which a number is.
fn area_of(areas: &[Arc], number: u64) -> Option<Arc> {
    for area in areas {
        if ahead(area.low(), number) <= area.more() {
            return Some(*area);
        }
    }
    None
}

// The areas in which the first number of an interval and the last one are that it has in common with all of them.
fn areas_at_ends(areas: &[Arc], arc: Arc) -> Option<(Arc, Arc)> {
    let common = all_common(areas, arc)?;
    let last = common.low().saturating_add(common.more()) % WORDS;
    Some((area_of(areas, common.low())?, area_of(areas, last)?))
}

impl Access {
    // The addresses at which it may be, by the row.
    fn addresses(&self, row: &Row) -> Option<Arc> {
        raised(arc_of(row, self.register), self.offset)
    }

    /// What its register holds where the access doesn't trap.
    pub fn held(&self, areas: &[Arc], row: &Row) -> Option<Arc> {
        let arc = self.addresses(row)?;
        raised(all_common(areas, arc), self.offset.wrapping_neg())
    }

    // A limit of the addresses, as one of the register.
    fn limit(&self, at: u64, is_upper: bool) -> Limit {
        let word = (at % WORDS) as u32;
        Limit { word, is_upper }.raised(self.offset.wrapping_neg())
    }

    /// Where its register may go no further down, and no further up, where it isn't one number, and not all words: where the first area begins of which it has
    /// something, and behind the end of the last one.
    pub fn limits(&self, areas: &[Arc], row: &Row) -> Option<[Limit; 2]> {
        let arc = self.addresses(row)?;
        if arc.more() == 0 || arc.more() >= WORDS - 1 {
            return None;
        }
        let (first, end) = areas_at_ends(areas, arc)?;
        let last = end.low().saturating_add(end.more());
        Some([
            self.limit(first.low(), false),
            self.limit(last.saturating_add(1), true),
        ])
    }
}
