//! The ground of a walk: intervals that hold what is in an area and in the walk's place, farther from each other than a step.

ghost use Rattle.std.specs.Prelude.{◌<◌, ◌≤◌};

use scale_base::NoMemory;
use std::alloc::Global;
use wrapped_intervals::Arc;

/// How many words there are.
const WORDS: u64 = 4_294_967_296;

/// How many intervals a ground has at most.
const MOST_INTERVALS: usize = 16;

/// The ground of a place: its intervals, and the number that the longest one has more than its first.
#[derive(Drop)]
pub struct Ground {
    pub place: Option<Arc>,
    pub intervals: Vec<Arc>,
    pub longest: u32,
}

// The first and the last number of an interval that doesn't wrap.
fn ends_of(arc: &Arc) -> Option<(u32, u32)> {
    let low = u32::try_from(arc.low()).ok()?;
    let more = u32::try_from(arc.more()).ok()?;
    Some((low, low.checked_add(more)?))
}

// The two parts of a place, by their ends: up to the last word and from 0 on, where it wraps, and else the same. All words, where no place is known.
fn parts_of(place: &Option<Arc>) -> Option<[(u32, u32); 2]> {
    let Some(place) = place else {
        return Some([(0, u32::MAX); 2]);
    };
    let low = u32::try_from(place.low()).ok()?;
    let last = low.wrapping_add(u32::try_from(place.more()).ok()?);
    if low <= last {
        Some([(low, last); 2])
    } else {
        Some([(low, u32::MAX), (0, last)])
    }
}

// What both have in common, by their ends.
fn meet(one: (u32, u32), other: (u32, u32)) -> Option<(u32, u32)> {
    let (low, last) = (one.0.max(other.0), one.1.min(other.1));
    if low <= last { Some((low, last)) } else { None }
}

// What an area has in common with both parts, and what is between.
fn common(area: (u32, u32), parts: &[(u32, u32); 2]) -> Option<(u32, u32)> {
    match (meet(area, parts[0]), meet(area, parts[1])) {
        (Some(one), Some(other)) => Some((one.0.min(other.0), one.1.max(other.1))),
        (None, other) => other,
        (one, None) => one,
    }
}

// The ends of what each area has in common with a place, in order. None where an area wraps.
fn sorted_ends(
    alloc: Global,
    areas: &[Arc],
    parts: &[(u32, u32); 2],
) -> Result<Option<Vec<(u32, u32)>>, NoMemory> {
    let mut all = Vec::new(alloc);
    for area in areas {
        let Some(ends) = ends_of(area) else {
            return Ok(None);
        };
        if let Some(ends) = common(ends, parts) {
            all.push(ends)?;
        }
    }
    all.sort()?;
    Ok(Some(all))
}

impl Ground {
    fn add(&mut self, low: u32, last: u32) -> Result<(), NoMemory> {
        let more = last.saturating_sub(low);
        self.longest = self.longest.max(more);
        self.intervals
            .push(Arc::of(u64::from(low), u64::from(more)))?;
        Ok(())
    }
}

// Whether the last number is farther from the first one, behind the wrap, than the gap.
fn is_apart_round(low: u32, last: u32, gap: u32) -> bool {
    u64::from(low) + WORDS > u64::from(last) + u64::from(gap)
}

// Whether a number is farther behind the last one than the gap.
fn is_apart(last: u32, next: u32, gap: u32) -> bool {
    u64::from(next) > u64::from(last) + u64::from(gap)
}

/// The ground of areas in a place, for steps of so many bytes at most.
pub fn ground_of(
    alloc: Global,
    areas: &[Arc],
    place: Option<Arc>,
    gap: u32,
) -> Result<Option<Ground>, NoMemory> {
    let Some(parts) = parts_of(&place) else {
        return Ok(None);
    };
    let Some(all) = sorted_ends(alloc, areas, &parts)? else {
        return Ok(None);
    };
    let Some(begun) = all.first().copied() else {
        return Ok(None);
    };
    let mut ground = Ground {
        place,
        intervals: Vec::new(alloc),
        longest: 0,
    };
    let (mut low, mut last) = begun;
    for ends in &all {
        let (next, end) = *ends;
        if is_apart(last, next, gap) {
            ground.add(low, last)?;
            low = next;
        }
        last = last.max(end);
    }
    ground.add(low, last)?;
    if ground.intervals.len() <= MOST_INTERVALS && is_apart_round(begun.0, last, gap) {
        Ok(Some(ground))
    } else {
        Ok(None)
    }
}
