//! Bytes that no store changes, since their segment can't be written, and what loads of them give.

ghost use Rattle.std.specs.Prelude.{◌<◌};

use crate::apart::raised;
use crate::arcs::{WORDS, common_divisor, fewer, kept};
use crate::cells::Place;
use crate::stores::arc_of;
use crate::tables::Row;
use elf_image::{ImageView, Segment};
use scale_base::{Instr, LoadOp, NoMemory, PF_W};
use stack_tables::{FixedPart, MOST_PARTS, fixed_byte, fixed_load};
use std::alloc::Global;
use wrapped_intervals::Arc;

/// At how many addresses a load is looked at, at most.
const MOST_ADDRESSES: u64 = 1_024;

/// How many bytes there are in all.
const MOST_BYTES: usize = 4_194_304;

/// Before this place in the file its header stands, of which some bytes are loaded as zeros.
const HEADER_END: u32 = 52;

/// Half of all words.
const HALF: u32 = 0x8000_0000;

// The bytes of the file that a segment loads, but for the file's header, where they can't be written.
fn part_of(alloc: Global, segment: &Segment<'_>) -> Result<Option<FixedPart>, NoMemory> {
    if segment.flags & PF_W != 0 {
        return Ok(None);
    }
    let skipped = HEADER_END.saturating_sub(segment.file_at);
    match (
        segment.from.checked_add(skipped),
        segment.file.get(skipped as usize..),
    ) {
        (Some(from), Some(file)) => Ok(Some(FixedPart {
            from,
            bytes: file.to_vec(alloc)?,
        })),
        _ => Ok(None),
    }
}

/// The bytes of an image that no store changes, of as many segments as there is room for.
pub fn fixed_parts(alloc: Global, view: &ImageView<'_>) -> Result<Vec<FixedPart>, NoMemory> {
    let mut parts = Vec::new(alloc);
    let mut room = MOST_BYTES;
    for k in 0..view.segment_count() {
        let segment = view.segment(k);
        if parts.len() < MOST_PARTS && segment.file.len() <= room {
            if let Some(part) = part_of(alloc, &segment)? {
                room = room.saturating_sub(part.bytes.len());
                parts.push(part)?;
            }
        }
    }
    Ok(parts)
}

/// Whether all bytes of a number in memory are among them.
pub fn has_fixed(parts: &[FixedPart], place: Place) -> bool {
    for k in 0..u64::from(place.width) {
        if fixed_byte(parts, u64::from(place.at).saturating_add(k)).is_none() {
            return false;
        }
    }
    true
}

/// Numbers so far: the first one, the least and the greatest, and a number of which all are multiples behind the first.
#[derive(Clone, Copy)]
struct Hull {
    first: u32,
    least: u32,
    most: u32,
    divisor: u64,
}

impl Hull {
    // Of one number.
    fn of(number: u32) -> Hull {
        Hull {
            first: number,
            least: number,
            most: number,
            divisor: 0,
        }
    }

    // With one more.
    fn with(self, number: u32) -> Hull {
        let behind = u64::from(self.first.abs_diff(number));
        Hull {
            first: self.first,
            least: self.least.min(number),
            most: self.most.max(number),
            divisor: common_divisor(self.divisor, behind),
        }
    }

    // All from the least to the greatest, of numbers that are so much less.
    fn arc(&self, less: u32) -> Arc {
        Arc::strided(
            u64::from(self.least.wrapping_add(less)),
            u64::from(self.most.saturating_sub(self.least)),
            self.divisor,
        )
    }
}

// Numbers so far, as they are and from the least signed one on.
#[derive(Clone, Copy)]
struct Hulls {
    plain: Hull,
    signed: Hull,
}

impl Hulls {
    fn of(number: u32) -> Hulls {
        Hulls {
            plain: Hull::of(number),
            signed: Hull::of(number.wrapping_add(HALF)),
        }
    }

    fn with(self, number: u32) -> Hulls {
        Hulls {
            plain: self.plain.with(number),
            signed: self.signed.with(number.wrapping_add(HALF)),
        }
    }

    // The shorter interval of both.
    fn arc(&self) -> Arc {
        let plain = self.plain.arc(0);
        let signed = self.signed.arc(HALF);
        if signed.more() < plain.more() {
            signed
        } else {
            plain
        }
    }
}

fn load_width(op: LoadOp) -> u32
    ensures { 0 < result }
{
    match op {
        LoadOp::Lb | LoadOp::Lbu => 1,
        LoadOp::Lh | LoadOp::Lhu => 2,
        LoadOp::Lw => 4,
    }
}

// How many of its strides the last number of an interval is behind the first, at most.
fn steps_of(place: Arc) -> u64 {
    if place.stride() == 0 {
        0
    } else {
        place.more() / place.stride()
    }
}

// What loads at the addresses of an interval give, where all of them are of such bytes.
fn given_at(parts: &[FixedPart], op: LoadOp, place: Arc) -> Option<Arc> {
    let steps = steps_of(place);
    if steps >= MOST_ADDRESSES {
        return None;
    }
    let mut hulls: Option<Hulls> = None;
    for n in 0..steps.saturating_add(1) {
        let at = (place.low().saturating_add(place.stride().saturating_mul(n)) % WORDS) as u32;
        if at % load_width(op) == 0 {
            let number = fixed_load(parts, op, at)?;
            hulls = Some(match hulls {
                Some(hulls) => hulls.with(number),
                None => Hulls::of(number),
            });
        }
    }
    Some(hulls?.arc())
}

/// Puts what is loaded of bytes that no store changes for the register that it is loaded to.
pub fn put_fixed(parts: &[FixedPart], i: Instr, from: &Row, to: &mut Row) {
    let Instr::Load {
        op,
        rd,
        rs1,
        offset,
    } = i
    else {
        return;
    };
    let r = usize::from(rd);
    let Some(place) = kept(raised(arc_of(from, rs1), offset.cast_unsigned())) else {
        return;
    };
    if 0 < r && r < 32 {
        if let Some(values) = given_at(parts, op, place) {
            to[r] = fewer(Some(values), to[r]);
        }
    }
}
