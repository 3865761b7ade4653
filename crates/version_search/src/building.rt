//! The pieces and sites of a version.

ghost use Rattle.std.specs.Prelude.{◌≡◌, Ok};

use crate::code::Code;
use crate::copies::{Copies, Copy, needs_bridge};
use crate::counting::Range;
use crate::entering::{Entry, Way};
use code_text::moved;
use loop_versions::{Piece, Site, piece_len};
use scale_base::{Instr, NoMemory};
use std::alloc::Global;

/// Words of the text that are copied, of which that at this address runs first; from where they are entered, and how great the difference that a guard
/// asks may be, in steps. A loop's has its number.
#[derive(Drop)]
pub struct Region<'a> {
    pub number: Option<usize>,
    pub at: u32,
    pub nodes: &'a [usize],
    pub entries: &'a [Entry],
    pub bound: u32,
}

/// A region, the number of its candidate, and when the copy is to run.
#[derive(Drop)]
pub struct Plan<'a> {
    pub number: usize,
    pub region: &'a Region<'a>,
    pub range: Range,
    pub limit: u16,
}

/// What is made of it: the pieces, the sites, and the place behind the pieces.
#[derive(Drop)]
pub struct Version {
    pub pieces: Vec<Piece>,
    pub sites: Vec<Site>,
    place: u32,
}

// Whether the copy is entered at its first word: then the last guard stands right in front of it.
fn begins_at_entry(code: &Code<'_>, plan: &Plan<'_>) -> bool {
    match plan.region.nodes {
        [first, ..] => code.address(*first) == plan.region.at,
        [] => false,
    }
}

// How far in front of the copy the first piece stands: the words of entries, each with a guard and a jump, the last jump maybe left out.
fn front_len(code: &Code<'_>, plan: &Plan<'_>) -> u32 {
    let mut len = 0u32;
    for entry in plan.region.entries {
        len = len
            .wrapping_add(40)
            .wrapping_add(entry.len().wrapping_mul(4));
    }
    if begins_at_entry(code, plan) {
        len = len.wrapping_sub(4);
    }
    len
}

// The addresses to which branches at the entries lead, other than to where the guard stands.
fn ways_of(alloc: Global, plan: &Plan<'_>) -> Result<Vec<u32>, NoMemory> {
    let mut ways = Vec::new(alloc);
    for entry in plan.region.entries {
        if let Way::Untaken(to) = entry.way {
            ways.push(to)?;
        }
    }
    Ok(ways)
}

// Where what stands behind the call is whose copy a return is in.
fn behind_call(copies: &[Copy<'_>], copy: &Copy<'_>) -> u32 {
    let Some(call) = copy.call else {
        return 0;
    };
    let back = call.at.wrapping_add(4);
    match copies.get(call.copy) {
        Some(caller) => caller.jump(back),
        None => back,
    }
}

// The call at an address, with the copy of what is called.
fn entered(copies: &[Copy<'_>], copy: &Copy<'_>, at: u32) -> Piece {
    match copy.callee(at).and_then(|number| copies.get(number)) {
        Some(callee) => Piece::Entered {
            at,
            to: callee.from,
            end: callee.end,
        },
        None => Piece::Copied { at },
    }
}

// The copy of a word.
fn copied(copies: &[Copy<'_>], copy: &Copy<'_>, at: u32, instr: Instr) -> Piece {
    match instr {
        Instr::Branch { offset, .. } => Piece::Branched {
            at,
            to: copy.branch(moved(at, offset)),
        },
        Instr::Jal { rd: 0, offset } => Piece::Jumped {
            at,
            to: copy.jump(moved(at, offset)),
        },
        Instr::Jal { .. } => entered(copies, copy, at),
        Instr::Jalr { .. } => Piece::Returned {
            at,
            to: behind_call(copies, copy),
        },
        _ => Piece::Copied { at },
    }
}

impl Version {
    /// Without pieces, whose first stands at a base.
    pub fn new(alloc: Global, base: u32) -> Version {
        Version {
            pieces: Vec::new(alloc),
            sites: Vec::new(alloc),
            place: base,
        }
    }

    /// Where the next piece stands.
    pub fn place(&self) -> u32 {
        self.place
    }

    pub fn push(&mut self, piece: Piece) -> Result<(), NoMemory> {
        self.place = self.place.wrapping_add(4 * piece_len(&piece));
        self.pieces.push(piece)?;
        Ok(())
    }

    // The word that leads to where the guard stands, with the way there.
    fn push_front(&mut self, copy: &Copy<'_>, entry: &Entry) -> Result<(), NoMemory> {
        let at = entry.at;
        let guard = self.place.wrapping_add(entry.len().wrapping_mul(4));
        match entry.way {
            Way::Next => self.push(Piece::Copied { at }),
            Way::Jump => self.push(Piece::Jumped { at, to: guard }),
            Way::Untaken(to) => {
                let to = copy.branch(to);
                self.push(Piece::Branched { at, to })
            }
            Way::Taken => {
                self.push(Piece::Branched { at, to: guard })?;
                self.push_back(at.wrapping_add(4))
            }
            Way::Here(None) => {
                self.push(Piece::Copied { at })?;
                self.push_back(at.wrapping_add(4))
            }
            Way::Here(Some(to)) => {
                let taken = self.place.wrapping_add(8);
                self.push(Piece::Branched { at, to: taken })?;
                self.push_back(at.wrapping_add(4))?;
                self.push_back(to)
            }
        }
    }

    // A jump into the text.
    fn push_back(&mut self, at: u32) -> Result<(), NoMemory> {
        self.push(Piece::Bridge { at, to: at })
    }

    // The guard, and the way to the first word of the copy where that isn't behind it.
    fn push_guard(&mut self, plan: &Plan<'_>, other: u32, copy: u32) -> Result<(), NoMemory> {
        self.push(Piece::Guard {
            at: plan.region.at,
            larger: plan.range.larger,
            smaller: plan.range.smaller,
            limit: plan.limit,
            to: other,
        })?;
        if self.place == copy {
            return Ok(());
        }
        self.push(Piece::Bridge {
            at: plan.region.at,
            to: copy,
        })
    }

    // What stands in front of a copy for one of its entries.
    fn push_entry(
        &mut self,
        plan: &Plan<'_>,
        copy: &Copy<'_>,
        entry: &Entry,
    ) -> Result<(), NoMemory> {
        let front = self.place;
        self.push_front(copy, entry)?;
        let (to, other) = match entry.way {
            Way::Here(_) => (self.place, front),
            _ => (front, plan.region.at),
        };
        self.sites.push(Site { at: entry.at, to })?;
        self.push_guard(plan, other, copy.jump(plan.region.at))
    }

    // The word with a number of a copy, and the way on where the next one isn't behind it.
    fn push_word(
        &mut self,
        code: &Code<'_>,
        copies: &[Copy<'_>],
        copy: &Copy<'_>,
        i: usize,
    ) -> Result<(), NoMemory> {
        let Some(k) = copy.nodes.get(i) else {
            return Ok(());
        };
        let at = code.address(*k);
        self.push(copied(copies, copy, at, code.instr(*k)))?;
        if needs_bridge(code, copy.nodes, i) {
            let next = at.wrapping_add(4);
            self.push(Piece::Bridge {
                at: next,
                to: copy.jump(next),
            })?;
        }
        Ok(())
    }

    /// One of some copies, and the jumps out of it.
    pub fn push_copy(
        &mut self,
        alloc: Global,
        code: &Code<'_>,
        copies: &[Copy<'_>],
        copy: &Copy<'_>,
    ) -> Result<(), NoMemory> {
        if let Some(entry) = copy.front(code) {
            self.push(Piece::Bridge {
                at: entry,
                to: copy.jump(entry),
            })?;
        }
        for i in 0..copy.nodes.len() {
            self.push_word(code, copies, copy, i)?;
        }
        for to in &copy.outside(alloc)? {
            self.push(Piece::Bridge {
                at: *to,
                to: copy.jump(*to),
            })?;
        }
        Ok(())
    }
}

/// The version of a plan, with its pieces from a base on; none where too many calls are inlined.
pub fn build(
    alloc: Global,
    code: &Code<'_>,
    plan: &Plan<'_>,
    base: u32,
) -> Result<Option<Version>, NoMemory> {
    let ways = ways_of(alloc, plan)?;
    let from = base.wrapping_add(front_len(code, plan));
    let Some(copies) = Copies::of(alloc, code, plan.region.nodes, &ways, from)? else {
        return Ok(None);
    };
    let Some(first) = copies.all.first() else {
        return Ok(None);
    };
    let mut version = Version::new(alloc, base);
    for entry in plan.region.entries {
        version.push_entry(plan, first, entry)?;
    }
    for copy in &copies.all {
        version.push_copy(alloc, code, &copies.all, copy)?;
    }
    Ok(Some(version))
}

impl Version {
    /// How many bytes its pieces have.
    pub fn len(&self, base: u32) -> u32 {
        self.place.wrapping_sub(base)
    }
}
