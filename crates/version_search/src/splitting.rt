//! Splits of parts of the code that turn and are entered at several nodes, so that no loop is known in them: one entry stays, and each other one leads to a
//! copy of what runs from it until the one that stays. Node splitting: Hecht and Ullman, SIAM Journal on Computing, 1974; Aho, Lam, Sethi and Ullman,
//! Compilers, section 9.7; Janssen and Corporaal, ACM Transactions on Programming Languages and Systems, 1997.

ghost use Rattle.std.specs.Prelude.{◌≡◌, ◌≤◌, ◌<◌, ◌+◌, ◌^◌, length, Ok};
ghost use Rattle.scale_base.specs.Image.{image_of};

use crate::building::Version;
use crate::code::Code;
use crate::copies::Copies;
use crate::functions::Functions;
use crate::parting::{Choice, Lead, choices_of};
use code_text::moved;
use elf_image::ImageView;
use elf_patch::stub_base;
use flow_graph::CodeGraph;
use loop_versions::{Piece, Site, are_fit};
use scale_base::{Instr, NoMemory};
use std::alloc::Global;
use std::collections::BTreeMap;

/// The pieces of all copies.
const MOST_PIECES: usize = 4096;

const MOST_BYTES: u32 = 147_456;

/// Pieces and sites that split some parts, and how many these are.
#[derive(Drop)]
pub struct Split {
    pub pieces: Vec<Piece>,
    pub sites: Vec<Site>,
    pub parts: usize,
}

/// The words from which copies are entered, and the copies, one behind the other, each with what is inlined in it.
#[derive(Drop)]
struct Layout<'a> {
    code: &'a Code<'a>,
    words: BTreeMap<usize, ()>,
    leads: Vec<&'a Lead>,
    copies: Vec<Copies<'a>>,
    /// By the address of an entry that is to lead to a copy, where that is entered.
    places: BTreeMap<u32, u32>,
}

// How many bytes stand in front of the copies for a word that leads there.
fn front_len(instr: Instr) -> u32 {
    match instr {
        Instr::Branch { .. } => 12,
        Instr::Jal { .. } => 4,
        _ => 8,
    }
}

// The ways out of the copy with a number to an address lead to a place.
fn lead_copy(copies: &mut [Copies<'_>], i: usize, at: u32, to: u32) -> Result<(), NoMemory> {
    if i < copies.len() {
        copies[i].lead(at, to)?;
    }
    Ok(())
}

impl<'a> Layout<'a> {
    fn new(alloc: Global, code: &'a Code<'a>) -> Layout<'a> {
        Layout {
            code,
            words: BTreeMap::new(alloc),
            leads: Vec::new(alloc),
            copies: Vec::new(alloc),
            places: BTreeMap::new(alloc),
        }
    }

    fn add_choice(&mut self, choice: &'a Choice) -> Result<(), NoMemory> {
        for word in &choice.words {
            self.words.insert(*word, ())?;
        }
        for lead in &choice.leads {
            self.leads.push(lead)?;
        }
        Ok(())
    }

    // Where the copies begin.
    fn front_end(&self, base: u32) -> u32 {
        let mut end = base;
        for (word, _) in &self.words {
            end = end.wrapping_add(front_len(self.code.instr(*word)));
        }
        end
    }

    // Places the copies. Whether there is one for each entry.
    fn place_copies(&mut self, alloc: Global, base: u32) -> Result<bool, NoMemory> {
        let code = self.code;
        let mut from = self.front_end(base);
        for lead in &self.leads {
            let Some(copies) = Copies::of(alloc, code, &lead.nodes, &[], from)? else {
                return Ok(false);
            };
            from = copies.end();
            let at = code.address(lead.node);
            self.places.insert(at, copies.place(at))?;
            self.copies.push(copies)?;
        }
        Ok(true)
    }

    // Where a way to an address leads.
    fn place_of(&self, to: u32) -> u32 {
        self.places.get(&to).copied().unwrap_or(to)
    }

    // The ways out of a copy to such entries lead to their copies.
    fn lead_on(&mut self, i: usize) -> Result<(), NoMemory> {
        for (at, to) in &self.places {
            lead_copy(&mut self.copies, i, *at, *to)?;
        }
        Ok(())
    }

    // The way on to an address.
    fn push_way(&self, version: &mut Version, at: u32) -> Result<(), NoMemory> {
        version.push(Piece::Bridge {
            at,
            to: self.place_of(at),
        })
    }

    // The word that leads to entries, with its ways.
    fn push_front(&self, version: &mut Version, word: usize) -> Result<(), NoMemory> {
        let at = self.code.address(word);
        let next = at.wrapping_add(4);
        let place = version.place();
        version.sites.push(Site { at, to: place })?;
        match self.code.instr(word) {
            Instr::Branch { offset, .. } => {
                let to = place.wrapping_add(8);
                version.push(Piece::Branched { at, to })?;
                self.push_way(version, next)?;
                self.push_way(version, moved(at, offset))
            }
            Instr::Jal { offset, .. } => version.push(Piece::Jumped {
                at,
                to: self.place_of(moved(at, offset)),
            }),
            _ => {
                version.push(Piece::Copied { at })?;
                self.push_way(version, next)
            }
        }
    }

    fn push_fronts(&self, version: &mut Version) -> Result<(), NoMemory> {
        for (word, _) in &self.words {
            self.push_front(version, *word)?;
        }
        Ok(())
    }

    fn push_copies(
        &self,
        alloc: Global,
        version: &mut Version,
        copies: &Copies<'_>,
    ) -> Result<(), NoMemory> {
        for copy in &copies.all {
            version.push_copy(alloc, self.code, &copies.all, copy)?;
        }
        Ok(())
    }
}

// The pieces and sites of some choices, with the pieces from a base on; none where too many calls are inlined.
fn laid_out(
    alloc: Global,
    code: &Code<'_>,
    choices: &[Choice],
    base: u32,
) -> Result<Option<Version>, NoMemory> {
    let mut layout = Layout::new(alloc, code);
    for choice in choices {
        layout.add_choice(choice)?;
    }
    if !layout.place_copies(alloc, base)? {
        return Ok(None);
    }
    for i in 0..layout.copies.len() {
        layout.lead_on(i)?;
    }
    let mut version = Version::new(alloc, base);
    layout.push_fronts(&mut version)?;
    for copies in &layout.copies {
        layout.push_copies(alloc, &mut version, copies)?;
    }
    Ok(Some(version))
}

// Whether pieces and sites fit an image.
fn is_fit(
    alloc: Global,
    view: &ImageView<'_>,
    version: &Version,
    base: u32,
) -> Result<bool, NoMemory> {
    let _ranges = view.text();
    if version.pieces.len() > MOST_PIECES || base >= u32::MAX - MOST_BYTES {
        return Ok(false);
    }
    are_fit(alloc, view, &version.pieces, &version.sites, base)
}

// The split by some choices, with its pieces at the base at which they have room; none where that doesn't fit.
fn split_by(alloc: Global, code: &Code<'_>, choices: &[Choice]) -> Result<Option<Split>, NoMemory> {
    let Some(first) = laid_out(alloc, code, choices, 0)? else {
        return Ok(None);
    };
    let len = first.len(0);
    if choices.is_empty() || first.pieces.len() > MOST_PIECES || len > MOST_BYTES {
        return Ok(None);
    }
    let base = stub_base(code.view, len);
    let Some(version) = laid_out(alloc, code, choices, base)? else {
        return Ok(None);
    };
    if !is_fit(alloc, code.view, &version, base)? {
        return Ok(None);
    }
    Ok(Some(Split {
        pieces: version.pieces,
        sites: version.sites,
        parts: choices.len(),
    }))
}

// The choices from the first on whose copies have no more pieces than may be.
fn within_limit(choices: &[Choice]) -> usize {
    let mut size = 0usize;
    for (i, choice) in choices.iter().enumerate() {
        size = size.saturating_add(choice.size);
        if size > MOST_PIECES {
            return i;
        }
    }
    choices.len()
}

/// The pieces and sites that make loops of parts of the code that turn and are entered at several places, by the addresses at which each is entered, and by
/// those of the headers of all loops. So many parts are split as can be, at most 16 entries of one and 64 of all; where they can't be split together, one is. None
/// where none can be. The pieces and sites fit the image. A part that shows within another one only when that is split isn't looked for.
pub fn find_split<'x>(
    alloc: Global,
    view: &'x ImageView<'_>,
    graph: &'x CodeGraph,
    headers: &[u32],
    parts: &[Vec<u32>],
) -> Result<Option<Split>, NoMemory> {
    let code = Code::new(alloc, view, graph, None)?;
    let functions = Functions::of(alloc, &code)?;
    let choices = choices_of(alloc, &code, &functions, headers, parts)?;
    let few = within_limit(&choices).min(choices.len());
    if let Some(split) = split_by(alloc, &code, &choices[..few])? {
        return Ok(Some(split));
    }
    for i in 0..choices.len() {
        if let Some(split) = split_by(alloc, &code, &choices[i..i + 1])? {
            return Ok(Some(split));
        }
    }
    Ok(None)
}
