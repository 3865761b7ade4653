//! Where the words of a copy stand, with those of the functions that are inlined in it.

use crate::code::Code;
use code_text::moved;
use scale_base::{Instr, NoMemory};
use std::alloc::Global;
use std::collections::BTreeMap;

/// As many calls are inlined in one version.
const MOST_CALLS: usize = 256;

/// A call that is inlined: in which copy it stands, where in the text, and which function it calls.
#[derive(Clone, Copy)]
pub struct CallSite {
    pub copy: usize,
    pub at: u32,
    callee: usize,
}

/// The copy of a loop, or of a function that is called in another copy. It has, by address of a word of the text, the place of its copy; by address to
/// which a branch leaves it, the place of the jump there; by address of a call the number of the copy of what is called; and by address to which ways out
/// of it lead elsewhere than into the text, where they lead. Copies of what it calls stand in front of its end.
#[derive(Drop)]
pub struct Copy<'a> {
    pub nodes: &'a [usize],
    pub call: Option<CallSite>,
    pub from: u32,
    pub end: u32,
    places: BTreeMap<u32, u32>,
    pads: BTreeMap<u32, u32>,
    callees: BTreeMap<u32, usize>,
    others: BTreeMap<u32, u32>,
}

/// A copy with those of all functions that are inlined in it, one behind the other, and calls whose copies aren't there yet.
#[derive(Drop)]
pub struct Copies<'a> {
    pub all: Vec<Copy<'a>>,
    waiting: Vec<CallSite>,
}

/// Whether the next word follows, at some time, on a word that is copied.
fn goes_on(instr: Instr) -> bool {
    !matches!(instr, Instr::Jal { .. } | Instr::Jalr { .. })
}

/// Whether a jump stands behind the copy of a word with this number: it goes on, and the copy of the next word isn't behind it.
pub fn needs_bridge(code: &Code<'_>, nodes: &[usize], i: usize) -> bool {
    let Some(k) = nodes.get(i) else {
        return false;
    };
    let next = code.address(*k).wrapping_add(4);
    let follows = match nodes.get(i.saturating_add(1)) {
        Some(other) => code.address(*other) == next,
        None => false,
    };
    goes_on(code.instr(*k)) && !follows
}

// How many bytes the copy of a word has.
fn copied_len(instr: Instr) -> u32 {
    match instr {
        Instr::Jal { rd: 1, .. } => 12,
        _ => 4,
    }
}

impl<'a> Copy<'a> {
    fn new(alloc: Global, nodes: &'a [usize], call: Option<CallSite>, from: u32) -> Copy<'a> {
        Copy {
            nodes,
            call,
            from,
            end: from,
            places: BTreeMap::new(alloc),
            pads: BTreeMap::new(alloc),
            callees: BTreeMap::new(alloc),
            others: BTreeMap::new(alloc),
        }
    }

    /// The address at which a function is entered where that isn't its first word: a jump to its copy stands in front.
    pub fn front(&self, code: &Code<'_>) -> Option<u32> {
        let call = self.call?;
        let entry = target_of(code.instr_at(call.at), call.at)?;
        let first = self.nodes.first()?;
        if code.address(*first) == entry {
            None
        } else {
            Some(entry)
        }
    }

    fn add_words(&mut self, code: &Code<'_>) -> Result<(), NoMemory> {
        if self.front(code).is_some() {
            self.end = self.end.wrapping_add(4);
        }
        let nodes = self.nodes;
        for i in 0..nodes.len() {
            self.places.insert(code.address(nodes[i]), self.end)?;
            self.end = self.end.wrapping_add(copied_len(code.instr(nodes[i])));
            if needs_bridge(code, nodes, i) {
                self.end = self.end.wrapping_add(4);
            }
        }
        Ok(())
    }

    fn add_pads(&mut self, code: &Code<'_>) -> Result<(), NoMemory> {
        for k in self.nodes {
            if let Instr::Branch { offset, .. } = code.instr(*k) {
                self.add_pad(moved(code.address(*k), offset))?;
            }
        }
        Ok(())
    }

    /// A branch leads to an address: outside the copy it needs a jump of its own.
    fn add_pad(&mut self, to: u32) -> Result<(), NoMemory> {
        if !self.places.contains_key(&to) && !self.pads.contains_key(&to) {
            self.pads.insert(to, self.end)?;
            self.end = self.end.wrapping_add(4);
        }
        Ok(())
    }

    /// Where a jump to an address leads in the copy.
    pub fn jump(&self, to: u32) -> u32 {
        match self.places.get(&to) {
            Some(place) => *place,
            None => self.others.get(&to).copied().unwrap_or(to),
        }
    }

    /// Where a branch to an address leads in the copy.
    pub fn branch(&self, to: u32) -> u32 {
        match self.pads.get(&to) {
            Some(place) => *place,
            None => self.jump(to),
        }
    }

    /// The number of the copy of what a call leads to.
    pub fn callee(&self, at: u32) -> Option<usize> {
        self.callees.get(&at).copied()
    }

    /// The addresses to which jumps of their own lead, in the order of these.
    pub fn outside(&self, alloc: Global) -> Result<Vec<u32>, NoMemory> {
        let mut all = Vec::new(alloc);
        for (to, place) in &self.pads {
            all.push((*place, *to))?;
        }
        all.sort()?;
        let mut outside = Vec::new(alloc);
        for (_, to) in &all {
            outside.push(*to)?;
        }
        Ok(outside)
    }
}

/// The address to which a jump or a call at an address leads.
fn target_of(instr: Instr, at: u32) -> Option<u32> {
    match instr {
        Instr::Jal { offset, .. } => Some(moved(at, offset)),
        _ => None,
    }
}

impl<'a> Copies<'a> {
    /// Those of words of the text and of what they call, from a place on; branches lead to these addresses, too. None where too many calls are inlined.
    pub fn of(
        alloc: Global,
        code: &'a Code<'_>,
        nodes: &'a [usize],
        ways: &[u32],
        from: u32,
    ) -> Result<Option<Copies<'a>>, NoMemory> {
        let mut copies = Copies {
            all: Vec::new(alloc),
            waiting: Vec::new(alloc),
        };
        let mut first = Copy::new(alloc, nodes, None, from);
        first.add_words(code)?;
        first.add_pads(code)?;
        for to in ways {
            first.add_pad(*to)?;
        }
        copies.push(code, first)?;
        for _ in 0..MOST_CALLS {
            let Some(call) = copies.waiting.pop() else {
                break;
            };
            copies.inline(alloc, code, call)?;
        }
        copies.close();
        if copies.waiting.is_empty() {
            Ok(Some(copies))
        } else {
            Ok(None)
        }
    }

    /// Where the first copy has an address of the text.
    pub fn place(&self, at: u32) -> u32 {
        match self.all.first() {
            Some(copy) => copy.jump(at),
            None => at,
        }
    }

    /// Ways out of the first copy to an address of the text lead to another place that stands for it.
    pub fn lead(&mut self, at: u32, to: u32) -> Result<(), NoMemory> {
        if self.all.len() > 0 {
            self.all[0].others.insert(at, to)?;
        }
        Ok(())
    }

    // Adds a copy, whose calls wait.
    fn push(&mut self, code: &Code<'_>, copy: Copy<'a>) -> Result<(), NoMemory> {
        let number = self.all.len();
        for k in copy.nodes {
            if let Some(callee) = code.callee(*k) {
                self.waiting.push(CallSite {
                    copy: number,
                    at: code.address(*k),
                    callee,
                })?;
            }
        }
        self.all.push(copy)?;
        Ok(())
    }

    /// Where the next copy begins: what a copy calls stands behind it, in front of what its caller calls next.
    pub fn end(&self) -> u32 {
        match self.all.last() {
            Some(copy) => copy.end,
            None => 0,
        }
    }

    // Adds the copy of the function at a call.
    fn inline(
        &mut self,
        alloc: Global,
        code: &'a Code<'_>,
        call: CallSite,
    ) -> Result<(), NoMemory> {
        let number = self.all.len();
        let nodes = code.function_nodes(call.callee);
        let mut copy = Copy::new(alloc, nodes, Some(call), self.end());
        copy.add_words(code)?;
        if call.copy < self.all.len() {
            self.all[call.copy].callees.insert(call.at, number)?;
        }
        self.push(code, copy)
    }

    // Each copy ends where the last of those ends that are inlined in it.
    fn close(&mut self) {
        for number in (0..self.all.len()).rev() {
            self.widen_caller(number);
        }
    }

    // The copy in which a copy is inlined doesn't end in front of it.
    fn widen_caller(&mut self, number: usize) {
        let Some(copy) = self.all.get(number) else {
            return;
        };
        let end = copy.end;
        let Some(call) = copy.call else {
            return;
        };
        if call.copy < self.all.len() && self.all[call.copy].end < end {
            self.all[call.copy].end = end;
        }
    }
}
