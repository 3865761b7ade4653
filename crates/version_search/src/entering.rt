//! The words of the text from which copied code is entered, and which can be moved in front of a guard.

use crate::code::Code;
use code_text::moved;
use scale_base::{Edge, EdgeKind, Instr, NoMemory};
use std::alloc::Global;

/// How a word leads to a header.
#[derive(Clone, Copy, PartialEq, Eq)]
pub enum Way {
    /// The header is the next word.
    Next,
    /// By a `jal x0`.
    Jump,
    /// By a branch that is taken.
    Taken,
    /// By a branch that isn't taken; else it leads to this address.
    Untaken(u32),
    /// It is the first word that is copied itself; where it is a branch, that leads to this address.
    Here(Option<u32>),
}

/// A word that leads to where a guard is to stand.
#[derive(Clone, Copy)]
pub struct Entry {
    pub at: u32,
    pub way: Way,
}

// How a branch leads to the header; none where both of its ways do.
fn branch_way(edge: Edge, offset: i32) -> Option<Way> {
    let target = moved(edge.at, offset);
    if target == edge.at.wrapping_add(4) {
        return None;
    }
    match edge.kind {
        EdgeKind::Taken => Some(Way::Taken),
        _ => Some(Way::Untaken(target)),
    }
}

// How a word leads to the header, if it can be moved. A service isn't moved away from the number that it is asked by.
fn way_of(edge: Edge, instr: Instr) -> Option<Way> {
    match instr {
        Instr::Branch { offset, .. } => branch_way(edge, offset),
        Instr::Jal { rd: 0, .. } => Some(Way::Jump),
        Instr::Lui { .. }
        | Instr::Load { .. }
        | Instr::Store { .. }
        | Instr::Imm { .. }
        | Instr::Reg { .. }
        | Instr::Fence { .. } => Some(Way::Next),
        _ => None,
    }
}

fn entry_at(code: &Code<'_>, l: usize, e: usize) -> Option<Entry> {
    let edge = code.entering(l, e)?;
    let way = way_of(edge, code.instr_at(edge.at))?;
    Some(Entry { at: edge.at, way })
}

/// The words that lead to a loop's header from outside, and can be moved.
pub fn entries_of(alloc: Global, code: &Code<'_>, l: usize) -> Result<Vec<Entry>, NoMemory> {
    let mut entries = Vec::new(alloc);
    for e in 0..code.edge_count() {
        if let Some(entry) = entry_at(code, l, e) {
            entries.push(entry)?;
        }
    }
    Ok(entries)
}

impl Entry {
    /// How many words stand from here to the guard.
    pub fn len(&self) -> u32 {
        match self.way {
            Way::Taken | Way::Here(None) => 2,
            Way::Here(Some(_)) => 3,
            _ => 1,
        }
    }
}
