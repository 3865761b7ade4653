//! The words behind which it is known how many bytes were read.

use crate::code::Code;
use crate::counting::Range;
use crate::entering::{Entry, Way};
use crate::functions::Functions;
use crate::starting::{Values, is_read, values_before};
use code_text::moved;
use scale_base::{Instr, NoMemory};
use std::alloc::Global;

/// As many services are looked at.
const MOST_READS: usize = 2;

/// The register that holds the number of bytes that were read.
const COUNT: u8 = 10;

/// The registers of a service's third argument, and of a function's second: how many bytes are to be read at most.
const MOST: u8 = 12;

const MOST_OF_CALL: u8 = 11;

/// No more bytes are read at once than this.
const MOST_BYTES: u32 = 65_536;

/// A node at which a register holds how many bytes were read, and how many those are at most.
#[derive(Clone, Copy)]
pub struct Read {
    pub node: usize,
    pub most: u32,
}

fn bytes_at(values: &Values, r: u8) -> Option<u32> {
    let most = values.constant(r)?;
    if 0 < most && most <= MOST_BYTES {
        Some(most)
    } else {
        None
    }
}

// How many bytes are read at most where a node reads or calls what does so.
fn most_read(code: &Code<'_>, functions: &Functions, k: usize) -> Option<u32> {
    if is_read(code, k) {
        return bytes_at(&values_before(code, k), MOST);
    }
    let f = code.callee(k)?;
    if functions.reads(f) {
        bytes_at(&values_before(code, k), MOST_OF_CALL)
    } else {
        None
    }
}

// The node behind a word that reads, if none else leads there.
fn read_at(code: &Code<'_>, functions: &Functions, k: usize) -> Option<Read> {
    let most = most_read(code, functions, k)?;
    let node = k.checked_add(1)?;
    if code.address(node) == code.address(k).wrapping_add(4) && code.is_alone(node) {
        Some(Read { node, most })
    } else {
        None
    }
}

/// The first reads of a program.
pub fn reads_of(
    alloc: Global,
    code: &Code<'_>,
    functions: &Functions,
) -> Result<Vec<Read>, NoMemory> {
    let mut reads = Vec::new(alloc);
    for k in 0..code.node_count() {
        if let Some(read) = read_at(code, functions, k) {
            if reads.len() < MOST_READS {
                reads.push(read)?;
            }
        }
    }
    Ok(reads)
}

impl Read {
    /// The word in front of which the guard stands, if it can be moved.
    pub fn entry(&self, code: &Code<'_>) -> Option<Entry> {
        let at = code.address(self.node);
        let way = match code.instr(self.node) {
            Instr::Branch { offset, .. } => Way::Here(Some(moved(at, offset))),
            Instr::Lui { .. }
            | Instr::Load { .. }
            | Instr::Store { .. }
            | Instr::Imm { .. }
            | Instr::Reg { .. }
            | Instr::Fence { .. } => Way::Here(None),
            _ => return None,
        };
        Some(Entry { at, way })
    }

    /// The number of bytes, and nothing.
    pub fn range(&self) -> Range {
        Range {
            larger: COUNT,
            smaller: 0,
            step: 1,
        }
    }
}
