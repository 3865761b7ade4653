//! What is known of each function: how large a copy of it is, what it writes, and how many words run in one call.

use crate::code::Code;
use crate::counting::written_by;
use crate::starting::is_read;
use scale_base::{Instr, NoMemory};
use std::alloc::Global;

/// As many loops round a word are looked at.
pub const MOST_DEPTH: usize = 16;

/// The registers that a function gives back as they were, by the calling convention: x2 to x4, x8, x9 and x18 to x27.
const KEPT: u32 = 0x0ffc_031c;

/// A function with all that it calls. `size` is the number of pieces of a copy, if it can be copied; `written` has a bit for each register that
/// a call may change; `words` is about how many words run in one call at most; and it may ask the service that reads itself.
#[derive(Clone, Copy)]
struct Function {
    size: Option<usize>,
    written: u32,
    words: u64,
    reads: bool,
}

/// By number, what is known of the functions.
#[derive(Drop)]
pub struct Functions {
    all: Vec<Function>,
}

// Whether a word stands in a copy as it is, or with another way. What doesn't jump has to have a word behind it.
fn is_moved(code: &Code<'_>, at: u32) -> bool {
    match code.instr_at(at) {
        Instr::Jal { rd, .. } => rd == 0,
        Instr::Auipc { .. } | Instr::Jalr { .. } | Instr::Ebreak => false,
        _ => code.is_text(at.wrapping_add(4)),
    }
}

// Whether an instruction is `jalr x0,0(x1)`.
fn is_return(instr: Instr) -> bool {
    matches!(
        instr,
        Instr::Jalr {
            rd: 0,
            rs1: 1,
            offset: 0
        }
    )
}

// The number of two parts, if there are both.
fn sum_of(one: Option<usize>, other: Option<usize>) -> Option<usize> {
    match (one, other) {
        (Some(one), Some(other)) => Some(one.saturating_add(other)),
        _ => None,
    }
}

impl Functions {
    /// Those of a program, each behind those that it calls.
    pub fn of(alloc: Global, code: &Code<'_>) -> Result<Functions, NoMemory> {
        let unknown = Function {
            size: None,
            written: u32::MAX,
            words: 0,
            reads: false,
        };
        let mut functions = Functions {
            all: vec![in alloc; unknown; code.function_count()]?,
        };
        for f in code.call_order() {
            let found = functions.found(code, *f);
            if *f < functions.all.len() {
                functions.all[*f] = found;
            }
        }
        Ok(functions)
    }

    fn found(&self, code: &Code<'_>, f: usize) -> Function {
        let mut found = Function {
            size: Some(1),
            written: 0,
            words: 0,
            reads: false,
        };
        for k in code.function_nodes(f) {
            found.size = sum_of(found.size, self.size_in_function(code, *k));
            found.written |= self.written_at(code, *k);
            found.reads |= is_read(code, *k);
            found.words = found.words.saturating_add(self.worst_words(code, *k));
        }
        found.written &= !KEPT;
        found
    }

    fn function(&self, f: usize) -> Option<Function> {
        self.all.get(f).copied()
    }

    /// Whether a function asks the service that reads.
    pub fn reads(&self, f: usize) -> bool {
        self.function(f).is_some_and(|function| function.reads)
    }

    /// About how many pieces a copy of a word has with the copy of what it calls; none where it can't be copied.
    pub fn size(&self, code: &Code<'_>, k: usize) -> Option<usize> {
        match code.callee(k) {
            Some(f) => sum_of(Some(1), self.function(f)?.size),
            None => {
                if is_moved(code, code.address(k)) {
                    Some(1)
                } else {
                    None
                }
            }
        }
    }

    fn size_in_function(&self, code: &Code<'_>, k: usize) -> Option<usize> {
        if is_return(code.instr(k)) {
            Some(1)
        } else {
            self.size(code, k)
        }
    }

    /// The number of pieces of a copy of some words, if they can be copied.
    pub fn size_of(&self, code: &Code<'_>, nodes: &[usize]) -> Option<usize> {
        let mut size = Some(0);
        for k in nodes {
            size = sum_of(size, self.size(code, *k));
        }
        size
    }

    /// The registers that a word may change with what it calls.
    pub fn written_at(&self, code: &Code<'_>, k: usize) -> u32 {
        let own = 1u32.wrapping_shl(u32::from(written_by(code.instr(k))));
        let called = match code.callee(k) {
            Some(f) => self
                .function(f)
                .map_or(u32::MAX, |function| function.written),
            None => 0,
        };
        own | called
    }

    /// About how many words run each time that a word runs: itself and what it calls.
    pub fn words_at(&self, code: &Code<'_>, k: usize) -> u64 {
        let called = match code.callee(k) {
            Some(f) => self.function(f).map_or(0, |function| function.words),
            None => 0,
        };
        called.saturating_add(1)
    }

    // How many words a word runs in one call of its function at most, by the bounds of the loops round it.
    fn worst_words(&self, code: &Code<'_>, k: usize) -> u64 {
        let mut words = self.words_at(code, k);
        let mut next = code.innermost(k);
        for _ in 0..MOST_DEPTH {
            let Some(l) = next else {
                break;
            };
            words = words.saturating_mul(u64::from(code.bound(l)) + 1);
            next = code.parent(l);
        }
        words
    }
}
