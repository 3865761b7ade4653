//! Which words of the stack are kept where stores of which nothing is known are taken to miss them: a guess, by how functions use the words of their
//! frames. Nothing rests on it but how often runs bear it out.

ghost use Rattle.std.specs.Prelude.{◌<◌};

use crate::program::Program;
use crate::ways::WayKind;
use scale_base::{ImmOp, Instr, LoadOp, NoMemory, RegOp, StoreOp};
use stack_tables::word_number;
use std::alloc::Global;

/// By number, whether a word of a function's stack is one of those that are meant.
type Words = [bool; 64];

/// Of a function: the words of its stack that are kept, and whether it has a frame pointer, x8.
#[derive(Clone, Copy)]
pub struct Kept {
    pub words: Words,
    pointed: bool,
}

impl Kept {
    /// Whether a store by a register may be taken to miss the words: one by a pointer of the frame stores to the frame, wherever that is.
    pub fn may_doubt(&self, i: Instr) -> bool {
        match i {
            Instr::Store { rs1, .. } => rs1 != 2 && !(rs1 == 8 && self.pointed),
            _ => true,
        }
    }
}

/// Whether a word is kept, where any are.
pub fn is_kept(kept: Option<&Kept>, k: usize) -> bool {
    match kept {
        Some(kept) => kept.words.get(k).copied().unwrap_or(false),
        None => false,
    }
}

/// So many words further on the next word may be that is taken for a part of an array.
const GAP: usize = 2;

// What a register has, as far as constants say it: so much more than what x2 had when the function began; that and something else; or something else
// and a constant.
#[derive(Clone, Copy)]
enum Value {
    Frame(u32),
    Within(u32),
    Other(u32),
}

// Whether functions give a register back as they found it.
fn is_saved(r: u8) -> bool {
    r == 1 || r == 8 || r == 9 || (18..28).contains(&r)
}

// What is found of a function.
#[derive(Clone, Copy)]
struct Found {
    stored: Words,
    loaded: Words,
    saved: Words,
    // the words at which arrays may begin
    arrays: Words,
    values: [Value; 32],
    // whether the code is still that which begins the function, and whether x8 is a pointer of the frame
    begins: bool,
    pointed: bool,
}

// Notes a word.
fn note(words: &mut Words, at: u32) {
    if let Some(number) = word_number(at & 0xFFFF_FFFC) {
        let k = number as usize;
        if k < 64 {
            words[k] = true;
        }
    }
}

fn raised(value: Value, n: u32) -> Value {
    match value {
        Value::Frame(at) => Value::Frame(at.wrapping_add(n)),
        Value::Within(at) => Value::Within(at.wrapping_add(n)),
        Value::Other(more) => Value::Other(more.wrapping_add(n)),
    }
}

fn sum(a: Value, b: Value) -> Value {
    match (a, b) {
        (Value::Frame(at), Value::Other(more)) => Value::Within(at.wrapping_add(more)),
        (Value::Other(more), Value::Frame(at)) => Value::Within(at.wrapping_add(more)),
        (Value::Within(at), Value::Other(more)) => Value::Within(at.wrapping_add(more)),
        (Value::Other(more), Value::Within(at)) => Value::Within(at.wrapping_add(more)),
        _ => Value::Other(0),
    }
}

impl Found {
    fn begun() -> Found {
        let mut values = [Value::Other(0); 32];
        values[2] = Value::Frame(0);
        Found {
            stored: [false; 64],
            loaded: [false; 64],
            saved: [false; 64],
            arrays: [false; 64],
            values,
            begins: true,
            pointed: false,
        }
    }

    fn value(&self, r: u8) -> Value {
        self.values
            .get(usize::from(r))
            .copied()
            .unwrap_or(Value::Other(0))
    }

    fn put(&mut self, r: u8, value: Value) {
        let k = usize::from(r);
        if 0 < k && k < 32 {
            self.values[k] = value;
        }
    }

    // Whether a register is a pointer of the frame: x2, or x8 where it has what x2 had when the function began.
    fn is_pointer(&self, r: u8) -> bool {
        r == 2 || (r == 8 && matches!(self.value(8), Value::Frame(0)))
    }

    // Forgets what a register has that is no pointer of the frame.
    fn lose(&mut self, r: u8) {
        if !self.is_pointer(r) {
            self.put(r, Value::Other(0));
        }
    }

    // The same of each one.
    fn forget(&mut self) {
        for r in 1..32u8 {
            self.lose(r);
        }
        self.begins = false;
    }

    // How far above the function's first x2 an access is. An array may begin where one is that isn't known so far.
    fn access(&mut self, rs1: u8, offset: i32) -> Option<u32> {
        let by = offset.cast_unsigned();
        match self.value(rs1) {
            Value::Frame(at) => Some(at.wrapping_add(by)),
            Value::Within(at) => {
                note(&mut self.arrays, at.wrapping_add(by));
                None
            }
            Value::Other(_) => None,
        }
    }

    fn store(&mut self, op: StoreOp, rs1: u8, rs2: u8, offset: i32) {
        if let (Some(at), StoreOp::Sw) = (self.access(rs1, offset), op) {
            note(&mut self.stored, at);
            if self.begins && is_saved(rs2) {
                note(&mut self.saved, at);
            }
        }
    }

    fn load(&mut self, op: LoadOp, rd: u8, rs1: u8, offset: i32) {
        if let (Some(at), LoadOp::Lw) = (self.access(rs1, offset), op) {
            note(&mut self.loaded, at);
        }
        self.lose(rd);
    }

    // What x2 has after a constant is added to it, but for where its frame is given back.
    fn move_frame(&mut self, rs1: u8, imm: i32) {
        if rs1 == 2 && imm < 0 {
            let value = raised(self.value(2), imm.cast_unsigned());
            self.put(2, value);
        }
    }

    // A constant more than a register. Where that points into the frame, an array may begin there.
    fn add(&mut self, rd: u8, rs1: u8, imm: i32) {
        if rd == 2 {
            return self.move_frame(rs1, imm);
        }
        let value = raised(self.value(rs1), imm.cast_unsigned());
        if let Value::Frame(at) = value {
            if at != 0 {
                note(&mut self.arrays, at);
            } else if rd == 8 {
                self.pointed = true;
            }
            self.put(rd, value);
        } else if !self.is_pointer(rd) {
            self.put(rd, value);
        }
    }

    fn add_both(&mut self, rd: u8, rs1: u8, rs2: u8) {
        if !self.is_pointer(rd) {
            let value = sum(self.value(rs1), self.value(rs2));
            self.put(rd, value);
        }
    }

    fn look_at(&mut self, instr: Instr) {
        match instr {
            Instr::Store {
                op,
                rs1,
                rs2,
                offset,
            } => self.store(op, rs1, rs2, offset),
            Instr::Load {
                op,
                rd,
                rs1,
                offset,
            } => self.load(op, rd, rs1, offset),
            Instr::Imm {
                op: ImmOp::Addi,
                rd,
                rs1,
                imm,
            } => self.add(rd, rs1, imm),
            Instr::Reg {
                op: RegOp::Add,
                rd,
                rs1,
                rs2,
            } => self.add_both(rd, rs1, rs2),
            Instr::Imm { rd, .. } => self.lose(rd),
            Instr::Reg { rd, .. } => self.lose(rd),
            Instr::Lui { rd, .. } => self.lose(rd),
            Instr::Auipc { rd, .. } => self.lose(rd),
            _ => self.forget(),
        }
    }

    // Whether a word is used by itself.
    fn is_used(&self, k: usize) -> bool {
        k < 64 && (self.stored[k] || self.loaded[k]) && !self.saved[k]
    }

    // The words of arrays: from where one begins on, upwards, as long as the next word that is used is near.
    fn array_words(&self) -> Words {
        let mut words = [false; 64];
        for k in 0..64 {
            if self.arrays[k] {
                self.put_array(k, &mut words);
            }
        }
        words
    }

    fn put_array(&self, first: usize, words: &mut Words) {
        words[first.min(63)] = true;
        let mut gap: usize = 0;
        for back in 1..=first.min(63) {
            let k = first.min(63) - back;
            if self.is_used(k) {
                words[k] = true;
                gap = 0;
            } else {
                gap = gap.saturating_add(1);
            }
            if gap > GAP {
                break;
            }
        }
    }

    // The words that are kept: those in which registers are saved, and those that are stored and loaded by themselves and are no part of an array.
    fn kept(&self) -> Kept {
        let arrays = self.array_words();
        let mut words = [false; 64];
        for k in 0..64 {
            words[k] = self.saved[k] || (self.stored[k] && self.loaded[k] && !arrays[k]);
        }
        Kept {
            words,
            pointed: self.pointed,
        }
    }
}

// Whether a node's instruction is come to by a way that is no step to the next one.
fn is_joined(program: &Program, k: usize) -> bool {
    let mut next = program.last_way_to(k);
    let mut count: usize = 0;
    for _ in 0..program.ways.len().min(8) {
        let Some(way) = next.and_then(|w| program.way(w)) else {
            break;
        };
        if !matches!(&way.kind, WayKind::Step) {
            return true;
        }
        count = count.saturating_add(1);
        next = way.beside;
    }
    count != 1
}

/// By function, the words that are kept.
pub fn kept_words(alloc: Global, program: &Program) -> Result<Vec<Kept>, NoMemory> {
    let functions = program.entries.len();
    let mut found = vec![in alloc; Found::begun(); functions]?;
    for (k, node) in program.nodes.iter().enumerate() {
        let f = node.function;
        if f < found.len() {
            if program.entry(f) != Some(k) && is_joined(program, k) {
                found[f].forget();
            }
            found[f].look_at(node.instr);
        }
    }
    let mut kept = Vec::new(alloc);
    for one in &found {
        kept.push(one.kept())?;
    }
    Ok(kept)
}
