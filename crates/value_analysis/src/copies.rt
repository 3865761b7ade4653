//! The forms by which a test of a register, or an access through it, says something of another one that is a copy of it, or so much more.

ghost use Rattle.std.specs.Prelude.{◌<◌};

use crate::areas::access_of;
use crate::forms::{Forms, difference};
use crate::passing::is_restorable;
use crate::program::Program;
use crate::ways::{Way, WayKind};
use loop_forest::LoopTree;
use scale_base::{ImmOp, Instr, NoMemory, RegOp};
use std::alloc::Global;
use wrapped_intervals::{Measure, effect, keeps};

/// How many nodes behind a copy are looked at.
const MOST_NODES: usize = 48;

/// How many copies are looked at.
const MOST_COPIES: usize = 65_536;

/// Two registers of which one is so much more than the other: by a number, or by what a third one holds.
#[derive(Clone, Copy)]
struct Copied {
    to: u8,
    from: u8,
    is_sum: bool,
}

// A register that is so much more than another one, where both may be in a form.
fn copy_between(to: u8, from: u8, is_sum: bool) -> Option<Copied> {
    if to > 2 && from > 2 && to != from {
        Some(Copied { to, from, is_sum })
    } else {
        None
    }
}

// The copies that an instruction makes.
fn copies_of(i: Instr) -> [Option<Copied>; 2] {
    match i {
        Instr::Imm {
            op: ImmOp::Addi,
            rd,
            rs1,
            imm: _,
        } => [copy_between(rd, rs1, false), None],
        Instr::Reg {
            op: RegOp::Add,
            rd,
            rs1,
            rs2,
        } if rd != rs1 && rd != rs2 => [copy_between(rd, rs1, true), copy_between(rd, rs2, true)],
        _ => [None; 2],
    }
}

/// By node, the number of the copy behind which it was found last, and whether a loop begins there.
#[derive(Drop)]
struct Seen {
    numbers: Vec<usize>,
    begins_loop: Vec<bool>,
}

impl Seen {
    fn new(alloc: Global, nodes: usize, tree: &LoopTree) -> Result<Seen, NoMemory> {
        let mut begins_loop = vec![in alloc; false; nodes]?;
        for l in 0..tree.loop_count() {
            let header = tree.header(l);
            if header < begins_loop.len() {
                begins_loop[header] = true;
            }
        }
        Ok(Seen {
            numbers: vec![in alloc; 0usize; nodes]?,
            begins_loop,
        })
    }

    // Finds a node behind a copy. Whether it wasn't found there before.
    fn find(&mut self, k: usize, number: usize) -> bool {
        if k >= self.numbers.len() || self.numbers[k] == number {
            return false;
        }
        self.numbers[k] = number;
        true
    }

    fn is_loop(&self, k: usize) -> bool {
        self.begins_loop.get(k).copied().unwrap_or(true)
    }
}

/// The nodes behind a copy, which has a number of its own, as they are found, up to how many of them there is a test of the register that is copied, and of the copy;
/// and whether a loop has begun, from where on neither register may be moved on: the distance of both would grow there.
#[derive(Drop)]
struct Behind {
    copy: Copied,
    number: usize,
    nodes: Vec<usize>,
    tested_from: usize,
    tested_to: usize,
    looped: bool,
}

impl Behind {
    fn add(&mut self, seen: &mut Seen, k: usize) -> Result<(), NoMemory> {
        if self.nodes.len() < MOST_NODES && seen.find(k, self.number) {
            self.nodes.push(k)?;
        }
        Ok(())
    }

    // Whether the copy is left over a way: behind a call, where both registers are those that functions give back.
    fn is_left_over(&self, way: &Way) -> bool {
        match way.kind {
            WayKind::Step => true,
            WayKind::Back(_) => is_restorable(self.copy.to) && is_restorable(self.copy.from),
            _ => false,
        }
    }

    // Notes a test at the node of a place.
    fn note_test(&mut self, i: Instr, place: usize) {
        if self.copy.is_sum {
            return;
        }
        if let Instr::Branch { rs1, rs2, .. } = i {
            if rs1 == self.copy.from || rs2 == self.copy.from {
                self.tested_from = place.saturating_add(1);
            }
            if rs1 == self.copy.to || rs2 == self.copy.to {
                self.tested_to = place.saturating_add(1);
            }
        }
    }

    // Notes a load or a store by the copy, behind which the nodes are up to a place.
    fn note_access(&mut self, i: Instr, place: usize) {
        if let Some(access) = access_of(i) {
            let is_left = keeps(access.register, i);
            if is_left && access.register == self.copy.from && !self.copy.is_sum {
                self.tested_from = place;
            }
            if is_left && access.register == self.copy.to {
                self.tested_to = place;
            }
        }
    }

    // Notes a load by one of both registers, over which it writes, at the node of a place.
    fn note_overwriting(&mut self, i: Instr, place: usize) {
        if let Some(access) = access_of(i) {
            let is_left = keeps(access.register, i);
            if !is_left && access.register == self.copy.from && !self.copy.is_sum {
                self.tested_from = place.saturating_add(1);
            }
            if !is_left && access.register == self.copy.to {
                self.tested_to = place.saturating_add(1);
            }
        }
    }

    // Whether an instruction makes something else of one of both registers, or moves it on in a loop.
    fn is_end(&self, i: Instr) -> bool {
        if keeps(self.copy.from, i) && keeps(self.copy.to, i) {
            return false;
        }
        self.looped || effect(difference(self.copy.to, self.copy.from), i).is_none()
    }

    // Looks at the node of a place.
    fn look_at(
        &mut self,
        program: &Program,
        seen: &mut Seen,
        place: usize,
    ) -> Result<(), NoMemory> {
        let Some(k) = self.nodes.get(place).copied() else {
            return Ok(());
        };
        let Some(node) = program.node(k) else {
            return Ok(());
        };
        self.note_test(node.instr, place);
        self.note_overwriting(node.instr, place);
        self.looped = self.looped || seen.is_loop(k);
        if self.is_end(node.instr) {
            return Ok(());
        }
        for w in node.first..node.end {
            if let Some(way) = program.way(w) {
                if self.is_left_over(&way) {
                    self.add(seen, way.to)?;
                }
            }
        }
        let count = self.nodes.len();
        self.note_access(node.instr, count);
        Ok(())
    }

    // Looks for a form before the first nodes.
    fn want(
        &self,
        forms: &mut Forms,
        register: u8,
        other: u8,
        count: usize,
    ) -> Result<(), NoMemory> {
        if count == 0 {
            return Ok(());
        }
        let j = forms.begin_family(difference(register, other), None)?;
        for place in 0..count {
            if let Some(k) = self.nodes.get(place).copied() {
                let _new = forms.add(j, k)?;
            }
        }
        Ok(())
    }
}

// Looks for the forms of a copy at a node.
fn add_copy(
    forms: &mut Forms,
    program: &Program,
    seen: &mut Seen,
    k: usize,
    behind: &mut Behind,
) -> Result<(), NoMemory> {
    behind.add(seen, k.saturating_add(1))?;
    for place in 0..MOST_NODES {
        behind.look_at(program, seen, place)?;
    }
    let copy = behind.copy;
    behind.want(forms, copy.to, copy.from, behind.tested_from)?;
    behind.want(forms, copy.from, copy.to, behind.tested_to)
}

// Looks for the forms of the copies at a node.
fn add_copies_at(
    alloc: Global,
    forms: &mut Forms,
    program: &Program,
    seen: &mut Seen,
    k: usize,
) -> Result<(), NoMemory> {
    let Some(node) = program.node(k) else {
        return Ok(());
    };
    let mut number = k.saturating_mul(2);
    for copy in copies_of(node.instr) {
        number = number.saturating_add(1);
        if let Some(copy) = copy {
            let mut behind = Behind {
                copy,
                number,
                nodes: Vec::new(alloc),
                tested_from: 0,
                tested_to: 0,
                looped: false,
            };
            add_copy(forms, program, seen, k, &mut behind)?;
        }
    }
    Ok(())
}

// The difference of two registers that an instruction writes.
fn difference_written(i: Instr) -> Option<Measure> {
    match i {
        Instr::Reg {
            op: RegOp::Sub,
            rd: _,
            rs1,
            rs2,
        } => {
            if rs1 > 1 && rs2 > 1 && rs1 != rs2 {
                Some(difference(rs1, rs2))
            } else {
                None
            }
        }
        _ => None,
    }
}

// Looks for the form of a difference that the instruction at a node writes, from there back.
fn add_difference(forms: &mut Forms, program: &Program, k: usize) -> Result<(), NoMemory> {
    let Some(written) = program
        .node(k)
        .and_then(|node| difference_written(node.instr))
    else {
        return Ok(());
    };
    let j = forms.begin_family(written, None)?;
    forms.want_from(program, j, k)
}

/// Looks for the forms of differences that instructions write.
pub fn add_differences(forms: &mut Forms, program: &Program) -> Result<(), NoMemory> {
    for k in 0..program.nodes.len() {
        if forms.forms.len() < MOST_COPIES {
            add_difference(forms, program, k)?;
        }
    }
    Ok(())
}

/// Looks for the forms of copies.
pub fn add_copies(
    alloc: Global,
    forms: &mut Forms,
    program: &Program,
    tree: &LoopTree,
) -> Result<(), NoMemory> {
    let mut seen = Seen::new(alloc, program.nodes.len(), tree)?;
    for k in 0..program.nodes.len() {
        if forms.forms.len() < MOST_COPIES {
            add_copies_at(alloc, forms, program, &mut seen, k)?;
        }
    }
    Ok(())
}
