//! The registers that loops move on, and the forms by which they end.

ghost use Rattle.std.specs.Prelude.{◌<◌, length};

use crate::forms::{Forms, difference, sum};
use crate::passing::is_restorable;
use crate::program::{Node, Program};
use crate::ways::WayKind;
use loop_forest::LoopTree;
use scale_base::{ImmOp, Instr, NoMemory};
use std::alloc::Global;
use wrapped_intervals::{Measure, keeps};

/// How many forms a loop has at most.
const MOST_OF_LOOP: usize = 6;

/// How many registers are looked at that go with one that is tested.
const MOST_BESIDE: usize = 2;

/// What a loop does to a register.
#[derive(Clone, Copy, PartialEq, Eq)]
enum Move {
    Kept,
    Rises,
    Falls,
    Lost,
}

// What two instructions of a loop do.
fn both(one: Move, other: Move) -> Move {
    match (one, other) {
        (Move::Kept, _) => other,
        (_, Move::Kept) => one,
        _ => { if one == other { one } else { Move::Lost } }
    }
}

// What an instruction does to a register that it writes.
fn move_by(i: Instr, r: u8) -> Move {
    match i {
        Instr::Imm {
            op: ImmOp::Addi,
            rd,
            rs1,
            imm,
        } if rd == r && rs1 == r => {
            if imm > 0 {
                Move::Rises
            } else if imm < 0 {
                Move::Falls
            } else {
                Move::Kept
            }
        }
        _ => Move::Lost,
    }
}

// By how much an instruction moves the register on that it writes, if none has moved it before.
fn one_step(before: Move, i: Instr) -> Option<i32> {
    match (before, i) {
        (
            Move::Kept,
            Instr::Imm {
                op: ImmOp::Addi,
                imm,
                ..
            },
        ) => Some(imm),
        _ => None,
    }
}

// By how much more or less than a register another one is that an instruction writes.
fn step_to(i: Instr, r: u8) -> Option<i32> {
    match i {
        Instr::Imm {
            op: ImmOp::Addi,
            rd,
            rs1,
            imm,
        } if rs1 == r && rd != r && imm != 0 => Some(imm),
        _ => None,
    }
}

// How many times as far one step goes as another, modulo 2^32, where that is a whole number.
fn times_as_far(one: Option<i32>, other: Option<i32>) -> Option<u32> {
    let (m, n) = (i64::from(one?), i64::from(other?));
    if n == 0 || m == 0 || m % n != 0 {
        return None;
    }
    let times = i32::try_from(m / n).ok()?;
    Some(times.cast_unsigned())
}

/// A register that a loop tests: where it goes, and by how much, if that is one number.
#[derive(Clone, Copy)]
struct Tested {
    register: u8,
    way: Move,
    step: Option<i32>,
}

// Whether a node calls a function.
fn is_call(program: &Program, node: &Node) -> bool {
    match program.way(node.first) {
        Some(way) => matches!(way.kind, WayKind::Call(_) | WayKind::Back(_)),
        None => false,
    }
}

/// A loop that is looked at: what it does to the registers.
#[derive(Drop)]
struct Moving<'a> {
    program: &'a Program,
    header: usize,
    moves: [Move; 32],
    /// By how much, where that is one number.
    steps: [Option<i32>; 32],
    /// By node, the number of the last loop in whose body it is seen, and one more.
    inside: &'a [usize],
    number: usize,
}

impl Moving<'_> {
    fn note(&mut self, k: usize) {
        let Some(node) = self.program.node(k) else {
            return;
        };
        let calls = is_call(self.program, &node);
        for r in 1..32u8 {
            let place = usize::from(r);
            if !keeps(r, node.instr) {
                self.steps[place] = one_step(self.moves[place], node.instr);
                self.moves[place] = both(self.moves[place], move_by(node.instr, r));
            }
            if calls && !is_restorable(r) {
                self.moves[place] = Move::Lost;
            }
        }
    }

    fn move_of(&self, r: u8) -> Move {
        self.moves
            .get(usize::from(r))
            .copied()
            .unwrap_or(Move::Lost)
    }

    // Whether a node leads out of the body, or back to the header.
    fn is_turning(&self, node: &Node) -> bool {
        for w in node.first..node.end {
            if let Some(way) = self.program.way(w) {
                let at = self.inside.get(way.to).copied().unwrap_or(0);
                if way.to == self.header || at != self.number {
                    return true;
                }
            }
        }
        false
    }

    // The registers that a node compares, where it may end the loop.
    fn compared(&self, k: usize) -> Option<(u8, u8)> {
        let node = self.program.node(k)?;
        match node.instr {
            Instr::Branch { rs1, rs2, .. }
                if rs1 > 1 && rs2 > 1 && rs1 != rs2 && self.is_turning(&node) => Some((rs1, rs2)),
            _ => None,
        }
    }

    // The registers that a node compares with anything, where it may end the loop.
    fn tested(&self, k: usize) -> [u8; 2] {
        match self.program.node(k) {
            Some(node) if self.is_turning(&node) => match node.instr {
                Instr::Branch { rs1, rs2, .. } => [rs1, rs2],
                _ => [0; 2],
            },
            _ => [0; 2],
        }
    }

    // What a node makes of a register, by a copy of it, one more or one less, to another one.
    fn step_from(&self, k: usize, r: u8) -> Move {
        match self.program.node(k).and_then(|node| step_to(node.instr, r)) {
            Some(imm) => { if imm > 0 { Move::Rises } else { Move::Falls } }
            None => Move::Kept,
        }
    }

    // Where a register goes that is moved on by way of another one.
    fn moved_aside(&self, body: &[usize], r: u8) -> Move {
        let mut way = Move::Kept;
        for k in body {
            way = both(way, self.step_from(*k, r));
        }
        way
    }

    // Looks for a form of a register that is tested and goes such a way with one that is moved on: with one that goes so many times as far, the form has the one
    // that is tested so many times.
    fn want_beside(&self, forms: &mut Forms, moved: u8, tested: Tested) -> Result<(), NoMemory> {
        let other = tested.register;
        let m = match times_as_far(self.step_of(moved), tested.step) {
            Some(times) => Measure {
                other_factor: times.wrapping_neg(),
                ..difference(moved, other)
            },
            None => {
                if self.move_of(moved) == tested.way {
                    difference(moved, other)
                } else {
                    sum(moved, other)
                }
            }
        };
        let j = forms.begin_family(m, None)?;
        forms.want_from(self.program, j, self.header)
    }

    fn step_of(&self, r: u8) -> Option<i32> {
        self.steps.get(usize::from(r)).copied().flatten()
    }

    // Whether a register is moved on, and goes with another one, which is tested and is moved on too, or by way of a third one.
    fn goes_with(&self, moved: u8, tested: Tested) -> bool {
        match (self.move_of(moved), self.move_of(tested.register)) {
            (Move::Rises | Move::Falls, Move::Lost) => true,
            (Move::Rises | Move::Falls, _) => {
                moved != tested.register && times_as_far(self.step_of(moved), tested.step).is_some()
            }
            _ => false,
        }
    }

    // By how much a register is moved on by way of another one, where that is one number.
    fn step_aside(&self, body: &[usize], r: u8) -> Option<i32> {
        let mut step = None;
        for k in body {
            if let Some(imm) = self
                .program
                .node(*k)
                .and_then(|node| step_to(node.instr, r))
            {
                if step.is_some_and(|other| other != imm) {
                    return None;
                }
                step = Some(imm);
            }
        }
        step
    }

    // A register that is tested, if it is moved on.
    fn tested_register(&self, body: &[usize], register: u8) -> Option<Tested> {
        let (way, step) = match self.move_of(register) {
            Move::Lost => (
                self.moved_aside(body, register),
                self.step_aside(body, register),
            ),
            way => (way, self.step_of(register)),
        };
        if register < 3 || way == Move::Kept || way == Move::Lost {
            None
        } else {
            Some(Tested {
                register,
                way,
                step,
            })
        }
    }

    // The same with each that is moved on.
    fn want_aside(&self, forms: &mut Forms, body: &[usize], r: u8) -> Result<(), NoMemory> {
        let Some(tested) = self.tested_register(body, r) else {
            return Ok(());
        };
        let mut found = 0;
        for r in 3..32u8 {
            if found < MOST_BESIDE && self.goes_with(r, tested) {
                found += 1;
                self.want_beside(forms, r, tested)?;
            }
        }
        Ok(())
    }

    // Looks for a form of two registers of which the first rises towards the other, or the other falls.
    fn want(&self, forms: &mut Forms, register: u8, other: u8) -> Result<(), NoMemory> {
        let j = forms.begin_family(difference(register, other), Some(self.header))?;
        forms.want_from(self.program, j, self.header)
    }

    fn want_difference(&self, forms: &mut Forms, one: u8, other: u8) -> Result<(), NoMemory> {
        match (self.move_of(one), self.move_of(other)) {
            (Move::Rises, Move::Kept | Move::Falls) => self.want(forms, one, other),
            (Move::Falls, Move::Kept) => {
                self.want(forms, other, one)?;
                self.want(forms, one, other)
            }
            _ => Ok(()),
        }
    }
}

// Whether two registers are among those that were looked at.
fn is_among(pairs: &[(u8, u8)], one: u8, other: u8) -> bool {
    for pair in pairs {
        if (pair.0 == one && pair.1 == other) || (pair.0 == other && pair.1 == one) {
            return true;
        }
    }
    false
}

// Looks for the forms by which a loop may end.
fn add_loop(
    alloc: Global,
    forms: &mut Forms,
    moving: &Moving<'_>,
    body: &[usize],
) -> Result<(), NoMemory> {
    let mut pairs = Vec::new(alloc);
    let mut asides = [false; 32];
    for k in body {
        if let Some((one, other)) = moving.compared(*k) {
            if pairs.len() < MOST_OF_LOOP && !is_among(&pairs, one, other) {
                pairs.push((one, other))?;
                moving.want_difference(forms, one, other)?;
                moving.want_difference(forms, other, one)?;
            }
        }
        for r in moving.tested(*k) {
            let place = usize::from(r);
            if place < 32 && !asides[place] {
                asides[place] = true;
                moving.want_aside(forms, body, r)?;
            }
        }
    }
    Ok(())
}

// Notes the body of a loop.
fn note_body(inside: &mut [usize], body: &[usize], number: usize) {
    for k in body {
        if *k < inside.len() {
            inside[*k] = number;
        }
    }
}

/// Looks for the forms by which loops may end.
pub fn add_loops(
    alloc: Global,
    forms: &mut Forms,
    program: &Program,
    tree: &LoopTree,
) -> Result<(), NoMemory> {
    let mut inside = vec![in alloc; 0usize; program.nodes.len()]?;
    for l in 0..tree.loop_count() {
        let body = tree.body(l);
        let number = l.saturating_add(1);
        note_body(&mut inside, body, number);
        let mut moving = Moving {
            program,
            header: tree.header(l),
            moves: [Move::Kept; 32],
            steps: [None; 32],
            inside: &inside,
            number,
        };
        for k in body {
            moving.note(*k);
        }
        add_loop(alloc, forms, &moving, body)?;
    }
    Ok(())
}
