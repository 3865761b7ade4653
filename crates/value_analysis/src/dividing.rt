//! The registers that loops divide or shift, and those with which they count how often: pairs of them are looked for from the loops' headers on.

ghost use Rattle.std.specs.Prelude.{◌≡◌, ◌<◌, length};

use crate::orders::leaving_order;
use crate::program::{Node, Program};
use crate::ways::WayKind;
use loop_forest::LoopTree;
use scale_base::{ImmOp, Instr, NoMemory, RegOp};
use stack_tables::{Dwindling, MOST_DWINDLING};
use std::alloc::Global;
use wrapped_intervals::keeps;

/// How often the registers that are used later are looked for at all nodes.
const MOST_ROUNDS: usize = 32;

/// How many nodes before a division are looked at for its divisor.
const MOST_BEFORE: usize = 256;

/// How many bits a division takes off where its divisor isn't seen: those of one by 10.
const BITS: u8 = 3;

/// From how many bits on a shift takes a number's highest bits.
const MOST_BITS: u8 = 16;

/// How many of the loop's registers a value goes through at most.
const MOST_COPIES: usize = 3;

/// The most that a count is raised by at once.
const MOST_RAISED: i32 = 4;

/// The pairs that begin at each node, and the registers that are read there or behind it, before they are written.
#[derive(Drop)]
pub struct Divided {
    begun: Vec<Vec<Dwindling>>,
    live: Vec<[bool; 32]>,
}

/// A register that an instruction makes of another one, which is divided by two to the power of so many bits, or more.
#[derive(Clone, Copy)]
pub struct Quotient {
    pub to: u8,
    pub from: u8,
    pub bits: u8,
}

// A register as a place in a row.
fn place_of(r: u8) -> Option<usize> {
    if 0 < r && r < 32 {
        Some(usize::from(r))
    } else {
        None
    }
}

// Whether a row has a register.
fn has(row: &[bool; 32], r: u8) -> bool {
    row.get(usize::from(r)).copied().unwrap_or(false)
}

// Adds a register to a row.
fn add(row: &mut [bool; 32], r: u8) {
    if let Some(k) = place_of(r) {
        if k < 32 {
            row[k] = true;
        }
    }
}

/// How many bits a number has, but for its highest one that is 1.
pub fn bits_below(n: u64) -> u8 {
    let mut bits = 0u8;
    let mut rest = n;
    for _ in 0..64 {
        rest /= 2;
        if rest > 0 {
            bits = bits.saturating_add(1);
        }
    }
    bits
}

// How many bits the number has that a register is given last before a node, as the nodes of its function stand, but for the highest.
fn constant_bits(program: &Program, k: usize, r: u8) -> u8 {
    let mut next = program.member_beside(k);
    for _ in 0..MOST_BEFORE {
        let Some(node) = next.and_then(|before| program.node(before)) else {
            break;
        };
        if !keeps(r, node.instr) {
            return constant_of(node.instr).map_or(BITS, bits_below);
        }
        next = next.and_then(|before| program.member_beside(before));
    }
    BITS
}

// The positive number that an instruction puts into a register.
fn constant_of(i: Instr) -> Option<u64> {
    match i {
        Instr::Imm {
            op: ImmOp::Addi,
            rd: _,
            rs1: 0,
            imm,
        } if imm > 0 => u64::try_from(imm).ok(),
        _ => None,
    }
}

// What a node divides or shifts. By a product with a number the high word is a quotient, too, whose bits another instruction takes.
fn quotient_of(program: &Program, k: usize, i: Instr) -> Option<Quotient> {
    match i {
        Instr::Imm {
            op: ImmOp::Srli | ImmOp::Srai,
            rd,
            rs1,
            imm,
        } => Some(Quotient {
            to: rd,
            from: rs1,
            bits: u8::try_from(imm).ok()?,
        }),
        Instr::Reg {
            op: RegOp::Div | RegOp::Divu,
            rd,
            rs1,
            rs2,
        } => Some(Quotient {
            to: rd,
            from: rs1,
            bits: constant_bits(program, k, rs2),
        }),
        _ => None,
    }
}

// A register that an instruction makes of another one without more: by a copy, as the high word of a product, or as a signed quotient's last step.
fn moved_by(i: Instr) -> Option<(u8, u8)> {
    match i {
        Instr::Imm {
            op: ImmOp::Addi,
            rd,
            rs1,
            imm: 0,
        } => Some((rd, rs1)),
        Instr::Reg {
            op: RegOp::Mulhu | RegOp::Mulh | RegOp::Sub,
            rd,
            rs1,
            ..
        } => Some((rd, rs1)),
        _ => None,
    }
}

// Whether an instruction takes the high word of a product of signed numbers.
fn is_signed_product(i: Instr) -> bool {
    matches!(
        i,
        Instr::Reg {
            op: RegOp::Mulh,
            ..
        }
    )
}

// The register that an instruction raises by a little.
fn raised_by(i: Instr) -> Option<u8> {
    match i {
        Instr::Imm {
            op: ImmOp::Addi,
            rd: _,
            rs1,
            imm,
        } if 0 < imm && imm <= MOST_RAISED => Some(rs1),
        _ => None,
    }
}

/// What a loop does to registers: those that it writes, divides and raises, by how many bits it divides at least, and whether by signed products.
/// One of these takes off one bit more, as the number that it is by is below 2^31.
#[derive(Clone, Copy)]
struct Dividing {
    written: [bool; 32],
    values: [bool; 32],
    counts: [bool; 32],
    bits: u8,
    is_signed: bool,
}

impl Dividing {
    fn none() -> Dividing {
        Dividing {
            written: [false; 32],
            values: [false; 32],
            counts: [false; 32],
            bits: 0,
            is_signed: false,
        }
    }

    // Takes by how many bits a node divides.
    fn note_bits(&mut self, bits: u8) {
        if 0 < bits && bits < MOST_BITS && (self.bits == 0 || bits < self.bits) {
            self.bits = bits;
        }
    }

    // Takes what a node does.
    fn note(&mut self, program: &Program, k: usize, node: &Node) {
        for r in 1..32u8 {
            if !keeps(r, node.instr) {
                add(&mut self.written, r);
            }
        }
        if let Some(quotient) = quotient_of(program, k, node.instr) {
            add(&mut self.values, quotient.from);
            add(&mut self.values, quotient.to);
            self.note_bits(quotient.bits);
        }
        if let Some(r) = raised_by(node.instr) {
            add(&mut self.counts, r);
        }
        self.is_signed = self.is_signed || is_signed_product(node.instr);
    }

    // By how many bits a pair is divided.
    fn pair_bits(&self) -> u8 {
        if self.is_signed {
            self.bits.saturating_add(1)
        } else {
            self.bits
        }
    }

    // Takes the registers from which values come or to which they go.
    fn note_copies(&mut self, program: &Program, body: &[usize]) {
        for k in body {
            if let Some((to, from)) = program.node(*k).and_then(|node| moved_by(node.instr)) {
                if has(&self.values, to) {
                    add(&mut self.values, from);
                }
                if has(&self.values, from) {
                    add(&mut self.values, to);
                }
            }
        }
    }

    // Whether a register may be one that the loop divides, and whether one may count.
    fn is_value(&self, live: &[bool; 32], r: u8) -> bool {
        has(&self.values, r) && has(&self.written, r) && has(live, r)
    }

    fn is_count(&self, live: &[bool; 32], r: u8) -> bool {
        has(&self.counts, r) && has(&self.written, r) && has(live, r)
    }
}

// Whether an instruction reads a register.
fn reads(i: Instr, r: u8) -> bool {
    match i {
        Instr::Jalr { rs1, .. } => rs1 == r,
        Instr::Load { rs1, .. } => rs1 == r,
        Instr::Imm { rs1, .. } => rs1 == r,
        Instr::Branch { rs1, rs2, .. } => rs1 == r || rs2 == r,
        Instr::Store { rs1, rs2, .. } => rs1 == r || rs2 == r,
        Instr::Reg { rs1, rs2, .. } => rs1 == r || rs2 == r,
        _ => false,
    }
}

// Adds the registers of another row. Whether there were any new ones.
fn add_all(row: &mut [bool; 32], other: &[bool; 32]) -> bool {
    let mut added = false;
    for k in 0..32 {
        if other[k] && !row[k] {
            row[k] = true;
            added = true;
        }
    }
    added
}

// The registers that are used at a node or behind it, by those of the nodes behind it.
fn used_from(program: &Program, live: &[[bool; 32]], node: &Node) -> [bool; 32] {
    let mut used = [false; 32];
    for w in node.first..node.end {
        if let Some(way) = program.way(w) {
            if let (WayKind::Step, Some(row)) = (way.kind, live.get(way.to)) {
                let _added = add_all(&mut used, row);
            }
        }
    }
    used
}

// The same before the node's instruction.
fn used_at(i: Instr, used: &[bool; 32]) -> [bool; 32] {
    let mut row = [false; 32];
    for r in 1..32u8 {
        let k = usize::from(r);
        if k < 32 {
            row[k] = reads(i, r) || (used[k] && keeps(r, i));
        }
    }
    row
}

// Looks at all nodes once. Whether a register is found that wasn't.
fn use_once(program: &Program, order: &[usize], live: &mut [[bool; 32]]) -> bool {
    let mut found = false;
    for k in order {
        if let Some(node) = program.node(*k) {
            let used = used_at(node.instr, &used_from(program, live, &node));
            if *k < live.len() && add_all(&mut live[*k], &used) {
                found = true;
            }
        }
    }
    found
}

// By node, the registers that are used there or behind it.
fn used_registers(alloc: Global, program: &Program) -> Result<Vec<[bool; 32]>, NoMemory> {
    let order = leaving_order(alloc, program)?;
    let mut live = vec![in alloc; [false; 32]; program.nodes.len()]?;
    for _ in 0..MOST_ROUNDS {
        if !use_once(program, &order, &mut live) {
            break;
        }
    }
    Ok(live)
}

// What a loop does.
fn dividing_of(program: &Program, body: &[usize]) -> Dividing {
    let mut dividing = Dividing::none();
    for k in body {
        if let Some(node) = program.node(*k) {
            dividing.note(program, *k, &node);
        }
    }
    dividing
}

// The same, with the registers that its values go through.
fn dividing_with_copies(program: &Program, body: &[usize]) -> Dividing {
    let mut dividing = dividing_of(program, body);
    for _ in 0..MOST_COPIES {
        dividing.note_copies(program, body);
    }
    dividing
}

// The pairs of a value and each count.
fn add_pairs(
    row: &mut Vec<Dwindling>,
    dividing: &Dividing,
    live: &[bool; 32],
    value: u8,
) -> Result<(), NoMemory> {
    for count in 3..32u8 {
        if value != count && dividing.is_count(live, count) && row.len() < MOST_DWINDLING * 4 {
            row.push(Dwindling {
                value,
                count,
                bits: dividing.pair_bits(),
                below: 0,
            })?;
        }
    }
    Ok(())
}

// The pairs that begin at the header of a loop.
fn begin_loop(
    row: &mut Vec<Dwindling>,
    dividing: &Dividing,
    live: &[bool; 32],
) -> Result<(), NoMemory> {
    for value in 3..32u8 {
        if dividing.is_value(live, value) {
            add_pairs(row, dividing, live, value)?;
        }
    }
    Ok(())
}

// Whether any loop divides.
fn is_any(dividing: &[Dividing]) -> bool {
    for it in dividing {
        if it.bits > 0 {
            return true;
        }
    }
    false
}

// What each loop does.
fn all_dividing(
    alloc: Global,
    program: &Program,
    tree: &LoopTree,
) -> Result<Vec<Dividing>, NoMemory> {
    let mut all = Vec::new(alloc);
    for l in 0..tree.loop_count() {
        all.push(dividing_with_copies(program, tree.body(l)))?;
    }
    Ok(all)
}

// No pairs at each of so many nodes.
fn no_pairs(alloc: Global, count: usize) -> Result<Vec<Vec<Dwindling>>, NoMemory> {
    let mut rows = Vec::new(alloc);
    for _ in 0..count {
        rows.push(Vec::new(alloc))?;
    }
    Ok(rows)
}

// The pairs that begin at the headers of all loops.
fn begin_all(
    begun: &mut [Vec<Dwindling>],
    tree: &LoopTree,
    all: &[Dividing],
    live: &[[bool; 32]],
) -> Result<(), NoMemory> {
    for l in 0..tree.loop_count() {
        let header = tree.header(l);
        if let (Some(dividing), Some(used)) = (all.get(l), live.get(header)) {
            if dividing.bits > 0 && header < begun.len() {
                begin_loop(&mut begun[header], dividing, used)?;
            }
        }
    }
    Ok(())
}

impl Divided {
    /// No pairs.
    pub fn none(alloc: Global) -> Divided {
        Divided {
            begun: Vec::new(alloc),
            live: Vec::new(alloc),
        }
    }

    /// The pairs of all loops.
    pub fn of(alloc: Global, program: &Program, tree: &LoopTree) -> Result<Divided, NoMemory> {
        let all = all_dividing(alloc, program, tree)?;
        if !is_any(&all) {
            return Ok(Divided::none(alloc));
        }
        let live = used_registers(alloc, program)?;
        let mut begun = no_pairs(alloc, program.nodes.len())?;
        begin_all(&mut begun, tree, &all, &live)?;
        Ok(Divided { begun, live })
    }

    /// Whether there are none.
    pub fn is_none(&self) -> bool {
        self.begun.is_empty()
    }

    /// Those that begin at a node.
    pub fn begun_at(&self, k: usize) -> &[Dwindling] {
        match self.begun.get(k) {
            Some(row) => row,
            None => &[],
        }
    }

    /// Whether both registers of a pair are used at a node or behind it.
    pub fn is_used(&self, k: usize, pair: &Dwindling) -> bool {
        match self.live.get(k) {
            Some(row) => has(row, pair.value) && has(row, pair.count),
            None => false,
        }
    }
}
