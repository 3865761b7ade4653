//! Where registers of a lowered image may have words of tables, of which nothing is promised: from each jump back to the loads.

use crate::chains::Chains;
use code_text::instr_at;
use elf_image::ImageView;
use fixed_tables::Table;
use jump_laws::TableRead;
use jump_lists::JumpNote;
use scale_base::{Instr, LoadOp, NoMemory, RegOp};
use stack_tables::StackClaim;
use std::alloc::Global;
use wrapped_intervals::Arc;

/// So many nodes on the way back from a jump are looked at.
const MOST_NODES: usize = 256;

/// What has to be known before an instruction: nothing, something, or it isn't shown.
#[derive(Clone, Copy)]
enum Before {
    Nothing,
    Known(TableRead),
    Unknown,
}

/// What is to be known at a node.
#[derive(Clone, Copy)]
struct Item {
    node: usize,
    read: TableRead,
}

/// Tables for a program, and the edges to each of its nodes.
#[derive(Clone, Copy)]
struct Search<'a> {
    claim: &'a StackClaim<'a>,
    chains: &'a Chains,
}

// The register that an instruction writes.
fn written_by(instr: &Instr) -> u8 {
    match *instr {
        Instr::Lui { rd, .. }
        | Instr::Auipc { rd, .. }
        | Instr::Jal { rd, .. }
        | Instr::Jalr { rd, .. }
        | Instr::Load { rd, .. }
        | Instr::Imm { rd, .. }
        | Instr::Reg { rd, .. } => rd,
        Instr::Ecall => 10,
        Instr::Branch { .. } | Instr::Store { .. } | Instr::Fence { .. } | Instr::Ebreak => 0,
    }
}

// Whether an interval of addresses is within those of a table's words.
fn is_within(table: Table, arc: Arc, offset: i32) -> bool {
    let step = u64::from(table.step);
    if table.base != 0 || table.count == 0 || step == 0 {
        return false;
    }
    let low = (arc.low() % 0x1_0000_0000) as u32;
    let first = low.wrapping_add(offset.cast_unsigned());
    let behind = u64::from(first.wrapping_sub(table.at));
    behind % step == 0
        && (arc.more() == 0 || arc.stride() % step == 0)
        && behind.saturating_add(arc.more()) <= step.saturating_mul(u64::from(table.count - 1))
}

impl Search<'_> {
    // The instruction of a node.
    fn instr(&self, node: usize) -> Option<Instr> {
        if node >= self.claim.graph.node_count() {
            return None;
        }
        let _file = self.claim.view.file();
        instr_at(self.claim.view, self.claim.graph.node(node))
    }

    // The interval of a register before the instruction of a node.
    fn held(&self, node: usize, register: u8) -> Option<Arc> {
        let row = self.claim.table.rows.get(node)?;
        *row.get(usize::from(register))?
    }

    // The one number that a register holds.
    fn number(&self, node: usize, register: u8) -> Option<u32> {
        let arc = self.held(node, register)?;
        if arc.more() != 0 {
            return None;
        }
        Some((arc.low() % 0x1_0000_0000) as u32)
    }

    // What has to be known before a sum of a register and a number.
    fn before_sum(&self, node: usize, rs1: u8, rs2: u8, table: Table) -> Before {
        let (register, number) = match (self.number(node, rs1), self.number(node, rs2)) {
            (_, Some(number)) => (rs1, number),
            (Some(number), None) => (rs2, number),
            (None, None) => return Before::Unknown,
        };
        let base = table.base.wrapping_sub(number);
        Before::Known(TableRead {
            register,
            table: Table { base, ..table },
        })
    }

    // What has to be known before the instruction of a node, so that something is known behind it.
    fn before(&self, node: usize, read: TableRead) -> Before {
        let Some(instr) = self.instr(node) else {
            return Before::Unknown;
        };
        if written_by(&instr) != read.register {
            return Before::Known(read);
        }
        match instr {
            Instr::Load {
                op: LoadOp::Lw,
                rs1,
                offset,
                ..
            } => match self.held(node, rs1) {
                Some(arc) if is_within(read.table, arc, offset) => Before::Nothing,
                _ => Before::Unknown,
            },
            Instr::Reg {
                op: RegOp::Add,
                rs1,
                rs2,
                ..
            } => self.before_sum(node, rs1, rs2, read.table),
            _ => Before::Unknown,
        }
    }

    // Whether a function begins at a node.
    fn begins(&self, node: usize) -> bool {
        let graph = self.claim.graph;
        if node >= graph.node_count() {
            return true;
        }
        let f = graph.owner(node);
        f >= graph.function_count() || graph.entry_node(f) == node
    }

    // Adds what has to be known over an edge. False where it isn't shown.
    fn look_over(
        &self,
        items: &mut Vec<Item>,
        e: usize,
        read: TableRead,
    ) -> Result<bool, NoMemory> {
        let graph = self.claim.graph;
        if e >= graph.edge_count() || graph.callee(e).is_some() {
            return Ok(false);
        }
        let node = graph.source(e);
        if !self.claim.table.live.get(node).copied().unwrap_or(false) {
            return Ok(true);
        }
        match self.before(node, read) {
            Before::Nothing => Ok(true),
            Before::Known(read) => add(items, Item { node, read }),
            Before::Unknown => Ok(false),
        }
    }

    // The same over all edges to a node.
    fn look_back(&self, items: &mut Vec<Item>, item: Item) -> Result<bool, NoMemory> {
        if self.begins(item.node) {
            return Ok(false);
        }
        let mut next = self.chains.last(item.node);
        for _ in 0..self.chains.count() {
            let Some(e) = next else {
                return Ok(true);
            };
            if !self.look_over(items, e, item.read)? {
                return Ok(false);
            }
            next = self.chains.before(e);
        }
        Ok(true)
    }

    // All that has to be known so that something is known at a node. None where it isn't shown.
    fn items(&self, alloc: Global, item: Item) -> Result<Option<Vec<Item>>, NoMemory> {
        let mut items = Vec::new(alloc);
        items.push(item)?;
        for k in 0..MOST_NODES {
            let Some(next) = items.get(k).copied() else {
                return Ok(Some(items));
            };
            if !self.look_back(&mut items, next)? {
                return Ok(None);
            }
        }
        Ok(None)
    }

    // The same of a noted jump.
    fn items_of(
        &self,
        alloc: Global,
        original: &ImageView<'_>,
        note: &JumpNote,
        table: Table,
    ) -> Result<Option<Vec<Item>>, NoMemory> {
        let _file = original.file();
        let Some(Instr::Jalr { rs1, .. }) = instr_at(original, note.at) else {
            return Ok(None);
        };
        let Some(node) = self.claim.graph.find(note.at) else {
            return Ok(None);
        };
        let read = TableRead {
            register: rs1,
            table,
        };
        self.items(alloc, Item { node, read })
    }
}

// Adds what has to be known at a node. False where something else has to be known there.
fn add(items: &mut Vec<Item>, item: Item) -> Result<bool, NoMemory> {
    for other in items.iter() {
        if other.node == item.node {
            return Ok(other.read == item.read);
        }
    }
    items.push(item)?;
    Ok(true)
}

// Whether nothing else is known at the nodes.
fn are_free(reads: &[Option<TableRead>], items: &[Item]) -> bool {
    items.iter().all(|item| match reads.get(item.node) {
        Some(Some(read)) => *read == item.read,
        Some(None) => true,
        None => false,
    })
}

// Puts what is known into its places.
fn put(reads: &mut Vec<Option<TableRead>>, items: &[Item]) {
    for item in items {
        if item.node < reads.len() {
            reads[item.node] = Some(item.read);
        }
    }
}

/// By node, what may be known of a register and a table, for each noted jump of which it is found. `tables` has the table of each note.
pub fn propose_reads(
    alloc: Global,
    original: &ImageView<'_>,
    claim: &StackClaim<'_>,
    notes: &[JumpNote],
    tables: &[Table],
) -> Result<Vec<Option<TableRead>>, NoMemory> {
    let chains = Chains::of(alloc, claim.graph)?;
    let search = Search {
        claim,
        chains: &chains,
    };
    let mut reads: Vec<Option<TableRead>> = vec![in alloc; None; claim.graph.node_count()]?;
    for (note, table) in notes.iter().zip(tables) {
        if let Some(items) = search.items_of(alloc, original, note, *table)?
            && are_free(&reads, &items)
        {
            put(&mut reads, &items);
        }
    }
    Ok(reads)
}
