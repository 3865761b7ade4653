//! Where the value of a register comes from: backwards over the code, to the loads of table words.

ghost use Rattle.std.specs.Prelude.{◌<◌, length};

use crate::addresses::{Numbers, fewer};
use crate::reasons::Reason;
use crate::tables::joined;
use code_text::instr_at;
use elf_image::ImageView;
use fixed_tables::{Table, fixed_word};
use flow_graph::CodeGraph;
use scale_base::{ImmOp, Instr, LoadOp, NoMemory, RegOp, StoreOp};
use stack_tables::{Name, Word};
use std::alloc::Global;
use value_analysis::Tables;

/// So many places on the way back from one jump are looked at.
const MOST_ITEMS: usize = 4096;

/// So many steps are made for all jumps.
const MOST_STEPS: u64 = 100_000_000;

/// So many instructions right before a load are looked at.
const MOST_BACK: usize = 16;

/// So many words that are the same are looked at.
const MOST_NAMES: usize = 4;

/// What holds a value: a register, or the word so many bytes above what a register holds.
#[derive(Clone, Copy, PartialEq, Eq)]
enum Holder {
    Register(u8),
    Word(u8, i32),
}

/// A multiple of what a holder has by a power of two, and a number more.
#[derive(Clone, Copy)]
struct Sum {
    holder: Holder,
    shift: u32,
    more: u32,
}

impl Sum {
    // The same where the value is that of another holder.
    fn behind_copy(self, holder: Holder) -> Sum {
        Sum { holder, ..self }
    }

    // The same where the value is the sum of a register and a number.
    fn behind_add(self, register: u8, number: u32) -> Sum {
        Sum {
            holder: Holder::Register(register),
            shift: self.shift,
            more: self.more.wrapping_add(number.wrapping_shl(self.shift)),
        }
    }

    // The same where the value is that of a register, shifted.
    fn behind_shift(self, register: u8, shift: u32) -> Option<Sum> {
        let all = self.shift.saturating_add(shift);
        if all > 31 {
            return None;
        }
        Some(Sum {
            holder: Holder::Register(register),
            shift: all,
            more: self.more,
        })
    }

    // The sums where the holder has some numbers.
    fn of(self, numbers: Numbers) -> Option<Numbers> {
        let more = self.more;
        numbers.shifted(self.shift).map(|n| n.moved(more))
    }
}

/// A value before the instruction of a node: what holds it, and what is added to it behind.
#[derive(Clone, Copy, PartialEq, Eq)]
struct Item {
    node: usize,
    holder: Holder,
    base: u32,
}

/// Where a value comes from, by one instruction: another value before it, a table, or nothing that is known.
#[derive(Clone, Copy)]
enum Origin {
    Value(Item),
    Table(Table),
    Unknown(Reason),
}

/// The code of an image with the intervals of its registers, and by node the edges to it.
#[derive(Drop)]
pub struct Tracer<'a> {
    view: &'a ImageView<'a>,
    graph: &'a CodeGraph,
    tables: &'a Tables,
    entered: Vec<Option<usize>>,
    besides: Vec<Option<usize>>,
    most: u64,
}

// By node the last edge to it, and by edge another one to the same node.
fn chain_edges(
    alloc: Global,
    graph: &CodeGraph,
) -> Result<(Vec<Option<usize>>, Vec<Option<usize>>), NoMemory> {
    let mut entered: Vec<Option<usize>> = vec![in alloc; None; graph.node_count()]?;
    let mut besides: Vec<Option<usize>> = Vec::new(alloc);
    for e in 0..graph.edge_count() {
        let to = graph.target(e).unwrap_or(usize::MAX);
        besides.push(entered.get(to).copied().flatten())?;
        if to < entered.len() {
            entered[to] = Some(e);
        }
    }
    Ok((entered, besides))
}

// The register that an instruction writes.
fn written_by(instr: &Instr) -> u8 {
    match *instr {
        Instr::Lui { rd, .. }
        | Instr::Auipc { rd, .. }
        | Instr::Jal { rd, .. }
        | Instr::Jalr { rd, .. }
        | Instr::Load { rd, .. }
        | Instr::Imm { rd, .. }
        | Instr::Reg { rd, .. } => rd,
        Instr::Ecall => 10,
        Instr::Branch { .. } | Instr::Store { .. } | Instr::Fence { .. } | Instr::Ebreak => 0,
    }
}

// What a sum of a word beside a register is before an instruction. None where another store may change the word.
fn word_before(instr: &Instr, sum: Sum, own: u8, place: i32) -> Option<Sum> {
    match *instr {
        Instr::Ecall => None,
        Instr::Store {
            op,
            rs1,
            rs2,
            offset,
        } => {
            if rs1 != own {
                None
            } else if offset == place && op == StoreOp::Sw {
                Some(sum.behind_copy(Holder::Register(rs2)))
            } else if offset.abs_diff(place) >= 4 {
                Some(sum)
            } else {
                None
            }
        }
        _ => {
            if written_by(instr) == own {
                None
            } else {
                Some(sum)
            }
        }
    }
}

// Whether a function gives a register back as it was, by the calling convention.
fn is_saved(register: u8) -> bool {
    matches!(register, 2 | 3 | 4 | 8 | 9 | 18..=27)
}

// The register by which a holder is known.
fn register_of(holder: Holder) -> u8 {
    match holder {
        Holder::Register(register) => register,
        Holder::Word(register, _) => register,
    }
}

impl<'a> Tracer<'a> {
    /// The tracer of a graph, for so many jumps.
    pub fn new(
        alloc: Global,
        view: &'a ImageView<'a>,
        graph: &'a CodeGraph,
        tables: &'a Tables,
        jumps: usize,
    ) -> Result<Tracer<'a>, NoMemory> {
        let (entered, besides) = chain_edges(alloc, graph)?;
        Ok(Tracer {
            view,
            graph,
            tables,
            entered,
            besides,
            most: MOST_STEPS / (jumps as u64).max(1),
        })
    }

    /// Whether a run may come to a node.
    pub fn is_live(&self, node: usize) -> bool {
        self.tables.values.live.get(node).copied().unwrap_or(false)
    }

    // The instruction of a node.
    fn instr(&self, node: usize) -> Option<Instr> {
        if node >= self.graph.node_count() {
            return None;
        }
        let _file = self.view.file();
        instr_at(self.view, self.graph.node(node))
    }

    // The numbers that a register may hold before the instruction of a node.
    fn held(&self, node: usize, register: u8) -> Option<Numbers> {
        let row = self.tables.values.rows.get(node)?;
        let arc = *row.get(usize::from(register))?;
        Numbers::of(arc?)
    }

    // A word of the stack before the instruction of a node.
    fn stack_word(&self, node: usize, number: u32) -> Option<Word> {
        let words = self.tables.stack.words.get(node)?;
        words.get(number as usize).copied()
    }

    // The numbers that a value may be, by the words of the stack that it is known to be the same as.
    fn named(&self, node: usize, register: u8) -> Option<Numbers> {
        let names = self.tables.stack.names.get(node)?;
        let mut name = *names.get(usize::from(register))?;
        let mut more = 0u32;
        let mut found = None;
        for _ in 0..MOST_NAMES {
            let Some(Name::OfWord(number, above)) = name else {
                return found;
            };
            let Some(word) = self.stack_word(node, number) else {
                return found;
            };
            more = more.wrapping_add(above);
            let held = word.arc.and_then(Numbers::of);
            found = fewer(found, held.map(|numbers| numbers.moved(more)));
            name = word.name;
        }
        found
    }

    // The number that a register holds.
    fn number(&self, node: usize, register: u8) -> Option<u32> {
        self.held(node, register)?.only()
    }

    // The node right before one, where there is no other way to that.
    fn alone_before(&self, node: usize) -> Option<usize> {
        if self.begins(node) {
            return None;
        }
        let e = self.entered.get(node).copied().flatten()?;
        if self.besides.get(e).copied().flatten().is_some()
            || e >= self.graph.edge_count()
            || self.graph.callee(e).is_some()
        {
            return None;
        }
        Some(self.graph.source(e))
    }

    // What a sum of a register is before the instruction that writes that.
    fn made_sum(&self, node: usize, instr: &Instr, sum: Sum) -> Option<Sum> {
        match *instr {
            Instr::Load {
                op: LoadOp::Lw,
                rs1,
                offset,
                ..
            } if rs1 == 2 || rs1 == 8 => Some(sum.behind_copy(Holder::Word(rs1, offset))),
            Instr::Imm {
                op: ImmOp::Addi,
                rs1,
                imm,
                ..
            } => Some(sum.behind_add(rs1, imm.cast_unsigned())),
            Instr::Imm {
                op: ImmOp::Slli,
                rs1,
                imm,
                ..
            } => sum.behind_shift(rs1, imm.cast_unsigned()),
            Instr::Reg {
                op: RegOp::Add,
                rs1,
                rs2,
                ..
            } => match (self.number(node, rs1), self.number(node, rs2)) {
                (_, Some(number)) => Some(sum.behind_add(rs1, number)),
                (Some(number), None) => Some(sum.behind_add(rs2, number)),
                (None, None) => None,
            },
            _ => None,
        }
    }

    // What a sum is before an instruction, of what it is behind.
    fn sum_before(&self, node: usize, sum: Sum) -> Option<Sum> {
        let instr = self.instr(node)?;
        match sum.holder {
            Holder::Register(register) => {
                if written_by(&instr) == register {
                    self.made_sum(node, &instr, sum)
                } else {
                    Some(sum)
                }
            }
            Holder::Word(own, place) => word_before(&instr, sum, own, place),
        }
    }

    // The numbers that a sum of a register may be before the instruction of a node.
    fn sums(&self, node: usize, sum: Sum) -> Option<Numbers> {
        let Holder::Register(register) = sum.holder else {
            return None;
        };
        let held = self.held(node, register).and_then(|n| sum.of(n));
        let named = self.named(node, register).and_then(|n| sum.of(n));
        fewer(held, named)
    }

    // The same by what its register holds before each of some nodes, the last of them first, until it is written.
    fn kept_sums(&self, nodes: &[usize], sum: Sum) -> Option<Numbers> {
        let mut found = None;
        for node in nodes.iter().rev() {
            found = fewer(found, self.sums(*node, sum));
            let instr = self.instr(*node)?;
            if Holder::Register(written_by(&instr)) == sum.holder {
                return found;
            }
        }
        found
    }

    // The addresses that a load may read: by what they are sums of, right before, and by registers that were stored to a word of the stack and hold it on.
    fn addresses(&self, node: usize, rs1: u8, offset: i32) -> Option<Numbers> {
        let mut sum = Sum {
            holder: Holder::Register(rs1),
            shift: 0,
            more: offset.cast_unsigned(),
        };
        let mut at = node;
        let mut nodes = [node; MOST_BACK];
        let mut found = self.sums(at, sum);
        for k in 0..MOST_BACK {
            nodes[k] = at;
            let Some(before) = self.alone_before(at) else {
                return found;
            };
            let Some(less) = self.sum_before(before, sum) else {
                return found;
            };
            found = fewer(found, self.sums(before, less));
            if less.holder != sum.holder {
                found = fewer(found, self.kept_sums(&nodes[..k + 1], less));
            }
            at = before;
            sum = less;
        }
        found
    }

    // The place of a load: a word of a table, or one that is kept beside a register.
    fn loaded(&self, node: usize, rs1: u8, offset: i32, base: u32) -> Origin {
        let addresses = self.addresses(node, rs1, offset);
        let table = addresses.and_then(|numbers| numbers.table(base));
        if let Some(table) = table
            && fixed_word(self.view, table.at).is_some()
        {
            return Origin::Table(table);
        }
        if rs1 == 2 || rs1 == 8 {
            return Origin::Value(Item {
                node,
                holder: Holder::Word(rs1, offset),
                base,
            });
        }
        match table {
            Some(_) => Origin::Unknown(Reason::NotFixed),
            None => Origin::Unknown(Reason::IndexUnknown),
        }
    }

    // A sum of two registers, of which one holds a number.
    fn sum(&self, node: usize, rs1: u8, rs2: u8, base: u32) -> Origin {
        let (holder, number) = match (self.number(node, rs1), self.number(node, rs2)) {
            (Some(number), _) => (rs2, number),
            (None, Some(number)) => (rs1, number),
            (None, None) => return Origin::Unknown(Reason::NoTable),
        };
        Origin::Value(Item {
            node,
            holder: Holder::Register(holder),
            base: base.wrapping_add(number),
        })
    }

    // Where a register's value comes from, by the instruction that writes it.
    fn made(&self, node: usize, instr: &Instr, base: u32) -> Origin {
        match *instr {
            Instr::Load {
                op: LoadOp::Lw,
                rs1,
                offset,
                ..
            } => self.loaded(node, rs1, offset, base),
            Instr::Imm {
                op: ImmOp::Addi,
                rs1,
                imm,
                ..
            } if rs1 != 0 => Origin::Value(Item {
                node,
                holder: Holder::Register(rs1),
                base: base.wrapping_add(imm.cast_unsigned()),
            }),
            Instr::Reg {
                op: RegOp::Add,
                rs1,
                rs2,
                ..
            } => self.sum(node, rs1, rs2, base),
            _ => Origin::Unknown(Reason::NoTable),
        }
    }

    // The same of what a holder has behind an instruction.
    fn behind(&self, node: usize, instr: &Instr, is_call: bool, item: Item) -> Origin {
        let holder = item.holder;
        let base = item.base;
        let before = Origin::Value(Item { node, holder, base });
        let register = register_of(holder);
        if is_call {
            return if is_saved(register) {
                before
            } else {
                Origin::Unknown(Reason::NoTable)
            };
        }
        match (holder, *instr) {
            (
                Holder::Word(own, place),
                Instr::Store {
                    op: StoreOp::Sw,
                    rs1,
                    rs2,
                    offset,
                },
            ) if own == rs1 && place == offset => Origin::Value(Item {
                node,
                holder: Holder::Register(rs2),
                base,
            }),
            _ if written_by(instr) != register => before,
            (Holder::Register(_), _) => self.made(node, instr, base),
            (Holder::Word(_, _), _) => Origin::Unknown(Reason::NoTable),
        }
    }

    // Where a value comes from over an edge.
    fn over(&self, e: usize, item: Item) -> Option<Origin> {
        if e >= self.graph.edge_count() {
            return None;
        }
        let from = self.graph.source(e);
        if !self.is_live(from) {
            return None;
        }
        let Some(instr) = self.instr(from) else {
            return Some(Origin::Unknown(Reason::NoTable));
        };
        let is_call = self.graph.callee(e).is_some();
        Some(self.behind(from, &instr, is_call, item))
    }

    // Whether a function begins at a node.
    fn begins(&self, node: usize) -> bool {
        if node >= self.graph.node_count() {
            return true;
        }
        let f = self.graph.owner(node);
        f >= self.graph.function_count() || self.graph.entry_node(f) == node
    }
}

/// What is found on the way back from a jump: what is still to be looked at, all that was, and the table so far.
#[derive(Drop)]
struct Search {
    waiting: Vec<Item>,
    seen: Vec<Item>,
    table: Option<Table>,
    steps: u64,
}

impl Search {
    // Counts a look at an edge.
    fn count(&mut self) {
        let more = (self.seen.len() as u64).saturating_add(1);
        self.steps = self.steps.saturating_add(more);
    }

    fn add(&mut self, item: Item) -> Result<(), NoMemory> {
        if !self.seen.contains(&item) {
            self.seen.push(item)?;
            self.waiting.push(item)?;
        }
        Ok(())
    }

    // Takes an origin in. Some reason where the table isn't known.
    fn take(&mut self, origin: Origin) -> Result<Option<Reason>, NoMemory> {
        match origin {
            Origin::Value(item) => {
                self.add(item)?;
                Ok(None)
            }
            Origin::Table(table) => {
                let whole = match self.table {
                    Some(other) => joined(other, table),
                    None => Some(table),
                };
                self.table = whole;
                Ok(if whole.is_none() {
                    Some(Reason::NoTable)
                } else {
                    None
                })
            }
            Origin::Unknown(reason) => Ok(Some(reason)),
        }
    }
}

impl Tracer<'_> {
    // Takes in where a value comes from, over each edge to its node.
    fn look_back(&self, search: &mut Search, item: Item) -> Result<Option<Reason>, NoMemory> {
        if self.begins(item.node) {
            return Ok(Some(Reason::NoTable));
        }
        let mut next = self.entered.get(item.node).copied().flatten();
        for _ in 0..self.besides.len() {
            let Some(e) = next else {
                return Ok(None);
            };
            if let Some(origin) = self.over(e, item)
                && let Some(reason) = search.take(origin)?
            {
                return Ok(Some(reason));
            }
            search.count();
            next = self.besides.get(e).copied().flatten();
        }
        Ok(None)
    }

    /// The table of which a register holds a word before the instruction of a node.
    pub fn table_at(
        &self,
        alloc: Global,
        node: usize,
        register: u8,
    ) -> Result<Result<Table, Reason>, NoMemory> {
        let mut search = Search {
            waiting: Vec::new(alloc),
            seen: Vec::new(alloc),
            table: None,
            steps: 0,
        };
        search.add(Item {
            node,
            holder: Holder::Register(register),
            base: 0,
        })?;
        for _ in 0..MOST_ITEMS {
            let Some(item) = search.waiting.pop() else {
                return Ok(search.table.ok_or(Reason::NoTable));
            };
            if search.steps > self.most {
                return Ok(Err(Reason::TooLarge));
            }
            if let Some(reason) = self.look_back(&mut search, item)? {
                return Ok(Err(reason));
            }
        }
        Ok(Err(Reason::TooLarge))
    }
}
