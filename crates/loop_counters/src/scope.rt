//! A loop that is looked at, and what the tables say of its code.

ghost use Rattle.std.specs.Prelude.{◌≡◌, ◌<◌, length, Ok};
ghost use Rattle.scale_base.specs.Image.{image_of};

use code_text::instr_at;
use elf_image::ImageView;
use flow_graph::CodeGraph;
use scale_base::{Instr, NoMemory};
use stack_tables::{FixedPart, Name, StackClaim, Word};
use std::alloc::Global;
use value_analysis::Tables;
use value_checks::{Line, are_arcs_kept};
use wrapped_intervals::{Arc, Measure, Said, exactly, is_impossible, passed, said_by};

/// A loop that is looked at: its header, its nodes, and by node whether it is one of them.
#[derive(Drop)]
pub struct Scope<'a> {
    view: &'a ImageView<'a>,
    graph: &'a CodeGraph,
    tables: &'a Tables,
    pub header: usize,
    pub nodes: &'a [usize],
    pub body: Vec<bool>,
}

/// A function that is called, and the node at which it begins.
#[derive(Clone, Copy)]
pub struct Callee {
    pub function: usize,
    pub entry: usize,
}

// The instruction at an address. Where there is none, nothing goes on.
fn instr_or_end(view: &ImageView<'_>, at: u32) -> Instr {
    let _ranges = view.text();
    match instr_at(view, at) {
        Some(instr) => instr,
        None => Instr::Ebreak,
    }
}

impl<'a> Scope<'a> {
    /// The loop of a program with this header and these nodes.
    pub fn new(
        alloc: Global,
        claim: &StackClaim<'a>,
        tables: &'a Tables,
        header: usize,
        nodes: &'a [usize],
    ) -> Result<Scope<'a>, NoMemory> {
        let mut body = vec![in alloc; false; claim.graph.node_count()]?;
        for k in nodes {
            if *k < body.len() {
                body[*k] = true;
            }
        }
        Ok(Scope {
            view: claim.view,
            graph: claim.graph,
            tables,
            header,
            nodes,
            body,
        })
    }

    /// Whether a node is in the body.
    pub fn is_in_body(&self, k: usize) -> bool {
        self.body.get(k).copied().unwrap_or(false)
    }

    /// Whether a run may come to a node.
    pub fn is_live(&self, k: usize) -> bool {
        self.tables.values.live.get(k).copied().unwrap_or(true)
    }

    /// The instruction of a node.
    pub fn instr(&self, k: usize) -> Instr {
        if k < self.graph.node_count() {
            instr_or_end(self.view, self.graph.node(k))
        } else {
            Instr::Ebreak
        }
    }

    // The address of a node.
    fn address(&self, k: usize) -> Option<u32> {
        if k < self.graph.node_count() {
            Some(self.graph.node(k))
        } else {
            None
        }
    }

    // Where an edge leads, if it is below the end.
    fn target(&self, e: usize, end: usize) -> Option<usize> {
        if e < end && e < self.graph.edge_count() {
            self.graph.target(e)
        } else {
            None
        }
    }

    /// The nodes to which those edges of a node lead that lead to one.
    pub fn targets_of(&self, k: usize) -> [Option<usize>; 2] {
        if k >= self.graph.node_count() {
            return [None; 2];
        }
        let (first, end) = self.graph.edges_of(k);
        [
            self.target(first, end),
            self.target(first.saturating_add(1), end),
        ]
    }

    /// The function that a node calls.
    pub fn callee_of(&self, k: usize) -> Option<Callee> {
        if k >= self.graph.node_count() {
            return None;
        }
        let (first, _) = self.graph.edges_of(k);
        let function = self.graph.callee(first)?;
        if function < self.graph.function_count() {
            Some(Callee {
                function,
                entry: self.graph.entry_node(function),
            })
        } else {
            None
        }
    }

    /// Whether the function of the body begins at its header, or outside.
    pub fn begins_at_header(&self) -> bool {
        if self.header >= self.graph.node_count() {
            return false;
        }
        let entry = self.graph.entry_node(self.graph.owner(self.header));
        entry == self.header || !self.is_in_body(entry)
    }

    /// Whether the run, or the function of a node, begins there.
    pub fn is_entry(&self, k: usize) -> bool {
        if k >= self.graph.node_count() {
            return true;
        }
        self.graph.entry_node(self.graph.owner(k)) == k
            || self.address(k) == Some(self.view.entry())
    }

    /// The interval of a register before a node's instruction.
    pub fn arc(&self, k: usize, r: u8) -> Option<Arc> {
        if r == 0 {
            return exactly(0);
        }
        let row = self.tables.values.rows.get(k)?;
        row.get(usize::from(r)).copied().flatten()
    }

    /// The interval of a register behind a node's instruction, on the way to another node.
    pub fn arc_on(&self, k: usize, to: usize, r: u8) -> Option<Arc> {
        let row = self.tables.values.rows.get(k)?;
        if r >= 32 || !are_arcs_kept(row) {
            return None;
        }
        passed(self.instr(k), self.address(k)?, self.address(to)?, row, r)
    }

    /// What a branch says on the way from a node to another.
    pub fn said(&self, k: usize, to: usize) -> Option<Said> {
        said_by(self.instr(k), self.address(k)?, self.address(to)?)
    }

    /// Whether no run goes from a node to another.
    pub fn is_never(&self, k: usize, to: usize) -> bool {
        match self.tables.values.rows.get(k) {
            Some(row) => are_arcs_kept(row) && is_impossible(self.said(k, to), row),
            None => false,
        }
    }

    /// Where its value comes from.
    pub fn name(&self, k: usize, r: u8) -> Option<Name> {
        if r == 0 {
            return None;
        }
        let row = self.tables.stack.names.get(k)?;
        row.get(usize::from(r)).copied().flatten()
    }

    /// How far above what x2 had when the function began it points.
    pub fn span(&self, k: usize, r: u8) -> Option<Arc> {
        if r == 0 {
            return None;
        }
        let row = self.tables.stack.spans.get(k)?;
        row.get(usize::from(r)).copied().flatten()
    }

    /// The interval of a word of the stack before a node's instruction.
    pub fn word_arc(&self, k: usize, number: u32) -> Option<Arc> {
        let row = self.tables.stack.words.get(k)?;
        let word: &Word = row.get(number as usize)?;
        word.arc
    }

    /// The lines that the table has before a node's instruction.
    pub fn lines(&self, k: usize) -> &'a [Line] {
        let tables = self.tables;
        match tables.values.lines.get(k) {
            Some(row) => row,
            None => &[],
        }
    }

    /// The form of a number.
    pub fn form(&self, j: usize) -> Option<Measure> {
        self.tables.values.forms.get(j).copied()
    }

    /// The interval of a sum before a node's instruction.
    pub fn line_arc(&self, k: usize, m: Measure) -> Option<Arc> {
        for line in self.lines(k) {
            if self.form(line.form) == Some(m) {
                return Some(line.arc);
            }
        }
        None
    }

    /// What x2 has when the function of a node begins.
    pub fn begins(&self, k: usize) -> Option<Arc> {
        if k >= self.graph.node_count() {
            return None;
        }
        let function = self.graph.owner(k);
        self.tables.stack.begins.get(function).copied().flatten()
    }

    /// Whether a function gives a register back as it was when it began.
    pub fn restores(&self, function: usize, r: u8) -> bool {
        match self.tables.stack.restored.get(function) {
            Some(row) => row.get(usize::from(r)).copied().unwrap_or(false),
            None => false,
        }
    }

    /// Whether what a node stores is taken to miss all words that are kept.
    pub fn is_doubtful(&self, k: usize) -> bool {
        self.tables.stack.doubtful.get(k).copied().unwrap_or(false)
    }

    /// Whether a word of the function of a node is one of those.
    pub fn is_kept(&self, k: usize, number: u32) -> bool {
        if k >= self.graph.node_count() {
            return false;
        }
        match self.tables.stack.kept.get(self.graph.owner(k)) {
            Some(kept) => kept.get(number as usize).copied().unwrap_or(false),
            None => false,
        }
    }

    /// Whether nothing is stored to the words of functions that wait, from a node to the return.
    pub fn is_spared(&self, k: usize) -> bool {
        self.tables.stack.spared.get(k).copied().unwrap_or(false)
    }

    /// Where the words of functions that wait may be.
    pub fn place(&self) -> Option<Arc> {
        self.tables.stack.place
    }

    /// The bytes that no store changes.
    pub fn fixed(&self) -> &'a [FixedPart] {
        &self.tables.stack.fixed
    }

    /// Where memory may be accessed.
    pub fn areas(&self) -> &'a [Arc] {
        &self.tables.stack.areas
    }
}
