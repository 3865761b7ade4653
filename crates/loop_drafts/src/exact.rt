//! Whether a loop turns as often each time it is entered: nothing is proved of it.

ghost use Rattle.std.specs.Prelude.{◌≡◌, ◌<◌, length, true};
ghost use Rattle.std.specs.List.{All};
ghost use Rattle.scale_base.specs.Image.{image_of};
ghost use Rattle.std.specs.Prelude.{Ok};
ghost use Rattle.wrapped_intervals.specs.Small.{IsKeptOr};
ghost use Rattle.stack_tables.specs.Tables.{IsStackClaim};

use crate::left::counts_input;
use code_text::instr_at;
use elf_image::ImageView;
use flow_graph::CodeGraph;
use scale_base::Instr;
use shown_bounds::{StackCertificate, StackCounter};
use stack_tables::{StackClaim, word_at};
use value_checks::ValueTable;
use wrapped_intervals::{Arc, Measure, is_kept, line_by, passed};

/// The words that a counter has on some edges: none are looked at yet, it is one word on all of them, or it may have several.
#[derive(Clone, Copy)]
enum Words {
    None,
    One(u64),
    Several,
}

impl Words {
    fn with(self, arc: Option<Arc>) -> Words {
        match (self, arc) {
            (Words::None, Some(arc)) if arc.more() == 0 => Words::One(arc.low()),
            (Words::One(word), Some(arc)) if arc.more() == 0 && arc.low() == word => self,
            _ => Words::Several,
        }
    }

    fn is_one(self) -> bool {
        matches!(self, Words::One(_))
    }
}

/// What a counter has on the edges that enter a loop, and on those that leave it.
#[derive(Clone, Copy)]
struct Ends {
    entered: Words,
    left: Words,
}

/// An edge from one node to another.
#[derive(Clone, Copy)]
struct Step {
    from: usize,
    to: usize,
}

// An interval that is short enough to be kept.
fn kept(arc: Option<Arc>) -> Option<Arc>
    ensures { IsKeptOr result }
{
    match arc {
        Some(arc) => { if is_kept(Some(arc)) { Some(arc) } else { None } }
        None => None,
    }
}

/// The instruction at an address. Where there is none, nothing goes on.
pub fn instr_or_end(view: &ImageView<'_>, at: u32) -> Instr {
    let _ranges = view.text();
    match instr_at(view, at) {
        Some(instr) => instr,
        None => Instr::Ebreak,
    }
}

// An instruction, its address, and that of the next one.
#[derive(Clone, Copy)]
struct Executed {
    instr: Instr,
    at: u32,
    next: u32,
}

// The interval of a register behind the instruction of a node, by the row there.
fn behind_row(table: &ValueTable, k: usize, by: Executed, r: u8) -> Option<Arc>
    requires row { k < length table.now.rows.items }
    requires kept { All (All IsKeptOr) table.now.rows.items }
    ensures { IsKeptOr result }
{
    if r < 32 {
        kept(passed(by.instr, by.at, by.next, &table.rows[k], r))
    } else {
        None
    }
}

// The interval of a register behind an edge.
fn register_behind(claim: &StackClaim<'_>, step: Step, r: u8) -> Option<Arc>
    requires claim { IsStackClaim claim.now }
    requires from { step.from < length claim.now.graph.now.code.nodes }
    requires to { step.to < length claim.now.graph.now.code.nodes }
    ensures { IsKeptOr result }
{
    let at = claim.graph.node(step.from);
    let by = Executed {
        instr: instr_or_end(claim.view, at),
        at,
        next: claim.graph.node(step.to),
    };
    behind_row(claim.table, step.from, by, r)
}

// The interval of a sum of registers behind an edge.
fn sum_behind(claim: &StackClaim<'_>, step: Step, m: Measure) -> Option<Arc>
    requires claim { IsStackClaim claim.now }
    requires from { step.from < length claim.now.graph.now.code.nodes }
    requires to { step.to < length claim.now.graph.now.code.nodes }
{
    line_by(
        m,
        register_behind(claim, step, m.register),
        register_behind(claim, step, m.other),
    )
}

// The interval of a word of the stack behind an edge that enters a loop: what it is before the instruction, if that stores nothing.
fn word_entering(claim: &StackClaim<'_>, step: Step, word: u32) -> Option<Arc>
    requires claim { IsStackClaim claim.now }
    requires from { step.from < length claim.now.graph.now.code.nodes }
{
    match instr_or_end(claim.view, claim.graph.node(step.from)) {
        Instr::Store { .. } => None,
        _ => word_at(claim, step.from, word),
    }
}

/// A loop of a program: its nodes, and what it counts in.
#[derive(Clone, Copy)]
struct Looped<'a> {
    body: &'a [bool],
    counter: StackCounter,
}

impl Looped<'_> {
    fn has(&self, node: usize) -> bool {
        self.body.get(node).copied().unwrap_or(false)
    }

    // What it counts in has on an edge that enters it.
    fn entering(&self, claim: &StackClaim<'_>, step: Step) -> Option<Arc>
        requires claim { IsStackClaim claim.now }
        requires from { step.from < length claim.now.graph.now.code.nodes }
        requires to { step.to < length claim.now.graph.now.code.nodes }
    {
        match self.counter {
            StackCounter::InRegisters(m) => sum_behind(claim, step, m),
            StackCounter::InWord { number, .. } => word_entering(claim, step, number),
        }
    }

    // The same on an edge that leaves it.
    fn leaving(&self, claim: &StackClaim<'_>, step: Step) -> Option<Arc>
        requires claim { IsStackClaim claim.now }
        requires from { step.from < length claim.now.graph.now.code.nodes }
        requires to { step.to < length claim.now.graph.now.code.nodes }
    {
        match self.counter {
            StackCounter::InRegisters(m) => sum_behind(claim, step, m),
            StackCounter::InWord { number, .. } => word_at(claim, step.to, number),
        }
    }

    // Adds an edge to what is known of the loop's ends.
    fn add(&self, claim: &StackClaim<'_>, ends: Ends, step: Step) -> Ends
        requires claim { IsStackClaim claim.now }
        requires from { step.from < length claim.now.graph.now.code.nodes }
        requires to { step.to < length claim.now.graph.now.code.nodes }
    {
        match (self.has(step.from), self.has(step.to)) {
            (false, true) => Ends {
                entered: ends.entered.with(self.entering(claim, step)),
                ..ends
            },
            (true, false) => Ends {
                left: ends.left.with(self.leaving(claim, step)),
                ..ends
            },
            _ => ends,
        }
    }
}

// Whether a run may come to a node.
fn is_live(table: &ValueTable, k: usize) -> bool {
    table.live.get(k).copied().unwrap_or(true)
}

// Adds edge e.
fn add_edge(claim: &StackClaim<'_>, looped: &Looped<'_>, ends: Ends, e: usize) -> Ends
    requires claim { IsStackClaim claim.now }
    requires edge { e < length claim.now.graph.now.code.edges }
{
    let from = claim.graph.source(e);
    match claim.graph.target(e) {
        Some(to) if is_live(claim.table, from) => looped.add(claim, ends, Step { from, to }),
        _ => ends,
    }
}

// Whether the function of a loop begins at its header: what enters it there isn't known.
fn begins_function(graph: &CodeGraph, header: usize) -> bool {
    header >= graph.node_count() || graph.entry_node(graph.owner(header)) == header
}

// By node of a certificate, whether it is code of the loop.
fn body_of(certificate: &StackCertificate) -> &[bool] {
    match &certificate.turns {
        Some(table) => &table.body,
        None => &certificate.body,
    }
}

/// Whether a loop with this header and this certificate turns as often each time it is entered, as the tables have it: its counter has one value where it is
/// entered, and one where it is left. Where that is what is left of the input, or where it walks through memory, it doesn't.
pub fn is_exact(claim: &StackClaim<'_>, header: usize, certificate: &StackCertificate) -> bool
    requires { IsStackClaim claim.now }
{
    if counts_input(certificate) || certificate.walk.is_some() {
        return false;
    }
    if begins_function(claim.graph, header) {
        return false;
    }
    let looped = Looped {
        body: body_of(certificate),
        counter: certificate.counter,
    };
    let mut ends = Ends {
        entered: Words::None,
        left: Words::None,
    };
    for e in 0..claim.graph.edge_count() {
        ends = add_edge(claim, &looped, ends, e);
    }
    ends.entered.is_one() && ends.left.is_one()
}
