//! The growing part of the analysis: what is known at nodes weakens until it holds all that flows to them.

ghost use Rattle.std.specs.Prelude.{◌<◌};

use crate::apart::raised;
use crate::arcs::holds;
use crate::areas::{access_of, areas_of};
use crate::calls::{CallSite, Callee, come_back, enter};
use crate::cells::Cells;
use crate::doubts::{Kept, kept_words};
use crate::dwindling::Dwindled;
use crate::fixed::put_fixed;
use crate::forms::Forms;
use crate::holding::{look_at_memory, put_loaded};
use crate::joining::{Change, Counts, Growing, Pace, grow_arc, grow_plain_row, word_key};
use crate::lines::{Tracing, line_in};
use crate::names::{Names, begun_name, begun_names, name_of};
use crate::orders::{leaving_order, places_of};
use crate::passing::{Frame, Step, pass};
use crate::program::{Node, Program};
use crate::rows::{put_row, starting_row, unknown, zeros};
use crate::states::{Facts, State, WORD_COUNT, facts_of};
use crate::stores::arc_of;
use crate::tables::Row;
use crate::telling::{Comparison, Telling, asked_nodes, comparison_of, put_told, untold_nodes};
use crate::thresholds::{Limit, Threshold, add_ends, add_limit};
use crate::ways::{Way, WayKind};
use elf_image::ImageView;
use scale_base::{Instr, NoMemory};
use stack_tables::{FixedPart, Name};
use std::alloc::Global;
use std::collections::BinaryHeap;
use wrapped_intervals::Arc;

/// How many words of the stack are known at all nodes together, at most, and by how many fewer for each node: what nodes take themselves and what
/// words take come to some 500 MB in all, however many nodes there are.
const MOST_WORDS: usize = 6_000_000;

const WORDS_OF_A_NODE: usize = 37;

/// What is known of a function: the row at its returns, whether a state is there, the registers that it gives back, whether it stores nothing to the
/// words of functions that wait, what x2 has when it begins, how often that has grown, and the number of the first of its words that calls may store to.
#[derive(Clone, Copy)]
pub struct Known {
    pub exit: Row,
    pub returned: bool,
    pub restored: [bool; 32],
    pub sparing: bool,
    pub begun: bool,
    pub begins: Option<Arc>,
    begin_count: u8,
    pub limit: usize,
}

impl Known {
    // The best that can be said, where nothing has come to the function.
    fn best() -> Known {
        Known {
            exit: zeros(),
            returned: false,
            restored: [true; 32],
            sparing: true,
            begun: false,
            begins: None,
            begin_count: 0,
            limit: WORD_COUNT,
        }
    }

    // Lets what x2 has when the function begins grow. Whether it did.
    fn grow_begins(&mut self, arc: &Option<Arc>, pace: Pace) -> bool {
        if holds(self.begins, *arc) {
            return false;
        }
        let count = self.begin_count;
        self.begin_count = count.saturating_add(1);
        self.begins = grow_arc(self.begins, *arc, pace, count);
        true
    }

    // Lets the row at the function's returns grow. Whether it did.
    fn grow_exit(&mut self, row: &Row, pace: Pace) -> bool {
        if !self.returned {
            self.returned = true;
            put_row(&mut self.exit, row);
            return true;
        }
        grow_plain_row(&mut self.exit, row, pace)
    }

    // Takes back what the function doesn't restore. Whether there was any.
    fn take_back(&mut self, names: &Names) -> bool {
        let mut taken = false;
        for r in 1..32u8 {
            let k = usize::from(r);
            if self.restored[k] && names[k] != begun_name(r) {
                self.restored[k] = false;
                taken = true;
            }
        }
        taken
    }
}

/// Tables that grow.
#[derive(Drop)]
pub struct Growth<'a> {
    pub program: &'a Program,
    pub forms: &'a Forms,
    pub view: &'a ImageView<'a>,
    /// Bytes that no store changes.
    pub fixed: &'a [FixedPart],
    /// Numbers in memory.
    pub cells: Cells,
    /// Where loads and stores may be.
    pub areas: Vec<Arc>,
    /// By node.
    pub live: Vec<bool>,
    pub facts: Vec<Facts>,
    /// By function.
    pub known: Vec<Known>,
    /// By node, its place in the order in which nodes are left, and by place the node.
    places: Vec<usize>,
    /// By node, whether nothing is told of registers there.
    untold: Vec<bool>,
    /// By node, whether its instruction's difference tells.
    asked: Vec<bool>,
    pub order: Vec<usize>,
    /// By node.
    counts: Vec<Counts>,
    thresholds: Vec<Vec<Threshold>>,
    /// The places of the nodes that wait, and by node whether it does.
    queue: BinaryHeap<usize>,
    waits: Vec<bool>,
    /// How many states have flowed, and from how many on there is haste.
    flowed: usize,
    haste: usize,
    /// How many words more may be known, at all nodes together.
    room: usize,
    /// By function, the words that are kept which stores of which nothing is known are taken to miss, where they are.
    kept: Option<Vec<Kept>>,
}

// By function, no thresholds yet.
fn no_thresholds(alloc: Global, functions: usize) -> Result<Vec<Vec<Threshold>>, NoMemory> {
    let mut thresholds = Vec::new(alloc);
    for _ in 0..functions {
        thresholds.push(Vec::new(alloc))?;
    }
    Ok(thresholds)
}

impl<'a> Growth<'a> {
    /// Tables in which no state is anywhere.
    pub fn new(
        alloc: Global,
        program: &'a Program,
        forms: &'a Forms,
        view: &'a ImageView<'a>,
        fixed: &'a [FixedPart],
        cells: Cells,
        trusts: bool,
    ) -> Result<Growth<'a>, NoMemory> {
        let nodes = program.nodes.len();
        let functions = program.entries.len();
        let order = leaving_order(alloc, program)?;
        let places = places_of(alloc, &order, nodes)?;
        Ok(Growth {
            program,
            forms,
            view,
            fixed,
            cells,
            areas: areas_of(alloc, view)?,
            live: vec![in alloc; false; nodes]?,
            untold: untold_nodes(alloc, program, &places)?,
            asked: asked_nodes(alloc, program)?,
            places,
            order,
            thresholds: no_thresholds(alloc, functions)?,
            facts: facts_of(alloc, nodes, zeros())?,
            known: vec![in alloc; Known::best(); functions]?,
            counts: vec![in alloc; Counts::none(); nodes]?,
            queue: BinaryHeap::new(alloc),
            waits: vec![in alloc; false; nodes]?,
            flowed: 0,
            haste: nodes.saturating_mul(60).saturating_add(100_000),
            room: MOST_WORDS.saturating_sub(nodes.saturating_mul(WORDS_OF_A_NODE)),
            kept: if trusts {
                Some(kept_words(alloc, program)?)
            } else {
                None
            },
        })
    }

    /// Whether a state may be at a node.
    pub fn is_live(&self, k: usize) -> bool {
        self.live.get(k).copied().unwrap_or(false)
    }

    // What a node's instruction compares.
    fn comparison(&self, k: usize) -> Option<Comparison> {
        let node = self.program.node(k)?;
        comparison_of(node.instr, self.asked.get(k).copied().unwrap_or(false))
    }

    /// Whether there is no time for more.
    pub fn is_hasty(&self) -> bool {
        self.flowed >= self.haste
    }

    /// The thresholds of a node's function.
    pub fn thresholds_at(&self, k: usize) -> &[Threshold] {
        let f = self.program.node(k).map(|node| node.function);
        match f.and_then(|f| self.thresholds.get(f)) {
            Some(thresholds) => thresholds,
            None => &[],
        }
    }

    /// The place of a node in the order.
    fn place(&self, k: usize) -> usize {
        self.places.get(k).copied().unwrap_or(0)
    }

    /// Has a node's ways looked at again.
    pub fn wait_for(&mut self, k: usize) -> Result<(), NoMemory> {
        if k < self.waits.len() && !self.waits[k] {
            self.waits[k] = true;
            let place = self.place(k);
            self.queue.push(place)?;
        }
        Ok(())
    }

    /// What x2 has when a function begins.
    pub fn begins(&self, f: usize) -> Option<Arc> {
        self.known.get(f).and_then(|known| known.begins)
    }

    /// The words of a function that are kept which stores of which nothing is known are taken to miss, where they are.
    pub fn kept_of(&self, f: usize) -> Option<&Kept> {
        match &self.kept {
            Some(kept) => kept.get(f),
            None => None,
        }
    }

    // The frame of a function.
    fn frame(&self, f: usize) -> Frame<'_> {
        Frame {
            begins: self.begins(f),
            kept: self.kept_of(f),
        }
    }

    /// A call at a node.
    pub fn site(&self, node: &Node, k: usize) -> Option<CallSite<'_>> {
        let known = self.known.get(node.function)?;
        Some(CallSite {
            instr: node.instr,
            from: self.facts.get(k)?,
            begins: known.begins,
            limit: known.limit,
            kept: self.kept_of(node.function),
        })
    }

    /// What is known of a function that is called, if it comes back.
    pub fn callee(&self, f: usize) -> Option<Callee<'_>> {
        let known = self.known.get(f)?;
        if !known.returned {
            return None;
        }
        Some(Callee {
            exit: &known.exit,
            restored: &known.restored,
            sparing: known.sparing,
        })
    }

    // The step of a way.
    fn step(&self, node: &Node, way: &Way) -> Option<Step> {
        Some(Step {
            instr: node.instr,
            at: node.at,
            next: self.program.node(way.to)?.at,
        })
    }

    fn flow_by_step(&self, node: &Node, way: &Way, to: &mut State) -> bool {
        let (Some(step), Some(from)) = (self.step(node, way), self.facts.get(way.from)) else {
            return false;
        };
        if !pass(step, from, self.frame(node.function), &self.areas, to) {
            return false;
        }
        self.tell(step, from, way, to);
        put_loaded(&self.cells, step.instr, &from.row, &mut to.row);
        put_fixed(self.fixed, step.instr, &from.row, &mut to.row);
        self.trace(step, from, way, to);
        self.dwindle(step, from, way, to);
        true
    }

    // Puts what registers tell of others behind a step, and what is told of them on a branch.
    fn tell(&self, step: Step, from: &Facts, way: &Way, to: &mut State) {
        put_told(step, from, to);
        if !self.untold.get(way.to).copied().unwrap_or(true) {
            let telling = Telling {
                step,
                comparison: self.comparison(way.from),
                from,
                passed: &to.row,
            };
            to.told = telling.sentences();
        }
    }

    // Puts what flows over a step of sums of two registers.
    fn trace(&self, step: Step, from: &Facts, way: &Way, to: &mut State) {
        let tracing = Tracing {
            forms: self.forms,
            step,
            from,
        };
        tracing.put_lines(way.to, to);
        tracing.put_solved(&self.areas, to);
    }

    // Puts what flows over a step of registers that are divided.
    fn dwindle(&self, step: Step, from: &Facts, way: &Way, to: &mut State) {
        if !self.forms.divided.is_none() {
            let dwindled = Dwindled {
                divided: &self.forms.divided,
                step,
                from,
            };
            dwindled.put(way, to);
        }
    }

    fn flow_by_call(&self, node: &Node, way: &Way, to: &mut State) -> bool {
        let (Some(step), Some(from)) = (self.step(node, way), self.facts.get(way.from)) else {
            return false;
        };
        if !enter(step, from, to) {
            return false;
        }
        self.trace(step, from, way, to);
        to.forget_solved();
        true
    }

    fn flow_back(&self, node: &Node, way: &Way, f: usize, to: &mut State) -> bool {
        let (Some(site), Some(callee)) = (self.site(node, way.from), self.callee(f)) else {
            return false;
        };
        come_back(&site, &callee, to);
        self.bring_lines_back(&site, &callee, way.to, to);
        true
    }

    // Puts the sums of registers that a function gives back.
    fn bring_lines_back(
        &self,
        site: &CallSite<'_>,
        callee: &Callee<'_>,
        behind: usize,
        to: &mut State,
    ) {
        to.forget_lines();
        for j in self.forms.wanted_at(behind) {
            if let Some(form) = self.forms.form(*j) {
                let m = form.measure;
                if site.is_restored(callee, m.register) && site.is_restored(callee, m.other) {
                    to.lines.keep(*j, line_in(&site.from.lines, *j));
                }
            }
        }
    }

    /// What flows over a way. Whether a state goes there.
    pub fn flow(&self, way: &Way, to: &mut State) -> bool {
        if !self.is_live(way.from) {
            return false;
        }
        let Some(node) = self.program.node(way.from) else {
            return false;
        };
        match way.kind {
            WayKind::Step => self.flow_by_step(&node, way, to),
            WayKind::Call(_) => self.flow_by_call(&node, way, to),
            WayKind::Back(f) => self.flow_back(&node, way, f, to),
            WayKind::Return(_) | WayKind::End => false,
        }
    }

    // The node from which states come over a way: behind a call, from the function.
    fn source(&self, way: &Way) -> usize {
        match way.kind {
            WayKind::Back(f) => self.program.entry(f).unwrap_or(way.from),
            _ => way.from,
        }
    }

    // How what is known at the end of a way grows.
    fn pace(&self, way: &Way) -> Pace {
        if self.is_hasty() {
            Pace::Hasty
        } else if self.place(self.source(way)) <= self.place(way.to) {
            Pace::Widened
        } else {
            Pace::Joined
        }
    }

    // Lets what is known at a node grow.
    fn grow_node(&mut self, k: usize, state: &State, pace: Pace) -> Result<Change, NoMemory> {
        let none = Change {
            grown: false,
            dropped: false,
        };
        let Some(node) = self.program.node(k) else {
            return Ok(none);
        };
        if k >= self.facts.len() || k >= self.counts.len() || k >= self.live.len() {
            return Ok(none);
        }
        let f = node.function;
        let begins = self.begins(f);
        if !self.live[k] {
            self.live[k] = true;
            self.facts[k].put(state, &begins, self.room)?;
            self.room = self.room.saturating_sub(self.facts[k].words.len());
            return Ok(Change {
                grown: true,
                dropped: false,
            });
        }
        if f >= self.thresholds.len() {
            return Ok(none);
        }
        let growing = Growing {
            pace,
            begins,
            thresholds: &self.thresholds[f],
        };
        self.facts[k].grow(state, &growing, &mut self.counts[k])
    }

    // Has all from which a state comes to a node looked at again.
    fn wait_for_sources(&mut self, k: usize) -> Result<(), NoMemory> {
        let program = self.program;
        let mut next = program.last_way_to(k);
        for _ in 0..program.ways.len() {
            let Some(way) = next.and_then(|w| program.way(w)) else {
                break;
            };
            self.flowed = self.flowed.saturating_add(1);
            if self.is_live(way.from) {
                self.wait_for(way.from)?;
            }
            next = way.beside;
        }
        Ok(())
    }

    // Brings a state to the end of a way.
    fn bring(&mut self, way: &Way, state: &State) -> Result<(), NoMemory> {
        self.flowed = self.flowed.saturating_add(1);
        let pace = self.pace(way);
        let change = self.grow_node(way.to, state, pace)?;
        if change.grown {
            self.wait_for(way.to)?;
        }
        if change.dropped {
            self.wait_for_sources(way.to)?;
        }
        Ok(())
    }

    /// Has the nodes of a function looked at again.
    pub fn wait_for_members(&mut self, f: usize) -> Result<(), NoMemory> {
        let program = self.program;
        let mut next = program.last_member_of(f);
        for _ in 0..program.nodes.len() {
            let Some(k) = next else {
                break;
            };
            if self.is_live(k) {
                self.wait_for(k)?;
            }
            next = program.member_beside(k);
        }
        Ok(())
    }

    /// Has the calls of a function looked at again.
    pub fn wait_for_calls(&mut self, f: usize) -> Result<(), NoMemory> {
        if let Some(k) = self.program.entry(f) {
            self.wait_for_sources(k)?;
        }
        Ok(())
    }

    // Lets what x2 has when a function begins grow. Whether it did.
    fn grow_begins(&mut self, f: usize, arc: &Option<Arc>, pace: Pace) -> bool {
        if f >= self.known.len() {
            return false;
        }
        let known = &mut self.known[f];
        if !known.begun {
            known.begun = true;
            known.begins = *arc;
            return true;
        }
        known.grow_begins(arc, pace)
    }

    // Looks at a return.
    fn look_at_return(&mut self, k: usize, f: usize) -> Result<(), NoMemory> {
        let pace = if self.is_hasty() {
            Pace::Hasty
        } else {
            Pace::Joined
        };
        if k >= self.facts.len() || f >= self.known.len() {
            return Ok(());
        }
        let facts = &self.facts[k];
        let known = &mut self.known[f];
        if known.grow_exit(&facts.row, pace) | known.take_back(&facts.names) {
            self.wait_for_calls(f)?;
        }
        Ok(())
    }

    // Looks at a call.
    fn look_at_call(&mut self, way: &Way, f: usize) -> Result<(), NoMemory> {
        let Some(facts) = self.facts.get(way.from) else {
            return Ok(());
        };
        let arc = arc_of(&facts.row, 2);
        let pace = self.pace(way);
        if self.grow_begins(f, &arc, pace) {
            self.wait_for_members(f)?;
        }
        Ok(())
    }

    // Looks at a way.
    fn look_at_way(&mut self, way: &Way, state: &mut State) -> Result<(), NoMemory> {
        match way.kind {
            WayKind::Return(f) => return self.look_at_return(way.from, f),
            WayKind::Call(f) => self.look_at_call(way, f)?,
            _ => {}
        }
        if self.flow(way, state) {
            self.bring(way, state)?;
        }
        Ok(())
    }

    // Takes the ends of an interval with which a register is compared as thresholds, of the register and of the word from which its value comes.
    fn note_ends(
        &mut self,
        f: usize,
        register: u8,
        name: Option<Name>,
        other: &Option<Arc>,
    ) -> Result<(), NoMemory> {
        if f >= self.thresholds.len() {
            return Ok(());
        }
        let thresholds = &mut self.thresholds[f];
        add_ends(thresholds, register, *other)?;
        if let Some(Name::OfWord(k, more)) = name {
            let key = word_key(k as usize);
            add_ends(thresholds, key, raised(*other, more.wrapping_neg()))?;
        }
        Ok(())
    }

    // Takes the numbers with which an instruction that is no branch compares registers as thresholds.
    fn note_truth(&mut self, node: &Node, k: usize) -> Result<(), NoMemory> {
        let (Some(comparison), Some(facts)) = (self.comparison(k), self.facts.get(k)) else {
            return Ok(());
        };
        let (rs1, rs2) = (comparison.first, comparison.second);
        let (first, second) = (arc_of(&facts.row, rs1), comparison.other(&facts.row));
        let (one, other) = (name_of(&facts.names, rs1), name_of(&facts.names, rs2));
        self.note_ends(node.function, rs1, one, &second)?;
        if rs2 == 0 {
            return Ok(());
        }
        self.note_ends(node.function, rs2, other, &first)
    }

    // Takes the numbers with which a branch compares registers as thresholds.
    fn note_comparison(&mut self, k: usize) -> Result<(), NoMemory> {
        let (Some(node), Some(facts)) = (self.program.node(k), self.facts.get(k)) else {
            return Ok(());
        };
        if let Instr::Branch {
            op: _,
            rs1,
            rs2,
            offset: _,
        } = node.instr
        {
            let (first, second) = (arc_of(&facts.row, rs1), arc_of(&facts.row, rs2));
            let (one, other) = (name_of(&facts.names, rs1), name_of(&facts.names, rs2));
            self.note_ends(node.function, rs1, one, &second)?;
            self.note_ends(node.function, rs2, other, &first)?;
        }
        self.note_truth(&node, k)
    }

    // Takes a number beyond which a register may not go as a threshold, of the register and of the word from which its value comes.
    fn note_limit(
        &mut self,
        f: usize,
        register: u8,
        name: Option<Name>,
        limit: Limit,
    ) -> Result<(), NoMemory> {
        if f >= self.thresholds.len() {
            return Ok(());
        }
        let thresholds = &mut self.thresholds[f];
        add_limit(thresholds, register, limit)?;
        match name {
            Some(Name::OfWord(k, more)) => {
                let key = word_key(k as usize);
                add_limit(thresholds, key, limit.raised(more.wrapping_neg()))
            }
            _ => Ok(()),
        }
    }

    // Takes what a line of a register and another one, which has a limit, says of the register as a threshold.
    fn note_solved(&mut self, k: usize, f: usize, other: u8, limit: Limit) -> Result<(), NoMemory> {
        let Some(facts) = self.facts.get(k) else {
            return Ok(());
        };
        if f >= self.thresholds.len() {
            return Ok(());
        }
        let thresholds = &mut self.thresholds[f];
        for line in &facts.lines {
            if let Some((r, limit)) = self.forms.solved(line, other, limit) {
                add_limit(thresholds, r, limit)?;
            }
        }
        Ok(())
    }

    // Takes the ends of the area in which a load or a store is as thresholds.
    fn note_access(&mut self, k: usize) -> Result<(), NoMemory> {
        let (Some(node), Some(facts)) = (self.program.node(k), self.facts.get(k)) else {
            return Ok(());
        };
        let Some(access) = access_of(node.instr) else {
            return Ok(());
        };
        let register = access.register;
        let name = name_of(&facts.names, register);
        let Some(limits) = access.limits(&self.areas, &facts.row) else {
            return Ok(());
        };
        for limit in limits {
            self.note_limit(node.function, register, name, limit)?;
            self.note_solved(k, node.function, register, limit)?;
        }
        Ok(())
    }

    // Looks at the ways of a node.
    fn look_at(&mut self, k: usize, state: &mut State) -> Result<(), NoMemory> {
        if k < self.waits.len() {
            self.waits[k] = false;
        }
        self.note_comparison(k)?;
        self.note_access(k)?;
        look_at_memory(self, k)?;
        let program = self.program;
        if let Some(node) = program.node(k) {
            for w in node.first..node.end {
                if let Some(way) = program.way(w) {
                    self.look_at_way(&way, state)?;
                }
            }
        }
        Ok(())
    }

    /// Lets a state begin at the start of the program.
    pub fn begin(&mut self, state: &mut State) -> Result<(), NoMemory> {
        let start = self.program.start();
        starting_state(state);
        let Some(node) = self.program.node(start) else {
            return Ok(());
        };
        if self.grow_begins(node.function, &state.row[2], Pace::Joined) {
            self.wait_for_members(node.function)?;
        }
        let change = self.grow_node(start, state, Pace::Joined)?;
        if change.grown {
            self.wait_for(start)?;
        }
        Ok(())
    }

    /// Looks at the nodes that wait until none does. Whether it came so far: what takes too long ends.
    pub fn settle(&mut self, state: &mut State) -> Result<bool, NoMemory> {
        let most = self.haste.saturating_mul(4);
        for _ in 0..most {
            let Some(place) = self.queue.pop() else {
                return Ok(true);
            };
            if let Some(k) = self.order.get(place).copied() {
                self.look_at(k, state)?;
            }
        }
        Ok(self.queue.is_empty())
    }
}

/// The state at the start of a run.
pub fn starting_state(state: &mut State) {
    state.row = starting_row();
    state.names = begun_names();
    state.spans = unknown();
    state.forget_words();
    state.forget_lines();
}
