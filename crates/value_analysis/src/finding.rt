//! Tables of a program.

use crate::areas::areas_of;
use crate::cells::{Cells, Place};
use crate::copies::{add_copies, add_differences};
use crate::dividing::Divided;
use crate::fixed::fixed_parts;
use crate::forms::Forms;
use crate::growing::Growth;
use crate::holding::narrow_numbers;
use crate::keeping::confirmed_cells;
use crate::moves::add_loops;
use crate::narrowing::narrow;
use crate::program::{Program, read_program};
use crate::rows::{copy_of, unknown};
use crate::shifting::{measures_of, shift_lines, shifts_of};
use crate::sparing::{added_span, is_doubtful, kept_place, spare};
use crate::states::{State, facts_of};
use crate::tables::Tables;
use elf_image::ImageView;
use flow_graph::CodeGraph;
use loop_forest::LoopTree;
use scale_base::NoMemory;
use stack_tables::FixedPart;
use std::alloc::Global;
use wrapped_intervals::Arc;

/// How often intervals are narrowed.
const NARROWED: usize = 2;

/// How many runs there are with numbers in memory, and how many nodes all of them look at, at most.
const MOST_ROUNDS: usize = 6;

const MOST_NODES: usize = 32_768;

// Tables that say nothing.
fn blank_tables(alloc: Global, nodes: usize, functions: usize) -> Result<Tables, NoMemory> {
    let mut tables = Tables::none(alloc);
    tables.add_nodes(facts_of(alloc, nodes, unknown())?)?;
    for _ in 0..functions {
        tables.add_function(unknown(), None, [false; 32], [true; 64])?;
    }
    tables.values.live = vec![in alloc; true; nodes]?;
    tables.stack.spared = vec![in alloc; false; nodes]?;
    tables.stack.doubtful = vec![in alloc; false; nodes]?;
    Ok(tables)
}

// By node, whether its function spares the words of those that wait, where there are any.
fn spared_nodes(alloc: Global, growth: &Growth<'_>, any: bool) -> Result<Vec<bool>, NoMemory> {
    let mut spared = Vec::new(alloc);
    for node in &growth.program.nodes {
        let known = growth.known.get(node.function);
        spared.push(any && known.is_some_and(|known| known.sparing))?;
    }
    Ok(spared)
}

// By node, whether what it stores is taken to miss the words that are kept.
fn doubtful_nodes(
    alloc: Global,
    growth: &Growth<'_>,
    place: &Option<Arc>,
) -> Result<Vec<bool>, NoMemory> {
    let mut doubtful = Vec::new(alloc);
    for k in 0..growth.live.len() {
        doubtful.push(is_doubtful(growth, place, k))?;
    }
    Ok(doubtful)
}

// Adds the span of the register by which a node stores, where it is known by its interval.
fn add_span(growth: &mut Growth<'_>, k: usize) {
    let Some((r, arc)) = added_span(growth, k) else {
        return;
    };
    let place = usize::from(r);
    if k < growth.facts.len() && place < 32 {
        growth.facts[k].spans[place] = Some(arc);
    }
}

// The same at all nodes.
fn add_spans(growth: &mut Growth<'_>) {
    for k in 0..growth.facts.len() {
        add_span(growth, k);
    }
}

// The tables that have grown.
fn tables_of(alloc: Global, growth: Growth<'_>) -> Result<Tables, NoMemory> {
    let mut growth = growth;
    add_spans(&mut growth);
    let mut tables = Tables::none(alloc);
    tables.stack.place = kept_place(&growth);
    tables.stack.spared = spared_nodes(alloc, &growth, tables.stack.place.is_some())?;
    tables.stack.doubtful = doubtful_nodes(alloc, &growth, &tables.stack.place)?;
    for (f, known) in growth.known.iter().enumerate() {
        let kept = match growth.kept_of(f) {
            Some(kept) => kept.words,
            None => [true; 64],
        };
        tables.add_function(copy_of(&known.exit), known.begins, known.restored, kept)?;
    }
    let forms = growth.forms;
    let mut nodes = growth.facts;
    let shifts = shifts_of(alloc, forms, &nodes)?;
    shift_lines(forms, &shifts, &mut nodes);
    tables.add_nodes(nodes)?;
    tables.values.forms = measures_of(alloc, forms, &shifts)?;
    tables.stack.areas = growth.areas;
    tables.values.live = growth.live;
    Ok(tables)
}

// Has each function come back: behind the call of one of which no state comes back, any row will do.
fn return_all(growth: &mut Growth<'_>) {
    for known in growth.known.iter_mut() {
        known.returned = true;
    }
}

// Has the ways of all nodes looked at again.
fn wait_for_all(growth: &mut Growth<'_>) -> Result<(), NoMemory> {
    for k in 0..growth.live.len() {
        if growth.is_live(k) {
            growth.wait_for(k)?;
        }
    }
    Ok(())
}

// Grows, narrows and grows again until all that is known holds what flows there. Whether it came so far.
fn find_states(
    alloc: Global,
    growth: &mut Growth<'_>,
    state: &mut State,
) -> Result<bool, NoMemory> {
    growth.begin(state)?;
    if !growth.settle(state)? {
        return Ok(false);
    }
    for _ in 0..NARROWED {
        narrow(alloc, growth, state, 1)?;
        narrow_numbers(alloc, growth)?;
    }
    return_all(growth);
    wait_for_all(growth)?;
    if !growth.settle(state)? {
        return Ok(false);
    }
    spare(growth, state)
}

// The forms of a program with loops.
fn forms_of(alloc: Global, program: &Program, tree: &LoopTree) -> Result<Forms, NoMemory> {
    let mut forms = Forms::new(alloc, program.nodes.len())?;
    add_loops(alloc, &mut forms, program, tree)?;
    add_copies(alloc, &mut forms, program, tree)?;
    add_differences(&mut forms, program)?;
    forms.divided = Divided::of(alloc, program, tree)?;
    Ok(forms)
}

/// A program that is analysed: its image, the bytes of it that no store changes, its nodes and ways, the sums of two registers that are looked for, and whether
/// stores of which nothing is known are taken to miss the words that are kept.
#[derive(Clone, Copy)]
struct Analysed<'a> {
    view: &'a ImageView<'a>,
    fixed: &'a [FixedPart],
    program: &'a Program,
    forms: &'a Forms,
    trusts: bool,
}

impl Analysed<'_> {
    // How many runs there is time for with numbers in memory.
    fn rounds(&self) -> usize {
        (MOST_NODES / self.program.nodes.len().max(1)).min(MOST_ROUNDS)
    }

    // Tables by numbers in memory but for some, if all stores keep those that are used. Those that they don't are added.
    fn try_cells(&self, alloc: Global, gone: &mut Vec<Place>) -> Result<Option<Tables>, NoMemory> {
        let cells = Cells::new(alloc, self.program.nodes.len(), gone, true)?;
        let mut growth = Growth::new(
            alloc,
            self.program,
            self.forms,
            self.view,
            self.fixed,
            cells,
            self.trusts,
        )?;
        let mut state = State::blank();
        if !find_states(alloc, &mut growth, &mut state)? {
            return Ok(None);
        }
        let Some(cells) = confirmed_cells(alloc, &growth, gone)? else {
            return Ok(None);
        };
        let mut tables = tables_of(alloc, growth)?;
        tables.stack.cells = cells;
        Ok(Some(tables))
    }

    // Tables without numbers in memory. None where the program is too large: nothing of what was known is left then.
    fn try_plainly(&self, alloc: Global) -> Result<Option<Tables>, NoMemory> {
        let cells = Cells::new(alloc, self.program.nodes.len(), &[], false)?;
        let mut growth = Growth::new(
            alloc,
            self.program,
            self.forms,
            self.view,
            self.fixed,
            cells,
            self.trusts,
        )?;
        let mut state = State::blank();
        if !find_states(alloc, &mut growth, &mut state)? {
            return Ok(None);
        }
        Ok(Some(tables_of(alloc, growth)?))
    }

    // The same. Where the program is too large, they say nothing.
    fn analyse_plainly(&self, alloc: Global) -> Result<Tables, NoMemory> {
        if let Some(tables) = self.try_plainly(alloc)? {
            return Ok(tables);
        }
        let nodes = self.program.nodes.len();
        let mut tables = blank_tables(alloc, nodes, self.program.entries.len())?;
        tables.stack.areas = areas_of(alloc, self.view)?;
        Ok(tables)
    }

    // Tables, with the intervals of forms: by as many numbers in memory as all stores keep.
    fn analyse(&self, alloc: Global) -> Result<Tables, NoMemory> {
        let mut gone = Vec::new(alloc);
        for _ in 0..self.rounds() {
            let before = gone.len();
            if let Some(tables) = self.try_cells(alloc, &mut gone)? {
                return Ok(tables);
            }
            if gone.len() == before {
                break;
            }
        }
        self.analyse_plainly(alloc)
    }
}

/// Tables of a program, without sums of registers.
pub fn analyse(alloc: Global, view: &ImageView<'_>, graph: &CodeGraph) -> Result<Tables, NoMemory> {
    let program = read_program(alloc, view, graph)?;
    let forms = Forms::new(alloc, program.nodes.len())?;
    let fixed = fixed_parts(alloc, view)?;
    let analysed = Analysed {
        view,
        fixed: &fixed,
        program: &program,
        forms: &forms,
        trusts: false,
    };
    let mut tables = analysed.analyse(alloc)?;
    tables.stack.fixed = fixed;
    Ok(tables)
}

/// Tables of a program, with sums of two registers by which its loops may end. They may take it that stores of which nothing is known miss some words of the stack,
/// which they name.
pub fn analyse_loops(
    alloc: Global,
    view: &ImageView<'_>,
    graph: &CodeGraph,
    tree: &LoopTree,
    trusts: bool,
) -> Result<Tables, NoMemory> {
    let program = read_program(alloc, view, graph)?;
    let forms = forms_of(alloc, &program, tree)?;
    let fixed = fixed_parts(alloc, view)?;
    let analysed = Analysed {
        view,
        fixed: &fixed,
        program: &program,
        forms: &forms,
        trusts,
    };
    let mut tables = analysed.analyse(alloc)?;
    tables.stack.fixed = fixed;
    Ok(tables)
}
