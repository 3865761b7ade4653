//! Proposals of switches for a program.

ghost use Rattle.std.specs.Prelude.{◌≡◌, ◌≤◌, length, IfOk};

use crate::building::{Files, Places};
use crate::candidates::{Known, MOST, loops_of};
use crate::counted::add_counted;
use crate::growing::best_sets;
use crate::marks::energy_at;
use crate::paying::{Tries, paying};
use crate::pricing::{Search, input_cycles, least_of, shortest_of};
use crate::sets::Priced;
use code_graph::build_graph;
use flow_graph::CodeGraph;
use loop_file::LoopNotes;
use loop_forest::LoopTree;
use loop_tree::build_loops;
use marked_images::starting_level;
use paced_images::Proposal;
use power_model::Power;
use program_sources::Sources;
use run_progress::Progress;
use run_traces::{
    DerivedRun, EdgeTrace, Numbers, ProgramInputs, RunMarks, Runs, StubCosts, WalkPlan,
    derived_runs, numbers_of,
};
use scale_base::{NoMemory, Stop};
use std::alloc::Global;

/// How many steps of runs on inputs are traced at most, but for those of one run.
const TRACED: u64 = 40_000_000;

/// How many steps the runs of all proposals take at most, where there are more than three proposals.
const TRIED: u64 = 800_000_000;

/// How large the programs are, in all, that are built of sets at most, but for some sets.
const BUILT: usize = 4_000_000;

/// How many steps runs of so many cycles take, about.
fn steps_of(power: &Power, cycles: &[Option<u64>]) -> u64 {
    let mut steps: u64 = 0;
    for run in cycles {
        if let Some(cycles) = run {
            let own = cycles.checked_div(u64::from(power.costs.alu));
            steps = steps.saturating_add(own.unwrap_or(*cycles));
        }
    }
    steps
}

/// Of the inputs that count each n-th, so that their runs take about that part of the steps of all.
fn each_of(alloc: Global, cycles: &[Option<u64>], n: u64) -> Result<Vec<usize>, NoMemory> {
    let mut places = Vec::new(alloc);
    let mut passed: u64 = 0;
    for (k, run) in cycles.iter().enumerate() {
        if run.is_some() {
            if passed.checked_rem(n).unwrap_or(0) == 0 {
                places.push(k)?;
            }
            passed = passed.saturating_add(1);
        }
    }
    Ok(places)
}

/// The sets as proposals.
fn proposals_of(
    alloc: Global,
    places: &Places<'_>,
    sets: &[Priced],
) -> Result<Vec<Proposal>, NoMemory> {
    let mut proposals = Vec::new(alloc);
    for priced in sets {
        proposals.push(places.proposal(alloc, &priced.set)?)?;
    }
    Ok(proposals)
}

/// How many nodes the bodies of all loops have, and how many edges the program: how long it takes to build the stubs of a set, in some unit.
fn size_of(tree: &LoopTree, numbers: &Numbers) -> usize {
    let mut size = numbers.edges.len().saturating_add(1);
    for l in 0..tree.loop_count() {
        size = size.saturating_add(tree.body(l).len());
    }
    size
}

/// How many sets are priced at most: fewer where the program is large, since the stubs of each are built.
fn tries_of(size: usize) -> usize {
    BUILT.checked_div(size).unwrap_or(0).saturating_add(16)
}

/// How many proposals there are at most, where each is run so many steps: fewer where these are many.
fn most_proposals(steps: u64) -> usize {
    let tried = TRIED.checked_div(steps).unwrap_or(u64::MAX);
    tried.clamp(3, 10) as usize
}

/// Whether some loop is noted as counted.
fn has_counted(notes: &LoopNotes) -> bool {
    for k in 0..notes.count() {
        if notes.note(k).counted {
            return true;
        }
    }
    false
}

/// What a program is, and how it is searched.
#[derive(Clone, Copy)]
struct Program<'a> {
    files: Files<'a>,
    power: &'a Power,
    graph: &'a CodeGraph,
    tree: &'a LoopTree,
    numbers: &'a Numbers,
    start: u8,
    /// Whether some loop is noted as counted.
    counted: bool,
    /// With each input the cycles of the original's run on it, where it counts.
    cycles: &'a [Option<u64>],
}

/// Candidates, and what the runs do there.
#[derive(Clone, Copy)]
struct Marked<'a> {
    places: Places<'a>,
    runs: &'a [RunMarks],
}

/// How many sets a search prices, and how many proposals it gives at most.
#[derive(Clone, Copy)]
struct Effort {
    tries: usize,
    most: usize,
}

/// The best proposals of candidates, by what the runs do there.
fn searched(
    alloc: Global,
    files: Files<'_>,
    known: &Known<'_>,
    marked: Marked<'_>,
    effort: Effort,
) -> Result<Vec<Proposal>, NoMemory> {
    let mut search = Search {
        alloc,
        files,
        power: known.power,
        costs: known.costs,
        places: marked.places,
        runs: marked.runs,
        shortest: shortest_of(marked.runs),
        least: least_of(marked.runs),
        start: known.start,
        held: known.held_energy(),
        held_inputs: known.held_at_start(input_cycles(marked.runs)),
        known: Vec::new(alloc),
        tries: effort.tries,
    };
    let sets = best_sets(alloc, &mut search, effort.most)?;
    proposals_of(alloc, &marked.places, &sets)
}

/// Up to so many proposals for a program whose numbers are known, by some runs, in which no loop is counted that isn't tallied.
fn search_program<P: Progress>(
    alloc: Global,
    program: &Program<'_>,
    runs: &Runs<'_>,
    most: usize,
    progress: &mut P,
) -> Result<Vec<Proposal>, Stop> {
    let power = program.power;
    let numbers = program.numbers;
    let mut trace = EdgeTrace::new(alloc, program.graph, &power.costs)?;
    let sums = runs.sums(alloc, numbers.edges.len(), &mut trace, progress)?;
    let known = Known {
        power,
        numbers,
        sums: &sums,
        costs: StubCosts::new(&power.costs),
        start: program.start,
    };
    let tries = tries_of(size_of(program.tree, numbers));
    let few = MOST.min(tries / 4);
    let plans = loops_of(alloc, program.graph, program.tree, &known, few / 3)?;
    let candidates = known.candidates(alloc, &plans, few)?;
    if candidates.is_empty() {
        return Ok(Vec::new(alloc));
    }
    trace.count(alloc, &plans)?;
    let places = Places {
        numbers,
        candidates: &candidates,
        plans: &plans,
    };
    let watched = places.watched(known.costs.jump);
    let marks = runs.marks(alloc, &watched, &mut trace, progress)?;
    let marked = Marked {
        places,
        runs: &marks,
    };
    let effort = Effort { tries, most };
    Ok(searched(alloc, program.files, &known, marked, effort)?)
}

/// The proposals for a program whose numbers are known. The runs take so many steps.
fn propose_for<P: Progress>(
    alloc: Global,
    program: &Program<'_>,
    runs: &Runs<'_>,
    steps: u64,
    progress: &mut P,
) -> Result<Vec<Proposal>, Stop> {
    // Only runs tell what counting takes.
    let counts = program.counted && !runs.places.is_empty();
    let most = most_proposals(steps);
    let few = if counts {
        most.saturating_sub(2)
    } else {
        most.min(8)
    };
    let mut proposals = search_program(alloc, program, runs, few, progress)?;
    if !counts {
        return Ok(proposals);
    }
    let worst = program.numbers.worst;
    add_counted(alloc, &program.files, worst, most, &mut proposals)?;
    let tries = Tries {
        files: program.files,
        runs,
        cycles: program.cycles,
        rate: energy_at(program.power, program.start),
    };
    paying(alloc, &tries, proposals, progress)
}

/// The runs on inputs that are derived from those at some places, as far as they count.
fn derived_of<P: Progress>(
    alloc: Global,
    files: &Files<'_>,
    inputs: &[Vec<u8>],
    places: &[usize],
    progress: &mut P,
) -> Result<Vec<DerivedRun>, Stop> {
    let program = ProgramInputs {
        image: files.image,
        machine: files.machine,
        loops: files.loops,
        inputs,
        places,
    };
    derived_runs(alloc, &program, progress)
}

/// The proposals for files that nothing refuses.
fn search_files<P: Progress>(
    alloc: Global,
    files: Files<'_>,
    inputs: &[Vec<u8>],
    cycles: &[Option<u64>],
    progress: &mut P,
) -> Result<Vec<Proposal>, Stop> {
    let sources = Sources::read(alloc, files.image, files.machine, files.loops)?;
    let power = &sources.power;
    let graph = build_graph(alloc, &sources.view)?;
    let tree = build_loops(alloc, &graph, &sources.notes)?;
    let numbers = numbers_of(alloc, &graph, &tree, power)?;
    let start = starting_level(power, numbers.worst)?;
    let plan = WalkPlan::new(alloc, &graph, &tree, &numbers)?;
    let steps = steps_of(power, cycles);
    let places = each_of(alloc, cycles, (steps / TRACED).saturating_add(1))?;
    let derived = derived_of(alloc, &files, inputs, &places, progress)?;
    let program = Program {
        files,
        power,
        graph: &graph,
        tree: &tree,
        numbers: &numbers,
        start,
        counted: has_counted(&sources.notes),
        cycles,
    };
    let runs = Runs {
        view: &sources.view,
        power,
        plan: &plan,
        inputs,
        places: &places,
        derived: &derived,
    };
    propose_for(alloc, &program, &runs, steps, progress)
}

/// Up to 10 proposals that may save energy, the most promising one first: at most 8 of edges with a switch and loops that are tallied, as `pace` takes
/// them with no other loop counted; and where some input counts and some loop is noted as counted, two that count these loops, alone and with the
/// switches of the first proposal, where that adds few cycles to the worst case and the runs on inputs save four percent with them. None of their marks is one that can lower nothing, and there are fewer where the
/// runs are long, since each is run on all inputs.
/// None are given where the files are refused, and of edges and tallied loops none that doesn't promise to save at least one percent of what the runs take at one
/// level, and four percent of what those on inputs take there; of these, one percent is enough where it adds at most one percent of the cycles of the shortest run
/// to any run.
/// Of edges and tallied loops none is given with which one of the runs below takes over 2 percent more than at one level; of a run that is shorter than a tenth of
/// the shortest one on an input, over 2 percent of what a run of that length takes.
/// None at all is given with which the run on a derived input takes over 2 percent more than at one level. Derived are 24 inputs at most, from those on which
/// the original is run: the empty input; of one that has at least 16 bytes its first sixteenth, quarter, half and three quarters, and itself with its first byte
/// inverted, or with that behind an eighth or a half of it. One counts where the original exits on it and keeps the loop file, as long as these runs take
/// few steps in all, and puts nothing out where this run takes fewer than 64 cycles.
///
/// With each input comes how many cycles the run of the original on it takes, where the input counts.
/// The choice is by the runs of the original on the inputs that count, on some of them where these are long, and by the runs on derived inputs and some random
/// walks of its graph that keep the loop file: both a third as much in all, and the walks alone where no input counts. Walks with habits, which nearly always go the same way at a branch, may only put
/// marks out. It is the same for the same files. Nothing is promised of it: what it
/// proposes has to be made and run by others. How far the runs are is told. One error: memory ran out.
pub fn propose<P: Progress>(
    alloc: Global,
    files: &Files<'_>,
    inputs: &[Vec<u8>],
    cycles: &[Option<u64>],
    progress: &mut P,
) -> Result<Vec<Proposal>, NoMemory>
    requires few { length inputs.now ≤ 64 }
    requires cycles { length cycles.now ≡ length inputs.now }
    ensures { IfOk result (λ proposals. length proposals.items ≤ 10) }
{
    match search_files(alloc, *files, inputs, cycles, progress) {
        Ok(mut proposals) => {
            proposals.truncate(10);
            Ok(proposals)
        }
        Err(Stop::Memory) => Err(NoMemory),
        Err(Stop::Refused(_)) => Ok(Vec::new(alloc)),
    }
}
