//! Whether an image of other make is safe, from its file to the verdict.

ghost use Rattle.std.specs.Prelude.{◌≡◌, ◌≤◌, ◌<◌, length, Ok, IfOk};
ghost use Rattle.scale_base.specs.Answer.{AnswersBy};
ghost use Rattle.scale_base.specs.Image.{Image, image_of};
ghost use Rattle.scale_base.specs.Run.{starting_level as level_of_key};
ghost use Rattle.power_model.specs.Numbers.{IsPowerModel};
ghost use Rattle.cost_theory.specs.Worst.{Numbers};
ghost use Rattle.foreign_scan.specs.Scanned.{Found};
ghost use Rattle.answer_parts.specs.Parts.{unscaled};
ghost use Rattle.image_check.specs.Checked.{IsChecked, IsProgramChecked, IsFileVerdict, IsImageVerdict};
ghost use Rattle.image_check.specs.SafeRuns.{IsSafeVerdict};
ghost use Rattle.image_check.specs.declared.checking.CostsWithStubs.{CostsWithStubs};
ghost use Rattle.image_check.specs.Checks.{IsOriginal, IsScannedBy, IsReceived, AreShortCosts, MeetsDeadline, AreExtraCycles};

use crate::levels::first_bad_level;
use crate::owners::{OwnerList, owners_of};
use crate::weights::{extra_weights, stored_weights};
use answer_parts::time_at;
use code_graph::build_graph;
use elf_image::ImageView;
use elf_view::{read_image, refusal_number};
use flow_graph::{CodeGraph, Weights};
use foreign_scan::{ForeignSites, Scanned, scan};
use least_cycles::least;
use loop_file::LoopNotes;
use loop_forest::LoopTree;
use loop_tree::build_loops;
use power_model::Power;
use program_sources::Sources;
use scale_base::{
    Checked, FILE_LIMIT, IMAGE_LIMIT, Keyed, NoMemory, STORED_LIMIT, Stop, Verdict, Why,
};
use std::alloc::Global;
use worst_cycles::{WorstNumbers, worst};

/// The program of an original: its machine, its image and its notes, and their graph and loops.
#[derive(Drop)]
pub struct Original<'a> {
    pub power: Power,
    pub view: ImageView<'a>,
    pub notes: LoopNotes,
    pub graph: CodeGraph,
    pub tree: LoopTree,
}

/// An image of other make, with the fragments of its stubs and the loops of their counters.
#[derive(Drop)]
pub struct Received<'a> {
    pub view: ImageView<'a>,
    pub sites: ForeignSites,
    pub owners: OwnerList,
}

/// What the edges of an original cost with stubs, and the worst cycles under that.
#[derive(Drop)]
pub struct CostsWithStubs {
    pub weights: Weights,
    pub worst: WorstNumbers,
}

/// The level at which a keyed segment starts its image: the fastest one without a segment.
fn starting_level(power: &Power, keyed: Option<Keyed>) -> u32
    ensures { result ≡ level_of_key (length power.now.levels) keyed }
{
    match keyed {
        Some(key) => key.start,
        None => u32::from(power.levels.count()).saturating_sub(1),
    }
}

/// The most cycles that stubs add to a run: they are in range where the worst cycles with stubs are.
fn stub_cycles(
    alloc: Global,
    original: &Original<'_>,
    received: &Received<'_>,
) -> Result<u64, NoMemory>
    requires original { IsOriginal original.now }
    requires costs { (found : Found) × (costs : CostsWithStubs) × (n : Numbers) × AreShortCosts original.now received.now costs found n }
    ensures { IfOk result (λ cycles. (found : Found) → IsReceived original.now received.now found →
        AreExtraCycles original.now received.now found cycles) }
{
    let power = &original.power;
    let weights = extra_weights(alloc, &original.graph, &received.sites, &power.costs)?;
    match worst(alloc, &original.graph, &original.tree, &weights) {
        Ok(worst) => Ok(worst.total()),
        Err(Stop::Refused(_)) => unreachable!(),
        Err(Stop::Memory) => Err(NoMemory),
    }
}

/// The verdict of an image whose worst cycles are in time at its level: the first entry of a table that isn't safe, or a yes with its numbers.
fn check_levels(
    alloc: Global,
    original: &Original<'_>,
    received: &Received<'_>,
    costs: &CostsWithStubs,
    start: u8,
) -> Result<Verdict, NoMemory>
    requires original { IsOriginal original.now }
    requires costs { (found : Found) × (n : Numbers) × AreShortCosts original.now received.now costs.now found n ×
        MeetsDeadline original.now received.now n start }
    ensures { IfOk result (IsImageVerdict original.now.power original.now.view received.now.view original.now.notes original.now.graph
        original.now.tree) }
{
    let power = &original.power;
    let least = least(alloc, &original.graph, &original.tree, &costs.weights)?;
    let bad = first_bad_level(alloc, original, received, &costs.worst, &least)?;
    let worst = costs.worst.total();
    match bad {
        Some((at, from)) => Ok(Verdict::No(Why::Level(at, from))),
        None => Ok(Verdict::Yes(Checked {
            start,
            worst,
            time: time_at(power, worst, start),
            deadline: power.deadline,
            stub_cycles: stub_cycles(alloc, original, received)?,
        })),
    }
}

/// The verdict of an image whose worst cycles are in range: that its level is none of the machine's, that it is too slow there, or that of its tables.
fn check_start(
    alloc: Global,
    original: &Original<'_>,
    received: &Received<'_>,
    costs: &CostsWithStubs,
) -> Result<Verdict, NoMemory>
    requires original { IsOriginal original.now }
    requires costs { (found : Found) × (n : Numbers) × AreShortCosts original.now received.now costs.now found n }
    ensures { IfOk result (IsImageVerdict original.now.power original.now.view received.now.view original.now.notes original.now.graph
        original.now.tree) }
{
    let power = &original.power;
    let level = starting_level(power, received.view.keyed());
    let levels = u32::from(power.levels.count());
    if level >= levels {
        return Ok(Verdict::No(Why::Start(level, levels)));
    }
    let start = level as u8;
    let need = time_at(power, costs.worst.total(), start);
    let have = power.deadline;
    if need > u128::from(have) {
        return Ok(Verdict::No(Why::TooSlow(need, have)));
    }
    check_levels(alloc, original, received, costs, start)
}

/// The verdict of an image whose counters count loops: that its worst cycles are over 2^48, or that of its level.
fn check_worst(
    alloc: Global,
    original: &Original<'_>,
    received: &Received<'_>,
) -> Result<Verdict, NoMemory>
    requires original { IsOriginal original.now }
    requires received { (found : Found) × IsReceived original.now received.now found }
    ensures { IfOk result (IsImageVerdict original.now.power original.now.view received.now.view original.now.notes original.now.graph
        original.now.tree) }
{
    let power = &original.power;
    let weights = stored_weights(alloc, &original.graph, &received.sites, &power.costs)?;
    match worst(alloc, &original.graph, &original.tree, &weights) {
        Ok(worst) => {
            let costs = CostsWithStubs { weights, worst };
            check_start(alloc, original, received, &costs)
        }
        Err(Stop::Refused(_)) => Ok(Verdict::No(Why::TooLong)),
        Err(Stop::Memory) => Err(NoMemory),
    }
}

/// The verdict of an image of which the scan finds no cause: the first counter that counts no loop, or that of its worst cycles.
fn check_counters<'a>(
    alloc: Global,
    original: &Original<'_>,
    view: ImageView<'a>,
    sites: ForeignSites,
) -> Result<Verdict, NoMemory>
    requires original { IsOriginal original.now }
    requires scanned { (found : Found) × IsScannedBy original.now view found sites }
    ensures { IfOk result (IsImageVerdict original.now.power original.now.view view.entry original.now.notes original.now.graph
        original.now.tree) }
{
    match owners_of(alloc, &original.graph, &original.tree, &sites)? {
        Ok(owners) => {
            let received = Received {
                view,
                sites,
                owners,
            };
            check_worst(alloc, original, &received)
        }
        Err(counter) => Ok(Verdict::No(Why::Counter(counter))),
    }
}

/// The verdict of an image.
fn check_image<'a>(
    alloc: Global,
    original: &Original<'_>,
    view: ImageView<'a>,
) -> Result<Verdict, NoMemory>
    requires original { IsOriginal original.now }
    ensures { IfOk result (IsImageVerdict original.now.power original.now.view view.entry original.now.notes original.now.graph
        original.now.tree) }
{
    match scan(
        alloc,
        &original.view,
        &view,
        &original.graph,
        &original.tree,
    )? {
        Scanned::Found(sites) => check_counters(alloc, original, view, sites),
        Scanned::Fails(why) => Ok(Verdict::No(why)),
    }
}

/// The verdict of the bytes of a file, which may be no image.
fn check_file(alloc: Global, original: &Original<'_>, foreign: &[u8]) -> Result<Verdict, NoMemory>
    requires original { IsOriginal original.now }
    ensures { IfOk result (IsFileVerdict original.now.power original.now.view (image_of foreign.now) original.now.notes original.now.graph
        original.now.tree) }
{
    match read_image(alloc, foreign) {
        Ok(view) => check_image(alloc, original, view),
        Err(Stop::Refused(refusal)) => Ok(Verdict::No(Why::Image(refusal_number(&refusal)))),
        Err(Stop::Memory) => Err(NoMemory),
    }
}

/// The verdict of the bytes of a file over the program of an original, or why that is refused: its reached code, or its loops.
fn check_program<'a>(
    alloc: Global,
    power: Power,
    view: ImageView<'a>,
    notes: LoopNotes,
    foreign: &[u8],
) -> Result<Verdict, Stop>
    requires power { IsPowerModel power }
    requires no_key { unscaled view.keyed_segment ≡ Ok tt }
    ensures { AnswersBy (λ v. v) result (IsProgramChecked power view.entry foreign.now notes) }
{
    let graph = build_graph(alloc, &view)?;
    let tree = build_loops(alloc, &graph, &notes)?;
    let original = Original {
        power,
        view,
        notes,
        graph,
        tree,
    };
    Ok(check_file(alloc, &original, foreign)?)
}

/// Whether an image of other make is a safe rewriting of the original `image`: Yes with its numbers exactly where none of the causes of `Why` holds, and else No with
/// the first of them that holds. Or the first refusal of the other files: of the machine file, of the original, of its keyed segment, of the loop file, of the reached
/// code, and of its loops.
///
/// The files have at most the bytes that the program loads: 4,194,304 of the original, 8,388,608 of the other image, 1,048,576 of each other file. Times are in the
/// machine file's time units.
pub fn check(
    alloc: Global,
    image: &[u8],
    foreign: &[u8],
    machine: &[u8],
    loops: &[u8],
) -> Result<Verdict, Stop>
    requires image { length image.now ≤ IMAGE_LIMIT }
    requires foreign { length foreign.now ≤ STORED_LIMIT }
    requires machine { length machine.now ≤ FILE_LIMIT }
    requires loops { length loops.now ≤ FILE_LIMIT }
    ensures verdict { AnswersBy (λ v. v) result (IsChecked image.now foreign.now machine.now loops.now) }

    // An image that passes keeps the promise, with the printed number of cycles.
    ensures safe { IfOk result (IsSafeVerdict image.now foreign.now machine.now loops.now) }
{
    let sources = Sources::read(alloc, image, machine, loops)?;
    check_program(alloc, sources.power, sources.view, sources.notes, foreign)
}
