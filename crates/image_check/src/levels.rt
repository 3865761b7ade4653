//! The first entry of a table that isn't safe.

ghost use Rattle.std.specs.Prelude.{◌≡◌, ◌↔◌, ◌<◌, ◌≤◌, ◌^◌, ℕ, true, List, [], ◌∷◌, Some, None, length, IfOk, IfSome};
ghost use Rattle.scale_base.specs.Image.{Image};
ghost use Rattle.cost_theory.specs.Worst.{Numbers};
ghost use Rattle.cycle_laws.specs.Charged.{Charged};
ghost use Rattle.loop_forest.specs.Tree.{loops};
ghost use Rattle.foreign_scan.specs.declared.fragment.ForeignFragment.{ForeignFragment};
ghost use Rattle.foreign_scan.specs.Scanned.{Found};
ghost use Rattle.image_check.specs.Known.{owner_by, HasKnown, AreKnown, IsLevelsAnswer};
ghost use Rattle.image_check.specs.Levels.{IsTailOf, IsKnown, LeadsOn, IsFirstOn, IsToldOn, IsEdgeLevel, is_taken_edge, IsSortLevel, IsBothLevel, IsNodeLevel, IsFirstLevel};

use crate::checking::{Original, Received};
use crate::entries::{table_level, word_level};
use crate::last_rows::{LastRows, read_rows};
use crate::owners::OwnerList;
use crate::told::ExitTold;
use crate::weights::{fragments_cycles, mark_of};
use flow_graph::CodeGraph;
use foreign_scan::{ForeignFragment, ForeignSites};
use least_cycles::LeastNumbers;
use level_tables::EdgeNumbers;
use loop_forest::LoopTree;
use power_model::{Costs, Power};
use scale_base::{EdgeKind, NoMemory};
use scale_sites::mark_tail;
use std::alloc::Global;
use worst_cycles::WorstNumbers;

/// What is known of an image: the machine, what the image loads and where entries stand last there, the original's graph and loops, the fragments that are found,
/// the loops of their counters, and the numbers under the stored weights.
#[derive(Clone, Copy)]
struct Known<'a> {
    power: &'a Power,
    rows: &'a LastRows,
    graph: &'a CodeGraph,
    tree: &'a LoopTree,
    sites: &'a ForeignSites,
    owners: &'a OwnerList,
    worst: &'a WorstNumbers,
    least: &'a LeastNumbers,
}

/// The cycles of a jump.
fn jump_cycles(costs: &Costs) -> u32
    ensures value { result ≡ costs.now.jump }
    ensures small { result ≤ 65535 }
{
    u32::from(costs.jump)
}

/// The cycles of an edge behind its store at the port: those of the first fragment, the fragments behind it, and the jump back.
fn tail_cycles(fragments: &[ForeignFragment], power: &Power) -> u32
    requires { length fragments.now ≤ 64 }
    ensures tail { IsTailOf power.now.costs fragments.now result }
    ensures small { result < 2 ^ 28 }
{
    if fragments.is_empty() {
        return 0;
    }
    let behind = fragments_cycles(&fragments[1..], &power.costs);
    mark_tail(&mark_of(&fragments[0]), &power.costs) + behind + jump_cycles(&power.costs)
}

/// What edge `e` tells its table.
fn told_at(known: &Known<'_>, e: usize) -> EdgeNumbers
    requires known { IsKnown known.now }
    requires leads { LeadsOn known.now e }
    ensures told { IsToldOn known.now e result }
    ensures slack { result.slack ≤ 2 ^ 50 }
    ensures least { IfSome result.least (λ z. z < 2 ^ 90) }
{
    let edge = EdgeNumbers {
        slack: known.worst.slack(e),
        left: known.worst.rest(e),
        least: known.least.to_end_after(e),
    };
    edge.with_tail(tail_cycles(known.sites.fragments(e), known.power))
}

/// The least level for which an entry of edge `e` isn't safe, where its first fragment is a Switch.
fn switch_level(known: &Known<'_>, e: usize, word: u32) -> Option<u8>
    requires known { IsKnown known.now }
    requires leads { LeadsOn known.now e }
    requires switch { IsFirstOn known.now e (ForeignFragment.Switch word) }
    ensures { IsEdgeLevel known.now e result }
{
    let told = told_at(known, e);
    word_level(known.power, &told, word)
}

/// The same where its first fragment is an Exit.
fn exit_level(known: &Known<'_>, e: usize, counter: u16, shift: u8, table: u32) -> Option<u8>
    requires known { IsKnown known.now }
    requires leads { LeadsOn known.now e }
    requires exit { IsFirstOn known.now e (ForeignFragment.Exit counter shift table) }
    ensures { IsEdgeLevel known.now e result }
{
    let Some(k) = known.owners.get(counter) else {
        return None;
    };
    let bound = known.tree.bound(k);
    let iteration = known.worst.iteration(k);
    let told = told_at(known, e);
    let exit = ExitTold {
        told,
        bound,
        iteration,
        shift,
    };
    table_level(known.power, known.rows, &exit, table)
}

/// The same where its first fragment is this one.
fn fragment_level(known: &Known<'_>, e: usize, first: ForeignFragment) -> Option<u8>
    requires known { IsKnown known.now }
    requires leads { LeadsOn known.now e }
    requires first { IsFirstOn known.now e first }
    ensures { IsEdgeLevel known.now e result }
{
    match first {
        ForeignFragment::Switch { word } => switch_level(known, e, word),
        ForeignFragment::Exit {
            counter,
            shift,
            table,
        } => exit_level(known, e, counter, shift, table),
        ForeignFragment::Reset { counter: _other } => None,
        ForeignFragment::Count { counter: _other } => None,
    }
}

/// The first of some fragments.
fn first_of(fragments: &[ForeignFragment]) -> Option<ForeignFragment>
    ensures some { (f : ForeignFragment) → result ≡ Some f → (rest : List ForeignFragment) × (fragments.now ≡ f ∷ rest) }
    ensures none { result ≡ None → fragments.now ≡ [] }
{
    if fragments.is_empty() {
        None
    } else {
        Some(fragments[0])
    }
}

/// The same of an edge that leads to a node.
fn leading_level(known: &Known<'_>, e: usize) -> Option<u8>
    requires known { IsKnown known.now }
    requires leads { LeadsOn known.now e }
    ensures { IsEdgeLevel known.now e result }
{
    match first_of(known.sites.fragments(e)) {
        None => None,
        Some(first) => fragment_level(known, e, first),
    }
}

/// The least level for which an entry of edge `e` isn't safe. None for an edge that leads to no node.
fn edge_level(known: &Known<'_>, e: usize) -> Option<u8>
    requires known { IsKnown known.now }
    requires edge { e < length known.now.graph.now.code.edges }
    ensures { IsEdgeLevel known.now e result }
{
    match known.graph.target(e) {
        None => None,
        Some(_to) => leading_level(known, e),
    }
}

/// Whether an edge is a branch's taken one.
fn is_taken(kind: EdgeKind) -> bool
    ensures { result ≡ is_taken_edge kind }
{
    match kind {
        EdgeKind::Taken => true,
        EdgeKind::Untaken | EdgeKind::Jump | EdgeKind::Next | EdgeKind::CallNext | EdgeKind::End =>
            false,
    }
}

/// Whether an edge is taken or not, as told.
fn is_of_sort(kind: EdgeKind, taken: bool) -> bool
    ensures { (result ≡ true) ↔ (is_taken_edge kind ≡ taken) }
{
    if taken {
        is_taken(kind)
    } else {
        !is_taken(kind)
    }
}

/// The least level of edge `e`, where it is taken or not, as told.
fn sort_level(known: &Known<'_>, e: usize, taken: bool) -> Option<u8>
    requires known { IsKnown known.now }
    requires edge { e < length known.now.graph.now.code.edges }
    ensures { IsSortLevel known.now taken e result }
{
    let edge = known.graph.edge(e);
    if is_of_sort(edge.kind, taken) {
        edge_level(known, e)
    } else {
        None
    }
}

/// The same of the first taken edge of node `k` that has such an entry, or of the first other one.
fn node_level(known: &Known<'_>, k: usize, taken: bool) -> Option<u8>
    requires known { IsKnown known.now }
    requires node { k < length known.now.graph.now.code.nodes }
    ensures { IsNodeLevel known.now k taken result }
{
    let (first, end) = known.graph.edges_of(k);
    for e in first..end {
        match sort_level(known, e, taken) {
            Some(level) => return Some(level),
            None => {}
        }
    }
    None
}

/// The least level of the first edge of node `k` with such an entry, where the taken edge comes last.
fn both_level(known: &Known<'_>, k: usize) -> Option<u8>
    requires known { IsKnown known.now }
    requires node { k < length known.now.graph.now.code.nodes }
    ensures { IsBothLevel known.now k result }
{
    match node_level(known, k, false) {
        Some(level) => Some(level),
        None => node_level(known, k, true),
    }
}

/// The address and the level of the first entry that isn't safe.
fn first_level(known: &Known<'_>) -> Option<(u32, u8)>
    requires { IsKnown known.now }
    ensures { IsFirstLevel known.now result }
{
    for k in 0..known.graph.node_count() {
        match both_level(known, k) {
            Some(level) => return Some((known.graph.node(k), level)),
            None => {}
        }
    }
    None
}

/// The address and the level of the first entry of a table that leads to a higher level, or to a lower one without meeting both tests with its row's slack: at the
/// least address, at one address on the untaken edge before the taken one, and there for the least level, over all rows. None exactly where all are safe. Where a
/// counter counts a loop, reads each word of the keyed segment once, and then fewer than 64 for an exit, however many rows its table has; takes the memory of the
/// foreign image, and then twice that of its keyed segment, while it looks. Err only for want of memory.
pub fn first_bad_level(
    alloc: Global,
    original: &Original<'_>,
    received: &Received<'_>,
    worst: &WorstNumbers,
    least: &LeastNumbers,
) -> Result<Option<(u32, u8)>, NoMemory>
    requires { let o = original.now in let r = received.now in HasKnown r.view o.graph o.tree r.sites r.owners worst.now least.now }
    ensures { let o = original.now in let r = received.now in
        (image : Image) (found : Found) (w : ℕ → ℕ) (n : Numbers) (charged : Charged) →
        AreKnown image r.view o.graph o.tree r.sites r.owners worst.now least.now found w n charged →
        IfOk result (λ answer. IsLevelsAnswer o.power r.view o.graph (loops o.graph o.tree) (owner_by r.owners) w n charged found answer) }
{
    let rows = read_rows(alloc, &received.view, received.owners.has_any())?;
    Ok(first_level(&Known {
        power: &original.power,
        rows: &rows,
        graph: &original.graph,
        tree: &original.tree,
        sites: &received.sites,
        owners: &received.owners,
        worst,
        least,
    }))
}
