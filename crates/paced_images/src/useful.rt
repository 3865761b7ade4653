//! The marks that are of use: the sites whose switches are, and the loops whose tallies are.

ghost use Rattle.std.specs.Prelude.{◌≡◌, ◌≤◌, ◌<◌, ◌^◌, ◌&&◌, nat_le, nat_lt, length, IfOk, IfSome};
ghost use Rattle.std.specs.List.{list_any};
ghost use Rattle.scale_base.specs.Answer.{AnswersBy};
ghost use Rattle.level_tables.specs.Budgets.{meets_in_budget, budget_at};
ghost use Rattle.level_tables.specs.Tables.{entry_by};
ghost use Rattle.scale_sites.specs.Weights.{switches};
ghost use Rattle.marked_images.specs.Markings.{HasMarking};
ghost use Rattle.paced_images.specs.Useful as useful;

use crate::due::kept_loops;
use crate::programs::program_of;
use crate::wanted::{ChosenMarks, SwitchSite, edges_at, names};
use level_tables::{EdgeNumbers, LevelBudgets};
use marked_images::{Marked, Program, told_at};
use power_model::Power;
use scale_base::{FILE_LIMIT, IMAGE_LIMIT, Mark, NoMemory, Stop};
use std::alloc::Global;

/// Whether there is a mark that a site gave its edge, and that stores a level.
fn has_site_mark(power: &Power, budgets: &LevelBudgets, told: &EdgeNumbers, marks: &[Mark]) -> bool
    requires { IfSome told.now.least (λ z. z < 2 ^ 90) }
    ensures { result ≡ list_any (useful.is_site_mark power.now (meets_in_budget power.now (budget_at budgets.now)) told.now)
        marks.now }
{
    let Some((first, rest)) = marks.split_first() else {
        return false;
    };
    is_site_mark(power, budgets, told, *first) || has_site_mark(power, budgets, told, rest)
}

/// Whether a mark is one.
fn is_site_mark(power: &Power, budgets: &LevelBudgets, told: &EdgeNumbers, mark: Mark) -> bool
    requires { IfSome told.now.least (λ z. z < 2 ^ 90) }
    ensures { result ≡ useful.is_site_mark power.now (meets_in_budget power.now (budget_at budgets.now)) told.now mark }
{
    match mark {
        Mark::Switch => true,
        Mark::Lowest => told.lowest_within(power, budgets),
        Mark::Exit(_) => false,
        Mark::Reset(_) => false,
        Mark::Count(_) => false,
        Mark::Tally(_) => false,
    }
}

/// Whether the first mark may store a level: a switch, an exit, a switch to the lowest level, or a tally.
fn stores_first(marks: &[Mark]) -> bool
    ensures { result ≡ switches marks.now }
{
    match marks.first() {
        Some(mark) => match *mark {
            Mark::Switch => true,
            Mark::Exit(_) => true,
            Mark::Reset(_) => false,
            Mark::Count(_) => false,
            Mark::Lowest => true,
            Mark::Tally(_) => true,
        },
        None => false,
    }
}

/// Whether a switch goes to a lower level from level `i`, and that is at most the starting one.
fn lowers_from(power: &Power, budgets: &LevelBudgets, start: u8, told: &EdgeNumbers, i: u8) -> bool
    requires level { i < length power.now.levels }
    requires least { IfSome told.now.least (λ z. z < 2 ^ 90) }
    ensures { result ≡ (nat_le i start && nat_lt (entry_by (meets_in_budget power.now (budget_at budgets.now)) told.now i) i) }
{
    i <= start && told.entry_within(power, budgets, i) < i
}

/// Whether it does so from some level.
fn lowers_some(power: &Power, budgets: &LevelBudgets, start: u8, told: &EdgeNumbers) -> bool
    requires { IfSome told.now.least (λ z. z < 2 ^ 90) }
    ensures { result ≡ useful.lowers_some power.now (meets_in_budget power.now (budget_at budgets.now)) start told.now }
{
    for i in 0..power.levels.count() {
        if lowers_from(power, budgets, start, told, i) {
            return true;
        }
    }
    false
}

/// Whether a site gave edge `e` a mark that lowers a level.
fn is_lowered(power: &Power, marked: &Marked, e: usize) -> bool
    requires marking { HasMarking power.now marked.now.graph marked.now.tree marked.now.marking }
    requires edge { e < length marked.now.graph.code.edges }
    ensures { useful.IsLoweredAt power.now marked.now e result }
{
    let marking = &marked.marking;
    let marks = marking.sites.marks(e);
    if !stores_first(marks) {
        return false;
    }
    let told = told_at(power, marked, e);
    has_site_mark(power, &marking.budgets, &told, marks)
        && lowers_some(power, &marking.budgets, marked.start, &told)
}

/// Whether a site names edge `e`, and that has such a switch.
fn names_lowered(power: &Power, marked: &Marked, site: SwitchSite, e: usize) -> bool
    requires marking { HasMarking power.now marked.now.graph marked.now.tree marked.now.marking }
    requires edge { e < length marked.now.graph.code.edges }
    ensures { useful.IsNamedAt power.now marked.now site e result }
{
    names(site, marked.graph.edge(e)) && is_lowered(power, marked, e)
}

/// Whether a site names an edge with such a switch.
fn is_useful(power: &Power, marked: &Marked, site: SwitchSite) -> bool
    requires { HasMarking power.now marked.now.graph marked.now.tree marked.now.marking }
    ensures { useful.IsUsefulAt power.now marked.now site result }
{
    let (first, end) = edges_at(&marked.graph, site.at);
    for e in first..end {
        if names_lowered(power, marked, site, e) {
            return true;
        }
    }
    false
}

/// The sites that are of use, in their order.
fn kept_sites(
    alloc: Global,
    power: &Power,
    marked: &Marked,
    sites: &[SwitchSite],
) -> Result<Vec<SwitchSite>, NoMemory>
    requires { HasMarking power.now marked.now.graph marked.now.tree marked.now.marking }
    ensures { IfOk result (λ kept. useful.AreKeptBy power.now marked.now sites.now kept.items) }
{
    let mut kept = Vec::new(alloc);
    for site in sites {
        if is_useful(power, marked, *site) {
            kept.push(*site)?;
        }
    }
    Ok(kept)
}

/// The marks of a program that are of use.
#[derive(Drop)]
pub struct KeptMarks {
    pub sites: Vec<SwitchSite>,
    pub tallied: Vec<u32>,
}

/// The sites and the tallied loops of a marked program that are of use, in their order.
pub fn kept_marks(
    alloc: Global,
    program: &Program<'_>,
    sites: &[SwitchSite],
    tallied: &[u32],
) -> Result<KeptMarks, NoMemory>
    requires { HasMarking program.now.power program.now.marked.graph program.now.marked.tree program.now.marked.marking }
    ensures sites { IfOk result (λ kept. useful.AreKeptBy program.now.power program.now.marked sites.now kept.sites.items) }
    ensures tallied { IfOk result (λ kept. useful.AreLoopsKeptBy program.now.power program.now.marked tallied.now kept.tallied.items) }
{
    let power = &program.power;
    let marked = &program.marked;
    Ok(KeptMarks {
        sites: kept_sites(alloc, power, marked, sites)?,
        tallied: kept_loops(alloc, power, marked, tallied)?,
    })
}

/// The sites and the tallied loops that can lower a level in the image that `pace` makes with all of them, in their order. A site can, where
/// the table of its edge leads from some level, up to the starting one, to a lower one, and with `lowest` from each level to the lowest one.
/// A site that names no edge with a switch isn't among them, and nor is one that names a back edge of a tallied loop. A tallied loop can, where
/// some tally on its back edges comes due: from a count of turns that the loop's bound allows on, it leads from each level to the lowest
/// one, which isn't the starting level. An address at which no loop has its header isn't among them. Or the refusal of `pace`.
///
/// In the image that `pace` makes with these alone there is less to pay, so its tables may lead to other levels.
///
/// The files have at most the bytes that the program loads, as with `pace`.
pub fn useful_marks(
    alloc: Global,
    image: &[u8],
    machine: &[u8],
    loops: &[u8],
    marks: &ChosenMarks<'_>,
) -> Result<KeptMarks, Stop>
    requires image { length image.now ≤ IMAGE_LIMIT }
    requires machine { length machine.now ≤ FILE_LIMIT }
    requires loops { length loops.now ≤ FILE_LIMIT }
    ensures { AnswersBy (λ kept. (kept.sites.items, kept.tallied.items)) result
        (useful.AreUseful image.now machine.now loops.now marks.now.sites.now marks.now.counted marks.now.tallied.now marks.now.share) }
{
    let program = program_of(alloc, image, machine, loops, marks)?;
    Ok(kept_marks(alloc, &program, marks.sites, marks.tallied)?)
}
