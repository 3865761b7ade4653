//! The bounds of loops that the code shows by itself, for inputs of so many bytes at most, where that is told: tables of the registers and of the stack
//! are proposed and checked, then for each loop a counter, and that returns go back.

ghost use Rattle.std.specs.Prelude.{◌≡◌, ◌++◌, ◌∷◌, [], false, None, IfOk, OnOk};
ghost use Rattle.code_text.specs.Text.{text_of};
ghost use Rattle.flow_graph.specs.FlowGraph.{IsGraphOf};
ghost use Rattle.stack_tables.specs.Tables.{IsStackClaim};
ghost use Rattle.loop_drafts.specs.Bounds.{AreBoundsFound, AreNoneFound, IsOpen, NeedNotTurn};
ghost use Rattle.loop_drafts.specs.Trusting.{AreNoneTrusted, IsAllowed};
ghost use Rattle.loop_drafts.specs.Sought.{AreFoundBy, AreLeastFoundBy, AreReturnsFoundBy, IsFoundBy, IsLeastFoundBy};

use crate::counting::dear_loops;
use crate::draft::{Counter, Draft, Known, Place, Reason, Way};
use crate::exact::is_exact;
use crate::least::with_least;
use crate::left::{counts_input, reads_input};
use crate::noted::{GREATEST_BOUND, bounded_by, count_bounded};
use crate::trusting::Trust;
use elf_image::ImageView;
use flow_graph::CodeGraph;
use loop_counters::{LoopProgram, find_certificate, heights_of, loops_within};
use loop_file::{LoopNote, LoopNotes};
use loop_forest::LoopTree;
use loop_tree::build_loops;
use scale_base::{NoMemory, Stop};
use shown_bounds::{StackCertificate, StackCounter, comes_back, is_shown};
use stack_checks::is_stack_analysed;
use stack_tables::{StackClaim, is_stack_sized};
use std::alloc::Global;
use tidy_runs::{TidyRun, look_at_run};
use turn_checks::TurnKind;
use value_analysis::{Tables, analyse_loops};
use value_checks::is_sized;
use wrapped_intervals::Measure;

/// So many loops times nodes and edges are looked at.
const MOST_WORK: u64 = 400_000_000;

/// A run that is tried has no more steps.
const MOST_STEPS: u64 = 10_000_000;

/// Such a bound of a walk through memory is told, and left to whoever knows a lower one: it is the size of the stack, and no deadline is for that.
const FAR: u32 = 16_384;

/// What is known of each loop, the note that it is to have in the file, whether returns go back, and what is trusted for that and for bounds; and, where some stores
/// are, how far the runs on inputs bear that out.
#[derive(Drop)]
pub struct Bounds {
    pub known: Vec<Known>,
    pub notes: Vec<LoopNote>,
    pub returns: bool,
    pub trust: Trust,
    pub tried: Vec<TidyRun>,
}

impl Bounds {
    fn new(alloc: Global, returns: bool) -> Bounds
        ensures notes { result.notes.items ≡ [] }
        ensures returns { result.returns ≡ returns }
        ensures trust { AreNoneTrusted result.trust }
    {
        Bounds {
            known: Vec::new(alloc),
            notes: Vec::new(alloc),
            returns,
            trust: Trust::none(alloc),
            tried: Vec::new(alloc),
        }
    }

    fn push(&mut self, sought: Sought) -> Result<(), NoMemory>
        ensures notes { OnOk result (self.new.notes.items ≡ self.old.notes.items ++ sought.note ∷ []) }
        ensures returns { OnOk result (self.new.returns ≡ self.old.returns) }
        ensures trust { OnOk result (self.new.trust ≡ self.old.trust) }
    {
        let Sought { known, note } = sought;
        self.known.push(known)?;
        self.notes.push(note)?;
        Ok(())
    }

    // The same, where so much is trusted for it, and runs on inputs bear that out so far.
    fn trusting(self, trust: Trust, tried: Vec<TidyRun>) -> Bounds
        ensures notes { result.notes ≡ self.notes }
        ensures returns { result.returns ≡ self.returns }
        ensures trust { result.trust ≡ trust }
    {
        let Bounds {
            known,
            notes,
            returns,
            trust: _,
            tried: _,
        } = self;
        Bounds {
            known,
            notes,
            returns,
            trust,
            tried,
        }
    }

    // Whether each loop has a bound and returns are proved.
    fn is_whole(&self) -> bool {
        self.returns && count_bounded(&self.notes) == self.notes.len()
    }

    // Whether more is proved.
    fn shows_more(&self, other: &Bounds) -> bool {
        let (one, two) = (count_bounded(&self.notes), count_bounded(&other.notes));
        one > two || (one == two && self.returns && !other.returns)
    }
}

/// The same of one loop.
#[derive(Drop)]
struct Sought {
    known: Known,
    note: LoopNote,
}

// A loop without a bound, which is counted or isn't.
fn left_open(
    alloc: Global,
    note: &LoopNote,
    reason: Reason,
    counted: bool,
) -> Result<Sought, NoMemory>
    ensures bounds { IfOk result (λ s. IsOpen s.note) }
    ensures least { IfOk result (λ s. NeedNotTurn s.note) }
{
    Ok(Sought {
        known: Known {
            draft: Draft::Open(reason),
            counted,
            at_least: 0,
        },
        note: bounded_by(alloc, note, GREATEST_BOUND, counted)?,
    })
}

// How far a word of the stack is below what x2 had when its function began, in bytes, by its number.
fn below(number: u32) -> u32 {
    number.saturating_add(1).saturating_mul(4)
}

// What a sum of registers counts in.
fn place_of(measure: Measure) -> Place {
    if measure.other_factor == 0 {
        Place::Register(measure.register)
    } else if measure.other_factor == measure.factor {
        Place::Sum(measure.register, measure.other)
    } else {
        Place::Difference(measure.register, measure.other)
    }
}

// What turns do to what they count in, by the factor of a counter that goes up from 0.
fn way_of(certificate: &StackCertificate, factor: u32) -> Way {
    if let Some(table) = &certificate.walk {
        return if table.sought.is_some() {
            Way::ToZero
        } else {
            Way::Along
        };
    }
    match &certificate.turns {
        Some(table) if matches!(&table.kind, TurnKind::Halves(_)) => Way::Shorter,
        _ => { if factor == 1 { Way::Up } else { Way::Down } }
    }
}

// What turns are counted in, and by which factor that goes up from 0: what is left of the input goes down.
fn counted_by(certificate: &StackCertificate) -> (Place, u32) {
    if counts_input(certificate) {
        return (Place::Input, u32::MAX);
    }
    match certificate.counter {
        StackCounter::InRegisters(measure) => (place_of(measure), measure.factor),
        StackCounter::InWord { number, factor, .. } => (Place::StackWord(below(number)), factor),
    }
}

// The counter of a certificate.
fn counter_of(certificate: &StackCertificate) -> Counter {
    let (place, factor) = counted_by(certificate);
    Counter {
        place,
        way: way_of(certificate, factor),
        step: certificate.least,
        width: certificate.width,
    }
}

// A certificate that is found for a loop, whether the loop is worth counting, and how many bytes an input has at most, where that is told.
#[derive(Clone, Copy)]
struct Candidate<'a> {
    certificate: &'a StackCertificate,
    counted: bool,
    most: Option<u32>,
}

// A loop with a certificate that is found for it: with its bound, where the code confirms it, and with its least turns.
fn confirmed(
    alloc: Global,
    claim: &StackClaim<'_>,
    note: &LoopNote,
    candidate: Candidate<'_>,
) -> Result<Sought, NoMemory>
    requires { IsStackClaim claim.now }
    ensures found { IfOk result (λ s. IsFoundBy candidate.entry.most claim.now s.note) }
    ensures least { IfOk result (λ s. IsLeastFoundBy claim.now s.note) }
{
    let Candidate {
        certificate,
        counted,
        most,
    } = candidate;
    let counter = counter_of(certificate);
    let bound = counter.bound();
    if bound >= GREATEST_BOUND {
        return left_open(alloc, note, Reason::TooWide, counted);
    }
    let counted = counted && bound > 1;
    let bounded = bounded_by(alloc, note, bound, counted)?;
    if !is_shown(claim, &bounded, certificate, most) {
        return left_open(alloc, note, Reason::NotConfirmed, counted);
    }
    if certificate.walk.is_some() && bound >= FAR {
        let reason = Reason::FarWalk(certificate.least, certificate.width);
        return left_open(alloc, note, reason, counted);
    }
    let turning = with_least(alloc, claim, bounded, certificate)?;
    Ok(Sought {
        known: Known {
            draft: Draft::Bounded(counter),
            counted,
            at_least: turning.at_least,
        },
        note: turning,
    })
}

/// What counters are looked for in, by loop whether counting it costs little of what its turns take, how many bytes an input has at most, where that is told,
/// and whether stores may be trusted.
#[derive(Clone, Copy)]
struct Sources<'a> {
    tree: &'a LoopTree,
    tables: &'a Tables,
    dear: &'a [bool],
    most: Option<u32>,
    trusts: bool,
}

impl Sources<'_> {
    // What is found for loop k of a program.
    fn certificate(
        &self,
        alloc: Global,
        claim: &StackClaim<'_>,
        k: usize,
    ) -> Result<Option<StackCertificate>, NoMemory> {
        let program = LoopProgram {
            tree: self.tree,
            tables: self.tables,
            most: self.most,
        };
        find_certificate(alloc, claim, program, k)
    }

    // Why loop k of a program has no bound, where nothing is found.
    fn why_open(&self, claim: &StackClaim<'_>, k: usize) -> Reason
        requires { IsStackClaim claim.now }
    {
        if self.most.is_none() && reads_input(claim, self.tree, k) {
            Reason::ReadsInput
        } else {
            Reason::NoCounter
        }
    }

    // Whether counting the turns of loop k of a program costs little of what they take.
    fn is_dear(&self, k: usize) -> bool {
        self.dear.get(k).copied().unwrap_or(false)
    }

    // Whether it is worth counting as well, where it counts so: it may be left after fewer turns than another time.
    fn is_counted(&self, claim: &StackClaim<'_>, k: usize, certificate: &StackCertificate) -> bool
        requires { IsStackClaim claim.now }
    {
        k < self.tree.loop_count()
            && self.is_dear(k)
            && !is_exact(claim, self.tree.header(k), certificate)
    }
}

// Loop k, by its note, with a bound where one is found.
fn seek(
    alloc: Global,
    claim: &StackClaim<'_>,
    sources: &Sources<'_>,
    note: &LoopNote,
    k: usize,
) -> Result<Sought, NoMemory>
    requires { IsStackClaim claim.now }
    ensures found { IfOk result (λ s. IsFoundBy sources.now.most claim.now s.note) }
    ensures least { IfOk result (λ s. IsLeastFoundBy claim.now s.note) }
{
    match sources.certificate(alloc, claim, k)? {
        Some(certificate) => {
            let counted = sources.is_counted(claim, k, &certificate);
            let candidate = Candidate {
                certificate: &certificate,
                counted,
                most: sources.most,
            };
            confirmed(alloc, claim, note, candidate)
        }
        None => left_open(alloc, note, sources.why_open(claim, k), sources.is_dear(k)),
    }
}

// The same, as long as it isn't too much work.
fn seek_or_stop(
    alloc: Global,
    claim: &StackClaim<'_>,
    sources: &Sources<'_>,
    note: &LoopNote,
    k: usize,
) -> Result<Sought, NoMemory>
    requires { IsStackClaim claim.now }
    ensures found { IfOk result (λ s. IsFoundBy sources.now.most claim.now s.note) }
    ensures least { IfOk result (λ s. IsLeastFoundBy claim.now s.note) }
{
    if k >= loops_within(claim.graph, MOST_WORK) {
        return left_open(alloc, note, Reason::TooLarge, false);
    }
    seek(alloc, claim, sources, note, k)
}

// Whether the code shows that returns go back.
fn are_returns_proved(alloc: Global, claim: &StackClaim<'_>) -> Result<bool, NoMemory>
    requires { IsStackClaim claim.now }
    ensures { IfOk result (λ returns. AreReturnsFoundBy claim.now returns) }
{
    let heights = heights_of(alloc, claim.graph)?;
    Ok(comes_back(claim, &heights))
}

// Each loop, with a bound where one is found.
fn seek_all(
    alloc: Global,
    claim: &StackClaim<'_>,
    sources: &Sources<'_>,
    notes: &LoopNotes,
) -> Result<Bounds, NoMemory>
    requires { IsStackClaim claim.now }
    ensures found { IfOk result (λ b. AreFoundBy sources.now.most claim.now b.notes.items) }
    ensures least { IfOk result (λ b. AreLeastFoundBy claim.now b.notes.items) }
    ensures returns { IfOk result (λ b. AreReturnsFoundBy claim.now b.returns) }
{
    let mut bounds = Bounds::new(alloc, are_returns_proved(alloc, claim)?);
    for k in 0..notes.count() {
        bounds.push(seek_or_stop(alloc, claim, sources, notes.note(k), k)?)?;
    }
    Ok(bounds)
}

/// Each loop without a bound.
pub fn open_all(alloc: Global, notes: &LoopNotes, reason: Reason) -> Result<Bounds, NoMemory>
    ensures none { IfOk result (λ b. AreNoneFound b.notes.items b.returns) }
    ensures trust { IfOk result (λ b. AreNoneTrusted b.trust) }
{
    let mut bounds = Bounds::new(alloc, false);
    for k in 0..notes.count() {
        bounds.push(left_open(alloc, notes.note(k), reason, false)?)?;
    }
    Ok(bounds)
}

// How far the runs on inputs bear out what tables trust, where they trust some stores.
fn tried_runs(
    alloc: Global,
    claim: &StackClaim<'_>,
    trust: &Trust,
    inputs: &[Vec<u8>],
) -> Result<Vec<TidyRun>, NoMemory>
    requires claim { IsStackClaim claim.now }
    requires plain { claim.now.view.now.keyed_segment ≡ None }
{
    let mut tried = Vec::new(alloc);
    if trust.count() == 0 {
        return Ok(tried);
    }
    for input in inputs {
        tried.push(look_at_run(alloc, claim, input, MOST_STEPS)?)?;
    }
    Ok(tried)
}

// The bounds of loops that are taken, by tables that have a row for each node and each function. Nothing is proved of what these trust, so that it is looked
// at.
fn bounds_by(
    alloc: Global,
    claim: &StackClaim<'_>,
    sources: &Sources<'_>,
    notes: &LoopNotes,
    inputs: &[Vec<u8>],
) -> Result<Bounds, NoMemory>
    requires { IsStackClaim claim.now }
    ensures found { IfOk result (λ b. AreBoundsFound claim.now.view.now sources.now.most b.notes.items b.returns b.trust) }
    ensures allowed { IfOk result (λ b. IsAllowed sources.now.trusts b.trust) }
{
    if !is_stack_analysed(claim) {
        return open_all(alloc, notes, Reason::NotAnalysed);
    }
    let trust = Trust::of(alloc, claim.stack)?;
    if !sources.trusts && trust.count() > 0 {
        return open_all(alloc, notes, Reason::NotAnalysed);
    }
    let tried = tried_runs(alloc, claim, &trust, inputs)?;
    let bounds = seek_all(alloc, claim, sources, notes)?;
    Ok(bounds.trusting(trust, tried))
}

// By loop whether counting it costs little, where loops are to be counted.
fn loops_to_count(
    alloc: Global,
    graph: &CodeGraph,
    tree: &LoopTree,
    counts: bool,
) -> Result<Vec<bool>, NoMemory> {
    if counts {
        dear_loops(alloc, graph, tree)
    } else {
        Ok(Vec::new(alloc))
    }
}

/// The notes of the loops whose bounds are looked for, inputs of the program, whether some of the loops may be counted, how many bytes an input has at most, where that is told, and whether
/// stores may be trusted.
#[derive(Clone, Copy)]
pub struct Wanted<'a, 'b> {
    pub notes: &'a LoopNotes,
    pub inputs: &'b [Vec<u8>],
    pub counts: bool,
    pub most: Option<u32>,
    pub trusts: bool,
}

// The bounds of loops that are taken, by tables that trust stores or don't.
fn bounds_in(
    alloc: Global,
    view: &ImageView<'_>,
    graph: &CodeGraph,
    tree: &LoopTree,
    wanted: Wanted<'_, '_>,
) -> Result<Bounds, NoMemory>
    requires { IsGraphOf (text_of view.now) graph.now }
    ensures found { IfOk result (λ b. AreBoundsFound view.now wanted.entry.most b.notes.items b.returns b.trust) }
    ensures allowed { IfOk result (λ b. IsAllowed wanted.entry.trusts b.trust) }
{
    let tables = analyse_loops(alloc, view, graph, tree, wanted.trusts)?;
    if !is_sized(graph, &tables.values) || !is_stack_sized(graph, &tables.stack) {
        return open_all(alloc, wanted.notes, Reason::NotAnalysed);
    }
    let _file = view.file();
    let claim = StackClaim {
        view,
        graph,
        table: &tables.values,
        stack: &tables.stack,
    };
    let dear = loops_to_count(alloc, graph, tree, wanted.counts)?;
    let sources = Sources {
        tree,
        tables: &tables,
        dear: &dear,
        most: wanted.most,
        trusts: wanted.trusts,
    };
    bounds_by(alloc, &claim, &sources, wanted.notes, wanted.inputs)
}

// The bounds of loops that are taken: by tables that trust no store, or by others, where these may be, and show more.
fn bounds_of(
    alloc: Global,
    view: &ImageView<'_>,
    graph: &CodeGraph,
    tree: &LoopTree,
    wanted: Wanted<'_, '_>,
) -> Result<Bounds, NoMemory>
    requires { IsGraphOf (text_of view.now) graph.now }
    ensures found { IfOk result (λ b. AreBoundsFound view.now wanted.entry.most b.notes.items b.returns b.trust) }
    ensures allowed { IfOk result (λ b. IsAllowed wanted.entry.trusts b.trust) }
{
    let untrusting = Wanted {
        notes: wanted.notes,
        inputs: wanted.inputs,
        counts: wanted.counts,
        most: wanted.most,
        trusts: false,
    };
    let plain = bounds_in(alloc, view, graph, tree, untrusting)?;
    if !wanted.trusts || plain.is_whole() {
        return Ok(plain);
    }
    let trusting = bounds_in(alloc, view, graph, tree, wanted)?;
    if trusting.shows_more(&plain) {
        Ok(trusting)
    } else {
        Ok(plain)
    }
}

/// The bounds of noted loops that the code shows, for inputs of so many bytes at most, where that is told, and whether returns go back, with what is trusted for
/// both; and which loops are to be counted, where some may be. Where the loops aren't taken, nothing is looked for.
pub fn find_bounds(
    alloc: Global,
    view: &ImageView<'_>,
    graph: &CodeGraph,
    wanted: Wanted<'_, '_>,
) -> Result<Bounds, NoMemory>
    requires { IsGraphOf (text_of view.now) graph.now }
    ensures found { IfOk result (λ b. AreBoundsFound view.now wanted.entry.most b.notes.items b.returns b.trust) }
    ensures allowed { IfOk result (λ b. IsAllowed wanted.entry.trusts b.trust) }
{
    match build_loops(alloc, graph, wanted.notes) {
        Ok(tree) => bounds_of(alloc, view, graph, &tree, wanted),
        Err(Stop::Refused(_)) => open_all(alloc, wanted.notes, Reason::EnteredAside),
        Err(Stop::Memory) => Err(NoMemory),
    }
}
