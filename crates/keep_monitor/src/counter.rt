//! Watches runs by the notes of their loops, and counts the back edges that the loops take.

ghost use Rattle.std.specs.Prelude.{◌≡◌, ◌≢◌, ◌≤◌, ◌<◌, ℕ, [], replicate, reverse, max, IfOk, OnOk, length, slice_index};
ghost use Rattle.scale_base.specs.declared.endings.Kept.TheVariants as kinds;
ghost use Rattle.graph_runs.specs.ReturnAddresses.{returns_after};
ghost use Rattle.graph_runs.specs.KeptRuns.{most_returns};
ghost use Rattle.loop_file.specs.Notes.{AreLoopNotes};
ghost use Rattle.loop_file.specs.Kept.{note_at};
ghost use Rattle.keep_monitor.specs.Headers.{AreLoopsOf, AreRisingLoops, sorted_header};
ghost use Rattle.keep_monitor.specs.Steps.{AreTurning, AreCounts, count_then, count_after_at};
ghost use Rattle.keep_monitor.specs.Watch.{watch_returns};
ghost use Rattle.keep_monitor.specs.Counted.{raised_most, judged, counted_first, counted};

use crate::headers::{Header, headers_at, sorted_headers};
use crate::monitor::{is_plain, watch_next};
use crate::slots::header_slots;
use crate::steps::{
    Arrival, Rules, broken_loop, broken_return, next_count, source_of, turning_loops,
};
use loop_file::LoopNotes;
use scale_base::{Kept, NoMemory, RETURN_LIMIT, Stepped};
use std::alloc::Global;
use std::marker::Model;

/// Watches the completed steps of runs, but for one that exits, by the notes of a program's loops. Beside that it keeps, for each loop,
/// the most back edges that an entry of it took in any of the runs, with each bound 1,000,000,000 and no least number: such a run
/// counts up to its first break. All the memory that it needs is taken before the first run. A step that neither calls nor returns nor leads
/// into a slot of a header takes a look at that slot alone, where no loop has to turn before it is left. Contracts see the notes, whether
/// the run is kept by them, what watching by the relaxed notes gives, and the most of each loop.
#[derive(Drop)]
pub struct LoopCounter {
    notes: LoopNotes,
    relaxed: LoopNotes,
    headers: Vec<Header>,
    // By slots of addresses.
    slots: Vec<bool>,
    // The loops that have to turn before they are left, ascending.
    turning: Vec<usize>,
    // The last one last.
    returns: Vec<u32>,
    // By loop.
    counts: Vec<u32>,
    most: Vec<u32>,
    // By the notes, and by the relaxed ones.
    kept: Kept,
    relaxed_kept: Kept,
}

impl Model for LoopCounter {
    ghost use Rattle.std.specs.Prelude.{length, reverse, vec_len, vec_capacity};
    ghost use Rattle.keep_monitor.specs.Counted.{Counted, IsCounterOfLoops};
    ghost use Rattle.keep_monitor.specs.Slots.{AreSlotsOf};

    ghost Value = { Counted };

    ghost view = { λ c. record {
      notes = c.notes;
      kept = c.kept;
      relaxed = record { notes = c.relaxed; returns = reverse c.returns.items; counts = c.counts.items; kept = c.relaxed_kept };
      most = c.most.items;
    } };

    ghost invariant = { λ c. (IsCounterOfLoops c.notes c.relaxed c.headers.items c.turning.items (vec_len c.returns) (vec_capacity c.returns) c.counts.items c.most.items c.kept) × (AreSlotsOf c.relaxed (length c.relaxed) c.slots.items) };
}

// The most of a loop after a step to its header.
fn raised_to(
    notes: &LoopNotes,
    number: usize,
    counts: &[u32],
    source: Option<u32>,
    most: u32,
) -> u32
    requires notes { AreLoopNotes notes.now }
    requires counts { AreCounts notes.now counts.now }
    requires loop_no { number < length notes.now }
    ensures { result ≡ max most (count_then (note_at notes.now number) source (slice_index counts.now number)) }
{
    most.max(next_count(notes.note(number), source, counts[number]))
}

// Raises the most of these loops, to whose header a step leads, to their counts after it.
fn raise_loops(
    notes: &LoopNotes,
    group: &[Header],
    counts: &[u32],
    source: Option<u32>,
    most: &mut [u32],
)
    requires notes { AreLoopNotes notes.now }
    requires counts { AreCounts notes.now counts.now }
    requires most { length most.old ≡ length notes.now }
    requires loops { AreRisingLoops (length notes.now) group.now }
    ensures size { length most.new ≡ length most.old }
    ensures each { (j : ℕ) → j < length group.now → slice_index most.new (sorted_header group.now j).number ≡ max
        (slice_index most.old (sorted_header group.now j).number) (count_after_at notes.now group.now counts.now source j) }
    ensures others { (k : ℕ) → ((j : ℕ) → j < length group.now → (sorted_header group.now j).number ≢ k) →
        slice_index most.new k ≡ slice_index most.old k }
{
    for header in group {
        most[header.number] = raised_to(notes, header.number, counts, source, most[header.number]);
    }
}

// Raises the most of the loops of a step's target, if it keeps the rules on calls and returns.
fn raise(
    notes: &LoopNotes,
    returns: &[u32],
    counts: &[u32],
    arrival: &Arrival<'_>,
    most: &mut [u32],
)
    requires notes { AreLoopNotes notes.now }
    requires counts { AreCounts notes.now counts.now }
    requires most { length most.old ≡ length notes.now }
    requires loops { AreLoopsOf notes.now arrival.now.step.now.next arrival.now.group.now }
    requires shallow { length returns.now ≤ most_returns }
    ensures { most.new ≡ raised_most (record { notes = notes.now; returns = reverse returns.now; counts = counts.now; kept = kinds.Kept })
        most.old arrival.now.step.now (returns_after (reverse returns.now) arrival.now.step.now) }
{
    let step = arrival.step;
    if broken_return(step, returns).is_none() {
        raise_loops(notes, arrival.group, counts, source_of(step, returns), most);
    }
}

// Whether a step of a run that has broken nothing of these notes keeps them.
fn judge_step(rules: &Rules<'_>, returns: &[u32], counts: &[u32], arrival: &Arrival<'_>) -> Kept
    requires notes { AreLoopNotes rules.now.notes.now }
    requires counts { AreCounts rules.now.notes.now counts.now }
    requires loops { AreLoopsOf rules.now.notes.now arrival.now.step.now.next arrival.now.group.now }
    requires turning { AreTurning rules.now.notes.now (length rules.now.notes.now) rules.now.turning.now }
    requires shallow { length returns.now ≤ most_returns }
    ensures { result ≡ (watch_returns (record {
      notes = rules.now.notes.now;
      returns = reverse returns.now;
      counts = counts.now;
      kept =
          kinds.Kept;
    })
        arrival.now.step.now (returns_after (reverse returns.now) arrival.now.step.now)).kept }
{
    let step = arrival.step;
    let of_returns = broken_return(step, returns);
    let source = source_of(step, returns);
    let of_loops = broken_loop(rules, counts, source, arrival);
    match of_returns.or(of_loops) {
        Some(broken) => broken,
        None => Kept::Kept,
    }
}

// Whether a run keeps these notes with one step more.
fn judge(
    rules: &Rules<'_>,
    kept: Kept,
    returns: &[u32],
    counts: &[u32],
    arrival: &Arrival<'_>,
) -> Kept
    requires notes { AreLoopNotes rules.now.notes.now }
    requires counts { kept ≡ kinds.Kept → AreCounts rules.now.notes.now counts.now }
    requires loops { AreLoopsOf rules.now.notes.now arrival.now.step.now.next arrival.now.group.now }
    requires turning { AreTurning rules.now.notes.now (length rules.now.notes.now) rules.now.turning.now }
    requires shallow { length returns.now ≤ most_returns }
    ensures { result ≡ judged rules.now.notes.now kept (record {
      notes = rules.now.notes.now;
      returns = reverse returns.now;
      counts = counts.now;
      kept =
          kinds.Kept;
    }) arrival.now.step.now }
{
    match kept {
        Kept::Kept => judge_step(rules, returns, counts, arrival),
        _ => kept,
    }
}

impl LoopCounter {
    /// A counter before the first run, by the notes of the program's loops.
    pub fn new(alloc: Global, notes: LoopNotes) -> Result<LoopCounter, NoMemory>
        ensures new { IfOk result (λ c. c ≡ counted_first notes (replicate (length notes) 0)) }
        ensures notes { OnOk result (AreLoopNotes notes) }
    {
        let relaxed = notes.relaxed(alloc)?;
        let headers = sorted_headers(alloc, &relaxed)?;
        let slots = header_slots(alloc, &relaxed)?;
        let turning = turning_loops(alloc, &notes)?;
        let returns = Vec::with_capacity(alloc, RETURN_LIMIT)?;
        let counts = vec![in alloc; 0; notes.count()]?;
        let most = vec![in alloc; 0; notes.count()]?;
        Ok(LoopCounter {
            notes,
            relaxed,
            headers,
            slots,
            turning,
            returns,
            counts,
            most,
            kept: Kept::Kept,
            relaxed_kept: Kept::Kept,
        })
    }

    /// Begins another run. What the runs before it came to stays.
    pub fn begin(&mut self)
        ensures new { self.new ≡ counted_first self.old.notes self.old.most }
        ensures notes { AreLoopNotes self.old.notes }
        ensures size { length self.old.most ≡ length self.old.notes }
    {
        self.returns.clear();
        self.counts.fill(0);
        self.kept = Kept::Kept;
        self.relaxed_kept = Kept::Kept;
    }

    /// Watches the next step of the run.
    #[inline(always)]
    pub fn see(&mut self, step: &Stepped)
        ensures { self.new ≡ counted self.old step.now }
    {
        if is_plain(&self.slots, &self.turning, step) {
            return;
        }
        let step = *step;
        self.take_step(&step);
    }

    /// Whether the run is kept by the notes so far; after a break, what was broken first.
    pub fn kept(&self) -> Kept
        ensures { result ≡ self.now.kept }
    {
        self.kept
    }

    /// The most back edges that an entry of each loop took in the runs.
    pub fn into_most(self) -> Vec<u32>
        ensures { result.items ≡ self.most }
    {
        self.most
    }

    // Watches any step.
    #[inline(never)]
    fn take_step(&mut self, step: &Stepped)
        ensures { self.new ≡ counted self.old step.now }
    {
        if let Kept::Kept = self.relaxed_kept {
            let group = headers_at(&self.headers, step.next);
            let arrival = Arrival { step, group };
            self.kept = judge(
                &Rules {
                    notes: &self.notes,
                    turning: &self.turning,
                },
                self.kept,
                &self.returns,
                &self.counts,
                &arrival,
            );
            raise(
                &self.relaxed,
                &self.returns,
                &self.counts,
                &arrival,
                &mut self.most,
            );
            self.relaxed_kept = watch_next(
                &Rules {
                    notes: &self.relaxed,
                    turning: &[],
                },
                &self.headers,
                &mut self.returns,
                &mut self.counts,
                step,
            );
        }
    }
}
