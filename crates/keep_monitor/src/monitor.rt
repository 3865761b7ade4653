//! The monitor of a run.

ghost use Rattle.std.specs.Prelude.{◌≡◌, ◌≤◌, ◌<◌, ℕ, List, [], reverse, IfOk, IfSome, Some, true, false, length, slice_get, slice_index_or, vec_len, vec_capacity};
ghost use Rattle.scale_base.specs.declared.stepping.Move.TheVariants.{Local};
ghost use Rattle.scale_base.specs.declared.endings.Kept.TheVariants as kinds;
ghost use Rattle.graph_runs.specs.ReturnAddresses.{returns_after};
ghost use Rattle.loop_file.specs.Notes.{AreLoopNotes};
ghost use Rattle.graph_runs.specs.KeptRuns.{most_returns};
ghost use Rattle.keep_monitor.specs.Watch.{watched_first, watch, watch_returns};
ghost use Rattle.keep_monitor.specs.Headers.{AreSortedHeaders, IsLoneLoop};
ghost use Rattle.keep_monitor.specs.Steps.{AreTurning, AreCounts, IsMonitor};
ghost use Rattle.keep_monitor.specs.Slots.{slot_of};

use crate::headers::{Header, headers_at, sorted_headers};
use crate::slots::{has_header, header_slots};
use crate::steps::{
    Arrival, Rules, broken_loop, broken_return, count_step, move_returns, next_count, source_of,
    turning_loops,
};
use loop_file::LoopNotes;
use scale_base::{Kept, Move, NoMemory, RETURN_LIMIT, Stepped};
use std::alloc::Global;
use std::marker::Model;

/// Watches the completed steps of a run, one after another, but for one that exits. All the memory that it needs is taken
/// before the first step: 512 KiB for the return addresses, 64 KiB for the slots of headers, and at most 28 bytes for each loop besides its
/// note. Where no loop has to turn before it is left, a step that neither calls nor returns nor leads into a slot of a header takes a look at
/// that slot alone. Any other step takes logarithmic time in the loops, besides those that have its target for their header and those that
/// have to turn before they are left. Contracts see the notes, the return addresses, the last one first, a count for each loop, and what was broken.
#[derive(Drop)]
pub struct Monitor {
    notes: LoopNotes,
    headers: Vec<Header>,
    // By slots of addresses.
    slots: Vec<bool>,
    // The loops that have to turn before they are left, ascending.
    turning: Vec<usize>,
    // The last one last.
    returns: Vec<u32>,
    // By loop.
    counts: Vec<u32>,
    kept: Kept,
}

impl Model for Monitor {
    ghost use Rattle.std.specs.Prelude.{reverse, vec_len, vec_capacity};
    ghost use Rattle.keep_monitor.specs.Watch.{Watched};
    ghost use Rattle.std.specs.Prelude.{length};
    ghost use Rattle.keep_monitor.specs.Steps.{IsMonitor};
    ghost use Rattle.keep_monitor.specs.Slots.{AreSlotsOf};

    ghost Value = { Watched };

    ghost view = { λ m. record { notes = m.notes; returns = reverse m.returns.items; counts = m.counts.items; kept = m.kept } };

    ghost invariant = { λ m. (IsMonitor m.notes m.headers.items m.turning.items (vec_len m.returns) (vec_capacity m.returns) m.counts.items) × (AreSlotsOf m.notes (length m.notes) m.slots.items) };
}

// Watches any step of a run that has broken nothing.
fn watch_step(
    rules: &Rules<'_>,
    headers: &[Header],
    returns: &mut Vec<u32>,
    counts: &mut Vec<u32>,
    step: &Stepped,
) -> Kept
    requires { IsMonitor rules.now.notes.now headers.now rules.now.turning.now (vec_len returns.old) (vec_capacity returns.old)
        counts.old.items }
    ensures watched { record {
      notes = rules.now.notes.now;
      returns = reverse returns.new.items;
      counts = counts.new.items;
      kept = result;
    } ≡ watch_returns (record {
      notes = rules.now.notes.now;
      returns = reverse returns.old.items;
      counts = counts.old.items;
      kept =
          kinds.Kept;
    })
        step.now (returns_after (reverse returns.old.items) step.now) }
    ensures fits { IsMonitor rules.now.notes.now headers.now rules.now.turning.now (vec_len returns.new) (vec_capacity returns.new)
        counts.new.items }
{
    let source = source_of(step, returns);
    let group = headers_at(headers, step.next);
    let of_returns = broken_return(step, returns);
    let of_loops = broken_loop(rules, counts, source, &Arrival { step, group });
    if let Some(broken) = of_returns.or(of_loops) {
        return broken;
    }
    move_returns(returns, step);
    count_step(rules.notes, group, counts, source);
    Kept::Kept
}

// The loop to whose header a local step leads, where no other loop has it and no loop has to turn before it is left.
fn lone_loop(
    notes: &LoopNotes,
    headers: &[Header],
    turning: &[usize],
    step: &Stepped,
) -> Option<usize>
    requires { AreSortedHeaders notes.now headers.now }
    ensures moved { IfSome result (λ k. step.now.moved ≡ Local) }
    ensures turning { IfSome result (λ k. length turning.now ≡ 0) }
    ensures lone { IfSome result (λ k. IsLoneLoop notes.now step.now.next k) }
{
    match step.moved {
        Move::Local => {
            if !turning.is_empty() {
                return None;
            }
            let group = headers_at(headers, step.next);
            if group.len() == 1 {
                Some(group[0].number)
            } else {
                None
            }
        }
        Move::Call => None,
        Move::Return => None,
    }
}

// Watches a local step to the header of this loop, which no other loop has, in a run that has broken nothing and whose loops
// need not turn before they are left.
fn watch_turn(notes: &LoopNotes, number: usize, counts: &mut Vec<u32>, step: &Stepped) -> Kept
    requires notes { AreLoopNotes notes.now }
    requires moved { step.now.moved ≡ Local }
    requires lone { IsLoneLoop notes.now step.now.next number }
    requires turning { AreTurning notes.now (length notes.now) [] }
    requires counts { AreCounts notes.now counts.old.items }
    ensures watched { (returns : List ℕ) → length returns ≤ most_returns → record
        { notes = notes.now; returns = returns; counts = counts.new.items; kept = result } ≡ watch_returns
        (record { notes = notes.now; returns = returns; counts = counts.old.items; kept = kinds.Kept }) step.now (Some returns) }
    ensures fits { AreCounts notes.now counts.new.items }
{
    let note = notes.note(number);
    let count = next_count(note, Some(step.pc), counts[number]);
    if count > note.bound {
        return Kept::BrokeBound {
            loop_no: number as u32 + 1,
            count,
        };
    }
    counts[number] = count;
    Kept::Kept
}

/// Watches a step of a run that has broken nothing.
pub fn watch_next(
    rules: &Rules<'_>,
    headers: &[Header],
    returns: &mut Vec<u32>,
    counts: &mut Vec<u32>,
    step: &Stepped,
) -> Kept
    requires { IsMonitor rules.now.notes.now headers.now rules.now.turning.now (vec_len returns.old) (vec_capacity returns.old)
        counts.old.items }
    ensures watched { record {
      notes = rules.now.notes.now;
      returns = reverse returns.new.items;
      counts = counts.new.items;
      kept = result;
    } ≡ watch_returns (record {
      notes = rules.now.notes.now;
      returns = reverse returns.old.items;
      counts = counts.old.items;
      kept =
          kinds.Kept;
    })
        step.now (returns_after (reverse returns.old.items) step.now) }
    ensures fits { IsMonitor rules.now.notes.now headers.now rules.now.turning.now (vec_len returns.new) (vec_capacity returns.new)
        counts.new.items }
{
    match lone_loop(rules.notes, headers, rules.turning, step) {
        Some(number) => watch_turn(rules.notes, number, counts, step),
        None => watch_step(rules, headers, returns, counts, step),
    }
}

/// Whether a step neither calls nor returns, nor leads into a slot of a header, where no loop has to turn before it is left.
#[inline(always)]
pub fn is_plain(slots: &[bool], turning: &[usize], step: &Stepped) -> bool
    requires { length slots.now ≡ 65536 }
    ensures moved { result ≡ true → step.now.moved ≡ Local }
    ensures turning { result ≡ true → length turning.now ≡ 0 }
    ensures slot { result ≡ true → slice_index_or slots.now (slot_of step.now.next) true ≡ false }
{
    match step.moved {
        Move::Local => turning.is_empty() && !has_header(slots, step.next),
        Move::Call => false,
        Move::Return => false,
    }
}

impl Monitor {
    /// A monitor of a run before its first step, by the notes of the program's loops.
    pub fn new(alloc: Global, notes: LoopNotes) -> Result<Monitor, NoMemory>
        ensures { IfOk result (λ m. m ≡ watched_first notes) }
    {
        let headers = sorted_headers(alloc, &notes)?;
        let slots = header_slots(alloc, &notes)?;
        let turning = turning_loops(alloc, &notes)?;
        let returns = Vec::with_capacity(alloc, RETURN_LIMIT)?;
        let counts = vec![in alloc; 0; notes.count()]?;
        Ok(Monitor {
            notes,
            headers,
            slots,
            turning,
            returns,
            counts,
            kept: Kept::Kept,
        })
    }

    /// Watches the next step, and says whether the run is kept up to it; after a break, what was broken first.
    #[inline(always)]
    pub fn see(&mut self, step: &Stepped) -> Kept
        ensures new { self.new ≡ watch self.old step.now }
        ensures answer { result ≡ self.new.kept }
    {
        if is_plain(&self.slots, &self.turning, step) {
            return self.kept;
        }
        let step = *step;
        self.take_step(&step);
        self.kept
    }

    /// Whether the run is kept so far; after a break, what was broken first.
    pub fn kept(&self) -> Kept
        ensures { result ≡ self.now.kept }
    {
        self.kept
    }

    /// How many back edges of loop `l` the run has taken since the loop was last entered. A step that breaks what is noted changes no count.
    pub fn count(&self, l: usize) -> u32
        requires { l < length self.now.notes }
        ensures { slice_get self.now.counts l ≡ Some result }
    {
        self.counts[l]
    }

    // Watches any step.
    #[inline(never)]
    fn take_step(&mut self, step: &Stepped)
        ensures { self.new ≡ watch self.old step.now }
    {
        if let Kept::Kept = self.kept {
            self.kept = watch_next(
                &Rules {
                    notes: &self.notes,
                    turning: &self.turning,
                },
                &self.headers,
                &mut self.returns,
                &mut self.counts,
                step,
            );
        }
    }
}
