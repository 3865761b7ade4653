//! What runs take with a set of marks, by what they do at its edges and in its loops.

use crate::building::{Act, Acts, Files, Places, are_dear};
use crate::marks::{change_energy, energy_at};
use crate::sets::{MarkSet, Priced};
use power_model::Power;
use run_traces::{CandidateRun, RunKind, RunMarks, Span, StubCosts, is_much};
use scale_base::NoMemory;
use std::alloc::Global;

/// A place of a run at which its level may change: the cycles so far, and the levels behind it.
#[derive(Clone, Copy)]
struct Event {
    at: u64,
    entries: [u8; 8],
    again: bool,
}

/// What the search knows: the files, the machine, the program, the candidates, the runs, the cycles of the shortest run on an input and of the shortest of
/// all, the starting level, the energy of the runs there, by their weights, and that of the runs on inputs, without weights; and which sets it has priced, and
/// how many more it may.
#[derive(Drop)]
pub struct Search<'a> {
    pub alloc: Global,
    pub files: Files<'a>,
    pub power: &'a Power,
    pub costs: StubCosts,
    pub places: Places<'a>,
    pub runs: &'a [RunMarks],
    pub shortest: u64,
    pub least: u64,
    pub start: u8,
    pub held: u128,
    pub held_inputs: u128,
    pub known: Vec<Priced>,
    pub tries: usize,
}

/// The cycles of the shortest of some runs that is one on an input; none where none is.
pub fn shortest_of(runs: &[RunMarks]) -> u64 {
    let mut shortest: Option<u64> = None;
    for marks in runs {
        if marks.run.is_input() {
            let least = shortest.unwrap_or(u64::MAX);
            shortest = Some(marks.run.cycles.min(least));
        }
    }
    shortest.unwrap_or(0)
}

/// The cycles of the shortest of some runs, walks among them, but for those that are let off; none where there are none.
pub fn least_of(runs: &[RunMarks]) -> u64 {
    let mut least: Option<u64> = None;
    for marks in runs {
        if !marks.run.is_let_off() {
            least = Some(marks.run.cycles.min(least.unwrap_or(u64::MAX)));
        }
    }
    least.unwrap_or(0)
}

/// The cycles of the runs on inputs.
pub fn input_cycles(runs: &[RunMarks]) -> u128 {
    let mut cycles: u128 = 0;
    for marks in runs {
        if marks.run.is_input() {
            cycles = cycles.saturating_add(u128::from(marks.run.cycles));
        }
    }
    cycles
}

/// Whether each mark of a set can lower a level.
fn are_useful(set: &MarkSet, acts: &Acts) -> bool {
    for (c, act) in acts.acts.iter().enumerate() {
        if set.contains(c) && !act.is_useful {
            return false;
        }
    }
    true
}

/// The first time at which a back edge turned so often as to go to the lowest level.
fn due_at(run: &CandidateRun, act: &Act) -> u64 {
    let mut due = u64::MAX;
    for (k, from) in act.from.iter().enumerate() {
        if k < run.times.len() && *from < run.times[k].len() {
            due = due.min(run.times[k][*from]);
        }
    }
    due
}

/// The event of a candidate in a run.
fn event_of(run: &CandidateRun, act: &Act) -> Event {
    if act.from.is_empty() {
        Event {
            at: run.passed.first,
            entries: act.entries,
            again: run.passed.passes > 1,
        }
    } else {
        Event {
            at: due_at(run, act),
            entries: [0; 8],
            again: false,
        }
    }
}

impl Event {
    /// The level behind it, from a level.
    fn from(&self, level: u8) -> u8 {
        if level >= 8 {
            return level;
        }
        let once = self.entries[usize::from(level)];
        if self.again && once < 8 {
            self.entries[usize::from(once)]
        } else {
            once
        }
    }
}

/// What runs take: all of them, by their weights, and those on inputs, without weights.
#[derive(Clone, Copy)]
struct Energies {
    all: u128,
    inputs: u128,
}

impl Energies {
    /// More than any runs take.
    fn out() -> Energies {
        Energies {
            all: u128::MAX,
            inputs: u128::MAX,
        }
    }

    /// Adds what a run takes.
    fn add(&mut self, run: &RunMarks, energy: u128) {
        let weighed = energy.saturating_mul(u128::from(run.run.weight));
        self.all = self.all.saturating_add(weighed);
        if run.run.is_input() {
            self.inputs = self.inputs.saturating_add(energy);
        }
    }
}

/// A part of a run, from one time to another, at one level.
#[derive(Clone, Copy)]
struct RunPart {
    begin: u64,
    end: u64,
    level: u8,
}

impl<'a> Search<'a> {
    /// The cycles that the stubs of a set take from one time of a run to another.
    fn stub_cycles(&self, set: &MarkSet, run: &RunMarks, begin: u64, end: u64) -> u64 {
        let mut cycles: u64 = 0;
        for (c, mark) in run.marks.iter().enumerate() {
            if set.contains(c) {
                cycles = cycles.saturating_add(self.mark_cycles(set, mark, begin, end));
            }
        }
        cycles
    }

    /// Those of the stub of one candidate.
    fn mark_cycles(&self, set: &MarkSet, mark: &CandidateRun, begin: u64, end: u64) -> u64 {
        let each = if set.form.lowest {
            self.costs.lowest
        } else {
            self.costs.word
        };
        let code = Span {
            from: mark.passed.first,
            to: mark.passed.last,
            cycles: mark.passed.passes.saturating_mul(each),
        };
        let twin = match mark.twin {
            Some(d) => set.contains(d),
            None => false,
        };
        let other = if twin {
            0
        } else {
            mark.other.within(begin, end)
        };
        code.within(begin, end)
            .saturating_add(mark.jumps.within(begin, end))
            .saturating_add(other)
    }

    /// The energy of a part of a run, with the stubs of a set.
    fn part_energy(&self, set: &MarkSet, run: &RunMarks, part: &RunPart) -> u128 {
        let stubs = self.stub_cycles(set, run, part.begin, part.end);
        let cycles = u128::from(part.end.saturating_sub(part.begin)) + u128::from(stubs);
        cycles.saturating_mul(energy_at(self.power, part.level))
    }

    /// The events of a run with the stubs of a set, the first one first.
    fn events(&self, set: &MarkSet, acts: &Acts, run: &RunMarks) -> Result<Vec<Event>, NoMemory> {
        let mut events = Vec::new(self.alloc);
        for (c, mark) in run.marks.iter().enumerate() {
            if set.contains(c) && c < acts.acts.len() {
                events.push(event_of(mark, &acts.acts[c]))?;
            }
        }
        events.sort_by_key(|event| event.at)?;
        Ok(events)
    }

    /// The energy of a run with the stubs of a set.
    fn run_energy(&self, set: &MarkSet, acts: &Acts, run: &RunMarks) -> Result<u128, NoMemory> {
        let mut part = RunPart {
            begin: 0,
            end: 0,
            level: acts.start,
        };
        let mut energy: u128 = 0;
        for event in &self.events(set, acts, run)? {
            let to = event.from(part.level);
            if event.at < run.run.cycles && to != part.level {
                part.end = event.at;
                energy = energy
                    .saturating_add(self.part_energy(set, run, &part))
                    .saturating_add(change_energy(self.power, part.level, to));
                part.begin = event.at;
                part.level = to;
            }
        }
        part.end = run.run.cycles.saturating_add(1);
        Ok(energy.saturating_add(self.part_energy(set, run, &part)))
    }

    /// Whether a set is out by a run on an input: its stubs take more than so many thousandths of the run's cycles, and it doesn't save at least as much as
    /// they take.
    fn wastes(&self, set: &MarkSet, run: &RunMarks, energy: u128) -> bool {
        let cycles = run.run.cycles;
        let stubs = self.stub_cycles(set, run, 0, cycles.saturating_add(1));
        let few = u128::from(stubs).saturating_mul(1000) <= u128::from(cycles).saturating_mul(FEW);
        let spent = energy.saturating_add(self.held_energy(stubs));
        run.run.is_input() && !few && spent > self.held_energy(cycles)
    }

    /// Whether a set is out by a run: this takes over 2 percent more with it than without. Of a walk, and of a run on an input that is given, these are of the
    /// energy of a run that is a tenth as long as the shortest on an input, where that is more, and what a stub takes that is passed once counts for nothing.
    fn loses(&self, run: &RunMarks, energy: u128) -> bool {
        let cycles = run.run.cycles;
        let held = self.held_energy(cycles);
        let lost = energy.saturating_sub(held);
        if matches!(run.run.kind, RunKind::Derived) {
            return !run.run.is_let_off() && is_much(lost, held);
        }
        let usual = self.held_energy(cycles.max(self.shortest / 10));
        lost > self.held_energy(ONCE) && is_much(lost, usual)
    }

    /// The energy of so many cycles at the starting level.
    fn held_energy(&self, cycles: u64) -> u128 {
        u128::from(cycles).saturating_mul(energy_at(self.power, self.start))
    }

    /// What the runs take with the stubs of a set: more than any where that of one is out.
    fn energies(&self, set: &MarkSet, acts: &Acts) -> Result<Energies, NoMemory> {
        let mut energies = Energies { all: 0, inputs: 0 };
        for run in self.runs {
            let own = self.run_energy(set, acts, run)?;
            if self.wastes(set, run, own) || self.loses(run, own) {
                return Ok(Energies::out());
            }
            energies.add(run, own);
        }
        Ok(energies)
    }

    /// The cycles that stubs add at most, where the runs begin at the same level with them: more than any where they don't.
    fn most_added(&self, acts: &Acts) -> u64 {
        if acts.start == self.start {
            acts.added
        } else {
            u64::MAX
        }
    }

    /// A set with the energy of the runs: out where it is refused, adds too much to the worst case, or has a mark that can lower nothing.
    fn price_of(&self, set: &MarkSet) -> Result<Priced, NoMemory> {
        match self.places.acts(self.alloc, &self.files, set)? {
            Some(acts)
                if !are_dear(acts.added, self.places.numbers.worst) && are_useful(set, &acts) => {
                let energies = self.energies(set, &acts)?;
                Ok(Priced {
                    set: *set,
                    energy: energies.all,
                    inputs: energies.inputs,
                    added: self.most_added(&acts),
                })
            }
            _ => Ok(Priced::out(*set)),
        }
    }

    /// A set that was priced before.
    fn found(&self, set: &MarkSet) -> Option<Priced> {
        for priced in &self.known {
            if priced.set == *set {
                return Some(*priced);
            }
        }
        None
    }

    /// Whether nothing is known of a set, or that it saves something.
    pub fn is_hopeful(&self, set: &MarkSet) -> bool {
        match self.found(set) {
            Some(priced) => priced.energy < self.held,
            None => true,
        }
    }

    /// A set with the energy of the runs: more than any takes, too, where no more sets may be priced.
    pub fn priced(&mut self, set: MarkSet) -> Result<Priced, NoMemory> {
        if let Some(priced) = self.found(&set) {
            return Ok(priced);
        }
        if self.known.len() >= self.tries {
            return Ok(Priced::out(set));
        }
        let priced = self.price_of(&set)?;
        self.known.push(priced)?;
        Ok(priced)
    }

    /// Whether no run that is as long as the shortest one loses much with a set: all its stubs add few cycles, whatever the run does. What a run
    /// takes more than at one level is at most what they take.
    pub fn is_harmless(&self, priced: &Priced) -> bool {
        let added = u128::from(priced.added);
        added.saturating_mul(1000) <= u128::from(self.least).saturating_mul(HARMLESS)
    }

    /// Whether one energy is less than another by so many thousandths of that at the starting level.
    pub fn saves(&self, less: u128, than: u128, thousandths: u128) -> bool {
        less < than && (than - less).saturating_mul(1000) >= self.held.saturating_mul(thousandths)
    }

    /// Whether the runs on inputs take less with a set by so many thousandths of what they take at the starting level; all runs, where none is on an input.
    pub fn saves_on_inputs(&self, priced: &Priced, thousandths: u128) -> bool {
        let held = self.held_inputs;
        if held == 0 {
            return self.saves(priced.energy, self.held, thousandths);
        }
        let saved = held.saturating_sub(priced.inputs);
        saved.saturating_mul(1000) >= held.saturating_mul(thousandths)
    }
}

/// How many thousandths of its cycles the stubs of a run may take where they save nothing.
const FEW: u128 = 18;

/// How many thousandths of the cycles of the shortest run the stubs of a set may add at most where no run loses much with it.
const HARMLESS: u128 = 10;

/// So many cycles at the starting level may be lost in any run: about what one stub takes that is passed once.
const ONCE: u64 = 16;
