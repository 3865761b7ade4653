//! What each run does at the candidates.

use crate::derived::is_brief;
use crate::numbers::Numbers;
use crate::tracing::{EdgeTrace, Passed};
use crate::turning::LoopPlan;
use scale_base::NoMemory;
use std::alloc::Global;

/// What may have a mark: an edge, or each back edge of a loop, by its place among the loops that may be tallied.
#[derive(Clone, Copy)]
pub enum Candidate {
    Edge(usize),
    Loop(usize),
}

/// Cycles that stubs take of a run, spread from one time to another.
#[derive(Clone, Copy)]
pub struct Span {
    pub from: u64,
    pub to: u64,
    pub cycles: u64,
}

impl Span {
    /// No cycles.
    fn none() -> Span {
        Span {
            from: 0,
            to: 0,
            cycles: 0,
        }
    }

    /// So many cycles at each pass of an edge.
    fn of(passed: Passed, each: u64) -> Span {
        Span {
            from: passed.first,
            to: passed.last,
            cycles: passed.passes.saturating_mul(each),
        }
    }

    /// The span from the earlier begin to the later end of two, with the cycles of both.
    fn joined(self, other: Span) -> Span {
        if other.cycles == 0 {
            return self;
        }
        if self.cycles == 0 {
            return other;
        }
        Span {
            from: self.from.min(other.from),
            to: self.to.max(other.to),
            cycles: self.cycles.saturating_add(other.cycles),
        }
    }

    /// The cycles that lie from one time to another.
    pub fn within(&self, begin: u64, end: u64) -> u64 {
        if self.to <= self.from {
            return if begin <= self.from && self.from < end {
                self.cycles
            } else {
                0
            };
        }
        let from = self.from.max(begin);
        let to = self.to.min(end);
        let part = u128::from(self.cycles) * u128::from(to.saturating_sub(from));
        let whole = u128::from(self.to - self.from);
        let cycles = part.checked_div(whole).unwrap_or(0);
        if cycles < u128::from(self.cycles) {
            cycles as u64
        } else {
            self.cycles
        }
    }
}

/// What a run does at a candidate: its first pass of the edge, its passes, the jumps of a stub there and on the other edge of the branch, which may be a
/// candidate, too; and of a loop what tallying it takes, and by back edge the times at which the run first turned so often.
#[derive(Drop)]
pub struct CandidateRun {
    pub passed: Passed,
    pub jumps: Span,
    pub other: Span,
    pub twin: Option<usize>,
    pub times: Vec<Vec<u64>>,
}

impl CandidateRun {
    /// At edge `e`.
    fn at_edge(alloc: Global, watched: &Watched<'_>, trace: &EdgeTrace, e: usize) -> CandidateRun {
        let passed = trace.passed(e);
        let (each, d) = jumps_at(watched.numbers, watched.jump, e);
        let other = match d {
            Some(d) => Span::of(trace.passed(d), each),
            None => Span::none(),
        };
        CandidateRun {
            passed,
            jumps: Span::of(passed, each),
            other,
            twin: candidate_on(watched.candidates, d),
            times: Vec::new(alloc),
        }
    }

    /// In a loop.
    fn in_loop(
        alloc: Global,
        plan: &LoopPlan,
        trace: &EdgeTrace,
    ) -> Result<CandidateRun, NoMemory> {
        let mut jumps = Span::none();
        for charge in &plan.charges {
            jumps = jumps.joined(Span::of(trace.passed(charge.edge), charge.cycles));
        }
        let mut times = Vec::new(alloc);
        for e in &plan.backs {
            times.push(Vec::from_slice(alloc, trace.times(*e))?)?;
        }
        Ok(CandidateRun {
            passed: Passed::never(),
            jumps,
            other: Span::none(),
            twin: None,
            times,
        })
    }
}

/// The jumps of a stub at the instruction of edge `e`, in cycles, and the other edge of its branch.
fn jumps_at(numbers: &Numbers, jump: u64, e: usize) -> (u64, Option<usize>) {
    if e < numbers.edges.len() {
        match numbers.edges[e].other {
            Some(d) => (jump.saturating_mul(2), Some(d)),
            None => (jump, None),
        }
    } else {
        (0, None)
    }
}

/// The candidate on an edge.
fn candidate_on(candidates: &[Candidate], e: Option<usize>) -> Option<usize> {
    let e = e?;
    candidates
        .iter()
        .position(|c| matches!(c, Candidate::Edge(d) if *d == e))
}

/// What a run is: one on an input that is given, one on an input that is derived from these, or a walk.
#[derive(Clone, Copy, PartialEq, Eq)]
pub enum RunKind {
    Input,
    Derived,
    Walk,
}

/// A run: its cycles, its weight, and what it is.
#[derive(Clone, Copy)]
pub struct RunWeight {
    pub cycles: u64,
    pub weight: u64,
    pub kind: RunKind,
}

impl RunWeight {
    /// Whether it is one on an input that is given.
    pub fn is_input(&self) -> bool {
        matches!(self.kind, RunKind::Input)
    }

    /// Whether it is let off: it is one on a derived input, and brief.
    pub fn is_let_off(&self) -> bool {
        matches!(self.kind, RunKind::Derived) && is_brief(self.cycles)
    }
}

/// A run, and what it does at each candidate.
#[derive(Drop)]
pub struct RunMarks {
    pub run: RunWeight,
    pub marks: Vec<CandidateRun>,
}

/// The candidates whose marks are looked at: edges of a program, and loops that may be tallied. A jump takes so many cycles.
#[derive(Clone, Copy)]
pub struct Watched<'a> {
    pub numbers: &'a Numbers,
    pub candidates: &'a [Candidate],
    pub plans: &'a [LoopPlan],
    pub jump: u64,
}

impl Watched<'_> {
    /// What the run that was traced does at a candidate.
    fn run(
        &self,
        alloc: Global,
        trace: &EdgeTrace,
        candidate: Candidate,
    ) -> Result<CandidateRun, NoMemory> {
        match candidate {
            Candidate::Loop(j) if j < self.plans.len() => {
                CandidateRun::in_loop(alloc, &self.plans[j], trace)
            }
            Candidate::Loop(_) => Ok(CandidateRun::at_edge(alloc, self, trace, usize::MAX)),
            Candidate::Edge(e) => Ok(CandidateRun::at_edge(alloc, self, trace, e)),
        }
    }
}

impl RunMarks {
    /// Of the run that was traced.
    pub fn new(
        alloc: Global,
        watched: &Watched<'_>,
        trace: &EdgeTrace,
        run: RunWeight,
    ) -> Result<RunMarks, NoMemory> {
        let mut marks = Vec::new(alloc);
        for candidate in watched.candidates {
            marks.push(watched.run(alloc, trace, *candidate)?)?;
        }
        Ok(RunMarks { run, marks })
    }
}
