//! How far a long call is. Who waits is told by what stands behind the trait; no contract says anything of it.
//! Tests: `.ci/progress.py`, of the built programs.
#![tactic(auto)]

/// The parts that a call has several of. An input belongs to the candidate that was begun last, if there is one.
#[derive(Clone, Copy, PartialEq, Eq)]
pub enum Part {
    Candidate,
    Input,
}

/// What is told how far a call is. It promises nothing, and nothing is promised of what it is told.
pub trait Progress {
    /// So many parts come, one after another.
    fn begin(&mut self, part: Part, count: usize);

    /// The next of them begins.
    fn next(&mut self, part: Part);

    /// The run has completed so many steps.
    fn ran(&mut self, steps: u64);

    /// All is done, and the answer comes next.
    fn done(&mut self);
}

/// Tells nobody.
#[derive(Clone, Copy)]
pub struct Silent;

impl Progress for Silent {
    #[inline(always)]
    fn begin(&mut self, _part: Part, _count: usize) {}

    #[inline(always)]
    fn next(&mut self, _part: Part) {}

    #[inline(always)]
    fn ran(&mut self, _steps: u64) {}

    #[inline(always)]
    fn done(&mut self) {}
}
