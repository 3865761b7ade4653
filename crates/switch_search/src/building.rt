//! What the stubs of a set of marks do, as they are built.

ghost use Rattle.std.specs.Prelude.{◌≤◌, length, IfOk};
ghost use Rattle.scale_base.specs.declared.limits.TheConstants.{FILE_LIMIT, IMAGE_LIMIT};

use crate::sets::MarkSet;
use marked_images::Scaling;
use paced_images::{Proposal, SwitchSite, program_of};
use run_traces::{Candidate, LoopPlan, Numbers, Watched};
use scale_base::{Edge, FILE_LIMIT, Fragment, IMAGE_LIMIT, NoMemory, Stop};
use std::alloc::Global;
use stub_writer::{StubEdge, StubSite};

/// The files of a program, each with at most the bytes that are loaded.
#[derive(Clone, Copy)]
pub struct Files<'a> {
    pub image: &'a [u8],
    pub machine: &'a [u8],
    pub loops: &'a [u8],
    ghost short_image: { length image.now ≤ IMAGE_LIMIT },
    ghost short_machine: { length machine.now ≤ FILE_LIMIT },
    ghost short_loops: { length loops.now ≤ FILE_LIMIT },
}

/// What the candidates and the loops are.
#[derive(Clone, Copy)]
pub struct Places<'a> {
    pub numbers: &'a Numbers,
    pub candidates: &'a [Candidate],
    pub plans: &'a [LoopPlan],
}

/// What the stubs of a candidate do: of an edge, by level, the level behind it; of a loop, by back edge, the shifted count of turns from which on
/// it goes to the lowest level. And whether they can lower a level.
#[derive(Drop)]
pub struct Act {
    pub entries: [u8; 8],
    pub from: Vec<usize>,
    pub is_useful: bool,
}

/// The stubs of a set: the starting level, the cycles that they add at most, and what they do, by candidate.
#[derive(Drop)]
pub struct Acts {
    pub start: u8,
    pub added: u64,
    pub acts: Vec<Act>,
}

/// How many percent of the worst cycles stubs may add.
const MOST_ADDED: u64 = 10;

/// Whether stubs add too many cycles to so many worst ones.
pub fn are_dear(added: u64, worst: u64) -> bool {
    added.saturating_mul(100) > worst.saturating_mul(MOST_ADDED)
}

/// From each level to itself.
const STAYS: [u8; 8] = [0, 1, 2, 3, 4, 5, 6, 7];

/// The levels behind a switch with a word.
fn entries_of(word: u32) -> [u8; 8] {
    let mut entries = STAYS;
    for i in 0..8usize {
        entries[i] = ((word >> (4 * i as u32)) & 7) as u8;
    }
    entries
}

/// Whether some level up to the starting one has a lower one behind it.
fn lowers(entries: &[u8; 8], start: u8) -> bool {
    for i in 0..8u8 {
        if i <= start && entries[usize::from(i)] < i {
            return true;
        }
    }
    false
}

/// What the stub of an edge does, if it switches.
fn entries_at(stub: &StubEdge) -> [u8; 8] {
    if stub.fragments.count() == 0 {
        return STAYS;
    }
    match *stub.fragments.get(0) {
        Fragment::Switch { word } => entries_of(word),
        Fragment::Lowest { down } => { if down { [0; 8] } else { STAYS } }
        _ => STAYS,
    }
}

/// The shifted count of the turns from which on it goes to the lowest level.
fn tally_at(stub: &StubEdge) -> usize {
    if stub.fragments.count() == 0 {
        return usize::MAX;
    }
    match *stub.fragments.get(0) {
        Fragment::Tally { from, .. } if from < 2047 => usize::from(from),
        _ => usize::MAX,
    }
}

/// The stub of an edge, if it has one.
fn stub_of<'a>(stubs: &'a [StubSite], edge: Edge) -> Option<&'a StubEdge> {
    for site in stubs {
        if site.at == edge.at {
            for k in 0..site.edges.count() {
                let stub = site.edges.get(k);
                if stub.edge == edge {
                    return Some(stub);
                }
            }
        }
    }
    None
}

impl Act {
    /// Nothing.
    fn none(alloc: Global) -> Act {
        Act {
            entries: STAYS,
            from: Vec::new(alloc),
            is_useful: false,
        }
    }
}

impl<'a> Places<'a> {
    /// What runs are looked at for, where a jump takes so many cycles.
    pub fn watched(&self, jump: u64) -> Watched<'a> {
        Watched {
            numbers: self.numbers,
            candidates: self.candidates,
            plans: self.plans,
            jump,
        }
    }

    /// Edge `e`.
    fn edge(&self, e: usize) -> Option<Edge> {
        if e < self.numbers.edges.len() {
            Some(self.numbers.edges[e].edge)
        } else {
            None
        }
    }

    /// Loop `j` of those that may be tallied.
    fn plan(&self, j: usize) -> Option<&'a LoopPlan> {
        if j < self.plans.len() {
            Some(&self.plans[j])
        } else {
            None
        }
    }

    /// The switch of candidate `c`, if it is an edge of a set.
    fn site(&self, set: &MarkSet, c: usize) -> Option<SwitchSite> {
        if c >= self.candidates.len() || !set.contains(c) {
            return None;
        }
        match self.candidates[c] {
            Candidate::Edge(e) => {
                let edge = self.edge(e)?;
                Some(SwitchSite {
                    at: edge.at,
                    kind: edge.kind,
                    lowest: set.form.lowest,
                })
            }
            Candidate::Loop(_) => None,
        }
    }

    /// The address of the header of candidate `c`, if it is a loop of a set.
    fn header(&self, set: &MarkSet, c: usize) -> Option<u32> {
        if c >= self.candidates.len() || !set.contains(c) {
            return None;
        }
        match self.candidates[c] {
            Candidate::Loop(j) => Some(self.plan(j)?.header),
            Candidate::Edge(_) => None,
        }
    }

    /// The switches of a set.
    fn sites(&self, alloc: Global, set: &MarkSet) -> Result<Vec<SwitchSite>, NoMemory>
        ensures { IfOk result (λ sites. length sites.items ≤ 8) }
    {
        let mut sites = Vec::new(alloc);
        for c in 0..self.candidates.len() {
            if let Some(site) = self.site(set, c) {
                if sites.len() < 8 {
                    sites.push(site)?;
                }
            }
        }
        Ok(sites)
    }

    /// The headers of the loops of a set.
    fn headers(&self, alloc: Global, set: &MarkSet) -> Result<Vec<u32>, NoMemory>
        ensures { IfOk result (λ headers. length headers.items ≤ 8) }
    {
        let mut headers = Vec::new(alloc);
        for c in 0..self.candidates.len() {
            if let Some(header) = self.header(set, c) {
                if headers.len() < 8 {
                    headers.push(header)?;
                }
            }
        }
        Ok(headers)
    }

    /// A set as a proposal.
    pub fn proposal(&self, alloc: Global, set: &MarkSet) -> Result<Proposal, NoMemory> {
        let sites = self.sites(alloc, set)?;
        let tallied = self.headers(alloc, set)?;
        Ok(Proposal {
            sites,
            tallied,
            share: set.form.share.min(4),
            counted: false,
        })
    }

    /// What the stubs of a candidate do, where the runs begin at a level.
    fn act(
        &self,
        alloc: Global,
        stubs: &[StubSite],
        start: u8,
        candidate: Candidate,
    ) -> Result<Act, NoMemory> {
        match candidate {
            Candidate::Edge(e) => Ok(self.edge_act(alloc, stubs, start, e)),
            Candidate::Loop(j) => match self.plan(j) {
                Some(plan) => self.loop_act(alloc, stubs, start, plan),
                None => Ok(Act::none(alloc)),
            },
        }
    }

    /// What the stub of edge `e` does.
    fn edge_act(&self, alloc: Global, stubs: &[StubSite], start: u8, e: usize) -> Act {
        let mut act = Act::none(alloc);
        if let Some(edge) = self.edge(e) {
            if let Some(stub) = stub_of(stubs, edge) {
                act.entries = entries_at(stub);
                act.is_useful = lowers(&act.entries, start);
            }
        }
        act
    }

    /// What the stubs of a loop's back edges do.
    fn loop_act(
        &self,
        alloc: Global,
        stubs: &[StubSite],
        start: u8,
        plan: &LoopPlan,
    ) -> Result<Act, NoMemory> {
        let mut act = Act::none(alloc);
        for e in &plan.backs {
            let from = self.tally(stubs, *e);
            act.from.push(from)?;
            if start > 0 && from <= plan.most {
                act.is_useful = true;
            }
        }
        Ok(act)
    }

    /// The shifted count from which on back edge `e` goes to the lowest level.
    fn tally(&self, stubs: &[StubSite], e: usize) -> usize {
        match self.edge(e) {
            Some(edge) => match stub_of(stubs, edge) {
                Some(stub) => tally_at(stub),
                None => usize::MAX,
            },
            None => usize::MAX,
        }
    }

    /// What the candidates' stubs do.
    fn acts_of(&self, alloc: Global, scaling: &Scaling) -> Result<Acts, NoMemory> {
        let start = scaling.summary.start;
        let mut acts = Vec::new(alloc);
        for candidate in self.candidates {
            acts.push(self.act(alloc, &scaling.stubs, start, *candidate)?)?;
        }
        Ok(Acts {
            start,
            added: scaling.summary.stub_cycles,
            acts,
        })
    }

    /// What the stubs of a set do, as they are built; none where it is refused.
    pub fn acts(
        &self,
        alloc: Global,
        files: &Files<'_>,
        set: &MarkSet,
    ) -> Result<Option<Acts>, NoMemory> {
        let proposal = self.proposal(alloc, set)?;
        match scaling_of(alloc, files, &proposal)? {
            Some(scaling) => Ok(Some(self.acts_of(alloc, &scaling)?)),
            None => Ok(None),
        }
    }
}

/// The stubs of a proposal, unless it is refused.
pub fn scaling_of(
    alloc: Global,
    files: &Files<'_>,
    proposal: &Proposal,
) -> Result<Option<Scaling>, NoMemory> {
    let marks = proposal.marks();
    match program_of(alloc, files.image, files.machine, files.loops, &marks) {
        Ok(program) => Ok(Some(program.scaling)),
        Err(Stop::Memory) => Err(NoMemory),
        Err(Stop::Refused(_)) => Ok(None),
    }
}
