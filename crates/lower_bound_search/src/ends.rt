//! Where a loop is entered and left.

ghost use Rattle.std.specs.Prelude.{◌<◌, length};
ghost use Rattle.stack_tables.specs.Tables.{IsStackClaim};
ghost use Rattle.lower_bounds.specs.LowerTables.{IsStep};

use loop_file::{LoopNote, in_extent};
use lower_bounds::{Step, is_never};
use scale_base::NoMemory;
use stack_tables::{StackClaim, address, instruction, is_live};
use std::alloc::Global;

/// The steps that enter a loop, and those that leave it.
#[derive(Drop)]
pub struct Ends {
    pub entering: Vec<Step>,
    pub leaving: Vec<Step>,
}

impl Ends {
    // Adds a step that enters a loop, if it isn't `leaving`, or leaves it.
    fn add_step(
        &mut self,
        claim: &StackClaim<'_>,
        step: Step,
        leaving: bool,
    ) -> Result<(), NoMemory>
        requires claim { IsStackClaim claim.now }
        requires step { IsStep claim.now step }
    {
        if is_never(claim, step) {
            return Ok(());
        }
        if leaving {
            self.leaving.push(step)?;
        } else {
            self.entering.push(step)?;
        }
        Ok(())
    }

    // Adds edge e, if it is a step that enters the loop or leaves it. What instruction it is of is read only then, since most edges do neither.
    fn add_edge(
        &mut self,
        claim: &StackClaim<'_>,
        note: &LoopNote,
        e: usize,
    ) -> Result<(), NoMemory>
        requires claim { IsStackClaim claim.now }
        requires edge { e < length claim.now.graph.now.code.edges }
    {
        let from = claim.graph.source(e);
        let (Some(to), None) = (claim.graph.target(e), claim.graph.callee(e)) else {
            return Ok(());
        };
        let leaving = in_extent(note, address(claim, from));
        if leaving == in_extent(note, address(claim, to)) || !is_live(claim, from) {
            return Ok(());
        }
        match instruction(claim, from) {
            Some(instr) => self.add_step(claim, Step { instr, from, to }, leaving),
            None => Ok(()),
        }
    }
}

/// All of a noted loop.
pub fn ends_of(alloc: Global, claim: &StackClaim<'_>, note: &LoopNote) -> Result<Ends, NoMemory>
    requires { IsStackClaim claim.now }
{
    let mut ends = Ends {
        entering: Vec::new(alloc),
        leaving: Vec::new(alloc),
    };
    for e in 0..claim.graph.edge_count() {
        ends.add_edge(claim, note, e)?;
    }
    Ok(ends)
}
