//! What a loop may count in: sums of registers that the tables know at its header, and what is compared where it is left.

ghost use Rattle.std.specs.Prelude.{◌<◌, length};
ghost use Rattle.stack_tables.specs.Tables.{IsStackClaim};

use crate::ends::Ends;
use lower_bounds::{CountedWord, Counter, Step};
use scale_base::{Instr, NoMemory};
use stack_tables::{Name, StackClaim, form, held_at, lines, name_of, word};
use std::alloc::Global;
use wrapped_intervals::{Arc, Measure};

/// So many are tried.
const MOST_TRIED: usize = 16;

/// What may be counted in.
#[derive(Drop)]
pub struct Candidates {
    items: Vec<Counter>,
}

// A register, going up from its least number or down from its greatest one.
fn register_counter(r: u8, arc: Arc, falls: bool) -> Counter {
    Counter::Registers(Measure {
        register: r,
        factor: factor(falls),
        other: 0,
        other_factor: 0,
        shift: shift(arc, falls),
    })
}

fn word_counter(number: u32, arc: Arc, falls: bool) -> Counter {
    Counter::Word(CountedWord {
        number,
        factor: factor(falls),
        shift: shift(arc, falls),
    })
}

fn factor(falls: bool) -> u32 {
    if falls { u32::MAX } else { 1 }
}

// The last 32 bits.
fn low_word(n: u64) -> u32 {
    (n % 4_294_967_296) as u32
}

fn shift(arc: Arc, falls: bool) -> u32 {
    if falls {
        low_word(arc.low()).wrapping_add(low_word(arc.more()))
    } else {
        low_word(arc.low()).wrapping_neg()
    }
}

impl Candidates {
    fn new(alloc: Global) -> Candidates {
        Candidates {
            items: Vec::new(alloc),
        }
    }

    fn push(&mut self, counter: Counter) -> Result<(), NoMemory> {
        if self.items.len() < MOST_TRIED {
            self.items.push(counter)?;
        }
        Ok(())
    }

    // A register, by its interval at the header.
    fn push_register(
        &mut self,
        claim: &StackClaim<'_>,
        header: usize,
        r: u8,
    ) -> Result<(), NoMemory>
        requires claim { IsStackClaim claim.now }
        requires node { header < length claim.now.graph.now.code.nodes }
    {
        match held_at(claim, header, r) {
            Some(arc) if r != 0 => {
                self.push(register_counter(r, arc, false))?;
                self.push(register_counter(r, arc, true))
            }
            _ => Ok(()),
        }
    }

    // The word of the stack of which a register's name is, before a step.
    fn push_named(
        &mut self,
        claim: &StackClaim<'_>,
        header: usize,
        from: usize,
        r: u8,
    ) -> Result<(), NoMemory>
        requires claim { IsStackClaim claim.now }
        requires node { header < length claim.now.graph.now.code.nodes }
        requires from { from < length claim.now.graph.now.code.nodes }
    {
        let Some(Name::OfWord(number, _)) = name_of(claim, from, r) else {
            return Ok(());
        };
        match word(claim, header, number).arc {
            Some(arc) => {
                self.push(word_counter(number, arc, false))?;
                self.push(word_counter(number, arc, true))
            }
            None => Ok(()),
        }
    }

    // What a step compares.
    fn push_compared(
        &mut self,
        claim: &StackClaim<'_>,
        header: usize,
        step: Step,
    ) -> Result<(), NoMemory>
        requires claim { IsStackClaim claim.now }
        requires node { header < length claim.now.graph.now.code.nodes }
        requires from { step.from < length claim.now.graph.now.code.nodes }
    {
        let Instr::Branch { rs1, rs2, .. } = step.instr else {
            return Ok(());
        };
        self.push_register(claim, header, rs1)?;
        self.push_register(claim, header, rs2)?;
        self.push_named(claim, header, step.from, rs1)?;
        self.push_named(claim, header, step.from, rs2)
    }

    // The sums that are known at the header.
    fn push_sums(&mut self, claim: &StackClaim<'_>, header: usize) -> Result<(), NoMemory>
        requires claim { IsStackClaim claim.now }
        requires node { header < length claim.now.graph.now.code.nodes }
    {
        for line in lines(claim, header) {
            self.push(Counter::Registers(form(claim, line.form)))?;
        }
        Ok(())
    }

    /// The first ones, so many at most.
    pub fn first(&self, most: usize) -> &[Counter] {
        &self.items[..most.min(self.items.len())]
    }
}

/// What a loop with this header and these ends may count in, this counter first.
pub fn candidates_of(
    alloc: Global,
    claim: &StackClaim<'_>,
    header: usize,
    ends: &Ends,
    first: Counter,
) -> Result<Candidates, NoMemory>
    requires { IsStackClaim claim.now }
{
    let mut candidates = Candidates::new(alloc);
    candidates.push(first)?;
    if header >= claim.graph.node_count() {
        return Ok(candidates);
    }
    candidates.push_sums(claim, header)?;
    for step in &ends.leaving {
        if step.from < claim.graph.node_count() {
            candidates.push_compared(claim, header, *step)?;
        }
    }
    Ok(candidates)
}
