//! How often a loop turns at least: that is looked for, and checked.

ghost use Rattle.std.specs.Prelude.{◌≡◌, IfOk};
ghost use Rattle.stack_tables.specs.Tables.{IsStackClaim};
ghost use Rattle.loop_drafts.specs.Bounds.{NeedNotTurn, turning_by};
ghost use Rattle.loop_drafts.specs.Sought.{IsLeastFoundBy};

use crate::left::counts_input;
use crate::noted::turning_by;
use loop_file::LoopNote;
use lower_bound_search::{CountedLoop, LowerFound, find_lower};
use lower_bounds::{CountedWord, Counter, is_lower_shown};
use scale_base::NoMemory;
use shown_bounds::{StackCertificate, StackCounter};
use stack_tables::StackClaim;
use std::alloc::Global;

// What the loop of a certificate counts in.
fn counter_of(certificate: &StackCertificate) -> Counter {
    match certificate.counter {
        StackCounter::InRegisters(measure) => Counter::Registers(measure),
        StackCounter::InWord {
            number,
            factor,
            shift,
        } => Counter::Word(CountedWord {
            number,
            factor,
            shift,
        }),
    }
}

// The code of its loop, and the code that runs while a call from there is open.
fn code_of(certificate: &StackCertificate) -> (&[bool], &[bool]) {
    match &certificate.turns {
        Some(table) => (&table.body, &table.quiet),
        None => (&certificate.body, &certificate.quiet),
    }
}

// What is found of a noted loop, by a certificate of its bound. Of turns that are counted in the input, or that walk through memory,
// nothing is: those may end at once.
fn find(
    alloc: Global,
    claim: &StackClaim<'_>,
    note: &LoopNote,
    certificate: &StackCertificate,
) -> Result<Option<LowerFound>, NoMemory>
    requires { IsStackClaim claim.now }
{
    if counts_input(certificate) || certificate.walk.is_some() {
        return Ok(None);
    }
    let Some(header) = claim.graph.find(note.header) else {
        return Ok(None);
    };
    let (body, quiet) = code_of(certificate);
    let counter = counter_of(certificate);
    find_lower(
        alloc,
        claim,
        CountedLoop {
            note,
            header,
            counter,
            body,
            quiet,
        },
    )
}

// The note with what is found, where the code confirms it: it does so of all that is found.
fn with_found(claim: &StackClaim<'_>, note: LoopNote, found: &LowerFound) -> LoopNote
    requires { IsStackClaim claim.now }
    ensures least { IsLeastFoundBy claim.now result }
    ensures note { result ≡ turning_by result.at_least note }
{
    let turning = turning_by(note, found.at_least);
    if is_lower_shown(claim, &turning, &found.table) {
        turning
    } else {
        turning_by(turning, 0)
    }
}

/// The note of a loop with as many turns at least as the code shows, as far as that is found.
pub fn with_least(
    alloc: Global,
    claim: &StackClaim<'_>,
    note: LoopNote,
    certificate: &StackCertificate,
) -> Result<LoopNote, NoMemory>
    requires claim { IsStackClaim claim.now }
    requires least { NeedNotTurn note }
    ensures least { IfOk result (λ n. IsLeastFoundBy claim.now n) }
    ensures note { IfOk result (λ n. n ≡ turning_by n.at_least note) }
{
    match find(alloc, claim, &note, certificate)? {
        Some(found) => Ok(with_found(claim, note, &found)),
        None => Ok(note),
    }
}
