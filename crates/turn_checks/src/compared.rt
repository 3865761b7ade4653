//! What a branch says of relations.

ghost use Rattle.std.specs.Prelude.{◌≡◌, ◌<◌, ◌⊎◌, length, option_map, true};
ghost use Rattle.bound_laws.specs.Values as values;
ghost use Rattle.stack_tables.specs.Tables.{stacks_in, values_in};
ghost use Rattle.wrapped_intervals.specs.Small.{IsKeptOr, said_view};
ghost use Rattle.turn_laws.specs.Relating as relating;
ghost use Rattle.turn_checks.specs.Turned.{at_of, cert, relation_view, IsStep, IsTurnCase};

use crate::made::is_row_over;
use crate::relations::{is_greater, is_lesser, is_low, is_weaker};
use crate::rows::relation_at;
use crate::tables::{Relation, Step, TurnCase};
use scale_base::BranchOp;
use stack_tables::{address, arcs, held_at};
use wrapped_intervals::{Arc, Said, is_impossible, keeps, said_by};

// What is said on the way.
fn said_on(case: &TurnCase<'_>, step: Step) -> Option<Said>
    requires case { IsTurnCase case.now }
    requires step { IsStep case.now step }
    ensures { option_map said_view result ≡ values.said step.instr (at_of case.now step.from) (at_of case.now step.to) }
{
    said_by(
        step.instr,
        address(case.claim, step.from),
        address(case.claim, step.to),
    )
}

/// Whether no state comes this way.
pub fn is_never(case: &TurnCase<'_>, step: Step) -> bool
    requires case { IsTurnCase case.now }
    requires step { IsStep case.now step }
    ensures { result ≡ true → values.IsImpossible (values.said step.instr (at_of case.now step.from) (at_of case.now step.to))
        ((values_in case.now.claim.now).at (at_of case.now step.from)) }
{
    is_impossible(said_on(case, step), arcs(case.claim, step.from))
}

// Whether the numbers of intervals compare as words.
fn are_ordered(op: BranchOp, i: Option<Arc>, j: Option<Arc>) -> bool
    requires i { IsKeptOr i }
    requires j { IsKeptOr j }
    ensures { result ≡ relating.are_ordered op i j }
{
    match op {
        BranchOp::Blt => is_low(i) && j.is_some(),
        BranchOp::Bge => i.is_some() && is_low(j),
        BranchOp::Beq => i.is_some() && j.is_some(),
        BranchOp::Bne => i.is_some() && j.is_some(),
        BranchOp::Bltu => i.is_some() && j.is_some(),
        BranchOp::Bgeu => i.is_some() && j.is_some(),
    }
}

// Whether a relation is one of the first register by that of the second one.
fn is_first_related(op: BranchOp, b: Relation, q: Relation) -> bool
    ensures { result ≡ true → relating.IsWeaker (relation_view b) (relating.first_related op (relation_view q)) }
{
    match op {
        BranchOp::Beq => is_weaker(b, q),
        BranchOp::Bne => is_weaker(b, Relation::Unknown),
        BranchOp::Blt => is_lesser(b, q, 1),
        BranchOp::Bge => is_greater(b, q, 0),
        BranchOp::Bltu => is_lesser(b, q, 1),
        BranchOp::Bgeu => is_greater(b, q, 0),
    }
}

// And of the second register by that of the first one.
fn is_second_related(op: BranchOp, b: Relation, q: Relation) -> bool
    ensures { result ≡ true → relating.IsWeaker (relation_view b) (relating.second_related op (relation_view q)) }
{
    match op {
        BranchOp::Beq => is_weaker(b, q),
        BranchOp::Bne => is_weaker(b, Relation::Unknown),
        BranchOp::Blt => is_greater(b, q, 1),
        BranchOp::Bge => is_lesser(b, q, 0),
        BranchOp::Bltu => is_greater(b, q, 1),
        BranchOp::Bgeu => is_lesser(b, q, 0),
    }
}

// Whether what is said compares numbers as words.
fn is_word_said(case: &TurnCase<'_>, k: usize, said: Said) -> bool
    requires case { IsTurnCase case.now }
    requires from { k < length case.now.claim.now.graph.now.code.nodes }
    ensures { result ≡ relating.are_ordered said.op (values.held ((values_in case.now.claim.now).at (at_of case.now k)) said.first)
        (values.held ((values_in case.now.claim.now).at (at_of case.now k)) said.second) }
{
    are_ordered(
        said.op,
        held_at(case.claim, k, said.first),
        held_at(case.claim, k, said.second),
    )
}

// Whether a relation is one of the first register of a comparison at node k, if that is the register.
fn is_first(case: &TurnCase<'_>, k: usize, said: Said, r: u8, b: Relation) -> bool
    requires case { IsTurnCase case.now }
    requires from { k < length case.now.claim.now.graph.now.code.nodes }
    ensures { result ≡ true → (r ≡ said.first) × relating.IsWeaker (relation_view b) (relating.first_related said.op
        (relating.row_of (cert case.now) (at_of case.now k) said.second)) }
{
    if r != said.first {
        return false;
    }
    is_first_related(
        said.op,
        b,
        relation_at(case.claim, case.table, k, said.second),
    )
}

// The same of the second register.
fn is_second(case: &TurnCase<'_>, k: usize, said: Said, r: u8, b: Relation) -> bool
    requires case { IsTurnCase case.now }
    requires from { k < length case.now.claim.now.graph.now.code.nodes }
    ensures { result ≡ true → (r ≡ said.second) × relating.IsWeaker (relation_view b) (relating.second_related said.op
        (relating.row_of (cert case.now) (at_of case.now k) said.first)) }
{
    if r != said.second {
        return false;
    }
    is_second_related(
        said.op,
        b,
        relation_at(case.claim, case.table, k, said.first),
    )
}

// Whether it is one of either.
fn is_said(case: &TurnCase<'_>, k: usize, said: Said, r: u8, b: Relation) -> bool
    requires case { IsTurnCase case.now }
    requires from { k < length case.now.claim.now.graph.now.code.nodes }
    ensures { result ≡ true → ((r ≡ said.first) × relating.IsWeaker (relation_view b) (relating.first_related said.op
        (relating.row_of (cert case.now) (at_of case.now k) said.second))) ⊎ ((r ≡ said.second) × relating.IsWeaker (relation_view b)
        (relating.second_related said.op (relating.row_of (cert case.now) (at_of case.now k) said.first))) }
{
    if is_first(case, k, said, r, b) {
        return true;
    }
    is_second(case, k, said, r, b)
}

// The same of a register that the instruction leaves.
fn is_related_by(case: &TurnCase<'_>, step: Step, r: u8, b: Relation) -> bool
    requires case { IsTurnCase case.now }
    requires step { IsStep case.now step }
    ensures { result ≡ true → relating.IsRelatedBy (values_in case.now.claim.now) (cert case.now) (at_of case.now step.from) step.instr
        (at_of case.now step.to) r (relation_view b) }
{
    match said_on(case, step) {
        Some(said) => {
            keeps(r, step.instr)
                && is_word_said(case, step.from, said)
                && is_said(case, step.from, said, r, b)
        }
        None => false,
    }
}

/// Whether a relation is one of a register where a step leads.
pub fn is_row_on(case: &TurnCase<'_>, step: Step, r: u8, b: Relation) -> bool
    requires case { IsTurnCase case.now }
    requires step { IsStep case.now step }
    ensures { result ≡ true → relating.IsRowOn (values_in case.now.claim.now) (stacks_in case.now.claim.now) (cert case.now)
        (at_of case.now step.from) step.instr (at_of case.now step.to) r (relation_view b) }
{
    is_row_over(case, step.instr, step.from, r, b) || is_related_by(case, step, r, b)
}
