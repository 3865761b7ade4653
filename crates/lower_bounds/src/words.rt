//! What is known of a word of the stack behind a step.

ghost use Rattle.std.specs.Prelude.{◌≡◌, ◌<◌, IfSome, Some, true};
ghost use Rattle.bound_laws.specs.Values.{opposite_of, sum_with};
ghost use Rattle.stack_laws.specs.Stacks.Name.{of_word};
ghost use Rattle.wrapped_intervals.specs.Small.{IsKeptOr};
ghost use Rattle.stack_tables.specs.Tables.{IsStackClaim, address, stacks_in};
ghost use Rattle.lower_bounds.specs.LowerTables.{passed_along, IsMissedBy, IsScaledTo, IsStep, IsWordIn};

use crate::steps::passed_on;
use crate::tables::{CountedWord, Step};
use scale_base::Instr;
use stack_tables::{Name, StackClaim, held_at, is_missed, name, stored_from, word};
use wrapped_intervals::{Arc, covers, is_kept, keeps, opposite_of, scaled, sum_with};

/// A register that is so much more than a word.
#[derive(Clone, Copy)]
struct NamedRegister {
    register: u8,
    more: u32,
}

// Whether a multiple of a number of an interval and a shift is in another interval.
fn is_scaled_to(z: Option<Arc>, counted: CountedWord, y: Arc) -> bool
    requires known { IsKeptOr z }
    requires kept { IsKeptOr (Some y) }
    ensures { result ≡ true → IsScaledTo z counted.factor counted.shift y }
{
    covers(
        Some(y),
        sum_with(
            scaled(u64::from(counted.factor), z),
            u64::from(counted.shift),
        ),
    )
}

// Whether the word is in an interval by what it was before.
fn is_left_in(claim: &StackClaim<'_>, step: Step, counted: CountedWord, y: Arc) -> bool
    requires claim { IsStackClaim claim.now }
    requires step { IsStep claim.now step }
    requires kept { IsKeptOr (Some y) }
    requires missed { IsMissedBy claim.now step counted.number }
    ensures { result ≡ true → IsWordIn claim.now step counted y }
{
    let before = word(claim, step.from, counted.number);
    is_scaled_to(before.arc, counted, y)
}

// How much more a register is than the word, if its name says so.
fn more_than(claim: &StackClaim<'_>, step: Step, number: u32, r: u8) -> Option<u32>
    requires claim { IsStackClaim claim.now }
    requires step { IsStep claim.now step }
    requires register { r < 32 }
    ensures { IfSome result (λ more. (stacks_in claim.now).name (address claim.now step.from) r ≡ Some (of_word number more)) }
{
    match name(claim, step.from, r) {
        Some(Name::OfWord(other, more)) => { if other == number { Some(more) } else { None } }
        _ => None,
    }
}

// An interval that is known and short enough to be kept.
fn kept(z: Option<Arc>) -> Option<Arc>
    ensures same { IfSome result (λ a. z ≡ Some a) }
    ensures kept { IsKeptOr result }
{
    match z {
        Some(a) => { if is_kept(Some(a)) { Some(a) } else { None } }
        None => None,
    }
}

// Whether it is so of such an interval.
fn is_known_to(z: Option<Arc>, counted: CountedWord, y: Arc) -> bool
    requires { IsKeptOr (Some y) }
    ensures { result ≡ true → IsScaledTo z counted.factor counted.shift y }
{
    match kept(z) {
        Some(a) => is_scaled_to(Some(a), counted, y),
        None => false,
    }
}

// Whether the word is in an interval by what a register says that is so much more.
fn is_less_in(
    claim: &StackClaim<'_>,
    step: Step,
    counted: CountedWord,
    y: Arc,
    named: NamedRegister,
) -> bool
    requires claim { IsStackClaim claim.now }
    requires step { IsStep claim.now step }
    requires register { named.register < 32 }
    requires kept { IsKeptOr (Some y) }
    ensures { result ≡ true →
        IsScaledTo (sum_with (passed_along claim.now step named.register) (opposite_of named.more)) counted.factor counted.shift y }
{
    let passed = passed_on(claim, step, named.register);
    is_known_to(
        sum_with(passed, opposite_of(u64::from(named.more))),
        counted,
        y,
    )
}

// The same, where the register's name says how much more it is.
fn is_tied_to(claim: &StackClaim<'_>, step: Step, counted: CountedWord, y: Arc, r: u8) -> bool
    requires claim { IsStackClaim claim.now }
    requires step { IsStep claim.now step }
    requires register { r < 32 }
    requires some { 0 < r }
    requires kept { IsKeptOr (Some y) }
    requires missed { IsMissedBy claim.now step counted.number }
    ensures { result ≡ true → IsWordIn claim.now step counted y }
{
    match more_than(claim, step, counted.number, r) {
        Some(more) => {
            keeps(r, step.instr)
                && is_less_in(claim, step, counted, y, NamedRegister { register: r, more })
        }
        None => false,
    }
}

// The same of any number of a register.
fn is_tied(claim: &StackClaim<'_>, step: Step, counted: CountedWord, y: Arc, r: u8) -> bool
    requires claim { IsStackClaim claim.now }
    requires step { IsStep claim.now step }
    requires kept { IsKeptOr (Some y) }
    requires missed { IsMissedBy claim.now step counted.number }
    ensures { result ≡ true → IsWordIn claim.now step counted y }
{
    if 0 < r && r < 32 {
        is_tied_to(claim, step, counted, y, r)
    } else {
        false
    }
}

// The registers that a branch compares. No other instruction says more of a register than is known of the word of its name.
fn compared(i: Instr) -> (u8, u8) {
    match i {
        Instr::Branch {
            op: _,
            rs1,
            rs2,
            offset: _,
        } => (rs1, rs2),
        _ => (0, 0),
    }
}

// Whether a word that is missed is in an interval.
fn is_missed_in(claim: &StackClaim<'_>, step: Step, counted: CountedWord, y: Arc) -> bool
    requires claim { IsStackClaim claim.now }
    requires step { IsStep claim.now step }
    requires kept { IsKeptOr (Some y) }
    requires missed { IsMissedBy claim.now step counted.number }
    ensures { result ≡ true → IsWordIn claim.now step counted y }
{
    if is_left_in(claim, step, counted, y) {
        return true;
    }
    let registers = compared(step.instr);
    is_tied(claim, step, counted, y, registers.0) || is_tied(claim, step, counted, y, registers.1)
}

// Whether one to which a register is stored is.
fn is_stored_in(claim: &StackClaim<'_>, step: Step, counted: CountedWord, y: Arc) -> bool
    requires claim { IsStackClaim claim.now }
    requires step { IsStep claim.now step }
    requires kept { IsKeptOr (Some y) }
    ensures { result ≡ true → IsWordIn claim.now step counted y }
{
    match stored_from(claim, step.instr, step.from) {
        Some((number, r)) => {
            number == counted.number && is_scaled_to(held_at(claim, step.from, r), counted, y)
        }
        None => false,
    }
}

// Whether it is by what the table says where the step leads.
fn is_there_in(claim: &StackClaim<'_>, step: Step, counted: CountedWord, y: Arc) -> bool
    requires claim { IsStackClaim claim.now }
    requires step { IsStep claim.now step }
    requires kept { IsKeptOr (Some y) }
    ensures { result ≡ true → IsWordIn claim.now step counted y }
{
    let behind = word(claim, step.to, counted.number);
    is_scaled_to(behind.arc, counted, y)
}

/// Whether a multiple of a word and a shift is in an interval.
pub fn is_word_in(claim: &StackClaim<'_>, step: Step, counted: CountedWord, y: Arc) -> bool
    requires claim { IsStackClaim claim.now }
    requires step { IsStep claim.now step }
    requires kept { IsKeptOr (Some y) }
    ensures { result ≡ true → IsWordIn claim.now step counted y }
{
    if is_there_in(claim, step, counted, y) {
        return true;
    }
    if is_missed(claim, step.instr, step.from, counted.number) {
        is_missed_in(claim, step, counted, y)
    } else {
        is_stored_in(claim, step, counted, y)
    }
}
