//! What instructions and calls do to what is counted in.

ghost use Rattle.std.specs.Prelude.{◌≡◌, ◌<◌, ◌%◌, ◌^◌, ◌*◌, ℕ, length, IfSome, Some, true};
ghost use Rattle.code_text.specs.Text as text;
ghost use Rattle.bound_laws.specs.Registers as registers;
ghost use Rattle.wrapped_intervals.specs.Small.{measure_view};
ghost use Rattle.stack_laws.specs.Counting.{HasRegisters, IsAdded, IsKeptBy, IsLeftBy};
ghost use Rattle.stack_laws.specs.Counting.Counter.{in_word};
ghost use Rattle.stack_laws.specs.Stacks.{name_of};
ghost use Rattle.stack_laws.specs.Stacks.Name.{of_word};
ghost use Rattle.stack_tables.specs.Tables.{address, stacks_in, text_in, values_in, IsStackClaim};
ghost use Rattle.lower_bounds.specs.LowerTables.{at_of, cert, counter_view, IsCountedFrom, IsLowerCase};

use crate::rows::adds;
use crate::tables::{CountedWord, Counter, LowerCase};
use scale_base::Instr;
use stack_tables::{
    Name, StackClaim, instruction, is_given_back, is_missed, is_safe, name_of, stored_from,
};
use wrapped_intervals::{Measure, effect};

/// Whether its registers are those of the machine.
pub fn has_registers(counter: Counter) -> bool
    ensures { result ≡ true → HasRegisters (counter_view counter) }
{
    match counter {
        Counter::Registers(m) => m.register < 32 && m.other < 32,
        Counter::Word(_) => true,
    }
}

// How much more a register is than the word, if its name says so.
fn more_than(claim: &StackClaim<'_>, k: usize, r: u8, word: u32) -> Option<u32>
    requires claim { IsStackClaim claim.now }
    requires node { k < length claim.now.graph.now.code.nodes }
    ensures { IfSome result (λ more. name_of (stacks_in claim.now) (address claim.now k) r ≡ Some (of_word word more)) }
{
    match name_of(claim, k, r) {
        Some(Name::OfWord(number, more)) => { if number == word { Some(more) } else { None } }
        _ => None,
    }
}

// Whether so many times a number is what is added.
fn is_times(factor: u32, more: u32, adds: u32) -> bool
    ensures { result ≡ true → adds ≡ factor * more % 2 ^ 32 }
{
    adds == factor.wrapping_mul(more)
}

// Whether a register is so much more than the word that this is added.
fn is_more(claim: &StackClaim<'_>, k: usize, r: u8, counted: CountedWord, adds: u32) -> bool
    requires claim { IsStackClaim claim.now }
    requires node { k < length claim.now.graph.now.code.nodes }
    ensures { result ≡ true → (more : ℕ) × (name_of (stacks_in claim.now) (address claim.now k) r ≡ Some (of_word counted.number more)) ×
        (adds ≡ counted.factor * more % 2 ^ 32) }
{
    match more_than(claim, k, r, counted.number) {
        Some(more) => is_times(counted.factor, more, adds),
        None => false,
    }
}

// Whether the instruction of node k stores a register that is so much more than the word.
fn is_counted_from(
    claim: &StackClaim<'_>,
    i: Instr,
    k: usize,
    counted: CountedWord,
    adds: u32,
) -> bool
    requires claim { IsStackClaim claim.now }
    requires node { k < length claim.now.graph.now.code.nodes }
    ensures { result ≡ true → IsCountedFrom (stacks_in claim.now) (address claim.now k) i counted.number counted.factor adds }
{
    match stored_from(claim, i, k) {
        Some((number, r)) => number == counted.number && is_more(claim, k, r, counted, adds),
        None => false,
    }
}

// Whether it adds so much to a multiple of a word.
fn is_added_to_word(
    claim: &StackClaim<'_>,
    i: Instr,
    k: usize,
    counted: CountedWord,
    adds: u32,
) -> bool
    requires claim { IsStackClaim claim.now }
    requires node { k < length claim.now.graph.now.code.nodes }
    ensures { result ≡ true →
        IsAdded (values_in claim.now) (stacks_in claim.now) (in_word counted.number counted.factor counted.shift)
        (address claim.now k) i adds }
{
    if adds == 0 && is_missed(claim, i, k, counted.number) {
        return true;
    }
    is_counted_from(claim, i, k, counted, adds)
}

// Whether an instruction adds so much to a sum of registers.
fn is_effect(m: Measure, i: Instr, adds: u32) -> bool
    ensures { result ≡ true → registers.effect (measure_view m) i ≡ Some adds }
{
    match effect(m, i) {
        Some(x) => x == adds,
        None => false,
    }
}

// Whether the instruction of node k adds so much to the counter, modulo 2^32.
fn is_added_to(claim: &StackClaim<'_>, counter: Counter, i: Instr, k: usize, adds: u32) -> bool
    requires claim { IsStackClaim claim.now }
    requires node { k < length claim.now.graph.now.code.nodes }
    ensures { result ≡ true → IsAdded (values_in claim.now) (stacks_in claim.now) (counter_view counter) (address claim.now k) i adds }
{
    match counter {
        Counter::Registers(m) => is_effect(m, i, adds),
        Counter::Word(counted) => is_added_to_word(claim, i, k, counted, adds),
    }
}

/// Whether the instruction of node k adds what the table says.
pub fn is_added(case: &LowerCase<'_>, i: Instr, k: usize) -> bool
    requires case { IsLowerCase case.now }
    requires node { k < length case.now.claim.now.graph.now.code.nodes }
    ensures { result ≡ true →
        IsAdded (values_in case.now.claim.now) (stacks_in case.now.claim.now) (cert case.now).counter (at_of case.now k) i
        ((cert case.now).adds (at_of case.now k)) }
{
    is_added_to(case.claim, case.table.counter, i, k, adds(case, k))
}

// Whether a register is what it was before the call at node k, of the function that begins at node h.
fn is_left_by(claim: &StackClaim<'_>, i: Instr, k: usize, h: usize, r: u8) -> bool
    requires claim { IsStackClaim claim.now }
    requires from { k < length claim.now.graph.now.code.nodes }
    requires entry { h < length claim.now.graph.now.code.nodes }
    requires instruction { text.instr_at (text_in claim.now) (address claim.now k) ≡ Some i }
    ensures { result ≡ true →
        IsLeftBy (text_in claim.now) (values_in claim.now) (stacks_in claim.now) (address claim.now k) (address claim.now h) r }
{
    if r == 0 {
        return true;
    }
    if r >= 32 {
        return false;
    }
    is_given_back(claim, i, k, h, r)
}

// Whether the counter is.
fn is_kept_by(claim: &StackClaim<'_>, counter: Counter, i: Instr, k: usize, h: usize) -> bool
    requires claim { IsStackClaim claim.now }
    requires from { k < length claim.now.graph.now.code.nodes }
    requires entry { h < length claim.now.graph.now.code.nodes }
    requires instruction { text.instr_at (text_in claim.now) (address claim.now k) ≡ Some i }
    ensures { result ≡ true →
        IsKeptBy (text_in claim.now) (values_in claim.now) (stacks_in claim.now) (address claim.now k) (address claim.now h)
        (counter_view counter) }
{
    match counter {
        Counter::Registers(m) => {
            is_left_by(claim, i, k, h, m.register) && is_left_by(claim, i, k, h, m.other)
        }
        Counter::Word(counted) => is_safe(claim, k, h, counted.number),
    }
}

/// Whether the counter is what it was before the call at node k, of the function that begins at node h.
pub fn is_kept(case: &LowerCase<'_>, k: usize, h: usize) -> bool
    requires case { IsLowerCase case.now }
    requires from { k < length case.now.claim.now.graph.now.code.nodes }
    requires entry { h < length case.now.claim.now.graph.now.code.nodes }
    ensures { result ≡ true →
        IsKeptBy (text_in case.now.claim.now) (values_in case.now.claim.now) (stacks_in case.now.claim.now) (at_of case.now k)
        (at_of case.now h) (cert case.now).counter }
{
    match instruction(case.claim, k) {
        Some(i) => is_kept_by(case.claim, case.table.counter, i, k, h),
        None => false,
    }
}
