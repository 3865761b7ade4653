//! What loops count in, and what instructions and calls do to it.

ghost use Rattle.std.specs.Prelude.{◌≡◌, ◌<◌, ℕ, length, slice_get, Some, true};
ghost use Rattle.std.specs.List.{All};
ghost use Rattle.code_text.specs.Text.{instr_at};
ghost use Rattle.bound_laws.specs.Registers as registers;
ghost use Rattle.bound_laws.specs.Values as values;
ghost use Rattle.wrapped_intervals.specs.Small.{IsKeptOr, measure_view};
ghost use Rattle.value_checks.specs.Tables.{row_at};
ghost use Rattle.stack_laws.specs.Counting.{HasRegisters, IsAdded, IsKeptBy, IsLeftBy, IsWithin};
ghost use Rattle.stack_laws.specs.Counting.Counter.{in_registers, in_word};
ghost use Rattle.stack_laws.specs.Stacks.{name_of};
ghost use Rattle.stack_tables.specs.Tables.{claim_stacks, claim_text, claim_values, name_view, IsStackClaim};
ghost use Rattle.shown_bounds.specs.Certified.{counter_view, AreRegistersWithin, IsCountedFrom, IsMore};

use scale_base::Instr;
use stack_tables::{
    Name, StackClaim, is_missed_by, is_restored_by, is_safe_at, line_at, name_at, stored_word,
    word_at,
};
use value_checks::ValueTable;
use wrapped_intervals::{Arc, Measure, covers, effect, line_of, scaled, sum_with};

/// What is counted in: a sum of registers, or a multiple of a word of the stack and a shift, modulo 2^32.
#[derive(Clone, Copy)]
pub enum StackCounter {
    InRegisters(Measure),
    InWord {
        number: u32,
        factor: u32,
        shift: u32,
    },
}

/// Whether its registers are those of the machine.
pub fn has_registers(counter: StackCounter) -> bool
    ensures { result ≡ true → HasRegisters (counter_view counter) }
{
    match counter {
        StackCounter::InRegisters(m) => m.register < 32 && m.other < 32,
        StackCounter::InWord { .. } => true,
    }
}

// A multiple of a word of the stack: the word's number, and how many times it is counted.
#[derive(Clone, Copy)]
struct Multiple {
    word: u32,
    factor: u32,
}

// Whether a name is that of a word with so much more that so many times it is what is added.
fn is_more(name: Name, multiple: Multiple, adds: u32) -> bool
    ensures { result ≡ true → IsMore (Some (name_view name)) multiple.word multiple.factor adds }
{
    match name {
        Name::OfWord(number, more) => {
            number == multiple.word && adds == multiple.factor.wrapping_mul(more)
        }
        Name::OfBegin(..) => false,
    }
}

// The same of the name that a register has at node k.
fn is_more_at(claim: &StackClaim<'_>, k: usize, r: u8, multiple: Multiple, adds: u32) -> bool
    requires claim { IsStackClaim claim.now }
    requires node { k < length claim.now.graph.now.code.nodes }
    ensures { result ≡ true → (a : ℕ) → slice_get claim.now.graph.now.code.nodes k ≡ Some a →
        IsMore (name_of (claim_stacks claim.now) a r) multiple.word multiple.factor adds }
{
    match name_at(claim, k, r) {
        Some(name) => is_more(name, multiple, adds),
        None => false,
    }
}

// Whether the instruction at node k stores a register that is so much more than the word.
fn is_counted_on(claim: &StackClaim<'_>, i: Instr, k: usize, multiple: Multiple, adds: u32) -> bool
    requires claim { IsStackClaim claim.now }
    requires node { k < length claim.now.graph.now.code.nodes }
    ensures { result ≡ true → (a : ℕ) → slice_get claim.now.graph.now.code.nodes k ≡ Some a →
        IsCountedFrom (claim_stacks claim.now) a i multiple.word multiple.factor adds }
{
    match stored_word(claim, i, k) {
        Some((number, register)) => {
            number == multiple.word && is_more_at(claim, k, register, multiple, adds)
        }
        None => false,
    }
}

// Whether it adds so much to a multiple of a word.
fn is_added_to_word(
    claim: &StackClaim<'_>,
    i: Instr,
    k: usize,
    multiple: Multiple,
    adds: u32,
) -> bool
    requires claim { IsStackClaim claim.now }
    requires node { k < length claim.now.graph.now.code.nodes }
    ensures { result ≡ true → (shift a : ℕ) → slice_get claim.now.graph.now.code.nodes k ≡ Some a →
        IsAdded (claim_values claim.now) (claim_stacks claim.now) (in_word multiple.word multiple.factor shift) a i adds }
{
    if adds == 0 && is_missed_by(claim, i, k, multiple.word) {
        return true;
    }
    is_counted_on(claim, i, k, multiple, adds)
}

// Whether an instruction adds so much to a sum of registers.
fn is_effect(m: Measure, i: Instr, adds: u32) -> bool
    ensures { result ≡ true → registers.effect (measure_view m) i ≡ Some adds }
{
    match effect(m, i) {
        Some(x) => x == adds,
        None => false,
    }
}

/// Whether the instruction at node k adds so much to the counter, modulo 2^32.
pub fn is_added(
    claim: &StackClaim<'_>,
    counter: StackCounter,
    i: Instr,
    k: usize,
    adds: u32,
) -> bool
    requires claim { IsStackClaim claim.now }
    requires node { k < length claim.now.graph.now.code.nodes }
    ensures { result ≡ true → (a : ℕ) → slice_get claim.now.graph.now.code.nodes k ≡ Some a →
        IsAdded (claim_values claim.now) (claim_stacks claim.now) (counter_view counter) a i adds }
{
    match counter {
        StackCounter::InRegisters(m) => is_effect(m, i, adds),
        StackCounter::InWord { number, factor, .. } => {
            let multiple = Multiple {
                word: number,
                factor,
            };
            is_added_to_word(claim, i, k, multiple, adds)
        }
    }
}

// Whether a register is what it was before the call at node k, of the function that begins at node h.
fn is_left_by(claim: &StackClaim<'_>, i: Instr, k: usize, h: usize, r: u8) -> bool
    requires claim { IsStackClaim claim.now }
    requires from { k < length claim.now.graph.now.code.nodes }
    requires entry { h < length claim.now.graph.now.code.nodes }
    ensures { result ≡ true → (a b : ℕ) → slice_get claim.now.graph.now.code.nodes k ≡ Some a
        → slice_get claim.now.graph.now.code.nodes h ≡ Some b → instr_at (claim_text claim.now) a ≡ Some i →
        IsLeftBy (claim_text claim.now) (claim_values claim.now) (claim_stacks claim.now) a b r }
{
    if r == 0 {
        return true;
    }
    if r >= 32 {
        return false;
    }
    is_restored_by(claim, i, k, h, r)
}

// The same of both registers of a sum.
fn are_left_by(claim: &StackClaim<'_>, m: Measure, i: Instr, k: usize, h: usize) -> bool
    requires claim { IsStackClaim claim.now }
    requires from { k < length claim.now.graph.now.code.nodes }
    requires entry { h < length claim.now.graph.now.code.nodes }
    ensures { result ≡ true → (a b : ℕ) → slice_get claim.now.graph.now.code.nodes k ≡ Some a
        → slice_get claim.now.graph.now.code.nodes h ≡ Some b → instr_at (claim_text claim.now) a ≡ Some i →
        IsLeftBy (claim_text claim.now) (claim_values claim.now) (claim_stacks claim.now) a b m.register
        × IsLeftBy (claim_text claim.now) (claim_values claim.now) (claim_stacks claim.now) a b m.other }
{
    is_left_by(claim, i, k, h, m.register) && is_left_by(claim, i, k, h, m.other)
}

/// Whether the counter is what it was before the call at node k, of the function that begins at node h.
pub fn is_kept_by(
    claim: &StackClaim<'_>,
    counter: StackCounter,
    i: Instr,
    k: usize,
    h: usize,
) -> bool
    requires claim { IsStackClaim claim.now }
    requires from { k < length claim.now.graph.now.code.nodes }
    requires entry { h < length claim.now.graph.now.code.nodes }
    ensures { result ≡ true → (a b : ℕ) → slice_get claim.now.graph.now.code.nodes k ≡ Some a
        → slice_get claim.now.graph.now.code.nodes h ≡ Some b → instr_at (claim_text claim.now) a ≡ Some i →
        IsKeptBy (claim_text claim.now) (claim_values claim.now) (claim_stacks claim.now) a b (counter_view counter) }
{
    match counter {
        StackCounter::InRegisters(m) => are_left_by(claim, m, i, k, h),
        StackCounter::InWord { number, .. } => is_safe_at(claim, k, h, number),
    }
}

// Whether a sum of registers is from 0 to the width, by the intervals of a row.
fn is_row_within(row: &[Option<Arc>], m: Measure, width: u32) -> bool
    requires size { length row.now ≡ 32 }
    requires kept { All IsKeptOr row.now }
    ensures { result ≡ true → AreRegistersWithin row.now (measure_view m) width }
{
    covers(Some(Arc::of(0, u64::from(width))), line_of(m, row))
}

// The same of node k.
fn are_registers_within(table: &ValueTable, k: usize, m: Measure, width: u32) -> bool
    requires row { k < length table.now.rows.items }
    requires kept { All (All IsKeptOr) table.now.rows.items }
    ensures { result ≡ true → AreRegistersWithin (row_at table.now k) (measure_view m) width }
{
    is_row_within(&table.rows[k], m, width)
}

// Whether an interval's words are from 0 to the width.
fn is_known_within(arc: Arc, width: u32) -> bool
    requires { IsKeptOr (Some arc) }
    ensures { result ≡ true → values.Covers (Some (values.arc 0 width)) (Some arc) }
{
    covers(Some(Arc::of(0, u64::from(width))), Some(arc))
}

// Whether it is by a line at node k.
fn is_line_within(claim: &StackClaim<'_>, k: usize, m: Measure, width: u32) -> bool
    requires claim { IsStackClaim claim.now }
    requires node { k < length claim.now.graph.now.code.nodes }
    ensures { result ≡ true → (a : ℕ) → slice_get claim.now.graph.now.code.nodes k ≡ Some a →
        IsWithin (claim_values claim.now) (claim_stacks claim.now) width (in_registers (measure_view m)) a }
{
    match line_at(claim, k, m) {
        Some(arc) => is_known_within(arc, width),
        None => false,
    }
}

// By one of both.
fn is_sum_within(claim: &StackClaim<'_>, k: usize, m: Measure, width: u32) -> bool
    requires claim { IsStackClaim claim.now }
    requires node { k < length claim.now.graph.now.code.nodes }
    ensures { result ≡ true → (a : ℕ) → slice_get claim.now.graph.now.code.nodes k ≡ Some a →
        IsWithin (claim_values claim.now) (claim_stacks claim.now) width (in_registers (measure_view m)) a }
{
    if are_registers_within(claim.table, k, m, width) {
        return true;
    }
    is_line_within(claim, k, m, width)
}

// Whether a multiple of a word and a shift is, by the word's interval.
fn is_arc_within(arc: Arc, factor: u32, shift: u32, width: u32) -> bool
    requires { IsKeptOr (Some arc) }
    ensures { result ≡ true → values.Covers (Some (values.arc 0 width)) (values.sum_with (values.scaled factor (Some arc)) shift) }
{
    let multiple = scaled(u64::from(factor), Some(arc));
    covers(
        Some(Arc::of(0, u64::from(width))),
        sum_with(multiple, u64::from(shift)),
    )
}

// The same of a word at node k.
fn is_word_within(
    claim: &StackClaim<'_>,
    k: usize,
    multiple: Multiple,
    shift: u32,
    width: u32,
) -> bool
    requires claim { IsStackClaim claim.now }
    requires node { k < length claim.now.graph.now.code.nodes }
    ensures { result ≡ true → (a : ℕ) → slice_get claim.now.graph.now.code.nodes k ≡ Some a →
        IsWithin (claim_values claim.now) (claim_stacks claim.now) width (in_word multiple.word multiple.factor shift) a }
{
    match word_at(claim, k, multiple.word) {
        Some(arc) => is_arc_within(arc, multiple.factor, shift, width),
        None => false,
    }
}

/// Whether the counter is from 0 to the width at node k.
pub fn is_within(claim: &StackClaim<'_>, counter: StackCounter, k: usize, width: u32) -> bool
    requires claim { IsStackClaim claim.now }
    requires node { k < length claim.now.graph.now.code.nodes }
    ensures { result ≡ true → (a : ℕ) → slice_get claim.now.graph.now.code.nodes k ≡ Some a →
        IsWithin (claim_values claim.now) (claim_stacks claim.now) width (counter_view counter) a }
{
    match counter {
        StackCounter::InRegisters(m) => is_sum_within(claim, k, m, width),
        StackCounter::InWord {
            number,
            factor,
            shift,
        } => {
            let multiple = Multiple {
                word: number,
                factor,
            };
            is_word_within(claim, k, multiple, shift, width)
        }
    }
}
