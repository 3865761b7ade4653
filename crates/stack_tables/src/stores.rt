//! What instructions store and load, by the tables: to which words of the stack, and which they miss.

ghost use Rattle.std.specs.Prelude.{◌≡◌, ◌<◌, ◌≤◌, ◌+◌, ◌*◌, ℕ, length, IfSome, Some, min, true};
ghost use Rattle.scale_base.specs.declared.instruction.Instr.TheVariants.{Ecall};
ghost use Rattle.scale_base.specs.Arith.{store_width, unsigned};
ghost use Rattle.bound_laws.specs.Values as values;
ghost use Rattle.stack_laws.specs.Stacks as stacks;
ghost use Rattle.wrapped_intervals.specs.Small.{IsFoundOr, IsKeptOr};
ghost use Rattle.stack_tables.specs.Tables.{IsStackClaim, IsStoredBy, IsStoring, address, named, stacks_in, values_in};

use crate::apart::{are_apart, are_below, has_not, is_apart, is_below, known_sum};
use crate::claims::StackClaim;
use crate::memory::Storing;
use crate::names::offset_of;
use crate::reading::{
    arcs, begins, is_doubtful, is_kept, name_of, offset, place, span, span_of, word,
};
use crate::tables::Name;
use scale_base::{Instr, LoadOp, StoreOp};
use wrapped_intervals::{Arc, held, opposite_of, sum_with, top_of};

/// How many words of a function's stack have numbers below each row's end.
pub const MOST_WORDS: u32 = 64;

/// The number of the word that is so far above what x2 had when the function began, modulo 2^32.
pub fn word_number(offset: u32) -> Option<u32>
    ensures number { IfSome result (λ k. values.opposite_of (4 * (k + 1)) ≡ offset) }
    ensures few { IfSome result (λ k. k < 64) }
{
    let down = opposite_of(u64::from(offset));
    if 0 < down && down <= 4 * u64::from(MOST_WORDS) && down % 4 == 0 {
        Some((down / 4 - 1) as u32)
    } else {
        None
    }
}

/// The interval of a register at node k. x0 is 0.
pub fn held_at(claim: &StackClaim<'_>, k: usize, r: u8) -> Option<Arc>
    requires claim { IsStackClaim claim.now }
    requires node { k < length claim.now.graph.now.code.nodes }
    ensures held { result ≡ values.held ((values_in claim.now).at (address claim.now k)) r }
    ensures kept { IsKeptOr result }
{
    held(arcs(claim, k), r)
}

/// The same of what stands in the table.
pub fn arc_at(claim: &StackClaim<'_>, k: usize, r: u8) -> Option<Arc>
    requires claim { IsStackClaim claim.now }
    requires node { k < length claim.now.graph.now.code.nodes }
    requires register { r < 32 }
    ensures arc { result ≡ (values_in claim.now).at (address claim.now k) r }
    ensures kept { IsKeptOr result }
{
    arcs(claim, k)[usize::from(r)]
}

/// The interval of a value by its name, at node k.
pub fn name_arc(claim: &StackClaim<'_>, k: usize, name: Option<Name>) -> Option<Arc>
    requires claim { IsStackClaim claim.now }
    requires node { k < length claim.now.graph.now.code.nodes }
    ensures arc { result ≡ stacks.name_arc (values_in claim.now) (stacks_in claim.now) (address claim.now k) (named name) }
    ensures found { IsFoundOr result }
{
    match name {
        Some(Name::OfBegin(r, more)) => {
            if r == 2 {
                known_sum(begins(claim, k), u64::from(more))
            } else {
                None
            }
        }
        Some(Name::OfWord(number, more)) => sum_with(word(claim, k, number).arc, u64::from(more)),
        None => None,
    }
}

/// How far above what x2 had when the function began the instruction of node k stores, where the name of its register says it.
pub fn stored_at(claim: &StackClaim<'_>, k: usize, i: Instr) -> Option<u32>
    requires claim { IsStackClaim claim.now }
    requires node { k < length claim.now.graph.now.code.nodes }
    ensures { result ≡ stacks.stored_at (stacks_in claim.now) (address claim.now k) i }
{
    match i {
        Instr::Store {
            op: _,
            rs1,
            rs2: _,
            offset,
        } => offset_of(name_of(claim, k, rs1), offset.cast_unsigned()),
        _ => None,
    }
}

/// The same of a load.
pub fn loaded_at(claim: &StackClaim<'_>, k: usize, i: Instr) -> Option<u32>
    requires claim { IsStackClaim claim.now }
    requires node { k < length claim.now.graph.now.code.nodes }
    ensures { result ≡ stacks.loaded_at (stacks_in claim.now) (address claim.now k) i }
{
    match i {
        Instr::Load {
            op: _,
            rd: _,
            rs1,
            offset,
        } => offset_of(name_of(claim, k, rs1), offset.cast_unsigned()),
        _ => None,
    }
}

// How many bytes a store stores.
fn width_of(op: StoreOp) -> u64
    ensures width { result ≡ store_width op }
    ensures few { result ≤ 4 }
{
    match op {
        StoreOp::Sb => 1,
        StoreOp::Sh => 2,
        StoreOp::Sw => 4,
    }
}

/// How many bytes an instruction stores, if it is no service.
pub fn width_stored(i: Instr) -> u64
    ensures width { result ≡ stacks.width_stored i }
    ensures few { result ≤ 4 }
{
    match i {
        Instr::Store {
            op,
            rs1: _,
            rs2: _,
            offset: _,
        } => width_of(op),
        _ => 0,
    }
}

/// The register whose word is stored.
pub fn word_stored(i: Instr) -> Option<u8>
    ensures { result ≡ stacks.word_stored i }
{
    match i {
        Instr::Store {
            op: StoreOp::Sw,
            rs1: _,
            rs2,
            offset: _,
        } => Some(rs2),
        _ => None,
    }
}

/// The register to which a word is loaded.
pub fn word_loaded(i: Instr) -> Option<u8>
    ensures { result ≡ stacks.word_loaded i }
{
    match i {
        Instr::Load {
            op: LoadOp::Lw,
            rd,
            rs1: _,
            offset: _,
        } => Some(rd),
        _ => None,
    }
}

/// The word of the stack that the instruction of node k stores, and the register from which.
pub fn stored_from(claim: &StackClaim<'_>, i: Instr, k: usize) -> Option<(u32, u8)>
    requires claim { IsStackClaim claim.now }
    requires node { k < length claim.now.graph.now.code.nodes }
    ensures { IfSome result (λ p. stacks.IsStoredFrom (stacks_in claim.now) (address claim.now k) i p.0 p.1) }
{
    match (word_stored(i), stored_at(claim, k, i)) {
        (Some(r), Some(o)) => match word_number(o) {
            Some(number) => Some((number, r)),
            None => None,
        },
        _ => None,
    }
}

/// The word of the stack that the instruction of node k loads, and the register to which.
pub fn loaded_to(claim: &StackClaim<'_>, i: Instr, k: usize) -> Option<(u32, u8)>
    requires claim { IsStackClaim claim.now }
    requires node { k < length claim.now.graph.now.code.nodes }
    ensures { IfSome result (λ p. stacks.IsLoadedTo (stacks_in claim.now) (address claim.now k) i p.0 p.1) }
{
    match (word_loaded(i), loaded_at(claim, k, i)) {
        (Some(r), Some(o)) => match word_number(o) {
            Some(number) => Some((number, r)),
            None => None,
        },
        _ => None,
    }
}

// How many bytes the read service stores at most, at node k.
fn most_read(claim: &StackClaim<'_>, k: usize) -> u64
    requires claim { IsStackClaim claim.now }
    requires node { k < length claim.now.graph.now.code.nodes }
    ensures most { result ≡ min 256 (values.top_of (values.held ((values_in claim.now).at (address claim.now k)) 12)) }
    ensures few { result ≤ 256 }
{
    top_of(held_at(claim, k, 12)).min(256)
}

// What the read service stores at node k misses the words at these addresses.
fn is_read_far(claim: &StackClaim<'_>, k: usize, words: Option<Arc>) -> bool
    requires claim { IsStackClaim claim.now }
    requires node { k < length claim.now.graph.now.code.nodes }
    requires words { IsFoundOr words }
    ensures { result ≡ true → stacks.IsFar (values_in claim.now) (address claim.now k) Ecall words }
{
    has_not(held_at(claim, k, 17), 63)
        || are_apart(held_at(claim, k, 11), most_read(claim, k), words)
}

// Where a store stores, and how much.
#[derive(Clone, Copy)]
struct StoreFields {
    op: StoreOp,
    rs1: u8,
    offset: i32,
}

// What a store stores at node k misses them.
fn is_store_far(claim: &StackClaim<'_>, k: usize, fields: StoreFields, words: Option<Arc>) -> bool
    requires claim { IsStackClaim claim.now }
    requires node { k < length claim.now.graph.now.code.nodes }
    requires words { IsFoundOr words }
    ensures { result ≡ true → stacks.AreApart (values.sum_with (values.held ((values_in claim.now).at (address claim.now k)) fields.rs1)
        (unsigned fields.offset)) (store_width fields.op) words }
{
    are_apart(
        sum_with(
            held_at(claim, k, fields.rs1),
            u64::from(fields.offset.cast_unsigned()),
        ),
        width_of(fields.op),
        words,
    )
}

/// Whether what the instruction of node k stores misses the words at these addresses, by the intervals of registers.
pub fn is_far(claim: &StackClaim<'_>, i: Instr, k: usize, words: Option<Arc>) -> bool
    requires claim { IsStackClaim claim.now }
    requires node { k < length claim.now.graph.now.code.nodes }
    requires words { IsFoundOr words }
    ensures { result ≡ true → stacks.IsFar (values_in claim.now) (address claim.now k) i words }
{
    match i {
        Instr::Store {
            op,
            rs1,
            rs2: _,
            offset,
        } => is_store_far(claim, k, StoreFields { op, rs1, offset }, words),
        Instr::Ecall => is_read_far(claim, k, words),
        _ => true,
    }
}

// What the read service stores: any bytes, so far as is known.
fn read_by(claim: &StackClaim<'_>, k: usize) -> Option<Storing>
    requires claim { IsStackClaim claim.now }
    requires node { k < length claim.now.graph.now.code.nodes }
    ensures stored { IsStoredBy (values_in claim.now) (address claim.now k) Ecall result }
    ensures found { IfSome result IsStoring }
{
    if has_not(held_at(claim, k, 17), 63) {
        None
    } else {
        Some(Storing {
            place: held_at(claim, k, 11),
            width: most_read(claim, k),
            numbers: None,
        })
    }
}

/// What the instruction of node k stores, if it stores anything.
pub fn stored_by(claim: &StackClaim<'_>, i: Instr, k: usize) -> Option<Storing>
    requires claim { IsStackClaim claim.now }
    requires node { k < length claim.now.graph.now.code.nodes }
    ensures stored { IsStoredBy (values_in claim.now) (address claim.now k) i result }
    ensures found { IfSome result IsStoring }
{
    match i {
        Instr::Store {
            op,
            rs1,
            rs2,
            offset,
        } => Some(Storing {
            place: sum_with(held_at(claim, k, rs1), u64::from(offset.cast_unsigned())),
            width: width_of(op),
            numbers: held_at(claim, k, rs2),
        }),
        Instr::Ecall => read_by(claim, k),
        _ => None,
    }
}

// How far above what x2 had when the function began the instruction of node k stores, by the spans.
fn stored_span(claim: &StackClaim<'_>, k: usize, i: Instr) -> Option<Arc>
    requires claim { IsStackClaim claim.now }
    requires node { k < length claim.now.graph.now.code.nodes }
    ensures span { result ≡ stacks.stored_span (values_in claim.now) (stacks_in claim.now) (address claim.now k) i }
    ensures found { IsFoundOr result }
{
    match i {
        Instr::Store {
            op: _,
            rs1,
            rs2: _,
            offset,
        } => known_sum(span_of(claim, k, rs1), u64::from(offset.cast_unsigned())),
        Instr::Ecall => {
            if arc_at(claim, k, 11).is_some() {
                span(claim, k, 11)
            } else {
                None
            }
        }
        _ => None,
    }
}

// How many bytes it stores at most.
fn most_stored(claim: &StackClaim<'_>, k: usize, i: Instr) -> u64
    requires claim { IsStackClaim claim.now }
    requires node { k < length claim.now.graph.now.code.nodes }
    ensures most { result ≡ stacks.most_stored (values_in claim.now) (address claim.now k) i }
    ensures few { result ≤ 256 }
{
    match i {
        Instr::Ecall => most_read(claim, k),
        _ => width_stored(i),
    }
}

// Whether it misses word `number` by the name of the register that it stores at.
fn is_missed_by_name(claim: &StackClaim<'_>, i: Instr, k: usize, number: u32) -> bool
    requires claim { IsStackClaim claim.now }
    requires node { k < length claim.now.graph.now.code.nodes }
    ensures { result ≡ true → (o : ℕ) × (stacks.stored_at (stacks_in claim.now) (address claim.now k) i ≡ Some o) ×
        stacks.IsApart o (stacks.width_stored i) ((stacks_in claim.now).offset number) }
{
    match stored_at(claim, k, i) {
        Some(o) => is_apart(u64::from(o), width_stored(i), offset(claim, number)),
        None => false,
    }
}

// Whether it misses it by the spans.
fn is_missed_by_span(claim: &StackClaim<'_>, i: Instr, k: usize, number: u32) -> bool
    requires claim { IsStackClaim claim.now }
    requires node { k < length claim.now.graph.now.code.nodes }
    ensures { result ≡ true → stacks.AreApart (stacks.stored_span (values_in claim.now) (stacks_in claim.now) (address claim.now k) i)
        (stacks.most_stored (values_in claim.now) (address claim.now k) i) (Some
        (values.strided ((stacks_in claim.now).offset number) 0 0)) }
{
    are_apart(
        stored_span(claim, k, i),
        most_stored(claim, k, i),
        Some(Arc::strided(offset(claim, number), 0, 0)),
    )
}

/// Whether what the instruction of node k stores misses word `number` of the function's own stack, or is taken to.
pub fn is_missed(claim: &StackClaim<'_>, i: Instr, k: usize, number: u32) -> bool
    requires claim { IsStackClaim claim.now }
    requires node { k < length claim.now.graph.now.code.nodes }
    ensures { result ≡ true → stacks.IsMissed (values_in claim.now) (stacks_in claim.now) (address claim.now k) i number }
{
    is_far(
        claim,
        i,
        k,
        sum_with(begins(claim, k), offset(claim, number)),
    ) || is_missed_by_name(claim, i, k, number)
        || is_missed_by_span(claim, i, k, number)
        || (is_doubtful(claim, k) && is_kept(claim, k, number))
}

// Whether it stores below what x2 had when the function began, by the name of its register.
fn is_below_by_name(claim: &StackClaim<'_>, i: Instr, k: usize) -> bool
    requires claim { IsStackClaim claim.now }
    requires node { k < length claim.now.graph.now.code.nodes }
    ensures { result ≡ true → (o : ℕ) × (stacks.stored_at (stacks_in claim.now) (address claim.now k) i ≡ Some o) ×
        stacks.IsBelow ((stacks_in claim.now).begins ((values_in claim.now).function (address claim.now k))) o (stacks.width_stored i) }
{
    match stored_at(claim, k, i) {
        Some(o) => is_below(begins(claim, k), u64::from(o), width_stored(i)),
        None => false,
    }
}

// The same by the spans.
fn is_below_by_span(claim: &StackClaim<'_>, i: Instr, k: usize) -> bool
    requires claim { IsStackClaim claim.now }
    requires node { k < length claim.now.graph.now.code.nodes }
    ensures { result ≡ true → stacks.AreBelow ((stacks_in claim.now).begins ((values_in claim.now).function (address claim.now k)))
        (stacks.stored_span (values_in claim.now) (stacks_in claim.now) (address claim.now k) i)
        (stacks.most_stored (values_in claim.now) (address claim.now k) i) }
{
    are_below(
        begins(claim, k),
        stored_span(claim, k, i),
        most_stored(claim, k, i),
    )
}

/// Whether what the instruction of node k stores misses the words of what waits for the function, or is taken to.
pub fn is_sparing(claim: &StackClaim<'_>, i: Instr, k: usize) -> bool
    requires claim { IsStackClaim claim.now }
    requires node { k < length claim.now.graph.now.code.nodes }
    ensures { result ≡ true → (j : ℕ) → stacks.IsSparing (values_in claim.now) (stacks_in claim.now) (address claim.now k) i j }
{
    is_far(claim, i, k, place(claim))
        || is_below_by_name(claim, i, k)
        || is_below_by_span(claim, i, k)
        || is_doubtful(claim, k)
}

/// Whether what a name names is not stored to at node k.
pub fn is_steady(claim: &StackClaim<'_>, i: Instr, k: usize, name: Option<Name>) -> bool
    requires claim { IsStackClaim claim.now }
    requires node { k < length claim.now.graph.now.code.nodes }
    ensures { result ≡ true → stacks.IsSteady (values_in claim.now) (stacks_in claim.now) (address claim.now k) i (named name) }
{
    match name {
        Some(Name::OfWord(number, _)) => is_missed(claim, i, k, number),
        Some(Name::OfBegin(_, _)) => true,
        None => true,
    }
}
