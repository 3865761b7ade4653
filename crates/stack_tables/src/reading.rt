//! What the tables say at a node, by its number.

ghost use Rattle.std.specs.Prelude.{◌≡◌, ◌<◌, ◌≤◌, ◌^◌, ℕ, length, option_map, slice_get, IfSome, Some, Ok};
ghost use Rattle.std.specs.List.{All};
ghost use Rattle.scale_base.specs.declared.instruction.Instr.{Instr};
ghost use Rattle.scale_base.specs.Image.{image_of};
ghost use Rattle.code_text.specs.Text as text;
ghost use Rattle.code_text.specs.Text.{text_of};
ghost use Rattle.stack_laws.specs.Stacks as stacks;
ghost use Rattle.wrapped_intervals.specs.Small.{IsKept, IsKeptOr, measure_view, row};
ghost use Rattle.value_checks.specs.Tables.{line_in, IsForm, IsLineKept};
ghost use Rattle.stack_tables.specs.Tables.{HasKeptValues, IsDwindlingKept, IsStackClaim, IsToldKept, IsUnknown, IsWordKept, address, cell_view, dwindling_in, fixed_in, named, stacks_in, text_in, told_in, values_in};

use crate::claims::StackClaim;
use crate::rows::{
    arcs_row, begins_row, doubtful_row, dwindling_row, exits_row, form_row, kept_row, line_in_row,
    lines_row, live_row, name_in_row, names_row, restored_row, span_in_row, spared_row, told_row,
    word_in, words_row,
};
use crate::tables::{Cell, Dwindling, FixedPart, Name, Told, Word};
use code_text::instr_at;
use elf_image::ImageView;
use scale_base::Instr;
use value_checks::Line;
use wrapped_intervals::{Arc, Measure, opposite_of};

// The instruction at an address of the text.
fn text_instr(view: &ImageView<'_>, at: u32) -> Option<Instr>
    requires { image_of view.now.file ≡ Ok view.now }
    ensures { IfSome result (λ i. text.instr_at (text_of view.now) at ≡ Some i) }
{
    if view.is_text_word(at) {
        instr_at(view, at)
    } else {
        None
    }
}

/// The address of node k.
pub fn address(claim: &StackClaim<'_>, k: usize) -> u32
    requires claim { IsStackClaim claim.now }
    requires node { k < length claim.now.graph.now.code.nodes }
    ensures { result ≡ address claim.now k }
{
    claim.graph.node(k)
}

/// The instruction of node k.
pub fn instruction(claim: &StackClaim<'_>, k: usize) -> Option<Instr>
    requires claim { IsStackClaim claim.now }
    requires node { k < length claim.now.graph.now.code.nodes }
    ensures { IfSome result (λ i. text.instr_at (text_in claim.now) (address claim.now k) ≡ Some i) }
{
    text_instr(claim.view, address(claim, k))
}

/// Whether a run may come to node k.
pub fn is_live(claim: &StackClaim<'_>, k: usize) -> bool
    requires claim { IsStackClaim claim.now }
    requires node { k < length claim.now.graph.now.code.nodes }
    ensures { result ≡ (values_in claim.now).live (address claim.now k) }
{
    live_row(claim.table, k)
}

/// The intervals of registers at node k.
pub fn arcs<'a>(claim: &StackClaim<'a>, k: usize) -> &'a [Option<Arc>]
    requires claim { IsStackClaim claim.now }
    requires node { k < length claim.now.graph.now.code.nodes }
    ensures arcs { row result.now ≡ (values_in claim.now).at (address claim.now k) }
    ensures size { length result.now ≡ 32 }
    ensures kept { All IsKeptOr result.now }
{
    arcs_row(claim.table, k)
}

/// Those at the returns of the function of node k.
pub fn exits<'a>(claim: &StackClaim<'a>, k: usize) -> &'a [Option<Arc>]
    requires claim { IsStackClaim claim.now }
    requires node { k < length claim.now.graph.now.code.nodes }
    ensures exits { row result.now ≡ (values_in claim.now).exit ((values_in claim.now).function (address claim.now k)) }
    ensures size { length result.now ≡ 32 }
    ensures kept { All IsKeptOr result.now }
{
    exits_row(claim.table, claim.graph.owner(k))
}

/// The form of a number.
pub fn form(claim: &StackClaim<'_>, j: usize) -> Measure
    requires { IsStackClaim claim.now }
    ensures form { measure_view result ≡ (values_in claim.now).forms j }
    ensures kept { IsForm result }
{
    form_row(claim.table, j)
}

/// What is known of sums of two registers at node k: of a form that isn't there, nothing.
pub fn lines<'a>(claim: &StackClaim<'a>, k: usize) -> &'a [Line]
    requires claim { IsStackClaim claim.now }
    requires node { k < length claim.now.graph.now.code.nodes }
    ensures lines { (j : ℕ) → line_in result.now j ≡ (values_in claim.now).lines (address claim.now k) j }
    ensures few { length result.now ≤ 16 }
    ensures kept { All IsLineKept result.now }
{
    lines_row(claim.table, k)
}

/// The interval of one of them.
pub fn line(claim: &StackClaim<'_>, k: usize, j: usize) -> Option<Arc>
    requires claim { IsStackClaim claim.now }
    requires node { k < length claim.now.graph.now.code.nodes }
    ensures line { result ≡ (values_in claim.now).lines (address claim.now k) j }
    ensures kept { IsKeptOr result }
{
    line_in_row(lines(claim, k), j)
}

/// Where the value of a register comes from, at node k.
pub fn name(claim: &StackClaim<'_>, k: usize, r: u8) -> Option<Name>
    requires claim { IsStackClaim claim.now }
    requires node { k < length claim.now.graph.now.code.nodes }
    requires register { r < 32 }
    ensures { named result ≡ (stacks_in claim.now).name (address claim.now k) r }
{
    name_in_row(names_row(claim.stack, k), r)
}

/// The same of the registers that are no constants.
pub fn name_of(claim: &StackClaim<'_>, k: usize, r: u8) -> Option<Name>
    requires claim { IsStackClaim claim.now }
    requires node { k < length claim.now.graph.now.code.nodes }
    ensures { named result ≡ stacks.name_of (stacks_in claim.now) (address claim.now k) r }
{
    if 0 < r && r < 32 {
        name(claim, k, r)
    } else {
        None
    }
}

/// How far above the function's first x2 a register points, at node k.
pub fn span(claim: &StackClaim<'_>, k: usize, r: u8) -> Option<Arc>
    requires claim { IsStackClaim claim.now }
    requires node { k < length claim.now.graph.now.code.nodes }
    requires register { r < 32 }
    ensures span { result ≡ (stacks_in claim.now).span (address claim.now k) r }
    ensures kept { IsKeptOr result }
{
    span_in_row(claim.stack, k, r)
}

/// The same of the registers that are no constants.
pub fn span_of(claim: &StackClaim<'_>, k: usize, r: u8) -> Option<Arc>
    requires claim { IsStackClaim claim.now }
    requires node { k < length claim.now.graph.now.code.nodes }
    ensures span { result ≡ stacks.span_of (stacks_in claim.now) (address claim.now k) r }
    ensures kept { IsKeptOr result }
{
    if 0 < r && r < 32 {
        span(claim, k, r)
    } else {
        None
    }
}

/// What is known of a word, at node k.
pub fn word(claim: &StackClaim<'_>, k: usize, number: u32) -> Word
    requires claim { IsStackClaim claim.now }
    requires node { k < length claim.now.graph.now.code.nodes }
    ensures arc { result.arc ≡ (stacks_in claim.now).word (address claim.now k) number }
    ensures name { named result.name ≡ (stacks_in claim.now).word_name (address claim.now k) number }
    ensures span { result.span ≡ (stacks_in claim.now).word_span (address claim.now k) number }
    ensures kept { IsWordKept result }
{
    word_in(words_row(claim.stack, k), number)
}

/// How many words there are at node k. Nothing is known of those behind.
pub fn word_count(claim: &StackClaim<'_>, k: usize) -> u32
    requires claim { IsStackClaim claim.now }
    requires node { k < length claim.now.graph.now.code.nodes }
    ensures few { result ≤ 64 }
    ensures none { (j : ℕ) → result ≤ j → IsUnknown (stacks_in claim.now) (address claim.now k) j }
{
    words_row(claim.stack, k).len() as u32
}

/// What x2 has when the function of node k begins.
pub fn begins(claim: &StackClaim<'_>, k: usize) -> Option<Arc>
    requires claim { IsStackClaim claim.now }
    requires node { k < length claim.now.graph.now.code.nodes }
    ensures begins { result ≡ (stacks_in claim.now).begins ((values_in claim.now).function (address claim.now k)) }
    ensures kept { IsKeptOr result }
{
    begins_row(claim.stack, claim.graph.owner(k))
}

/// Whether the function of node k restores a register.
pub fn is_restored(claim: &StackClaim<'_>, k: usize, r: u8) -> bool
    requires claim { IsStackClaim claim.now }
    requires node { k < length claim.now.graph.now.code.nodes }
    requires register { r < 32 }
    ensures { result ≡ (stacks_in claim.now).restored ((values_in claim.now).function (address claim.now k)) r }
{
    restored_row(claim.stack, claim.graph.owner(k), r)
}

/// Whether nothing is stored to the words of functions that wait, from node k on.
pub fn is_spared(claim: &StackClaim<'_>, k: usize) -> bool
    requires claim { IsStackClaim claim.now }
    requires node { k < length claim.now.graph.now.code.nodes }
    ensures { (j : ℕ) → result ≡ (stacks_in claim.now).spared j (address claim.now k) }
{
    spared_row(claim.stack, k)
}

/// Whether what the instruction of node k stores is taken to miss all words of the stack that are kept.
pub fn is_doubtful(claim: &StackClaim<'_>, k: usize) -> bool
    requires claim { IsStackClaim claim.now }
    requires node { k < length claim.now.graph.now.code.nodes }
    ensures { result ≡ (stacks_in claim.now).doubtful (address claim.now k) }
{
    doubtful_row(claim.stack, k)
}

/// Whether word `number` of the stack of node k's function is one of those.
pub fn is_kept(claim: &StackClaim<'_>, k: usize, number: u32) -> bool
    requires claim { IsStackClaim claim.now }
    requires node { k < length claim.now.graph.now.code.nodes }
    ensures { result ≡ (stacks_in claim.now).kept ((values_in claim.now).function (address claim.now k)) number }
{
    kept_row(claim.stack, claim.graph.owner(k), number)
}

/// Where those words may be.
pub fn place(claim: &StackClaim<'_>) -> Option<Arc>
    requires { IsStackClaim claim.now }
    ensures place { (j : ℕ) → result ≡ (stacks_in claim.now).place j }
    ensures kept { IsKeptOr result }
{
    claim.stack.place
}

/// The numbers in memory that are always in an interval.
pub fn cells<'a>(claim: &StackClaim<'a>) -> &'a [Cell]
    requires { IsStackClaim claim.now }
    ensures cells { (j : ℕ) → option_map cell_view (slice_get result.now j) ≡ (stacks_in claim.now).cell j }
    ensures kept { All HasKeptValues result.now }
{
    &claim.stack.cells
}

/// The intervals of addresses that hold all that may be loaded from or stored to.
pub fn areas<'a>(claim: &StackClaim<'a>) -> &'a [Arc]
    requires { IsStackClaim claim.now }
    ensures areas { (k : ℕ) → slice_get result.now k ≡ (stacks_in claim.now).areas k }
    ensures few { length result.now ≤ 64 }
    ensures kept { All IsKept result.now }
{
    &claim.stack.areas
}

/// The bytes that no store changes.
pub fn fixed_parts<'a>(claim: &StackClaim<'a>) -> &'a [FixedPart]
    requires { IsStackClaim claim.now }
    ensures { (at : ℕ) → fixed_in result.now at ≡ (stacks_in claim.now).fixed at }
{
    &claim.stack.fixed
}

/// What registers tell of others at node k.
pub fn told<'a>(claim: &StackClaim<'a>, k: usize) -> &'a [Told]
    requires claim { IsStackClaim claim.now }
    requires node { k < length claim.now.graph.now.code.nodes }
    ensures told { (j : ℕ) → told_in result.now j ≡ (stacks_in claim.now).told (address claim.now k) j }
    ensures few { length result.now ≤ 8 }
    ensures kept { All IsToldKept result.now }
{
    told_row(claim.stack, k)
}

/// What is divided at node k while other registers count how often.
pub fn dwindling<'a>(claim: &StackClaim<'a>, k: usize) -> &'a [Dwindling]
    requires claim { IsStackClaim claim.now }
    requires node { k < length claim.now.graph.now.code.nodes }
    ensures dwindling { (j : ℕ) → dwindling_in result.now j ≡ (stacks_in claim.now).dwindling (address claim.now k) j }
    ensures few { length result.now ≤ 4 }
    ensures kept { All IsDwindlingKept result.now }
{
    dwindling_row(claim.stack, k)
}

/// How far word `number` is above what x2 had when its function began, modulo 2^32.
pub fn offset(claim: &StackClaim<'_>, number: u32) -> u64
    ensures offset { result ≡ (stacks_in claim.now).offset number }
    ensures word { result < 2 ^ 32 }
{
    opposite_of(4 * (u64::from(number) + 1))
}
