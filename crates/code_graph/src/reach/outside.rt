//! The reached addresses at which no word of a text stands.

ghost use Rattle.std.specs.Prelude.{◌≡◌, ◌<◌, ◌⊎◌, length};
ghost use Rattle.scale_base.specs.Image.{PLAIN_END};
ghost use Rattle.cost_theory.specs.declared.flow.Flow.TheVariants as flow;
ghost use Rattle.code_graph.specs.Outside.{lower_address, has_mark, IsLowest, IsOutsideOf, ComesBackTo, GoesOnFrom, IsComeTo};
ghost use Rattle.code_graph.specs.Steps.{AreLow};

use crate::reach::marks::Mark;
use code_text::TextWords;
use cost_theory::Flow;

/// The lower of two addresses.
fn lower(a: Option<u32>, b: Option<u32>) -> Option<u32>
    ensures { result ≡ lower_address a b }
{
    match (a, b) {
        (Some(a), Some(b)) => Some(a.min(b)),
        (Some(a), None) => Some(a),
        (None, b) => b,
    }
}

/// The address, if no word stands there.
fn if_outside(words: &TextWords, at: u32) -> Option<u32>
    ensures { IsLowest (λ u. (u ≡ at) × IsOutsideOf words.now u) result }
{
    match words.find(at) {
        Some(_) => None,
        None => Some(at),
    }
}

/// The lowest address to which a call leads and at which no word stands.
fn called_outside(words: &TextWords, returning: &[bool], at: u32, to: u32) -> Option<u32>
    requires low { at < PLAIN_END }
    requires size { length returning.now ≡ length words.now.addresses }
    ensures { IsLowest (λ u. ((u ≡ to) ⊎ ComesBackTo words.now returning.now (flow.Call to) at u) × IsOutsideOf words.now u) result }
{
    match words.find(to) {
        Some(callee) => {
            if returning[callee] {
                if_outside(words, at + 4)
            } else {
                None
            }
        }
        None => Some(to),
    }
}

/// The lowest address to which a word leads and at which no word stands.
fn left_from(words: &TextWords, returning: &[bool], k: usize) -> Option<u32>
    requires within { k < length words.now.addresses }
    requires low { AreLow words.now.addresses }
    requires size { length returning.now ≡ length words.now.addresses }
    ensures { IsLowest (λ u. GoesOnFrom words.now returning.now k u × IsOutsideOf words.now u) result }
{
    let at = words.address(k);
    match words.kind(k) {
        Flow::Branch(to) => lower(if_outside(words, to), if_outside(words, at + 4)),
        Flow::Jump(to) => if_outside(words, to),
        Flow::Call(to) => called_outside(words, returning, at, to),
        Flow::MayExit | Flow::Next => if_outside(words, at + 4),
        Flow::Return | Flow::Exit | Flow::Breakpoint | Flow::Refused => None,
    }
}

fn is_reached(mark: Mark) -> bool
    ensures { result ≡ has_mark mark }
{
    match mark {
        Mark::Unreached => false,
        Mark::Owner(_) | Mark::Shared => true,
    }
}

/// The lowest address to which a reached word leads, or at which the program begins, and at which no word stands.
pub fn lowest_outside(
    words: &TextWords,
    returning: &[bool],
    marks: &[Mark],
    entry: u32,
) -> Option<u32>
    requires low { AreLow words.now.addresses }
    requires returning_size { length returning.now ≡ length words.now.addresses }
    requires marks_size { length marks.now ≡ length words.now.addresses }
    ensures { IsLowest (λ u. IsComeTo words.now returning.now marks.now entry (length words.now.addresses) u × IsOutsideOf words.now u)
        result }
{
    let mut lowest = if_outside(words, entry);
    for k in 0..words.count() {
        if is_reached(marks[k]) {
            lowest = lower(lowest, left_from(words, returning, k));
        }
    }
    lowest
}
