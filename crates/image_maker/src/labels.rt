//! The labels of lines.

ghost use Rattle.std.specs.Prelude.{◌≡◌, ◌≤◌, ◌<◌, ◌+◌, ℕ, length, OnOk, IfOk, IfErr, IfSome, slice_get};
ghost use Rattle.image_maker.specs.Assembling as asm;
ghost use Rattle.image_maker.specs.Places as places;

use crate::line::{AsmError, Line};
use scale_base::WORD_LIMIT;
use std::alloc::Global;
use std::collections::BTreeMap;

/// Where the first word stands.
const START: u32 = 0x0001_0000;

/// The lesser of a number and what was the least before.
fn lesser(before: Option<u32>, number: u32) -> u32
    ensures { result ≡ places.lesser_number before number }
{
    match before {
        Some(least) => least.min(number),
        None => number,
    }
}

/// The labels of the lines so far: the address of each, the least that stands twice, and the address of the next word.
#[derive(Drop)]
struct Labels {
    table: BTreeMap<u32, u32>,
    twice: Option<u32>,
    at: u32,
}

impl Labels {
    /// Adds line `k` to those before it.
    fn add(&mut self, lines: &[Line], k: usize) -> Result<(), AsmError>
        requires few { length lines.now ≤ WORD_LIMIT }
        requires within { k < length lines.now }
        requires placed { places.ArePlaced lines.now k self.old.table self.old.twice self.old.at }
        ensures placed { OnOk result (places.ArePlaced lines.now (k + 1) self.new.table self.new.twice self.new.at) }
        ensures memory { IfErr result (λ error. error ≡ AsmError.Memory) }
    {
        let line = lines[k];
        let Line::Label(label) = line else {
            self.at += 4;
            return Ok(());
        };
        let before = self.table.insert(label, self.at)?;
        if before.is_none() {
            return Ok(());
        }
        self.twice = Some(lesser(self.twice, label));
        Ok(())
    }
}

/// The address of each label. A label that stands twice is refused.
pub fn place_labels(alloc: Global, lines: &[Line]) -> Result<BTreeMap<u32, u32>, AsmError>
    requires { length lines.now ≤ WORD_LIMIT }
    ensures table { IfOk result (λ table. places.IsLabelTable lines.now (length lines.now) table) }
    ensures once { IfOk result (λ _. asm.NoneIs (asm.IsTwice lines.now)) }
    ensures refused { IfErr result (λ error. asm.IsCause lines.now error) }
{
    let mut labels = Labels {
        table: BTreeMap::new(alloc),
        twice: None,
        at: START,
    };
    for k in 0..lines.len() {
        labels.add(lines, k)?;
    }
    match labels.twice {
        Some(label) => Err(AsmError::TwoLabels(label)),
        None => Ok(labels.table),
    }
}

/// The lesser of two numbers that may not be there.
fn least_of(before: Option<u32>, number: Option<u32>) -> Option<u32>
    ensures { result ≡ places.lesser_line before number }
{
    match number {
        Some(number) => Some(lesser(before, number)),
        None => before,
    }
}

/// The label that line `k` goes to, where it isn't there.
fn missing_at(lines: &[Line], k: usize, table: &BTreeMap<u32, u32>) -> Option<u32>
    requires table { places.IsLabelTable lines.now (length lines.now) table.now }
    requires within { k < length lines.now }
    ensures { IfSome (slice_get lines.now k) (λ line. places.IsMissingAt lines.now line result) }
{
    match lines[k] {
        Line::BranchTo { label, .. } | Line::JalTo { label, .. } => {
            if table.contains_key(&label) {
                None
            } else {
                Some(label)
            }
        }
        _ => None,
    }
}

/// The least label that a line goes to and that isn't there.
pub fn least_missing(lines: &[Line], table: &BTreeMap<u32, u32>) -> Option<u32>
    requires { places.IsLabelTable lines.now (length lines.now) table.now }
    ensures { places.IsFirst (asm.IsMissing lines.now) result }
{
    let mut missing = None;
    for k in 0..lines.len() {
        missing = least_of(missing, missing_at(lines, k, table));
    }
    missing
}
