//! The words of lines.

ghost use Rattle.std.specs.Prelude.{◌≡◌, ◌≤◌, ◌<◌, ◌+◌, ◌^◌, ◌-ℤ◌, pos, ℕ, length, OnOk, IfOk, IfErr, Some};
ghost use Rattle.std.specs.Ordering.{nat_cmp};
ghost use Rattle.std.specs.BTreeMap.{get};
ghost use Rattle.image_maker.specs.Assembling as asm;
ghost use Rattle.image_maker.specs.Places as places;

use crate::line::{AsmError, Line};
use rv_encode::encode;
use scale_base::{Instr, WORD_LIMIT};
use std::alloc::Global;
use std::collections::BTreeMap;

/// Where the first word stands.
const START: u32 = 0x0001_0000;

fn distance(from: u32, to: u32) -> i32
    requires from { from < 2 ^ 31 }
    requires to { to < 2 ^ 31 }
    ensures { result ≡ pos to -ℤ pos from }
{
    to as i32 - from as i32
}

/// The instruction of a line at an address. None for a label.
fn instr_at(line: &Line, at: u32, table: &BTreeMap<u32, u32>) -> Option<Instr>
    requires at { at < 2 ^ 31 }
    requires places { (l to : ℕ) → get nat_cmp table.now l ≡ Some to → to < 2 ^ 31 }
    ensures { result ≡ places.line_instr (get nat_cmp table.now) at line.now }
{
    match *line {
        Line::Label(_) => None,
        Line::Op(instr) => Some(instr),
        Line::BranchTo {
            op,
            rs1,
            rs2,
            label,
        } => {
            let to = *table.get(&label)?;
            let offset = distance(at, to);
            Some(Instr::Branch {
                op,
                rs1,
                rs2,
                offset,
            })
        }
        Line::JalTo { rd, label } => {
            let to = *table.get(&label)?;
            let offset = distance(at, to);
            Some(Instr::Jal { rd, offset })
        }
    }
}

/// Adds the word of line `k` to those before it.
fn push_line(
    words: &mut Vec<u32>,
    lines: &[Line],
    k: usize,
    table: &BTreeMap<u32, u32>,
) -> Result<(), AsmError>
    requires few { length lines.now ≤ WORD_LIMIT }
    requires within { k < length lines.now }
    requires labels { asm.HasLabels lines.now }
    requires table { places.IsLabelTable lines.now (length lines.now) table.now }
    requires words { places.AreWords lines.now k words.old.items }
    ensures words { OnOk result (places.AreWords lines.now (k + 1) words.new.items) }
    ensures refused { IfErr result (λ error. asm.IsCause lines.now error) }
{
    let at = START + 4 * words.len() as u32;
    let Some(instr) = instr_at(&lines[k], at, table) else {
        return Ok(());
    };
    let Some(word) = encode(&instr) else {
        return Err(AsmError::Unfit(k as u32));
    };
    words.push(word)?;
    Ok(())
}

/// The words of lines, with the address of each label.
pub fn words_of(
    alloc: Global,
    lines: &[Line],
    table: &BTreeMap<u32, u32>,
) -> Result<Vec<u32>, AsmError>
    requires few { length lines.now ≤ WORD_LIMIT }
    requires labels { asm.HasLabels lines.now }
    requires table { places.IsLabelTable lines.now (length lines.now) table.now }
    ensures words { IfOk result (λ words. asm.IsAssembled lines.now words.items) }
    ensures refused { IfErr result (λ error. asm.IsCause lines.now error) }
{
    let mut words = Vec::new(alloc);
    for k in 0..lines.len() {
        push_line(&mut words, lines, k, table)?;
    }
    Ok(words)
}
