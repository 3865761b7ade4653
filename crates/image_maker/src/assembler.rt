//! Assembles lines.

ghost use Rattle.std.specs.Prelude.{◌≤◌, length, IfOk, IfErr};
ghost use Rattle.image_maker.specs.Assembling as asm;

use crate::labels::{least_missing, place_labels};
use crate::line::{AsmError, Line};
use crate::words::words_of;
use scale_base::WORD_LIMIT;
use std::alloc::Global;

/// The words of the lines, from address 0x10000 on. `TwoLabels` comes exactly where a label stands twice, `NoLabel` exactly where
/// a line goes to a label that isn't there, and `Unfit` exactly where a line has a field or a distance out of its range; in this
/// order, each with the least number.
pub fn assemble(alloc: Global, lines: &[Line]) -> Result<Vec<u32>, AsmError>
    requires { length lines.now ≤ WORD_LIMIT }
    ensures words { IfOk result (λ words. asm.IsAssembled lines.now words.items) }
    ensures refused { IfErr result (λ error. asm.IsCause lines.now error) }
{
    let table = place_labels(alloc, lines)?;
    if let Some(label) = least_missing(lines, &table) {
        return Err(AsmError::NoLabel(label));
    }
    words_of(alloc, lines, &table)
}
