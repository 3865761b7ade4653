//! Lines of assembly, and why they have no words.

use scale_base::{BranchOp, Instr};
use std::alloc::{AllocError, AllocFailed};

/// A line of assembly.
#[derive(Clone, Copy, PartialEq, Eq)]
pub enum Line {
    /// A label: it stands at the word that follows.
    Label(u32),
    /// An instruction as it stands.
    Op(Instr),
    /// A branch to a label.
    BranchTo {
        op: BranchOp,
        rs1: u8,
        rs2: u8,
        label: u32,
    },
    /// A jump to a label.
    JalTo {
        rd: u8,
        label: u32,
    },
}

/// Why lines have no words.
#[derive(Clone, Copy, Debug, PartialEq, Eq)]
pub enum AsmError {
    /// A line goes to a label that isn't there: the label.
    NoLabel(u32),
    /// A label stands twice: the label.
    TwoLabels(u32),
    /// A line, by its number from 0, has a field or a distance out of its range.
    Unfit(u32),
    /// Memory ran out.
    Memory,
}

impl From<AllocError> for AsmError {
    ghost use Rattle.std.specs.Prelude.{◌≡◌};
    ghost use Rattle.image_maker.specs.declared.line.AsmError.TheVariants.{Memory};

    ghost from_gives = { λ _ error. error ≡ Memory };

    fn from(_error: AllocError) -> AsmError {
        AsmError::Memory
    }
}

impl<T: Drop> From<AllocFailed<T>> for AsmError {
    ghost use Rattle.std.specs.Prelude.{◌≡◌};
    ghost use Rattle.image_maker.specs.declared.line.AsmError.TheVariants.{Memory};

    ghost from_gives = { λ _ error. error ≡ Memory };

    fn from(_error: AllocFailed<T>) -> AsmError {
        AsmError::Memory
    }
}
