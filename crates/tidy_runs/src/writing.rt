//! What an instruction writes.

ghost use Rattle.std.specs.Prelude.{◌≡◌, ◌≤◌, ◌<◌, ◌^◌, ℕ};
ghost use Rattle.scale_base.specs.declared.instruction.Instr.{Instr};
ghost use Rattle.scale_base.specs.declared.instruction.Instr.TheVariants.{Ecall};
ghost use Rattle.scale_base.specs.Arith as ops;
ghost use Rattle.scale_base.specs.State.{Setting, State, word_at};
ghost use Rattle.scale_base.specs.Step.{performs};
ghost use Rattle.scale_base.specs.Word.{FieldsInRange};
ghost use Rattle.tidy_runs.specs.Writing.{MissesWord};

use scale_base::{Instr, StoreOp};

/// At most so many bytes, from an address on.
#[derive(Clone, Copy, PartialEq, Eq)]
pub struct Written {
    pub from: u32,
    pub count: u32,
}

// So many bytes a service reads at most.
const MOST_READ: u32 = 256;

// The number of the service that reads.
const READ: u32 = 63;

fn width(op: StoreOp) -> u32
    ensures is { result ≡ ops.store_width op }
    ensures few { result ≤ 256 }
{
    match op {
        StoreOp::Sb => 1,
        StoreOp::Sh => 2,
        StoreOp::Sw => 4,
    }
}

// What a service reads to memory, if it is the one that reads.
fn read_by(regs: &[u32; 32]) -> Option<Written>
    ensures { (env : Setting) (s : State) (i : Instr) (at : ℕ) → s.regs ≡ regs.now → at < 2 ^ 32 → MissesWord result at →
        word_at (performs env s i Ecall).state.bytes at ≡ word_at s.bytes at }
{
    if regs[17] == READ {
        Some(Written {
            from: regs[11],
            count: regs[12].min(MOST_READ),
        })
    } else {
        None
    }
}

/// What an instruction writes, if it writes at all, where registers hold these.
pub fn written_by(regs: &[u32; 32], instr: &Instr) -> Option<Written>
    requires { FieldsInRange instr.now }
    ensures { (env : Setting) (s : State) (at : ℕ) → s.regs ≡ regs.now → at < 2 ^ 32 → MissesWord result at →
        word_at (performs env s instr.now instr.now).state.bytes at ≡ word_at s.bytes at }
{
    match *instr {
        Instr::Store {
            op,
            rs1,
            offset,
            ..
        } => Some(Written {
            from: regs[rs1 as usize].wrapping_add_signed(offset),
            count: width(op),
        }),
        Instr::Ecall => read_by(regs),
        _ => None,
    }
}
