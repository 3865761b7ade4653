//! The stub of one instruction.

ghost use Rattle.std.specs.Prelude.{◌≡◌, ◌↔◌, ◌+◌, ◌<◌, ℤ, List, IfOk, IfSome, IfNone, Some};
ghost use Rattle.scale_base.specs.declared.edges.EdgeKind.{EdgeKind};
ghost use Rattle.foreign_scan.specs.declared.fragment.ForeignFragment.{ForeignFragment};
ghost use Rattle.foreign_scan.specs.Form.{HoldsAt, IsStub};
ghost use Rattle.foreign_scan.specs.Stubs.{fragments_of, AreSameOn, IsOfInstr};

use crate::fragment::ForeignFragment;
use crate::key::KeyCode;
use crate::parts;
use crate::reading::holds_at;
use crate::run_out::read_run_out;
use code_text::moved;
use scale_base::{BranchOp, EdgeKind, Instr, NoMemory};
use std::alloc::Global;

/// The fragments that a stub holds for each edge of its instruction, in their order.
#[derive(Drop)]
pub enum StubFragments {
    /// Those of a branch, for its edge that is not taken and for the one that is taken.
    Branch {
        untaken: Vec<ForeignFragment>,
        taken: Vec<ForeignFragment>,
    },
    /// Those of a jump.
    Jump {
        fragments: Vec<ForeignFragment>,
    },
}

impl StubFragments {
    /// What the stub holds for the edge of a kind.
    pub fn fragments(&self, kind: EdgeKind) -> &[ForeignFragment]
        ensures { result.now ≡ fragments_of self.now kind }
    {
        match self {
            StubFragments::Branch { untaken, taken } => match kind {
                EdgeKind::Untaken => untaken,
                EdgeKind::Taken => taken,
                _ => &[],
            },
            StubFragments::Jump { fragments } => match kind {
                EdgeKind::Jump => fragments,
                _ => &[],
            },
        }
    }
}

fn branch(op: BranchOp, rs1: u8, rs2: u8, offset: i32) -> Instr
    ensures { result ≡ Instr.Branch op rs1 rs2 offset }
{
    Instr::Branch {
        op,
        rs1,
        rs2,
        offset,
    }
}

/// The offset of a branch at an address that compares the same registers in the same way.
fn branch_again(key: &KeyCode<'_>, at: u64, op: BranchOp, rs1: u8, rs2: u8) -> Option<i32>
    ensures { (offset : ℤ) → (result ≡ Some offset) ↔ HoldsAt key.now at (Instr.Branch op rs1 rs2 offset) }
{
    match parts::branch_offset(key.instr(at)) {
        Some(offset) => {
            if holds_at(key, at, &branch(op, rs1, rs2, offset)) {
                Some(offset)
            } else {
                None
            }
        }
        None => None,
    }
}

/// The fields of a branch.
#[derive(Clone, Copy)]
struct BranchFields {
    op: BranchOp,
    rs1: u8,
    rs2: u8,
    offset: i32,
}

/// The fields of a JAL.
#[derive(Clone, Copy)]
struct JumpFields {
    rd: u8,
    offset: i32,
}

/// The stub of a branch.
fn read_fork(
    alloc: Global,
    key: &KeyCode<'_>,
    at: u32,
    stub: u32,
    fields: BranchFields,
) -> Result<Option<StubFragments>, NoMemory>
    ensures found { IfOk result (λ found. IfSome found (λ s. IsStub key.now at stub
        (Instr.Branch fields.op fields.rs1 fields.rs2 fields.offset) (fragments_of s))) }
    ensures only { IfOk result (λ found. IfSome found (λ s. (others : EdgeKind → List ForeignFragment) →
        IsStub key.now at stub (Instr.Branch fields.op fields.rs1 fields.rs2 fields.offset) others →
        AreSameOn (Instr.Branch fields.op fields.rs1 fields.rs2 fields.offset) others (fragments_of s))) }
    ensures none { IfOk result (λ found. IfNone found ((others : EdgeKind → List ForeignFragment) →
        IsStub key.now at stub (Instr.Branch fields.op fields.rs1 fields.rs2 fields.offset) others → ⊥)) }
    ensures shape { IfOk result (λ found. IfSome found (λ s. IsOfInstr (Instr.Branch fields.op fields.rs1 fields.rs2 fields.offset) s)) }
{
    let again = match branch_again(key, u64::from(stub), fields.op, fields.rs1, fields.rs2) {
        Some(again) => again,
        None => return Ok(None),
    };
    let untaken = match read_run_out(alloc, key, u64::from(stub) + 4, at.wrapping_add(4))? {
        Some(untaken) => untaken,
        None => return Ok(None),
    };
    match read_run_out(
        alloc,
        key,
        u64::from(moved(stub, again)),
        moved(at, fields.offset),
    )? {
        Some(taken) => Ok(Some(StubFragments::Branch { untaken, taken })),
        None => Ok(None),
    }
}

/// The stub of a jump.
fn read_jump(
    alloc: Global,
    key: &KeyCode<'_>,
    at: u32,
    stub: u32,
    fields: JumpFields,
) -> Result<Option<StubFragments>, NoMemory>
    ensures found { IfOk result (λ found. IfSome found (λ s. IsStub key.now at stub (Instr.Jal fields.rd fields.offset) (fragments_of s))) }
    ensures only { IfOk result (λ found. IfSome found (λ s. (others : EdgeKind → List ForeignFragment) →
        IsStub key.now at stub (Instr.Jal fields.rd fields.offset) others → AreSameOn (Instr.Jal fields.rd fields.offset) others
        (fragments_of s))) }
    ensures none { IfOk result (λ found. IfNone found ((others : EdgeKind → List ForeignFragment) →
        IsStub key.now at stub (Instr.Jal fields.rd fields.offset) others → ⊥)) }
    ensures shape { IfOk result (λ found. IfSome found (λ s. IsOfInstr (Instr.Jal fields.rd fields.offset) s)) }
{
    match read_run_out(alloc, key, u64::from(stub), moved(at, fields.offset))? {
        Some(fragments) => Ok(Some(StubFragments::Jump { fragments })),
        None => Ok(None),
    }
}

/// The fragments of the stub that stands at an address, in the form of a stub of the instruction at another one. The stub of a branch begins with the same
/// branch to an address of the keyed segment; behind it stands the run-out of the edge that is not taken, and at that address the one of the edge that is taken.
/// The stub of a JAL is the run-out of its edge. None exactly where no such stub stands there, as for each other instruction. Err only for want of memory.
pub fn read_stub(
    alloc: Global,
    key: &KeyCode<'_>,
    at: u32,
    stub: u32,
    instr: &Instr,
) -> Result<Option<StubFragments>, NoMemory>
    ensures found { IfOk result (λ found. IfSome found (λ s. IsStub key.now at stub instr.now (fragments_of s))) }
    ensures only { IfOk result (λ found. IfSome found (λ s. (others : EdgeKind → List ForeignFragment) →
        IsStub key.now at stub instr.now others → AreSameOn instr.now others (fragments_of s))) }
    ensures none { IfOk result (λ found. IfNone found ((others : EdgeKind → List ForeignFragment) →
        IsStub key.now at stub instr.now others → ⊥)) }
    ensures shape { IfOk result (λ found. IfSome found (λ s. IsOfInstr instr.now s)) }
{
    match *instr {
        Instr::Branch {
            op,
            rs1,
            rs2,
            offset,
        } => {
            let fields = BranchFields {
                op,
                rs1,
                rs2,
                offset,
            };
            read_fork(alloc, key, at, stub, fields)
        }
        Instr::Jal { rd, offset } => { read_jump(alloc, key, at, stub, JumpFields { rd, offset }) }
        _ => Ok(None),
    }
}
