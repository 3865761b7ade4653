//! Words and instructions, both ways.

use crate::fixtures::{expect_equal, expect_same};
use rv_decode::{class_of, decode};
use rv_encode::{encode, jal_fits};
use scale_base::{BranchOp, Class, ImmOp, Instr, LoadOp, RegOp, StoreOp};

/// Words as an assembler writes them, among them those of a stub that switches the level, and words that have no row.
static WORDS: [(u32, Option<Instr>); 34] = [
    (
        0x0070_0513,
        Some(Instr::Imm {
            op: ImmOp::Addi,
            rd: 10,
            rs1: 0,
            imm: 7,
        }),
    ),
    (0, None),
    (0xFF5F_F06F, Some(Instr::Jal { rd: 0, offset: -12 })),
    (
        0xFE07_18E3,
        Some(Instr::Branch {
            op: BranchOp::Bne,
            rs1: 14,
            rs2: 0,
            offset: -16,
        }),
    ),
    (
        0x40B5_0533,
        Some(Instr::Reg {
            op: RegOp::Sub,
            rd: 10,
            rs1: 10,
            rs2: 11,
        }),
    ),
    (
        0x02B5_4533,
        Some(Instr::Reg {
            op: RegOp::Div,
            rd: 10,
            rs1: 10,
            rs2: 11,
        }),
    ),
    (0x04B5_0533, None),
    (
        0x41F5_D593,
        Some(Instr::Imm {
            op: ImmOp::Srai,
            rd: 11,
            rs1: 11,
            imm: 31,
        }),
    ),
    (0x43F5_D593, None),
    (0x0205_9593, None),
    (
        0x0050_0E23,
        Some(Instr::Store {
            op: StoreOp::Sb,
            rs1: 0,
            rs2: 5,
            offset: 28,
        }),
    ),
    (
        0x8045_2283,
        Some(Instr::Load {
            op: LoadOp::Lw,
            rd: 5,
            rs1: 10,
            offset: -2044,
        }),
    ),
    (
        0x0000_8067,
        Some(Instr::Jalr {
            rd: 0,
            rs1: 1,
            offset: 0,
        }),
    ),
    (0x0000_1067, None),
    (
        0x0FF0_000F,
        Some(Instr::Fence {
            rd: 0,
            rs1: 0,
            imm: 255,
        }),
    ),
    (0x0000_100F, None),
    (0x0000_0073, Some(Instr::Ecall)),
    (0x0010_0073, Some(Instr::Ebreak)),
    (0x0020_0073, None),
    (
        0x7F10_006F,
        Some(Instr::Jal {
            rd: 0,
            offset: 4080,
        }),
    ),
    (
        0x0005_0463,
        Some(Instr::Branch {
            op: BranchOp::Beq,
            rs1: 10,
            rs2: 0,
            offset: 8,
        }),
    ),
    (
        0x810F_F06F,
        Some(Instr::Jal {
            rd: 0,
            offset: -4080,
        }),
    ),
    (
        0x8050_2023,
        Some(Instr::Store {
            op: StoreOp::Sw,
            rs1: 0,
            rs2: 5,
            offset: -2048,
        }),
    ),
    (
        0x8060_2223,
        Some(Instr::Store {
            op: StoreOp::Sw,
            rs1: 0,
            rs2: 6,
            offset: -2044,
        }),
    ),
    (
        0xFFC0_2283,
        Some(Instr::Load {
            op: LoadOp::Lw,
            rd: 5,
            rs1: 0,
            offset: -4,
        }),
    ),
    (
        0x0022_9293,
        Some(Instr::Imm {
            op: ImmOp::Slli,
            rd: 5,
            rs1: 5,
            imm: 2,
        }),
    ),
    (0x0000_0337, Some(Instr::Lui { rd: 6, imm: 0 })),
    (
        0x1003_0313,
        Some(Instr::Imm {
            op: ImmOp::Addi,
            rd: 6,
            rs1: 6,
            imm: 256,
        }),
    ),
    (
        0x0053_5333,
        Some(Instr::Reg {
            op: RegOp::Srl,
            rd: 6,
            rs1: 6,
            rs2: 5,
        }),
    ),
    (
        0x00F3_7313,
        Some(Instr::Imm {
            op: ImmOp::Andi,
            rd: 6,
            rs1: 6,
            imm: 15,
        }),
    ),
    (
        0xFE60_2E23,
        Some(Instr::Store {
            op: StoreOp::Sw,
            rs1: 0,
            rs2: 6,
            offset: -4,
        }),
    ),
    (
        0x8040_2303,
        Some(Instr::Load {
            op: LoadOp::Lw,
            rd: 6,
            rs1: 0,
            offset: -2044,
        }),
    ),
    (
        0x8000_2283,
        Some(Instr::Load {
            op: LoadOp::Lw,
            rd: 5,
            rs1: 0,
            offset: -2048,
        }),
    ),
    (
        0xFF9F_E06F,
        Some(Instr::Jal {
            rd: 0,
            offset: -4104,
        }),
    ),
];

#[test]
fn words_of_the_manual(rt: HostRuntime) {
    for (word, instr) in &WORDS {
        expect_equal(&rt, *word, decode(*word), *instr);
        if let Some(instr) = instr {
            expect_same(&rt, *word, encode(instr), Some(*word));
        }
    }
}

const BRANCH: Instr = Instr::Branch {
    op: BranchOp::Beq,
    rs1: 0,
    rs2: 0,
    offset: 8,
};

/// The classes of the manual's kinds of instruction.
static CLASSES: [(Instr, bool, Class); 3] = [
    (BRANCH, true, Class::Taken),
    (BRANCH, false, Class::Untaken),
    (Instr::Ebreak, false, Class::Ecall),
];

#[test]
fn classes(rt: HostRuntime) {
    for (instr, taken, class) in &CLASSES {
        expect_same(&rt, 0, class_of(instr, *taken), *class);
    }
}

/// Fields out of range have no word.
static UNFIT: [Instr; 3] = [
    Instr::Jal {
        rd: 0,
        offset: 1_048_576,
    },
    Instr::Imm {
        op: ImmOp::Slli,
        rd: 1,
        rs1: 1,
        imm: 32,
    },
    Instr::Lui { rd: 1, imm: 1 },
];

#[test]
fn out_of_range(rt: HostRuntime) {
    for instr in &UNFIT {
        expect_same(&rt, 0, encode(instr), None);
    }
}

/// Jumps end where their field does.
static JUMPS: [(u32, u32, bool); 4] = [
    (0x0001_0000, 0xFFF1_0000, true),
    (0, 1_048_576, false),
    (0, 1_048_574, true),
    (0, 1_048_573, false),
];

#[test]
fn jumps_out_of_range(rt: HostRuntime) {
    for (from, to, fits) in &JUMPS {
        expect_same(&rt, *to, jal_fits(*from, *to), *fits);
    }
}
