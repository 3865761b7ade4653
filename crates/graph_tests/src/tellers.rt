//! Bounds of loops whose tests are written to registers and joined there: comparisons, and differences, which are 0 where two words are the same.

use crate::cells::draft_of;
use crate::programs::expect_parts;
use std::test::Fail;

/// A number is read, up to which a loop counts, but at most to 8; and another loop counts down from 12 to 0, where the number doesn't end it before.
const JOINED: [u32; 22] = [
    0x0002_07B7, // lui a5,0x20
    0x0047_8593, // addi a1,a5,4
    0x0040_0613, // li a2,4
    0x03F0_0893, // li a7,63
    0x0000_0073, // ecall
    0x0047_A683, // lw a3,4(a5)
    0x0000_0713, // li a4,0
    0x00D7_2533, // 1001c: slt a0,a4,a3
    0x0087_2813, // slti a6,a4,8
    0x0017_0713, // addi a4,a4,1
    0x00A8_7833, // and a6,a6,a0
    0xFE08_18E3, // bne a6,zero,1001c
    0x00C0_0513, // li a0,12
    0x0015_3613, // 10034: sltiu a2,a0,1
    0xFFB6_A693, // slti a3,a3,-5
    0x00D6_6633, // or a2,a2,a3
    0xFFF5_0513, // addi a0,a0,-1
    0xFE06_08E3, // beq a2,zero,10034
    0x05D0_0893, // li a7,93
    0x0000_0073, // ecall
    0x0010_0073, // ebreak
    0x0010_0073, // ebreak
];

#[test]
fn loops_that_end_by_joined_tests_have_bounds(rt: HostRuntime) -> Result<(), Fail> {
    let found = draft_of(rt.alloc(), &JOINED);
    let parts = [
        "header = 0x0001001c\nranges = [[0x0001001c, 0x00010030]]\n# x14 goes up by 1 or more each turn, and its values at the header span 8\nbound = 8\n",
        "header = 0x00010034\nranges = [[0x00010034, 0x00010048]]\n# x10 goes down by 1 or more each turn, and its values at the header span 12\nbound = 12\n",
    ];
    expect_parts(&rt, "joined", found, &parts)
}

/// A number is read, up to which a loop counts, but at most to where a difference with 8 is 0; and another one counts down from 12 to where that with 3 is.
const APART: [u32; 22] = [
    0x0002_07B7, // lui a5,0x20
    0x0047_8593, // addi a1,a5,4
    0x0040_0613, // li a2,4
    0x03F0_0893, // li a7,63
    0x0000_0073, // ecall
    0x0047_A683, // lw a3,4(a5)
    0x0000_0713, // li a4,0
    0x00D7_2533, // 1001c: slt a0,a4,a3
    0xFF87_0813, // addi a6,a4,-8
    0x0100_3833, // sltu a6,zero,a6
    0x0017_0713, // addi a4,a4,1
    0x00A8_7833, // and a6,a6,a0
    0xFE08_16E3, // bne a6,zero,1001c
    0x00C0_0513, // li a0,12
    0x0030_0593, // li a1,3
    0x40B5_0633, // 1003c: sub a2,a0,a1
    0x0016_3613, // sltiu a2,a2,1
    0xFFF5_0513, // addi a0,a0,-1
    0xFE06_0AE3, // beq a2,zero,1003c
    0x05D0_0893, // li a7,93
    0x0000_0073, // ecall
    0x0010_0073, // ebreak
];

#[test]
fn loops_that_end_by_differences_have_bounds(rt: HostRuntime) -> Result<(), Fail> {
    let found = draft_of(rt.alloc(), &APART);
    let parts = [
        "header = 0x0001001c\nranges = [[0x0001001c, 0x00010034]]\n# x14 goes up by 1 or more each turn, and its values at the header span 8\nbound = 8\n",
        "header = 0x0001003c\nranges = [[0x0001003c, 0x0001004c]]\n# x10 goes down by 1 or more each turn, and its values at the header span 9\nbound = 9\n",
    ];
    expect_parts(&rt, "apart", found, &parts)
}
