//! Bounds of loops that go up to a number in memory, which stores of the program keep in an interval, and where one may be anything.

use crate::programs::expect_parts;
use loop_drafts::{DraftInputs, draft_loops, printed_text};
use run_progress::Silent;
use std::alloc::Global;
use std::test::Fail;

/// The headers of a file: a text of 22 words from 0x10000 on, and 16 bytes of zeros from 0x20000 on.
const HEADERS: [u32; 29] = [
    0x464C_457F,
    0x0001_0101,
    0,
    0,
    0x00F3_0002,
    1,
    0x0001_0000,
    52,
    0,
    0,
    0x0020_0034,
    2,
    0,
    1,
    116,
    0x0001_0000,
    0x0001_0000,
    88,
    88,
    5,
    4,
    1,
    204,
    0x0002_0000,
    0x0002_0000,
    0,
    16,
    6,
    4,
];

/// A counter is raised 20 times where it isn't 10, and a loop goes from 0 up to it.
const COUNTED: [u32; 22] = [
    0x0002_07B7, // lui a5,0x20
    0x00A0_0693, // li a3,10
    0x0140_0593, // li a1,20
    0x0007_A703, // 1000c: lw a4,0(a5)
    0x00D7_0663, // beq a4,a3,1001c
    0x0017_0713, // addi a4,a4,1
    0x00E7_A023, // sw a4,0(a5)
    0xFFF5_8593, // 1001c: addi a1,a1,-1
    0xFE05_96E3, // bne a1,zero,1000c
    0x0007_A703, // lw a4,0(a5)
    0x0000_0613, // li a2,0
    0x00E6_0663, // beq a2,a4,10038
    0x0016_0613, // 10030: addi a2,a2,1
    0xFEE6_1EE3, // bne a2,a4,10030
    0x05D0_0893, // 10038: li a7,93
    0x0000_0073, // ecall
    0x0010_0073, // ebreak
    0x0010_0073, // ebreak
    0x0010_0073, // ebreak
    0x0010_0073, // ebreak
    0x0010_0073, // ebreak
    0x0010_0073, // ebreak
];

/// The same, but in between a word is stored at an address that is read.
const STORED: [u32; 22] = [
    0x0002_07B7, // lui a5,0x20
    0x00A0_0693, // li a3,10
    0x0140_0593, // li a1,20
    0x0007_A703, // 1000c: lw a4,0(a5)
    0x00D7_0663, // beq a4,a3,1001c
    0x0017_0713, // addi a4,a4,1
    0x00E7_A023, // sw a4,0(a5)
    0xFFF5_8593, // 1001c: addi a1,a1,-1
    0xFE05_96E3, // bne a1,zero,1000c
    0x0047_8593, // addi a1,a5,4
    0x0040_0613, // li a2,4
    0x03F0_0893, // li a7,63
    0x0000_0073, // ecall
    0x0047_A703, // lw a4,4(a5)
    0x0007_2023, // sw zero,0(a4)
    0x0007_A703, // lw a4,0(a5)
    0x0000_0613, // li a2,0
    0x00E6_0663, // beq a2,a4,10050
    0x0016_0613, // 10048: addi a2,a2,1
    0xFEE6_1EE3, // bne a2,a4,10048
    0x05D0_0893, // 10050: li a7,93
    0x0000_0073, // ecall
];

/// The file of a program.
fn file_of(alloc: Global, program: &[u32; 22]) -> Result<Vec<u8>, Fail> {
    let mut file = Vec::new(alloc);
    for word in HEADERS {
        file.extend_from_slice(&u32::to_le_bytes(word))?;
    }
    for word in program {
        file.extend_from_slice(&u32::to_le_bytes(*word))?;
    }
    Ok(file)
}

/// The draft of a program's loops.
pub fn draft_of(alloc: Global, program: &[u32; 22]) -> Result<String, Fail> {
    let file = file_of(alloc, program)?;
    let inputs = DraftInputs {
        items: &[],
        most: None,
        trusts: false,
    };
    match draft_loops(alloc, &file, &inputs, &mut Silent) {
        Ok(draft) => Ok(printed_text(alloc, &draft.pieces)?),
        Err(_) => Err("there is a draft".into()),
    }
}

#[test]
fn a_loop_up_to_a_counter_in_memory_has_its_bound(rt: HostRuntime) -> Result<(), Fail> {
    let found = draft_of(rt.alloc(), &COUNTED);
    let parts = [
        "header = 0x0001000c\nranges = [[0x0001000c, 0x00010024]]\n# x11 goes down by 1 or more each turn, and its values at the header span 19\nbound = 19\n",
        "header = 0x00010030\nranges = [[0x00010030, 0x00010038]]\n# x12 - x14 goes up by 1 or more each turn, and its values at the header span 9\nbound = 9\n",
    ];
    expect_parts(&rt, "counted", found, &parts)
}

#[test]
fn a_store_anywhere_leaves_the_loop_open(rt: HostRuntime) -> Result<(), Fail> {
    let found = draft_of(rt.alloc(), &STORED);
    let parts = [
        "header = 0x0001000c\nranges = [[0x0001000c, 0x00010024]]\n# x11 goes down by 1 or more each turn, and its values at the header span 19\nbound = 19\n",
        "header = 0x00010048\nranges = [[0x00010048, 0x00010050]]\n# no bound: ",
    ];
    expect_parts(&rt, "stored", found, &parts)
}
