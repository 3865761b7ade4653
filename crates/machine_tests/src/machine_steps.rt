//! Steps of the machine, and runs of a few words.

use crate::fixtures::{READS_ALL, WRITES_A_BYTE, expect_equal, expect_same, plain, view_of};
use elf_image::ImageView;
use flat_memory::{ListMemory, load_list};
use rv_encode::encode;
use rv_machine::{Machine, StepEnd, World, step};
use scale_base::{Class, Instr, Move, RegOp, Stepped, Trap, TrapKind};
use std::alloc::Global;
use std::process::Abort;
use std::test::Fail;

/// The machine of three levels before the first step of the image.
fn started(alloc: Global, words: &[u32], input: &[u8]) -> Result<Machine<ListMemory>, Fail> {
    let file = plain(alloc, words)?;
    let view = view_of(alloc, &file)?;
    started_in(alloc, &view, input)
}

fn started_in(
    alloc: Global,
    view: &ImageView<'_>,
    input: &[u8],
) -> Result<Machine<ListMemory>, Fail> {
    let memory = load_list(alloc, view)?;
    let input = Vec::from_slice(alloc, input)?;
    Ok(Machine::start(alloc, memory, view.entry(), 3, 2, input)?)
}

/// How the run ends within so many steps, and the number of completed steps.
fn run(machine: &mut Machine<ListMemory>, limit: u32) -> (Option<StepEnd>, u32) {
    for steps in 0..limit {
        match step(machine) {
            StepEnd::Went(_) => {}
            end => return (Some(end), steps),
        }
    }
    (None, limit)
}

/// What is in register 3 behind an operation of registers 1 and 2.
fn result_of(alloc: Global, op: RegOp, a: u32, b: u32) -> Result<u32, Fail> {
    let word = encode(&Instr::Reg {
        op,
        rd: 3,
        rs1: 1,
        rs2: 2,
    })
    .ok_or("a word")?;
    let mut machine = started(alloc, &[word], &[])?;
    machine.regs[1] = a;
    machine.regs[2] = b;
    step(&mut machine);
    Ok(machine.regs[3])
}

/// The manual's results at the edges.
static RESULTS: [(RegOp, u32, u32, u32); 17] = [
    (RegOp::Div, 7, 0, 0xFFFF_FFFF),
    (RegOp::Rem, 7, 0, 7),
    (RegOp::Divu, 7, 0, 0xFFFF_FFFF),
    (RegOp::Remu, 7, 0, 7),
    (RegOp::Div, 0x8000_0000, 0xFFFF_FFFF, 0x8000_0000),
    (RegOp::Rem, 0x8000_0000, 0xFFFF_FFFF, 0),
    (RegOp::Div, 0xFFFF_FFF9, 2, 0xFFFF_FFFD),
    (RegOp::Rem, 0xFFFF_FFF9, 2, 0xFFFF_FFFF),
    (RegOp::Mul, 0xFFFF_FFFF, 0xFFFF_FFFF, 1),
    (RegOp::Mulh, 0xFFFF_FFFF, 0xFFFF_FFFF, 0),
    (RegOp::Mulhsu, 0xFFFF_FFFF, 0xFFFF_FFFF, 0xFFFF_FFFF),
    (RegOp::Mulhu, 0xFFFF_FFFF, 0xFFFF_FFFF, 0xFFFF_FFFE),
    (RegOp::Slt, 0xFFFF_FFFF, 0, 1),
    (RegOp::Sltu, 0xFFFF_FFFF, 0, 0),
    (RegOp::Sra, 0x8000_0000, 31, 0xFFFF_FFFF),
    (RegOp::Srl, 0x8000_0000, 31, 1),
    (RegOp::Sll, 1, 33, 2),
];

#[test]
fn operations(rt: HostRuntime) -> Result<(), Fail> {
    for (op, a, b, want) in &RESULTS {
        let found = result_of(rt.alloc(), *op, *a, *b)?;
        expect_same(&rt, *a, found, *want);
    }
    Ok(())
}

const LOADS_TEXT: [u32; 4] = [0x0000_0297, 0x0002_A303, 0x05D0_0893, 0x0000_0073];

const WENT: Stepped = Stepped {
    pc: 0x0001_0000,
    next: 0x0001_0004,
    class: Class::Alu,
    moved: Move::Local,
    keyed: false,
    port: None,
};

const FAULT: Trap = Trap {
    kind: TrapKind::LoadFault,
    at: 0x0001_0000,
};

/// The registers, of which the stack pointer and register 5 aren't 0.
fn expect_registers(rt: &impl Abort, machine: &Machine<ListMemory>) {
    let mut regs = [0; 32];
    regs[2] = 0x7FFF_FFF0;
    regs[5] = 0x0001_0000;
    expect_same(rt, 0, (machine.pc, machine.regs), (0x0001_0004, regs));
}

/// The window is as it began, its last word the fastest of three levels; no input was read, and nothing was written.
fn expect_world(rt: &impl Abort, machine: &Machine<ListMemory>) {
    let mut window = [0; 512];
    window[511] = 2;
    expect_equal(rt, 0, machine.window, window);
    let World { used, output, .. } = &machine.world;
    expect_same(rt, 0, (*used, output.len()), (0, 0));
}

/// A load of a text range traps, and leaves the state as it was.
#[test]
fn load_of_text(rt: HostRuntime) -> Result<(), Fail> {
    let mut machine = started(rt.alloc(), &LOADS_TEXT, &[])?;
    let steps = [step(&mut machine), step(&mut machine)];
    expect_equal(&rt, 0, steps[0], StepEnd::Went(WENT));
    expect_equal(&rt, 1, steps[1], StepEnd::Trapped(FAULT));
    expect_registers(&rt, &machine);
    expect_world(&rt, &machine);
    Ok(())
}

/// Images of one word, and how their first step traps.
static TRAPS: [(u32, TrapKind, u32); 8] = [
    (0x0050_0E23, TrapKind::StoreFault, 0x0000_001C),
    (0x0010_0073, TrapKind::Breakpoint, 0x0001_0000),
    (0x0000_0000, TrapKind::IllegalWord, 0x0001_0000),
    (0x0020_006F, TrapKind::MisalignedTarget, 0x0001_0002),
    (0x0011_2283, TrapKind::LoadMisaligned, 0x7FFF_FFF1),
    (0x0051_10A3, TrapKind::StoreMisaligned, 0x7FFF_FFF1),
    (0xFFC0_2283, TrapKind::LoadFault, 0xFFFF_FFFC),
    (0xFE50_2E23, TrapKind::StoreFault, 0xFFFF_FFFC),
];

fn first_step(alloc: Global, word: u32) -> Result<StepEnd, Fail> {
    let mut machine = started(alloc, &[word], &[])?;
    Ok(step(&mut machine))
}

#[test]
fn first_steps(rt: HostRuntime) -> Result<(), Fail> {
    for (word, kind, at) in &TRAPS {
        let trap = Trap {
            kind: *kind,
            at: *at,
        };
        let found = first_step(rt.alloc(), *word)?;
        expect_equal(&rt, *word, found, StepEnd::Trapped(trap));
    }
    Ok(())
}

/// A program that writes one byte, and one that reads its input byte by byte, whose lengths are known: the words, the input, the number of steps, the output, and how
/// many bytes are read.
static SERVICES: [(&[u32], &[u8], u32, &[u8], usize); 2] = [
    (&WRITES_A_BYTE, b"", 9, &[0x41], 0),
    (&READS_ALL, b"hello world", 51, b"", 11),
];

fn expect_bytes(rt: &impl Abort, found: &[u8], want: &[u8]) {
    assert_eq!(rt; found, want);
}

fn expect_service(
    rt: &impl Abort,
    alloc: Global,
    words: &[u32],
    input: &[u8],
    (count, output, used): (u32, &[u8], usize),
) -> Result<(), Fail> {
    let mut machine = started(alloc, words, input)?;
    let (end, steps) = run(&mut machine, 1000);
    let exits = matches!(end, Some(StepEnd::Exited(_, 0)));
    let world = &machine.world;
    expect_same(rt, 0, (exits, steps, world.used), (true, count, used));
    expect_bytes(rt, &world.output, output);
    Ok(())
}

#[test]
fn services(rt: HostRuntime) -> Result<(), Fail> {
    for (words, input, count, output, used) in &SERVICES {
        expect_service(&rt, rt.alloc(), words, input, (*count, *output, *used))?;
    }
    Ok(())
}
