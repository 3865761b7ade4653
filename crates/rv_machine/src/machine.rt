//! The machine and the world that its program sees.

ghost use Rattle.std.specs.Prelude.{◌≡◌, ◌≤◌, ◌<◌, ◌^◌, slice_index, vec_len, vec_capacity};

use flat_memory::Memory;
use scale_base::{NoMemory, PORT, STACK_POINTER};
use std::alloc::Global;

/// What the program reads and writes. The output has at most 1,048,576 bytes, and room for so many in all.
#[derive(Drop)]
pub struct World {
    pub input: Vec<u8>,
    /// How many bytes of the input were read.
    pub used: usize,
    pub output: Vec<u8>,
    ghost within: { used ≤ vec_len input },
    ghost short: { vec_len output ≤ 2 ^ 20 },
    ghost room: { 2 ^ 20 ≤ vec_capacity output },
}

/// A machine of 32 registers over a memory, with the 512 words of the window. Register 0 is always 0, and the window's
/// last word, the speed port, is a level.
#[derive(Drop)]
pub struct Machine<M> {
    pub pc: u32,
    pub regs: [u32; 32],
    pub memory: M,
    pub window: [u32; 512],
    pub levels: u8,
    pub world: World,
    ghost zero: { slice_index regs 0 ≡ 0 },
    ghost level: { slice_index window 511 < levels },
    ghost few: { levels ≤ 8 },
}

impl<M: Memory + Drop> Machine<M> {
    ghost use Rattle.std.specs.Prelude.{IfOk};
    ghost use Rattle.scale_base.specs.Run as runs;
    ghost use Rattle.rv_machine.specs.Machine.{state_of, machine_setting};

    /// A machine before its first step, at an address and a level of so many. It has room for the whole output.
    pub fn start(
        alloc: Global,
        memory: M,
        entry: u32,
        levels: u8,
        start: u8,
        input: Vec<u8>,
    ) -> Result<Machine<M>, NoMemory>
        requires level { start < levels }
        requires few { levels ≤ 8 }
        ensures state { IfOk result (λ m. state_of M.bytes m ≡ runs.start (M.bytes memory) entry start) }
        ensures setting { IfOk result (λ m. machine_setting M.layout m ≡ record
            { layout = M.layout memory; levels = levels; input = input.items }) }
    {
        let output = Vec::with_capacity(alloc, 1 << 20)?;
        let mut regs = [0; 32];
        regs[2] = STACK_POINTER;
        let mut window = [0; 512];
        window[PORT] = u32::from(start);
        let world = World {
            input,
            used: 0,
            output,
        };
        Ok(Machine {
            pc: entry,
            regs,
            memory,
            window,
            levels,
            world,
        })
    }
}
