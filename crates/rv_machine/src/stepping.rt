//! One step.

ghost use Rattle.std.specs.Prelude.{◌≡◌, ◌<◌, ◌≤◌, ◌+◌, ◌^◌, ◌%◌, Some, None, IsTrue};
ghost use Rattle.scale_base.specs.declared.instruction.Instr.{Instr};
ghost use Rattle.scale_base.specs.Word.{FieldsInRange};
ghost use Rattle.scale_base.specs.Step as steps;
ghost use Rattle.scale_base.specs.Arith as ops;
ghost use Rattle.scale_base.specs.Layout as rules;
ghost use Rattle.scale_base.specs.State.{reg, with_reg};
ghost use Rattle.scale_base.specs.Step.{PortBelow};
ghost use Rattle.rv_machine.specs.Code.{IsFixed};
ghost use Rattle.rv_machine.specs.Decoded.{decoded_end, end_by, LevelBelow};
ghost use Rattle.rv_machine.specs.Machine.{state_of, machine_setting, outcome_of};

use crate::decoded::{Decoded, Effect, describe};
use crate::machine::Machine;
use crate::services::service;
use crate::{access, arith};
use flat_memory::Memory;
use rv_decode::decode;
use scale_base::{Instr, LoadOp, PORT, StepEnd, StoreOp, Trap, TrapKind, WINDOW_START};

/// One step of the machine: one instruction. After a trap or an exit the machine is as before.
#[inline(never)]
#[tactic(auto, unfolding(scale_base::specs::Step::step))]
pub fn step<M: Memory>(machine: &mut Machine<M>) -> StepEnd
    ensures outcome { outcome_of M.bytes result machine.new ≡ steps.step (machine_setting M.layout machine.old)
        (state_of M.bytes machine.old) }
    ensures setting { machine_setting M.layout machine.new ≡ machine_setting M.layout machine.old }
    ensures port { PortBelow result machine.old.levels }
{
    let at = machine.pc;
    if !access::can_fetch(&machine.memory, at) {
        return StepEnd::Trapped(trap(TrapKind::FetchFault, at));
    }
    match decode(access::word_at(&machine.memory, at)) {
        Some(instr) => execute(machine, instr),
        None => StepEnd::Trapped(trap(TrapKind::IllegalWord, at)),
    }
}

/// The step of the instruction at the machine's `pc`.
fn execute<M: Memory>(machine: &mut Machine<M>, instr: Instr) -> StepEnd
    requires { FieldsInRange instr }
    ensures outcome { outcome_of M.bytes result machine.new ≡ steps.performs (machine_setting M.layout machine.old)
        (state_of M.bytes machine.old) instr instr }
    ensures setting { machine_setting M.layout machine.new ≡ machine_setting M.layout machine.old }
    ensures port { PortBelow result machine.old.levels }
{
    let pc = machine.pc;
    let known = describe(&machine.memory, pc, instr);
    let effect = perform(machine, &instr);
    known.end(pc, effect, machine.pc)
}

/// One step of the machine, whose instruction is known, and what it did.
#[inline(always)]
pub fn step_decoded<M: Memory>(machine: &mut Machine<M>, known: &Decoded) -> Effect
    requires { IsFixed (M.layout machine.old.memory) (M.bytes machine.old.memory) machine.old.pc known.now }
    ensures outcome { outcome_of M.bytes (decoded_end known.now machine.old.pc result machine.new.pc) machine.new ≡ steps.step
        (machine_setting M.layout machine.old) (state_of M.bytes machine.old) }
    ensures setting { machine_setting M.layout machine.new ≡ machine_setting M.layout machine.old }
    ensures level { LevelBelow result machine.old.levels }
{
    perform(machine, &known.instr)
}

pub fn trap(kind: TrapKind, at: u32) -> Trap
    ensures { result ≡ record { kind = kind; at = at } }
{
    Trap { kind, at }
}

fn stops(kind: TrapKind, at: u32) -> Effect
    ensures { result ≡ Effect.Trapped (record { kind = kind; at = at }) }
{
    Effect::Trapped(trap(kind, at))
}

#[inline(always)]
pub fn reg_at<M>(machine: &Machine<M>, r: u8) -> u32
    requires { r < 32 }
    ensures { result ≡ reg machine.now.regs r }
{
    machine.regs[r as usize]
}

#[inline(always)]
pub fn set_reg<M: Memory>(machine: &mut Machine<M>, rd: u8, value: u32)
    requires { rd < 32 }
    ensures state { state_of M.bytes machine.new ≡ record (state_of M.bytes machine.old) { regs = with_reg machine.old.regs rd value } }
    ensures setting { machine_setting M.layout machine.new ≡ machine_setting M.layout machine.old }
{
    if rd != 0 {
        machine.regs[rd as usize] = value;
    }
}

/// The value goes into the register, and the next instruction follows.
#[inline(always)]
fn set<M: Memory>(machine: &mut Machine<M>, rd: u8, value: u32)
    requires { rd < 32 }
    ensures state { state_of M.bytes machine.new ≡ record (state_of M.bytes machine.old)
        { pc = steps.pc_after (state_of M.bytes machine.old); regs = with_reg machine.old.regs rd value } }
    ensures setting { machine_setting M.layout machine.new ≡ machine_setting M.layout machine.old }
{
    set_reg(machine, rd, value);
    machine.pc = machine.pc.wrapping_add(4);
}

#[inline(always)]
fn jump<M: Memory>(machine: &mut Machine<M>, rd: u8, target: u32) -> Effect
    requires { rd < 32 }
    ensures outcome { (i : Instr) → outcome_of M.bytes (end_by (machine_setting M.layout machine.old) (state_of M.bytes machine.old) i
        result machine.new.pc) machine.new ≡ steps.jumps (machine_setting M.layout machine.old) (state_of M.bytes machine.old) i rd target }
    ensures setting { machine_setting M.layout machine.new ≡ machine_setting M.layout machine.old }
    ensures level { LevelBelow result machine.old.levels }
{
    if target % 4 != 0 {
        return stops(TrapKind::MisalignedTarget, target);
    }
    let next = machine.pc.wrapping_add(4);
    set_reg(machine, rd, next);
    machine.pc = target;
    Effect::Went
}

#[inline(always)]
fn branch<M: Memory>(machine: &mut Machine<M>, taken: bool, target: u32) -> Effect
    ensures outcome { (i : Instr) → outcome_of M.bytes (end_by (machine_setting M.layout machine.old) (state_of M.bytes machine.old) i
        result machine.new.pc) machine.new ≡ steps.branches (machine_setting M.layout machine.old) (state_of M.bytes machine.old) i taken
        target }
    ensures setting { machine_setting M.layout machine.new ≡ machine_setting M.layout machine.old }
    ensures level { LevelBelow result machine.old.levels }
{
    if !taken {
        machine.pc = machine.pc.wrapping_add(4);
        return Effect::Went;
    }
    if target % 4 != 0 {
        return stops(TrapKind::MisalignedTarget, target);
    }
    machine.pc = target;
    Effect::Branched
}

#[inline(always)]
fn load_width(op: LoadOp) -> u32
    ensures is { result ≡ ops.load_width op }
    ensures small { result ≤ 4 }
{
    match op {
        LoadOp::Lb | LoadOp::Lbu => 1,
        LoadOp::Lh | LoadOp::Lhu => 2,
        LoadOp::Lw => 4,
    }
}

/// What a load puts into the register.
#[inline(always)]
fn loaded<M: Memory>(memory: &M, op: LoadOp, at: u32) -> u32
    requires { at + ops.load_width op ≤ 2 ^ 32 }
    ensures { result ≡ ops.loaded op (M.bytes memory.now) at }
{
    match op {
        LoadOp::Lb => i32::from(memory.byte(at).cast_signed()).cast_unsigned(),
        LoadOp::Lh => i32::from(access::half_at(memory, at).cast_signed()).cast_unsigned(),
        LoadOp::Lw => access::word_at(memory, at),
        LoadOp::Lbu => u32::from(memory.byte(at)),
        LoadOp::Lhu => u32::from(access::half_at(memory, at)),
    }
}

#[inline(always)]
fn load<M: Memory>(machine: &mut Machine<M>, op: LoadOp, rd: u8, at: u32) -> Effect
    requires { rd < 32 }
    ensures outcome { (i : Instr) → outcome_of M.bytes (end_by (machine_setting M.layout machine.old) (state_of M.bytes machine.old) i
        result machine.new.pc) machine.new ≡ steps.loads (machine_setting M.layout machine.old) (state_of M.bytes machine.old) i op rd at }
    ensures setting { machine_setting M.layout machine.new ≡ machine_setting M.layout machine.old }
    ensures level { LevelBelow result machine.old.levels }
{
    let pc = machine.pc;
    let width = load_width(op);
    if at % width != 0 {
        return stops(TrapKind::LoadMisaligned, at);
    }
    if access::uses_window(&machine.memory, pc, at, width) {
        let word = machine.window[((at - WINDOW_START) / 4) as usize];
        set(machine, rd, word);
    } else if access::can_read(&machine.memory, pc, at, width) {
        let value = loaded(&machine.memory, op, at);
        set(machine, rd, value);
    } else {
        return stops(TrapKind::LoadFault, at);
    }
    Effect::Went
}

#[inline(always)]
fn store_width(op: StoreOp) -> u32
    ensures is { result ≡ ops.store_width op }
    ensures small { result ≤ 4 }
{
    match op {
        StoreOp::Sb => 1,
        StoreOp::Sh => 2,
        StoreOp::Sw => 4,
    }
}

/// Stores the lowest bytes of the value.
#[inline(always)]
#[tactic(auto, using(scale_base::proofs::Laws::each_byte_first), unfolding(scale_base::specs::Layout::each_byte))]
fn put<M: Memory>(memory: &mut M, op: StoreOp, at: u32, value: u32)
    requires fits { at + ops.store_width op ≤ 2 ^ 32 }
    requires allowed { IsTrue (rules.can_write (M.layout memory.old) at (ops.store_width op)) }
    ensures bytes { M.bytes memory.new ≡ ops.stored op (M.bytes memory.old) at value }
    ensures layout { M.layout memory.new ≡ M.layout memory.old }
{
    if op == StoreOp::Sw && at % 4 == 0 {
        memory.set_word(at, value);
        return;
    }
    let [first, second, third, fourth] = value.to_le_bytes();
    memory.set_byte(at, first);
    if op != StoreOp::Sb {
        memory.set_byte(at + 1, second);
    }
    if op == StoreOp::Sw {
        memory.set_byte(at + 2, third);
        memory.set_byte(at + 3, fourth);
    }
}

/// Stores a word of the window, of which the last is the speed port.
#[inline(always)]
fn store_word<M: Memory>(machine: &mut Machine<M>, at: u32, value: u32) -> Effect
    requires { IsTrue (rules.in_window at) }
    ensures outcome { (i : Instr) → outcome_of M.bytes (end_by (machine_setting M.layout machine.old) (state_of M.bytes machine.old) i
        result machine.new.pc) machine.new ≡ steps.stores_word (machine_setting M.layout machine.old) (state_of M.bytes machine.old) i at
        value }
    ensures setting { machine_setting M.layout machine.new ≡ machine_setting M.layout machine.old }
    ensures level { LevelBelow result machine.old.levels }
{
    let index = ((at - WINDOW_START) / 4) as usize;
    if index == PORT && value >= u32::from(machine.levels) {
        return stops(TrapKind::StoreFault, at);
    }
    machine.window[index] = value;
    machine.pc = machine.pc.wrapping_add(4);
    if index == PORT {
        Effect::Switched(value as u8)
    } else {
        Effect::Went
    }
}

#[inline(always)]
fn store<M: Memory>(machine: &mut Machine<M>, op: StoreOp, at: u32, value: u32) -> Effect
    ensures outcome { (i : Instr) → outcome_of M.bytes (end_by (machine_setting M.layout machine.old) (state_of M.bytes machine.old) i
        result machine.new.pc) machine.new ≡ steps.stores (machine_setting M.layout machine.old) (state_of M.bytes machine.old) i op at
        value }
    ensures setting { machine_setting M.layout machine.new ≡ machine_setting M.layout machine.old }
    ensures level { LevelBelow result machine.old.levels }
{
    let pc = machine.pc;
    let width = store_width(op);
    if at % width != 0 {
        return stops(TrapKind::StoreMisaligned, at);
    }
    if access::uses_window(&machine.memory, pc, at, width) {
        return store_word(machine, at, value);
    }
    if !access::can_write(&machine.memory, at, width) {
        return stops(TrapKind::StoreFault, at);
    }
    put(&mut machine.memory, op, at, value);
    machine.pc = pc.wrapping_add(4);
    Effect::Went
}

/// A step that changes nothing but the pc.
#[inline(always)]
fn pass<M: Memory>(machine: &mut Machine<M>)
    ensures state { state_of M.bytes machine.new ≡ record (state_of M.bytes machine.old)
        { pc = steps.pc_after (state_of M.bytes machine.old) } }
    ensures setting { machine_setting M.layout machine.new ≡ machine_setting M.layout machine.old }
{
    machine.pc = machine.pc.wrapping_add(4);
}

/// What the instruction does.
#[inline(always)]
fn perform<M: Memory>(machine: &mut Machine<M>, instr: &Instr) -> Effect
    requires { FieldsInRange instr.now }
    ensures outcome { outcome_of M.bytes (end_by (machine_setting M.layout machine.old) (state_of M.bytes machine.old) instr.now result
        machine.new.pc) machine.new ≡ steps.performs (machine_setting M.layout machine.old) (state_of M.bytes machine.old) instr.now
        instr.now }
    ensures setting { machine_setting M.layout machine.new ≡ machine_setting M.layout machine.old }
    ensures level { LevelBelow result machine.old.levels }
{
    let pc = machine.pc;
    match *instr {
        Instr::Lui { rd, imm } => set(machine, rd, imm),
        Instr::Auipc { rd, imm } => set(machine, rd, pc.wrapping_add(imm)),
        Instr::Jal { rd, offset } => return jump(machine, rd, pc.wrapping_add_signed(offset)),
        Instr::Jalr { rd, rs1, offset } => {
            let to = reg_at(machine, rs1).wrapping_add_signed(offset);
            return jump(machine, rd, to - to % 2);
        }
        Instr::Branch {
            op,
            rs1,
            rs2,
            offset,
        } => {
            let taken = arith::is_taken(op, reg_at(machine, rs1), reg_at(machine, rs2));
            return branch(machine, taken, pc.wrapping_add_signed(offset));
        }
        Instr::Load {
            op,
            rd,
            rs1,
            offset,
        } => {
            let at = reg_at(machine, rs1).wrapping_add_signed(offset);
            return load(machine, op, rd, at);
        }
        Instr::Imm { op, rd, rs1, imm } => {
            let value = arith::reg_result(
                arith::reg_op_for(op),
                reg_at(machine, rs1),
                imm.cast_unsigned(),
            );
            set(machine, rd, value);
        }
        Instr::Reg { op, rd, rs1, rs2 } => {
            let value = arith::reg_result(op, reg_at(machine, rs1), reg_at(machine, rs2));
            set(machine, rd, value);
        }
        Instr::Store {
            op,
            rs1,
            rs2,
            offset,
        } => {
            let at = reg_at(machine, rs1).wrapping_add_signed(offset);
            let value = reg_at(machine, rs2);
            return store(machine, op, at, value);
        }
        Instr::Fence { .. } => pass(machine),
        Instr::Ecall => return service(machine),
        Instr::Ebreak => return stops(TrapKind::Breakpoint, pc),
    }
    Effect::Went
}
