//! Trees of comparisons.

ghost use Rattle.std.specs.Prelude.{◌≡◌, ◌≤◌, ◌<◌, ◌+◌, ◌-◌, ◌*◌, ◌%◌, ◌^◌, ◌++◌, ◌==◌, max, length, filter, IfOk, OnOk, All, true};
ghost use Rattle.std.specs.List.{list_all};
ghost use Rattle.scale_base.specs.Word.{FieldsInRange};
ghost use Rattle.stub_writer.specs.Fragments as fragments;
ghost use Rattle.stub_writer.specs.Stubs as stubs;
ghost use Rattle.image_lower.specs.Trees as trees;

use crate::far::distance;
use scale_base::{BranchOp, ImmOp, Instr, NoMemory};
use std::alloc::Global;

/// An address that may have passed the end of the address space.
pub fn address(place: u64) -> u32
    ensures { result ≡ place % 2 ^ 32 }
{
    (place % 0x1_0000_0000) as u32
}

/// `jal x0` from an address to another.
pub fn jump(from: u64, to: u64) -> Instr
    ensures { result ≡ stubs.jump from to }
{
    Instr::Jal {
        rd: 0,
        offset: distance(address(from), address(to)),
    }
}

fn upper_part(c: u32) -> u32
    ensures { result ≡ fragments.hi c }
{
    c.wrapping_add(0x800) / 4096 * 4096
}

fn lower_part(c: u32) -> i32
    ensures { result ≡ fragments.lo c }
{
    let low = (c % 4096) as i32;
    if low < 2048 { low } else { low - 4096 }
}

fn has_bit(bit: u32, x: u32) -> bool
    requires { bit < 32 }
    ensures { result ≡ trees.has_bit bit x }
{
    x >> bit & 1 == 1
}

fn are_alike(bit: u32, xs: &[u32]) -> bool
    requires { bit < 32 }
    ensures { result ≡ trees.are_alike bit xs.now }
{
    all_have(bit, xs) || all_lack(bit, xs)
}

fn all_have(bit: u32, xs: &[u32]) -> bool
    requires { bit < 32 }
    ensures { result ≡ list_all (trees.has_bit bit) xs.now }
{
    for x in xs {
        if !has_bit(bit, *x) {
            return false;
        }
    }
    true
}

fn all_lack(bit: u32, xs: &[u32]) -> bool
    requires { bit < 32 }
    ensures { result ≡ list_all (trees.lacks_bit bit) xs.now }
{
    for x in xs {
        if has_bit(bit, *x) {
            return false;
        }
    }
    true
}

fn having(alloc: Global, bit: u32, xs: &[u32]) -> Result<Vec<u32>, NoMemory>
    requires { bit < 32 }
    ensures { IfOk result (λ ys. ys.items ≡ filter (trees.has_bit bit) xs.now) }
{
    let mut ys = Vec::new(alloc);
    for x in xs {
        if has_bit(bit, *x) {
            ys.push(*x)?;
        }
    }
    Ok(ys)
}

fn lacking(alloc: Global, bit: u32, xs: &[u32]) -> Result<Vec<u32>, NoMemory>
    requires { bit < 32 }
    ensures { IfOk result (λ ys. ys.items ≡ filter (trees.lacks_bit bit) xs.now) }
{
    let mut ys = Vec::new(alloc);
    for x in xs {
        if !has_bit(bit, *x) {
            ys.push(*x)?;
        }
    }
    Ok(ys)
}

fn leaf(alloc: Global, rs: u8, at: u64, to: u32) -> Result<Vec<Instr>, NoMemory>
    requires { at < 2 ^ 40 }
    ensures { IfOk result (λ code. code.items ≡ trees.leaf rs at to) }
{
    let code = [
        Instr::Lui {
            rd: rs,
            imm: upper_part(to),
        },
        Instr::Imm {
            op: ImmOp::Addi,
            rd: rs,
            rs1: rs,
            imm: lower_part(to),
        },
        jump(at + 8, u64::from(to)),
    ];
    Ok(Vec::from_array(alloc, code)?)
}

fn fork(
    alloc: Global,
    rs: u8,
    shift: u32,
    lacking: &[Instr],
    having: &[Instr],
) -> Result<Vec<Instr>, NoMemory>
    requires shift { shift < 32 }
    requires short { length lacking.now ≤ 1000 }
    ensures { IfOk result (λ code. code.items ≡ trees.fork rs shift lacking.now having.now) }
{
    let head = [
        Instr::Imm {
            op: ImmOp::Slli,
            rd: rs,
            rs1: rs,
            imm: shift as i32,
        },
        Instr::Branch {
            op: BranchOp::Blt,
            rs1: rs,
            rs2: 0,
            offset: 4 + 4 * lacking.len() as i32,
        },
    ];
    let mut code = Vec::from_array(alloc, head)?;
    code.extend_from_slice(lacking)?;
    code.extend_from_slice(having)?;
    Ok(code)
}

/// In how many of their lowest bits targets may differ, and by how many the register has been shifted.
#[derive(Clone, Copy)]
pub struct BitsLeft {
    pub bits: u32,
    pub shifted: u32,
}

/// The tree of targets that differ in their lowest bits alone.
#[tactic(auto, unfolding(crate::specs::Trees::tree))]
pub fn tree(
    alloc: Global,
    rs: u8,
    left: BitsLeft,
    at: u64,
    targets: &[u32],
) -> Result<Vec<Instr>, NoMemory>
    requires bits { left.bits ≤ 32 }
    requires at { at + 20 * length targets.now < 2 ^ 40 }
    requires few { length targets.now ≤ 128 }
    requires some { 1 ≤ length targets.now }
    ensures code { IfOk result (λ code. code.items ≡ trees.tree rs left.bits left.shifted at targets.now) }
    ensures short { IfOk result (λ code. length code.items + 2 ≤ 5 * length targets.now) }
{
    let BitsLeft { bits, shifted } = left;
    if bits == 0 {
        return leaf(alloc, rs, at, targets[0]);
    }
    let bit = bits - 1;
    if are_alike(bit, targets) {
        return tree(alloc, rs, BitsLeft { bits: bit, shifted }, at, targets);
    }
    let without = lacking(alloc, bit, targets)?;
    let with = having(alloc, bit, targets)?;
    let within = BitsLeft {
        bits: bit,
        shifted: 31 - bit,
    };
    let first = tree(alloc, rs, within, at + 8, &without)?;
    let second_at = at + 8 + 4 * first.len() as u64;
    let second = tree(alloc, rs, within, second_at, &with)?;
    fork(
        alloc,
        rs,
        (31 - bit).saturating_sub(shifted),
        &first,
        &second,
    )
}

/// The tree of targets, whose instructions have words where its jumps fit.
#[tactic(auto, using(crate::proofs::TreeFields::tree_has_words))]
pub fn whole_tree(alloc: Global, rs: u8, at: u64, targets: &[u32]) -> Result<Vec<Instr>, NoMemory>
    requires register { rs < 32 }
    requires at { at < 2 ^ 36 }
    requires few { length targets.now ≤ 128 }
    requires some { 1 ≤ length targets.now }
    ensures code { IfOk result (λ code. code.items ≡ trees.whole_tree rs at targets.now) }
    ensures short { IfOk result (λ code. length code.items ≤ 638) }
    ensures fields { IfOk result (λ code. list_all trees.fits code.items ≡ true → All FieldsInRange code.items) }
{
    let all = BitsLeft {
        bits: 32,
        shifted: 0,
    };
    let code = tree(alloc, rs, all, at, targets)?;
    Ok(code)
}

/// The greatest number of branches on a way through a tree.
#[tactic(auto, unfolding(crate::specs::Trees::tree_depth))]
pub fn tree_depth(alloc: Global, bits: u32, targets: &[u32]) -> Result<u32, NoMemory>
    requires { bits ≤ 32 }
    ensures depth { IfOk result (λ depth. depth ≡ trees.tree_depth bits targets.now) }
    ensures small { IfOk result (λ depth. depth ≤ bits) }
{
    if bits == 0 {
        return Ok(0);
    }
    let bit = bits - 1;
    if are_alike(bit, targets) {
        return tree_depth(alloc, bit, targets);
    }
    let without = lacking(alloc, bit, targets)?;
    let with = having(alloc, bit, targets)?;
    let first = tree_depth(alloc, bit, &without)?;
    let second = tree_depth(alloc, bit, &with)?;
    Ok(1 + first.max(second))
}
