//! The words of a text, and what each says of the way on.

use crate::programs::{
    BREAKPOINT, ECALL, EXIT, NO_OPERATION, RETURN, expect_same, image_of, view_of,
};
use code_text::{TextWords, read_words};
use cost_theory::Flow;
use std::alloc::Global;
use std::process::Abort;
use std::test::Fail;

/// A fence with register 17 in the place of a destination, which it doesn't write.
const FENCE: u32 = 0x0000_088F;

/// The number of no service is put into register 17.
const OTHER: u32 = 0x0010_0893;

fn words_of(alloc: Global, words: &[u32]) -> Result<TextWords, Fail> {
    let file = image_of(alloc, words)?;
    let view = view_of(alloc, &file)?;
    Ok(read_words(alloc, &view)?)
}

fn kind_of(words: &TextWords, at: u32) -> Option<Flow> {
    let k = words.find(at)?;
    if k < words.count() && words.address(k) == at {
        Some(words.kind(k))
    } else {
        None
    }
}

fn expect_kinds(
    rt: &impl Abort,
    alloc: Global,
    words: &[u32],
    kinds: &[(u32, Flow)],
) -> Result<(), Fail> {
    let words = words_of(alloc, words)?;
    expect_same(rt, 0, words.count(), 40);
    for (at, want) in kinds {
        expect_same(rt, u64::from(*at), kind_of(&words, *at), Some(*want));
    }
    Ok(())
}

/// The first twenty words of a text, of which the others do nothing.
const WAYS: [u32; 20] = [
    EXIT,
    NO_OPERATION,
    ECALL,
    0x0000_0663,
    EXIT,
    NO_OPERATION,
    ECALL,
    EXIT,
    FENCE,
    ECALL,
    0x0280_00EF,
    OTHER,
    ECALL,
    RETURN,
    0x0040_8067,
    0x0080_016F,
    0x0080_006F,
    BREAKPOINT,
    0,
    ECALL,
];

static KINDS: [(u32, Flow); 14] = [
    (0x10000, Flow::Next),
    (0x10008, Flow::Exit),
    (0x1000C, Flow::Branch(0x10018)),
    (0x10018, Flow::MayExit),
    (0x10024, Flow::Exit),
    (0x10028, Flow::Call(0x10050)),
    (0x10030, Flow::Next),
    (0x10034, Flow::Return),
    (0x10038, Flow::Refused),
    (0x1003C, Flow::Refused),
    (0x10040, Flow::Jump(0x10048)),
    (0x10044, Flow::Breakpoint),
    (0x10048, Flow::Refused),
    (0x1004C, Flow::MayExit),
];

#[test]
fn says_the_way_on_of_each_word(rt: HostRuntime) -> Result<(), Fail> {
    let mut code = [NO_OPERATION; 40];
    for k in 0..20 {
        code[k] = WAYS[k];
    }
    expect_kinds(&rt, rt.alloc(), &code, &KINDS)
}

static FAR_BACK: [(u32, Flow); 2] = [(0x10040, Flow::Exit), (0x10088, Flow::MayExit)];

#[test]
fn looks_sixteen_words_back(rt: HostRuntime) -> Result<(), Fail> {
    let mut code = [NO_OPERATION; 40];
    code[0] = EXIT;
    code[16] = ECALL;
    code[17] = EXIT;
    code[34] = ECALL;
    expect_kinds(&rt, rt.alloc(), &code, &FAR_BACK)
}

/// Addresses, and the words there.
static PLACES: [(u32, Option<usize>); 5] = [
    (0x10000, Some(0)),
    (0x1009C, Some(39)),
    (0xFFFC, None),
    (0x10002, None),
    (0x100A0, None),
];

#[test]
fn finds_the_words_alone(rt: HostRuntime) -> Result<(), Fail> {
    let words = words_of(rt.alloc(), &[NO_OPERATION; 40])?;
    for (at, want) in &PLACES {
        expect_same(&rt, u64::from(*at), words.find(*at), *want);
    }
    Ok(())
}
