//! What is read of the keyed segments of images of other make: fragments, run-outs and stubs.

use crate::fixtures::*;
use elf_image::ImageView;
use elf_view::read_image;
use foreign_scan::{
    ForeignFragment, KeyCode, StubFragments, read_fragment, read_key, read_run_out, read_stub,
};
use scale_base::{BranchOp, Instr};
use std::alloc::{AllocError, Global};
use std::fmt::Write;
use std::process::Abort;
use std::test::Fail;

/// The stub of the branch of `READ_ALL`: an Exit with its table at 0x11060, or a Count.
const COUNTED: [u32; 24] = [
    0x04051463, 0x80502023, 0x80602223, 0x80802283, 0x0002D293, 0x00229293, 0x00011337, 0x006282B3,
    0x0602A303, 0xFFC02283, 0x00229293, 0x00535333, 0x00F37313, 0x80002423, 0xFE602E23, 0x80402303,
    0x80002283, 0xFD5FE06F, 0x80502023, 0x80802283, 0x00128293, 0x80502423, 0x80002283, 0xFADFE06F,
];

/// A Reset of counter 2.
const RESET: u32 = 0x80002423;

/// A file of two words of text, whose keyed segment at 0x11000 has so many bytes of the words.
fn file_of(alloc: Global, key: &[u32], len: u32) -> Result<Vec<u8>, Fail> {
    let mut file = file_head(
        alloc,
        0x10000,
        &[
            [1, 116, 0x10000, 0x10000, 8, 8, 5, 4],
            [1, 124, 0x11000, 1, len, len, 0x00100005, 4],
        ],
    )?;
    push_words(&mut file, &[0x05D00893, 0x73])?;
    push_words(&mut file, key)?;
    Ok(file)
}

fn push_fragment(text: &mut String, fragment: ForeignFragment) -> Result<(), AllocError> {
    match fragment {
        ForeignFragment::Switch { word } => write!(text, " switch {word:#x}"),
        ForeignFragment::Exit {
            counter,
            shift,
            table,
        } => write!(text, " exit {counter} {shift} {table:#x}"),
        ForeignFragment::Reset { counter } => write!(text, " reset {counter}"),
        ForeignFragment::Count { counter } => write!(text, " count {counter}"),
    }
}

pub fn push_fragments(text: &mut String, fragments: &[ForeignFragment]) -> Result<(), AllocError> {
    for fragment in fragments {
        push_fragment(text, *fragment)?;
    }
    Ok(())
}

/// What is asked of a key: the fragment at an address, how many fragments the run-out at 0x11000 to 0x10004 has, or the stub of an instruction.
#[derive(Clone, Copy)]
enum Asked {
    Fragment(u32),
    RunOut,
    Stub { at: u32, stub: u32, instr: Instr },
}

fn push_found(text: &mut String, found: Option<ForeignFragment>) -> Result<(), AllocError> {
    match found {
        Some(fragment) => push_fragment(text, fragment),
        None => text.push_str("none"),
    }
}

fn fragment_text(alloc: Global, code: &KeyCode<'_>, at: u32) -> Result<String, Fail> {
    let mut text = String::new(alloc);
    push_found(&mut text, read_fragment(code, u64::from(at)))?;
    Ok(text)
}

fn count_text(alloc: Global, count: usize) -> Result<String, Fail> {
    Ok(format!(in alloc; "{count} fragments")?)
}

fn run_out_text(alloc: Global, code: &KeyCode<'_>) -> Result<String, Fail> {
    match read_run_out(alloc, code, 0x11000, 0x10004)? {
        Some(fragments) => count_text(alloc, fragments.len()),
        None => words_text(alloc, "none"),
    }
}

fn push_branch(
    text: &mut String,
    untaken: &[ForeignFragment],
    taken: &[ForeignFragment],
) -> Result<(), AllocError> {
    text.push_str("untaken")?;
    push_fragments(text, untaken)?;
    text.push_str(" taken")?;
    push_fragments(text, taken)
}

fn push_jump(text: &mut String, fragments: &[ForeignFragment]) -> Result<(), AllocError> {
    text.push_str("jump")?;
    push_fragments(text, fragments)
}

fn push_stub(text: &mut String, stub: &StubFragments) -> Result<(), AllocError> {
    match stub {
        StubFragments::Branch { untaken, taken } => push_branch(text, untaken, taken),
        StubFragments::Jump { fragments } => push_jump(text, fragments),
    }
}

fn found_text(alloc: Global, stub: &StubFragments) -> Result<String, Fail> {
    let mut text = String::new(alloc);
    push_stub(&mut text, stub)?;
    Ok(text)
}

fn stub_text(
    alloc: Global,
    code: &KeyCode<'_>,
    at: u32,
    stub: u32,
    instr: &Instr,
) -> Result<String, Fail> {
    match read_stub(alloc, code, at, stub, instr)? {
        Some(found) => found_text(alloc, &found),
        None => words_text(alloc, "none"),
    }
}

fn answer(alloc: Global, code: &KeyCode<'_>, asked: &Asked) -> Result<String, Fail> {
    match asked {
        Asked::Fragment(at) => fragment_text(alloc, code, *at),
        Asked::RunOut => run_out_text(alloc, code),
        Asked::Stub { at, stub, instr } => stub_text(alloc, code, *at, *stub, instr),
    }
}

fn key_answer(alloc: Global, view: &ImageView<'_>, asked: &Asked) -> Result<String, Fail> {
    let code = read_key(alloc, view)?;
    answer(alloc, &code, asked)
}

fn image_answer(alloc: Global, file: &[u8], asked: &Asked) -> Result<String, Fail> {
    match read_image(alloc, file) {
        Ok(view) => key_answer(alloc, &view, asked),
        Err(_) => Err("a refusal".into()),
    }
}

/// The answer of a key of so many bytes of the words.
fn answer_of(alloc: Global, words: &[u32], len: u32, asked: &Asked) -> Result<String, Fail> {
    let file = file_of(alloc, words, len)?;
    image_answer(alloc, &file, asked)
}

fn check_answers(
    rt: &impl Abort,
    alloc: Global,
    rows: &[(&[u32], u32, Asked, &str)],
) -> Result<(), Fail> {
    for (k, (words, len, asked, expected)) in rows.iter().enumerate() {
        expect_text(rt, k, answer_of(alloc, words, *len, asked), expected)?;
    }
    Ok(())
}

/// Each fragment is read, and resets of shadow counters alone.
static FRAGMENTS: [(&[u32], u32, Asked, &str); 10] = [
    (&SWITCHED, 56, Asked::Fragment(0x11008), " switch 0x100"),
    (&COUNTED, 96, Asked::Fragment(0x11004), " exit 2 0 0x11060"),
    (&COUNTED, 96, Asked::Fragment(0x11048), " count 2"),
    (&COUNTED, 96, Asked::Fragment(0x11034), " reset 2"),
    (&SWITCHED, 56, Asked::Fragment(0x1100C), "none"),
    (&SWITCHED, 56, Asked::Fragment(0x1100A), "none"),
    (&SWITCHED, 56, Asked::Fragment(0x10000), "none"),
    (&[0x80002223], 4, Asked::Fragment(0x11000), "none"),
    (&[0xFE002E23], 4, Asked::Fragment(0x11000), "none"),
    (&[0xFE002C23], 4, Asked::Fragment(0x11000), " reset 510"),
];

#[test]
fn each_fragment_is_read(rt: HostRuntime) -> Result<(), Fail> {
    check_answers(&rt, rt.alloc(), &FRAGMENTS)
}

/// The stub of the branch of `READ_ONE`.
const BRANCH_STUB: Asked = Asked::Stub {
    at: 0x10010,
    stub: 0x11000,
    instr: BRANCH,
};

/// beq x10,x0,28
const BRANCH: Instr = Instr::Branch {
    op: BranchOp::Beq,
    rs1: 10,
    rs2: 0,
    offset: 28,
};

const JUMP: Instr = Instr::Jal { rd: 0, offset: 4 };

#[test]
fn each_word_of_a_stub_matters(rt: HostRuntime) -> Result<(), Fail> {
    for k in 0..14 {
        let mut words = SWITCHED;
        words[k] = 0x13;
        expect_text(
            &rt,
            k,
            answer_of(rt.alloc(), &words, 56, &BRANCH_STUB),
            "none",
        )?;
    }
    Ok(())
}

/// The stub of a branch, and that of a jump; and stubs of other words, that stand elsewhere, or of other instructions.
static STUBS: [(&[u32], u32, Asked, &str); 10] = [
    (&SWITCHED, 56, BRANCH_STUB, "untaken taken switch 0x100"),
    (
        &[RESET, 0x800FF06F],
        8,
        Asked::Stub {
            at: 0x10000,
            stub: 0x11000,
            instr: JUMP,
        },
        "jump reset 2",
    ),
    (
        &[RESET, 0x800FF06F],
        8,
        Asked::Stub {
            at: 0x10004,
            stub: 0x11000,
            instr: JUMP,
        },
        "none",
    ),
    (
        &SWITCHED,
        56,
        Asked::Stub {
            at: 0x10010,
            stub: 0x11002,
            instr: BRANCH,
        },
        "none",
    ),
    (
        &SWITCHED,
        56,
        Asked::Stub {
            at: 0x10010,
            stub: 0x11004,
            instr: BRANCH,
        },
        "none",
    ),
    (&SWITCHED, 54, BRANCH_STUB, "none"),
    (
        &SWITCHED,
        56,
        Asked::Stub {
            at: 0x10010,
            stub: 0x11000,
            instr: Instr::Branch {
                op: BranchOp::Beq,
                rs1: 10,
                rs2: 0,
                offset: 32,
            },
        },
        "none",
    ),
    (
        &SWITCHED,
        56,
        Asked::Stub {
            at: 0x10014,
            stub: 0x11000,
            instr: Instr::Branch {
                op: BranchOp::Beq,
                rs1: 10,
                rs2: 0,
                offset: 24,
            },
        },
        "none",
    ),
    (
        &SWITCHED,
        56,
        Asked::Stub {
            at: 0x10010,
            stub: 0x11000,
            instr: Instr::Branch {
                op: BranchOp::Bne,
                rs1: 10,
                rs2: 0,
                offset: 28,
            },
        },
        "none",
    ),
    (
        &SWITCHED,
        56,
        Asked::Stub {
            at: 0x10010,
            stub: 0x11000,
            instr: Instr::Ecall,
        },
        "none",
    ),
];

#[test]
fn stubs_of_jumps_and_stubs_that_stand_elsewhere(rt: HostRuntime) -> Result<(), Fail> {
    check_answers(&rt, rt.alloc(), &STUBS)
}

/// An Exit, a Reset and a Count.
const THREE_FRAGMENTS: [u32; 23] = [
    0x80502023, 0x80602223, 0x80802283, 0x0002D293, 0x00229293, 0x00011337, 0x006282B3, 0x0602A303,
    0xFFC02283, 0x00229293, 0x00535333, 0x00F37313, 0x80002423, 0xFE602E23, 0x80402303, 0x80002283,
    0x80002423, 0x80502023, 0x80802283, 0x00128293, 0x80502423, 0x80002283, 0xFADFE06F,
];

/// Two Switches.
const TWO_SWITCHES: [u32; 23] = [
    0x80502023, 0x80602223, 0xFFC02283, 0x00229293, 0x00000337, 0x10030313, 0x00535333, 0x00F37313,
    0xFE602E23, 0x80402303, 0x80002283, 0x80502023, 0x80602223, 0xFFC02283, 0x00229293, 0x00000337,
    0x10030313, 0x00535333, 0x00F37313, 0xFE602E23, 0x80402303, 0x80002283, 0xFADFE06F,
];

/// Run-outs in which at most the first fragment chooses.
static RUN_OUTS: [(&[u32], u32, Asked, &str); 2] = [
    (&THREE_FRAGMENTS, 92, Asked::RunOut, "3 fragments"),
    (&TWO_SWITCHES, 92, Asked::RunOut, "none"),
];

/// So many resets, and a jump.
fn resets(alloc: Global, count: usize, jump: u32) -> Result<Vec<u32>, Fail> {
    let mut words = vec![in alloc; RESET; count]?;
    words.push(jump)?;
    Ok(words)
}

/// How many resets, the jump behind them, the bytes of the key, and the answer.
static MANY: [(usize, u32, u32, &str); 2] = [
    (64, 0xF05FE06F, 260, "64 fragments"),
    (65, 0xF01FE06F, 264, "none"),
];

fn resets_answer(alloc: Global, count: usize, jump: u32, len: u32) -> Result<String, Fail> {
    let words = resets(alloc, count, jump)?;
    answer_of(alloc, &words, len, &Asked::RunOut)
}

#[test]
fn at_most_sixty_four_fragments(rt: HostRuntime) -> Result<(), Fail> {
    for (k, (count, jump, len, expected)) in MANY.iter().enumerate() {
        expect_text(
            &rt,
            k,
            resets_answer(rt.alloc(), *count, *jump, *len),
            expected,
        )?;
    }
    Ok(())
}

#[test]
fn at_most_the_first_fragment_chooses(rt: HostRuntime) -> Result<(), Fail> {
    check_answers(&rt, rt.alloc(), &RUN_OUTS)
}
