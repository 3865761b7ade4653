//! The words of lines of assembly, images of words, and made programs with their files.

use crate::fixtures::{PLAIN, expect_words, words_text};
use image_maker::{AsmError, Line, Made, assemble, make, plain_image};
use scale_base::{BranchOp, ImmOp, Instr};
use std::alloc::{AllocError, Global};
use std::fmt::Write;
use std::process::Abort;
use std::test::Fail;

/// Words in hexadecimal digits.
fn push_words(text: &mut String, words: &[u32]) -> Result<(), AllocError> {
    for word in words {
        write!(text, "{word:08x} ")?;
    }
    Ok(())
}

fn words_line(alloc: Global, words: &[u32]) -> Result<String, Fail> {
    let mut text = String::new(alloc);
    push_words(&mut text, words)?;
    Ok(text)
}

fn error_text(alloc: Global, error: AsmError) -> Result<String, Fail> {
    Ok(format!(in alloc; "{error:?}")?)
}

/// The words of lines, or what is wrong with them.
fn assembled(alloc: Global, lines: &[Line]) -> Result<String, Fail> {
    if lines.len() > 131_072 {
        return words_text(alloc, "too many lines");
    }
    match assemble(alloc, lines) {
        Ok(words) => words_line(alloc, &words),
        Err(error) => error_text(alloc, error),
    }
}

/// Lines, and the words that an assembler of another hand gave. Then lines that are wrong: the least label or line is named, and a label that stands twice before one
/// that isn't there, and that before a line without a word.
static LINES: [(&[Line], &str); 7] = [
    (
        &[
            Line::JalTo { rd: 1, label: 2 },
            Line::BranchTo {
                op: BranchOp::Bne,
                rs1: 5,
                rs2: 0,
                label: 1,
            },
            Line::Label(1),
            Line::Op(Instr::Ecall),
            Line::Label(2),
            Line::BranchTo {
                op: BranchOp::Beq,
                rs1: 5,
                rs2: 6,
                label: 2,
            },
            Line::Op(Instr::Imm {
                op: ImmOp::Addi,
                rd: 10,
                rs1: 0,
                imm: 7,
            }),
            Line::BranchTo {
                op: BranchOp::Blt,
                rs1: 0,
                rs2: 5,
                label: 1,
            },
        ],
        "00c000ef 00029263 00000073 00628063 00700513 fe504ae3 ",
    ),
    (
        &[Line::Label(5), Line::JalTo { rd: 0, label: 5 }],
        "0000006f ",
    ),
    (&[Line::JalTo { rd: 0, label: 5 }], "NoLabel(5)"),
    (
        &[
            Line::Label(5),
            Line::Label(5),
            Line::JalTo { rd: 0, label: 6 },
        ],
        "TwoLabels(5)",
    ),
    (
        &[
            Line::Op(Instr::Imm {
                op: ImmOp::Addi,
                rd: 32,
                rs1: 0,
                imm: 0,
            }),
            Line::Label(9),
            Line::Label(9),
            Line::Label(7),
            Line::JalTo { rd: 0, label: 1 },
            Line::Label(7),
            Line::Label(8),
            Line::Label(8),
        ],
        "TwoLabels(7)",
    ),
    (
        &[
            Line::Op(Instr::Imm {
                op: ImmOp::Addi,
                rd: 32,
                rs1: 0,
                imm: 0,
            }),
            Line::JalTo { rd: 0, label: 9 },
            Line::JalTo { rd: 0, label: 3 },
            Line::BranchTo {
                op: BranchOp::Beq,
                rs1: 0,
                rs2: 0,
                label: 4,
            },
        ],
        "NoLabel(3)",
    ),
    (
        &[
            Line::Label(0),
            Line::Op(Instr::Imm {
                op: ImmOp::Addi,
                rd: 1,
                rs1: 0,
                imm: 2047,
            }),
            Line::Op(Instr::Imm {
                op: ImmOp::Addi,
                rd: 1,
                rs1: 0,
                imm: 2048,
            }),
            Line::BranchTo {
                op: BranchOp::Beq,
                rs1: 32,
                rs2: 0,
                label: 0,
            },
        ],
        "Unfit(2)",
    ),
];

#[test]
fn goes_to_labels_both_ways_and_tells_what_is_wrong(rt: HostRuntime) -> Result<(), Fail> {
    for (lines, expected) in &LINES {
        expect_words(&rt, expected, assembled(rt.alloc(), lines), expected)?;
    }
    Ok(())
}

const NO_OPERATION: Line = Line::Op(Instr::Imm {
    op: ImmOp::Addi,
    rd: 0,
    rs1: 0,
    imm: 0,
});

const BRANCH: Line = Line::BranchTo {
    op: BranchOp::Beq,
    rs1: 0,
    rs2: 0,
    label: 1,
};

/// A branch to a label behind so many words.
fn lines_over(alloc: Global, count: u32) -> Result<Vec<Line>, Fail> {
    let mut lines = Vec::from_slice(alloc, &[BRANCH])?;
    for _ in 0..count {
        lines.push(NO_OPERATION)?;
    }
    lines.push(Line::Label(1))?;
    Ok(lines)
}

/// How many words there are, with the first and the last one.
fn ends_text(alloc: Global, words: &[u32]) -> Result<String, Fail> {
    let first = words.first().copied().unwrap_or(0);
    let last = words.last().copied().unwrap_or(0);
    Ok(format!(in alloc; "{} {first:08x} {last:08x}", words.len())?)
}

fn assembled_ends(alloc: Global, lines: &[Line]) -> Result<String, Fail> {
    if lines.len() > 131_072 {
        return words_text(alloc, "too many lines");
    }
    match assemble(alloc, lines) {
        Ok(words) => ends_text(alloc, &words),
        Err(error) => error_text(alloc, error),
    }
}

fn branch_over(alloc: Global, count: u32) -> Result<String, Fail> {
    let lines = lines_over(alloc, count)?;
    assembled_ends(alloc, &lines)
}

/// A branch reaches 4,092 bytes forwards, the last multiple of 4 in its field, and no further.
static REACH: [(u32, &str); 2] = [(1022, "1023 7e000ee3 00000013"), (1023, "Unfit(0)")];

#[test]
fn branches_end_where_their_field_does(rt: HostRuntime) -> Result<(), Fail> {
    for (count, expected) in &REACH {
        expect_words(&rt, expected, branch_over(rt.alloc(), *count), expected)?;
    }
    Ok(())
}

/// As many lines as there may be, half of them labels that the others go to.
fn many_lines(alloc: Global) -> Result<Vec<Line>, Fail> {
    let mut lines = Vec::new(alloc);
    for k in 0..65_536 {
        let label = 65_535 - k;
        lines.push(Line::Label(label))?;
        lines.push(Line::JalTo { rd: 0, label })?;
    }
    Ok(lines)
}

fn are_jumps(words: &[u32]) -> bool {
    words.iter().all(|word| *word == 0x6F)
}

fn expect_jumps(rt: &impl Abort, words: &[u32]) {
    assert_eq!(rt; words.len(), 65_536);
    assert!(rt; are_jumps(words));
}

/// This takes no time that is seen.
#[test]
fn assembles_many_lines(rt: HostRuntime) -> Result<(), Fail> {
    let lines = many_lines(rt.alloc())?;
    if lines.len() > 131_072 {
        return Err("too many lines".into());
    }
    expect_jumps(&rt, &assemble(rt.alloc(), &lines)?);
    Ok(())
}

/// A program of three words that ends with status 7.
#[test]
fn writes_a_plain_image(rt: HostRuntime) -> Result<(), Fail> {
    let file = plain_image(rt.alloc(), &[0x0070_0513, 0x05D0_0893, 0x0000_0073])?;
    assert_eq!(rt; file.as_slice(), PLAIN.as_slice());
    Ok(())
}

/// The length of some bytes, and a number of 32 bits that any change of them is likely to change.
fn sums(bytes: &[u8]) -> (usize, u32) {
    let mut sum = 0u32;
    for byte in bytes {
        sum = sum.wrapping_mul(31).wrapping_add(u32::from(*byte));
    }
    (bytes.len(), sum)
}

fn made(alloc: Global, number: u64, size: u32) -> Result<Made, Fail> {
    if size > 2000 {
        return Err("too many blocks".into());
    }
    Ok(make(alloc, number, size)?)
}

/// A number and a size; and the sums of an image, its machine file, its loop file and its input.
type MadeRow = (u64, u32, &'static [(usize, u32)]);

/// Files that a program of another hand made: one block that calls, 200 blocks, and 2,000 blocks with one loop more than are
/// counted. The loop file of the first is `version = 1` and a newline.
static MADE: [MadeRow; 3] = [
    (
        0,
        1,
        &[
            (212, 3_994_385_255),
            (294, 2_133_017_885),
            (12, 4_132_590_340),
            (256, 1_130_662_098),
        ],
    ),
    (
        7,
        200,
        &[
            (4164, 1_369_463_080),
            (297, 3_073_624_181),
            (4192, 1_682_774_961),
            (256, 2_865_374_227),
        ],
    ),
    (
        2,
        2000,
        &[
            (42712, 1_177_978_811),
            (298, 4_133_171_993),
            (39112, 631_083_726),
            (256, 1_963_900_192),
        ],
    ),
];

fn expect_sums(rt: &impl Abort, made: &Made, want: &[(usize, u32)]) {
    let found = [
        sums(&made.image),
        sums(&made.machine),
        sums(&made.loops),
        sums(&made.input),
    ];
    assert_eq!(rt; found.as_slice(), want);
}

#[test]
fn makes_files(rt: HostRuntime) -> Result<(), Fail> {
    for (number, size, want) in &MADE {
        let made = made(rt.alloc(), *number, *size)?;
        expect_sums(&rt, &made, want);
    }
    Ok(())
}
