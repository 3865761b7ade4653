//! The jumps through registers that a draft of a jump file doesn't list, each with its reason, also those that the file doesn't tell of. Whole drafts are
//! data, `jumps.txt` of the second program's `cases`.

use crate::programs::{expect_text, image_of};
use jump_drafts::{OpenJump, draft_jumps};
use std::alloc::{AllocError, Global};
use std::fmt::Write;
use std::test::Fail;

/// A call by a pointer, and behind the exit a jump that no code leads to; a return is neither listed nor open.
const POINTERS: [u32; 7] = [
    0x0001_02B7, // lui t0,0x10
    0x0142_8293, // addi t0,t0,20
    0x0002_80E7, // jalr t0
    0x05D0_0893, // li a7,93
    0x0000_0073, // ecall
    0x0000_8067, // 10014: ret
    0x0002_8067, // jr t0
];

/// A far jump, which `lower` makes near.
const FAR: [u32; 5] = [
    0x0000_0297, // auipc t0,0
    0x00C2_8067, // jr 12(t0)
    0x0000_0013, // nop
    0x05D0_0893, // 1000c: li a7,93
    0x0000_0073, // ecall
];

fn push_other(text: &mut String, other: OpenJump) -> Result<(), AllocError> {
    let OpenJump { at, reason } = other;
    write!(text, "0x{at:x}: {reason}; ")
}

/// The jumps that aren't listed.
fn others_of(alloc: Global, words: &[u32]) -> Result<String, Fail> {
    let image = image_of(alloc, words)?;
    let Ok(draft) = draft_jumps(alloc, &image) else {
        return Err("the image is drafted".into());
    };
    let mut text = String::new(alloc);
    for other in &draft.others {
        push_other(&mut text, *other)?;
    }
    Ok(text)
}

/// Programs, and the jumps that aren't listed.
static OTHERS: [(&str, &[u32], &str); 2] = [
    (
        "pointers",
        &POINTERS,
        "0x10008: it is a call by a pointer; 0x10018: the code that is known doesn't lead to it; ",
    ),
    (
        "a far jump",
        &FAR,
        "0x10004: it is lowered with the auipc before it; ",
    ),
];

#[test]
fn all_other_jumps_have_a_reason(rt: HostRuntime) -> Result<(), Fail> {
    for (name, words, want) in &OTHERS {
        expect_text(&rt, name, others_of(rt.alloc(), words), want)?;
    }
    Ok(())
}
