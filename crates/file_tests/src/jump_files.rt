//! What is read of jump files. Why they are refused is data, `jump-files.txt` of the first program's `cases`.

use crate::fixtures::expect_words;
use jump_lists::{JumpNote, JumpNotes, read_jumps};
use std::alloc::{AllocError, Global};
use std::fmt::Write;
use std::test::Fail;

fn push_note(text: &mut String, note: &JumpNote) -> Result<(), AllocError> {
    write!(text, "{:#x} ", note.at)?;
    for k in 0..note.targets.count() {
        write!(text, "{:#x} ", note.targets.get(k))?;
    }
    text.push_str("; ")
}

/// How many jumps there are, and each with its targets.
fn notes_text(alloc: Global, notes: &JumpNotes) -> Result<String, Fail> {
    let mut text = format!(in alloc; "{} ", notes.as_slice().len())?;
    for k in 0..notes.count() {
        push_note(&mut text, notes.get(k))?;
    }
    Ok(text)
}

fn notes_of(alloc: Global, text: &str) -> Result<String, Fail> {
    match read_jumps(alloc, text.as_bytes()) {
        Ok(notes) => notes_text(alloc, &notes),
        Err(_) => Err("refused".into()),
    }
}

const TWO_JUMPS: &str =
    "version = 1\n[[jump]]\nat = 0x10008\ntargets = [0x1000C, 0x10014]\n[[jump]]\nat = 0\ntargets = [4294967292]\n";

#[test]
fn reads_the_jumps_of_a_file(rt: HostRuntime) -> Result<(), Fail> {
    let found = notes_of(rt.alloc(), TWO_JUMPS);
    expect_words(
        &rt,
        TWO_JUMPS,
        found,
        "2 0x10008 0x1000c 0x10014 ; 0x0 0xfffffffc ; ",
    )
}
