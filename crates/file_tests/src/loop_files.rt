//! What is read of loop files. Why they are refused is data, `loop-files.txt` of the first program's `cases`.

use crate::fixtures::{SECTIONS, expect_words, view_of};
use loop_file::{LoopNote, LoopNotes, RangeList, read_loops};
use scale_base::Range;
use std::alloc::{AllocError, Global};
use std::fmt::Write;
use std::test::Fail;

/// Loop files, and how many loops each has; of the first one the header and the least number of turns.
static READ: [(&str, &str); 26] = [
    ("version = 1\n", "read 0"),
    ("# no loops\nversion = 0x1", "read 0"),
    ("version = 1\nloop = []\n", "read 0"),
    (
        "version = 1\nloop = [{header = 1, ranges = [[1, 2]], bound = 1}]\n",
        "read 1 at 1 least 0",
    ),
    ("version = 2\n", "read 0"),
    ("version = 2\nloop = []\n", "read 0"),
    (
        "version = 1\n[[loop]]\nheader = 1\nranges = [[1, 2]]\nbound = 1\n[[loop]]\nheader = 1\nranges = [[1, 2]]\nbound = 1\n",
        "read 2 at 1 least 0",
    ),
    (
        "version = 2\n[[loop]]\nheader = 1\nranges = [[1, 2]]\nbound = 10\n",
        "read 1 at 1 least 0",
    ),
    (
        "version = 2\n[[loop]]\nheader = 1\nranges = [[1, 2]]\nbound = 10\nat_least = 0\n",
        "read 1 at 1 least 0",
    ),
    (
        "version = 2\n[[loop]]\nheader = 1\nranges = [[1, 2]]\nbound = 10\nat_least = 10\n",
        "read 1 at 1 least 10",
    ),
    (
        "version = 2\n[[loop]]\nheader = 1\nranges = [[1, 2]]\nat_least = 0x9\nbound = 10\n",
        "read 1 at 1 least 9",
    ),
    (
        "version = 2\n[[loop]]\nheader = 1\nranges = [[1, 2]]\nbound = 0\nat_least = 0\n",
        "read 1 at 1 least 0",
    ),
    (
        "version = 2\n[[loop]]\nheader = 1\nranges = [[1, 2]]\nbound = 1000000000\nat_least = 1_000_000_000\n",
        "read 1 at 1 least 1000000000",
    ),
    (
        "version = 1\n[[loop]]\nbound = 1\nranges = [[1, 2]]\nheader = 0\n",
        "read 1 at 0 least 0",
    ),
    (
        "version = 1\n[[loop]]\nbound = 1\nranges = [[1, 2]]\nheader = 4294967295\n",
        "read 1 at 4294967295 least 0",
    ),
    (
        "version = 1\n[[loop]]\nbound = 1\nranges = [[1, 2]]\nheader = 0xFF\n",
        "read 1 at 255 least 0",
    ),
    (
        "version = 1\n[[loop]]\nbound = 1\nranges = [[1, 2]]\nheader = \"_start\"\n",
        "read 1 at 65716 least 0",
    ),
    (
        "version = 1\n[[loop]]\nbound = 1\nranges = [[1, 2]]\nheader = \"_start+8\"\n",
        "read 1 at 65724 least 0",
    ),
    (
        "version = 1\n[[loop]]\nbound = 1\nranges = [[1, 2]]\nheader = \"_start+0x1fF\"\n",
        "read 1 at 66227 least 0",
    ),
    (
        "version = 1\n[[loop]]\nbound = 1\nranges = [[1, 2]]\nheader = \"_start+008\"\n",
        "read 1 at 65724 least 0",
    ),
    (
        "version = 1\n[[loop]]\nbound = 1\nranges = [[1, 2]]\nheader = \"a+b+4\"\n",
        "read 1 at 65728 least 0",
    ),
    (
        "version = 1\n[[loop]]\nbound = 1\nranges = [[1, 2]]\nheader = \"top\"\n",
        "read 1 at 4294967295 least 0",
    ),
    (
        "version = 1\n[[loop]]\nbound = 1\nranges = [[1, 2]]\nheader = \"top+0x0\"\n",
        "read 1 at 4294967295 least 0",
    ),
    (
        "version = 1\n[[loop]]\nbound = 1\nranges = [[1, 2]]\nheader = \"_start+4294901579\"\n",
        "read 1 at 4294967295 least 0",
    ),
    (
        "version = 1\n[[loop]]\nheader = 1\nbound = 1\nranges = [[\"_start\", \"_start+4\"], [0, 4294967295]]\n",
        "read 1 at 1 least 0",
    ),
    (
        "version = 1\n[[loop]]\nheader = 1\nbound = 1\nranges = [[1, 2], [1, 2], [1, 2], [1, 2], [1, 2], [1, 2], [1, 2], [1, 2], [1, 2], [1, 2], [1, 2], [1, 2], [1, 2], [1, 2], [1, 2], [1, 2]]\n",
        "read 1 at 1 least 0",
    ),
];

/// How many loops are read; of the first one the header and the least number of turns.
fn first_text(alloc: Global, notes: &LoopNotes) -> Result<String, Fail> {
    let count = notes.count();
    if count == 0 {
        return Ok(String::from_str(alloc, "read 0")?);
    }
    let LoopNote {
        header,
        at_least,
        ..
    } = notes.note(0);
    Ok(format!(in alloc; "read {count} at {header} least {at_least}")?)
}

fn answer_of(alloc: Global, text: &str) -> Result<String, Fail> {
    let notes = notes_of(alloc, text)?;
    first_text(alloc, &notes)
}

#[test]
fn reads_loops_at_addresses_and_symbols(rt: HostRuntime) -> Result<(), Fail> {
    for (text, want) in &READ {
        expect_words(&rt, text, answer_of(rt.alloc(), text), want)?;
    }
    Ok(())
}

/// The answer for 4,096 loops.
fn answer_of_many(alloc: Global) -> Result<String, Fail> {
    let mut text = String::from_str(alloc, "version = 1\n")?;
    for _ in 0..4096 {
        text.push_str("[[loop]]\nheader = 1\nranges = [[1, 2]]\nbound = 1\n")?;
    }
    answer_of(alloc, &text)
}

#[test]
fn takes_4096_loops(rt: HostRuntime) -> Result<(), Fail> {
    let want = "read 4096 at 1 least 0";
    expect_words(&rt, "many", answer_of_many(rt.alloc()), want)
}

fn push_ranges(text: &mut String, ranges: &RangeList) -> Result<(), AllocError> {
    for k in 0..ranges.count() {
        let range = ranges.get(k);
        write!(text, " {:#x} to {:#x}", range.from, range.to)?;
    }
    text.push_str("; ")
}

fn push_note(text: &mut String, note: &LoopNote) -> Result<(), AllocError> {
    let LoopNote {
        header,
        bound,
        counted,
        at_least,
        ..
    } = note;
    write!(text, "{header:#x} {bound} {counted} {at_least}")?;
    push_ranges(text, &note.ranges)
}

/// Of each loop its header, its bound, whether it is counted, its least number of turns and its ranges.
fn notes_text(alloc: Global, notes: &LoopNotes) -> Result<String, Fail> {
    let mut text = String::new(alloc);
    for k in 0..notes.count() {
        push_note(&mut text, notes.note(k))?;
    }
    Ok(text)
}

fn notes_of(alloc: Global, text: &str) -> Result<LoopNotes, Fail> {
    let view = view_of(alloc, SECTIONS)?;
    match read_loops(alloc, text.as_bytes(), &view) {
        Ok(notes) => Ok(notes),
        Err(_) => Err("refused".into()),
    }
}

const NOTED: &str =
    "version = 1\n[[loop]]\nheader = \"_start\"\nranges = [[0, 4], [\"_start\", \"_start+0x10\"]]\nbound = 7\ncounted = true\n[[loop]]\nheader = 1\nranges = [[1, 2]]\nbound = 0\n";

#[test]
fn gives_what_is_noted(rt: HostRuntime) -> Result<(), Fail> {
    let notes = notes_of(rt.alloc(), NOTED)?;
    let found = notes_text(rt.alloc(), &notes);
    expect_words(
        &rt,
        NOTED,
        found,
        "0x100b4 7 true 0 0x0 to 0x4 0x100b4 to 0x100c4; 0x1 0 false 0 0x1 to 0x2; ",
    )
}

#[test]
fn keeps_notes_in_their_order(rt: HostRuntime) -> Result<(), Fail> {
    let mut notes = LoopNotes::new(rt.alloc());
    for header in [8, 0] {
        let note = LoopNote {
            header,
            ranges: RangeList::from_vec(vec![in rt.alloc(); Range { from: 0, to: 4 }]?),
            bound: 1_000_000_000,
            counted: true,
            at_least: 1_000_000_000,
        };
        if notes.count() < 4096 {
            notes.push(note)?;
        }
    }
    let found = notes_text(rt.alloc(), &notes);
    expect_words(
        &rt,
        "two notes",
        found,
        "0x8 1000000000 true 1000000000 0x0 to 0x4; 0x0 1000000000 true 1000000000 0x0 to 0x4; ",
    )
}

const LEAST_THREE: &str =
    "version = 2\n[[loop]]\nheader = 1\nranges = [[1, 2]]\nbound = 7\ncounted = true\nat_least = 3\n";

fn relaxed_text(alloc: Global, notes: &LoopNotes) -> Result<String, Fail> {
    let relaxed = notes.relaxed(alloc)?;
    notes_text(alloc, &relaxed)
}

#[test]
fn relaxes_bounds(rt: HostRuntime) -> Result<(), Fail> {
    let notes = notes_of(rt.alloc(), LEAST_THREE)?;
    let found = relaxed_text(rt.alloc(), &notes);
    expect_words(
        &rt,
        LEAST_THREE,
        found,
        "0x1 1000000000 true 0 0x1 to 0x2; ",
    )
}

#[test]
fn drops_counters(rt: HostRuntime) -> Result<(), Fail> {
    let notes = notes_of(rt.alloc(), LEAST_THREE)?.uncounted();
    let found = notes_text(rt.alloc(), &notes);
    expect_words(&rt, LEAST_THREE, found, "0x1 7 false 3 0x1 to 0x2; ")
}
