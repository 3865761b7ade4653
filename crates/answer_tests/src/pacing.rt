//! Images whose switches stand on chosen edges.

use crate::fixtures::*;
use paced_images::{ChosenMarks, KeptMarks, Proposal, SwitchSite, pace, pace_useful, useful_marks};
use scale_base::{EdgeKind, Stop, Summary};
use scale_report::{run_text, summary_text};
use speed_sim::simulate;
use std::alloc::Global;
use std::process::Abort;
use std::test::Fail;

/// Divides eight times, jumps from 0x10020 to the next instruction, divides four times and exits.
const STRAIGHT: [u32; 15] = [
    0x0262C2B3, 0x0262C2B3, 0x0262C2B3, 0x0262C2B3, 0x0262C2B3, 0x0262C2B3, 0x0262C2B3, 0x0262C2B3,
    0x0040006F, 0x0262C2B3, 0x0262C2B3, 0x0262C2B3, 0x0262C2B3, 0x05D00893, 0x00000073,
];

/// Eight turns of a loop from 0x10004 to its branch at 0x10018, of four divisions each, and an exit.
const TURNS: [u32; 9] = [
    0x00800313, 0x0262C2B3, 0x0262C2B3, 0x0262C2B3, 0x0262C2B3, 0xFFF30313, 0xFE0316E3, 0x05D00893,
    0x00000073,
];

const TURNS_LOOP: &str =
    "version = 1\n[[loop]]\nheader = 0x10004\nranges = [[0x10004, 0x1001C]]\nbound = 7\n";

/// The marks of an image: its sites and its tallied loops. Where it has sites, they are counted, and all four quarters are shared; where it tallies loops, none is.
#[derive(Clone, Copy)]
struct Marks {
    sites: &'static [SwitchSite],
    tallied: &'static [u32],
    counted: bool,
    share: u8,
}

/// What `pace` makes of files that the program would load.
fn paced(alloc: Global, files: &Files<'_>, marks: &Marks) -> Result<(Vec<u8>, Summary), Stop> {
    let image = files.image.as_slice();
    let machine = files.machine.as_bytes();
    let loops = files.loops.as_bytes();
    let Marks {
        sites,
        tallied,
        counted,
        share,
    } = *marks;
    if image.len() > 4_194_304 || machine.len() > 1_048_576 || loops.len() > 1_048_576 {
        return Err(Stop::Memory);
    }
    if share > 4 {
        return Err(Stop::Memory);
    }
    let chosen = ChosenMarks {
        sites,
        counted,
        tallied,
        share,
    };
    pace(alloc, image, machine, loops, &chosen)
}

/// Its bytes.
fn paced_bytes(alloc: Global, files: &Files<'_>, marks: &Marks) -> Result<Vec<u8>, Fail> {
    match paced(alloc, files, marks) {
        Ok((bytes, _)) => Ok(bytes),
        Err(_) => Err(Fail::from("an image that is refused")),
    }
}

/// Which marks of files that the program would load are of use.
fn useful(alloc: Global, files: &Files<'_>, marks: &Marks) -> Result<KeptMarks, Stop> {
    let image = files.image.as_slice();
    let machine = files.machine.as_bytes();
    let loops = files.loops.as_bytes();
    let Marks {
        sites,
        tallied,
        counted,
        share,
    } = *marks;
    if image.len() > 4_194_304 || machine.len() > 1_048_576 || loops.len() > 1_048_576 {
        return Err(Stop::Memory);
    }
    if share > 4 {
        return Err(Stop::Memory);
    }
    let chosen = ChosenMarks {
        sites,
        counted,
        tallied,
        share,
    };
    useful_marks(alloc, image, machine, loops, &chosen)
}

/// How many sites and tallied loops of a program are of use.
fn useful_counts(alloc: Global, files: &Files<'_>, marks: &Marks) -> Result<(usize, usize), Fail> {
    match useful(alloc, files, marks) {
        Ok(kept) => Ok((kept.sites.len(), kept.tallied.len())),
        Err(_) => Err(Fail::from("marks that are refused")),
    }
}

fn useful_of(alloc: Global, program: &Program, marks: &Marks) -> Result<(usize, usize), Fail> {
    let files = files_of(alloc, program)?;
    useful_counts(alloc, &files, marks)
}

/// The jump of `STRAIGHT`.
const JUMP: SwitchSite = SwitchSite {
    at: 0x10020,
    kind: EdgeKind::Jump,
    lowest: false,
};

/// The same to the lowest level.
const LOWEST_JUMP: SwitchSite = SwitchSite {
    at: 0x10020,
    kind: EdgeKind::Jump,
    lowest: true,
};

/// No jump of a program.
const NO_JUMP: SwitchSite = SwitchSite {
    at: 0x20000,
    kind: EdgeKind::Jump,
    lowest: false,
};

/// The way of `READ_ONE` to its exit.
const EXIT_WAY: SwitchSite = SwitchSite {
    at: 0x10010,
    kind: EdgeKind::Taken,
    lowest: false,
};

/// The way to its third word.
const NEXT: SwitchSite = SwitchSite {
    at: 0x10004,
    kind: EdgeKind::Next,
    lowest: false,
};

const STRAIGHT_IN_500: Program = Program {
    words: &STRAIGHT,
    deadline: 500,
    loops: NO_LOOPS,
};

const STRAIGHT_IN_368: Program = Program {
    words: &STRAIGHT,
    deadline: 368,
    loops: NO_LOOPS,
};

const STRAIGHT_IN_367: Program = Program {
    words: &STRAIGHT,
    deadline: 367,
    loops: NO_LOOPS,
};

const TURNS_IN_1200: Program = Program {
    words: &TURNS,
    deadline: 1200,
    loops: TURNS_LOOP,
};

const AT_JUMP: Marks = Marks {
    sites: &[JUMP],
    tallied: &[],
    counted: true,
    share: 4,
};

const AT_LOWEST_JUMP: Marks = Marks {
    sites: &[LOWEST_JUMP],
    tallied: &[],
    counted: true,
    share: 4,
};

const AT_JUMPS: Marks = Marks {
    sites: &[NO_JUMP, JUMP],
    tallied: &[],
    counted: true,
    share: 4,
};

const TALLIED: Marks = Marks {
    sites: &[],
    tallied: &[0x10004],
    counted: false,
    share: 0,
};

/// The same, and no loop.
const TALLIED_TWICE: Marks = Marks {
    sites: &[],
    tallied: &[0x10004, 0x10008],
    counted: false,
    share: 0,
};

/// Each site of a branch twice, one that no edge has, and one that has no switch.
const MANY_SITES: Marks = Marks {
    sites: &[NO_JUMP, EXIT_WAY, NEXT, EXIT_WAY],
    tallied: &[],
    counted: true,
    share: 4,
};

/// Whether a word stands at a multiple of four in a file.
fn has_word(file: &[u8], word: u32) -> bool {
    file.chunks_exact(4)
        .any(|four| four == word.to_le_bytes().as_slice())
}

/// A program and its marks; parts of the summary; and words that the stored image has, and one that it hasn't.
#[derive(Clone, Copy)]
struct Row {
    program: Program,
    marks: Marks,
    parts: &'static [&'static str],
    words: &'static [u32],
    other: u32,
}

/// A word of no program here.
const NO_WORD: u32 = 0x12345678;

static ROWS: [Row; 4] = [
    // From level 1 to level 0, and so from level 2, which is never there.
    Row {
        program: STRAIGHT_IN_500,
        marks: AT_JUMP,
        parts: &["start level 1\n", "\nswitch edges 1\n"],
        words: &[0x00030313],
        other: NO_WORD,
    },
    // With the stub of its branch a turn takes 59 cycles. On a back edge 470 are left at most, less 59 for each turn taken; the starting level takes 934 time units
    // of 1,200 for all 467 cycles, and at the lowest level each cycle takes 2 more: so from 6 turns on, with 116 left, there is time for the switch.
    // addi t0,t0,-6 and andi t0,t0,-2040
    Row {
        program: TURNS_IN_1200,
        marks: TALLIED,
        parts: &[
            "start level 1\nworst cycles 467\nworst time 934 of 1200\nstub cycles at most 117\nswitch edges 1\nexit edges 0\ncount edges 1\nstub bytes 56\n",
        ],
        words: &[0xFFA28293, 0x8082F293],
        other: NO_WORD,
    },
    // Behind the jump 48 cycles are left, which take 96 time units more at the lowest level, and the switch takes 10. The starting level takes 262 for all 131.
    // sw x0,-4(x0) where there is time for it, and sw x0,-2044(x0) where there is none
    Row {
        program: STRAIGHT_IN_368,
        marks: AT_LOWEST_JUMP,
        parts: &[
            "start level 1\nworst cycles 131\n",
            "\nstub cycles at most 3\n",
            "\nstub bytes 8\n",
        ],
        words: &[0xFE002E23],
        other: 0x80002223,
    },
    Row {
        program: STRAIGHT_IN_367,
        marks: AT_LOWEST_JUMP,
        parts: &[
            "start level 1\nworst cycles 131\n",
            "\nstub cycles at most 3\n",
            "\nstub bytes 8\n",
        ],
        words: &[0x80002223],
        other: 0xFE002E23,
    },
];

fn check_words(rt: &impl Abort, row: &Row, bytes: &[u8]) {
    for word in row.words {
        assert!(rt; has_word(bytes, *word), "{word:x}");
    }
    assert!(rt; !has_word(bytes, row.other), "{:x}", row.other);
}

/// The summary of a row whose words are in the stored image.
fn checked_summary(
    rt: &impl Abort,
    alloc: Global,
    files: &Files<'_>,
    row: &Row,
) -> Result<String, Fail> {
    match paced(alloc, files, &row.marks) {
        Ok((bytes, summary)) => {
            check_words(rt, row, &bytes);
            Ok(summary_text(alloc, &summary)?)
        }
        Err(_) => Err("a refusal".into()),
    }
}

fn summary_of(rt: &impl Abort, alloc: Global, row: &Row) -> Result<String, Fail> {
    let files = files_of(alloc, &row.program)?;
    checked_summary(rt, alloc, &files, row)
}

#[test]
fn lowers_the_level_behind_a_jump_and_from_a_turn_on(rt: HostRuntime) -> Result<(), Fail> {
    for (k, row) in ROWS.iter().enumerate() {
        expect_parts(&rt, k, summary_of(&rt, rt.alloc(), row), row.parts)?;
    }
    Ok(())
}

/// The summary of what `rewrite` makes of files.
fn rewritten_summary(alloc: Global, files: &Files<'_>) -> Result<String, Fail> {
    match rewritten(alloc, files) {
        Ok((_, summary)) => Ok(summary_text(alloc, &summary)?),
        Err(_) => Err("a refusal".into()),
    }
}

#[test]
fn a_straight_program_has_no_edge_to_rewrite(rt: HostRuntime) -> Result<(), Fail> {
    let files = files_of(rt.alloc(), &STRAIGHT_IN_500)?;
    let found = rewritten_summary(rt.alloc(), &files);
    expect_parts(&rt, 0, found, &["\nswitch edges 0\n"])
}

/// Here jobs start at the fastest level, so that no level is above the start.
const ONE_IN_79: Program = Program {
    words: &READ_ONE,
    deadline: 79,
    loops: NO_LOOPS,
};

/// The summary of the marked image, whose bytes are those that are stored without marks.
fn summary_beside(
    rt: &impl Abort,
    alloc: Global,
    files: &Files<'_>,
    stored: &[u8],
) -> Result<String, Fail> {
    match paced(alloc, files, &MANY_SITES) {
        Ok((bytes, summary)) => {
            assert!(rt; bytes.as_slice() == stored);
            Ok(summary_text(alloc, &summary)?)
        }
        Err(_) => Err("a refusal".into()),
    }
}

/// Both summaries.
fn both_summaries(rt: &impl Abort, alloc: Global, files: &Files<'_>) -> Result<String, Fail> {
    let stored = stored(alloc, files)?;
    let mut text = summary_beside(rt, alloc, files, &stored)?;
    let other = rewritten_summary(alloc, files)?;
    text.push_str(&other)?;
    Ok(text)
}

#[test]
fn is_the_rewritten_image_where_the_worst_case_leaves_no_time(rt: HostRuntime) -> Result<(), Fail> {
    let files = files_of(rt.alloc(), &ONE_IN_79)?;
    let want =
        "start level 2\nworst cycles 79\nworst time 79 of 79\nstub cycles at most 18\nswitch edges 1\nexit edges 0\ncount edges 0\nstub bytes 56\nstart level 2\nworst cycles 79\nworst time 79 of 79\nstub cycles at most 18\nswitch edges 1\nexit edges 0\ncount edges 0\nstub bytes 56\n";
    expect_text(&rt, 0, both_summaries(&rt, rt.alloc(), &files), want)
}

/// Programs, their marks, and how many sites and tallied loops are of use.
static USEFUL: [(Program, Marks, usize, usize); 8] = [
    (STRAIGHT_IN_500, AT_JUMPS, 1, 0),
    // Here the starting level leaves too little time for level 0.
    (
        Program {
            words: &STRAIGHT,
            deadline: 330,
            loops: NO_LOOPS,
        },
        AT_JUMPS,
        0,
        0,
    ),
    (STRAIGHT_IN_368, AT_LOWEST_JUMP, 1, 0),
    (STRAIGHT_IN_367, AT_LOWEST_JUMP, 0, 0),
    // On the seventh back edge, which is the last, 57 cycles are left, which take 114 time units more at the lowest level, and the switch takes 10.
    // The starting level takes 934 for all 467.
    (TURNS_IN_1200, TALLIED_TWICE, 0, 1),
    (
        Program {
            words: &TURNS,
            deadline: 1058,
            loops: TURNS_LOOP,
        },
        TALLIED,
        0,
        1,
    ),
    (
        Program {
            words: &TURNS,
            deadline: 1057,
            loops: TURNS_LOOP,
        },
        TALLIED,
        0,
        0,
    ),
    // Here jobs start at the lowest level.
    (
        Program {
            words: &TURNS,
            deadline: 1868,
            loops: TURNS_LOOP,
        },
        TALLIED,
        0,
        0,
    ),
];

#[test]
fn keeps_the_sites_and_the_loops_that_lower_a_level(rt: HostRuntime) -> Result<(), Fail> {
    for (k, (program, marks, sites, loops)) in USEFUL.iter().enumerate() {
        let found = useful_of(rt.alloc(), program, marks)?;
        assert_eq!(rt; found, (*sites, *loops), "row {k}");
    }
    Ok(())
}

/// A proposal of sites.
fn proposal_of(alloc: Global, sites: Vec<SwitchSite>) -> Result<Proposal, Fail> {
    if sites.len() > 8 {
        return Err(Fail::from("sites"));
    }
    Ok(Proposal {
        sites,
        tallied: Vec::new(alloc),
        share: 4,
        counted: true,
    })
}

/// Whether the image of a proposal is made, if each of its marks is of use; it is the one that is told.
fn is_paced_useful(
    rt: &impl Abort,
    alloc: Global,
    files: &Files<'_>,
    proposal: &Proposal,
    expected: &[u8],
) -> Result<bool, Fail> {
    let image = files.image.as_slice();
    let machine = files.machine.as_bytes();
    let loops = files.loops.as_bytes();
    if image.len() > 4_194_304 || machine.len() > 1_048_576 || loops.len() > 1_048_576 {
        return Err(Fail::from("files that are too long"));
    }
    match pace_useful(alloc, image, machine, loops, proposal) {
        Ok(Some((bytes, _))) => {
            assert!(rt; bytes.as_slice() == expected);
            Ok(true)
        }
        Ok(None) => Ok(false),
        Err(_) => Err(Fail::from("files that are refused")),
    }
}

/// Of proposed sites.
fn are_useful(
    rt: &impl Abort,
    alloc: Global,
    files: &Files<'_>,
    sites: &[SwitchSite],
    expected: &[u8],
) -> Result<bool, Fail> {
    let proposal = proposal_of(alloc, Vec::from_slice(alloc, sites)?)?;
    is_paced_useful(rt, alloc, files, &proposal, expected)
}

/// No jump of a program to the lowest level.
const NO_LOWEST_JUMP: SwitchSite = SwitchSite {
    at: 0x20000,
    kind: EdgeKind::Jump,
    lowest: true,
};

/// Proposed sites, and whether the image is made, which is the one with the first mark: not where a mark is dead.
static PROPOSALS: [(&[SwitchSite], bool); 2] = [
    (&[LOWEST_JUMP], true),
    (&[LOWEST_JUMP, NO_LOWEST_JUMP], false),
];

#[test]
fn makes_no_image_of_a_proposal_with_a_dead_mark(rt: HostRuntime) -> Result<(), Fail> {
    let files = files_of(rt.alloc(), &STRAIGHT_IN_368)?;
    let bytes = paced_bytes(rt.alloc(), &files, &AT_LOWEST_JUMP)?;
    for (sites, is_made) in &PROPOSALS {
        let found = are_useful(&rt, rt.alloc(), &files, sites, &bytes)?;
        assert_eq!(rt; found, *is_made);
    }
    Ok(())
}

/// The report of a run of the tallied turns without input.
fn run_of(alloc: Global, files: &Files<'_>) -> Result<String, Fail> {
    let image = paced_bytes(alloc, files, &TALLIED)?;
    match simulate(alloc, &image, files.machine.as_bytes(), &[], None) {
        Ok(report) => Ok(run_text(alloc, &report)?),
        Err(_) => Err("a refusal".into()),
    }
}

static DOWN: [&str; 3] = [
    "end exit 0\n",
    "\ncycles 467\ntime 1176\nenergy 1189\n",
    "\nswitches 1\nlevel 0\n",
];

#[test]
fn a_run_of_tallied_turns_goes_down(rt: HostRuntime) -> Result<(), Fail> {
    let files = files_of(rt.alloc(), &TURNS_IN_1200)?;
    expect_parts(&rt, 0, run_of(rt.alloc(), &files), &DOWN)
}
