//! Whether watched runs keep what is noted of their loops, and their return addresses.

use crate::fixtures::expect_equal;
use keep_monitor::Monitor;
use loop_file::{LoopNote, LoopNotes, RangeList};
use scale_base::{Class, Kept, Move, Range, Stepped};
use std::alloc::Global;
use std::process::Abort;
use std::test::Fail;

// A loop at 8 to 24, one inside it at 16 whose extent has a second part, and a second note of the header 8.
const LOOPS: [(u32, u32, u32, u32); 3] = [(8, 8, 24, 2), (16, 12, 20, 1), (8, 100, 104, 1)];

// Notes of loops: header, range and bound, and one number of back edges, or the bound where that is less, before they are left.
fn noted(alloc: Global, loops: &[(u32, u32, u32, u32)], least: u32) -> Result<LoopNotes, Fail> {
    let mut notes = LoopNotes::new(alloc);
    for (header, from, to, bound) in loops {
        if notes.count() < 4096 && *bound <= 1_000_000_000 {
            let mut items = Vec::new(alloc);
            items.push(Range {
                from: *from,
                to: *to,
            })?;
            notes.push(LoopNote {
                header: *header,
                ranges: RangeList::from_vec(items),
                bound: *bound,
                counted: false,
                at_least: if least <= *bound { least } else { *bound },
            })?;
        }
    }
    Ok(notes)
}

fn monitor(alloc: Global, loops: &[(u32, u32, u32, u32)], least: u32) -> Result<Monitor, Fail> {
    let notes = noted(alloc, loops, least)?;
    Ok(Monitor::new(alloc, notes)?)
}

fn step(pc: u32, moved: Move, next: u32) -> Stepped {
    Stepped {
        pc,
        next,
        class: Class::Jump,
        moved,
        keyed: false,
        port: None,
    }
}

// What the monitor says of the last of these steps.
fn seen(monitor: &mut Monitor, steps: &[(u32, Move, u32)]) -> Kept {
    let mut kept = Kept::Kept;
    for (pc, moved, next) in steps {
        kept = monitor.see(&step(*pc, *moved, *next));
    }
    kept
}

/// A step: the address, the kind of move, and the next address.
type Step = (u32, Move, u32);

/// A watched run: the notes of its loops, the least number of back edges of each, and parts of the run, with what is said behind each.
struct Watched {
    name: &'static str,
    loops: &'static [(u32, u32, u32, u32)],
    least: u32,
    parts: &'static [(&'static [Step], Kept)],
}

fn expect_parts(rt: &impl Abort, watch: &mut Monitor, name: &str, parts: &[(&[Step], Kept)]) {
    for (steps, kept) in parts {
        assert!(rt; seen(watch, steps) == *kept, "{name}");
    }
}

fn expect_watched(rt: &impl Abort, alloc: Global, run: &Watched) -> Result<(), Fail> {
    let mut watch = monitor(alloc, run.loops, run.least)?;
    expect_parts(rt, &mut watch, run.name, run.parts);
    Ok(())
}

static RUNS: [Watched; 22] = [
    Watched {
        name: "a count above the bound breaks",
        loops: &[(8, 8, 24, 2), (16, 12, 20, 1)],
        least: 0,
        parts: &[
            (
                &[
                    (4, Move::Local, 8),
                    (20, Move::Local, 8),
                    (20, Move::Local, 8),
                ],
                Kept::Kept,
            ),
            (
                &[(20, Move::Local, 8)],
                Kept::BrokeBound {
                    loop_no: 1,
                    count: 3,
                },
            ),
            (
                &[(4, Move::Local, 8)],
                Kept::BrokeBound {
                    loop_no: 1,
                    count: 3,
                },
            ),
            (
                &[(4, Move::Return, 8)],
                Kept::BrokeBound {
                    loop_no: 1,
                    count: 3,
                },
            ),
        ],
    },
    Watched {
        name: "a step from outside the extent sets the count to 0",
        loops: &[(16, 12, 20, 1)],
        least: 0,
        parts: &[
            (
                &[
                    (12, Move::Local, 16),
                    (20, Move::Local, 16),
                    (12, Move::Local, 16),
                ],
                Kept::Kept,
            ),
            (&[(20, Move::Local, 16), (16, Move::Local, 16)], Kept::Kept),
            (
                &[(16, Move::Local, 16)],
                Kept::BrokeBound {
                    loop_no: 1,
                    count: 2,
                },
            ),
        ],
    },
    Watched {
        name: "a call of a header sets its count to 0",
        loops: &[(8, 8, 24, 2)],
        least: 0,
        parts: &[
            (
                &[
                    (20, Move::Local, 8),
                    (20, Move::Local, 8),
                    (12, Move::Call, 8),
                    (20, Move::Local, 8),
                    (20, Move::Local, 8),
                    (12, Move::Call, 8),
                    (20, Move::Local, 8),
                ],
                Kept::Kept,
            ),
            (
                &[(20, Move::Local, 8), (20, Move::Local, 8)],
                Kept::BrokeBound {
                    loop_no: 1,
                    count: 3,
                },
            ),
        ],
    },
    // Addresses of 256 KiB apart share a slot.
    Watched {
        name: "a step to a slot of a header counts nothing",
        loops: &[(8, 8, 24, 2)],
        least: 0,
        parts: &[
            (
                &[
                    (20, Move::Local, 8),
                    (8, Move::Local, 12),
                    (20, Move::Local, 8 + 0x4_0000),
                    (20, Move::Local, 8 + 0x4_0000),
                    (8, Move::Local, 12),
                    (20, Move::Local, 8),
                ],
                Kept::Kept,
            ),
            (
                &[(8, Move::Local, 12), (20, Move::Local, 8)],
                Kept::BrokeBound {
                    loop_no: 1,
                    count: 3,
                },
            ),
        ],
    },
    Watched {
        name: "a return comes from its call",
        loops: &[(24, 16, 28, 1), (28, 200, 204, 0)],
        least: 0,
        parts: &[
            (
                &[(20, Move::Call, 200), (200, Move::Return, 24)],
                Kept::Kept,
            ),
            (
                &[(24, Move::Call, 200), (200, Move::Return, 28)],
                Kept::Kept,
            ),
            (
                &[(20, Move::Call, 200), (200, Move::Return, 24)],
                Kept::BrokeBound {
                    loop_no: 1,
                    count: 2,
                },
            ),
        ],
    },
    Watched {
        name: "a return goes to the last address",
        loops: &[],
        least: 0,
        parts: &[
            (
                &[
                    (0, Move::Call, 40),
                    (40, Move::Call, 80),
                    (80, Move::Return, 44),
                ],
                Kept::Kept,
            ),
            (&[(44, Move::Return, 4)], Kept::Kept),
            (
                &[(48, Move::Return, 4)],
                Kept::BrokeReturn { at: 48, to: 4 },
            ),
        ],
    },
    Watched {
        name: "a return to another address",
        loops: &[],
        least: 0,
        parts: &[(
            &[
                (0, Move::Call, 40),
                (40, Move::Call, 80),
                (80, Move::Return, 4),
            ],
            Kept::BrokeReturn { at: 80, to: 4 },
        )],
    },
    Watched {
        name: "the rules on returns come first",
        loops: &[(8, 0, 16, 0)],
        least: 0,
        parts: &[(
            &[(4, Move::Call, 12), (12, Move::Return, 8)],
            Kept::BrokeBound {
                loop_no: 1,
                count: 1,
            },
        )],
    },
    Watched {
        name: "a return that breaks before a bound",
        loops: &[(8, 0, 16, 0)],
        least: 0,
        parts: &[
            (
                &[(0, Move::Call, 12), (12, Move::Return, 8)],
                Kept::BrokeReturn { at: 12, to: 8 },
            ),
            (&[(8, Move::Local, 8)], Kept::BrokeReturn { at: 12, to: 8 }),
        ],
    },
    Watched {
        name: "the least of two loops is named",
        loops: &[
            (4, 0, 4, 9),
            (8, 8, 12, 1),
            (12, 8, 12, 0),
            (8, 8, 12, 0),
            (8, 8, 12, 0),
        ],
        least: 0,
        parts: &[(
            &[(8, Move::Local, 8)],
            Kept::BrokeBound {
                loop_no: 4,
                count: 1,
            },
        )],
    },
    Watched {
        name: "two loops of one header",
        loops: &LOOPS,
        least: 0,
        parts: &[
            (
                &[
                    (20, Move::Local, 8),
                    (100, Move::Local, 8),
                    (20, Move::Local, 8),
                ],
                Kept::Kept,
            ),
            (&[(8, Move::Local, 8)], Kept::Kept),
            (
                &[(8, Move::Local, 8)],
                Kept::BrokeBound {
                    loop_no: 1,
                    count: 3,
                },
            ),
        ],
    },
    Watched {
        name: "a loop that is left early breaks",
        loops: &[(8, 8, 24, 2)],
        least: 2,
        parts: &[
            (&[(4, Move::Local, 8), (20, Move::Local, 8)], Kept::Kept),
            (
                &[(20, Move::Local, 24)],
                Kept::BrokeBound {
                    loop_no: 1,
                    count: 1,
                },
            ),
        ],
    },
    Watched {
        name: "a loop that is left in time, and then early",
        loops: &[(8, 8, 24, 2)],
        least: 2,
        parts: &[
            (
                &[
                    (4, Move::Local, 8),
                    (20, Move::Local, 8),
                    (20, Move::Local, 8),
                    (20, Move::Local, 24),
                    (24, Move::Local, 28),
                ],
                Kept::Kept,
            ),
            (
                &[(4, Move::Local, 8), (20, Move::Local, 24)],
                Kept::BrokeBound {
                    loop_no: 1,
                    count: 0,
                },
            ),
        ],
    },
    Watched {
        name: "nine of ten turns are too few",
        loops: &[(4, 4, 12, 10)],
        least: 10,
        parts: &[
            (&[(0, Move::Local, 4)], Kept::Kept),
            (&[(4, Move::Local, 8), (8, Move::Local, 4)], Kept::Kept),
            (&[(4, Move::Local, 8), (8, Move::Local, 4)], Kept::Kept),
            (&[(4, Move::Local, 8), (8, Move::Local, 4)], Kept::Kept),
            (&[(4, Move::Local, 8), (8, Move::Local, 4)], Kept::Kept),
            (&[(4, Move::Local, 8), (8, Move::Local, 4)], Kept::Kept),
            (&[(4, Move::Local, 8), (8, Move::Local, 4)], Kept::Kept),
            (&[(4, Move::Local, 8), (8, Move::Local, 4)], Kept::Kept),
            (&[(4, Move::Local, 8), (8, Move::Local, 4)], Kept::Kept),
            (&[(4, Move::Local, 8), (8, Move::Local, 4)], Kept::Kept),
            (
                &[(4, Move::Local, 8), (8, Move::Local, 12)],
                Kept::BrokeBound {
                    loop_no: 1,
                    count: 9,
                },
            ),
        ],
    },
    Watched {
        name: "calls and returns leave no loop",
        loops: &[(8, 8, 24, 2)],
        least: 2,
        parts: &[(
            &[
                (4, Move::Local, 8),
                (20, Move::Call, 200),
                (200, Move::Local, 204),
                (204, Move::Return, 24),
                (24, Move::Local, 28),
            ],
            Kept::Kept,
        )],
    },
    Watched {
        name: "a return leaves no loop",
        loops: &[(8, 8, 208, 2)],
        least: 2,
        parts: &[(
            &[
                (300, Move::Call, 200),
                (200, Move::Local, 204),
                (204, Move::Return, 304),
            ],
            Kept::Kept,
        )],
    },
    Watched {
        name: "the least of both kinds is named, which is left",
        loops: &[(8, 8, 24, 9), (40, 20, 24, 0)],
        least: 1,
        parts: &[(
            &[(20, Move::Local, 40)],
            Kept::BrokeBound {
                loop_no: 1,
                count: 0,
            },
        )],
    },
    Watched {
        name: "the least of both kinds is named, which is entered",
        loops: &[(40, 20, 24, 0), (8, 8, 24, 9)],
        least: 1,
        parts: &[(
            &[(20, Move::Local, 40)],
            Kept::BrokeBound {
                loop_no: 1,
                count: 1,
            },
        )],
    },
    Watched {
        name: "the least of two that are left is named",
        loops: &[(100, 0, 4, 9), (8, 8, 24, 9), (8, 8, 24, 9)],
        least: 1,
        parts: &[(
            &[(20, Move::Local, 40)],
            Kept::BrokeBound {
                loop_no: 2,
                count: 0,
            },
        )],
    },
    Watched {
        name: "a return to 0 comes from the last word",
        loops: &[(0, 0xFFFF_FFF0, 0xFFFF_FFFF, 0)],
        least: 0,
        parts: &[(
            &[(0xFFFF_FFFC, Move::Call, 200), (200, Move::Return, 0)],
            Kept::BrokeBound {
                loop_no: 1,
                count: 1,
            },
        )],
    },
    // The headers of the first two loops share a slot, and the last two loops have one header.
    Watched {
        name: "loops of one slot or one header are counted apart",
        loops: &[
            (8, 8, 24, 1),
            (0x4_0008, 0x4_0008, 0x4_0018, 2),
            (40, 40, 48, 3),
            (40, 40, 56, 1),
        ],
        least: 0,
        parts: &[
            (
                &[
                    (20, Move::Local, 8),
                    (0x4_0014, Move::Local, 0x4_0008),
                    (0x4_0014, Move::Local, 0x4_0008),
                    (44, Move::Local, 40),
                    (4, Move::Local, 8),
                    (20, Move::Local, 8),
                ],
                Kept::Kept,
            ),
            (
                &[(44, Move::Local, 40)],
                Kept::BrokeBound {
                    loop_no: 4,
                    count: 2,
                },
            ),
            (
                &[
                    (20, Move::Local, 8),
                    (0x4_0014, Move::Local, 0x4_0008),
                    (44, Move::Local, 40),
                ],
                Kept::BrokeBound {
                    loop_no: 4,
                    count: 2,
                },
            ),
        ],
    },
    Watched {
        name: "the same by another way",
        loops: &[
            (8, 8, 24, 1),
            (0x4_0008, 0x4_0008, 0x4_0018, 2),
            (40, 40, 48, 3),
            (40, 40, 56, 1),
        ],
        least: 0,
        parts: &[(
            &[
                (20, Move::Local, 8),
                (44, Move::Local, 40),
                (0x4_0014, Move::Local, 0x4_0008),
                (48, Move::Local, 40),
                (44, Move::Local, 40),
            ],
            Kept::BrokeBound {
                loop_no: 4,
                count: 2,
            },
        )],
    },
];

#[test]
fn runs_are_kept_or_break(rt: HostRuntime) -> Result<(), Fail> {
    for run in &RUNS {
        expect_watched(&rt, rt.alloc(), run)?;
    }
    Ok(())
}

/// Calls of an address by itself, so many.
fn call_often(watch: &mut Monitor, count: u32) -> Kept {
    let mut kept = Kept::Kept;
    for _ in 0..count {
        kept = watch.see(&step(40, Move::Call, 40));
    }
    kept
}

#[test]
fn a_list_of_131073_addresses_breaks(rt: HostRuntime) -> Result<(), Fail> {
    let mut watch = monitor(rt.alloc(), &[(40, 0, 4, 0)], 0)?;
    expect_equal(&rt, 0, call_often(&mut watch, 131_072), Kept::Kept);
    let kept = watch.see(&step(40, Move::Return, 44));
    expect_equal(&rt, 1, kept, Kept::Kept);
    let kept = watch.see(&step(40, Move::Call, 40));
    expect_equal(&rt, 2, kept, Kept::Kept);
    let kept = watch.see(&step(44, Move::Call, 40));
    expect_equal(&rt, 3, kept, Kept::BrokeDepth { at: 44 });
    Ok(())
}

#[test]
fn counts_begin_at_0(rt: HostRuntime) -> Result<(), Fail> {
    let notes = noted(rt.alloc(), &LOOPS, 0)?;
    assert_eq!(rt; notes.count(), 3);
    let watch = Monitor::new(rt.alloc(), notes)?;
    assert_eq!(rt; (watch.count(0), watch.count(1), watch.count(2)), (0, 0, 0));
    Ok(())
}
