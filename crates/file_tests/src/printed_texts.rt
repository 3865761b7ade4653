//! The texts that the program prints: refusals, runs and verdicts. All texts are in the rows of the first program's `cases`.

use power_model::{Meter, RunReport};
use scale_base::{Checked, End, Kept, Name, Refusal, Trap, TrapKind, Verdict, Why};
use scale_report::{refusal_text, run_text, verdict_text};
use std::alloc::Global;
use std::process::Abort;
use std::test::Fail;

/// Expects this text.
fn expect_text(rt: &impl Abort, found: Result<String, Fail>, want: &str) -> Result<(), Fail> {
    let text = found?;
    assert_eq!(rt; text.as_str(), want);
    Ok(())
}

fn name(alloc: Global, text: &str) -> Result<Name, Fail> {
    Ok(Name::new(String::from_str(alloc, text)?))
}

/// The line of a refusal.
fn line_of(alloc: Global, refusal: Refusal) -> Result<String, Fail> {
    Ok(refusal_text(alloc, &refusal)?)
}

/// Loops that cross, which no file brings about where loops are natural; and a name.
#[test]
fn prints_refusals(rt: HostRuntime) -> Result<(), Fail> {
    let alloc = rt.alloc();
    let crossing = Refusal::CrossingLoops(5, 7);
    expect_text(
        &rt,
        line_of(alloc, crossing),
        "refused 34 loops 5 7 cross\n",
    )?;
    let key = Refusal::MachineKey(name(alloc, "cost.div")?);
    expect_text(
        &rt,
        line_of(alloc, key),
        "refused 11 machine file key cost.div\n",
    )
}

/// The report of a run of two steps that changed to level 2, and wrote three bytes.
fn report_of(alloc: Global, end: End, kept: Option<Kept>) -> Result<RunReport, Fail> {
    let meter = Meter {
        start: 1,
        level: 2,
        steps: 2,
        cycles: 7,
        time: 600_000_000_000,
        energy: 19,
        switches: 1,
        keyed: 5,
    };
    Ok(RunReport {
        end,
        meter,
        held: 21,
        output: vec![in alloc; 104, 105, 10]?,
        kept,
    })
}

const NUMBERS: &str =
    "steps 2\ncycles 7\ntime 600000000000\nenergy 19\nheld 21\nswitches 1\nlevel 2\nkeyed 5\noutput 3\n";

/// How runs end, whether they were kept, and the words of both.
static ENDS: [(End, Option<Kept>, &str, &str); 15] = [
    (End::Exited(0), None, "exit 0", "unchecked"),
    (End::Exited(255), None, "exit 255", "unchecked"),
    (End::OutOfSteps, None, "steps", "unchecked"),
    (
        End::Trapped(Trap {
            kind: TrapKind::Breakpoint,
            at: 0xffff_fffe,
        }),
        None,
        "trap breakpoint 0xfffffffe",
        "unchecked",
    ),
    (
        End::Trapped(Trap {
            kind: TrapKind::IllegalWord,
            at: 0xffff_fffe,
        }),
        None,
        "trap illegal-word 0xfffffffe",
        "unchecked",
    ),
    (
        End::Trapped(Trap {
            kind: TrapKind::FetchFault,
            at: 0xffff_fffe,
        }),
        None,
        "trap fetch-fault 0xfffffffe",
        "unchecked",
    ),
    (
        End::Trapped(Trap {
            kind: TrapKind::MisalignedTarget,
            at: 0xffff_fffe,
        }),
        None,
        "trap misaligned-target 0xfffffffe",
        "unchecked",
    ),
    (
        End::Trapped(Trap {
            kind: TrapKind::LoadMisaligned,
            at: 0xffff_fffe,
        }),
        None,
        "trap load-misaligned 0xfffffffe",
        "unchecked",
    ),
    (
        End::Trapped(Trap {
            kind: TrapKind::StoreMisaligned,
            at: 0xffff_fffe,
        }),
        None,
        "trap store-misaligned 0xfffffffe",
        "unchecked",
    ),
    (
        End::Trapped(Trap {
            kind: TrapKind::LoadFault,
            at: 0xffff_fffe,
        }),
        None,
        "trap load-fault 0xfffffffe",
        "unchecked",
    ),
    (
        End::Trapped(Trap {
            kind: TrapKind::StoreFault,
            at: 0xffff_fffe,
        }),
        None,
        "trap store-fault 0xfffffffe",
        "unchecked",
    ),
    (End::Exited(7), Some(Kept::Kept), "exit 7", "yes"),
    (
        End::Exited(7),
        Some(Kept::BrokeBound {
            loop_no: 3,
            count: 4_294_967_295,
        }),
        "exit 7",
        "no bound 3 4294967295",
    ),
    (
        End::Exited(7),
        Some(Kept::BrokeReturn {
            at: 0x1_0004,
            to: 0x1_0abc,
        }),
        "exit 7",
        "no return 0x00010004 0x00010abc",
    ),
    (
        End::Exited(7),
        Some(Kept::BrokeDepth { at: 0x1_0008 }),
        "exit 7",
        "no depth 0x00010008",
    ),
];

fn run_of(alloc: Global, end: End, kept: Option<Kept>) -> Result<String, Fail> {
    let report = report_of(alloc, end, kept)?;
    Ok(run_text(alloc, &report)?)
}

/// Expects the text of a run by its first words and its last ones.
fn expect_run(
    rt: &impl Abort,
    alloc: Global,
    (end, kept): (End, Option<Kept>),
    first: &str,
    last: &str,
) -> Result<(), Fail> {
    let want = format!(in alloc; "end {first}\n{NUMBERS}kept {last}\n")?;
    expect_text(rt, run_of(alloc, end, kept), want.as_str())
}

#[test]
fn prints_runs(rt: HostRuntime) -> Result<(), Fail> {
    for (end, kept, first, last) in &ENDS {
        expect_run(&rt, rt.alloc(), (*end, *kept), first, last)?;
    }
    Ok(())
}

const CHECKED: Checked = Checked {
    start: 1,
    worst: 79,
    time: 158,
    deadline: 160,
    stub_cycles: 18,
};

static VERDICTS: [(Verdict, &str); 12] = [
    (
        Verdict::Yes(CHECKED),
        "check yes\nstart level 1\nworst cycles 79\nworst time 158 of 160\nstub cycles at most 18\n",
    ),
    (Verdict::No(Why::Image(7)), "check no image 7\n"),
    (Verdict::No(Why::NoKey), "check no key missing\n"),
    (Verdict::No(Why::Layout), "check no layout\n"),
    (
        Verdict::No(Why::Byte(0xfedc_ba98)),
        "check no byte 0xfedcba98\n",
    ),
    (
        Verdict::No(Why::Patch(0x1_0010)),
        "check no patch 0x00010010\n",
    ),
    (
        Verdict::No(Why::Stub(0x1_0014)),
        "check no stub 0x00010014\n",
    ),
    (Verdict::No(Why::Counter(510)), "check no counter 510\n"),
    (Verdict::No(Why::TooLong), "check no worst cycles\n"),
    (
        Verdict::No(Why::Start(4_294_967_295, 3)),
        "check no start level 4294967295 of 3\n",
    ),
    (
        Verdict::No(Why::TooSlow(600_000_000_000_000_000_000, 160)),
        "check no deadline need 600000000000000000000 have 160\n",
    ),
    (
        Verdict::No(Why::Level(0x1_0010, 2)),
        "check no level 0x00010010 from 2\n",
    ),
];

fn verdict_of(alloc: Global, verdict: &Verdict) -> Result<String, Fail> {
    Ok(verdict_text(alloc, verdict)?)
}

#[test]
fn prints_verdicts(rt: HostRuntime) -> Result<(), Fail> {
    for (verdict, want) in &VERDICTS {
        expect_text(&rt, verdict_of(rt.alloc(), verdict), want)?;
    }
    Ok(())
}
