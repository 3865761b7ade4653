//! How the runs of the original on the inputs end, and which of the inputs count.

ghost use Rattle.std.specs.Prelude.{◌≡◌, ◌≤◌, ◌^◌, map, IfOk};
ghost use Rattle.std.specs.List.{All};
ghost use Rattle.pace_fit.specs.Endings.{ending_on, endings_on, is_counted};
ghost use Rattle.pace_fit.specs.Finding.{HasHeld};

use gain_tuner::{GivenFiles, report_of};
use run_progress::{Part, Progress};
use scale_base::{End, Kept, NoMemory};
use speed_sim::RunFiles;
use std::alloc::Global;

/// How the run of the original on an input ends, whether it was kept, and its cycles.
#[derive(Clone, Copy, PartialEq, Eq)]
pub struct Ending {
    pub end: End,
    pub kept: Option<Kept>,
    pub cycles: u64,
}

/// That of one input.
fn ending_of<P: Progress>(
    alloc: Global,
    given: &GivenFiles<'_>,
    input: &[u8],
    progress: &mut P,
) -> Result<Ending, NoMemory>
    requires { HasHeld given.now.image.now given.now.machine.now given.now.loops.now }
    ensures ending { IfOk result (λ ending. ending ≡ ending_on given.now.image.now given.now.machine.now given.now.loops.now input.now) }
    ensures small { IfOk result (λ ending. ending.cycles ≤ 2 ^ 56) }
{
    let files = RunFiles {
        image: given.image,
        machine: given.machine,
        input,
        loops: Some(given.loops),
    };
    let report = report_of(alloc, &files, progress)?;
    Ok(Ending {
        end: report.end,
        kept: report.kept,
        cycles: report.meter.cycles,
    })
}

/// Those of the inputs, in their order: the original runs once on each. How far the runs are is told.
pub fn endings_of<P: Progress>(
    alloc: Global,
    given: &GivenFiles<'_>,
    progress: &mut P,
) -> Result<Vec<Ending>, NoMemory>
    requires { HasHeld given.now.image.now given.now.machine.now given.now.loops.now }
    ensures endings { IfOk result (λ found. found.items ≡ endings_on given.now.image.now given.now.machine.now given.now.loops.now
        (map (λ input. input.items) given.now.inputs.now)) }
    ensures small { IfOk result (λ found. All (λ ending. ending.cycles ≤ 2 ^ 56) found.items) }
{
    let mut endings = Vec::new(alloc);
    progress.begin(Part::Input, given.inputs.len());
    for input in given.inputs {
        progress.next(Part::Input);
        endings.push(ending_of(alloc, given, input, progress)?)?;
    }
    Ok(endings)
}

/// Whether an input whose run ends so counts: it exits, and is kept.
pub fn is_counted(ending: &Ending) -> bool
    ensures { result ≡ is_counted ending.now }
{
    matches!(ending.end, End::Exited(_)) && matches!(ending.kept, Some(Kept::Kept))
}

/// Which of the inputs count, in their order.
pub fn flags_of(alloc: Global, endings: &[Ending]) -> Result<Vec<bool>, NoMemory>
    ensures { IfOk result (λ flags. flags.items ≡ map is_counted endings.now) }
{
    let mut flags = Vec::new(alloc);
    for ending in endings {
        flags.push(is_counted(ending))?;
    }
    Ok(flags)
}
