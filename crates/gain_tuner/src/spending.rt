//! Which inputs count, and the energy that runs take on them.

ghost use Rattle.std.specs.Prelude.{◌≡◌, ◌≤◌, ◌<◌, ◌^◌, length, map, option_map, None, Some, Ok, IfOk, IfSome};
ghost use Rattle.std.specs.Result.{IsOk};
ghost use Rattle.power_model.specs.Report.{report_view};
ghost use Rattle.speed_sim.specs.Simulated.{simulated};
ghost use Rattle.gain_tuner.specs.Finding.{RunsAlways, IsSpentOr};
ghost use Rattle.gain_tuner.specs.Spending as spending;

use crate::choosing::{Files, GivenFiles};
use run_progress::{Part, Progress};
use scale_base::{End, Kept, NoMemory, Stop};
use speed_sim::{RunFiles, RunReport, simulate_with_progress};
use std::alloc::Global;

/// The report of a run that isn't refused. How far the run is is told.
pub fn report_of<P: Progress>(
    alloc: Global,
    files: &RunFiles<'_>,
    progress: &mut P,
) -> Result<RunReport, NoMemory>
    requires { IsOk (simulated files.now.image.now files.now.machine.now files.now.input.now (option_map (λ l. l.now) files.now.loops)) }
    ensures { IfOk result (λ report. simulated files.now.image.now files.now.machine.now files.now.input.now
        (option_map (λ l. l.now) files.now.loops) ≡ Ok (report_view report)) }
{
    match simulate_with_progress(alloc, files, progress) {
        Ok(report) => Ok(report),
        Err(Stop::Memory) => Err(NoMemory),
        Err(Stop::Refused(_)) => unreachable!(),
    }
}

/// Whether a run exited and was kept.
fn exited_kept(report: &RunReport) -> bool
    ensures { result ≡ spending.exits_kept (Ok (report_view report.now)) }
{
    matches!(report.end, End::Exited(_)) && matches!(report.kept, Some(Kept::Kept))
}

/// Whether an input counts.
fn is_counting<P: Progress>(
    alloc: Global,
    given: &GivenFiles<'_>,
    input: &[u8],
    progress: &mut P,
) -> Result<bool, NoMemory>
    requires { RunsAlways given.now.image.now given.now.machine.now (Some given.now.loops.now) }
    ensures { IfOk result (λ flag. flag ≡ spending.counts given.now.image.now given.now.machine.now given.now.loops.now input.now) }
{
    let files = RunFiles {
        image: given.image,
        machine: given.machine,
        input,
        loops: Some(given.loops),
    };
    let report = report_of(alloc, &files, progress)?;
    Ok(exited_kept(&report))
}

/// Which of the inputs count, in their order. How far the runs are is told.
pub fn counting_of<P: Progress>(
    alloc: Global,
    given: &GivenFiles<'_>,
    progress: &mut P,
) -> Result<Vec<bool>, NoMemory>
    requires { RunsAlways given.now.image.now given.now.machine.now (Some given.now.loops.now) }
    ensures { IfOk result (λ flags. flags.items ≡ map (λ input. spending.counts given.now.image.now given.now.machine.now
        given.now.loops.now input.items) given.now.inputs.now) }
{
    let mut flags = Vec::new(alloc);
    progress.begin(Part::Input, given.inputs.len());
    for input in given.inputs {
        progress.next(Part::Input);
        flags.push(is_counting(alloc, given, input, progress)?)?;
    }
    Ok(flags)
}

/// The energy of a run, unless it is out of steps.
fn energy_of(report: &RunReport) -> Option<u128>
    ensures energy { result ≡ spending.spent_by (Ok (report_view report.now)) }
    ensures small { IfSome result (λ energy. energy < 2 ^ 113) }
{
    // its steps bound it
    let _steps = report.meter.steps;
    match report.end {
        End::Exited(_) => Some(report.meter.energy),
        End::Trapped(_) => Some(report.meter.energy),
        End::OutOfSteps => None,
    }
}

/// The energy of the run of a stored image on an input, unless it is out of steps.
fn spent_on<'a, P: Progress>(
    alloc: Global,
    stored: &'a [u8],
    machine: &'a [u8],
    input: &'a [u8],
    progress: &mut P,
) -> Result<Option<u128>, NoMemory>
    requires { RunsAlways stored.now machine.now None }
    ensures spent { IfOk result (λ spent. spent ≡ spending.spent_on stored.now machine.now input.now) }
    ensures small { IfOk result (λ spent. IfSome spent (λ energy. energy < 2 ^ 113)) }
{
    let files = RunFiles {
        image: stored,
        machine,
        input,
        loops: None,
    };
    let report = report_of(alloc, &files, progress)?;
    Ok(energy_of(&report))
}

/// The energy of the runs of a stored image on the inputs that count, unless one of them is out of steps. How far the runs are is told.
pub fn spent_over<P: Progress>(
    alloc: Global,
    files: &Files<'_>,
    stored: &[u8],
    progress: &mut P,
) -> Result<Option<u128>, NoMemory>
    requires runs { RunsAlways stored.now files.now.machine.now None }
    requires few { length files.now.inputs.now ≤ 64 }
    requires flags { files.now.flags.now ≡ map (λ input. spending.counts files.now.image.now files.now.machine.now files.now.loops.now
        input.items) files.now.inputs.now }
    ensures { IfOk result (IsSpentOr stored.now files.now.machine.now (spending.counting files.now.image.now files.now.machine.now
        files.now.loops.now (map (λ input. input.items) files.now.inputs.now))) }
{
    let mut energy: u128 = 0;
    progress.begin(Part::Input, files.inputs.len());
    for (k, input) in files.inputs.iter().enumerate() {
        progress.next(Part::Input);
        if files.flags[k] {
            match spent_on(alloc, stored, files.machine, input, progress)? {
                Some(more) => energy += more,
                None => return Ok(None),
            }
        }
    }
    Ok(Some(energy))
}
