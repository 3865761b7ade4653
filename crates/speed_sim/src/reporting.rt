//! The report of a run.

ghost use Rattle.std.specs.Prelude.{◌≡◌, ◌<◌, length, None, Some, IfOk, OnOk, option_map};
ghost use Rattle.scale_base.specs.Run.{starting_level, setting_of, start_of};
ghost use Rattle.keep_monitor.specs.Counted.{counted_run};
ghost use Rattle.power_model.specs.Report.{report_view};
ghost use Rattle.speed_sim.specs.Seen.{seen_from};
ghost use Rattle.speed_sim.specs.Simulated.{report_of};

use crate::running::run_machine;
use crate::watcher::{Unwatched, Watches};
use elf_image::ImageView;
use flat_memory::load_pages;
use keep_monitor::{LoopCounter, Monitor};
use loop_file::LoopNotes;
use power_model::{Power, RunReport};
use run_progress::Progress;
use rv_machine::{Machine, Places, decode_code};
use scale_base::{NoMemory, Range};
use std::alloc::Global;

/// Where the keyed segment lies, if there is one.
fn keyed_range(view: &ImageView<'_>) -> Option<Range>
    ensures { result ≡ option_map (λ k. k.range) view.now.keyed_segment }
{
    match view.keyed() {
        Some(keyed) => Some(keyed.range),
        None => None,
    }
}

/// An image on a machine, with the level that its run starts at.
#[derive(Clone, Copy)]
pub struct ImageRun<'a> {
    pub view: &'a ImageView<'a>,
    pub power: &'a Power,
    pub start: u8,
}

/// The report of the run of an image with an input, whose completed steps after which it goes on a watcher sees, one after another. It says nothing of
/// loops. All the memory that the run needs is taken before its first step. How far it is is told.
pub fn watched_with_progress<W: Watches, P: Progress>(
    alloc: Global,
    given: &ImageRun<'_>,
    input: &[u8],
    watcher: &mut W,
    progress: &mut P,
) -> Result<RunReport, NoMemory>
    requires start { given.now.start ≡ starting_level (length given.now.power.now.levels) given.now.view.now.keyed_segment }
    requires is_level { given.now.start < length given.now.power.now.levels }
    ensures report { IfOk result (λ r. report_view r ≡ report_of given.now.power.now given.now.view.now input.now None) }
    ensures watched { let levels = length given.now.power.now.levels in OnOk result (watcher.new ≡ seen_from (setting_of given.now.view.now levels input.now) (start_of given.now.view.now levels) W.watched watcher.old given.now.power.now.steps) }
{
    let view = given.view;
    let power = given.power;
    let memory = load_pages(alloc, view)?;
    let keyed = keyed_range(view);
    let places = Places {
        text: view.text(),
        keyed,
    };
    let code = decode_code(alloc, &memory, &places)?;
    let input = Vec::from_slice(alloc, input)?;
    let levels = power.levels.count();
    let mut machine = Machine::start(alloc, memory, view.entry(), levels, given.start, input)?;
    let (end, meter) = run_machine(&mut machine, &code, given, watcher, progress);
    let world = machine.world;
    Ok(RunReport {
        end,
        held: meter.held(power),
        meter,
        output: world.output,
        kept: None,
    })
}

/// The report of the run of an image with an input. Where there are notes of loops, it says whether they are kept. How far the run is is told.
pub fn report<P: Progress>(
    alloc: Global,
    given: &ImageRun<'_>,
    input: &[u8],
    notes: Option<LoopNotes>,
    progress: &mut P,
) -> Result<RunReport, NoMemory>
    requires start { given.now.start ≡ starting_level (length given.now.power.now.levels) given.now.view.now.keyed_segment }
    requires is_level { given.now.start < length given.now.power.now.levels }
    ensures { IfOk result (λ r. report_view r ≡ report_of given.now.power.now given.now.view.now input.now notes) }
{
    let Some(notes) = notes else {
        return watched_with_progress(alloc, given, input, &mut Unwatched, progress);
    };
    let mut monitor = Monitor::new(alloc, notes)?;
    let mut report = watched_with_progress(alloc, given, input, &mut monitor, progress)?;
    report.kept = Some(monitor.kept());
    Ok(report)
}

/// The report of the run of an image with an input, whose loops a counter counts. It says whether the counter's notes are kept. How far the run is is
/// told.
pub fn counted_report<P: Progress>(
    alloc: Global,
    given: &ImageRun<'_>,
    input: &[u8],
    counter: &mut LoopCounter,
    progress: &mut P,
) -> Result<RunReport, NoMemory>
    requires start { given.now.start ≡ starting_level (length given.now.power.now.levels) given.now.view.now.keyed_segment }
    requires is_level { given.now.start < length given.now.power.now.levels }
    ensures report { IfOk result (λ r. report_view r ≡ report_of given.now.power.now given.now.view.now input.now
        (Some counter.old.notes)) }
    ensures kept { IfOk result (λ r. r.kept ≡ Some counter.new.kept) }
    ensures counted { OnOk result (counter.new ≡ counted_run given.now.view.now (length given.now.power.now.levels) input.now
        counter.old.notes counter.old.most given.now.power.now.steps) }
{
    counter.begin();
    let mut report = watched_with_progress(alloc, given, input, counter, progress)?;
    report.kept = Some(counter.kept());
    Ok(report)
}
