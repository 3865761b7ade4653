//! What is proposed for a program.

ghost use Rattle.std.specs.Prelude.{◌≡◌, ◌≤◌, length, IfOk};

use gain_tuner::GivenFiles;
use pace_fit::{Ending, is_counted};
use paced_images::Proposal;
use run_progress::Progress;
use scale_base::{FILE_LIMIT, IMAGE_LIMIT, NoMemory};
use std::alloc::Global;
use switch_search::{Files, propose};

// The cycles of a run that ends so, if its input counts.
fn counted_cycles(ending: &Ending) -> Option<u64> {
    if is_counted(ending) {
        Some(ending.cycles)
    } else {
        None
    }
}

/// The cycles of each run whose input counts.
pub fn cycles_of(alloc: Global, endings: &[Ending]) -> Result<Vec<Option<u64>>, NoMemory>
    ensures { IfOk result (λ cycles. length cycles.items ≡ length endings.now) }
{
    let mut cycles = Vec::new(alloc);
    for ending in endings {
        cycles.push(counted_cycles(ending))?;
    }
    Ok(cycles)
}

/// What is proposed for a program and its inputs, on which the runs of the original end so: up to 10 candidates. Any proposals are right: what
/// counts is the choice among their images. How far the search is is told.
pub fn proposals_of<P: Progress>(
    alloc: Global,
    given: &GivenFiles<'_>,
    endings: &[Ending],
    progress: &mut P,
) -> Result<Vec<Proposal>, NoMemory>
    requires image { length given.now.image.now ≤ IMAGE_LIMIT }
    requires machine { length given.now.machine.now ≤ FILE_LIMIT }
    requires loops { length given.now.loops.now ≤ FILE_LIMIT }
    requires few { length given.now.inputs.now ≤ 64 }
    requires endings { length endings.now ≡ length given.now.inputs.now }
    ensures { IfOk result (λ proposals. length proposals.items ≤ 10) }
{
    let cycles = cycles_of(alloc, endings)?;
    let files = Files {
        image: given.image,
        machine: given.machine,
        loops: given.loops,
    };
    propose(alloc, &files, given.inputs, &cycles, progress)
}
