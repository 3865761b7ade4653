//! What an image takes that is fitted to inputs.

ghost use Rattle.std.specs.Prelude.{◌≡◌, ◌≤◌, length, map, string_bytes, IfOk, IfSome};
ghost use Rattle.std.specs.List.{All};
ghost use Rattle.pace_fit.specs.Finding.{IsPrepared};
ghost use Rattle.versioned_images.specs.Versions.{IsVersionOf};
ghost use Rattle.version_fits.specs.Chosen as chosen;
ghost use Rattle.version_fits.specs.Goals.{IsFitBy, IsVersionFit};

use crate::goal::FitGoal;
use crate::loop_files::file_of_version;
use crate::proposals::{cycles_of, proposals_of};
use gain_tuner::GivenFiles;
use pace_fit::{Fitted, Prepared, choose, prepare};
use power_model::Power;
use run_progress::Progress;
use scale_base::{FILE_LIMIT, IMAGE_LIMIT, NoMemory, Stop};
use std::alloc::Global;
use versioned_images::Version;

/// The numbers of a fitted image, and which inputs count; what is stored of it; and by input the cycles of the original's run, where it counts, and the energy
/// units of a cycle at the level at which `hold` runs it.
#[derive(Drop)]
pub struct Fit {
    pub fitted: Fitted,
    pub flags: Vec<bool>,
    pub stored: Vec<u8>,
    pub cycles: Vec<Option<u64>>,
    pub rate: u128,
}

// The energy units of a cycle at a level.
fn rate_of(power: &Power, level: u8) -> u128 {
    if level < power.levels.count() {
        u128::from(power.levels.get(level).energy)
    } else {
        0
    }
}

// What a prepared program takes.
fn fit_prepared<P: Progress>(
    alloc: Global,
    given: &GivenFiles<'_>,
    prepared: Prepared,
    progress: &mut P,
) -> Result<Fit, NoMemory>
    requires image { length given.now.image.now ≤ IMAGE_LIMIT }
    requires machine { length given.now.machine.now ≤ FILE_LIMIT }
    requires loops { length given.now.loops.now ≤ FILE_LIMIT }
    requires few { length given.now.inputs.now ≤ 64 }
    requires inputs { All (λ input. length input.items ≤ FILE_LIMIT) given.now.inputs.now }
    requires prepared { IsPrepared given.now.image.now given.now.machine.now given.now.loops.now
        (map (λ input. input.items) given.now.inputs.now) prepared }
    ensures { IfOk result (λ fit. chosen.IsFitBy given.now.image.now given.now.machine.now given.now.loops.now
        (map (λ input. input.items) given.now.inputs.now) fit.flags.items fit.fitted) }
{
    let proposals = proposals_of(alloc, given, &prepared.endings, progress)?;
    let (stored, fitted) = choose(alloc, given, &prepared, &proposals, progress)?;
    let cycles = cycles_of(alloc, &prepared.endings)?;
    let rate = rate_of(&prepared.power, prepared.summary.start);
    Ok(Fit {
        fitted,
        flags: prepared.flags,
        stored,
        cycles,
        rate,
    })
}

/// What an image takes with a loop file, if nothing refuses them.
pub fn fit_file<P: Progress>(
    alloc: Global,
    goal: &FitGoal<'_>,
    image: &[u8],
    loops: &[u8],
    progress: &mut P,
) -> Result<Option<Fit>, NoMemory>
    requires image { length image.now ≤ IMAGE_LIMIT }
    requires loops { length loops.now ≤ FILE_LIMIT }
    ensures { IfOk result (λ fit. IfSome fit (λ fit. IsFitBy goal.now image.now loops.now fit.flags.items fit.fitted)) }
{
    let given = GivenFiles {
        image,
        machine: goal.machine,
        loops,
        inputs: goal.inputs,
    };
    match prepare(alloc, &given, progress) {
        Ok(prepared) => Ok(Some(fit_prepared(alloc, &given, prepared, progress)?)),
        Err(Stop::Refused(_)) => Ok(None),
        Err(Stop::Memory) => Err(NoMemory),
    }
}

/// What a version takes, with a loop file of its own.
#[derive(Drop)]
pub struct VersionFit {
    pub loops: String,
    pub fit: Fit,
}

// What it takes with this loop file, if nothing refuses them.
fn fit_with<P: Progress>(
    alloc: Global,
    goal: &FitGoal<'_>,
    image: &[u8],
    loops: String,
    progress: &mut P,
) -> Result<Option<VersionFit>, NoMemory>
    requires image { length image.now ≤ IMAGE_LIMIT }
    requires loops { length (string_bytes loops) ≤ FILE_LIMIT }
    ensures fit { IfOk result (λ made. IfSome made (λ made. IsFitBy goal.now image.now (string_bytes loops) made.fit.flags.items made.fit.fitted)) }
    ensures loops { IfOk result (λ made. IfSome made (λ made. made.loops ≡ loops)) }
{
    match fit_file(alloc, goal, image, loops.as_bytes(), progress)? {
        Some(fit) => Ok(Some(VersionFit { loops, fit })),
        None => Ok(None),
    }
}

/// What a version of a program takes, if it isn't too long to be loaded, has a loop file, and nothing refuses them.
pub fn fit_version<P: Progress>(
    alloc: Global,
    goal: &FitGoal<'_>,
    plain: &[u8],
    version: &Version,
    progress: &mut P,
) -> Result<Option<VersionFit>, NoMemory>
    requires { IsVersionOf plain.now version.now }
    ensures { IfOk result (λ made. IfSome made (λ made. IsVersionFit goal.now plain.now version.now (string_bytes made.loops) made.fit.flags.items
        made.fit.fitted)) }
{
    if version.file.len() > IMAGE_LIMIT {
        return Ok(None);
    }
    match file_of_version(alloc, goal, plain, version, progress)? {
        Some(loops) => fit_with(alloc, goal, &version.file, loops, progress),
        None => Ok(None),
    }
}
