//! The version by which a program takes less energy.

ghost use Rattle.std.specs.Prelude.{◌≡◌, ◌<◌, ◌≤◌, length, true, None, IfOk, IfSome};
ghost use Rattle.std.specs.List.{All};
ghost use Rattle.versioned_images.specs.Versions.{IsVersionOf};
ghost use Rattle.version_fits.specs.Goals.{IsBest, IsChosenVersion, IsLoopFile, IsPlainFit};

use crate::fits::{Fit, VersionFit, fit_file, fit_version};
use crate::goal::FitGoal;
use crate::loop_files::drafted_file;
use crate::trying::HeldRuns;
use pace_fit::Fitted;
use run_progress::Progress;
use scale_base::{FILE_LIMIT, IMAGE_LIMIT, NoMemory};
use std::alloc::Global;
use versioned_images::{Version, find_versions};

/// A version of a program with its loop file, and the numbers of a fit of the program without it and of one with it.
#[derive(Drop)]
pub struct ChosenVersion {
    pub version: Version,
    pub loops: String,
    pub without: Fitted,
    pub fitted: Fitted,
}

// Whether the same inputs count.
fn are_same(flags: &[bool], others: &[bool]) -> bool
    ensures { result ≡ true → flags.now ≡ others.now }
{
    match (flags, others) {
        ([], []) => true,
        ([flag, flags @ ..], [other, others @ ..]) => flag == other && are_same(flags, others),
        _ => false,
    }
}

// Whether a fit takes less than another one by more than a sixty-fourth, on the same inputs. Of versions whose copies run up to greater limits, which are
// tried first, more new inputs profit: one with a lesser limit has to be worth it.
fn takes_less(fit: &Fit, than: &Fit) -> bool
    ensures less { result ≡ true → fit.now.fitted.energy < than.now.fitted.energy }
    ensures same { result ≡ true → fit.now.flags.items ≡ than.now.flags.items }
{
    fit.fitted.energy < than.fitted.energy - than.fitted.energy / 64
        && are_same(&fit.flags, &than.flags)
}

// Whether a fit saves at least 40 thousandths of what the image at one level takes: of what saves less, new inputs often take more.
fn saves_enough(fit: &Fit, held: u128) -> bool {
    fit.fitted.energy <= held.saturating_sub(held / 25)
}

// A version with its loop file.
#[derive(Drop)]
struct Tried {
    version: Version,
    loops: String,
}

// The fit that is chosen so far, and the version that it is of, if it isn't that of the program itself.
#[derive(Drop)]
struct Best {
    version: Option<Tried>,
    fit: Fit,
}

// An image, what it is fitted to, the numbers of its own fit, and its runs at one level.
#[derive(Clone, Copy)]
struct PlainFit<'a> {
    goal: &'a FitGoal<'a>,
    image: &'a [u8],
    fitted: Fitted,
    held: &'a HeldRuns<'a>,
}

// The fit that is chosen so far, or that of this version where it takes less, and not much more than the program at one level on any input.
fn try_version<P: Progress>(
    alloc: Global,
    plain: &PlainFit<'_>,
    best: Best,
    version: Version,
    progress: &mut P,
) -> Result<Best, NoMemory>
    requires best { IsBest plain.now.goal.now plain.now.image.now plain.now.fitted best }
    requires version { IsVersionOf plain.now.image.now version }
    ensures { IfOk result (IsBest plain.now.goal.now plain.now.image.now plain.now.fitted) }
{
    let made = fit_version(alloc, plain.goal, plain.image, &version, progress)?;
    if let Some(VersionFit { loops, fit }) = made {
        if saves_enough(&fit, plain.fitted.hold_energy)
            && takes_less(&fit, &best.fit)
            && !plain.held.loses(alloc, &fit.stored, progress)?
        {
            return Ok(Best {
                version: Some(Tried { version, loops }),
                fit,
            });
        }
    }
    Ok(best)
}

// The fit that is chosen of a program and its versions.
fn best_of<P: Progress>(
    alloc: Global,
    plain: &PlainFit<'_>,
    first: Fit,
    versions: Vec<Version>,
    progress: &mut P,
) -> Result<Best, NoMemory>
    requires first { IsPlainFit plain.now.goal.now plain.now.image.now first.flags.items plain.now.fitted }
    requires least { first.fitted.energy ≤ plain.now.fitted.energy }
    requires versions { All (IsVersionOf plain.now.image.now) versions.items }
    ensures { IfOk result (IsBest plain.now.goal.now plain.now.image.now plain.now.fitted) }
{
    let mut best = Best {
        version: None,
        fit: first,
    };
    for version in versions {
        best = try_version(alloc, plain, best, version, progress)?;
    }
    Ok(best)
}

// The choice among versions of a program that is fitted so.
fn chosen_of<P: Progress>(
    alloc: Global,
    plain: &PlainFit<'_>,
    first: Fit,
    versions: Vec<Version>,
    progress: &mut P,
) -> Result<Option<ChosenVersion>, NoMemory>
    requires first { IsPlainFit plain.now.goal.now plain.now.image.now first.flags.items plain.now.fitted }
    requires least { first.fitted.energy ≤ plain.now.fitted.energy }
    requires versions { All (IsVersionOf plain.now.image.now) versions.items }
    ensures { IfOk result (λ chosen. IfSome chosen (IsChosenVersion plain.now.goal.now plain.now.image.now)) }
{
    let Best { version, fit } = best_of(alloc, plain, first, versions, progress)?;
    match version {
        Some(Tried { version, loops }) => Ok(Some(ChosenVersion {
            version,
            loops,
            without: plain.fitted,
            fitted: fit.fitted,
        })),
        None => Ok(None),
    }
}

// The choice among the versions of a program with a loop file.
fn choose_by<P: Progress>(
    alloc: Global,
    goal: &FitGoal<'_>,
    plain: &[u8],
    loops: &[u8],
    progress: &mut P,
) -> Result<Option<ChosenVersion>, NoMemory>
    requires plain { length plain.now ≤ IMAGE_LIMIT }
    requires short { length loops.now ≤ FILE_LIMIT }
    requires loops { IsLoopFile goal.now plain.now loops.now }
    ensures { IfOk result (λ chosen. IfSome chosen (IsChosenVersion goal.now plain.now)) }
{
    let versions = find_versions(alloc, plain, loops)?;
    if versions.is_empty() {
        return Ok(None);
    }
    match fit_file(alloc, goal, plain, loops, progress)? {
        Some(first) => {
            let held = HeldRuns::new(alloc, goal, plain, loops, &first, progress)?;
            let plain = PlainFit {
                goal,
                image: plain,
                fitted: first.fitted,
                held: &held,
            };
            chosen_of(alloc, &plain, first, versions, progress)
        }
        None => Ok(None),
    }
}

// The same with a draft of its loop file.
fn choose_drafted<P: Progress>(
    alloc: Global,
    goal: &FitGoal<'_>,
    plain: &[u8],
    progress: &mut P,
) -> Result<Option<ChosenVersion>, NoMemory>
    requires plain { length plain.now ≤ IMAGE_LIMIT }
    requires none { goal.now.given ≡ None }
    ensures { IfOk result (λ chosen. IfSome chosen (IsChosenVersion goal.now plain.now)) }
{
    match drafted_file(alloc, goal, plain, progress)? {
        Some(file) => choose_by(alloc, goal, plain, file.as_bytes(), progress),
        None => Ok(None),
    }
}

/// A version by which a program takes less energy on the inputs that count, by more than a sixty-fourth, and 40 thousandths less than its image at one level,
/// and on no input takes over 2 percent more than that image: on none that counts, and on none of those that `switch_search` derives from these, on which
/// the program exits and keeps its loop file; but for inputs on which the program runs fewer than 64 cycles, and as long as these runs take few steps in all.
/// It is the last one of those that are tried of which this is so, and which takes less than all before it of which it is so. None where no version takes so
/// much less than the program itself, where a loop of it is open, or where something refuses it. Each is fitted with a loop file: the program with the one that
/// is given, a version with one that is made by that; or else each with a draft of its loops. A version is left out where it has no such file, where a loop of
/// its draft is open, or where other inputs count. Which versions are tried isn't promised: at most 8. How far the runs are is told.
pub fn choose_version<P: Progress>(
    alloc: Global,
    goal: &FitGoal<'_>,
    plain: &[u8],
    progress: &mut P,
) -> Result<Option<ChosenVersion>, NoMemory>
    requires { length plain.now ≤ IMAGE_LIMIT }
    ensures { IfOk result (λ chosen. IfSome chosen (IsChosenVersion goal.now plain.now)) }
{
    match goal.given {
        Some(loops) => choose_by(alloc, goal, plain, loops, progress),
        None => choose_drafted(alloc, goal, plain, progress),
    }
}
