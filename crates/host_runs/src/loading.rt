//! The files of a command.

ghost use Rattle.std.specs.Prelude.{◌≡◌, ◌≤◌, length, None, IfSome, IfOk, IsSome, IfErr};
ghost use Rattle.host_files.specs.HostState.{IsUntouched};
ghost use Rattle.host_files.specs.Host.{count_if, is_failed};
ghost use Rattle.host_runs.specs.Loading.{loading_of, Missing};
ghost use Rattle.host_runs.specs.Loaded.{LoadsAs, AreLoadedWithin};
ghost use Rattle.host_runs.specs.Views.{want_views};

use host_files::{Host, HostError, Loaded};
use std::alloc::Global;

/// A file that a command loads, and how long it may be.
#[derive(Clone, Copy)]
pub struct Want<'a> {
    pub name: &'a str,
    pub limit: u64,
}

/// The files that were wanted, or the number of the first that is too long.
#[derive(Drop)]
pub enum AllLoaded {
    Whole(Vec<Vec<u8>>),
    TooLong(usize),
}

/// Loads files in order.
pub fn load_all<H: Host>(
    host: &mut H,
    alloc: Global,
    wants: &[Want<'_>],
) -> Result<AllLoaded, HostError>
    ensures told { IfSome (H.state host.old).files (λ files. LoadsAs (want_views wants.now) (loading_of (want_views wants.now) files)
        result) }
    ensures within { IfOk result (AreLoadedWithin (want_views wants.now)) }
    ensures untouched { IsUntouched (H.state host.old) (H.state host.new) }
    ensures faults { (H.state host.new).faults ≡ count_if (is_failed result) (H.state host.old).faults }
    ensures steady { IfErr result (λ error. error ≡ HostError.Failed → IsSome (H.state host.old).room →
        IfSome (H.state host.old).files (λ files. loading_of (want_views wants.now) files ≡ Missing)) }
{
    let mut loaded = Vec::new(alloc);
    for (index, want) in wants.iter().enumerate() {
        match host.load(alloc, want.name, want.limit) {
            Ok(Loaded::Whole(bytes)) => loaded.push(bytes).map_err(|_| HostError::OutOfMemory)?,
            Ok(Loaded::TooLong) => return Ok(AllLoaded::TooLong(index)),
            Err(error) => return Err(error),
        }
    }
    Ok(AllLoaded::Whole(loaded))
}
