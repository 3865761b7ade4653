//! What a program may ask of the outside.

ghost use Rattle.std.specs.Prelude.{◌≡◌, ◌+◌, ◌++◌, ◌↔◌, length, option_map, None, IfOk, IfErr, IfSome, IsOk, IsSome, OnOk, OnErr, is_err};
ghost use Rattle.std.specs.FinMap.{get, insert};
ghost use Rattle.host_files.specs.declared.host.HostError.TheVariants.{OutOfMemory};
ghost use Rattle.host_files.specs.HostState.{HostState, IsUntouched};
ghost use Rattle.host_files.specs.Host.{IsLoadedWithin, LoadTells, MayHoldAnything, PrintsPrefix, HasStoreRoom, HasPrintRoom, store_spent, print_spent, count_if, is_failed};

use scale_base::NoMemory;
use std::alloc::{AllocError, Global};
use thiserror::Error;

/// Why a call of a host has no answer.
#[derive(Clone, Copy, Debug, PartialEq, Eq, Error)]
pub enum HostError {
    /// The outside failed.
    #[error("host call failed")]
    Failed,
    /// Memory ran out. The outside has not failed.
    #[error("out of memory")]
    OutOfMemory,
}

impl From<AllocError> for HostError {
    ghost from_gives = { λ _ error. error ≡ OutOfMemory };

    fn from(_: AllocError) -> HostError {
        HostError::OutOfMemory
    }
}

impl From<NoMemory> for HostError {
    ghost from_gives = { λ _ error. error ≡ OutOfMemory };

    fn from(_: NoMemory) -> HostError {
        HostError::OutOfMemory
    }
}

/// A file that was asked for up to a limit.
#[derive(Debug, Drop)]
pub enum Loaded {
    /// Its bytes.
    Whole(Vec<u8>),
    /// It is longer than the limit.
    TooLong,
}

/// A host: files by name, and a place to print.
pub trait Host {
    /// What it tells and counts.
    ghost state: { Self → HostState };

    /// Reads a file of at most `limit` bytes. Nothing but the count of faults changes.
    fn load(&mut self, alloc: Global, name: &str, limit: u64) -> Result<Loaded, HostError>
        ensures within { IfOk result (IsLoadedWithin limit) }
        ensures told { IfSome (state self.old).files (λ files. LoadTells (get files name.now) limit result) }
        ensures untouched { IsUntouched (state self.old) (state self.new) }
        ensures faults { (state self.new).faults ≡ count_if (is_failed result) (state self.old).faults }

        // A steady host fails for a missing name alone.
        ensures steady { IfErr result (λ error. error ≡ HostError.Failed → IsSome (state self.old).room
            → IfSome (state self.old).files (λ files. get files name.now ≡ None)) };

    /// Makes a file of these bytes, in the place of one of that name.
    fn store(&mut self, name: &str, bytes: &[u8]) -> Result<(), HostError>
        ensures stored { OnOk result ((state self.new).files ≡ option_map (λ files. insert files name.now bytes.now)
            (state self.old).files) }
        ensures failed { OnErr result (MayHoldAnything name.now (state self.old).files (state self.new).files) }
        ensures printed { (state self.new).printed ≡ (state self.old).printed }
        ensures faults { (state self.new).faults ≡ count_if (is_err result) (state self.old).faults }
        ensures store_faults { (state self.new).store_faults ≡ count_if (is_err result) (state self.old).store_faults }
        ensures only_failed { IfErr result (λ error. error ≡ HostError.Failed) }

        // A steady host fails for want of room alone.
        ensures steady { IsSome (state self.old).room → (IsOk result ↔ HasStoreRoom (state self.old).room
            (length name.now + length bytes.now)) }
        ensures spent { OnOk result ((state self.new).room ≡ option_map (store_spent (length name.now + length bytes.now))
            (state self.old).room) }
        ensures unspent { OnErr result ((state self.new).room ≡ (state self.old).room) };

    /// Prints bytes behind those that were printed before.
    fn print(&mut self, bytes: &[u8]) -> Result<(), HostError>
        ensures printed { OnOk result ((state self.new).printed ≡ option_map (λ printed. printed ++ bytes.now) (state self.old).printed) }
        ensures failed { OnErr result (PrintsPrefix bytes.now (state self.old).printed (state self.new).printed) }
        ensures files { (state self.new).files ≡ (state self.old).files }
        ensures faults { (state self.new).faults ≡ count_if (is_err result) (state self.old).faults }
        ensures store_faults { (state self.new).store_faults ≡ (state self.old).store_faults }
        ensures only_failed { IfErr result (λ error. error ≡ HostError.Failed) }

        // A steady host fails for want of room alone.
        ensures steady { IsSome (state self.old).room → (IsOk result ↔ HasPrintRoom (state self.old).room (length bytes.now)) }
        ensures spent { OnOk result ((state self.new).room ≡ option_map (print_spent (length bytes.now)) (state self.old).room) }
        ensures unspent { OnErr result ((state self.new).room ≡ (state self.old).room) };

    /// A steady host tells its files and what it printed.
    ghost steady_tells: { (host : Self) → IsSome (state host).room → IsSome (state host).files × IsSome (state host).printed };
}
