//! The host that a program has.

ghost use Rattle.std.specs.Prelude.{◌≡◌, None};

use crate::whole_file::store_whole;
use crate::{Host, HostError, Loaded};
use std::alloc::Global;
use std::fs;
use std::io::{self, Read, Write};
use std::rt::Files;

/// The system's files, by their paths, and its standard output. It tells nothing of either, and is not steady.
#[derive(Drop)]
pub struct RealHost<R> {
    runtime: R,
    faults: u64,
    store_faults: u64,
}

impl<R: Files + Print + AllocGlobal> RealHost<R> {
    /// A host of which no call has failed yet.
    pub fn new(runtime: R) -> Self
        ensures { (⟦<RealHost<R> as Host>⟧.state result).faults ≡ 0 × (⟦<RealHost<R> as Host>⟧.state result).store_faults ≡ 0 }
    {
        RealHost {
            runtime,
            faults: 0,
            store_faults: 0,
        }
    }
}

// Reads a file up to one byte more than the limit.
fn read_file<R: Files>(rt: &R, alloc: Global, name: &str, limit: u64) -> io::Result<Vec<u8>> {
    let mut bytes = Vec::new(alloc);
    fs::open(rt, name)?
        .take(limit.saturating_add(1))
        .read_to_end(&mut bytes)?;
    Ok(bytes)
}

impl<R: Files + Print + AllocGlobal> Host for RealHost<R> {
    ghost state = { λ host. record { files = None; printed = None; room = None; faults = host.faults; store_faults = host.store_faults } };

    ghost steady_tells = { λ host steady. (steady, steady) };

    fn load(&mut self, alloc: Global, name: &str, limit: u64) -> Result<Loaded, HostError> {
        match read_file(&self.runtime, alloc, name, limit) {
            Ok(bytes) if bytes.len() as u64 <= limit => Ok(Loaded::Whole(bytes)),
            Ok(_) => Ok(Loaded::TooLong),
            Err(error) if error.kind() == io::ErrorKind::OutOfMemory => Err(HostError::OutOfMemory),
            Err(_) => {
                self.faults = self.faults.saturating_add(1);
                Err(HostError::Failed)
            }
        }
    }

    fn store(&mut self, name: &str, bytes: &[u8]) -> Result<(), HostError> {
        match store_whole(&self.runtime, self.runtime.alloc(), name, bytes) {
            Ok(()) => Ok(()),
            Err(_) => {
                self.faults = self.faults.saturating_add(1);
                self.store_faults = self.store_faults.saturating_add(1);
                Err(HostError::Failed)
            }
        }
    }

    fn print(&mut self, bytes: &[u8]) -> Result<(), HostError> {
        match io::writer(&self.runtime).write_all(bytes) {
            Ok(()) => Ok(()),
            Err(_) => {
                self.faults = self.faults.saturating_add(1);
                Err(HostError::Failed)
            }
        }
    }
}
