//! A host in memory that fails for a missing file and for want of room alone.

ghost use Rattle.std.specs.Prelude.{◌≡◌, ◌++◌, ◌+◌, [], Some, length, refl};
ghost use Rattle.host_files.specs.HostState.{Room};
ghost use Rattle.host_files.specs.MemState.{mem_state, steady_state};

use crate::{Host, HostError, Loaded, MemHost};
use std::alloc::Global;

/// A host in memory of which no call is to fail.
#[derive(Drop)]
pub struct NeverFails {
    inner: MemHost,
    ghost none_listed: { length inner.fail ≡ 0 },
}

impl NeverFails {
    /// That host, of which no call has failed yet.
    pub fn new(inner: MemHost) -> NeverFails
        requires list { inner.fail ≡ [] }
        requires count { inner.faults ≡ 0 }
        ensures { result.inner ≡ inner }
    {
        NeverFails { inner }
    }

    /// The host inside.
    pub fn inner(&self) -> &MemHost
        ensures { result.now ≡ self.now.inner }
    {
        &self.inner
    }
}

impl Host for NeverFails {
    // It is always steady.
    ghost state = { λ host. steady_state host.inner };

    ghost steady_tells = { λ host steady. (refl, refl) };

    fn load(&mut self, alloc: Global, name: &str, limit: u64) -> Result<Loaded, HostError> {
        self.inner.load(alloc, name, limit)
    }

    fn store(&mut self, name: &str, bytes: &[u8]) -> Result<(), HostError> {
        self.inner.store(name, bytes)
    }

    fn print(&mut self, bytes: &[u8]) -> Result<(), HostError> {
        self.inner.print(bytes)
    }
}
