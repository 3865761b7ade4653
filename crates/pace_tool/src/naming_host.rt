//! A host that remembers which of its calls failed first.

ghost use Rattle.std.specs.Prelude.{◌≡◌, ◌+◌, ◌++◌, ◌↔◌, length, option_map, None, IfOk, IfErr, IfSome, IsOk, IsSome, OnOk, OnErr, is_err};
ghost use Rattle.std.specs.FinMap.{get, insert};
ghost use Rattle.host_files.specs.HostState.{IsUntouched, count_up};
ghost use Rattle.host_files.specs.Host.{IsLoadedWithin, LoadTells, MayHoldAnything, PrintsPrefix, HasStoreRoom, HasPrintRoom, store_spent, print_spent, count_if, is_failed};
ghost use Rattle.pace_tool.specs.Naming.{first_fault};

use host_files::{Host, HostError, Loaded};
use std::alloc::Global;

/// A call of a host that failed.
#[derive(Clone, Copy)]
pub enum Fault {
    /// The load of that number, from 0.
    Load(usize),
    Store,
    Print,
}

/// A host that hands each call on to one inside, and remembers the first one that failed.
#[derive(Drop)]
pub struct NamingHost<H> {
    pub inner: H,
    /// How many loads it was asked for.
    pub loads: usize,
    pub fault: Option<Fault>,
}

/// The first call that failed.
fn first_fault(before: Option<Fault>, failed: bool, call: Fault) -> Option<Fault>
    ensures { result ≡ first_fault before failed call }
{
    match before {
        Some(fault) => Some(fault),
        None => { if failed { Some(call) } else { None } }
    }
}

/// Whether a load failed.
fn has_failed(loaded: &Result<Loaded, HostError>) -> bool
    ensures { result ≡ is_failed loaded.now }
{
    match loaded {
        Ok(_) => false,
        Err(HostError::Failed) => true,
        Err(HostError::OutOfMemory) => false,
    }
}

impl<H: Host> NamingHost<H> {
    /// That host, of which no call has failed yet.
    pub fn new(inner: H) -> NamingHost<H>
        ensures { (result.inner ≡ inner) × (result.loads ≡ 0) × (result.fault ≡ None) }
    {
        NamingHost {
            inner,
            loads: 0,
            fault: None,
        }
    }
}

impl<H: Host> Host for NamingHost<H> {
    ghost state = { λ host. H.state host.inner };

    ghost steady_tells = { λ host. H.steady_tells host.inner };

    fn load(&mut self, alloc: Global, name: &str, limit: u64) -> Result<Loaded, HostError>
        ensures within { IfOk result (IsLoadedWithin limit) }
        ensures told { IfSome (H.state self.old.inner).files (λ files. LoadTells (get files name.now) limit result) }
        ensures untouched { IsUntouched (H.state self.old.inner) (H.state self.new.inner) }
        ensures faults { (H.state self.new.inner).faults ≡ count_if (is_failed result) (H.state self.old.inner).faults }
        ensures steady { IfErr result (λ error. error ≡ HostError.Failed → IsSome (H.state self.old.inner).room →
            IfSome (H.state self.old.inner).files (λ files. get files name.now ≡ None)) }
        ensures first { self.new.fault ≡ first_fault self.old.fault (is_failed result) (Fault.Load self.old.loads) }
        ensures counted { self.new.loads ≡ count_up self.old.loads }
    {
        let loaded = self.inner.load(alloc, name, limit);
        let call = Fault::Load(self.loads);
        self.loads = self.loads.saturating_add(1);
        self.fault = first_fault(self.fault, has_failed(&loaded), call);
        loaded
    }

    fn store(&mut self, name: &str, bytes: &[u8]) -> Result<(), HostError>
        ensures stored { OnOk result ((H.state self.new.inner).files ≡ option_map (λ files. insert files name.now bytes.now)
            (H.state self.old.inner).files) }
        ensures failed { OnErr result (MayHoldAnything name.now (H.state self.old.inner).files (H.state self.new.inner).files) }
        ensures printed { (H.state self.new.inner).printed ≡ (H.state self.old.inner).printed }
        ensures faults { (H.state self.new.inner).faults ≡ count_if (is_err result) (H.state self.old.inner).faults }
        ensures store_faults { (H.state self.new.inner).store_faults ≡ count_if (is_err result) (H.state self.old.inner).store_faults }
        ensures only_failed { IfErr result (λ error. error ≡ HostError.Failed) }
        ensures steady { IsSome (H.state self.old.inner).room → (IsOk result ↔ HasStoreRoom (H.state self.old.inner).room
            (length name.now + length bytes.now)) }
        ensures spent { OnOk result ((H.state self.new.inner).room ≡ option_map (store_spent (length name.now + length bytes.now))
            (H.state self.old.inner).room) }
        ensures unspent { OnErr result ((H.state self.new.inner).room ≡ (H.state self.old.inner).room) }
        ensures first { self.new.fault ≡ first_fault self.old.fault (is_err result) Fault.Store }
    {
        let stored = self.inner.store(name, bytes);
        self.fault = first_fault(self.fault, stored.is_err(), Fault::Store);
        stored
    }

    fn print(&mut self, bytes: &[u8]) -> Result<(), HostError>
        ensures printed { OnOk result ((H.state self.new.inner).printed ≡ option_map (λ printed. printed ++ bytes.now)
            (H.state self.old.inner).printed) }
        ensures failed { OnErr result (PrintsPrefix bytes.now (H.state self.old.inner).printed (H.state self.new.inner).printed) }
        ensures files { (H.state self.new.inner).files ≡ (H.state self.old.inner).files }
        ensures faults { (H.state self.new.inner).faults ≡ count_if (is_err result) (H.state self.old.inner).faults }
        ensures store_faults { (H.state self.new.inner).store_faults ≡ (H.state self.old.inner).store_faults }
        ensures only_failed { IfErr result (λ error. error ≡ HostError.Failed) }
        ensures steady { IsSome (H.state self.old.inner).room → (IsOk result ↔ HasPrintRoom (H.state self.old.inner).room
            (length bytes.now)) }
        ensures spent { OnOk result ((H.state self.new.inner).room ≡ option_map (print_spent (length bytes.now))
            (H.state self.old.inner).room) }
        ensures unspent { OnErr result ((H.state self.new.inner).room ≡ (H.state self.old.inner).room) }
        ensures first { self.new.fault ≡ first_fault self.old.fault (is_err result) Fault.Print }
    {
        let printed = self.inner.print(bytes);
        self.fault = first_fault(self.fault, printed.is_err(), Fault::Print);
        printed
    }
}
