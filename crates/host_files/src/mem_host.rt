//! A host in memory, which fails at the calls that it is told.

ghost use Rattle.std.specs.Prelude.{◌≡◌, ◌+◌, ◌++◌, ◌↔◌, [], length, max, option_copied, option_map, None, IfSome, IfOk, IfErr, IsSome, IsOk, OnOk, OnErr, is_err, refl};
ghost use Rattle.std.specs.FinMap as map;
ghost use Rattle.host_files.specs.HostState.{IsUntouched};
ghost use Rattle.host_files.specs.Host.{IsLoadedWithin, LoadTells, MayHoldAnything, PrintsPrefix, HasStoreRoom, HasPrintRoom, store_spent, print_spent, count_if, is_failed};
ghost use Rattle.host_files.specs.MemState.{mem_state, load_fails, store_fails, print_fails, call_counted, after_store, after_print};

use crate::stored::{self, Place};
use crate::{Host, HostError, Loaded};
use scale_base::NoMemory;
use std::alloc::Global;
use std::marker::Model;

/// A host in memory: files, printed bytes, the room that is left, and the numbers of the calls that are to fail.
///
/// Its names and what its files hold stand in one buffer, so that `store` and `print` take no memory: `reserve` takes it.
#[derive(Drop)]
pub struct MemHost {
    bytes: Vec<u8>,
    places: Vec<Place>,
    printed: Vec<u8>,
    stores_left: u32,
    bytes_left: u64,
    fail: Vec<u64>,
    calls: u64,
    faults: u64,
    store_faults: u64,
}

impl Model for MemHost {
    ghost use Rattle.host_files.specs.MemState.{MemState, mem_state_code};

    ghost Value = { MemState };

    ghost coded = { mem_state_code };

    ghost use Rattle.host_files.specs.MemHost.{mem_view, IsSoundHost};

    ghost view = { mem_view };

    ghost invariant = { IsSoundHost };
}

impl MemHost {
    /// A host with no files and no room, whose calls of these numbers, from 1, fail.
    pub fn new(alloc: Global, fail: Vec<u64>) -> MemHost
        ensures { result ≡ record {
          files = map.empty;
          printed = [];
          room = record { stores = 0; bytes = 0 };
          fail = fail.items;
          calls =
              0;
          faults = 0;
          store_faults = 0;
        } }
    {
        MemHost {
            bytes: Vec::new(alloc),
            places: Vec::new(alloc),
            printed: Vec::new(alloc),
            stores_left: 0,
            bytes_left: 0,
            fail,
            calls: 0,
            faults: 0,
            store_faults: 0,
        }
    }

    /// Adds a file, and leaves the room as it is.
    pub fn add_file(&mut self, name: &str, bytes: &[u8]) -> Result<(), NoMemory>
        ensures ok { OnOk result (self.new ≡ record self.old { files = map.insert self.old.files name.now bytes.now }) }
        ensures err { OnErr result (self.new ≡ self.old) }
    {
        let taken = match name.len().checked_add(bytes.len()) {
            Some(taken) => taken,
            None => return Err(NoMemory),
        };
        let room = match taken.checked_add(self.bytes_left as usize) {
            Some(room) => room,
            None => return Err(NoMemory),
        };
        if self.bytes.reserve(room).is_err()
            || self.places.reserve(self.stores_left as usize + 1).is_err()
        {
            return Err(NoMemory);
        }
        stored::add(&mut self.bytes, &mut self.places, name, bytes);
        Ok(())
    }

    /// The file of that name.
    pub fn file(&self, name: &str) -> Option<&[u8]>
        ensures { option_copied result ≡ map.get self.now.files name.now }
    {
        stored::find(&self.bytes, &self.places, name)
    }

    /// What was printed.
    pub fn printed(&self) -> &[u8]
        ensures { result.now ≡ self.now.printed }
    {
        &self.printed
    }

    /// Makes room for so many stores and so many bytes more, where there is less.
    pub fn reserve(&mut self, files: u32, bytes: u64) -> Result<(), NoMemory>
        ensures ok { OnOk result (self.new ≡ record self.old {
          room = record {
            stores = max files self.old.room.stores;
            bytes =
                max bytes self.old.room.bytes;
          };
        }) }
        ensures err { OnErr result (self.new ≡ self.old) }
    {
        let stores_left = files.max(self.stores_left);
        let bytes_left = bytes.max(self.bytes_left);
        if self.places.reserve(stores_left as usize).is_err()
            || self.bytes.reserve(bytes_left as usize).is_err()
            || self.printed.reserve(bytes_left as usize).is_err()
        {
            return Err(NoMemory);
        }
        self.stores_left = stores_left;
        self.bytes_left = bytes_left;
        Ok(())
    }

    /// The stores and the bytes that are left.
    pub fn room(&self) -> (u32, u64)
        ensures { result ≡ (self.now.room.stores, self.now.room.bytes) }
    {
        (self.stores_left, self.bytes_left)
    }

    /// How many calls have failed.
    pub fn fault_count(&self) -> u64
        ensures { result ≡ self.now.faults }
    {
        self.faults
    }
}

impl Host for MemHost {
    ghost state = { mem_state };

    ghost steady_tells = { λ host steady. (refl, refl) };

    fn load(&mut self, alloc: Global, name: &str, limit: u64) -> Result<Loaded, HostError>
        ensures within { IfOk result (IsLoadedWithin limit) }
        ensures told { IfSome (mem_state self.old).files (λ files. LoadTells (map.get files name.now) limit result) }
        ensures untouched { IsUntouched (mem_state self.old) (mem_state self.new) }
        ensures faults { (mem_state self.new).faults ≡ count_if (is_failed result) (mem_state self.old).faults }
        ensures steady { IfErr result (λ error. error ≡ HostError.Failed → IsSome (mem_state self.old).room →
            IfSome (mem_state self.old).files (λ files. map.get files name.now ≡ None)) }

        // It fails exactly where its number is listed or there is no such file, and nothing but the counts changes.
        ensures fails { is_failed result ≡ load_fails self.old name.now }
        ensures after { self.new ≡ call_counted (load_fails self.old name.now) self.old }
    {
        self.calls = self.calls.saturating_add(1);
        if self.fail.contains(&self.calls) {
            self.faults = self.faults.saturating_add(1);
            return Err(HostError::Failed);
        }
        match stored::find(&self.bytes, &self.places, name) {
            None => {
                self.faults = self.faults.saturating_add(1);
                Err(HostError::Failed)
            }
            Some(bytes) if bytes.len() as u64 > limit => Ok(Loaded::TooLong),
            Some(bytes) => match bytes.to_vec(alloc) {
                Ok(copy) => Ok(Loaded::Whole(copy)),
                Err(_) => Err(HostError::OutOfMemory),
            },
        }
    }

    fn store(&mut self, name: &str, bytes: &[u8]) -> Result<(), HostError>
        ensures stored { OnOk result ((mem_state self.new).files ≡ option_map (λ files. map.insert files name.now bytes.now)
            (mem_state self.old).files) }
        ensures failed { OnErr result (MayHoldAnything name.now (mem_state self.old).files (mem_state self.new).files) }
        ensures printed { (mem_state self.new).printed ≡ (mem_state self.old).printed }
        ensures faults { (mem_state self.new).faults ≡ count_if (is_err result) (mem_state self.old).faults }
        ensures store_faults { (mem_state self.new).store_faults ≡ count_if (is_err result) (mem_state self.old).store_faults }
        ensures only_failed { IfErr result (λ error. error ≡ HostError.Failed) }
        ensures steady { IsSome (mem_state self.old).room → (IsOk result ↔ HasStoreRoom (mem_state self.old).room
            (length name.now + length bytes.now)) }
        ensures spent { OnOk result ((mem_state self.new).room ≡ option_map (store_spent (length name.now + length bytes.now))
            (mem_state self.old).room) }
        ensures unspent { OnErr result ((mem_state self.new).room ≡ (mem_state self.old).room) }

        // It fails exactly where its number is listed or there is no room, and then nothing but the counts changes.
        ensures fails { is_err result ≡ store_fails self.old (length name.now + length bytes.now) }
        ensures after { self.new ≡ after_store name.now bytes.now self.old }
    {
        self.calls = self.calls.saturating_add(1);
        let needed = name.len() as u64 + bytes.len() as u64;
        if self.fail.contains(&self.calls) || self.stores_left < 1 || self.bytes_left < needed {
            self.faults = self.faults.saturating_add(1);
            self.store_faults = self.store_faults.saturating_add(1);
            return Err(HostError::Failed);
        }
        stored::add(&mut self.bytes, &mut self.places, name, bytes);
        self.stores_left -= 1;
        self.bytes_left -= needed;
        Ok(())
    }

    fn print(&mut self, bytes: &[u8]) -> Result<(), HostError>
        ensures printed { OnOk result ((mem_state self.new).printed ≡ option_map (λ printed. printed ++ bytes.now)
            (mem_state self.old).printed) }
        ensures failed { OnErr result (PrintsPrefix bytes.now (mem_state self.old).printed (mem_state self.new).printed) }
        ensures files { (mem_state self.new).files ≡ (mem_state self.old).files }
        ensures faults { (mem_state self.new).faults ≡ count_if (is_err result) (mem_state self.old).faults }
        ensures store_faults { (mem_state self.new).store_faults ≡ (mem_state self.old).store_faults }
        ensures only_failed { IfErr result (λ error. error ≡ HostError.Failed) }
        ensures steady { IsSome (mem_state self.old).room → (IsOk result ↔ HasPrintRoom (mem_state self.old).room (length bytes.now)) }
        ensures spent { OnOk result ((mem_state self.new).room ≡ option_map (print_spent (length bytes.now)) (mem_state self.old).room) }
        ensures unspent { OnErr result ((mem_state self.new).room ≡ (mem_state self.old).room) }

        // It fails exactly where its number is listed or there is no room, and then nothing but the counts changes.
        ensures fails { is_err result ≡ print_fails self.old (length bytes.now) }
        ensures after { self.new ≡ after_print bytes.now self.old }
    {
        self.calls = self.calls.saturating_add(1);
        let needed = bytes.len() as u64;
        if self.fail.contains(&self.calls) || self.bytes_left < needed {
            self.faults = self.faults.saturating_add(1);
            return Err(HostError::Failed);
        }
        self.printed.extend_from_slice(bytes).unwrap();
        self.bytes_left -= needed;
        Ok(())
    }
}
