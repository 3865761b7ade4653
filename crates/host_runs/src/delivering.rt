//! Stores and prints what a command gives.

ghost use Rattle.std.specs.Prelude.{◌≡◌, length, option_map, IsOk, IfErr, OnOk, OnErr, is_err};
ghost use Rattle.host_files.specs.Host.{count_if};
ghost use Rattle.host_runs.specs.Delivered.{with_stores, IsDelivered, FailedInStore, IsCutShort, HasRoom, stores_spent};
ghost use Rattle.host_runs.specs.Views.{store_views};

use crate::reply::Store;
use host_files::{Host, HostError};

/// Makes stores in order.
pub fn store_all<H: Host>(host: &mut H, stores: &[Store]) -> Result<(), HostError>
    ensures ok { OnOk result ((H.state host.new).files ≡ option_map (with_stores (store_views stores.now)) (H.state host.old).files) }
    ensures printed { (H.state host.new).printed ≡ (H.state host.old).printed }
    ensures err { OnErr result (FailedInStore (store_views stores.now) (H.state host.old) (H.state host.new)) }
    ensures faults { (H.state host.new).faults ≡ count_if (is_err result) (H.state host.old).faults }
    ensures store_faults { (H.state host.new).store_faults ≡ count_if (is_err result) (H.state host.old).store_faults }
    ensures only_failed { IfErr result (λ error. error ≡ HostError.Failed) }

    // A steady host with room makes them all.
    ensures steady { HasRoom (H.state host.old).room (store_views stores.now) 0 → IsOk result }
    ensures spent { OnOk result ((H.state host.new).room ≡ option_map (stores_spent (store_views stores.now)) (H.state host.old).room) }
{
    for store in stores {
        host.store(store.name.as_str(), &store.bytes)?;
    }
    Ok(())
}

/// Makes stores in order, and then prints a text.
pub fn deliver<H: Host>(host: &mut H, stores: &[Store], text: &[u8]) -> Result<(), HostError>
    ensures ok { OnOk result (IsDelivered (store_views stores.now) text.now (H.state host.old) (H.state host.new)) }
    ensures err { OnErr result (IsCutShort (store_views stores.now) text.now (H.state host.old) (H.state host.new)) }
    ensures faults { (H.state host.new).faults ≡ count_if (is_err result) (H.state host.old).faults }
    ensures only_failed { IfErr result (λ error. error ≡ HostError.Failed) }
    ensures steady { HasRoom (H.state host.old).room (store_views stores.now) (length text.now) → IsOk result }
{
    store_all(host, stores)?;
    host.print(text)
}
