//! The targets of a jump.

ghost use Rattle.std.specs.Prelude.{◌≡◌, ◌%◌, IfSome, IfOk, All, length, option_map};
ghost use Rattle.toml.specs.View.{view, items_view};
ghost use Rattle.jump_lists.specs.Notes.{are_distinct, IsAligned, AreTargets};
ghost use Rattle.jump_lists.specs.Jumps.{target_address, all_targets, targets_in, targets_of};

use crate::notes::TargetList;
use std::alloc::{AllocError, Global};
use table_keys::number_of;
use toml::Value;

const MOST_TARGETS: usize = 128;

/// The address of a word that a value gives.
pub fn address(value: &Value) -> Option<u32>
    ensures value { result ≡ target_address (view value.now) }
    ensures aligned { IfSome result IsAligned }
{
    let at = number_of(value, 0, 0xFFFF_FFFF)? as u32;
    if at % 4 == 0 { Some(at) } else { None }
}

fn are_distinct(targets: &[u32]) -> bool
    ensures { result ≡ are_distinct targets.now }
{
    match targets {
        [] => true,
        [first, others @ ..] => !others.contains(first) && are_distinct(others),
    }
}

fn all_addresses(alloc: Global, items: &[Value]) -> Result<Option<Vec<u32>>, AllocError>
    ensures addresses { IfOk result (λ found. option_map (λ v. v.items) found ≡ all_targets (items_view items.now)) }
    ensures count { IfOk result (λ found. IfSome found (λ v. length v.items ≡ length items.now)) }
    ensures aligned { IfOk result (λ found. IfSome found (λ v. All IsAligned v.items)) }
{
    let mut addresses = Vec::new(alloc);
    for item in items {
        match address(item) {
            Some(at) => addresses.push(at)?,
            None => return Ok(None),
        }
    }
    Ok(Some(addresses))
}

/// The targets of a value: 1 to 128 distinct addresses.
#[tactic(auto, unfolding(crate::specs::Jumps::targets_of), using(crate::proofs::Counts::items_count_view))]
pub fn targets_of(alloc: Global, value: &Value) -> Result<Option<TargetList>, AllocError>
    ensures targets { IfOk result (λ r. r ≡ targets_of (view value.now)) }
    ensures kept { IfOk result (λ r. IfSome r AreTargets) }
{
    let Some(items) = value.as_array() else {
        return Ok(None);
    };
    if items.is_empty() || MOST_TARGETS < items.len() {
        return Ok(None);
    }
    let Some(addresses) = all_addresses(alloc, items.as_slice())? else {
        return Ok(None);
    };
    if !are_distinct(&addresses) {
        return Ok(None);
    }
    Ok(Some(TargetList::from_vec(addresses)))
}
