//! The ranges of a loop.

ghost use Rattle.std.specs.Prelude.{◌≡◌, ◌≤◌, length, IfOk, option_map};
ghost use Rattle.toml.specs.View.{view, items_view};
ghost use Rattle.loop_file.specs.Addresses.{worse, both, in_order, pair_of, read_range, all_ranges, read_ranges};

use crate::address::{Fault, address};
use crate::notes::RangeList;
use scale_base::Range;
use std::alloc::{AllocError, Global};
use symbol_index::SortedSymbols;
use toml::Value;

// Of two faults, an absent symbol decides only where nothing else is wrong.
fn worse(one: Fault, other: Fault) -> Fault
    ensures { result ≡ worse one other }
{
    match one {
        Fault::Bad => Fault::Bad,
        Fault::Absent => other,
    }
}

fn both(one: Result<u32, Fault>, other: Result<u32, Fault>) -> Result<(u32, u32), Fault>
    ensures { result ≡ both one other }
{
    match (one, other) {
        (Ok(from), Ok(to)) => Ok((from, to)),
        (Ok(_), Err(fault)) => Err(fault),
        (Err(fault), Ok(_)) => Err(fault),
        (Err(fault), Err(next)) => Err(worse(fault, next)),
    }
}

fn in_order(ends: (u32, u32)) -> Result<Range, Fault>
    ensures { result ≡ in_order ends }
{
    if ends.0 < ends.1 {
        Ok(Range {
            from: ends.0,
            to: ends.1,
        })
    } else {
        Err(Fault::Bad)
    }
}

#[tactic(auto, using(crate::proofs::Pairs::pair_of_other))]
fn pair_of(items: &[Value]) -> Option<(&Value, &Value)>
    ensures { option_map (λ p. (view p.0.now, view p.1.now)) result ≡ pair_of (items_view items.now) }
{
    if items.len() != 2 {
        return None;
    }
    Some((&items[0], &items[1]))
}

#[tactic(auto, unfolding(crate::specs::Addresses::read_range))]
fn range(symbols: &SortedSymbols<'_>, value: &Value) -> Result<Range, Fault>
    ensures { result ≡ read_range symbols.now (view value.now) }
{
    let Some(items) = value.as_array() else {
        return Err(Fault::Bad);
    };
    let Some((from, to)) = pair_of(items.as_slice()) else {
        return Err(Fault::Bad);
    };
    in_order(both(address(symbols, from), address(symbols, to))?)
}

// A fault ends nothing: a worse one may follow.
fn all_ranges(
    alloc: Global,
    symbols: &SortedSymbols<'_>,
    items: &[Value],
) -> Result<Result<RangeList, Fault>, AllocError>
    ensures ranges { IfOk result (λ r. r ≡ all_ranges symbols.now (items_view items.now)) }
    ensures count { IfOk result (λ r. IfOk r (λ ranges. length ranges ≡ length items.now)) }
{
    let mut ranges = Vec::new(alloc);
    let mut fault: Option<Fault> = None;
    for item in items {
        match (range(symbols, item), fault) {
            (Ok(range), None) => ranges.push(range)?,
            (Ok(_), Some(_)) => {}
            (Err(found), None) => fault = Some(found),
            (Err(found), Some(before)) => fault = Some(worse(before, found)),
        }
    }
    match fault {
        None => Ok(Ok(RangeList::from_vec(ranges))),
        Some(fault) => Ok(Err(fault)),
    }
}

/// The ranges of a value: 1 to 16 of them.
#[tactic(auto, unfolding(crate::specs::Addresses::read_ranges), using(crate::proofs::Counts::items_count_view))]
pub fn ranges_of(
    alloc: Global,
    symbols: &SortedSymbols<'_>,
    value: &Value,
) -> Result<Result<RangeList, Fault>, AllocError>
    ensures ranges { IfOk result (λ r. r ≡ read_ranges symbols.now (view value.now)) }
    ensures few { IfOk result (λ r. IfOk r (λ ranges. (1 ≤ length ranges) × (length ranges ≤ 16))) }
{
    let Some(items) = value.as_array() else {
        return Ok(Err(Fault::Bad));
    };
    if items.is_empty() || 16 < items.len() {
        return Ok(Err(Fault::Bad));
    }
    all_ranges(alloc, symbols, items.as_slice())
}
