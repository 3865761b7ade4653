//! Chains of the places of a list by their keys.

use crate::programs::expect_same;
use graph_algorithms::find_chains;
use std::test::Fail;

/// Keys, and the last places that have them.
static LAST: [(usize, Option<usize>); 4] = [(0, Some(6)), (1, None), (2, Some(4)), (3, None)];

/// Places, and those before them with the same key.
static BEFORE: [(usize, Option<usize>); 6] = [
    (6, Some(2)),
    (2, None),
    (4, Some(3)),
    (3, Some(0)),
    (0, None),
    (5, None),
];

#[test]
fn chains_lead_down_from_the_last_place(rt: HostRuntime) -> Result<(), Fail> {
    let keys = [Some(2), None, Some(0), Some(2), Some(2), None, Some(0)];
    let chains = find_chains(rt.alloc(), &keys, 4)?;
    for (key, place) in &LAST {
        if *key < 4 {
            expect_same(&rt, *key as u64, chains.last(*key), *place);
        }
    }
    for (place, before) in &BEFORE {
        if *place < 7 {
            expect_same(&rt, *place as u64, chains.before(*place), *before);
        }
    }
    Ok(())
}

#[test]
fn no_place_has_a_key(rt: HostRuntime) -> Result<(), Fail> {
    let chains = find_chains(rt.alloc(), &[None, None], 1)?;
    expect_same(&rt, 0, (chains.last(0), chains.before(1)), (None, None));
    let empty = find_chains(rt.alloc(), &[], 1)?;
    expect_same(&rt, 1, empty.last(0), None);
    Ok(())
}
