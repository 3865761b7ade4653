//! Loops that no run turns: none comes to a node from which a way leads back to the header.

use crate::limits::Limits;
use crate::scope::Scope;
use crate::turns::Turns;
use scale_base::NoMemory;
use std::alloc::Global;

/// The limits of x0, which would have to go on at each turn.
pub const UNTURNED: Limits = Limits {
    falls: false,
    start: 0,
    width: 0,
    least: 1,
};

/// Whether a run may turn the loop.
pub fn is_turned(scope: &Scope<'_>) -> bool {
    for k in scope.nodes {
        if scope.is_live(*k) && scope.targets_of(*k).contains(&Some(scope.header)) {
            return true;
        }
    }
    false
}

/// What is added to x0 on the way through the body.
pub fn no_turns(alloc: Global, scope: &Scope<'_>) -> Result<Turns, NoMemory> {
    let count = scope.body.len();
    Ok(Turns {
        adds: vec![in alloc; 0; count]?,
        offset: vec![in alloc; 0; count]?,
        least: 0,
        most: 0,
    })
}
