//! The law of counts: numbers of times that the edges of a program are taken, found by function and by loop, are those of a walk.
//! Tests: none, since nothing of it runs.
#![tactic(auto)]

ghost use Rattle.walk_laws.specs.Walks.{CountsAreOfWalks};

/// Where each function has a plain path from its entry and each loop an iteration, counts that fit together are those of a walk through
/// the program, along which each entry of a loop takes as many back edges as its bound says.
pub fn counts_are_of_walks()
    ensures { CountsAreOfWalks }
{}
