//! Laws that two answers about one program agree: the graphs of its code, its loops and its numbers, or why these are refused.
//! Two graphs may differ in the numbers of functions after the first, and two refusals in the cycle that they name.
//! The definitions stand in `specs/`. The laws are the contracts of functions with empty bodies.
//! Tests: none, since nothing of it runs.
#![tactic(auto)]

ghost use Rattle.answer_laws.specs.Laws.{GraphIsNotRefused, CodeRefusalsAgree, GraphsAreRenumbered, WeightsAgree, TreeIsNotRefused, LoopRefusalsAgree, TreesAgree, NumbersAreAlike, ChargedAreAlike};

/// A text has graphs or refusals of its code, and not both. Two refusals are the same but for the cycle of a recursion; two graphs
/// are the same but for the numbers of functions.
pub fn codes_agree()
    ensures not_both { GraphIsNotRefused }
    ensures refusals { CodeRefusalsAgree }
    ensures graphs { GraphsAreRenumbered }
    ensures weights { WeightsAgree }
{}

/// Over two such graphs the loops of notes have trees or refusals, and not both. Two refusals are the same but for the cycle that no
/// loop bounds; two trees list the same loops.
pub fn loops_agree()
    ensures not_both { TreeIsNotRefused }
    ensures refusals { LoopRefusalsAgree }
    ensures trees { TreesAgree }
{}

/// Under the same weights of edges, programs with such loops have the same worst cycles, iterations, slacks and rests.
pub fn numbers_agree()
    ensures { NumbersAreAlike }
{}

/// They have the same least cycles, at each node and behind each edge.
pub fn least_cycles_agree()
    ensures { ChargedAreAlike }
{}
