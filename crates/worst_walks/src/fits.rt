//! Whether the numbers of a walk fit together: how often its parts are gone, and how often edges are taken.

ghost use Rattle.std.specs.Prelude.{◌≡◌, ℕ, Bool, true, length, IfOk, IfSome};
ghost use Rattle.graph_algorithms.specs.Nesting.{bodies_of};
ghost use Rattle.loop_forest.specs.Tree.{IsLoopTree};
ghost use Rattle.worst_walks.specs.Fitted.{AreTaken, AreOnes, AreCalled, AreEntered, IsWalked};

use crate::keys::{
    begun_loops, called_functions, entered_loops, first_calls, nothing_taken, ones as ones_of,
};
use crate::parts::{Parts, are_paths, are_turns};
use crate::sums::{all_turns, are_sums};
use crate::taken::take_lists;
use crate::tallies::tally;
use flow_graph::CodeGraph;
use loop_forest::LoopTree;
use scale_base::NoMemory;
use std::alloc::Global;

/// How often functions are called, and loops entered.
#[derive(Clone, Copy)]
pub struct PartTimes<'a> {
    pub calls: &'a [u64],
    pub entries: &'a [u64],
}

/// How often a walk takes edges, calls functions, and enters loops.
#[derive(Clone, Copy)]
pub struct WalkTimes<'a> {
    pub taken: &'a [u64],
    pub calls: &'a [u64],
    pub entries: &'a [u64],
}

/// By edge, how often it is taken where paths are gone once a call, and iterations as often as may be. None where the lists are no such
/// parts, or a number isn't in range.
pub fn take_parts(
    alloc: Global,
    graph: &CodeGraph,
    tree: &LoopTree,
    parts: &Parts,
    times: &PartTimes<'_>,
) -> Result<Option<Vec<u64>>, NoMemory>
    requires tree { (extent : ℕ → ℕ → Bool) × IsLoopTree graph.now extent tree.now }
    requires paths { length parts.now.paths.items ≡ length graph.now.code.functions }
    requires turns { length parts.now.turns.items ≡ length tree.now.headers }
    requires calls { length times.now.calls.now ≡ length graph.now.code.functions }
    requires entries { length times.now.entries.now ≡ length tree.now.headers }
    ensures { IfOk result (λ o. IfSome o (λ taken. AreTaken graph.now tree.now (bodies_of parts.now.paths.items)
        (bodies_of parts.now.turns.items) times.now.calls.now times.now.entries.now taken.items)) }
{
    let _nodes = graph.node_count();
    if !are_paths(graph, tree, &parts.paths) || !are_turns(graph, tree, &parts.turns) {
        return Ok(None);
    }
    let Some(turns) = all_turns(alloc, tree.bounds(), times.entries)? else {
        return Ok(None);
    };
    let mut taken = nothing_taken(alloc, graph.edge_count())?;
    if take_lists(&parts.paths, times.calls, &mut taken)
        && take_lists(&parts.turns, &turns, &mut taken)
    {
        Ok(Some(taken))
    } else {
        Ok(None)
    }
}

/// Whether functions are called as often as edges that call them are taken, the first once more.
pub fn are_called(
    alloc: Global,
    graph: &CodeGraph,
    ones: &[u64],
    taken: &[u64],
    calls: &[u64],
) -> Result<bool, NoMemory>
    requires ones { AreOnes (length graph.now.code.edges) ones.now }
    requires taken { length taken.now ≡ length graph.now.code.edges }
    requires calls { length calls.now ≡ length graph.now.code.functions }
    ensures { IfOk result (λ b. b ≡ true → AreCalled graph.now taken.now calls.now) }
{
    let called = called_functions(alloc, graph)?;
    let Some(table) = tally(alloc, graph.function_count(), &called, taken, ones)? else {
        return Ok(false);
    };
    let begun = first_calls(alloc, graph.function_count())?;
    Ok(are_sums(&table, &begun, calls))
}

/// Whether loops are entered as often as edges into them are taken, and functions called that begin in them.
pub fn are_entered(
    alloc: Global,
    graph: &CodeGraph,
    tree: &LoopTree,
    ones: &[u64],
    times: &WalkTimes<'_>,
) -> Result<bool, NoMemory>
    requires tree { (extent : ℕ → ℕ → Bool) × IsLoopTree graph.now extent tree.now }
    requires ones { AreOnes (length graph.now.code.edges) ones.now }
    requires taken { length times.now.taken.now ≡ length graph.now.code.edges }
    requires calls { length times.now.calls.now ≡ length graph.now.code.functions }
    requires entries { length times.now.entries.now ≡ length tree.now.headers }
    ensures { IfOk result (λ b. b ≡ true → AreEntered graph.now tree.now times.now.taken.now times.now.calls.now times.now.entries.now) }
{
    let _nodes = graph.node_count();
    let entered = entered_loops(alloc, graph, tree)?;
    let begun = begun_loops(alloc, graph, tree)?;
    let function_ones = ones_of(alloc, graph.function_count())?;
    let Some(over) = tally(alloc, tree.loop_count(), &entered, times.taken, ones)? else {
        return Ok(false);
    };
    let Some(by_call) = tally(
        alloc,
        tree.loop_count(),
        &begun,
        times.calls,
        &function_ones,
    )?
    else {
        return Ok(false);
    };
    Ok(are_sums(&over, &by_call, times.entries))
}

/// By edge, how often it is taken along a walk whose parts are gone so often. None where the numbers don't fit.
pub fn walked_edges(
    alloc: Global,
    graph: &CodeGraph,
    tree: &LoopTree,
    parts: &Parts,
    times: &PartTimes<'_>,
) -> Result<Option<Vec<u64>>, NoMemory>
    requires tree { (extent : ℕ → ℕ → Bool) × IsLoopTree graph.now extent tree.now }
    requires paths { length parts.now.paths.items ≡ length graph.now.code.functions }
    requires turns { length parts.now.turns.items ≡ length tree.now.headers }
    requires calls { length times.now.calls.now ≡ length graph.now.code.functions }
    requires entries { length times.now.entries.now ≡ length tree.now.headers }
    ensures { IfOk result (λ o. IfSome o (λ taken. IsWalked graph.now tree.now times.now.calls.now times.now.entries.now taken.items)) }
{
    let _nodes = graph.node_count();
    let Some(taken) = take_parts(alloc, graph, tree, parts, times)? else {
        return Ok(None);
    };
    let ones = ones_of(alloc, graph.edge_count())?;
    let called = are_called(alloc, graph, &ones, &taken, times.calls)?;
    let entered = are_entered(
        alloc,
        graph,
        tree,
        &ones,
        &WalkTimes {
            taken: &taken,
            calls: times.calls,
            entries: times.entries,
        },
    )?;
    if !called || !entered {
        return Ok(None);
    }
    Ok(Some(taken))
}
