//! What stands of each counter on the edges, and how many edges turn back and leave each loop.

ghost use Rattle.std.specs.Prelude.{◌≡◌, ◌<◌, ◌≤◌, ◌+◌, ◌*◌, ◌^◌, ℕ, All, Some, length, slice_index, slice_index_or, slice_set, IfOk};
ghost use Rattle.std.specs.List.{sum_by};
ghost use Rattle.cost_theory.specs.Graph.{leaves};
ghost use Rattle.cost_theory.specs.Lists.{body_of};
ghost use Rattle.flow_graph.specs.FlowGraph.{graph as graph_seen};
ghost use Rattle.loop_forest.specs.Tree.{loops};
ghost use Rattle.scale_sites.specs.Marks.{numbered};
ghost use Rattle.foreign_scan.specs.Form.{IsForeign};
ghost use Rattle.image_check.specs.Known.{owner_by, HasFound};
ghost use Rattle.image_check.specs.Safe as safe;
ghost use Rattle.image_check.specs.Uses as uses;

use flow_graph::CodeGraph;
use foreign_scan::{ForeignFragment, ForeignSites};
use loop_forest::LoopTree;
use scale_base::NoMemory;
use std::alloc::Global;

/// One more than the greatest number of a counter.
pub const COUNTERS: usize = 511;

/// The graph and the loops of an original, and the fragments that are found beside it.
#[derive(Clone, Copy)]
struct Scanned<'a> {
    graph: &'a CodeGraph,
    tree: &'a LoopTree,
    sites: &'a ForeignSites,
}

/// What stands of a counter on some edges: how many counts, how many exits and resets, and whether each of these edges has at most one of each, only where it turns
/// back or leaves the counter's loop.
#[derive(Clone, Copy, Drop)]
pub struct Tally {
    pub counts: usize,
    pub clears: usize,
    pub fits: bool,
}

fn one_where(holds: bool) -> usize
    ensures value { result ≡ safe.one_where holds }
    ensures small { result ≤ 1 }
{
    if holds { 1 } else { 0 }
}

/// The counter that a fragment uses.
fn counter_of(fragment: &ForeignFragment) -> Option<u16>
    ensures { result ≡ uses.counter_used fragment.now }
{
    match *fragment {
        ForeignFragment::Switch { .. } => None,
        ForeignFragment::Exit { counter, .. } => Some(counter),
        ForeignFragment::Reset { counter } => Some(counter),
        ForeignFragment::Count { counter } => Some(counter),
    }
}

/// 1 where a fragment counts a counter, else 0.
fn counts_it(fragment: &ForeignFragment, counter: u16) -> usize
    ensures value { result ≡ safe.counts_it counter fragment.now }
    ensures small { result ≤ 1 }
{
    match *fragment {
        ForeignFragment::Count { counter: other } => one_where(counter == other),
        _ => 0,
    }
}

/// 1 where a fragment sets a counter back, else 0.
fn clears_it(fragment: &ForeignFragment, counter: u16) -> usize
    ensures value { result ≡ safe.clears_it counter fragment.now }
    ensures small { result ≤ 1 }
{
    match *fragment {
        ForeignFragment::Exit { counter: other, .. } => one_where(counter == other),
        ForeignFragment::Reset { counter: other } => one_where(counter == other),
        _ => 0,
    }
}

/// How often some fragments count a counter.
fn counts_in(fragments: &[ForeignFragment], counter: u16) -> usize
    ensures { result ≡ sum_by (safe.counts_it counter) fragments.now }
{
    let mut found = 0;
    for fragment in fragments {
        found += counts_it(fragment, counter);
    }
    found
}

/// How often they set it back.
fn clears_in(fragments: &[ForeignFragment], counter: u16) -> usize
    ensures { result ≡ sum_by (safe.clears_it counter) fragments.now }
{
    let mut found = 0;
    for fragment in fragments {
        found += clears_it(fragment, counter);
    }
    found
}

/// Whether a step from a node to another, if it leads to one, leaves loop `k`.
fn way_leaves(tree: &LoopTree, k: usize, from: usize, to: Option<usize>) -> bool
    requires { k < length tree.now.headers }
    ensures { result ≡ leaves (numbered tree.now) k from to }
{
    match to {
        None => false,
        Some(node) => tree.in_body(k, from) && !tree.in_body(k, node),
    }
}

/// Whether edge `e` leaves loop `k`.
fn leaves(graph: &CodeGraph, tree: &LoopTree, sites: &ForeignSites, k: usize, e: usize) -> bool
    requires found { HasFound graph.now tree.now sites.now }
    requires within { k < length tree.now.headers }
    requires edge { e < length graph.now.code.edges }
    ensures { result ≡ leaves (loops graph.now tree.now) k ((graph_seen graph.now).source e) ((graph_seen graph.now).target e) }
{
    let from = graph.source(e);
    let to = graph.target(e);
    way_leaves(tree, k, from, to)
}

/// 1 where edge `e` turns a loop back that may be missing, else 0.
fn turn_of(
    graph: &CodeGraph,
    tree: &LoopTree,
    sites: &ForeignSites,
    owner: Option<usize>,
    e: usize,
) -> usize
    requires found { HasFound graph.now tree.now sites.now }
    requires within { (k : ℕ) → owner ≡ Some k → k < length tree.now.headers }
    requires edge { e < length graph.now.code.edges }
    ensures { result ≡ uses.of_loop (uses.turn_of (graph_seen graph.now) (loops graph.now tree.now)) owner e }
{
    match owner {
        None => 0,
        Some(k) => one_where(tree.is_back_edge(k, e)),
    }
}

/// 1 where it leaves the loop, else 0.
fn exit_of(
    graph: &CodeGraph,
    tree: &LoopTree,
    sites: &ForeignSites,
    owner: Option<usize>,
    e: usize,
) -> usize
    requires found { HasFound graph.now tree.now sites.now }
    requires within { (k : ℕ) → owner ≡ Some k → k < length tree.now.headers }
    requires edge { e < length graph.now.code.edges }
    ensures { result ≡ uses.of_loop (uses.exit_of (graph_seen graph.now) (loops graph.now tree.now)) owner e }
{
    match owner {
        None => 0,
        Some(k) => one_where(leaves(graph, tree, sites, k, e)),
    }
}

/// Whether edge `e` has at most one count of a counter, where it turns the counter's loop back, and at most one exit or reset, where it leaves that loop.
fn fits_on(scanned: &Scanned<'_>, owner: Option<usize>, counter: u16, e: usize) -> bool
    requires found { HasFound scanned.now.graph.now scanned.now.tree.now scanned.now.sites.now }
    requires within { (k : ℕ) → owner ≡ Some k → k < length scanned.now.tree.now.headers }
    requires edge { e < length scanned.now.graph.now.code.edges }
    ensures { result ≡ uses.fits_on scanned.now.graph.now scanned.now.tree.now scanned.now.sites.now owner counter e }
{
    let Scanned { graph, tree, sites } = *scanned;
    let fragments = sites.fragments(e);
    let turns = turn_of(graph, tree, sites, owner, e);
    let exits = exit_of(graph, tree, sites, owner, e);
    counts_in(fragments, counter) <= turns && clears_in(fragments, counter) <= exits
}

/// One more at a place of a list.
fn add_one(counts: &mut Vec<usize>, k: usize)
    requires within { k < length counts.old.items }
    requires small { slice_index counts.old.items k < 2 ^ 32 }
    ensures { counts.new.items ≡ slice_set counts.old.items k (slice_index counts.old.items k + 1) }
{
    counts[k] += 1;
}

/// By loop, how many edges turn it back.
pub fn loop_turns(
    alloc: Global,
    graph: &CodeGraph,
    tree: &LoopTree,
    sites: &ForeignSites,
) -> Result<Vec<usize>, NoMemory>
    requires { HasFound graph.now tree.now sites.now }
    ensures { IfOk result (λ turns. uses.AreTurns graph.now tree.now (length graph.now.code.edges) turns.items) }
{
    let mut turns = vec![in alloc; 0; tree.loop_count()]?;
    for e in 0..graph.edge_count() {
        match tree.back_loop(e) {
            None => {}
            Some(k) => add_one(&mut turns, k),
        }
    }
    Ok(turns)
}

/// How many edges of node `n` leave loop `k`.
fn exits_from(graph: &CodeGraph, tree: &LoopTree, sites: &ForeignSites, k: usize, n: usize) -> usize
    requires found { HasFound graph.now tree.now sites.now }
    requires within { k < length tree.now.headers }
    requires node { n < length graph.now.code.nodes }
    ensures value { result ≡ uses.exits_at graph.now tree.now k n }
    ensures small { result ≤ 262144 }
{
    let (first, end) = graph.edges_of(n);
    let _few = graph.edge_count();
    let mut found = 0;
    for e in first..end {
        found += one_where(leaves(graph, tree, sites, k, e));
    }
    found
}

/// How many edges leave loop `k`: they start at the nodes of its body.
fn exits_of(graph: &CodeGraph, tree: &LoopTree, sites: &ForeignSites, k: usize) -> usize
    requires found { HasFound graph.now tree.now sites.now }
    requires within { k < length tree.now.headers }
    ensures { result ≡ sum_by (uses.exits_at graph.now tree.now k) (body_of tree.now.bodies k) }
{
    let _few = graph.edge_count();
    let mut found = 0;
    for n in tree.body(k) {
        found += exits_from(graph, tree, sites, k, *n);
    }
    found
}

/// By loop, how many edges leave it.
pub fn loop_exits(
    alloc: Global,
    graph: &CodeGraph,
    tree: &LoopTree,
    sites: &ForeignSites,
) -> Result<Vec<usize>, NoMemory>
    requires { HasFound graph.now tree.now sites.now }
    ensures { IfOk result (λ exits. uses.AreExits graph.now tree.now (length tree.now.headers) exits.items) }
{
    let mut exits = Vec::new(alloc);
    for k in 0..tree.loop_count() {
        exits.push(exits_of(graph, tree, sites, k))?;
    }
    Ok(exits)
}

/// Writes loop `k` to the counters that some fragments count.
fn name_loop(fragments: &[ForeignFragment], k: usize, owners: &mut Vec<Option<usize>>)
    requires foreign { All IsForeign fragments.now }
    requires size { length owners.old.items ≡ 511 }
    ensures size { length owners.new.items ≡ 511 }
    ensures named { (c : ℕ) → owner_by owners.new.items c ≡ uses.named k c fragments.now (owner_by owners.old.items c) }
{
    for fragment in fragments {
        if let ForeignFragment::Count { counter } = *fragment {
            owners[usize::from(counter)] = Some(k);
        }
    }
}

/// By counter, a loop of which some back edge counts it.
pub fn named_loops(
    alloc: Global,
    graph: &CodeGraph,
    tree: &LoopTree,
    sites: &ForeignSites,
) -> Result<Vec<Option<usize>>, NoMemory>
    requires { HasFound graph.now tree.now sites.now }
    ensures { IfOk result (λ owners. uses.AreNamed graph.now tree.now sites.now (length graph.now.code.edges) owners.items) }
{
    let mut owners: Vec<Option<usize>> = vec![in alloc; None; COUNTERS]?;
    for e in 0..graph.edge_count() {
        match tree.back_loop(e) {
            None => {}
            Some(k) => name_loop(sites.fragments(e), k, &mut owners),
        }
    }
    Ok(owners)
}

/// A counter's tally with one more fragment of it.
fn taken_one(tally: Tally, fragment: &ForeignFragment, counter: u16, fits: bool) -> Tally
    requires counts { tally.counts < 2 ^ 32 }
    requires clears { tally.clears < 2 ^ 32 }
    requires used { uses.counter_used fragment.now ≡ Some counter }
    ensures { result ≡ uses.taken_one counter fits fragment.now tally }
{
    Tally {
        counts: tally.counts + counts_it(fragment, counter),
        clears: tally.clears + clears_it(fragment, counter),
        fits: tally.fits && fits,
    }
}

/// Takes one more fragment of a counter into its tally.
fn set_tally(tallies: &mut Vec<Tally>, fragment: &ForeignFragment, counter: u16, fits: bool)
    requires within { counter < length tallies.old.items }
    requires counts { (slice_index_or tallies.old.items counter uses.no_tally).counts < 2 ^ 32 }
    requires clears { (slice_index_or tallies.old.items counter uses.no_tally).clears < 2 ^ 32 }
    requires used { uses.counter_used fragment.now ≡ Some counter }
    ensures { tallies.new.items ≡ slice_set tallies.old.items counter (uses.taken_one counter fits fragment.now
        (slice_index_or tallies.old.items counter uses.no_tally)) }
{
    let number = usize::from(counter);
    let tally = tallies[number];
    tallies[number] = taken_one(tally, fragment, counter, fits);
}

/// Takes a fragment of edge `e` into the tally of its counter, if it uses one.
fn take_fragment(
    scanned: &Scanned<'_>,
    owners: &[Option<usize>],
    tallies: &mut Vec<Tally>,
    e: usize,
    fragment: &ForeignFragment,
)
    requires found { HasFound scanned.now.graph.now scanned.now.tree.now scanned.now.sites.now }
    requires named { uses.AreNamed scanned.now.graph.now scanned.now.tree.now scanned.now.sites.now
        (length scanned.now.graph.now.code.edges) owners.now }
    requires edge { e < length scanned.now.graph.now.code.edges }
    requires foreign { IsForeign fragment.now }
    requires size { length tallies.old.items ≡ 511 }
    requires counts { (c : ℕ) → (slice_index_or tallies.old.items c uses.no_tally).counts < 2 ^ 32 }
    requires clears { (c : ℕ) → (slice_index_or tallies.old.items c uses.no_tally).clears < 2 ^ 32 }
    ensures size { length tallies.new.items ≡ 511 }
    ensures taken { uses.AreTakenOne scanned.now.graph.now scanned.now.tree.now scanned.now.sites.now owners.now e fragment.now
        tallies.old.items tallies.new.items }
{
    match counter_of(fragment) {
        None => {}
        Some(counter) => {
            let owner = owners[usize::from(counter)];
            let fits = fits_on(scanned, owner, counter, e);
            set_tally(tallies, fragment, counter, fits);
        }
    }
}

/// Takes the fragments of edge `e` into the tallies of their counters.
fn take_edge(scanned: &Scanned<'_>, owners: &[Option<usize>], tallies: &mut Vec<Tally>, e: usize)
    requires found { HasFound scanned.now.graph.now scanned.now.tree.now scanned.now.sites.now }
    requires named { uses.AreNamed scanned.now.graph.now scanned.now.tree.now scanned.now.sites.now
        (length scanned.now.graph.now.code.edges) owners.now }
    requires edge { e < length scanned.now.graph.now.code.edges }
    requires few { e < 262144 }
    requires size { length tallies.old.items ≡ 511 }
    requires small { uses.AreSmallTallies e tallies.old.items }
    ensures taken { uses.AreTallied scanned.now.graph.now scanned.now.tree.now scanned.now.sites.now owners.now e
        tallies.old.items tallies.new.items }
    ensures small { uses.AreSmallTallies (e + 1) tallies.new.items }
{
    let fragments = scanned.sites.fragments(e);
    for fragment in fragments {
        take_fragment(scanned, owners, tallies, e, fragment);
    }
}

/// The tallies of all counters over all edges.
pub fn tallies_of(
    alloc: Global,
    graph: &CodeGraph,
    tree: &LoopTree,
    sites: &ForeignSites,
    owners: &[Option<usize>],
) -> Result<Vec<Tally>, NoMemory>
    requires found { HasFound graph.now tree.now sites.now }
    requires named { uses.AreNamed graph.now tree.now sites.now (length graph.now.code.edges) owners.now }
    ensures tallies { IfOk result (λ tallies. uses.AreTallies graph.now tree.now sites.now owners.now (length graph.now.code.edges)
        tallies.items) }
    ensures small { IfOk result (λ tallies. uses.AreSmallTallies 262144 tallies.items) }
{
    let scanned = Scanned { graph, tree, sites };
    let none = Tally {
        counts: 0,
        clears: 0,
        fits: true,
    };
    let mut tallies = vec![in alloc; none; COUNTERS]?;
    for e in 0..graph.edge_count() {
        take_edge(&scanned, owners, &mut tallies, e);
    }
    Ok(tallies)
}

/// Whether a counter is used and counts no loop.
pub fn is_bad(turns: &[usize], exits: &[usize], tally: Tally, owner: Option<usize>) -> bool
    requires turns { (k : ℕ) → owner ≡ Some k → k < length turns.now }
    requires exits { (k : ℕ) → owner ≡ Some k → k < length exits.now }
    requires counts { tally.counts < 2 ^ 32 }
    requires clears { tally.clears < 2 ^ 32 }
    ensures { result ≡ uses.is_bad_tally turns.now exits.now tally owner }
{
    let counts_loop = match owner {
        None => false,
        Some(k) => tally.fits && tally.counts == turns[k] && tally.clears == exits[k],
    };
    tally.counts + tally.clears > 0 && !counts_loop
}
