//! The least costs of walks to a return and to an exit, function by function, callees first.

ghost use Rattle.std.specs.Prelude.{◌≡◌, ◌≢◌, ℕ, Bool, ◌+◌, ◌^◌, ◌<◌, ◌≤◌, length, IfOk, OnOk};
ghost use Rattle.graph_algorithms.specs.Arcs.{number_in_place, AreDistinct};
ghost use Rattle.loop_forest.specs.Tree.{IsLoopTree};
ghost use Rattle.cycle_laws.specs.Charged.{Charged};
ghost use Rattle.least_cycles.specs.Tables.{AreWritten, IsBefore, IsAnyFunction};
ghost use Rattle.least_cycles.specs.Charging.{IsCharging, HasCharging, HasWalks, AreChargeMarks, AreCharges, AreChargedTo, loop_owner, IsChargePlan, IsScratch};
ghost use Rattle.least_cycles.specs.Passes.{IsPricedFunction, AreCostsKnown, IsPlannedProgram, AreFoundSoFar};

use crate::buckets::bucket_of;
use crate::charges::{Charges, entries_of};
use crate::function::{Runs, least_in};
use crate::plan::Plan;
use crate::prices::{Tables, price_function};
use crate::turns::{Marks, PricedFunction, charge_of_loop};
use flow_graph::CodeGraph;
use loop_forest::LoopTree;
use scale_base::NoMemory;
use std::alloc::Global;

/// By node, the least costs of walks to a return and to an exit before that return.
#[derive(Drop)]
pub struct Walks {
    pub returns: Vec<Option<u128>>,
    pub exits: Vec<Option<u128>>,
}

/// What is found of some functions: the least costs of walks, and what their loops are charged with.
#[derive(Drop)]
pub struct Found {
    pub walks: Walks,
    pub charges: Charges,
}

/// A graph with its loops, and what is known of them before the passes.
#[derive(Clone, Copy)]
pub struct Program<'a> {
    pub graph: &'a CodeGraph,
    pub tree: &'a LoopTree,
    pub plan: &'a Plan,
}

/// What is used for one function after the other: the place of each node in its function, and by edge its cost without a charge and
/// whether it is the last of a walk to an exit.
#[derive(Drop)]
pub struct Scratch {
    pub places: Vec<usize>,
    pub costs: Vec<u64>,
    pub lasts: Vec<bool>,
    pub marks: Marks,
}

/// Writes the numbers of some nodes into a table by node.
fn write_back(bucket: &[usize], found: &[Option<u128>], table: &mut Vec<Option<u128>>)
    requires distinct { AreDistinct bucket.now }
    requires within { (i : ℕ) → i < length bucket.now → number_in_place bucket.now i < length table.old.items }
    requires size { length found.now ≡ length bucket.now }
    ensures { AreWritten (length bucket.now) bucket.now found.now table.old.items table.new.items }
{
    for i in 0..bucket.len() {
        table[bucket[i]] = found[i];
    }
}

/// Finds what the loops of a function are charged with, those within others first.
fn charge_loops(
    alloc: Global,
    priced: &PricedFunction<'_>,
    plan: &Plan,
    marks: &mut Marks,
    charges: &mut Charges,
) -> Result<(), NoMemory>
    requires priced { IsPricedFunction priced.now }
    requires plan { IsChargePlan priced.now.graph.now priced.now.tree.now plan.now }
    requires marks { AreChargeMarks priced.now.graph.now marks.old }
    requires charges { AreCharges priced.now.graph.now priced.now.tree.now charges.old }
    requires known { (w : ℕ → ℕ) × (n : Charged) × AreCostsKnown priced.now w n }
    ensures charged { OnOk result ((w : ℕ → ℕ) (n : Charged) → AreCostsKnown priced.now w n →
        AreChargedTo priced.now.graph.now priced.now.tree.now n (λ k. loop_owner priced.now.graph.now priced.now.tree.now k ≡
        priced.now.number) charges.new.found.items) }
    ensures others { OnOk result ((k : ℕ) → k < length priced.now.tree.now.headers →
        loop_owner priced.now.graph.now priced.now.tree.now k ≢ priced.now.number →
        number_in_place charges.new.found.items k ≡ number_in_place charges.old.found.items k) }
    ensures charges { OnOk result (AreCharges priced.now.graph.now priced.now.tree.now charges.new) }
    ensures marks { OnOk result (AreChargeMarks priced.now.graph.now marks.new) }
{
    let _count = priced.graph.node_count();
    let order = priced.tree.plain_order();
    let mut next = plan.headers.last(priced.number);
    while let Some(i) = next {
        let Some(l) = plan.heads[order[i]] else {
            unreachable!()
        };
        let charge = charge_of_loop(alloc, priced, l, marks, charges)?;
        charges.found[l] = charge;
        next = plan.headers.before(i);
    }
    Ok(())
}

/// Finds the least costs in the function at place `i` of the order of calls.
fn solve_function(
    alloc: Global,
    program: &Program<'_>,
    i: usize,
    scratch: &mut Scratch,
    found: &mut Found,
) -> Result<(), NoMemory>
    requires program { IsPlannedProgram program.now }
    requires place { i < length program.now.graph.now.order }
    requires scratch { IsScratch program.now.graph.now scratch.old }
    requires found { AreFoundSoFar program.now (IsBefore program.now.graph.now i) found.old }
    ensures scratch { OnOk result (IsScratch program.now.graph.now scratch.new) }
    ensures found { OnOk result (AreFoundSoFar program.now (IsBefore program.now.graph.now (i + 1)) found.new) }
{
    let graph = program.graph;
    let plan = program.plan;
    let f = graph.call_order()[i];
    let _count = graph.node_count();
    let bucket = bucket_of(alloc, graph, plan, f, &mut scratch.places)?;
    price_function(
        &Tables {
            graph,
            own: &plan.own,
            returns: &found.walks.returns,
            exits: &found.walks.exits,
        },
        &bucket,
        &mut scratch.costs,
        &mut scratch.lasts,
    );
    charge_loops(
        alloc,
        &PricedFunction {
            graph,
            tree: program.tree,
            number: f,
            costs: &scratch.costs,
            lasts: &scratch.lasts,
            ranks: &plan.ranks,
        },
        plan,
        &mut scratch.marks,
        &mut found.charges,
    )?;
    let to_return = Runs {
        graph,
        nodes: &bucket,
        places: &scratch.places,
        lasts: &plan.returning,
        steps: &plan.leading,
        costs: &scratch.costs,
        charges: &found.charges,
    };
    let returns = least_in(alloc, &to_return)?;
    let exits = least_in(
        alloc,
        &Runs {
            lasts: &scratch.lasts,
            ..to_return
        },
    )?;
    write_back(&bucket, &returns, &mut found.walks.returns);
    write_back(&bucket, &exits, &mut found.walks.exits);
    Ok(())
}

/// No numbers yet.
fn empty_scratch(alloc: Global, graph: &CodeGraph) -> Result<Scratch, NoMemory>
    ensures { IfOk result (λ scratch. IsScratch graph.now scratch) }
{
    let nodes = graph.node_count();
    let edges = graph.edge_count();
    Ok(Scratch {
        places: vec![in alloc; 0; nodes]?,
        costs: vec![in alloc; 0; edges]?,
        lasts: vec![in alloc; false; edges]?,
        marks: Marks {
            spots: vec![in alloc; 0; nodes]?,
            turns: vec![in alloc; false; edges]?,
            stays: vec![in alloc; false; edges]?,
        },
    })
}

/// The least costs of walks to a return and to an exit, and what loops are charged with.
pub fn walks_of(
    alloc: Global,
    graph: &CodeGraph,
    tree: &LoopTree,
    plan: &Plan,
) -> Result<(Walks, Charges), NoMemory>
    requires tree { (extent : ℕ → ℕ → Bool) × IsLoopTree graph.now extent tree.now }
    requires plan { IsChargePlan graph.now tree.now plan.now }
    requires charging { HasCharging graph.now tree.now (number_in_place plan.now.own.items) }
    ensures walks { IfOk result (λ found. HasWalks graph.now tree.now (number_in_place plan.now.own.items) IsAnyFunction
        found.0.returns.items found.0.exits.items) }
    ensures charges { IfOk result (λ found. AreCharges graph.now tree.now found.1) }
    ensures charged { IfOk result (λ found. (n : Charged) → IsCharging graph.now tree.now (number_in_place plan.now.own.items) n →
        AreChargedTo graph.now tree.now n (λ k. IsAnyFunction k) found.1.found.items) }
{
    let nodes = graph.node_count();
    let mut scratch = empty_scratch(alloc, graph)?;
    let charges = Charges {
        entries: entries_of(alloc, graph, tree, &plan.heads)?,
        found: vec![in alloc; 0; tree.loop_count()]?,
    };
    let walks = Walks {
        returns: vec![in alloc; None; nodes]?,
        exits: vec![in alloc; None; nodes]?,
    };
    let mut found = Found { walks, charges };
    let program = Program { graph, tree, plan };
    for i in 0..graph.call_order().len() {
        solve_function(alloc, &program, i, &mut scratch, &mut found)?;
    }
    Ok((found.walks, found.charges))
}
