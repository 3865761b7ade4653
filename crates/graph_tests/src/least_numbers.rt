//! The least cycles to a return and to an end of the run.

ghost use Rattle.std.specs.Prelude.{◌≡◌, ℕ, Bool, ◌<◌, Some, length, IfOk};
ghost use Rattle.graph_algorithms.specs.Arcs.{number_in_place};
ghost use Rattle.cost_theory.specs.Accepted.{AreWeights};
ghost use Rattle.flow_graph.specs.FlowGraph.{graph as graph_seen};
ghost use Rattle.loop_forest.specs.Tree.{IsLoopTree};
ghost use Rattle.least_cycles.specs.Found.{AreSmallLeast};

use crate::programs::{
    BACK_1, BACK_2, BACK_3, CALL_4, CALL_5, ECALL, EXIT, NO_OPERATION, RETURN, expect_parts,
    program_of,
};
use flow_graph::{CodeGraph, Weights};
use least_cycles::{LeastNumbers, least};
use loop_forest::LoopTree;
use scale_base::{NoMemory, Stop};
use std::alloc::{AllocError, Global};
use std::fmt::Write;
use std::process::Abort;
use std::test::Fail;
use worst_cycles::worst;

const NO_LOOPS: &str = "version = 2\nloop = []\n";

/// Weights by edge, but 1 for the edges of calls.
fn weights_of(alloc: Global, graph: &CodeGraph, list: &[u32]) -> Result<Weights, NoMemory>
    ensures size { IfOk result (λ weights. length weights ≡ length graph.now.code.edges) }
    ensures calls { IfOk result (λ weights. AreWeights (graph_seen graph.now) (number_in_place weights)) }
{
    let _count = graph.node_count();
    let mut weights = Vec::new(alloc);
    for e in 0..graph.edge_count() {
        weights.push(weight_of(graph, list, e))?;
    }
    Ok(Weights::from_vec(weights))
}

/// The weight of edge `e`, which is 1 where the list has none and where it is that of a call.
fn weight_of(graph: &CodeGraph, list: &[u32], e: usize) -> u32
    requires { e < length graph.now.code.edges }
    ensures { (f : ℕ) → (graph_seen graph.now).callee e ≡ Some f → result ≡ 1 }
{
    if graph.callee(e).is_some() || e >= list.len() {
        1
    } else {
        list[e]
    }
}

/// The least numbers under weights of the edges.
fn all_least(
    alloc: Global,
    graph: &CodeGraph,
    tree: &LoopTree,
    list: &[u32],
) -> Result<LeastNumbers, Stop>
    requires tree { (extent : ℕ → ℕ → Bool) × IsLoopTree graph.now extent tree.now }
    ensures small { IfOk result (λ x. AreSmallLeast graph.now x) }
{
    let _functions = graph.function_count();
    let weights = weights_of(alloc, graph, list)?;
    let _worst = worst(alloc, graph, tree, &weights)?;
    Ok(least(alloc, graph, tree, &weights)?)
}

/// A number; nothing where there is none.
fn push_number(text: &mut String, number: Option<u128>) -> Result<(), AllocError> {
    match number {
        Some(number) => write!(text, " {number}"),
        None => text.push_str(" -"),
    }
}

/// The least cycles by node to a return, and to an end.
fn push_nodes(text: &mut String, graph: &CodeGraph, found: &LeastNumbers) -> Result<(), AllocError>
    requires small { AreSmallLeast graph.now found.now }
{
    text.push_str("returns")?;
    for k in 0..graph.node_count() {
        push_number(text, found.to_return(k))?;
    }
    text.push_str("; ends")?;
    for k in 0..graph.node_count() {
        push_number(text, found.to_end(k))?;
    }
    Ok(())
}

/// Those to an end behind each edge.
fn push_edges(text: &mut String, graph: &CodeGraph, found: &LeastNumbers) -> Result<(), AllocError>
    requires small { AreSmallLeast graph.now found.now }
{
    text.push_str("; behind")?;
    for e in 0..graph.edge_count() {
        push_number(text, found.to_end_after(e))?;
    }
    text.push_str(";")
}

fn numbers_text(alloc: Global, graph: &CodeGraph, found: &LeastNumbers) -> Result<String, Fail>
    requires small { AreSmallLeast graph.now found.now }
{
    let mut text = String::new(alloc);
    push_nodes(&mut text, graph, found)?;
    push_edges(&mut text, graph, found)?;
    Ok(text)
}

fn least_text(
    alloc: Global,
    graph: &CodeGraph,
    tree: &LoopTree,
    list: &[u32],
) -> Result<String, Fail>
    requires tree { (extent : ℕ → ℕ → Bool) × IsLoopTree graph.now extent tree.now }
{
    match all_least(alloc, graph, tree, list) {
        Ok(found) => numbers_text(alloc, graph, &found),
        Err(_) => Err("there are numbers".into()),
    }
}

fn least_of(alloc: Global, words: &[u32], loops: &str, list: &[u32]) -> Result<String, Fail> {
    let program = program_of(alloc, words, loops)?;
    least_text(alloc, &program.graph, &program.tree, list)
}

/// A program with its loops, and the weights of its edges where they aren't 1; and parts of what is found.
#[derive(Clone, Copy)]
struct Case {
    name: &'static str,
    words: &'static [u32],
    loops: &'static str,
    weights: &'static [u32],
    parts: [&'static str; 2],
}

fn expect_cases(rt: &impl Abort, alloc: Global, cases: &[Case]) -> Result<(), Fail> {
    for case in cases {
        let found = least_of(alloc, case.words, case.loops, case.weights);
        expect_parts(rt, case.name, found, &case.parts)?;
    }
    Ok(())
}

/// Least cycles to an end of the run.
static ENDS: [Case; 5] = [
    // A division follows the calls, and the function multiplies and returns.
    Case {
        name: "a call adds what its function takes",
        words: &[
            CALL_5,
            CALL_4,
            0x0262_C2B3,
            EXIT,
            ECALL,
            0x0262_82B3,
            RETURN,
        ],
        loops: NO_LOOPS,
        weights: &[1, 1, 1, 1, 10, 1, 5, 3, 2],
        parts: ["; ends 28 22 16 6 5 21 18;", "returns"],
    },
    // One turn of the outer loop takes 4 cycles and 2 turns of the inner one, which take 2 cycles each.
    Case {
        name: "a loop within a loop that is entered is charged in each turn",
        words: &[
            NO_OPERATION,
            NO_OPERATION,
            NO_OPERATION,
            BACK_1,
            BACK_3,
            EXIT,
            ECALL,
        ],
        loops: "version = 2\nloop = [{header = 0x10004, ranges = [[0x10004, 0x10014]], bound = 5, at_least = 3}, {header = 0x10008, ranges = [[0x10008, 0x10010]], bound = 5, at_least = 2}]\n",
        weights: &[],
        parts: ["; ends 35 10 5 4 3 2 1;", "returns"],
    },
    // The ECALL in the loop may exit.
    Case {
        name: "a loop in which a run may exit is not charged",
        words: &[NO_OPERATION, NO_OPERATION, ECALL, BACK_2, EXIT, ECALL],
        loops: "version = 2\nloop = [{header = 0x10004, ranges = [[0x10004, 0x10010]], bound = 10, at_least = 9}]\n",
        weights: &[],
        parts: ["; ends 3 2 1 3 2 1;", "returns"],
    },
    // The loop calls a function in which the run may exit.
    Case {
        name: "a loop with a call that may exit is not charged",
        words: &[
            NO_OPERATION,
            CALL_4,
            BACK_1,
            EXIT,
            ECALL,
            NO_OPERATION,
            ECALL,
            RETURN,
        ],
        loops: "version = 2\nloop = [{header = 0x10004, ranges = [[0x10004, 0x1000c]], bound = 10, at_least = 9}]\n",
        weights: &[],
        parts: ["; ends 4 3 3 2 1 2 1 4;", "returns"],
    },
    // The sixth and the seventh word are called by the first and the second.
    Case {
        name: "ends of a function are behind the call that is next to the exit",
        words: &[
            CALL_5,
            CALL_4,
            NO_OPERATION,
            EXIT,
            ECALL,
            NO_OPERATION,
            RETURN,
        ],
        loops: NO_LOOPS,
        weights: &[],
        parts: ["returns - - - - - 2 1;", "; ends 9 6 3 2 1 5 4;"],
    },
];

#[test]
fn finds_the_least_cycles_to_an_end(rt: HostRuntime) -> Result<(), Fail> {
    expect_cases(&rt, rt.alloc(), &ENDS)
}

/// Least cycles to an end of the run, by node and behind each edge.
static ENTERED: [Case; 3] = [
    Case {
        name: "a loop may be left at once",
        words: &[NO_OPERATION, NO_OPERATION, BACK_1, EXIT, ECALL],
        loops: "version = 2\nloop = [{header = 0x10004, ranges = [[0x10004, 0x1000c]], bound = 10}]\n",
        weights: &[],
        parts: ["; ends 5 4 3 2 1;", "; behind 4 3 4 2 1 -;"],
    },
    Case {
        name: "an edge into a loop is charged its turns",
        words: &[0x00A0_0293, NO_OPERATION, BACK_1, EXIT, ECALL],
        loops: "version = 2\nloop = [{header = 0x10004, ranges = [[0x10004, 0x1000c]], bound = 10, at_least = 9}]\n",
        weights: &[1, 1, 2, 1, 1, 5],
        parts: ["; ends 36 8 7 6 5;", "; behind 35 7 8 6 5 -;"],
    },
    // The branches lead to the second and to the first word.
    Case {
        name: "a turn is charged the loop within",
        words: &[NO_OPERATION, NO_OPERATION, BACK_1, BACK_3, EXIT, ECALL],
        loops: "version = 2\nloop = [{header = 0x10000, ranges = [[0x10000, 0x10010]], bound = 5, at_least = 3}, {header = 0x10004, ranges = [[0x10004, 0x1000c]], bound = 5, at_least = 2}]\n",
        weights: &[],
        parts: ["; ends 10 5 4 3 2 1;", "; behind 9 4 5 3 10 2 1 -;"],
    },
];

#[test]
fn charges_loops_to_the_edges_that_enter_them(rt: HostRuntime) -> Result<(), Fail> {
    expect_cases(&rt, rt.alloc(), &ENTERED)
}
