//! What is left of the worst cycles. These themselves are data, `loops.txt` and `worst.txt` of the first program's `cases`, and `explain.txt` of the second one's.

ghost use Rattle.std.specs.Prelude.{ℕ, Bool};
ghost use Rattle.loop_forest.specs.Tree.{IsLoopTree};
ghost use Rattle.worst_cycles.specs.Worst.{HasLeftSizes};

use crate::programs::{
    BACK_1, BRANCH_3, CALL_4, CALL_5, ECALL, EXIT, NO_OPERATION, RETURN, expect_text, program_of,
};
use flow_graph::{CodeGraph, Weights};
use loop_forest::LoopTree;
use std::alloc::{AllocError, Global};
use std::fmt::Write;
use std::test::Fail;
use worst_cycles::{WorstNumbers, worst};

const NO_LOOPS: &str = "version = 1\nloop = []\n";

/// A branch over two words.
const BRANCHING: [u32; 5] = [BRANCH_3, NO_OPERATION, NO_OPERATION, EXIT, ECALL];

/// The second and the third word are a loop.
const LOOPING: [u32; 5] = [NO_OPERATION, NO_OPERATION, BACK_1, EXIT, ECALL];

const LOOPING_LOOP: &str =
    "version = 1\nloop = [{header = 0x10004, ranges = [[0x10004, 0x1000c]], bound = 10}]\n";

/// What is left at the nodes, and the contexts of the functions.
fn push_left(text: &mut String, graph: &CodeGraph, found: &WorstNumbers) -> Result<(), AllocError>
    requires sizes { HasLeftSizes graph.now found.now }
{
    text.push_str("left")?;
    for k in 0..graph.node_count() {
        write!(text, " {}", found.left(k))?;
    }
    text.push_str("; contexts")?;
    for f in 0..graph.function_count() {
        write!(text, " {}", found.context(f))?;
    }
    Ok(())
}

/// The slacks and the rests of the edges.
fn push_slacks(text: &mut String, graph: &CodeGraph, found: &WorstNumbers) -> Result<(), AllocError>
    requires sizes { HasLeftSizes graph.now found.now }
{
    text.push_str("; slacks")?;
    for e in 0..graph.edge_count() {
        write!(text, " {}", found.slack(e))?;
    }
    text.push_str("; rests")?;
    for e in 0..graph.edge_count() {
        write!(text, " {}", found.rest(e))?;
    }
    Ok(())
}

/// All of these under one weight of all edges.
fn left_text(alloc: Global, graph: &CodeGraph, tree: &LoopTree) -> Result<String, Fail>
    requires tree { (extent : ℕ → ℕ → Bool) × IsLoopTree graph.now extent tree.now }
{
    let weights = Weights::from_vec(vec![in alloc; 1; graph.edge_count()]?);
    match worst(alloc, graph, tree, &weights) {
        Ok(found) => numbers_text(alloc, graph, &found),
        Err(_) => Err("there are numbers".into()),
    }
}

fn numbers_text(alloc: Global, graph: &CodeGraph, found: &WorstNumbers) -> Result<String, Fail>
    requires sizes { HasLeftSizes graph.now found.now }
{
    let mut text = String::new(alloc);
    push_left(&mut text, graph, found)?;
    push_slacks(&mut text, graph, found)?;
    Ok(text)
}

fn left_of(alloc: Global, words: &[u32], loops: &str) -> Result<String, Fail> {
    let program = program_of(alloc, words, loops)?;
    left_text(alloc, &program.graph, &program.tree)
}

/// A program, what is left at its nodes, the contexts of its functions, and the slacks and the rests of its edges.
static LEFT: [(&str, &[u32], &str, &str); 3] = [
    (
        "leaves the shorter branch slack",
        &BRANCHING,
        NO_LOOPS,
        "left 5 4 3 2 1; contexts 0; slacks 2 0 0 0 0 0; rests 2 4 3 2 1 0",
    ),
    // The sixth and the seventh word are called by the first and the second: what is left behind the first call is more.
    (
        "leaves a called function the most of its callers",
        &[
            CALL_5,
            CALL_4,
            NO_OPERATION,
            EXIT,
            ECALL,
            NO_OPERATION,
            RETURN,
        ],
        NO_LOOPS,
        "left 9 6 3 2 1 2 1; contexts 0 6; slacks 0 0 0 0 0 0 0 0 0; rests 6 0 3 0 2 1 0 7 0",
    ),
    (
        "leaves all turns behind an edge into a loop",
        &LOOPING,
        LOOPING_LOOP,
        "left 25 4 3 2 1; contexts 0; slacks 0 0 0 0 0 0; rests 24 23 24 2 1 0",
    ),
];

#[test]
fn leaves_what_the_worst_walks_take(rt: HostRuntime) -> Result<(), Fail> {
    for (name, words, loops, want) in &LEFT {
        expect_text(&rt, name, left_of(rt.alloc(), words, loops), want)?;
    }
    Ok(())
}
