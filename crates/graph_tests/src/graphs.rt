//! The graphs of programs: what is reached and in which functions, edges and weights. What is refused is data, `code.txt` of the first
//! program's `cases`; functions and basic blocks are, `draw-plan.txt` of the second one's.

use crate::programs::{
    BRANCH_2, BRANCH_3, BREAKPOINT, CALL_2, CALL_3, CALL_4, CALL_5, ECALL, EXIT, JUMP_0, JUMP_2,
    JUMP_BACK_1, NO_OPERATION, RETURN, START, expect_same, expect_text, graph_of,
};
use flow_graph::CodeGraph;
use power_model::Costs;
use scale_base::Edge;
use std::alloc::{AllocError, Global};
use std::fmt::Write;
use std::process::Abort;
use std::test::Fail;

/// Calls of the functions so many words on.
const CALL_6: u32 = 0x0180_00EF;

const CALL_7: u32 = 0x01C0_00EF;

const CALL_8: u32 = 0x0200_00EF;

/// Calls of its own address, and of those before it.
const CALL_0: u32 = 0xEF;

const CALL_BACK_2: u32 = 0xFF9F_F0EF;

/// A jump by seven words.
const JUMP_7: u32 = 0x01C0_006F;

/// By the number of words: a call of the word two and more words on.
const CALLS: [u32; 7] = [CALL_2, CALL_3, CALL_4, CALL_5, CALL_6, CALL_7, CALL_8];

/// Whether the word behind a call of word `callee` of some words is reached.
fn is_reached_behind(alloc: Global, words: &[u32], callee: usize) -> Result<bool, Fail> {
    let text = behind_call(alloc, words, callee)?;
    let graph = graph_of(alloc, &text)?;
    Ok(graph.find(START + 4).is_some())
}

/// Some words behind a call of one of them, and a breakpoint.
fn behind_call(alloc: Global, words: &[u32], callee: usize) -> Result<Vec<u32>, Fail> {
    let call = *CALLS.get(callee).ok_or("there is such a call")?;
    let mut text = Vec::from_slice(alloc, &[call, BREAKPOINT])?;
    text.extend_from_slice(words)?;
    Ok(text)
}

/// Some words, and whether a call of each comes back.
static RETURNS: [(&str, &[u32], &[(usize, bool)]); 3] = [
    // 0: branch to 3 or 1; 1: stop; 2: jump to 4; 3: next; 4: return; 5: jump to itself
    (
        "over jumps and next words",
        &[BRANCH_3, BREAKPOINT, JUMP_2, NO_OPERATION, RETURN, JUMP_0],
        &[
            (0, true),
            (1, false),
            (2, true),
            (3, true),
            (4, true),
            (5, false),
        ],
    ),
    // 0: call of 4, next; 1: return; 2: call of 5, next; 3: return; 4: return; 5: stop; 6: call of 4 at the end
    (
        "over calls that return",
        &[
            CALL_4,
            RETURN,
            CALL_3,
            RETURN,
            RETURN,
            BREAKPOINT,
            CALL_BACK_2,
        ],
        &[
            (0, true),
            (1, true),
            (2, false),
            (3, true),
            (4, true),
            (5, false),
        ],
    ),
    // three words jump to 3, one to a place outside the text; a call of itself alone never returns
    (
        "over several sources",
        &[
            0x00C0_006F,
            JUMP_2,
            JUMP_7,
            RETURN,
            JUMP_BACK_1,
            CALL_0,
            RETURN,
        ],
        &[(0, true), (1, true), (3, true), (4, true), (6, true)],
    ),
];

#[test]
fn goes_on_behind_calls_that_return(rt: HostRuntime) -> Result<(), Fail> {
    let alloc = rt.alloc();
    for (name, words, entries) in &RETURNS {
        expect_reached(&rt, rt.alloc(), name, words, entries)?;
    }
    Ok(())
}

fn expect_reached(
    rt: &impl Abort,
    alloc: Global,
    name: &str,
    words: &[u32],
    entries: &[(usize, bool)],
) -> Result<(), Fail> {
    for (callee, want) in entries {
        let reached = is_reached_behind(alloc, words, *callee)?;
        expect_same(rt, *callee as u64, reached, *want);
    }
    Ok(())
}

/// Each node with its function and its edges.
fn nodes_text(alloc: Global, graph: &CodeGraph) -> Result<String, Fail> {
    let mut text = String::new(alloc);
    for k in 0..graph.node_count() {
        let (from, to) = graph.edges_of(k);
        write!(
            &mut text,
            "{:#x} of {}, {from} to {to}; ",
            graph.node(k),
            graph.owner(k)
        )?;
    }
    Ok(text)
}

/// Whether an edge ends a function by a return, and whether the run by an exit.
fn push_end(text: &mut String, e: usize, returns: bool, exits: bool) -> Result<(), AllocError> {
    if returns {
        write!(text, "{e} returns; ")?;
    }
    if exits {
        write!(text, "{e} exits; ")?;
    }
    Ok(())
}

/// Which edges end a function by a return, and which the run by an exit.
fn ends_text(alloc: Global, graph: &CodeGraph) -> Result<String, Fail> {
    let mut text = String::new(alloc);
    for e in 0..graph.edge_count() {
        push_end(&mut text, e, graph.is_return(e), graph.is_exit(e))?;
    }
    Ok(text)
}

/// The target of an edge, or the function that it calls.
fn push_behind(
    text: &mut String,
    target: Option<usize>,
    callee: Option<usize>,
) -> Result<(), AllocError> {
    match (target, callee) {
        (Some(target), _) => write!(text, " leads to {target}; "),
        (None, Some(callee)) => write!(text, " calls {callee}; "),
        (None, None) => text.push_str("; "),
    }
}

/// Each edge with its source, and its target or the function that it calls.
fn edges_text(alloc: Global, graph: &CodeGraph) -> Result<String, Fail> {
    let mut text = String::new(alloc);
    for e in 0..graph.edge_count() {
        let Edge { at, kind, to } = graph.edge(e);
        let source = graph.source(e);
        write!(&mut text, "{source} {kind:?} {at:#x} to {to:#x}")?;
        push_behind(&mut text, graph.target(e), graph.callee(e))?;
    }
    Ok(text)
}

/// A call of the third word, which exits; no way leads back to the second.
const EXIT_CALLED: [u32; 4] = [CALL_2, 0, EXIT, ECALL];

#[test]
fn tells_nodes(rt: HostRuntime) -> Result<(), Fail> {
    let graph = graph_of(rt.alloc(), &EXIT_CALLED)?;
    let found = nodes_text(rt.alloc(), &graph);
    let want = "0x10000 of 0, 0 to 1; 0x10008 of 1, 1 to 2; 0x1000c of 1, 2 to 3; ";
    expect_text(&rt, "nodes", found, want)
}

#[test]
fn tells_ends(rt: HostRuntime) -> Result<(), Fail> {
    let graph = graph_of(rt.alloc(), &EXIT_CALLED)?;
    let found = ends_text(rt.alloc(), &graph);
    expect_text(&rt, "ends", found, "2 exits; ")
}

#[test]
fn tells_edges(rt: HostRuntime) -> Result<(), Fail> {
    let graph = graph_of(rt.alloc(), &EXIT_CALLED)?;
    let found = edges_text(rt.alloc(), &graph);
    let want =
        "0 End 0x10000 to 0x10000 calls 1; 1 Next 0x10008 to 0x1000c leads to 2; 2 End 0x1000c to 0x1000c; ";
    expect_text(&rt, "edges", found, want)
}

#[test]
fn leaves_out_what_is_not_reached(rt: HostRuntime) -> Result<(), Fail> {
    let graph = graph_of(rt.alloc(), &EXIT_CALLED)?;
    let found = (graph.find(0x10004), graph.find(0x10008));
    expect_same(&rt, 0, found, (None, Some(1)));
    let arcs = (graph.sources(), graph.targets(), graph.call_order());
    let expected: (&[usize], &[Option<usize>], &[usize]) = (
        &[0, 1, 2],
        &[None, Some(2), None],
        &[1, 0],
    );
    assert_eq!(rt; arcs, expected);
    Ok(())
}

/// A branch over a call of a function that returns.
#[test]
fn weighs_edges_by_their_steps(rt: HostRuntime) -> Result<(), Fail> {
    let alloc = rt.alloc();
    let graph = graph_of(alloc, &[BRANCH_2, CALL_3, EXIT, ECALL, RETURN])?;
    let costs = Costs {
        alu: 1,
        load: 2,
        store: 3,
        taken: 4,
        untaken: 5,
        jump: 6,
        mul: 7,
        div: 8,
        ecall: 9,
        fence: 10,
    };
    let weights = graph.base_weights(alloc, &costs)?;
    assert_eq!(rt; weights.count(), 7);
    let mut sum = 0;
    for e in 0..7 {
        sum = 10 * (sum % 10_000_000) + *weights.get(e) % 10;
    }
    expect_same(&rt, 0, sum, 4_566_196);
    Ok(())
}
