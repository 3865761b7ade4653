//! The loops of programs: their bodies and nesting, their back edges and trips. What is refused is data, `refused-loops.txt` of the first program's `cases`.

ghost use Rattle.std.specs.Prelude.{ℕ, Bool};
ghost use Rattle.loop_forest.specs.Tree.{IsLoopTree};

use crate::programs::{
    BACK_1, BACK_3, BRANCH_0, BRANCH_2, BRANCH_3, CALL_2, CALL_5, ECALL, EXIT, JUMP_2, JUMP_BACK_1,
    JUMP_BACK_2, JUMP_BACK_3, NO_OPERATION, RETURN, START, expect_list, expect_same, expect_text,
    graph_of,
};
use flow_graph::CodeGraph;
use loop_file::{LoopNote, LoopNotes, RangeList};
use loop_forest::LoopTree;
use loop_tree::build_loops;
use scale_base::Range;
use std::alloc::{AllocError, Global};
use std::fmt::Write;
use std::test::Fail;

/// A branch by six words, and one back by five.
const BRANCH_6: u32 = 0xC63;

const BACK_5: u32 = 0xFE00_06E3;

/// A loop by the number of the header's word, that of the first word of the range and that of the one behind it.
type Places = (u8, u8, u8);

/// Word 1 is the header of a loop with word 2.
const SIMPLE: [u32; 5] = [NO_OPERATION, BRANCH_2, JUMP_BACK_1, EXIT, ECALL];

/// Words 0 to 3 turn back to word 0.
const FROM_START: [u32; 6] = [
    NO_OPERATION,
    BRANCH_3,
    NO_OPERATION,
    JUMP_BACK_3,
    EXIT,
    ECALL,
];

/// The call at word 1 comes back to word 2, which word 3 leads to by way of word 1.
const CALL_AT_END: [u32; 7] = [JUMP_2, CALL_5, BRANCH_2, JUMP_BACK_2, EXIT, ECALL, RETURN];

/// Words 0 to 2 turn back to word 0; the function at word 3 turns back from word 4.
const TWO_FUNCTIONS: [u32; 8] = [
    BRANCH_6,
    CALL_2,
    JUMP_BACK_2,
    BRANCH_2,
    JUMP_BACK_1,
    RETURN,
    EXIT,
    ECALL,
];

/// Words 2 and 3 are a loop within one of words 1 to 4.
const NESTED: [u32; 8] = [
    NO_OPERATION,
    NO_OPERATION,
    NO_OPERATION,
    BACK_1,
    BACK_3,
    NO_OPERATION,
    EXIT,
    ECALL,
];

const INNER: Places = (2, 2, 4);

const OUTER: Places = (1, 1, 5);

/// The address of a word.
fn address_of(word: u8) -> u32 {
    START + 4 * u32::from(word)
}

/// Notes of loops of the bound 5, which turn at least 3 times. The second is counted.
fn notes_of(alloc: Global, loops: &[Places]) -> Result<LoopNotes, Fail> {
    let mut notes = LoopNotes::new(alloc);
    for (header, from, to) in loops {
        let mut items = Vec::new(alloc);
        items.push(Range {
            from: address_of(*from),
            to: address_of(*to),
        })?;
        let note = LoopNote {
            header: address_of(*header),
            ranges: RangeList::from_vec(items),
            bound: 5,
            counted: notes.count() == 1,
            at_least: 3,
        };
        if notes.count() >= 4096 {
            return Err("there are few loops".into());
        }
        notes.push(note)?;
    }
    Ok(notes)
}

fn built_tree(alloc: Global, graph: &CodeGraph, notes: &LoopNotes) -> Result<LoopTree, Fail> {
    match build_loops(alloc, graph, notes) {
        Ok(tree) => Ok(tree),
        Err(_) => Err("the loops are accepted".into()),
    }
}

/// The loops of a program.
fn tree_of(alloc: Global, words: &[u32], loops: &[Places]) -> Result<LoopTree, Fail> {
    let graph = graph_of(alloc, words)?;
    let notes = notes_of(alloc, loops)?;
    built_tree(alloc, &graph, &notes)
}

/// The header of a loop with its body.
fn push_body(text: &mut String, header: usize, body: &[usize]) -> Result<(), AllocError> {
    write!(text, "{header}:")?;
    for node in body {
        write!(text, " {node}")?;
    }
    text.push_str("; ")
}

/// Each header with the body of its loop.
fn loops_text(alloc: Global, tree: &LoopTree) -> Result<String, Fail> {
    let mut text = String::new(alloc);
    for l in 0..tree.loop_count() {
        push_body(&mut text, tree.header(l), tree.body(l))?;
    }
    Ok(text)
}

/// Each header of a program's loops with the body.
fn bodies_text(alloc: Global, words: &[u32], loops: &[Places]) -> Result<String, Fail> {
    let tree = tree_of(alloc, words, loops)?;
    loops_text(alloc, &tree)
}

/// Of the deep loops two alone.
const TWO_DEEP: [u32; 22] = [
    NO_OPERATION,
    NO_OPERATION,
    NO_OPERATION,
    NO_OPERATION,
    NO_OPERATION,
    NO_OPERATION,
    NO_OPERATION,
    NO_OPERATION,
    NO_OPERATION,
    NO_OPERATION,
    NO_OPERATION,
    NO_OPERATION,
    NO_OPERATION,
    NO_OPERATION,
    NO_OPERATION,
    NO_OPERATION,
    NO_OPERATION,
    BACK_1,
    NO_OPERATION,
    BACK_5,
    EXIT,
    ECALL,
];

/// The loops of a program, and the nodes of each by its header.
static BODIES: [(&str, &[u32], &[Places], &str); 8] = [
    ("no loop", &[NO_OPERATION, EXIT, ECALL], &[], ""),
    ("simple", &SIMPLE, &[(1, 1, 3)], "1: 1 2; "),
    (
        "the header is in its extent in any case",
        &SIMPLE,
        &[(1, 2, 3)],
        "1: 1 2; ",
    ),
    ("a wider extent", &SIMPLE, &[(1, 1, 5)], "1: 1 2; "),
    ("from the start", &FROM_START, &[(0, 0, 4)], "0: 0 1 2 3; "),
    (
        "a call at the end",
        &CALL_AT_END,
        &[(2, 1, 7)],
        "2: 1 2 3; ",
    ),
    // Each loop lies in the range of the other, and none of its nodes in the other's body.
    (
        "two functions",
        &TWO_FUNCTIONS,
        &[(0, 0, 6), (3, 0, 6)],
        "0: 0 1 2; 3: 3 4; ",
    ),
    (
        "nested",
        &TWO_DEEP,
        &[(16, 16, 18), (14, 14, 20)],
        "16: 16 17; 14: 14 15 16 17 18 19; ",
    ),
];

#[test]
fn finds_the_bodies_of_loops(rt: HostRuntime) -> Result<(), Fail> {
    for (name, words, loops, want) in &BODIES {
        expect_text(&rt, name, bodies_text(rt.alloc(), words, loops), want)?;
    }
    Ok(())
}

#[test]
fn orders_nodes_along_branches(rt: HostRuntime) -> Result<(), Fail> {
    // A branch to the third word, which jumps back to the second.
    let words = [BRANCH_2, JUMP_2, JUMP_BACK_1, EXIT, ECALL];
    let tree = tree_of(rt.alloc(), &words, &[])?;
    expect_same(&rt, 0, tree.loop_count(), 0);
    expect_list(&rt, 0, tree.plain_order(), &[0, 2, 1, 3, 4]);
    Ok(())
}

/// A loop; nothing where there is none.
fn push_loop(text: &mut String, number: Option<usize>) -> Result<(), AllocError> {
    match number {
        Some(number) => write!(text, " {number}"),
        None => text.push_str(" -"),
    }
}

fn nesting_of(alloc: Global, graph: &CodeGraph, tree: &LoopTree) -> Result<String, Fail>
    requires tree { (extent : ℕ → ℕ → Bool) × IsLoopTree graph.now extent tree.now }
{
    let mut text = String::new(alloc);
    for k in 0..graph.node_count() {
        push_loop(&mut text, tree.innermost(k))?;
    }
    text.push_str(";")?;
    for l in 0..tree.loop_count() {
        push_loop(&mut text, tree.parent(l))?;
    }
    Ok(text)
}

/// By node the innermost loop round it, and by loop the next one round it.
fn nesting_text(alloc: Global, words: &[u32], loops: &[Places]) -> Result<String, Fail> {
    let graph = graph_of(alloc, words)?;
    let notes = notes_of(alloc, loops)?;
    match build_loops(alloc, &graph, &notes) {
        Ok(tree) => nesting_of(alloc, &graph, &tree),
        Err(_) => Err("the loops are accepted".into()),
    }
}

/// `NESTED`, but word 5 branches to itself.
const NESTED_AND_ITSELF: [u32; 8] = [
    NO_OPERATION,
    NO_OPERATION,
    NO_OPERATION,
    BACK_1,
    BACK_3,
    BRANCH_0,
    EXIT,
    ECALL,
];

/// A program, its loops, by node the innermost loop round it, and by loop the next one round it. The inner loop is noted first.
static NESTINGS: [(&[u32], &[Places], &str); 2] = [
    (&NESTED, &[INNER, OUTER], " - 1 0 0 1 - - -; 1 -"),
    (
        &NESTED_AND_ITSELF,
        &[INNER, OUTER, (5, 5, 6)],
        " - 1 0 0 1 2 - -; 1 - -",
    ),
];

#[test]
fn nests_loops(rt: HostRuntime) -> Result<(), Fail> {
    for (words, loops, want) in &NESTINGS {
        expect_text(&rt, want, nesting_text(rt.alloc(), words, loops), want)?;
    }
    Ok(())
}

/// Of each loop the header, the bound, whether it is counted, and the least number of its turns.
fn notes_text(alloc: Global, tree: &LoopTree) -> Result<String, Fail> {
    let mut text = String::new(alloc);
    for l in 0..tree.loop_count() {
        write!(
            &mut text,
            "{} {} {} {}; ",
            tree.header(l),
            tree.bound(l),
            tree.counted(l),
            tree.least_trips(l)
        )?;
    }
    Ok(text)
}

/// Trips are those of whole extents: where the word behind a loop is in its range, and not in its body, the loop need not turn.
static NOTES: [(Places, &str); 2] = [
    (OUTER, "2 5 false 3; 1 5 true 3; 2: 2 3; 1: 1 2 3 4; "),
    ((1, 1, 6), "2 5 false 3; 1 5 true 0; 2: 2 3; 1: 1 2 3 4; "),
];

/// The notes of two nested loops, and their bodies.
fn nested_text(alloc: Global, outer: Places) -> Result<String, Fail> {
    let tree = tree_of(alloc, &NESTED, &[INNER, outer])?;
    let mut text = notes_text(alloc, &tree)?;
    let bodies = loops_text(alloc, &tree)?;
    text.push_str(&bodies)?;
    Ok(text)
}

#[test]
fn keeps_notes_of_loops(rt: HostRuntime) -> Result<(), Fail> {
    for (outer, want) in &NOTES {
        expect_text(&rt, want, nested_text(rt.alloc(), *outer), want)?;
    }
    Ok(())
}

/// Of a branch the edge by which it is taken comes first.
static BACKS: [Option<usize>; 10] = [
    None,
    None,
    None,
    Some(0),
    None,
    Some(1),
    None,
    None,
    None,
    None,
];

#[test]
fn finds_back_edges(rt: HostRuntime) -> Result<(), Fail> {
    let tree = tree_of(rt.alloc(), &NESTED, &[INNER, OUTER])?;
    assert_eq!(rt; tree.loop_count(), 2);
    assert_eq!(rt; (tree.in_body(1, 4), tree.in_body(0, 4)), (true, false));
    expect_list(&rt, 0, tree.plain_order(), &[0, 1, 2, 3, 4, 5, 6, 7]);
    expect_list(&rt, 1, tree.backs(), &BACKS);
    Ok(())
}
