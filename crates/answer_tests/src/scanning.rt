//! What is found in the stubs of images of other make. What isn't in its form is data, `check-scanned.txt` of the first program's `cases`.

ghost use Rattle.std.specs.Prelude.{◌≤◌, ℕ, Bool};
ghost use Rattle.code_text.specs.Text.{text_of};
ghost use Rattle.flow_graph.specs.FlowGraph.{IsGraphOf};
ghost use Rattle.loop_forest.specs.Tree.{IsLoopTree};

use crate::fixtures::*;
use crate::stub_keys::push_fragments;
use code_graph::build_graph;
use elf_image::ImageView;
use elf_view::read_image;
use flow_graph::CodeGraph;
use foreign_scan::{ForeignFragment, ForeignSites, Scanned, scan};
use loop_file::{LoopNotes, read_loops};
use loop_forest::LoopTree;
use loop_tree::build_loops;
use std::alloc::{AllocError, Global};
use std::fmt::Write;
use std::process::Abort;
use std::test::Fail;

const DATA: u32 = 0x12345678;

fn length_of(words: &[u32]) -> u32
    ensures { result ≤ 252 }
{
    (4 * (words.len() % 64)) as u32
}

/// A file of the words of a text at 0x10000, and one word of data at 0x20000.
fn original(alloc: Global, text: &[u32]) -> Result<Vec<u8>, Fail> {
    let bytes = length_of(text);
    let mut file = file_head(
        alloc,
        0x10000,
        &[
            [1, 116, 0x10000, 0, bytes, bytes, 5, 4],
            [1, 116 + bytes, 0x20000, 0, 4, 8, 4, 4],
        ],
    )?;
    push_words(&mut file, text)?;
    push_words(&mut file, &[DATA])?;
    Ok(file)
}

/// The same with so many bytes of the words in the keyed segment, at 0x11000, which starts at level 1.
fn foreign(alloc: Global, text: &[u32], key: &[u32], len: u32) -> Result<Vec<u8>, Fail> {
    let bytes = length_of(text);
    let behind = 148 + bytes + length_of(key);
    let mut file = file_head(
        alloc,
        0x10000,
        &[
            [1, 148, 0x10000, 0, bytes, bytes, 5, 4],
            [1, 148 + bytes, 0x11000, 1, len, len, 0x00100005, 4],
            [1, behind, 0x20000, 0, 4, 8, 4, 4],
        ],
    )?;
    push_words(&mut file, text)?;
    push_words(&mut file, key)?;
    push_words(&mut file, &[DATA])?;
    Ok(file)
}

fn push_patched(text: &mut String, sites: &ForeignSites) -> Result<(), AllocError> {
    for k in 0..sites.count() {
        if sites.patched(k) {
            write!(text, "; node {k}")?;
        }
    }
    Ok(())
}

fn push_edge(text: &mut String, e: usize, fragments: &[ForeignFragment]) -> Result<(), AllocError> {
    if fragments.is_empty() {
        return Ok(());
    }
    write!(text, "; edge {e}")?;
    push_fragments(text, fragments)
}

fn push_edges(text: &mut String, sites: &ForeignSites) -> Result<(), AllocError> {
    for e in 0..sites.edge_count() {
        push_edge(text, e, sites.fragments(e))?;
    }
    Ok(())
}

/// How many nodes and edges there are, the nodes that are patched, and the edges that have fragments, with these.
fn push_sites(text: &mut String, sites: &ForeignSites) -> Result<(), AllocError> {
    let nodes = sites.count();
    let edges = sites.edge_count();
    write!(text, "{nodes} nodes {edges} edges")?;
    push_patched(text, sites)?;
    push_edges(text, sites)
}

fn sites_text(alloc: Global, sites: &ForeignSites) -> Result<String, Fail> {
    let mut text = String::new(alloc);
    push_sites(&mut text, sites)?;
    Ok(text)
}

fn scanned_text(alloc: Global, scanned: &Scanned) -> Result<String, Fail> {
    match scanned {
        Scanned::Found(sites) => sites_text(alloc, sites),
        Scanned::Fails(_) => Err("a cause".into()),
    }
}

fn tree_scan(
    alloc: Global,
    view: &ImageView<'_>,
    foreign: &ImageView<'_>,
    graph: &CodeGraph,
    tree: &LoopTree,
) -> Result<String, Fail>
    requires graph { IsGraphOf (text_of view.now) graph.now }
    requires tree { (extent : ℕ → ℕ → Bool) × IsLoopTree graph.now extent tree.now }
{
    if view.keyed() != None {
        return Err(Fail::from("no key"));
    }
    let found = scan(alloc, view, foreign, graph, tree)?;
    scanned_text(alloc, &found)
}

fn graph_scan(
    alloc: Global,
    view: &ImageView<'_>,
    foreign: &ImageView<'_>,
    graph: &CodeGraph,
    notes: &LoopNotes,
) -> Result<String, Fail>
    requires graph { IsGraphOf (text_of view.now) graph.now }
{
    match build_loops(alloc, graph, notes) {
        Ok(tree) => tree_scan(alloc, view, foreign, graph, &tree),
        Err(_) => Err("a refusal".into()),
    }
}

fn notes_scan(
    alloc: Global,
    view: &ImageView<'_>,
    foreign: &ImageView<'_>,
    notes: &LoopNotes,
) -> Result<String, Fail> {
    match build_graph(alloc, view) {
        Ok(graph) => graph_scan(alloc, view, foreign, &graph, notes),
        Err(_) => Err("a refusal".into()),
    }
}

/// What a scan finds in another image beside an original with loops.
fn scan_text(
    alloc: Global,
    view: &ImageView<'_>,
    foreign: &ImageView<'_>,
    loops: &str,
) -> Result<String, Fail> {
    match read_loops(alloc, loops.as_bytes(), view) {
        Ok(notes) => notes_scan(alloc, view, foreign, &notes),
        Err(_) => Err("a refusal".into()),
    }
}

/// The same of the file of the other image.
fn view_scan(
    alloc: Global,
    view: &ImageView<'_>,
    loops: &str,
    other: &[u8],
) -> Result<String, Fail> {
    match read_image(alloc, other) {
        Ok(foreign) => scan_text(alloc, view, &foreign, loops),
        Err(_) => Err("a refusal".into()),
    }
}

fn file_scan(alloc: Global, file: &[u8], loops: &str, other: &[u8]) -> Result<String, Fail> {
    match read_image(alloc, file) {
        Ok(view) => view_scan(alloc, &view, loops, other),
        Err(_) => Err("a refusal".into()),
    }
}

/// The same of the words of a program.
fn scanned(alloc: Global, program: &[u32], loops: &str, other: &[u8]) -> Result<String, Fail> {
    let file = original(alloc, program)?;
    file_scan(alloc, &file, loops, other)
}

/// A program with its loops, its text in the other image, the words and the length of the key there, and how the answer begins.
#[derive(Clone, Copy)]
struct Scan {
    program: &'static [u32],
    loops: &'static str,
    text: &'static [u32],
    key: &'static [u32],
    len: u32,
    found: &'static str,
}

fn scan_of(alloc: Global, row: &Scan) -> Result<String, Fail> {
    let file = foreign(alloc, row.text, row.key, row.len)?;
    scanned(alloc, row.program, row.loops, &file)
}

fn check_scans(rt: &impl Abort, alloc: Global, rows: &[Scan]) -> Result<(), Fail> {
    for (k, row) in rows.iter().enumerate() {
        expect_parts(rt, k, scan_of(alloc, row), &[row.found])?;
    }
    Ok(())
}

/// `READ_ONE` with its branch patched, by a jump to 0x11000.
const SKIPS: [u32; 13] = [
    0x03F00893, 0x00010593, 0x00100613, 0x00000073, 0x7F10006F, 0x0262C2B3, 0x0262C2B3, 0x0262C2B3,
    0x0262C2B3, 0x0262C2B3, 0x0262C2B3, 0x05D00893, 0x00000073,
];

/// `READ_ALL` with its branch patched.
const LOOPS: [u32; 8] = [
    0x00010593, 0x00100613, 0x03F00893, 0x00000513, 0x00000073, 0x7ED0006F, 0x05D00893, 0x00000073,
];

/// The stub of the loop's branch, and eleven rows.
const COUNTED_KEY: [u32; 35] = [
    0x04051463, 0x80502023, 0x80602223, 0x80802283, 0x0002D293, 0x00229293, 0x00011337, 0x006282B3,
    0x0602A303, 0xFFC02283, 0x00229293, 0x00535333, 0x00F37313, 0x80002423, 0xFE602E23, 0x80402303,
    0x80002283, 0xFD5FE06F, 0x80502023, 0x80802283, 0x00128293, 0x80502423, 0x80002283, 0xFADFE06F,
    0x00000000, 0x00000000, 0x00000000, 0x00000000, 0x00000000, 0x00000000, 0x00000000, 0x00000000,
    0x00000000, 0x00000000, 0x00000000,
];

/// The stub of the branch of `READ_ONE` with another word of its Switch.
const LOW: [u32; 14] = [
    0x00050463, 0x810FF06F, 0x80502023, 0x80602223, 0xFFC02283, 0x00229293, 0x00000337, 0x00030313,
    0x00535333, 0x00F37313, 0xFE602E23, 0x80402303, 0x80002283, 0xFF9FE06F,
];

/// The stub of the loop's branch, of which the untaken way is a Reset, and then the jump.
const RESET_KEY: [u32; 9] = [
    0x00051663, 0x80002423, 0x810FF06F, 0x80502023, 0x80802283, 0x00128293, 0x80502423, 0x80002283,
    0xFE9FE06F,
];

/// Switches, counts, exits and resets. The level of the key and the words of tables are not looked at.
static FOUND: [Scan; 4] = [
    Scan {
        program: &READ_ONE,
        loops: NO_LOOPS,
        text: &SKIPS,
        key: &SWITCHED,
        len: 56,
        found: "13 nodes 14 edges; node 4; edge 4 switch 0x100",
    },
    Scan {
        program: &READ_ONE,
        loops: NO_LOOPS,
        text: &SKIPS,
        key: &LOW,
        len: 56,
        found: "13 nodes 14 edges; node 4; edge 4 switch 0x0",
    },
    Scan {
        program: &READ_ALL,
        loops: READ_LOOP,
        text: &LOOPS,
        key: &COUNTED_KEY,
        len: 140,
        found: "8 nodes 9 edges; node 5; edge 5 count 2; edge 6 exit 2 0 0x11060",
    },
    Scan {
        program: &READ_ALL,
        loops: READ_LOOP,
        text: &LOOPS,
        key: &RESET_KEY,
        len: 36,
        found: "8 nodes 9 edges; node 5; edge 5 count 2; edge 6 reset 2",
    },
];

#[test]
fn finds_the_fragments_of_a_branch(rt: HostRuntime) -> Result<(), Fail> {
    check_scans(&rt, rt.alloc(), &FOUND)
}

/// The stub of the loop's branch, shifted by one: there are rows 0 to 5.
const SHIFTED: [u32; 35] = [
    0x04051463, 0x80502023, 0x80602223, 0x80802283, 0x0012D293, 0x00229293, 0x00011337, 0x006282B3,
    0x0602A303, 0xFFC02283, 0x00229293, 0x00535333, 0x00F37313, 0x80002423, 0xFE602E23, 0x80402303,
    0x80002283, 0xFD5FE06F, 0x80502023, 0x80802283, 0x00128293, 0x80502423, 0x80002283, 0xFADFE06F,
    0x00000000, 0x00000000, 0x00000000, 0x00000000, 0x00000000, 0x00000000, 0x00000000, 0x00000000,
    0x00000000, 0x00000000, 0x00000000,
];

/// The count is one of another counter.
const OTHER: [u32; 35] = [
    0x04051463, 0x80502023, 0x80602223, 0x80802283, 0x0002D293, 0x00229293, 0x00011337, 0x006282B3,
    0x0602A303, 0xFFC02283, 0x00229293, 0x00535333, 0x00F37313, 0x80002423, 0xFE602E23, 0x80402303,
    0x80002283, 0xFD5FE06F, 0x80502023, 0x80C02283, 0x00128293, 0x80502623, 0x80002283, 0xFADFE06F,
    0x00000000, 0x00000000, 0x00000000, 0x00000000, 0x00000000, 0x00000000, 0x00000000, 0x00000000,
    0x00000000, 0x00000000, 0x00000000,
];

/// Tables whose rows are all in the key: up to the bound of the loop, as many as the shift leaves, and one where nothing counts.
static ROWS: [Scan; 3] = [
    Scan {
        program: &READ_ALL,
        loops: READ_LOOP,
        text: &LOOPS,
        key: &COUNTED_KEY,
        len: 140,
        found: "8 nodes 9 edges; ",
    },
    Scan {
        program: &READ_ALL,
        loops: READ_LOOP,
        text: &LOOPS,
        key: &SHIFTED,
        len: 120,
        found: "8 nodes 9 edges; ",
    },
    Scan {
        program: &READ_ALL,
        loops: READ_LOOP,
        text: &LOOPS,
        key: &OTHER,
        len: 100,
        found: "8 nodes 9 edges; ",
    },
];

#[test]
fn rows_of_tables(rt: HostRuntime) -> Result<(), Fail> {
    check_scans(&rt, rt.alloc(), &ROWS)
}
