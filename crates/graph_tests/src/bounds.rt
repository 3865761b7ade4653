//! Bounds that the code of a program shows: tables that are handed to the check, with sums of two registers as the code has them, and with others.
//! What drafts have of them is data, `bounds.txt` of the second program's `cases`.

ghost use Rattle.code_text.specs.Text.{text_of};
ghost use Rattle.flow_graph.specs.FlowGraph.{IsGraphOf};

use crate::programs::{CALL_5, ECALL, EXIT, RETURN, image_of, view_of};
use code_graph::build_graph;
use elf_view::ImageView;
use flow_graph::CodeGraph;
use scale_base::NoMemory;
use stack_checks::is_stack_analysed;
use stack_tables::{StackClaim, is_stack_sized};
use std::alloc::Global;
use std::test::Fail;
use value_analysis::analyse;
use value_checks::{Line, is_sized};
use wrapped_intervals::{Arc, Measure};

/// `a0` goes up by four until it is `a1`, which is 16.
const POINTER: [u32; 6] = [
    0x0000_0513,
    0x0105_0593,
    0x0045_0513,
    0xFEB5_1EE3,
    EXIT,
    ECALL,
];

/// The same as long as it isn't above `a1`.
const UP_TO: [u32; 6] = [
    0x0000_0513,
    0x0105_0593,
    0x0045_0513,
    0xFEA5_FEE3,
    EXIT,
    ECALL,
];

/// `s0` goes up by four until it is `s1`, which is 16, behind a call of a function that leaves both.
const CALLED: [u32; 8] = [
    0x0000_0413,
    0x0104_0493,
    CALL_5,
    0x0044_0413,
    0xFE94_1CE3,
    EXIT,
    ECALL,
    RETURN,
];

/// The same, but the function writes `s0`.
const WRITTEN: [u32; 9] = [
    0x0000_0413,
    0x0104_0493,
    CALL_5,
    0x0044_0413,
    0xFE94_1CE3,
    EXIT,
    ECALL,
    0x0070_0413,
    RETURN,
];

/// `a1 - a0`, and `s1 - s0`.
const FORMS: [Measure; 2] = [
    Measure {
        register: 10,
        factor: 4_294_967_295,
        other: 11,
        other_factor: 1,
        shift: 0,
    },
    Measure {
        register: 8,
        factor: 4_294_967_295,
        other: 9,
        other_factor: 1,
        shift: 0,
    },
];

/// What a table says of a form before a word: from the first number on, by fours, up to so many more.
type Told = (usize, usize, u64, u64);

/// The rows of a table for so many nodes.
fn lines_of(alloc: Global, nodes: usize, told: &[Told]) -> Result<Vec<Vec<Line>>, NoMemory> {
    let mut lines = Vec::new(alloc);
    for _ in 0..nodes {
        lines.push(Vec::new(alloc))?;
    }
    for (node, form, low, more) in told {
        if *node < lines.len() {
            lines[*node].push(Line {
                form: *form,
                arc: Arc::strided(*low, *more, 4),
            })?;
        }
    }
    Ok(lines)
}

/// Whether the check takes the tables of a program with these lines.
fn is_taken_of(
    alloc: Global,
    view: &ImageView<'_>,
    graph: &CodeGraph,
    told: &[Told],
) -> Result<bool, Fail>
    requires { IsGraphOf (text_of view.now) graph.now }
{
    let mut tables = analyse(alloc, view, graph)?;
    tables.values.forms = Vec::from_array(alloc, FORMS)?;
    tables.values.lines = lines_of(alloc, graph.node_count(), told)?;
    if !is_sized(graph, &tables.values) || !is_stack_sized(graph, &tables.stack) {
        return Err("there is a row for each node".into());
    }
    let _file = view.file();
    let claim = StackClaim {
        view,
        graph,
        table: &tables.values,
        stack: &tables.stack,
    };
    Ok(is_stack_analysed(&claim))
}

fn is_taken(alloc: Global, words: &[u32], told: &[Told]) -> Result<bool, Fail> {
    let file = image_of(alloc, words)?;
    let view = view_of(alloc, &file)?;
    match build_graph(alloc, &view) {
        Ok(graph) => is_taken_of(alloc, &view, &graph, told),
        Err(_) => Err("the code is accepted".into()),
    }
}

/// Programs with lines of a table, and whether they are taken.
static TABLES: [(&str, &[u32], &[Told], bool); 10] = [
    ("as it is", &POINTER, &[(2, 0, 4, 12), (3, 0, 0, 12)], true),
    (
        "nothing added",
        &POINTER,
        &[(2, 0, 4, 12), (3, 0, 4, 12)],
        false,
    ),
    (
        "16 left out",
        &POINTER,
        &[(2, 0, 4, 8), (3, 0, 0, 8)],
        false,
    ),
    (
        "12 left out",
        &POINTER,
        &[(2, 0, 4, 12), (3, 0, 0, 8)],
        false,
    ),
    ("0 left out", &UP_TO, &[(2, 0, 4, 12), (3, 0, 0, 12)], false),
    ("at the start", &POINTER, &[(0, 0, 0, 0)], true),
    ("not at the start", &POINTER, &[(0, 0, 4, 0)], false),
    (
        "behind a call",
        &CALLED,
        &[(2, 1, 4, 12), (3, 1, 4, 12), (4, 1, 0, 12)],
        true,
    ),
    (
        "behind one that writes",
        &WRITTEN,
        &[(2, 1, 4, 12), (3, 1, 4, 12), (4, 1, 0, 12)],
        false,
    ),
    ("of no form", &POINTER, &[(2, 2, 4, 12)], false),
];

#[test]
fn lines_are_taken_where_the_code_confirms_them(rt: HostRuntime) -> Result<(), Fail> {
    for (name, words, told, want) in &TABLES {
        let taken = is_taken(rt.alloc(), words, told)?;
        assert_eq!(rt; taken, *want, "{name}");
    }
    Ok(())
}
