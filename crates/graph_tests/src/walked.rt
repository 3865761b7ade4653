//! Walks through memory: a table that the code confirms, and some that it doesn't.

ghost use Rattle.code_text.specs.Text.{text_of};
ghost use Rattle.flow_graph.specs.FlowGraph.{IsGraphOf};

use crate::programs::{BREAKPOINT, ECALL, EXIT, START, image_of, view_of};
use code_graph::build_graph;
use elf_view::ImageView;
use flow_graph::CodeGraph;
use loop_file::{LoopNotes, read_loops};
use scale_base::{LoadOp, NoMemory};
use stack_tables::{StackClaim, is_stack_sized};
use std::alloc::Global;
use std::test::Fail;
use value_analysis::{Tables, analyse};
use value_checks::is_sized;
use walk_checks::{Sought, Trace, WalkPlace, WalkTable, WordTrace, is_walk_shown};
use wrapped_intervals::Arc;

/// A list of numbers that ends with 0.
const WALK: [u32; 7] = [
    0x0002_0537, // lui a0,0x20
    0x0005_2583, // 10004: lw a1,0(a0)
    0x0045_0513, // addi a0,a0,4
    0xFE05_9CE3, // bne a1,zero,10004
    EXIT,
    ECALL,
    BREAKPOINT,
];

/// The same of a list behind the code, where no store changes it.
const SEARCH: [u32; 11] = [
    0x0001_0537, // lui a0,0x10
    0x01C5_2583, // 10004: lw a1,28(a0)
    0x0045_0513, // addi a0,a0,4
    0xFE05_9CE3, // bne a1,zero,10004
    EXIT,
    ECALL,
    BREAKPOINT,
    7, // 1001c
    7,
    7,
    0,
];

/// The first of its numbers.
const LIST: u64 = 0x1_001C;

/// The loop of both, which turns no more often than there are words in most of memory.
const LOOP: &str =
    "version = 2\n[[loop]]\nheader = 0x00010004\nranges = [[0x00010004, 0x00010010]]\nbound = 1000000000\n";

/// The first node of the loop, and the last one.
const HEADER: u32 = START + 4;

const LAST: u32 = START + 12;

/// In which way a table is another one than the code confirms.
#[derive(Clone, Copy)]
enum Other {
    None,
    Untouched,
    Still,
    Farther,
    Narrower,
    Groundless,
    Apart,
    Aside,
    Placed,
    Misplaced,
    PlacedGroundless,
    Sought,
    SoughtShort,
    SoughtLong,
    SoughtNarrower,
    SoughtLater,
    SoughtUnstarted,
    SoughtUnheld,
    SoughtHalves,
    SoughtTouched,
}

impl Other {
    /// Whether the ground is left out.
    fn is_groundless(&self) -> bool {
        matches!(self, Other::Groundless | Other::PlacedGroundless)
    }

    /// Whether a 0 is looked for.
    fn is_sought(&self) -> bool {
        matches!(
            self,
            Other::Sought
                | Other::SoughtShort
                | Other::SoughtLong
                | Other::SoughtNarrower
                | Other::SoughtLater
                | Other::SoughtUnstarted
                | Other::SoughtUnheld
                | Other::SoughtHalves
                | Other::SoughtTouched
        )
    }
}

/// How many times the register, and how much more.
fn trace_of(more: u64) -> Trace {
    Trace {
        firsts: 1,
        seconds: 0,
        more: Arc::strided(more, 0, 0),
    }
}

/// What is known of registers at an address: of a0 in the loop.
fn row_of(alloc: Global, at: u32) -> Result<Vec<Option<Trace>>, NoMemory> {
    let mut row = Vec::new(alloc);
    for r in 0..32u32 {
        let known = r == 10 && HEADER <= at && at <= LAST;
        row.push(known.then_some(trace_of(if at == LAST { 4 } else { 0 })))?;
    }
    Ok(row)
}

/// The interval of a0 where it is accessed.
fn address_of(graph: &CodeGraph, tables: &Tables) -> Option<Arc> {
    let row = tables.values.rows.get(graph.find(HEADER)?)?;
    row.get(10).copied().flatten()
}

/// The place of the walk: none, that of the address, or another one.
fn place_of(graph: &CodeGraph, tables: &Tables, other: Other) -> Option<Arc> {
    match other {
        Other::Placed | Other::PlacedGroundless => address_of(graph, tables),
        Other::Misplaced => Some(Arc::of(0, 15)),
        _ => None,
    }
}

/// What is known at the nodes of a walk, one by one.
fn push_rows(
    alloc: Global,
    table: &mut WalkTable,
    graph: &CodeGraph,
    other: Other,
) -> Result<(), NoMemory> {
    for k in 0..graph.node_count() {
        let at = graph.node(k);
        let inside = HEADER <= at && at <= LAST;
        let behind = inside && at != HEADER;
        let sought = other.is_sought() && !matches!(other, Other::SoughtTouched);
        let touched = behind && !sought && !matches!(other, Other::Untouched);
        let holds = behind && other.is_sought() && !matches!(other, Other::SoughtUnheld);
        let still = matches!(other, Other::Still) && at == LAST;
        table.body.push(inside)?;
        table
            .rows
            .push(row_of(alloc, if still { HEADER } else { at })?)?;
        table.words.push(Vec::new(alloc))?;
        table.touched.push(touched)?;
        table.holders.push(holds.then_some(11))?;
        table.quiet.push(false)?;
    }
    Ok(())
}

/// The table of a walk through the list behind the code, or another one.
fn sought_of(alloc: Global, graph: &CodeGraph, other: Other) -> Result<WalkTable, NoMemory> {
    let more = match other {
        Other::SoughtShort => 4,
        Other::SoughtLong => 12,
        _ => 8,
    };
    let mut table = WalkTable {
        first: WalkPlace::Register(10),
        first_factor: 1,
        second: WalkPlace::Register(10),
        second_factor: 0,
        at: 28,
        down: false,
        least: 4,
        spread: 0,
        width: if matches!(other, Other::SoughtNarrower) {
            11
        } else {
            16
        },
        place: None,
        start: match other {
            Other::SoughtUnstarted => None,
            Other::SoughtLater => Some(Arc::of(LIST + 4, 0)),
            _ => Some(Arc::of(LIST, 0)),
        },
        sought: Some(Sought {
            op: if matches!(other, Other::SoughtHalves) {
                LoadOp::Lhu
            } else {
                LoadOp::Lw
            },
            wanted: Arc::of(1, 0xFFFF_FFFE),
        }),
        ground: Vec::new(alloc),
        body: Vec::new(alloc),
        rows: Vec::new(alloc),
        words: Vec::new(alloc),
        touched: Vec::new(alloc),
        holders: Vec::new(alloc),
        quiet: Vec::new(alloc),
    };
    table.ground.push(Arc::strided(LIST, more, 4))?;
    push_rows(alloc, &mut table, graph, other)?;
    Ok(table)
}

/// The table of the walk, or another one.
fn table_of(
    alloc: Global,
    graph: &CodeGraph,
    tables: &Tables,
    other: Other,
) -> Result<WalkTable, NoMemory> {
    let mut table = WalkTable {
        first: WalkPlace::Register(10),
        first_factor: 1,
        second: WalkPlace::Register(10),
        second_factor: 0,
        at: if matches!(other, Other::Aside) { 4 } else { 0 },
        down: false,
        least: if matches!(other, Other::Farther) {
            5
        } else {
            4
        },
        spread: if matches!(other, Other::Apart) {
            0xFFFF_0000
        } else {
            0
        },
        width: if matches!(other, Other::Narrower) {
            64
        } else {
            0xE000_0000
        },
        place: place_of(graph, tables, other),
        start: None,
        sought: None,
        ground: Vec::new(alloc),
        body: Vec::new(alloc),
        rows: Vec::new(alloc),
        words: Vec::new(alloc),
        touched: Vec::new(alloc),
        holders: Vec::new(alloc),
        quiet: Vec::new(alloc),
    };
    for area in &tables.stack.areas {
        if !other.is_groundless() {
            table.ground.push(*area)?;
        }
    }
    push_rows(alloc, &mut table, graph, other)?;
    Ok(table)
}

/// Whether the check takes it.
fn is_taken_of(
    alloc: Global,
    view: &ImageView<'_>,
    graph: &CodeGraph,
    notes: &LoopNotes,
    other: Other,
) -> Result<bool, Fail>
    requires { IsGraphOf (text_of view.now) graph.now }
{
    let tables = analyse(alloc, view, graph)?;
    if !is_sized(graph, &tables.values) || !is_stack_sized(graph, &tables.stack) {
        return Err("there is a row for each node".into());
    }
    let _file = view.file();
    let claim = StackClaim {
        view,
        graph,
        table: &tables.values,
        stack: &tables.stack,
    };
    let table = if other.is_sought() {
        sought_of(alloc, graph, other)?
    } else {
        table_of(alloc, graph, &tables, other)?
    };
    if notes.count() == 0 {
        return Err("there is a loop".into());
    }
    Ok(is_walk_shown(&claim, notes.note(0), &table))
}

fn is_taken(alloc: Global, other: Other) -> Result<bool, Fail> {
    let file = if other.is_sought() {
        image_of(alloc, &SEARCH)?
    } else {
        image_of(alloc, &WALK)?
    };
    let view = view_of(alloc, &file)?;
    let Ok(notes) = read_loops(alloc, LOOP.as_bytes(), &view) else {
        return Err("the loop file is read".into());
    };
    match build_graph(alloc, &view) {
        Ok(graph) => is_taken_of(alloc, &view, &graph, &notes, other),
        Err(_) => Err("the code is accepted".into()),
    }
}

/// Tables, and whether they are taken.
static TABLES: [(&str, Other, bool); 20] = [
    ("as it is", Other::None, true),
    ("no access", Other::Untouched, false),
    ("a pointer that stays", Other::Still, false),
    ("a longer step", Other::Farther, false),
    ("too small a width", Other::Narrower, false),
    ("no ground", Other::Groundless, false),
    ("steps from one area to another", Other::Apart, false),
    ("an access behind the pointer", Other::Aside, false),
    ("the interval of the address", Other::Placed, true),
    ("another interval", Other::Misplaced, false),
    ("no ground in the interval", Other::PlacedGroundless, false),
    ("up to a 0", Other::Sought, true),
    ("up to a number before it", Other::SoughtShort, false),
    ("up to where nothing is known", Other::SoughtLong, false),
    ("too small a width up to a 0", Other::SoughtNarrower, false),
    ("from a later number on", Other::SoughtLater, false),
    ("from anywhere on", Other::SoughtUnstarted, false),
    (
        "no register with what is loaded",
        Other::SoughtUnheld,
        false,
    ),
    ("loads of another kind", Other::SoughtHalves, false),
    ("what is loaded taken as found", Other::SoughtTouched, false),
];

#[test]
fn walks_are_taken_where_the_code_confirms_them(rt: HostRuntime) -> Result<(), Fail> {
    for (name, other, want) in &TABLES {
        let taken = is_taken(rt.alloc(), *other)?;
        assert_eq!(rt; taken, *want, "{name}");
    }
    Ok(())
}
