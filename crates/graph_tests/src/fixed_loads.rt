//! Loads of constant tables: bytes that no store changes, and what a load of them gives, as the code confirms it, and as it doesn't.

ghost use Rattle.code_text.specs.Text.{text_of};
ghost use Rattle.flow_graph.specs.FlowGraph.{IsGraphOf};

use crate::programs::{ECALL, EXIT, view_of};
use code_graph::build_graph;
use elf_view::ImageView;
use flow_graph::CodeGraph;
use scale_base::NoMemory;
use stack_checks::is_stack_analysed;
use stack_tables::{FixedPart, StackClaim, is_stack_sized};
use std::alloc::Global;
use std::test::Fail;
use value_analysis::{Tables, analyse};
use value_checks::is_sized;
use wrapped_intervals::Arc;

/// The address of a table of four bytes, behind which there are four that may be written.
const TABLE: u32 = 0x20000;

/// Flags of its segment: it may be read, or written, too.
const READ: u32 = 4;

const READ_AND_WRITE: u32 = 6;

/// Loads from a5 to a0.
const LB: u32 = 0x0007_8503;

const LH: u32 = 0x0007_9503;

const LW: u32 = 0x0007_A503;

const LBU: u32 = 0x0007_C503;

const LHU: u32 = 0x0007_D503;

/// The node of the load.
const LOAD: usize = 4;

/// A table, and one with a byte whose highest bit is set.
const TABLE_BYTES: [u8; 4] = [3, 9, 5, 8];

const SIGNED_BYTES: [u8; 4] = [0xFE, 0, 1, 2];

/// From an address on, bytes that no store changes.
type Part<'a> = (u32, &'a [u8]);

/// A program with a table, and what is said of it: the bytes that no store changes; and each from a first number on up to so many more, the addresses of the
/// load, and by so many what is loaded.
#[derive(Clone, Copy)]
struct Said<'a> {
    load: u32,
    table: &'a [u8],
    flags: u32,
    parts: &'a [Part<'a>],
    addresses: (u64, u64),
    loaded: (u64, u64, u64),
}

/// What the code confirms.
const CONFIRMED: Said<'static> = Said {
    load: LBU,
    table: &TABLE_BYTES,
    flags: READ,
    parts: &[(TABLE, &TABLE_BYTES)],
    addresses: (0x20000, 3),
    loaded: (3, 6, 1),
};

/// The headers of a file: a text of seven words, the table with these flags, and four bytes behind it.
fn headers_of(flags: u32) -> [u32; 37] {
    [
        0x464C_457F,
        0x0001_0101,
        0,
        0,
        0x00F3_0002,
        1,
        0x0001_0000,
        52,
        0,
        0,
        0x0020_0034,
        3,
        0,
        1,
        148,
        0x0001_0000,
        0x0001_0000,
        28,
        28,
        5,
        4,
        1,
        176,
        0x0002_0000,
        0x0002_0000,
        4,
        4,
        flags,
        4,
        1,
        180,
        0x0002_0004,
        0x0002_0004,
        0,
        4,
        6,
        4,
    ]
}

/// The load is of one of the four addresses of the table.
fn words_of(load: u32) -> [u32; 7] {
    [
        0x0002_07B7, // lui a5,0x20
        0xFFF1_4583, // lbu a1,-1(sp)
        0x0035_F593, // andi a1,a1,3
        0x00B7_87B3, // add a5,a5,a1
        load,
        EXIT,
        ECALL,
    ]
}

/// The file of the program.
fn file_of(alloc: Global, said: &Said<'_>) -> Result<Vec<u8>, Fail> {
    let mut file = Vec::new(alloc);
    for word in headers_of(said.flags) {
        file.extend_from_slice(&u32::to_le_bytes(word))?;
    }
    for word in words_of(said.load) {
        file.extend_from_slice(&u32::to_le_bytes(word))?;
    }
    file.extend_from_slice(said.table)?;
    Ok(file)
}

fn parts_of(alloc: Global, told: &[Part<'_>]) -> Result<Vec<FixedPart>, NoMemory> {
    let mut parts = Vec::new(alloc);
    for (from, bytes) in told {
        parts.push(FixedPart {
            from: *from,
            bytes: Vec::from_slice(alloc, *bytes)?,
        })?;
    }
    Ok(parts)
}

/// Puts what is said into tables.
fn put_said(alloc: Global, tables: &mut Tables, said: &Said<'_>) -> Result<(), NoMemory> {
    tables.stack.fixed = parts_of(alloc, said.parts)?;
    let (first, behind) = said.addresses;
    let (low, more, stride) = said.loaded;
    for (k, row) in tables.values.rows.iter_mut().enumerate() {
        if k == LOAD {
            row[15] = Some(Arc::of(first, behind));
        }
        if k > LOAD {
            row[10] = Some(Arc::strided(low, more, stride));
        }
    }
    Ok(())
}

/// Whether the check takes tables with what is said.
fn is_taken_of(
    alloc: Global,
    view: &ImageView<'_>,
    graph: &CodeGraph,
    said: &Said<'_>,
) -> Result<bool, Fail>
    requires { IsGraphOf (text_of view.now) graph.now }
{
    let mut tables = analyse(alloc, view, graph)?;
    put_said(alloc, &mut tables, said)?;
    if !is_sized(graph, &tables.values) || !is_stack_sized(graph, &tables.stack) {
        return Err("there is a row for each node".into());
    }
    let _file = view.file();
    let claim = StackClaim {
        view,
        graph,
        table: &tables.values,
        stack: &tables.stack,
    };
    Ok(is_stack_analysed(&claim))
}

fn is_taken(alloc: Global, said: &Said<'_>) -> Result<bool, Fail> {
    let file = file_of(alloc, said)?;
    let view = view_of(alloc, &file)?;
    match build_graph(alloc, &view) {
        Ok(graph) => is_taken_of(alloc, &view, &graph, said),
        Err(_) => Err("the code is accepted".into()),
    }
}

/// What loads give: the load, the table, from which number on up to how many more, and by how many; and whether it is taken.
static LOADS: [(&str, u32, &[u8], (u64, u64, u64), bool); 17] = [
    ("as it is", LBU, &TABLE_BYTES, (3, 6, 1), true),
    (
        "the least one left out",
        LBU,
        &TABLE_BYTES,
        (4, 5, 1),
        false,
    ),
    (
        "the greatest one left out",
        LBU,
        &TABLE_BYTES,
        (3, 5, 1),
        false,
    ),
    (
        "that of the last address left out",
        LBU,
        &[3, 5, 8, 9],
        (3, 5, 1),
        false,
    ),
    ("by twos", LBU, &[3, 9, 5, 7], (3, 6, 2), true),
    (
        "by twos, with one between",
        LBU,
        &TABLE_BYTES,
        (3, 6, 2),
        false,
    ),
    (
        "with its sign",
        LB,
        &SIGNED_BYTES,
        (0xFFFF_FFFE, 4, 1),
        true,
    ),
    ("without the sign", LB, &SIGNED_BYTES, (0, 254, 1), false),
    (
        "with a sign that isn't loaded",
        LBU,
        &SIGNED_BYTES,
        (0xFFFF_FFFE, 4, 1),
        false,
    ),
    ("without a sign", LBU, &SIGNED_BYTES, (0, 254, 1), true),
    (
        "of two bytes",
        LHU,
        &TABLE_BYTES,
        (0x0805, 0xFE, 0xFE),
        true,
    ),
    ("of one for two", LHU, &TABLE_BYTES, (3, 6, 1), false),
    (
        "of two for one",
        LBU,
        &TABLE_BYTES,
        (0x0805, 0xFE, 1),
        false,
    ),
    (
        "of two, with the sign",
        LH,
        &[0xFF, 0xFF, 5, 0],
        (0xFFFF_FFFF, 6, 6),
        true,
    ),
    (
        "of two, without the sign",
        LH,
        &[0xFF, 0xFF, 5, 0],
        (5, 0xFFFA, 1),
        false,
    ),
    ("of four bytes", LW, &TABLE_BYTES, (0x0805_0903, 0, 1), true),
    (
        "the highest byte first",
        LW,
        &TABLE_BYTES,
        (0x0309_0508, 0, 1),
        false,
    ),
];

#[test]
fn loads_give_what_the_bytes_are(rt: HostRuntime) -> Result<(), Fail> {
    for (name, load, table, loaded, want) in &LOADS {
        let parts = [(TABLE, *table)];
        let said = Said {
            load: *load,
            table: *table,
            parts: &parts,
            loaded: *loaded,
            ..CONFIRMED
        };
        let taken = is_taken(rt.alloc(), &said)?;
        assert_eq!(rt; taken, *want, "{name}");
    }
    Ok(())
}

/// Bytes that are said to be changed by no store: the flags of the table's segment, the bytes, and whether they are taken.
static PARTS: [(&str, u32, &[Part<'static>], bool); 14] = [
    ("as they are", READ, &[(TABLE, &TABLE_BYTES)], true),
    (
        "in two parts",
        READ,
        &[(TABLE, &[3, 9]), (TABLE + 2, &[5, 8])],
        true,
    ),
    ("none", READ, &[], false),
    (
        "without the first one",
        READ,
        &[(TABLE + 1, &[9, 5, 8])],
        false,
    ),
    ("without the last one", READ, &[(TABLE, &[3, 9, 5])], false),
    ("another byte", READ, &[(TABLE, &[3, 9, 5, 7])], false),
    (
        "one twice",
        READ,
        &[(TABLE, &TABLE_BYTES), (TABLE + 1, &[9])],
        true,
    ),
    (
        "one twice, once another",
        READ,
        &[(TABLE, &TABLE_BYTES), (TABLE + 1, &[8])],
        false,
    ),
    (
        "a byte in no segment",
        READ,
        &[(TABLE - 1, &[1, 3, 9, 5, 8])],
        false,
    ),
    (
        "a byte 0 in no segment",
        READ,
        &[(TABLE - 1, &[0, 3, 9, 5, 8])],
        true,
    ),
    (
        "on to what may be written",
        READ,
        &[(TABLE, &[3, 9, 5, 8, 0])],
        false,
    ),
    (
        "all may be written",
        READ_AND_WRITE,
        &[(TABLE, &TABLE_BYTES)],
        false,
    ),
    (
        "of the stack, too",
        READ,
        &[(TABLE, &TABLE_BYTES), (0x7FFF_FFEF, &[0])],
        false,
    ),
    (
        "of the text, too",
        READ,
        &[(TABLE, &TABLE_BYTES), (0x10000, &[0xB7, 0x07])],
        true,
    ),
];

#[test]
fn bytes_are_taken_that_the_image_has_where_nothing_may_be_written(
    rt: HostRuntime,
) -> Result<(), Fail> {
    for (name, flags, parts, want) in &PARTS {
        let said = Said {
            flags: *flags,
            parts: *parts,
            ..CONFIRMED
        };
        let taken = is_taken(rt.alloc(), &said)?;
        assert_eq!(rt; taken, *want, "{name}");
    }
    Ok(())
}

/// Addresses of the load: the first one, how many more there are, and whether they are taken.
static ADDRESSES: [(&str, (u64, u64), bool); 4] = [
    ("as they are", (0x20000, 3), true),
    ("without the first one", (0x20001, 2), false),
    ("without the last one", (0x20000, 2), false),
    ("one more, which may be written", (0x20000, 4), false),
];

#[test]
fn loads_are_of_all_their_addresses(rt: HostRuntime) -> Result<(), Fail> {
    for (name, addresses, want) in &ADDRESSES {
        let said = Said {
            addresses: *addresses,
            ..CONFIRMED
        };
        let taken = is_taken(rt.alloc(), &said)?;
        assert_eq!(rt; taken, *want, "{name}");
    }
    Ok(())
}
