//! The bodies of loops, one by one and in groups.

ghost use Rattle.std.specs.Prelude.{◌≡◌, ◌<◌, IfOk};
ghost use Rattle.graph_algorithms.specs.Groups.{AreLoopExtents};

use crate::programs::{expect_list, expect_same};
use graph_algorithms::{BodySearch, GroupBodies, LoopExtent, NodeRange, has_bit};
use scale_base::NoMemory;
use std::alloc::Global;
use std::process::Abort;
use std::test::Fail;

// 0 to 1, 1 to 2 and 4, 2 to 3, 3 to 1 and nowhere, 4 to 5, 5 to 2 and 5
const SOURCES: [usize; 9] = [0, 1, 1, 2, 3, 3, 4, 5, 5];

const TARGETS: [Option<usize>; 9] = [
    Some(1),
    Some(2),
    Some(4),
    Some(3),
    Some(1),
    None,
    Some(5),
    Some(2),
    Some(5),
];

/// The search in the small graph.
fn small_search(alloc: Global) -> Result<BodySearch<'static>, NoMemory>
    ensures { IfOk result (λ search. search.count ≡ 6) }
{
    BodySearch::new(alloc, &SOURCES, &TARGETS, 6)
}

/// The sorted body of the loop with a header and an extent.
fn body_of(alloc: Global, header: usize, extent: &[NodeRange]) -> Result<Vec<usize>, Fail> {
    if header >= 6 {
        return Err("no such node".into());
    }
    let mut search = small_search(alloc)?;
    let mut body = search.body(alloc, header, extent)?;
    body.sort_unstable();
    Ok(body)
}

const ALL: NodeRange = NodeRange { from: 0, to: 6 };

/// The loops with a header and an extent, and their bodies.
static BODIES: [(usize, &[NodeRange], &[usize]); 6] = [
    (1, &[ALL], &[0, 1, 2, 3, 4, 5]),
    (1, &[NodeRange { from: 1, to: 4 }], &[1, 2, 3]),
    (
        1,
        &[NodeRange { from: 1, to: 2 }, NodeRange { from: 2, to: 5 }],
        &[1, 2, 3],
    ),
    // A node may lead to itself.
    (5, &[NodeRange { from: 5, to: 6 }], &[5]),
    // A header outside the extent has no body, and none that no edge leads back to.
    (1, &[NodeRange { from: 2, to: 6 }], &[]),
    (0, &[ALL], &[]),
];

#[test]
fn bodies_are_the_nodes_that_lead_back_within_the_extent(rt: HostRuntime) -> Result<(), Fail> {
    for (header, extent, want) in &BODIES {
        let body = body_of(rt.alloc(), *header, extent)?;
        expect_list(&rt, *header as u64, &body, want);
    }
    Ok(())
}

#[test]
fn an_edge_turns_back_from_the_extent(rt: HostRuntime) -> Result<(), Fail> {
    let search = small_search(rt.alloc())?;
    let found = [
        search.has_back_edge(1, &[NodeRange { from: 3, to: 4 }]),
        search.has_back_edge(1, &[NodeRange { from: 1, to: 3 }]),
        search.has_back_edge(0, &[ALL]),
    ];
    expect_same(&rt, 0, found, [true, false, false]);
    Ok(())
}

#[test]
fn the_least_edge_past_the_header_is_found(rt: HostRuntime) -> Result<(), Fail> {
    let mut search = small_search(rt.alloc())?;
    expect_same(&rt, 1, search.side_entry(1, &[3, 2, 1]), Some((5, 2)));
    expect_same(&rt, 3, search.side_entry(3, &[3, 2]), Some((1, 2)));
    expect_same(&rt, 5, search.side_entry(5, &[5]), None);
    Ok(())
}

/// A node leads to the one before it, and node 0 to the last: the code is laid out against its run.
const BACKWARD_SOURCES: [usize; 44] = [
    0, 1, 2, 3, 4, 5, 6, 7, 8, 9, 10, 11, 12, 13, 14, 15, 16, 17, 18, 19, 20, 21, 22, 23, 24, 25,
    26, 27, 28, 29, 30, 31, 32, 33, 34, 35, 36, 37, 38, 39, 40, 41, 42, 43,
];

const BACKWARD_TARGETS: [Option<usize>; 44] = [
    Some(43),
    Some(0),
    Some(1),
    Some(2),
    Some(3),
    Some(4),
    Some(5),
    Some(6),
    Some(7),
    Some(8),
    Some(9),
    Some(10),
    Some(11),
    Some(12),
    Some(13),
    Some(14),
    Some(15),
    Some(16),
    Some(17),
    Some(18),
    Some(19),
    Some(20),
    Some(21),
    Some(22),
    Some(23),
    Some(24),
    Some(25),
    Some(26),
    Some(27),
    Some(28),
    Some(29),
    Some(30),
    Some(31),
    Some(32),
    Some(33),
    Some(34),
    Some(35),
    Some(36),
    Some(37),
    Some(38),
    Some(39),
    Some(40),
    Some(41),
    Some(42),
];

/// Loops by the header and the ends of the extent, of which the header is in.
fn loops_of(
    alloc: Global,
    count: usize,
    ends: &[(usize, usize, usize)],
) -> Result<Vec<LoopExtent>, Fail>
    ensures { IfOk result (λ loops. AreLoopExtents count loops.items) }
{
    let mut loops: Vec<LoopExtent> = Vec::new(alloc);
    for (header, from, to) in ends {
        let header = *header;
        let range = NodeRange {
            from: *from,
            to: *to,
        };
        if loops.len() >= 64 || header >= count || header < range.from || header >= range.to {
            return Err("no such loops".into());
        }
        let mut ranges = Vec::new(alloc);
        ranges.push(range)?;
        loops.push(LoopExtent { header, ranges })?;
    }
    Ok(loops)
}

/// The body of a loop by its definition: nodes of the extent with an edge to the header or to a node of the body are added
/// until none is new, at most as often as there are nodes.
fn plain_body(
    alloc: Global,
    sources: &[usize],
    targets: &[Option<usize>],
    count: usize,
    one: &LoopExtent,
) -> Result<Vec<bool>, Fail> {
    let mut body: Vec<bool> = vec![in alloc; false; count]?;
    for _ in 0..count {
        for (from, to) in sources.iter().zip(targets) {
            let leads = match to {
                Some(to) => *to == one.header || body.get(*to) == Some(&true),
                None => false,
            };
            let inside = one
                .ranges
                .iter()
                .any(|range| range.from <= *from && *from < range.to);
            if leads
                && inside
                && let Some(slot) = body.get_mut(*from)
            {
                *slot = true;
            }
        }
    }
    Ok(body)
}

/// Whether an edge leads from outside a body to a node of it that isn't the header.
fn plain_aside(sources: &[usize], targets: &[Option<usize>], header: usize, body: &[bool]) -> bool {
    for (from, to) in sources.iter().zip(targets) {
        if let Some(to) = to
            && *to != header
            && body.get(*to) == Some(&true)
            && body.get(*from) != Some(&true)
        {
            return true;
        }
    }
    false
}

/// What a group is expected to be of: the edges of a graph.
#[derive(Clone, Copy)]
struct Edges<'a> {
    sources: &'a [usize],
    targets: &'a [Option<usize>],
    count: usize,
}

/// One loop of a group has its plain body.
fn expect_body(
    rt: &impl Abort,
    alloc: Global,
    edges: &Edges<'_>,
    numbered: (usize, &LoopExtent),
    group: &GroupBodies,
) -> Result<(), Fail>
    requires { numbered.0 < 64 }
{
    let (bit, one) = numbered;
    let body = plain_body(alloc, edges.sources, edges.targets, edges.count, one)?;
    for (word, is) in group.bodies.iter().zip(&body) {
        expect_same(rt, bit as u64, has_bit(*word, bit), *is);
    }
    let aside = plain_aside(edges.sources, edges.targets, one.header, &body);
    expect_same(rt, bit as u64, has_bit(group.aside, bit), aside);
    Ok(())
}

fn expect_plain(
    rt: &impl Abort,
    alloc: Global,
    edges: &Edges<'_>,
    loops: &[LoopExtent],
    group: &GroupBodies,
) -> Result<(), Fail> {
    for (bit, one) in loops.iter().enumerate() {
        if bit >= 64 {
            return Err("there are at most 64 loops".into());
        }
        expect_body(rt, alloc, edges, (bit, one), group)?;
    }
    Ok(())
}

static ENDS: [(usize, usize, usize); 9] = [
    (1, 0, 6),
    (1, 1, 4),
    (5, 5, 6),
    (3, 2, 6),
    (0, 0, 6),
    (2, 1, 6),
    (4, 0, 5),
    (5, 2, 6),
    (2, 2, 3),
];

#[test]
fn a_group_has_the_bodies_of_its_loops(rt: HostRuntime) -> Result<(), Fail> {
    let loops = loops_of(rt.alloc(), 6, &ENDS)?;
    let mut search = small_search(rt.alloc())?;
    let group = search.group(rt.alloc(), &loops)?;
    let edges = Edges {
        sources: &SOURCES,
        targets: &TARGETS,
        count: 6,
    };
    expect_plain(&rt, rt.alloc(), &edges, &loops, &group)?;
    expect_list(&rt, 0, &group.bodies, &[65, 99, 107, 99, 169, 173]);
    expect_same(&rt, 0, group.aside, 234);
    Ok(())
}

/// The search in the graph whose code is laid out against its run.
fn backward_search(alloc: Global) -> Result<BodySearch<'static>, NoMemory>
    ensures { IfOk result (λ search. search.count ≡ 44) }
{
    BodySearch::new(alloc, &BACKWARD_SOURCES, &BACKWARD_TARGETS, 44)
}

static BACKWARD_ENDS: [(usize, usize, usize); 4] = [
    (43, 0, 44),
    (20, 0, 21),
    (0, 0, 30),
    (30, 2, 44),
];

#[test]
fn a_group_is_found_where_code_is_laid_out_backwards(rt: HostRuntime) -> Result<(), Fail> {
    let loops = loops_of(rt.alloc(), 44, &BACKWARD_ENDS)?;
    let mut search = backward_search(rt.alloc())?;
    let group = search.group(rt.alloc(), &loops)?;
    let edges = Edges {
        sources: &BACKWARD_SOURCES,
        targets: &BACKWARD_TARGETS,
        count: 44,
    };
    expect_plain(&rt, rt.alloc(), &edges, &loops, &group)?;
    expect_same(&rt, 0, group.bodies.len(), 44);
    Ok(())
}
