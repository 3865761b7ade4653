//! Copies of loops are shown to be copies, and with a bound less than that of the original they aren't.

use crate::calling::{BASE, Calling, leaf, placed, site, turning};
use crate::programs::{address_of, assembled, graph_of, view_of};
use copy_checks::{
    CopiedCode, CopyBody, CopyCode, CopyReason, are_calls_kept, are_covered, copy_table,
    meanings_of,
};
use flow_graph::CodeGraph;
use loop_file::{LoopNote, LoopNotes, RangeList};
use loop_versions::Piece;
use scale_base::Range;
use std::alloc::Global;
use std::process::Abort;
use std::test::Fail;
use versioned_images::versioned;

/// Where the copy of the loop begins, behind a piece and a guard.
const HEADER: u32 = BASE + 40;

/// The bridge behind it, by which it is left.
const LEFT: u32 = BASE + 60;

// The notes of one loop from its header on.
fn notes_of(alloc: Global, header: u32, to: u32, bound: u32) -> Result<LoopNotes, Fail> {
    let mut items = Vec::new(alloc);
    items.push(Range { from: header, to })?;
    let ranges = RangeList::from_vec(items);
    if ranges.count() != 1 || bound > 1_000_000_000 {
        return Err("the loop has a range and a bound".into());
    }
    let mut notes = LoopNotes::new(alloc);
    notes.push(LoopNote {
        header,
        ranges,
        bound,
        counted: false,
        at_least: 0,
    })?;
    Ok(notes)
}

// The nodes of the copy.
fn body_of(alloc: Global, graph: &CodeGraph) -> Result<Vec<usize>, Fail> {
    let mut body = Vec::new(alloc);
    for k in 0..graph.node_count() {
        let at = graph.node(k);
        if HEADER <= at && at != LEFT {
            body.push(k)?;
        }
    }
    Ok(body)
}

// Whether a copy of the loop, whose bound is 40, is shown with a bound of its own.
fn is_shown_in(
    alloc: Global,
    graph: &CodeGraph,
    entry: u32,
    pieces: &[Piece],
    bound: u32,
) -> Result<bool, Fail> {
    let sites = [site()];
    let copied = CopiedCode {
        pieces,
        sites: &sites,
        base: BASE,
    };
    if pieces.len() > 4096 {
        return Err("the pieces are few".into());
    }
    let meant = meanings_of(alloc, graph, &copied)?;
    let Some(header) = graph.find(HEADER) else {
        return Err("the copy is reached".into());
    };
    let olds = notes_of(alloc, address_of(7), address_of(10), 40)?;
    let notes = notes_of(alloc, HEADER, HEADER + 400, bound)?;
    if olds.count() != 1 {
        return Err("one loop is noted".into());
    }
    let code = CopyCode {
        graph,
        entry,
        meant: &meant,
    };
    let body = body_of(alloc, graph)?;
    let copy = CopyBody {
        body: &body,
        header,
        old: olds.note(0),
    };
    let mut reasons = Vec::new(alloc);
    reasons.push(Some(CopyReason {
        number: 0,
        table: copy_table(alloc, &code, &copy)?,
    }))?;
    Ok(are_calls_kept(graph, &meant) && are_covered(&code, &notes, &olds, &reasons))
}

// The same of a program.
fn is_shown(alloc: Global, program: &Calling, bound: u32) -> Result<bool, Fail> {
    let file = assembled(alloc, &program.lines)?;
    let view = view_of(alloc, &file)?;
    let pieces = placed(alloc, &program.pieces)?;
    let Some(made) = versioned(alloc, &view, &pieces, &[site()])? else {
        return Err("the pieces fit".into());
    };
    let other = view_of(alloc, &made.file)?;
    let graph = graph_of(alloc, &other)?;
    is_shown_in(alloc, &graph, other.entry(), &pieces, bound)
}

fn compare(rt: &impl Abort, alloc: Global, program: &Calling) -> Result<(), Fail> {
    assert!(rt; is_shown(alloc, program, 40)?);
    assert!(rt; is_shown(alloc, program, 50)?);
    assert!(rt; !is_shown(alloc, program, 39)?);
    Ok(())
}

#[test]
fn copies_are_shown(rt: HostRuntime) -> Result<(), Fail> {
    let alloc = rt.alloc();
    compare(&rt, alloc, &leaf(alloc)?)?;
    compare(&rt, alloc, &turning(alloc)?)
}
