//! The code of stubs with fragments of paced images. Those of rewritten ones are data, `rewrite.txt` of the first program's `cases`.

ghost use Rattle.std.specs.Prelude.{◌≡◌, ◌≤◌, ◌++◌, ◌+◌, ◌∷◌, [], length, IfOk, OnOk};
ghost use Rattle.std.specs.List.{All};
ghost use Rattle.scale_base.specs.declared.instruction.Instr.TheVariants.{Branch};
ghost use Rattle.scale_base.specs.Word.{FieldsInRange};
ghost use Rattle.stub_writer.specs.Fragments.{IsFragment};
ghost use Rattle.stub_writer.specs.Sites.{IsEdge, IsSite};

use crate::programs::expect_parts;
use scale_base::{BranchOp, Edge, EdgeKind, Fragment, Instr, Patch};
use std::alloc::{AllocError, Global};
use std::fmt::Write;
use std::test::Fail;
use stub_writer::{EdgeList, FragmentList, StubBlock, StubEdge, StubSite, block_len, emit};

/// A branch's stub with a Lowest that may go down where it isn't taken, and one that may not where it is.
const LOWERED: &str = "20 bytes: 00051663 fe002e23 810ff06f 80002223 ff9fe06f;";

/// A branch's stub with a Tally where it is taken.
const TALLIED: &str =
    "52 bytes: 00051463 814ff06f 80502023 80c02283 00128293 80502623 0042d293 c1828293 41f2d293 8082f293 fe02ae23 80002283 fd9fe06f;";

/// A marked edge with one fragment.
#[tactic(auto, using(crate::proofs::Sites::one_fragment))]
fn edge(
    alloc: Global,
    at: u32,
    kind: EdgeKind,
    to: u32,
    fragment: Fragment,
) -> Result<StubEdge, Fail>
    requires { IsFragment fragment }
    ensures { IfOk result (λ e. IsEdge e) }
{
    let mut fragments = Vec::new(alloc);
    fragments.push(fragment)?;
    Ok(StubEdge {
        edge: Edge { at, kind, to },
        fragments: FragmentList::from_vec(fragments),
    })
}

/// One more marked edge.
#[tactic(auto, using(crate::proofs::Sites::one_edge_more))]
fn push_edge(edges: &mut Vec<StubEdge>, edge: StubEdge) -> Result<(), Fail>
    requires edge { IsEdge edge }
    requires each { All IsEdge edges.old.items }
    ensures each { OnOk result (All IsEdge edges.new.items) }
    ensures more { OnOk result (length edges.new.items ≡ length edges.old.items + 1) }
{
    edges.push(edge)?;
    Ok(())
}

/// A branch of x10 and x0 with its marked edges, as the only site.
#[tactic(auto, using(crate::proofs::Sites::one_site))]
fn branch(
    alloc: Global,
    at: u32,
    op: BranchOp,
    offset: i32,
    edges: Vec<StubEdge>,
) -> Result<Vec<StubSite>, Fail>
    requires fields { FieldsInRange (Branch op 10 0 offset) }
    requires few { length edges.items ≤ 2 }
    requires each { All IsEdge edges.items }
    ensures each { IfOk result (λ sites. All IsSite sites.items) }
    ensures one { IfOk result (λ sites. length sites.items ≡ 1) }
{
    let mut sites = Vec::new(alloc);
    sites.push(StubSite {
        at,
        instr: Instr::Branch {
            op,
            rs1: 10,
            rs2: 0,
            offset,
        },
        edges: EdgeList::from_vec(edges),
    })?;
    Ok(sites)
}

/// One marked edge.
fn one_edge(alloc: Global, edge: StubEdge) -> Result<Vec<StubEdge>, Fail>
    requires edge { IsEdge edge }
    ensures few { IfOk result (λ edges. length edges.items ≤ 2) }
    ensures each { IfOk result (λ edges. All IsEdge edges.items) }
{
    let mut edges = Vec::new(alloc);
    push_edge(&mut edges, edge)?;
    Ok(edges)
}

/// Two marked edges.
fn two_edges(alloc: Global, first: StubEdge, second: StubEdge) -> Result<Vec<StubEdge>, Fail>
    requires first { IsEdge first }
    requires second { IsEdge second }
    ensures few { IfOk result (λ edges. length edges.items ≤ 2) }
    ensures each { IfOk result (λ edges. All IsEdge edges.items) }
{
    let mut edges = Vec::new(alloc);
    push_edge(&mut edges, first)?;
    push_edge(&mut edges, second)?;
    Ok(edges)
}

fn push_words(text: &mut String, bytes: &[u8]) -> Result<(), AllocError> {
    for word in bytes.chunks_exact(4) {
        let word = u32::from_le_bytes([word[0], word[1], word[2], word[3]]);
        write!(text, " {word:08x}")?;
    }
    text.push_str(";")
}

fn push_patches(text: &mut String, patches: &[Patch]) -> Result<(), AllocError> {
    for patch in patches {
        write!(text, " {:x} {:08x};", patch.at, patch.word)?;
    }
    Ok(())
}

/// The size of a block, its words, and its patches.
fn block_text(alloc: Global, len: u32, block: &StubBlock) -> Result<String, Fail> {
    let mut text = format!(in alloc; "{len} bytes:")?;
    push_words(&mut text, &block.bytes)?;
    push_patches(&mut text, &block.patches)?;
    Ok(text)
}

/// The block of one site, from 0x11000 on.
fn sites_text(alloc: Global, sites: &[StubSite]) -> Result<String, Fail>
    requires each { All IsSite sites.now }
    requires one { length sites.now ≡ 1 }
{
    let len = block_len(sites);
    match emit(alloc, sites, 0x11000) {
        Ok(block) => block_text(alloc, len, &block),
        Err(_) => Err("the block is in reach".into()),
    }
}

/// The block of the branch at 0x10014, of x10 and x0, with its marked edges.
fn branch_text(alloc: Global, edges: Vec<StubEdge>) -> Result<String, Fail>
    requires few { length edges.items ≤ 2 }
    requires each { All IsEdge edges.items }
{
    let sites = branch(alloc, 0x10014, BranchOp::Bne, -12, edges)?;
    sites_text(alloc, &sites)
}

#[test]
fn the_lowest_level_on_both_ways(rt: HostRuntime) -> Result<(), Fail> {
    let alloc = rt.alloc();
    let down = Fragment::Lowest { down: true };
    let untaken = edge(alloc, 0x10014, EdgeKind::Untaken, 0x10018, down)?;
    let as_it_is = Fragment::Lowest { down: false };
    let taken = edge(alloc, 0x10014, EdgeKind::Taken, 0x10008, as_it_is)?;
    let edges = two_edges(alloc, untaken, taken)?;
    let found = branch_text(alloc, edges);
    expect_parts(&rt, "lowered", found, &[LOWERED])
}

#[test]
fn a_loop_that_goes_down_from_a_count_on(rt: HostRuntime) -> Result<(), Fail> {
    let alloc = rt.alloc();
    let turned = Fragment::Tally {
        counter: 3,
        shift: 4,
        from: 1000,
    };
    let taken = edge(alloc, 0x10014, EdgeKind::Taken, 0x10008, turned)?;
    let edges = one_edge(alloc, taken)?;
    let found = branch_text(alloc, edges);
    expect_parts(&rt, "tallied", found, &[TALLIED])
}
