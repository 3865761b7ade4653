//! The first edge on which each counter counts, and how far it counts.

ghost use Rattle.std.specs.Prelude.{◌≡◌, ◌+◌, ◌<◌, ℕ, All, Option, Some, None, length, slice_get, slice_set, slice_index_or, IfOk, IfSome};
ghost use Rattle.foreign_scan.specs.Counts.{edge_before, is_before, earlier_of, bound_at, AreFirstsBelow, limit_of, AreEdgesWithin, AreCountLimits, IsTaken, AreTaken, numbered_fragments, AreSized};
ghost use Rattle.foreign_scan.specs.Form.{IsForeign};
ghost use Rattle.foreign_scan.specs.Rows.{SiteIsForeign};
ghost use Rattle.foreign_scan.specs.Scanned as scanned;
ghost use Rattle.foreign_scan.specs.Sites.{site_fragments};

use crate::fragment::ForeignFragment;
use crate::lists::GraphLists;
use crate::site::Site;
use scale_base::{Edge, EdgeKind, NoMemory, WINDOW_WORDS};
use std::alloc::Global;

fn kind_place(kind: EdgeKind) -> u8
    ensures { result ≡ scanned.kind_place kind }
{
    match kind {
        EdgeKind::Taken => 1,
        _ => 0,
    }
}

/// Whether one edge comes before another: by address, and the untaken edge before the taken one.
fn comes_before(d: Edge, e: Edge) -> bool
    ensures { result ≡ edge_before d e }
{
    d.at < e.at || d.at == e.at && kind_place(d.kind) < kind_place(e.kind)
}

/// Whether edge `d` comes before edge `e`.
fn precedes(edges: &[Edge], d: usize, e: usize) -> bool
    requires one { d < length edges.now }
    requires other { e < length edges.now }
    ensures { result ≡ is_before edges.now d e }
{
    comes_before(edges[d], edges[e])
}

/// The one of two edges that comes first, of which the first one may be missing.
fn earlier(edges: &[Edge], best: Option<usize>, e: usize) -> usize
    requires edge { e < length edges.now }
    requires best { IfSome best (λ b. b < length edges.now) }
    ensures value { result ≡ earlier_of edges.now best e }
    ensures within { result < length edges.now }
{
    match best {
        Some(b) => { if precedes(edges, e, b) { e } else { b } }
        None => e,
    }
}

/// The fragments of an edge that starts at a node.
fn fragments_on(sites: &[Site], source: usize, kind: EdgeKind) -> &[ForeignFragment]
    requires { source < length sites.now }
    ensures { result.now ≡ site_fragments (slice_get sites.now source) kind }
{
    sites[source].fragments(kind)
}

/// Takes an edge on which a counter counts.
fn take_first(edges: &[Edge], firsts: &mut [Option<usize>], c: usize, e: usize)
    requires edge { e < length edges.now }
    requires counter { c < length firsts.old }
    requires within { AreEdgesWithin (length edges.now) firsts.old }
    ensures { firsts.new ≡ slice_set firsts.old c (Some (earlier_of edges.now (slice_index_or firsts.old c None) e)) }
{
    let best = firsts[c];
    firsts[c] = Some(earlier(edges, best, e));
}

/// Takes one fragment of a back edge.
fn take_count(edges: &[Edge], firsts: &mut [Option<usize>], fragment: &ForeignFragment, e: usize)
    requires edge { e < length edges.now }
    requires size { length firsts.old ≡ 512 }
    requires within { AreEdgesWithin (length edges.now) firsts.old }
    requires foreign { IsForeign fragment.now }
    ensures taken { IsTaken edges.now firsts.old firsts.new fragment.now e }
    ensures within { AreEdgesWithin (length edges.now) firsts.new }
{
    match *fragment {
        ForeignFragment::Count { counter } => take_first(edges, firsts, usize::from(counter), e),
        _ => {}
    }
}

/// Takes the fragments of a back edge.
fn take_counts(
    edges: &[Edge],
    firsts: &mut [Option<usize>],
    fragments: &[ForeignFragment],
    e: usize,
)
    requires edge { e < length edges.now }
    requires size { length firsts.old ≡ 512 }
    requires within { AreEdgesWithin (length edges.now) firsts.old }
    requires foreign { All IsForeign fragments.now }
    ensures taken { AreTaken edges.now firsts.old firsts.new fragments.now e }
    ensures within { AreEdgesWithin (length edges.now) firsts.new }
{
    for fragment in fragments {
        take_count(edges, firsts, fragment, e);
    }
}

/// No edge for any word of the window.
fn no_edges(alloc: Global) -> Result<Vec<Option<usize>>, NoMemory>
    ensures size { IfOk result (λ firsts. length firsts.items ≡ 512) }
    ensures none { IfOk result (λ firsts. (c : ℕ) (o : Option ℕ) → slice_get firsts.items c ≡ Some o → o ≡ None) }
{
    let mut firsts = Vec::new(alloc);
    for _ in 0..WINDOW_WORDS {
        firsts.push(None)?;
    }
    Ok(firsts)
}

/// Takes an edge, if it is a back edge.
fn take_edge(lists: &GraphLists<'_>, firsts: &mut [Option<usize>], sites: &[Site], e: usize)
    requires edge { e < length lists.now.edges.now }
    requires sizes { AreSized lists.now (length sites.now) }
    requires foreign { All SiteIsForeign sites.now }
    requires size { length firsts.old ≡ 512 }
    requires within { AreEdgesWithin (length lists.now.edges.now) firsts.old }
    requires firsts { AreFirstsBelow lists.now.edges.now lists.now.backs.now (numbered_fragments lists.now.sources.now lists.now.edges.now
        sites.now) e firsts.old }
    ensures within { AreEdgesWithin (length lists.now.edges.now) firsts.new }
    ensures firsts { AreFirstsBelow lists.now.edges.now lists.now.backs.now (numbered_fragments lists.now.sources.now lists.now.edges.now
        sites.now) (e + 1) firsts.new }
{
    match lists.backs[e] {
        Some(_) => {
            let fragments = fragments_on(sites, lists.sources[e], lists.edges[e].kind);
            take_counts(lists.edges, firsts, fragments, e);
        }
        None => {}
    }
}

/// By counter, the first of the back edges on which it counts.
fn first_counts(
    alloc: Global,
    lists: &GraphLists<'_>,
    sites: &[Site],
) -> Result<Vec<Option<usize>>, NoMemory>
    requires sizes { AreSized lists.now (length sites.now) }
    requires foreign { All SiteIsForeign sites.now }
    ensures size { IfOk result (λ firsts. length firsts.items ≡ 512) }
    ensures within { IfOk result (λ firsts. AreEdgesWithin (length lists.now.edges.now) firsts.items) }
    ensures firsts { IfOk result (λ firsts. AreFirstsBelow lists.now.edges.now lists.now.backs.now
        (numbered_fragments lists.now.sources.now lists.now.edges.now sites.now) (length lists.now.edges.now) firsts.items) }
{
    let mut firsts = no_edges(alloc)?;
    for e in 0..lists.edges.len() {
        take_edge(lists, &mut firsts, sites, e);
    }
    Ok(firsts)
}

/// How far a loop may count, of which an edge is a back edge.
fn bound_of(bounds: &[u32], back: Option<usize>) -> u32
    requires { IfSome back (λ k. k < length bounds.now) }
    ensures { result ≡ bound_at bounds.now (Some back) }
{
    match back {
        Some(k) => bounds[k],
        None => 0,
    }
}

/// How far a counter counts that counts first on an edge.
fn limit(backs: &[Option<usize>], bounds: &[u32], first: Option<usize>) -> u32
    requires edge { IfSome first (λ e. e < length backs.now) }
    requires loops { AreEdgesWithin (length bounds.now) backs.now }
    ensures { result ≡ limit_of backs.now bounds.now first }
{
    match first {
        Some(e) => bound_of(bounds, backs[e]),
        None => 0,
    }
}

/// By counter, how far it counts: up to the bound of the loop on whose back edge it counts first, and 0 where there is none.
pub fn counter_limits(
    alloc: Global,
    lists: &GraphLists<'_>,
    sites: &[Site],
) -> Result<Vec<u32>, NoMemory>
    requires sizes { AreSized lists.now (length sites.now) }
    requires foreign { All SiteIsForeign sites.now }
    ensures size { IfOk result (λ limits. length limits.items ≡ 512) }
    ensures limits { IfOk result (λ limits. AreCountLimits lists.now.edges.now lists.now.backs.now lists.now.bounds.now
        (numbered_fragments lists.now.sources.now lists.now.edges.now sites.now) limits.items) }
{
    let firsts = first_counts(alloc, lists, sites)?;
    let mut limits = Vec::new(alloc);
    for first in &firsts {
        limits.push(limit(lists.backs, lists.bounds, *first))?;
    }
    Ok(limits)
}
