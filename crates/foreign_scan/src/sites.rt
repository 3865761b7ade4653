//! The fragments that are found in an image, by the nodes and edges of the original's graph.

ghost use Rattle.std.specs.Prelude.{◌≡◌, ◌<◌, Some, length, slice_get, IfOk};
ghost use Rattle.foreign_scan.specs.Counts.{AreSized};
ghost use Rattle.foreign_scan.specs.Shown.{ArePlacesOf, ShowsSites};

use crate::fragment::ForeignFragment;
use crate::lists::GraphLists;
use crate::site::Site;
use scale_base::{EdgeKind, NoMemory};
use std::alloc::Global;
use std::marker::Model;

/// The node at which an edge starts, and the kind of the edge.
#[derive(Clone, Copy)]
pub struct EdgePlace {
    pub node: usize,
    pub kind: EdgeKind,
}

/// What is found: by node, whether its word is patched, and by edge, its fragments.
#[derive(Drop)]
pub struct ForeignSites {
    sites: Vec<Site>,
    places: Vec<EdgePlace>,
}

impl Model for ForeignSites {
    ghost use Rattle.foreign_scan.specs.Shown.{ScannedSites, sites_view, ArePlacesWithin};

    ghost Value = { ScannedSites };

    ghost view = { λ s. sites_view s.sites.items s.places.items };

    ghost invariant = { λ s. ArePlacesWithin s.sites.items s.places.items };
}

impl ForeignSites {
    /// How many nodes there are.
    pub fn count(&self) -> usize
        ensures { result ≡ length self.now.patched }
    {
        self.sites.len()
    }

    /// How many edges there are.
    pub fn edge_count(&self) -> usize
        ensures { result ≡ length self.now.fragments }
    {
        self.places.len()
    }

    /// Whether the word of node `k` is not the original's.
    pub fn patched(&self, k: usize) -> bool
        requires { k < length self.now.patched }
        ensures { slice_get self.now.patched k ≡ Some result }
    {
        self.sites[k].is_patched()
    }

    /// The fragments that are found on edge `e`, in their order: none where its node's word is the original's.
    pub fn fragments(&self, e: usize) -> &[ForeignFragment]
        requires { e < length self.now.fragments }
        ensures { slice_get self.now.fragments e ≡ Some result.now }
    {
        let place = self.places[e];
        self.sites[place.node].fragments(place.kind)
    }
}

/// By edge, the node at which it starts and its kind.
fn places_of(alloc: Global, lists: &GraphLists<'_>) -> Result<Vec<EdgePlace>, NoMemory>
    requires { length lists.now.sources.now ≡ length lists.now.edges.now }
    ensures { IfOk result (λ places. ArePlacesOf lists.now.sources.now lists.now.edges.now places.items) }
{
    let mut places = Vec::new(alloc);
    for e in 0..lists.edges.len() {
        places.push(EdgePlace {
            node: lists.sources[e],
            kind: lists.edges[e].kind,
        })?;
    }
    Ok(places)
}

/// What is found, by what is known of the words of nodes.
pub fn show(
    alloc: Global,
    lists: &GraphLists<'_>,
    sites: Vec<Site>,
) -> Result<ForeignSites, NoMemory>
    requires { AreSized lists.now (length sites.items) }
    ensures { IfOk result (λ s. ShowsSites lists.now.sources.now lists.now.edges.now sites.items s) }
{
    let places = places_of(alloc, lists)?;
    Ok(ForeignSites { sites, places })
}
