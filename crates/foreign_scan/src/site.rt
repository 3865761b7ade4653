//! What is known of the words of nodes: which of them are changed, and what their stubs hold.

ghost use Rattle.std.specs.Prelude.{◌≡◌, true, IfOk, Some};
ghost use Rattle.foreign_scan.specs.Scanned as scanned;
ghost use Rattle.foreign_scan.specs.Sites as sites;
ghost use Rattle.foreign_scan.specs.Sites.{IsSiteAt, AreWordSites, site_fragments};

use crate::fragment::ForeignFragment;
use crate::key::KeyCode;
use crate::patches::{instr_at, is_changed, jump_target};
use crate::stub::{StubFragments, read_stub};
use elf_image::ImageView;
use scale_base::{EdgeKind, NoMemory};
use std::alloc::Global;

/// What is known of the word of a node.
#[derive(Drop)]
pub enum Site {
    /// It is the original's.
    Same,
    /// It is another one, and leads to no stub.
    Broken,
    /// It leads to a stub with these fragments.
    Kept(StubFragments),
}

impl Site {
    pub fn is_patched(&self) -> bool
        ensures { result ≡ sites.is_site_patched self.now }
    {
        match self {
            Site::Same => false,
            Site::Broken | Site::Kept(_) => true,
        }
    }

    /// The fragments of the edge of a kind.
    pub fn fragments(&self, kind: EdgeKind) -> &[ForeignFragment]
        ensures { result.now ≡ site_fragments (Some self.now) kind }
    {
        match self {
            Site::Kept(stub) => stub.fragments(kind),
            Site::Same | Site::Broken => &[],
        }
    }
}

/// What is known of the changed word at an address.
fn read_changed(
    alloc: Global,
    original: &ImageView<'_>,
    foreign: &ImageView<'_>,
    key: &KeyCode<'_>,
    at: u32,
) -> Result<Site, NoMemory>
    requires key { key.now ≡ foreign.now }
    requires changed { scanned.is_changed original.now foreign.now at ≡ true }
    ensures { IfOk result (IsSiteAt original.now foreign.now at) }
{
    let stub = match jump_target(foreign, at) {
        Some(stub) => stub,
        None => return Ok(Site::Broken),
    };
    let instr = match instr_at(original, at) {
        Some(instr) => instr,
        None => return Ok(Site::Broken),
    };
    match read_stub(alloc, key, at, stub, &instr)? {
        Some(found) => Ok(Site::Kept(found)),
        None => Ok(Site::Broken),
    }
}

/// What is known of the word at an address.
fn read_site(
    alloc: Global,
    original: &ImageView<'_>,
    foreign: &ImageView<'_>,
    key: &KeyCode<'_>,
    at: u32,
) -> Result<Site, NoMemory>
    requires { key.now ≡ foreign.now }
    ensures { IfOk result (IsSiteAt original.now foreign.now at) }
{
    if is_changed(original, foreign, at) {
        read_changed(alloc, original, foreign, key, at)
    } else {
        Ok(Site::Same)
    }
}

/// What is known of the words of all nodes.
pub fn read_sites(
    alloc: Global,
    original: &ImageView<'_>,
    foreign: &ImageView<'_>,
    nodes: &[u32],
    key: &KeyCode<'_>,
) -> Result<Vec<Site>, NoMemory>
    requires { key.now ≡ foreign.now }
    ensures { IfOk result (λ sites. AreWordSites original.now foreign.now nodes.now sites.items) }
{
    let mut sites = Vec::new(alloc);
    for at in nodes {
        sites.push(read_site(alloc, original, foreign, key, *at)?)?;
    }
    Ok(sites)
}
