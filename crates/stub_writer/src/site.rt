//! Marked instructions, and the block of their stubs.

ghost use Rattle.std.specs.Prelude.{◌≡◌, ◌<◌, length, slice_get, Some};

use scale_base::{Edge, Fragment, Instr, Patch};
use std::marker::Model;

/// Fragments, one after another. Contracts see their list.
#[derive(Drop)]
pub struct FragmentList {
    items: Vec<Fragment>,
}

impl Model for FragmentList {
    ghost use Rattle.std.specs.Prelude.{List};
    ghost use Rattle.scale_base.specs.declared.fragments.Fragment.{Fragment};

    ghost Value = { List Fragment };

    ghost view = { λ l. l.items.items };
}

impl FragmentList {
    /// The list of these fragments.
    pub fn from_vec(items: Vec<Fragment>) -> FragmentList
        ensures { result ≡ items.items }
    {
        FragmentList { items }
    }

    /// How many fragments there are.
    pub fn count(&self) -> usize
        ensures { result ≡ length self.now }
    {
        self.items.len()
    }

    /// Fragment `k`.
    pub fn get(&self, k: usize) -> &Fragment
        requires { k < length self.now }
        ensures { slice_get self.now k ≡ Some result.now }
    {
        &self.items[k]
    }

    // The fragments.
    pub(crate) fn all(&self) -> &[Fragment]
        ensures { result.now ≡ self.now }
    {
        &self.items
    }
}

/// A marked edge, with its fragments in their order.
#[derive(Drop)]
pub struct StubEdge {
    pub edge: Edge,
    pub fragments: FragmentList,
}

/// The marked edges of an instruction. Contracts see their list.
#[derive(Drop)]
pub struct EdgeList {
    items: Vec<StubEdge>,
}

impl Model for EdgeList {
    ghost use Rattle.std.specs.Prelude.{List};
    ghost use Rattle.stub_writer.specs.declared.site.StubEdge.{StubEdge};

    ghost Value = { List StubEdge };

    ghost view = { λ l. l.items.items };
}

impl EdgeList {
    /// The list of these edges.
    pub fn from_vec(items: Vec<StubEdge>) -> EdgeList
        ensures { result ≡ items.items }
    {
        EdgeList { items }
    }

    /// How many edges there are.
    pub fn count(&self) -> usize
        ensures { result ≡ length self.now }
    {
        self.items.len()
    }

    /// Edge `k`.
    pub fn get(&self, k: usize) -> &StubEdge
        requires { k < length self.now }
        ensures { slice_get self.now k ≡ Some result.now }
    {
        &self.items[k]
    }

    // The edges.
    pub(crate) fn all(&self) -> &[StubEdge]
        ensures { result.now ≡ self.now }
    {
        &self.items
    }
}

/// A branch or a jump with a marked edge: its address, the instruction, and its marked edges.
#[derive(Drop)]
pub struct StubSite {
    pub at: u32,
    pub instr: Instr,
    pub edges: EdgeList,
}

/// The bytes of the stubs and of their rows, and for each marked instruction the jump to its stub.
#[derive(Drop)]
pub struct StubBlock {
    pub bytes: Vec<u8>,
    pub patches: Vec<Patch>,
}
