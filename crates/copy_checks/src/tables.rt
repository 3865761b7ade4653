//! What the nodes of a versioned image stand for, and certificates of copies, by node.

ghost use Rattle.std.specs.Prelude.{◌≡◌, ◌<◌, length};
ghost use Rattle.copy_checks.specs.Checked as checked;

use flow_graph::CodeGraph;
use loop_file::{LoopNote, in_extent};

/// What a node of a versioned image stands for: the address of the text; whether no step of the original is made there; whether it is a
/// word of the text as it was; the return addresses of the inlined calls that it lies in, the innermost first, and of those behind its
/// step, where it has one; and the address that a step of the original comes from, where that is known.
#[derive(Drop)]
pub struct Meant {
    pub text_at: u32,
    pub is_extra: bool,
    pub is_own: bool,
    pub returns: Vec<u32>,
    pub behind: Option<Vec<u32>>,
    pub source: Option<u32>,
}

/// Why a loop is a copy of one of the original, by node: whether it is code of the copy; whether it may run while a call from there is
/// open; and whether the original has counted a turn there that the copy hasn't counted yet.
#[derive(Drop)]
pub struct CopyTable {
    pub body: Vec<bool>,
    pub quiet: Vec<bool>,
    pub ahead: Vec<bool>,
}

/// The graph of a versioned image, the address at which it starts, and by node what it stands for.
#[derive(Clone, Copy)]
pub struct CopyCode<'a> {
    pub graph: &'a CodeGraph,
    pub entry: u32,
    pub meant: &'a [Meant],
}

/// A table for a noted loop of a versioned image, with the number of its header's node, and for the noted loop of the original.
#[derive(Clone, Copy)]
pub struct CopyCase<'a> {
    pub graph: &'a CodeGraph,
    pub meant: &'a [Meant],
    pub note: &'a LoopNote,
    pub header: usize,
    pub old: &'a LoopNote,
    pub table: &'a CopyTable,
}

/// Whether node k is code of the copy.
pub fn is_body(table: &CopyTable, k: usize) -> bool
    requires { k < length table.now.body.items }
    ensures { result ≡ checked.body_at table.now k }
{
    table.body[k]
}

/// Whether it may run while a call is open.
pub fn is_quiet(table: &CopyTable, k: usize) -> bool
    requires { k < length table.now.quiet.items }
    ensures { result ≡ checked.quiet_at table.now k }
{
    table.quiet[k]
}

/// Whether the original is ahead there.
pub fn is_ahead(table: &CopyTable, k: usize) -> bool
    requires { k < length table.now.ahead.items }
    ensures { result ≡ checked.ahead_at table.now k }
{
    table.ahead[k]
}

/// Whether no step of the original is made at node k.
pub fn is_extra(meant: &[Meant], k: usize) -> bool
    requires { k < length meant.now }
    ensures { result ≡ checked.extra_at meant.now k }
{
    meant[k].is_extra
}

/// Whether it stands for an address of the text.
pub fn stands_for(meant: &[Meant], k: usize, at: u32) -> bool
    requires { k < length meant.now }
    ensures { result ≡ checked.stands_at meant.now k at }
{
    meant[k].text_at == at
}

// Whether a step from there counts a turn of a loop of the original.
fn counts_by(old: &LoopNote, source: Option<u32>) -> bool
    ensures { result ≡ checked.counts_by old.now source }
{
    match source {
        Some(u) => in_extent(old, u),
        None => false,
    }
}

/// Whether a step of the original that is made at node k counts a turn of a loop of the original.
pub fn counts(meant: &[Meant], old: &LoopNote, k: usize) -> bool
    requires { k < length meant.now }
    ensures { result ≡ checked.counts_at meant.now old.now k }
{
    counts_by(old, meant[k].source)
}
