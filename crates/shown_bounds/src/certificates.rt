//! Why a loop can't turn often.

ghost use Rattle.std.specs.Prelude.{◌≡◌, ◌<◌, length};
ghost use Rattle.shown_bounds.specs.Certified as certified;

use crate::counters::StackCounter;
use loop_file::LoopNote;
use stack_tables::StackClaim;
use turn_checks::TurnTable;
use walk_checks::WalkTable;

/// Why a loop can't turn often: at its header the counter is at most `width`, and each turn raises it by `least` at least. By node: whether it
/// is code of the loop, what its instruction adds and what those from the header up to it have added, modulo 2^32, and whether it may run
/// while a call from the loop is open.
#[derive(Drop)]
pub struct StackCertificate {
    pub counter: StackCounter,
    pub width: u32,
    pub least: u32,
    pub body: Vec<bool>,
    pub adds: Vec<u32>,
    pub offset: Vec<u32>,
    pub quiet: Vec<bool>,
    /// What each turn does, where that is why: then nothing stands beside nodes here.
    pub turns: Option<TurnTable>,
    /// A walk through memory, where that is why, likewise.
    pub walk: Option<WalkTable>,
}

/// A certificate for a noted loop of a program with its tables, and the number of the header's node.
#[derive(Clone, Copy)]
pub struct Case<'a> {
    pub claim: &'a StackClaim<'a>,
    pub note: &'a LoopNote,
    pub header: usize,
    pub certificate: &'a StackCertificate,
}

/// Whether a node is code of the loop.
pub fn is_body(certificate: &StackCertificate, k: usize) -> bool
    requires { k < length certificate.now.body.items }
    ensures { result ≡ certified.body_at certificate.now k }
{
    certificate.body[k]
}

/// Whether it may run while a call is open.
pub fn is_quiet(certificate: &StackCertificate, k: usize) -> bool
    requires { k < length certificate.now.quiet.items }
    ensures { result ≡ certified.quiet_at certificate.now k }
{
    certificate.quiet[k]
}

/// What its instruction adds.
pub fn adds(certificate: &StackCertificate, k: usize) -> u32
    requires { k < length certificate.now.adds.items }
    ensures { result ≡ certified.adds_at certificate.now k }
{
    certificate.adds[k]
}

/// What has been added before it.
pub fn offset(certificate: &StackCertificate, k: usize) -> u32
    requires { k < length certificate.now.offset.items }
    ensures { result ≡ certified.offset_at certificate.now k }
{
    certificate.offset[k]
}

/// What has been added behind it.
pub fn behind(certificate: &StackCertificate, k: usize) -> u32
    requires adds { k < length certificate.now.adds.items }
    requires offset { k < length certificate.now.offset.items }
    ensures { result ≡ certified.behind_at certificate.now k }
{
    certificate.offset[k].wrapping_add(certificate.adds[k])
}
