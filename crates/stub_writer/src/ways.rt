ghost use Rattle.std.specs.Prelude.{◌≡◌, ℕ, true, ◌++◌, ◌+◌, ◌*◌, ◌%◌, ◌^◌, ◌<◌, ◌≤◌, length, OnOk};
ghost use Rattle.std.specs.List.{All, sum_by};
ghost use Rattle.scale_base.specs.Word.{FieldsInRange, word_of};
ghost use Rattle.rv_encode.specs.Jumps as jumps;
ghost use Rattle.stub_writer.specs.Fragments as codes;
ghost use Rattle.stub_writer.specs.Stubs as stubs;
ghost use Rattle.stub_writer.specs.Sites as sites;

use crate::codes::push_fragment;
use crate::site::StubEdge;
use crate::words::{address, push_code};
use rv_encode::jal_fits;
use scale_base::{EdgeKind, Fragment, Instr, NoMemory};

fn kind_number(kind: EdgeKind) -> u8
    ensures is { result ≡ sites.kind_number kind }
    ensures small { result ≤ 5 }
{
    match kind {
        EdgeKind::Taken => 0,
        EdgeKind::Untaken => 1,
        EdgeKind::Jump => 2,
        EdgeKind::Next => 3,
        EdgeKind::CallNext => 4,
        EdgeKind::End => 5,
    }
}

/// The fragments of the edge of the kind.
pub fn fragments_by(edges: &[StubEdge], kind: EdgeKind) -> &[Fragment]
    ensures { result.now ≡ sites.fragments_by (sites.kind_number kind) edges.now }
{
    for edge in edges {
        if kind_number(edge.edge.kind) == kind_number(kind) {
            return edge.fragments.all();
        }
    }
    &[]
}

pub fn code_len(fragment: &Fragment) -> u64
    ensures is { result ≡ codes.code_len fragment.now }
    ensures small { result ≤ 16 }
{
    match fragment {
        Fragment::Switch { .. } => 11,
        Fragment::Exit { .. } => 16,
        Fragment::Reset { .. } => 1,
        Fragment::Count { .. } => 5,
        Fragment::Lowest { .. } => 1,
        Fragment::Tally { .. } => 10,
    }
}

pub fn rows_len(fragment: &Fragment) -> u64
    requires { codes.IsFragment fragment.now }
    ensures is { result ≡ codes.rows_len fragment.now }
    ensures small { result ≤ 16 }
{
    match fragment {
        Fragment::Exit { rows, .. } => u64::from(rows.count()),
        _ => 0,
    }
}

/// Whether a jump reaches its target.
#[tactic(auto, using(crate::proofs::Reach::reaches_as))]
pub fn reaches(from: u64, to: u64) -> bool
    ensures { result ≡ stubs.reaches from to }
{
    jal_fits(address(from), address(to))
}

/// The distance that a jump has.
fn distance(from: u32, to: u32) -> i32
    ensures { result ≡ jumps.distance from to }
{
    to.wrapping_sub(from).cast_signed()
}

/// A jump that reaches its target.
pub fn jump(from: u64, to: u64) -> Instr
    ensures { result ≡ stubs.jump from to }
{
    Instr::Jal {
        rd: 0,
        offset: distance(address(from), address(to)),
    }
}

/// The length of the fragments, in words.
pub fn codes_len(fragments: &[Fragment]) -> u64
    requires { length fragments.now ≤ 17 }
    ensures is { result ≡ sum_by codes.code_len fragments.now }
    ensures small { result ≤ 272 }
{
    let mut len = 0;
    for fragment in fragments {
        len += code_len(fragment);
    }
    len
}

/// The number of the fragments' rows.
pub fn all_rows_len(fragments: &[Fragment]) -> u64
    requires few { length fragments.now ≤ 17 }
    requires each { All codes.IsFragment fragments.now }
    ensures is { result ≡ length (stubs.rows_by fragments.now) }
    ensures small { result ≤ 272 }
{
    let mut len = 0;
    for fragment in fragments {
        len += rows_len(fragment);
    }
    len
}

/// Adds the code of the fragments, of which the rows begin at `table`.
pub fn push_fragments(out: &mut Vec<u8>, table: u64, fragments: &[Fragment]) -> Result<(), NoMemory>
    requires few { length fragments.now ≤ 17 }
    requires each { All codes.IsFragment fragments.now }
    requires table { table ≤ 2 ^ 40 }
    ensures { OnOk result (out.new.items ≡ out.old.items ++ stubs.code_bytes (stubs.fragments_code table fragments.now)) }
{
    let mut at = table;
    for fragment in fragments {
        push_fragment(out, at, fragment)?;
        at += 4 * rows_len(fragment);
    }
    Ok(())
}

/// Adds the code of a way, whose fragments begin at `at`.
#[tactic(auto, using(crate::proofs::Reach::jump_fits))]
pub fn push_way(
    out: &mut Vec<u8>,
    at: u64,
    table: u64,
    fragments: &[Fragment],
    to: u64,
) -> Result<(), NoMemory>
    requires few { length fragments.now ≤ 17 }
    requires each { All codes.IsFragment fragments.now }
    requires place { at ≤ 2 ^ 40 }
    requires table { table ≤ 2 ^ 40 }
    requires reach { stubs.reaches (stubs.jump_at at (stubs.way to fragments.now)) to ≡ true }
    ensures { OnOk result (out.new.items ≡ out.old.items ++ stubs.code_bytes (stubs.way_code at table (stubs.way to fragments.now))) }
{
    push_fragments(out, table, fragments)?;
    push_code(out, &[jump(at + 4 * codes_len(fragments), to)])
}
