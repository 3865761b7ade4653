ghost use Rattle.std.specs.Prelude.{◌≡◌, ℕ, pos, true, ◌++◌, ◌+◌, ◌*◌, ◌%◌, ◌^◌, ◌<◌, ◌≤◌, ◌∷◌, [], length, OnOk};
ghost use Rattle.std.specs.List.{All};
ghost use Rattle.scale_base.specs.Word.{FieldsInRange};
ghost use Rattle.scale_base.specs.declared.instruction.Instr.TheVariants.{Branch};
ghost use Rattle.scale_base.specs.Arith as arith;
ghost use Rattle.stub_writer.specs.Fragments as codes;
ghost use Rattle.stub_writer.specs.Stubs as stubs;
ghost use Rattle.stub_writer.specs.Stubs.{Forked};
ghost use Rattle.stub_writer.specs.Sites as sites;

use crate::site::StubSite;
use crate::ways::{all_rows_len, codes_len, fragments_by, push_way, reaches};
use crate::words::push_code;
use scale_base::{BranchOp, EdgeKind, Fragment, Instr, NoMemory};

/// What stands in a stub for an edge: its fragments, and the address that it leads to behind them.
#[derive(Clone, Copy)]
struct Way<'a> {
    fragments: &'a [Fragment],
    target: u64,
}

/// What the stub of a branch holds: the branch's comparison and registers, and the way of each of its edges.
#[derive(Clone, Copy)]
struct Fork<'a> {
    op: BranchOp,
    rs1: u8,
    rs2: u8,
    untaken: Way<'a>,
    taken: Way<'a>,
}

/// The fragments of the site's edge of the kind.
#[tactic(auto, using(crate::proofs::SiteLaws::marked_fit))]
pub fn marked(site: &StubSite, kind: EdgeKind) -> &[Fragment]
    requires { sites.IsSite site.now }
    ensures is { result.now ≡ sites.fragments_by (sites.kind_number kind) site.now.edges }
    ensures few { length result.now ≤ 17 }
    ensures each { All codes.IsFragment result.now }
{
    fragments_by(site.edges.all(), kind)
}

fn target(at: u32, offset: i32) -> u64
    ensures is { result ≡ arith.moved_by at offset }
    ensures small { result < 2 ^ 32 }
{
    at.wrapping_add(offset.cast_unsigned()) as u64
}

fn next(at: u32) -> u64
    ensures is { result ≡ arith.plus at 4 }
    ensures small { result < 2 ^ 32 }
{
    at.wrapping_add(4) as u64
}

/// The length of the site's stub, in words.
pub fn stub_len(site: &StubSite) -> u64
    requires { sites.IsSite site.now }
    ensures is { result ≡ stubs.stub_len (sites.site_of site.now) }
    ensures small { result ≤ 547 }
{
    match site.instr {
        Instr::Branch { .. } => {
            let untaken = codes_len(marked(site, EdgeKind::Untaken));
            let taken = codes_len(marked(site, EdgeKind::Taken));
            1 + (untaken + 1) + (taken + 1)
        },
        Instr::Jal { .. } => codes_len(marked(site, EdgeKind::Jump)) + 1,
        _ => 1,
    }
}

/// The number of the rows of the site's stub.
pub fn stub_rows_len(site: &StubSite) -> u64
    requires { sites.IsSite site.now }
    ensures is { result ≡ length (stubs.stub_rows (sites.site_of site.now)) }
    ensures small { result ≤ 544 }
{
    match site.instr {
        Instr::Branch { .. } => {
            let untaken = all_rows_len(marked(site, EdgeKind::Untaken));
            let taken = all_rows_len(marked(site, EdgeKind::Taken));
            untaken + taken
        },
        Instr::Jal { .. } => all_rows_len(marked(site, EdgeKind::Jump)),
        _ => 0,
    }
}

fn fork_reaches(at: u64, untaken: &[Fragment], taken: &[Fragment], next: u64, target: u64) -> bool
    requires at { at ≤ 2 ^ 40 }
    requires few { length untaken.now ≤ 17 }
    requires few_too { length taken.now ≤ 17 }
    ensures { result ≡ stubs.fork_reaches at (stubs.way next untaken.now) (stubs.way target taken.now) }
{
    let second = at + 4 + 4 * (codes_len(untaken) + 1);
    reaches(at + 4 + 4 * codes_len(untaken), next) && reaches(second + 4 * codes_len(taken), target)
}

/// Whether the jumps of the site's stub reach their targets.
pub fn stub_reaches(site: &StubSite, at: u64) -> bool
    requires site { sites.IsSite site.now }
    requires at { at ≤ 2 ^ 40 }
    ensures { result ≡ stubs.stub_reaches_of at (sites.site_of site.now).place }
{
    match site.instr {
        Instr::Branch { offset, .. } => {
            let untaken = marked(site, EdgeKind::Untaken);
            let taken = marked(site, EdgeKind::Taken);
            fork_reaches(at, untaken, taken, next(site.at), target(site.at, offset))
        },
        Instr::Jal { offset, .. } => {
            let fragments = marked(site, EdgeKind::Jump);
            reaches(at + 4 * codes_len(fragments), target(site.at, offset))
        },
        _ => reaches(at, site.at as u64),
    }
}

fn push_branch(out: &mut Vec<u8>, op: BranchOp, rs1: u8, rs2: u8, len: u64) -> Result<(), NoMemory>
    requires rs1 { rs1 < 32 }
    requires rs2 { rs2 < 32 }
    requires len { len ≤ 273 }
    ensures { OnOk result (out.new.items ≡ out.old.items ++ stubs.code_bytes (Branch op rs1 rs2 (pos (4 + 4 * len)) ∷ [])) }
{
    let offset = 4 + 4 * len as i32;
    push_code(
        out,
        &[Instr::Branch {
            op,
            rs1,
            rs2,
            offset,
        }],
    )
}

/// Adds the two ways of a branch's stub.
#[tactic(auto, using(crate::proofs::SiteLaws::code_bytes_append))]
fn push_ways(out: &mut Vec<u8>, at: u64, table: u64, fork: &Fork<'_>) -> Result<(), NoMemory>
    requires few { length fork.now.untaken.fragments.now ≤ 17 }
    requires few_too { length fork.now.taken.fragments.now ≤ 17 }
    requires each { All codes.IsFragment fork.now.untaken.fragments.now }
    requires each_too { All codes.IsFragment fork.now.taken.fragments.now }
    requires at { at ≤ 2 ^ 39 }
    requires table { table ≤ 2 ^ 39 }
    requires reach { stubs.fork_reaches at (stubs.way fork.now.untaken.target fork.now.untaken.fragments.now)
        (stubs.way fork.now.taken.target fork.now.taken.fragments.now) ≡ true }
    ensures { OnOk result (out.new.items ≡ out.old.items ++ stubs.code_bytes (stubs.ways_code at table
        (stubs.way fork.now.untaken.target fork.now.untaken.fragments.now)
        (stubs.way fork.now.taken.target fork.now.taken.fragments.now))) }
{
    let untaken = fork.untaken.fragments;
    let second = at + 4 + 4 * (codes_len(untaken) + 1);
    push_way(out, at + 4, table, untaken, fork.untaken.target)?;
    push_way(
        out,
        second,
        table + 4 * all_rows_len(untaken),
        fork.taken.fragments,
        fork.taken.target,
    )
}

/// Adds the stub of a branch.
fn push_fork(out: &mut Vec<u8>, at: u64, table: u64, fork: &Fork<'_>) -> Result<(), NoMemory>
    requires rs1 { fork.now.rs1 < 32 }
    requires rs2 { fork.now.rs2 < 32 }
    requires few { length fork.now.untaken.fragments.now ≤ 17 }
    requires few_too { length fork.now.taken.fragments.now ≤ 17 }
    requires each { All codes.IsFragment fork.now.untaken.fragments.now }
    requires each_too { All codes.IsFragment fork.now.taken.fragments.now }
    requires at { at ≤ 2 ^ 39 }
    requires table { table ≤ 2 ^ 39 }
    requires reach { stubs.fork_reaches at (stubs.way fork.now.untaken.target fork.now.untaken.fragments.now)
        (stubs.way fork.now.taken.target fork.now.taken.fragments.now) ≡ true }
    ensures { OnOk result (out.new.items ≡ out.old.items ++ stubs.code_bytes (stubs.stub_code_of at table
        (Forked fork.now.op fork.now.rs1 fork.now.rs2 (stubs.way fork.now.untaken.target fork.now.untaken.fragments.now)
        (stubs.way fork.now.taken.target fork.now.taken.fragments.now)))) }
{
    push_branch(
        out,
        fork.op,
        fork.rs1,
        fork.rs2,
        codes_len(fork.untaken.fragments) + 1,
    )?;
    push_ways(out, at, table, fork)?;
    Ok(())
}

/// Adds the code of the site's stub.
pub fn push_stub(out: &mut Vec<u8>, at: u64, table: u64, site: &StubSite) -> Result<(), NoMemory>
    requires site { sites.IsSite site.now }
    requires at { at ≤ 2 ^ 39 }
    requires table { table ≤ 2 ^ 39 }
    requires reach { stubs.stub_reaches_of at (sites.site_of site.now).place ≡ true }
    ensures { OnOk result (out.new.items ≡ out.old.items ++ stubs.code_bytes (stubs.stub_code_of at table (sites.site_of site.now).place)) }
{
    match site.instr {
        Instr::Branch {
            op,
            rs1,
            rs2,
            offset,
        } => {
            let untaken = Way {
                fragments: marked(site, EdgeKind::Untaken),
                target: next(site.at),
            };
            let taken = Way {
                fragments: marked(site, EdgeKind::Taken),
                target: target(site.at, offset),
            };
            let fork = Fork {
                op,
                rs1,
                rs2,
                untaken,
                taken,
            };
            push_fork(out, at, table, &fork)
        },
        Instr::Jal { offset, .. } => {
            let fragments = marked(site, EdgeKind::Jump);
            push_way(out, at, table, fragments, target(site.at, offset))
        },
        _ => Ok(()),
    }
}
