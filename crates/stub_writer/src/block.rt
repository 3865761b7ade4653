ghost use Rattle.std.specs.Prelude.{◌≡◌, ℕ, true, None, Some, ◌++◌, ◌+◌, ◌*◌, ◌%◌, ◌^◌, ◌<◌, ◌≤◌, length, map, take, OnOk, IfOk, IfErr};
ghost use Rattle.std.specs.List.{All, flat_map};
ghost use Rattle.scale_base.specs.Word.{word_of};
ghost use Rattle.scale_base.specs.Answer.{Answers};
ghost use Rattle.stub_writer.specs.Block.{block_view, emitted};
ghost use Rattle.stub_writer.specs.Fragments as codes;
ghost use Rattle.stub_writer.specs.Stubs as stubs;
ghost use Rattle.stub_writer.specs.Sites as sites;

use crate::site::{StubBlock, StubSite};
use crate::stubs::{marked, push_stub, stub_len, stub_reaches, stub_rows_len};
use crate::ways::{jump, reaches};
use crate::words::push_word;
use rv_encode::encode;
use scale_base::{EdgeKind, Fragment, Instr, NoMemory, Patch, Refusal, Rows, Stop, WORD_LIMIT};
use std::alloc::Global;

/// The length of all stubs, in words.
fn stubs_len(list: &[StubSite]) -> u64
    requires few { length list.now ≤ WORD_LIMIT }
    requires each { All sites.IsSite list.now }
    ensures is { result ≡ stubs.stubs_len (map sites.site_of list.now) }
    ensures small { result ≤ 547 * WORD_LIMIT }
{
    let mut len = 0;
    for site in list {
        len += stub_len(site);
    }
    len
}

/// The number of all rows.
fn block_rows_len(list: &[StubSite]) -> u64
    requires few { length list.now ≤ WORD_LIMIT }
    requires each { All sites.IsSite list.now }
    ensures is { result ≡ length (stubs.block_rows (map sites.site_of list.now)) }
    ensures small { result ≤ 544 * WORD_LIMIT }
{
    let mut len = 0;
    for site in list {
        len += stub_rows_len(site);
    }
    len
}

/// The length of the block, in bytes.
pub fn block_len(list: &[StubSite]) -> u32
    requires few { length list.now ≤ WORD_LIMIT }
    requires each { All sites.IsSite list.now }
    ensures { result ≡ stubs.block_size (map sites.site_of list.now) }
{
    4 * (stubs_len(list) + block_rows_len(list)) as u32
}

fn is_near(site: &StubSite, at: u64) -> bool
    requires site { sites.IsSite site.now }
    requires at { at ≤ 2 ^ 40 }
    ensures { result ≡ stubs.is_near at (sites.site_of site.now) }
{
    reaches(site.at as u64, at) && stub_reaches(site, at)
}

/// The least instruction of which a jump to or from its stub does not fit.
fn out_of_reach(list: &[StubSite], base: u32) -> Option<u32>
    requires few { length list.now ≤ WORD_LIMIT }
    requires each { All sites.IsSite list.now }
    ensures { result ≡ stubs.out_of_reach base (map sites.site_of list.now) }
{
    let mut at = base as u64;
    for site in list {
        if !is_near(site, at) {
            return Some(site.at);
        }
        at += 4 * stub_len(site);
    }
    None
}

/// Adds the code of the stubs, of which the rows begin at `table`.
fn push_stubs(out: &mut Vec<u8>, base: u32, table: u64, list: &[StubSite]) -> Result<(), NoMemory>
    requires few { length list.now ≤ WORD_LIMIT }
    requires each { All sites.IsSite list.now }
    requires near { stubs.out_of_reach base (map sites.site_of list.now) ≡ None }
    requires table { table ≤ 2 ^ 34 }
    ensures { OnOk result (out.new.items ≡ out.old.items ++ stubs.code_bytes (stubs.stubs_code base table (map sites.site_of list.now))) }
{
    let mut at = base as u64;
    let mut rows = table;
    for site in list {
        push_stub(out, at, rows, site)?;
        at += 4 * stub_len(site);
        rows += 4 * stub_rows_len(site);
    }
    Ok(())
}

fn push_words(out: &mut Vec<u8>, words: &[u32]) -> Result<(), NoMemory>
    ensures { OnOk result (out.new.items ≡ out.old.items ++ flat_map stubs.word_bytes words.now) }
{
    for word in words {
        push_word(out, *word)?;
    }
    Ok(())
}

fn push_rows(out: &mut Vec<u8>, rows: &Rows) -> Result<(), NoMemory>
    ensures { OnOk result (out.new.items ≡ out.old.items ++ flat_map stubs.word_bytes rows.now) }
{
    push_words(out, &rows.words[..usize::from(rows.len)])
}

fn push_fragment_rows(out: &mut Vec<u8>, fragment: &Fragment) -> Result<(), NoMemory>
    requires { codes.IsFragment fragment.now }
    ensures { OnOk result (out.new.items ≡ out.old.items ++ flat_map stubs.word_bytes (codes.fragment_rows fragment.now)) }
{
    match fragment {
        Fragment::Exit { rows, .. } => push_rows(out, rows),
        _ => Ok(()),
    }
}

fn push_way_rows(out: &mut Vec<u8>, fragments: &[Fragment]) -> Result<(), NoMemory>
    requires { All codes.IsFragment fragments.now }
    ensures { OnOk result (out.new.items ≡ out.old.items ++ flat_map stubs.word_bytes (stubs.rows_by fragments.now)) }
{
    for fragment in fragments {
        push_fragment_rows(out, fragment)?;
    }
    Ok(())
}

#[tactic(auto, using(crate::proofs::SiteLaws::words_append))]
fn push_stub_rows(out: &mut Vec<u8>, site: &StubSite) -> Result<(), NoMemory>
    requires { sites.IsSite site.now }
    ensures { OnOk result (out.new.items ≡ out.old.items ++ flat_map stubs.word_bytes (stubs.stub_rows (sites.site_of site.now))) }
{
    match site.instr {
        Instr::Branch { .. } => {
            push_way_rows(out, marked(site, EdgeKind::Untaken))?;
            push_way_rows(out, marked(site, EdgeKind::Taken))
        },
        Instr::Jal { .. } => push_way_rows(out, marked(site, EdgeKind::Jump)),
        _ => Ok(()),
    }
}

fn push_block_rows(out: &mut Vec<u8>, list: &[StubSite]) -> Result<(), NoMemory>
    requires { All sites.IsSite list.now }
    ensures { OnOk result (out.new.items ≡ out.old.items ++ flat_map stubs.word_bytes (stubs.block_rows (map sites.site_of list.now))) }
{
    for site in list {
        push_stub_rows(out, site)?;
    }
    Ok(())
}

/// The word of a jump that reaches its target.
#[tactic(auto, using(crate::proofs::Reach::jump_fits))]
fn jump_word(from: u64, to: u64) -> u32
    requires { stubs.reaches from to ≡ true }
    ensures { result ≡ word_of (stubs.jump from to) }
{
    match encode(&jump(from, to)) {
        Some(word) => word,
        None => 0,
    }
}

fn push_patches(out: &mut Vec<Patch>, base: u32, list: &[StubSite]) -> Result<(), NoMemory>
    requires few { length list.now ≤ WORD_LIMIT }
    requires each { All sites.IsSite list.now }
    requires near { stubs.out_of_reach base (map sites.site_of list.now) ≡ None }
    ensures { OnOk result (out.new.items ≡ out.old.items ++ stubs.patches_from base (map sites.site_of list.now)) }
{
    let mut at = base as u64;
    for site in list {
        out.push(Patch {
            at: site.at,
            word: jump_word(site.at as u64, at),
        })?;
        at += 4 * stub_len(site);
    }
    Ok(())
}

/// The block of the stubs at the base, and the patches.
fn block(alloc: Global, list: &[StubSite], base: u32) -> Result<StubBlock, NoMemory>
    requires few { length list.now ≤ WORD_LIMIT }
    requires each { All sites.IsSite list.now }
    requires near { stubs.out_of_reach base (map sites.site_of list.now) ≡ None }
    ensures bytes { IfOk result (λ made. made.bytes.items ≡ stubs.block_bytes base (map sites.site_of list.now)) }
    ensures patches { IfOk result (λ made. made.patches.items ≡ stubs.patches_from base (map sites.site_of list.now)) }
{
    let mut bytes = Vec::new(alloc);
    let mut patches = Vec::new(alloc);
    let table = base as u64 + 4 * stubs_len(list);
    push_stubs(&mut bytes, base, table, list)?;
    push_block_rows(&mut bytes, list)?;
    push_patches(&mut patches, base, list)?;
    Ok(StubBlock { bytes, patches })
}

/// The block of the stubs at the base, and the patches. `StubOutOfReach` names the first marked instruction in the list of which
/// a jump to or from its stub is too far for JAL: the least one where the sites ascend, which is not asked for.
pub fn emit(alloc: Global, list: &[StubSite], base: u32) -> Result<StubBlock, Stop>
    requires few { length list.now ≤ WORD_LIMIT }
    requires each { All sites.IsSite list.now }
    ensures { Answers block_view result (emitted base (map sites.site_of list.now)) }
{
    match out_of_reach(list, base) {
        Some(at) => Err(Stop::Refused(Refusal::StubOutOfReach(at))),
        None => Ok(block(alloc, list, base)?),
    }
}
