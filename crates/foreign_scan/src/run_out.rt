//! The code that a stub holds for one edge.

ghost use Rattle.std.specs.Prelude.{◌≡◌, ◌↔◌, ◌+◌, ◌*◌, ◌≤◌, ◌<◌, ◌^◌, List, IfOk, IfSome, IfNone, Some, IsTrue};
ghost use Rattle.foreign_scan.specs.declared.fragment.ForeignFragment.{ForeignFragment};
ghost use Rattle.foreign_scan.specs.Form.{ChoosesNone, FirstChooses, JumpsTo, IsRunOut, behind_fragments};
ghost use Rattle.foreign_scan.specs.RunOuts.{AreAt, IsWhole};

use crate::fragment::ForeignFragment;
use crate::key::KeyCode;
use crate::parts;
use crate::reading::{code_len, read_fragment};
use scale_base::NoMemory;
use std::alloc::Global;

/// How many fragments a run-out has at most.
const MOST_FRAGMENTS: usize = 64;

/// Whether a fragment chooses no level.
fn chooses_none(fragment: &ForeignFragment) -> bool
    ensures { IsTrue result ↔ ChoosesNone fragment.now }
{
    match fragment {
        ForeignFragment::Switch { .. } | ForeignFragment::Exit { .. } => false,
        ForeignFragment::Reset { .. } | ForeignFragment::Count { .. } => true,
    }
}

/// Whether at most the first fragment chooses a level.
fn first_chooses(fragments: &[ForeignFragment]) -> bool
    ensures { IsTrue result ↔ FirstChooses fragments.now }
{
    for k in 1..fragments.len() {
        if !chooses_none(&fragments[k]) {
            return false;
        }
    }
    true
}

/// Whether a jump that links no register stands at an address, and goes to another one.
fn jumps_to(key: &KeyCode<'_>, at: u64, to: u32) -> bool
    requires { at < 2 ^ 33 }
    ensures { IsTrue result ↔ JumpsTo key.now at to }
{
    match parts::goto_offset(key.instr(at)) {
        Some(offset) => (at + u64::from(offset.cast_unsigned())) % (1 << 32) == u64::from(to),
        None => false,
    }
}

/// The fragments that stand one after another from an address on, the first 64 of them, and where they end. Err only for want of memory.
fn read_fragments(
    alloc: Global,
    key: &KeyCode<'_>,
    at: u64,
) -> Result<(Vec<ForeignFragment>, u64), NoMemory>
    requires { at ≤ 2 ^ 32 + 4 }
    ensures fragments { IfOk result (λ r. AreAt key.now at r.0.items) }
    ensures whole { IfOk result (λ r. IsWhole key.now at r.0.items) }
    ensures end { IfOk result (λ r. r.1 ≡ behind_fragments at r.0.items) }
    ensures fits { IfOk result (λ r. r.1 < 2 ^ 33) }
{
    let mut fragments = Vec::new(alloc);
    let mut end = at;
    for _ in 0..MOST_FRAGMENTS {
        match read_fragment(key, end) {
            Some(fragment) => {
                end += 4 * code_len(&fragment);
                fragments.push(fragment)?;
            }
            None => return Ok((fragments, end)),
        }
    }
    Ok((fragments, end))
}

/// The run-out that stands at an address and goes to another one: its fragments, at most 64, of which at most the first is a Switch or an Exit, and then a jump.
/// None exactly where there is none. No two run-outs stand at one address. Err only for want of memory.
pub fn read_run_out(
    alloc: Global,
    key: &KeyCode<'_>,
    at: u64,
    to: u32,
) -> Result<Option<Vec<ForeignFragment>>, NoMemory>
    requires { at ≤ 2 ^ 32 + 4 }
    ensures found { IfOk result (λ found. IfSome found (λ fs. IsRunOut key.now at to fs.items)) }
    ensures only { IfOk result (λ found. IfSome found (λ fs. (others : List ForeignFragment) → IsRunOut key.now at to others →
        others ≡ fs.items)) }
    ensures none { IfOk result (λ found. IfNone found ((fs : List ForeignFragment) → IsRunOut key.now at to fs → ⊥)) }
{
    let (fragments, end) = read_fragments(alloc, key, at)?;
    if first_chooses(&fragments) && jumps_to(key, end, to) {
        Ok(Some(fragments))
    } else {
        Ok(None)
    }
}
