//! The fragment whose code stands at an address.

ghost use Rattle.std.specs.Prelude.{◌≡◌, ◌↔◌, ◌+◌, ◌<◌, ◌^◌, ℕ, ℤ, length, Some, IsTrue};
ghost use Rattle.scale_base.specs.declared.instruction.StoreOp.{StoreOp};
ghost use Rattle.scale_base.specs.declared.instruction.LoadOp.{LoadOp};
ghost use Rattle.scale_base.specs.declared.instruction.ImmOp.{ImmOp};
ghost use Rattle.scale_base.specs.Reading.{instr_of};
ghost use Rattle.stub_writer.specs.Fragments as fragments;
ghost use Rattle.stub_writer.specs.Fragments.{IsShadow};
ghost use Rattle.foreign_scan.specs.Form.{HoldsAt, Hold, foreign_len};
ghost use Rattle.foreign_scan.specs.KeyWords.{FragmentStandsAt};

use crate::fragment::ForeignFragment;
use crate::key::KeyCode;
use crate::parts;
use rv_encode::encode;
use scale_base::Instr;
use stub_writer::{count_code, exit_code, reset_code, switch_code};

/// The window's word of an offset from x0, if the offset is one of a word of the window.
fn window_word(offset: i32) -> Option<u16>
    ensures { (k : ℕ) → k < 512 → offset ≡ fragments.slot k → result ≡ Some k }
{
    if -2048 <= offset && offset < 0 {
        Some(((offset + 2048) / 4) as u16)
    } else {
        None
    }
}

/// A number of which a LUI has the upper part and another instruction the lower one.
fn joined(high: u32, low: i32) -> u32
    ensures { (c : ℕ) → c < 2 ^ 32 → high ≡ fragments.hi c → low ≡ fragments.lo c → result ≡ c }
{
    high.wrapping_add(low.cast_unsigned())
}

fn is_shadow(counter: u16) -> bool
    ensures { IsTrue result ↔ IsShadow counter }
{
    2 <= counter && counter < 511
}

/// The offset of the store at an address.
fn stored_offset(key: &KeyCode<'_>, at: u64) -> Option<i32>
    ensures { (op : StoreOp) (rs1 rs2 : ℕ) (offset : ℤ) → HoldsAt key.now at (Instr.Store op rs1 rs2 offset) → result ≡ Some offset }
{
    parts::store_offset(key.instr(at))
}

/// The offset of the load at an address.
fn loaded_offset(key: &KeyCode<'_>, at: u64) -> Option<i32>
    ensures { (op : LoadOp) (rd rs1 : ℕ) (offset : ℤ) → HoldsAt key.now at (Instr.Load op rd rs1 offset) → result ≡ Some offset }
{
    parts::load_offset(key.instr(at))
}

/// The number of the immediate operation at an address.
fn immediate(key: &KeyCode<'_>, at: u64) -> Option<i32>
    ensures { (op : ImmOp) (rd rs1 : ℕ) (imm : ℤ) → HoldsAt key.now at (Instr.Imm op rd rs1 imm) → result ≡ Some imm }
{
    parts::number(key.instr(at))
}

/// The number of the LUI at an address.
fn upper(key: &KeyCode<'_>, at: u64) -> Option<u32>
    ensures { (rd imm : ℕ) → HoldsAt key.now at (Instr.Lui rd imm) → result ≡ Some imm }
{
    parts::upper(key.instr(at))
}

/// The word of a Switch, if one stands at the address.
fn switch_word(key: &KeyCode<'_>, at: u64) -> Option<u32>
    requires { at < 2 ^ 33 }
    ensures { (word : ℕ) → word < 2 ^ 32 → Hold key.now at (fragments.switch_code word) → result ≡ Some word }
{
    let high = upper(key, at + 16)?;
    let low = immediate(key, at + 20)?;
    Some(joined(high, low))
}

/// The table of an Exit, if one stands at the address.
fn exit_table(key: &KeyCode<'_>, at: u64) -> Option<u32>
    requires { at < 2 ^ 33 }
    ensures { (counter shift table : ℕ) → table < 2 ^ 32 → Hold key.now at (fragments.exit_code counter shift table) → result ≡ Some table }
{
    let high = upper(key, at + 20)?;
    let low = loaded_offset(key, at + 28)?;
    Some(joined(high, low))
}

/// The shift of an Exit, if one stands at the address.
fn exit_shift(key: &KeyCode<'_>, at: u64) -> Option<u8>
    requires { at < 2 ^ 33 }
    ensures { (counter shift table : ℕ) → shift < 32 → Hold key.now at (fragments.exit_code counter shift table) → result ≡ Some shift }
{
    let imm = immediate(key, at + 12)?;
    if 0 <= imm && imm < 32 {
        Some(imm as u8)
    } else {
        None
    }
}

/// The counter of an Exit, if one stands at the address.
fn exit_counter(key: &KeyCode<'_>, at: u64) -> Option<u16>
    requires { at < 2 ^ 33 }
    ensures { (counter shift table : ℕ) → counter < 512 → Hold key.now at (fragments.exit_code counter shift table) →
        result ≡ Some counter }
{
    window_word(loaded_offset(key, at + 8)?)
}

/// The Exit that stands at the address, if one does.
fn exit_at(key: &KeyCode<'_>, at: u64) -> Option<ForeignFragment>
    requires { at < 2 ^ 33 }
    ensures { (counter shift table : ℕ) → FragmentStandsAt key.now at (ForeignFragment.Exit counter shift table) →
        result ≡ Some (ForeignFragment.Exit counter shift table) }
{
    let counter = exit_counter(key, at)?;
    let shift = exit_shift(key, at)?;
    let table = exit_table(key, at)?;
    Some(ForeignFragment::Exit {
        counter,
        shift,
        table,
    })
}

/// The Switch that stands at the address, if one does.
fn switch_at(key: &KeyCode<'_>, at: u64) -> Option<ForeignFragment>
    requires { at < 2 ^ 33 }
    ensures { (word : ℕ) → FragmentStandsAt key.now at (ForeignFragment.Switch word) → result ≡ Some (ForeignFragment.Switch word) }
{
    let word = switch_word(key, at)?;
    Some(ForeignFragment::Switch { word })
}

/// The Count that stands at the address, if one does.
fn count_at(key: &KeyCode<'_>, at: u64) -> Option<ForeignFragment>
    requires { at < 2 ^ 33 }
    ensures { (counter : ℕ) → FragmentStandsAt key.now at (ForeignFragment.Count counter) → result ≡ Some (ForeignFragment.Count counter) }
{
    let counter = window_word(loaded_offset(key, at + 4)?)?;
    Some(ForeignFragment::Count { counter })
}

/// The Reset that stands at the address, if one does.
fn reset_at(key: &KeyCode<'_>, at: u64) -> Option<ForeignFragment>
    ensures { (counter : ℕ) → FragmentStandsAt key.now at (ForeignFragment.Reset counter) → result ≡ Some (ForeignFragment.Reset counter) }
{
    let counter = window_word(stored_offset(key, at)?)?;
    Some(ForeignFragment::Reset { counter })
}

/// The one fragment that may stand at an address, by its first three instructions: a Reset stores x0 first, the second one of a Count is a load, and the third
/// one of a Switch loads the speed port.
fn candidate(key: &KeyCode<'_>, at: u64) -> Option<ForeignFragment>
    requires { at < 2 ^ 33 }
    ensures { (f : ForeignFragment) → FragmentStandsAt key.now at f → result ≡ Some f }
{
    if parts::clears(key.instr(at)) {
        return reset_at(key, at);
    }
    if parts::is_load(key.instr(at + 4)) {
        return count_at(key, at);
    }
    if parts::loads_port(key.instr(at + 8)) {
        return switch_at(key, at);
    }
    exit_at(key, at)
}

/// Whether a word is the one of an instruction.
fn is_word_of(word: u32, wanted: &Instr) -> bool
    ensures { IsTrue result ↔ (instr_of word ≡ Some wanted.now) }
{
    match encode(wanted) {
        Some(code) => code == word,
        None => false,
    }
}

/// Whether an instruction stands at an address.
pub fn holds_at(key: &KeyCode<'_>, at: u64, wanted: &Instr) -> bool
    ensures { IsTrue result ↔ HoldsAt key.now at wanted.now }
{
    match key.word(at) {
        Some(word) => is_word_of(word, wanted),
        None => false,
    }
}

/// Whether the instructions stand at an address one after another.
fn holds(key: &KeyCode<'_>, at: u64, code: &[Instr]) -> bool
    requires at { at < 2 ^ 33 }
    requires few { length code.now < 2 ^ 33 }
    ensures { IsTrue result ↔ Hold key.now at code.now }
{
    for k in 0..code.len() {
        if !holds_at(key, at + 4 * k as u64, &code[k]) {
            return false;
        }
    }
    true
}

/// Whether a fragment stands at an address, and its numbers fit.
fn stands(key: &KeyCode<'_>, at: u64, fragment: &ForeignFragment) -> bool
    requires { at < 2 ^ 33 }
    ensures { IsTrue result ↔ FragmentStandsAt key.now at fragment.now }
{
    match *fragment {
        ForeignFragment::Switch { word } => holds(key, at, &switch_code(word)),
        ForeignFragment::Exit {
            counter,
            shift,
            table,
        } => is_shadow(counter) && shift < 32 && holds(key, at, &exit_code(counter, shift, table)),
        ForeignFragment::Reset { counter } => {
            is_shadow(counter) && holds(key, at, &reset_code(counter))
        }
        ForeignFragment::Count { counter } => {
            is_shadow(counter) && holds(key, at, &count_code(counter))
        }
    }
}

/// The fragment whose code stands at an address, with its counter a shadow counter and its shift below 32. None exactly where there is no such fragment: no
/// two fragments stand at one address. An address past the last one holds none.
pub fn read_fragment(key: &KeyCode<'_>, at: u64) -> Option<ForeignFragment>
    requires { at < 2 ^ 33 }
    ensures { (f : ForeignFragment) → (result ≡ Some f) ↔ FragmentStandsAt key.now at f }
{
    let fragment = candidate(key, at)?;
    if stands(key, at, &fragment) {
        Some(fragment)
    } else {
        None
    }
}

/// How many instructions a fragment has.
pub fn code_len(fragment: &ForeignFragment) -> u64
    ensures len { result ≡ foreign_len fragment.now }
    ensures few { result < 17 }
{
    match fragment {
        ForeignFragment::Switch { .. } => 11,
        ForeignFragment::Exit { .. } => 16,
        ForeignFragment::Reset { .. } => 1,
        ForeignFragment::Count { .. } => 5,
    }
}
