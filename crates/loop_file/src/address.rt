//! The addresses in a loop file.

ghost use Rattle.std.specs.Prelude.{◌≡◌, ◌≤◌, IfSome, option_map, option_and_then};
ghost use Rattle.toml.specs.View.{view};
ghost use Rattle.loop_file.specs.Addresses.{HasNoPlus, numeral, address_within, offset_of, split_last, name_and_offset, symbol_address, address_of};

use symbol_index::SortedSymbols;
use table_keys::number_of;
use toml::Value;

/// What is wrong with a value that gives addresses: only that the image lacks a symbol, or something else.
#[derive(Clone, Copy)]
pub enum Fault {
    Absent,
    Bad,
}

fn numeral(text: &str, base: u32) -> Option<u32>
    requires low { 2 ≤ base }
    requires high { base ≤ 36 }
    requires no_plus { HasNoPlus text.now }
    ensures { result ≡ option_and_then address_within (numeral base text.now) }
{
    u32::from_str_radix(text, base).ok()
}

fn offset_of(text: &str) -> Option<u32>
    requires { HasNoPlus text.now }
    ensures { result ≡ offset_of text.now }
{
    match text.strip_prefix("0x") {
        Some(digits) => numeral(digits, 16),
        None => numeral(text, 10),
    }
}

// What stands before the last `+`, which may hold others, and what stands behind it.
fn split_last(text: &str) -> Option<(&str, &str)>
    ensures parts { option_map (λ p. (p.0.now, p.1.now)) result ≡ split_last text.now }
    ensures no_plus { IfSome result (λ p. HasNoPlus p.1.now) }
{
    let (name, offset) = text.rsplit_once('+')?;
    Some((name, offset))
}

fn name_and_offset(text: &str) -> Option<(&str, u32)>
    ensures { option_map (λ p. (p.0.now, p.1)) result ≡ name_and_offset text.now }
{
    match split_last(text) {
        Some((name, offset)) => Some((name, offset_of(offset)?)),
        None => Some((text, 0)),
    }
}

fn symbol_address(symbols: &SortedSymbols<'_>, name: &str, offset: u32) -> Result<u32, Fault>
    ensures { result ≡ symbol_address symbols.now (name.now, offset) }
{
    if name.is_empty() {
        return Err(Fault::Bad);
    }
    match symbols.value(name) {
        Some(value) => value.checked_add(offset).ok_or(Fault::Bad),
        None => Err(Fault::Absent),
    }
}

/// The address that a value gives.
#[tactic(auto, unfolding(crate::specs::Addresses::address_of))]
pub fn address(symbols: &SortedSymbols<'_>, value: &Value) -> Result<u32, Fault>
    ensures { result ≡ address_of symbols.now (view value.now) }
{
    match value {
        Value::Integer(_) => match number_of(value, 0, 0xFFFF_FFFF) {
            Some(n) => Ok(n as u32),
            None => Err(Fault::Bad),
        },
        Value::String(text) => match name_and_offset(text.as_str()) {
            Some((name, offset)) => symbol_address(symbols, name, offset),
            None => Err(Fault::Bad),
        },
        _ => Err(Fault::Bad),
    }
}
