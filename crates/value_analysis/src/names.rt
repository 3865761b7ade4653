//! Where values come from.

ghost use Rattle.std.specs.Prelude.{◌≡◌};

use stack_tables::Name;
use wrapped_intervals::{Arc, exactly};

/// Where the values of the registers come from, by register.
pub type Names = [Option<Name>; 32];

/// The name of a value that is greater by so much.
pub fn raised_name(name: Option<Name>, n: u32) -> Option<Name> {
    match name? {
        Name::OfBegin(register, more) => Some(Name::OfBegin(register, more.wrapping_add(n))),
        Name::OfWord(word, more) => Some(Name::OfWord(word, more.wrapping_add(n))),
    }
}

/// The name of a register; x0 has none.
pub fn name_of(names: &Names, r: u8) -> Option<Name> {
    if r == 0 {
        None
    } else {
        names.get(usize::from(r)).copied().flatten()
    }
}

/// How far above the function's first x2 a name says that a value is.
pub fn offset_of(name: Option<Name>) -> Option<u32> {
    match name {
        Some(Name::OfBegin(2, more)) => Some(more),
        _ => None,
    }
}

/// The same as an interval.
pub fn name_span(name: Option<Name>) -> Option<Arc> {
    match offset_of(name) {
        Some(more) => exactly(u64::from(more)),
        None => None,
    }
}

/// The name of what a register had when its function began.
pub fn begun_name(r: u8) -> Option<Name> {
    Some(Name::OfBegin(r, 0))
}

/// The names where a function begins.
pub fn begun_names() -> Names {
    let mut names = [None; 32];
    for r in 1..32 {
        names[usize::from(r)] = begun_name(r);
    }
    names
}
