//! Where values come from.

ghost use Rattle.std.specs.Prelude.{◌≡◌, true};
ghost use Rattle.stack_laws.specs.Stacks as stacks;
ghost use Rattle.wrapped_intervals.specs.Small.{IsFoundOr};
ghost use Rattle.stack_tables.specs.Tables.{named};

use crate::tables::Name;
use wrapped_intervals::{Arc, exactly};

// Whether both are the same.
fn is_same(a: Name, b: Name) -> bool
    ensures { result ≡ true → a ≡ b }
{
    match (a, b) {
        (Name::OfBegin(r, more), Name::OfBegin(s, other)) => r == s && more == other,
        (Name::OfWord(k, more), Name::OfWord(j, other)) => k == j && more == other,
        _ => false,
    }
}

/// Whether both are the same, or unknown.
pub fn is_same_name(a: Option<Name>, b: Option<Name>) -> bool
    ensures { result ≡ true → named a ≡ named b }
{
    match (a, b) {
        (Some(a), Some(b)) => is_same(a, b),
        (None, None) => true,
        _ => false,
    }
}

/// How far a value is above what x2 had when the function began, by its name.
pub fn name_span(name: Option<Name>) -> Option<Arc>
    ensures span { result ≡ stacks.name_span (named name) }
    ensures found { IsFoundOr result }
{
    match name {
        Some(Name::OfBegin(r, more)) => {
            if r == 2 {
                exactly(u64::from(more))
            } else {
                None
            }
        }
        Some(Name::OfWord(_, _)) => None,
        None => None,
    }
}

/// The name of a value that is greater by so much.
pub fn more_of(name: Option<Name>, n: u32) -> Option<Name>
    ensures { named result ≡ stacks.more_of (named name) n }
{
    match name {
        Some(Name::OfBegin(r, more)) => Some(Name::OfBegin(r, more.wrapping_add(n))),
        Some(Name::OfWord(k, more)) => Some(Name::OfWord(k, more.wrapping_add(n))),
        None => None,
    }
}

/// How far an address is above what x2 had when the function began, where the name of its register says it.
pub fn offset_of(name: Option<Name>, n: u32) -> Option<u32>
    ensures { result ≡ stacks.offset_of (named name) n }
{
    match name {
        Some(Name::OfBegin(r, more)) => {
            if r == 2 {
                Some(more.wrapping_add(n))
            } else {
                None
            }
        }
        Some(Name::OfWord(_, _)) => None,
        None => None,
    }
}
